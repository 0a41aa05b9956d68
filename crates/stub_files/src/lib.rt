//! Which stub files an interface file gives, and where they are written.
#![tactic(auto)]

ghost use Rattle.std.specs.Prelude.{◌≡◌, ◌++◌, IfOk};
ghost use Rattle.stub_files.specs.StubFiles as spec;
ghost use Rattle.stub_files.specs.Examples.{Examples};

use sgx_base::{Name, Word};
use sqlite_items::Items;
use std::alloc::{AllocError, Global};
use stub_printer::Which;
use tool_words::Choices;

/// A stub file, and its name with its directory.
#[derive(Debug, Drop)]
pub struct StubFile {
    pub which: Which,
    pub name: Word,
}

/// The order in which stub files are written.
const IN_ORDER: [Which; 4] = [
    Which::TrustedHeader,
    Which::TrustedSource,
    Which::UntrustedHeader,
    Which::UntrustedSource,
];

/// The part of a name behind its last slash.
fn base_name(file: &str) -> &str
    ensures { result.now ≡ spec.base_name file.now }
{
    match file.rfind('/') {
        Some(slash) => &file[slash + 1..],
        None => file,
    }
}

/// The name by which the stubs of an interface file are called.
fn stem(file: &str) -> &str
    ensures { result.now ≡ spec.stem file.now }
{
    let name = base_name(file);
    name.strip_suffix(".edl").unwrap_or(name)
}

/// The name by which the stubs of an interface file are called: the part behind its last slash, without a final `.edl`.
pub fn stub_name(alloc: Global, file: &str) -> Result<Name, AllocError>
    ensures { IfOk result (λ name. name ≡ spec.stem file.now) }
{
    Name::new(alloc, stem(file).as_bytes())
}

fn is_trusted(which: Which) -> bool
    ensures { result ≡ spec.is_trusted which }
{
    matches!(which, Which::TrustedHeader | Which::TrustedSource)
}

fn is_header(which: Which) -> bool
    ensures { result ≡ spec.is_header which }
{
    matches!(which, Which::TrustedHeader | Which::UntrustedHeader)
}

fn is_side_written(choices: &Choices, which: Which) -> bool
    ensures { result ≡ spec.is_side_written choices.now which }
{
    if is_trusted(which) {
        choices.trusted || !choices.untrusted
    } else {
        choices.untrusted || !choices.trusted
    }
}

fn is_written(choices: &Choices, which: Which) -> bool
    ensures { result ≡ spec.is_written choices.now which }
{
    is_side_written(choices, which) && (is_header(which) || !choices.header_only)
}

fn end_of(which: Which) -> &'static str
    ensures { result.now ≡ spec.end_of which }
{
    match which {
        Which::TrustedHeader => "_t.h",
        Which::TrustedSource => "_t.c",
        Which::UntrustedHeader => "_u.h",
        Which::UntrustedSource => "_u.c",
    }
}

fn directory_of(choices: &Choices, which: Which) -> &Option<Word>
    ensures { result.now ≡ spec.directory_of choices.now which }
{
    if is_trusted(which) {
        &choices.trusted_dir
    } else {
        &choices.untrusted_dir
    }
}

fn placed(
    alloc: Global,
    directory: &Option<Word>,
    stem: &str,
    end: &str,
) -> Result<Word, AllocError>
    ensures { IfOk result (λ name. name ≡ spec.placed directory.now (stem.now ++ end.now)) }
{
    let name = match directory {
        Some(directory) => {
            let directory = directory.text();
            format!(in alloc; "{directory}/{stem}{end}")?
        }
        None => format!(in alloc; "{stem}{end}")?,
    };
    Word::new(alloc, name.as_str())
}

fn stub_file(
    alloc: Global,
    choices: &Choices,
    file: &str,
    which: Which,
) -> Result<StubFile, AllocError>
    ensures { IfOk result (λ stub. stub ≡ spec.stub_file choices.now file.now which) }
{
    let name = placed(
        alloc,
        directory_of(choices, which),
        stem(file),
        end_of(which),
    )?;
    Ok(StubFile { which, name })
}

/// The stub files of an interface file, in the order in which they are written: of the trusted side and then of the
/// untrusted one, its header and then its source. A side is left out where the other alone is asked for.
pub fn stub_files(
    alloc: Global,
    choices: &Choices,
    file: &str,
) -> Result<Items<StubFile>, AllocError>
    ensures { IfOk result (λ files. files ≡ spec.stub_files choices.now file.now) }
{
    let mut files = Items::new(alloc);
    for which in &IN_ORDER {
        if is_written(choices, *which) {
            files.push(stub_file(alloc, choices, file, *which)?)?;
        }
    }
    Ok(files)
}

/// Names of interface files, and the stub files that they give.
pub fn examples()
    ensures { Examples }
{}
