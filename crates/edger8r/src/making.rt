//! From the names of EDL files to their stubs.

ghost use Rattle.std.specs.Prelude.{◌≡◌, ◌<◌, ◌^◌, length};
ghost use Rattle.edger8r.specs.Made as spec;
ghost use Rattle.edger8r.specs.Made.{MakesOf, MakesFile, MakesAll};

use crate::ending::{Ending, of_source};
use crate::writing::write_chosen;
use edl_grammar::Gathered;
use edl_layout::ForeignTypes;
use edl_reader::{interface_of, read_edl};
use sgx_base::{FileFault, Files, Word};
use sqlite_items::Items;
use std::alloc::Global;
use tool_words::Choices;

/// A type that no file declares is one of C.
fn lenient_types(alloc: Global) -> ForeignTypes
    ensures { result ≡ spec.lenient_types }
{
    ForeignTypes {
        types: Items::new(alloc),
        lenient: true,
    }
}

/// How a call goes on where stubs were written, or ends.
fn of_write(written: Result<(), FileFault>) -> Result<(), Ending>
    ensures { result ≡ spec.of_write written }
{
    match written {
        Ok(()) => Ok(()),
        Err(FileFault::Failed) => Err(Ending::Unwritten),
        Err(FileFault::Memory) => Err(Ending::Memory),
    }
}

/// Makes the stubs of gathered files.
fn make_of<F: Files>(
    alloc: Global,
    files: &mut F,
    choices: &Choices,
    file: &str,
    gathered: &Gathered,
) -> Result<(), Ending>
    requires { length gathered.now.files < 2 ^ 32 }
    ensures { MakesOf choices.now file.now gathered.now (F.state files.old) (F.state files.new) result }
{
    let foreign = lenient_types(alloc);
    match interface_of(alloc, gathered, &foreign, false) {
        Ok(interface) => of_write(write_chosen(alloc, files, choices, file, gathered, &interface)),
        Err(fault) => Err(of_source(fault)),
    }
}

/// Makes the stubs of the EDL file of this name.
fn make_file<F: Files>(
    alloc: Global,
    files: &mut F,
    choices: &Choices,
    file: &str,
) -> Result<(), Ending>
    ensures { MakesFile choices.now file.now (F.state files.old) (F.state files.new) result }
{
    match read_edl(alloc, files, choices.search_path.as_slice(), file) {
        Ok(gathered) => make_of(alloc, files, choices, file, &gathered),
        Err(fault) => Err(of_source(fault)),
    }
}

/// Makes the stubs of these EDL files, one after another.
pub(crate) fn make_all<F: Files>(
    alloc: Global,
    files: &mut F,
    choices: &Choices,
    names: &[Word],
) -> Ending
    ensures { MakesAll choices.now names.now (F.state files.old) (F.state files.new) result }
{
    for name in names {
        if let Err(ending) = make_file(alloc, files, choices, name.text()) {
            return ending;
        }
    }
    Ending::Made
}
