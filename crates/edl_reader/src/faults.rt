//! Why files give no interface, and how it is told.

ghost use Rattle.std.specs.Prelude.{◌≡◌};
ghost use Rattle.sgx_base.specs.Outcome.{OrMemory};
ghost use Rattle.edl_imports.specs.Gathering.{name_at as file_name};
ghost use Rattle.edl_reader.specs.Sources.{IsEdlFault};
ghost use Rattle.edl_reader.specs.Told as spec;

use attr_rules::RuleFault;
use edl_grammar::{ParseFault, SourceFile};
use edl_imports::{ImportCause, ImportFault};
use edl_layout::LayoutFault;
use edl_lexer::LexFault;
use sgx_base::{Fault, Name};
use std::alloc::{AllocError, Global};

/// Why files give no interface.
#[derive(Debug, Drop)]
pub enum SourceFault {
    /// The EDL file of this name breaks a rule.
    Edl { name: Name, fault: Fault },
    /// There is no file of this name.
    NotFound(Name),
    /// The file of this name could not be read.
    ReadFault(Name),
    Memory,
}

impl From<AllocError> for SourceFault {
    ghost use Rattle.std.specs.Prelude.{◌≡◌};
    ghost use Rattle.edl_reader.specs.declared.faults.SourceFault.TheVariants.{Memory};

    ghost from_gives = { λ _ e. e ≡ Memory };

    fn from(_: AllocError) -> SourceFault {
        SourceFault::Memory
    }
}

fn of_lexer(fault: LexFault) -> RuleFault
    ensures { result ≡ spec.of_lexer fault }
{
    match fault {
        LexFault::BadByte(place) => RuleFault::Rule(place),
        LexFault::OpenComment(place) => RuleFault::Rule(place),
        LexFault::OpenText(place) => RuleFault::Rule(place),
        LexFault::NumberTooWide(place) => RuleFault::Rule(place),
        LexFault::TooManyTokens(place) => RuleFault::Rule(place),
        LexFault::Memory => RuleFault::Memory,
    }
}

fn of_parser(fault: ParseFault) -> RuleFault
    ensures { result ≡ spec.of_parser fault }
{
    match fault {
        ParseFault::Expected { at, .. } => RuleFault::Rule(at),
        ParseFault::TooDeep(place) => RuleFault::Rule(place),
        ParseFault::Memory => RuleFault::Memory,
    }
}

pub(crate) fn of_layouts(fault: LayoutFault) -> RuleFault
    ensures { result ≡ spec.of_layouts fault }
{
    match fault {
        LayoutFault::Unknown(place) => RuleFault::Rule(place),
        LayoutFault::SelfHolding(place) => RuleFault::Rule(place),
        LayoutFault::TooLarge(place) => RuleFault::Rule(place),
        LayoutFault::Memory => RuleFault::Memory,
    }
}

/// A fault of the file of this name.
fn of_file(name: Name, fault: RuleFault) -> SourceFault
    ensures { result ≡ spec.of_file name fault }
{
    match fault {
        RuleFault::Rule(fault) => SourceFault::Edl { name, fault },
        RuleFault::Memory => SourceFault::Memory,
    }
}

/// Why files were not gathered, under this name.
fn of_cause(name: Name, cause: ImportCause) -> SourceFault
    ensures { result ≡ spec.of_cause name cause }
{
    match cause {
        ImportCause::NotFound => SourceFault::NotFound(name),
        ImportCause::Cycle(fault) => SourceFault::Edl { name, fault },
        ImportCause::NoSuchName(fault) => SourceFault::Edl { name, fault },
        ImportCause::Conflict(fault) => SourceFault::Edl { name, fault },
        ImportCause::TooManyFiles(fault) => SourceFault::Edl { name, fault },
        ImportCause::Lex(fault) => of_file(name, of_lexer(fault)),
        ImportCause::Parse(fault) => of_file(name, of_parser(fault)),
        ImportCause::ReadFault => SourceFault::ReadFault(name),
        ImportCause::Memory => SourceFault::Memory,
    }
}

/// Why files were not gathered.
pub(crate) fn of_gathering(alloc: Global, fault: ImportFault) -> SourceFault
    ensures { OrMemory SourceFault.Memory (λ told. told ≡ spec.of_cause fault.name fault.cause) result }
{
    let ImportFault { name, cause } = fault;
    match Name::new(alloc, name.as_slice()) {
        Ok(name) => of_cause(name, cause),
        Err(_) => SourceFault::Memory,
    }
}

/// The name of the file of this number.
fn name_at(files: &[SourceFile], number: u32) -> &[u8]
    ensures { result.now ≡ file_name files.now number }
{
    match files.get(number as usize) {
        Some(file) => file.name.bytes(),
        None => b"",
    }
}

/// A fault of gathered files, under the name of that in which it stands.
pub(crate) fn of_rules(alloc: Global, files: &[SourceFile], fault: RuleFault) -> SourceFault
    ensures { OrMemory SourceFault.Memory (IsEdlFault files.now (λ f. fault ≡ RuleFault.Rule f)) result }
{
    let RuleFault::Rule(fault) = fault else {
        return SourceFault::Memory;
    };
    match Name::new(alloc, name_at(files, fault.file)) {
        Ok(name) => SourceFault::Edl { name, fault },
        Err(_) => SourceFault::Memory,
    }
}
