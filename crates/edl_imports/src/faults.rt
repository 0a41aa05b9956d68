//! Why files are not gathered.

ghost use Rattle.std.specs.Prelude.{◌≡◌, ◌⊎◌, IfOk};
ghost use Rattle.sgx_base.specs.Outcome.{OrMemory};

use edl_grammar::ParseFault;
use edl_lexer::LexFault;
use sgx_base::Fault;
use sqlite_items::Items;
use std::alloc::{AllocError, Global};

/// Why files were not gathered. The name is that of the file in which the fault stands, or the one that was not found
/// or not read, and is empty for want of memory.
#[derive(Debug, Drop)]
pub struct ImportFault {
    pub name: Items<u8>,
    pub cause: ImportCause,
}

/// The causes.
#[derive(Debug, Drop)]
pub enum ImportCause {
    /// No candidate of the text is there.
    NotFound,
    /// The import leads back to a file whose imports are not gathered yet.
    Cycle(Fault),
    /// No function of this name is offered.
    NoSuchName(Fault),
    /// A file that was read before declares the name too.
    Conflict(Fault),
    /// The import's file would be one too many.
    TooManyFiles(Fault),
    Lex(LexFault),
    Parse(ParseFault),
    /// The file could not be read.
    ReadFault,
    Memory,
}

impl ImportFault {
    /// The bytes of the name.
    pub fn fault_name(&self) -> &[u8]
        ensures { result.now ≡ self.now.name }
    {
        self.name.as_slice()
    }
}

/// What stops the gathering.
#[derive(Debug, Drop)]
pub(crate) enum Stop {
    Fault(ImportFault),
    Memory,
}

impl From<AllocError> for Stop {
    ghost use Rattle.std.specs.Prelude.{◌≡◌};
    ghost use Rattle.edl_imports.specs.declared.faults.Stop.TheVariants.{Memory};

    ghost from_gives = { λ _ e. e ≡ Memory };

    fn from(_: AllocError) -> Stop {
        Stop::Memory
    }
}

/// The fault of this cause in the file of this name.
pub(crate) fn fault_of(alloc: Global, name: &[u8], cause: ImportCause) -> Stop
    ensures { OrMemory Stop.Memory
        (λ stop. stop ≡ Stop.Fault (record { name = name.now; cause = cause })) result }
{
    match Items::from_slice(alloc, name) {
        Ok(name) => Stop::Fault(ImportFault { name, cause }),
        Err(_) => Stop::Memory,
    }
}
