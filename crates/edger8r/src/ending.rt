//! How a call ends, and what it writes then.

ghost use Rattle.std.specs.Prelude.{◌≡◌, IfOk};
ghost use Rattle.edger8r.specs.Endings as spec;
ghost use Rattle.edger8r.specs.Made.{of_source as ending_of};

use edl_reader::SourceFault;
use sgx_base::{Fault, Name, edl_line, missing_line, unread_line};
use std::alloc::{AllocError, Global};

const USAGE: &[u8] =
    b"usage: sgx_edger8r [--use-prefix] [--header-only] [--search-path P] [--untrusted] [--trusted] [--untrusted-dir D] [--trusted-dir D] [--help] FILE ..\n";

/// How a call ends.
#[derive(Debug, Drop)]
pub(crate) enum Ending {
    /// The words ask for nothing.
    Usage,
    /// They ask for help.
    Help,
    /// All stubs are written.
    Made,
    /// The EDL file of this name is at fault.
    Edl { name: Name, fault: Fault },
    /// The file of this name could not be read.
    Unread(Name),
    /// There is no file of this name.
    Missing(Name),
    /// A stub could not be written.
    Unwritten,
    Memory,
}

impl Ending {
    pub(crate) fn status(&self) -> u8
        ensures { result ≡ spec.status_of self.now }
    {
        match self {
            Ending::Usage => 1,
            Ending::Help => 0,
            Ending::Made => 0,
            Ending::Edl { .. } => 2,
            Ending::Unread(_) => 4,
            Ending::Missing(_) => 7,
            Ending::Unwritten => 5,
            Ending::Memory => 6,
        }
    }
}

/// The ending where an EDL file gives no interface.
pub(crate) fn of_source(fault: SourceFault) -> Ending
    ensures { result ≡ ending_of fault }
{
    match fault {
        SourceFault::Edl { name, fault } => Ending::Edl { name, fault },
        SourceFault::NotFound(name) => Ending::Missing(name),
        SourceFault::ReadFault(name) => Ending::Unread(name),
        SourceFault::Memory => Ending::Memory,
    }
}

/// What is written at an ending.
pub(crate) fn text_of(alloc: Global, ending: &Ending) -> Result<Vec<u8>, AllocError>
    ensures { IfOk result (λ text. text.items ≡ spec.text_of ending.now) }
{
    match ending {
        Ending::Usage => Vec::from_slice(alloc, USAGE),
        Ending::Help => Vec::from_slice(alloc, USAGE),
        Ending::Edl { name, fault } => edl_line(alloc, name, fault),
        Ending::Unread(name) => unread_line(alloc, name),
        Ending::Missing(name) => missing_line(alloc, name),
        Ending::Made => Ok(Vec::new(alloc)),
        Ending::Unwritten => Ok(Vec::new(alloc)),
        Ending::Memory => Ok(Vec::new(alloc)),
    }
}
