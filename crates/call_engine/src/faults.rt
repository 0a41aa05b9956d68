//! Why files give no machine, and how it is told.

ghost use Rattle.std.specs.Prelude.{◌≡◌};
ghost use Rattle.sgx_base.specs.Outcome.{OrMemory};
ghost use Rattle.call_engine.specs.Told as spec;

use call_script::ScriptFault;
use edl_reader::SourceFault;
use sgx_base::{Fault, FileFault, Name};
use std::alloc::{AllocError, Global};

/// Why files give no machine.
#[derive(Debug, Drop)]
pub enum PrepareFault {
    /// The EDL file of this name breaks a rule.
    Edl { name: Name, fault: Fault },
    /// The script breaks the rule of this code at this line.
    Script { line: u32, code: u8 },
    /// There is no file of this name.
    NotFound(Name),
    /// The file of this name could not be read.
    ReadFault(Name),
    Memory,
}

impl From<AllocError> for PrepareFault {
    ghost use Rattle.std.specs.Prelude.{◌≡◌};
    ghost use Rattle.call_engine.specs.declared.faults.PrepareFault.TheVariants.{Memory};

    ghost from_gives = { λ _ e. e ≡ Memory };

    fn from(_: AllocError) -> PrepareFault {
        PrepareFault::Memory
    }
}

pub(crate) fn of_source(fault: SourceFault) -> PrepareFault
    ensures { result ≡ spec.of_source fault }
{
    match fault {
        SourceFault::Edl { name, fault } => PrepareFault::Edl { name, fault },
        SourceFault::NotFound(name) => PrepareFault::NotFound(name),
        SourceFault::ReadFault(name) => PrepareFault::ReadFault(name),
        SourceFault::Memory => PrepareFault::Memory,
    }
}

pub(crate) fn of_script(fault: ScriptFault) -> PrepareFault
    ensures { result ≡ spec.of_script fault }
{
    match fault {
        ScriptFault::Rule { line, code } => PrepareFault::Script { line, code },
        ScriptFault::Memory => PrepareFault::Memory,
    }
}

pub(crate) fn not_found(alloc: Global, name: &str) -> PrepareFault
    ensures { OrMemory PrepareFault.Memory (λ fault. fault ≡ PrepareFault.NotFound name.now) result }
{
    match Name::new(alloc, name.as_bytes()) {
        Ok(name) => PrepareFault::NotFound(name),
        Err(_) => PrepareFault::Memory,
    }
}

pub(crate) fn not_read(alloc: Global, name: &str, fault: FileFault) -> PrepareFault
    ensures { OrMemory PrepareFault.Memory
        (λ told. (told ≡ PrepareFault.ReadFault name.now) × (fault ≡ FileFault.Failed)) result }
{
    let FileFault::Failed = fault else {
        return PrepareFault::Memory;
    };
    match Name::new(alloc, name.as_bytes()) {
        Ok(name) => PrepareFault::ReadFault(name),
        Err(_) => PrepareFault::Memory,
    }
}
