//! The interface of gathered files that are accepted for a run, or their first fault.

ghost use Rattle.std.specs.Prelude.{◌<◌, ◌^◌, true, length, IfOk, IfErr};
ghost use Rattle.sgx_base.specs.Outcome.{OrMemory};
ghost use Rattle.attr_rules.specs.ForRun.{AreForRun};
ghost use Rattle.edl_interface.specs.Sound.{IsSound};
ghost use Rattle.edl_interface.specs.Runnable.{IsRunnable};
ghost use Rattle.edl_reader.specs.Accepted.{IsAccepted, IsRefused};
ghost use Rattle.call_engine.specs.Told.{IsEdlFault};

use crate::faults::{PrepareFault, of_source};
use edl_grammar::Gathered;
use edl_interface::Interface;
use edl_layout::ForeignTypes;
use edl_reader::interface_of;
use std::alloc::Global;

/// The interface of files in which no rule is broken, with these foreign types, or their first fault.
pub(crate) fn accepted(
    alloc: Global,
    gathered: &Gathered,
    foreign: &ForeignTypes,
) -> Result<Interface, PrepareFault>
    requires few { length gathered.now.files < 2 ^ 32 }
    requires for_run { AreForRun gathered.now foreign.now }
    ensures ok { IfOk result (IsAccepted gathered.now foreign.now true) }
    ensures sound { IfOk result IsSound }
    ensures runnable { IfOk result IsRunnable }
    ensures err { IfErr result (OrMemory PrepareFault.Memory
        (IsEdlFault gathered.now.files (IsRefused gathered.now foreign.now true))) }
{
    match interface_of(alloc, gathered, foreign, true) {
        Ok(interface) => Ok(interface),
        Err(fault) => Err(of_source(fault)),
    }
}
