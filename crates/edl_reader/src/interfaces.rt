//! The interface of gathered files, or their first fault.

ghost use Rattle.std.specs.Prelude.{◌≡◌, ◌<◌, ◌^◌, Bool, true, length, IfOk, IfErr};
ghost use Rattle.sgx_base.specs.Outcome.{OrMemory};
ghost use Rattle.attr_rules.specs.ForRun.{AreForRun};
ghost use Rattle.edl_interface.specs.Order.{IsInOrder};
ghost use Rattle.edl_interface.specs.Runnable.{IsRunnable};
ghost use Rattle.edl_interface.specs.Sound.{IsSound};
ghost use Rattle.edl_reader.specs.Accepted.{IsLaidOut, IsAccepted, IsRefused};
ghost use Rattle.edl_reader.specs.Sources.{IsEdlFault};
ghost use Rattle.edl_reader.specs.Told.{Told};

use crate::faults::{SourceFault, of_layouts, of_rules};
use attr_rules::{RuleFault, check};
use edl_grammar::Gathered;
use edl_interface::Interface;
use edl_layout::{ForeignTypes, Layouts, layout_of};
use std::alloc::Global;

/// The layouts of files with these foreign types.
fn laid_out(
    alloc: Global,
    gathered: &Gathered,
    foreign: &ForeignTypes,
) -> Result<Layouts, RuleFault>
    ensures ok { IfOk result (IsLaidOut gathered.now foreign.now) }
    ensures err { (runner : Bool) → IfErr result
        (OrMemory RuleFault.Memory (Told (IsRefused gathered.now foreign.now runner))) }
{
    match layout_of(alloc, gathered, foreign) {
        Ok(layouts) => Ok(layouts),
        Err(fault) => Err(of_layouts(fault)),
    }
}

/// The interface of files, or the first rule that they break.
fn accepted(
    alloc: Global,
    gathered: &Gathered,
    foreign: &ForeignTypes,
    runner: bool,
) -> Result<Interface, RuleFault>
    requires few { length gathered.now.files < 2 ^ 32 }
    ensures ok { IfOk result (IsAccepted gathered.now foreign.now runner) }
    ensures sound { IfOk result IsSound }
    ensures runnable { AreForRun gathered.now foreign.now → runner ≡ true → IfOk result IsRunnable }
    ensures in_order { AreForRun gathered.now foreign.now → runner ≡ true → IfOk result IsInOrder }
    ensures err { IfErr result
        (OrMemory RuleFault.Memory (Told (IsRefused gathered.now foreign.now runner))) }
{
    let layouts = laid_out(alloc, gathered, foreign)?;
    check(alloc, gathered, &layouts, runner)
}

/// The interface of gathered files, or their first fault under the name of the file in which it stands. What the runner
/// does not take is refused where `runner` holds.
pub fn interface_of(
    alloc: Global,
    gathered: &Gathered,
    foreign: &ForeignTypes,
    runner: bool,
) -> Result<Interface, SourceFault>
    requires few { length gathered.now.files < 2 ^ 32 }
    ensures ok { IfOk result (IsAccepted gathered.now foreign.now runner) }
    ensures sound { IfOk result IsSound }
    ensures runnable { AreForRun gathered.now foreign.now → runner ≡ true → IfOk result IsRunnable }
    ensures in_order { AreForRun gathered.now foreign.now → runner ≡ true → IfOk result IsInOrder }
    ensures err { IfErr result (OrMemory SourceFault.Memory
        (IsEdlFault gathered.now.files (IsRefused gathered.now foreign.now runner))) }
{
    match accepted(alloc, gathered, foreign, runner) {
        Ok(interface) => Ok(interface),
        Err(fault) => Err(of_rules(alloc, gathered.files.as_slice(), fault)),
    }
}
