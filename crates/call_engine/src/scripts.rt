//! What a script's text gives: its foreign types, and the script that the engine runs.

ghost use Rattle.std.specs.Prelude.{◌≡◌, ◌≤◌, true, Ok, length, IfOk, IfErr};
ghost use Rattle.sgx_base.specs.Outcome.{OrMemory};
ghost use Rattle.sgx_base.specs.Stores.{max_file_size};
ghost use Rattle.edl_interface.specs.Sound.{IsSound};
ghost use Rattle.call_script.specs.Reading.{Reads};
ghost use Rattle.call_script.specs.Sound.{IsSoundScript};
ghost use Rattle.script_reader.specs.Foreign.{foreign_types};
ghost use Rattle.call_engine.specs.Interfaces.{AreKnown};
ghost use Rattle.call_engine.specs.Plain.{is_plain as is_plain_script, plain_script};
ghost use Rattle.call_engine.specs.Told.{IsFaultOf};

use crate::faults::{PrepareFault, of_script};
use crate::plain::is_plain;
use call_script::{Script, ScriptFault};
use edl_interface::Interface;
use edl_layout::ForeignTypes;
use script_reader::{read_foreign, read_script};
use std::alloc::Global;

/// A script that the engine does not run is told at no line.
const NOT_PLAIN: ScriptFault = ScriptFault::Rule { line: 0, code: 1 };

/// The foreign types that a script declares.
pub(crate) fn foreign_of(alloc: Global, text: &[u8]) -> Result<ForeignTypes, PrepareFault>
    requires { length text.now ≤ max_file_size }
    ensures ok { IfOk result (λ foreign. foreign_types text.now ≡ Ok foreign) }
    ensures known { IfOk result AreKnown }
    ensures err { IfErr result (OrMemory PrepareFault.Memory (IsFaultOf (foreign_types text.now))) }
{
    match read_foreign(alloc, text) {
        Ok(foreign) => Ok(foreign),
        Err(fault) => Err(of_script(fault)),
    }
}

/// The script that a text spells for an interface, where the engine runs it.
fn read_plain(
    alloc: Global,
    interface: &Interface,
    text: &[u8],
    racing: bool,
) -> Result<Script, ScriptFault>
    requires sound { IsSound interface.now }
    requires short { length text.now ≤ max_file_size }
    ensures exact { Reads (plain_script interface.now racing text.now) result }
    ensures sound { IfOk result (IsSoundScript interface.now racing) }
    ensures plain { IfOk result (λ s. is_plain_script s ≡ true) }
{
    let script = match read_script(alloc, text, interface, racing) {
        Ok(script) => script,
        Err(fault) => return Err(fault),
    };
    if !is_plain(&script) {
        return Err(NOT_PLAIN);
    }
    Ok(script)
}

/// The same, or why there is none.
pub(crate) fn script_of(
    alloc: Global,
    interface: &Interface,
    text: &[u8],
    racing: bool,
) -> Result<Script, PrepareFault>
    requires sound { IsSound interface.now }
    requires short { length text.now ≤ max_file_size }
    ensures ok { IfOk result (λ s. plain_script interface.now racing text.now ≡ Ok s) }
    ensures sound { IfOk result (IsSoundScript interface.now racing) }
    ensures plain { IfOk result (λ s. is_plain_script s ≡ true) }
    ensures err { IfErr result (OrMemory PrepareFault.Memory
        (IsFaultOf (plain_script interface.now racing text.now))) }
{
    match read_plain(alloc, interface, text, racing) {
        Ok(script) => Ok(script),
        Err(fault) => Err(of_script(fault)),
    }
}
