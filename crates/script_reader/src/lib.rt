//! The reader of scripts: the foreign types that a script declares, and then the whole script, or its first fault.
#![tactic(auto)]

ghost use Rattle.std.specs.Prelude.{◌≤◌, length, IfOk};
ghost use Rattle.sgx_base.specs.Stores.{max_file_size};
ghost use Rattle.edl_interface.specs.Sound.{IsSound};
ghost use Rattle.call_script.specs.Reading.{Reads, script_of};
ghost use Rattle.call_script.specs.Sound.{IsSoundScript};
ghost use Rattle.script_reader.specs.Foreign.{foreign_types};

mod foreign;

use call_script::{Script, ScriptFault};
use edl_interface::Interface;
use edl_layout::ForeignTypes;
use script_faults::{Fault, first_fault};
use script_value::value_of;
use script_values::NamedInterface;
use std::alloc::Global;

/// The foreign types that a script declares, for the layouts of its interface.
///
/// Each line whose first word is `foreign` is read, wherever it stands, and no other. The first that is not of its form,
/// has a number out of range or gives a name again is the fault.
pub fn read_foreign(alloc: Global, bytes: &[u8]) -> Result<ForeignTypes, ScriptFault>
    requires { length bytes.now ≤ max_file_size }
    ensures { Reads (foreign_types bytes.now) result }
{
    foreign::read(alloc, bytes)
}

fn read_named(
    alloc: Global,
    bytes: &[u8],
    interface: &NamedInterface,
    racing: bool,
) -> Result<Script, ScriptFault>
    requires sound { IsSound interface.now }
    requires short { length bytes.now ≤ max_file_size }
    ensures exact { Reads (script_of interface.now racing bytes.now) result }
    ensures sound { IfOk result (λ s. IsSoundScript interface.now racing s) }
{
    match first_fault(alloc, bytes, interface, racing)? {
        Some(Fault { line, code }) => Err(ScriptFault::Rule { line, code }),
        None => Ok(value_of(alloc, bytes, interface, racing)?),
    }
}

/// The script that a text spells for an interface, for the program with threads where `racing` is true, or its fault: at
/// the least line that has one, and there the lowest code.
pub fn read_script(
    alloc: Global,
    bytes: &[u8],
    interface: &Interface,
    racing: bool,
) -> Result<Script, ScriptFault>
    requires sound { IsSound interface.now }
    requires short { length bytes.now ≤ max_file_size }
    ensures exact { Reads (script_of interface.now racing bytes.now) result }
    ensures sound { IfOk result (λ s. IsSoundScript interface.now racing s) }
{
    let named = NamedInterface::new(alloc, interface)?;
    read_named(alloc, bytes, &named, racing)
}
