//! From the names of files to a machine.

ghost use Rattle.std.specs.Prelude.{ℕ, Bool, List, ◌≤◌, ◌<◌, ◌^◌, length, Some, Ok, IfOk, IfErr, vec_len};
ghost use Rattle.sgx_base.specs.Outcome.{OrMemory};
ghost use Rattle.sgx_base.specs.Stores.{AreOnlyRead, Holds, max_file_size};
ghost use Rattle.edl_interface.specs.Sound.{IsSound};
ghost use Rattle.edl_interface.specs.Runnable.{IsRunnable};
ghost use Rattle.edl_reader.specs.Sources.{AreParsed, GivesRoot};
ghost use Rattle.call_script.specs.Sound.{IsSoundScript};
ghost use Rattle.call_machine.specs.Plain.{IsPlainMachine};
ghost use Rattle.call_machine.specs.Sound.{IsSoundMachine};
ghost use Rattle.call_engine.specs.Prepared.{FilesGive, IsUnprepared, IsUnread};
ghost use Rattle.call_engine.specs.Prepared.{IsInterface, IsMachineOf, IsMachineFault};

use crate::Machine;
use crate::faults::{PrepareFault, not_found, not_read, of_source};
use crate::interfaces::accepted;
use crate::scripts::{foreign_of, script_of};
use bridge_program::compile;
use edl_grammar::Gathered;
use edl_interface::Interface;
use edl_reader::read_edl;
use sgx_base::{Files, Word};
use std::alloc::Global;

fn read_file<F: Files>(alloc: Global, files: &mut F, name: &str) -> Result<Vec<u8>, PrepareFault>
    ensures ok { IfOk result (λ v. Holds (F.state files.old) name.now (Some v.items)) }
    ensures small { IfOk result (λ v. vec_len v ≤ max_file_size) }
    ensures err { IfErr result
        (OrMemory PrepareFault.Memory (IsUnread name.now (F.state files.old) (F.state files.new))) }
    ensures kept { AreOnlyRead (F.state files.old) (F.state files.new) }
{
    match files.read(alloc, name) {
        Ok(Some(bytes)) => Ok(bytes),
        Ok(None) => Err(not_found(alloc, name)),
        Err(fault) => Err(not_read(alloc, name, fault)),
    }
}

/// The EDL file of this name, and all that it imports by this search path.
fn read_root<F: Files>(
    alloc: Global,
    files: &mut F,
    paths: &[Word],
    edl: &str,
) -> Result<Gathered, PrepareFault>
    ensures ok { IfOk result (GivesRoot (F.state files.old) paths.now edl.now) }
    ensures few { IfOk result (λ g. length g.files < 2 ^ 32) }
    ensures parsed { IfOk result AreParsed }
    ensures err { (racing : Bool) (script : List ℕ) → IfErr result (OrMemory PrepareFault.Memory
        (IsUnprepared racing paths.now edl.now script (F.state files.old) (F.state files.new))) }
    ensures kept { AreOnlyRead (F.state files.old) (F.state files.new) }
{
    match read_edl(alloc, files, paths, edl) {
        Ok(gathered) => Ok(gathered),
        Err(fault) => Err(of_source(fault)),
    }
}

/// The interface of gathered files, with the foreign types of a script's text.
fn interface_for(alloc: Global, gathered: &Gathered, text: &[u8]) -> Result<Interface, PrepareFault>
    requires few { length gathered.now.files < 2 ^ 32 }
    requires parsed { AreParsed gathered.now }
    requires short { length text.now ≤ max_file_size }
    ensures ok { IfOk result (IsInterface gathered.now text.now) }
    ensures sound { IfOk result IsSound }
    ensures runnable { IfOk result IsRunnable }
    ensures err { (racing : Bool) → IfErr result
        (OrMemory PrepareFault.Memory (IsMachineFault racing gathered.now text.now)) }
{
    let foreign = foreign_of(alloc, text)?;
    accepted(alloc, gathered, &foreign)
}

/// The machine of gathered files and of a script's text.
fn machine_of(
    alloc: Global,
    gathered: &Gathered,
    text: &[u8],
    racing: bool,
) -> Result<Machine, PrepareFault>
    requires few { length gathered.now.files < 2 ^ 32 }
    requires parsed { AreParsed gathered.now }
    requires short { length text.now ≤ max_file_size }
    ensures ok { IfOk result (IsMachineOf racing gathered.now text.now) }
    ensures plain { IfOk result IsPlainMachine }
    ensures script { IfOk result (λ m. IsSoundScript m.interface racing m.script) }
    ensures err { IfErr result
        (OrMemory PrepareFault.Memory (IsMachineFault racing gathered.now text.now)) }
{
    let interface = interface_for(alloc, gathered, text)?;
    let bridges = compile(alloc, &interface)?;
    let script = script_of(alloc, &interface, text, racing)?;
    Ok(Machine {
        interface,
        bridges,
        script,
    })
}

/// The machine of an EDL file and a script, for the program with threads where `racing` is true. Files are read whole.
/// The EDL file and all that it imports are gathered before the script is looked for, and the script's foreign types
/// are read before layouts and rules are looked at, its other lines behind them; an imported file is looked for in the
/// directories of the search path too. A script that the engine does not run is refused at line 0.
pub fn prepare<F: Files>(
    alloc: Global,
    files: &mut F,
    paths: &[Word],
    edl: &str,
    script: &str,
    racing: bool,
) -> Result<Machine, PrepareFault>
    ensures plain { IfOk result IsPlainMachine }
    ensures script { IfOk result (λ m. IsSoundScript m.interface racing m.script) }
    ensures sound { IfOk result IsSoundMachine }
    ensures ok { IfOk result (λ m. FilesGive racing (F.state files.old) paths.now edl.now script.now (Ok m)) }
    ensures err { IfErr result (OrMemory PrepareFault.Memory
        (IsUnprepared racing paths.now edl.now script.now (F.state files.old) (F.state files.new))) }
    ensures kept { AreOnlyRead (F.state files.old) (F.state files.new) }
{
    let gathered = read_root(alloc, files, paths, edl)?;
    let text = read_file(alloc, files, script)?;
    machine_of(alloc, &gathered, &text, racing)
}
