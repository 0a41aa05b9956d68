//! The stubs of an interface, printed and written one after another.

ghost use Rattle.std.specs.Prelude.{◌≡◌, IfOk, OnOk, map};
ghost use Rattle.sgx_base.specs.Stores.{IsOnlyWritten, IsWriteOf};
ghost use Rattle.bridge_program.specs.Tables.{bridges_of};
ghost use Rattle.edl_interface.specs.Sound.{IsSound};
ghost use Rattle.edger8r.specs.Made as spec;
ghost use Rattle.edger8r.specs.Made.{Writes};
ghost use Rattle.stub_printer.specs.Stubs.{stub_text};
ghost use Rattle.stub_files.specs.StubFiles as chosen;

use bridge_program::{Bridges, compile};
use edl_grammar::Gathered;
use edl_interface::Interface;
use sgx_base::{FileFault, Files};
use sqlite_items::Items;
use std::alloc::{AllocError, Global};
use stub_files::{StubFile, stub_files, stub_name};
use stub_printer::{Options, print_stub};
use tool_words::Choices;

/// What stubs are printed from.
#[derive(Clone, Copy)]
struct Printed<'a> {
    gathered: &'a Gathered,
    interface: &'a Interface,
    bridges: &'a Bridges,
    options: &'a Options,
}

/// The instructions of an interface's bridges, and which stubs are written, by which names.
#[derive(Debug, Drop)]
struct Plan {
    bridges: Bridges,
    options: Options,
    stubs: Items<StubFile>,
}

/// Prints a stub and writes it.
fn write_stub<F: Files>(
    alloc: Global,
    files: &mut F,
    printed: &Printed<'_>,
    stub: &StubFile,
) -> Result<(), FileFault>
    requires tables { printed.now.bridges.now ≡ bridges_of printed.now.interface.now }
    requires sound { IsSound printed.now.interface.now }
    ensures kept { IsOnlyWritten stub.now.name (F.state files.old) (F.state files.new) }
    ensures told { IsWriteOf stub.now.name
        (stub_text printed.now.gathered.now printed.now.interface.now printed.now.options.now stub.now.which)
        result (F.state files.old) (F.state files.new) }
    ensures counted { OnOk result ((F.state files.new).write_faults ≡ (F.state files.old).write_faults) }
{
    let Ok(text) = print_stub(
        alloc,
        printed.bridges,
        printed.gathered,
        printed.interface,
        stub.which,
        printed.options,
    ) else {
        return Err(FileFault::Memory);
    };
    files.write(alloc, stub.name.text(), text.as_slice())
}

/// Writes these stubs in order.
fn write_stubs<F: Files>(
    alloc: Global,
    files: &mut F,
    printed: &Printed<'_>,
    stubs: &[StubFile],
) -> Result<(), FileFault>
    requires tables { printed.now.bridges.now ≡ bridges_of printed.now.interface.now }
    requires sound { IsSound printed.now.interface.now }
    ensures { Writes
        (map (spec.stub_of printed.now.gathered.now printed.now.interface.now printed.now.options.now) stubs.now)
        (F.state files.old) (F.state files.new) result }
{
    for stub in stubs {
        if let Err(fault) = write_stub(alloc, files, printed, stub) {
            return Err(fault);
        }
    }
    Ok(())
}

/// What is written of the interface of the EDL file of this name.
fn plan_of(
    alloc: Global,
    choices: &Choices,
    file: &str,
    interface: &Interface,
) -> Result<Plan, AllocError>
    ensures bridges { IfOk result (λ plan. plan.bridges ≡ bridges_of interface.now) }
    ensures options { IfOk result (λ plan. plan.options ≡ spec.options_of choices.now file.now) }
    ensures stubs { IfOk result (λ plan. plan.stubs ≡ chosen.stub_files choices.now file.now) }
{
    let bridges = compile(alloc, interface)?;
    let name = stub_name(alloc, file)?;
    let prefix = choices.use_prefix;
    let stubs = stub_files(alloc, choices, file)?;
    Ok(Plan {
        bridges,
        options: Options { name, prefix },
        stubs,
    })
}

/// Writes the chosen stubs of the interface of the EDL file of this name, in order.
pub(crate) fn write_chosen<F: Files>(
    alloc: Global,
    files: &mut F,
    choices: &Choices,
    file: &str,
    gathered: &Gathered,
    interface: &Interface,
) -> Result<(), FileFault>
    requires { IsSound interface.now }
    ensures { Writes (spec.stubs_of choices.now file.now gathered.now interface.now)
        (F.state files.old) (F.state files.new) result }
{
    let Ok(plan) = plan_of(alloc, choices, file, interface) else {
        return Err(FileFault::Memory);
    };
    let printed = Printed {
        gathered,
        interface,
        bridges: &plan.bridges,
        options: &plan.options,
    };
    write_stubs(alloc, files, &printed, plan.stubs.as_slice())
}
