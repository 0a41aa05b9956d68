//! The bodies of ECALLs, and the blocks that they begin with.

ghost use Rattle.std.specs.Prelude.{◌≡◌, ◌≤◌, ◌+◌, ◌++◌, length, replicate, count_by, slice_get, Some, None};
ghost use Rattle.arrayvec.specs.ArrayVec.{array_vec_len};
ghost use Rattle.edl_interface.specs.declared.Function.{Function as AFunction};
ghost use Rattle.edl_interface.specs.Parameters.{marshalled};
ghost use Rattle.call_machine.specs.Ecall.{is_temp};
ghost use Rattle.call_machine.specs.Plain.{IsPlainMachine};

use crate::Machine;
use body_vm::{Action, Blocks, Body};

/// Whether an action makes a temporary block.
fn is_temporary(action: &Action) -> bool
    ensures { result ≡ is_temp action.now }
{
    matches!(action, Action::Temp(..))
}

/// Puts null behind the blocks for each temporary block of a body.
fn add_temporaries(blocks: &mut Blocks, body: &Body)
    requires { array_vec_len blocks.old + count_by is_temp body.now.actions ≤ 80 }
    ensures { blocks.new.items ≡ blocks.old.items ++ replicate (count_by is_temp body.now.actions) None }
{
    for action in body.actions.as_slice() {
        if is_temporary(action) {
            blocks.push(None);
        }
    }
}

/// The body of an ECALL, over the blocks of its marshalled parameters; null is put behind them for each temporary block.
pub(crate) fn begin_body<'a>(machine: &'a Machine, ordinal: u32, blocks: &mut Blocks) -> &'a Body
    requires machine { IsPlainMachine machine.now }
    requires found { (f : AFunction) × (slice_get machine.now.interface.ecalls ordinal ≡ Some f)
        × (array_vec_len blocks.old ≡ length (marshalled f)) }
    ensures body { slice_get machine.now.script.bodies ordinal ≡ Some result.now }
    ensures nulls { blocks.new.items ≡ blocks.old.items ++ replicate (count_by is_temp result.now.actions) None }
{
    let Some(body) = machine.script.bodies.get(ordinal as usize) else {
        unreachable!();
    };
    add_temporaries(blocks, body);
    body
}
