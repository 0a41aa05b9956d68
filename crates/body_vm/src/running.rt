//! A body's run up to its next request.

ghost use Rattle.std.specs.Prelude.{ℕ, List, ◌≡◌, ◌<◌, ◌≤◌, ◌+◌, ◌-◌, ◌^◌, ◌∷◌, zero, Option, drop, length};
ghost use Rattle.arrayvec.specs.ArrayVec.{array_vec_len};
ghost use Rattle.body_vm.specs.declared.Action.{Action as AnAction};
ghost use Rattle.body_vm.specs.Execution.{execution_from};
ghost use Rattle.body_vm.specs.Range.{IsInRange, AreInRange, skip_of};
ghost use Rattle.body_vm.specs.Places.{IsHeld};
ghost use Rattle.body_vm.specs.Moments.{moment, state_at, execution_at, IsOnward, IsNeed, IsDone, IsFurther};

use crate::actions::{change, computed, skipped};
use crate::numbers::answer;
use crate::requests::asked;
use crate::{Action, Blocks, Body, Need, Regs, Values};
use enclave_memory::Arena;

/// Carries out one action, or gives what it asks for.
///
/// The number of the next action grows by those that it passes over.
fn carry_out(
    action: &Action,
    regs: &mut Regs,
    values: &Values,
    blocks: &mut Blocks,
    arena: &mut Arena,
) -> Option<Need>
    requires range { IsInRange (array_vec_len values.now) (array_vec_len blocks.old) action.now }
    requires held { (numbers : List (Option ℕ)) × IsHeld arena.old blocks.old.items numbers }
    requires short { regs.old.next + skip_of action.now < 2 ^ 32 }
    ensures done { (numbers : List (Option ℕ)) → IsHeld arena.old blocks.old.items numbers → (later : List (Option ℕ))
        × IsOnward (moment regs.old blocks.old.items arena.old) (moment regs.new blocks.new.items arena.new)
        numbers later
        × ((rest : List AnAction) → IsDone result
        (execution_from (state_at values.now.items (moment regs.old blocks.old.items arena.old) numbers) zero
        (action.now ∷ rest))
        (state_at values.now.items (moment regs.new blocks.new.items arena.new) later) blocks.new.items
        (drop (regs.new.next - regs.old.next) rest)) }
    ensures count { array_vec_len blocks.new ≡ array_vec_len blocks.old }
    ensures from { regs.old.next ≤ regs.new.next }
    ensures within { regs.new.next ≤ regs.old.next + skip_of action.now }
{
    if let Some((into, value)) = computed(action, regs, values, blocks, arena) {
        answer(regs, into, value);
        return None;
    }
    if let Some(need) = asked(action, regs, values, blocks) {
        return Some(need);
    }
    change(action, regs, values, blocks, arena);
    regs.next += skipped(action, regs);
    None
}

/// Carries a body out up to its next request, or to its end.
///
/// A request's answer goes into the registers by `answer`, that of an OCALL its return first. Blocks that it does not
/// hold stay as they are, and a temporary block lies behind all others.
pub fn run_until(
    body: &Body,
    regs: &mut Regs,
    values: &Values,
    blocks: &mut Blocks,
    arena: &mut Arena,
) -> Need
    requires range { AreInRange (array_vec_len values.now) (array_vec_len blocks.old) body.now.actions }
    requires short { length body.now.actions < 2 ^ 32 }
    requires next { regs.old.next ≤ length body.now.actions }
    requires held { (numbers : List (Option ℕ)) × IsHeld arena.old blocks.old.items numbers }
    ensures need { (numbers : List (Option ℕ)) → IsHeld arena.old blocks.old.items numbers → (later : List (Option ℕ))
        × IsOnward (moment regs.old blocks.old.items arena.old) (moment regs.new blocks.new.items arena.new)
        numbers later
        × IsNeed result (execution_at body.now.actions values.now.items regs.old blocks.old.items arena.old numbers)
        (state_at values.now.items (moment regs.new blocks.new.items arena.new) later) blocks.new.items
        (drop regs.new.next body.now.actions) }
    ensures next { regs.new.next ≤ length body.now.actions }
    ensures further { IsFurther result regs.old.next regs.new.next }
    ensures count { array_vec_len blocks.new ≡ array_vec_len blocks.old }
{
    while let Some(action) = body.actions.get(regs.next as usize) {
        regs.next += 1;
        if let Some(need) = carry_out(action, regs, values, blocks, arena) {
            return need;
        }
    }
    Need::Done(0)
}
