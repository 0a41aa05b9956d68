//! What actions do by themselves: they compute numbers, change blocks, and pass over actions.

ghost use Rattle.std.specs.Prelude.{ℕ, List, ◌≡◌, ◌<◌, ◌≤◌, Option, IfSome};
ghost use Rattle.arrayvec.specs.ArrayVec.{array_vec_len};
ghost use Rattle.body_vm.specs.Range.{IsInRange, skip_of};
ghost use Rattle.body_vm.specs.Places.{IsHeld};
ghost use Rattle.body_vm.specs.Moments.{moment, state_at, IsOnward};
ghost use Rattle.body_vm.specs.State.{State};
ghost use Rattle.body_vm.specs.Steps.{computed as computed_in, changed, skipped as skipped_in};

use crate::blocks::{begin, bytes_of, copy, fill, put};
use crate::numbers::{byte_at, low_byte, number, register, sum_of};
use crate::{Action, Blocks, Regs, Values};
use enclave_memory::Arena;

/// The register that an action sets by itself, with its number.
pub(crate) fn computed(
    action: &Action,
    regs: &Regs,
    values: &Values,
    blocks: &Blocks,
    arena: &Arena,
) -> Option<(u8, u64)>
    requires range { IsInRange (array_vec_len values.now) (array_vec_len blocks.now) action.now }
    requires held { (numbers : List (Option ℕ)) × IsHeld arena.now blocks.now.items numbers }
    ensures value { (numbers : List (Option ℕ)) → IsHeld arena.now blocks.now.items numbers
        → result
        ≡ computed_in (state_at values.now.items (moment regs.now blocks.now.items arena.now) numbers) action.now }
    ensures register { IfSome result (λ (into, value). into < 8) }
{
    Some(match action {
        Action::Set(into, by) => (*into, number(*by, regs, values)),
        Action::Add(into, by) => (
            *into,
            register(*into, regs).wrapping_add(number(*by, regs, values)),
        ),
        Action::Sub(into, by) => (
            *into,
            register(*into, regs).wrapping_sub(number(*by, regs, values)),
        ),
        Action::Mul(into, by) => (
            *into,
            register(*into, regs).wrapping_mul(number(*by, regs, values)),
        ),
        Action::And(into, by) => (*into, register(*into, regs) & number(*by, regs, values)),
        Action::Or(into, by) => (*into, register(*into, regs) | number(*by, regs, values)),
        Action::Xor(into, by) => (*into, register(*into, regs) ^ number(*by, regs, values)),
        Action::Len(into, place) => (*into, bytes_of(blocks, arena, *place).len() as u64),
        Action::Sum(into, place) => (*into, sum_of(bytes_of(blocks, arena, *place))),
        Action::Get(into, place, at) => (
            *into,
            byte_at(bytes_of(blocks, arena, *place), number(*at, regs, values)),
        ),
        _ => return None,
    })
}

/// Changes the blocks that an action changes by itself.
pub(crate) fn change(
    action: &Action,
    regs: &Regs,
    values: &Values,
    blocks: &mut Blocks,
    arena: &mut Arena,
)
    requires range { IsInRange (array_vec_len values.now) (array_vec_len blocks.old) action.now }
    requires held { (numbers : List (Option ℕ)) × IsHeld arena.old blocks.old.items numbers }
    ensures changed { (numbers : List (Option ℕ)) → IsHeld arena.old blocks.old.items numbers
        → (later : List (Option ℕ))
        × IsOnward (moment regs.now blocks.old.items arena.old) (moment regs.now blocks.new.items arena.new)
        numbers later
        × (state_at values.now.items (moment regs.now blocks.new.items arena.new) later
        ≡ changed (state_at values.now.items (moment regs.now blocks.old.items arena.old) numbers) action.now) }
    ensures count { array_vec_len blocks.new ≡ array_vec_len blocks.old }
{
    match action {
        Action::Put(place, at, value) => {
            let at = number(*at, regs, values);
            let value = number(*value, regs, values);
            put(blocks, arena, *place, at, low_byte(value));
        }
        Action::Fill(place, value) => {
            let value = number(*value, regs, values);
            fill(blocks, arena, *place, low_byte(value));
        }
        Action::Copy(place, source) => copy(blocks, arena, *place, *source),
        Action::Temp(place, length) => begin(blocks, arena, *place, *length),
        _ => {}
    }
}

/// How many actions an action passes over.
pub(crate) fn skipped(action: &Action, regs: &Regs) -> u32
    requires { (values blocks : ℕ) × IsInRange values blocks action.now }
    ensures count { (s : State) → s.registers ≡ regs.now.regs → result ≡ skipped_in s action.now }
    ensures within { result ≤ skip_of action.now }
{
    match action {
        Action::Skipz(test, count) if register(*test, regs) == 0 => *count,
        Action::Skipnz(test, count) if register(*test, regs) != 0 => *count,
        _ => 0,
    }
}
