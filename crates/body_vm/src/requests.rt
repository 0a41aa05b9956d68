//! What a body asks for.

ghost use Rattle.std.specs.Prelude.{ℕ, List, ◌≡◌, ◌<◌, ◌≤◌, ◌∷◌, false, zero, Option, MatchOption, length, map};
ghost use Rattle.arrayvec.specs.ArrayVec.{array_vec_len};
ghost use Rattle.enclave_memory.specs.Memory.{Memory};
ghost use Rattle.body_vm.specs.declared.Action.{Action as AnAction};
ghost use Rattle.body_vm.specs.State.{passed_argument};
ghost use Rattle.body_vm.specs.Execution.{execution_from};
ghost use Rattle.body_vm.specs.Range.{IsInRange, IsPassable, ArePassable};
ghost use Rattle.body_vm.specs.Moments.{moment, state_at, handed, IsNeed};
ghost use Rattle.body_vm.specs.Steps.{is_asking};

use crate::blocks::block_at;
use crate::numbers::number;
use crate::{Action, Blocks, Need, Pass, Regs, Values};
use enclave_memory::{Arg, Args};
use word_port::Kind;

/// An argument as it is handed over, with its block.
fn argument(pass: Pass, regs: &Regs, values: &Values, blocks: &Blocks) -> Arg
    requires { IsPassable (array_vec_len values.now) (array_vec_len blocks.now) pass }
    ensures { (numbers : List (Option ℕ)) (arena : Memory) → result ≡ handed blocks.now.items
        (passed_argument (state_at values.now.items (moment regs.now blocks.now.items arena) numbers) pass) }
{
    match pass {
        Pass::Value(value) => Arg::Value(number(value, regs, values)),
        Pass::Bytes(Some(place)) => Arg::Bytes(block_at(blocks, place)),
        Pass::Bytes(None) => Arg::Bytes(None),
    }
}

/// The arguments as they are handed over.
fn arguments(passes: &[Pass], regs: &Regs, values: &Values, blocks: &Blocks) -> Args
    requires range { ArePassable (array_vec_len values.now) (array_vec_len blocks.now) passes.now }
    requires limit { length passes.now ≤ 64 }
    ensures { (numbers : List (Option ℕ)) (arena : Memory) → result.items ≡ map (handed blocks.now.items)
        (map (passed_argument (state_at values.now.items (moment regs.now blocks.now.items arena) numbers))
        passes.now) }
{
    let mut args = Args::new();
    for pass in passes {
        args.push(argument(*pass, regs, values, blocks));
    }
    args
}

/// What an action asks for, where it asks or ends the body.
pub(crate) fn asked(action: &Action, regs: &Regs, values: &Values, blocks: &Blocks) -> Option<Need>
    requires { IsInRange (array_vec_len values.now) (array_vec_len blocks.now) action.now }
    ensures { (numbers : List (Option ℕ)) (arena : Memory) (rest : List AnAction)
        → MatchOption result (is_asking action.now ≡ false) (λ need. IsNeed need
        (execution_from (state_at values.now.items (moment regs.now blocks.now.items arena) numbers) zero
        (action.now ∷ rest))
        (state_at values.now.items (moment regs.now blocks.now.items arena) numbers) blocks.now.items rest) }
{
    Some(match action {
        Action::Cload(into, cell) => Need::Cell {
            kind: Kind::Load,
            cell: *cell,
            first: 0,
            second: 0,
            into: *into,
        },
        Action::Cswap(into, cell, value) => Need::Cell {
            kind: Kind::Swap,
            cell: *cell,
            first: number(*value, regs, values),
            second: 0,
            into: *into,
        },
        Action::Cadd(into, cell, value) => Need::Cell {
            kind: Kind::Add,
            cell: *cell,
            first: number(*value, regs, values),
            second: 0,
            into: *into,
        },
        Action::Ccas(into, cell, old, new) => Need::Cell {
            kind: Kind::Cas,
            cell: *cell,
            first: number(*old, regs, values),
            second: number(*new, regs, values),
            into: *into,
        },
        Action::Ocall {
            ret,
            status,
            ordinal,
            args,
        } => Need::Ocall {
            ordinal: *ordinal,
            args: arguments(args.as_slice(), regs, values, blocks),
            ret: *ret,
            status: *status,
        },
        Action::Return(value) => Need::Done(number(*value, regs, values)),
        _ => return None,
    })
}
