//! Bodies carried out on words, whose cells are words of a port.
#![tactic(auto)]

ghost use Rattle.std.specs.Prelude.{ℕ, List, ◌≡◌, ◌≤◌, ◌<◌, ◌+◌, ◌-◌, ◌^◌, [], ◌∷◌, Option, IfOk, IfErr, OnOk, drop, length};
ghost use Rattle.arrayvec.specs.ArrayVec.{array_vec_len};
ghost use Rattle.word_port.specs.Port.{with_steps, HasRoom};
ghost use Rattle.word_port.specs.Requests.{step_of};
ghost use Rattle.body_vm.specs.Range.{AreInRange};
ghost use Rattle.body_vm.specs.Places.{IsHeld};
ghost use Rattle.body_vm.specs.Moments.{moment, state_at, execution_at, IsOnward, IsFurther};
ghost use Rattle.call_copy.specs.Stops.{IsCutShort};
ghost use Rattle.body_run.specs.Cells.{cell_step, over_cells, HaveCells, AreUsed};
ghost use Rattle.body_run.specs.Running.{Pauses, need_of};

use body_vm::{Blocks, Body, Need, Regs, Values, answer, run_until};
use enclave_memory::{Arena, Args};
use word_port::{Kind, RunFull, Side, WordPort};

/// Where a body pauses: at an OCALL, whose return and status go into registers, or at its end with a number.
#[derive(Debug, Drop)]
pub enum Pause {
    Ocall {
        ordinal: u32,
        args: Args,
        ret: u8,
        status: u8,
    },
    Done(u64),
}

/// A step on a cell, and the word of the first one.
#[derive(Clone, Copy)]
struct CellStep {
    first_word: u32,
    kind: Kind,
    cell: u32,
    first: u64,
    second: u64,
}

/// Makes a step on the word of a cell, and gives the word that it found.
fn make_step<P: WordPort>(port: &mut P, on: CellStep) -> u64
    requires room { HasRoom (P.state port.old) }
    requires word { on.first_word + on.cell < (P.state port.old).words }
    requires short { (P.state port.old).words < 2 ^ 32 }
    requires not_host { (P.state port.old).host ≤ on.first_word }
    requires used { AreUsed on.kind on.first on.second }
    ensures { P.state port.new ≡ with_steps (P.state port.old) (step_of (cell_step on.first_word
        (record { kind = on.kind; cell = on.cell; first = on.first; second = on.second })) result ∷ []) }
{
    let word = on.first_word + on.cell;
    match on.kind {
        Kind::Load => port.load(Side::Enclave, word),
        Kind::Swap => port.swap(Side::Enclave, word, on.first),
        Kind::Add => port.add(Side::Enclave, word, on.first),
        Kind::Cas => port.cas(Side::Enclave, word, on.first, on.second),
    }
}

/// Carries a body out up to its next OCALL, or to its end. Its cells are words of the port, of which the first is given.
///
/// Blocks that it does not hold stay as they are, and a temporary block lies behind all others. It takes no memory.
pub fn run_on<P: WordPort>(
    port: &mut P,
    first_word: u32,
    body: &Body,
    regs: &mut Regs,
    values: &Values,
    blocks: &mut Blocks,
    arena: &mut Arena,
) -> Result<Pause, RunFull>
    requires range { AreInRange (array_vec_len values.now) (array_vec_len blocks.old) body.now.actions }
    requires short { length body.now.actions < 2 ^ 32 }
    requires next { regs.old.next ≤ length body.now.actions }
    requires held { (numbers : List (Option ℕ)) × IsHeld arena.old blocks.old.items numbers }
    requires cells { HaveCells ((P.state port.old).words - first_word) body.now.actions }
    requires not_host { (P.state port.old).host ≤ first_word }
    requires few { (P.state port.old).words < 2 ^ 32 }
    ensures ok { (numbers : List (Option ℕ)) → IsHeld arena.old blocks.old.items numbers
        → IfOk result (λ pause. (later : List (Option ℕ))
        × IsOnward (moment regs.old blocks.old.items arena.old) (moment regs.new blocks.new.items arena.new)
        numbers later
        × Pauses first_word
        (execution_at body.now.actions values.now.items regs.old blocks.old.items arena.old numbers)
        (P.state port.old) (P.state port.new) pause
        (state_at values.now.items (moment regs.new blocks.new.items arena.new) later) blocks.new.items
        (drop regs.new.next body.now.actions)) }
    ensures full { (numbers : List (Option ℕ)) → IsHeld arena.old blocks.old.items numbers
        → IfErr result (IsCutShort (over_cells first_word
        (execution_at body.now.actions values.now.items regs.old blocks.old.items arena.old numbers))
        (P.state port.old) (P.state port.new)) }
    ensures next { regs.new.next ≤ length body.now.actions }
    ensures further { IfOk result (λ pause. IsFurther (need_of pause) regs.old.next regs.new.next) }
    ensures count { array_vec_len blocks.new ≡ array_vec_len blocks.old }
{
    loop {
        match run_until(body, regs, values, blocks, arena) {
            Need::Cell {
                kind,
                cell,
                first,
                second,
                into,
            } => {
                if port.spare() == 0 {
                    return Err(RunFull::Steps);
                }
                let on = CellStep {
                    first_word,
                    kind,
                    cell,
                    first,
                    second,
                };
                let found = make_step(port, on);
                answer(regs, into, found);
            }
            Need::Ocall {
                ordinal,
                args,
                ret,
                status,
            } => {
                return Ok(Pause::Ocall {
                    ordinal,
                    args,
                    ret,
                    status,
                });
            }
            Need::Done(value) => return Ok(Pause::Done(value)),
        }
    }
}
