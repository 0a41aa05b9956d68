//! The repeats around a line.

ghost use Rattle.std.specs.Prelude.{◌≡◌, ◌*◌, ◌-◌, ◌^◌, min, map, fold, count_by};
ghost use Rattle.call_script.specs.Faults.{max_nesting};
ghost use Rattle.call_script.specs.Standing as standing;
ghost use Rattle.script_lines.specs.Openings as openings;

use crate::room::less;
use script_lines::{Block, Opening};
use script_words::number_of;

fn is_repeat(opening: &Opening) -> bool
    ensures { result ≡ standing.is_repeat (openings.opening_of opening.now) }
{
    match opening {
        Opening::Repeat { .. } => true,
        _ => false,
    }
}

fn times_of(opening: &Opening) -> u64
    ensures { result ≡ standing.times_of (openings.opening_of opening.now) }
{
    match opening {
        Opening::Repeat { times } => number_of(*times),
        _ => 1,
    }
}

fn repeats_left(blocks: &[Block], left: u32) -> u32
    ensures { result ≡ left
        - count_by standing.is_repeat (map (λ b. b.opening) (openings.blocks_of blocks.now)) }
{
    let [block, blocks @ ..] = blocks else {
        return left;
    };
    less(repeats_left(blocks, left), is_repeat(&block.opening))
}

/// Whether as many repeats as may be are around a line.
#[tactic(auto, using(crate::proofs::RoomLaws::none_left))]
pub fn has_most_repeats(blocks: &[Block]) -> bool
    ensures { result ≡ standing.has_already max_nesting standing.is_repeat
        (map (λ b. b.opening) (openings.blocks_of blocks.now)) }
{
    repeats_left(blocks, 4) == 0
}

/// How often a line in the blocks is carried out, or the most that the type has.
pub fn repetitions(blocks: &[Block]) -> u64
    ensures { result ≡ min (fold (λ n b. n * standing.times_of b.opening) 1 (openings.blocks_of blocks.now)) (2 ^ 64 - 1) }
{
    let [block, blocks @ ..] = blocks else {
        return 1;
    };
    repetitions(blocks).saturating_mul(times_of(&block.opening))
}
