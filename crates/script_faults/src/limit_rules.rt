//! The rule of limits.

ghost use Rattle.std.specs.Prelude.{◌≡◌, ◌∷◌, ◌++◌, [], ◌&&◌, ◌||◌, ◌+◌, ◌*◌, ◌^◌, ◌-◌, min, true, nat_lt, map, fold, sum_by, List};
ghost use Rattle.call_script.specs.Block as block;
ghost use Rattle.call_script.specs.Faults as spec;
ghost use Rattle.call_script.specs.Line as form;
ghost use Rattle.call_script.specs.Standing as standing;
ghost use Rattle.call_script.specs.Standing.{Standing, lines_before};
ghost use Rattle.script_lines.specs.Lines as lines;
ghost use Rattle.script_lines.specs.Openings as openings;
ghost use Rattle.script_faults.specs.Room as room_spec;
ghost use Rattle.script_faults.specs.Limits as limits;

use crate::around::{has_most_repeats, repetitions};
use crate::room::{Room, less};
use script_lines::{Block, Line};
use script_rules::{
    is_act, is_action, is_race, is_racer, is_repeat, is_temporary, is_thread, race_length,
};
use script_words::number_of;

/// How many more actions and temporaries may come in a body.
#[derive(Clone, Copy)]
pub struct BodyRoom {
    pub actions: u32,
    pub temporaries: u32,
}

impl BodyRoom {
    pub fn new() -> BodyRoom
        ensures { limits.HasBodyRoom [] result }
    {
        BodyRoom {
            actions: 256,
            temporaries: 16,
        }
    }

    /// What is left behind a line.
    pub fn behind(self, line: &Line) -> BodyRoom
        ensures { (ls : List form.Line) → limits.HasBodyRoom ls self
            → limits.HasBodyRoom (ls ++ lines.line_of line.now ∷ []) result }
    {
        BodyRoom {
            actions: less(self.actions, is_action(line)),
            temporaries: less(self.temporaries, is_temporary(line)),
        }
    }
}

fn times_of(line: &Line) -> u64
    ensures { result ≡ standing.times_of (lines.line_of line.now) }
{
    match line {
        Line::Repeat { times } => number_of(*times),
        _ => 1,
    }
}

/// Whether lines in the line are carried out too often.
#[tactic(auto, using(crate::proofs::LimitLaws::product_above))]
fn is_too_often(around: &[Block], line: &Line) -> bool
    ensures { result ≡ nat_lt spec.max_repetitions
        (limits.product (openings.blocks_of around.now) * standing.times_of (lines.line_of line.now)) }
{
    repetitions(around).saturating_mul(times_of(line)) > 1_048_576
}

/// Whether the line is one too many for the script.
fn is_beyond_script(room: Room, line: &Line) -> bool
    ensures { (ls : List form.Line) → room_spec.HasRoom ls room
        → result ≡ limits.is_beyond_script ls (lines.line_of line.now) }
{
    (is_act(line) && room.has_no_act())
        || (is_thread(line) && room.has_no_thread())
        || (is_racer(line) && room.has_no_racer())
}

/// Whether the line is one too many for its body.
fn is_beyond_body(room: BodyRoom, line: &Line) -> bool
    ensures { (beside : List form.Line)
        → (standing.is_action (lines.line_of line.now) ≡ true → limits.HasBodyRoom beside room)
        → result ≡ limits.is_beyond_body beside (lines.line_of line.now) }
{
    (is_action(line) && room.actions == 0) || (is_temporary(line) && room.temporaries == 0)
}

/// Whether the line is one repeat too many in these blocks.
fn is_beyond_blocks(around: &[Block], line: &Line) -> bool
    ensures { result ≡ limits.is_beyond_blocks (openings.blocks_of around.now) (lines.line_of line.now) }
{
    (is_repeat(line) && has_most_repeats(around)) || (is_repeat(line) && is_too_often(around, line))
}

/// Whether the races write too many bytes with the line.
fn is_beyond_races(room: Room, line: &Line) -> bool
    ensures { (ls : List form.Line) → room_spec.HasRoom ls room
        → result ≡ limits.is_beyond_races ls (lines.line_of line.now) }
{
    is_race(line) && room.has_not(race_length(line))
}

/// Too many: the line passes a limit.
pub fn is_one_too_many(room: Room, body: BodyRoom, around: &[Block], line: &Line) -> bool
    ensures { (s : Standing) → room_spec.HasRoom (lines_before s) room
        → (standing.is_action (lines.line_of line.now) ≡ true
        → limits.HasBodyRoom (standing.beside s s.before) body)
        → openings.blocks_of around.now ≡ s.here.blocks
        → result ≡ spec.is_one_too_many s (lines.line_of line.now) }
{
    is_beyond_script(room, line)
        || is_beyond_body(body, line)
        || is_beyond_blocks(around, line)
        || is_beyond_races(room, line)
}
