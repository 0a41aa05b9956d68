//! How much more may come of what a script may have so many of.

ghost use Rattle.std.specs.Prelude.{◌≡◌, ◌∷◌, ◌++◌, ◌+◌, ◌-◌, ◌&&◌, ◌||◌, [], List, cond, nat_lt, sum_by};
ghost use Rattle.call_script.specs.Faults.{max_acts, max_threads, max_racers, max_race_bytes};
ghost use Rattle.call_script.specs.Line as form;
ghost use Rattle.call_script.specs.Standing as standing;
ghost use Rattle.script_lines.specs.Lines as lines;
ghost use Rattle.script_faults.specs.Room as spec;

use script_lines::Line;
use script_rules::{is_act, is_racer, is_thread, race_length};

/// One less where one came, and none where none is left.
pub fn less(left: u32, came: bool) -> u32
    ensures { result ≡ left - cond came 1 0 }
{
    if came { left.saturating_sub(1) } else { left }
}

/// How many more acts, threads and racers may come, and how many bytes races have written.
#[derive(Clone, Copy)]
pub struct Room {
    pub acts: u32,
    pub threads: u32,
    pub racers: u32,
    pub race_bytes: u64,
}

impl Room {
    pub fn new() -> Room
        ensures { spec.HasRoom [] result }
    {
        Room {
            acts: 8192,
            threads: 7,
            racers: 4,
            race_bytes: 0,
        }
    }

    /// Whether one act too many.
    pub fn has_no_act(self) -> bool
        ensures { (ls : List form.Line) → spec.HasRoom ls self
            → result ≡ standing.has_already max_acts standing.is_act ls }
    {
        self.acts == 0
    }

    pub fn has_no_thread(self) -> bool
        ensures { (ls : List form.Line) → spec.HasRoom ls self
            → result ≡ standing.has_already max_threads standing.is_thread (form.Thread ∷ ls) }
    {
        self.threads == 0
    }

    pub fn has_no_racer(self) -> bool
        ensures { (ls : List form.Line) → spec.HasRoom ls self
            → result ≡ standing.has_already max_racers standing.is_racer ls }
    {
        self.racers == 0
    }

    /// Whether the races write too many bytes with so many more.
    pub fn has_not(self, bytes: u64) -> bool
        ensures { (ls : List form.Line) → spec.HasRoom ls self
            → result ≡ nat_lt max_race_bytes (sum_by standing.race_length ls + bytes) }
    {
        self.race_bytes.saturating_add(bytes) > 4096
    }

    /// What is left behind a line.
    pub fn behind(self, line: &Line) -> Room
        ensures { (ls : List form.Line) → spec.HasRoom ls self
            → spec.HasRoom (ls ++ lines.line_of line.now ∷ []) result }
    {
        Room {
            acts: less(self.acts, is_act(line)),
            threads: less(self.threads, is_thread(line)),
            racers: less(self.racers, is_racer(line)),
            race_bytes: self.race_bytes.saturating_add(race_length(line)),
        }
    }
}
