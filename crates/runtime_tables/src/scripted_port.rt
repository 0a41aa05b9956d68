//! A port that answers as a table says, whatever was written.

ghost use Rattle.std.specs.Prelude.{◌≡◌, ◌∷◌, [], IfOk};
ghost use Rattle.word_port.specs.Port.{with_steps, HasRoom};

use std::alloc::{AllocError, Global};
use std::marker::Model;
use word_port::{Kind, Side, Step, WordPort};

/// Answers 0 to its first step, one word to the steps before its turn, and another from then on.
#[derive(Drop)]
pub(crate) struct ScriptedPort {
    log: Vec<Step>,
    limit: u32,
    turn: u32,
    early: u64,
    late: u64,
}

impl Model for ScriptedPort {
    ghost use Rattle.std.specs.Prelude.{◌≤◌, [], vec_len, vec_capacity};
    ghost use Rattle.word_port.specs.Port.{PortState};

    ghost Value = { PortState };

    ghost view = { λ p. record { log = p.log.items; limit = p.limit; words = 1; host = 0; name = [] } };

    ghost invariant = { λ p. (vec_len p.log ≤ p.limit) × (p.limit ≤ vec_capacity p.log) };
}

impl ScriptedPort {
    /// One slot, and a log that takes so many steps.
    pub(crate) fn new(
        alloc: Global,
        limit: u32,
        turn: u32,
        early: u64,
        late: u64,
    ) -> Result<ScriptedPort, AllocError>
        ensures { IfOk result (λ port. port ≡ record { log = []; limit = limit; words = 1; host = 0; name = [] }) }
    {
        Ok(ScriptedPort {
            log: Vec::with_capacity(alloc, limit as usize)?,
            limit,
            turn,
            early,
            late,
        })
    }

    fn take_step(&mut self, side: Side, kind: Kind, index: u32, first: u64, second: u64) -> u64
        requires room { HasRoom self.old }
        ensures step { self.new ≡ with_steps self.old (record {
          side = side;
          kind = kind;
          index = index;
          first = first;
          second = second;
          answer = result;
        } ∷ []) }
        ensures no_bytes { self.old.host ≡ 0 }
    {
        let made = self.log.len() as u32;
        let answer = if made == 0 {
            0
        } else if made < self.turn {
            self.early
        } else {
            self.late
        };
        let step = Step {
            side,
            kind,
            index,
            first,
            second,
            answer,
        };
        match self.log.push(step) {
            Ok(()) => answer,
            Err(_) => unreachable!(),
        }
    }
}

impl WordPort for ScriptedPort {
    ghost state = { λ p. p };

    fn spare(&self) -> u32 {
        self.limit - self.log.len() as u32
    }

    fn log(&self) -> &[Step] {
        let _limit = self.limit;
        self.log.as_slice()
    }

    fn words(&self) -> u32 {
        let _limit = self.limit;
        1
    }

    fn host(&self) -> u32 {
        let _limit = self.limit;
        0
    }

    fn load(&mut self, side: Side, index: u32) -> u64 {
        self.take_step(side, Kind::Load, index, 0, 0)
    }

    fn swap(&mut self, side: Side, index: u32, value: u64) -> u64 {
        self.take_step(side, Kind::Swap, index, value, 0)
    }

    fn add(&mut self, side: Side, index: u32, by: u64) -> u64 {
        self.take_step(side, Kind::Add, index, by, 0)
    }

    fn cas(&mut self, side: Side, index: u32, old: u64, new: u64) -> u64 {
        self.take_step(side, Kind::Cas, index, old, new)
    }

    fn glance(&self, _index: u32) -> u64 {
        self.late
    }
}
