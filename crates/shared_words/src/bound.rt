//! A seat with its table, as a port.

ghost use Rattle.std.specs.Prelude.{◌≡◌};
ghost use Rattle.shared_words.specs.Seats.{IsSeatOf};

use super::accesses::Access;
use super::seats::{SharedWords, WordSeat};
use crossbeam_utils::Backoff;
use std::marker::Model;
use word_port::{Side, Step, WordPort};

/// A table, lent, and a seat of it.
#[derive(Drop)]
pub struct Bound<'a> {
    table: &'a SharedWords,
    seat: WordSeat,
}

impl<'a> Model for Bound<'a> {
    ghost use Rattle.shared_words.specs.Seats.{SeatState, IsSeatOf};

    ghost Value = { SeatState };

    ghost view = { λ b. b.seat };

    ghost invariant = { λ b. IsSeatOf b.table.now b.seat };
}

impl<'a> Bound<'a> {
    pub fn bind(table: &'a SharedWords, seat: WordSeat) -> Bound<'a>
        requires { IsSeatOf table.now seat }
        ensures { result ≡ seat }
    {
        Bound { table, seat }
    }

    /// The seat, with its log.
    pub fn unbind(self) -> WordSeat
        ensures { result ≡ self.entry }
    {
        let Bound { table: _, seat } = self;
        seat
    }
}

impl WordPort for Bound<'_> {
    ghost state = { λ b. b.port };

    fn spare(&self) -> u32 {
        self.seat.spare()
    }

    fn log(&self) -> &[Step] {
        self.seat.log()
    }

    fn words(&self) -> u32 {
        self.seat.words()
    }

    fn host(&self) -> u32 {
        self.seat.host()
    }

    fn load(&mut self, side: Side, index: u32) -> u64 {
        self.seat.take_step(self.table, side, index, Access::Load)
    }

    fn swap(&mut self, side: Side, index: u32, value: u64) -> u64 {
        self.seat
            .take_step(self.table, side, index, Access::Swap(value))
    }

    fn add(&mut self, side: Side, index: u32, by: u64) -> u64 {
        self.seat
            .take_step(self.table, side, index, Access::Add(by))
    }

    fn cas(&mut self, side: Side, index: u32, old: u64, new: u64) -> u64 {
        self.seat
            .take_step(self.table, side, index, Access::Cas(old, new))
    }

    /// Waits for a moment, then looks at the word.
    fn glance(&self, index: u32) -> u64 {
        Backoff::new().spin();
        self.table.peek(index)
    }
}
