//! The table of shared words, and its seats: made, split off, joined and finished.

ghost use Rattle.std.specs.Prelude.{◌≡◌, ◌+◌, ◌<◌, ◌≤◌, ◌^◌, [], ◌∷◌, ◌++◌, length, vec_len, vec_capacity, All, IfOk, OnOk, OnErr};
ghost use Rattle.word_port.specs.Port.{HasRoom};
ghost use Rattle.word_port.specs.Plain.{HasBytes, IsByteStep};
ghost use Rattle.word_port.specs.Requests.{step_of, swap_of};
ghost use Rattle.shared_words.specs.Accesses.{request_of, IsByteAccess};
ghost use Rattle.shared_words.specs.Histories.{HaveOneHistory};
ghost use Rattle.shared_words.specs.Seats.{IsSeatOf, IsKeeper, empty_port, first_seat, with_steps_in, after_split, after_join};

use super::accesses::{Access, make_step};
use super::rule::{Law, Seating, Start, View};
use atomic_table::{Seat, Table};
use std::alloc::{AllocError, Global};
use std::marker::Model;
use word_port::{Side, Step};

/// Words that threads share. Each access of one word is one atomic step.
#[derive(Drop)]
pub struct SharedWords {
    table: Table<u8, View, Start, Law, Global>,
}

impl Model for SharedWords {
    ghost use Rattle.std.specs.Prelude.{◌≡◌, ◌<◌, length};
    ghost use Rattle.shared_words.specs.Seats.{TableState, name_of};

    ghost Value = { TableState };

    ghost view = { λ t. record {
      initial = t.table.shared.key.words.items;
      name = name_of t.table.shared.table_id;
    } };

    ghost invariant = { λ t. (0 < t.table.shared.table_id.words) × (t.table.shared.table_id.slots ≡ 0)
        × (t.table.shared.table_id.words ≡ length t.table.shared.key.words.items) };
}

/// The right to make steps on a table of shared words, with a log of the steps made. A seat can pass to another thread.
#[derive(Drop)]
pub struct WordSeat {
    log: Vec<Step>,
    limit: u32,
    words: u32,
    host: u32,
    seat: Seat<u8, View>,
}

impl Model for WordSeat {
    ghost use Rattle.shared_words.specs.Seats.{SeatState};

    ghost Value = { SeatState };

    ghost use Rattle.shared_words.specs.Sitting.{shown, IsWhole};

    ghost view = { shown };

    ghost invariant = { IsWhole };
}

impl SharedWords {
    /// A look at a word, past the end at 0. Nothing is known of what it gives.
    pub(crate) fn peek(&self, index: u32) -> u64 {
        let word = index as usize;
        if word < self.table.word_count() {
            self.table.shared.peek(word)
        } else {
            0
        }
    }
}

impl WordSeat {
    pub(crate) fn spare(&self) -> u32
        ensures { result + length self.now.port.log ≡ self.now.port.limit }
    {
        self.limit - self.log.len() as u32
    }

    pub(crate) fn log(&self) -> &[Step]
        ensures log { result.now ≡ self.now.port.log }
        ensures short { length self.now.port.log < 2 ^ 32 }
    {
        let _limit = self.limit;
        self.log.as_slice()
    }

    pub(crate) fn words(&self) -> u32
        ensures { result ≡ self.now.port.words }
    {
        self.words
    }

    pub(crate) fn host(&self) -> u32
        ensures count { result ≡ self.now.port.host }
        ensures within { self.now.port.host ≤ self.now.port.words }
    {
        self.host
    }

    pub(crate) fn take_step(
        &mut self,
        table: &SharedWords,
        side: Side,
        index: u32,
        access: Access,
    ) -> u64
        requires table { IsSeatOf table.now self.old }
        requires room { HasRoom self.old.port }
        requires word { index < self.old.port.words }
        requires byte { index < self.old.port.host → IsByteAccess access }
        ensures step { self.new ≡ with_steps_in self.old (step_of (request_of side index access) result ∷ []) }
        ensures byte { index < self.old.port.host → result < 256 }
    {
        let answer = make_step(&table.table.shared, &mut self.seat, side, index, access);
        enter(&mut self.log, access.step(side, index, answer));
        answer
    }

    /// Sets a word, as a step of this seat, and gives the word that it found. The keeper makes its own steps so.
    pub fn swap(&mut self, table: &SharedWords, side: Side, index: u32, value: u64) -> u64
        requires table { IsSeatOf table.now self.old }
        requires room { HasRoom self.old.port }
        requires word { index < self.old.port.words }
        requires byte { index < self.old.port.host → value < 256 }
        ensures step { self.new ≡ with_steps_in self.old (step_of (swap_of side index value) result ∷ []) }
        ensures byte { index < self.old.port.host → result < 256 }
    {
        self.take_step(table, side, index, Access::Swap(value))
    }
}

/// Enters a step into a log that has room for it.
fn enter(log: &mut Vec<Step>, step: Step)
    requires { vec_len log.old < vec_capacity log.old }
    ensures items { log.new.items ≡ log.old.items ++ step ∷ [] }
    ensures len { vec_len log.new ≡ vec_len log.old + 1 }
    ensures capacity { vec_capacity log.old ≤ vec_capacity log.new }
{
    match log.push(step) {
        Ok(()) => {}
        Err(_) => unreachable!(),
    }
}

/// The words as given, of which the first `host` are bytes, and the keeper: the seat that splits off and joins the
/// others.
/// Its log takes `limit` steps, and all memory for it is taken here. The error is that there is too little.
pub fn make(
    alloc: Global,
    initial: &[u64],
    host: u32,
    limit: u32,
) -> Result<(SharedWords, WordSeat), AllocError>
    requires some { 1 ≤ length initial.now }
    requires few { length initial.now ≤ 2 ^ 20 }
    requires host { host ≤ length initial.now }
    requires bytes { HasBytes host initial.now }
    ensures table { IfOk result (λ r. r.0.initial ≡ initial.now) }
    ensures keeper { IfOk result (λ r. r.1 ≡ first_seat r.0 host limit) }
{
    let log = Vec::with_capacity(alloc, limit as usize)?;
    let start = Start {
        words: Vec::from_slice(alloc, initial)?,
        host,
    };
    let (table, seat) = Table::<u8, View, Start, Law, Global>::of_words(alloc, initial, &start)?;
    let keeper = WordSeat {
        log,
        limit,
        words: initial.len() as u32,
        host,
        seat,
    };
    Ok((SharedWords { table }, keeper))
}

/// A new seat, with an empty log that takes `limit` steps. All memory for it is taken here. The error is that there is
/// too little.
pub fn split(
    alloc: Global,
    table: &SharedWords,
    keeper: &mut WordSeat,
    limit: u32,
) -> Result<WordSeat, AllocError>
    requires table { IsSeatOf table.now keeper.old }
    requires keeper { IsKeeper keeper.old }
    ensures ok { OnOk result (keeper.new ≡ after_split keeper.old) }
    ensures err { OnErr result (keeper.new ≡ keeper.old) }
    ensures port { IfOk result (λ seat. seat.port ≡ record keeper.old.port { log = []; limit = limit }) }
    ensures alone { IfOk result (λ seat. (seat.ended ≡ []) × (seat.due ≡ 0)) }
{
    let log = Vec::with_capacity(alloc, limit as usize)?;
    let seat = table.table.shared.split_seat::<Seating>(&mut keeper.seat);
    Ok(WordSeat {
        log,
        limit,
        words: keeper.words,
        host: keeper.host,
        seat,
    })
}

/// Ends a seat and hands out its log, which the keeper's list gains.
pub fn join(table: &SharedWords, keeper: &mut WordSeat, ended: WordSeat) -> Vec<Step>
    requires table { IsSeatOf table.now keeper.old }
    requires keeper { IsKeeper keeper.old }
    requires ended { IsSeatOf table.now ended }
    ensures log { result.items ≡ ended.port.log }
    ensures keeper { keeper.new ≡ after_join keeper.old ended.port.log }
{
    let WordSeat { log, seat, .. } = ended;
    table
        .table
        .shared
        .join_seat::<Seating>(&mut keeper.seat, seat);
    log
}

/// Ends the table, once every seat has been joined, and hands out the keeper's log.
pub fn finish(table: SharedWords, keeper: WordSeat) -> Vec<Step>
    requires table { IsSeatOf table keeper }
    requires keeper { IsKeeper keeper }
    requires joined { keeper.due ≡ 0 }
    ensures log { result.items ≡ keeper.port.log }
    ensures history { HaveOneHistory table.initial (result.items ∷ keeper.ended) }
    ensures bytes { All (All (IsByteStep keeper.port.words keeper.port.host)) (result.items ∷ keeper.ended) }
{
    let WordSeat { log, seat, .. } = keeper;
    let SharedWords { table } = table;
    let closed = table.close_with(seat);
    closed.free();
    log
}

/// Asks for a type whose values may be moved to other threads and lent to them.
fn crosses_threads<T: Send + Sync>() {}

/// The words do.
fn words_cross_threads() {
    crosses_threads::<SharedWords>();
}

/// A seat does.
fn seats_cross_threads() {
    crosses_threads::<WordSeat>();
}
