//! One access of one word of the table.

ghost use Rattle.std.specs.Prelude.{◌≡◌, ◌<◌, false, length};
ghost use Rattle.word_port.specs.Requests.{step_of};
ghost use Rattle.shared_words.specs.Rule.{IsStep};
ghost use Rattle.shared_words.specs.Accesses.{request_of, IsByteAccess};

use super::rule::{
    Adding, ByEnclave, ByHost, ByPool, ByRacer, Exchanging, Law, Loading, Makes, OfSide, Start,
    Swapping, View,
};
use atomic_table::{Seat, Shared};
use word_port::{Kind, Side, Step};

/// What is done to a word.
#[derive(Clone, Copy)]
pub enum Access {
    Load,
    /// Sets the word to the value.
    Swap(u64),
    /// Adds the number, modulo 2^64.
    Add(u64),
    /// Sets the word to the second value where it equals the first.
    Cas(u64, u64),
}

impl Access {
    /// The step that has this access and its answer.
    pub fn step(self, side: Side, index: u32, answer: u64) -> Step
        ensures { result ≡ step_of (request_of side index self) answer }
    {
        let (kind, first, second) = match self {
            Access::Load => (Kind::Load, 0, 0),
            Access::Swap(value) => (Kind::Swap, value, 0),
            Access::Add(by) => (Kind::Add, by, 0),
            Access::Cas(old, new) => (Kind::Cas, old, new),
        };
        Step {
            side,
            kind,
            index,
            first,
            second,
            answer,
        }
    }
}

/// Makes one step on the table, and gives the word that it found.
pub fn make_step(
    table: &Shared<u8, View, Start, Law>,
    seat: &mut Seat<u8, View>,
    side: Side,
    index: u32,
    access: Access,
) -> u64
    requires table { seat.old.table_id ≡ table.now.table_id }
    requires count { table.now.table_id.words ≡ length table.now.key.words.items }
    requires word { index < table.now.table_id.words }
    requires live { seat.old.me.0.spent ≡ false }
    requires byte { index < seat.old.me.0.host → IsByteAccess access }
    ensures seat { (seat.new.table_id ≡ seat.old.table_id) × (seat.new.id ≡ seat.old.id) }
    ensures step { IsStep (request_of side index access) seat.old.me result seat.new.me }
{
    match side {
        Side::Enclave => make_step_as::<ByEnclave>(table, seat, index, access),
        Side::Host => make_step_as::<ByHost>(table, seat, index, access),
        Side::Pool => make_step_as::<ByPool>(table, seat, index, access),
        Side::Racer => make_step_as::<ByRacer>(table, seat, index, access),
    }
}

fn make_step_as<T: OfSide>(
    table: &Shared<u8, View, Start, Law>,
    seat: &mut Seat<u8, View>,
    index: u32,
    access: Access,
) -> u64
    requires table { seat.old.table_id ≡ table.now.table_id }
    requires count { table.now.table_id.words ≡ length table.now.key.words.items }
    requires word { index < table.now.table_id.words }
    requires live { seat.old.me.0.spent ≡ false }
    requires byte { index < seat.old.me.0.host → IsByteAccess access }
    ensures seat { (seat.new.table_id ≡ seat.old.table_id) × (seat.new.id ≡ seat.old.id) }
    ensures step { IsStep (request_of T.side index access) seat.old.me result seat.new.me }
{
    let word = index as usize;
    match access {
        Access::Load => table.load::<Makes<Loading, T>>(seat, word),
        Access::Swap(value) => table.swap::<Makes<Swapping, T>>(seat, word, value),
        Access::Add(by) => table.fetch_add::<Makes<Adding, T>>(seat, word, by),
        Access::Cas(old, new) => {
            table.compare_exchange::<Makes<Exchanging, T>>(seat, word, old, new)
        }
    }
}
