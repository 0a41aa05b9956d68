//! Words shared by running threads, and the same steps on words of one thread.
#![tactic(auto)]

ghost use Rattle.std.specs.Prelude.{◌≡◌, ◌+◌, ◌≤◌, [], ◌∷◌, length, All, IfOk, OnOk};
ghost use Rattle.shared_words.specs.Histories.{HaveOneHistory};
ghost use Rattle.shared_words.specs.Seats.{IsSeatOf, IsKeeper, after_join};
ghost use Rattle.thread_tables.specs.Rooms.{HasRoomFor};

use shared_words::{Bound, SharedWords, WordSeat, finish, join, make, split};
use std::alloc::{AllocError, Global};
use std::sync::Wait;
use std::thread;
use std::thread::{Promise, Threads};
use word_port::{Side, Step, WordPort};

/// A step of each kind: a swap and a load of the host byte 0, an add and a compare and exchange of the word 1.
pub fn act<P: WordPort>(port: &mut P, side: Side)
    requires words { (P.state port.old).words ≡ 2 }
    requires host { (P.state port.old).host ≡ 1 }
    requires room { length (P.state port.old).log + 4 ≤ (P.state port.old).limit }
    ensures { (P.state port.new).name ≡ (P.state port.old).name }
{
    port.swap(side, 0, 7);
    port.load(side, 0);
    port.add(side, 1, 3);
    port.cas(side, 1, 3, 5);
}

/// What a thread does with its seat.
fn act_in_thread(table: &SharedWords, seat: WordSeat, side: Side) -> WordSeat
    requires table { IsSeatOf table.now seat }
    requires room { HasRoomFor 4 seat }
    ensures { IsSeatOf table.now result }
{
    let mut port = Bound::bind(table, seat);
    act(&mut port, side);
    port.unbind()
}

/// What a thread gives back: a seat of this table.
#[derive(Clone, Copy)]
struct OfTable<'a>(&'a SharedWords);

impl<'a> Promise<WordSeat> for OfTable<'a> {
    ghost use Rattle.shared_words.specs.Seats.{IsSeatOf};

    ghost kept_by = { λ p r. IsSeatOf p.0.now r };
}

/// The logs of a run, the keeper's first.
#[derive(Drop)]
pub struct Logs {
    pub keeper: Vec<Step>,
    pub first: Vec<Step>,
    pub second: Vec<Step>,
}

/// Two threads in a scope make a step of each kind, then the keeper swaps the word 1.
pub fn two_in_a_scope<R: Threads + Wait>(rt: &R, alloc: Global) -> Result<Logs, AllocError>
    ensures { IfOk result (λ r. HaveOneHistory (200 ∷ 0 ∷ []) (r.keeper.items ∷ r.first.items ∷ r.second.items ∷ [])) }
{
    let (table, mut keeper) = make(alloc, &[200, 0], 1, 1)?;
    let first = split(alloc, &table, &mut keeper, 4)?;
    let second = split(alloc, &table, &mut keeper, 4)?;
    let (first, second) = both_in_a_scope(rt, &table, first, second)?;
    let first = join(&table, &mut keeper, first);
    let second = join(&table, &mut keeper, second);
    keeper.swap(&table, Side::Host, 1, 1);
    Ok(Logs {
        keeper: finish(table, keeper),
        first,
        second,
    })
}

fn both_in_a_scope<R: Threads + Wait>(
    rt: &R,
    table: &SharedWords,
    first: WordSeat,
    second: WordSeat,
) -> Result<(WordSeat, WordSeat), AllocError>
    requires first { IsSeatOf table.now first × HasRoomFor 4 first }
    requires second { IsSeatOf table.now second × HasRoomFor 4 second }
    ensures { IfOk result (λ r. IsSeatOf table.now r.0 × IsSeatOf table.now r.1) }
{
    thread::scope(
        thread::scope_env(),
        rt,
        |scope| -> Result<(WordSeat, WordSeat), AllocError>
            requires { IsSeatOf table.now first × HasRoomFor 4 first × IsSeatOf table.now second × HasRoomFor 4 second }
            ensures { IfOk result (λ r. IsSeatOf table.entry.now r.0 × IsSeatOf table.entry.now r.1) }
        {
            let first = scope.spawn_with(
                OfTable(table),
                move || -> WordSeat
                    requires { IsSeatOf table.now first × HasRoomFor 4 first }
                    ensures { IsSeatOf table.entry.now result }
                { act_in_thread(table, first, Side::Host) },
            )?;
            let second = scope.spawn_with(
                OfTable(table),
                move || -> WordSeat
                    requires { IsSeatOf table.now second × HasRoomFor 4 second }
                    ensures { IsSeatOf table.entry.now result }
                { act_in_thread(table, second, Side::Racer) },
            )?;
            Ok((first.join(rt), second.join(rt)))
        },
    )
}

/// What the keeper's thread does with a seat that has ended.
fn join_in_thread(
    table: &SharedWords,
    mut keeper: WordSeat,
    ended: WordSeat,
) -> (WordSeat, Vec<Step>)
    requires table { IsSeatOf table.now keeper }
    requires keeper { IsKeeper keeper }
    requires ended { IsSeatOf table.now ended }
    ensures keeper { result.0 ≡ after_join keeper ended.port.log }
    ensures log { result.1.items ≡ ended.port.log }
{
    let log = join(table, &mut keeper, ended);
    (keeper, log)
}

/// The keeper joins one seat while another seat's thread runs.
pub fn joined_while_one_runs<R: Threads + Sync>(rt: &R, alloc: Global) -> Result<Logs, AllocError>
    ensures { IfOk result (λ r. HaveOneHistory (200 ∷ 0 ∷ []) (r.keeper.items ∷ r.first.items ∷ r.second.items ∷ [])) }
{
    let (table, mut keeper) = make(alloc, &[200, 0], 1, 1)?;
    let first = split(alloc, &table, &mut keeper, 4)?;
    let second = split(alloc, &table, &mut keeper, 4)?;
    let first = act_in_thread(&table, first, Side::Enclave);
    let (second, (mut keeper, first)) = thread::join(
        rt,
        || -> WordSeat
            requires { IsSeatOf table second × HasRoomFor 4 second }
            ensures { IsSeatOf table result }
        { act_in_thread(&table, second, Side::Pool) },
        || -> (WordSeat, Vec<Step>)
            requires { IsSeatOf table keeper × IsKeeper keeper × IsSeatOf table first }
            ensures { (result.0 ≡ after_join keeper first.port.log) × (result.1.items ≡ first.port.log) }
        { join_in_thread(&table, keeper, first) },
    );
    let second = join(&table, &mut keeper, second);
    Ok(Logs {
        keeper: finish(table, keeper),
        first,
        second,
    })
}

/// Adds 1 to the word 0, 100,000 times.
fn count<P: WordPort>(port: &mut P) {
    for _ in 0..100_000 {
        if port.spare() > 0 && port.words() > 0 && port.host() == 0 {
            port.add(Side::Pool, 0, 1);
        }
    }
}

fn count_in_thread(table: &SharedWords, seat: WordSeat)
    requires { IsSeatOf table.now seat }
{
    let mut port = Bound::bind(table, seat);
    count(&mut port);
}

/// So many seats, each for so many steps.
fn seats_of(
    alloc: Global,
    table: &SharedWords,
    keeper: &mut WordSeat,
    count: u32,
    limit: u32,
) -> Result<Vec<WordSeat>, AllocError>
    requires table { IsSeatOf table.now keeper.old }
    requires keeper { IsKeeper keeper.old }
    ensures keeper { OnOk result (keeper.new.port ≡ keeper.old.port) }
    ensures seats { IfOk result (λ seats. All (IsSeatOf table.now) seats.items) }
{
    let mut seats = Vec::new(alloc);
    for _ in 0..count {
        seats.push(split(alloc, table, keeper, limit)?)?;
    }
    Ok(seats)
}

/// The word after eight threads have each added 1 to it 100,000 times.
pub fn counted_by_eight<R: Threads + Sync>(rt: &R, alloc: Global) -> Result<u64, AllocError> {
    let (table, mut keeper) = make(alloc, &[0], 0, 1)?;
    let seats = seats_of(alloc, &table, &mut keeper, 8, 100_000)?;
    let count = |seat: WordSeat|
        requires { IsSeatOf table seat }
    { count_in_thread(&table, seat) };
    thread::map_vec(rt, seats, &count)?;
    Ok(keeper.swap(&table, Side::Host, 0, 0))
}

#[cfg(test)]
mod tests;
