//! Words for one thread, with races at its accesses.

ghost use Rattle.std.specs.Prelude.{ℕ, ◌≡◌, ◌+◌, ◌<◌, ◌≤◌, ◌^◌, ◌&&◌, nat_lt, List, [], ◌∷◌, ◌++◌, length, IfOk, All, slice_index, vec_len, vec_capacity, if◌then◌else◌};
ghost use Rattle.word_port.specs.Port.{with_steps, HasRoom};
ghost use Rattle.word_port.specs.Requests.{step_of, load_of, swap_of, add_of, cas_of};
ghost use Rattle.word_port.specs.History.{word_after, words_in_the_end, is_enclave, IsLegal, race_writes, with_races};
ghost use Rattle.word_port.specs.Names.{words_named, races_named};
ghost use Rattle.word_port.specs.Plain.{opened, HasBytes, IsByteKind, IsByteStep, AreInOrder, HasMade, writes_before};

use super::{Kind, Race, Side, Step, WordPort};
use std::alloc::{AllocError, Global};
use std::marker::Model;

/// Words that one thread alone reaches, and races that write host bytes just before its accesses.
#[derive(Drop)]
pub struct PlainWords {
    initial: Vec<u64>,
    races: Vec<Race>,
    words: Vec<u64>,
    host: u32,
    turn: Turn,
    log: Vec<Step>,
    limit: u32,
}

/// How many accesses of host bytes the enclave has made, and how many of the races were before them.
#[derive(Drop)]
struct Turn {
    accesses: u32,
    made: usize,
}

impl Model for PlainWords {
    ghost use Rattle.std.specs.Prelude.{◌≤◌, length, vec_len, vec_capacity};
    ghost use Rattle.word_port.specs.Port.{PortState};
    ghost use Rattle.word_port.specs.Names.{name_of};
    ghost use Rattle.word_port.specs.Plain.{IsKept};

    ghost Value = { PortState };

    ghost view = { λ p. record {
      log = p.log.items;
      limit = p.limit;
      words = length p.initial.items;
      host = p.host;
      name = name_of p.initial.items p.races.items;
    } };

    ghost invariant = { λ p.
        IsKept p.initial.items p.races.items p.host p.turn.accesses p.turn.made p.words.items p.log.items
        × (p.turn.accesses ≤ vec_len p.log) × (vec_len p.log ≤ p.limit) × (p.limit ≤ vec_capacity p.log) };
}

impl PlainWords {
    /// The words as given, of which the first `host` are bytes, with a log that takes `limit` steps.
    ///
    /// All memory is taken here, that of the log too. The error is that there is too little.
    pub fn new(
        alloc: Global,
        initial: &[u64],
        host: u32,
        races: &[Race],
        limit: u32,
    ) -> Result<PlainWords, AllocError>
        requires some { 1 ≤ length initial.now }
        requires few { length initial.now ≤ 2 ^ 20 }
        requires host { host ≤ length initial.now }
        requires bytes { HasBytes host initial.now }
        requires order { AreInOrder races.now }
        requires first { All (λ r. 1 ≤ r.at) races.now }
        requires aims { All (λ r. r.index < host) races.now }
        ensures { IfOk result (λ port. port ≡ opened initial.now host races.now limit) }
    {
        Ok(PlainWords {
            initial: Vec::from_slice(alloc, initial)?,
            races: Vec::from_slice(alloc, races)?,
            words: Vec::from_slice(alloc, initial)?,
            host,
            turn: Turn {
                accesses: 0,
                made: 0,
            },
            log: Vec::with_capacity(alloc, limit as usize)?,
            limit,
        })
    }

    fn take_step(&mut self, side: Side, kind: Kind, index: u32, first: u64, second: u64) -> u64
        requires room { HasRoom self.old }
        requires word { index < self.old.words }
        requires byte { index < self.old.host → IsByteKind kind × (first < 256) }
        ensures step { self.new ≡ with_steps self.old (record {
          side = side;
          kind = kind;
          index = index;
          first = first;
          second = second;
          answer = result;
        } ∷ []) }
        ensures byte { index < self.old.host → result < 256 }
    {
        let access = is_access(side, index, self.host);
        come_to(&mut self.words, &self.races, &mut self.turn, access);
        let answer = self.words[index as usize];
        self.words[index as usize] = word_after(kind, first, second, answer);
        enter(
            &mut self.log,
            Step {
                side,
                kind,
                index,
                first,
                second,
                answer,
            },
        );
        answer
    }
}

impl WordPort for PlainWords {
    ghost state = { λ p. p };

    fn spare(&self) -> u32 {
        self.limit - self.log.len() as u32
    }

    fn log(&self) -> &[Step]
        ensures log { result.now ≡ self.now.log }
        ensures legal { IsLegal (words_named self.now.name)
            (with_races self.now.host (races_named self.now.name) self.now.log) }
        ensures bytes { All (IsByteStep self.now.words self.now.host) self.now.log }
        ensures limit { length self.now.log ≤ self.now.limit }
        ensures short { length self.now.log < 2 ^ 32 }
    {
        let _limit = self.limit;
        self.log.as_slice()
    }

    fn words(&self) -> u32 {
        self.initial.len() as u32
    }

    fn host(&self) -> u32 {
        self.host
    }

    fn load(&mut self, side: Side, index: u32) -> u64 {
        self.take_step(side, Kind::Load, index, 0, 0)
    }

    fn swap(&mut self, side: Side, index: u32, value: u64) -> u64 {
        self.take_step(side, Kind::Swap, index, value, 0)
    }

    fn add(&mut self, side: Side, index: u32, by: u64) -> u64 {
        self.take_step(side, Kind::Add, index, by, 0)
    }

    fn cas(&mut self, side: Side, index: u32, old: u64, new: u64) -> u64 {
        self.take_step(side, Kind::Cas, index, old, new)
    }

    fn glance(&self, index: u32) -> u64 {
        self.words.get(index as usize).copied().unwrap_or(0)
    }
}

/// Whether a step of this side at this index is an access of a host byte by the enclave.
fn is_access(side: Side, index: u32, host: u32) -> bool
    ensures { result ≡ (is_enclave side && nat_lt index host) }
{
    matches!(side, Side::Enclave) && index < host
}

/// What a step leaves in a word.
fn word_after(kind: Kind, first: u64, second: u64, found: u64) -> u64
    ensures { result ≡ word_after kind first second found }
{
    match kind {
        Kind::Load => found,
        Kind::Swap => first,
        Kind::Add => found.wrapping_add(first),
        Kind::Cas => { if found == first { second } else { found } }
    }
}

/// Makes the writes that come just before a step, which may be an access of a host byte by the enclave.
fn come_to(words: &mut [u64], races: &[Race], turn: &mut Turn, access: bool)
    requires fits { turn.old.accesses + 1 < 2 ^ 32 }
    requires order { AreInOrder races.now }
    requires aims { All (λ r. r.index < length words.old) races.now }
    requires turn { HasMade races.now turn.old.accesses turn.old.made }
    ensures words { words.new ≡ words_in_the_end words.old (writes_before access races.now turn.old.accesses) }
    ensures accesses { turn.new.accesses ≡ turn.old.accesses + (if access then 1 else 0) }
    ensures at_most_one { turn.new.accesses ≤ turn.old.accesses + 1 }
    ensures turn { HasMade races.now turn.new.accesses turn.new.made }
    ensures bytes { (k : ℕ) → slice_index words.old k < 256 → slice_index words.new k < 256 }
{
    if access {
        turn.made = make_races(words, races, turn.made, turn.accesses);
        turn.accesses += 1;
    }
}

/// Makes the races of the access after so many accesses, of which the first has the place `made`, and gives the place
/// after them.
fn make_races(words: &mut [u64], races: &[Race], mut made: usize, accesses: u32) -> usize
    requires fits { accesses + 1 < 2 ^ 32 }
    requires order { AreInOrder races.now }
    requires aims { All (λ r. r.index < length words.old) races.now }
    requires turn { HasMade races.now accesses made }
    ensures words { words.new ≡ words_in_the_end words.old (race_writes races.now (accesses + 1)) }
    ensures turn { HasMade races.now (accesses + 1) result }
    ensures bytes { (k : ℕ) → slice_index words.old k < 256 → slice_index words.new k < 256 }
{
    let number = accesses + 1;
    while made < races.len() && races[made].at == number {
        let race = &races[made];
        words[race.index as usize] = u64::from(race.value);
        made += 1;
    }
    made
}

/// Enters a step into a log that has room for it.
fn enter(log: &mut Vec<Step>, step: Step)
    requires { vec_len log.old < vec_capacity log.old }
    ensures items { log.new.items ≡ log.old.items ++ step ∷ [] }
    ensures len { vec_len log.new ≡ vec_len log.old + 1 }
    ensures capacity { vec_capacity log.old ≤ vec_capacity log.new }
{
    match log.push(step) {
        Ok(()) => {}
        Err(_) => unreachable!(),
    }
}
