//! A list of records with a limit.

use crate::CallRecord;
use std::alloc::{AllocError, Global};
use std::marker::Model;
use word_port::RunFull;

/// The records of calls in order of their start, and how many there may be. Their memory is reserved when it is made.
#[derive(Drop)]
pub struct Records {
    items: Vec<CallRecord>,
    limit: u32,
}

impl Model for Records {
    ghost use Rattle.std.specs.Prelude.{◌≤◌, length, vec_len, vec_capacity};
    ghost use Rattle.call_report.specs.RecordList.{RecordList};

    ghost Value = { RecordList };

    ghost view = { λ r. record { list = r.items.items; limit = r.limit } };

    ghost invariant = { λ r. (vec_len r.items ≤ r.limit) × (r.limit ≤ vec_capacity r.items) };
}

impl Records {
    ghost use Rattle.std.specs.Prelude.{◌≡◌, ◌≤◌, ◌<◌, ◌^◌, ◌∷◌, [], ◌↔◌, length, slice_set, IfOk, OnOk, IfErr, OnErr, Err};
    ghost use Rattle.call_report.specs.RecordList.{RecordList, with_records};
    ghost use Rattle.word_port.specs.declared.RunFull.TheVariants.{Records as no_more_records};

    /// An empty list.
    pub fn new(alloc: Global, limit: u32) -> Result<Records, AllocError>
        ensures { IfOk result (λ records. records ≡ record { list = []; limit = limit }) }
    {
        let items = Vec::with_capacity(alloc, limit as usize)?;
        Ok(Records { items, limit })
    }

    /// The records so far.
    pub fn list(&self) -> &[CallRecord]
        ensures list { result.now ≡ self.now.list }
        ensures limit { length self.now.list ≤ self.now.limit }
        ensures short { length self.now.list < 2 ^ 32 }
    {
        let _limit = self.limit;
        self.items.as_slice()
    }

    /// Appends a record. Takes no memory.
    pub fn push(&mut self, item: CallRecord) -> Result<(), RunFull>
        ensures ok { OnOk result (self.new ≡ with_records self.old (item ∷ [])) }
        ensures full { (result ≡ Err no_more_records) ↔ (length self.old.list ≡ self.old.limit) }
        ensures only { IfErr result (λ full. full ≡ no_more_records) }
        ensures kept { OnErr result (self.new ≡ self.old) }
    {
        if self.items.len() >= self.limit as usize {
            return Err(RunFull::Records);
        }
        self.items.push(item).unwrap();
        Ok(())
    }

    /// Replaces the record at a place.
    pub fn set(&mut self, place: u32, item: CallRecord)
        requires { place < length self.old.list }
        ensures { self.new ≡ record self.old { list = slice_set self.old.list place item } }
    {
        self.items[place as usize] = item;
    }
}

/// Asks for a type whose values may be moved to other threads and lent to them.
fn crosses_threads<T: Send + Sync>() {}

/// Records do.
fn records_cross_threads() {
    crosses_threads::<Records>();
}
