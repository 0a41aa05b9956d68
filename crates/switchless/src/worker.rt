//! The steps of workers.

ghost use Rattle.std.specs.Prelude.{◌≡◌, ◌<◌, ◌+◌, ◌^◌, Some, None, IfOk, IfErr, OnOk, MatchOption};
ghost use Rattle.word_port.specs.Runs.{Makes, StopsFull};
ghost use Rattle.word_port.specs.declared.RunFull.TheVariants.{Steps};
ghost use Rattle.switchless.specs.Tasks.{IsPastHost, HasSlots, IsTask, task_word};
ghost use Rattle.switchless.specs.Worker.{scan as scanned, accept as accepting, finish as finishing};

use crate::slot_word::{Tag, is_offered};
use crate::steps::{cas, load, slot_at, swap};
use crate::{Pool, Task};
use sgx_base::Status;
use word_port::{RunFull, WordPort};

/// Loads the slot at a place of the pool, and gives the call where one is offered there.
pub fn scan<P: WordPort>(port: &mut P, pool: &Pool, slot: u32) -> Result<Option<Task>, RunFull>
    requires slots { HasSlots (P.state port.old) pool.now }
    requires place { slot < pool.now.slots }
    ensures ok { IfOk result (λ task. MatchOption task
        (Makes (scanned (pool.now.from + slot)) (P.state port.old) (P.state port.new) None)
        (λ t. Makes (scanned (pool.now.from + slot)) (P.state port.old) (P.state port.new) (Some (task_word t))
        × (t.slot ≡ pool.now.from + slot) × IsTask t)) }
    ensures full { IfErr result (λ full. (full ≡ Steps)
        × StopsFull (scanned (pool.now.from + slot)) (P.state port.old) (P.state port.new)) }
{
    let slot = slot_at(port, pool, slot);
    let word = load(port, slot)?;
    if !is_offered(word) {
        return Ok(None);
    }
    Ok(Some(Task::in_word(slot, word)))
}

/// Accepts an offered call, and says whether no one was quicker.
pub fn accept<P: WordPort>(port: &mut P, task: &Task) -> Result<bool, RunFull>
    requires slot { IsPastHost (P.state port.old) task.now.slot }
    requires task { IsTask task.now }
    ensures ok { IfOk result (λ won. Makes (accepting task.now.slot (task_word task.now))
        (P.state port.old) (P.state port.new) won) }
    ensures full { IfErr result (λ full. (full ≡ Steps)
        × StopsFull (accepting task.now.slot (task_word task.now)) (P.state port.old) (P.state port.new)) }
{
    let offered = task.word(Tag::Offered, 0);
    let accepted = task.word(Tag::Accepted, 0);
    let found = cas(port, task.slot, offered, accepted)?;
    Ok(found == offered)
}

/// Leaves the slot of an accepted call done, with a status.
pub fn finish<P: WordPort>(port: &mut P, task: Task, status: Status) -> Result<(), RunFull>
    requires slot { IsPastHost (P.state port.old) task.slot }
    requires task { IsTask task }
    requires status { status.0 < 2 ^ 16 }
    ensures ok { OnOk result (Makes (finishing task.slot (task_word task) status.0)
        (P.state port.old) (P.state port.new) tt) }
    ensures full { IfErr result (λ full. (full ≡ Steps)
        × StopsFull (finishing task.slot (task_word task) status.0) (P.state port.old) (P.state port.new)) }
{
    let done = task.word(Tag::Done, status.0);
    swap(port, task.slot, done)?;
    Ok(())
}
