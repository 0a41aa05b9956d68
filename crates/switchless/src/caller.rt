//! The steps of callers.

ghost use Rattle.std.specs.Prelude.{ℕ, ◌≡◌, ◌<◌, ◌^◌, true, false, Some, None, IfOk, IfErr, OnOk, MatchOption};
ghost use Rattle.word_port.specs.Interaction.{and_then};
ghost use Rattle.word_port.specs.Runs.{Makes, StopsFull};
ghost use Rattle.word_port.specs.declared.RunFull.TheVariants.{Steps};
ghost use Rattle.switchless.specs.Slots.{offered_word, IsFrameUpTo, last_offered_frame};
ghost use Rattle.switchless.specs.Tasks.{IsPastHost, HasSlots, IsTask, HasSeenDone, task_word, sent_as};
ghost use Rattle.switchless.specs.Caller.{offer as offering, look as looking, looks, withdraw as withdrawing, collect as collecting, waiting_looks, collected_status, after_looks, caller};
ghost use Rattle.switchless.specs.Outcomes.{IsOutcomeOf};

use crate::slot_word::{Tag, is_done, status_of};
use crate::steps::{cas, load, slot_at, swap};
use crate::{Pool, Sent, Task};
use sgx_base::Status;
use word_port::{RunFull, WordPort};

/// How often a caller glances at its slot before a waiting look, at most.
const GLANCES: u32 = 65_536;

/// Offers a call in the first free slot of the pool. The answer is None where each slot is taken.
pub fn offer<P: WordPort>(
    port: &mut P,
    pool: &Pool,
    ordinal: u32,
    frame: u64,
) -> Result<Option<Task>, RunFull>
    requires slots { HasSlots (P.state port.old) pool.now }
    requires ordinal { ordinal < 2 ^ 16 }
    requires frame { IsFrameUpTo last_offered_frame frame }
    ensures ok { IfOk result (λ task. MatchOption task
        (Makes (offering pool.now.from pool.now.slots (offered_word ordinal frame))
        (P.state port.old) (P.state port.new) None)
        (λ t. Makes (offering pool.now.from pool.now.slots (offered_word ordinal frame))
        (P.state port.old) (P.state port.new) (Some t.slot) × (t.ordinal ≡ ordinal) × (t.frame ≡ frame))) }
    ensures slot { IfOk result (λ task. MatchOption task (Unit {0}) (λ t. IsPastHost (P.state port.new) t.slot)) }
    ensures full { IfErr result (λ full. (full ≡ Steps)
        × StopsFull (offering pool.now.from pool.now.slots (offered_word ordinal frame))
        (P.state port.old) (P.state port.new)) }
{
    for place in 0..pool.slots {
        let task = Task {
            slot: slot_at(port, pool, place),
            ordinal,
            frame,
        };
        if cas(port, task.slot, 0, task.word(Tag::Offered, 0))? == 0 {
            return Ok(Some(task));
        }
    }
    Ok(None)
}

/// Looks once, whether the call was served.
pub fn look<P: WordPort>(port: &mut P, task: &Task) -> Result<bool, RunFull>
    requires slot { IsPastHost (P.state port.old) task.now.slot }
    ensures ok { IfOk result (λ done. Makes (looking task.now.slot) (P.state port.old) (P.state port.new) done) }
    ensures seen { IfOk result (λ done. done ≡ true → HasSeenDone task.now.slot (P.state port.new).log) }
    ensures full { IfErr result (λ full. (full ≡ Steps)
        × StopsFull (looking task.now.slot) (P.state port.old) (P.state port.new)) }
{
    let word = load(port, task.slot)?;
    Ok(is_done(word))
}

/// Takes the offer back, and says whether no worker was quicker.
pub fn withdraw<P: WordPort>(port: &mut P, task: &Task) -> Result<bool, RunFull>
    requires slot { IsPastHost (P.state port.old) task.now.slot }
    requires task { IsTask task.now }
    ensures ok { IfOk result (λ won. Makes (withdrawing task.now.slot (task_word task.now))
        (P.state port.old) (P.state port.new) won) }
    ensures full { IfErr result (λ full. (full ≡ Steps)
        × StopsFull (withdrawing task.now.slot (task_word task.now)) (P.state port.old) (P.state port.new)) }
{
    let offered = task.word(Tag::Offered, 0);
    let found = cas(port, task.slot, offered, 0)?;
    Ok(found == offered)
}

/// Empties the slot of a call that was served, and gives its status.
pub fn collect<P: WordPort>(port: &mut P, task: Task) -> Result<Status, RunFull>
    requires slot { IsPastHost (P.state port.old) task.slot }
    requires seen { HasSeenDone task.slot (P.state port.old).log }
    ensures ok { IfOk result (λ status. Makes (collecting task.slot) (P.state port.old) (P.state port.new) status.0) }
    ensures full { IfErr result (λ full. (full ≡ Steps)
        × StopsFull (collecting task.slot) (P.state port.old) (P.state port.new)) }
{
    let word = swap(port, task.slot, 0)?;
    Ok(status_of(word))
}

/// Looks up to so many times, and says whether the call was served.
fn look_often<P: WordPort>(port: &mut P, task: &Task, retries: u32) -> Result<bool, RunFull>
    requires slot { IsPastHost (P.state port.old) task.now.slot }
    ensures ok { IfOk result (λ done. Makes (looks task.now.slot retries) (P.state port.old) (P.state port.new) done) }
    ensures seen { IfOk result (λ done. done ≡ true → HasSeenDone task.now.slot (P.state port.new).log) }
    ensures full { IfErr result (λ full. (full ≡ Steps)
        × StopsFull (looks task.now.slot retries) (P.state port.old) (P.state port.new)) }
    ensures slot { IfOk result (λ _. IsPastHost (P.state port.new) task.now.slot) }
{
    for _ in 0..retries {
        if look(port, task)? {
            return Ok(true);
        }
    }
    Ok(false)
}

/// Glances at a slot until it seems done, so many times at most.
fn glance_until_done<P: WordPort>(port: &P, slot: u32) {
    for _ in 0..GLANCES {
        if is_done(port.glance(slot)) {
            return;
        }
    }
}

/// Waits until the call was served, and takes 1 from `waits` for each look.
fn wait_until_done<P: WordPort>(port: &mut P, task: &Task, waits: &mut u32) -> Result<(), RunFull>
    requires slot { IsPastHost (P.state port.old) task.now.slot }
    ensures outcome { (most : ℕ) → waits.old < most
        → IsOutcomeOf (λ _. tt) (waiting_looks task.now.slot most)
        (P.state port.old) waits.old (P.state port.new) waits.new result }
    ensures seen { OnOk result (HasSeenDone task.now.slot (P.state port.new).log) }
    ensures slot { OnOk result (IsPastHost (P.state port.new) task.now.slot) }
{
    while *waits > 0 {
        glance_until_done(port, task.slot);
        let done = look(port, task)?;
        *waits -= 1;
        if done {
            return Ok(());
        }
    }
    Err(RunFull::Waited)
}

/// Takes the answer of a call that was served.
fn take_answer<P: WordPort>(port: &mut P, task: &Task, waits: u32) -> Result<Sent, RunFull>
    requires slot { IsPastHost (P.state port.old) task.now.slot }
    requires seen { HasSeenDone task.now.slot (P.state port.old).log }
    ensures { IsOutcomeOf sent_as (collected_status task.now.slot)
        (P.state port.old) waits (P.state port.new) waits result }
{
    let status = collect(port, *task)?;
    Ok(Sent::Answered(status))
}

/// What follows where no look saw the call served: falls back, or waits for the worker that was quicker.
fn withdraw_or_wait<P: WordPort>(
    port: &mut P,
    task: &Task,
    waits: &mut u32,
) -> Result<Sent, RunFull>
    requires slot { IsPastHost (P.state port.old) task.now.slot }
    requires task { IsTask task.now }
    ensures { (most : ℕ) → waits.old < most →
        IsOutcomeOf sent_as (after_looks most task.now.slot (task_word task.now) false)
        (P.state port.old) waits.old (P.state port.new) waits.new result }
{
    if withdraw(port, task)? {
        return Ok(Sent::Fallback);
    }
    wait_until_done(port, task, waits)?;
    take_answer(port, task, *waits)
}

/// What follows once the call is offered.
fn await_answer<P: WordPort>(
    port: &mut P,
    task: &Task,
    retries: u32,
    waits: &mut u32,
) -> Result<Sent, RunFull>
    requires slot { IsPastHost (P.state port.old) task.now.slot }
    requires task { IsTask task.now }
    ensures { (most : ℕ) → waits.old < most →
        IsOutcomeOf sent_as
        (and_then (looks task.now.slot retries) (after_looks most task.now.slot (task_word task.now)))
        (P.state port.old) waits.old (P.state port.new) waits.new result }
{
    if look_often(port, task, retries)? {
        return take_answer(port, task, *waits);
    }
    withdraw_or_wait(port, task, waits)
}

/// Calls by a slot of the pool: the status that a worker gave, or a fallback where no slot is free, or no worker took
/// the call before it was withdrawn.
///
/// Each waiting look takes 1 from `waits`. Where one is needed and none is left the error is `Waited`, also where the
/// log is full.
pub fn call_switchless<P: WordPort>(
    port: &mut P,
    pool: &Pool,
    ordinal: u32,
    frame: u64,
    waits: &mut u32,
) -> Result<Sent, RunFull>
    requires slots { HasSlots (P.state port.old) pool.now }
    requires ordinal { ordinal < 2 ^ 16 }
    requires frame { IsFrameUpTo last_offered_frame frame }
    ensures { IsOutcomeOf sent_as (caller pool.now (offered_word ordinal frame))
        (P.state port.old) waits.old (P.state port.new) waits.new result }
{
    let _waits = *waits;
    let retries = pool.retries;
    let Some(task) = offer(port, pool, ordinal, frame)? else {
        return Ok(Sent::Fallback);
    };
    await_answer(port, &task, retries, waits)
}
