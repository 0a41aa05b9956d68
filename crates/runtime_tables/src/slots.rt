//! Calls by slots: the words of slots, offers, answers, fallbacks and limits.

ghost use Rattle.std.specs.Prelude.{◌<◌, ◌^◌, IsTrue};
ghost use Rattle.switchless.specs.Slots.{IsFrameUpTo, last_offered_frame};
ghost use Rattle.switchless.specs.Tasks.{IsPastHost, HasSlots, IsTask};

use crate::scripted_port::ScriptedPort;
use sgx_base::Status;
use std::alloc::{AllocError, Global};
use std::test::Fail;
use switchless::{
    Pool, Sent, Task, accept, call_switchless, collect, finish, look, offer, scan, withdraw,
};
use word_port::{Kind, PlainWords, RunFull, Side, Step, WordPort};

const FULL: RunFull = RunFull::Steps;

/// The first slot's word, behind 4 host bytes.
const FIRST: u32 = 4;

/// The pool of the first slot alone, in which nobody waits.
const ONE: Pool = Pool {
    from: FIRST,
    slots: 1,
    retries: 0,
};

/// The same pool, in which a caller looks three times more.
const THRICE: Pool = Pool {
    from: FIRST,
    slots: 1,
    retries: 3,
};

/// The pool of all eight slots.
const ALL: Pool = Pool {
    from: FIRST,
    slots: 8,
    retries: 0,
};

/// A call in the first slot, and the word of its offer.
const TASK: Task = Task {
    slot: FIRST,
    ordinal: 0,
    frame: 0x11fe0,
};

const OFFERED: u64 = 2_139_357_185;

/// Something that is done on a pool, with its answer.
#[derive(Clone, Copy)]
enum Act {
    Offer(u32, u64, Result<Option<Task>, RunFull>),
    Scan(Result<Option<Task>, RunFull>),
    Accept(Task, Result<bool, RunFull>),
    Finish(Task, u32, Result<(), RunFull>),
    Look(Task, Result<bool, RunFull>),
    /// A look that sees an answer, and the collection of that.
    Collect(Task, Result<Status, RunFull>),
    Withdraw(Task, Result<bool, RunFull>),
    /// A call with so many waits, and how many of these are left.
    Send(u32, Result<Sent, RunFull>, u32),
    /// Another's swap of the first slot's word, and what stood there.
    Swap(u64, u64),
    /// What stands in the first slot.
    Word(u64),
}

/// Words of slots and a log that takes so many steps, a pool, what is done on it, and how many steps are made.
type Row<'a> = ([u64; 8], u32, Pool, &'a [Act], usize);

/// An ordinal, a frame, and the word of their offer.
const WORDS: [(u32, u64, u64); 7] = [
    (0, 0, 1),
    (0, 0x10000, 0x40001),
    (0, 0x11fe0, 2_139_357_185),
    (0, 0x20000, 0x4_0004_0001),
    (1, 0, 5),
    (65_535, 0, 0x3_fffd),
    (65_535, 0x20000, 0x4_0007_fffd),
];

/// A status, and the word of its answer.
const STATUSES: [(u32, u64); 3] = [
    (0, 2_139_357_187),
    (1, 36_499_095_555),
    (0xffff, 2_251_767_593_304_067),
];

/// Words of slots, of which the first has this word.
const TAKEN: [u64; 8] = [2_139_357_186, 0, 0, 0, 0, 0, 0, 0];

const DONE: [u64; 8] = [2_139_357_187, 0, 0, 0, 0, 0, 0, 0];

const WITH_STATUS: [u64; 8] = [36_499_095_553, 0, 0, 0, 0, 0, 0, 0];

const OFFERED_ONCE: [u64; 8] = [OFFERED, 0, 0, 0, 0, 0, 0, 0];

const BUSY: [u64; 8] = [1, 5, 9, 0, 0, 1, 1, 1];

/// What a worker meets that finds no offer, and then the end of the log.
const NO_OFFER: &[Act] = &[Act::Scan(Ok(None)), Act::Scan(Err(FULL))];

/// What a caller meets that finds no free slot, or the end of the log.
const NO_SLOT: &[Act] = &[Act::Offer(7, 0, Ok(None))];

const NO_STEP: &[Act] = &[Act::Offer(7, 0, Err(FULL))];

/// A call that falls back, and one that comes to the end of the log.
const FALLS_BACK: &[Act] = &[Act::Send(2, Ok(Sent::Fallback), 2)];

const SENT_IN_VAIN: &[Act] = &[Act::Send(2, Err(FULL), 2)];

const NOTHING: &[Act] = &[
    Act::Offer(0, 0, Ok(None)),
    Act::Send(2, Ok(Sent::Fallback), 2),
];

/// An offer in the slot of this number.
const AT_FOUR: Result<Option<Task>, RunFull> = Ok(Some(Task {
    slot: 4,
    ordinal: 7,
    frame: 0,
}));

const AT_SEVEN: Result<Option<Task>, RunFull> = Ok(Some(Task {
    slot: 7,
    ordinal: 7,
    frame: 0,
}));

const AT_ELEVEN: Result<Option<Task>, RunFull> = Ok(Some(Task {
    slot: 11,
    ordinal: 7,
    frame: 0,
}));

const ROWS: [Row; 20] = [
    (
        OFFERED_ONCE,
        3,
        ONE,
        &[
            Act::Scan(Ok(Some(TASK))),
            Act::Swap(0, OFFERED),
            Act::Accept(TASK, Ok(false)),
            Act::Word(0),
        ],
        3,
    ),
    ([0; 8], 1, ONE, NO_OFFER, 1),
    (TAKEN, 1, ONE, NO_OFFER, 1),
    (DONE, 1, ONE, NO_OFFER, 1),
    (WITH_STATUS, 1, ONE, NO_OFFER, 1),
    (
        DONE,
        1,
        ONE,
        &[
            Act::Collect(TASK, Err(FULL)),
            Act::Look(TASK, Err(FULL)),
            Act::Offer(0, 0x11fe0, Err(FULL)),
            Act::Scan(Err(FULL)),
            Act::Accept(TASK, Err(FULL)),
            Act::Word(2_139_357_187),
        ],
        1,
    ),
    ([0; 8], 20, ALL, &[Act::Offer(7, 0, AT_FOUR)], 1),
    (BUSY, 20, ALL, &[Act::Offer(7, 0, AT_SEVEN)], 4),
    (BUSY, 3, ALL, NO_STEP, 3),
    (
        [1, 2, 3, 1, 2, 3, 1, 0],
        20,
        ALL,
        &[Act::Offer(7, 0, AT_ELEVEN)],
        8,
    ),
    ([1, 2, 3, 1, 2, 3, 1, 2], 20, ALL, NO_SLOT, 8),
    ([0; 8], 0, ALL, NO_STEP, 0),
    (
        [0; 8],
        0,
        Pool {
            from: 0,
            slots: 0,
            retries: 3,
        },
        NOTHING,
        0,
    ),
    (
        [0; 8],
        0,
        Pool {
            from: FIRST,
            slots: 0,
            retries: 3,
        },
        NOTHING,
        0,
    ),
    (
        [0; 8],
        0,
        Pool {
            from: u32::MAX,
            slots: 0,
            retries: 3,
        },
        NOTHING,
        0,
    ),
    ([0; 8], 10, ONE, FALLS_BACK, 2),
    ([0; 8], 10, THRICE, FALLS_BACK, 5),
    ([1, 0, 0, 0, 0, 0, 0, 0], 10, ONE, FALLS_BACK, 1),
    ([0; 8], 4, THRICE, SENT_IN_VAIN, 4),
    ([0; 8], 0, ONE, SENT_IN_VAIN, 0),
];

/// How a call ends that is answered, and one that has waited too long.
const ANSWERED: Result<Sent, RunFull> = Ok(Sent::Answered(Status(0)));

const WAITED: Result<Sent, RunFull> = Err(RunFull::Waited);

/// A limit, the step from which on the slot has its answer, the waits, how a call ends, the steps that are made, and
/// the waits that are left.
const WAITING: [(u32, u32, u32, Result<Sent, RunFull>, usize, u32); 7] = [
    (100, 100, 2, WAITED, 4, 0),
    (100, 4, 3, ANSWERED, 6, 0),
    (100, 2, 3, ANSWERED, 4, 2),
    (2, 100, 0, WAITED, 2, 0),
    (2, 100, 1, Err(FULL), 2, 1),
    (3, 100, 1, WAITED, 3, 0),
    (3, 2, 1, Err(FULL), 3, 0),
];

#[test]
fn slots_and_their_answers(rt: HostRuntime) -> Result<(), Fail> {
    for (ordinal, frame, word) in WORDS {
        let task = Task {
            slot: FIRST,
            ordinal,
            frame,
        };
        let acts = [
            Act::Offer(ordinal, frame, Ok(Some(task))),
            Act::Word(word),
            Act::Scan(Ok(Some(task))),
        ];
        assert!(rt; is_done(rt.alloc(), ([0; 8], 2, ONE, &acts, 2))?);
    }
    for (status, word) in STATUSES {
        let acts = [
            Act::Scan(Ok(Some(TASK))),
            Act::Accept(TASK, Ok(true)),
            Act::Finish(TASK, status, Ok(())),
            Act::Word(word),
            Act::Accept(TASK, Ok(false)),
            Act::Finish(TASK, status, Err(FULL)),
        ];
        assert!(rt; is_done(rt.alloc(), (OFFERED_ONCE, 4, ONE, &acts, 4))?);
    }
    for row in ROWS {
        assert!(rt; is_done(rt.alloc(), row)?);
    }
    Ok(())
}

#[test]
fn waits_and_steps(rt: HostRuntime) -> Result<(), Fail> {
    let pool = Pool {
        from: 0,
        slots: 1,
        retries: 0,
    };
    for (limit, turn, waits, sent, steps, left) in WAITING {
        let mut port = ScriptedPort::new(rt.alloc(), limit, turn, 2, 3)?;
        assert!(rt; is_answered(&mut port, &pool, Act::Send(waits, sent, left)));
        assert!(rt; port.log().len() == steps);
    }
    let empty = Task {
        slot: FIRST,
        ordinal: 0,
        frame: 0,
    };
    let mut caller = port(rt.alloc(), [0; 8], 3)?;
    let acts = [
        Act::Offer(0, 0, Ok(Some(empty))),
        Act::Withdraw(empty, Ok(true)),
        Act::Withdraw(empty, Ok(false)),
        Act::Withdraw(empty, Err(FULL)),
    ];
    assert!(rt; are_answered(&mut caller, &ONE, &acts));
    let steps = [
        step(Kind::Cas, 0, 1, 0),
        step(Kind::Cas, 1, 0, 1),
        step(Kind::Cas, 1, 0, 0),
    ];
    assert!(rt; caller.log() == steps.as_slice());
    let mut worker = port(rt.alloc(), [OFFERED, 0, 0, 0, 0, 0, 0, 0], 3)?;
    let acts = [
        Act::Scan(Ok(Some(TASK))),
        Act::Accept(TASK, Ok(true)),
        Act::Finish(TASK, 0, Ok(())),
    ];
    assert!(rt; are_answered(&mut worker, &ONE, &acts));
    let steps = [
        step(Kind::Load, 0, 0, OFFERED),
        step(Kind::Cas, OFFERED, 2_139_357_186, OFFERED),
        step(Kind::Swap, 2_139_357_187, 0, 2_139_357_186),
    ];
    assert!(rt; worker.log() == steps.as_slice());
    Ok(())
}

/// A step on the first slot by side Pool.
const fn step(kind: Kind, first: u64, second: u64, answer: u64) -> Step {
    Step {
        side: Side::Pool,
        kind,
        index: FIRST,
        first,
        second,
        answer,
    }
}

/// Eight slots with these words, and a log that takes so many steps.
fn port(alloc: Global, words: [u64; 8], limit: u32) -> Result<PlainWords, AllocError> {
    let [a, b, c, d, e, f, g, h] = words;
    PlainWords::new(alloc, &[0, 0, 0, 0, a, b, c, d, e, f, g, h], 4, &[], limit)
}

/// Whether all that is done has its answers, in so many steps.
fn is_done(alloc: Global, row: Row) -> Result<bool, AllocError> {
    let (words, limit, pool, acts, steps) = row;
    let mut port = port(alloc, words, limit)?;
    Ok(are_answered(&mut port, &pool, acts) && port.log().len() == steps)
}

/// Does one thing after another on a pool: whether each has its answer.
fn are_answered<P: WordPort>(port: &mut P, pool: &Pool, acts: &[Act]) -> bool {
    for act in acts {
        if !is_answered(port, pool, *act) {
            return false;
        }
    }
    true
}

/// Does something on a pool: whether it has its answer.
fn is_answered<P: WordPort>(port: &mut P, pool: &Pool, act: Act) -> bool {
    match act {
        Act::Offer(ordinal, frame, offered) => {
            has_slots(port, pool)
                && may_offer(ordinal, frame)
                && offer(port, pool, ordinal, frame) == offered
        }
        Act::Scan(found) => {
            has_slots(port, pool) && pool.slots > 0 && scan(port, pool, 0) == found
        }
        Act::Accept(task, won) => {
            has_slot(port, &task) && is_task(&task) && accept(port, &task) == won
        }
        Act::Finish(task, status, finished) => {
            has_slot(port, &task)
                && is_task(&task)
                && status < 65_536
                && finish(port, task, Status(status)) == finished
        }
        Act::Look(task, done) => has_slot(port, &task) && look(port, &task) == done,
        Act::Collect(task, status) => is_collected(port, task, status),
        Act::Withdraw(task, won) => {
            has_slot(port, &task) && is_task(&task) && withdraw(port, &task) == won
        }
        Act::Send(waits, sent, left) => {
            let mut waits = waits;
            has_slots(port, pool)
                && call_switchless(port, pool, 0, 0, &mut waits) == sent
                && waits == left
        }
        Act::Swap(word, old) => {
            has_slot(port, &TASK) && port.spare() > 0 && port.swap(Side::Pool, FIRST, word) == old
        }
        Act::Word(word) => port.glance(FIRST) == word,
    }
}

/// Looks at a slot and collects its answer: whether that was seen, and its status is this.
fn is_collected<P: WordPort>(port: &mut P, task: Task, status: Result<Status, RunFull>) -> bool {
    if !has_slot(port, &task) {
        return false;
    }
    match look(port, &task) {
        Ok(true) => has_slot(port, &task) && collect(port, task) == status,
        _ => false,
    }
}

/// Whether the slots of a pool are words past the host bytes.
fn has_slots<P: WordPort>(port: &P, pool: &Pool) -> bool
    ensures { IsTrue result → HasSlots (P.state port.now) pool.now }
{
    let end = u64::from(pool.from) + u64::from(pool.slots);
    pool.slots == 0 || (port.host() <= pool.from && end <= u64::from(port.words()))
}

/// Whether the slot of a task is a word past the host bytes.
fn has_slot<P: WordPort>(port: &P, task: &Task) -> bool
    ensures { IsTrue result → IsPastHost (P.state port.now) task.now.slot }
{
    port.host() <= task.slot && task.slot < port.words()
}

/// Whether a word can hold a task.
fn is_task(task: &Task) -> bool
    ensures { IsTrue result → IsTask task.now }
{
    let is_frame = task.frame == 0 || (task.frame >= 0x10000 && task.frame <= 0x2fffe);
    task.ordinal < 65_536 && is_frame
}

/// Whether a caller may offer this.
fn may_offer(ordinal: u32, frame: u64) -> bool
    ensures ordinal { IsTrue result → ordinal < 2 ^ 16 }
    ensures frame { IsTrue result → IsFrameUpTo last_offered_frame frame }
{
    ordinal < 65_536 && (frame == 0 || (frame >= 0x10000 && frame <= 0x20000))
}
