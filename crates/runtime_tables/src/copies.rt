//! Copies in and back, at the borders of lengths, units and limits.

use call_copy::{CopyStop, Shape, copy_in, copy_out, put_range};
use enclave_memory::Arena;
use sgx_base::{HOST_START, Passing, Status, divisible, mapped};
use std::alloc::{AllocError, Global};
use std::test::Fail;
use word_port::{PlainWords, RunFull, Side, Step, WordPort};

const NO_ROOM: Result<&[u8], CopyStop> = Err(CopyStop::Refused(Status::OUT_OF_MEMORY));

const NOT_WHOLE: Result<&[u8], CopyStop> = Err(CopyStop::Refused(Status::INVALID_PARAMETER));

const EARLY_END: Result<&[u8], CopyStop> = Err(CopyStop::Refused(Status::UNEXPECTED));

const FULL: Result<&[u8], CopyStop> = Err(CopyStop::Full(RunFull::Steps));

/// A way, a unit, and whether it is a string's.
type Form = (Passing, u32, bool);

const BYTES_IN: Form = (Passing::Inward, 1, false);

const PAIRS_IN: Form = (Passing::Inward, 2, false);

const WORDS_IN: Form = (Passing::Inward, 4, false);

const BYTES_OUT: Form = (Passing::Outward, 1, false);

const WORDS_OUT: Form = (Passing::Outward, 4, false);

const BYTES_BOTH: Form = (Passing::Both, 1, false);

const WORDS_BOTH: Form = (Passing::Both, 4, false);

const TEXT_IN: Form = (Passing::Inward, 1, true);

const TEXT_BOTH: Form = (Passing::Both, 1, true);

const WIDE_BOTH: Form = (Passing::Both, 4, true);

/// The first bytes of host memory, the length and the steps to spare of their copy, what that gives, and how many steps
/// are left.
const COPIES: [(Form, &[u8], u64, u8, Result<&[u8], CopyStop>, u32); 32] = [
    (BYTES_IN, &[7; 40], 1, 40, Ok(&[7]), 39),
    (BYTES_IN, &[7; 40], 32, 40, Ok(&[7; 32]), 8),
    (BYTES_IN, &[7; 40], 33, 40, NO_ROOM, 40),
    (BYTES_BOTH, b"three", 5, 40, Ok(b"three"), 35),
    (WORDS_IN, &[1, 2, 3, 4, 5], 4, 40, Ok(&[1, 2, 3, 4]), 36),
    (WORDS_IN, &[7; 40], 6, 40, NOT_WHOLE, 40),
    (WORDS_IN, &[7; 40], 32, 40, Ok(&[7; 32]), 8),
    (WORDS_IN, &[7; 40], 36, 40, NO_ROOM, 40),
    (WORDS_IN, &[7; 40], 34, 40, NOT_WHOLE, 40),
    (BYTES_OUT, &[7; 40], 1, 40, Ok(&[0]), 40),
    (WORDS_OUT, &[7; 40], 32, 40, Ok(&[0; 32]), 40),
    (WORDS_OUT, &[7; 40], 36, 40, NO_ROOM, 40),
    (WORDS_OUT, &[7; 40], 7, 40, NOT_WHOLE, 40),
    (TEXT_BOTH, b"\0", 1, 40, Ok(b"\0"), 39),
    (TEXT_BOTH, b"x", 1, 40, Ok(b"\0"), 39),
    (TEXT_BOTH, b"hi\0", 3, 40, Ok(b"hi\0"), 37),
    (TEXT_BOTH, b"hi!", 3, 40, Ok(b"hi\0"), 37),
    (TEXT_BOTH, b"h\0\0", 3, 40, EARLY_END, 37),
    (TEXT_BOTH, b"\0i!", 3, 40, EARLY_END, 37),
    (TEXT_BOTH, &[7; 40], 33, 40, NO_ROOM, 40),
    (WIDE_BOTH, &[0, 0, 0, 0], 4, 40, Ok(&[0, 0, 0, 0]), 36),
    (WIDE_BOTH, &[9, 9, 9, 9], 4, 40, Ok(&[0, 0, 0, 0]), 36),
    (
        WIDE_BOTH,
        &[1, 0, 0, 0, 5, 6, 7, 8],
        8,
        40,
        Ok(&[1, 0, 0, 0, 0, 0, 0, 0]),
        32,
    ),
    (
        WIDE_BOTH,
        &[1, 0, 0, 0, 0, 0, 0, 2, 5, 6, 7, 8],
        12,
        40,
        Ok(&[1, 0, 0, 0, 0, 0, 0, 2, 0, 0, 0, 0]),
        28,
    ),
    (WIDE_BOTH, &[0, 0, 0, 0, 1, 0, 0, 0], 8, 40, EARLY_END, 32),
    (WIDE_BOTH, &[1, 0, 0, 0, 0, 0, 0, 0], 6, 40, NOT_WHOLE, 40),
    (WIDE_BOTH, &[7; 40], 36, 40, NO_ROOM, 40),
    (BYTES_IN, b"abc", 3, 2, FULL, 0),
    (BYTES_IN, b"abc", 3, 3, Ok(b"abc"), 0),
    (TEXT_IN, b"ab\0", 3, 2, FULL, 0),
    (BYTES_OUT, b"abc", 3, 0, Ok(&[0; 3]), 0),
    (PAIRS_IN, b"abc", 3, 0, NOT_WHOLE, 0),
];

#[test]
fn ranges_are_copied_in(rt: HostRuntime) -> Result<(), Fail> {
    for (form, memory, length, spare, gives, left) in COPIES {
        let found = is_copied(rt.alloc(), form, memory, length, spare, gives, left)?;
        assert!(rt; found, "{memory:?} {length}");
    }
    Ok(())
}

const STEPS: Option<RunFull> = Some(RunFull::Steps);

/// The bytes of a block, the steps to spare of putting it back, what is put, and the limit where it comes to that.
const PUTS: [(Form, &[u8], u8, &[u8], Option<RunFull>); 13] = [
    (BYTES_OUT, &[0], 40, &[0], None),
    (
        WORDS_BOTH,
        &[1, 0, 0, 0, 0, 0, 0, 0],
        40,
        &[1, 0, 0, 0, 0, 0, 0, 0],
        None,
    ),
    (BYTES_BOTH, b"abc", 3, b"abc", None),
    (BYTES_BOTH, b"abc", 2, b"ab", STEPS),
    (TEXT_BOTH, b"\0", 40, b"\0", None),
    (TEXT_BOTH, b"x", 40, b"\0", None),
    (TEXT_BOTH, b"hi\0", 40, b"hi\0", None),
    (TEXT_BOTH, b"h\0i\0", 40, b"h\0", None),
    (TEXT_BOTH, b"word", 40, b"wor\0", None),
    (TEXT_BOTH, b"word", 3, b"wor", STEPS),
    (TEXT_BOTH, b"h\0i\0", 1, b"h", STEPS),
    (
        WIDE_BOTH,
        &[1, 0, 0, 0, 0, 0, 0, 0, 3, 0, 0, 0],
        40,
        &[1, 0, 0, 0, 0, 0, 0, 0],
        None,
    ),
    (
        WIDE_BOTH,
        &[1, 0, 0, 0, 0, 0, 0, 2, 3, 0, 0, 0],
        40,
        &[1, 0, 0, 0, 0, 0, 0, 2, 0, 0, 0, 0],
        None,
    ),
];

#[test]
fn blocks_are_put_back(rt: HostRuntime) -> Result<(), Fail> {
    for (form, bytes, spare, put, full) in PUTS {
        let found = is_put_back(rt.alloc(), form, bytes, spare, put, full)?;
        assert!(rt; found, "{bytes:?} {spare}");
    }
    Ok(())
}

fn shape(form: Form) -> Shape {
    let (way, unit, text) = form;
    Shape { way, unit, text }
}

/// Host memory of 64 bytes, whose first are these, and a log that takes so many steps more.
fn host_memory(alloc: Global, bytes: &[u8], steps: u8) -> Result<Option<PlainWords>, AllocError> {
    if bytes.len() > 64 {
        return Ok(None);
    }
    let limit = bytes.len() as u32 + u32::from(steps);
    let mut port = PlainWords::new(alloc, &[0; 64], 64, &[], limit)?;
    if !mapped(port.host(), HOST_START, bytes.len() as u64) {
        return Ok(None);
    }
    match put_range(&mut port, Side::Host, HOST_START, bytes) {
        Ok(()) => Ok(Some(port)),
        Err(_) => Ok(None),
    }
}

/// An arena of 32 bytes, in which other bytes stood before.
fn used_arena(alloc: Global) -> Result<Arena, AllocError> {
    let mut arena = Arena::new(alloc, 32)?;
    let start = arena.mark();
    if let Some(block) = arena.push_block(32) {
        arena.write(block, 0, &[0xee; 32]);
    }
    arena.pop_to(start);
    Ok(arena)
}

/// Whether a copy in gives this, leaves so many steps, and takes no room where it is refused.
fn is_copied(
    alloc: Global,
    form: Form,
    memory: &[u8],
    length: u64,
    spare: u8,
    gives: Result<&[u8], CopyStop>,
    left: u32,
) -> Result<bool, AllocError> {
    let Some(mut port) = host_memory(alloc, memory, spare)? else {
        return Ok(false);
    };
    let mut arena = used_arena(alloc)?;
    if length == 0 || !mapped(port.host(), HOST_START, length) {
        return Ok(false);
    }
    let found = match copy_in(&mut port, HOST_START, length, shape(form), &mut arena) {
        Ok(block) => u64::from(block.length) == length && Ok(arena.bytes(block)) == gives,
        Err(stop) => {
            let is_full = stop == CopyStop::Full(RunFull::Steps);
            Err(stop) == gives && (is_full || arena.room() == 32)
        }
    };
    Ok(found && port.spare() == left)
}

/// Whether a block that is put back with so many steps to spare puts these bytes, up to this limit.
fn is_put_back(
    alloc: Global,
    form: Form,
    bytes: &[u8],
    spare: u8,
    put: &[u8],
    full: Option<RunFull>,
) -> Result<bool, AllocError> {
    if bytes.is_empty() || bytes.len() > 32 || spare > 40 {
        return Ok(false);
    }
    let Some(mut port) = host_memory(alloc, bytes, bytes.len() as u8 + spare)? else {
        return Ok(false);
    };
    let mut arena = used_arena(alloc)?;
    let length = bytes.len() as u64;
    if !mapped(port.host(), HOST_START, length) {
        return Ok(false);
    }
    let Ok(block) = copy_in(&mut port, HOST_START, length, shape(BYTES_BOTH), &mut arena) else {
        return Ok(false);
    };
    let shape = shape(form);
    if block.length == 0
        || !mapped(port.host(), HOST_START, u64::from(block.length))
        || !divisible(u64::from(block.length), u64::from(shape.unit))
    {
        return Ok(false);
    }
    let stop = copy_out(&mut port, HOST_START, shape, &arena, block).err();
    Ok(stop == full && is_put(port.log(), 2 * bytes.len(), put))
}

/// Whether the steps from a place in the log on put these bytes.
fn is_put(log: &[Step], at: usize, put: &[u8]) -> bool {
    let Some(steps) = log.get(at..) else {
        return false;
    };
    steps.len() == put.len()
        && steps
            .iter()
            .zip(put)
            .all(|(step, byte)| step.first == u64::from(*byte))
}
