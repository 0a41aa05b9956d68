//! Frames of OCALLs, and what comes back from the host.

ghost use Rattle.std.specs.Prelude.{ℕ, List, ◌≡◌, ◌≤◌, false, All, IsTrue, IfSome, length};
ghost use Rattle.edl_interface.specs.Runnable.{field_end, IsPassed as IsPassedClass, IsRunnableFunction};
ghost use Rattle.enclave_memory.specs.Arguments.{ArePassed, IsPassed, Passed};
ghost use Rattle.enclave_memory.specs.Memory.{IsLive, IsPush, Memory};
ghost use Rattle.ocall_frames.specs.Arguments.{AreOfKinds, has_place};

use call_copy::put_range;
use edl_interface::{Amount, Class, Function, Param, Plain};
use enclave_memory::{Arena, Arg, Args, Block};
use ocall_frames::{HostStack, check_args, drop_frame, read_reply, take_frame, write_frame};
use sgx_base::{HOST_START, Name, Passing, Status, mapped};
use sqlite_items::Items;
use std::alloc::{AllocError, Global};
use std::test::Fail;
use word_port::{Kind, PlainWords, Side, Step, WordPort};

/// An argument: a number, null, or one of two blocks.
#[derive(Clone, Copy)]
enum Given {
    Number(u64),
    Null,
    First,
    Second,
}

/// What comes of the arguments: the bytes of the structure and those of the buffers behind it, or no frame.
#[derive(Clone, Copy)]
enum Shown<'a> {
    Frame(&'a [u8], &'a [u8]),
    NoRoom,
    Refused,
}

/// An OCALL over two blocks and a host stack of 256 bytes, in which other bytes stood before.
///
/// A parameter is the offset of its field and its class. The host puts its bytes at places of the frame, whose address
/// is the top less the size, aligned down to 16.
#[derive(Clone, Copy)]
struct Row<'a> {
    name: &'a str,
    ret: Option<Plain>,
    params: &'a [(u32, Class)],
    size: u32,
    given: &'a [Given],
    blocks: [&'a [u8]; 2],
    shown: Shown<'a>,
    puts: &'a [(u64, &'a [u8])],
    value: u64,
    after: [&'a [u8]; 2],
}

const BYTE: Plain = Plain {
    size: 1,
    integer: true,
    signed: false,
};

const WORD: Plain = Plain {
    size: 4,
    integer: true,
    signed: false,
};

const LONG: Plain = Plain {
    size: 8,
    integer: true,
    signed: false,
};

/// A structure of 12 bytes.
const OPAQUE: Plain = Plain {
    size: 12,
    integer: false,
    signed: false,
};

const FOUR_OUT: Class = Class::Buffer {
    way: Passing::Outward,
    size: Amount::Number(4),
    count: Amount::Number(1),
    unit: 1,
};

const THREE_IN: Class = Class::Buffer {
    way: Passing::Inward,
    size: Amount::Number(3),
    count: Amount::Number(1),
    unit: 1,
};

const TWO_BOTH: Class = Class::Buffer {
    way: Passing::Both,
    size: Amount::Number(1),
    count: Amount::Number(2),
    unit: 1,
};

/// As many bytes out as the fifth parameter says.
const COUNTED_OUT: Class = Class::Buffer {
    way: Passing::Outward,
    size: Amount::Param(4),
    count: Amount::Number(1),
    unit: 1,
};

/// As many bytes in as the second parameter says.
const COUNTED_IN: Class = Class::Buffer {
    way: Passing::Inward,
    size: Amount::Param(1),
    count: Amount::Number(1),
    unit: 1,
};

const TEXT_IN: Class = Class::Text {
    way: Passing::Inward,
    unit: 1,
};

const WIDE_BOTH: Class = Class::Text {
    way: Passing::Both,
    unit: 4,
};

const FRAMES: [Row; 12] = [
    Row {
        name: "a host that changes the pointer in the frame",
        ret: None,
        params: &[(0, FOUR_OUT)],
        size: 8,
        given: &[Given::First],
        blocks: [&[9; 4], &[9]],
        shown: Shown::Frame(&[0xf8, 0, 1, 0, 0, 0, 0, 0], &[0; 4]),
        puts: &[(0, &[0, 0, 1, 0, 0, 0, 0, 0]), (8, &[1, 2, 3, 4])],
        value: 0,
        after: [&[1, 2, 3, 4], &[9]],
    },
    Row {
        name: "a null and an empty buffer between others",
        ret: None,
        params: &[
            (0, THREE_IN),
            (8, FOUR_OUT),
            (16, COUNTED_OUT),
            (24, TWO_BOTH),
            (32, Class::Plain(WORD)),
        ],
        size: 40,
        given: &[
            Given::First,
            Given::Null,
            Given::Second,
            Given::Second,
            Given::Number(0),
        ],
        blocks: [&[1, 2, 3], &[4, 5]],
        shown: Shown::Frame(
            &[
                0xf8, 0, 1, 0, 0, 0, 0, 0, 0, 0, 0, 0, 0, 0, 0, 0, 0, 0, 0, 0, 0, 0, 0, 0, 0xfb, 0,
                1, 0, 0, 0, 0, 0, 0, 0, 0, 0, 0, 0, 0, 0,
            ],
            &[1, 2, 3, 4, 5],
        ),
        puts: &[(40, &[9, 9, 9, 6, 7])],
        value: 0,
        after: [&[1, 2, 3], &[6, 7]],
    },
    Row {
        name: "two buffers out over one block",
        ret: None,
        params: &[(0, FOUR_OUT), (8, TWO_BOTH)],
        size: 16,
        given: &[Given::First, Given::First],
        blocks: [&[8, 8, 8, 8, 8], &[9]],
        shown: Shown::Frame(
            &[0xf0, 0, 1, 0, 0, 0, 0, 0, 0xf4, 0, 1, 0, 0, 0, 0, 0],
            &[0, 0, 0, 0, 8, 8],
        ),
        puts: &[(16, &[1, 2, 3, 4, 5, 6])],
        value: 0,
        after: [&[5, 6, 3, 4, 8], &[9]],
    },
    Row {
        name: "a string without an end",
        ret: None,
        params: &[(0, TEXT_IN)],
        size: 8,
        given: &[Given::First],
        blocks: [b"word", &[9]],
        shown: Shown::Refused,
        puts: &[],
        value: 0,
        after: [b"word", &[9]],
    },
    Row {
        name: "a length above its block",
        ret: None,
        params: &[(0, FOUR_OUT)],
        size: 8,
        given: &[Given::First],
        blocks: [&[1, 2, 3], &[9]],
        shown: Shown::Refused,
        puts: &[],
        value: 0,
        after: [&[1, 2, 3], &[9]],
    },
    Row {
        name: "a length of 300 in one byte",
        ret: None,
        params: &[(0, COUNTED_IN), (8, Class::Plain(BYTE))],
        size: 16,
        given: &[Given::First, Given::Number(300)],
        blocks: [&[7; 44], &[9]],
        shown: Shown::Frame(
            &[0xd0, 0, 1, 0, 0, 0, 0, 0, 44, 0, 0, 0, 0, 0, 0, 0],
            &[7; 44],
        ),
        puts: &[(16, &[1; 44])],
        value: 0,
        after: [&[7; 44], &[9]],
    },
    Row {
        name: "a frame of the whole stack",
        ret: None,
        params: &[(
            0,
            Class::Fixed {
                way: Passing::Inward,
                length: 248,
                unit: 8,
            },
        )],
        size: 8,
        given: &[Given::First],
        blocks: [&[5; 248], &[9]],
        shown: Shown::Frame(&[8, 0, 1, 0, 0, 0, 0, 0], &[5; 248]),
        puts: &[],
        value: 0,
        after: [&[5; 248], &[9]],
    },
    Row {
        name: "a frame of 16 bytes more",
        ret: None,
        params: &[(
            0,
            Class::Fixed {
                way: Passing::Inward,
                length: 264,
                unit: 8,
            },
        )],
        size: 8,
        given: &[Given::First],
        blocks: [&[5; 264], &[9]],
        shown: Shown::NoRoom,
        puts: &[],
        value: 0,
        after: [&[5; 264], &[9]],
    },
    Row {
        name: "a return, and padding between the fields",
        ret: Some(BYTE),
        params: &[
            (4, Class::Plain(WORD)),
            (8, Class::Plain(BYTE)),
            (16, Class::Plain(LONG)),
        ],
        size: 24,
        given: &[
            Given::Number(0x0102_0304),
            Given::Number(0x1ff),
            Given::Number(0x0807_0605_0403_0201),
        ],
        blocks: [&[8], &[9]],
        shown: Shown::Frame(
            &[
                0, 0, 0, 0, 4, 3, 2, 1, 0xff, 0, 0, 0, 0, 0, 0, 0, 1, 2, 3, 4, 5, 6, 7, 8,
            ],
            &[],
        ),
        puts: &[(0, &[42, 43])],
        value: 42,
        after: [&[8], &[9]],
    },
    Row {
        name: "a wide string up to its end",
        ret: None,
        params: &[(0, WIDE_BOTH)],
        size: 8,
        given: &[Given::First],
        blocks: [&[1, 0, 0, 0, 0, 0, 0, 0, 8, 8, 8, 8], &[9]],
        shown: Shown::Frame(&[0xf8, 0, 1, 0, 0, 0, 0, 0], &[1, 0, 0, 0, 0, 0, 0, 0]),
        puts: &[(8, &[2; 8])],
        value: 0,
        after: [&[2, 2, 2, 2, 0, 0, 0, 0, 8, 8, 8, 8], &[9]],
    },
    Row {
        name: "an opaque value of more bytes than a number has",
        ret: None,
        params: &[(0, Class::Plain(OPAQUE)), (12, Class::Plain(WORD))],
        size: 16,
        given: &[Given::Number(0x0807_0605_0403_0201), Given::Number(5)],
        blocks: [&[8], &[9]],
        shown: Shown::Frame(&[1, 2, 3, 4, 5, 6, 7, 8, 0, 0, 0, 0, 5, 0, 0, 0], &[]),
        puts: &[],
        value: 0,
        after: [&[8], &[9]],
    },
    Row {
        name: "no frame",
        ret: None,
        params: &[],
        size: 0,
        given: &[],
        blocks: [&[8], &[9]],
        shown: Shown::Frame(&[], &[]),
        puts: &[],
        value: 0,
        after: [&[8], &[9]],
    },
];

#[test]
fn frames_show_what_the_host_may_see(rt: HostRuntime) -> Result<(), Fail> {
    for row in &FRAMES {
        assert!(rt; is_called(rt.alloc(), row)?, "{}", row.name);
    }
    Ok(())
}

/// Whether an OCALL shows the frame of its row, or is refused as that says, and leaves its return and its blocks.
fn is_called(alloc: Global, row: &Row) -> Result<bool, AllocError> {
    let mut arena = Arena::new(alloc, 1024)?;
    let Some(first) = push_bytes(&mut arena, row.blocks[0]) else {
        return Ok(false);
    };
    let Some(second) = push_bytes(&mut arena, row.blocks[1]) else {
        return Ok(false);
    };
    let function = function(alloc, row)?;
    if row.given.len() > 64 {
        return Ok(false);
    }
    let args = args_of(row.given, first, second);
    if !is_runnable(&function) || !are_of_kinds(function.params.as_slice(), args.as_slice()) {
        return Ok(false);
    }
    let size = match check_args(&function, &args, &arena) {
        Ok(size) => size,
        Err(status) => return Ok(status == Status::INVALID_PARAMETER && is_refused(row.shown)),
    };
    let whole = HostStack {
        base: HOST_START,
        top: HOST_START + 256,
    };
    let mut stack = whole;
    let Some(frame) = take_frame(&mut stack, size) else {
        return Ok(has_no_room(row.shown));
    };
    let mut port = PlainWords::new(alloc, &[0xee; 256], 256, &[], 2000)?;
    if !mapped(port.host(), frame.at, u64::from(size)) {
        return Ok(false);
    }
    if write_frame(&mut port, &function, &args, &arena, frame).is_err() {
        return Ok(false);
    }
    let is_shown = is_frame(port.log(), frame.at, row.shown);
    if !puts(&mut port, frame.at, row.puts) || !mapped(port.host(), frame.at, u64::from(size)) {
        return Ok(false);
    }
    let Ok(value) = read_reply(&mut port, &function, &args, &mut arena, frame) else {
        return Ok(false);
    };
    drop_frame(&mut stack, frame);
    Ok(
        is_shown
            && value == row.value
            && stack == whole
            && arena.bytes(first) == row.after[0]
            && arena.bytes(second) == row.after[1],
    )
}

/// Pushes a block with these bytes, where there are any and there is room.
fn push_bytes(arena: &mut Arena, bytes: &[u8]) -> Option<Block>
    ensures { IfSome result (λ block. IsPush arena.old arena.new block bytes.now) }
{
    if bytes.is_empty() || bytes.len() > 1024 {
        return None;
    }
    let block = arena.push_block(bytes.len() as u32)?;
    arena.write(block, 0, bytes);
    Some(block)
}

/// The function of a row.
fn function(alloc: Global, row: &Row) -> Result<Function, AllocError> {
    let mut params = Items::new(alloc);
    for (offset, class) in row.params {
        params.push(Param {
            name: Name::new(alloc, b"p")?,
            offset: *offset,
            class: *class,
        })?;
    }
    Ok(Function {
        name: Name::new(alloc, b"o")?,
        is_public: false,
        switchless: false,
        ret: row.ret,
        params,
        allow: Items::new(alloc),
        frame_size: row.size,
    })
}

/// The arguments over these blocks.
fn args_of(given: &[Given], first: Block, second: Block) -> Args
    requires { length given.now ≤ 64 }
    ensures { (arena : Memory) → IsLive arena first → IsLive arena second
        → (passed : List Passed) × ArePassed arena result.items passed }
{
    let mut args = Args::new();
    for argument in given {
        args.push(arg_of(*argument, first, second));
    }
    args
}

fn arg_of(given: Given, first: Block, second: Block) -> Arg
    ensures { (arena : Memory) → IsLive arena first → IsLive arena second
        → (passed : Passed) × IsPassed arena result passed }
{
    match given {
        Given::Number(number) => Arg::Value(number),
        Given::Null => Arg::Bytes(None),
        Given::First => Arg::Bytes(Some(first)),
        Given::Second => Arg::Bytes(Some(second)),
    }
}

/// Whether a run passes the function, in a structure of at most 1024 bytes.
fn is_runnable(function: &Function) -> bool
    ensures runs { IsTrue result → IsRunnableFunction false function.now }
    ensures small { IsTrue result → function.now.frame_size ≤ 1024 }
{
    function.return_size() <= 8
        && function.return_size() <= function.frame_size
        && function.frame_size <= 1024
        && (function.has_frame() || function.frame_size == 0)
        && are_passed(function.params.as_slice())
        && are_within(function.params.as_slice(), function.frame_size)
}

fn are_passed(params: &[Param]) -> bool
    ensures { IsTrue result → All (λ p. IsPassedClass p.class) params.now }
{
    match params {
        [] => true,
        [param, rest @ ..] => is_passed(param.class) && are_passed(rest),
    }
}

fn is_passed(class: Class) -> bool
    ensures { IsTrue result → IsPassedClass class }
{
    match class {
        Class::Foreign { .. } => false,
        Class::Text { unit, .. } => unit == 1 || unit == 4,
        _ => true,
    }
}

fn are_within(params: &[Param], size: u32) -> bool
    ensures { IsTrue result → All (λ p. field_end false p ≤ size) params.now }
{
    match params {
        [] => true,
        [param, rest @ ..] => {
            param.offset <= size
                && param.class.field_size() <= size - param.offset
                && are_within(rest, size)
        }
    }
}

/// Whether there is a number or a block for each parameter, as its class says.
fn are_of_kinds(params: &[Param], args: &[Arg]) -> bool
    ensures { IsTrue result → AreOfKinds params.now args.now }
{
    match (params, args) {
        ([], []) => true,
        ([param, params @ ..], [arg, args @ ..]) => {
            is_bytes(*arg) == param.class.is_marshalled() && are_of_kinds(params, args)
        }
        _ => false,
    }
}

fn is_bytes(arg: Arg) -> bool
    ensures { result ≡ has_place arg }
{
    match arg {
        Arg::Value(_) => false,
        Arg::Bytes(_) => true,
    }
}

fn is_refused(shown: Shown) -> bool {
    match shown {
        Shown::Refused => true,
        _ => false,
    }
}

fn has_no_room(shown: Shown) -> bool {
    match shown {
        Shown::NoRoom => true,
        _ => false,
    }
}

/// Whether these steps put the frame in rising address.
fn is_frame(steps: &[Step], at: u64, shown: Shown) -> bool {
    match shown {
        Shown::Frame(structure, buffers) if steps.len() == structure.len() + buffers.len() => {
            let bytes = structure.iter().chain(buffers);
            steps
                .iter()
                .zip(bytes)
                .enumerate()
                .all(|(place, (step, byte))| is_store(*step, at, place, *byte))
        }
        _ => false,
    }
}

/// Whether a step of the enclave puts the byte so many bytes behind the address.
fn is_store(step: Step, at: u64, place: usize, byte: u8) -> bool {
    let address = HOST_START + u64::from(step.index);
    step.side == Side::Enclave
        && step.kind == Kind::Swap
        && address.checked_sub(at) == Some(place as u64)
        && step.first == u64::from(byte)
}

/// Puts the host's bytes at their places of the frame, as far as it has them.
fn puts(port: &mut PlainWords, at: u64, bytes: &[(u64, &[u8])]) -> bool {
    for (place, bytes) in bytes {
        let Some(address) = at.checked_add(*place) else {
            return false;
        };
        if !mapped(port.host(), address, bytes.len() as u64) {
            return false;
        }
        if put_range(port, Side::Host, address, bytes).is_err() {
            return false;
        }
    }
    true
}
