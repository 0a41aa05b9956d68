//! Bodies with the requests that they make, and what they leave.

ghost use Rattle.std.specs.Prelude.{ℕ, List, ◌≡◌, ◌<◌, ◌≤◌, IsTrue, Option, length};
ghost use Rattle.arrayvec.specs.ArrayVec.{array_vec_len};
ghost use Rattle.enclave_memory.specs.Memory.{Memory};
ghost use Rattle.body_vm.specs.Places.{AreNumbered, IsHeld, IsNumbered};
ghost use Rattle.body_vm.specs.Range.{ArePassable, AreInRange, IsInRange, IsOperand, IsPassable, skip_of};

use body_vm::Operand::{Number, Reg, Value};
use body_vm::{Action, Blocks, Body, Need, Operand, Pass, Regs, Values, answer, run_until};
use edl_interface::{Class, Param, Plain};
use enclave_memory::{Arena, Arg, Block};
use sgx_base::{Name, extended};
use sqlite_items::Items;
use std::alloc::{AllocError, Global};
use std::test::Fail;
use word_port::Kind;

/// An action, with the arguments of its OCALL in a slice.
#[derive(Clone, Copy)]
enum Line<'a> {
    Set(u8, Operand),
    Add(u8, Operand),
    Sub(u8, Operand),
    Mul(u8, Operand),
    And(u8, Operand),
    Or(u8, Operand),
    Xor(u8, Operand),
    Len(u8, u32),
    Sum(u8, u32),
    Get(u8, u32, Operand),
    Put(u32, Operand, Operand),
    Fill(u32, Operand),
    Copy(u32, u32),
    Temp(u32, u32),
    Cload(u8, u32),
    Cswap(u8, u32, Operand),
    Cadd(u8, u32, Operand),
    Ccas(u8, u32, Operand, Operand),
    Ocall(u8, u8, u32, &'a [Pass]),
    Skipz(u8, u32),
    Skipnz(u8, u32),
    Return(Operand),
}

/// A request that a body makes, with its answer: the old value of a cell, or a status and a return.
#[derive(Clone, Copy)]
enum Asks<'a> {
    Cell(Kind, u32, u64, u64, u64),
    Ocall(u32, &'a [Arg], u64, u64),
}

/// A body over two values, four null blocks and an arena of 64 bytes: its requests, the number that it returns, and the
/// registers and the blocks that it leaves.
#[derive(Clone, Copy)]
struct Row<'a> {
    name: &'a str,
    lines: &'a [Line<'a>],
    requests: &'a [Asks<'a>],
    value: u64,
    registers: [u64; 8],
    blocks: [Option<&'a [u8]>; 4],
}

/// The values of the parameters, where no row says others.
const VALUES: [u64; 2] = [300, u64::MAX - 1];

const BODIES: [Row; 15] = [
    Row {
        name: "sums, differences and products wrap",
        lines: &[
            Line::Set(0, Number(u64::MAX)),
            Line::Add(0, Number(2)),
            Line::Sub(1, Number(1)),
            Line::Set(2, Number(1 << 63)),
            Line::Mul(2, Number(2)),
            Line::Set(3, Number(u64::MAX)),
            Line::Mul(3, Number(u64::MAX)),
            Line::Set(4, Number(7)),
            Line::Sub(4, Reg(4)),
            Line::Return(Value(0)),
        ],
        requests: &[],
        value: 300,
        registers: [1, u64::MAX, 0, 1, 0, 0, 0, 0],
        blocks: [None; 4],
    },
    Row {
        name: "bits of both numbers, of one, of one alone",
        lines: &[
            Line::Set(0, Value(1)),
            Line::Xor(0, Number(u64::MAX)),
            Line::Set(1, Number(6)),
            Line::Or(1, Number(1 << 63)),
            Line::Set(2, Number(6)),
            Line::And(2, Number(3)),
        ],
        requests: &[],
        value: 0,
        registers: [1, (1 << 63) + 6, 2, 0, 0, 0, 0, 0],
        blocks: [None; 4],
    },
    Row {
        name: "bytes at the first and the last place, one past, and at the last number",
        lines: &[
            Line::Temp(0, 5),
            Line::Temp(1, 3),
            Line::Put(0, Number(0), Number(1)),
            Line::Put(0, Number(4), Number(0x1ff)),
            Line::Put(0, Number(5), Number(9)),
            Line::Put(0, Number(u64::MAX), Number(9)),
            Line::Get(0, 0, Number(4)),
            Line::Get(1, 0, Number(5)),
            Line::Get(2, 0, Number(u64::MAX)),
            Line::Len(3, 0),
            Line::Sum(4, 0),
            Line::Return(Reg(4)),
        ],
        requests: &[],
        value: 256,
        registers: [255, 0, 0, 5, 256, 0, 0, 0],
        blocks: [Some(&[1, 0, 0, 0, 255]), Some(&[0, 0, 0]), None, None],
    },
    Row {
        name: "a null block has no bytes, and gets none",
        lines: &[
            Line::Set(0, Number(7)),
            Line::Set(1, Number(7)),
            Line::Set(2, Number(7)),
            Line::Put(1, Number(0), Number(9)),
            Line::Fill(1, Number(9)),
            Line::Len(0, 1),
            Line::Sum(1, 1),
            Line::Get(2, 1, Number(0)),
        ],
        requests: &[],
        value: 0,
        registers: [0; 8],
        blocks: [None; 4],
    },
    Row {
        name: "a block is filled with the low byte of a number",
        lines: &[
            Line::Temp(0, 3),
            Line::Temp(1, 2),
            Line::Fill(0, Value(0)),
            Line::Fill(1, Number(256)),
            Line::Put(1, Number(1), Value(1)),
        ],
        requests: &[],
        value: 0,
        registers: [0; 8],
        blocks: [Some(&[44, 44, 44]), Some(&[0, 254]), None, None],
    },
    Row {
        name: "a longer block gets the bytes of a shorter one and keeps its others",
        lines: &[
            Line::Temp(0, 3),
            Line::Temp(1, 5),
            Line::Fill(0, Number(0x101)),
            Line::Fill(1, Number(2)),
            Line::Copy(1, 0),
        ],
        requests: &[],
        value: 0,
        registers: [0; 8],
        blocks: [Some(&[1, 1, 1]), Some(&[1, 1, 1, 2, 2]), None, None],
    },
    Row {
        name: "a shorter block gets the first bytes of a longer one",
        lines: &[
            Line::Temp(0, 3),
            Line::Temp(1, 5),
            Line::Fill(1, Number(2)),
            Line::Put(1, Number(0), Number(9)),
            Line::Copy(0, 1),
        ],
        requests: &[],
        value: 0,
        registers: [0; 8],
        blocks: [Some(&[9, 2, 2]), Some(&[9, 2, 2, 2, 2]), None, None],
    },
    Row {
        name: "a copy of a block on itself, of a null block, and on one",
        lines: &[
            Line::Temp(0, 3),
            Line::Put(0, Number(1), Number(5)),
            Line::Copy(0, 0),
            Line::Copy(0, 2),
            Line::Copy(2, 0),
            Line::Copy(2, 2),
        ],
        requests: &[],
        value: 0,
        registers: [0; 8],
        blocks: [Some(&[0, 5, 0]), None, None, None],
    },
    Row {
        name: "a block that just fits beside another, and one that does not",
        lines: &[
            Line::Temp(0, 33),
            Line::Temp(1, 17),
            Line::Temp(2, 16),
            Line::Temp(3, 1),
            Line::Len(1, 0),
            Line::Len(2, 1),
            Line::Len(3, 2),
            Line::Len(4, 3),
        ],
        requests: &[],
        value: 0,
        registers: [0, 33, 0, 16, 0, 0, 0, 0],
        blocks: [Some(&[0; 33]), None, Some(&[0; 16]), None],
    },
    Row {
        name: "a block of the whole arena, after one of a byte more",
        lines: &[Line::Temp(0, 65), Line::Temp(1, 64)],
        requests: &[],
        value: 0,
        registers: [0; 8],
        blocks: [None, Some(&[0; 64]), None, None],
    },
    Row {
        name: "a temporary block is null before it begins",
        lines: &[
            Line::Set(0, Number(7)),
            Line::Set(1, Number(7)),
            Line::Len(0, 1),
            Line::Fill(1, Number(9)),
            Line::Put(1, Number(0), Number(9)),
            Line::Get(1, 1, Number(0)),
            Line::Temp(1, 2),
            Line::Len(2, 1),
        ],
        requests: &[],
        value: 0,
        registers: [0, 0, 2, 0, 0, 0, 0, 0],
        blocks: [None, Some(&[0, 0]), None, None],
    },
    Row {
        name: "steps on cells",
        lines: &[
            Line::Cload(0, 3),
            Line::Cadd(1, 3, Reg(0)),
            Line::Cswap(2, 4, Value(1)),
            Line::Ccas(0, 5, Number(1), Reg(2)),
            Line::Return(Reg(0)),
        ],
        requests: &[
            Asks::Cell(Kind::Load, 3, 0, 0, 7),
            Asks::Cell(Kind::Add, 3, 7, 0, 7),
            Asks::Cell(Kind::Swap, 4, u64::MAX - 1, 0, 9),
            Asks::Cell(Kind::Cas, 5, 1, 9, 1),
        ],
        value: 1,
        registers: [1, 7, 9, 0, 0, 0, 0, 0],
        blocks: [None; 4],
    },
    Row {
        name: "OCALLs, the first with its status and its return in one register",
        lines: &[
            Line::Temp(0, 5),
            Line::Ocall(
                1,
                1,
                2,
                &[
                    Pass::Value(Number(5)),
                    Pass::Bytes(Some(0)),
                    Pass::Bytes(Some(1)),
                    Pass::Bytes(None),
                    Pass::Value(Value(0)),
                ],
            ),
            Line::Ocall(2, 3, 0, &[]),
        ],
        requests: &[
            Asks::Ocall(
                2,
                &[
                    Arg::Value(5),
                    Arg::Bytes(Some(Block { at: 0, length: 5 })),
                    Arg::Bytes(None),
                    Arg::Bytes(None),
                    Arg::Value(300),
                ],
                3,
                40,
            ),
            Asks::Ocall(0, &[], 0, 77),
        ],
        value: 0,
        registers: [0, 3, 77, 0, 0, 0, 0, 0],
        blocks: [Some(&[0; 5]), None, None, None],
    },
    Row {
        name: "skips over one action and over two, over none, and to the end",
        lines: &[
            Line::Skipz(0, 1),
            Line::Set(1, Number(9)),
            Line::Skipnz(0, 1),
            Line::Set(2, Number(5)),
            Line::Skipnz(2, 2),
            Line::Set(3, Number(9)),
            Line::Set(4, Number(9)),
            Line::Skipz(2, 1),
            Line::Set(5, Number(8)),
            Line::Skipz(7, 2),
            Line::Set(6, Number(9)),
            Line::Return(Number(9)),
        ],
        requests: &[],
        value: 0,
        registers: [0, 0, 5, 0, 0, 8, 0, 0],
        blocks: [None; 4],
    },
    Row {
        name: "a return without a value, with actions behind it",
        lines: &[
            Line::Set(0, Number(7)),
            Line::Return(Number(0)),
            Line::Set(1, Number(9)),
        ],
        requests: &[],
        value: 0,
        registers: [7, 0, 0, 0, 0, 0, 0, 0],
        blocks: [None; 4],
    },
];

/// The bytes of a field, each with its highest bit set.
const HIGH: [u8; 8] = [0x80, 0x81, 0x82, 0x83, 0x84, 0x85, 0x86, 0x87];

/// The bytes of a field, each with its highest bit clear.
const LOW: [u8; 8] = [0x70, 0x71, 0x72, 0x73, 0x74, 0x75, 0x76, 0x77];

/// The first bytes of a field; its size, and whether it is an integer and has a sign; and the number that it is to a
/// body.
const FIELDS: [([u8; 8], u32, bool, bool, u64); 13] = [
    (HIGH, 1, true, false, 0x80),
    (HIGH, 1, true, true, 0xffff_ffff_ffff_ff80),
    (LOW, 1, true, true, 0x70),
    (HIGH, 2, true, false, 0x8180),
    (HIGH, 2, true, true, 0xffff_ffff_ffff_8180),
    (LOW, 2, true, true, 0x7170),
    (HIGH, 4, true, false, 0x8382_8180),
    (HIGH, 4, true, true, 0xffff_ffff_8382_8180),
    (LOW, 4, true, true, 0x7372_7170),
    (HIGH, 8, true, false, 0x8786_8584_8382_8180),
    (HIGH, 8, true, true, 0x8786_8584_8382_8180),
    (LOW, 8, true, true, 0x7776_7574_7372_7170),
    (HIGH, 4, false, false, 0),
];

/// The size of an OCALL's return, and whether it has a sign; its bytes as a number, and the number that it is to a body.
/// An opaque return has no sign.
const RETURNS: [(u32, bool, u64, u64); 8] = [
    (1, true, 0x80, 0xffff_ffff_ffff_ff80),
    (2, true, 0x8000, 0xffff_ffff_ffff_8000),
    (4, true, 0x8000_0000, 0xffff_ffff_8000_0000),
    (8, true, 1 << 63, 1 << 63),
    (1, false, 0x80, 0x80),
    (3, false, 0x80_0000, 0x80_0000),
    (4, false, 0x8000_0000, 0x8000_0000),
    (8, false, 1 << 63, 1 << 63),
];

#[test]
fn bodies_do_what_their_actions_say(rt: HostRuntime) -> Result<(), Fail> {
    for row in &BODIES {
        assert!(rt; does(rt.alloc(), VALUES, row)?, "{}", row.name);
    }
    Ok(())
}

#[test]
fn parameters_are_extended_by_their_sign(rt: HostRuntime) -> Result<(), Fail> {
    for (bytes, size, integer, signed, value) in FIELDS {
        let plain = Plain {
            size,
            integer,
            signed,
        };
        assert!(rt; is_parameter(rt.alloc(), &bytes, plain, value)?, "{value}");
    }
    Ok(())
}

#[test]
fn returns_are_extended_by_their_sign(rt: HostRuntime) -> Result<(), Fail> {
    for (size, signed, number, value) in RETURNS {
        assert!(rt;
            is_return(rt.alloc(), size, signed, number, value)?,
            "{value}"
        );
    }
    Ok(())
}

/// A body that gives a number of its own into the first register, and returns it.
fn giving<'a>(lines: &'a [Line<'a>], requests: &'a [Asks<'a>], value: u64) -> Row<'a> {
    Row {
        name: "",
        lines,
        requests,
        value,
        registers: [value, 0, 0, 0, 0, 0, 0, 0],
        blocks: [None; 4],
    }
}

/// Whether a parameter with these bytes is this number to a body.
fn is_parameter(alloc: Global, bytes: &[u8], plain: Plain, value: u64) -> Result<bool, AllocError> {
    if plain.size > 8 {
        return Ok(false);
    }
    let param = Param {
        name: Name::new(alloc, b"n")?,
        offset: 0,
        class: Class::Plain(plain),
    };
    let lines = [Line::Set(0, Value(0)), Line::Return(Reg(0))];
    does(alloc, [param.value(bytes), 0], &giving(&lines, &[], value))
}

/// Whether an OCALL's return of so many bytes is this number to a body.
fn is_return(
    alloc: Global,
    size: u32,
    signed: bool,
    number: u64,
    value: u64,
) -> Result<bool, AllocError> {
    if size == 0 || size > 8 || (size < 8 && number >= 1 << (8 * size)) {
        return Ok(false);
    }
    let lines = [Line::Ocall(0, 1, 0, &[]), Line::Return(Reg(0))];
    let requests = [Asks::Ocall(0, &[], 0, extended(size, signed, number))];
    does(alloc, VALUES, &giving(&lines, &requests, value))
}

/// Whether a body over these values makes the requests of its row and leaves what that says.
fn does(alloc: Global, values: [u64; 2], row: &Row) -> Result<bool, AllocError> {
    let body = body(alloc, row.lines)?;
    if body.actions.len() > 100 || !are_in_range(body.actions.as_slice()) {
        return Ok(false);
    }
    let mut arena = Arena::new(alloc, 64)?;
    let values = values_of(values);
    let mut blocks = null_blocks();
    let mut regs = Regs {
        next: 0,
        regs: [0; 8],
    };
    for asks in row.requests {
        let need = run_until(&body, &mut regs, &values, &mut blocks, &mut arena);
        if !is_answered(&need, *asks, &mut regs) {
            return Ok(false);
        }
    }
    let need = run_until(&body, &mut regs, &values, &mut blocks, &mut arena);
    Ok(
        is_end(&need, row.value)
            && regs.regs == row.registers
            && have_bytes(&arena, blocks.as_slice(), &row.blocks),
    )
}

/// The body of these lines.
fn body(alloc: Global, lines: &[Line]) -> Result<Body, AllocError> {
    let mut actions = Items::new(alloc);
    for line in lines {
        actions.push(action(alloc, *line)?)?;
    }
    Ok(Body { actions })
}

/// The action of a line.
fn action(alloc: Global, line: Line) -> Result<Action, AllocError> {
    Ok(match line {
        Line::Set(into, by) => Action::Set(into, by),
        Line::Add(into, by) => Action::Add(into, by),
        Line::Sub(into, by) => Action::Sub(into, by),
        Line::Mul(into, by) => Action::Mul(into, by),
        Line::And(into, by) => Action::And(into, by),
        Line::Or(into, by) => Action::Or(into, by),
        Line::Xor(into, by) => Action::Xor(into, by),
        Line::Len(into, place) => Action::Len(into, place),
        Line::Sum(into, place) => Action::Sum(into, place),
        Line::Get(into, place, at) => Action::Get(into, place, at),
        Line::Put(place, at, value) => Action::Put(place, at, value),
        Line::Fill(place, value) => Action::Fill(place, value),
        Line::Copy(place, source) => Action::Copy(place, source),
        Line::Temp(place, length) => Action::Temp(place, length),
        Line::Cload(into, cell) => Action::Cload(into, cell),
        Line::Cswap(into, cell, value) => Action::Cswap(into, cell, value),
        Line::Cadd(into, cell, value) => Action::Cadd(into, cell, value),
        Line::Ccas(into, cell, old, new) => Action::Ccas(into, cell, old, new),
        Line::Ocall(ret, status, ordinal, args) => Action::Ocall {
            ret,
            status,
            ordinal,
            args: Items::from_slice(alloc, args)?,
        },
        Line::Skipz(test, count) => Action::Skipz(test, count),
        Line::Skipnz(test, count) => Action::Skipnz(test, count),
        Line::Return(value) => Action::Return(value),
    })
}

/// Whether actions can be carried out over two values and four blocks.
fn are_in_range(actions: &[Action]) -> bool
    ensures { IsTrue result → AreInRange 2 4 actions.now }
{
    match actions {
        [] => true,
        [action, rest @ ..] => {
            is_in_range(action) && skip(action) as usize <= rest.len() && are_in_range(rest)
        }
    }
}

/// How many actions an action may pass over.
fn skip(action: &Action) -> u32
    ensures { result ≡ skip_of action.now }
{
    match action {
        Action::Skipz(_, count) | Action::Skipnz(_, count) => *count,
        _ => 0,
    }
}

/// Whether an action can be carried out over two values and four blocks.
fn is_in_range(action: &Action) -> bool
    ensures { IsTrue result → IsInRange 2 4 action.now }
{
    match action {
        Action::Set(into, value)
        | Action::Add(into, value)
        | Action::Sub(into, value)
        | Action::Mul(into, value)
        | Action::And(into, value)
        | Action::Or(into, value)
        | Action::Xor(into, value)
        | Action::Cswap(into, _, value)
        | Action::Cadd(into, _, value) => *into < 8 && is_operand(*value),
        Action::Len(into, place) | Action::Sum(into, place) => *into < 8 && *place < 4,
        Action::Get(into, place, at) => *place < 4 && *into < 8 && is_operand(*at),
        Action::Put(place, at, value) => *place < 4 && is_operand(*at) && is_operand(*value),
        Action::Fill(place, value) => *place < 4 && is_operand(*value),
        Action::Copy(place, source) => *place < 4 && *source < 4,
        Action::Temp(place, length) => *place < 4 && *length > 0,
        Action::Ccas(into, _, old, new) => *into < 8 && is_operand(*old) && is_operand(*new),
        Action::Ocall {
            ret,
            status,
            args,
            ..
        } => *ret < 8 && *status < 8 && args.len() <= 64 && are_passable(args.as_slice()),
        Action::Cload(into, _) | Action::Skipz(into, _) | Action::Skipnz(into, _) => *into < 8,
        Action::Return(value) => is_operand(*value),
    }
}

/// Whether an operand has a number over two values.
fn is_operand(operand: Operand) -> bool
    ensures { IsTrue result → IsOperand 2 operand }
{
    match operand {
        Number(_) => true,
        Reg(register) => register < 8,
        Value(place) => place < 2,
    }
}

/// Whether arguments can be handed over out of two values and four blocks.
fn are_passable(passes: &[Pass]) -> bool
    ensures { IsTrue result → ArePassable 2 4 passes.now }
{
    match passes {
        [] => true,
        [pass, rest @ ..] => is_passable(*pass) && are_passable(rest),
    }
}

/// Whether an argument can be handed over out of two values and four blocks.
fn is_passable(pass: Pass) -> bool
    ensures { IsTrue result → IsPassable 2 4 pass }
{
    match pass {
        Pass::Value(operand) => is_operand(operand),
        Pass::Bytes(Some(place)) => place < 4,
        Pass::Bytes(None) => true,
    }
}

/// The values of two parameters.
fn values_of(numbers: [u64; 2]) -> Values
    ensures { array_vec_len result ≡ 2 }
{
    let [first, second] = numbers;
    let mut values = Values::new();
    values.push(first);
    values.push(second);
    values
}

/// Four null blocks.
fn null_blocks() -> Blocks
    ensures count { array_vec_len result ≡ 4 }
    ensures held { (arena : Memory) → (numbers : List (Option ℕ)) × IsHeld arena result.items numbers }
{
    let mut blocks = Blocks::new();
    blocks.push(None);
    blocks.push(None);
    blocks.push(None);
    blocks.push(None);
    blocks
}

/// Whether a body has ended with this number.
fn is_end(need: &Need, value: u64) -> bool {
    match need {
        Need::Done(ended) => *ended == value,
        _ => false,
    }
}

/// Whether a body asks for this, which is then answered.
fn is_answered(need: &Need, asks: Asks, regs: &mut Regs) -> bool
    ensures { regs.new.next ≡ regs.old.next }
{
    match (need, asks) {
        (
            Need::Cell {
                kind,
                cell,
                first,
                second,
                into,
            },
            Asks::Cell(wanted, at, one, other, old),
        ) => {
            let is_wanted = *kind == wanted && *cell == at && *first == one && *second == other;
            is_wanted && gives(regs, *into, old)
        }
        (
            Need::Ocall {
                ordinal,
                args,
                ret,
                status,
            },
            Asks::Ocall(called, with, ended, given),
        ) => {
            let is_wanted = *ordinal == called && args.as_slice() == with;
            is_wanted && gives(regs, *ret, given) && gives(regs, *status, ended)
        }
        _ => false,
    }
}

/// Gives an answer into a register, if there is such a one.
fn gives(regs: &mut Regs, into: u8, value: u64) -> bool
    ensures { regs.new.next ≡ regs.old.next }
{
    if into >= 8 {
        return false;
    }
    answer(regs, into, value);
    true
}

/// Whether blocks have these bytes, or are null where there are none.
fn have_bytes(arena: &Arena, blocks: &[Option<Block>], contents: &[Option<&[u8]>]) -> bool
    requires { (numbers : List (Option ℕ)) × AreNumbered arena.now blocks.now numbers }
{
    if blocks.len() != contents.len() {
        return false;
    }
    for place in 0..blocks.len() {
        if !has_bytes(arena, blocks[place], contents[place]) {
            return false;
        }
    }
    true
}

/// Whether a block has these bytes, or is null where there are none.
fn has_bytes(arena: &Arena, block: Option<Block>, content: Option<&[u8]>) -> bool
    requires { (number : Option ℕ) × IsNumbered arena.now block number }
{
    match (block, content) {
        (Some(block), Some(bytes)) => arena.bytes(block) == bytes,
        (None, None) => true,
        _ => false,
    }
}
