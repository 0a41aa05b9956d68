//! The lists of functions of each class and direction, the entries that a table takes, and call stacks.

ghost use Rattle.std.specs.Prelude.{◌≡◌, ◌≤◌, [], ◌∷◌, length, IfOk};
ghost use Rattle.edl_interface.specs.declared.Function.{Function};
ghost use Rattle.edl_interface.specs.declared.Interface.{Interface};
ghost use Rattle.bridge_program.specs.Entry.{MayEnter};
ghost use Rattle.bridge_program.specs.Standing.{IsInHost};

use bridge_program::Instr::{
    Alloc, Begin, Call, CopyIn, CopyOut, Divide, End, Fence, Frame, Length, NoFrame, OAdd, OBack,
    OBegin, OBuffer, OCopy, OEnd, OEnter, OField, OLength, OReturn, OTake, OTotal, OWithin,
    Outside, PutReturn, TextEnd, Zero,
};
use bridge_program::{CallStack, Instr, compile, entry_check};
use edl_interface::{Amount, Class, Function, Interface, Param, Plain};
use sgx_base::{Name, Passing, Status};
use sqlite_items::Items;
use std::alloc::{AllocError, Global};
use std::test::Fail;

const NUMBER: Plain = Plain {
    size: 8,
    integer: true,
    signed: false,
};

const BUFFER_IN: Class = Class::Buffer {
    way: Passing::Inward,
    size: Amount::Param(1),
    count: Amount::Number(1),
    unit: 1,
};

const BUFFER_OUT: Class = Class::Buffer {
    way: Passing::Outward,
    size: Amount::Param(1),
    count: Amount::Number(1),
    unit: 1,
};

const BUFFER_BOTH: Class = Class::Buffer {
    way: Passing::Both,
    size: Amount::Param(1),
    count: Amount::Number(1),
    unit: 1,
};

const FIXED_IN: Class = Class::Fixed {
    way: Passing::Inward,
    length: 8,
    unit: 4,
};

const FIXED_OUT: Class = Class::Fixed {
    way: Passing::Outward,
    length: 8,
    unit: 4,
};

const FIXED_BOTH: Class = Class::Fixed {
    way: Passing::Both,
    length: 8,
    unit: 4,
};

const FOREIGN_IN: Class = Class::Foreign {
    way: Some(Passing::Inward),
};

const FOREIGN_OUT: Class = Class::Foreign {
    way: Some(Passing::Outward),
};

const FOREIGN_BOTH: Class = Class::Foreign {
    way: Some(Passing::Both),
};

/// A function's return and parameters, its list as an ECALL, and its list as an OCALL.
const LISTS: [(Option<Plain>, &[Class], &[Instr], &[Instr]); 11] = [
    (
        Some(NUMBER),
        &[BUFFER_IN, Class::Plain(NUMBER)],
        &[
            Begin,
            Frame,
            Length(0),
            Outside(0),
            Fence,
            Divide(0),
            Alloc(0),
            CopyIn(0),
            Call,
            PutReturn,
            End,
        ],
        &[
            OBegin,
            OLength(0),
            OWithin(0),
            OTotal,
            OAdd(0),
            OTake,
            OBuffer(0),
            OField(1),
            OCopy(0),
            OEnter,
            OReturn,
            OEnd,
        ],
    ),
    (
        None,
        &[],
        &[Begin, NoFrame, Call, End],
        &[OBegin, OEnter, OEnd],
    ),
    (
        Some(NUMBER),
        &[],
        &[Begin, Frame, Call, PutReturn, End],
        &[OBegin, OTotal, OTake, OEnter, OReturn, OEnd],
    ),
    (
        None,
        &[
            Class::Plain(NUMBER),
            Class::UserCheck,
            Class::Foreign { way: None },
        ],
        &[Begin, Frame, Call, End],
        &[
            OBegin,
            OTotal,
            OTake,
            OField(0),
            OField(1),
            OField(2),
            OEnter,
            OEnd,
        ],
    ),
    (
        None,
        &[BUFFER_OUT, Class::Plain(NUMBER)],
        &[
            Begin,
            Frame,
            Length(0),
            Outside(0),
            Fence,
            Divide(0),
            Alloc(0),
            Zero(0),
            Call,
            CopyOut(0),
            End,
        ],
        &[
            OBegin,
            OLength(0),
            OWithin(0),
            OTotal,
            OAdd(0),
            OTake,
            OBuffer(0),
            OField(1),
            OEnter,
            OBack(0),
            OEnd,
        ],
    ),
    (
        None,
        &[BUFFER_BOTH, Class::Plain(NUMBER)],
        &[
            Begin,
            Frame,
            Length(0),
            Outside(0),
            Fence,
            Divide(0),
            Alloc(0),
            CopyIn(0),
            Call,
            CopyOut(0),
            End,
        ],
        &[
            OBegin,
            OLength(0),
            OWithin(0),
            OTotal,
            OAdd(0),
            OTake,
            OBuffer(0),
            OField(1),
            OCopy(0),
            OEnter,
            OBack(0),
            OEnd,
        ],
    ),
    (
        None,
        &[Class::Text {
            way: Passing::Inward,
            unit: 1,
        }],
        &[
            Begin,
            Frame,
            Length(0),
            Outside(0),
            Fence,
            Divide(0),
            Alloc(0),
            CopyIn(0),
            TextEnd(0),
            Call,
            End,
        ],
        &[
            OBegin,
            OLength(0),
            OWithin(0),
            OTotal,
            OAdd(0),
            OTake,
            OBuffer(0),
            OCopy(0),
            OEnter,
            OEnd,
        ],
    ),
    (
        Some(NUMBER),
        &[Class::Text {
            way: Passing::Both,
            unit: 4,
        }],
        &[
            Begin,
            Frame,
            Length(0),
            Outside(0),
            Fence,
            Divide(0),
            Alloc(0),
            CopyIn(0),
            TextEnd(0),
            Call,
            PutReturn,
            CopyOut(0),
            End,
        ],
        &[
            OBegin,
            OLength(0),
            OWithin(0),
            OTotal,
            OAdd(0),
            OTake,
            OBuffer(0),
            OCopy(0),
            OEnter,
            OReturn,
            OBack(0),
            OEnd,
        ],
    ),
    (
        None,
        &[FIXED_IN, FIXED_OUT, FIXED_BOTH],
        &[
            Begin,
            Frame,
            Length(0),
            Length(1),
            Length(2),
            Outside(0),
            Outside(1),
            Outside(2),
            Fence,
            Divide(0),
            Alloc(0),
            CopyIn(0),
            Divide(1),
            Alloc(1),
            Zero(1),
            Divide(2),
            Alloc(2),
            CopyIn(2),
            Call,
            CopyOut(1),
            CopyOut(2),
            End,
        ],
        &[
            OBegin,
            OLength(0),
            OLength(1),
            OLength(2),
            OWithin(0),
            OWithin(1),
            OWithin(2),
            OTotal,
            OAdd(0),
            OAdd(1),
            OAdd(2),
            OTake,
            OBuffer(0),
            OBuffer(1),
            OBuffer(2),
            OCopy(0),
            OCopy(2),
            OEnter,
            OBack(1),
            OBack(2),
            OEnd,
        ],
    ),
    (
        None,
        &[
            Class::Plain(NUMBER),
            FOREIGN_IN,
            Class::UserCheck,
            FOREIGN_OUT,
        ],
        &[
            Begin,
            Frame,
            Length(1),
            Length(3),
            Outside(1),
            Outside(3),
            Fence,
            Divide(1),
            Alloc(1),
            CopyIn(1),
            Divide(3),
            Alloc(3),
            Zero(3),
            Call,
            CopyOut(3),
            End,
        ],
        &[
            OBegin,
            OLength(1),
            OLength(3),
            OWithin(1),
            OWithin(3),
            OTotal,
            OAdd(1),
            OAdd(3),
            OTake,
            OField(0),
            OBuffer(1),
            OField(2),
            OBuffer(3),
            OCopy(1),
            OEnter,
            OBack(3),
            OEnd,
        ],
    ),
    (
        None,
        &[FOREIGN_BOTH],
        &[
            Begin,
            Frame,
            Length(0),
            Outside(0),
            Fence,
            Divide(0),
            Alloc(0),
            CopyIn(0),
            Call,
            CopyOut(0),
            End,
        ],
        &[
            OBegin,
            OLength(0),
            OWithin(0),
            OTotal,
            OAdd(0),
            OTake,
            OBuffer(0),
            OCopy(0),
            OEnter,
            OBack(0),
            OEnd,
        ],
    ),
];

/// A function with these parameters, which allows entries of these ordinals.
fn function(
    alloc: Global,
    is_public: bool,
    ret: Option<Plain>,
    classes: &[Class],
    allow: &[u32],
) -> Result<Function, AllocError> {
    let mut params = Items::new(alloc);
    for class in classes {
        params.push(Param {
            name: Name::new(alloc, b"p")?,
            offset: 0,
            class: *class,
        })?;
    }
    Ok(Function {
        name: Name::new(alloc, b"f")?,
        is_public,
        switchless: false,
        ret,
        params,
        allow: Items::from_slice(alloc, allow)?,
        frame_size: 0,
    })
}

/// A list of one function.
fn alone(alloc: Global, function: Function) -> Result<Items<Function>, AllocError>
    ensures { IfOk result (λ functions. functions ≡ function ∷ []) }
{
    let mut functions = Items::new(alloc);
    functions.push(function)?;
    Ok(functions)
}

/// Whether a function with these parameters has these lists, as an ECALL and as an OCALL.
fn has_lists(
    alloc: Global,
    ret: Option<Plain>,
    classes: &[Class],
    ecall: &[Instr],
    ocall: &[Instr],
) -> Result<bool, AllocError> {
    let ecalls = alone(alloc, function(alloc, true, ret, classes, &[])?)?;
    let ocalls = alone(alloc, function(alloc, true, ret, classes, &[])?)?;
    let bridges = compile(alloc, &Interface { ecalls, ocalls })?;
    Ok(bridges.list(true, 0) == ecall && bridges.list(false, 0) == ocall)
}

#[test]
fn lists_of_functions(rt: HostRuntime) -> Result<(), Fail> {
    for (ret, classes, ecall, ocall) in LISTS {
        assert!(rt; has_lists(rt.alloc(), ret, classes, ecall, ocall)?);
    }
    Ok(())
}

/// How many ECALLs are in progress, each with its OCALL in progress on it; an ordinal; and what an entry of it meets. Of
/// the functions 0, 1 and 2 the second is private, and the OCALL allows that one alone.
const ENTRIES: [(u8, u32, Result<(), Status>); 12] = [
    (0, 0, Ok(())),
    (0, 1, Err(Status::ECALL_NOT_ALLOWED)),
    (0, 2, Ok(())),
    (0, 3, Err(Status::INVALID_FUNCTION)),
    (1, 0, Err(Status::ECALL_NOT_ALLOWED)),
    (1, 1, Ok(())),
    (1, 2, Err(Status::ECALL_NOT_ALLOWED)),
    (1, 3, Err(Status::INVALID_FUNCTION)),
    (15, 1, Ok(())),
    (16, 1, Err(Status::STACK_OVERRUN)),
    (16, 2, Err(Status::ECALL_NOT_ALLOWED)),
    (16, 3, Err(Status::INVALID_FUNCTION)),
];

/// A stack of so many ECALLs, at most 16, each with the first OCALL in progress on it.
fn nested(count: u8) -> CallStack
    ensures { (interface : Interface) (o : Function) → interface.ocalls ≡ o ∷ [] → MayEnter interface result }
{
    let mut stack = CallStack::new();
    for _ in 0..count.min(16) {
        stack.enter(0);
        stack.start_ocall(0);
    }
    stack
}

/// What an entry of this ordinal meets where so many ECALLs are in progress.
fn entry(alloc: Global, count: u8, ordinal: u32) -> Result<Result<(), Status>, AllocError> {
    let mut ecalls = alone(alloc, function(alloc, true, None, &[], &[])?)?;
    ecalls.push(function(alloc, false, None, &[], &[])?)?;
    ecalls.push(function(alloc, true, None, &[], &[])?)?;
    let ocalls = alone(alloc, function(alloc, true, None, &[], &[1])?)?;
    let bridges = compile(alloc, &Interface { ecalls, ocalls })?;
    Ok(entry_check(&bridges, &nested(count), ordinal))
}

#[test]
fn entries_by_table_and_stack(rt: HostRuntime) -> Result<(), Fail> {
    for (count, ordinal, answer) in ENTRIES {
        assert_eq!(rt; entry(rt.alloc(), count, ordinal)?, answer);
    }
    Ok(())
}

#[test]
fn sixteen_calls_nest(rt: HostRuntime) {
    for count in 0..=16 {
        let stack = nested(count);
        assert_eq!(rt; stack.depth(), 2 * u32::from(count));
        assert_eq!(rt; stack.is_full(), count == 16);
    }
}

#[test]
fn calls_return(rt: HostRuntime) {
    let mut stack = CallStack::new();
    stack.enter(0);
    stack.start_ocall(0);
    stack.enter(1);
    assert_eq!(rt; stack.depth(), 3);
    stack.leave();
    assert_eq!(rt; stack.depth(), 2);
    stack.end_ocall();
    assert_eq!(rt; stack.depth(), 1);
    stack.leave();
    assert_eq!(rt; stack.depth(), 0);
}
