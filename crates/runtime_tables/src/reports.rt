//! Records of each kind, class and outcome, with their texts.

use call_report::{CallKind, CallRecord, Records, Way, report};
use edl_interface::{Amount, Class, Function, Interface, Param, Plain};
use sgx_base::{Name, Passing, Status};
use sqlite_items::Items;
use std::alloc::{AllocError, Global};
use std::test::Fail;
use word_port::{Kind, RunFull, Side, Step};

/// A function: its name, its return, its parameters, each with its name, the offset of its field and its class, and the
/// size of its frame.
type Form<'a> = (&'a [u8], Option<Plain>, &'a [(&'a [u8], u32, Class)], u32);

const U16: Plain = Plain {
    size: 2,
    integer: true,
    signed: false,
};

const U32: Plain = Plain {
    size: 4,
    integer: true,
    signed: false,
};

const U64: Plain = Plain {
    size: 8,
    integer: true,
    signed: false,
};

/// A structure without members.
const NOTHING: Plain = Plain {
    size: 0,
    integer: false,
    signed: false,
};

/// A buffer in, whose size is the second parameter.
const SIZED_IN: Class = Class::Buffer {
    way: Passing::Inward,
    size: Amount::Param(1),
    count: Amount::Number(1),
    unit: 1,
};

/// A buffer both ways, whose size is the fourth parameter.
const SIZED_BOTH: Class = Class::Buffer {
    way: Passing::Both,
    size: Amount::Param(3),
    count: Amount::Number(1),
    unit: 1,
};

const THREE_OUT: Class = Class::Buffer {
    way: Passing::Outward,
    size: Amount::Number(3),
    count: Amount::Number(1),
    unit: 1,
};

const FOUR_OUT: Class = Class::Buffer {
    way: Passing::Outward,
    size: Amount::Number(4),
    count: Amount::Number(1),
    unit: 1,
};

const ARRAY_OUT: Class = Class::Fixed {
    way: Passing::Outward,
    length: 8,
    unit: 4,
};

const ARRAY_BOTH: Class = Class::Fixed {
    way: Passing::Both,
    length: 4,
    unit: 2,
};

const TEXT_IN: Class = Class::Text {
    way: Passing::Inward,
    unit: 1,
};

const TEXT_BOTH: Class = Class::Text {
    way: Passing::Both,
    unit: 1,
};

const WIDE_BOTH: Class = Class::Text {
    way: Passing::Both,
    unit: 4,
};

/// `uint64_t f([in, size=len] const uint8_t* buf, size_t len)`, `void g([in, out, string] char* s)`,
/// `void w([in, out, wstring] wchar_t* s)`, `void z()`,
/// `uint32_t m(struct nothing e, [user_check] void* p, [out] int32_t a[2], [in, out] int16_t b[2],
/// [out, size=3] uint8_t* o, uint16_t n)`, and `uint64_t h()`.
const ECALLS: [Form; 6] = [
    (
        b"f",
        Some(U64),
        &[(b"buf", 8, SIZED_IN), (b"len", 16, Class::Plain(U64))],
        24,
    ),
    (b"g", None, &[(b"s", 0, TEXT_BOTH)], 16),
    (b"w", None, &[(b"s", 0, WIDE_BOTH)], 16),
    (b"z", None, &[], 0),
    (
        b"m",
        Some(U32),
        &[
            (b"e", 4, Class::Plain(NOTHING)),
            (b"p", 8, Class::UserCheck),
            (b"a", 16, ARRAY_OUT),
            (b"b", 24, ARRAY_BOTH),
            (b"o", 32, THREE_OUT),
            (b"n", 40, Class::Plain(U16)),
        ],
        48,
    ),
    (b"h", Some(U64), &[], 8),
];

/// `uint64_t o([in, string] const char* s, [out, size=4] uint8_t* p, [in, out, size=n] uint8_t* q, uint32_t n,
/// [user_check] void* u)`, `void t([in, out, wstring] wchar_t* s)`, `void z()`, and `void k([out, size=4] uint8_t* p)`.
const OCALLS: [Form; 4] = [
    (
        b"o",
        Some(U64),
        &[
            (b"s", 8, TEXT_IN),
            (b"p", 16, FOUR_OUT),
            (b"q", 24, SIZED_BOTH),
            (b"n", 32, Class::Plain(U32)),
            (b"u", 40, Class::UserCheck),
        ],
        48,
    ),
    (b"t", None, &[(b"s", 0, WIDE_BOTH)], 8),
    (b"z", None, &[], 0),
    (b"k", None, &[(b"p", 0, FOUR_OUT)], 8),
];

const LOAD: Kind = Kind::Load;

const PUT: Kind = Kind::Swap;

/// An answered call without a step.
const ECALL: CallRecord = CallRecord {
    kind: CallKind::Ecall,
    ordinal: 0,
    depth: 0,
    frame: 0x10fe0,
    way: Way::Ordinary,
    status: Status(0),
    first: 0,
    turn: 0,
    last: 0,
};

const OCALL: CallRecord = CallRecord {
    kind: CallKind::Ocall,
    frame: 0x10f90,
    ..ECALL
};

const PEEK: CallRecord = CallRecord {
    kind: CallKind::Peek,
    ..ECALL
};

/// `f(@0x10000, 3)`, whose answer's steps begin at 27.
const F: CallRecord = CallRecord {
    turn: 27,
    last: 27,
    ..ECALL
};

/// The frame of `f(@0x10000, 3)`.
const FRAME_OF_F: [u8; 24] = [
    0, 0, 0, 0, 0, 0, 0, 0, 0, 0, 1, 0, 0, 0, 0, 0, 3, 0, 0, 0, 0, 0, 0, 0,
];

const SIX: [u8; 8] = [6, 0, 0, 0, 0, 0, 0, 0];

const STEPS_OF_F: [(Kind, &[u8]); 3] = [(LOAD, &FRAME_OF_F), (LOAD, &[1, 2, 3]), (PUT, &SIX)];

const LINES_OF_F: &str = "  in buf 010203\n  in len 0300000000000000\n  ret 0600000000000000\n";

/// The frame of `o("hi", p, q, 2, 0x7788)` with its three buffers behind it.
const FRAME_OF_O: [u8; 57] = [
    0, 0, 0, 0, 0, 0, 0, 0, 0xc0, 0x0f, 1, 0, 0, 0, 0, 0, 0xc3, 0x0f, 1, 0, 0, 0, 0, 0, //
    0xc7, 0x0f, 1, 0, 0, 0, 0, 0, 2, 0, 0, 0, 0, 0, 0, 0, 0x88, 0x77, 0, 0, 0, 0, 0, 0, //
    b'h', b'i', 0, 0, 0, 0, 0, 5, 6,
];

/// That OCALL, whose answer's steps begin at 57.
const O: CallRecord = CallRecord {
    turn: 57,
    last: 57,
    ..OCALL
};

const STEPS_OF_O: [(Kind, &[u8]); 4] = [
    (PUT, &FRAME_OF_O),
    (LOAD, &[9, 0, 0, 0, 0, 0, 0, 0]),
    (LOAD, &[1, 2, 3, 4]),
    (LOAD, &[6, 7]),
];

const PUT_OF_O: &str = "  in s 686900\n  in q 0506\n  in n 02000000\n  in u 8877000000000000\n";

const FOUND_OF_O: &str = "  ret 0900000000000000\n  out p 01020304\n  out q 0607\n";

/// Records, what the steps of the log load or put, piece by piece, and the pieces of their text.
type Row<'a> = (&'a [CallRecord], &'a [(Kind, &'a [u8])], &'a [&'a str]);

/// Numbers and buffers of ECALLs, in each way and with each outcome.
const NUMBERS: [Row; 10] = [
    (
        &[F],
        &STEPS_OF_F,
        &["ecall 0 f 0x10fe0 ordinary 0x0000\n", LINES_OF_F],
    ),
    (
        &[CallRecord {
            way: Way::Fallback,
            ..F
        }],
        &STEPS_OF_F,
        &["ecall 0 f 0x10fe0 fallback 0x0000\n", LINES_OF_F],
    ),
    (
        &[CallRecord {
            way: Way::Served,
            ..F
        }],
        &STEPS_OF_F,
        &["ecall 0 f 0x10fe0 served 0x0000\n", LINES_OF_F],
    ),
    (
        &[CallRecord {
            way: Way::Taken,
            ..F
        }],
        &STEPS_OF_F,
        &["ecall 0 f 0x10fe0 taken 0x0000\n"],
    ),
    (
        &[CallRecord {
            status: Status(2),
            ..F
        }],
        &STEPS_OF_F,
        &["ecall 0 f 0x10fe0 ordinary 0x0002\n"],
    ),
    (
        &[CallRecord {
            turn: 24,
            last: 24,
            ..ECALL
        }],
        &[(LOAD, &[0; 24]), (PUT, &[0; 8])],
        &[
            "ecall 0 f 0x10fe0 ordinary 0x0000\n",
            "  in buf null\n  in len 0000000000000000\n  ret 0000000000000000\n",
        ],
    ),
    (
        &[CallRecord {
            frame: 0,
            status: Status(1),
            ..ECALL
        }],
        &[],
        &["ecall 0 f 0x0 ordinary 0x0001\n"],
    ),
    (
        &[CallRecord {
            ordinal: 3,
            frame: 0,
            ..ECALL
        }],
        &[],
        &["ecall 0 z 0x0 ordinary 0x0000\n"],
    ),
    (
        &[CallRecord {
            ordinal: 6,
            frame: 0,
            status: Status(0x1001),
            ..ECALL
        }],
        &[],
        &["ecall 0 - 0x0 ordinary 0x1001\n"],
    ),
    (
        &[CallRecord {
            ordinal: 6,
            frame: u64::MAX,
            status: Status(0xabcde),
            ..ECALL
        }],
        &[],
        &["ecall 0 - 0xffffffffffffffff ordinary 0xabcde\n"],
    ),
];

/// Strings and each other class of ECALLs.
const CLASSES: [Row; 5] = [
    (
        &[CallRecord {
            ordinal: 1,
            frame: 0x10ff0,
            turn: 19,
            last: 19,
            ..ECALL
        }],
        &[
            (LOAD, &[0, 0, 1, 0, 0, 0, 0, 0, 3, 0, 0, 0, 0, 0, 0, 0]),
            (LOAD, b"hi!"),
            (PUT, b"h\0"),
        ],
        &["ecall 0 g 0x10ff0 ordinary 0x0000\n  in s 686900\n  out s 6800\n"],
    ),
    (
        &[CallRecord {
            ordinal: 1,
            frame: 0x10ff0,
            turn: 16,
            last: 16,
            ..ECALL
        }],
        &[(LOAD, &[0; 16])],
        &["ecall 0 g 0x10ff0 ordinary 0x0000\n  in s null\n"],
    ),
    (
        &[CallRecord {
            ordinal: 2,
            frame: 0x10ff0,
            turn: 28,
            last: 28,
            ..ECALL
        }],
        &[
            (LOAD, &[0, 0, 1, 0, 0, 0, 0, 0, 12, 0, 0, 0, 0, 0, 0, 0]),
            (LOAD, &[b'A', 0, 0, 0, b'B', 0, 0, 0, 9, 9, 9, 9]),
            (PUT, &[b'A', 0, 0, 0, 0, 0, 0, 0]),
        ],
        &[
            "ecall 0 w 0x10ff0 ordinary 0x0000\n",
            "  in s 410000004200000000000000\n  out s 4100000000000000\n",
        ],
    ),
    (
        &[CallRecord {
            ordinal: 4,
            frame: 0x10fd0,
            turn: 52,
            last: 52,
            ..ECALL
        }],
        &[
            (
                LOAD,
                &[
                    0, 0, 0, 0, 0, 0, 0, 0, 0x22, 0x11, 0, 0, 0, 0, 0, 0, 0, 1, 1, 0, 0, 0, 0, 0,
                    0, 2, 1, 0, 0, 0, 0, 0, 0, 3, 1, 0, 0, 0, 0, 0, 0x34, 0x12, 0, 0, 0, 0, 0, 0,
                ],
            ),
            (LOAD, &[1, 0, 2, 0]),
            (PUT, &[42, 0, 0, 0]),
            (PUT, &[1, 2, 3, 4, 5, 6, 7, 8]),
            (PUT, &[10, 11, 12, 13]),
            (PUT, b"wxy"),
        ],
        &[
            "ecall 0 m 0x10fd0 ordinary 0x0000\n",
            "  in e -\n  in p 2211000000000000\n  in b 01000200\n  in n 3412\n",
            "  ret 2a000000\n  out a 0102030405060708\n  out b 0a0b0c0d\n  out o 777879\n",
        ],
    ),
    (
        &[CallRecord {
            ordinal: 4,
            frame: 0x10fd0,
            turn: 48,
            last: 48,
            ..ECALL
        }],
        &[(LOAD, &[0; 48]), (PUT, &[0; 4])],
        &[
            "ecall 0 m 0x10fd0 ordinary 0x0000\n",
            "  in e -\n  in p 0000000000000000\n  in a null\n  in b null\n  in o null\n",
            "  in n 0000\n  ret 00000000\n",
        ],
    ),
];

/// OCALLs, with their frames and their answers.
const ANSWERS: [Row; 9] = [
    (
        &[O],
        &STEPS_OF_O,
        &["ocall 0 o 0x10f90 ordinary 0x0000\n", PUT_OF_O, FOUND_OF_O],
    ),
    (
        &[CallRecord {
            way: Way::Taken,
            ..O
        }],
        &STEPS_OF_O,
        &["ocall 0 o 0x10f90 taken 0x0000\n", PUT_OF_O, FOUND_OF_O],
    ),
    (
        &[CallRecord {
            way: Way::Fallback,
            status: Status(5),
            ..O
        }],
        &STEPS_OF_O,
        &["ocall 0 o 0x10f90 fallback 0x0005\n", PUT_OF_O],
    ),
    (
        &[CallRecord {
            way: Way::Served,
            ..O
        }],
        &STEPS_OF_O,
        &["ocall 0 o 0x10f90 served 0x0000\n"],
    ),
    (
        &[CallRecord {
            turn: 48,
            last: 48,
            ..OCALL
        }],
        &[(PUT, &[0; 48]), (LOAD, &SIX)],
        &[
            "ocall 0 o 0x10f90 ordinary 0x0000\n  in s null\n  in p null\n  in q null\n",
            "  in n 00000000\n  in u 0000000000000000\n  ret 0600000000000000\n",
        ],
    ),
    (
        &[CallRecord {
            frame: 0,
            status: Status(2),
            ..OCALL
        }],
        &[],
        &["ocall 0 o 0x0 ordinary 0x0002\n"],
    ),
    (
        &[CallRecord {
            ordinal: 1,
            frame: 0x10f00,
            turn: 16,
            last: 16,
            ..OCALL
        }],
        &[
            (PUT, &[8, 0x0f, 1, 0, 0, 0, 0, 0]),
            (PUT, &[b'A', 0, 0, 0, 0, 0, 0, 0]),
            (LOAD, &[b'B', 0, 0, 0, b'C', 0, 0, 0]),
        ],
        &[
            "ocall 0 t 0x10f00 ordinary 0x0000\n",
            "  in s 4100000000000000\n  out s 4200000043000000\n",
        ],
    ),
    (
        &[CallRecord {
            ordinal: 2,
            frame: 0,
            ..OCALL
        }],
        &[],
        &["ocall 0 z 0x0 ordinary 0x0000\n"],
    ),
    (
        &[CallRecord {
            ordinal: 9,
            frame: 0,
            status: Status(0x1001),
            ..OCALL
        }],
        &[],
        &["ocall 0 - 0x0 ordinary 0x1001\n"],
    ),
];

/// Records in their order, and none.
const ORDER: [Row; 2] = [
    (
        &[
            CallRecord {
                ordinal: 5,
                frame: 0x10ff0,
                first: 8,
                turn: 44,
                last: 44,
                ..ECALL
            },
            CallRecord {
                ordinal: 3,
                depth: 1,
                frame: 0x10fe0,
                first: 16,
                turn: 40,
                last: 40,
                ..OCALL
            },
            CallRecord {
                frame: 0x10000,
                first: 60,
                turn: 63,
                last: 63,
                ..PEEK
            },
            CallRecord {
                frame: 0x10003,
                first: 63,
                turn: 63,
                last: 63,
                ..PEEK
            },
        ],
        &[
            (PUT, &[0; 8]),
            (LOAD, &[0; 8]),
            (PUT, &[0xe8, 0x0f, 1, 0, 0, 0, 0, 0, 0, 0, 0, 0]),
            (PUT, &[0, 0, 1, 0, 0, 0, 0, 0, 1, 2, 3, 4]),
            (LOAD, &[1, 2, 3, 4]),
            (PUT, &[10, 0, 0, 0, 0, 0, 0, 0]),
            (LOAD, &[10, 0, 0, 0, 0, 0, 0, 0]),
            (LOAD, &[0x68, 0, 0xff]),
        ],
        &[
            "ecall 0 h 0x10ff0 ordinary 0x0000\n  ret 0a00000000000000\n",
            "ocall 1 k 0x10fe0 ordinary 0x0000\n  out p 01020304\n",
            "peek 0x10000 6800ff\n",
            "peek 0x10003 -\n",
        ],
    ),
    (&[], &[], &[]),
];

#[test]
fn records_and_their_texts(rt: HostRuntime) -> Result<(), Fail> {
    let interface = Interface {
        ecalls: functions(rt.alloc(), &ECALLS)?,
        ocalls: functions(rt.alloc(), &OCALLS)?,
    };
    for (name, table) in [
        ("numbers", NUMBERS.as_slice()),
        ("classes", &CLASSES),
        ("answers", &ANSWERS),
        ("order", &ORDER),
    ] {
        assert!(rt; have_texts(rt.alloc(), &interface, table)?, "{name}");
    }
    Ok(())
}

/// Whether the report of each row has its texts.
fn have_texts(alloc: Global, interface: &Interface, table: &[Row]) -> Result<bool, AllocError> {
    for (records, pieces, texts) in table {
        let log = log_of(alloc, pieces)?;
        let found = report(alloc, interface, records, log.as_slice())?;
        if !is_text(found.as_slice(), texts) {
            return Ok(false);
        }
    }
    Ok(true)
}

/// These functions.
fn functions(alloc: Global, forms: &[Form]) -> Result<Items<Function>, AllocError> {
    let mut list = Items::new(alloc);
    for form in forms {
        list.push(function(alloc, *form)?)?;
    }
    Ok(list)
}

fn function(alloc: Global, form: Form) -> Result<Function, AllocError> {
    let (name, ret, fields, frame_size) = form;
    let mut params = Items::new(alloc);
    for (name, offset, class) in fields {
        params.push(Param {
            name: Name::new(alloc, name)?,
            offset: *offset,
            class: *class,
        })?;
    }
    Ok(Function {
        name: Name::new(alloc, name)?,
        is_public: true,
        switchless: false,
        ret,
        params,
        allow: Items::new(alloc),
        frame_size,
    })
}

/// A log whose steps load or put these bytes, piece by piece. A put finds another byte, and a load has no number of its
/// own.
fn log_of(alloc: Global, pieces: &[(Kind, &[u8])]) -> Result<Vec<Step>, AllocError> {
    let mut log = Vec::new(alloc);
    for (kind, bytes) in pieces {
        for byte in bytes.iter() {
            let loads = *kind == Kind::Load;
            log.push(Step {
                side: Side::Enclave,
                kind: *kind,
                index: 0,
                first: if loads { 0 } else { u64::from(*byte) },
                second: 0,
                answer: if loads { u64::from(*byte) } else { 0xee },
            })?;
        }
    }
    Ok(log)
}

/// Whether a text is these pieces, one after another.
fn is_text(text: &[u8], pieces: &[&str]) -> bool {
    let mut rest = text;
    for piece in pieces {
        match rest.strip_prefix(piece.as_bytes()) {
            Some(behind) => rest = behind,
            None => return false,
        }
    }
    rest.is_empty()
}

#[test]
fn records_up_to_the_limit(rt: HostRuntime) -> Result<(), Fail> {
    let one = CallRecord { frame: 1, ..PEEK };
    let two = CallRecord { frame: 2, ..PEEK };
    let mut records = Records::new(rt.alloc(), 2)?;
    assert!(rt; records.push(one) == Ok(()));
    assert!(rt; records.push(two) == Ok(()));
    assert!(rt; records.push(one) == Err(RunFull::Records));
    assert!(rt; records.list() == [one, two].as_slice());
    assert!(rt; records.list().len() == 2);
    records.set(1, one);
    assert!(rt; records.list() == [one, one].as_slice());
    Ok(())
}
