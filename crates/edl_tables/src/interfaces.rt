//! The interfaces of files, field by field, and rules of foreign types.

ghost use Rattle.std.specs.Prelude.{◌≤◌, length};
ghost use Rattle.sgx_base.specs.Stores.{max_file_size};

use crate::reading::{foreign, gathered};
use attr_rules::{Amount, Class, Function, Interface, Passing, Plain, RuleFault, check};
use edl_layout::layout_of;
use std::alloc::Global;
use std::process::Abort;
use std::test::Fail;

/// Foreign types of 4 bytes and of 16.
const FOREIGN: [(&[u8], u32, u32); 2] = [(b"T", 4, 4), (b"L", 16, 8)];

/// The interface of a file, or its first broken rule.
fn checked(alloc: Global, text: &[u8], runner: bool) -> Result<Result<Interface, RuleFault>, Fail>
    requires { length text.now ≤ max_file_size }
{
    let foreign = foreign(alloc, &FOREIGN, !runner)?;
    let files = gathered(alloc, text)?;
    let layouts = layout_of(alloc, &files, &foreign)?;
    if files.files.len() > 64 {
        return Err(Fail::new("more than one file"));
    }
    Ok(check(alloc, &files, &layouts, runner))
}

/// A function: whether it is public and whether it is switchless, its return and frame, the entries during it, and its parameters by
/// name, offset and class.
type Row = (
    bool,
    bool,
    Option<Plain>,
    u32,
    &'static [u32],
    &'static [(&'static str, u32, Class)],
);

fn check_function(rt: &impl Abort, f: &Function, row: &Row) {
    let (is_public, switchless, ret, frame_size, allow, params) = *row;
    assert_eq!(rt; (f.is_public, f.switchless), (is_public, switchless));
    assert_eq!(rt; (f.ret, f.frame_size), (ret, frame_size));
    assert_eq!(rt; f.allow.as_slice(), allow);
    assert_eq!(rt; f.params.len(), params.len());
    for (param, (name, offset, class)) in f.params.as_slice().iter().zip(params) {
        assert_eq!(rt; param.name.bytes(), name.as_bytes());
        assert_eq!(rt; (param.offset, param.class), (*offset, *class));
    }
}

/// Whether these are the functions of a side.
fn check_side(rt: &impl Abort, functions: &[Function], rows: &[Row]) {
    assert_eq!(rt; functions.len(), rows.len());
    for (f, row) in functions.iter().zip(rows) {
        check_function(rt, f, row);
    }
}

const LONG: Plain = Plain {
    size: 8,
    integer: true,
    signed: false,
};

const BYTE: Plain = Plain { size: 1, ..LONG };

const INT: Plain = Plain {
    size: 4,
    signed: true,
    ..LONG
};

const SHORT: Plain = Plain { size: 2, ..INT };

const OPAQUE: Plain = Plain {
    size: 4,
    integer: false,
    ..LONG
};

const BUFFER: Class = Class::Buffer {
    way: Passing::Inward,
    size: Amount::Param(1),
    count: Amount::Number(1),
    unit: 1,
};

const OUTWARD: Class = Class::Buffer {
    way: Passing::Outward,
    size: Amount::Number(8),
    count: Amount::Param(5),
    unit: 1,
};

const WIDE: Class = Class::Text {
    way: Passing::Both,
    unit: 4,
};

const ARRAY: Class = Class::Fixed {
    way: Passing::Inward,
    length: 24,
    unit: 4,
};

const PAIR: Class = Class::Buffer {
    way: Passing::Inward,
    size: Amount::Number(16),
    count: Amount::Number(1),
    unit: 16,
};

const TEXT: Class = Class::Text {
    way: Passing::Inward,
    unit: 1,
};

const NUMBERS: Class = Class::Fixed {
    way: Passing::Outward,
    length: 16,
    unit: 4,
};

const WAITERS: Class = Class::Buffer {
    way: Passing::Inward,
    size: Amount::Number(8),
    count: Amount::Param(1),
    unit: 8,
};

/// Texts with the functions of their trusted and their untrusted side.
const INTERFACES: [(&[u8], &[Row], &[Row]); 3] = [
    (
        b"enclave { trusted { public uint64_t f([in, size=len] const uint8_t* buf, size_t len); }; };",
        &[(
            true,
            false,
            Some(LONG),
            24,
            &[],
            &[("buf", 8, BUFFER), ("len", 16, Class::Plain(LONG))],
        )],
        &[],
    ),
    (
        b"enclave { trusted { public uint8_t g([in, out, wstring] wchar_t* w, [user_check] void* u, [in] int a[2][3], float x, [out, size=8, count=n] char* b, short n); void h(); }; };",
        &[
            (
                true,
                false,
                Some(BYTE),
                64,
                &[],
                &[
                    ("w", 8, WIDE),
                    ("u", 24, Class::UserCheck),
                    ("a", 32, ARRAY),
                    ("x", 40, Class::Plain(OPAQUE)),
                    ("b", 48, OUTWARD),
                    ("n", 56, Class::Plain(SHORT)),
                ],
            ),
            (false, false, None, 0, &[], &[]),
        ],
        &[],
    ),
    (
        b"enclave { enum mode { OFF, ON = 5 }; struct pair { int a; long b; }; trusted { void other(); public void run([in] struct pair* p, enum mode m); }; untrusted { void ocall_print_string([in, string] const char* str) allow(run, other); [cdecl] void sgx_oc_cpuidex([out] int cpuinfo[4], int leaf, int subleaf); int sgx_thread_set_multiple_untrusted_events_ocall([in, count = total] const void **waiters, size_t total) transition_using_threads; }; };",
        &[
            (false, false, None, 0, &[], &[]),
            (
                true,
                false,
                None,
                16,
                &[],
                &[("p", 0, PAIR), ("m", 8, Class::Plain(OPAQUE))],
            ),
        ],
        &[
            (false, false, None, 8, &[1, 0], &[("str", 0, TEXT)]),
            (
                false,
                false,
                None,
                16,
                &[],
                &[
                    ("cpuinfo", 0, NUMBERS),
                    ("leaf", 8, Class::Plain(INT)),
                    ("subleaf", 12, Class::Plain(INT)),
                ],
            ),
            (
                false,
                true,
                Some(INT),
                24,
                &[],
                &[("waiters", 8, WAITERS), ("total", 16, Class::Plain(LONG))],
            ),
        ],
    ),
];

#[test]
fn classes_fields_and_frames(rt: HostRuntime) -> Result<(), Fail> {
    for (text, ecalls, ocalls) in &INTERFACES {
        assert!(rt; text.len() < 1000);
        let interface = checked(rt.alloc(), text, true)??;
        check_side(&rt, interface.ecalls.as_slice(), ecalls);
        check_side(&rt, interface.ocalls.as_slice(), ocalls);
    }
    Ok(())
}

/// The code and the column of a file's first broken rule, or zeros.
fn first_broken(alloc: Global, text: &[u8], runner: bool) -> Result<(u8, u32), Fail>
    requires { length text.now ≤ max_file_size }
{
    match checked(alloc, text, runner)? {
        Ok(_) => Ok((0, 0)),
        Err(RuleFault::Rule(fault)) => Ok((fault.code, fault.column)),
        Err(RuleFault::Memory) => Err(Fail::new("out of memory")),
    }
}

/// Texts, whether they are for the runner, and their first broken rule.
const BROKEN: [(&[u8], bool, (u8, u32)); 8] = [
    (
        b"enclave { trusted { public void f([isptr, isary] T p); }; };",
        true,
        (37, 52),
    ),
    (
        b"enclave { trusted { public void f([in, isptr] T* p); }; };",
        true,
        (37, 50),
    ),
    (
        b"enclave { trusted { public void f([in, isary] T p[3]); }; };",
        true,
        (37, 49),
    ),
    (
        b"enclave { trusted { public void f([in, isptr] T p); }; };",
        true,
        (38, 49),
    ),
    (
        b"enclave { trusted { public void f([isary] T p); }; };",
        true,
        (38, 45),
    ),
    (b"enclave { trusted { public L f(); }; };", true, (38, 30)),
    (
        b"enclave { trusted { public void f([in, isptr] T p); }; };",
        false,
        (0, 0),
    ),
    (
        b"enclave { trusted { public void f([isary, user_check] T p); }; };",
        false,
        (0, 0),
    ),
];

#[test]
fn rules_of_foreign_types(rt: HostRuntime) -> Result<(), Fail> {
    for (text, runner, wanted) in &BROKEN {
        assert!(rt; text.len() < 1000);
        assert_eq!(rt;
            first_broken(rt.alloc(), text, *runner)?,
            *wanted,
            "{text:?}"
        );
    }
    Ok(())
}
