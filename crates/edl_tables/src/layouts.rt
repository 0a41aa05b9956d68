//! Layouts as a C compiler gives them, of types and of fields one behind the other.

ghost use Rattle.std.specs.Prelude.{◌≤◌, length};
ghost use Rattle.sgx_base.specs.Stores.{max_file_size};

use crate::reading::{foreign, gathered};
use edl_layout::{Extent, FieldEnds, LayoutFault, Layouts, array_size, layout_of};
use std::alloc::{AllocError, Global};
use std::process::Abort;
use std::test::Fail;

/// A type `far`, and one of a standard type's name.
const FOREIGN: [(&[u8], u32, u32); 2] = [(b"far", 40, 16), (b"size_t", 3, 1)];

/// The layouts of a text.
fn layouts(alloc: Global, text: &[u8], lenient: bool) -> Result<Layouts, Fail>
    requires { length text.now ≤ max_file_size }
{
    let files = gathered(alloc, text)?;
    Ok(layout_of(alloc, &files, &foreign(alloc, &FOREIGN, lenient)?)?)
}

/// Whether the table has this layout of a name.
fn check_layout(
    rt: &impl Abort,
    table: &Layouts,
    name: &[u8],
    size: u32,
    align: u32,
    offsets: &[u32],
) {
    assert_eq!(rt; table.size(name), Some(size));
    assert_eq!(rt; table.align(name), Some(align));
    assert_eq!(rt; table.extent(name), Some(Extent { size, align }));
    let mut member = 0u32;
    for offset in offsets {
        assert_eq!(rt; table.offset(name, member), Some(*offset));
        assert!(rt; member < 100);
        member += 1;
    }
    assert_eq!(rt; table.offset(name, member), None);
}

/// Texts with the size, the alignment and the offsets of their type `s`.
const LAYOUTS: [(&[u8], u32, u32, &[u32]); 14] = [
    (
        b"enclave { struct s { char a; int b; short c; }; };",
        12,
        4,
        &[0, 4, 8],
    ),
    (
        b"enclave { union s { char c[5]; long l; }; };",
        8,
        8,
        &[0, 0],
    ),
    (
        b"enclave { struct s { char a; double d; }; };",
        16,
        8,
        &[0, 8],
    ),
    (
        b"enclave { struct s { char a; struct t b[2]; enum e c; uint16_t *p; }; struct t { short x; char y; }; enum e { A }; };",
        24,
        8,
        &[0, 2, 12, 16],
    ),
    (b"enclave { struct s { }; };", 0, 1, &[]),
    (
        b"enclave { struct s { char a[3]; short b; char c; }; };",
        8,
        2,
        &[0, 4, 6],
    ),
    (
        b"enclave { union s { char a[9]; int b; }; };",
        12,
        4,
        &[0, 0],
    ),
    (
        b"enclave { struct r { char a; int b; short c; }; struct s { r x; long long y; char z; }; };",
        32,
        8,
        &[0, 16, 24],
    ),
    (
        b"enclave { struct s { char a; wchar_t b; size_t c; int8_t d; uint64_t e; float f; }; };",
        40,
        8,
        &[0, 4, 8, 16, 24, 32],
    ),
    (
        b"enclave { struct s { int a[2][3]; char b; }; };",
        28,
        4,
        &[0, 24],
    ),
    (
        b"enclave { struct s { char a; union u b; short c; }; union u { char c[5]; long l; }; };",
        24,
        8,
        &[0, 8, 16],
    ),
    (
        b"enclave { struct s { char a; long b[0]; int c; }; };",
        16,
        8,
        &[0, 8, 8],
    ),
    (b"enclave { enum s { A, B }; };", 4, 4, &[]),
    (
        b"enclave { struct s { char a; far b; char c; }; };",
        64,
        16,
        &[0, 16, 56],
    ),
];

#[test]
fn layouts_are_those_of_c(rt: HostRuntime) -> Result<(), Fail> {
    for (text, size, align, offsets) in &LAYOUTS {
        assert!(rt; text.len() < 1000);
        let table = layouts(rt.alloc(), text, false)?;
        check_layout(&rt, &table, b"s", *size, *align, offsets);
    }
    Ok(())
}

const NAMES: &[u8] =
    b"enclave { struct s { char a; }; union s { long b; }; struct int8_t { int a; int b; }; struct open { hidden x; }; struct far { short x; }; };";

/// The layouts of names in that text.
const NAMED: [(&[u8], u32, u32, &[u32]); 5] = [
    (b"s", 1, 1, &[0]),
    (b"int8_t", 8, 4, &[0, 4]),
    (b"far", 2, 2, &[0]),
    (b"size_t", 8, 8, &[]),
    (b"uint16_t", 2, 2, &[]),
];

/// The names that have none there.
const NAMELESS: [&[u8]; 3] = [b"open", b"hidden", b"other"];

#[test]
fn names_mean_what_is_declared_first(rt: HostRuntime) -> Result<(), Fail> {
    assert!(rt; NAMES.len() < 1000);
    let table = layouts(rt.alloc(), NAMES, true)?;
    for (name, size, align, offsets) in &NAMED {
        check_layout(&rt, &table, name, *size, *align, offsets);
    }
    for name in NAMELESS {
        assert_eq!(rt;
            (table.size(name), table.align(name), table.offset(name, 0)),
            (None, None, None)
        );
    }
    Ok(())
}

/// The code and the column of the fault of a text of one line, where a name that is not declared is foreign, or zeros.
fn lenient_fault(alloc: Global, text: &[u8]) -> Result<(u8, u32), Fail>
    requires { length text.now ≤ max_file_size }
{
    let files = gathered(alloc, text)?;
    match layout_of(alloc, &files, &foreign(alloc, &FOREIGN, true)?) {
        Err(LayoutFault::Unknown(at) | LayoutFault::SelfHolding(at) | LayoutFault::TooLarge(at)) =>
            { Ok((at.code, at.column)) }
        Err(LayoutFault::Memory) => Err(Fail::new("out of memory")),
        Ok(_) => Ok((0, 0)),
    }
}

/// Texts with their fault.
const UNKNOWN: [(&[u8], (u8, u32)); 7] = [
    (b"enclave { struct s { t x; }; };", (0, 0)),
    (b"enclave { struct s { struct t x; }; };", (12, 29)),
    (
        b"enclave { trusted { public opaque f(opaque x); }; };",
        (0, 0),
    ),
    (
        b"enclave { trusted { public void f(struct opaque x); }; };",
        (12, 42),
    ),
    // An element counts as one byte.
    (
        b"enclave { trusted { public void f(opaque x[2147483647]); }; };",
        (0, 0),
    ),
    (
        b"enclave { trusted { public void f(opaque x[2147483648]); }; };",
        (14, 42),
    ),
    // A frame with such a type is never too large.
    (
        b"enclave { struct s { char a[1025]; }; trusted { void f(struct s x, opaque y); }; };",
        (0, 0),
    ),
];

#[test]
fn unknown_sizes_are_no_fault(rt: HostRuntime) -> Result<(), Fail> {
    for (text, wanted) in &UNKNOWN {
        assert!(rt; text.len() < 1000);
        assert_eq!(rt; lenient_fault(rt.alloc(), text)?, *wanted, "{text:?}");
    }
    Ok(())
}

/// A thousand structures of which each holds the one before, in this order or the other way round.
fn chain(alloc: Global, upwards: bool) -> Result<String, AllocError> {
    let mut text = String::from_str(alloc, "enclave { struct a0 { char x; }; ")?;
    for i in 0..1000u32 {
        let held = if upwards { i } else { 999 - i };
        let holder = held + 1;
        text.push_str(format!(in alloc; "struct a{holder} {{ struct a{held} x; }}; ")?.as_str())?;
    }
    text.push_str("};")?;
    Ok(text)
}

#[test]
fn a_chain_is_laid_out_in_either_order(rt: HostRuntime) -> Result<(), Fail> {
    for upwards in [true, false] {
        let text = chain(rt.alloc(), upwards)?;
        assert!(rt; text.len() < 1_000_000);
        let table = layouts(rt.alloc(), text.as_bytes(), false)?;
        assert_eq!(rt; table.size(b"a1000"), Some(1));
    }
    Ok(())
}

/// Sizes and alignments of fields, with their offset, and the size of the structure up to them.
const FIELDS: [(u32, u32, u64, u64); 8] = [
    (1, 1, 0, 1),
    (4, 4, 4, 8),
    (2, 2, 8, 12),
    (1, 1, 10, 12),
    (8, 8, 16, 24),
    (1, 1, 24, 32),
    (0, 1, 25, 32),
    (4, 16, 32, 48),
];

#[test]
fn fields_one_behind_the_other(rt: HostRuntime) {
    assert_eq!(rt; Extent::ADDRESS, Extent { size: 8, align: 8 });
    let mut ends = FieldEnds::new();
    for (size, align, offset, whole) in FIELDS {
        assert_eq!(rt;
            (ends.push(Extent { size, align }), ends.size()),
            (offset, whole)
        );
    }
    let mut last = FieldEnds {
        end: u64::MAX - 2,
        align: 1,
    };
    let field = Extent { size: 4, align: 4 };
    assert_eq!(rt; (last.push(field), last.size()), (u64::MAX, u64::MAX));
}

const MOST: Option<u64> = Some(u64::MAX);

/// Sizes of elements and dimensions, with the size of the array.
const ARRAYS: [(u32, &[Option<u64>], u64); 8] = [
    (
        1,
        &[MOST, MOST, MOST, MOST, MOST, MOST, MOST, MOST],
        u64::MAX,
    ),
    (0, &[MOST, MOST, MOST, MOST, MOST, MOST, MOST, MOST], 0),
    (
        u32::MAX,
        &[MOST, MOST, MOST, Some(0), MOST, MOST, MOST, MOST],
        0,
    ),
    (3, &[], 3),
    (3, &[Some(5), None], 0),
    (8, &[Some(1 << 28)], 1 << 31),
    // 2 ^ 64 + 8
    (8, &[Some((1 << 61) + 1)], u64::MAX),
    (2, &[Some(3), Some(5)], 30),
];

#[test]
fn sizes_of_arrays_do_not_wrap(rt: HostRuntime) {
    for (size, dims, wanted) in &ARRAYS {
        assert_eq!(rt; array_size(*size, dims), *wanted);
    }
}
