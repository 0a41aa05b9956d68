//! Numbers, bytes, texts and names.

use sgx_base::{
    Name, Word, divisible, extended, little_endian_bytes, read_little_endian, read_number, rounded,
    terminated_length,
};
use std::test::Fail;

#[test]
fn words_and_names(rt: HostRuntime) -> Result<(), Fail> {
    let word = Word::new(rt.alloc(), "sum")?;
    assert_eq!(rt; word.text(), "sum");
    let name = Name::new(rt.alloc(), b"sum")?;
    assert_eq!(rt; name.bytes(), b"sum".as_slice());
    assert!(rt; name.is(b"sum"));
    assert!(rt; !name.is(b"su"));
    Ok(())
}

#[test]
fn bytes_and_sizes(rt: HostRuntime) {
    assert_eq!(rt; read_little_endian(&[0x34, 0x12]), 0x1234);
    assert_eq!(rt;
        read_little_endian(&little_endian_bytes(u64::MAX - 1)),
        u64::MAX - 1
    );
    assert_eq!(rt; extended(1, true, 0xff), u64::MAX);
    assert_eq!(rt; extended(1, false, 0xff), 0xff);
    assert_eq!(rt; extended(8, true, u64::MAX), u64::MAX);
    assert_eq!(rt; rounded(17), 32);
    assert_eq!(rt; rounded(u32::MAX), 0x1_0000_0000);
    assert!(rt; divisible(12, 4));
    assert!(rt; !divisible(3, 0));
    assert!(rt; divisible(0, 0));
}

#[test]
fn spelled_numbers(rt: HostRuntime) {
    for (text, number) in [
        (b"0".as_slice(), Some(0)),
        (b"007", Some(7)),
        (b"0x1F", Some(31)),
        (b"0x1f", Some(31)),
        (b"18446744073709551615", Some(u64::MAX)),
        (b"0xFFFFFFFFFFFFFFFF", Some(u64::MAX)),
        (b"", None),
        (b"0x", None),
        (b"0xg", None),
        (b"1x", None),
        (b"+1", None),
        (b"18446744073709551616", None),
        (b"0x10000000000000000", None),
    ] {
        assert_eq!(rt; read_number(text), number);
    }
}

#[test]
fn ends_of_strings(rt: HostRuntime) {
    for (text, unit, length) in [
        (b"ab\0\0".as_slice(), 1, Some(3)),
        (b"ab", 1, None),
        (&[1, 0, 0, 0, 0, 0, 0, 0, 5], 4, Some(8)),
        (&[1, 0, 0, 0, 0, 0, 0], 4, None),
    ] {
        assert_eq!(rt; terminated_length(text, unit), length);
    }
}
