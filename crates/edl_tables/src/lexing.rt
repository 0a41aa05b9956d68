//! Texts with their tokens.

use edl_lexer::TokenKind::{Mark, Name, Number, Text};
use edl_lexer::{Token, TokenKind, lex};
use std::process::Abort;
use std::test::Fail;

/// A token: its kind, the offset at which it begins and the one behind it, its line and its column.
type Row = (TokenKind, u32, u32, u32, u32);

const TEXTS: [(&[u8], &[Row]); 10] = [
    (b"", &[]),
    (b" \t\r\n\x0c", &[]),
    (b"// all of it", &[]),
    (b"\xef\xbb\xbfa", &[(Name, 3, 4, 1, 4)]),
    (
        b"enclave {\n a=0x1F/* b */\"c\"};//d",
        &[
            (Name, 0, 7, 1, 1),
            (Mark(b'{'), 8, 9, 1, 9),
            (Name, 11, 12, 2, 2),
            (Mark(b'='), 12, 13, 2, 3),
            (Number(31), 13, 17, 2, 4),
            (Text, 24, 27, 2, 15),
            (Mark(b'}'), 27, 28, 2, 18),
            (Mark(b';'), 28, 29, 2, 19),
        ],
    ),
    (b"/* *\n/*\xff\n**/ b", &[(Name, 13, 14, 3, 5)]),
    (
        b"18446744073709551615 0xffffFFFFffffFFFF",
        &[
            (Number(u64::MAX), 0, 20, 1, 1),
            (Number(u64::MAX), 21, 39, 1, 22),
        ],
    ),
    (b"\"\xc3\x28/\"", &[(Text, 0, 5, 1, 1)]),
    (b"_a1Z\r\n//\x80\n", &[(Name, 0, 4, 1, 1)]),
    (
        b"-*007",
        &[
            (Mark(b'-'), 0, 1, 1, 1),
            (Mark(b'*'), 1, 2, 1, 2),
            (Number(7), 2, 5, 1, 3),
        ],
    ),
];

/// Whether the tokens are those of the rows.
fn check_tokens(rt: &impl Abort, tokens: &[Token], rows: &[Row]) {
    assert_eq!(rt; tokens.len(), rows.len());
    for (t, row) in tokens.iter().zip(rows) {
        assert_eq!(rt; (t.kind, t.from, t.upto, t.line, t.column), *row);
    }
}

#[test]
fn tokens_and_places(rt: HostRuntime) -> Result<(), Fail> {
    for (text, rows) in &TEXTS {
        assert!(rt; text.len() < 1000);
        check_tokens(&rt, lex(rt.alloc(), 0, text)?.as_slice(), rows);
    }
    Ok(())
}
