//! The lexeme at the front of a text.

ghost use Rattle.std.specs.Prelude.{◌≡◌, ◌≢◌, ◌+◌, ◌<◌, ◌≤◌, ◌^◌, ℕ, length, drop, IfSome, IsTrue, not, ◌==◌, ◌&&◌, slice_index};
ghost use Rattle.std.specs.List.{prefix_len};
ghost use Rattle.std.specs.Char.{is_ascii_digit, is_ascii_hexdigit};
ghost use Rattle.edl_lexer.specs.Lexemes as spec;
ghost use Rattle.edl_lexer.specs.declared.TokenKind.{TokenKind};

use crate::TokenKind;
use sgx_base::read_number;

/// Why there is no lexeme.
#[derive(Clone, Copy, Debug, PartialEq, Eq)]
pub enum Flaw {
    BadByte,
    OpenComment,
    OpenText,
    NumberTooWide,
    TooManyTokens,
}

/// A gap (a blank or a comment) or a token, of so many bytes, or none.
#[derive(Clone, Copy, Debug, PartialEq, Eq)]
pub enum Lexeme {
    Gap(usize),
    Piece(TokenKind, usize),
    No(Flaw),
}

/// What the first byte of a lexeme says of it.
#[derive(Clone, Copy, Debug, PartialEq, Eq)]
pub enum Class {
    Blank,
    Letter,
    Digit,
    Quote,
    Slash,
    Marking,
    Other,
}

fn class_of(b: u8) -> Class
    ensures { result ≡ spec.class_of b }
{
    if matches!(b, b' ' | b'\t' | b'\n' | b'\x0c' | b'\r') {
        Class::Blank
    } else if b.is_ascii_alphabetic() || b == b'_' {
        Class::Letter
    } else if b.is_ascii_digit() {
        Class::Digit
    } else if b == b'"' {
        Class::Quote
    } else if b == b'/' {
        Class::Slash
    } else if is_mark(b) {
        Class::Marking
    } else {
        Class::Other
    }
}

fn is_mark(b: u8) -> bool
    ensures { result ≡ spec.is_mark b }
{
    matches!(
        b,
        b'{' | b'}' | b'(' | b')' | b'[' | b']' | b';' | b',' | b'=' | b'*' | b'-'
    )
}

fn is_word(b: u8) -> bool
    ensures { result ≡ spec.is_word b }
{
    b.is_ascii_alphabetic() || b == b'_' || b.is_ascii_digit()
}

fn word_len(bytes: &[u8]) -> usize
    ensures value { result ≡ prefix_len spec.is_word bytes.now }
    ensures within { result ≤ length bytes.now }
{
    let mut len = 0;
    while len < bytes.len() && is_word(bytes[len]) {
        len += 1;
    }
    len
}

fn digits_len(bytes: &[u8]) -> usize
    ensures value { result ≡ prefix_len is_ascii_digit bytes.now }
    ensures within { result ≤ length bytes.now }
{
    let mut len = 0;
    while len < bytes.len() && bytes[len].is_ascii_digit() {
        len += 1;
    }
    len
}

fn hexdigits_len(bytes: &[u8]) -> usize
    ensures value { result ≡ prefix_len is_ascii_hexdigit bytes.now }
    ensures within { result ≤ length bytes.now }
{
    let mut len = 0;
    while len < bytes.len() && bytes[len].is_ascii_hexdigit() {
        len += 1;
    }
    len
}

fn line_len(bytes: &[u8]) -> usize
    ensures value { result ≡ prefix_len (λ b. not (b == 10)) bytes.now }
    ensures within { result ≤ length bytes.now }
{
    let mut len = 0;
    while len < bytes.len() && bytes[len] != b'\n' {
        len += 1;
    }
    len
}

fn inside_len(bytes: &[u8]) -> usize
    ensures value { result ≡ prefix_len spec.is_inside_text bytes.now }
    ensures within { result ≤ length bytes.now }
{
    let mut len = 0;
    while len < bytes.len() && bytes[len] != b'"' && bytes[len] != b'\n' {
        len += 1;
    }
    len
}

fn closes(first: u8, second: u8) -> bool
    ensures { result ≡ (first == 42 && second == 47) }
{
    first == b'*' && second == b'/'
}

/// How many bytes there are up to the end of the first `*/`.
fn close_len(bytes: &[u8]) -> Option<usize>
    ensures value { result ≡ spec.close_len bytes.now }
    ensures within { IfSome result (λ len. len ≤ length bytes.now) }
{
    let mut at = 0;
    while at + 1 < bytes.len() {
        if closes(bytes[at], bytes[at + 1]) {
            return Some(at + 2);
        }
        at += 1;
    }
    None
}

/// The text whose quote stood before these bytes.
fn text(bytes: &[u8]) -> Lexeme
    requires { length bytes.now < 2 ^ 32 }
    ensures value { result ≡ spec.text bytes.now }
    ensures within { spec.len_of result ≤ length bytes.now + 1 }
{
    let inside = inside_len(bytes);
    if inside < bytes.len() && bytes[inside] == b'"' {
        Lexeme::Piece(TokenKind::Text, inside + 2)
    } else {
        Lexeme::No(Flaw::OpenText)
    }
}

/// A comment, or none, at the front of bytes that begin with a slash.
fn comment(bytes: &[u8]) -> Lexeme
    requires { slice_index bytes.now 0 ≡ 47 }
    ensures value { result ≡ spec.comment bytes.now }
    ensures within { spec.len_of result ≤ length bytes.now }
{
    if bytes.len() >= 2 && bytes[1] == b'/' {
        Lexeme::Gap(line_len(bytes))
    } else if bytes.len() >= 2 && bytes[1] == b'*' {
        match close_len(&bytes[2..]) {
            Some(len) => Lexeme::Gap(2 + len),
            None => Lexeme::No(Flaw::OpenComment),
        }
    } else {
        Lexeme::No(Flaw::BadByte)
    }
}

fn has_hex_front(bytes: &[u8]) -> bool
    ensures { result ≡ spec.has_hex_front bytes.now }
{
    bytes.len() >= 3 && bytes[0] == b'0' && bytes[1] == b'x' && bytes[2].is_ascii_hexdigit()
}

/// How many bytes the longest number at the front has.
fn number_len(bytes: &[u8]) -> usize
    ensures value { result ≡ spec.number_len bytes.now }
    ensures within { result ≤ length bytes.now }
{
    if has_hex_front(bytes) {
        2 + hexdigits_len(&bytes[2..])
    } else {
        digits_len(bytes)
    }
}

/// The number at the front of bytes that begin with a digit.
fn number(bytes: &[u8]) -> Lexeme
    requires digit { IsTrue (is_ascii_digit (slice_index bytes.now 0)) }
    ensures value { result ≡ spec.number bytes.now }
    ensures within { spec.len_of result ≤ length bytes.now }
    ensures gap { (len : ℕ) → result ≢ Lexeme.Gap len }
    ensures piece { (kind : TokenKind) (len : ℕ) → result ≡ Lexeme.Piece kind len → 0 < len }
{
    let len = number_len(bytes);
    match read_number(&bytes[..len]) {
        Some(value) => Lexeme::Piece(TokenKind::Number(value), len),
        None => Lexeme::No(Flaw::NumberTooWide),
    }
}

/// The lexeme at the front.
pub fn lexeme_after(after_number: bool, bytes: &[u8]) -> Lexeme
    requires some { 0 < length bytes.now }
    requires short { length bytes.now < 2 ^ 31 }
    ensures value { result ≡ spec.lexeme_after after_number (slice_index bytes.now 0) (drop 1 bytes.now) }
    ensures within { spec.len_of result ≤ length bytes.now }
    ensures gap { (len : ℕ) → result ≡ Lexeme.Gap len → 0 < len }
    ensures piece { (kind : TokenKind) (len : ℕ) → result ≡ Lexeme.Piece kind len → 0 < len }
{
    let b = bytes[0];
    let class = class_of(b);
    if after_number && class == Class::Letter {
        return Lexeme::No(Flaw::BadByte);
    }
    match class {
        Class::Blank => Lexeme::Gap(1),
        Class::Letter => Lexeme::Piece(TokenKind::Name, 1 + word_len(&bytes[1..])),
        Class::Digit => number(bytes),
        Class::Quote => text(&bytes[1..]),
        Class::Slash => comment(bytes),
        Class::Marking => Lexeme::Piece(TokenKind::Mark(b), 1),
        Class::Other => Lexeme::No(Flaw::BadByte),
    }
}
