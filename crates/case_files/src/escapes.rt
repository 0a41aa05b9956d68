//! The bytes that a text stands for.

ghost use Rattle.std.specs.Prelude.{◌≡◌, ◌≢◌, ◌≤◌, ◌<◌, ◌+◌, length, All, IfOk, IfSome};

use crate::faults::Flaw;
use crate::numbers::{cut_at_blank, read_span};
use std::alloc::Global;

const BACKSLASH: u8 = b'\\';

/// The value of a hexadecimal digit.
fn digit(byte: u8) -> Result<u8, Flaw>
    ensures { IfOk result (λ value. value < 16) }
{
    match byte {
        b'0'..=b'9' => Ok(byte - b'0'),
        b'a'..=b'f' => Ok(byte - b'a' + 10),
        b'A'..=b'F' => Ok(byte - b'A' + 10),
        _ => Err(Flaw::Escape),
    }
}

/// Writes what stands for the escape whose text follows a backslash, and gives the escape's length in that text.
fn write_escape(out: &mut Vec<u8>, text: &[u8], number: u64) -> Result<usize, Flaw>
    ensures within { IfOk result (λ len. len ≤ length text.now) }
{
    match text {
        [b'\n' | b'-', ..] => Ok(1),
        [b'n', ..] => {
            out.push(b'\n')?;
            Ok(1)
        }
        [b'#', ..] => {
            let alloc = *out.allocator();
            out.extend_from_slice(format!(in alloc; "{number}")?.as_bytes())?;
            Ok(1)
        }
        [b'x', high, low, ..] => {
            out.push(digit(*high)? * 16 + digit(*low)?)?;
            Ok(3)
        }
        _ => Err(Flaw::Escape),
    }
}

/// Writes the bytes of a text without repetitions.
fn write_once(out: &mut Vec<u8>, text: &[u8], number: u64) -> Result<(), Flaw> {
    let mut at = 0;
    while at < text.len() {
        let byte = text[at];
        at += 1;
        if byte == BACKSLASH {
            at += write_escape(out, &text[at..], number)?;
        } else {
            out.push(byte)?;
        }
    }
    Ok(())
}

/// How many bytes stand before the end of a repetition.
fn pattern_len(text: &[u8]) -> Option<usize>
    ensures { IfSome result (λ len. len + 2 ≤ length text.now) }
{
    let mut at = 0;
    while at + 1 < text.len() {
        if text[at] == BACKSLASH && text[at + 1] == b')' {
            return Some(at);
        }
        at += 1;
    }
    None
}

/// Writes a repetition, of which the text is what follows `\(`, and gives its length in that text.
fn write_repetition(out: &mut Vec<u8>, text: &[u8]) -> Result<usize, Flaw>
    ensures within { IfOk result (λ len. len ≤ length text.now) }
{
    let Some(len) = pattern_len(text) else {
        return Err(Flaw::Escape);
    };
    let (span, pattern) = cut_at_blank(&text[..len]);
    let Some(span) = read_span(span) else {
        return Err(Flaw::Number);
    };
    for number in span.first..=span.last {
        write_once(out, pattern, number)?;
    }
    Ok(len + 2)
}

/// The bytes that a text stands for, where `\#` stands for the number.
///
/// A byte other than a backslash stands for itself. `\n` is a line feed and `\xHH` any byte; a backslash at the end of
/// a line takes its line feed away, and `\-` is nothing. `\(FIRST..LAST TEXT\)` is the text once for each of these
/// numbers, which `\#` is there.
pub fn expanded(alloc: Global, text: &[u8], number: u64) -> Result<Vec<u8>, Flaw>
    ensures as_they_are { All (λ byte. byte ≢ BACKSLASH) text.now → IfOk result (λ bytes. bytes.items ≡ text.now) }
{
    let mut out = Vec::new(alloc);
    let mut at = 0;
    while at < text.len() {
        let byte = text[at];
        at += 1;
        if byte != BACKSLASH {
            out.push(byte)?;
        } else if at < text.len() && text[at] == b'(' {
            at += 1;
            at += write_repetition(&mut out, &text[at..])?;
        } else {
            at += write_escape(&mut out, &text[at..], number)?;
        }
    }
    Ok(out)
}
