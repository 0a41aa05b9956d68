//! Places in a file.

ghost use Rattle.std.specs.Prelude.{◌≡◌, ◌+◌, ◌<◌, ◌≤◌, ◌^◌, length, take};
ghost use Rattle.edl_lexer.specs.Lexing as spec;

/// How many bytes stand before, and the line and column, which count from 1.
#[derive(Clone, Copy, Debug, PartialEq, Eq)]
pub struct Place {
    pub offset: u32,
    pub line: u32,
    pub column: u32,
}

/// The place of the first lexeme, behind a byte order mark.
pub fn start(bytes: &[u8]) -> Place
    ensures value { result ≡ spec.after spec.opening (take (spec.mark_len bytes.now) bytes.now) }
    ensures offset { result.offset ≡ spec.mark_len bytes.now }
    ensures within { result.offset ≤ length bytes.now }
    ensures line { result.line ≤ result.offset + 1 }
    ensures column { result.column ≤ result.offset + 1 }
{
    let opening = Place {
        offset: 0,
        line: 1,
        column: 1,
    };
    let mark_len = if has_mark(bytes) { 3 } else { 0 };
    advance(opening, &bytes[..mark_len])
}

fn has_mark(bytes: &[u8]) -> bool
    ensures { result ≡ spec.has_mark bytes.now }
{
    bytes.len() >= 3 && bytes[0] == 0xef && bytes[1] == 0xbb && bytes[2] == 0xbf
}

fn step(at: Place, b: u8) -> Place
    requires offset { at.offset + 1 < 2 ^ 32 }
    requires line { at.line + 1 < 2 ^ 32 }
    requires column { at.column + 1 < 2 ^ 32 }
    ensures { result ≡ spec.step at b }
{
    if b == b'\n' {
        Place {
            offset: at.offset + 1,
            line: at.line + 1,
            column: 1,
        }
    } else {
        Place {
            offset: at.offset + 1,
            line: at.line,
            column: at.column + 1,
        }
    }
}

/// The place after these bytes.
pub fn advance(from: Place, bytes: &[u8]) -> Place
    requires offset { from.offset + length bytes.now < 2 ^ 32 }
    requires line { from.line + length bytes.now < 2 ^ 32 }
    requires column { from.column + length bytes.now < 2 ^ 32 }
    ensures { result ≡ spec.after from bytes.now }
{
    let mut at = from;
    for b in bytes {
        at = step(at, *b);
    }
    at
}
