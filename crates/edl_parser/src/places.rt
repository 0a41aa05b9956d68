//! The place of a fault.

ghost use Rattle.std.specs.Prelude.{◌≡◌, ◌+◌, ◌<◌, ◌≤◌, ◌^◌, ℕ, length};
ghost use Rattle.sgx_base.specs.Stores.{max_file_size};
ghost use Rattle.edl_lexer.specs.Lexing as lexing;
ghost use Rattle.edl_grammar.specs.Sentence as sentence;
ghost use Rattle.edl_parser.specs.Spots.{place_at};

use edl_lexer::Token;
use sgx_base::Fault;

/// A line and a column, which count from 1.
#[derive(Clone, Copy, Debug, PartialEq, Eq)]
struct Spot {
    line: u32,
    column: u32,
}

/// The spot behind one more byte.
fn next(at: Spot, byte: u8) -> Spot
    requires line { at.line + 1 < 2 ^ 32 }
    requires column { at.column + 1 < 2 ^ 32 }
    ensures place { (n : ℕ) → lexing.step (place_at n at) byte ≡ place_at (n + 1) result }
    ensures line { result.line ≤ at.line + 1 }
    ensures column { result.column ≤ at.column + 1 }
{
    if byte == b'\n' {
        Spot {
            line: at.line + 1,
            column: 1,
        }
    } else {
        Spot {
            line: at.line,
            column: at.column + 1,
        }
    }
}

/// The fault with this code behind the last byte.
fn fault_at_end(file: u32, bytes: &[u8], code: u8) -> Fault
    requires { length bytes.now ≤ max_file_size }
    ensures { result ≡ lexing.fault_at file (lexing.after lexing.opening bytes.now) code }
{
    let mut at = Spot { line: 1, column: 1 };
    for byte in bytes {
        at = next(at, *byte);
    }
    Fault {
        file,
        line: at.line,
        column: at.column,
        code,
    }
}

/// The fault with this code at a token, or at the end of the file behind the last.
pub fn fault(file: u32, bytes: &[u8], tokens: &[Token], token: usize, code: u8) -> Fault
    requires { length bytes.now ≤ max_file_size }
    ensures { result ≡ sentence.fault file bytes.now tokens.now token code }
{
    match tokens.get(token) {
        Some(token) => Fault {
            file,
            line: token.line,
            column: token.column,
            code,
        },
        None => fault_at_end(file, bytes, code),
    }
}
