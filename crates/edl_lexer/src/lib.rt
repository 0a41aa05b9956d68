//! The tokens of an interface file, each with its place, or the file's first lexical fault.
#![tactic(auto)]

ghost use Rattle.std.specs.Prelude.{◌≡◌, ◌≤◌, length, IfOk, IfErr, Ok};
ghost use Rattle.sgx_base.specs.Outcome.{OrMemory};
ghost use Rattle.sgx_base.specs.Stores.{max_file_size};
ghost use Rattle.edl_lexer.specs.Bounds.{LieIn, AreInOrder};
ghost use Rattle.edl_lexer.specs.Division.{AreTokensOf, HasNoTokens, DivisionIsUnique};
ghost use Rattle.edl_lexer.specs.FirstFault.{HasLexFault, FaultIsUnique};
ghost use Rattle.edl_lexer.specs.Lexing as spec;
ghost use Rattle.edl_lexer.specs.declared.LexFault.TheVariants.{Memory};

mod place;
mod scan;

use place::{Place, advance, start};
use scan::{Flaw, Lexeme, lexeme_after};
use sgx_base::Fault;
use std::alloc::{AllocFailed, Global};
use thiserror::Error;

/// What a token is.
#[derive(Clone, Copy, Debug, PartialEq, Eq)]
pub enum TokenKind {
    /// A name or a reserved word.
    Name,
    /// A number, by its value.
    Number(u64),
    /// A text with its quotes.
    Text,
    /// A mark, by its byte.
    Mark(u8),
}

/// A token of a file. Its spelling is the bytes from `from` to before `upto`.
#[derive(Clone, Copy, Debug, PartialEq, Eq)]
pub struct Token {
    pub kind: TokenKind,
    pub from: u32,
    pub upto: u32,
    /// The line, from 1.
    pub line: u32,
    /// The column, from 1, in bytes.
    pub column: u32,
}

/// Why a file has no tokens: its first lexical fault, or want of memory.
#[derive(Debug, Drop, Error)]
pub enum LexFault {
    #[error("byte not allowed")]
    BadByte(Fault),
    #[error("comment not closed")]
    OpenComment(Fault),
    #[error("text not closed")]
    OpenText(Fault),
    #[error("number too wide")]
    NumberTooWide(Fault),
    #[error("too many tokens")]
    TooManyTokens(Fault),
    #[error("out of memory")]
    Memory,
}

impl From<AllocFailed<Token>> for LexFault {
    ghost from_gives = { λ _ fault. fault ≡ Memory };

    fn from(_: AllocFailed<Token>) -> LexFault {
        LexFault::Memory
    }
}

/// The most tokens that a file may have.
const MAX_TOKENS: usize = 65536;

fn fault_of(file: u32, at: Place, flaw: Flaw) -> LexFault
    ensures { result ≡ spec.fault_of file at flaw }
{
    let fault = |code: u8| Fault {
        file,
        line: at.line,
        column: at.column,
        code,
    };
    match flaw {
        Flaw::BadByte => LexFault::BadByte(fault(1)),
        Flaw::OpenComment => LexFault::OpenComment(fault(2)),
        Flaw::OpenText => LexFault::OpenText(fault(3)),
        Flaw::NumberTooWide => LexFault::NumberTooWide(fault(4)),
        Flaw::TooManyTokens => LexFault::TooManyTokens(fault(5)),
    }
}

fn is_number(kind: TokenKind) -> bool
    ensures { result ≡ spec.is_number kind }
{
    matches!(kind, TokenKind::Number(_))
}

/// The tokens of the file of this number, in order.
pub fn lex(alloc: Global, file: u32, bytes: &[u8]) -> Result<Vec<Token>, LexFault>
    requires { length bytes.now ≤ max_file_size }
    ensures tokens { IfOk result (λ tokens. spec.lexing file bytes.now ≡ Ok tokens.items) }
    ensures fault { IfErr result (OrMemory Memory (HasLexFault file bytes.now)) }
    ensures divided { IfOk result (λ tokens. AreTokensOf bytes.now tokens.items) }
    ensures within { IfOk result (λ tokens. LieIn bytes.now tokens.items 0) }
    ensures in_order { IfOk result (λ tokens. AreInOrder 0 tokens.items) }
    ensures refused { IfErr result (OrMemory Memory (λ _. HasNoTokens bytes.now)) }
{
    let mut tokens = Vec::new(alloc);
    let mut at = start(bytes);
    let mut after_number = false;
    while (at.offset as usize) < bytes.len() {
        let rest = &bytes[at.offset as usize..];
        match lexeme_after(after_number, rest) {
            Lexeme::Gap(len) => {
                at = advance(at, &rest[..len]);
                after_number = false;
            }
            Lexeme::Piece(kind, len) => {
                if tokens.len() == MAX_TOKENS {
                    return Err(fault_of(file, at, Flaw::TooManyTokens));
                }
                tokens.push(Token {
                    kind,
                    from: at.offset,
                    upto: at.offset + len as u32,
                    line: at.line,
                    column: at.column,
                })?;
                at = advance(at, &rest[..len]);
                after_number = is_number(kind);
            }
            Lexeme::No(flaw) => return Err(fault_of(file, at, flaw)),
        }
    }
    Ok(tokens)
}

/// A text is divided in one way alone, longest first, and has one first fault.
pub fn division_is_unique()
    ensures division { DivisionIsUnique }
    ensures fault { FaultIsUnique }
{}
