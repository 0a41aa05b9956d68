//! The tokens that are left, and how one of them is taken.

ghost use Rattle.std.specs.Prelude.{◌≡◌, ◌<◌, ◌^◌, length};
ghost use Rattle.std.specs.List.{list_any};
ghost use Rattle.std.specs.Str.{bytes_eq};
ghost use Rattle.edl_lexer.specs.Bounds.{LieIn};
ghost use Rattle.edl_grammar.specs.Parser as parser;
ghost use Rattle.edl_parser.specs.Reads.{Reads, then_mark, closed};
ghost use Rattle.edl_grammar.specs.Symbols.{symbols, is_reserved, file_words, type_words, number_words};

use edl_grammar::NameAt;
use edl_lexer::{Token, TokenKind};
use sgx_base::Name;
use std::alloc::{AllocError, Global};
use std::marker::Model;

/// Why a function stops. Where a token is unexpected the cursor stands at it.
#[derive(Debug, Drop)]
pub enum Stop {
    Unexpected,
    Memory,
}

impl From<AllocError> for Stop {
    ghost use Rattle.std.specs.Prelude.{◌≡◌};
    ghost use Rattle.edl_parser.specs.declared.cursor.Stop.TheVariants.{Memory};

    ghost from_gives = { λ _ e. e ≡ Memory };

    fn from(_: AllocError) -> Stop {
        Stop::Memory
    }
}

/// Whether the bytes are the same.
fn is(word: &[u8], spelling: &[u8]) -> bool
    ensures { result ≡ bytes_eq word.now spelling.now }
{
    word == spelling
}

fn is_file_word(word: &[u8]) -> bool
    ensures { result ≡ list_any (bytes_eq word.now) file_words }
{
    is(word, b"enclave")
        || is(word, b"include")
        || is(word, b"from")
        || is(word, b"import")
        || is(word, b"trusted")
        || is(word, b"untrusted")
        || is(word, b"public")
        || is(word, b"allow")
        || is(word, b"transition_using_threads")
}

fn is_type_word(word: &[u8]) -> bool
    ensures { result ≡ list_any (bytes_eq word.now) type_words }
{
    is(word, b"enum")
        || is(word, b"struct")
        || is(word, b"union")
        || is(word, b"const")
        || is(word, b"void")
}

fn is_number_word(word: &[u8]) -> bool
    ensures { result ≡ list_any (bytes_eq word.now) number_words }
{
    is(word, b"char")
        || is(word, b"short")
        || is(word, b"int")
        || is(word, b"long")
        || is(word, b"signed")
        || is(word, b"unsigned")
        || is(word, b"float")
        || is(word, b"double")
}

/// Whether the word is none that may be a name.
#[tactic(auto, using(edl_grammar::proofs::Counting::any_of_three))]
fn is_reserved_word(word: &[u8]) -> bool
    ensures { result ≡ is_reserved word.now }
{
    is_file_word(word) || is_type_word(word) || is_number_word(word)
}

/// The tokens that are left, which contracts see as their symbols.
#[derive(Drop)]
pub struct Cursor<'a> {
    bytes: &'a [u8],
    tokens: &'a [Token],
    number: u32,
}

impl<'a> Model for Cursor<'a> {
    ghost use Rattle.std.specs.Prelude.{List};
    ghost use Rattle.edl_grammar.specs.Symbols.{Lexed, symbols_from};
    ghost use Rattle.edl_lexer.specs.Bounds.{LieIn};

    ghost Value = { List Lexed };

    ghost view = { λ c. symbols_from c.number c.bytes.now c.tokens.now };

    ghost invariant = { λ c. LieIn c.bytes.now c.tokens.now c.number };
}

impl<'a> Cursor<'a> {
    pub fn new(bytes: &'a [u8], tokens: &'a [Token]) -> Cursor<'a>
        requires { LieIn bytes.now tokens.now 0 }
        ensures { result ≡ symbols bytes.now tokens.now }
    {
        Cursor {
            bytes,
            tokens,
            number: 0,
        }
    }
}

impl Cursor<'_> {
    /// How many tokens are left.
    #[tactic(auto, using(edl_grammar::proofs::Counting::length_symbols))]
    pub fn len(&self) -> usize
        ensures value { result ≡ length self.now }
        ensures small { result < 2 ^ 32 }
    {
        self.tokens.len()
    }

    pub fn sees_word(&self, word: &[u8]) -> bool
        ensures { result ≡ parser.sees (parser.is_spelled word.now) self.now }
    {
        let tokens = self.tokens;
        match tokens {
            [token, ..] => match token.kind {
                TokenKind::Name => is(&self.bytes[token.from as usize..token.upto as usize], word),
                _ => false,
            },
            [] => false,
        }
    }

    pub fn sees_mark(&self, mark: u8) -> bool
        ensures { result ≡ parser.sees (parser.is_marked mark) self.now }
    {
        match self.tokens.first() {
            Some(token) => match token.kind {
                TokenKind::Mark(byte) => byte == mark,
                _ => false,
            },
            None => false,
        }
    }

    pub fn sees_number(&self) -> bool
        ensures { result ≡ parser.sees parser.is_number self.now }
    {
        match self.tokens.first() {
            Some(token) => match token.kind {
                TokenKind::Number(_) => true,
                _ => false,
            },
            None => false,
        }
    }

    pub fn sees_name(&self) -> bool
        ensures { result ≡ parser.sees parser.is_name self.now }
    {
        let tokens = self.tokens;
        match tokens {
            [token, ..] => match token.kind {
                TokenKind::Name => !is_reserved_word(
                    &self.bytes[token.from as usize..token.upto as usize],
                ),
                _ => false,
            },
            [] => false,
        }
    }

    /// Takes the word, if it comes next, and gives the number of its token.
    pub fn take_word(&mut self, word: &[u8]) -> Result<u32, Stop>
        ensures { Reads (parser.spelled word.now self.old) result self.new }
    {
        let tokens = self.tokens;
        let [token, rest @ ..] = tokens else {
            return Err(Stop::Unexpected);
        };
        match token.kind {
            TokenKind::Name => {
                if is(&self.bytes[token.from as usize..token.upto as usize], word) {
                    let number = self.number;
                    self.tokens = rest;
                    self.number = number + 1;
                    Ok(number)
                } else {
                    Err(Stop::Unexpected)
                }
            }
            _ => Err(Stop::Unexpected),
        }
    }

    /// Takes the mark, if it comes next, and gives the number of its token.
    pub fn take_mark(&mut self, mark: u8) -> Result<u32, Stop>
        ensures { Reads (parser.marked mark self.old) result self.new }
    {
        let tokens = self.tokens;
        let [token, rest @ ..] = tokens else {
            return Err(Stop::Unexpected);
        };
        match token.kind {
            TokenKind::Mark(byte) if byte == mark => {
                let number = self.number;
                self.tokens = rest;
                self.number = number + 1;
                Ok(number)
            }
            _ => Err(Stop::Unexpected),
        }
    }

    /// The value, once the mark is taken, if it comes next.
    pub fn then_mark<T: Drop>(&mut self, value: T, mark: u8) -> Result<T, Stop>
        ensures { Reads (then_mark value mark self.old) result self.new }
    {
        self.take_mark(mark)?;
        Ok(value)
    }

    /// The value, once `}` and `;` are taken, if they come next.
    pub fn closed<T: Drop>(&mut self, value: T) -> Result<T, Stop>
        ensures { Reads (closed value self.old) result self.new }
    {
        self.take_mark(b'}')?;
        self.then_mark(value, b';')
    }

    pub fn take_number(&mut self) -> Result<u64, Stop>
        ensures { Reads (parser.number self.old) result self.new }
    {
        let tokens = self.tokens;
        let [token, rest @ ..] = tokens else {
            return Err(Stop::Unexpected);
        };
        match token.kind {
            TokenKind::Number(value) => {
                self.tokens = rest;
                self.number += 1;
                Ok(value)
            }
            _ => Err(Stop::Unexpected),
        }
    }

    /// Takes a word that is not reserved, if one comes next.
    pub fn take_name(&mut self, alloc: Global) -> Result<NameAt, Stop>
        ensures { Reads (parser.name self.old) result self.new }
    {
        let tokens = self.tokens;
        let [token, rest @ ..] = tokens else {
            return Err(Stop::Unexpected);
        };
        match token.kind {
            TokenKind::Name => {
                let word = &self.bytes[token.from as usize..token.upto as usize];
                if is_reserved_word(word) {
                    return Err(Stop::Unexpected);
                }
                let name = Name::new(alloc, word)?;
                let number = self.number;
                self.tokens = rest;
                self.number = number + 1;
                Ok(NameAt {
                    token: number,
                    name,
                })
            }
            _ => Err(Stop::Unexpected),
        }
    }

    /// Takes a text, if one comes next. The name has no quotes.
    pub fn take_text(&mut self, alloc: Global) -> Result<NameAt, Stop>
        ensures { Reads (parser.quoted self.old) result self.new }
    {
        let tokens = self.tokens;
        let [token, rest @ ..] = tokens else {
            return Err(Stop::Unexpected);
        };
        match token.kind {
            TokenKind::Text => {
                let name = Name::new(
                    alloc,
                    &self.bytes[token.from as usize + 1..token.upto as usize - 1],
                )?;
                let number = self.number;
                self.tokens = rest;
                self.number = number + 1;
                Ok(NameAt {
                    token: number,
                    name,
                })
            }
            _ => Err(Stop::Unexpected),
        }
    }

    /// Whether the word stood next, which is then taken.
    pub fn given_word(&mut self, word: &[u8]) -> Result<bool, Stop>
        ensures { Reads (parser.given (parser.is_spelled word.now) (parser.spelled word.now) self.old) result self.new }
    {
        if self.sees_word(word) {
            self.take_word(word)?;
            Ok(true)
        } else {
            Ok(false)
        }
    }
}
