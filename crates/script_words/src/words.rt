//! The lines of a script, and the words of a line.

ghost use Rattle.std.specs.Prelude.{◌≡◌, ◌≤◌, ◌+◌, ◌∷◌, [], length, drop, MatchOption, None, Some};
ghost use Rattle.std.specs.List.{prefix_len};
ghost use Rattle.std.specs.Prelude.{◌==◌, not};
ghost use Rattle.std.specs.Str.{bytes_eq};
ghost use Rattle.sgx_base.specs.Stores.{max_file_size};
ghost use Rattle.call_script.specs.Parser as parser;
ghost use Rattle.call_script.specs.Spelling as spec;

use crate::spelling::{is_name, is_number};
use std::marker::Model;

fn is_blank(b: u8) -> bool
    ensures { result ≡ spec.is_blank b }
{
    b == b' ' || b == b'\t'
}

fn is_mark(b: u8) -> bool
    ensures { result ≡ spec.is_mark b }
{
    b == b'(' || b == b')' || b == b','
}

fn is_word(b: u8) -> bool
    ensures { result ≡ spec.is_word b }
{
    !(is_blank(b) || is_mark(b))
}

fn blank_len(bytes: &[u8]) -> usize
    ensures value { result ≡ prefix_len spec.is_blank bytes.now }
    ensures within { result ≤ length bytes.now }
{
    let mut len = 0;
    while len < bytes.len() && is_blank(bytes[len]) {
        len += 1;
    }
    len
}

fn word_len(bytes: &[u8]) -> usize
    ensures value { result ≡ prefix_len spec.is_word bytes.now }
    ensures within { result ≤ length bytes.now }
{
    let mut len = 0;
    while len < bytes.len() && is_word(bytes[len]) {
        len += 1;
    }
    len
}

/// How many bytes stand before the line feed.
fn line_len(bytes: &[u8]) -> usize
    ensures value { result ≡ prefix_len (λ b. not (b == 10)) bytes.now }
    ensures within { result ≤ length bytes.now }
{
    let mut len = 0;
    while len < bytes.len() && bytes[len] != b'\n' {
        len += 1;
    }
    len
}

/// All bytes but the first.
pub fn behind_first(bytes: &[u8]) -> &[u8]
    ensures { result.now ≡ drop 1 bytes.now }
{
    match bytes {
        [] => bytes,
        [_, rest @ ..] => rest,
    }
}

/// Whether the bytes are the same.
pub fn same(a: &[u8], b: &[u8]) -> bool
    ensures { result ≡ bytes_eq a.now b.now }
{
    a == b
}

pub fn begins_with(word: &[u8], byte: u8) -> bool
    ensures { result ≡ spec.begins (λ b. b == byte) word.now }
{
    match word {
        [first, ..] => *first == byte,
        [] => false,
    }
}

/// What is left of a line, which contracts see as its words.
#[derive(Drop)]
pub struct Words<'a> {
    bytes: &'a [u8],
}

impl<'a> Model for Words<'a> {
    ghost use Rattle.std.specs.Prelude.{List};
    ghost use Rattle.call_script.specs.Spelling as spec;

    ghost Value = { List spec.Word };

    ghost view = { λ w. spec.words w.bytes.now };
}

impl<'a> Words<'a> {
    pub fn new(bytes: &'a [u8]) -> Words<'a>
        ensures { result ≡ spec.words bytes.now }
    {
        Words { bytes }
    }

    /// The same words once more.
    pub fn again(&self) -> Words<'a>
        ensures { result ≡ self.now }
    {
        Words { bytes: self.bytes }
    }

    /// Takes the next word.
    pub fn next(&mut self) -> Option<&'a [u8]>
        ensures { MatchOption result ((self.old ≡ []) × (self.new ≡ [])) (λ word. self.old ≡ word.now ∷ self.new) }
    {
        let left = self.bytes;
        let bytes = &left[blank_len(left)..];
        if bytes.is_empty() {
            self.bytes = bytes;
            return None;
        }
        let (word, rest) = bytes.split_at(word_len(bytes).max(1));
        self.bytes = rest;
        Some(word)
    }

    /// Takes a name.
    pub fn name(&mut self) -> Option<&'a [u8]>
        ensures { MatchOption result (parser.name self.old ≡ None)
            (λ w. parser.name self.old ≡ Some (w.now, self.new)) }
    {
        let word = self.next()?;
        if is_name(word) { Some(word) } else { None }
    }

    /// Takes a number of any width.
    pub fn number(&mut self) -> Option<&'a [u8]>
        ensures { MatchOption result (parser.number self.old ≡ None)
            (λ w. parser.number self.old ≡ Some (w.now, self.new)) }
    {
        let word = self.next()?;
        if is_number(word) { Some(word) } else { None }
    }
}

/// What is left of a script, which contracts see as its lines.
#[derive(Drop)]
struct Lines<'a> {
    bytes: &'a [u8],
}

impl<'a> Model for Lines<'a> {
    ghost use Rattle.std.specs.Prelude.{ℕ, List};
    ghost use Rattle.call_script.specs.Spelling as spec;

    ghost Value = { List (List ℕ) };

    ghost view = { λ l. spec.lines l.bytes.now };
}

impl<'a> Lines<'a> {
    fn new(bytes: &'a [u8]) -> Lines<'a>
        ensures lines { result ≡ spec.lines bytes.now }
        ensures few { length result ≤ length bytes.now }
    {
        Lines { bytes }
    }

    /// Takes the next line, without its line feed.
    fn next(&mut self) -> Option<&'a [u8]>
        ensures { MatchOption result ((self.old ≡ []) × (self.new ≡ [])) (λ line. self.old ≡ line.now ∷ self.new) }
    {
        let bytes = self.bytes;
        if bytes.is_empty() {
            return None;
        }
        let (line, rest) = bytes.split_at(line_len(bytes));
        self.bytes = behind_first(rest);
        Some(line)
    }
}

/// Whether the line has no words, or begins with `#`.
fn means_nothing(line: &[u8]) -> bool
    ensures { result ≡ spec.means_nothing (spec.words line.now) }
{
    match Words::new(line).next() {
        Some(word) => begins_with(word, b'#'),
        None => true,
    }
}

/// A line that means something: its number, and its words.
#[derive(Drop)]
pub struct NumberedLine<'a> {
    pub number: u32,
    pub words: Words<'a>,
}

/// What is left of a script, which contracts see as its lines that mean something.
#[derive(Drop)]
pub struct NumberedLines<'a> {
    lines: Lines<'a>,
    /// The number of the next line.
    number: u32,
}

impl<'a> Model for NumberedLines<'a> {
    ghost use Rattle.std.specs.Prelude.{List, length, ◌+◌, ◌≤◌};
    ghost use Rattle.sgx_base.specs.Stores.{max_file_size};
    ghost use Rattle.call_script.specs.Spelling as spec;

    ghost Value = { List spec.NumberedLine };

    ghost view = { λ l. spec.numbered_from l.number l.lines };

    ghost invariant = { λ l. l.number + length l.lines ≤ max_file_size + 1 };
}

impl<'a> NumberedLines<'a> {
    pub fn new(bytes: &'a [u8]) -> NumberedLines<'a>
        requires { length bytes.now ≤ max_file_size }
        ensures { result ≡ spec.numbered_lines bytes.now }
    {
        NumberedLines {
            lines: Lines::new(bytes),
            number: 1,
        }
    }

    /// The same lines once more.
    #[tactic(auto, using(crate::proofs::LineLaws::few_numbered))]
    pub fn again(&self) -> NumberedLines<'a>
        ensures same { result ≡ self.now }
        ensures few { length result ≤ max_file_size + 1 }
    {
        NumberedLines {
            lines: Lines {
                bytes: self.lines.bytes,
            },
            number: self.number,
        }
    }

    /// Takes the next line.
    pub fn next(&mut self) -> Option<NumberedLine<'a>>
        ensures { MatchOption result ((self.old ≡ []) × (self.new ≡ []))
            (λ line. self.old ≡ record { number = line.number; words = line.words } ∷ self.new) }
    {
        while let Some(line) = self.lines.next() {
            let number = self.number;
            self.number += 1;
            if !means_nothing(line) {
                let words = Words::new(line);
                return Some(NumberedLine { number, words });
            }
        }
        None
    }
}
