//! The arguments of a call: words with commas between them, in parentheses.

ghost use Rattle.std.specs.Prelude.{◌≡◌, ◌∷◌, [], MatchBool, MatchOption, None, Some};
ghost use Rattle.script_lines.specs.Arguments as spec;
ghost use Rattle.call_script.specs.Parser as parser;

use crate::shapes::{is_ended, says};
use script_words::{Words, same};
use std::marker::Model;

/// What is left of the arguments of a call, which contracts see as their words.
#[derive(Drop)]
pub struct Arguments<'a> {
    /// What stands behind `(`, or behind a comma.
    words: Words<'a>,
}

impl<'a> Model for Arguments<'a> {
    ghost use Rattle.std.specs.Prelude.{List, IsTrue, is_some};
    ghost use Rattle.call_script.specs.Spelling.{Word};
    ghost use Rattle.script_lines.specs.Arguments as spec;

    ghost Value = { List Word };

    ghost view = { λ a. spec.listed a.words };

    ghost invariant = { λ a. IsTrue (is_some (spec.behind a.words)) };
}

impl<'a> Arguments<'a> {
    /// The same arguments once more.
    pub fn again(&self) -> Arguments<'a>
        ensures { result ≡ self.now }
    {
        Arguments {
            words: self.words.again(),
        }
    }

    /// Takes the next argument.
    pub fn next(&mut self) -> Option<&'a [u8]>
        ensures { MatchOption result ((self.old ≡ []) × (self.new ≡ []))
            (λ word. self.old ≡ word.now ∷ self.new) }
    {
        let mut words = self.words.again();
        let Some(word) = words.next() else {
            return None;
        };
        if same(word, b")") {
            return None;
        }
        self.words = behind_comma(&words);
        Some(word)
    }
}

/// The words behind a comma, if one comes first.
#[tactic(auto, using(crate::proofs::ArgumentLaws::no_comma))]
fn behind_comma<'a>(words: &Words<'a>) -> Words<'a>
    ensures { result ≡ spec.behind_comma words.now }
{
    let mut behind = words.again();
    match behind.next() {
        Some(mark) => {
            if same(mark, b",") {
                behind
            } else {
                words.again()
            }
        }
        None => behind,
    }
}

fn is_mark_word(word: &[u8]) -> bool
    ensures { result ≡ parser.is_mark_word word.now }
{
    match word {
        [first, ..] => *first == b'(' || *first == b')' || *first == b',',
        [] => false,
    }
}

/// Takes at least one argument, with commas between them, and `)`. Whether they are there.
#[tactic(auto, using(crate::proofs::ArgumentLaws::too_short))]
fn pass_some(words: &mut Words) -> bool
    ensures { MatchBool result (spec.behind_some words.old ≡ Some words.new) (spec.behind_some words.old ≡ None) }
{
    while let Some(argument) = words.next() {
        if is_mark_word(argument) {
            return false;
        }
        let Some(mark) = words.next() else {
            return false;
        };
        if same(mark, b")") {
            return true;
        }
        if !same(mark, b",") {
            return false;
        }
    }
    false
}

/// Takes arguments with commas between them, and `)`. Whether they are there.
#[tactic(auto, using(crate::proofs::ArgumentLaws::no_arguments))]
fn pass(words: &mut Words) -> bool
    ensures { MatchBool result (spec.behind words.old ≡ Some words.new) (spec.behind words.old ≡ None) }
{
    let mut ahead = words.again();
    let Some(mark) = ahead.next() else {
        return false;
    };
    if same(mark, b")") {
        *words = ahead;
        return true;
    }
    pass_some(words)
}

/// The arguments in parentheses with which a line ends.
#[tactic(auto, using(crate::proofs::ArgumentLaws::line_ends))]
pub fn last_arguments<'a>(words: &mut Words<'a>) -> Option<Arguments<'a>>
    ensures { result ≡ spec.last_arguments words.old }
{
    let first = words.next()?;
    if !says(first, b"(") {
        return None;
    }
    let inside = words.again();
    if pass(words) && is_ended(words) {
        Some(Arguments { words: inside })
    } else {
        None
    }
}
