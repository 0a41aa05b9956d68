//! Lines outside of blocks that declare something.
#![tactic(auto, using(crate::proofs::DeclarationLaws::rows))]

ghost use Rattle.std.specs.Prelude.{◌≡◌, ◌∷◌, option_map, codes};
ghost use Rattle.script_lines.specs.Tables as spec;
ghost use Rattle.script_lines.specs.Lines as lines;

use crate::line::Line;
use crate::shapes::{Shape, one, opened, opens, says, three, two};
use script_words::Words;

/// `foreign NAME SIZE ALIGNMENT`
fn foreign<'a>(words: &mut Words<'a>) -> Option<Line<'a>>
    ensures { option_map lines.line_of result ≡ spec.declaration (codes "foreign" ∷ words.old) }
{
    let (name, size, alignment) = three(words, Shape::Name, Shape::Number, Shape::Number)?;
    Some(Line::Foreign {
        name,
        size,
        alignment,
    })
}

/// `bytes ADDRESS HEX`
fn bytes<'a>(words: &mut Words<'a>) -> Option<Line<'a>>
    ensures { option_map lines.line_of result ≡ spec.declaration (codes "bytes" ∷ words.old) }
{
    let (address, hex) = two(words, Shape::Number, Shape::Any)?;
    Some(Line::Bytes { address, hex })
}

/// `cell CELL VALUE`
fn cell<'a>(words: &mut Words<'a>) -> Option<Line<'a>>
    ensures { option_map lines.line_of result ≡ spec.declaration (codes "cell" ∷ words.old) }
{
    let (cell, value) = two(words, Shape::Number, Shape::Number)?;
    Some(Line::Cell { cell, value })
}

/// `race ACCESS ADDRESS HEX`
fn race<'a>(words: &mut Words<'a>) -> Option<Line<'a>>
    ensures { option_map lines.line_of result ≡ spec.declaration (codes "race" ∷ words.old) }
{
    let (access, address, hex) = three(words, Shape::Number, Shape::Number, Shape::Any)?;
    Some(Line::Race {
        access,
        address,
        hex,
    })
}

/// `body NAME {`
fn body<'a>(words: &mut Words<'a>) -> Option<Line<'a>>
    ensures { option_map lines.line_of result ≡ spec.declaration (codes "body" ∷ words.old) }
{
    let name = opened(words, Shape::Name)?;
    Some(Line::Body { name })
}

/// `handler NAME {`
fn handler<'a>(words: &mut Words<'a>) -> Option<Line<'a>>
    ensures { option_map lines.line_of result ≡ spec.declaration (codes "handler" ∷ words.old) }
{
    let name = opened(words, Shape::Name)?;
    Some(Line::Handler { name })
}

/// `thread {`
fn thread<'a>(words: &mut Words<'a>) -> Option<Line<'a>>
    ensures { option_map lines.line_of result ≡ spec.declaration (codes "thread" ∷ words.old) }
{
    if opens(words) {
        Some(Line::Thread)
    } else {
        None
    }
}

/// `racer {`
fn racer<'a>(words: &mut Words<'a>) -> Option<Line<'a>>
    ensures { option_map lines.line_of result ≡ spec.declaration (codes "racer" ∷ words.old) }
{
    if opens(words) {
        Some(Line::Racer)
    } else {
        None
    }
}

/// The declaration that begins with this word, and goes on with these.
#[tactic(auto, using(crate::proofs::ShapeLaws::same_word, crate::proofs::DeclarationLaws::no_declaration))]
pub fn declaration<'a>(word: &[u8], words: &mut Words<'a>) -> Option<Line<'a>>
    ensures { option_map lines.line_of result ≡ spec.declaration (word.now ∷ words.old) }
{
    if says(word, b"foreign") {
        foreign(words)
    } else if says(word, b"bytes") {
        bytes(words)
    } else if says(word, b"cell") {
        cell(words)
    } else if says(word, b"race") {
        race(words)
    } else if says(word, b"body") {
        body(words)
    } else if says(word, b"handler") {
        handler(words)
    } else if says(word, b"thread") {
        thread(words)
    } else if says(word, b"racer") {
        racer(words)
    } else {
        None
    }
}
