//! What the host does, line by line.

ghost use Rattle.std.specs.Prelude.{◌≡◌, ◌∷◌, option_map, codes};
ghost use Rattle.script_lines.specs.Tables as spec;
ghost use Rattle.script_lines.specs.Lines as lines;

use crate::arguments::last_arguments;
use crate::line::Line;
use crate::shapes::{Shape, one, opened, says, two, word};
use script_words::Words;

/// `poke PLACE HEX`
#[tactic(auto, using(crate::proofs::ActLaws::rows))]
fn poke<'a>(words: &mut Words<'a>) -> Option<Line<'a>>
    ensures { option_map lines.line_of result ≡ spec.racer_act (codes "poke" ∷ words.old) }
{
    let (place, hex) = two(words, Shape::Place, Shape::Any)?;
    Some(Line::Poke { place, hex })
}

/// `repeat TIMES {`
#[tactic(auto, using(crate::proofs::ActLaws::rows))]
fn repeat<'a>(words: &mut Words<'a>) -> Option<Line<'a>>
    ensures { option_map lines.line_of result ≡ spec.racer_act (codes "repeat" ∷ words.old) }
{
    let times = opened(words, Shape::Number)?;
    Some(Line::Repeat { times })
}

/// `return VALUE`
#[tactic(auto, using(crate::proofs::ActLaws::rows))]
fn give_back<'a>(words: &mut Words<'a>) -> Option<Line<'a>>
    ensures { option_map lines.line_of result ≡ spec.racer_act (codes "return" ∷ words.old) }
{
    let value = one(words, Shape::Number)?;
    Some(Line::Return { value })
}

/// `status STATUS`
#[tactic(auto, using(crate::proofs::ActLaws::rows))]
fn status<'a>(words: &mut Words<'a>) -> Option<Line<'a>>
    ensures { option_map lines.line_of result ≡ spec.racer_act (codes "status" ∷ words.old) }
{
    let status = one(words, Shape::Number)?;
    Some(Line::Status { status })
}

/// The act of a racer that begins with this word, and goes on with these.
#[tactic(auto, using(crate::proofs::ShapeLaws::same_word, crate::proofs::ActLaws::no_racer_act))]
pub fn racer_act<'a>(word: &[u8], words: &mut Words<'a>) -> Option<Line<'a>>
    ensures { option_map lines.line_of result ≡ spec.racer_act (word.now ∷ words.old) }
{
    if says(word, b"poke") {
        poke(words)
    } else if says(word, b"repeat") {
        repeat(words)
    } else if says(word, b"return") {
        give_back(words)
    } else if says(word, b"status") {
        status(words)
    } else {
        None
    }
}

/// `call NAME(ARG, ..)`
#[tactic(auto, using(crate::proofs::ActLaws::call_without_name))]
fn call<'a>(words: &mut Words<'a>) -> Option<Line<'a>>
    ensures { option_map lines.line_of result ≡ spec.act (codes "call" ∷ words.old) }
{
    let name = word(words, Shape::Name)?;
    match last_arguments(words) {
        Some(args) => Some(Line::Call { name, args }),
        None => None,
    }
}

/// `raw ORDINAL ADDRESS`
#[tactic(auto, using(crate::proofs::ActLaws::rows))]
fn raw<'a>(words: &mut Words<'a>) -> Option<Line<'a>>
    ensures { option_map lines.line_of result ≡ spec.act (codes "raw" ∷ words.old) }
{
    let (ordinal, address) = two(words, Shape::Number, Shape::Number)?;
    Some(Line::Raw { ordinal, address })
}

/// `peek PLACE LENGTH`
#[tactic(auto, using(crate::proofs::ActLaws::rows))]
fn peek<'a>(words: &mut Words<'a>) -> Option<Line<'a>>
    ensures { option_map lines.line_of result ≡ spec.act (codes "peek" ∷ words.old) }
{
    let (place, length) = two(words, Shape::Place, Shape::Number)?;
    Some(Line::Peek { place, length })
}

/// The act that begins with this word, and goes on with these.
#[tactic(auto, using(crate::proofs::ShapeLaws::same_word, crate::proofs::ActLaws::other_act))]
pub fn act<'a>(word: &[u8], words: &mut Words<'a>) -> Option<Line<'a>>
    ensures { option_map lines.line_of result ≡ spec.act (word.now ∷ words.old) }
{
    if says(word, b"call") {
        call(words)
    } else if says(word, b"raw") {
        raw(words)
    } else if says(word, b"peek") {
        peek(words)
    } else {
        racer_act(word, words)
    }
}
