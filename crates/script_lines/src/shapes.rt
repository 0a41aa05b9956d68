//! Words in a row, each of the shape that its place asks for.

ghost use Rattle.std.specs.Prelude.{◌≡◌, MatchOption, None, Some, option_map, is_some, length, ◌==◌};
ghost use Rattle.std.specs.Str.{bytes_eq};
ghost use Rattle.call_script.specs.Spelling as spelling;
ghost use Rattle.script_lines.specs.Shapes as spec;

use script_words::{Words, is_name, is_number, is_place, same};

/// What a word has to be in its place.
#[derive(Clone, Copy, Debug, PartialEq, Eq)]
pub enum Shape {
    Any,
    Number,
    Name,
    Place,
}

impl Shape {
    fn fits(self, word: &[u8]) -> bool
        ensures { result ≡ spec.fits self word.now }
    {
        match self {
            Shape::Any => true,
            Shape::Number => is_number(word),
            Shape::Name => is_name(word),
            Shape::Place => is_place(word),
        }
    }
}

/// Takes a word of this shape.
pub fn word<'a>(words: &mut Words<'a>, shape: Shape) -> Option<&'a [u8]>
    ensures { MatchOption result (spec.reads shape words.old ≡ None)
        (λ w. spec.reads shape words.old ≡ Some (w.now, words.new)) }
{
    let word = words.next()?;
    if shape.fits(word) { Some(word) } else { None }
}

/// Whether the word is this text.
pub fn says(word: &[u8], text: &[u8]) -> bool
    ensures { result ≡ bytes_eq text.now word.now }
{
    same(text, word)
}

/// Whether no words are left.
pub fn is_ended(words: &mut Words) -> bool
    ensures { result ≡ spec.is_ended words.old }
{
    words.next().is_none()
}

/// The word of a line that has one more.
#[tactic(auto, using(crate::proofs::ShapeLaws::one_word))]
pub fn one<'a>(words: &mut Words<'a>, shape: Shape) -> Option<&'a [u8]>
    ensures { option_map (λ w. w.now) result ≡ spec.one shape words.old }
{
    let last = word(words, shape)?;
    if is_ended(words) { Some(last) } else { None }
}

/// The words of a line that has two more.
#[tactic(auto, using(crate::proofs::ShapeLaws::two_words))]
pub fn two<'a>(words: &mut Words<'a>, first: Shape, second: Shape) -> Option<(&'a [u8], &'a [u8])>
    ensures { option_map (λ t. (t.0.now, t.1.now)) result ≡ spec.two first second words.old }
{
    let first = word(words, first)?;
    let second = one(words, second)?;
    Some((first, second))
}

/// The words of a line that has three more.
#[tactic(auto, using(crate::proofs::ShapeLaws::three_words))]
pub fn three<'a>(
    words: &mut Words<'a>,
    first: Shape,
    second: Shape,
    third: Shape,
) -> Option<(&'a [u8], &'a [u8], &'a [u8])>
    ensures { option_map (λ t. (t.0.now, (t.1.now, t.2.now))) result ≡ spec.three first second third words.old }
{
    let first = word(words, first)?;
    let (second, third) = two(words, second, third)?;
    Some((first, second, third))
}

/// The words of a line that has four more.
#[tactic(auto, using(crate::proofs::ShapeLaws::four_words))]
pub fn four<'a>(
    words: &mut Words<'a>,
    first: Shape,
    second: Shape,
    third: Shape,
    fourth: Shape,
) -> Option<(&'a [u8], &'a [u8], &'a [u8], &'a [u8])>
    ensures { option_map (λ t. (t.0.now, (t.1.now, (t.2.now, t.3.now)))) result
        ≡ spec.four first second third fourth words.old }
{
    let first = word(words, first)?;
    let (second, third, fourth) = three(words, second, third, fourth)?;
    Some((first, second, third, fourth))
}

/// Whether a block opens with the next word, which is the last.
#[tactic(auto, using(crate::proofs::ShapeLaws::block_opens))]
pub fn opens(words: &mut Words) -> bool
    ensures { result ≡ spec.opens words.old }
{
    match words.next() {
        Some(mark) => says(mark, b"{") && is_ended(words),
        None => false,
    }
}

/// The word of a line that has one more, and opens a block.
#[tactic(auto, using(crate::proofs::ShapeLaws::word_opens))]
pub fn opened<'a>(words: &mut Words<'a>, shape: Shape) -> Option<&'a [u8]>
    ensures { option_map (λ w. w.now) result ≡ spec.opened shape words.old }
{
    let word = word(words, shape)?;
    if opens(words) { Some(word) } else { None }
}
