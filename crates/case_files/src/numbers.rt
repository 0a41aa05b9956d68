//! Numbers, and spans of them.

ghost use Rattle.std.specs.Prelude.{◌<◌, ◌≤◌, length, IfSome};

use sgx_base::read_number;

/// The most numbers of a span.
pub const MAX_SPAN: u64 = 1_000_000;

/// The numbers from the first to the last, at least one.
#[derive(Clone, Copy)]
pub struct Span {
    pub first: u64,
    pub last: u64,
}

/// The text up to a blank or up to its end, and the text behind that blank.
pub(crate) fn cut_at_blank(text: &[u8]) -> (&[u8], &[u8])
    ensures shorter { 0 < length text.now → length result.1.now < length text.now }
{
    let at = text
        .iter()
        .position(|byte| *byte == b' ')
        .unwrap_or(text.len());
    let (word, behind) = text.split_at(at);
    match behind {
        [] => (word, behind),
        [_, rest @ ..] => (word, rest),
    }
}

/// `FIRST..LAST`, of which the last is no less than the first.
pub(crate) fn read_span(text: &[u8]) -> Option<Span>
    ensures { IfSome result (λ span. span.first ≤ span.last) }
{
    let at = text.iter().position(|byte| *byte == b'.')?;
    let (first, behind) = text.split_at(at);
    let [b'.', b'.', last @ ..] = behind else {
        return None;
    };
    let first = read_number(first)?;
    let last = read_number(last)?;
    if last < first || last - first >= MAX_SPAN {
        return None;
    }
    Some(Span { first, last })
}
