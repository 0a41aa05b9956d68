//! What a word spells.

ghost use Rattle.std.specs.Prelude.{◌≡◌, ◌||◌, option_map};
ghost use Rattle.std.specs.List.{list_all, list_any};
ghost use Rattle.std.specs.Char.{is_ascii_digit, is_ascii_hexdigit};
ghost use Rattle.std.specs.Str.{bytes_eq};
ghost use Rattle.sgx_base.specs.Numbers as numbers;
ghost use Rattle.call_script.specs.Arguments as arguments;
ghost use Rattle.call_script.specs.Spelling as spec;

use crate::words::same;
use sgx_base::read_number;

fn are_decimal_digits(text: &[u8]) -> bool
    ensures { result ≡ list_all is_ascii_digit text.now }
{
    text.iter().all(|byte| byte.is_ascii_digit())
}

fn are_hexadecimal_digits(text: &[u8]) -> bool
    ensures { result ≡ list_all is_ascii_hexdigit text.now }
{
    text.iter().all(|byte| byte.is_ascii_hexdigit())
}

fn is_decimal(text: &[u8]) -> bool
    ensures { result ≡ numbers.is_decimal text.now }
{
    !text.is_empty() && are_decimal_digits(text)
}

fn is_hexadecimal(text: &[u8]) -> bool
    ensures { result ≡ numbers.is_hexadecimal text.now }
{
    text.starts_with(b"0x") && 2 < text.len() && are_hexadecimal_digits(&text[2..])
}

/// Whether the word is a number, of any width.
pub fn is_number(word: &[u8]) -> bool
    ensures { result ≡ spec.is_number word.now }
{
    is_decimal(word) || is_hexadecimal(word)
}

/// Whether the word is a number outside the range.
pub fn is_out_of(least: u64, most: u64, word: &[u8]) -> bool
    ensures { result ≡ spec.is_out_of least most word.now }
{
    match read_number(word) {
        Some(number) => is_number(word) && !(least <= number && number <= most),
        None => is_number(word),
    }
}

/// The number that the word spells, 0 where it spells none.
pub fn number_of(word: &[u8]) -> u64
    ensures { result ≡ arguments.number_of word.now }
{
    read_number(word).unwrap_or(0)
}

fn is_letter(byte: u8) -> bool
    ensures { result ≡ spec.is_letter byte }
{
    byte.is_ascii_alphabetic() || byte == b'_'
}

fn begins_with_letter(word: &[u8]) -> bool
    ensures { result ≡ spec.begins spec.is_letter word.now }
{
    match word {
        [first, ..] => is_letter(*first),
        [] => false,
    }
}

fn are_letters_or_digits(word: &[u8]) -> bool
    ensures { result ≡ list_all (λ b. spec.is_letter b || is_ascii_digit b) word.now }
{
    word.iter()
        .all(|byte| is_letter(*byte) || byte.is_ascii_digit())
}

fn is_file_word(word: &[u8]) -> bool
    ensures { result ≡ list_any (bytes_eq word.now) spec.file_words }
{
    same(word, b"enclave")
        || same(word, b"include")
        || same(word, b"from")
        || same(word, b"import")
        || same(word, b"trusted")
        || same(word, b"untrusted")
        || same(word, b"public")
        || same(word, b"allow")
        || same(word, b"transition_using_threads")
}

fn is_type_word(word: &[u8]) -> bool
    ensures { result ≡ list_any (bytes_eq word.now) spec.type_words }
{
    same(word, b"enum")
        || same(word, b"struct")
        || same(word, b"union")
        || same(word, b"const")
        || same(word, b"void")
}

fn is_number_word(word: &[u8]) -> bool
    ensures { result ≡ list_any (bytes_eq word.now) spec.number_words }
{
    same(word, b"char")
        || same(word, b"short")
        || same(word, b"int")
        || same(word, b"long")
        || same(word, b"signed")
        || same(word, b"unsigned")
        || same(word, b"float")
        || same(word, b"double")
}

/// Whether the word belongs to the language of interfaces, and is no name.
#[tactic(auto, using(crate::proofs::SpellingLaws::any_of_three))]
fn is_reserved(word: &[u8]) -> bool
    ensures { result ≡ list_any (bytes_eq word.now) spec.reserved_words }
{
    is_file_word(word) || is_type_word(word) || is_number_word(word)
}

/// Whether the word is a name.
pub fn is_name(word: &[u8]) -> bool
    ensures { result ≡ spec.is_name word.now }
{
    begins_with_letter(word) && are_letters_or_digits(word) && !is_reserved(word)
}

/// What stands behind `frame+`.
pub fn frame_offset(word: &[u8]) -> Option<&[u8]>
    ensures { option_map (λ w. w.now) result ≡ spec.frame_offset word.now }
{
    if word.starts_with(b"frame+") {
        Some(&word[6..])
    } else {
        None
    }
}

/// Whether the word is an address, or a place in a frame.
pub fn is_place(word: &[u8]) -> bool
    ensures { result ≡ spec.is_place word.now }
{
    match frame_offset(word) {
        Some(offset) => is_number(offset),
        None => is_number(word),
    }
}
