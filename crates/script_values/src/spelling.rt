//! What a word spells: what stands behind its mark, places and bytes.

ghost use Rattle.std.specs.Prelude.{◌≡◌, ◌==◌, ◌<◌, false, length, position, IfOk, IfSome};
ghost use Rattle.std.specs.Option.{option_copied};
ghost use Rattle.std.specs.List.{list_all};
ghost use Rattle.std.specs.Char.{is_ascii_digit};
ghost use Rattle.hex.specs.Hex.{is_hex_digit};
ghost use Rattle.sgx_base.specs.Numbers as numbers;
ghost use Rattle.call_script.specs.Arguments as arguments;
ghost use Rattle.call_script.specs.Spelling as spec;

use call_script::Place;
use hex::FromHexError;
use script_words::{
    begins_with, behind_first, frame_offset, is_name, is_number, is_out_of, is_place, number_of,
};
use sgx_base::read_number;
use sqlite_items::Items;
use std::alloc::{AllocError, Global};

fn are_digits(word: &[u8]) -> bool
    ensures { result ≡ list_all is_ascii_digit word.now }
{
    word.iter().all(|byte| byte.is_ascii_digit())
}

/// Whether the word is decimal digits, at least one.
pub fn is_decimal(word: &[u8]) -> bool
    ensures { result ≡ numbers.is_decimal word.now }
{
    !word.is_empty() && are_digits(word)
}

/// Whether the word is a number above 64 bits.
pub fn is_wide(word: &[u8]) -> bool
    ensures { result ≡ spec.is_wide word.now }
{
    is_number(word) && read_number(word).is_none()
}

fn dot_place(word: &[u8]) -> Option<usize>
    ensures value { result ≡ position (λ b. b == 46) word.now }
    ensures within { IfSome result (λ dot. dot < length word.now) }
{
    word.iter().position(|byte| *byte == b'.')
}

/// Whether the word is a name, or two with a dot between them.
pub fn is_dotted_name(word: &[u8]) -> bool
    ensures { result ≡ spec.is_dotted_name word.now }
{
    match dot_place(word) {
        Some(dot) => is_name(&word[..dot]) && is_name(&word[dot + 1..]),
        None => is_name(word),
    }
}

/// What stands behind this byte, where the word begins with it.
fn behind(byte: u8, word: &[u8]) -> Option<&[u8]>
    ensures { option_copied result ≡ spec.behind (spec.begins (λ b. b == byte) word.now) 1 word.now }
{
    if begins_with(word, byte) {
        Some(behind_first(word))
    } else {
        None
    }
}

/// What stands behind `@`.
pub fn behind_at(word: &[u8]) -> Option<&[u8]>
    ensures { option_copied result ≡ spec.behind_at word.now }
{
    behind(b'@', word)
}

/// What stands behind `#`.
pub fn behind_hash(word: &[u8]) -> Option<&[u8]>
    ensures { option_copied result ≡ spec.behind_hash word.now }
{
    behind(b'#', word)
}

/// What stands behind `-`.
pub fn behind_minus(word: &[u8]) -> Option<&[u8]>
    ensures { option_copied result ≡ spec.behind_minus word.now }
{
    behind(b'-', word)
}

/// Whether the word is a place in a frame.
pub fn is_in_frame(word: &[u8]) -> bool
    ensures { result ≡ spec.is_in_frame word.now }
{
    frame_offset(word).is_some() && is_place(word)
}

/// Whether the word is an address above 64 bits, or an offset above 65535.
pub fn is_place_out(word: &[u8]) -> bool
    ensures { result ≡ spec.is_place_out word.now }
{
    match frame_offset(word) {
        Some(offset) => is_out_of(0, 65535, offset),
        None => is_wide(word),
    }
}

/// The place that a word names.
pub fn place_named(word: &[u8]) -> Place
    requires { spec.is_place_out word.now ≡ false }
    ensures { result ≡ arguments.place_named word.now }
{
    match frame_offset(word) {
        Some(offset) => Place::InFrame(number_of(offset) as u32),
        None => Place::At(number_of(word)),
    }
}

fn is_hexadecimal_digit(byte: u8) -> bool
    ensures { result ≡ is_hex_digit byte }
{
    byte.is_ascii_hexdigit()
}

fn are_hexadecimal_digits(word: &[u8]) -> bool
    ensures { result ≡ list_all is_hex_digit word.now }
{
    word.iter().all(|byte| is_hexadecimal_digit(*byte))
}

/// Whether the word is no even count of hexadecimal digits, at least two.
#[tactic(auto, using(crate::proofs::HexLaws::bad_hex))]
pub fn is_bad_hex(word: &[u8]) -> bool
    ensures { result ≡ spec.is_bad_hex word.now }
{
    word.is_empty() || word.len() % 2 == 1 || !are_hexadecimal_digits(word)
}

/// The bytes that a word spells, none where it spells none.
pub fn bytes_of(alloc: Global, word: &[u8]) -> Result<Items<u8>, AllocError>
    ensures { IfOk result (λ bytes. bytes ≡ arguments.bytes_of word.now) }
{
    match hex::decode(alloc, word) {
        Ok(bytes) => Ok(Items::from_vec(bytes)),
        Err(FromHexError::OutOfMemory) => Err(AllocError),
        Err(_) => Ok(Items::new(alloc)),
    }
}
