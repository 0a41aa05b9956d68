//! Arguments of calls by the host: their forms, and their values.

ghost use Rattle.std.specs.Prelude.{◌≡◌, ◌*◌, ◌^◌, ◌==◌, ◌&&◌, not, false, nat_lt, length, unwrap_or, codes, IfOk};
ghost use Rattle.std.specs.Option.{option_copied};
ghost use Rattle.call_script.specs.declared.CallArg.TheVariants as call_arg;
ghost use Rattle.call_script.specs.Arguments as spec;
ghost use Rattle.call_script.specs.Spelling as spelling;

use crate::spelling::{
    behind_at, behind_hash, behind_minus, bytes_of, is_bad_hex, is_decimal, is_in_frame,
    is_place_out, place_named,
};
use call_script::CallArg;
use edl_interface::{Class, Plain};
use script_words::{is_number, is_place, same};
use sgx_base::read_number;
use std::alloc::{AllocError, Global};

// ---- forms

/// Whether the word is a number, or `-` and decimal digits.
fn is_integer_word(word: &[u8]) -> bool
    ensures { result ≡ spec.is_integer_word word.now }
{
    match behind_minus(word) {
        Some(digits) => is_number(word) || is_decimal(digits),
        None => is_number(word),
    }
}

/// Whether the word is `null`, or `@` and a place.
fn is_pointer_word(word: &[u8]) -> bool
    ensures { result ≡ spec.is_pointer_word word.now }
{
    match behind_at(word) {
        Some(place) => same(word, b"null") || is_place(place),
        None => same(word, b"null"),
    }
}

/// Whether the word has not the form of an argument for this class.
pub fn is_wrong_argument(class: &Class, word: &[u8]) -> bool
    ensures { result ≡ spec.is_wrong_argument class.now word.now }
{
    match *class {
        Class::Plain(plain) => {
            if plain.integer {
                !is_integer_word(word)
            } else {
                behind_hash(word).is_none()
            }
        }
        _ => !is_pointer_word(word),
    }
}

// ---- numbers

/// Whether the number has at most so many bytes.
fn is_in_bytes(size: u32, number: u64) -> bool
    ensures { result ≡ nat_lt number (2 ^ (8 * size)) }
{
    size >= 8 || number < 1 << (8 * size)
}

/// Whether the type has this number.
fn has_number(plain: Plain, number: u64) -> bool
    ensures { result ≡ spec.has_number plain number }
{
    if !plain.signed {
        return is_in_bytes(plain.size, number);
    }
    match number.checked_mul(2) {
        Some(double) => is_in_bytes(plain.size, double),
        None => plain.size > 8,
    }
}

/// Whether the type has the number that is so far below 0.
fn has_negative(plain: Plain, number: u64) -> bool
    ensures { result ≡ spec.has_negative plain number }
{
    if number == 0 {
        return true;
    }
    if !plain.signed {
        return false;
    }
    match number.checked_add(number - 1) {
        Some(double) => is_in_bytes(plain.size, double),
        None => plain.size > 8,
    }
}

/// The two's complement, in 64 bits, of the number that is so far below 0.
fn complement(number: u64) -> u64
    ensures { result ≡ spec.complement number }
{
    if number == 0 {
        0
    } else {
        u64::MAX - (number - 1)
    }
}

/// The number of an integer that its type has.
fn integer_of(plain: Plain, word: &[u8]) -> Option<u64>
    ensures { result ≡ spec.integer_of plain word.now }
{
    match behind_minus(word) {
        Some(digits) => match read_number(digits) {
            Some(number) if has_negative(plain, number) => Some(complement(number)),
            _ => None,
        },
        None => match read_number(word) {
            Some(number) if has_number(plain, number) => Some(number),
            _ => None,
        },
    }
}

// ---- values

/// Whether the word is hexadecimal digits of another count of bytes.
#[tactic(auto, using(crate::proofs::HexLaws::byte_count))]
fn has_other_size(size: u32, hex: &[u8]) -> bool
    ensures { result ≡ not (spelling.is_bad_hex hex.now)
        && not (length (unwrap_or (spelling.spelled_bytes hex.now) (codes "")) == size) }
{
    !is_bad_hex(hex) && hex.len() / 2 != size as usize
}

/// Whether the word is an integer that its type has not, or bytes of another size.
pub fn is_misfit(class: &Class, word: &[u8]) -> bool
    ensures { result ≡ spec.is_misfit class.now word.now }
{
    match *class {
        Class::Plain(plain) if plain.integer => is_integer_word(word)
            && integer_of(plain, word).is_none(),
        Class::Plain(plain) => match behind_hash(word) {
            Some(hex) => has_other_size(plain.size, hex),
            None => false,
        },
        _ => false,
    }
}

/// Whether the word is `#` and bad hex, where bytes have to be.
pub fn is_bad_hex_argument(class: &Class, word: &[u8]) -> bool
    ensures { result ≡ spec.is_bad_hex_argument class.now word.now }
{
    match *class {
        Class::Plain(plain) if !plain.integer => match behind_hash(word) {
            Some(hex) => is_bad_hex(hex),
            None => false,
        },
        _ => false,
    }
}

/// Whether the word is `@` and an address or an offset that is too large.
pub fn is_place_argument_out(word: &[u8]) -> bool
    ensures { result ≡ spec.is_place_argument_out word.now }
{
    match behind_at(word) {
        Some(place) => is_place_out(place),
        None => false,
    }
}

/// Whether the word is `@` and a place in a frame.
pub fn is_frame_argument(word: &[u8]) -> bool
    ensures { result ≡ spec.is_frame_argument word.now }
{
    match behind_at(word) {
        Some(place) => is_in_frame(place),
        None => false,
    }
}

/// `null`, or the place behind `@`.
fn pointer_of(word: &[u8]) -> CallArg
    requires { spec.is_place_argument_out word.now ≡ false }
    ensures { result ≡ spec.pointer_by (spelling.behind_at word.now) }
{
    match behind_at(word) {
        Some(place) => CallArg::At(place_named(place)),
        None => CallArg::Null,
    }
}

/// The value behind `#`.
fn opaque_of(alloc: Global, word: &[u8]) -> Result<CallArg, AllocError>
    ensures { IfOk result (λ arg.
        arg ≡ call_arg.Bytes (spec.bytes_of (unwrap_or (spelling.behind_hash word.now) (codes "")))) }
{
    match behind_hash(word) {
        Some(hex) => Ok(CallArg::Bytes(bytes_of(alloc, hex)?)),
        None => Ok(CallArg::Bytes(bytes_of(alloc, b"")?)),
    }
}

/// The argument that a word is for a class.
pub fn argument_of(alloc: Global, class: &Class, word: &[u8]) -> Result<CallArg, AllocError>
    requires { spec.is_place_argument_out word.now ≡ false }
    ensures { IfOk result (λ arg. arg ≡ spec.argument_of class.now word.now) }
{
    match *class {
        Class::Plain(plain) if plain.integer => Ok(CallArg::Number(integer_of(
            plain, word,
        ).unwrap_or(0))),
        Class::Plain(_) => opaque_of(alloc, word),
        _ => Ok(pointer_of(word)),
    }
}
