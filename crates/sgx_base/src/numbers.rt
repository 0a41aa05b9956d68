//! Numbers as texts spell them.

ghost use Rattle.std.specs.Prelude.{◌≡◌, ◌+◌, ◌*◌, ◌^◌, ◌<◌, ◌≤◌, SomeIff};
ghost use Rattle.std.specs.Char.{is_ascii_digit, is_ascii_hexdigit, digit_value};
ghost use Rattle.std.specs.List.{list_all};
ghost use Rattle.sgx_base.specs.Numbers.{digits_value, is_decimal, is_hexadecimal, if_fits, spelled_number};

/// The number that the text spells in decimal digits, or in hexadecimal digits of either case after `0x`.
///
/// None where the text spells no number, or one above 64 bits.
pub fn read_number(text: &[u8]) -> Option<u64>
    ensures { result ≡ spelled_number text.now }
{
    if is_decimal(text) {
        value_of_digits(10, text)
    } else if is_hexadecimal(text) {
        value_of_digits(16, &text[2..])
    } else {
        None
    }
}

fn is_decimal(text: &[u8]) -> bool
    ensures { result ≡ is_decimal text.now }
{
    !text.is_empty() && are_decimal_digits(text)
}

fn is_hexadecimal(text: &[u8]) -> bool
    ensures { result ≡ is_hexadecimal text.now }
{
    text.starts_with(b"0x") && 2 < text.len() && are_hexadecimal_digits(&text[2..])
}

fn are_decimal_digits(text: &[u8]) -> bool
    ensures { result ≡ list_all is_ascii_digit text.now }
{
    text.iter().all(|byte| byte.is_ascii_digit())
}

fn are_hexadecimal_digits(text: &[u8]) -> bool
    ensures { result ≡ list_all is_ascii_hexdigit text.now }
{
    text.iter().all(|byte| byte.is_ascii_hexdigit())
}

/// The value of the digits in this base, where it fits 64 bits.
fn value_of_digits(base: u64, digits: &[u8]) -> Option<u64>
    requires { 1 ≤ base }
    ensures { result ≡ if_fits (digits_value base digits.now) }
{
    let mut value = 0;
    for digit in digits {
        value = with_digit(base, value, *digit)?;
    }
    Some(value)
}

/// The value with one digit more at its end, where it fits 64 bits.
fn with_digit(base: u64, value: u64, digit: u8) -> Option<u64>
    ensures { SomeIff result (base * value + digit_value digit < 2 ^ 64) (base * value + digit_value digit) }
{
    base.checked_mul(value)?
        .checked_add(u64::from(value_of_digit(digit)))
}

/// What the byte counts as a digit: 0 to 9 for a decimal digit, 10 to 35 for a letter, and 36 for any other.
fn value_of_digit(byte: u8) -> u8
    ensures { result ≡ digit_value byte }
{
    match byte {
        b'0'..=b'9' => byte - b'0',
        b'A'..=b'Z' => byte - b'A' + 10,
        b'a'..=b'z' => byte - b'a' + 10,
        _ => 36,
    }
}
