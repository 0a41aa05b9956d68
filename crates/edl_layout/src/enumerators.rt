//! The values of enumerators.

ghost use Rattle.std.specs.Prelude.{◌≡◌, true, negsuc};
ghost use Rattle.edl_layout.specs.Faults as faults;
ghost use Rattle.edl_layout.specs.Firsts.{first_of};

use edl_grammar::{EnumValue, TypeDecl};

/// The number with its sign.
fn literal(negative: bool, number: u64) -> i128
    ensures { result ≡ faults.literal_of negative number }
{
    let number = i128::from(number);
    if negative { -number } else { number }
}

/// Whether it is a value of C's `int`.
fn is_int(value: i128) -> bool
    ensures { result ≡ faults.is_int value }
{
    i128::from(i32::MIN) <= value && value <= i128::from(i32::MAX)
}

/// The value that is written, or one more than the one before.
fn value_after(before: i128, value: &EnumValue) -> i128
    requires { faults.is_int before ≡ true }
    ensures { result ≡ faults.value_after before value.now }
{
    match value.number {
        Some(number) => literal(value.negative, number),
        None => before + 1,
    }
}

/// The token of the first enumerator that is no `int`. They begin at 0.
fn first_wide(values: &[EnumValue]) -> Option<u32>
    ensures { result ≡ first_of (faults.wide_after (negsuc 0) values.now) }
{
    let mut before = -1;
    for value in values {
        before = value_after(before, value);
        if !is_int(before) {
            return Some(value.token);
        }
    }
    None
}

/// The token of a type's first enumerator that is no `int`.
pub(crate) fn first_wide_value(decl: &TypeDecl) -> Option<u32>
    ensures { result ≡ first_of (faults.wide_values decl.now) }
{
    match decl {
        TypeDecl::Enumeration { values, .. } => first_wide(values.as_slice()),
        TypeDecl::Structure { .. } => None,
        TypeDecl::Union { .. } => None,
    }
}
