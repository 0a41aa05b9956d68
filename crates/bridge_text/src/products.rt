//! Products of any size, as they are printed. A number is a list of its digits, the last first.

ghost use Rattle.std.specs.Prelude.{◌≡◌, ℕ, ◌++◌, ◌+◌, ◌*◌, ◌^◌, ◌<◌, OnOk};
ghost use Rattle.edl_layout.specs.Shape.{elements};
ghost use Rattle.bridge_text.specs.Products.{low_digits, digit_bytes, decimal_text, product_text};

use std::alloc::{AllocError, Global};

/// Appends the digits of a number.
fn push_digits(digits: &mut Vec<u8>, number: u128) -> Result<(), AllocError>
    ensures { OnOk result (digits.new.items ≡ digits.old.items ++ low_digits number) }
{
    if number == 0 {
        return Ok(());
    }
    digits.push((number % 10) as u8)?;
    push_digits(digits, number / 10)
}

/// Appends the digits of a product and what is carried into it.
fn push_product(
    product: &mut Vec<u8>,
    digits: &[u8],
    factor: u64,
    carry: u128,
) -> Result<(), AllocError>
    requires factor { 0 < factor }
    requires carry { carry < 2 ^ 70 }
    ensures { (n : ℕ) → digits.now ≡ low_digits n
        → OnOk result (product.new.items ≡ product.old.items ++ low_digits (n * factor + carry)) }
{
    match digits {
        [] => push_digits(product, carry),
        [digit, rest @ ..] => {
            let sum = u128::from(*digit) * u128::from(factor) + carry;
            product.push((sum % 10) as u8)?;
            push_product(product, rest, factor, sum / 10)
        }
    }
}

/// Appends a number, the first digit first.
fn put_digits(out: &mut Vec<u8>, digits: &[u8]) -> Result<(), AllocError>
    ensures { (n : ℕ) → digits.now ≡ low_digits n
        → OnOk result (out.new.items ≡ out.old.items ++ digit_bytes n) }
{
    match digits {
        [] => Ok(()),
        [digit, rest @ ..] => {
            put_digits(out, rest)?;
            out.push(b'0' + *digit % 10)?;
            Ok(())
        }
    }
}

/// Appends the product of a number with dimensions, where an empty one counts as 0.
fn put_product_with(
    alloc: Global,
    out: &mut Vec<u8>,
    digits: &[u8],
    dims: &[Option<u64>],
) -> Result<(), AllocError>
    ensures { (n : ℕ) → digits.now ≡ low_digits n → 0 < n
        → OnOk result (out.new.items ≡ out.old.items ++ decimal_text (n * elements dims.now)) }
{
    match dims {
        [] => put_digits(out, digits),
        [dim, rest @ ..] => {
            let factor = dim.unwrap_or(0);
            if factor == 0 {
                return out.extend_from_slice(b"0");
            }
            let mut product = Vec::new(alloc);
            push_product(&mut product, digits, factor, 0)?;
            put_product_with(alloc, out, &product, rest)
        }
    }
}

/// Appends the number of elements of an array.
pub(crate) fn put_product(
    alloc: Global,
    out: &mut Vec<u8>,
    dims: &[Option<u64>],
) -> Result<(), AllocError>
    ensures { OnOk result (out.new.items ≡ out.old.items ++ product_text dims.now) }
{
    put_product_with(alloc, out, &[1], dims)
}
