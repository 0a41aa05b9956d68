//! Parts of byte lists, and the numbers that they are.
ghost use Rattle.std.specs.Prelude.{ℕ, ◌≡◌, ◌<◌, ◌*◌, ◌^◌, SomeIff};
ghost use Rattle.sgx_base.specs.Bytes.{little_endian, part as part_of};

/// At most `count` bytes from a place on: fewer where the list ends before.
pub(crate) fn part(bytes: &[u8], at: usize, count: usize) -> &[u8]
    ensures { result.now ≡ part_of bytes.now at count }
{
    let rest = &bytes[at.min(bytes.len())..];
    &rest[..count.min(rest.len())]
}

/// The number that the bytes are, the lowest first, or None where it has more than 64 bits.
pub(crate) fn checked_little_endian(bytes: &[u8]) -> Option<u64>
    ensures { SomeIff result (little_endian bytes.now < 2 ^ 64) (little_endian bytes.now) }
{
    let mut value = 0u64;
    for at in (0..bytes.len()).rev() {
        value = value.checked_mul(256)?.checked_add(u64::from(bytes[at]))?;
    }
    Some(value)
}

/// The product of two numbers, where None stands for any number of more than 64 bits.
pub(crate) fn product(first: Option<u64>, second: Option<u64>) -> Option<u64>
    ensures { (x y : ℕ) → SomeIff first (x < 2 ^ 64) x → SomeIff second (y < 2 ^ 64) y
        → SomeIff result (x * y < 2 ^ 64) (x * y) }
{
    match (first, second) {
        (Some(0), _) | (_, Some(0)) => Some(0),
        (Some(x), Some(y)) => x.checked_mul(y),
        _ => None,
    }
}
