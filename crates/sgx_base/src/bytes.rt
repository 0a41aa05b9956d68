//! Numbers as bytes, and sizes.

ghost use Rattle.std.specs.Prelude.{ℕ, ◌≡◌, ◌*◌, ◌^◌, ◌<◌, ◌≤◌, length};
ghost use Rattle.sgx_base.specs.Bytes.{little_endian, low_bytes, extension_of, rounded_size, is_divisible};

/// The number that the bytes are, the lowest byte first.
pub fn read_little_endian(bytes: &[u8]) -> u64
    requires { length bytes.now ≤ 8 }
    ensures { result ≡ little_endian bytes.now }
{
    let mut number = 0;
    for i in (0..bytes.len()).rev() {
        number = 256 * number + u64::from(bytes[i]);
    }
    number
}

/// The eight bytes of a number, the lowest first.
pub fn little_endian_bytes(n: u64) -> [u8; 8]
    ensures { result ≡ low_bytes 8 n }
{
    n.to_le_bytes()
}

/// A number of so many bytes as one of 64 bits: by its sign where it is signed, else with zeros.
pub fn extended(size: u32, signed: bool, n: u64) -> u64
    requires some { 1 ≤ size }
    requires at_most_eight { size ≤ 8 }
    requires fits { n < 2 ^ (8 * size) }
    ensures { result ≡ extension_of size signed n }
{
    let sign_bit = 1 << (8 * size - 1);
    if signed && sign_bit <= n {
        n + (u64::MAX - (sign_bit - 1) - sign_bit)
    } else {
        n
    }
}

/// The size rounded up to a multiple of 16.
pub fn rounded(n: u32) -> u64
    ensures { result ≡ rounded_size n }
{
    (u64::from(n) + 15) / 16 * 16
}

/// Whether n bytes are whole elements of unit bytes each. Only 0 is divisible by 0.
pub fn divisible(n: u64, unit: u64) -> bool
    ensures { result ≡ is_divisible n unit }
{
    n.is_multiple_of(unit)
}
