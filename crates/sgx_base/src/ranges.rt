//! Tests on ranges of addresses.

ghost use Rattle.std.specs.Prelude.{◌≡◌, ◌≤◌, ◌+◌, ◌-◌, ◌^◌, ◌↔◌, max, IsTrue, SomeIff};
ghost use Rattle.sgx_base.specs.Ranges.{IsOutside, IsMapped, IsWithin, is_outside, is_mapped, is_within, is_host_range};

/// The first address of host memory.
pub const HOST_START: u64 = 0x1_0000;

/// The first address of the enclave.
pub const ENCLAVE_START: u64 = 0x1_0000_0000;

/// The first address past the enclave.
pub const ENCLAVE_END: u64 = 0x1_0100_0000;

/// Whether the n bytes at address a lie outside the enclave.
///
/// An empty range counts as its first address. A range past the last address is not outside.
pub fn outside(a: u64, n: u64) -> bool
    ensures set { IsTrue result ↔ IsOutside a n }
    ensures test { result ≡ is_outside a n }
{
    match last_address(a, n) {
        Some(last) => last < ENCLAVE_START || ENCLAVE_END <= a,
        None => false,
    }
}

/// Whether the n bytes at address a lie in host memory of so many bytes.
///
/// An empty range does, wherever it is.
pub fn mapped(host: u32, a: u64, n: u64) -> bool
    ensures set { IsTrue result ↔ IsMapped host a n }
    ensures test { result ≡ is_mapped host a n }
{
    let host_end = HOST_START + u64::from(host);
    n == 0 || HOST_START <= a && a <= host_end && n <= host_end - a
}

/// Whether the n bytes at address a lie within the size bytes at start.
///
/// An empty range counts as its first address. A range past the last address is not within any.
pub fn within(start: u64, size: u64, a: u64, n: u64) -> bool
    ensures set { IsTrue result ↔ IsWithin start size a n }
    ensures test { result ≡ is_within start size a n }
{
    match last_address(a, n) {
        Some(last) => start <= a && last - start < size,
        None => false,
    }
}

/// Whether the n bytes at address a may be read and written as host memory of so many bytes.
pub fn host_range(host: u32, a: u64, n: u64) -> bool
    ensures { result ≡ is_host_range host a n }
{
    outside(a, n) && mapped(host, a, n)
}

/// The last of the n addresses from a on, and a itself where there are none.
fn last_address(a: u64, n: u64) -> Option<u64>
    ensures { SomeIff result (a + max n 1 ≤ 2 ^ 64) (a + max n 1 - 1) }
{
    a.checked_add(n.max(1) - 1)
}
