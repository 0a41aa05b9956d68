//! Strings in memory, whose units have one byte or more.

ghost use Rattle.std.specs.Prelude.{◌≡◌, ◌*◌, ◌/◌, ◌<◌, ◌≤◌, ◌+◌};
ghost use Rattle.sgx_base.specs.Texts.{is_zero_unit, terminated_length as terminated_length_of};

/// The length in bytes of the string up to its first unit 0 and with it.
///
/// The unit is a number of bytes. None where no whole unit is 0.
pub fn terminated_length(bytes: &[u8], unit: u32) -> Option<usize>
    requires { 1 ≤ unit }
    ensures { result ≡ terminated_length_of unit bytes.now }
{
    let size = unit as usize;
    for i in 0..bytes.len() / size {
        let (at, end) = unit_bounds(bytes.len(), size, i);
        if is_zero(&bytes[at..end]) {
            return Some(end);
        }
    }
    None
}

/// Where the unit of this number begins and ends, where it is whole within so many bytes.
fn unit_bounds(len: usize, size: usize, i: usize) -> (usize, usize)
    requires some { 1 ≤ size }
    requires whole { i < len / size }
    ensures at { result.0 ≡ i * size }
    ensures end { result.1 ≡ (i + 1) * size }
    ensures within { result.1 ≤ len }
{
    (i * size, (i + 1) * size)
}

fn is_zero(unit: &[u8]) -> bool
    ensures { result ≡ is_zero_unit unit.now }
{
    unit.iter().all(|byte| *byte == 0)
}
