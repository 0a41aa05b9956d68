//! The script of a sample.
#![tactic(auto)]

ghost use Rattle.std.specs.Prelude.{◌≡◌, ◌<◌, ◌≤◌, ◌^◌, ◌++◌, length, string_bytes, IfOk, OnOk};
ghost use Rattle.sgx_base.specs.Stores.{max_file_size};
ghost use Rattle.sample_script.specs.Sample as spec;

use std::alloc::{AllocError, Global};

/// How many bytes of host memory a sample sets.
const FIRST_BYTES: usize = 512;

/// The number behind this one.
fn next_number(number: u32) -> u32
    ensures number { result ≡ spec.next_number number }
    ensures below { result < 2 ^ 31 }
{
    ((u64::from(number) * 1_103_515_245 + 12_345) % 2_147_483_648) as u32
}

/// The first bytes of host memory.
fn first_bytes(alloc: Global) -> Result<Vec<u8>, AllocError>
    ensures { IfOk result (λ bytes. bytes.items ≡ spec.first_bytes) }
{
    let mut bytes = Vec::new(alloc);
    for place in 0..FIRST_BYTES {
        bytes.push((place % 256) as u8)?;
    }
    Ok(bytes)
}

/// The lines before the calls.
fn first_lines(alloc: Global) -> Result<Vec<u8>, AllocError>
    ensures { IfOk result (λ text. text.items ≡ spec.first_lines) }
{
    let bytes = first_bytes(alloc)?;
    let mut text = Vec::from_slice(alloc, b"bytes 0x10000 ")?;
    text.extend_from_slice(hex::encode(alloc, bytes.as_slice())?.as_bytes())?;
    text.extend_from_slice(b"\nbody f {\nsum r0 buf\nreturn r0\n}\n")?;
    Ok(text)
}

/// The line of a call with a buffer at this address, of this length.
fn call_of(alloc: Global, address: u64, length: u64) -> Result<String, AllocError>
    ensures { IfOk result (λ line. string_bytes line ≡ spec.call_of address length) }
{
    let address = format!(in alloc; "{address:x}")?;
    let length = format!(in alloc; "{length}")?;
    let mut line = String::from_str(alloc, "call f(@0x")?;
    line.push_str(address.as_str())?;
    line.push_str(", ")?;
    line.push_str(length.as_str())?;
    line.push_str(")\n")?;
    Ok(line)
}

/// The line of the call of this place.
fn call_line(alloc: Global, place: u32, number: u32) -> Result<String, AllocError>
    ensures { IfOk result (λ line. string_bytes line ≡ spec.call_line place number) }
{
    let address = 65536 + 64 * (place % 8);
    call_of(alloc, u64::from(address), u64::from(number % 65))
}

/// Appends so many calls.
fn append_calls(alloc: Global, text: &mut Vec<u8>, calls: u32) -> Result<(), AllocError>
    ensures { OnOk result (text.new.items ≡ text.old.items ++ spec.call_lines 0 1 calls) }
{
    let mut number = 1;
    for place in 0..calls {
        number = next_number(number);
        text.extend_from_slice(call_line(alloc, place, number)?.as_bytes())?;
    }
    Ok(())
}

/// The script of a sample of so many calls, from 1 to 8000.
///
/// Host memory begins with 512 bytes, each the low byte of its place, and `f` gives the sum of its buffer's bytes. The
/// buffers begin at eight places in turn, and their lengths are below 65, by the row of numbers of the C standard's
/// example of `rand`.
pub fn sample(alloc: Global, calls: u32) -> Result<Vec<u8>, AllocError>
    ensures text { IfOk result (λ text. text.items ≡ spec.sample calls) }
    ensures short { calls ≤ 8000 → IfOk result (λ text. length text.items ≤ max_file_size) }
{
    let mut text = first_lines(alloc)?;
    append_calls(alloc, &mut text, calls)?;
    Ok(text)
}
