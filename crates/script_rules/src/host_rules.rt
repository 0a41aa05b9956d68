//! The rule of addresses in host memory.

ghost use Rattle.std.specs.Prelude.{◌≡◌};
ghost use Rattle.sgx_base.specs.Numbers.{spelled_number};
ghost use Rattle.sgx_base.specs.Ranges as ranges;
ghost use Rattle.call_script.specs.Faults as spec;
ghost use Rattle.call_script.specs.Settings as setting;
ghost use Rattle.call_script.specs.Standing.{Standing, setting_before};
ghost use Rattle.script_lines.specs.Lines as lines;

use crate::hex_bytes::written_count;
use script_lines::Line;
use script_values::is_in_frame;
use script_words::{is_out_of, number_of};
use sgx_base::read_number;

fn is_mapped(size: u64, address: u64, count: u64) -> bool
    ensures { result ≡ ranges.is_mapped size address count }
{
    count == 0
        || (0x10000 <= address && address - 0x10000 <= size && count <= size - (address - 0x10000))
}

/// Whether not all of so many bytes from an address on lie in a host memory of this size.
fn is_outside(size: u64, address: &[u8], count: u64) -> bool
    ensures { result ≡ spec.is_outside_host_by size (spelled_number address.now) count }
{
    match read_number(address) {
        Some(address) => !is_mapped(size, address, count),
        None => false,
    }
}

/// How many bytes are read, 1 where the number is out of range.
fn peek_count(count: &[u8]) -> u64
    ensures { result ≡ spec.peek_count count.now }
{
    if is_out_of(1, 4096, count) {
        1
    } else {
        number_of(count)
    }
}

/// Address outside host memory, where it has this size.
pub fn has_address_outside_host(size: u64, line: &Line) -> bool
    ensures { (s : Standing) → size ≡ setting_before s setting.host
        → result ≡ spec.has_address_outside_host s (lines.line_of line.now) }
{
    match line {
        Line::Bytes { address, hex } => is_outside(size, *address, written_count(*hex)),
        Line::Race { address, hex, .. } => is_outside(size, *address, written_count(*hex)),
        Line::Poke { place, hex } => {
            !is_in_frame(*place) && is_outside(size, *place, written_count(*hex))
        }
        Line::Peek { place, length } => {
            !is_in_frame(*place) && is_outside(size, *place, peek_count(*length))
        }
        _ => false,
    }
}
