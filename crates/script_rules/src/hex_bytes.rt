//! How many bytes hexadecimal digits spell.

ghost use Rattle.std.specs.Prelude.{◌≡◌, ◌≤◌, length};
ghost use Rattle.call_script.specs.Arguments.{bytes_of};
ghost use Rattle.call_script.specs.Faults as faults;
ghost use Rattle.call_script.specs.Standing as standing;
ghost use Rattle.script_lines.specs.Lines as lines;

use script_lines::Line;
use script_values::is_bad_hex;

/// How many bytes the word spells, 0 where it spells none.
#[tactic(auto, using(crate::proofs::HexLaws::counted, crate::proofs::HexLaws::none_spelled))]
pub fn byte_count(hex: &[u8]) -> u64
    ensures { result ≡ length (bytes_of hex.now) }
{
    if is_bad_hex(hex) {
        0
    } else {
        (hex.len() / 2) as u64
    }
}

/// How many bytes are written, 1 where the word is bad hex.
pub fn written_count(hex: &[u8]) -> u64
    ensures { result ≡ faults.hex_count hex.now }
{
    if is_bad_hex(hex) { 1 } else { byte_count(hex) }
}

/// How many bytes the race of a line writes.
pub fn race_length(line: &Line) -> u64
    ensures { result ≡ standing.race_length (lines.line_of line.now) }
{
    match line {
        Line::Race { hex, .. } => byte_count(*hex),
        _ => 0,
    }
}
