//! The first fault of a script.

ghost use Rattle.std.specs.Prelude.{◌≡◌, ◌≤◌, length, All, IfOk, option_map};
ghost use Rattle.sgx_base.specs.Stores.{max_file_size};
ghost use Rattle.call_script.specs.Block.{placed_lines};
ghost use Rattle.call_script.specs.Faults.{script_fault};
ghost use Rattle.script_laws.specs.FirstFault.{is_outermost};
ghost use Rattle.script_faults.specs.Fault.{fault_of};

use crate::codes::Asked;
use crate::fault::Fault;
use crate::stacks::stacks_do_not_fit;
use crate::walk::SoFar;
use script_lines::left_outermost;
use script_values::NamedInterface;
use script_words::NumberedLines;
use std::alloc::{AllocError, Global};

/// Whether this is the number of the outermost block that is left open.
fn is_left(left: Option<u32>, number: u32) -> bool
    ensures { result ≡ is_outermost left number }
{
    match left {
        Some(left) => left == number,
        None => false,
    }
}

/// The first fault of a script for an interface, where it has one: the least line with a fault, and the lowest code of
/// its faults. That the stacks do not fit is a fault where no line has one, at line 0.
///
/// `racing` says whether the script is for the program with threads and racers, or for that with races.
pub fn first_fault<'a>(
    alloc: Global,
    bytes: &'a [u8],
    interface: &'a NamedInterface,
    racing: bool,
) -> Result<Option<Fault>, AllocError>
    requires params { All (λ f. length f.params ≤ 64) interface.now.ecalls }
    requires short { length bytes.now ≤ max_file_size }
    ensures { IfOk result (λ fault. option_map fault_of fault
        ≡ script_fault interface.now racing (placed_lines bytes.now)) }
{
    let left = left_outermost(alloc, bytes)?;
    let mut so_far = SoFar::new(alloc);
    let mut lines = NumberedLines::new(bytes);
    while let Some(mut line) = lines.next() {
        let number = line.number;
        let is_left = is_left(left, number);
        let asked = Asked { racing, is_left };
        if let Some(code) = so_far.turn(alloc, interface, asked, &mut line, &lines)? {
            return Ok(Some(Fault { line: number, code }));
        }
    }
    if stacks_do_not_fit(racing, &so_far.before) {
        Ok(Some(Fault { line: 0, code: 17 }))
    } else {
        Ok(None)
    }
}
