//! The code of a line's fault: that of the first rule that it breaks.

ghost use Rattle.std.specs.Prelude.{◌≡◌, ◌==◌, if◌then◌else◌, length, Some};
ghost use Rattle.call_script.specs.Faults.{rows};
ghost use Rattle.call_script.specs.Standing.{Standing};
ghost use Rattle.script_lines.specs.Lines as lines;
ghost use Rattle.script_lines.specs.Nesting as nesting;
ghost use Rattle.script_faults.specs.Codes as spec;

use crate::before::Before;
use crate::before_rules::{has_no_such_cell, is_out_of_order, is_set_too_late, is_set_twice};
use crate::limit_rules::{BodyRoom, is_one_too_many};
use crate::temporaries::is_given_twice;
use edl_interface::Param;
use script_lines::{Blocks, Line, Setting};
use script_rules::{
    calls_in_switchless_handler, handled_function, has_address_outside_host, has_bad_hex,
    has_misfit, has_number_out_of_range, has_unknown_function, has_unknown_name,
    has_wrong_arguments, is_for_other_program, is_handler, is_not_understood, is_unpaired,
    lacks_its_frame, skips_past_end,
};
use script_values::{BodyNames, NamedInterface};
use sgx_base::Name;

/// What the body around a line is, where it stands in one.
#[derive(Drop)]
pub struct BodyAround<'a> {
    pub params: &'a [Param],
    pub names: BodyNames<'a>,
    /// The temporaries of the lines before.
    pub temporaries: &'a [Name],
    pub room: BodyRoom,
    /// How many actions stand behind the line.
    pub behind: u64,
}

/// The program that a script is for, and whether the block that a line opens is left open.
#[derive(Clone, Copy)]
pub struct Asked {
    pub racing: bool,
    pub is_left: bool,
}

/// Whether no block is around a line.
#[tactic(auto, using(crate::proofs::AroundLaws::no_innermost))]
fn are_none(blocks: &Blocks) -> bool
    ensures { result ≡ (length (nesting.open_blocks blocks.now) == 0) }
{
    blocks.innermost().is_none()
}

/// This code where the rule is broken, and else the one of the rules behind.
fn code_or(is_broken: bool, code: u8, behind: Option<u8>) -> Option<u8>
    ensures { result ≡ (if is_broken then Some code else behind) }
{
    if is_broken { Some(code) } else { behind }
}

/// The code of the line's fault: that of the first rule that it breaks.
pub fn code_of(
    interface: &NamedInterface,
    asked: Asked,
    before: &Before,
    blocks: &Blocks,
    body: &BodyAround,
    line: &Line,
) -> Option<u8>
    ensures { (s : Standing)
        → spec.StandsIn interface.now s (lines.line_of line.now) before.now blocks.now body.now
        → result ≡ spec.first_code (rows interface.now asked.racing asked.is_left s (lines.line_of line.now)) }
{
    let scope = blocks.scope();
    let handled = handled_function(interface, scope);
    let in_handler = is_handler(scope);
    let around = blocks.from_outside.as_slice();
    let is_outermost = are_none(blocks);
    let cells = before.settings.number(Setting::Cells);
    let host = before.settings.number(Setting::Host);
    let code = code_or(is_set_too_late(before.has_others, line), 20, None);
    let code = code_or(lacks_its_frame(handled, in_handler, line), 19, code);
    let code = code_or(has_bad_hex(interface, line), 18, code);
    let code = code_or(
        is_one_too_many(before.room, body.room, around, line),
        16,
        code,
    );
    let code = code_or(calls_in_switchless_handler(handled, line), 15, code);
    let code = code_or(is_for_other_program(asked.racing, line), 14, code);
    let code = code_or(is_out_of_order(before.last_access, line), 13, code);
    let code = code_or(is_unpaired(asked.is_left, is_outermost, line), 12, code);
    let code = code_or(
        is_given_twice(&before.names, body.params, body.temporaries, line),
        11,
        code,
    );
    let code = code_or(has_no_such_cell(cells, line), 10, code);
    let code = code_or(skips_past_end(body.behind, line), 9, code);
    let code = code_or(has_unknown_name(interface, &body.names, line), 8, code);
    let code = code_or(has_misfit(interface, line), 7, code);
    let code = code_or(has_wrong_arguments(interface, &body.names, line), 6, code);
    let code = code_or(has_unknown_function(interface, line), 5, code);
    let code = code_or(has_address_outside_host(host, line), 4, code);
    let code = code_or(is_set_twice(&before.settings, line), 3, code);
    let code = code_or(has_number_out_of_range(line), 2, code);
    code_or(is_not_understood(line), 1, code)
}
