//! The rules that look at a line alone.

ghost use Rattle.std.specs.Prelude.{◌≡◌, ◌∷◌, [], nat_eq};
ghost use Rattle.std.specs.List.{list_any};
ghost use Rattle.call_script.specs.Faults as spec;
ghost use Rattle.call_script.specs.Standing as standing;
ghost use Rattle.script_lines.specs.Lines as lines;

use crate::call_words::{argument_breaks, has_place_out, has_wide_number};
use script_lines::Line;
use script_values::{
    ArgumentRule, NamedFunctions, NamedInterface, WordRule, is_bad_hex, is_dotted_name,
    is_place_out, is_wide,
};
use script_words::{is_out_of, number_of};

/// Line not understood: a word that is no name, where one has to be.
pub fn is_not_understood(line: &Line) -> bool
    ensures { result ≡ spec.is_not_understood (lines.line_of line.now) }
{
    match line {
        Line::Do(action) => WordRule::NoName.is_broken_by(action),
        Line::Ocall {
            returned,
            status,
            ..
        } => !is_dotted_name(*returned) || !is_dotted_name(*status),
        _ => false,
    }
}

pub fn is_alignment(number: u64) -> bool
    ensures { result ≡ list_any (nat_eq number) (1 ∷ 2 ∷ 4 ∷ 8 ∷ 16 ∷ []) }
{
    number == 1 || number == 2 || number == 4 || number == 8 || number == 16
}

/// Number out of range.
pub fn has_number_out_of_range(line: &Line) -> bool
    ensures { result ≡ spec.has_number_out_of_range (lines.line_of line.now) }
{
    match line {
        Line::Set { setting, number } => !setting.is_value(*number),
        Line::Foreign {
            size,
            alignment,
            ..
        } => is_out_of(1, 65536, *size) || !is_alignment(number_of(*alignment)),
        Line::Bytes { address, .. } => is_wide(*address),
        Line::Cell { cell, value } => is_wide(*cell) || is_wide(*value),
        Line::Race {
            access,
            address,
            ..
        } => is_out_of(1, 4294967295, *access) || is_wide(*address),
        Line::Call { args, .. } => has_place_out(args),
        Line::Raw { ordinal, address } => is_out_of(0, 4294967295, *ordinal) || is_wide(*address),
        Line::Poke { place, .. } => is_place_out(*place),
        Line::Peek { place, length } => is_place_out(*place) || is_out_of(1, 4096, *length),
        Line::Repeat { times } => is_out_of(1, 10000, *times),
        Line::Return { value } => is_wide(*value),
        Line::Status { status } => is_out_of(0, 0xffff, *status),
        Line::Do(action) => WordRule::WideNumber.is_broken_by(action),
        Line::Temp { size, .. } => is_out_of(1, 65536, *size),
        Line::Ocall { args, .. } => has_wide_number(args),
        _ => false,
    }
}

fn is_unknown(functions: &NamedFunctions, name: &[u8]) -> bool
    ensures { result ≡ standing.is_unknown functions.now name.now }
{
    functions.named(name).is_none()
}

/// Unknown function.
pub fn has_unknown_function(interface: &NamedInterface, line: &Line) -> bool
    ensures { result ≡ spec.has_unknown_function interface.now (lines.line_of line.now) }
{
    match line {
        Line::Call { name, .. } | Line::Body { name } => is_unknown(interface.ecalls(), *name),
        Line::Ocall { name, .. } | Line::Handler { name } => {
            is_unknown(interface.ocalls(), *name)
        }
        _ => false,
    }
}

/// Value does not fit.
pub fn has_misfit(interface: &NamedInterface, line: &Line) -> bool
    ensures { result ≡ spec.has_misfit interface.now (lines.line_of line.now) }
{
    match line {
        Line::Call { name, args } => {
            let function = interface.ecalls().named(*name);
            argument_breaks(&ArgumentRule::Misfit, function, args)
        }
        _ => false,
    }
}

/// Not for this program.
pub fn is_for_other_program(racing: bool, line: &Line) -> bool
    ensures { result ≡ spec.is_for_other_program racing (lines.line_of line.now) }
{
    match line {
        Line::Race { .. } => racing,
        Line::Thread | Line::Racer => !racing,
        _ => false,
    }
}

/// Bad hex.
pub fn has_bad_hex(interface: &NamedInterface, line: &Line) -> bool
    ensures { result ≡ spec.has_bad_hex interface.now (lines.line_of line.now) }
{
    match line {
        Line::Bytes { hex, .. } | Line::Race { hex, .. } | Line::Poke { hex, .. } => {
            is_bad_hex(*hex)
        }
        Line::Call { name, args } => {
            let function = interface.ecalls().named(*name);
            argument_breaks(&ArgumentRule::BadHex, function, args)
        }
        _ => false,
    }
}
