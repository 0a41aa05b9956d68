//! The arguments of a line, and the rules that they may break.

ghost use Rattle.std.specs.Prelude.{◌≡◌, ◌==◌, length, zip};
ghost use Rattle.std.specs.List.{list_any};
ghost use Rattle.std.specs.Option.{option_copied};
ghost use Rattle.call_script.specs.Arguments.{is_place_argument_out, is_frame_argument};
ghost use Rattle.call_script.specs.Spelling as spelling;
ghost use Rattle.call_script.specs.Standing as standing;
ghost use Rattle.script_values.specs.Calls as calls;

use edl_interface::{Function, Param};
use script_lines::Arguments;
use script_values::{ArgumentRule, is_frame_argument, is_place_argument_out, is_wide};

/// Whether an argument has an address or an offset that is too large.
pub fn has_place_out(args: &Arguments) -> bool
    ensures { result ≡ list_any is_place_argument_out args.now }
{
    let mut args = args.again();
    while let Some(word) = args.next() {
        if is_place_argument_out(word) {
            return true;
        }
    }
    false
}

/// Whether an argument is a place in a frame.
pub fn has_frame_place(args: &Arguments) -> bool
    ensures { result ≡ list_any is_frame_argument args.now }
{
    let mut args = args.again();
    while let Some(word) = args.next() {
        if is_frame_argument(word) {
            return true;
        }
    }
    false
}

/// Whether an argument is a number above 64 bits.
pub fn has_wide_number(args: &Arguments) -> bool
    ensures { result ≡ list_any spelling.is_wide args.now }
{
    let mut args = args.again();
    while let Some(word) = args.next() {
        if is_wide(word) {
            return true;
        }
    }
    false
}

fn are_left(count: usize, args: &mut Arguments) -> bool
    ensures { result ≡ (length args.old == count) }
{
    match args.next() {
        Some(_) => count != 0 && are_left(count - 1, args),
        None => count == 0,
    }
}

/// Whether there are so many arguments.
pub fn are_so_many(count: usize, args: &Arguments) -> bool
    ensures { result ≡ (length args.now == count) }
{
    are_left(count, &mut args.again())
}

fn is_broken_among(rule: &ArgumentRule, params: &[Param], args: &mut Arguments) -> bool
    ensures { result ≡ list_any (λ p. calls.is_broken rule.now p.0 p.1) (zip params.now args.old) }
{
    let [param, params @ ..] = params else {
        return false;
    };
    let Some(word) = args.next() else {
        return false;
    };
    rule.is_broken(param, word) || is_broken_among(rule, params, args)
}

/// Whether an argument breaks the rule at its parameter, where the function is known.
pub fn argument_breaks(rule: &ArgumentRule, function: Option<&Function>, args: &Arguments) -> bool
    ensures { result ≡ standing.any_argument (calls.is_broken rule.now) (option_copied function.entry) args.now }
{
    match function {
        Some(function) => is_broken_among(rule, function.params.as_slice(), &mut args.again()),
        None => false,
    }
}

/// Whether there is not one argument for each parameter, where the function is known.
pub fn has_other_count(function: Option<&Function>, args: &Arguments) -> bool
    ensures { result ≡ standing.has_other_count (option_copied function.entry) args.now }
{
    match function {
        Some(function) => !are_so_many(function.params.len(), args),
        None => false,
    }
}
