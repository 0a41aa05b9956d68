//! The rules of lines in bodies.

ghost use Rattle.std.specs.Prelude.{◌≡◌, ◌&&◌, ◌||◌, true, is_none, count_by};
ghost use Rattle.std.specs.Option.{option_copied};
ghost use Rattle.edl_interface.specs.declared.Interface.{Interface as Functions};
ghost use Rattle.call_script.specs.Faults as spec;
ghost use Rattle.call_script.specs.BodyNames as script_names;
ghost use Rattle.call_script.specs.Line as form;
ghost use Rattle.call_script.specs.Parts as parts;
ghost use Rattle.call_script.specs.Spelling as spelling;
ghost use Rattle.call_script.specs.Standing as standing;
ghost use Rattle.call_script.specs.Standing.{Standing};
ghost use Rattle.script_lines.specs.Lines as lines;

use crate::call_words::{argument_breaks, has_other_count};
use edl_interface::Function;
use script_lines::{Arguments, Line};
use script_values::{
    ArgumentRule, BodyNames, NamedInterface, WordRule, is_dotted_name, register_of,
};

/// Whether there is not one argument for each parameter of an OCALL, or one does not fit.
fn is_wrong_pass(names: &BodyNames, function: Option<&Function>, args: &Arguments) -> bool
    ensures { result ≡ (standing.has_other_count (option_copied function.entry) args.now
        || standing.any_argument (script_names.is_wrong_pass names.now) (option_copied function.entry) args.now) }
{
    has_other_count(function, args)
        || argument_breaks(&ArgumentRule::WrongPass(names), function, args)
}

/// Wrong arguments: their count, or the form of one.
pub fn has_wrong_arguments(interface: &NamedInterface, names: &BodyNames, line: &Line) -> bool
    ensures { (s : Standing)
        → (standing.is_action (lines.line_of line.now) ≡ true → names.now ≡ standing.names_at interface.now s)
        → result ≡ spec.has_wrong_arguments interface.now s (lines.line_of line.now) }
{
    match line {
        Line::Call { name, args } => {
            let function = interface.ecalls().named(*name);
            has_other_count(function, args)
                || argument_breaks(&ArgumentRule::WrongForm, function, args)
        }
        Line::Ocall { name, args, .. } => {
            is_wrong_pass(names, interface.ocalls().named(*name), args)
        }
        _ => false,
    }
}

fn is_no_register(word: &[u8]) -> bool
    ensures { result ≡ (spelling.is_dotted_name word.now && is_none (script_names.register_of word.now)) }
{
    is_dotted_name(word) && register_of(word).is_none()
}

/// Whether a register or an argument of an OCALL is a name that stands for nothing in a body with these names.
fn has_unknown_pass(
    names: &BodyNames,
    returned: &[u8],
    status: &[u8],
    function: Option<&Function>,
    args: &Arguments,
) -> bool
    ensures { result ≡ (parts.is_unknown_name names.now form.Register returned.now
        || parts.is_unknown_name names.now form.Register status.now
        || standing.any_argument (script_names.is_unknown_argument names.now) (option_copied function.entry) args.now) }
{
    is_no_register(returned)
        || is_no_register(status)
        || argument_breaks(&ArgumentRule::UnknownName(names), function, args)
}

/// Unknown name in a body with these names.
pub fn has_unknown_name(interface: &NamedInterface, names: &BodyNames, line: &Line) -> bool
    ensures { (s : Standing)
        → (standing.is_action (lines.line_of line.now) ≡ true → names.now ≡ standing.names_at interface.now s)
        → result ≡ spec.has_unknown_name interface.now s (lines.line_of line.now) }
{
    match line {
        Line::Do(action) => WordRule::UnknownName(names).is_broken_by(action),
        Line::Ocall {
            returned,
            status,
            name,
            args,
        } => {
            let function = interface.ocalls().named(*name);
            has_unknown_pass(names, *returned, *status, function, args)
        }
        _ => false,
    }
}

/// Skip past the end, where so many actions of the body stand behind.
pub fn skips_past_end(left: u64, line: &Line) -> bool
    ensures { (s : Standing)
        → (standing.is_action (lines.line_of line.now) ≡ true
        → left ≡ count_by standing.is_action (standing.beside s s.behind))
        → result ≡ spec.skips_past_end s (lines.line_of line.now) }
{
    match line {
        Line::Do(action) => WordRule::SkipPast(left).is_broken_by(action),
        _ => false,
    }
}
