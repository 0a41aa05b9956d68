//! The rules of lines in handlers, and of the blocks around a line.

ghost use Rattle.std.specs.Prelude.{◌≡◌, ◌==◌, is_some, length};
ghost use Rattle.std.specs.Option.{option_copied};
ghost use Rattle.edl_interface.specs.declared.Interface.{Interface as Functions};
ghost use Rattle.edl_interface.specs.Parameters as parameters;
ghost use Rattle.call_script.specs.Block as block;
ghost use Rattle.call_script.specs.Faults as spec;
ghost use Rattle.call_script.specs.Standing as standing;
ghost use Rattle.call_script.specs.Standing.{Standing};
ghost use Rattle.script_lines.specs.Lines as lines;

use crate::call_words::has_frame_place;
use edl_interface::Function;
use script_lines::{Line, Scope};
use script_values::{NamedInterface, is_in_frame};

/// The function whose handler stands at a place.
pub fn handled_function<'a>(interface: &NamedInterface<'a>, scope: Scope) -> Option<&'a Function>
    ensures { option_copied result ≡ standing.handled_function interface.now (lines.scope_of scope.entry) }
{
    match scope {
        Scope::InHandler { name } => interface.ocalls().named(name),
        _ => None,
    }
}

pub fn is_handler(scope: Scope) -> bool
    ensures { result ≡ standing.is_handler (lines.scope_of scope.entry) }
{
    match scope {
        Scope::InHandler { .. } => true,
        _ => false,
    }
}

fn is_switchless(handled: Option<&Function>) -> bool
    ensures { result ≡ standing.is_function (λ f. f.switchless) (option_copied handled.entry) }
{
    match handled {
        Some(function) => function.switchless,
        None => false,
    }
}

fn has_frame(handled: Option<&Function>) -> bool
    ensures { result ≡ standing.is_function parameters.has_frame (option_copied handled.entry) }
{
    match handled {
        Some(function) => !function.params.is_empty() || function.ret.is_some(),
        None => false,
    }
}

fn has_return(handled: Option<&Function>) -> bool
    ensures { result ≡ standing.is_function (λ f. is_some f.ret) (option_copied handled.entry) }
{
    match handled {
        Some(function) => function.ret.is_some(),
        None => false,
    }
}

/// Call in a switchless handler, where the handler is one of this function.
pub fn calls_in_switchless_handler(handled: Option<&Function>, line: &Line) -> bool
    ensures { (i : Functions) (s : Standing)
        → option_copied handled.entry ≡ standing.handled_function i (block.scope_at s.here)
        → result ≡ spec.calls_in_switchless_handler i s (lines.line_of line.now) }
{
    match line {
        Line::Call { .. } | Line::Raw { .. } => is_switchless(handled),
        _ => false,
    }
}

/// Only with a frame, where the handler is one of this function.
pub fn lacks_its_frame(handled: Option<&Function>, in_handler: bool, line: &Line) -> bool
    ensures { (i : Functions) (s : Standing)
        → option_copied handled.entry ≡ standing.handled_function i (block.scope_at s.here)
        → in_handler ≡ standing.is_handler (block.scope_at s.here)
        → result ≡ spec.lacks_its_frame i s (lines.line_of line.now) }
{
    match line {
        Line::Poke { place, .. } => is_in_frame(*place) && !has_frame(handled),
        Line::Peek { place, .. } => is_in_frame(*place) && !has_frame(handled),
        Line::Call { args, .. } => has_frame_place(args) && !has_frame(handled),
        Line::Return { .. } => !has_return(handled),
        Line::Status { .. } => !in_handler,
        _ => false,
    }
}

fn opens(line: &Line) -> bool
    ensures { result ≡ block.opens (lines.line_of line.now) }
{
    match line {
        Line::Body { .. }
        | Line::Handler { .. }
        | Line::Thread
        | Line::Racer
        | Line::Repeat { .. } => true,
        _ => false,
    }
}

/// Block not closed or not begun: whether it is left open, and whether none is around the line.
pub fn is_unpaired(is_left: bool, is_outermost: bool, line: &Line) -> bool
    ensures { (s : Standing) → is_outermost ≡ (length s.here.blocks == 0)
        → result ≡ spec.is_unpaired is_left s (lines.line_of line.now) }
{
    match line {
        Line::Close => is_outermost,
        _ => opens(line) && is_left,
    }
}
