//! Kinds of lines.

ghost use Rattle.std.specs.Prelude.{◌≡◌};
ghost use Rattle.call_script.specs.Standing as spec;
ghost use Rattle.script_lines.specs.Lines as lines;

use script_lines::Line;

pub fn is_setting(line: &Line) -> bool
    ensures { result ≡ spec.is_setting (lines.line_of line.now) }
{
    matches!(line, Line::Set { .. })
}

/// Whether the host does something.
pub fn is_act(line: &Line) -> bool
    ensures { result ≡ spec.is_act (lines.line_of line.now) }
{
    match line {
        Line::Call { .. }
        | Line::Raw { .. }
        | Line::Poke { .. }
        | Line::Peek { .. }
        | Line::Repeat { .. }
        | Line::Return { .. }
        | Line::Status { .. } => true,
        _ => false,
    }
}

/// Whether a body does something.
pub fn is_action(line: &Line) -> bool
    ensures { result ≡ spec.is_action (lines.line_of line.now) }
{
    match line {
        Line::Do(_) | Line::Temp { .. } | Line::Ocall { .. } => true,
        _ => false,
    }
}

pub fn is_thread(line: &Line) -> bool
    ensures { result ≡ spec.is_thread (lines.line_of line.now) }
{
    matches!(line, Line::Thread)
}

pub fn is_racer(line: &Line) -> bool
    ensures { result ≡ spec.is_racer (lines.line_of line.now) }
{
    matches!(line, Line::Racer)
}

pub fn is_repeat(line: &Line) -> bool
    ensures { result ≡ spec.is_repeat (lines.line_of line.now) }
{
    matches!(line, Line::Repeat { .. })
}

pub fn is_race(line: &Line) -> bool
    ensures { result ≡ spec.is_race (lines.line_of line.now) }
{
    matches!(line, Line::Race { .. })
}

pub fn is_temporary(line: &Line) -> bool
    ensures { result ≡ spec.is_temporary (lines.line_of line.now) }
{
    matches!(line, Line::Temp { .. })
}
