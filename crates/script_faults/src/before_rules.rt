//! The rules that look at the lines before a line.

ghost use Rattle.std.specs.Prelude.{◌≡◌, not, filter_map, None, unwrap_or};
ghost use Rattle.std.specs.List.{list_any, last_or};
ghost use Rattle.call_script.specs.Faults as spec;
ghost use Rattle.call_script.specs.Settings as setting;
ghost use Rattle.call_script.specs.Standing as standing;
ghost use Rattle.call_script.specs.Standing.{Standing, lines_before};
ghost use Rattle.script_lines.specs.Lines as lines;
ghost use Rattle.script_faults.specs.Given.{AreGiven};

use crate::given::GivenSettings;
use script_lines::Line;
use script_values::WordRule;
use script_words::number_of;

/// Setting given twice.
pub fn is_set_twice(settings: &GivenSettings, line: &Line) -> bool
    ensures { (s : Standing) → AreGiven (lines_before s) settings.now
        → result ≡ spec.is_set_twice s (lines.line_of line.now) }
{
    match line {
        Line::Set { setting, .. } => settings.has(*setting),
        _ => false,
    }
}

/// No such cell, where there are so many.
pub fn has_no_such_cell(cells: u64, line: &Line) -> bool
    ensures { (s : Standing) → cells ≡ standing.setting_before s setting.cells
        → result ≡ spec.has_no_such_cell s (lines.line_of line.now) }
{
    match line {
        Line::Cell { cell, .. } => cells <= number_of(*cell),
        Line::Do(action) => WordRule::NoCell(cells).is_broken_by(action),
        _ => false,
    }
}

/// Races out of order, where the last has this access.
pub fn is_out_of_order(last_access: u64, line: &Line) -> bool
    ensures { (s : Standing)
        → last_access ≡ unwrap_or (last_or None (filter_map standing.access_of (lines_before s))) 0
        → result ≡ spec.is_out_of_order s (lines.line_of line.now) }
{
    match line {
        Line::Race { access, .. } => number_of(*access) < last_access,
        _ => false,
    }
}

/// Setting too late, where a line before is no setting.
pub fn is_set_too_late(has_others: bool, line: &Line) -> bool
    ensures { (s : Standing) → has_others ≡ list_any (λ l. not (standing.is_setting l)) (lines_before s)
        → result ≡ spec.is_set_too_late s (lines.line_of line.now) }
{
    match line {
        Line::Set { .. } => has_others,
        _ => false,
    }
}
