//! What the lines before a line give together.

ghost use Rattle.std.specs.Prelude.{◌≡◌, ◌∷◌, ◌++◌, ◌||◌, [], List, not, IfOk};
ghost use Rattle.call_script.specs.Line as form;
ghost use Rattle.call_script.specs.Standing as standing;
ghost use Rattle.script_lines.specs.Lines as lines;
ghost use Rattle.script_faults.specs.Before as spec;

use crate::given::GivenSettings;
use crate::names::GivenNames;
use crate::room::Room;
use script_lines::Line;
use script_rules::is_setting;
use sgx_base::read_number;
use std::alloc::{AllocError, Global};

fn access_of(line: &Line) -> Option<u64>
    ensures { result ≡ standing.access_of (lines.line_of line.now) }
{
    match line {
        Line::Race { access, .. } => read_number(*access),
        _ => None,
    }
}

/// Whether the line is no setting, or one before it is none.
fn is_other_among(before: bool, line: &Line) -> bool
    ensures { result ≡ (before || not (standing.is_setting (lines.line_of line.now))) }
{
    before || !is_setting(line)
}

/// What the lines before a line give together.
#[derive(Drop)]
pub struct Before<'a> {
    pub settings: GivenSettings,
    pub names: GivenNames<'a>,
    pub room: Room,
    /// The access of the last race, 0 where there is none.
    pub last_access: u64,
    /// Whether a line is no setting.
    pub has_others: bool,
}

impl<'a> Before<'a> {
    pub fn new(alloc: Global) -> Before<'a>
        ensures { spec.IsBefore [] result }
    {
        Before {
            settings: GivenSettings::new(alloc),
            names: GivenNames::new(alloc),
            room: Room::new(),
            last_access: 0,
            has_others: false,
        }
    }

    /// Goes past a line.
    pub fn pass(&mut self, line: &Line<'a>) -> Result<(), AllocError>
        ensures { IfOk result (λ _. (ls : List form.Line) → spec.IsBefore ls self.old
            → spec.IsBefore (ls ++ lines.line_of line.now ∷ []) self.new) }
    {
        self.settings.pass(line)?;
        self.names.pass(line)?;
        self.room = self.room.behind(line);
        self.last_access = access_of(line).unwrap_or(self.last_access);
        self.has_others = is_other_among(self.has_others, line);
        Ok(())
    }
}
