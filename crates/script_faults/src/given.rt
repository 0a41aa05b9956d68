//! The settings that the lines so far give.

ghost use Rattle.std.specs.Prelude.{◌≡◌, ◌∷◌, ◌++◌, [], List, filter_map, slice_get, is_some, IfOk};
ghost use Rattle.std.specs.List.{list_any};
ghost use Rattle.std.specs.Str.{bytes_eq};
ghost use Rattle.call_script.specs.Line as form;
ghost use Rattle.call_script.specs.Standing as standing;
ghost use Rattle.script_lines.specs.Lines as lines;
ghost use Rattle.script_faults.specs.Given as spec;

use script_lines::{Line, Setting};
use script_words::same;
use sgx_base::read_number;
use sqlite_items::Items;
use std::alloc::{AllocError, Global};

fn word_of(setting: Setting) -> &'static [u8]
    ensures { result.now ≡ (lines.setting_of setting).word }
{
    match setting {
        Setting::Host => b"host",
        Setting::Stack => b"stack",
        Setting::Arena => b"arena",
        Setting::Cells => b"cells",
        Setting::Retries => b"retries",
        Setting::TrustedWorkers => b"tworkers",
        Setting::UntrustedWorkers => b"uworkers",
        Setting::Slots => b"slots",
    }
}

fn have_same_word(first: Setting, second: Setting) -> bool
    ensures { result ≡ bytes_eq (lines.setting_of first).word (lines.setting_of second).word }
{
    same(word_of(first), word_of(second))
}

/// A setting that a line gives, and its number.
#[derive(Clone, Copy)]
pub struct GivenSetting {
    pub setting: Setting,
    pub number: u64,
}

/// The setting that the line gives a number to.
fn setting_given(line: &Line) -> Option<GivenSetting>
    ensures { spec.Gives (lines.line_of line.now) result }
{
    match line {
        Line::Set { setting, number } => match read_number(*number) {
            Some(number) => Some(GivenSetting {
                setting: *setting,
                number,
            }),
            None => None,
        },
        _ => None,
    }
}

fn first_number(given: &[GivenSetting], setting: Setting) -> Option<u64>
    ensures { result ≡ slice_get (filter_map (spec.number_given (lines.setting_of setting)) given.now) 0 }
{
    let [first, rest @ ..] = given else {
        return None;
    };
    if have_same_word(setting, first.setting) {
        Some(first.number)
    } else {
        first_number(rest, setting)
    }
}

/// The settings that the lines so far give, in order.
#[derive(Drop)]
pub struct GivenSettings {
    pub given: Items<GivenSetting>,
}

impl GivenSettings {
    pub fn new(alloc: Global) -> GivenSettings
        ensures { spec.AreGiven [] result }
    {
        GivenSettings {
            given: Items::new(alloc),
        }
    }

    /// The number of a setting.
    pub fn number(&self, setting: Setting) -> u64
        ensures { (ls : List form.Line) → spec.AreGiven ls self.now
            → result ≡ standing.setting_in ls (lines.setting_of setting) }
    {
        match first_number(self.given.as_slice(), setting) {
            Some(number) => number,
            None => u64::from(setting.default()),
        }
    }

    /// Whether a line gives a number to the setting.
    pub fn has(&self, setting: Setting) -> bool
        ensures { (ls : List form.Line) → spec.AreGiven ls self.now
            → result ≡ list_any (λ l. is_some (standing.set_to (lines.setting_of setting) l)) ls }
    {
        first_number(self.given.as_slice(), setting).is_some()
    }

    /// Goes past a line.
    pub fn pass(&mut self, line: &Line) -> Result<(), AllocError>
        ensures { IfOk result (λ _. (ls : List form.Line) → spec.AreGiven ls self.old
            → spec.AreGiven (ls ++ lines.line_of line.now ∷ []) self.new) }
    {
        if let Some(given) = setting_given(line) {
            self.given.push(given)?;
        }
        Ok(())
    }
}
