//! The settings of a script.

ghost use Rattle.std.specs.Prelude.{◌≡◌, ◌∷◌, List, None, MatchOption, option_map};
ghost use Rattle.call_script.specs.Spelling.{Word};
ghost use Rattle.call_script.specs.Settings as settings;
ghost use Rattle.script_lines.specs.Tables as spec;
ghost use Rattle.script_lines.specs.Lines as lines;

use crate::line::{Line, Setting};
use crate::shapes::{Shape, one, says};
use script_words::Words;
use sgx_base::read_number;

/// The setting of this name.
#[tactic(auto, using(crate::proofs::ShapeLaws::same_word, crate::proofs::SettingLaws::no_setting))]
fn setting(word: &[u8]) -> Option<Setting>
    ensures { MatchOption result ((ws : List Word) → spec.setting_line (word.now ∷ ws) ≡ None)
        (λ s. word.now ≡ (lines.setting_of s).word) }
{
    if says(word, b"host") {
        Some(Setting::Host)
    } else if says(word, b"stack") {
        Some(Setting::Stack)
    } else if says(word, b"arena") {
        Some(Setting::Arena)
    } else if says(word, b"cells") {
        Some(Setting::Cells)
    } else if says(word, b"retries") {
        Some(Setting::Retries)
    } else if says(word, b"tworkers") {
        Some(Setting::TrustedWorkers)
    } else if says(word, b"uworkers") {
        Some(Setting::UntrustedWorkers)
    } else if says(word, b"slots") {
        Some(Setting::Slots)
    } else {
        None
    }
}

/// The setting that begins with this word, and goes on with these.
#[tactic(auto, using(crate::proofs::SettingLaws::setting_row))]
pub fn setting_line<'a>(word: &[u8], words: &mut Words<'a>) -> Option<Line<'a>>
    ensures { option_map lines.line_of result ≡ spec.setting_line (word.now ∷ words.old) }
{
    let setting = setting(word)?;
    let number = one(words, Shape::Number)?;
    Some(Line::Set { setting, number })
}

impl Setting {
    /// The least number that it may be.
    pub fn least(self) -> u32
        ensures { result ≡ (lines.setting_of self).least }
    {
        match self {
            Setting::Host | Setting::Arena => 4096,
            Setting::Stack => 256,
            Setting::Slots => 1,
            Setting::Cells
            | Setting::Retries
            | Setting::TrustedWorkers
            | Setting::UntrustedWorkers => 0,
        }
    }

    /// The most that it may be.
    pub fn most(self) -> u32
        ensures { result ≡ (lines.setting_of self).most }
    {
        match self {
            Setting::Host | Setting::Arena => 65536,
            Setting::Stack => 32768,
            Setting::Cells => 64,
            Setting::Retries => 1000,
            Setting::TrustedWorkers | Setting::UntrustedWorkers => 4,
            Setting::Slots => 8,
        }
    }

    /// The number that it is a multiple of.
    pub fn unit(self) -> u32
        ensures { result ≡ (lines.setting_of self).unit }
    {
        match self {
            Setting::Host | Setting::Stack | Setting::Arena => 16,
            Setting::Cells
            | Setting::Retries
            | Setting::TrustedWorkers
            | Setting::UntrustedWorkers
            | Setting::Slots => 1,
        }
    }

    /// What it is without a line.
    pub fn default(self) -> u32
        ensures { result ≡ (lines.setting_of self).default }
    {
        match self {
            Setting::Host | Setting::Arena => 4096,
            Setting::Stack => 1024,
            Setting::Cells => 16,
            Setting::Retries => 100,
            Setting::TrustedWorkers | Setting::UntrustedWorkers => 0,
            Setting::Slots => 4,
        }
    }

    /// Whether the word is a number that it may be.
    pub fn is_value(self, word: &[u8]) -> bool
        ensures { result ≡ settings.is_value_of (lines.setting_of self) word.now }
    {
        match read_number(word) {
            Some(number) => {
                u64::from(self.least()) <= number
                    && number <= u64::from(self.most())
                    && number % u64::from(self.unit()) == 0
            }
            None => false,
        }
    }
}
