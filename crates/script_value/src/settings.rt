//! The settings of a script.

ghost use Rattle.std.specs.Prelude.{◌≡◌, ◌≤◌, length, IfOk};
ghost use Rattle.std.specs.Str.{bytes_eq};
ghost use Rattle.sgx_base.specs.Stores.{max_file_size};
ghost use Rattle.edl_interface.specs.declared.Interface.{Interface};
ghost use Rattle.call_script.specs.Block.{placed_lines};
ghost use Rattle.call_script.specs.Meaning as meaning;
ghost use Rattle.call_script.specs.Sound.{AreSoundSettings};
ghost use Rattle.call_script.specs.Standing as standing;
ghost use Rattle.script_lines.specs.Lines as lines;
ghost use Rattle.script_value.specs.Left.{formed_lines};
ghost use Rattle.script_value.specs.Initial.{AreInFront, AreSettings};

use crate::lines::{all_lines, next_formed};
use call_script::Settings;
use script_lines::{Line, Setting};
use sgx_base::read_number;
use std::alloc::{AllocError, Global};

fn is_same(a: Setting, b: Setting) -> bool
    ensures { result ≡ bytes_eq (lines.setting_of a).word (lines.setting_of b).word }
{
    a == b
}

/// The number that the line gives to the setting.
fn set_to(setting: Setting, line: &Line) -> Option<u64>
    ensures { result ≡ standing.set_to (lines.setting_of setting) (lines.line_of line.now) }
{
    match *line {
        Line::Set {
            setting: given,
            number,
        } if is_same(setting, given) => read_number(number),
        _ => None,
    }
}

/// Whether the line gives a setting.
fn is_setting(line: &Line) -> bool
    ensures { result ≡ standing.is_setting (lines.line_of line.now) }
{
    match line {
        Line::Set { .. } => true,
        _ => false,
    }
}

/// The number of the setting: the first that a line gives, or what it is without one. The lines behind the settings in
/// front are not read.
#[tactic(auto, using(crate::proofs::SettingLaws::passed, crate::proofs::SettingLaws::behind_front, crate::proofs::SettingLaws::not_given))]
fn number_of_setting(alloc: Global, setting: Setting, bytes: &[u8]) -> Result<u64, AllocError>
    requires short { length bytes.now ≤ max_file_size }
    requires first { AreInFront (formed_lines bytes.now) }
    ensures { IfOk result (λ n. n ≡ standing.setting_in (formed_lines bytes.now) (lines.setting_of setting)) }
{
    let mut lines = all_lines(alloc, bytes);
    loop {
        match next_formed(&mut lines) {
            Ok(Some(line)) => {
                if !is_setting(&line) {
                    return Ok(u64::from(setting.default()));
                }
                if let Some(number) = set_to(setting, &line) {
                    return Ok(number);
                }
            }
            Ok(None) => return Ok(u64::from(setting.default())),
            Err(error) => return Err(error),
        }
    }
}

/// How many workers there are: none in a program without threads.
fn workers(alloc: Global, racing: bool, setting: Setting, bytes: &[u8]) -> Result<u64, AllocError>
    requires short { length bytes.now ≤ max_file_size }
    requires first { AreInFront (formed_lines bytes.now) }
    ensures { (i : Interface) → IfOk result (λ n. n ≡ meaning.if_racing i racing (placed_lines bytes.now)
        (standing.setting_in (formed_lines bytes.now) (lines.setting_of setting))) }
{
    if racing {
        number_of_setting(alloc, setting, bytes)
    } else {
        Ok(0)
    }
}

/// The settings of a script.
pub fn settings(alloc: Global, racing: bool, bytes: &[u8]) -> Result<Settings, AllocError>
    requires short { length bytes.now ≤ max_file_size }
    requires first { AreInFront (formed_lines bytes.now) }
    requires sound { (i : Interface) → AreSoundSettings racing (meaning.settings i racing (placed_lines bytes.now)) }
    ensures { IfOk result (λ s. AreSettings racing bytes.now s) }
{
    Ok(Settings {
        host: number_of_setting(alloc, Setting::Host, bytes)? as u32,
        stack: number_of_setting(alloc, Setting::Stack, bytes)? as u32,
        arena: number_of_setting(alloc, Setting::Arena, bytes)? as u32,
        cells: number_of_setting(alloc, Setting::Cells, bytes)? as u32,
        retries: number_of_setting(alloc, Setting::Retries, bytes)? as u32,
        tworkers: workers(alloc, racing, Setting::TrustedWorkers, bytes)? as u32,
        uworkers: workers(alloc, racing, Setting::UntrustedWorkers, bytes)? as u32,
        slots: number_of_setting(alloc, Setting::Slots, bytes)? as u32,
    })
}
