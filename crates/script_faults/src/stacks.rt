//! The rule of stacks, which is no line's.

ghost use Rattle.std.specs.Prelude.{◌≡◌, ◌≤◌, ◌∷◌, if◌then◌else◌, List, count_by};
ghost use Rattle.call_script.specs.Faults as spec;
ghost use Rattle.call_script.specs.Line as form;
ghost use Rattle.call_script.specs.Settings as setting;
ghost use Rattle.call_script.specs.Standing as standing;
ghost use Rattle.script_faults.specs.Before.{IsBefore};

use crate::before::Before;
use script_lines::Setting;

/// How many stacks of trusted workers there are.
fn worker_stacks(racing: bool, before: &Before) -> u64
    ensures { (ls : List form.Line) → IsBefore ls before.now
        → result ≡ (if racing then standing.setting_in ls setting.tworkers else 0) }
{
    if racing {
        before.settings.number(Setting::TrustedWorkers)
    } else {
        0
    }
}

/// Stacks do not fit.
pub fn stacks_do_not_fit(racing: bool, before: &Before) -> bool
    ensures { (ls : List form.Line) → IsBefore ls before.now
        → count_by standing.is_thread (form.Thread ∷ ls) ≤ spec.max_threads
        → result ≡ spec.stacks_do_not_fit racing ls }
{
    let threads = 8u32.saturating_sub(before.room.threads);
    let count = u128::from(threads) + u128::from(worker_stacks(racing, before));
    let stack = before.settings.number(Setting::Stack);
    let host = before.settings.number(Setting::Host);
    count.saturating_mul(u128::from(stack)) > u128::from(host)
}
