//! Which scripts the engine runs.

ghost use Rattle.std.specs.Prelude.{◌≡◌};
ghost use Rattle.call_engine.specs.Plain as spec;

use call_script::{Script, Settings};

fn has_no_workers(settings: Settings) -> bool
    ensures { result ≡ spec.has_no_workers settings }
{
    settings.tworkers == 0 && settings.uworkers == 0
}

/// Whether the engine runs a script: one of one thread.
pub(crate) fn is_plain(script: &Script) -> bool
    ensures { result ≡ spec.is_plain script.now }
{
    has_no_workers(script.settings)
        && script.racers.as_slice().is_empty()
        && script.threads.as_slice().len() == 1
}
