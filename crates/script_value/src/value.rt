//! The value of a script without a fault.

ghost use Rattle.std.specs.Prelude.{◌≡◌, ◌≤◌, length, Ok, IfOk};
ghost use Rattle.sgx_base.specs.Stores.{max_file_size};
ghost use Rattle.edl_interface.specs.Sound.{IsSound};
ghost use Rattle.call_script.specs.Reading.{script_of};
ghost use Rattle.call_script.specs.Sound.{IsSoundScript};
ghost use Rattle.script_value.specs.Value.{IsFaultless};

use crate::races::races;
use crate::settings::settings;
use crate::words::words;
use call_script::Script;
use script_blocks::{Source, block_lines, bodies, handlers, racers, threads};
use script_values::NamedInterface;
use std::alloc::{AllocError, Global};

/// The script that a text without a fault spells for an interface, in a program with threads or one without.
pub fn value_of(
    alloc: Global,
    text: &[u8],
    interface: &NamedInterface,
    racing: bool,
) -> Result<Script, AllocError>
    requires short { length text.now ≤ max_file_size }
    requires within_limits { IsSound interface.now }
    requires faultless { IsFaultless interface.now racing text.now }
    ensures value { IfOk result (λ s. script_of interface.now racing text.now ≡ Ok s) }
    ensures sound { IfOk result (λ s. IsSoundScript interface.now racing s) }
{
    let settings = settings(alloc, racing, text)?;
    let words = words(alloc, racing, settings, text)?;
    let races = races(alloc, text)?;
    let lines = block_lines(alloc, text)?;
    let source = Source {
        interface,
        lines: lines.as_slice(),
    };
    let bodies = bodies(alloc, &source)?;
    let handlers = handlers(alloc, &source)?;
    let threads = threads(alloc, &source)?;
    let racers = racers(alloc, &source)?;
    Ok(Script {
        settings,
        words,
        races,
        bodies,
        handlers,
        threads,
        racers,
    })
}
