//! The races of a script.

ghost use Rattle.std.specs.Prelude.{◌≡◌, ◌≤◌, ◌++◌, length, flat_map, IfOk, OnOk};
ghost use Rattle.std.specs.List.{AllByRecursion};
ghost use Rattle.sgx_base.specs.Stores.{max_file_size};
ghost use Rattle.call_script.specs.Meaning as meaning;
ghost use Rattle.script_lines.specs.Lines as lines;
ghost use Rattle.script_value.specs.Left.{formed_lines};
ghost use Rattle.script_value.specs.Initial.{IsSmallRace};

use crate::lines::{all_lines, next_formed};
use crate::words::index_of;
use script_lines::Line;
use script_values::bytes_of;
use script_words::number_of;
use sqlite_items::Items;
use std::alloc::{AllocError, Global};
use word_port::Race;

/// Adds a race for each byte, in order at following indices.
fn add_bytes(
    races: &mut Items<Race>,
    access: u64,
    index: u64,
    bytes: &[u8],
) -> Result<(), AllocError>
    requires { AllByRecursion IsSmallRace (meaning.races_from access index bytes.now) }
    ensures { OnOk result (races.new ≡ races.old ++ meaning.races_from access index bytes.now) }
{
    let mut place = index;
    for value in bytes {
        races.push(Race {
            at: access as u32,
            index: place as u32,
            value: *value,
        })?;
        place += 1;
    }
    Ok(())
}

/// Adds the races of the line.
fn add_line(alloc: Global, races: &mut Items<Race>, line: &Line) -> Result<(), AllocError>
    requires { AllByRecursion IsSmallRace (meaning.races_in (lines.line_of line.now)) }
    ensures { OnOk result (races.new ≡ races.old ++ meaning.races_in (lines.line_of line.now)) }
{
    if let Line::Race {
        access,
        address,
        hex,
    } = line
    {
        let bytes = bytes_of(alloc, hex)?;
        add_bytes(
            races,
            number_of(access),
            index_of(address),
            bytes.as_slice(),
        )?;
    }
    Ok(())
}

/// The races of a script: each byte of a line is one, in order at following addresses.
#[tactic(auto, using(crate::proofs::RaceLaws::turn, crate::proofs::RaceLaws::end, crate::proofs::RaceLaws::first_small, crate::proofs::RaceLaws::rest_small))]
pub fn races(alloc: Global, bytes: &[u8]) -> Result<Items<Race>, AllocError>
    requires short { length bytes.now ≤ max_file_size }
    requires small { AllByRecursion (λ line. AllByRecursion IsSmallRace (meaning.races_in line)) (formed_lines bytes.now) }
    ensures { IfOk result (λ races. races ≡ flat_map meaning.races_in (formed_lines bytes.now)) }
{
    let mut races = Items::new(alloc);
    let mut lines = all_lines(alloc, bytes);
    loop {
        match next_formed(&mut lines) {
            Ok(Some(line)) => add_line(alloc, &mut races, &line)?,
            Ok(None) => return Ok(races),
            Err(error) => return Err(error),
        }
    }
}
