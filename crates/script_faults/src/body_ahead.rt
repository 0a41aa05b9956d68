//! What a body has, by looking ahead to its end.

ghost use Rattle.std.specs.Prelude.{◌≡◌, ◌∷◌, ◌++◌, ◌≤◌, ◌<◌, ◌+◌, [], length, cond, filter_map, count_by, option_map, IfOk, IfSome, MatchOption};
ghost use Rattle.sgx_base.specs.Stores.{max_file_size};
ghost use Rattle.call_script.specs.Standing as standing;
ghost use Rattle.script_lines.specs.Lines as lines;
ghost use Rattle.script_faults.specs.Bodies as spec;
ghost use Rattle.script_faults.specs.Names.{listed};

use crate::names::temporary_name;
use script_lines::{Line, Scope, line_in};
use script_rules::is_action;
use script_words::NumberedLines;
use sgx_base::Name;
use sqlite_items::Items;
use std::alloc::{AllocError, Global};

fn is_close(line: &Line) -> bool
    ensures { result ≡ spec.is_close (lines.line_of line.now) }
{
    matches!(line, Line::Close)
}

/// Takes the next line of a body of this name. Lines of no form are passed over.
fn next_in_body<'a>(name: &'a [u8], rest: &mut NumberedLines<'a>) -> Option<Line<'a>>
    ensures value { MatchOption result (spec.lines_of_body name.now rest.old ≡ [])
        (λ line. spec.lines_of_body name.now rest.old
        ≡ lines.line_of line ∷ spec.lines_of_body name.now rest.new) }
    ensures fewer { IfSome result (λ _. length rest.new + 1 ≤ length rest.old) }
{
    while let Some(mut line) = rest.next() {
        if let Some(line) = line_in(Scope::InBody { name }, &mut line.words) {
            return if is_close(&line) { None } else { Some(line) };
        }
    }
    None
}

/// Puts the name of the line's temporary behind these, if it gives one.
fn put_temporary(
    alloc: Global,
    temporaries: &mut Items<Name>,
    line: &Line,
) -> Result<(), AllocError>
    ensures { IfOk result (λ _. temporaries.new
        ≡ temporaries.old ++ listed (standing.temporary_name (lines.line_of line.now))) }
{
    if let Some(name) = temporary_name(line) {
        let name = Name::new(alloc, name)?;
        temporaries.push(name)?;
    }
    Ok(())
}

/// How many actions the line is.
fn actions_in(line: &Line) -> u32
    ensures { result ≡ cond (standing.is_action (lines.line_of line.now)) 1 0 }
{
    if is_action(line) { 1 } else { 0 }
}

/// The temporaries of a body, and how many actions it has.
#[derive(Drop)]
pub struct BodyAhead {
    pub temporaries: Items<Name>,
    pub actions: u32,
}

/// What a body of this name has whose lines begin with the next.
pub fn look_ahead<'a>(
    alloc: Global,
    name: &'a [u8],
    behind: &NumberedLines<'a>,
) -> Result<BodyAhead, AllocError>
    ensures temporaries { IfOk result (λ a. a.temporaries
        ≡ filter_map standing.temporary_name (spec.lines_of_body name.now behind.now)) }
    ensures actions { IfOk result (λ a. a.actions
        ≡ count_by standing.is_action (spec.lines_of_body name.now behind.now)) }
    ensures few { IfOk result (λ a. length a.temporaries ≤ max_file_size + 1) }
{
    let mut lines = behind.again();
    let mut temporaries = Items::new(alloc);
    let mut actions = 0;
    while let Some(line) = next_in_body(name, &mut lines) {
        put_temporary(alloc, &mut temporaries, &line)?;
        actions += actions_in(&line);
    }
    Ok(BodyAhead {
        temporaries,
        actions,
    })
}
