//! What the lines of a script give to functions by their names: handlers to OCALLs.

ghost use Rattle.std.specs.Prelude.{◌≡◌, ◌<◌, ◌++◌, ◌∷◌, [], List, map, reverse, slice_get, option_and_then, unwrap_or, IfOk, OnOk};
ghost use Rattle.std.specs.List.{AllByRecursion};
ghost use Rattle.call_script.specs.declared.HostAct.{HostAct};
ghost use Rattle.call_script.specs.Standing.{handler_name};
ghost use Rattle.call_script.specs.Meaning.{ordinal_in};
ghost use Rattle.script_lines.specs.Lines as lines;
ghost use Rattle.script_blocks.specs.Blocks as blocks;
ghost use Rattle.script_blocks.specs.Acts as acts;
ghost use Rattle.script_blocks.specs.Slots as spec;

use crate::acts::{Source, block_acts};
use crate::lines::BlockLine;
use call_script::HostAct;
use edl_interface::Function;
use script_lines::Line;
use script_values::NamedFunctions;
use sqlite_items::Items;
use std::alloc::{AllocError, Global};

/// The place of the OCALL whose handler the line opens.
fn handled_place(ocalls: &NamedFunctions, line: &Line) -> Option<usize>
    ensures { result ≡ option_and_then (ordinal_in ocalls.now) (handler_name (lines.line_of line.now)) }
{
    match line {
        Line::Handler { name } => ocalls.place_of(name),
        _ => None,
    }
}

/// Whether the slot at the place is there and has no value.
pub fn is_free<T>(slots: &[Option<T>], place: usize) -> bool
    ensures { result ≡ spec.is_free (slice_get slots.now place) }
{
    match slots.get(place) {
        Some(slot) => slot.is_none(),
        None => false,
    }
}

/// A slot without a value for each function.
pub fn empty_slots<T: Drop>(
    alloc: Global,
    functions: &[Function],
) -> Result<Vec<Option<T>>, AllocError>
    ensures { IfOk result (λ slots. slots.items ≡ spec.empty_slots T functions.now) }
{
    let mut slots = Vec::new(alloc);
    let mut left = functions;
    while let [_, rest @ ..] = left {
        slots.push(None)?;
        left = rest;
    }
    Ok(slots)
}

/// Puts the acts of the handler that the line before these opens into its slot, if it is the first of its OCALL.
#[tactic(auto, using(crate::proofs::SlotLaws::handler_elsewhere, crate::proofs::SlotLaws::handler_taken, crate::proofs::SlotLaws::handler_given, crate::proofs::SlotLaws::free_within))]
fn fill_handler(
    alloc: Global,
    source: &Source,
    slots: &mut Vec<Option<Items<HostAct>>>,
    here: &BlockLine,
    behind: &[BlockLine],
) -> Result<(), AllocError>
    requires good { acts.IsGood source.now }
    requires fits { AllByRecursion acts.Fits (map blocks.home_line behind.now) }
    requires placed { blocks.AreInPlace (acts.lines_of source.now) (map blocks.home_line behind.now) }
    requires whole { blocks.in_block here.now.number (acts.lines_of source.now)
        ≡ blocks.inside here.now.number (map blocks.home_line behind.now) }
    ensures { OnOk result ((rest : List blocks.HomeLine)
        → spec.filled_handlers source.now.interface.now (acts.lines_of source.now) slots.new.items rest
        ≡ spec.filled_handlers source.now.interface.now (acts.lines_of source.now) slots.old.items
        (blocks.home_line here.now ∷ rest)) }
{
    let Some(place) = handled_place(source.interface.ocalls(), &here.line) else {
        return Ok(());
    };
    if !is_free(slots.as_slice(), place) {
        return Ok(());
    }
    let acts = block_acts(alloc, source, here.number, behind)?;
    slots[place] = Some(acts);
    Ok(())
}

/// The acts of the handlers that lines open, each in the slot of its OCALL.
#[tactic(auto, using(crate::proofs::SlotLaws::handlers_end))]
fn filled_handlers(
    alloc: Global,
    source: &Source,
) -> Result<Vec<Option<Items<HostAct>>>, AllocError>
    requires { acts.IsGood source.now }
    ensures { IfOk result (λ slots. slots.items
        ≡ spec.filled_handlers source.now.interface.now (acts.lines_of source.now)
        (spec.empty_slots (List HostAct) source.now.interface.now.ocalls) (acts.lines_of source.now)) }
{
    let mut slots = empty_slots(alloc, source.interface.ocalls().as_slice())?;
    let mut left = source.lines;
    while let [here, behind @ ..] = left {
        fill_handler(alloc, source, &mut slots, here, behind)?;
        left = behind;
    }
    Ok(slots)
}

/// The handlers in the slots, the last first. A function without a handler has one without acts.
fn push_handlers(
    alloc: Global,
    handlers: &mut Items<Items<HostAct>>,
    slots: Vec<Option<Items<HostAct>>>,
) -> Result<(), AllocError>
    ensures { OnOk result (handlers.new ≡ handlers.old ++ map (λ slot. unwrap_or slot []) (reverse slots.items)) }
{
    let mut slots = slots;
    while let Some(slot) = slots.pop() {
        handlers.push(slot.unwrap_or(Items::new(alloc)))?;
    }
    Ok(())
}

/// What the host does for each OCALL.
pub fn handlers(alloc: Global, source: &Source) -> Result<Items<Items<HostAct>>, AllocError>
    requires { acts.IsGood source.now }
    ensures { IfOk result (λ handlers. handlers
        ≡ spec.handlers_of source.now.interface.now (acts.lines_of source.now)) }
{
    let mut slots = filled_handlers(alloc, source)?;
    slots.reverse();
    let mut handlers = Items::new(alloc);
    push_handlers(alloc, &mut handlers, slots)?;
    Ok(handlers)
}
