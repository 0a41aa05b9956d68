//! The bodies of functions.

ghost use Rattle.std.specs.Prelude.{◌≡◌, ◌≤◌, ◌++◌, ◌∷◌, [], List, length, map, reverse, slice_get, option_and_then, unwrap_or, IfOk, OnOk};
ghost use Rattle.std.specs.Option.{option_copied};
ghost use Rattle.std.specs.List.{AllByRecursion, cons_option};
ghost use Rattle.sgx_base.specs.Stores.{max_file_size};
ghost use Rattle.edl_interface.specs.Sound.{IsSound};
ghost use Rattle.body_vm.specs.declared.Body as vm;
ghost use Rattle.call_script.specs.Standing.{body_name, params_of, temporary_name};
ghost use Rattle.call_script.specs.Meaning.{ordinal_in};
ghost use Rattle.script_lines.specs.Lines as lines;
ghost use Rattle.script_blocks.specs.Blocks as blocks;
ghost use Rattle.script_blocks.specs.Acts as acts;
ghost use Rattle.script_blocks.specs.Slots as places;
ghost use Rattle.script_blocks.specs.Bodies as spec;

use crate::acts::{Source, argument_words};
use crate::lines::BlockLine;
use crate::slots::{empty_slots, is_free};
use body_vm::{Action, Body};
use edl_interface::{Function, Param};
use script_lines::Line;
use script_values::{BodyNames, NamedFunctions, NamedInterface, OcallWords, ocall, temporary};
use sgx_base::Name;
use sqlite_items::{Items, at};
use std::alloc::{AllocError, Global};

/// The name of the temporary that the line makes.
fn temporary_name(alloc: Global, line: &Line) -> Result<Option<Name>, AllocError>
    ensures { IfOk result (λ name. name ≡ temporary_name (lines.line_of line.now)) }
{
    match line {
        Line::Temp { name, .. } => Ok(Some(Name::new(alloc, name)?)),
        _ => Ok(None),
    }
}

/// Puts the item behind the others, if there is one.
fn push_some<T: Drop>(items: &mut Items<T>, item: Option<T>) -> Result<(), AllocError>
    ensures { OnOk result (items.new ≡ items.old ++ cons_option item []) }
{
    match item {
        Some(item) => items.push(item),
        None => Ok(()),
    }
}

/// Puts the name of the temporary that the line makes behind the others, if it is a line of the block that the line of
/// this number opens.
#[tactic(auto, using(crate::proofs::BodyLaws::own_name, crate::proofs::BodyLaws::other_name))]
fn push_own_name(
    alloc: Global,
    home: u32,
    names: &mut Items<Name>,
    here: &BlockLine,
) -> Result<(), AllocError>
    ensures { OnOk result (names.new
        ≡ names.old ++ spec.temporaries_of (blocks.in_block home (blocks.home_line here.now ∷ []))) }
{
    if here.home != home {
        return Ok(());
    }
    let name = temporary_name(alloc, &here.line)?;
    push_some(names, name)
}

/// The names of the temporaries of the block that the line of this number opens, if all its lines are among these.
#[tactic(auto, using(crate::proofs::BodyLaws::name_turn, crate::proofs::BodyLaws::names_end, crate::proofs::LineLaws::outside))]
fn temporaries(alloc: Global, home: u32, lines: &[BlockLine]) -> Result<Items<Name>, AllocError>
    ensures { IfOk result (λ names. names
        ≡ spec.temporaries_of (blocks.inside home (map blocks.home_line lines.now))) }
{
    let mut names = Items::new(alloc);
    let mut left = lines;
    while let [here, behind @ ..] = left {
        if here.home < home {
            return Ok(names);
        }
        push_own_name(alloc, home, &mut names, here)?;
        left = behind;
    }
    Ok(names)
}

/// The action of the line in a body with these names.
fn action_of(
    alloc: Global,
    interface: &NamedInterface,
    names: &BodyNames,
    line: &Line,
) -> Result<Option<Action>, AllocError>
    requires sound { IsSound interface.now }
    requires fits { acts.IsFitting (lines.line_of line.now) }
    ensures { IfOk result (λ action. action ≡ spec.action_of interface.now names.now (lines.line_of line.now)) }
{
    match line {
        Line::Do(words) => Ok(Some(names.action(words))),
        Line::Temp { name, size } => Ok(Some(temporary(names, name, size))),
        Line::Ocall {
            returned,
            status,
            name,
            args,
        } => {
            let args = argument_words(alloc, args)?;
            let words = OcallWords {
                ret: *returned,
                status: *status,
                name: *name,
                args: args.as_slice(),
            };
            let action = ocall(alloc, interface.ocalls(), names, &words)?;
            Ok(Some(action))
        }
        _ => Ok(None),
    }
}

/// Puts the action of the line behind the others, if it is a line of the block that the line of this number opens.
#[tactic(auto, using(crate::proofs::BodyLaws::own_action, crate::proofs::BodyLaws::other_action))]
fn push_own_action(
    alloc: Global,
    interface: &NamedInterface,
    names: &BodyNames,
    home: u32,
    actions: &mut Items<Action>,
    here: &BlockLine,
) -> Result<(), AllocError>
    requires sound { IsSound interface.now }
    requires fits { acts.IsFitting (lines.line_of here.now.line) }
    ensures { OnOk result (actions.new ≡ actions.old
        ++ spec.actions_of interface.now names.now (blocks.in_block home (blocks.home_line here.now ∷ []))) }
{
    if here.home != home {
        return Ok(());
    }
    let action = action_of(alloc, interface, names, &here.line)?;
    push_some(actions, action)
}

/// The actions of the block that the line of this number opens, if all its lines are among these.
#[tactic(auto, using(crate::proofs::BodyLaws::action_turn, crate::proofs::BodyLaws::actions_end, crate::proofs::LineLaws::outside))]
fn actions(
    alloc: Global,
    interface: &NamedInterface,
    names: &BodyNames,
    home: u32,
    lines: &[BlockLine],
) -> Result<Items<Action>, AllocError>
    requires sound { IsSound interface.now }
    requires fits { AllByRecursion acts.Fits (map blocks.home_line lines.now) }
    ensures { IfOk result (λ actions. actions
        ≡ spec.actions_of interface.now names.now (blocks.inside home (map blocks.home_line lines.now))) }
{
    let mut actions = Items::new(alloc);
    let mut left = lines;
    while let [here, behind @ ..] = left {
        if here.home < home {
            return Ok(actions);
        }
        push_own_action(alloc, interface, names, home, &mut actions, here)?;
        left = behind;
    }
    Ok(actions)
}

fn params_of<'s>(function: Option<&'s Function>) -> &'s [Param]
    ensures { result.now ≡ params_of (option_copied function.entry) }
{
    match function {
        Some(function) => function.params.as_slice(),
        None => &[],
    }
}

/// The body of the function that the line of this number opens, if all its lines are among these.
#[tactic(auto, using(crate::proofs::BodyLaws::few_temporaries), unfolding(crate::specs::Bodies::body_of))]
fn body_of(
    alloc: Global,
    source: &Source,
    function: Option<&Function>,
    home: u32,
    lines: &[BlockLine],
) -> Result<Body, AllocError>
    requires sound { IsSound source.now.interface.now }
    requires params { length (params_of (option_copied function)) ≤ 64 }
    requires fits { AllByRecursion acts.Fits (map blocks.home_line lines.now) }
    requires few { length (map blocks.home_line lines.now) ≤ max_file_size }
    ensures { IfOk result (λ body. body ≡ spec.body_of source.now.interface.now (option_copied function.entry)
        (blocks.inside home (map blocks.home_line lines.now))) }
{
    let temporaries = temporaries(alloc, home, lines)?;
    let names = BodyNames::new(params_of(function), temporaries.as_slice());
    let actions = actions(alloc, source.interface, &names, home, lines)?;
    Ok(Body { actions })
}

/// The place of the ECALL whose body the line opens.
fn bodied_place(ecalls: &NamedFunctions, line: &Line) -> Option<usize>
    ensures { result ≡ option_and_then (ordinal_in ecalls.now) (body_name (lines.line_of line.now)) }
{
    match line {
        Line::Body { name } => ecalls.place_of(name),
        _ => None,
    }
}

/// Puts the body that the line before these opens into its slot, if it is the first of its ECALL.
#[tactic(auto, using(crate::proofs::BodyLaws::body_elsewhere, crate::proofs::BodyLaws::body_taken, crate::proofs::BodyLaws::body_given, crate::proofs::SlotLaws::free_within, crate::proofs::BodyLaws::few_params))]
fn fill_body(
    alloc: Global,
    source: &Source,
    slots: &mut Vec<Option<Body>>,
    here: &BlockLine,
    behind: &[BlockLine],
) -> Result<(), AllocError>
    requires sound { IsSound source.now.interface.now }
    requires fits { AllByRecursion acts.Fits (map blocks.home_line behind.now) }
    requires few { length (map blocks.home_line behind.now) ≤ max_file_size }
    requires whole { blocks.in_block here.now.number (acts.lines_of source.now)
        ≡ blocks.inside here.now.number (map blocks.home_line behind.now) }
    ensures { OnOk result ((rest : List blocks.HomeLine)
        → spec.filled_bodies source.now.interface.now (acts.lines_of source.now) slots.new.items rest
        ≡ spec.filled_bodies source.now.interface.now (acts.lines_of source.now) slots.old.items
        (blocks.home_line here.now ∷ rest)) }
{
    let ecalls = source.interface.ecalls();
    let Some(place) = bodied_place(ecalls, &here.line) else {
        return Ok(());
    };
    if !is_free(slots.as_slice(), place) {
        return Ok(());
    }
    let body = body_of(
        alloc,
        source,
        at(ecalls.as_slice(), place),
        here.number,
        behind,
    )?;
    slots[place] = Some(body);
    Ok(())
}

/// The bodies that lines open, each in the slot of its ECALL.
#[tactic(auto, using(crate::proofs::BodyLaws::bodies_end))]
fn filled_bodies(alloc: Global, source: &Source) -> Result<Vec<Option<Body>>, AllocError>
    requires { acts.IsGood source.now }
    ensures { IfOk result (λ slots. slots.items
        ≡ spec.filled_bodies source.now.interface.now (acts.lines_of source.now)
        (places.empty_slots vm.Body source.now.interface.now.ecalls) (acts.lines_of source.now)) }
{
    let mut slots = empty_slots(alloc, source.interface.ecalls().as_slice())?;
    let mut left = source.lines;
    while let [here, behind @ ..] = left {
        fill_body(alloc, source, &mut slots, here, behind)?;
        left = behind;
    }
    Ok(slots)
}

/// The bodies in the slots, the last first. A function without a body has one without actions.
fn push_bodies(
    alloc: Global,
    bodies: &mut Items<Body>,
    slots: Vec<Option<Body>>,
) -> Result<(), AllocError>
    ensures { OnOk result (bodies.new ≡ bodies.old ++ map (λ slot. unwrap_or slot spec.no_body) (reverse slots.items)) }
{
    let mut slots = slots;
    while let Some(slot) = slots.pop() {
        bodies.push(slot.unwrap_or(Body {
            actions: Items::new(alloc),
        }))?;
    }
    Ok(())
}

/// The body of each ECALL.
pub fn bodies(alloc: Global, source: &Source) -> Result<Items<Body>, AllocError>
    requires { acts.IsGood source.now }
    ensures { IfOk result (λ bodies. bodies
        ≡ spec.bodies_of source.now.interface.now (acts.lines_of source.now)) }
{
    let mut slots = filled_bodies(alloc, source)?;
    slots.reverse();
    let mut bodies = Items::new(alloc);
    push_bodies(alloc, &mut bodies, slots)?;
    Ok(bodies)
}
