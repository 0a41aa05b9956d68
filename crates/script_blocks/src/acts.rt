//! The acts of blocks: of host threads, of handlers, of racers.

ghost use Rattle.std.specs.Prelude.{◌≡◌, ◌≤◌, ◌<◌, ◌^◌, ◌++◌, ◌∷◌, [], length, map, suc, false, IfOk, OnOk, MatchOption};
ghost use Rattle.std.specs.List.{AllByRecursion, cons_option, list_any};
ghost use Rattle.std.specs.Option.{option_copied};
ghost use Rattle.edl_interface.specs.Sound.{IsSound};
ghost use Rattle.call_script.specs.Arguments.{is_place_argument_out};
ghost use Rattle.call_script.specs.Line.{Repeat};
ghost use Rattle.call_script.specs.Standing.{is_repeat};
ghost use Rattle.script_lines.specs.Lines as lines;
ghost use Rattle.script_blocks.specs.Blocks as blocks;
ghost use Rattle.script_blocks.specs.Acts as spec;

use crate::lines::BlockLine;
use call_script::{CallArg, HostAct};
use edl_interface::Function;
use script_lines::{Arguments, Line};
use script_values::{NamedInterface, bytes_of, call_arguments, place_named};
use script_words::number_of;
use sqlite_items::Items;
use std::alloc::{AllocError, Global};

/// The most repeats that may be nested, and the block that is around them.
const DEPTH: u32 = 5;

/// The lines of a script that are of blocks, and the interface that it is for.
#[derive(Drop)]
pub struct Source<'s, 'i, 'a> {
    pub interface: &'s NamedInterface<'i>,
    pub lines: &'s [BlockLine<'a>],
}

/// The words of the arguments, in order.
pub fn argument_words<'a>(
    alloc: Global,
    args: &Arguments<'a>,
) -> Result<Items<&'a [u8]>, AllocError>
    ensures { IfOk result (λ words. map (λ w. w.now) words ≡ args.now) }
{
    let mut left = args.again();
    let mut words = Items::new(alloc);
    while let Some(word) = left.next() {
        words.push(word)?;
    }
    Ok(words)
}

fn arguments_for(
    alloc: Global,
    interface: &NamedInterface,
    function: Option<&Function>,
    args: &[&[u8]],
) -> Result<Items<CallArg>, AllocError>
    requires { list_any is_place_argument_out (map (λ w. w.now) args.now) ≡ false }
    ensures { IfOk result (λ values. values
        ≡ spec.arguments interface.now (option_copied function.entry) (map (λ w. w.now) args.now)) }
{
    match function {
        Some(function) => call_arguments(alloc, function, args),
        None => Ok(Items::new(alloc)),
    }
}

/// The call of an ECALL.
fn call(
    alloc: Global,
    interface: &NamedInterface,
    name: &[u8],
    args: &Arguments,
) -> Result<HostAct, AllocError>
    requires sound { IsSound interface.now }
    requires places { list_any is_place_argument_out args.now ≡ false }
    ensures { IfOk result (λ act. act ≡ spec.call_of interface.now name.now args.now) }
{
    let words = argument_words(alloc, args)?;
    let ecalls = interface.ecalls();
    let args = arguments_for(alloc, interface, ecalls.named(name), words.as_slice())?;
    Ok(HostAct::Call {
        ordinal: ecalls.ordinal_of(name),
        args,
    })
}

/// What a line does that is no repeat.
fn act_of(
    alloc: Global,
    interface: &NamedInterface,
    line: &Line,
) -> Result<Option<HostAct>, AllocError>
    requires sound { IsSound interface.now }
    requires fits { spec.IsFitting (lines.line_of line.now) }
    ensures { IfOk result (λ act. spec.IsActOf interface.now (lines.line_of line.now) act) }
{
    match line {
        Line::Call { name, args } => Ok(Some(call(alloc, interface, name, args)?)),
        Line::Raw { ordinal, address } => Ok(Some(HostAct::Raw {
            ordinal: number_of(ordinal) as u32,
            at: number_of(address),
        })),
        Line::Poke { place, hex } => Ok(Some(HostAct::Poke {
            at: place_named(place),
            bytes: bytes_of(alloc, hex)?,
        })),
        Line::Peek { place, length } => Ok(Some(HostAct::Peek {
            at: place_named(place),
            length: number_of(length) as u32,
        })),
        Line::Return { value } => Ok(Some(HostAct::Return(number_of(value)))),
        Line::Status { status } => Ok(Some(HostAct::Reply(number_of(status) as u32))),
        _ => Ok(None),
    }
}

/// How often the lines of a repeat are carried out.
fn times_of<'a>(line: &Line<'a>) -> Option<&'a [u8]>
    ensures { MatchOption result (is_repeat (lines.line_of line.now) ≡ false)
        (λ times. lines.line_of line.now ≡ Repeat times.now) }
{
    match line {
        Line::Repeat { times } => Some(*times),
        _ => None,
    }
}

/// Puts the act behind the others, if there is one.
fn push_act(acts: &mut Items<HostAct>, act: Option<HostAct>) -> Result<(), AllocError>
    ensures { OnOk result (acts.new ≡ acts.old ++ cons_option act []) }
{
    match act {
        Some(act) => acts.push(act),
        None => Ok(()),
    }
}

/// What a line does before these, where repeats are nested so deep in it at most.
#[cycle(acts)]
fn act_there(
    alloc: Global,
    source: &Source,
    depth: u32,
    here: &BlockLine,
    behind: &[BlockLine],
) -> Result<Option<HostAct>, AllocError>
    requires good { spec.IsGood source.now }
    requires fits { spec.IsFitting (lines.line_of here.now.line) }
    requires fit_behind { AllByRecursion spec.Fits (map blocks.home_line behind.now) }
    requires placed { blocks.AreInPlace (spec.lines_of source.now) (map blocks.home_line behind.now) }
    requires whole { blocks.in_block here.now.number (spec.lines_of source.now)
        ≡ blocks.inside here.now.number (map blocks.home_line behind.now) }
    ensures { IfOk result (λ act. act
        ≡ spec.act_there source.now.interface.now (spec.lines_of source.now) depth (blocks.home_line here.now)) }
{
    let Some(times) = times_of(&here.line) else {
        return act_of(alloc, source.interface, &here.line);
    };
    Ok(Some(HostAct::Repeat {
        times: number_of(times) as u32,
        acts: acts_to(alloc, source, depth, here.number, behind)?,
    }))
}

/// Puts what a line before these does behind the other acts of the block that the line of this number opens, if it is a
/// line of that block.
#[tactic(auto, using(crate::proofs::ActLaws::own_act, crate::proofs::ActLaws::other_act))]
#[cycle(acts)]
fn push_own(
    alloc: Global,
    source: &Source,
    depth: u32,
    home: u32,
    acts: &mut Items<HostAct>,
    here: &BlockLine,
    behind: &[BlockLine],
) -> Result<(), AllocError>
    requires good { spec.IsGood source.now }
    requires fits { spec.IsFitting (lines.line_of here.now.line) }
    requires fit_behind { AllByRecursion spec.Fits (map blocks.home_line behind.now) }
    requires placed { blocks.AreInPlace (spec.lines_of source.now) (map blocks.home_line behind.now) }
    requires whole { blocks.in_block here.now.number (spec.lines_of source.now)
        ≡ blocks.inside here.now.number (map blocks.home_line behind.now) }
    ensures { OnOk result (acts.new ≡ acts.old ++ spec.acts_of source.now.interface.now (spec.lines_of source.now) depth
        (blocks.in_block home (blocks.home_line here.now ∷ []))) }
{
    if here.home != home {
        return Ok(());
    }
    let act = act_there(alloc, source, depth, here, behind)?;
    push_act(acts, act)
}

/// The acts of the block that the line of this number opens, or of none where it is 0, if all its lines are among these
/// and repeats are nested so deep at most, the block among them.
#[tactic(auto, using(crate::proofs::ActLaws::turn, crate::proofs::ActLaws::whole, crate::proofs::LineLaws::outside))]
#[cycle(acts)]
fn acts_to(
    alloc: Global,
    source: &Source,
    depth: u32,
    home: u32,
    lines: &[BlockLine],
) -> Result<Items<HostAct>, AllocError>
    requires good { spec.IsGood source.now }
    requires fits { AllByRecursion spec.Fits (map blocks.home_line lines.now) }
    requires placed { blocks.AreInPlace (spec.lines_of source.now) (map blocks.home_line lines.now) }
    requires whole { blocks.in_block home (spec.lines_of source.now)
        ≡ blocks.inside home (map blocks.home_line lines.now) }
    ensures { IfOk result (λ acts. acts
        ≡ spec.acts_to source.now.interface.now (spec.lines_of source.now) depth home) }
{
    let mut acts = Items::new(alloc);
    if depth == 0 {
        return Ok(acts);
    }
    let mut left = lines;
    while let [here, behind @ ..] = left {
        if here.home < home {
            return Ok(acts);
        }
        push_own(alloc, source, depth - 1, home, &mut acts, here, behind)?;
        left = behind;
    }
    Ok(acts)
}

/// The acts of the block that the line of this number opens, or of none where it is 0, if all its lines are among these.
#[tactic(auto, unfolding(crate::specs::Acts::block_acts))]
pub fn block_acts(
    alloc: Global,
    source: &Source,
    home: u32,
    lines: &[BlockLine],
) -> Result<Items<HostAct>, AllocError>
    requires good { spec.IsGood source.now }
    requires fits { AllByRecursion spec.Fits (map blocks.home_line lines.now) }
    requires placed { blocks.AreInPlace (spec.lines_of source.now) (map blocks.home_line lines.now) }
    requires whole { blocks.in_block home (spec.lines_of source.now)
        ≡ blocks.inside home (map blocks.home_line lines.now) }
    ensures { IfOk result (λ acts. acts
        ≡ spec.block_acts source.now.interface.now (spec.lines_of source.now) home) }
{
    acts_to(alloc, source, DEPTH, home, lines)
}
