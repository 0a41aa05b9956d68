//! The acts of whole threads: of host threads, and of racers.

ghost use Rattle.std.specs.Prelude.{◌≡◌, [], ◌∷◌, ◌++◌, map, IfOk, OnOk};
ghost use Rattle.std.specs.List.{AllByRecursion};
ghost use Rattle.script_lines.specs.Lines as lines;
ghost use Rattle.script_blocks.specs.Blocks as blocks;
ghost use Rattle.script_blocks.specs.Acts as spec;
ghost use Rattle.script_blocks.specs.declared.thread.Kind.TheVariants.{Thread, Racer};

use crate::acts::{Source, block_acts};
use crate::lines::BlockLine;
use call_script::HostAct;
use script_lines::Line;
use sqlite_items::Items;
use std::alloc::{AllocError, Global};

/// A kind of block that is carried out beside the others.
#[derive(Clone, Copy)]
pub enum Kind {
    Thread,
    Racer,
}

impl Kind {
    /// Whether the line opens such a block.
    fn is_opened_by(self, line: &Line) -> bool
        ensures { result ≡ spec.opens_kind self (lines.line_of line.now) }
    {
        match (self, line) {
            (Kind::Thread, Line::Thread) => true,
            (Kind::Racer, Line::Racer) => true,
            _ => false,
        }
    }
}

/// Puts the acts of the block behind the others, if the line before these opens one of the kind.
#[tactic(auto, using(crate::proofs::ThreadLaws::opened, crate::proofs::ThreadLaws::not_opened))]
fn push_block(
    alloc: Global,
    source: &Source,
    kind: Kind,
    acts: &mut Items<Items<HostAct>>,
    here: &BlockLine,
    behind: &[BlockLine],
) -> Result<(), AllocError>
    requires good { spec.IsGood source.now }
    requires fits { AllByRecursion spec.Fits (map blocks.home_line behind.now) }
    requires placed { blocks.AreInPlace (spec.lines_of source.now) (map blocks.home_line behind.now) }
    requires whole { blocks.in_block here.now.number (spec.lines_of source.now)
        ≡ blocks.inside here.now.number (map blocks.home_line behind.now) }
    ensures { OnOk result (acts.new ≡ acts.old ++ spec.opened_acts source.now.interface.now (spec.lines_of source.now)
        kind (blocks.home_line here.now ∷ [])) }
{
    if !kind.is_opened_by(&here.line) {
        return Ok(());
    }
    let block = block_acts(alloc, source, here.number, behind)?;
    acts.push(block)
}

/// Puts the acts of each block of the kind behind the others, in order.
#[tactic(auto, using(crate::proofs::ThreadLaws::turn, crate::proofs::ThreadLaws::end))]
fn push_blocks(
    alloc: Global,
    source: &Source,
    kind: Kind,
    acts: &mut Items<Items<HostAct>>,
) -> Result<(), AllocError>
    requires { spec.IsGood source.now }
    ensures { OnOk result (acts.new ≡ acts.old ++ spec.opened_acts source.now.interface.now (spec.lines_of source.now)
        kind (spec.lines_of source.now)) }
{
    let mut left = source.lines;
    while let [here, behind @ ..] = left {
        push_block(alloc, source, kind, acts, here, behind)?;
        left = behind;
    }
    Ok(())
}

/// The acts of the racers.
pub fn racers(alloc: Global, source: &Source) -> Result<Items<Items<HostAct>>, AllocError>
    requires { spec.IsGood source.now }
    ensures { IfOk result (λ racers. racers
        ≡ spec.opened_acts source.now.interface.now (spec.lines_of source.now) Racer (spec.lines_of source.now)) }
{
    let mut racers = Items::new(alloc);
    push_blocks(alloc, source, Kind::Racer, &mut racers)?;
    Ok(racers)
}

/// The acts of the host threads: of those in no block, then of each thread's block.
#[tactic(auto, using(crate::proofs::PlaceLaws::outside_all))]
pub fn threads(alloc: Global, source: &Source) -> Result<Items<Items<HostAct>>, AllocError>
    requires { spec.IsGood source.now }
    ensures { IfOk result (λ threads. threads
        ≡ spec.block_acts source.now.interface.now (spec.lines_of source.now) 0
        ∷ spec.opened_acts source.now.interface.now (spec.lines_of source.now) Thread (spec.lines_of source.now)) }
{
    let mut threads = Items::new(alloc);
    threads.push(block_acts(alloc, source, 0, source.lines)?)?;
    push_blocks(alloc, source, Kind::Thread, &mut threads)?;
    Ok(threads)
}
