//! The blocks that are open, and the scope in them.

ghost use Rattle.std.specs.Prelude.{◌≡◌, ℕ, [], List, Some, IfOk, option_map, slice_get};
ghost use Rattle.call_script.specs.Block as block;
ghost use Rattle.script_lines.specs.Lines as lines;
ghost use Rattle.script_lines.specs.Nesting as spec;
ghost use Rattle.script_lines.specs.Openings as openings;

use crate::line::{Line, Scope};
use crate::open_blocks::Blocks;
use sqlite_items::Items;
use std::alloc::{AllocError, Global};

/// What opens a block.
#[derive(Clone, Copy)]
pub enum Opening<'a> {
    Body { name: &'a [u8] },
    Handler { name: &'a [u8] },
    Thread,
    Racer,
    Repeat { times: &'a [u8] },
}

/// What a line does to the blocks.
#[derive(Clone, Copy)]
enum Nesting<'a> {
    Opens(Opening<'a>),
    Closes,
    Stays,
}

/// What the line does to the blocks.
fn nesting_of<'a>(line: &Line<'a>) -> Nesting<'a>
    ensures { (n : ℕ) (around : List block.Block)
        → block.open_behind n (Some (lines.line_of line.now)) around ≡ spec.behind result n around }
{
    match line {
        Line::Body { name } => Nesting::Opens(Opening::Body { name: *name }),
        Line::Handler { name } => Nesting::Opens(Opening::Handler { name: *name }),
        Line::Thread => Nesting::Opens(Opening::Thread),
        Line::Racer => Nesting::Opens(Opening::Racer),
        Line::Repeat { times } => Nesting::Opens(Opening::Repeat { times: *times }),
        Line::Close => Nesting::Closes,
        _ => Nesting::Stays,
    }
}

/// The scope in a block, where the scope around it is given.
fn scope_in<'a>(opening: &Opening<'a>, around: Scope<'a>) -> Scope<'a>
    ensures { lines.scope_of result
        ≡ block.scope_in (openings.opening_of opening.now) (lines.scope_of around.entry) }
{
    match opening {
        Opening::Body { name } => Scope::InBody { name: *name },
        Opening::Handler { name } => Scope::InHandler { name: *name },
        Opening::Thread => Scope::InThread,
        Opening::Racer => Scope::InRacer,
        Opening::Repeat { .. } => match around {
            Scope::Outside => Scope::InThread,
            _ => around,
        },
    }
}

/// A block that is open, with the number of the line that opens it.
#[derive(Clone, Copy)]
pub struct Block<'a> {
    pub number: u32,
    pub opening: Opening<'a>,
    /// The scope in it.
    pub scope: Scope<'a>,
}

impl<'a> Blocks<'a> {
    /// No blocks.
    #[tactic(auto, using(crate::proofs::NestingLaws::no_blocks, crate::proofs::NestingLaws::no_scopes))]
    pub fn new(alloc: Global) -> Blocks<'a>
        ensures { spec.open_blocks result ≡ [] }
    {
        Blocks {
            from_outside: Items::new(alloc),
        }
    }

    /// The scope in the blocks.
    #[tactic(auto, using(crate::proofs::NestingLaws::none_scoped, crate::proofs::NestingLaws::last_scoped))]
    pub fn scope(&self) -> Scope<'a>
        ensures { lines.scope_of result ≡ block.scope_of (spec.open_blocks self.now) }
    {
        match self.from_outside.as_slice() {
            [.., last] => last.scope,
            [] => Scope::Outside,
        }
    }

    /// The number of the line that opens the outermost block.
    #[tactic(auto, using(crate::proofs::NestingLaws::none_outermost, crate::proofs::NestingLaws::first_outermost))]
    pub fn outermost(&self) -> Option<u32>
        ensures { result ≡ spec.outermost (spec.open_blocks self.now) }
    {
        match self.from_outside.as_slice() {
            [first, ..] => Some(first.number),
            [] => None,
        }
    }

    /// The number of the line that opens the innermost block.
    #[tactic(auto, using(crate::proofs::NestingLaws::none_innermost, crate::proofs::NestingLaws::last_innermost))]
    pub fn innermost(&self) -> Option<u32>
        ensures { result ≡ spec.innermost (spec.open_blocks self.now) }
    {
        match self.from_outside.as_slice() {
            [.., last] => Some(last.number),
            [] => None,
        }
    }

    /// Goes past a line of this number. A line of no form opens and closes nothing.
    pub fn pass(&mut self, number: u32, line: &Option<Line<'a>>) -> Result<(), AllocError>
        ensures { IfOk result
            (λ _. spec.open_blocks self.new
            ≡ block.open_behind number (option_map lines.line_of line.now) (spec.open_blocks self.old)) }
    {
        let Some(line) = line else {
            return Ok(());
        };
        match nesting_of(line) {
            Nesting::Opens(opening) => {
                let scope = scope_in(&opening, self.scope());
                self.from_outside.push(Block {
                    number,
                    opening,
                    scope,
                })?;
            }
            Nesting::Closes => {
                let _ = self.from_outside.pop();
            }
            Nesting::Stays => {}
        }
        Ok(())
    }
}
