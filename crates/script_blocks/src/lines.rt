//! The lines of a script that open a block or are done in one, and those of one block.

ghost use Rattle.std.specs.Prelude.{◌≡◌, ◌≤◌, ◌++◌, [], length, map, option_map, IfOk, OnOk};
ghost use Rattle.std.specs.List.{cons_option};
ghost use Rattle.sgx_base.specs.Stores.{max_file_size};
ghost use Rattle.call_script.specs.Block.{placed_lines};
ghost use Rattle.script_lines.specs.Lines as form;
ghost use Rattle.script_blocks.specs.Blocks as spec;

use script_lines::{Line, PlacedLine, PlacedLines};
use sqlite_items::Items;
use std::alloc::{AllocError, Global};

/// A line that opens a block or is done in one.
#[derive(Drop)]
pub struct BlockLine<'a> {
    pub number: u32,
    /// The number of the line that opens the innermost block around it, 0 where it is in none.
    pub home: u32,
    pub line: Line<'a>,
}

/// Whether the line opens a block or is done in one.
fn is_of_block(line: &Line) -> bool
    ensures { result ≡ spec.is_of_block (form.line_of line.now) }
{
    match line {
        Line::Body { .. } | Line::Handler { .. } | Line::Thread | Line::Racer => true,
        Line::Call { .. } | Line::Raw { .. } | Line::Poke { .. } | Line::Peek { .. } => true,
        Line::Repeat { .. } | Line::Return { .. } | Line::Status { .. } => true,
        Line::Do(_) | Line::Temp { .. } | Line::Ocall { .. } => true,
        _ => false,
    }
}

/// Puts the line behind the others, if it opens a block or is done in one.
fn push_line<'a>(
    lines: &mut Items<BlockLine<'a>>,
    home: u32,
    placed: PlacedLine<'a>,
) -> Result<(), AllocError>
    ensures { OnOk result (map spec.home_line lines.new ≡ map spec.home_line lines.old
        ++ cons_option (spec.kept_by placed.entry.number home (option_map form.line_of placed.entry.line)) []) }
{
    let PlacedLine {
        number,
        line: Some(line),
    } = placed
    else {
        return Ok(());
    };
    if !is_of_block(&line) {
        return Ok(());
    }
    lines.push(BlockLine { number, home, line })
}

/// The lines of a script that open a block or are done in one, in order.
#[tactic(auto, using(crate::proofs::LineLaws::turn, crate::proofs::LineLaws::start, crate::proofs::LineLaws::end, crate::proofs::LineLaws::fewer))]
pub fn block_lines<'a>(alloc: Global, bytes: &'a [u8]) -> Result<Items<BlockLine<'a>>, AllocError>
    requires { length bytes.now ≤ max_file_size }
    ensures { IfOk result (λ ls. map spec.home_line ls ≡ spec.block_lines (placed_lines bytes.now)) }
{
    let mut lines = Items::new(alloc);
    let mut left = PlacedLines::new(alloc, bytes);
    loop {
        let home = left.blocks.innermost().unwrap_or(0);
        match left.next() {
            Ok(Some(placed)) => push_line(&mut lines, home, placed)?,
            Ok(None) => return Ok(lines),
            Err(error) => return Err(error),
        }
    }
}
