//! The lines of a script, each in its place.

ghost use Rattle.std.specs.Prelude.{◌≡◌, ◌≤◌, ◌∷◌, [], length, option_map, IfOk, MatchOption};
ghost use Rattle.sgx_base.specs.Stores.{max_file_size};
ghost use Rattle.call_script.specs.Spelling.{numbered_lines};
ghost use Rattle.call_script.specs.Block as block;
ghost use Rattle.script_lines.specs.Lines as lines;
ghost use Rattle.script_lines.specs.Nesting as spec;
ghost use Rattle.script_lines.specs.Places.{IsTaken};

use crate::line::Line;
use crate::lines::line_in;
use crate::open_blocks::Blocks;
use script_words::{NumberedLine, NumberedLines};
use std::alloc::{AllocError, Global};

/// What the line is in the blocks, which go past it.
fn place<'a>(
    blocks: &mut Blocks<'a>,
    line: &mut NumberedLine<'a>,
) -> Result<Option<Line<'a>>, AllocError>
    ensures line { IfOk result (λ l. option_map lines.line_of l
        ≡ spec.line_at (spec.open_blocks blocks.old) (spec.numbered line.old)) }
    ensures blocks { IfOk result (λ _. spec.open_blocks blocks.new
        ≡ spec.open_after (spec.open_blocks blocks.old) (spec.numbered line.old)) }
{
    let placed = line_in(blocks.scope(), &mut line.words);
    blocks.pass(line.number, &placed)?;
    Ok(placed)
}

/// A line of a script, and what it is in its place.
#[derive(Drop)]
pub struct PlacedLine<'a> {
    pub number: u32,
    pub line: Option<Line<'a>>,
}

/// What is left of a script, and the blocks that are open before it.
#[derive(Drop)]
pub struct PlacedLines<'a> {
    pub blocks: Blocks<'a>,
    pub lines: NumberedLines<'a>,
}

impl<'a> PlacedLines<'a> {
    pub fn new(alloc: Global, bytes: &'a [u8]) -> PlacedLines<'a>
        requires { length bytes.now ≤ max_file_size }
        ensures blocks { spec.open_blocks result.blocks ≡ [] }
        ensures lines { result.lines ≡ numbered_lines bytes.now }
    {
        PlacedLines {
            blocks: Blocks::new(alloc),
            lines: NumberedLines::new(bytes),
        }
    }

    /// Takes the next line, which stands in the blocks as they are before it.
    pub fn next(&mut self) -> Result<Option<PlacedLine<'a>>, AllocError>
        ensures { IfOk result (λ next. MatchOption next (self.old.lines ≡ [])
            (λ l. IsTaken self.old self.new l.number (option_map lines.line_of l.line))) }
    {
        let Some(mut line) = self.lines.next() else {
            return Ok(None);
        };
        let number = line.number;
        match place(&mut self.blocks, &mut line) {
            Ok(line) => Ok(Some(PlacedLine { number, line })),
            Err(error) => Err(error),
        }
    }
}

/// The number of the line that opens the outermost block that is left open.
pub fn left_outermost(alloc: Global, bytes: &[u8]) -> Result<Option<u32>, AllocError>
    requires { length bytes.now ≤ max_file_size }
    ensures { IfOk result (λ o. o ≡ spec.outermost (block.left_open (block.placed_lines bytes.now))) }
{
    let mut blocks = Blocks::new(alloc);
    let mut lines = NumberedLines::new(bytes);
    while let Some(mut line) = lines.next() {
        if let Err(error) = place(&mut blocks, &mut line) {
            return Err(error);
        }
    }
    Ok(blocks.outermost())
}
