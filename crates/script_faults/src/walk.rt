//! From line to line of a script, up to the first that has a fault.

ghost use Rattle.std.specs.Prelude.{◌≡◌, ◌≤◌, ◌∷◌, [], ℕ, Option, Some, false, List, length, All, IfOk};
ghost use Rattle.edl_interface.specs.declared.Interface.{Interface as Functions};
ghost use Rattle.call_script.specs.Block as block;
ghost use Rattle.call_script.specs.Faults as faults;
ghost use Rattle.call_script.specs.Spelling as spelling;
ghost use Rattle.script_laws.specs.FirstFault.{is_outermost};
ghost use Rattle.script_lines.specs.Lines as lines;
ghost use Rattle.script_lines.specs.Nesting as nesting;
ghost use Rattle.script_faults.specs.Codes.{first_code};
ghost use Rattle.script_faults.specs.Walk as spec;

use crate::before::Before;
use crate::body::Body;
use crate::codes::{Asked, code_of};
use script_lines::{Blocks, Line, line_in};
use script_values::NamedInterface;
use script_words::{NumberedLine, NumberedLines};
use std::alloc::{AllocError, Global};

/// What is known of a script where its lines so far are gone through.
#[derive(Drop)]
pub struct SoFar<'a> {
    pub blocks: Blocks<'a>,
    pub before: Before<'a>,
    pub body: Body<'a>,
}

impl<'a> SoFar<'a> {
    /// Before the first line.
    pub fn new(alloc: Global) -> SoFar<'a>
        ensures so_far { (i : Functions) (bytes : List ℕ)
            → spec.IsSoFar i [] (spelling.numbered_lines bytes) result }
        ensures none_open { nesting.open_blocks result.blocks ≡ [] }
    {
        SoFar {
            blocks: Blocks::new(alloc),
            before: Before::new(alloc),
            body: Body::none(alloc),
        }
    }

    /// The code of the fault of a line, which is the next.
    fn code(&self, interface: &NamedInterface, asked: Asked, line: &Line) -> Option<u8>
        ensures { (before : List block.PlacedLine) (l : spelling.NumberedLine) (ls : List spelling.NumberedLine)
            → spec.IsSoFar interface.now before (l ∷ ls) self.now
            → block.line_in (block.scope_of (nesting.open_blocks self.now.blocks)) l.words
            ≡ Some (lines.line_of line.now)
            → result ≡ first_code (faults.rows interface.now asked.racing asked.is_left
            (spec.standing before (nesting.open_blocks self.now.blocks) l ls) (lines.line_of line.now)) }
    {
        let body = self.body.around();
        code_of(interface, asked, &self.before, &self.blocks, &body, line)
    }

    /// Goes past the next line, which has this number.
    fn pass(
        &mut self,
        alloc: Global,
        interface: &'a NamedInterface,
        number: u32,
        line: Line<'a>,
        behind: &NumberedLines<'a>,
    ) -> Result<(), AllocError>
        requires { All (λ f. length f.params ≤ 64) interface.now.ecalls }
        ensures { IfOk result (λ _. (before : List block.PlacedLine) (l : spelling.NumberedLine) → number ≡ l.number
            → spec.IsSoFar interface.now before (l ∷ behind.now) self.old
            → block.line_in (block.scope_of (nesting.open_blocks self.old.blocks)) l.words
            ≡ Some (lines.line_of line.entry)
            → faults.is_one_too_many (spec.standing before (nesting.open_blocks self.old.blocks) l behind.now)
            (lines.line_of line.entry) ≡ false
            → spec.IsPast interface.now before l behind.now self.old self.new) }
    {
        self.before.pass(&line)?;
        self.body.go_on(alloc, interface, &line, behind)?;
        self.blocks.pass(number, &Some(line))?;
        Ok(())
    }

    /// The code of the next line's fault. A line without fault is gone past.
    pub fn turn(
        &mut self,
        alloc: Global,
        interface: &'a NamedInterface,
        asked: Asked,
        line: &mut NumberedLine<'a>,
        behind: &NumberedLines<'a>,
    ) -> Result<Option<u8>, AllocError>
        requires { All (λ f. length f.params ≤ 64) interface.now.ecalls }
        ensures { IfOk result (λ code. (before : List block.PlacedLine) (left : Option ℕ)
            → asked.is_left ≡ is_outermost left line.old.number
            → spec.IsSoFar interface.now before (nesting.numbered line.old ∷ behind.now) self.old
            → spec.IsTurn interface.now asked.racing left before (nesting.numbered line.old) behind.now
            self.old self.new code) }
    {
        let Some(placed) = line_in(self.blocks.scope(), &mut line.words) else {
            return Ok(Some(1));
        };
        let code = self.code(interface, asked, &placed);
        if code.is_none() {
            self.pass(alloc, interface, line.number, placed, behind)?;
        }
        Ok(code)
    }
}
