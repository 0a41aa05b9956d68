//! The lines of a script that have a form, one after another.

ghost use Rattle.std.specs.Prelude.{◌≡◌, ◌≤◌, ◌∷◌, [], length, IfOk, MatchOption};
ghost use Rattle.sgx_base.specs.Stores.{max_file_size};
ghost use Rattle.script_lines.specs.Lines as lines;
ghost use Rattle.script_value.specs.Left.{left, formed_lines};

use script_lines::{Line, PlacedLine, PlacedLines};
use std::alloc::{AllocError, Global};

/// All lines of a script.
#[tactic(auto, using(crate::proofs::LeftLaws::all_left))]
pub fn all_lines<'a>(alloc: Global, bytes: &'a [u8]) -> PlacedLines<'a>
    requires { length bytes.now ≤ max_file_size }
    ensures { left result ≡ formed_lines bytes.now }
{
    PlacedLines::new(alloc, bytes)
}

/// Takes the next line that has a form.
#[tactic(auto, using(crate::proofs::LeftLaws::none_left, crate::proofs::LeftLaws::formed, crate::proofs::LeftLaws::formless, crate::proofs::LeftLaws::fewer))]
pub fn next_formed<'a>(placed: &mut PlacedLines<'a>) -> Result<Option<Line<'a>>, AllocError>
    ensures { IfOk result (λ next. MatchOption next (left placed.old ≡ [])
        (λ line. left placed.old ≡ lines.line_of line ∷ left placed.new)) }
{
    loop {
        match placed.next() {
            Ok(
                Some(
                    PlacedLine {
                        number: _,
                        line: Some(line),
                    },
                ),
            ) => return Ok(Some(line)),
            Ok(
                Some(
                    PlacedLine {
                        number: _,
                        line: None,
                    },
                ),
            ) => {}
            Ok(None) => return Ok(None),
            Err(error) => return Err(error),
        }
    }
}
