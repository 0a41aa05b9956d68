//! The blocks that are open.

ghost use Rattle.std.specs.Prelude.{◌≡◌, true};
ghost use Rattle.call_script.specs.Block.{Outside};
ghost use Rattle.script_lines.specs.Openings.{are_scoped};

use crate::blocks::Block;
use sqlite_items::Items;

/// The blocks that are open.
#[derive(Drop)]
pub struct Blocks<'a> {
    /// The outermost comes first.
    pub from_outside: Items<Block<'a>>,
    ghost scoped: { are_scoped Outside from_outside ≡ true },
}
