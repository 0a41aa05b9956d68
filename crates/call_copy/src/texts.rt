//! Texts in memory, whose units have one byte or more.

ghost use Rattle.std.specs.Prelude.{ℕ, List, ◌≡◌, ◌<◌, ◌≤◌, length, slice_set};
ghost use Rattle.sgx_base.specs.Texts.{terminated_text, has_early_end};
ghost use Rattle.enclave_memory.specs.Memory.{IsBlock, IsLive};

use enclave_memory::{Arena, Block};
use sgx_base::terminated_length;

/// Sets the last unit of a text to 0, and says whether an earlier one is 0.
pub(crate) fn end_text(arena: &mut Arena, block: Block, unit: u32) -> bool
    requires live { IsLive arena.old block }
    requires some { 0 < unit }
    requires fits { unit ≤ block.length }
    ensures set { (number : ℕ) (old : List ℕ) → IsBlock arena.old block number old
        → arena.new ≡ record arena.old { blocks = slice_set arena.old.blocks number (terminated_text unit old) } }
    ensures early { (number : ℕ) (old : List ℕ) → IsBlock arena.old block number old
        → result ≡ has_early_end unit (terminated_text unit old) }
{
    arena.zero_from(block, block.length - unit);
    let bytes = arena.bytes(block);
    terminated_length(bytes, unit).unwrap_or(bytes.len()) < bytes.len()
}
