//! Blocks that a body reads and writes.

ghost use Rattle.std.specs.Prelude.{ℕ, List, ◌≡◌, ◌≢◌, ◌<◌, ◌≤◌, ◌%◌, Option, Some, length, replicate, slice_get, slice_set};
ghost use Rattle.arrayvec.specs.ArrayVec.{array_vec_len};
ghost use Rattle.enclave_memory.specs.Memory.{IsBlock, IsLive};
ghost use Rattle.body_vm.specs.State.{block_among, overlay};
ghost use Rattle.body_vm.specs.Places.{blocks_in, with_bytes, IsHeld, IsChanged};
ghost use Rattle.body_vm.specs.Moments.{IsBegun};

use crate::Blocks;
use enclave_memory::{Arena, Block};

/// The block at a place, or null.
pub(crate) fn block_at(blocks: &Blocks, place: u32) -> Option<Block>
    requires { place < array_vec_len blocks.now }
    ensures { slice_get blocks.now.items place ≡ Some result }
{
    blocks.as_slice()[place as usize]
}

/// The bytes of a block, none where it is null.
pub(crate) fn bytes_of<'a>(blocks: &Blocks, arena: &'a Arena, place: u32) -> &'a [u8]
    requires held { (numbers : List (Option ℕ)) × IsHeld arena.now blocks.now.items numbers }
    requires within { place < array_vec_len blocks.now }
    ensures bytes { (numbers : List (Option ℕ)) → IsHeld arena.now blocks.now.items numbers
        → result.now ≡ block_among (blocks_in arena.now numbers) place }
    ensures limit { length result.now ≤ 65536 }
{
    match block_at(blocks, place) {
        Some(block) => arena.bytes(block),
        None => &[],
    }
}

/// Writes one byte of a block.
fn write_byte(arena: &mut Arena, block: Block, at: u32, byte: u8)
    requires live { IsLive arena.old block }
    requires within { at < block.length }
    ensures { (number : ℕ) (bytes : List ℕ) → IsBlock arena.old block number bytes
        → arena.new ≡ with_bytes arena.old number (slice_set bytes at byte) }
{
    arena.write(block, at, &[byte]);
}

/// Sets every byte of a block.
fn fill_block(arena: &mut Arena, block: Block, byte: u8)
    requires { IsLive arena.old block }
    ensures { (number : ℕ) (bytes : List ℕ) → IsBlock arena.old block number bytes
        → arena.new ≡ with_bytes arena.old number (replicate (length bytes) byte) }
{
    for at in 0..block.length {
        write_byte(arena, block, at, byte);
    }
}

/// Makes the first bytes of one block those of another, as many as both have.
fn copy_block(arena: &mut Arena, to: Block, from: Block)
    requires { (number other : ℕ) × (these those : List ℕ)
        × IsBlock arena.old to number these × IsBlock arena.old from other those × (number ≢ other) }
    ensures { (number other : ℕ) (these those : List ℕ)
        → IsBlock arena.old to number these → IsBlock arena.old from other those → number ≢ other
        → arena.new ≡ with_bytes arena.old number (overlay these those) }
{
    for at in 0..to.length.min(from.length) {
        let byte = arena.bytes(from)[at as usize];
        write_byte(arena, to, at, byte);
    }
}

/// Sets the byte of a block at an offset, if it has one there.
pub(crate) fn put(blocks: &Blocks, arena: &mut Arena, place: u32, at: u64, byte: u8)
    requires held { (numbers : List (Option ℕ)) × IsHeld arena.old blocks.now.items numbers }
    requires within { place < array_vec_len blocks.now }
    ensures { (numbers : List (Option ℕ)) → IsHeld arena.old blocks.now.items numbers
        → IsChanged arena.old arena.new blocks.now.items numbers place (λ bytes. slice_set bytes at byte) }
{
    let Some(block) = block_at(blocks, place) else {
        return;
    };
    if at < u64::from(block.length) {
        write_byte(arena, block, at as u32, byte);
    }
}

/// Sets every byte of a block.
pub(crate) fn fill(blocks: &Blocks, arena: &mut Arena, place: u32, byte: u8)
    requires held { (numbers : List (Option ℕ)) × IsHeld arena.old blocks.now.items numbers }
    requires within { place < array_vec_len blocks.now }
    ensures { (numbers : List (Option ℕ)) → IsHeld arena.old blocks.now.items numbers
        → IsChanged arena.old arena.new blocks.now.items numbers place (λ bytes. replicate (length bytes) byte) }
{
    let Some(block) = block_at(blocks, place) else {
        return;
    };
    fill_block(arena, block, byte);
}

/// Makes the first bytes of a block those of another, as many as both have.
pub(crate) fn copy(blocks: &Blocks, arena: &mut Arena, place: u32, source: u32)
    requires held { (numbers : List (Option ℕ)) × IsHeld arena.old blocks.now.items numbers }
    requires within { place < array_vec_len blocks.now }
    requires from { source < array_vec_len blocks.now }
    ensures { (numbers : List (Option ℕ)) → IsHeld arena.old blocks.now.items numbers
        → IsChanged arena.old arena.new blocks.now.items numbers place
        (λ bytes. overlay bytes (block_among (blocks_in arena.old numbers) source)) }
{
    if place == source {
        return;
    }
    let Some(to) = block_at(blocks, place) else {
        return;
    };
    let Some(from) = block_at(blocks, source) else {
        return;
    };
    copy_block(arena, to, from);
}

/// Begins a block of zeros at a place, null where it does not fit.
pub(crate) fn begin(blocks: &mut Blocks, arena: &mut Arena, place: u32, length: u32)
    requires held { (numbers : List (Option ℕ)) × IsHeld arena.old blocks.old.items numbers }
    requires within { place < array_vec_len blocks.old }
    requires some { 0 < length }
    ensures begun { (numbers : List (Option ℕ)) → IsHeld arena.old blocks.old.items numbers
        → IsBegun arena.old arena.new blocks.new.items numbers place length }
    ensures count { array_vec_len blocks.new ≡ array_vec_len blocks.old }
{
    let block = arena.push_block(length);
    set_block(blocks, place, block);
}

/// Gives a place another block.
fn set_block(blocks: &mut Blocks, place: u32, block: Option<Block>)
    requires { place < array_vec_len blocks.old }
    ensures { blocks.new.items ≡ slice_set blocks.old.items place block }
{
    blocks.as_mut_slice()[place as usize] = block;
}
