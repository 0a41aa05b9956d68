//! The arena of a thread.

ghost use Rattle.std.specs.Prelude.{ℕ, List, [], ◌∷◌, ◌++◌, ◌≡◌, ◌<◌, ◌≤◌, ◌+◌, ◌-◌, ◌%◌, replicate, length, take, IfOk, IfSome, MatchOption, vec_capacity, slice_set, slice_range, All};
ghost use Rattle.sgx_base.specs.Bytes.{rounded_size, with_bytes_at};
ghost use Rattle.enclave_memory.specs.Layout.{taken_in};
ghost use Rattle.enclave_memory.specs.Memory.{room_of, taken_by, IsBlock, IsLive, IsPush, IsWrite};

use crate::Block;
use crate::region::Region;
use std::alloc::{AllocError, Global};
use std::marker::Model;

/// A stack of blocks of bytes in one piece of memory.
#[derive(Debug)]
pub struct Arena {
    memory: Region,
    lengths: Vec<u32>,
    taken: u32,
}

impl Model for Arena {
    ghost use Rattle.std.specs.Prelude.{vec_capacity};
    ghost use Rattle.enclave_memory.specs.Memory.{Memory};
    ghost use Rattle.enclave_memory.specs.Layout.{memory_of, IsLaidOut};

    ghost Value = { Memory };

    ghost view = { λ a. memory_of a.lengths.items a.memory.bytes };

    ghost invariant = { λ a. IsLaidOut a.lengths.items a.memory.bytes a.taken (vec_capacity a.lengths) };
}

impl Arena {
    /// An arena of zeros with no block.
    pub fn new(alloc: Global, size: u32) -> Result<Arena, AllocError>
        requires whole { size % 16 ≡ 0 }
        requires limit { size ≤ 65536 }
        ensures { IfOk result (λ arena. arena ≡ record { size = size; blocks = [] }) }
    {
        let lengths = Vec::with_capacity(alloc, size as usize / 16)?;
        let memory = Region::new(lengths.allocator(), size as usize)?;
        Ok(Arena {
            memory,
            lengths,
            taken: 0,
        })
    }

    /// How many bytes are free.
    pub fn room(&self) -> u32
        ensures room { result ≡ room_of self.now }
        ensures sum { taken_by self.now.blocks + result ≡ self.now.size }
        ensures limit { self.now.size ≤ 65536 }
    {
        self.memory.bytes().len() as u32 - self.taken
    }

    /// How many bytes are taken.
    pub fn mark(&self) -> u32
        ensures { result ≡ taken_by self.now.blocks }
    {
        self.taken
    }

    /// Begins a block of zeros, in so many bytes rounded up to a multiple of 16.
    pub fn push_block(&mut self, length: u32) -> Option<Block>
        requires { 0 < length }
        ensures pushed { MatchOption result ((self.new ≡ self.old) × (room_of self.old < rounded_size length))
            (λ block. IsPush self.old self.new block (replicate length 0)) }
        ensures fits { IfSome result (λ block. rounded_size length ≤ room_of self.old) }
        ensures within { IfSome result (λ block. block.at + block.length ≤ self.new.size) }
    {
        let room = self.room();
        if length > room || rounded(length) > room {
            return None;
        }
        let at = self.taken;
        push_length(&mut self.lengths, length);
        self.taken = at + rounded(length);
        Some(Block { at, length })
    }

    /// The bytes of a block.
    pub fn bytes(&self, block: Block) -> &[u8]
        requires { IsLive self.now block }
        ensures bytes { (number : ℕ) (bytes : List ℕ) → IsBlock self.now block number bytes → result.now ≡ bytes }
        ensures count { length result.now ≡ block.length }
        ensures within { block.at + block.length ≤ self.now.size }
        ensures limit { self.now.size ≤ 65536 }
    {
        part(
            self.memory.bytes(),
            block.at as usize,
            block.length as usize,
        )
    }

    /// Writes bytes over those of a block, from the offset on.
    pub fn write(&mut self, block: Block, offset: u32, bytes: &[u8])
        requires live { IsLive self.old block }
        requires fits { offset + length bytes.now ≤ block.length }
        ensures written { (number : ℕ) (old : List ℕ) → IsBlock self.old block number old
            → IsWrite self.old self.new block (with_bytes_at old offset bytes.now) }
        ensures number { (number : ℕ) (old : List ℕ) → IsBlock self.old block number old
            → self.new ≡ record self.old {
              blocks = slice_set self.old.blocks number (with_bytes_at old offset bytes.now);
            } }
    {
        self.memory
            .write(block.at as usize + offset as usize, bytes);
    }

    /// Sets every byte of a block to 0.
    pub fn zero(&mut self, block: Block)
        requires { IsLive self.old block }
        ensures written { IsWrite self.old self.new block (replicate block.length 0) }
        ensures number { (number : ℕ) (old : List ℕ) → IsBlock self.old block number old
            → self.new ≡ record self.old { blocks = slice_set self.old.blocks number (replicate block.length 0) } }
    {
        self.memory.zero(block.at as usize, block.length as usize);
    }

    /// Sets every byte of a block from the offset on to 0.
    pub fn zero_from(&mut self, block: Block, offset: u32)
        requires live { IsLive self.old block }
        requires within { offset ≤ block.length }
        ensures { (number : ℕ) (old : List ℕ) → IsBlock self.old block number old
            → self.new ≡ record self.old {
              blocks = slice_set self.old.blocks number (take offset old ++ replicate (block.length - offset) 0);
            } }
    {
        self.memory.zero(
            block.at as usize + offset as usize,
            (block.length - offset) as usize,
        );
    }

    /// Ends the blocks that were pushed since the mark, and sets their bytes to 0.
    pub fn pop_to(&mut self, mark: u32)
        requires { (k : ℕ) × (mark ≡ taken_by (take k self.old.blocks)) }
        ensures { (k : ℕ) → k ≤ length self.old.blocks → mark ≡ taken_by (take k self.old.blocks)
            → self.new ≡ record self.old { blocks = take k self.old.blocks } }
    {
        self.memory
            .zero(mark as usize, (self.taken - mark) as usize);
        unlist(&mut self.lengths, self.taken, mark);
        self.taken = mark;
    }
}

impl Drop for Arena {
    fn drop(self) {
        let Arena {
            memory,
            lengths,
            taken: _,
        } = self;
        memory.free(lengths.allocator());
    }
}

/// Threads may pass an arena on, and share it.
fn crosses_threads(arena: &Arena) {
    takes_shared(arena);
}

/// Takes a value that threads may pass on and share.
fn takes_shared<T: Send + Sync>(_value: &T) {}

/// Takes lengths off the end until the blocks that are left take so many bytes as the mark says.
fn unlist(lengths: &mut Vec<u32>, taken: u32, mark: u32)
    requires taken { taken ≡ taken_in lengths.old.items }
    requires filled { All (λ n. 0 < n) lengths.old.items }
    requires limit { taken ≤ 65536 }
    ensures left { (k : ℕ) → k ≤ length lengths.old.items → mark ≡ taken_in (take k lengths.old.items)
        → lengths.new.items ≡ take k lengths.old.items }
    ensures capacity { vec_capacity lengths.new ≡ vec_capacity lengths.old }
{
    let mut left = taken;
    while left > mark {
        let Some(length) = lengths.pop() else {
            unreachable!()
        };
        left -= rounded(length);
    }
}

/// The length rounded up to a multiple of 16.
fn rounded(length: u32) -> u32
    requires { length ≤ 65536 }
    ensures { result ≡ rounded_size length }
{
    (length + 15) / 16 * 16
}

/// Lists one more length, for which there is room.
fn push_length(lengths: &mut Vec<u32>, added: u32)
    requires { length lengths.old.items < vec_capacity lengths.old }
    ensures items { lengths.new.items ≡ lengths.old.items ++ added ∷ [] }
    ensures capacity { vec_capacity lengths.old ≤ vec_capacity lengths.new }
{
    lengths.push_reserved(added);
}

/// The bytes from a place on, so many.
fn part(memory: &[u8], from: usize, count: usize) -> &[u8]
    requires { from + count ≤ length memory.now }
    ensures { result.now ≡ slice_range memory.now from (from + count) }
{
    &memory[from..from + count]
}
