//! Copies of parameters into the enclave and back.

ghost use Rattle.std.specs.Prelude.{ℕ, List, ◌≡◌, ◌<◌, ◌≤◌, ◌+◌, ◌++◌, ◌^◌, false, true, length, replicate, IfOk, IfErr, OnOk, IsTrue, IfSome, MatchOption};
ghost use Rattle.sgx_base.specs.Bytes.{is_divisible, rounded_size};
ghost use Rattle.sgx_base.specs.Passing.{is_inward as is_copied_in};
ghost use Rattle.sgx_base.specs.Texts.{cut_text};
ghost use Rattle.word_port.specs.Accesses.{stores};
ghost use Rattle.word_port.specs.declared.Side.TheVariants.{Enclave};
ghost use Rattle.sgx_base.specs.Ranges.{is_mapped};
ghost use Rattle.sgx_base.specs.Rows.{first_row};
ghost use Rattle.word_port.specs.Runs.{Makes, StopsFull};
ghost use Rattle.word_port.specs.declared.RunFull.TheVariants.{Steps};
ghost use Rattle.enclave_memory.specs.Memory.{IsBlock, IsLive, IsPush, IsWrite, room_of};
ghost use Rattle.call_copy.specs.Copies.{block_rows, first_bytes, copy_in as copied_in, copy_out as copied_out};
ghost use Rattle.call_copy.specs.Blocks.{IsSetTo};
ghost use Rattle.call_copy.specs.Stops.{IsCutShort, MatchStop};

use crate::ranges::{fetch_range, put_range, put_zeros};
use crate::texts::end_text;
use crate::{CopyStop, Shape};
use enclave_memory::{Arena, Block};
use sgx_base::{Passing, Status, divisible, terminated_length};
use word_port::{RunFull, Side, WordPort};

/// Copies a parameter that is no text into a new block of the arena, or refuses it.
///
/// After a full log nothing is told of the arena.
fn copy_buffer_in<P: WordPort>(
    port: &mut P,
    at: u64,
    length: u64,
    shape: Shape,
    arena: &mut Arena,
) -> Result<Block, CopyStop>
    requires some { 0 < length }
    requires mapped { IsTrue (is_mapped (P.state port.old).host at length) }
    requires plain { shape.text ≡ false }
    ensures ok { IfOk result (λ block. (bytes : List ℕ)
        × Makes (copied_in shape at length (room_of arena.old)) (P.state port.old) (P.state port.new) (Ok bytes)
        × IsPush arena.old arena.new block bytes) }
    ensures err { IfErr result (λ stop. MatchStop stop
        (λ status.
        Makes (copied_in shape at length (room_of arena.old)) (P.state port.old) (P.state port.new) (Err status)
        × (arena.new ≡ arena.old))
        (IsCutShort (copied_in shape at length (room_of arena.old)) (P.state port.old) (P.state port.new))) }
{
    first_block(port, at, length, shape, arena)
}

/// Copies a parameter into a new block of the arena, or refuses it.
///
/// A refusal leaves the arena as before. After a full log nothing is told of it.
pub fn copy_in<P: WordPort>(
    port: &mut P,
    at: u64,
    length: u64,
    shape: Shape,
    arena: &mut Arena,
) -> Result<Block, CopyStop>
    requires some { 0 < length }
    requires mapped { IsTrue (is_mapped (P.state port.old).host at length) }
    ensures ok { IfOk result (λ block. (bytes : List ℕ)
        × Makes (copied_in shape at length (room_of arena.old)) (P.state port.old) (P.state port.new) (Ok bytes)
        × IsPush arena.old arena.new block bytes) }
    ensures err { IfErr result (λ stop. MatchStop stop
        (λ status.
        Makes (copied_in shape at length (room_of arena.old)) (P.state port.old) (P.state port.new) (Err status)
        × (arena.new ≡ arena.old))
        (IsCutShort (copied_in shape at length (room_of arena.old)) (P.state port.old) (P.state port.new))) }
{
    if !shape.text {
        return copy_buffer_in(port, at, length, shape, arena);
    }
    let mark = arena.mark();
    let block = match first_block(port, at, length, shape, arena) {
        Ok(block) => block,
        Err(stop) => return Err(stop),
    };
    if end_text(arena, block, shape.unit) {
        arena.pop_to(mark);
        return Err(CopyStop::Refused(Status::UNEXPECTED));
    }
    Ok(block)
}

/// Puts a block back; a text up to its first unit 0, where its last unit counts as 0.
pub fn copy_out<P: WordPort>(
    port: &mut P,
    at: u64,
    shape: Shape,
    arena: &Arena,
    block: Block,
) -> Result<(), RunFull>
    requires mapped { IsTrue (is_mapped (P.state port.old).host at block.length) }
    requires live { IsLive arena.now block }
    requires whole { shape.text ≡ true → (0 < block.length) × (is_divisible block.length shape.unit ≡ true) }
    ensures ok { (number : ℕ) (bytes : List ℕ) → IsBlock arena.now block number bytes
        → OnOk result (Makes (copied_out shape at bytes) (P.state port.old) (P.state port.new) tt) }
    ensures full { (number : ℕ) (bytes : List ℕ) → IsBlock arena.now block number bytes
        → IfErr result (IsCutShort (copied_out shape at bytes) (P.state port.old) (P.state port.new)) }
{
    if !shape.text {
        return copy_buffer_out(port, at, shape, arena, block);
    }
    put_text(port, at, arena.bytes(block), shape.unit)
}

/// Puts a text back up to its first unit 0, where its last unit counts as 0.
fn put_text<P: WordPort>(port: &mut P, at: u64, bytes: &[u8], unit: u32) -> Result<(), RunFull>
    requires mapped { IsTrue (is_mapped (P.state port.old).host at (length bytes.now)) }
    requires some { 0 < length bytes.now }
    requires whole { is_divisible (length bytes.now) unit ≡ true }
    ensures ok { OnOk result
        (Makes (stores Enclave at (cut_text unit bytes.now)) (P.state port.old) (P.state port.new) tt) }
    ensures full { IfErr result
        (IsCutShort (stores Enclave at (cut_text unit bytes.now)) (P.state port.old) (P.state port.new)) }
{
    let body = &bytes[..bytes.len() - unit as usize];
    match terminated_length(body, unit) {
        Some(n) => put_range(port, Side::Enclave, at, &body[..n]),
        None => put_ended(port, at, body, unit),
    }
}

/// Puts a text back with a unit 0 behind it.
fn put_ended<P: WordPort>(port: &mut P, at: u64, body: &[u8], unit: u32) -> Result<(), RunFull>
    requires mapped { IsTrue (is_mapped (P.state port.old).host at (length body.now + unit)) }
    requires some { 0 < unit }
    requires fits { length body.now + unit < 2 ^ 64 }
    ensures ok { OnOk result
        (Makes (stores Enclave at (body.now ++ replicate unit 0)) (P.state port.old) (P.state port.new) tt) }
    ensures full { IfErr result
        (IsCutShort (stores Enclave at (body.now ++ replicate unit 0)) (P.state port.old) (P.state port.new)) }
{
    put_range(port, Side::Enclave, at, body)?;
    put_zeros(port, Side::Enclave, at, body.len() as u64, unit)
}

/// Puts a block back that is no text.
fn copy_buffer_out<P: WordPort>(
    port: &mut P,
    at: u64,
    shape: Shape,
    arena: &Arena,
    block: Block,
) -> Result<(), RunFull>
    requires mapped { IsTrue (is_mapped (P.state port.old).host at block.length) }
    requires live { IsLive arena.now block }
    requires plain { shape.text ≡ false }
    ensures ok { (number : ℕ) (bytes : List ℕ) → IsBlock arena.now block number bytes
        → OnOk result (Makes (copied_out shape at bytes) (P.state port.old) (P.state port.new) tt) }
    ensures full { (number : ℕ) (bytes : List ℕ) → IsBlock arena.now block number bytes
        → IfErr result (IsCutShort (copied_out shape at bytes) (P.state port.old) (P.state port.new)) }
{
    put_range(port, Side::Enclave, at, arena.bytes(block))
}

/// A new block with the bytes that a parameter has first, or why there is none.
fn first_block<P: WordPort>(
    port: &mut P,
    at: u64,
    length: u64,
    shape: Shape,
    arena: &mut Arena,
) -> Result<Block, CopyStop>
    requires some { 0 < length }
    requires mapped { IsTrue (is_mapped (P.state port.old).host at length) }
    ensures ok { IfOk result (λ block. (first_row (block_rows shape length (room_of arena.old)) ≡ None)
        × (block.length ≡ length)
        × ((bytes : List ℕ) × Makes (first_bytes shape at length) (P.state port.old) (P.state port.new) bytes
        × IsPush arena.old arena.new block bytes)) }
    ensures whole { OnOk result (is_divisible length shape.unit ≡ true) }
    ensures err { IfErr result (λ stop. MatchStop stop
        (λ status. (first_row (block_rows shape length (room_of arena.old)) ≡ Some status)
        × (P.state port.new ≡ P.state port.old) × (arena.new ≡ arena.old))
        (λ full. (first_row (block_rows shape length (room_of arena.old)) ≡ None) × (full ≡ Steps)
        × StopsFull (first_bytes shape at length) (P.state port.old) (P.state port.new))) }
{
    if !divisible(length, u64::from(shape.unit)) {
        return Err(CopyStop::Refused(Status::INVALID_PARAMETER));
    }
    let Some(block) = push_length(arena, length) else {
        return Err(CopyStop::Refused(Status::OUT_OF_MEMORY));
    };
    match fill_block(port, shape, at, arena, block) {
        Ok(()) => Ok(block),
        Err(full) => Err(CopyStop::Full(full)),
    }
}

/// Loads into a block of zeros what is copied in, and leaves the others.
fn fill_block<P: WordPort>(
    port: &mut P,
    shape: Shape,
    at: u64,
    arena: &mut Arena,
    block: Block,
) -> Result<(), RunFull>
    requires mapped { IsTrue (is_mapped (P.state port.old).host at block.length) }
    requires zeros { (number : ℕ) × IsBlock arena.old block number (replicate block.length 0) }
    ensures ok { OnOk result ((bytes : List ℕ)
        × Makes (first_bytes shape at block.length) (P.state port.old) (P.state port.new) bytes
        × (block.length ≡ length bytes) × IsSetTo arena.old arena.new block bytes) }
    ensures full { IfErr result (IsCutShort (first_bytes shape at block.length) (P.state port.old) (P.state port.new)) }
{
    if is_inward(shape.way) {
        fetch_range(port, Side::Enclave, at, arena, block)
    } else {
        Ok(())
    }
}

/// Whether a parameter is copied in.
fn is_inward(way: Passing) -> bool
    ensures { result ≡ is_copied_in way }
{
    match way {
        Passing::Inward | Passing::Both => true,
        Passing::Outward => false,
    }
}

/// Begins a block of so many bytes, if they fit.
fn push_length(arena: &mut Arena, length: u64) -> Option<Block>
    requires { 0 < length }
    ensures pushed { MatchOption result
        ((arena.new ≡ arena.old) × (room_of arena.old < rounded_size length))
        (λ block. IsPush arena.old arena.new block (replicate length 0)) }
    ensures fits { IfSome result (λ block. rounded_size length ≤ room_of arena.old) }
{
    if length > u64::from(arena.room()) {
        return None;
    }
    arena.push_block(length as u32)
}
