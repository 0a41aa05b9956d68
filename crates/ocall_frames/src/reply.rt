//! The answer of an OCALL, as it is loaded after the host ran.

ghost use Rattle.std.specs.Prelude.{ℕ, false, List, [], ◌∷◌, ◌≡◌, ◌≤◌, ◌<◌, ◌+◌, ◌-◌, ◌^◌, Ok, Option, Some, None, length, map, sum, replicate, slice_set, All, IfOk, IfErr, OnOk, IsTrue, true};
ghost use Rattle.sgx_base.specs.Bytes.{with_bytes_at};
ghost use Rattle.sgx_base.specs.Ranges.{host_start, is_mapped};
ghost use Rattle.edl_interface.specs.Parameters.{marshalled, return_size, value_at};
ghost use Rattle.edl_interface.specs.Runnable.{IsPassed as IsPassedClass, IsRunnableFunction};
ghost use Rattle.enclave_memory.specs.Arguments.{Passed, ArePassed, arguments_in};
ghost use Rattle.enclave_memory.specs.Memory.{IsBlock, IsLive};
ghost use Rattle.word_port.specs.Accesses.{word_at, loads};
ghost use Rattle.word_port.specs.Port.{with_steps, IsFull};
ghost use Rattle.word_port.specs.Requests.{step_of, load_of};
ghost use Rattle.word_port.specs.Runs.{Makes, StopsFull};
ghost use Rattle.word_port.specs.declared.Side.TheVariants.{Enclave};
ghost use Rattle.word_port.specs.declared.RunFull.TheVariants.{Steps};
ghost use Rattle.ocall_frames.specs.Arguments.{MayCall, checked_size};
ghost use Rattle.ocall_frames.specs.Contents.{AreContents, buffers_with};
ghost use Rattle.ocall_frames.specs.Frames.{Reply, buffer_loads, read_reply as reply_read, return_value, IsArenaAfter};
ghost use Rattle.ocall_frames.specs.Replies.{reply_with, buffer_load, IsPartOf, IsPartOfArgument, IsBackIn, IsBack, IsReplied, KeepsBlocks};

use crate::Frame;
use crate::arguments::lengths_of;
use edl_interface::{Class, Function, Param, Plain};
use enclave_memory::{Arena, Arg, Args, Block};
use sgx_base::{HOST_START, extended, read_little_endian};
use word_port::{RunFull, Side, WordPort};

/// Loads the return and then each buffer that is copied back, from the addresses at which the frame was put, into the
/// first bytes of its block. Gives the return, 0 where there is none. Each block keeps its place and its length.
///
/// After a full log nothing is told of the arena.
pub fn read_reply<P: WordPort>(
    port: &mut P,
    function: &Function,
    args: &Args,
    arena: &mut Arena,
    frame: Frame,
) -> Result<u64, RunFull>
    requires call { MayCall function.now args.now.items arena.old }
    requires sized { (passed : List Passed) → ArePassed arena.old args.now.items passed
        → checked_size function.now (arguments_in arena.old passed) ≡ Ok frame.size }
    requires mapped { IsTrue (is_mapped (P.state port.old).host frame.at frame.size) }
    ensures ok { (passed : List Passed) → ArePassed arena.old args.now.items passed
        → IfOk result (λ value. IsReplied function.now passed frame.at (P.state port.old) (P.state port.new) arena.old
        arena.new value) }
    ensures kept { OnOk result (KeepsBlocks arena.old arena.new) }
    ensures full { (passed : List Passed) → ArePassed arena.old args.now.items passed
        → IfErr result (λ full. (full ≡ Steps)
        × StopsFull (reply_read function.now (arguments_in arena.old passed) frame.at)
        (P.state port.old) (P.state port.new)) }
{
    let args = args.as_slice();
    let Some(lengths) = lengths_of(function, args, arena) else {
        unreachable!();
    };
    load_reply(port, function, args, lengths.as_slice(), frame.at, arena)
}

/// Loads the return and then the buffers of so many bytes, from the address of a frame on.
fn load_reply<P: WordPort>(
    port: &mut P,
    function: &Function,
    args: &[Arg],
    lengths: &[u32],
    at: u64,
    arena: &mut Arena,
) -> Result<u64, RunFull>
    requires runs { IsRunnableFunction false function.now }
    requires params { length function.now.params ≡ length args.now }
    requires lengths { length lengths.now ≡ length args.now }
    requires live { (passed : List Passed) × ArePassed arena.old args.now passed }
    requires contents { (contents : List (List ℕ)) × AreContents arena.old function.now.params args.now contents
        × (lengths.now ≡ map length contents) }
    requires mapped { IsTrue (is_mapped (P.state port.old).host at (function.now.frame_size + sum lengths.now)) }
    ensures ok { (passed : List Passed) (contents : List (List ℕ)) → ArePassed arena.old args.now passed
        → AreContents arena.old function.now.params args.now contents → lengths.now ≡ map length contents
        → IfOk result (λ value. (reply : Reply)
        × Makes (reply_with function.now contents at) (P.state port.old) (P.state port.new) reply
        × (value ≡ reply.value) × IsArenaAfter (marshalled function.now) passed reply.loaded arena.old arena.new) }
    ensures kept { OnOk result (KeepsBlocks arena.old arena.new) }
    ensures full { (passed : List Passed) (contents : List (List ℕ)) → ArePassed arena.old args.now passed
        → AreContents arena.old function.now.params args.now contents → lengths.now ≡ map length contents
        → IfErr result (λ full. (full ≡ Steps)
        × StopsFull (reply_with function.now contents at) (P.state port.old) (P.state port.new)) }
{
    let _host = port.host();
    let buffers = at + u64::from(function.frame_size);
    let value = load_return(port, function, at)?;
    load_buffers(port, function, args, lengths, buffers, arena)?;
    Ok(value)
}

/// Loads the return, as a number of 64 bits.
fn load_return<P: WordPort>(port: &mut P, function: &Function, at: u64) -> Result<u64, RunFull>
    requires size { return_size function.now ≤ 8 }
    requires mapped { IsTrue (is_mapped (P.state port.old).host at (return_size function.now)) }
    ensures ok { IfOk result (λ value. (bytes : List ℕ)
        × Makes (loads Enclave at (return_size function.now)) (P.state port.old) (P.state port.new) bytes
        × (value ≡ return_value function.now bytes)) }
    ensures full { IfErr result (λ full. (full ≡ Steps)
        × StopsFull (loads Enclave at (return_size function.now)) (P.state port.old) (P.state port.new)) }
{
    let mut bytes = [0; 8];
    let bytes = &mut bytes[..function.return_size() as usize];
    load_bytes(port, at, bytes)?;
    Ok(returned(function, bytes))
}

/// The number that the bytes of a return are, 0 where there is none.
fn returned(function: &Function, bytes: &[u8]) -> u64
    requires size { return_size function.now ≤ 8 }
    requires count { length bytes.now ≡ return_size function.now }
    ensures { result ≡ return_value function.now bytes.now }
{
    match function.ret {
        Some(plain) => value_of(plain, bytes),
        None => 0,
    }
}

/// The number that bytes are at a type, as one of 64 bits.
fn value_of(plain: Plain, bytes: &[u8]) -> u64
    requires word { plain.size ≤ 8 }
    requires field { length bytes.now ≤ plain.size }
    ensures { result ≡ value_at plain bytes.now }
{
    if plain.size == 0 {
        0
    } else {
        extended(plain.size, plain.signed, read_little_endian(bytes))
    }
}

/// Loads the bytes from an address on.
#[tactic(auto, using(word_port::proofs::AccessLaws::access_laws))]
fn load_bytes<P: WordPort>(port: &mut P, at: u64, out: &mut [u8]) -> Result<(), RunFull>
    requires { IsTrue (is_mapped (P.state port.old).host at (length out.old)) }
    ensures ok { OnOk result (Makes (loads Enclave at (length out.old)) (P.state port.old) (P.state port.new) out.new) }
    ensures full { IfErr result (λ full. (full ≡ Steps)
        × StopsFull (loads Enclave at (length out.old)) (P.state port.old) (P.state port.new)) }
{
    for i in 0..out.len() {
        let byte = load_byte(port, at, i as u64)?;
        out[i] = byte;
    }
    Ok(())
}

/// Loads the byte that is so many bytes past an address.
fn load_byte<P: WordPort>(port: &mut P, at: u64, past: u64) -> Result<u8, RunFull>
    requires from { host_start ≤ at }
    requires upto { at + past < host_start + (P.state port.old).host }
    ensures ok { IfOk result (λ byte. P.state port.new ≡ with_steps (P.state port.old) (step_of (load_of Enclave
        (word_at (at + past))) byte ∷ [])) }
    ensures full { IfErr result (λ full. (full ≡ Steps) × IsFull (P.state port.new)
        × (P.state port.new ≡ P.state port.old)) }
{
    if port.spare() == 0 {
        return Err(RunFull::Steps);
    }
    let _host = port.host();
    let word = (at + past - HOST_START) as u32;
    Ok(port.load(Side::Enclave, word) as u8)
}

/// Loads the buffers that are copied back, one after another.
fn load_buffers<P: WordPort>(
    port: &mut P,
    function: &Function,
    args: &[Arg],
    lengths: &[u32],
    from: u64,
    arena: &mut Arena,
) -> Result<(), RunFull>
    requires classes { All (λ p. IsPassedClass p.class) function.now.params }
    requires params { length function.now.params ≡ length args.now }
    requires lengths { length lengths.now ≡ length args.now }
    requires live { (passed : List Passed) × ArePassed arena.old args.now passed }
    requires contents { (contents : List (List ℕ)) × AreContents arena.old function.now.params args.now contents
        × (lengths.now ≡ map length contents) }
    requires mapped { IsTrue (is_mapped (P.state port.old).host from (sum lengths.now)) }
    requires fits { from + sum lengths.now < 2 ^ 64 }
    ensures ok { (passed : List Passed) (contents : List (List ℕ)) → ArePassed arena.old args.now passed
        → AreContents arena.old function.now.params args.now contents → lengths.now ≡ map length contents
        → OnOk result ((loaded : List (Option (List ℕ)))
        × Makes (buffer_loads (buffers_with from function.now.params contents)) (P.state port.old) (P.state port.new)
        loaded × IsArenaAfter (marshalled function.now) passed loaded arena.old arena.new) }
    ensures kept { OnOk result (KeepsBlocks arena.old arena.new) }
    ensures full { (passed : List Passed) (contents : List (List ℕ)) → ArePassed arena.old args.now passed
        → AreContents arena.old function.now.params args.now contents → lengths.now ≡ map length contents
        → IfErr result (λ full. (full ≡ Steps)
        × StopsFull (buffer_loads (buffers_with from function.now.params contents))
        (P.state port.old) (P.state port.new)) }
{
    let params = function.params.as_slice();
    let mut next = from;
    for i in 0..args.len() {
        load_buffer(port, &params[i], args[i], lengths[i], next, arena)?;
        next += u64::from(lengths[i]);
    }
    Ok(())
}

/// Loads one buffer of so many bytes, where it is copied back, into the block of its argument.
fn load_buffer<P: WordPort>(
    port: &mut P,
    param: &Param,
    arg: Arg,
    count: u32,
    at: u64,
    arena: &mut Arena,
) -> Result<(), RunFull>
    requires class { IsPassedClass param.now.class }
    requires part { IsPartOfArgument arena.old param.now.class arg count }
    requires mapped { IsTrue (is_mapped (P.state port.old).host at count) }
    ensures ok { OnOk result ((these : Option (List ℕ))
        × Makes (buffer_load param.now.class at count) (P.state port.old) (P.state port.new) these
        × IsBack param.now.class arg these arena.old arena.new) }
    ensures full { IfErr result (λ full. (full ≡ Steps)
        × StopsFull (buffer_load param.now.class at count) (P.state port.old) (P.state port.new)) }
{
    match arg {
        Arg::Bytes(Some(block)) => load_block(port, &param.class, block, count, at, arena),
        Arg::Bytes(None) => Ok(()),
        Arg::Value(_) => Ok(()),
    }
}

/// Loads one buffer of so many bytes, where it is copied back, into a block.
fn load_block<P: WordPort>(
    port: &mut P,
    class: &Class,
    block: Block,
    count: u32,
    at: u64,
    arena: &mut Arena,
) -> Result<(), RunFull>
    requires class { IsPassedClass class.now }
    requires part { IsPartOf arena.old class.now block count }
    requires mapped { IsTrue (is_mapped (P.state port.old).host at count) }
    ensures ok { OnOk result ((these : Option (List ℕ))
        × Makes (buffer_load class.now at count) (P.state port.old) (P.state port.new) these
        × IsBackIn class.now block these arena.old arena.new) }
    ensures full { IfErr result (λ full. (full ≡ Steps)
        × StopsFull (buffer_load class.now at count) (P.state port.old) (P.state port.new)) }
{
    if count == 0 || !class.is_out() {
        return Ok(());
    }
    load_first(port, at, arena, block, count)?;
    if class.is_text() {
        end_text(arena, block, count, class.unit());
    }
    Ok(())
}

/// Loads so many bytes into the first ones of a block.
fn load_first<P: WordPort>(
    port: &mut P,
    at: u64,
    arena: &mut Arena,
    block: Block,
    count: u32,
) -> Result<(), RunFull>
    requires mapped { IsTrue (is_mapped (P.state port.old).host at count) }
    requires live { IsLive arena.old block }
    requires fits { count ≤ block.length }
    ensures ok { OnOk result ((bytes : List ℕ)
        × Makes (loads Enclave at count) (P.state port.old) (P.state port.new) bytes × (length bytes ≡ count)
        × ((place : ℕ) (first : List ℕ) → IsBlock arena.old block place first
        → arena.new ≡ record arena.old { blocks = slice_set arena.old.blocks place (with_bytes_at first 0 bytes) })) }
    ensures full { IfErr result (λ full. (full ≡ Steps)
        × StopsFull (loads Enclave at count) (P.state port.old) (P.state port.new)) }
{
    for i in 0..count {
        let byte = load_byte(port, at, u64::from(i))?;
        arena.write(block, i, &[byte]);
    }
    Ok(())
}

/// Sets the last unit of so many bytes, the first of a block, to 0.
fn end_text(arena: &mut Arena, block: Block, count: u32, unit: u32)
    requires live { IsLive arena.old block }
    requires fits { count ≤ block.length }
    requires within { unit ≤ count }
    requires few { unit ≤ 4 }
    ensures { (place : ℕ) (first : List ℕ) → IsBlock arena.old block place first
        → arena.new ≡ record arena.old {
          blocks = slice_set arena.old.blocks place (with_bytes_at first (count - unit)
              (replicate unit 0));
        } }
{
    let zeros = [0; 4];
    arena.write(block, count - unit, &zeros[..unit as usize]);
}
