//! The frame of an OCALL, as it is put before the host runs.

ghost use Rattle.std.specs.Prelude.{ℕ, false, List, ◌≡◌, ◌≤◌, ◌<◌, ◌+◌, ◌^◌, ◌==◌, Ok, length, map, sum, flat_map, All, IfErr, OnOk, IsTrue, if◌then◌else◌};
ghost use Rattle.sgx_base.specs.Bytes.{low_bytes, with_bytes_at};
ghost use Rattle.sgx_base.specs.Ranges.{is_mapped};
ghost use Rattle.edl_interface.specs.Parameters.{is_marshalled as is_marshalled_of};
ghost use Rattle.edl_interface.specs.Runnable.{field_end};
ghost use Rattle.enclave_memory.specs.Arguments.{Passed, ArePassed, arguments_in};
ghost use Rattle.word_port.specs.Accesses.{stores};
ghost use Rattle.word_port.specs.Runs.{Makes, StopsFull};
ghost use Rattle.word_port.specs.declared.Side.TheVariants.{Enclave};
ghost use Rattle.word_port.specs.declared.RunFull.TheVariants.{Steps};
ghost use Rattle.ocall_frames.specs.Arguments.{MayCall, checked_size};
ghost use Rattle.ocall_frames.specs.Contents.{IsContent, AreContents, buffers_with, addressed, framed, shown};
ghost use Rattle.ocall_frames.specs.Frames.{frame_bytes, shown_content};

use crate::Frame;
use crate::arguments::{STRUCTURE_LIMIT, measure, put_number, put_numbers};
use call_copy::{put_range, put_zeros};
use edl_interface::{Function, Param};
use enclave_memory::{Arena, Arg, Args};
use word_port::{RunFull, Side, WordPort};

/// Puts the frame of an OCALL byte by byte in rising address: the structure with 0 as the return, the numbers and the
/// addresses of the buffers, and then the buffers.
pub fn write_frame<P: WordPort>(
    port: &mut P,
    function: &Function,
    args: &Args,
    arena: &Arena,
    frame: Frame,
) -> Result<(), RunFull>
    requires call { MayCall function.now args.now.items arena.now }
    requires sized { (passed : List Passed) → ArePassed arena.now args.now.items passed
        → checked_size function.now (arguments_in arena.now passed) ≡ Ok frame.size }
    requires mapped { IsTrue (is_mapped (P.state port.old).host frame.at frame.size) }
    ensures ok { (passed : List Passed) → ArePassed arena.now args.now.items passed
        → OnOk result (Makes (stores Enclave frame.at (frame_bytes function.now (arguments_in arena.now passed)
        frame.at)) (P.state port.old) (P.state port.new) tt) }
    ensures full { (passed : List Passed) → ArePassed arena.now args.now.items passed
        → IfErr result (λ full. (full ≡ Steps)
        × StopsFull (stores Enclave frame.at (frame_bytes function.now (arguments_in arena.now passed) frame.at))
        (P.state port.old) (P.state port.new)) }
{
    let args = args.as_slice();
    let mut structure = [0; STRUCTURE_LIMIT];
    let structure = &mut structure[..function.frame_size as usize];
    put_numbers(function, args, structure);
    let Some(lengths) = measure(function, args, arena, structure) else {
        unreachable!();
    };
    put_frame(
        port,
        function,
        args,
        lengths.as_slice(),
        frame.at,
        arena,
        structure,
    )
}

/// Puts a structure with its numbers, once it has the addresses of the buffers too, and then the buffers.
fn put_frame<P: WordPort>(
    port: &mut P,
    function: &Function,
    args: &[Arg],
    lengths: &[u32],
    at: u64,
    arena: &Arena,
    structure: &mut [u8],
) -> Result<(), RunFull>
    requires fields { All (λ p. field_end false p ≤ function.now.frame_size) function.now.params }
    requires size { length structure.old ≡ function.now.frame_size }
    requires params { length function.now.params ≡ length args.now }
    requires lengths { length lengths.now ≡ length args.now }
    requires contents { (contents : List (List ℕ)) × AreContents arena.now function.now.params args.now contents
        × (lengths.now ≡ map length contents) }
    requires mapped { IsTrue (is_mapped (P.state port.old).host at (function.now.frame_size + sum lengths.now)) }
    ensures ok { (contents : List (List ℕ)) → AreContents arena.now function.now.params args.now contents
        → lengths.now ≡ map length contents
        → OnOk result (Makes (stores Enclave at (framed at function.now structure.old contents)) (P.state port.old)
        (P.state port.new) tt) }
    ensures full { (contents : List (List ℕ)) → AreContents arena.now function.now.params args.now contents
        → lengths.now ≡ map length contents
        → IfErr result (λ full. (full ≡ Steps)
        × StopsFull (stores Enclave at (framed at function.now structure.old contents))
        (P.state port.old) (P.state port.new)) }
{
    let _host = port.host();
    let buffers = at + u64::from(function.frame_size);
    put_addresses(function, lengths, buffers, structure);
    put_range(port, Side::Enclave, at, structure)?;
    put_buffers(port, function, args, lengths, buffers, arena)
}

/// Writes the address of each buffer in its field: they stand one after another, and one without bytes has the address
/// 0.
fn put_addresses(function: &Function, lengths: &[u32], from: u64, structure: &mut [u8])
    requires fields { All (λ p. field_end false p ≤ function.now.frame_size) function.now.params }
    requires size { length structure.old ≡ function.now.frame_size }
    requires count { length lengths.now ≡ length function.now.params }
    requires fits { from + sum lengths.now < 2 ^ 64 }
    ensures { (contents : List (List ℕ)) → lengths.now ≡ map length contents
        → structure.new ≡ addressed structure.old (buffers_with from function.now.params contents) }
{
    let params = function.params.as_slice();
    let mut next = from;
    for i in 0..lengths.len() {
        put_address(&params[i], lengths[i], next, structure);
        next += u64::from(lengths[i]);
    }
}

/// Writes the address of a buffer of so many bytes in a parameter's field, 0 where it has none.
fn put_address(param: &Param, count: u32, address: u64, structure: &mut [u8])
    requires { field_end false param.now ≤ length structure.old }
    ensures { structure.new ≡ (if is_marshalled_of param.now.class then with_bytes_at structure.old param.now.offset
        (low_bytes 8 (if count == 0 then 0 else address)) else structure.old) }
{
    if param.class.is_marshalled() {
        let address = if count == 0 { 0 } else { address };
        put_number(structure, param.offset as usize, 8, address);
    }
}

/// Puts the buffers one after another.
fn put_buffers<P: WordPort>(
    port: &mut P,
    function: &Function,
    args: &[Arg],
    lengths: &[u32],
    from: u64,
    arena: &Arena,
) -> Result<(), RunFull>
    requires params { length function.now.params ≡ length args.now }
    requires lengths { length lengths.now ≡ length args.now }
    requires contents { (contents : List (List ℕ)) × AreContents arena.now function.now.params args.now contents
        × (lengths.now ≡ map length contents) }
    requires mapped { IsTrue (is_mapped (P.state port.old).host from (sum lengths.now)) }
    requires fits { from + sum lengths.now < 2 ^ 64 }
    ensures ok { (contents : List (List ℕ)) → AreContents arena.now function.now.params args.now contents
        → lengths.now ≡ map length contents
        → OnOk result (Makes (stores Enclave from (flat_map shown_content (buffers_with from function.now.params
        contents))) (P.state port.old) (P.state port.new) tt) }
    ensures full { (contents : List (List ℕ)) → AreContents arena.now function.now.params args.now contents
        → lengths.now ≡ map length contents
        → IfErr result (λ full. (full ≡ Steps)
        × StopsFull (stores Enclave from (flat_map shown_content (buffers_with from function.now.params contents)))
        (P.state port.old) (P.state port.new)) }
{
    let params = function.params.as_slice();
    let mut next = from;
    for i in 0..args.len() {
        put_buffer(port, &params[i], args[i], lengths[i], next, arena)?;
        next += u64::from(lengths[i]);
    }
    Ok(())
}

/// Puts one buffer: the bytes where they are copied in, else zeros; nothing of a number or null.
fn put_buffer<P: WordPort>(
    port: &mut P,
    param: &Param,
    arg: Arg,
    count: u32,
    at: u64,
    arena: &Arena,
) -> Result<(), RunFull>
    requires content { (content : List ℕ) × IsContent arena.now param.now.class arg content × (count ≡ length content) }
    requires mapped { IsTrue (is_mapped (P.state port.old).host at count) }
    ensures ok { (content : List ℕ) → IsContent arena.now param.now.class arg content → count ≡ length content
        → OnOk result (Makes (stores Enclave at (shown param.now.class content)) (P.state port.old) (P.state port.new)
        tt) }
    ensures full { (content : List ℕ) → IsContent arena.now param.now.class arg content → count ≡ length content
        → IfErr result (λ full. (full ≡ Steps)
        × StopsFull (stores Enclave at (shown param.now.class content)) (P.state port.old) (P.state port.new)) }
{
    if count == 0 {
        return Ok(());
    }
    let Arg::Bytes(Some(block)) = arg else {
        return Ok(());
    };
    if param.class.is_in() {
        put_range(
            port,
            Side::Enclave,
            at,
            &arena.bytes(block)[..count as usize],
        )
    } else {
        put_zeros(port, Side::Enclave, at, 0, count)
    }
}
