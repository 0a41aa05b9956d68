//! What is checked of the arguments of an OCALL: the lengths that their buffers have.

ghost use Rattle.std.specs.Prelude.{ℕ, false, List, ◌≡◌, ◌≤◌, ◌<◌, ◌+◌, ◌*◌, ◌^◌, length, replicate, zip, sum, All, IfSome, Some, option_map};
ghost use Rattle.sgx_base.specs.Bytes.{low_bytes, with_bytes_at};
ghost use Rattle.edl_interface.specs.Parameters.{field_size, is_text, unit_of};
ghost use Rattle.edl_interface.specs.Runnable.{field_end, IsPassed as IsPassedClass};
ghost use Rattle.enclave_memory.specs.Arguments.{Argument, bytes, Passed, ArePassed, arguments_in};
ghost use Rattle.enclave_memory.specs.Memory.{Memory, IsLive};
ghost use Rattle.ocall_frames.specs.Arguments.{MayCall, AreOfKinds, checked_size};
ghost use Rattle.ocall_frames.specs.Contents.{IsArgument, AreArguments, IsLiveArgument, measured_argument, measured, fitting_length};
ghost use Rattle.ocall_frames.specs.Frames.{argument_length, numbers_structure, with_number};

use arrayvec::ArrayVec;
use edl_interface::{Function, Param};
use enclave_memory::{Arena, Arg, Args};
use sgx_base::{Status, terminated_length};

/// The most bytes that a marshalling structure has.
pub(crate) const STRUCTURE_LIMIT: usize = 1024;

/// How many bytes each argument has in its buffer.
pub(crate) type Lengths = ArrayVec<u32, 64>;

/// The size of the frame that an OCALL needs, or the first refusal of its arguments.
pub fn check_args(function: &Function, args: &Args, arena: &Arena) -> Result<u32, Status>
    requires { MayCall function.now args.now.items arena.now }
    ensures { (passed : List Passed) → ArePassed arena.now args.now.items passed
        → result ≡ checked_size function.now (arguments_in arena.now passed) }
{
    match lengths_of(function, args.as_slice(), arena) {
        Some(lengths) => Ok(function.frame_size + total(lengths.as_slice())),
        None => Err(Status::INVALID_PARAMETER),
    }
}

/// The sum of lengths.
fn total(lengths: &[u32]) -> u32
    requires few { length lengths.now ≤ 64 }
    requires bounded { All (λ n. n ≤ 65536) lengths.now }
    ensures sum { result ≡ sum lengths.now }
    ensures bound { result ≤ 64 * 65536 }
{
    let mut sum = 0;
    for length in lengths {
        sum += *length;
    }
    sum
}

/// How many bytes each argument has in its buffer, or None where the OCALL is refused for one.
pub(crate) fn lengths_of(function: &Function, args: &[Arg], arena: &Arena) -> Option<Lengths>
    requires call { MayCall function.now args.now arena.now }
    requires few { length args.now ≤ 64 }
    ensures lengths { (arguments : List Argument) → AreArguments arena.now args.now arguments
        → option_map (λ l. l.items) result ≡ measured function.now (numbers_structure function.now arguments) (zip
        function.now.params arguments) }
    ensures bounded { IfSome result (λ l. All (λ n. n ≤ 65536) l.items) }
{
    let mut structure = [0; STRUCTURE_LIMIT];
    let structure = &mut structure[..function.frame_size as usize];
    put_numbers(function, args, structure);
    measure(function, args, arena, structure)
}

/// Writes each number in its field of a structure that is all zeros.
pub(crate) fn put_numbers(function: &Function, args: &[Arg], structure: &mut [u8])
    requires fields { All (λ p. field_end false p ≤ function.now.frame_size) function.now.params }
    requires kinds { AreOfKinds function.now.params args.now }
    requires zeros { structure.old ≡ replicate function.now.frame_size 0 }
    ensures { (arena : Memory) (arguments : List Argument) → AreArguments arena args.now arguments
        → structure.new ≡ numbers_structure function.now arguments }
{
    let params = function.params.as_slice();
    for i in 0..args.len() {
        put_argument(&params[i], args[i], structure);
    }
}

/// Writes an argument that is a number in its field.
fn put_argument(param: &Param, arg: Arg, structure: &mut [u8])
    requires { param.now.offset + field_size param.now.class ≤ length structure.old }
    ensures { (arena : Memory) (a : Argument) → IsArgument arena arg a
        → structure.new ≡ with_number param.now structure.old a }
{
    if let Arg::Value(number) = arg {
        put_number(
            structure,
            param.offset as usize,
            param.class.field_size() as usize,
            number,
        );
    }
}

/// Writes the low bytes of a number, so many, at a place of a structure; past 8 bytes they are 0.
pub(crate) fn put_number(structure: &mut [u8], at: usize, size: usize, number: u64)
    requires { at + size ≤ length structure.old }
    ensures { structure.new ≡ with_bytes_at structure.old at (low_bytes size number) }
{
    let mut rest = number;
    for i in 0..size {
        structure[at + i] = (rest % 256) as u8;
        rest /= 256;
    }
}

/// How many bytes each argument has in its buffer, where the structure has the numbers; or None where the OCALL is
/// refused for one.
pub(crate) fn measure(
    function: &Function,
    args: &[Arg],
    arena: &Arena,
    structure: &[u8],
) -> Option<Lengths>
    requires call { MayCall function.now args.now arena.now }
    requires few { length args.now ≤ 64 }
    ensures lengths { (arguments : List Argument) → AreArguments arena.now args.now arguments
        → option_map (λ l. l.items) result ≡ measured function.now structure.now (zip function.now.params arguments) }
    ensures bounded { IfSome result (λ l. All (λ n. n ≤ 65536) l.items) }
{
    let params = function.params.as_slice();
    let mut lengths = ArrayVec::new();
    for i in 0..args.len() {
        lengths.push(buffer_length(function, structure, &params[i], args[i], arena)?);
    }
    Some(lengths)
}

/// How many bytes an argument has in its buffer, or None where the OCALL is refused for it.
fn buffer_length(
    function: &Function,
    structure: &[u8],
    param: &Param,
    arg: Arg,
    arena: &Arena,
) -> Option<u32>
    requires class { IsPassedClass param.now.class }
    requires live { IsLiveArgument arena.now arg }
    ensures length { (a : Argument) → IsArgument arena.now arg a
        → result ≡ measured_argument function.now structure.now (param.now, a) }
    ensures bounded { IfSome result (λ n. n ≤ 65536) }
{
    match arg {
        Arg::Value(_) => Some(0),
        Arg::Bytes(None) => null_length(function, structure, param),
        Arg::Bytes(Some(block)) => block_length(function, structure, param, arena.bytes(block)),
    }
}

/// The length of the buffer of a null block, or None where its product is too large.
fn null_length(function: &Function, structure: &[u8], param: &Param) -> Option<u32>
    ensures length { result ≡ measured_argument function.now structure.now (param.now, bytes None) }
    ensures bounded { IfSome result (λ n. n ≡ 0) }
{
    if param.class.is_text() {
        return Some(0);
    }
    match function.length(structure, param) {
        Some(_) => Some(0),
        None => None,
    }
}

/// How many bytes of a block go into its buffer, or None where its length is missing, too large, or more than the block
/// has.
fn block_length(function: &Function, structure: &[u8], param: &Param, block: &[u8]) -> Option<u32>
    requires class { IsPassedClass param.now.class }
    requires small { length block.now ≤ 65536 }
    ensures length { result ≡ measured_argument function.now structure.now (param.now, bytes (Some block.now)) }
    ensures bounded { IfSome result (λ n. n ≤ 65536) }
{
    let length = part_length(function, structure, param, block)?;
    if length > block.len() as u64 {
        return None;
    }
    Some(length as u32)
}

/// How many bytes of a block are passed: a string up to its first unit 0 and with it. None where that is missing or too
/// large.
fn part_length(function: &Function, structure: &[u8], param: &Param, block: &[u8]) -> Option<u64>
    requires { IsPassedClass param.now.class }
    ensures { result ≡ fitting_length (argument_length function.now structure.now param.now (bytes (Some block.now))) }
{
    if !param.class.is_text() {
        return function.length(structure, param);
    }
    match terminated_length(block, param.class.unit()) {
        Some(length) => Some(length as u64),
        None => None,
    }
}
