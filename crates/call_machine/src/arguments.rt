//! The frame that the host writes for a call: the fields of its arguments.

ghost use Rattle.std.specs.Prelude.{◌≡◌, ◌≤◌, ◌<◌, ◌+◌, ◌^◌, length, replicate, All, true};
ghost use Rattle.sgx_base.specs.Bytes.{low_bytes, with_bytes_at};
ghost use Rattle.edl_interface.specs.Parameters.{field_size, IsWordSized};
ghost use Rattle.edl_interface.specs.Runnable.{field_end};
ghost use Rattle.call_machine.specs.Calls.{argument_address, call_frame, field_bytes, with_field};
ghost use Rattle.call_machine.specs.FramedCalls.{IsArgument, AreArguments};

use crate::acts::HostPlace;
use call_script::CallArg;
use edl_interface::{Function, Param};
use sgx_base::little_endian_bytes;

/// The address that a pointer is passed by the host at a place, and 0 of an argument that is no pointer.
pub(crate) fn address_of(place: HostPlace, arg: &CallArg) -> u64
    requires { argument_address place.frame arg.now < 2 ^ 64 }
    ensures { result ≡ argument_address place.frame arg.now }
{
    match arg {
        CallArg::At(at) => place.address_of(*at),
        CallArg::Null | CallArg::Number(_) | CallArg::Bytes(_) => 0,
    }
}

/// Writes the low bytes of a number, at most 8, at a place of a frame.
fn put_number(frame: &mut [u8], at: usize, size: usize, number: u64)
    requires few { size ≤ 8 }
    requires fits { at + size ≤ length frame.old }
    ensures { frame.new ≡ with_bytes_at frame.old at (low_bytes size number) }
{
    let bytes = little_endian_bytes(number);
    frame[at..at + size].copy_from_slice(&bytes[..size]);
}

/// Writes an argument in its field of a frame: an address, the low bytes of a number, or the bytes of another value.
fn put_argument(param: &Param, place: HostPlace, arg: &CallArg, frame: &mut [u8])
    requires word { IsWordSized param.now.class }
    requires arg { IsArgument place.frame param.now.class arg.now }
    requires fits { param.now.offset + field_size param.now.class ≤ length frame.old }
    ensures { frame.new
        ≡ with_bytes_at frame.old param.now.offset (field_bytes place.frame (field_size param.now.class) arg.now) }
{
    let at = param.offset as usize;
    let size = param.class.field_size() as usize;
    match arg {
        CallArg::At(_) => put_number(frame, at, size, address_of(place, arg)),
        CallArg::Null => put_number(frame, at, size, 0),
        CallArg::Number(number) => put_number(frame, at, size, *number),
        CallArg::Bytes(bytes) => frame[at..at + size].copy_from_slice(bytes.as_slice()),
    }
}

/// Writes an argument in its field of a frame, and the length of a string right behind its address.
fn put_field(param: &Param, place: HostPlace, arg: &CallArg, text_length: u64, frame: &mut [u8])
    requires word { IsWordSized param.now.class }
    requires arg { IsArgument place.frame param.now.class arg.now }
    requires fits { field_end true param.now ≤ length frame.old }
    ensures { frame.new ≡ with_field place.frame frame.old (param.now, arg.now, text_length) }
{
    put_argument(param, place, arg, frame);
    if param.class.is_text() {
        put_number(frame, param.offset as usize + 8, 8, text_length);
    }
}

/// Writes each argument in its field of a frame that is all zeros.
pub(crate) fn fill_frame(
    function: &Function,
    place: HostPlace,
    args: &[CallArg],
    lengths: &[u64],
    frame: &mut [u8],
)
    requires words { All (λ p. IsWordSized p.class) function.now.params }
    requires fields { All (λ p. field_end true p ≤ function.now.frame_size) function.now.params }
    requires args { AreArguments place.frame function.now.params args.now }
    requires lengths { length lengths.now ≡ length args.now }
    requires zeros { frame.old ≡ replicate function.now.frame_size 0 }
    ensures { frame.new ≡ call_frame function.now place.frame args.now lengths.now }
{
    let params = function.params.as_slice();
    for i in 0..args.len() {
        put_field(&params[i], place, &args[i], lengths[i], frame);
    }
}
