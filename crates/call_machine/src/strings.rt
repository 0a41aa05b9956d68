//! The lengths of the strings that the host passes.

ghost use Rattle.std.specs.Prelude.{◌≡◌, ◌≤◌, ◌<◌, ◌^◌, length, zip, All, IfOk, IfErr, OnOk, true};
ghost use Rattle.sgx_base.specs.Ranges.{is_mapped};
ghost use Rattle.sgx_base.specs.Texts.{is_zero_unit};
ghost use Rattle.word_port.specs.Accesses.{loads};
ghost use Rattle.word_port.specs.Runs.{Makes, StopsFull};
ghost use Rattle.word_port.specs.declared.Side.TheVariants.{Host};
ghost use Rattle.word_port.specs.declared.RunFull.TheVariants.{Steps};
ghost use Rattle.call_copy.specs.Stops.{IsCutShort};
ghost use Rattle.edl_interface.specs.Runnable.{IsPassed};
ghost use Rattle.call_machine.specs.Calls.{argument_address, IsUnitSeen, string_loads, string_length as string_length_of, string_lengths as string_lengths_of};
ghost use Rattle.call_machine.specs.FramedCalls.{AreArguments};

use crate::acts::HostPlace;
use crate::arguments::address_of;
use call_copy::load_bytes;
use call_script::CallArg;
use edl_interface::{Class, Function};
use sgx_base::mapped;
use word_port::{RunFull, Side, WordPort};

/// Whether every byte is 0.
fn is_zero(bytes: &[u8]) -> bool
    ensures { result ≡ is_zero_unit bytes.now }
{
    bytes.iter().all(|byte| *byte == 0)
}

/// Whether a string, whose units have 1 to 4 bytes, goes on at an address: host memory has a unit there, which is
/// loaded, and it is not 0.
fn goes_on<P: WordPort>(port: &mut P, at: u64, unit: u32) -> Result<bool, RunFull>
    requires some { 1 ≤ unit }
    requires few { unit ≤ 4 }
    ensures ok { IfOk result (IsUnitSeen (P.state port.old).host unit at (P.state port.old) (P.state port.new)) }
    ensures full { IfErr result (λ full. (full ≡ Steps) × (is_mapped (P.state port.old).host at unit ≡ true)
        × StopsFull (loads Host at unit) (P.state port.old) (P.state port.new)) }
{
    if !mapped(port.host(), at, u64::from(unit)) {
        return Ok(false);
    }
    let mut bytes = [0; 4];
    let bytes = &mut bytes[..unit as usize];
    load_bytes(port, Side::Host, at, bytes)?;
    Ok(!is_zero(bytes))
}

/// The length in bytes of the string at an address, whose units have 1 to 4 bytes: its units up to a unit 0 or to where
/// host memory ends, and one unit more.
fn string_length<P: WordPort>(port: &mut P, at: u64, unit: u32) -> Result<u64, RunFull>
    requires some { 1 ≤ unit }
    requires few { unit ≤ 4 }
    ensures ok { let host = (P.state port.old).host in
        IfOk result (Makes (string_loads host host unit at) (P.state port.old) (P.state port.new)) }
    ensures full { let host = (P.state port.old).host in
        IfErr result (IsCutShort (string_loads host host unit at) (P.state port.old) (P.state port.new)) }
{
    let _host = port.host();
    let mut next = at;
    while goes_on(port, next, unit)? {
        next += u64::from(unit);
    }
    Ok(next - at + u64::from(unit))
}

/// The length of an argument that is a string and not null, and 0 of any other.
fn argument_length<P: WordPort>(
    port: &mut P,
    place: HostPlace,
    class: &Class,
    arg: &CallArg,
) -> Result<u64, RunFull>
    requires passed { IsPassed class.now }
    requires address { argument_address place.frame arg.now < 2 ^ 64 }
    ensures ok { IfOk result (Makes (string_length_of (P.state port.old).host place.frame class.now arg.now)
        (P.state port.old) (P.state port.new)) }
    ensures full { IfErr result (IsCutShort (string_length_of (P.state port.old).host place.frame class.now arg.now)
        (P.state port.old) (P.state port.new)) }
{
    let address = address_of(place, arg);
    if class.is_text() && address != 0 {
        string_length(port, address, class.unit())
    } else {
        Ok(0)
    }
}

/// Finds the length of each argument, in order.
pub(crate) fn string_lengths<P: WordPort>(
    port: &mut P,
    place: HostPlace,
    function: &Function,
    args: &[CallArg],
    lengths: &mut [u64],
) -> Result<(), RunFull>
    requires classes { All (λ p. IsPassed p.class) function.now.params }
    requires args { AreArguments place.frame function.now.params args.now }
    requires room { length lengths.old ≡ length args.now }
    ensures ok { OnOk result
        (Makes (string_lengths_of (P.state port.old).host place.frame (zip function.now.params args.now))
        (P.state port.old) (P.state port.new) lengths.new) }
    ensures full { IfErr result
        (IsCutShort (string_lengths_of (P.state port.old).host place.frame (zip function.now.params args.now))
        (P.state port.old) (P.state port.new)) }
{
    let params = function.params.as_slice();
    for i in 0..args.len() {
        lengths[i] = argument_length(port, place, &params[i].class, &args[i])?;
    }
    Ok(())
}
