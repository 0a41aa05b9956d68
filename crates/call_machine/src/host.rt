//! The calls by the host, each with a frame on its host stack: what comes before the entry, and after it.

ghost use Rattle.std.specs.Prelude.{ℕ, List, ◌≡◌, ◌≤◌, ◌+◌, length, Some, IfOk, IfErr, OnOk, true};
ghost use Rattle.sgx_base.specs.Ranges.{host_start};
ghost use Rattle.edl_interface.specs.Parameters.{has_frame};
ghost use Rattle.word_port.specs.Accesses.{loads, stores};
ghost use Rattle.word_port.specs.Runs.{Makes, Runs, StopsAt};
ghost use Rattle.word_port.specs.declared.Side.TheVariants.{Host};
ghost use Rattle.call_copy.specs.Stops.{IsCutShort};
ghost use Rattle.ocall_frames.specs.Stack.{frame_below};
ghost use Rattle.call_report.specs.declared.CallRecord.{CallRecord};
ghost use Rattle.call_report.specs.RecordList.{with_records};
ghost use Rattle.call_machine.specs.Calls.{no_frame, with_return};
ghost use Rattle.call_machine.specs.FramedCalls.{AreArguments, AnyCall, call_of, IsStored, IsFramed};
ghost use Rattle.call_machine.specs.Plain.{IsPlainFunction};
ghost use Rattle.call_machine.specs.Result.{Outcome};
ghost use Rattle.call_machine.specs.Tcs.{context_of, moment};

use crate::Tcs;
use crate::acts::HostPlace;
use crate::arguments::fill_frame;
use crate::strings::string_lengths;
use call_copy::{load_bytes, put_range};
use call_report::{CallKind, CallRecord, Records, Way};
use call_script::CallArg;
use edl_interface::Function;
use ocall_frames::{Frame, drop_frame, take_frame};
use sgx_base::Status;
use word_port::{RunFull, Side, WordPort};

/// How many parameters a function has at most.
const MAX_PARAMS: usize = 64;

/// How many bytes a frame has at most.
const MAX_FRAME: usize = 1024;

/// Takes a frame of these bytes from the host stack and writes it, if it fits there.
fn store_frame<P: WordPort>(
    tcs: &mut Tcs,
    port: &mut P,
    size: u32,
    bytes: &[u8],
) -> Result<Option<Frame>, RunFull>
    requires whole { length bytes.now ≡ size }
    requires from { host_start ≤ tcs.old.base }
    requires upto { tcs.old.top ≤ host_start + (P.state port.old).host }
    ensures ok { IfOk result (IsStored bytes.now size (P.state port.old) (P.state port.new) tcs.old tcs.new) }
    ensures full { IfErr result (λ full. (at : ℕ)
        × (frame_below tcs.old.base tcs.old.top size ≡ Some at)
        × IsCutShort (stores Host at bytes.now) (P.state port.old) (P.state port.new) full) }
{
    let Some(frame) = take_frame(&mut tcs.host_stack, size) else {
        return Ok(None);
    };
    put_range(port, Side::Host, frame.at, bytes)?;
    Ok(Some(frame))
}

/// Finds the lengths of the strings, and takes and writes the frame of a call, if it fits the host stack.
pub(crate) fn frame_call<P: WordPort>(
    tcs: &mut Tcs,
    port: &mut P,
    place: HostPlace,
    function: &Function,
    args: &[CallArg],
) -> Result<Option<Frame>, RunFull>
    requires plain { IsPlainFunction true function.now }
    requires framed { has_frame function.now ≡ true }
    requires args { AreArguments place.frame function.now.params args.now }
    requires from { host_start ≤ tcs.old.base }
    requires upto { tcs.old.top ≤ host_start + (P.state port.old).host }
    ensures ok { IfOk result (IsFramed function.now args.now place.frame
        (P.state port.old) (P.state port.new) tcs.old tcs.new) }
    ensures full { (any : AnyCall (P.state port.old).host)
        → IfErr result (IsCutShort (call_of any (context_of tcs.old) place.frame function.now args.now)
        (P.state port.old) (P.state port.new)) }
{
    let mut lengths = [0u64; MAX_PARAMS];
    let lengths = &mut lengths[..args.len()];
    string_lengths(port, place, function, args, lengths)?;
    let mut bytes = [0u8; MAX_FRAME];
    let bytes = &mut bytes[..function.frame_size as usize];
    fill_frame(function, place, args, lengths, bytes);
    store_frame(tcs, port, function.frame_size, bytes)
}

/// The record of a call whose frame does not fit the host stack.
pub(crate) fn refuse_call<P: WordPort>(
    tcs: &Tcs,
    port: &P,
    ordinal: u32,
    records: &mut Records,
) -> Result<(), RunFull>
    ensures ok { OnOk result ((made : List CallRecord) × Runs (no_frame (context_of tcs.now) ordinal)
        (moment (P.state port.now) records.old tcs.now) (moment (P.state port.now) records.new tcs.now) made
        × (records.new ≡ with_records records.old made)) }
    ensures full { IfErr result (λ full. StopsAt full (no_frame (context_of tcs.now) ordinal)
        (moment (P.state port.now) records.old tcs.now) (P.state port.now)) }
{
    let _records = records.list();
    let place = port.log().len() as u32;
    records.push(CallRecord {
        kind: CallKind::Ecall,
        ordinal,
        depth: tcs.stack.depth(),
        frame: 0,
        way: Way::Ordinary,
        status: Status::UNEXPECTED,
        first: place,
        turn: place,
        last: place,
    })?;
    Ok(())
}

/// Loads the return of so many bytes, of which nothing is used.
fn load_return<P: WordPort>(port: &mut P, at: u64, size: u32) -> Result<(), RunFull>
    requires few { size ≤ 8 }
    requires from { host_start ≤ at }
    requires upto { at + size ≤ host_start + (P.state port.old).host }
    ensures ok { OnOk result ((bytes : List ℕ)
        × Makes (loads Host at size) (P.state port.old) (P.state port.new) bytes) }
    ensures full { IfErr result (IsCutShort (loads Host at size) (P.state port.old) (P.state port.new)) }
{
    let mut bytes = [0; 8];
    load_bytes(port, Side::Host, at, &mut bytes[..size as usize])
}

/// Loads the return of a call at the address of its frame, where the call succeeded.
fn load_answer<P: WordPort>(
    port: &mut P,
    function: &Function,
    at: u64,
    status: Status,
) -> Result<(), RunFull>
    requires plain { IsPlainFunction true function.now }
    requires from { host_start ≤ at }
    requires upto { at + function.now.frame_size ≤ host_start + (P.state port.old).host }
    ensures ok { (out : Outcome) → out.status ≡ status
        → OnOk result (Makes (with_return function.now at out) (P.state port.old) (P.state port.new) out.records) }
    ensures full { (out : Outcome) → out.status ≡ status
        → IfErr result (IsCutShort (with_return function.now at out) (P.state port.old) (P.state port.new)) }
{
    if status != Status::SUCCESS {
        return Ok(());
    }
    load_return(port, at, function.return_size())
}

/// Ends a call: the return is loaded where the call succeeded, and its frame is given back.
pub(crate) fn end_call<P: WordPort>(
    tcs: &mut Tcs,
    port: &mut P,
    function: &Function,
    frame: Frame,
    status: Status,
) -> Result<(), RunFull>
    requires plain { IsPlainFunction true function.now }
    requires from { host_start ≤ frame.at }
    requires upto { frame.at + function.now.frame_size ≤ host_start + (P.state port.old).host }
    ensures ok { (out : Outcome) → out.status ≡ status
        → OnOk result (Makes (with_return function.now frame.at out) (P.state port.old) (P.state port.new) out.records) }
    ensures back { OnOk result (tcs.new ≡ record tcs.old { top = frame.old_top }) }
    ensures full { (out : Outcome) → out.status ≡ status
        → IfErr result (IsCutShort (with_return function.now frame.at out) (P.state port.old) (P.state port.new)) }
{
    load_answer(port, function, frame.at, status)?;
    drop_frame(&mut tcs.host_stack, frame);
    Ok(())
}
