//! The parts of an OCALL around what the host does: its record, the checks, the frame, and its answer.

ghost use Rattle.std.specs.Prelude.{ℕ, List, ◌≡◌, ◌<◌, length, slice_get, Ok, Option, Some, None, IfOk, IfErr, OnOk};
ghost use Rattle.edl_interface.specs.declared.Function.{Function as AFunction};
ghost use Rattle.word_port.specs.Accesses.{stores};
ghost use Rattle.word_port.specs.Runs.{Makes, StopsAt};
ghost use Rattle.word_port.specs.Limits.{progress};
ghost use Rattle.word_port.specs.declared.Side.TheVariants.{Enclave};
ghost use Rattle.enclave_memory.specs.Arguments.{Passed, ArePassed, arguments_in};
ghost use Rattle.bridge_program.specs.Standing.{IsInEnclave, HasOcall};
ghost use Rattle.call_copy.specs.Stops.{IsCutShort, MatchStop};
ghost use Rattle.ocall_frames.specs.Arguments.{MayCall};
ghost use Rattle.ocall_frames.specs.Frames.{frame_bytes, read_reply as reply_read};
ghost use Rattle.ocall_frames.specs.Replies.{IsReplied, KeepsBlocks};
ghost use Rattle.call_report.specs.declared.CallRecord.{CallRecord as ARecord};
ghost use Rattle.call_machine.specs.Ocall.{answer_loads};
ghost use Rattle.call_machine.specs.OcallPhases.{frame_address, top_after, IsTaken, IsUntaken, IsFrameFor, IsAsked, IsUnasked, handled, IsAnswer, IsAnswered, ended_record as record_ended};
ghost use Rattle.call_machine.specs.Plain.{IsPlainMachine};
ghost use Rattle.call_machine.specs.Served.{handler_acts};
ghost use Rattle.call_machine.specs.Tcs.{context_of, moment, HasStackInHost, IsPortOf};
ghost use Rattle.call_machine.specs.Thread.{ocall as ocalled};

use crate::{Machine, Tcs};
use call_copy::CopyStop;
use call_report::{CallKind, CallRecord, Records, Way};
use call_script::HostAct;
use edl_interface::Function;
use enclave_memory::{Arena, Args};
use ocall_frames::{Frame, HostStack, check_args, drop_frame, read_reply, take_frame, write_frame};
use sgx_base::Status;
use word_port::{RunFull, WordPort};

/// An OCALL whose frame is written, where the host is to run: its function, its frame, which a function without one has
/// not, and its record, which stands at this place as it began.
#[derive(Clone, Copy)]
pub(crate) struct Asked<'a> {
    pub ordinal: u32,
    pub function: &'a Function,
    pub frame: Option<Frame>,
    pub place: u32,
    pub begun: CallRecord,
}

impl Asked<'_> {
    /// The address of the frame, 0 where there is none.
    pub(crate) fn address(&self) -> u64
        ensures { result ≡ frame_address self.now.frame }
    {
        match self.frame {
            Some(frame) => frame.at,
            None => 0,
        }
    }
}

/// What came back from an OCALL: where its loads begin, where any are made, and the return.
#[derive(Clone, Copy)]
struct Answer {
    turn: Option<u32>,
    value: u64,
}

/// The acts of the handler of an OCALL.
pub(crate) fn handler_of(machine: &Machine, ordinal: u32) -> &[HostAct]
    ensures { result.now ≡ handler_acts machine.now ordinal }
{
    match machine.script.handlers.get(ordinal as usize) {
        Some(acts) => acts.as_slice(),
        None => &[],
    }
}

/// Takes the frame of an OCALL, where its function has one; or gives the first refusal.
fn take_room(
    function: &Function,
    args: &Args,
    arena: &Arena,
    stack: &mut HostStack,
) -> Result<Option<Frame>, Status>
    requires { MayCall function.now args.now.items arena.now }
    ensures ok { (passed : List Passed) → ArePassed arena.now args.now.items passed
        → IfOk result (IsTaken function.now (arguments_in arena.now passed) stack.old stack.new) }
    ensures err { (passed : List Passed) → ArePassed arena.now args.now.items passed
        → IfErr result (IsUntaken function.now (arguments_in arena.now passed) stack.old) }
    ensures kept { IfErr result (λ status. stack.new ≡ stack.old) }
{
    let size = check_args(function, args, arena)?;
    if !function.has_frame() {
        return Ok(None);
    }
    match take_frame(stack, size) {
        Some(frame) => Ok(Some(frame)),
        None => Err(Status::UNEXPECTED),
    }
}

/// Writes the frame, where there is one.
fn put_frame<P: WordPort>(
    port: &mut P,
    function: &Function,
    args: &Args,
    arena: &Arena,
    frame: Option<Frame>,
) -> Result<(), RunFull>
    requires call { MayCall function.now args.now.items arena.now }
    requires frame { IsFrameFor function.now args.now.items arena.now (P.state port.old).host frame }
    ensures ok { (passed : List Passed) → ArePassed arena.now args.now.items passed
        → OnOk result (Makes (stores Enclave (frame_address frame)
        (frame_bytes function.now (arguments_in arena.now passed) (frame_address frame)))
        (P.state port.old) (P.state port.new) tt) }
    ensures full { (passed : List Passed) → ArePassed arena.now args.now.items passed
        → IfErr result (IsCutShort (stores Enclave (frame_address frame)
        (frame_bytes function.now (arguments_in arena.now passed) (frame_address frame)))
        (P.state port.old) (P.state port.new)) }
{
    match frame {
        Some(frame) => write_frame(port, function, args, arena, frame),
        None => Ok(()),
    }
}

/// Begins an OCALL: its record takes its place, its arguments are checked, its frame is taken and written, and it is on
/// the call stack.
///
/// A refusal has a record too, and leaves the thread control structure as it was.
pub(crate) fn start_ocall<'a, P: WordPort>(
    machine: &'a Machine,
    tcs: &mut Tcs,
    port: &mut P,
    ordinal: u32,
    args: &Args,
    records: &mut Records,
) -> Result<Asked<'a>, CopyStop>
    requires inside { IsInEnclave tcs.old.stack }
    requires stack_in { HasStackInHost machine.now tcs.old }
    requires port { IsPortOf machine.now (P.state port.old) }
    requires arguments { (f : AFunction) × (slice_get machine.now.interface.ocalls ordinal ≡ Some f)
        × MayCall f args.now.items tcs.old.arena }
    ensures ok { IfOk result (IsAsked machine.now ordinal args.now.items (P.state port.old) (P.state port.new)
        records.old records.new tcs.old tcs.new) }
    ensures err { (passed : List Passed) → ArePassed tcs.old.arena args.now.items passed
        → IfErr result (λ stop. MatchStop stop
        (IsUnasked machine.now ordinal (arguments_in tcs.old.arena passed) (P.state port.old) (P.state port.new)
        records.old records.new tcs.old tcs.new)
        (λ full. StopsAt full (ocalled machine.now (context_of tcs.old) ordinal (arguments_in tcs.old.arena passed))
        (moment (P.state port.old) records.old tcs.old) (P.state port.new))) }
{
    let Some(function) = machine.interface.ocalls.get(ordinal as usize) else {
        unreachable!();
    };
    let place = records.list().len() as u32;
    let first = port.log().len() as u32;
    let begun = CallRecord {
        kind: CallKind::Ocall,
        ordinal,
        depth: tcs.stack.depth(),
        frame: 0,
        way: Way::Ordinary,
        status: Status::SUCCESS,
        first,
        turn: first,
        last: first,
    };
    if let Err(full) = records.push(begun) {
        return Err(CopyStop::Full(full));
    }
    let frame = match take_room(function, args, &tcs.arena, &mut tcs.host_stack) {
        Ok(frame) => frame,
        Err(status) => {
            records.set(place, CallRecord { status, ..begun });
            return Err(CopyStop::Refused(status));
        }
    };
    if let Err(full) = put_frame(port, function, args, &tcs.arena, frame) {
        return Err(CopyStop::Full(full));
    }
    tcs.stack.start_ocall(ordinal);
    Ok(Asked {
        ordinal,
        function,
        frame,
        place,
        begun,
    })
}

/// Loads the reply into the blocks that are copied back, and gives the return, 0 where there is no frame.
fn load_reply<P: WordPort>(
    port: &mut P,
    function: &Function,
    args: &Args,
    arena: &mut Arena,
    frame: Option<Frame>,
) -> Result<u64, RunFull>
    requires call { MayCall function.now args.now.items arena.old }
    requires frame { IsFrameFor function.now args.now.items arena.old (P.state port.old).host frame }
    ensures ok { (passed : List Passed) → ArePassed arena.old args.now.items passed
        → IfOk result (IsReplied function.now passed (frame_address frame) (P.state port.old) (P.state port.new)
        arena.old arena.new) }
    ensures kept { OnOk result (KeepsBlocks arena.old arena.new) }
    ensures full { (passed : List Passed) → ArePassed arena.old args.now.items passed
        → IfErr result (IsCutShort (reply_read function.now (arguments_in arena.old passed) (frame_address frame))
        (P.state port.old) (P.state port.new)) }
{
    match frame {
        Some(frame) => read_reply(port, function, args, arena, frame),
        None => Ok(0),
    }
}

/// Loads the answer of an OCALL whose host side ended with this status: only where it is SUCCESS.
fn load_answer<P: WordPort>(
    port: &mut P,
    function: &Function,
    args: &Args,
    arena: &mut Arena,
    frame: Option<Frame>,
    status: Status,
) -> Result<Answer, RunFull>
    requires call { MayCall function.now args.now.items arena.old }
    requires frame { IsFrameFor function.now args.now.items arena.old (P.state port.old).host frame }
    ensures ok { (passed : List Passed) → ArePassed arena.old args.now.items passed
        → IfOk result (IsAnswer function.now passed (frame_address frame) status (P.state port.old) (P.state port.new)
        arena.old arena.new) }
    ensures kept { OnOk result (KeepsBlocks arena.old arena.new) }
    ensures full { (passed : List Passed) (made : List ARecord) (left waits : ℕ) → ArePassed arena.old args.now.items passed
        → IfErr result (λ full. StopsAt full
        (answer_loads function.now (arguments_in arena.old passed) (frame_address frame) (handled status made))
        (progress (P.state port.old) left waits) (P.state port.new)) }
{
    if status.0 != 0 {
        return Ok(Answer {
            turn: None,
            value: 0,
        });
    }
    let turn = port.log().len() as u32;
    let value = load_reply(port, function, args, arena, frame)?;
    Ok(Answer {
        turn: Some(turn),
        value,
    })
}

/// Gives a frame back, where one was taken.
fn drop_taken(stack: &mut HostStack, frame: Option<Frame>)
    ensures { stack.new ≡ record stack.old { top = top_after frame stack.old.top } }
{
    if let Some(frame) = frame {
        drop_frame(stack, frame);
    }
}

/// The record of an OCALL that has ended: its answer begins at its turn, or nowhere.
fn ended_record(
    begun: CallRecord,
    frame: u64,
    status: Status,
    turn: Option<u32>,
    last: u32,
) -> CallRecord
    ensures { result ≡ record_ended begun frame status turn last }
{
    CallRecord {
        frame,
        status,
        turn: turn.unwrap_or(last),
        last,
        ..begun
    }
}

/// Ends an OCALL whose host side ended with this status: it leaves the call stack, its answer is loaded where the status
/// is SUCCESS, its frame is given back, and its record ends. It gives the return, 0 where there is none.
pub(crate) fn finish_ocall<P: WordPort>(
    tcs: &mut Tcs,
    port: &mut P,
    args: &Args,
    asked: Asked<'_>,
    status: Status,
    records: &mut Records,
) -> Result<u64, RunFull>
    requires call { MayCall asked.function.now args.now.items tcs.old.arena }
    requires frame { IsFrameFor asked.function.now args.now.items tcs.old.arena (P.state port.old).host asked.frame }
    requires inside { HasOcall tcs.old.stack }
    requires place { asked.place < length records.old.list }
    ensures ok { (passed : List Passed) → ArePassed tcs.old.arena args.now.items passed
        → IfOk result (IsAnswered asked.entry passed status (P.state port.old) (P.state port.new)
        records.old records.new tcs.old tcs.new) }
    ensures kept { OnOk result (KeepsBlocks tcs.old.arena tcs.new.arena) }
    ensures full { (passed : List Passed) (made : List ARecord) → ArePassed tcs.old.arena args.now.items passed
        → IfErr result (λ full. StopsAt full
        (answer_loads asked.entry.function.now (arguments_in tcs.old.arena passed) (frame_address asked.entry.frame)
        (handled status made)) (moment (P.state port.old) records.old tcs.old) (P.state port.new)) }
{
    tcs.stack.end_ocall();
    let answer = load_answer(
        port,
        asked.function,
        args,
        &mut tcs.arena,
        asked.frame,
        status,
    )?;
    drop_taken(&mut tcs.host_stack, asked.frame);
    let last = port.log().len() as u32;
    let ended = ended_record(asked.begun, asked.address(), status, answer.turn, last);
    records.set(asked.place, ended);
    Ok(answer.value)
}
