//! Entries, bodies, OCALLs and the acts of the host, which call one another.

ghost use Rattle.std.specs.Prelude.{ℕ, List, ◌≡◌, ◌≢◌, ◌≤◌, ◌+◌, true, Option, Some, IfOk, IfErr, OnOk, IsTrue, slice_get};
ghost use Rattle.arrayvec.specs.ArrayVec.{array_vec_len};
ghost use Rattle.sgx_base.specs.declared.TheConstants.Status.{SUCCESS};
ghost use Rattle.sgx_base.specs.Ranges.{host_start, is_mapped};
ghost use Rattle.edl_interface.specs.Parameters.{has_frame};
ghost use Rattle.edl_interface.specs.declared.Function.{Function as AFunction};
ghost use Rattle.word_port.specs.Runs.{Runs, StopsAt};
ghost use Rattle.enclave_memory.specs.Arguments.{Passed, ArePassed, arguments_in};
ghost use Rattle.body_vm.specs.Places.{IsHeld};
ghost use Rattle.bridge_program.specs.Entry.{MayEnter};
ghost use Rattle.bridge_program.specs.Standing.{IsInEnclave};
ghost use Rattle.ocall_frames.specs.Arguments.{MayCall};
ghost use Rattle.ocall_frames.specs.Frames.{IsArenaAfter};
ghost use Rattle.ocall_frames.specs.Replies.{KeepsBlocks};
ghost use Rattle.call_report.specs.RecordList.{with_records};
ghost use Rattle.call_machine.specs.Acts.{act_of, acts_from, repeat as repeat_of};
ghost use Rattle.call_machine.specs.Bodies.{HasParameters, BodyRan, body_on};
ghost use Rattle.call_machine.specs.Calls.{host_call};
ghost use Rattle.call_machine.specs.Ecall.{OcallOutcome, ocall_params, entered};
ghost use Rattle.call_machine.specs.Entry.{EntryRuns, IsRefusal, OnlyLoads};
ghost use Rattle.call_machine.specs.HostActs.{IsHostCall, IsHostAct, AreHostActs, actor_at};
ghost use Rattle.call_machine.specs.Made.{MakesCalls, MakesOutcome};
ghost use Rattle.call_machine.specs.OcallPhases.{frame_address};
ghost use Rattle.call_machine.specs.Plain.{IsPlainMachine};
ghost use Rattle.call_machine.specs.Result.{Outcome};
ghost use Rattle.call_machine.specs.Tcs.{context_of, moment, HasStackInHost, IsPortOf};
ghost use Rattle.call_machine.specs.Thread.{ecall as ecalled, ocall as ocalled, ecalls, entry_ocalls, handlers_by};

use crate::acts::{HostPlace, peek, poke, put_return};
use crate::admission::{admit, finish, values_in};
use crate::bodies::begin_body;
use crate::entry::{Entered, ended_record};
use crate::host::{end_call, frame_call, refuse_call};
use crate::ocalls::{Asked, finish_ocall, handler_of, start_ocall};
use crate::{Machine, Tcs};
use body_run::{Pause, run_on};
use body_vm::{Blocks, Regs, Values, answer};
use call_copy::CopyStop;
use call_report::{CallKind, CallRecord, Records, Way};
use call_script::{CallArg, HostAct};
use enclave_memory::Args;
use sgx_base::Status;
use word_port::{RunFull, Side, WordPort};

/// Carries out the body of an ECALL over the values and the blocks of its parameters, and gives its number.
#[cycle(calls)]
fn carry_out<P: WordPort>(
    machine: &Machine,
    tcs: &mut Tcs,
    port: &mut P,
    ordinal: u32,
    values: &Values,
    blocks: &mut Blocks,
    records: &mut Records,
) -> Result<u64, RunFull>
    requires machine { IsPlainMachine machine.now }
    requires inside { IsInEnclave tcs.old.stack }
    requires stack_in { HasStackInHost machine.now tcs.old }
    requires port { IsPortOf machine.now (P.state port.old) }
    requires parameters { HasParameters machine.now ordinal (array_vec_len values.now) (array_vec_len blocks.old) }
    requires held { (numbers : List (Option ℕ)) × IsHeld tcs.old.arena blocks.old.items numbers }
    ensures ok { (numbers : List (Option ℕ)) → IsHeld tcs.old.arena blocks.old.items numbers
        → IfOk result (BodyRan machine.now ordinal values.now.items numbers (P.state port.old) (P.state port.new)
        records.old records.new tcs.old tcs.new blocks.new.items) }
    ensures full { (numbers : List (Option ℕ)) → IsHeld tcs.old.arena blocks.old.items numbers
        → IfErr result (λ full. StopsAt full
        (body_on machine.now (context_of tcs.old) ordinal values.now.items tcs.old.arena numbers)
        (moment (P.state port.old) records.old tcs.old) (P.state port.new)) }
{
    let body = begin_body(machine, ordinal, blocks);
    let first_cell = machine.script.settings.host;
    let mut regs = Regs {
        next: 0,
        regs: [0; 8],
    };
    loop {
        match run_on(
            port,
            first_cell,
            body,
            &mut regs,
            values,
            blocks,
            &mut tcs.arena,
        )? {
            Pause::Done(value) => return Ok(value),
            Pause::Ocall {
                ordinal,
                args,
                ret,
                status,
            } => {
                let (ended, value) = ocall(machine, tcs, port, ordinal, &args, records)?;
                answer(&mut regs, ret, value);
                answer(&mut regs, status, u64::from(ended.0));
            }
        }
    }
}

/// An entry: it is admitted or refused, its body runs, and its answer is put back.
#[cycle(calls)]
fn enter<P: WordPort>(
    machine: &Machine,
    tcs: &mut Tcs,
    port: &mut P,
    ordinal: u32,
    frame: u64,
    records: &mut Records,
) -> Result<Entered, RunFull>
    requires machine { IsPlainMachine machine.now }
    requires stack { MayEnter machine.now.interface tcs.old.stack }
    requires stack_in { HasStackInHost machine.now tcs.old }
    requires port { IsPortOf machine.now (P.state port.old) }
    ensures ok { IfOk result (EntryRuns machine.now ordinal frame (P.state port.old) (P.state port.new)
        records.old records.new tcs.old tcs.new) }
    ensures refused { IfOk result (λ how. IsRefusal how
        → OnlyLoads (P.state port.old) (P.state port.new) × (tcs.new ≡ tcs.old) × (records.new ≡ records.old)) }
    ensures full { IfErr result (λ full. StopsAt full
        (entered machine.now (entry_ocalls machine.now (context_of tcs.old)) (context_of tcs.old) ordinal frame)
        (moment (P.state port.old) records.old tcs.old) (P.state port.new)) }
{
    let (admitted, mut blocks) = match admit(machine, tcs, port, ordinal, frame) {
        Ok(admitted) => admitted,
        Err(CopyStop::Refused(status)) => return Ok(Entered::Refused(status)),
        Err(CopyStop::Full(full)) => return Err(full),
    };
    let values = values_in(tcs, admitted);
    let value = carry_out(machine, tcs, port, ordinal, &values, &mut blocks, records)?;
    let turn = port.log().len() as u32;
    finish(tcs, port, frame, admitted, value, blocks.as_slice())?;
    Ok(Entered::Answered { turn })
}

/// An ECALL of this ordinal with a frame at this address, and its record.
///
/// Its status is that of the first condition that refuses it, or SUCCESS. After an `Err` nothing is told of the `Tcs`,
/// the records and what the body left. It takes no memory.
#[cycle(calls)]
pub fn ecall<P: WordPort>(
    machine: &Machine,
    tcs: &mut Tcs,
    port: &mut P,
    ordinal: u32,
    frame: u64,
    way: Way,
    records: &mut Records,
) -> Result<Status, RunFull>
    requires machine { IsPlainMachine machine.now }
    requires way { way ≢ Way.Taken }
    requires stack { MayEnter machine.now.interface tcs.old.stack }
    requires stack_in { HasStackInHost machine.now tcs.old }
    requires port { IsPortOf machine.now (P.state port.old) }
    ensures ok { IfOk result (λ status. (out : Outcome) × (out.status ≡ status)
        × Runs (ecalled machine.now (context_of tcs.old) ordinal frame way)
        (moment (P.state port.old) records.old tcs.old) (moment (P.state port.new) records.new tcs.new) out
        × (records.new ≡ with_records records.old out.records)
        × (tcs.new ≡ record tcs.old { waits = tcs.new.waits })) }
    ensures refused { IfOk result (λ status.
        (status ≢ SUCCESS) → OnlyLoads (P.state port.old) (P.state port.new) × (tcs.new ≡ tcs.old)) }
    ensures kept { OnOk result (tcs.new ≡ record tcs.old { waits = tcs.new.waits }) }
    ensures full { IfErr result (λ full. StopsAt full (ecalled machine.now (context_of tcs.old) ordinal frame way)
        (moment (P.state port.old) records.old tcs.old) (P.state port.new)) }
{
    let place = records.list().len() as u32;
    let begun = CallRecord {
        kind: CallKind::Ecall,
        ordinal,
        depth: tcs.stack.depth(),
        frame,
        way,
        status: Status::SUCCESS,
        first: 0,
        turn: 0,
        last: 0,
    };
    records.push(begun)?;
    let first = port.log().len() as u32;
    let entered = enter(machine, tcs, port, ordinal, frame, records)?;
    let last = port.log().len() as u32;
    let ended = ended_record(begun, first, last, entered);
    records.set(place, ended);
    Ok(ended.status)
}

/// What the host does for an OCALL whose frame is written: the acts of its handler. It gives the reply's status.
#[cycle(calls)]
fn ask_host<P: WordPort>(
    machine: &Machine,
    tcs: &mut Tcs,
    port: &mut P,
    asked: Asked<'_>,
    records: &mut Records,
) -> Result<Status, RunFull>
    requires machine { IsPlainMachine machine.now }
    requires stack { MayEnter machine.now.interface tcs.old.stack }
    requires stack_in { HasStackInHost machine.now tcs.old }
    requires port { IsPortOf machine.now (P.state port.old) }
    requires found { slice_get machine.now.interface.ocalls asked.ordinal ≡ Some asked.function.now }
    requires mapped { has_frame asked.function.now ≡ true
        → IsTrue (is_mapped machine.now.script.settings.host (frame_address asked.frame) asked.function.now.frame_size) }
    requires upto { frame_address asked.frame ≤ host_start + machine.now.script.settings.host }
    ensures ok { IfOk result (MakesOutcome
        (handlers_by machine.now (ecalls machine.now (context_of tcs.old)) (context_of tcs.old) asked.entry.ordinal
        asked.entry.function.now (frame_address asked.entry.frame))
        (P.state port.old) (P.state port.new) records.old records.new tcs.old tcs.new) }
    ensures full { IfErr result (λ full. StopsAt full
        (handlers_by machine.now (ecalls machine.now (context_of tcs.old)) (context_of tcs.old) asked.entry.ordinal
        asked.entry.function.now (frame_address asked.entry.frame))
        (moment (P.state port.old) records.old tcs.old) (P.state port.new)) }
{
    let place = HostPlace {
        frame: asked.address(),
        return_size: asked.function.return_size(),
    };
    let acts = handler_of(machine, asked.ordinal);
    do_acts(machine, tcs, port, place, acts, Status::SUCCESS, records)
}

/// An OCALL of this ordinal with these arguments, and its record: its status, and its return as a number of 64 bits.
///
/// Its status is that of the first condition that refuses it, or that of the handler's reply. After an `Err` nothing is
/// told of the `Tcs` and the records. It takes no memory.
#[cycle(calls)]
pub fn ocall<P: WordPort>(
    machine: &Machine,
    tcs: &mut Tcs,
    port: &mut P,
    ordinal: u32,
    args: &Args,
    records: &mut Records,
) -> Result<(Status, u64), RunFull>
    requires machine { IsPlainMachine machine.now }
    requires inside { IsInEnclave tcs.old.stack }
    requires stack_in { HasStackInHost machine.now tcs.old }
    requires port { IsPortOf machine.now (P.state port.old) }
    requires arguments { (f : AFunction) × (slice_get machine.now.interface.ocalls ordinal ≡ Some f)
        × MayCall f args.now.items tcs.old.arena }
    ensures ok { (passed : List Passed) → ArePassed tcs.old.arena args.now.items passed
        → IfOk result (λ ended. (out : OcallOutcome) × (out.status ≡ ended.0) × (out.value ≡ ended.1)
        × Runs (ocalled machine.now (context_of tcs.old) ordinal (arguments_in tcs.old.arena passed))
        (moment (P.state port.old) records.old tcs.old) (moment (P.state port.new) records.new tcs.new) out
        × (records.new ≡ with_records records.old out.records)
        × IsArenaAfter (ocall_params machine.now.interface ordinal) passed out.loaded tcs.old.arena tcs.new.arena
        × (tcs.new ≡ record tcs.old { arena = tcs.new.arena; waits = tcs.new.waits })) }
    ensures kept { OnOk result (KeepsBlocks tcs.old.arena tcs.new.arena) }
    ensures full { (passed : List Passed) → ArePassed tcs.old.arena args.now.items passed
        → IfErr result (λ full. StopsAt full
        (ocalled machine.now (context_of tcs.old) ordinal (arguments_in tcs.old.arena passed))
        (moment (P.state port.old) records.old tcs.old) (P.state port.new)) }
{
    let asked = match start_ocall(machine, tcs, port, ordinal, args, records) {
        Ok(asked) => asked,
        Err(CopyStop::Refused(status)) => return Ok((status, 0)),
        Err(CopyStop::Full(full)) => return Err(full),
    };
    let status = ask_host(machine, tcs, port, asked, records)?;
    let value = finish_ocall(tcs, port, args, asked, status, records)?;
    Ok((status, value))
}

/// A call by the host of one of the ECALLs, which may have no frame.
#[cycle(calls)]
fn call<P: WordPort>(
    machine: &Machine,
    tcs: &mut Tcs,
    port: &mut P,
    place: HostPlace,
    ordinal: u32,
    args: &[CallArg],
    records: &mut Records,
) -> Result<(), RunFull>
    requires machine { IsPlainMachine machine.now }
    requires stack { MayEnter machine.now.interface tcs.old.stack }
    requires stack_in { HasStackInHost machine.now tcs.old }
    requires port { IsPortOf machine.now (P.state port.old) }
    requires sound { IsHostCall machine.now place ordinal args.now }
    ensures ok { OnOk result (MakesCalls
        (host_call machine.now (ecalls machine.now (context_of tcs.old)) (context_of tcs.old) place.frame ordinal args.now)
        (P.state port.old) (P.state port.new) records.old records.new tcs.old tcs.new) }
    ensures full { IfErr result (λ full. StopsAt full
        (host_call machine.now (ecalls machine.now (context_of tcs.old)) (context_of tcs.old) place.frame ordinal args.now)
        (moment (P.state port.old) records.old tcs.old) (P.state port.new)) }
{
    let Some(function) = machine.interface.ecalls.get(ordinal as usize) else {
        unreachable!();
    };
    if !function.has_frame() {
        ecall(machine, tcs, port, ordinal, 0, Way::Ordinary, records)?;
        return Ok(());
    }
    let Some(frame) = frame_call(tcs, port, place, function, args)? else {
        return refuse_call(tcs, port, ordinal, records);
    };
    let status = ecall(
        machine,
        tcs,
        port,
        ordinal,
        frame.at,
        Way::Ordinary,
        records,
    )?;
    end_call(tcs, port, function, frame, status)
}

/// Does the acts so many times.
#[cycle(calls)]
fn repeat<P: WordPort>(
    machine: &Machine,
    tcs: &mut Tcs,
    port: &mut P,
    place: HostPlace,
    times: u32,
    acts: &[HostAct],
    status: Status,
    records: &mut Records,
) -> Result<Status, RunFull>
    requires machine { IsPlainMachine machine.now }
    requires stack { MayEnter machine.now.interface tcs.old.stack }
    requires stack_in { HasStackInHost machine.now tcs.old }
    requires port { IsPortOf machine.now (P.state port.old) }
    requires sound { AreHostActs machine.now place acts.now }
    ensures ok { IfOk result (MakesOutcome
        (repeat_of times (acts_from (actor_at machine.now (context_of tcs.old) place) acts.now) status)
        (P.state port.old) (P.state port.new) records.old records.new tcs.old tcs.new) }
    ensures full { IfErr result (λ full. StopsAt full
        (repeat_of times (acts_from (actor_at machine.now (context_of tcs.old) place) acts.now) status)
        (moment (P.state port.old) records.old tcs.old) (P.state port.new)) }
{
    let mut status = status;
    for turn in 0..times {
        status = do_acts(machine, tcs, port, place, acts, status, records)?;
    }
    Ok(status)
}

/// Does one act, and gives the reply's status after it.
#[cycle(calls)]
fn do_act<P: WordPort>(
    machine: &Machine,
    tcs: &mut Tcs,
    port: &mut P,
    place: HostPlace,
    act: &HostAct,
    status: Status,
    records: &mut Records,
) -> Result<Status, RunFull>
    requires machine { IsPlainMachine machine.now }
    requires stack { MayEnter machine.now.interface tcs.old.stack }
    requires stack_in { HasStackInHost machine.now tcs.old }
    requires port { IsPortOf machine.now (P.state port.old) }
    requires sound { IsHostAct machine.now place act.now }
    ensures ok { IfOk result (MakesOutcome (act_of (actor_at machine.now (context_of tcs.old) place) act.now status)
        (P.state port.old) (P.state port.new) records.old records.new tcs.old tcs.new) }
    ensures full { IfErr result (λ full. StopsAt full
        (act_of (actor_at machine.now (context_of tcs.old) place) act.now status)
        (moment (P.state port.old) records.old tcs.old) (P.state port.new)) }
{
    match act {
        HostAct::Call { ordinal, args } => {
            call(
                machine,
                tcs,
                port,
                place,
                *ordinal,
                args.as_slice(),
                records,
            )?;
        }
        HostAct::Raw { ordinal, at } => {
            ecall(machine, tcs, port, *ordinal, *at, Way::Ordinary, records)?;
        }
        HostAct::Poke { at, bytes } => {
            poke(port, Side::Host, place.address_of(*at), bytes.as_slice())?;
        }
        HostAct::Peek { at, length } => {
            peek(tcs, port, place.address_of(*at), *length, records)?;
        }
        HostAct::Return(value) => put_return(port, place, *value)?,
        HostAct::Reply(reply) => return Ok(Status(*reply)),
        HostAct::Repeat { times, acts } => {
            return repeat(
                machine,
                tcs,
                port,
                place,
                *times,
                acts.as_slice(),
                status,
                records,
            );
        }
    }
    Ok(status)
}

/// Does each act, in order, and gives the reply's status after them.
#[cycle(calls)]
pub(crate) fn do_acts<P: WordPort>(
    machine: &Machine,
    tcs: &mut Tcs,
    port: &mut P,
    place: HostPlace,
    acts: &[HostAct],
    status: Status,
    records: &mut Records,
) -> Result<Status, RunFull>
    requires machine { IsPlainMachine machine.now }
    requires stack { MayEnter machine.now.interface tcs.old.stack }
    requires stack_in { HasStackInHost machine.now tcs.old }
    requires port { IsPortOf machine.now (P.state port.old) }
    requires sound { AreHostActs machine.now place acts.now }
    ensures ok { IfOk result (MakesOutcome
        (acts_from (actor_at machine.now (context_of tcs.old) place) acts.now status)
        (P.state port.old) (P.state port.new) records.old records.new tcs.old tcs.new) }
    ensures full { IfErr result (λ full. StopsAt full
        (acts_from (actor_at machine.now (context_of tcs.old) place) acts.now status)
        (moment (P.state port.old) records.old tcs.old) (P.state port.new)) }
{
    let mut status = status;
    for act in acts {
        status = do_act(machine, tcs, port, place, act, status, records)?;
    }
    Ok(status)
}
