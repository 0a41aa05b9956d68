//! A machine run by one thread, and its report.

ghost use Rattle.std.specs.Prelude.{◌≡◌, ◌/◌, [], IfOk, IfErr};
ghost use Rattle.call_machine.specs.HostActs.{AreThreadActs};
ghost use Rattle.call_machine.specs.Plain.{IsPlainMachine};
ghost use Rattle.call_machine.specs.Reported.{IsReportOf, acts_at};
ghost use Rattle.call_machine.specs.Run.{IsRunFault};
ghost use Rattle.call_machine.specs.Tcs.{context_of, HasStackInHost};
ghost use Rattle.call_machine.specs.Context.{first_context};
ghost use Rattle.word_port.specs.Plain.{opened};

use crate::{Machine, Tcs, run_thread};
use call_report::{Records, report};
use call_script::HostAct;
use sgx_base::HOST_START;
use std::alloc::{AllocError, Global};
use word_port::{PlainWords, RunFull, WordPort};

/// How many steps a thread makes at most.
pub const STEP_LIMIT: u32 = 1_048_576;

/// How many records a thread makes at most.
pub const RECORD_LIMIT: u32 = 65_536;

/// Why a machine has no report.
#[derive(Clone, Copy, Debug, PartialEq, Eq)]
pub enum RunFault {
    /// The thread needs more than this limit.
    Full(RunFull),
    Memory,
}

impl From<AllocError> for RunFault {
    ghost use Rattle.std.specs.Prelude.{◌≡◌};
    ghost use Rattle.call_machine.specs.declared.run.RunFault.TheVariants.{Memory};

    ghost from_gives = { λ _ e. e ≡ Memory };

    fn from(_: AllocError) -> RunFault {
        RunFault::Memory
    }
}

/// What thread 0 does.
pub fn first_acts(machine: &Machine) -> &[HostAct]
    requires { IsPlainMachine machine.now }
    ensures acts { result.now ≡ acts_at machine.now 0 }
    ensures sound { AreThreadActs machine.now.interface machine.now.script.settings.host result.now }
{
    machine.script.threads.as_slice()[0].as_slice()
}

/// The thread control structure with which thread 0 begins.
pub fn first_tcs(alloc: Global, machine: &Machine) -> Result<Tcs, AllocError>
    requires { IsPlainMachine machine.now }
    ensures context { IfOk result (λ tcs. context_of tcs ≡ first_context machine.now.script.settings 0) }
    ensures stack { IfOk result (λ tcs. tcs.stack ≡ []) }
    ensures within { IfOk result (HasStackInHost machine.now) }
    ensures waits { IfOk result (λ tcs. tcs.waits ≡ STEP_LIMIT / 4) }
{
    let settings = machine.script.settings;
    let top = HOST_START + u64::from(settings.host);
    let base = top - u64::from(settings.stack);
    Tcs::new(alloc, settings.arena, base, top, STEP_LIMIT / 4)
}

/// The machine's words, with a log that takes so many steps.
pub fn first_port(alloc: Global, machine: &Machine, limit: u32) -> Result<PlainWords, AllocError>
    requires { IsPlainMachine machine.now }
    ensures { IfOk result (λ port. let script = machine.now.script in
        port ≡ opened script.words script.settings.host script.races limit) }
{
    let script = &machine.script;
    PlainWords::new(
        alloc,
        script.words.as_slice(),
        script.settings.host,
        script.races.as_slice(),
        limit,
    )
}

/// The report of a machine's one thread. Nothing is reported of a thread that needs more than a limit.
pub fn run_machine(alloc: Global, machine: &Machine) -> Result<Vec<u8>, RunFault>
    requires { IsPlainMachine machine.now }
    ensures ok { IfOk result (λ text. IsReportOf machine.now text.items) }
    ensures full { IfErr result (λ fault. IsRunFault machine.now fault) }
{
    let mut port = first_port(alloc, machine, STEP_LIMIT)?;
    let mut tcs = first_tcs(alloc, machine)?;
    let mut records = Records::new(alloc, RECORD_LIMIT)?;
    let ran = run_thread(
        machine,
        &mut tcs,
        &mut port,
        first_acts(machine),
        &mut records,
    );
    let log = port.log();
    if let Err(full) = ran {
        return Err(RunFault::Full(full));
    }
    Ok(report(alloc, &machine.interface, records.list(), log)?)
}
