//! A machine run by one thread, and its summary.

ghost use Rattle.std.specs.Prelude.{IfOk, IfErr, string_bytes};
ghost use Rattle.call_machine.specs.Plain.{IsPlainMachine};
ghost use Rattle.call_machine.specs.Run.{IsRunFault};
ghost use Rattle.run_summary.specs.Summarized.{IsSummaryOf};

use crate::summary;
use call_machine::{
    Machine, RECORD_LIMIT, RunFault, STEP_LIMIT, first_acts, first_port, first_tcs, run_thread,
};
use call_report::Records;
use std::alloc::Global;
use word_port::WordPort;

/// The summary of a machine's one thread. Nothing is told of a thread that needs more than a limit.
pub fn summarize(alloc: Global, machine: &Machine) -> Result<String, RunFault>
    requires { IsPlainMachine machine.now }
    ensures ok { IfOk result (λ text. IsSummaryOf machine.now (string_bytes text)) }
    ensures full { IfErr result (λ fault. IsRunFault machine.now fault) }
{
    let mut port = first_port(alloc, machine, STEP_LIMIT)?;
    let mut tcs = first_tcs(alloc, machine)?;
    let mut records = Records::new(alloc, RECORD_LIMIT)?;
    let ran = run_thread(
        machine,
        &mut tcs,
        &mut port,
        first_acts(machine),
        &mut records,
    );
    let log = port.log();
    if let Err(full) = ran {
        return Err(RunFault::Full(full));
    }
    Ok(summary(alloc, records.list(), log)?)
}
