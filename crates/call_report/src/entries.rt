//! The text of a report.
ghost use Rattle.std.specs.Prelude.{◌≡◌, ◌++◌, IfOk, OnOk};
ghost use Rattle.call_report.specs.Report.{report as report_of, entry as entry_of, entry_by, lines_of, ecall_lines, ocall_lines};
ghost use Rattle.call_report.specs.declared.CallKind.TheVariants.{Ecall, Ocall, Peek};

use crate::ecalls::append_ecall_lines;
use crate::ocalls::append_ocall_lines;
use crate::steps::loaded_bytes;
use crate::words::{append_header, append_line, hex_number, hex_text};
use crate::{CallKind, CallRecord, Way};
use edl_interface::{Function, Interface};
use std::alloc::{AllocError, Global};
use word_port::Step;

/// Appends the lines under an ECALL of a function in the table.
fn append_ecall_under(
    alloc: Global,
    out: &mut Vec<u8>,
    functions: &[Function],
    log: &[Step],
    call: &CallRecord,
) -> Result<(), AllocError>
    ensures { OnOk result (out.new.items ≡ out.old.items ++ lines_of ecall_lines functions.now log.now call.now) }
{
    match functions.get(call.ordinal as usize) {
        Some(function) => append_ecall_lines(alloc, out, function, log, call),
        None => Ok(()),
    }
}

/// Appends the lines of an ECALL.
fn append_ecall(
    alloc: Global,
    out: &mut Vec<u8>,
    interface: &Interface,
    log: &[Step],
    call: &CallRecord,
) -> Result<(), AllocError>
    ensures { OnOk result (out.new.items ≡ out.old.items ++ entry_by Ecall interface.now log.now call.now) }
{
    let functions = interface.ecalls.as_slice();
    append_header(alloc, out, "ecall", functions, call)?;
    if call.status.0 != 0 || matches!(call.way, Way::Taken) {
        return Ok(());
    }
    append_ecall_under(alloc, out, functions, log, call)?;
    Ok(())
}

/// Appends the lines under an OCALL of a function in the table.
fn append_ocall_under(
    alloc: Global,
    out: &mut Vec<u8>,
    functions: &[Function],
    log: &[Step],
    call: &CallRecord,
) -> Result<(), AllocError>
    ensures { OnOk result (out.new.items ≡ out.old.items ++ lines_of ocall_lines functions.now log.now call.now) }
{
    match functions.get(call.ordinal as usize) {
        Some(function) => append_ocall_lines(alloc, out, function, log, call),
        None => Ok(()),
    }
}

/// Appends the lines of an OCALL.
fn append_ocall(
    alloc: Global,
    out: &mut Vec<u8>,
    interface: &Interface,
    log: &[Step],
    call: &CallRecord,
) -> Result<(), AllocError>
    ensures { OnOk result (out.new.items ≡ out.old.items ++ entry_by Ocall interface.now log.now call.now) }
{
    let functions = interface.ocalls.as_slice();
    append_header(alloc, out, "ocall", functions, call)?;
    if call.frame == 0 || matches!(call.way, Way::Served) {
        return Ok(());
    }
    append_ocall_under(alloc, out, functions, log, call)?;
    Ok(())
}

/// Appends the line of a peek.
fn append_peek(
    alloc: Global,
    out: &mut Vec<u8>,
    interface: &Interface,
    log: &[Step],
    call: &CallRecord,
) -> Result<(), AllocError>
    ensures { OnOk result (out.new.items ≡ out.old.items ++ entry_by Peek interface.now log.now call.now) }
{
    let address = hex_number(alloc, call.frame)?;
    let count = call.last.saturating_sub(call.first);
    let bytes = loaded_bytes(alloc, log, call.first as usize, count as usize)?;
    let text = hex_text(alloc, bytes.as_slice())?;
    append_line(
        out,
        &["peek".as_bytes(), address.as_bytes(), text.as_bytes()],
    )?;
    Ok(())
}

/// Appends the lines of one record.
fn append_entry(
    alloc: Global,
    out: &mut Vec<u8>,
    interface: &Interface,
    log: &[Step],
    call: &CallRecord,
) -> Result<(), AllocError>
    ensures { OnOk result (out.new.items ≡ out.old.items ++ entry_of interface.now log.now call.now) }
{
    match call.kind {
        CallKind::Ecall => append_ecall(alloc, out, interface, log, call),
        CallKind::Ocall => append_ocall(alloc, out, interface, log, call),
        CallKind::Peek => append_peek(alloc, out, interface, log, call),
    }
}

/// The text of a report: one entry for each record, in their order, with the bytes that the log has of it.
///
/// An entry shows what the log has in the places of its record, and no more where the log ends before.
#[tactic(auto, unfolding(crate::specs::Report::report))]
pub fn report(
    alloc: Global,
    interface: &Interface,
    records: &[CallRecord],
    log: &[Step],
) -> Result<Vec<u8>, AllocError>
    ensures { IfOk result (λ text. text.items ≡ report_of interface.now records.now log.now) }
{
    let mut out = Vec::new(alloc);
    for call in records {
        append_entry(alloc, &mut out, interface, log, call)?;
    }
    Ok(out)
}
