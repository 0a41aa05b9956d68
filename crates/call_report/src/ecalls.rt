//! The lines under the header of an ECALL.
ghost use Rattle.std.specs.Prelude.{◌≡◌, ◌∷◌, ◌++◌, List, IfOk, OnOk};
ghost use Rattle.edl_interface.specs.declared.Param.{Param as ParamValue};
ghost use Rattle.call_report.specs.Report.{as_copied, found_bytes as found_bytes_of, ecall_in_lines, ecall_out_lines, ecall_lines};

use crate::CallRecord;
use crate::steps::{after, first, found_bytes, loaded_bytes, put_bytes, split, written_bytes};
use crate::texts::{end_copied, put_length};
use crate::words::{append_bytes_line, append_return_lines, append_value_line};
use edl_interface::{Class, Function, Param};
use std::alloc::{AllocError, Global};
use word_port::Step;

/// The bytes of a parameter as its loads found them, a string with its last unit 0.
fn copied_bytes(alloc: Global, class: &Class, steps: &[Step]) -> Result<Vec<u8>, AllocError>
    ensures { IfOk result (λ bytes. bytes.items ≡ as_copied class.now (found_bytes_of steps.now)) }
{
    let mut bytes = found_bytes(alloc, steps)?;
    end_copied(class, &mut bytes)?;
    Ok(bytes)
}

/// Appends the line of what one parameter handed in, and gives the steps after its loads.
fn append_in_line<'a>(
    alloc: Global,
    out: &mut Vec<u8>,
    function: &Function,
    frame: &[u8],
    steps: &'a [Step],
    param: &Param,
) -> Result<&'a [Step], AllocError>
    ensures { IfOk result (λ rest. (more : List ParamValue)
        → out.new.items ++ ecall_in_lines function.now frame.now rest.now 0 more
        ≡ out.old.items ++ ecall_in_lines function.now frame.now steps.now 0 (param.now ∷ more)) }
{
    let name = param.name.bytes();
    let length = function.copied_length(frame, param);
    if !param.class.is_marshalled() {
        append_bytes_line(alloc, out, "in", name, param.field(frame))?;
        Ok(steps)
    } else if length == Some(0) {
        append_value_line(out, "in", name, "null")?;
        Ok(steps)
    } else if param.class.is_in() {
        let (loads, rest) = split(steps, length);
        let bytes = copied_bytes(alloc, &param.class, loads)?;
        append_bytes_line(alloc, out, "in", name, bytes.as_slice())?;
        Ok(rest)
    } else {
        Ok(steps)
    }
}

/// Appends the lines of what the parameters handed in, where the loads of their copies begin at a place in the log.
#[tactic(auto, using(crate::proofs::EcallLaws::in_lines_at))]
fn append_in_lines(
    alloc: Global,
    out: &mut Vec<u8>,
    function: &Function,
    frame: &[u8],
    log: &[Step],
    at: usize,
) -> Result<(), AllocError>
    ensures { OnOk result (out.new.items
        ≡ out.old.items ++ ecall_in_lines function.now frame.now log.now at function.now.params) }
{
    let mut rest = after(log, at);
    for param in function.params.as_slice() {
        rest = append_in_line(alloc, out, function, frame, rest, param)?;
    }
    Ok(())
}

/// Appends the line of what was put back of one parameter, and gives the steps after its writes.
fn append_out_line<'a>(
    alloc: Global,
    out: &mut Vec<u8>,
    function: &Function,
    frame: &[u8],
    steps: &'a [Step],
    param: &Param,
) -> Result<&'a [Step], AllocError>
    ensures { IfOk result (λ rest. (more : List ParamValue)
        → out.new.items ++ ecall_out_lines function.now frame.now rest.now 0 more
        ≡ out.old.items ++ ecall_out_lines function.now frame.now steps.now 0 (param.now ∷ more)) }
{
    let length = function.copied_length(frame, param);
    if param.class.is_out() && length != Some(0) {
        let (writes, _) = split(steps, length);
        let written = put_bytes(alloc, writes)?;
        let bytes = written.as_slice();
        let count = put_length(&param.class, bytes);
        let name = param.name.bytes();
        append_bytes_line(alloc, out, "out", name, first(bytes, count))?;
        Ok(after(steps, count))
    } else {
        Ok(steps)
    }
}

/// Appends the lines of what was put back of the parameters, where the writes begin at a place in the log.
#[tactic(auto, using(crate::proofs::EcallLaws::out_lines_at))]
fn append_out_lines(
    alloc: Global,
    out: &mut Vec<u8>,
    function: &Function,
    frame: &[u8],
    log: &[Step],
    at: usize,
) -> Result<(), AllocError>
    ensures { OnOk result (out.new.items
        ≡ out.old.items ++ ecall_out_lines function.now frame.now log.now at function.now.params) }
{
    let mut rest = after(log, at);
    for param in function.params.as_slice() {
        rest = append_out_line(alloc, out, function, frame, rest, param)?;
    }
    Ok(())
}

/// Appends the lines under an ECALL that was answered.
pub(crate) fn append_ecall_lines(
    alloc: Global,
    out: &mut Vec<u8>,
    function: &Function,
    log: &[Step],
    call: &CallRecord,
) -> Result<(), AllocError>
    ensures { OnOk result (out.new.items ≡ out.old.items ++ ecall_lines function.now log.now call.now) }
{
    let first = call.first as usize;
    let frame_size = function.frame_size as usize;
    let turn = call.turn as usize;
    let return_size = function.return_size() as usize;
    let frame = loaded_bytes(alloc, log, first, frame_size)?;
    let ret = written_bytes(alloc, log, turn, return_size)?;
    append_in_lines(
        alloc,
        out,
        function,
        frame.as_slice(),
        log,
        first + frame_size,
    )?;
    append_return_lines(alloc, out, function, ret.as_slice())?;
    append_out_lines(
        alloc,
        out,
        function,
        frame.as_slice(),
        log,
        turn + return_size,
    )?;
    Ok(())
}
