//! The lines under the header of an OCALL.
ghost use Rattle.std.specs.Prelude.{◌≡◌, ◌+◌, ◌<◌, ◌^◌, ◌==◌, if◌then◌else◌, [], ◌∷◌, ◌++◌, List, take, drop, SomeIff, IfOk, OnOk};
ghost use Rattle.edl_interface.specs.declared.Param.{Param as ParamValue};
ghost use Rattle.edl_interface.specs.Parameters.{return_size as return_size_of};
ghost use Rattle.call_report.specs.Report.{buffer_length as buffer_length_of, buffers_after as buffers_after_of, loaded_bytes as loaded_bytes_of, return_lines, ocall_in_lines, ocall_out_lines, ocall_lines};

use crate::CallRecord;
use crate::steps::{after, found_bytes, loaded_bytes, split, written_bytes};
use crate::texts::terminated_length;
use crate::words::{append_bytes_line, append_return_lines, append_value_line};
use edl_interface::{Function, Param};
use std::alloc::{AllocError, Global};
use word_port::Step;

/// The length of a parameter's buffer in a frame whose bytes from there on are these, or None where it has more than
/// 64 bits.
fn buffer_length(
    function: &Function,
    structure: &[u8],
    param: &Param,
    buffers: &[u8],
) -> Option<u64>
    ensures { SomeIff result (buffer_length_of function.now structure.now param.now buffers.now < 2 ^ 64)
        (buffer_length_of function.now structure.now param.now buffers.now) }
{
    if param.address(structure) == 0 {
        Some(0)
    } else if param.class.is_text() {
        let length = terminated_length(buffers, param.class.unit()).unwrap_or(buffers.len());
        Some(length as u64)
    } else {
        function.length(structure, param)
    }
}

/// The bytes of a parameter's buffer, and those after it.
fn split_buffer<'a>(
    function: &Function,
    structure: &[u8],
    param: &Param,
    buffers: &'a [u8],
) -> (&'a [u8], &'a [u8])
    ensures here { result.0.now ≡ take (buffer_length_of function.now structure.now param.now buffers.now) buffers.now }
    ensures rest { result.1.now ≡ drop (buffer_length_of function.now structure.now param.now buffers.now) buffers.now }
{
    let length = buffer_length(function, structure, param, buffers);
    split(buffers, length)
}

/// The bytes of the buffers after that of a parameter.
fn buffers_after<'a>(
    function: &Function,
    structure: &[u8],
    param: &Param,
    buffers: &'a [u8],
) -> &'a [u8]
    ensures { result.now ≡ buffers_after_of function.now structure.now param.now buffers.now }
{
    if param.class.is_marshalled() {
        let (_, rest) = split_buffer(function, structure, param, buffers);
        rest
    } else {
        buffers
    }
}

/// Appends the line of what the frame showed of one parameter, and gives the bytes of the buffers after its own.
fn append_in_line<'a>(
    alloc: Global,
    out: &mut Vec<u8>,
    function: &Function,
    structure: &[u8],
    buffers: &'a [u8],
    param: &Param,
) -> Result<&'a [u8], AllocError>
    ensures { IfOk result (λ rest. (more : List ParamValue)
        → out.new.items ++ ocall_in_lines function.now structure.now rest.now more
        ≡ out.old.items ++ ocall_in_lines function.now structure.now buffers.now (param.now ∷ more)) }
{
    let name = param.name.bytes();
    if !param.class.is_marshalled() {
        append_bytes_line(alloc, out, "in", name, param.field(structure))?;
        Ok(buffers)
    } else if param.address(structure) == 0 {
        append_value_line(out, "in", name, "null")?;
        Ok(buffers)
    } else if param.class.is_in() {
        let (bytes, rest) = split_buffer(function, structure, param, buffers);
        append_bytes_line(alloc, out, "in", name, bytes)?;
        Ok(rest)
    } else {
        let (_, rest) = split_buffer(function, structure, param, buffers);
        Ok(rest)
    }
}

/// Appends the lines of what the frame showed.
fn append_in_lines(
    alloc: Global,
    out: &mut Vec<u8>,
    function: &Function,
    structure: &[u8],
    buffers: &[u8],
) -> Result<(), AllocError>
    ensures { OnOk result (out.new.items
        ≡ out.old.items ++ ocall_in_lines function.now structure.now buffers.now function.now.params) }
{
    let mut rest = buffers;
    for param in function.params.as_slice() {
        rest = append_in_line(alloc, out, function, structure, rest, param)?;
    }
    Ok(())
}

/// Appends the line of what one parameter brought back, and gives the steps after its loads.
fn append_out_line<'a>(
    alloc: Global,
    out: &mut Vec<u8>,
    function: &Function,
    structure: &[u8],
    buffers: &[u8],
    steps: &'a [Step],
    param: &Param,
) -> Result<&'a [Step], AllocError>
    ensures { IfOk result (λ rest. (more : List ParamValue)
        → out.new.items
        ++ ocall_out_lines function.now structure.now
        (buffers_after_of function.now structure.now param.now buffers.now) rest.now 0 more
        ≡ out.old.items ++ ocall_out_lines function.now structure.now buffers.now steps.now 0 (param.now ∷ more)) }
{
    let length = buffer_length(function, structure, param, buffers);
    if !param.class.is_marshalled() {
        Ok(steps)
    } else if param.class.is_out() && length != Some(0) {
        let (loads, rest) = split(steps, length);
        let found = found_bytes(alloc, loads)?;
        let name = param.name.bytes();
        append_bytes_line(alloc, out, "out", name, found.as_slice())?;
        Ok(rest)
    } else {
        Ok(steps)
    }
}

/// Appends the lines of what the parameters brought back, where the loads begin at a place in the log.
#[tactic(auto, using(crate::proofs::OcallLaws::out_lines_at))]
fn append_out_lines(
    alloc: Global,
    out: &mut Vec<u8>,
    function: &Function,
    structure: &[u8],
    buffers: &[u8],
    log: &[Step],
    at: usize,
) -> Result<(), AllocError>
    ensures { OnOk result (out.new.items
        ≡ out.old.items ++ ocall_out_lines function.now structure.now buffers.now log.now at function.now.params) }
{
    let mut rest = after(log, at);
    let mut buffers_left = buffers;
    for param in function.params.as_slice() {
        rest = append_out_line(alloc, out, function, structure, buffers_left, rest, param)?;
        buffers_left = buffers_after(function, structure, param, buffers_left);
    }
    Ok(())
}

/// Appends the lines of what an OCALL brought back, where its status is SUCCESS.
#[tactic(auto, using(crate::proofs::OcallLaws::where_answered))]
fn append_answer_lines(
    alloc: Global,
    out: &mut Vec<u8>,
    function: &Function,
    structure: &[u8],
    buffers: &[u8],
    log: &[Step],
    call: &CallRecord,
) -> Result<(), AllocError>
    ensures { OnOk result (out.new.items ≡ out.old.items ++ (if call.now.status.0 == 0
        then return_lines function.now (loaded_bytes_of log.now call.now.turn (return_size_of function.now))
        ++ ocall_out_lines function.now structure.now buffers.now log.now
        (call.now.turn + return_size_of function.now) function.now.params
        else [])) }
{
    if call.status.0 != 0 {
        return Ok(());
    }
    let turn = call.turn as usize;
    let return_size = function.return_size() as usize;
    let ret = loaded_bytes(alloc, log, turn, return_size)?;
    append_return_lines(alloc, out, function, ret.as_slice())?;
    append_out_lines(
        alloc,
        out,
        function,
        structure,
        buffers,
        log,
        turn + return_size,
    )?;
    Ok(())
}

/// Appends the lines under an OCALL whose frame was written.
pub(crate) fn append_ocall_lines(
    alloc: Global,
    out: &mut Vec<u8>,
    function: &Function,
    log: &[Step],
    call: &CallRecord,
) -> Result<(), AllocError>
    ensures { OnOk result (out.new.items ≡ out.old.items ++ ocall_lines function.now log.now call.now) }
{
    let first = call.first as usize;
    let frame_size = function.frame_size as usize;
    let rest = (call.turn as usize).saturating_sub(first + frame_size);
    let structure = written_bytes(alloc, log, first, frame_size)?;
    let buffers = written_bytes(alloc, log, first + frame_size, rest)?;
    append_in_lines(
        alloc,
        out,
        function,
        structure.as_slice(),
        buffers.as_slice(),
    )?;
    append_answer_lines(
        alloc,
        out,
        function,
        structure.as_slice(),
        buffers.as_slice(),
        log,
        call,
    )?;
    Ok(())
}
