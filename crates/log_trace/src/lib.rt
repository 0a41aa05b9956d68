//! The text of a log, a line for each step, and that it tells the log.
#![tactic(auto)]

ghost use Rattle.std.specs.Prelude.{◌≡◌, IfOk, string_bytes};
ghost use Rattle.log_trace.specs.Trace as spec;

mod text_laws;

use std::alloc::{AllocError, Global};
pub use text_laws::{all_logs_law, examples, one_log_law};
use word_port::{Kind, Side, Step};

/// The letter of who makes a step.
fn side_letter(side: Side) -> &'static str
    ensures { result.now ≡ spec.side_letter side }
{
    match side {
        Side::Enclave => "E",
        Side::Host => "H",
        Side::Pool => "P",
        Side::Racer => "R",
    }
}

/// The word of what a step does.
fn kind_word(kind: Kind) -> &'static str
    ensures { result.now ≡ spec.kind_word kind }
{
    match kind {
        Kind::Load => "load",
        Kind::Swap => "swap",
        Kind::Add => "add",
        Kind::Cas => "cas",
    }
}

/// The line of a participant.
fn thread_line(alloc: Global, thread: u32) -> Result<String, AllocError>
    ensures { IfOk result (λ text. string_bytes text ≡ spec.thread_line thread) }
{
    format!(in alloc; "thread {thread}\n")
}

/// The line of a step.
fn step_line(alloc: Global, step: &Step) -> Result<String, AllocError>
    ensures { IfOk result (λ text. string_bytes text ≡ spec.step_line step.now) }
{
    let side = side_letter(step.side);
    let kind = kind_word(step.kind);
    let index = step.index;
    let first = step.first;
    let second = step.second;
    let answer = step.answer;
    format!(in alloc; "{side} {kind} {index} {first} {second} {answer}\n")
}

/// The trace of a participant: the line of its number, and then a line for each step of its log, in order.
#[tactic(auto, unfolding(crate::specs::Trace::trace_text))]
pub fn trace(alloc: Global, thread: u32, log: &[Step]) -> Result<Vec<u8>, AllocError>
    ensures { IfOk result (λ text. text.items ≡ spec.trace_text thread log.now) }
{
    let mut text = Vec::from_slice(alloc, thread_line(alloc, thread)?.as_bytes())?;
    for step in log {
        text.extend_from_slice(step_line(alloc, step)?.as_bytes())?;
    }
    Ok(text)
}
