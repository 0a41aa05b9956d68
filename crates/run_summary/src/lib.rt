//! The summary of a run.
#![tactic(auto)]

mod runs;

ghost use Rattle.std.specs.Prelude.{◌≡◌, ◌≤◌, length, filter, sum_by, IfOk, string_bytes};
ghost use Rattle.sgx_base.specs.Bytes.{little_endian};
ghost use Rattle.call_report.specs.Report.{put_bytes, written_bytes};
ghost use Rattle.run_summary.specs.Summary as spec;

use call_report::CallRecord;
pub use runs::summarize;
use std::alloc::{AllocError, Global};
use word_port::Step;

/// How many bytes a return has.
const RETURN_SIZE: usize = 8;

/// The number that was put, the lowest byte first.
fn number_put(steps: &[Step]) -> u64
    requires { length steps.now ≤ 8 }
    ensures { result ≡ little_endian (put_bytes steps.now) }
{
    let mut number = 0;
    for i in (0..steps.len()).rev() {
        number = 256 * number + steps[i].first % 256;
    }
    number
}

/// The return whose bytes were put from this place on.
fn return_at(log: &[Step], turn: usize) -> u64
    ensures { result ≡ little_endian (written_bytes log.now turn 8) }
{
    let steps = &log[turn.min(log.len())..];
    number_put(&steps[..RETURN_SIZE.min(steps.len())])
}

fn is_success(call: &CallRecord) -> bool
    ensures { result ≡ spec.is_success call.now }
{
    call.status.0 == 0
}

/// How many calls succeeded.
fn count_of(records: &[CallRecord]) -> usize
    ensures { result ≡ length (filter spec.is_success records.now) }
{
    let mut count = 0;
    for call in records {
        if is_success(call) {
            count += 1;
        }
    }
    count
}

/// The sum of the returns of the calls that succeeded.
fn sum_of(records: &[CallRecord], log: &[Step]) -> u128
    ensures { result ≡ spec.returns_sum records.now log.now }
{
    let mut sum = 0;
    for call in records {
        if is_success(call) {
            sum += u128::from(return_at(log, call.turn as usize));
        }
    }
    sum
}

/// The line of these numbers.
fn line_of(
    alloc: Global,
    calls: usize,
    ok: usize,
    sum: u128,
    steps: usize,
) -> Result<String, AllocError>
    ensures { IfOk result (λ text. string_bytes text ≡ spec.line_of calls ok sum steps) }
{
    let calls = calls.to_string(alloc)?;
    let ok = ok.to_string(alloc)?;
    let sum = sum.to_string(alloc)?;
    let steps = steps.to_string(alloc)?;
    let mut text = String::from_str(alloc, "calls ")?;
    text.push_str(calls.as_str())?;
    text.push_str(" ok ")?;
    text.push_str(ok.as_str())?;
    text.push_str(" sum ")?;
    text.push_str(sum.as_str())?;
    text.push_str(" steps ")?;
    text.push_str(steps.as_str())?;
    text.push_str("\n")?;
    Ok(text)
}

/// The line of a run: how many calls it made, how many of them succeeded, the sum of their returns, of eight bytes
/// each, and how many steps its log has.
#[tactic(auto, unfolding(crate::specs::Summary::summary))]
pub fn summary(alloc: Global, records: &[CallRecord], log: &[Step]) -> Result<String, AllocError>
    ensures { IfOk result (λ text. string_bytes text ≡ spec.summary records.now log.now) }
{
    line_of(
        alloc,
        records.len(),
        count_of(records),
        sum_of(records, log),
        log.len(),
    )
}
