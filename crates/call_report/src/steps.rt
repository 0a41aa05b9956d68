//! The steps of a log, from a place on.
ghost use Rattle.std.specs.Prelude.{ℕ, ◌≡◌, ◌<◌, ◌^◌, take, drop, IfOk, SomeIff};
ghost use Rattle.call_report.specs.Report.{found_bytes as found_bytes_of, put_bytes as put_bytes_of, loaded_bytes as loaded_bytes_of, written_bytes as written_bytes_of};

use std::alloc::{AllocError, Global};
use word_port::Step;

/// What is there from a place on.
pub(crate) fn after<T>(items: &[T], at: usize) -> &[T]
    ensures { result.now ≡ drop at items.now }
{
    &items[at.min(items.len())..]
}

/// The first items, so many, and those after them, where None stands for any number of more than 64 bits.
pub(crate) fn split<T>(items: &[T], count: Option<u64>) -> (&[T], &[T])
    ensures { (n : ℕ) → SomeIff count (n < 2 ^ 64) n
        → (result.0.now ≡ take n items.now) × (result.1.now ≡ drop n items.now) }
{
    let most = items.len();
    let count = match count {
        Some(count) => most.min(count as usize),
        None => most,
    };
    items.split_at(count)
}

/// The first items, so many, or all where there are fewer.
pub(crate) fn first<T>(items: &[T], count: usize) -> &[T]
    ensures { result.now ≡ take count items.now }
{
    &items[..count.min(items.len())]
}

/// The bytes that loads found.
pub(crate) fn found_bytes(alloc: Global, steps: &[Step]) -> Result<Vec<u8>, AllocError>
    ensures { IfOk result (λ bytes. bytes.items ≡ found_bytes_of steps.now) }
{
    steps
        .iter()
        .map(|step| (step.answer % 256) as u8)
        .collect(alloc)
}

/// The bytes that writes put.
pub(crate) fn put_bytes(alloc: Global, steps: &[Step]) -> Result<Vec<u8>, AllocError>
    ensures { IfOk result (λ bytes. bytes.items ≡ put_bytes_of steps.now) }
{
    steps
        .iter()
        .map(|step| (step.first % 256) as u8)
        .collect(alloc)
}

/// So many bytes that were loaded, from a place in the log on.
pub(crate) fn loaded_bytes(
    alloc: Global,
    log: &[Step],
    at: usize,
    count: usize,
) -> Result<Vec<u8>, AllocError>
    ensures { IfOk result (λ bytes. bytes.items ≡ loaded_bytes_of log.now at count) }
{
    found_bytes(alloc, first(after(log, at), count))
}

/// So many bytes that were written, from a place in the log on.
pub(crate) fn written_bytes(
    alloc: Global,
    log: &[Step],
    at: usize,
    count: usize,
) -> Result<Vec<u8>, AllocError>
    ensures { IfOk result (λ bytes. bytes.items ≡ written_bytes_of log.now at count) }
{
    put_bytes(alloc, first(after(log, at), count))
}
