//! Laws of traces, as contracts.

ghost use Rattle.std.specs.Prelude.{ℕ, ◌≡◌, ◌<◌, ◌^◌, List, All};
ghost use Rattle.word_port.specs.declared.Step.{Step};
ghost use Rattle.log_trace.specs.Trace.{IsStep, trace_text, traces_from};
ghost use Rattle.log_trace.specs.Examples.{Examples};

/// A text is read in one way: it is the trace of one participant and one log at most.
pub fn one_log_law()
    ensures { (m n : ℕ) (xs ys : List Step) → m < 2 ^ 32 → n < 2 ^ 32 → All IsStep xs → All IsStep ys
        → trace_text m xs ≡ trace_text n ys → (m ≡ n) × (xs ≡ ys) }
{}

/// Traces of several participants, one after another, tell the log of each, and how many there are.
pub fn all_logs_law()
    ensures { (n : ℕ) (xs ys : List (List Step)) → All (All IsStep) xs → All (All IsStep) ys
        → traces_from n xs ≡ traces_from n ys → xs ≡ ys }
{}

/// Traces of small logs, to the byte.
pub fn examples()
    ensures { Examples }
{}
