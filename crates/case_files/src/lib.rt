//! Files of cases: plain text that says what a program is run on, and what it must do.
#![tactic(auto)]

mod cases;
mod escapes;
mod faults;
mod numbers;
mod parts;
mod trials;

pub use cases::{Case, cases_of};
pub use escapes::expanded;
pub use faults::{CaseFault, Flaw};
pub use numbers::Span;
pub use parts::{Part, Parts, parts_of};
pub use trials::{NamedFile, Trial, difference_of, shown, span_of, trial_of};
