//! The first fault of a script.
#![tactic(auto)]

mod around;
mod before;
mod before_rules;
mod body;
mod body_ahead;
mod body_steps;
mod codes;
mod fault;
mod first;
mod given;
mod limit_rules;
mod names;
mod room;
mod stacks;
mod temporaries;
mod walk;

pub use fault::Fault;
pub use first::first_fault;
