//! The value of a script without a fault.
#![tactic(auto)]

mod lines;
mod races;
mod settings;
mod value;
mod words;

pub use value::value_of;
