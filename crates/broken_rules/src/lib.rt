//! The first broken rule of attributes.
#![tactic(auto)]

mod function_rules;
mod names;
mod param_rules;
mod rows;
mod rules;
mod type_rules;

pub use rules::first_broken;
