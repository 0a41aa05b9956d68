//! The C text of bridges, proxies, marshalling structures and types, an instruction at a time.
#![tactic(auto)]

pub mod declarations;
mod ecalls;
pub mod frames;
pub mod instructions;
pub mod lengths;
pub mod named;
mod ocalls;
pub mod parameters;
mod products;
pub mod templates;
pub mod types;
