//! The terms in which the attribute rules and the interface are said: attributes, meanings of types, places of names,
//! functions and sizes.
#![tactic(auto)]

pub mod attributes;
pub mod functions;
pub mod meanings;
pub mod places;
pub mod sizes;

/// A rule that is broken, and the file and the token at which it is.
#[derive(Clone, Copy, Debug, PartialEq, Eq)]
pub struct Broken {
    pub file: u32,
    pub token: u32,
    pub code: u8,
}
