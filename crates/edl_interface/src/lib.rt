//! The functions of an interface: their parameters, how each is passed, and the structures that pass them.
#![tactic(auto)]

mod bytes;
mod values;

use sgx_base::{Name, Passing};
use sqlite_items::Items;

/// The functions of an interface. A function's place in its list is its ordinal.
#[derive(Debug, Drop)]
pub struct Interface {
    pub ecalls: Items<Function>,
    pub ocalls: Items<Function>,
}

/// A function: `allow` has the ordinals of the entries that may be made during it.
#[derive(Debug, Drop)]
pub struct Function {
    pub name: Name,
    pub is_public: bool,
    pub switchless: bool,
    pub ret: Option<Plain>,
    pub params: Items<Param>,
    pub allow: Items<u32>,
    pub frame_size: u32,
}

/// A parameter, and the offset of its field.
#[derive(Debug, Drop)]
pub struct Param {
    pub name: Name,
    pub offset: u32,
    pub class: Class,
}

/// How a parameter is passed.
#[derive(Clone, Copy, Debug, PartialEq, Eq)]
pub enum Class {
    Plain(Plain),
    UserCheck,
    Buffer {
        way: Passing,
        size: Amount,
        count: Amount,
        unit: u32,
    },
    Text {
        way: Passing,
        unit: u32,
    },
    Fixed {
        way: Passing,
        length: u32,
        unit: u32,
    },
    /// A value of a foreign pointer or array type, which is copied where it has a direction.
    Foreign {
        way: Option<Passing>,
    },
}

/// A plain value.
#[derive(Clone, Copy, Debug, PartialEq, Eq)]
pub struct Plain {
    pub size: u32,
    pub integer: bool,
    pub signed: bool,
}

/// A number, or the parameter of this number.
#[derive(Clone, Copy, Debug, PartialEq, Eq)]
pub enum Amount {
    Number(u64),
    Param(u32),
}
