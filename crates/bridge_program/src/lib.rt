//! The call stack of a participant, the tables of an interface's functions, the rows that refuse an entry before its
//! frame is looked at, and the instructions of bridges.
#![tactic(auto)]

mod bridges;
mod call_stack;
mod compiled;
mod entry_rows;
mod passes;

pub use bridges::Bridges;
pub use call_stack::CallStack;
pub use compiled::compile;
pub use entry_rows::entry_check;

/// An instruction of a bridge. The number is the parameter's.
#[derive(Clone, Copy, Debug, PartialEq, Eq)]
pub enum Instr {
    Begin,
    NoFrame,
    Frame,
    Length(u32),
    Outside(u32),
    Fence,
    Divide(u32),
    Alloc(u32),
    CopyIn(u32),
    Zero(u32),
    TextEnd(u32),
    Call,
    PutReturn,
    CopyOut(u32),
    End,
    OBegin,
    OLength(u32),
    OWithin(u32),
    OTotal,
    OAdd(u32),
    OTake,
    OField(u32),
    OBuffer(u32),
    OCopy(u32),
    OEnter,
    OReturn,
    OBack(u32),
    OEnd,
}
