//! The lines of a script, with the words that stand in their places.

use crate::arguments::Arguments;

/// A setting of a script.
#[derive(Clone, Copy, Debug, PartialEq, Eq)]
pub enum Setting {
    Host,
    Stack,
    Arena,
    Cells,
    Retries,
    TrustedWorkers,
    UntrustedWorkers,
    Slots,
}

/// A calculation on a register.
#[derive(Clone, Copy, Debug, PartialEq, Eq)]
pub enum Calculation {
    Set,
    Add,
    Sub,
    Mul,
    And,
    Or,
    Xor,
}

/// An action of a body, by its words.
#[derive(Drop)]
pub enum ActionWords<'a> {
    Calculate {
        calculation: Calculation,
        register: &'a [u8],
        value: &'a [u8],
    },
    Len {
        register: &'a [u8],
        block: &'a [u8],
    },
    Sum {
        register: &'a [u8],
        block: &'a [u8],
    },
    Get {
        register: &'a [u8],
        block: &'a [u8],
        place: &'a [u8],
    },
    Put {
        block: &'a [u8],
        place: &'a [u8],
        value: &'a [u8],
    },
    Fill {
        block: &'a [u8],
        value: &'a [u8],
    },
    Copy {
        target: &'a [u8],
        source: &'a [u8],
    },
    Cload {
        register: &'a [u8],
        cell: &'a [u8],
    },
    Cswap {
        register: &'a [u8],
        cell: &'a [u8],
        value: &'a [u8],
    },
    Cadd {
        register: &'a [u8],
        cell: &'a [u8],
        value: &'a [u8],
    },
    Ccas {
        register: &'a [u8],
        cell: &'a [u8],
        expected: &'a [u8],
        value: &'a [u8],
    },
    Skipz {
        register: &'a [u8],
        count: &'a [u8],
    },
    Skipnz {
        register: &'a [u8],
        count: &'a [u8],
    },
    Return {
        value: &'a [u8],
    },
    /// `return` alone.
    End,
}

/// A line of a script, by its words.
#[derive(Drop)]
pub enum Line<'a> {
    Set {
        setting: Setting,
        number: &'a [u8],
    },
    Foreign {
        name: &'a [u8],
        size: &'a [u8],
        alignment: &'a [u8],
    },
    Bytes {
        address: &'a [u8],
        hex: &'a [u8],
    },
    Cell {
        cell: &'a [u8],
        value: &'a [u8],
    },
    Race {
        access: &'a [u8],
        address: &'a [u8],
        hex: &'a [u8],
    },
    Body {
        name: &'a [u8],
    },
    Handler {
        name: &'a [u8],
    },
    Thread,
    Racer,
    Call {
        name: &'a [u8],
        args: Arguments<'a>,
    },
    Raw {
        ordinal: &'a [u8],
        address: &'a [u8],
    },
    Poke {
        place: &'a [u8],
        hex: &'a [u8],
    },
    Peek {
        place: &'a [u8],
        length: &'a [u8],
    },
    Repeat {
        times: &'a [u8],
    },
    Return {
        value: &'a [u8],
    },
    Status {
        status: &'a [u8],
    },
    Do(ActionWords<'a>),
    Temp {
        name: &'a [u8],
        size: &'a [u8],
    },
    Ocall {
        returned: &'a [u8],
        status: &'a [u8],
        name: &'a [u8],
        args: Arguments<'a>,
    },
    Close,
}

/// Where a line stands, whatever repeats are around it.
#[derive(Clone, Copy)]
pub enum Scope<'a> {
    Outside,
    InBody { name: &'a [u8] },
    InHandler { name: &'a [u8] },
    InThread,
    InRacer,
}
