//! A fault of a script.

/// A rule of scripts is broken: the line, counted from 1, or 0 where it is no line's, and the code of the rule.
#[derive(Clone, Copy, Debug, PartialEq, Eq)]
pub struct Fault {
    pub line: u32,
    pub code: u8,
}
