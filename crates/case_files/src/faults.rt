//! What is wrong with a file of cases.

use std::alloc::{AllocError, AllocFailed};

/// Why a case cannot be run.
#[derive(Clone, Copy)]
pub enum Flaw {
    Marker,
    Program,
    NoRun,
    NoStatus,
    Number,
    Escape,
    Text,
    Memory,
}

impl Flaw {
    /// What is wrong, in words.
    pub fn words(self) -> &'static str {
        match self {
            Flaw::Marker => "no such marker",
            Flaw::Program => "no such program",
            Flaw::NoRun => "the case has no `run`",
            Flaw::NoStatus => "the case has no `status`",
            Flaw::Number => "not a number, or one out of range",
            Flaw::Escape => "a backslash with no meaning",
            Flaw::Text => "a word or a name that is not UTF-8",
            Flaw::Memory => "out of memory",
        }
    }
}

impl From<AllocError> for Flaw {
    ghost use Rattle.std.specs.Prelude.{◌≡◌};
    ghost use Rattle.case_files.specs.declared.faults.Flaw.TheVariants.{Memory};

    ghost from_gives = { λ _ e. e ≡ Memory };

    fn from(_: AllocError) -> Flaw {
        Flaw::Memory
    }
}

impl<T: Drop> From<AllocFailed<T>> for Flaw {
    ghost use Rattle.std.specs.Prelude.{◌≡◌};
    ghost use Rattle.case_files.specs.declared.faults.Flaw.TheVariants.{Memory};

    ghost from_gives = { λ _ e. e ≡ Memory };

    fn from(_: AllocFailed<T>) -> Flaw {
        Flaw::Memory
    }
}

/// What is wrong at a line, counted from 1.
#[derive(Clone, Copy)]
pub struct CaseFault {
    pub line: usize,
    pub flaw: Flaw,
}
