//! The ECALLs in progress on a participant, each with its OCALL in progress.

use arrayvec::ArrayVec;
use std::marker::Model;

/// An ECALL that was entered, and the OCALL in progress on it.
#[derive(Clone, Copy, Debug, Default, PartialEq, Eq)]
pub struct Entry {
    pub ordinal: u32,
    pub ocall: Option<u32>,
}

/// At most 16 entries, which contracts see as a list with the latest entry first.
#[derive(Debug, Drop)]
pub struct CallStack {
    entries: ArrayVec<Entry, 16>,
}

impl Model for CallStack {
    ghost use Rattle.std.specs.Prelude.{◌≤◌, List, length, reverse, map};
    ghost use Rattle.bridge_program.specs.Entry.{Entered};
    ghost use Rattle.bridge_program.specs.Stack.{entered};

    ghost Value = { List Entered };

    ghost view = { λ s. reverse (map entered s.entries.items) };

    ghost invariant = { λ s. length s.entries.items ≤ 16 };
}

impl CallStack {
    ghost use Rattle.std.specs.Prelude.{◌≡◌, ◌<◌, ◌≤◌, ◌↔◌, [], ◌∷◌, None, Some, length, drop, IsTrue};
    ghost use Rattle.bridge_program.specs.Entry.{calls_in_progress};
    ghost use Rattle.bridge_program.specs.Standing.{IsInHost, IsInEnclave, HasOcall, current_ocall, with_ocall};

    /// No call is in progress.
    pub fn new() -> CallStack
        ensures { result ≡ [] }
    {
        CallStack {
            entries: ArrayVec::new(),
        }
    }

    /// How many calls are in progress: the entries, and the OCALLs on them.
    pub fn depth(&self) -> u32
        ensures { result ≡ calls_in_progress self.now }
    {
        let mut depth = 0;
        for entry in self.entries.as_slice() {
            depth += if entry.ocall.is_some() { 2 } else { 1 };
        }
        depth
    }

    /// Whether there are 16 entries.
    pub fn is_full(&self) -> bool
        ensures full { IsTrue result ↔ (16 ≤ length self.now) }
        ensures most { length self.now ≤ 16 }
    {
        self.entries.is_full()
    }

    /// The OCALL in progress on the latest entry.
    pub fn current_ocall(&self) -> Option<u32>
        ensures { result ≡ current_ocall self.now }
    {
        self.entries.as_slice().last()?.ocall
    }

    /// An ECALL is entered from the host.
    pub fn enter(&mut self, ordinal: u32)
        requires room { length self.old < 16 }
        requires outside { IsInHost self.old }
        ensures { self.new ≡ record { ordinal = ordinal; ocall = None } ∷ self.old }
    {
        self.entries.push(Entry {
            ordinal,
            ocall: None,
        });
    }

    /// The latest ECALL returns.
    pub fn leave(&mut self)
        requires { IsInEnclave self.old }
        ensures { self.new ≡ drop 1 self.old }
    {
        self.entries.pop();
    }

    /// The latest ECALL makes an OCALL.
    pub fn start_ocall(&mut self, ordinal: u32)
        requires { IsInEnclave self.old }
        ensures { self.new ≡ with_ocall (Some ordinal) self.old }
    {
        self.set_ocall(Some(ordinal));
    }

    /// The OCALL in progress returns.
    pub fn end_ocall(&mut self)
        requires { HasOcall self.old }
        ensures { self.new ≡ with_ocall None self.old }
    {
        self.set_ocall(None);
    }

    /// The OCALL in progress on the latest entry, where there is an entry, is now this one.
    fn set_ocall(&mut self, ocall: Option<u32>)
        ensures { self.new ≡ with_ocall ocall self.old }
    {
        if let Some(entry) = self.entries.pop() {
            self.entries.push(Entry { ocall, ..entry });
        }
    }
}
