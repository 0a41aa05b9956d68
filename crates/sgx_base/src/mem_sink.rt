//! A sink in memory, for tests.
ghost use Rattle.std.specs.Prelude.{◌≡◌, ◌≤◌, ◌↔◌, IsTrue, Ok, Err, OnOk, IfOk, Some, [], ◌++◌};
ghost use Rattle.sgx_base.specs.Counts.{raised};
ghost use Rattle.sgx_base.specs.MemStores.{empty_text, is_failing, with_piece, after_failed_piece};

use crate::sink::{Sink, SinkFault};
use std::alloc::{AllocError, Global};
use std::marker::Model;

/// A sink in memory, of which chosen calls fail.
#[derive(Debug, Drop)]
pub struct MemSink {
    written: Vec<u8>,
    failing: Vec<u32>,
    calls: u64,
    faults: u64,
}

impl Model for MemSink {
    ghost use Rattle.sgx_base.specs.MemStores.{MemText};

    ghost Value = { MemText };

    ghost view = { λ s. record {
      written = s.written.items;
      failing = s.failing.items;
      calls = s.calls;
      faults = s.faults;
    } };
}

impl MemSink {
    /// An empty sink. The writes with these numbers fail, counted from 1.
    pub fn new(alloc: Global, failing: &[u32]) -> Result<MemSink, AllocError>
        ensures { IfOk result (λ sink. sink ≡ empty_text failing.now) }
    {
        Ok(MemSink {
            written: Vec::new(alloc),
            failing: Vec::from_slice(alloc, failing)?,
            calls: 0,
            faults: 0,
        })
    }

    /// All bytes that were written.
    pub fn written(&self) -> &[u8]
        ensures { result.now ≡ self.now.written }
    {
        self.written.as_slice()
    }

    /// Counts a call, and says whether it is one of those that fail.
    fn count_call(&mut self) -> bool
        ensures fails { result ≡ is_failing self.old.failing self.old.calls }
        ensures counted { self.new ≡ record self.old { calls = raised self.old.calls } }
    {
        let number = self.calls.saturating_add(1);
        self.calls = number;
        self.failing
            .iter()
            .any(|failing| u64::from(*failing) == number)
    }
}

impl Sink for MemSink {
    ghost state = { λ sink. record { written = Some sink.written; faults = sink.faults } };

    fn write(&mut self, piece: &[u8]) -> Result<(), SinkFault>
        ensures fails { (result ≡ Err SinkFault.Failed) ↔ IsTrue (is_failing self.old.failing self.old.calls) }
        ensures ok { OnOk result (self.new ≡ with_piece self.old piece.now) }
        ensures failed { result ≡ Err SinkFault.Failed → self.new ≡ after_failed_piece self.old }
        ensures memory { result ≡ Err SinkFault.Memory → self.new ≡ record self.old { calls = raised self.old.calls } }
        ensures faults_grow { self.old.faults ≤ self.new.faults }
    {
        if self.count_call() {
            self.faults = self.faults.saturating_add(1);
            return Err(SinkFault::Failed);
        }
        match self.written.extend_from_slice(piece) {
            Ok(()) => Ok(()),
            Err(_) => Err(SinkFault::Memory),
        }
    }
}
