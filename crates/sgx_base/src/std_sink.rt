//! Standard output as a sink.
ghost use Rattle.std.specs.Prelude.{◌≡◌, ◌≤◌};
ghost use Rattle.sgx_base.specs.Counts.{raised};

use crate::sink::{Sink, SinkFault};
use std::io;
use std::io::ErrorKind;

/// Standard output. The count tells what failed; of the text itself nothing is told.
#[derive(Drop)]
pub struct StdSink<R> {
    rt: R,
    faults: u64,
}

impl<R: Print> StdSink<R> {
    /// The standard output of the runtime, with no failure so far.
    pub fn new(rt: R) -> StdSink<R>
        ensures { result.faults ≡ 0 }
    {
        StdSink { rt, faults: 0 }
    }
}

/// Counts a failure of this kind, unless memory ran out.
fn fault_of(count: &mut u64, kind: ErrorKind) -> SinkFault
    ensures failed { result ≡ SinkFault.Failed → count.new ≡ raised count.old }
    ensures memory { result ≡ SinkFault.Memory → count.new ≡ count.old }
    ensures kind { result ≡ SinkFault.Memory → kind ≡ ErrorKind.OutOfMemory }
    ensures grows { count.old ≤ count.new }
{
    match kind {
        ErrorKind::OutOfMemory => SinkFault::Memory,
        _ => {
            *count = count.saturating_add(1);
            SinkFault::Failed
        }
    }
}

/// Writes until the piece is taken. An output that takes nothing of what is left fails.
fn write_whole<R: Print>(rt: &R, piece: &[u8]) -> io::Result<()> {
    let mut rest = piece;
    while !rest.is_empty() {
        let taken = rt.write_some(rest)?;
        if taken == 0 {
            return Err(io::Error::from(ErrorKind::WriteZero));
        }
        rest = &rest[taken..];
    }
    Ok(())
}

impl<R: Print> Sink for StdSink<R> {
    ghost use Rattle.std.specs.Prelude.{None};

    ghost state = { λ sink. record { written = None; faults = sink.faults } };

    fn write(&mut self, piece: &[u8]) -> Result<(), SinkFault> {
        match write_whole(&self.rt, piece) {
            Ok(()) => Ok(()),
            Err(e) => Err(fault_of(&mut self.faults, e.kind())),
        }
    }
}
