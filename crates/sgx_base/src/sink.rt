//! Where texts are written.

ghost use Rattle.std.specs.Prelude.{◌≡◌, OnOk, OnErr, Err};
ghost use Rattle.sgx_base.specs.Sinks.{Wrote, WrotePart, SinkFailed};

use thiserror::Error;

/// Why a piece was not written whole.
#[derive(Clone, Copy, Debug, PartialEq, Eq, Error)]
pub enum SinkFault {
    #[error("a text could not be written")]
    Failed,
    #[error("out of memory")]
    Memory,
}

/// A sink that takes pieces of text.
///
/// Its state tells all bytes so far, or nothing, and counts the writes that failed. The count never falls.
pub trait Sink {
    ghost use Rattle.std.specs.Prelude.{◌≤◌};
    ghost use Rattle.sgx_base.specs.Sinks.{SinkState, IsTextWrite};

    ghost state: { Self → SinkState };

    /// Appends the piece, or at an Err the first bytes of it.
    fn write(&mut self, piece: &[u8]) -> Result<(), SinkFault>
        ensures told { IsTextWrite piece.now result (state self.old) (state self.new) }
        ensures faults_grow { (state self.old).faults ≤ (state self.new).faults };
}

/// Writes a text by one call, and an empty one by none.
pub fn write_text<O: Sink>(out: &mut O, text: &[u8]) -> Result<(), SinkFault>
    ensures whole { OnOk result (Wrote text.now (O.state out.old) (O.state out.new)) }
    ensures part { OnErr result (WrotePart text.now (O.state out.old) (O.state out.new)) }
    ensures failed { result ≡ Err SinkFault.Failed → SinkFailed (O.state out.old) (O.state out.new) }
{
    if text.is_empty() {
        return Ok(());
    }
    out.write(text)
}
