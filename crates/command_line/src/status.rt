//! The status of a call whose text was written, or refused.

ghost use Rattle.std.specs.Prelude.{◌≡◌, OnOk, Err};

use sgx_base::SinkFault;

/// The status where the sink refuses the text.
const REFUSED: u8 = 5;

/// The status where memory runs out.
pub const MEMORY: u8 = 6;

/// The status of a call that has this one where its text is written whole: 5 where the sink refused it, and 6 where
/// memory ran out.
pub fn status_after(status: u8, written: Result<(), SinkFault>) -> u8
    ensures whole { OnOk written (result ≡ status) }
    ensures failed { written ≡ Err SinkFault.Failed → result ≡ REFUSED }
    ensures memory { written ≡ Err SinkFault.Memory → result ≡ MEMORY }
{
    match written {
        Ok(()) => status,
        Err(SinkFault::Failed) => REFUSED,
        Err(SinkFault::Memory) => MEMORY,
    }
}
