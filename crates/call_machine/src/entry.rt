//! How an entry ends, and its record.

ghost use Rattle.std.specs.Prelude.{◌≡◌};
ghost use Rattle.call_machine.specs.Entry.{ended_record as record_ended};

use call_report::CallRecord;
use sgx_base::Status;

/// How an entry ended: with an answer that begins at this place of the log, or refused with a status.
#[derive(Clone, Copy)]
pub(crate) enum Entered {
    Answered { turn: u32 },
    Refused(Status),
}

/// The record of an entry that has ended: where its steps lie, and where its answer begins or what refused it.
pub(crate) fn ended_record(begun: CallRecord, first: u32, last: u32, entered: Entered) -> CallRecord
    ensures { result ≡ record_ended begun first last entered }
{
    let (status, turn) = match entered {
        Entered::Answered { turn } => (Status::SUCCESS, turn),
        Entered::Refused(status) => (status, last),
    };
    CallRecord {
        status,
        first,
        turn,
        last,
        ..begun
    }
}
