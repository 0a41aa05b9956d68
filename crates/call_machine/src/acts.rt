//! What the host does beside calls: its pokes and peeks, and the return of a handler; and the acts of a host thread.

ghost use Rattle.std.specs.Prelude.{[], ◌∷◌, ◌≡◌, ◌≤◌, ◌+◌, false, true, MatchOption, IfErr, OnOk, IsTrue};
ghost use Rattle.sgx_base.specs.Bytes.{low_bytes};
ghost use Rattle.sgx_base.specs.Ranges.{is_mapped};
ghost use Rattle.word_port.specs.Accesses.{stores};
ghost use Rattle.word_port.specs.Runs.{Makes, Runs, StopsAt};
ghost use Rattle.word_port.specs.declared.Side.TheVariants.{Host};
ghost use Rattle.call_copy.specs.Stops.{IsCutShort};
ghost use Rattle.call_report.specs.RecordList.{with_records};
ghost use Rattle.call_machine.specs.Acts.{mapped_stores, mapped_loads, peek as peek_of};
ghost use Rattle.call_machine.specs.Context.{depth_of};
ghost use Rattle.call_machine.specs.HostActs.{AreThreadActs};
ghost use Rattle.call_machine.specs.Made.{MakesCalls};
ghost use Rattle.call_machine.specs.Plain.{IsPlainMachine};
ghost use Rattle.call_machine.specs.Result.{Outcome};
ghost use Rattle.call_machine.specs.Tcs.{context_of, moment, HasStackInHost, IsPortOf};
ghost use Rattle.call_machine.specs.Thread.{thread};

use crate::calls::do_acts;
use crate::{Machine, Tcs};
use call_copy::{load_bytes, put_range};
use call_report::{CallKind, CallRecord, Records, Way};
use call_script::{HostAct, Place};
use sgx_base::{Status, little_endian_bytes, mapped};
use word_port::{RunFull, Side, WordPort};

/// Where the host acts: the frame of a handler, 0 outside handlers, and the size of its return.
#[derive(Clone, Copy)]
pub(crate) struct HostPlace {
    pub frame: u64,
    pub return_size: u32,
}

impl HostPlace {
    ghost use Rattle.std.specs.Prelude.{◌≡◌, ◌<◌, ◌^◌};
    ghost use Rattle.call_machine.specs.Acts.{place_address};

    /// The address of a place, which may be one in the handler's frame.
    pub(crate) fn address_of(self, place: Place) -> u64
        requires { place_address self.frame place < 2 ^ 64 }
        ensures { result ≡ place_address self.frame place }
    {
        match place {
            Place::At(address) => address,
            Place::InFrame(offset) => self.frame + u64::from(offset),
        }
    }
}

/// The address so many bytes past another, if it is one of host memory, which has so many bytes.
fn mapped_byte(host: u32, at: u64, past: u64) -> Option<u64>
    ensures { MatchOption result (is_mapped host (at + past) 1 ≡ false)
        (λ address. (address ≡ at + past) × (is_mapped host address 1 ≡ true)) }
{
    let address = at.checked_add(past)?;
    if mapped(host, address, 1) {
        Some(address)
    } else {
        None
    }
}

/// Writes the byte that is so many bytes past an address, and passes over one outside host memory.
fn poke_byte<P: WordPort>(
    port: &mut P,
    side: Side,
    at: u64,
    past: u64,
    byte: u8,
) -> Result<(), RunFull>
    ensures ok { OnOk result (Makes (mapped_stores side (P.state port.old).host (at + past) (byte ∷ []))
        (P.state port.old) (P.state port.new) tt) }
    ensures full { IfErr result (IsCutShort (mapped_stores side (P.state port.old).host (at + past) (byte ∷ []))
        (P.state port.old) (P.state port.new)) }
{
    let Some(address) = mapped_byte(port.host(), at, past) else {
        return Ok(());
    };
    put_range(port, side, address, &[byte])
}

/// Writes bytes from an address on, and passes over each that falls outside host memory.
pub(crate) fn poke<P: WordPort>(
    port: &mut P,
    side: Side,
    at: u64,
    bytes: &[u8],
) -> Result<(), RunFull>
    ensures ok { OnOk result (Makes (mapped_stores side (P.state port.old).host at bytes.now)
        (P.state port.old) (P.state port.new) tt) }
    ensures full { IfErr result (IsCutShort (mapped_stores side (P.state port.old).host at bytes.now)
        (P.state port.old) (P.state port.new)) }
{
    for i in 0..bytes.len() {
        poke_byte(port, side, at, i as u64, bytes[i])?;
    }
    Ok(())
}

/// Loads the byte that is so many bytes past an address, and passes over one outside host memory.
fn peek_byte<P: WordPort>(port: &mut P, side: Side, at: u64, past: u32) -> Result<(), RunFull>
    ensures ok { OnOk result (Makes (mapped_loads side (P.state port.old).host (at + past) 1)
        (P.state port.old) (P.state port.new) tt) }
    ensures full { IfErr result (IsCutShort (mapped_loads side (P.state port.old).host (at + past) 1)
        (P.state port.old) (P.state port.new)) }
{
    let Some(address) = mapped_byte(port.host(), at, u64::from(past)) else {
        return Ok(());
    };
    load_bytes(port, side, address, &mut [0])
}

/// Loads so many bytes from an address on, and passes over each that falls outside host memory.
fn peek_bytes<P: WordPort>(port: &mut P, side: Side, at: u64, length: u32) -> Result<(), RunFull>
    ensures ok { OnOk result (Makes (mapped_loads side (P.state port.old).host at length)
        (P.state port.old) (P.state port.new) tt) }
    ensures full { IfErr result (IsCutShort (mapped_loads side (P.state port.old).host at length)
        (P.state port.old) (P.state port.new)) }
{
    for i in 0..length {
        peek_byte(port, side, at, i)?;
    }
    Ok(())
}

/// Loads so many bytes from an address on, with a record.
pub(crate) fn peek<P: WordPort>(
    tcs: &Tcs,
    port: &mut P,
    at: u64,
    length: u32,
    records: &mut Records,
) -> Result<(), RunFull>
    ensures ok { OnOk result (MakesCalls
        (peek_of Host (P.state port.old).host (depth_of (context_of tcs.now)) at length)
        (P.state port.old) (P.state port.new) records.old records.new tcs.now tcs.now) }
    ensures full { IfErr result (λ full. StopsAt full
        (peek_of Host (P.state port.old).host (depth_of (context_of tcs.now)) at length)
        (moment (P.state port.old) records.old tcs.now) (P.state port.new)) }
{
    let place = records.list().len() as u32;
    let first = port.log().len() as u32;
    let begun = CallRecord {
        kind: CallKind::Peek,
        ordinal: 0,
        depth: tcs.stack.depth(),
        frame: at,
        way: Way::Ordinary,
        status: Status::SUCCESS,
        first,
        turn: first,
        last: first,
    };
    records.push(begun)?;
    peek_bytes(port, Side::Host, at, length)?;
    let last = port.log().len() as u32;
    records.set(place, CallRecord { last, ..begun });
    Ok(())
}

/// Stores the return of the handler at a place, in as many bytes as it has.
pub(crate) fn put_return<P: WordPort>(
    port: &mut P,
    place: HostPlace,
    value: u64,
) -> Result<(), RunFull>
    requires few { place.return_size ≤ 8 }
    requires mapped { IsTrue (is_mapped (P.state port.old).host place.frame place.return_size) }
    ensures ok { OnOk result (Makes (stores Host place.frame (low_bytes place.return_size value))
        (P.state port.old) (P.state port.new) tt) }
    ensures full { IfErr result (IsCutShort (stores Host place.frame (low_bytes place.return_size value))
        (P.state port.old) (P.state port.new)) }
{
    let bytes = little_endian_bytes(value);
    put_range(
        port,
        Side::Host,
        place.frame,
        &bytes[..place.return_size as usize],
    )
}

/// What a host thread does for its acts, in order, with the records of its calls and peeks.
///
/// After an `Err` nothing is told of the `Tcs` and the records. It takes no memory.
pub fn run_thread<P: WordPort>(
    machine: &Machine,
    tcs: &mut Tcs,
    port: &mut P,
    acts: &[HostAct],
    records: &mut Records,
) -> Result<(), RunFull>
    requires machine { IsPlainMachine machine.now }
    requires stack { tcs.old.stack ≡ [] }
    requires stack_in { HasStackInHost machine.now tcs.old }
    requires port { IsPortOf machine.now (P.state port.old) }
    requires sound { AreThreadActs machine.now.interface machine.now.script.settings.host acts.now }
    ensures ok { OnOk result ((out : Outcome) × Runs (thread machine.now (context_of tcs.old) acts.now)
        (moment (P.state port.old) records.old tcs.old) (moment (P.state port.new) records.new tcs.new) out
        × (records.new ≡ with_records records.old out.records)
        × (tcs.new ≡ record tcs.old { waits = tcs.new.waits })) }
    ensures full { IfErr result (λ full. StopsAt full (thread machine.now (context_of tcs.old) acts.now)
        (moment (P.state port.old) records.old tcs.old) (P.state port.new)) }
{
    let place = HostPlace {
        frame: 0,
        return_size: 0,
    };
    do_acts(machine, tcs, port, place, acts, Status::SUCCESS, records)?;
    Ok(())
}
