//! The parts of an entry around its body: a snapshot of its arguments (its frame and its parameters, each loaded once),
//! and its answer.

ghost use Rattle.std.specs.Prelude.{ℕ, List, ◌≡◌, ◌≤◌, ◌<◌, ◌+◌, ◌*◌, All, Err, Ok, IfOk, IfErr, OnOk, IsTrue, length, map, slice_get, Some, Option};
ghost use Rattle.sgx_base.specs.Bytes.{low_bytes};
ghost use Rattle.sgx_base.specs.Ranges.{is_mapped};
ghost use Rattle.sgx_base.specs.Rows.{first_row, unless_refused};
ghost use Rattle.edl_interface.specs.Parameters.{marshalled, return_size, value_in, IsWordSized};
ghost use Rattle.word_port.specs.Accesses.{loads, stores};
ghost use Rattle.word_port.specs.Runs.{Makes};
ghost use Rattle.word_port.specs.declared.Side.TheVariants.{Enclave};
ghost use Rattle.enclave_memory.specs.Memory.{room_of, taken_by};
ghost use Rattle.bridge_program.specs.Entry.{MayEnter, entry_rows};
ghost use Rattle.bridge_program.specs.Standing.{IsInHost};
ghost use Rattle.call_copy.specs.Stops.{IsCutShort, MatchStop};
ghost use Rattle.call_machine.specs.Admitted.{HasFields, LiesOn, IsAdmitted, AreCopiesTaken, IsTaken, EntryLeads, EntryIsCut, refusal, loaded_by, admitted_by};
ghost use Rattle.call_machine.specs.Ecall.{Ocalls, entered, finished, put_answer as answer_put};
ghost use Rattle.call_machine.specs.Entry.{AreCopiesOf, HasBlocks, HasGrown, OnlyLoads};
ghost use Rattle.call_machine.specs.Plain.{IsPlainMachine};
ghost use Rattle.call_machine.specs.Refusal.{AreAllowed, frame_rows};
ghost use Rattle.call_machine.specs.Tcs.{TcsState, context_of, IsPortOf};

use crate::fields::{check_fields, check_frame};
use crate::marshalling::{copy_params, put_params};
use crate::{Machine, Tcs};
use arrayvec::ArrayVec;
use body_vm::{Blocks, Values};
use bridge_program::entry_check;
use call_copy::{CopyStop, fetch_range, put_range};
use edl_interface::Function;
use enclave_memory::{Arena, Block};
use sgx_base::{Status, little_endian_bytes};
use word_port::{RunFull, Side, WordPort};

/// How much of both arenas was taken before an entry.
#[derive(Clone, Copy)]
pub(crate) struct Marks {
    pub frames: u32,
    pub arena: u32,
}

/// An entry that was admitted: its function, the block of its frame's copy, which a frame of no bytes has not, and the
/// marks before it.
#[derive(Clone, Copy)]
pub(crate) struct Admitted<'a> {
    pub function: &'a Function,
    pub fields: Option<Block>,
    pub marks: Marks,
}

/// A block of the arena for frames with the bytes of host memory from this address on, which are loaded once.
fn load_frame<P: WordPort>(
    port: &mut P,
    frames: &mut Arena,
    address: u64,
    size: u32,
) -> Result<Option<Block>, RunFull>
    requires mapped { IsTrue (is_mapped (P.state port.old).host address size) }
    requires room { 1024 ≤ room_of frames.old }
    requires small { size ≤ 1024 }
    ensures ok { IfOk result (λ block. (fields : List ℕ) × Makes (loads Enclave address size)
        (P.state port.old) (P.state port.new) fields × HasFields frames.new block fields) }
    ensures grown { OnOk result (HasGrown frames.old frames.new) }
    ensures least { taken_by frames.new.blocks ≤ taken_by frames.old.blocks + 1024 }
    ensures size { frames.new.size ≡ frames.old.size }
    ensures full { IfErr result (IsCutShort (loads Enclave address size) (P.state port.old) (P.state port.new)) }
{
    if size == 0 {
        return Ok(None);
    }
    let Some(block) = frames.push_block(size) else {
        unreachable!();
    };
    fetch_range(port, Side::Enclave, address, frames, block)?;
    Ok(Some(block))
}

/// The bytes of a frame's copy.
fn bytes_of(frames: &Arena, fields: Option<Block>) -> &[u8]
    requires { (bytes : List ℕ) × HasFields frames.now fields bytes }
    ensures { (bytes : List ℕ) → HasFields frames.now fields bytes → result.now ≡ bytes }
{
    match fields {
        Some(block) => frames.bytes(block),
        None => &[],
    }
}

/// Copies the parameters in, where the fields of the frame's copy allow it.
fn copy_allowed<P: WordPort>(
    machine: &Machine,
    port: &mut P,
    ordinal: u32,
    address: u64,
    function: &Function,
    fields: &[u8],
    arena: &mut Arena,
) -> Result<Blocks, CopyStop>
    requires port { IsPortOf machine.now (P.state port.old) }
    requires few { length function.now.params ≤ 64 }
    ensures ok { IfOk result (λ blocks. AreCopiesTaken machine.now
        (loaded_by machine.now ordinal address function.now fields.now) ordinal address function.now fields.now
        arena.old arena.new (P.state port.old) (P.state port.new) blocks.items) }
    ensures err { IfErr result (λ stop. MatchStop stop
        (λ status. EntryLeads (loaded_by machine.now ordinal address function.now fields.now) (room_of arena.old)
        (P.state port.old) (P.state port.new) (refusal status) × HasGrown arena.old arena.new)
        (EntryIsCut (loaded_by machine.now ordinal address function.now fields.now) (room_of arena.old)
        (P.state port.old) (P.state port.new))) }
{
    if let Err(status) = check_fields(function, machine.script.settings.host, fields) {
        return Err(CopyStop::Refused(status));
    }
    copy_params(port, function, fields, arena)
}

/// Copies the frame and the parameters in, or refuses them.
fn take_copies<P: WordPort>(
    machine: &Machine,
    port: &mut P,
    ordinal: u32,
    address: u64,
    function: &Function,
    frames: &mut Arena,
    arena: &mut Arena,
) -> Result<(Option<Block>, Blocks), CopyStop>
    requires port { IsPortOf machine.now (P.state port.old) }
    requires mapped { IsTrue (is_mapped machine.now.script.settings.host address function.now.frame_size) }
    requires room { 1024 ≤ room_of frames.old }
    requires small { function.now.frame_size ≤ 1024 }
    requires few { length function.now.params ≤ 64 }
    ensures ok { IfOk result (λ copies. IsTaken machine.now ordinal address function.now frames.old frames.new
        arena.old arena.new (P.state port.old) (P.state port.new) copies.0 copies.1.items) }
    ensures err { IfErr result (λ stop. MatchStop stop
        (λ status. EntryLeads (admitted_by machine.now ordinal address function.now) (room_of arena.old)
        (P.state port.old) (P.state port.new) (refusal status)
        × HasGrown frames.old frames.new × HasGrown arena.old arena.new)
        (EntryIsCut (admitted_by machine.now ordinal address function.now) (room_of arena.old)
        (P.state port.old) (P.state port.new))) }
    ensures least { taken_by frames.new.blocks ≤ taken_by frames.old.blocks + 1024 }
    ensures size { frames.new.size ≡ frames.old.size }
{
    let fields = match load_frame(port, frames, address, function.frame_size) {
        Ok(fields) => fields,
        Err(full) => return Err(CopyStop::Full(full)),
    };
    let bytes = bytes_of(frames, fields);
    match copy_allowed(machine, port, ordinal, address, function, bytes, arena) {
        Ok(blocks) => Ok((fields, blocks)),
        Err(stop) => Err(stop),
    }
}

/// Puts an ECALL on the call stack, and gives the marks before it.
fn enter_stack(tcs: &mut Tcs, ordinal: u32) -> Marks
    requires room { length tcs.old.stack < 16 }
    requires outside { IsInHost tcs.old.stack }
    ensures lies { LiesOn tcs.old tcs.new ordinal result }
    ensures frames { tcs.new.frames ≡ tcs.old.frames }
    ensures arena { tcs.new.arena ≡ tcs.old.arena }
    ensures waits { tcs.new.waits ≡ tcs.old.waits }
    ensures room { 1024 ≤ room_of tcs.new.frames }
    ensures least { taken_by tcs.new.frames.blocks + 1024 ≤ 1024 * length tcs.new.stack }
{
    let marks = Marks {
        frames: tcs.frames.mark(),
        arena: tcs.arena.mark(),
    };
    tcs.stack.enter(ordinal);
    marks
}

/// Pops the blocks behind the marks, and takes the latest ECALL off the call stack.
fn leave_stack(tcs: &mut Tcs, marks: Marks)
    requires { (before : TcsState) × (ordinal : ℕ) × LiesOn before tcs.old ordinal marks }
    ensures { (before : TcsState) (ordinal : ℕ) → LiesOn before tcs.old ordinal marks
        → tcs.new ≡ record before { waits = tcs.old.waits } }
{
    tcs.arena.pop_to(marks.arena);
    tcs.frames.pop_to(marks.frames);
    tcs.stack.leave();
}

/// Copies the frame and the parameters in, of an entry that table, stack and the frame's address allow.
fn admit_checked<'a, P: WordPort>(
    machine: &'a Machine,
    tcs: &mut Tcs,
    port: &mut P,
    ordinal: u32,
    address: u64,
    function: &'a Function,
) -> Result<(Admitted<'a>, Blocks), CopyStop>
    requires machine { IsPlainMachine machine.now }
    requires found { slice_get machine.now.interface.ecalls ordinal ≡ Some function.now }
    requires stack { MayEnter machine.now.interface tcs.old.stack }
    requires port { IsPortOf machine.now (P.state port.old) }
    requires entry { unless_refused (first_row (entry_rows machine.now.interface tcs.old.stack ordinal)) ≡ Ok tt }
    requires frame { unless_refused (first_row (frame_rows machine.now.script.settings.host function.now address)) ≡ Ok tt }
    ensures ok { IfOk result (λ entry. IsAdmitted machine.now ordinal address (P.state port.old) (P.state port.new)
        tcs.old tcs.new entry.0 entry.1.items) }
    ensures err { IfErr result (λ stop. MatchStop stop
        (λ status. ((ocalls : Ocalls) → Makes (entered machine.now ocalls (context_of tcs.old) ordinal address)
        (P.state port.old) (P.state port.new) (Err status)) × (tcs.new ≡ tcs.old))
        (λ full. (ocalls : Ocalls) → IsCutShort (entered machine.now ocalls (context_of tcs.old) ordinal address)
        (P.state port.old) (P.state port.new) full)) }
{
    let marks = enter_stack(tcs, ordinal);
    match take_copies(
        machine,
        port,
        ordinal,
        address,
        function,
        &mut tcs.frames,
        &mut tcs.arena,
    ) {
        Ok((fields, blocks)) => Ok((
            Admitted {
                function,
                fields,
                marks,
            },
            blocks,
        )),
        Err(CopyStop::Refused(status)) => {
            leave_stack(tcs, marks);
            Err(CopyStop::Refused(status))
        }
        Err(CopyStop::Full(full)) => Err(CopyStop::Full(full)),
    }
}

/// Admits an entry, or refuses it with the status of the first condition: by the table of functions, the call stack, the
/// frame's address, and what the frame holds. The parameters of an admitted one are copied; it is on the call stack.
///
/// A refusal leaves the thread control structure as it was.
pub(crate) fn admit<'a, P: WordPort>(
    machine: &'a Machine,
    tcs: &mut Tcs,
    port: &mut P,
    ordinal: u32,
    address: u64,
) -> Result<(Admitted<'a>, Blocks), CopyStop>
    requires machine { IsPlainMachine machine.now }
    requires stack { MayEnter machine.now.interface tcs.old.stack }
    requires port { IsPortOf machine.now (P.state port.old) }
    ensures ok { IfOk result (λ entry. IsAdmitted machine.now ordinal address (P.state port.old) (P.state port.new)
        tcs.old tcs.new entry.0 entry.1.items) }
    ensures err { IfErr result (λ stop. MatchStop stop
        (λ status. ((ocalls : Ocalls) → Makes (entered machine.now ocalls (context_of tcs.old) ordinal address)
        (P.state port.old) (P.state port.new) (Err status)) × (tcs.new ≡ tcs.old))
        (λ full. (ocalls : Ocalls) → IsCutShort (entered machine.now ocalls (context_of tcs.old) ordinal address)
        (P.state port.old) (P.state port.new) full)) }
    ensures refused { IfErr result (λ stop. MatchStop stop
        (λ status. OnlyLoads (P.state port.old) (P.state port.new)) (λ full. Unit {0})) }
{
    if let Err(status) = entry_check(&machine.bridges, &tcs.stack, ordinal) {
        return Err(CopyStop::Refused(status));
    }
    let Some(function) = machine.interface.ecalls.get(ordinal as usize) else {
        unreachable!();
    };
    if let Err(status) = check_frame(function, machine.script.settings.host, address) {
        return Err(CopyStop::Refused(status));
    }
    admit_checked(machine, tcs, port, ordinal, address, function)
}

/// The values of a function's parameters, each as a number of 64 bits.
fn values_of(function: &Function, fields: &[u8]) -> Values
    requires words { All (λ p. IsWordSized p.class) function.now.params }
    requires few { length function.now.params ≤ 64 }
    ensures { result.items ≡ map (value_in fields.now) function.now.params }
{
    let mut values = ArrayVec::new();
    for param in function.params.as_slice() {
        values.push(param.value(fields));
    }
    values
}

/// The values of an admitted entry's parameters.
pub(crate) fn values_in(tcs: &Tcs, admitted: Admitted<'_>) -> Values
    requires words { All (λ p. IsWordSized p.class) admitted.function.now.params }
    requires few { length admitted.function.now.params ≤ 64 }
    requires fields { (fields : List ℕ) × HasFields tcs.now.frames admitted.fields fields }
    ensures { (fields : List ℕ) → HasFields tcs.now.frames admitted.entry.fields fields
        → result.items ≡ map (value_in fields) admitted.entry.function.now.params }
{
    values_of(admitted.function, bytes_of(&tcs.frames, admitted.fields))
}

/// Puts the return into the frame, in as many bytes as it has; none where there is no return.
fn put_return<P: WordPort>(
    port: &mut P,
    function: &Function,
    frame: u64,
    value: u64,
) -> Result<(), RunFull>
    requires size { return_size function.now ≤ 8 }
    requires mapped { IsTrue (is_mapped (P.state port.old).host frame (return_size function.now)) }
    ensures ok { OnOk result (Makes (stores Enclave frame (low_bytes (return_size function.now) value))
        (P.state port.old) (P.state port.new) tt) }
    ensures full { IfErr result (IsCutShort (stores Enclave frame (low_bytes (return_size function.now) value))
        (P.state port.old) (P.state port.new)) }
{
    let bytes = little_endian_bytes(value);
    put_range(
        port,
        Side::Enclave,
        frame,
        &bytes[..function.return_size() as usize],
    )
}

/// Puts an answer back: the return, and then each `out` parameter.
fn put_answer<P: WordPort>(
    port: &mut P,
    address: u64,
    function: &Function,
    fields: &[u8],
    value: u64,
    arena: &Arena,
    blocks: &[Option<Block>],
) -> Result<(), RunFull>
    requires size { return_size function.now ≤ 8 }
    requires mapped { IsTrue (is_mapped (P.state port.old).host address (return_size function.now)) }
    requires few { length function.now.params ≤ 64 }
    requires allowed { AreAllowed (P.state port.old).host function.now fields.now }
    requires copies { (bytes : List (Option (List ℕ))) × HasBlocks arena.now blocks.now bytes
        × AreCopiesOf function.now fields.now (marshalled function.now) bytes }
    ensures ok { (bytes : List (Option (List ℕ))) → HasBlocks arena.now blocks.now bytes
        → AreCopiesOf function.now fields.now (marshalled function.now) bytes
        → OnOk result (Makes (answer_put function.now address fields.now (finished value bytes))
        (P.state port.old) (P.state port.new) tt) }
    ensures full { (bytes : List (Option (List ℕ))) → HasBlocks arena.now blocks.now bytes
        → AreCopiesOf function.now fields.now (marshalled function.now) bytes
        → IfErr result (IsCutShort (answer_put function.now address fields.now (finished value bytes))
        (P.state port.old) (P.state port.new)) }
{
    put_return(port, function, address, value)?;
    put_params(port, function, fields, arena, blocks)
}

/// Ends an admitted entry: its return and its `out` parameters are put back, by the fields of the frame's copy, its
/// blocks are popped, and it leaves the call stack.
pub(crate) fn finish<P: WordPort>(
    tcs: &mut Tcs,
    port: &mut P,
    address: u64,
    admitted: Admitted<'_>,
    value: u64,
    blocks: &[Option<Block>],
) -> Result<(), RunFull>
    requires size { return_size admitted.function.now ≤ 8 }
    requires few { length admitted.function.now.params ≤ 64 }
    requires mapped { IsTrue (is_mapped (P.state port.old).host address (return_size admitted.function.now)) }
    requires lies { (before : TcsState) × (ordinal : ℕ) × LiesOn before tcs.old ordinal admitted.marks }
    requires copies { (fields : List ℕ) × HasFields tcs.old.frames admitted.fields fields
        × AreAllowed (P.state port.old).host admitted.function.now fields
        × ((bytes : List (Option (List ℕ))) × HasBlocks tcs.old.arena blocks.now bytes
        × AreCopiesOf admitted.function.now fields (marshalled admitted.function.now) bytes) }
    ensures ok { (fields : List ℕ) (bytes : List (Option (List ℕ))) → HasFields tcs.old.frames admitted.entry.fields fields
        → HasBlocks tcs.old.arena blocks.now bytes
        → AreCopiesOf admitted.entry.function.now fields (marshalled admitted.entry.function.now) bytes
        → OnOk result (Makes (answer_put admitted.entry.function.now address fields (finished value bytes))
        (P.state port.old) (P.state port.new) tt) }
    ensures full { (fields : List ℕ) (bytes : List (Option (List ℕ))) → HasFields tcs.old.frames admitted.entry.fields fields
        → HasBlocks tcs.old.arena blocks.now bytes
        → AreCopiesOf admitted.entry.function.now fields (marshalled admitted.entry.function.now) bytes
        → IfErr result (IsCutShort (answer_put admitted.entry.function.now address fields (finished value bytes))
        (P.state port.old) (P.state port.new)) }
    ensures left { (before : TcsState) (ordinal : ℕ) → LiesOn before tcs.old ordinal admitted.entry.marks
        → OnOk result (tcs.new ≡ record before { waits = tcs.old.waits }) }
{
    let fields = bytes_of(&tcs.frames, admitted.fields);
    put_answer(
        port,
        address,
        admitted.function,
        fields,
        value,
        &tcs.arena,
        blocks,
    )?;
    leave_stack(tcs, admitted.marks);
    Ok(())
}
