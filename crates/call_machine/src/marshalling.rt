//! The copies of an ECALL's parameters into the enclave, and back.

ghost use Rattle.std.specs.Prelude.{ℕ, List, ◌≡◌, ◌≤◌, length, zip, Option, Err, IfOk, IfErr, OnOk};
ghost use Rattle.edl_interface.specs.Parameters.{marshalled};
ghost use Rattle.word_port.specs.Runs.{Makes};
ghost use Rattle.enclave_memory.specs.Memory.{room_of};
ghost use Rattle.call_copy.specs.Stops.{IsCutShort, MatchStop};
ghost use Rattle.call_machine.specs.Ecall.{shape_of as shape_in, copies_in, copies_out};
ghost use Rattle.call_machine.specs.Entry.{IsPlaced, IsCopied, AreCopied, AreCopiesOf, HasBlock, HasBlocks, HasGrown, IsBack, copy_of, copy_back};
ghost use Rattle.call_machine.specs.Refusal.{AreAllowed};

use arrayvec::ArrayVec;
use body_vm::Blocks;
use call_copy::{CopyStop, Shape, copy_in, copy_out};
use edl_interface::{Class, Function, Param};
use enclave_memory::{Arena, Block};
use sgx_base::Passing;
use word_port::{RunFull, WordPort};

/// How a parameter is copied.
fn shape_of(class: &Class) -> Shape
    ensures { result ≡ shape_in class.now }
{
    match *class {
        Class::Buffer { way, unit, .. } | Class::Fixed { way, unit, .. } => Shape {
            way,
            unit,
            text: false,
        },
        Class::Text { way, unit } => Shape {
            way,
            unit,
            text: true,
        },
        Class::Plain(_) | Class::UserCheck | Class::Foreign { .. } => Shape {
            way: Passing::Inward,
            unit: 1,
            text: false,
        },
    }
}

/// Copies a parameter into a new block of the arena; a null pointer or a length of 0 gives no block.
fn copy_param<P: WordPort>(
    port: &mut P,
    function: &Function,
    fields: &[u8],
    param: &Param,
    arena: &mut Arena,
) -> Result<Option<Block>, CopyStop>
    requires { IsPlaced (P.state port.old).host function.now fields.now param.now }
    ensures ok { IfOk result (IsCopied function.now fields.now param.now
        arena.old arena.new (P.state port.old) (P.state port.new)) }
    ensures err { IfErr result (λ stop. MatchStop stop
        (λ status. Makes (copy_of function.now fields.now (room_of arena.old) param.now)
        (P.state port.old) (P.state port.new) (Err status) × (arena.new ≡ arena.old))
        (IsCutShort (copy_of function.now fields.now (room_of arena.old) param.now)
        (P.state port.old) (P.state port.new))) }
{
    let Some(length) = function.copied_length(fields, param) else {
        unreachable!();
    };
    if length == 0 {
        return Ok(None);
    }
    let address = param.address(fields);
    match copy_in(port, address, length, shape_of(&param.class), arena) {
        Ok(block) => Ok(Some(block)),
        Err(stop) => Err(stop),
    }
}

/// Copies the marshalled parameters in, one wholly before the next.
///
/// A refusal leaves the blocks of the parameters before it. After a full log nothing is told of the arena.
pub(crate) fn copy_params<P: WordPort>(
    port: &mut P,
    function: &Function,
    fields: &[u8],
    arena: &mut Arena,
) -> Result<Blocks, CopyStop>
    requires few { length function.now.params ≤ 64 }
    requires allowed { AreAllowed (P.state port.old).host function.now fields.now }
    ensures ok { IfOk result (λ blocks. AreCopied function.now fields.now
        arena.old arena.new (P.state port.old) (P.state port.new) blocks.items) }
    ensures grown { OnOk result (HasGrown arena.old arena.new) }
    ensures err { IfErr result (λ stop. MatchStop stop
        (λ status. Makes (copies_in function.now fields.now (room_of arena.old) (marshalled function.now))
        (P.state port.old) (P.state port.new) (Err status) × HasGrown arena.old arena.new)
        (IsCutShort (copies_in function.now fields.now (room_of arena.old) (marshalled function.now))
        (P.state port.old) (P.state port.new))) }
{
    let mut blocks = ArrayVec::new();
    for param in function.params.as_slice() {
        if param.class.is_marshalled() {
            match copy_param(port, function, fields, param, arena) {
                Ok(block) => blocks.push(block),
                Err(stop) => return Err(stop),
            }
        }
    }
    Ok(blocks)
}

/// Puts a parameter's block back, where it is copied out and not null.
fn put_param<P: WordPort>(
    port: &mut P,
    fields: &[u8],
    param: &Param,
    arena: &Arena,
    block: Option<Block>,
) -> Result<(), RunFull>
    requires { (bytes : Option (List ℕ)) × HasBlock arena.now block bytes
        × IsBack (P.state port.old).host fields.now param.now bytes }
    ensures ok { (bytes : Option (List ℕ)) → HasBlock arena.now block bytes
        → OnOk result (Makes (copy_back fields.now param.now bytes) (P.state port.old) (P.state port.new) tt) }
    ensures full { (bytes : Option (List ℕ)) → HasBlock arena.now block bytes
        → IfErr result (IsCutShort (copy_back fields.now param.now bytes) (P.state port.old) (P.state port.new)) }
{
    let Some(block) = block else {
        return Ok(());
    };
    if !param.class.is_out() {
        return Ok(());
    }
    let address = param.address(fields);
    copy_out(port, address, shape_of(&param.class), arena, block)
}

/// Puts the blocks of the `out` parameters back, in order.
pub(crate) fn put_params<P: WordPort>(
    port: &mut P,
    function: &Function,
    fields: &[u8],
    arena: &Arena,
    blocks: &[Option<Block>],
) -> Result<(), RunFull>
    requires few { length function.now.params ≤ 64 }
    requires allowed { AreAllowed (P.state port.old).host function.now fields.now }
    requires copies { (bytes : List (Option (List ℕ))) × HasBlocks arena.now blocks.now bytes
        × AreCopiesOf function.now fields.now (marshalled function.now) bytes }
    ensures ok { (bytes : List (Option (List ℕ))) → HasBlocks arena.now blocks.now bytes
        → AreCopiesOf function.now fields.now (marshalled function.now) bytes
        → OnOk result (Makes (copies_out fields.now (zip (marshalled function.now) bytes))
        (P.state port.old) (P.state port.new) tt) }
    ensures full { (bytes : List (Option (List ℕ))) → HasBlocks arena.now blocks.now bytes
        → AreCopiesOf function.now fields.now (marshalled function.now) bytes
        → IfErr result (IsCutShort (copies_out fields.now (zip (marshalled function.now) bytes))
        (P.state port.old) (P.state port.new)) }
{
    let mut place = 0;
    for param in function.params.as_slice() {
        if param.class.is_marshalled() {
            put_param(port, fields, param, arena, blocks[place])?;
            place += 1;
        }
    }
    Ok(())
}
