//! Blocks of an arena.

ghost use Rattle.std.specs.Prelude.{◌<◌};

use enclave_memory::Arena;
use std::alloc::{AllocError, Global};
use std::test::Fail;

#[test]
fn blocks_are_rounded(rt: HostRuntime) -> Result<(), Fail> {
    let mut arena = Arena::new(rt.alloc(), 32)?;
    let opening = arena.mark();
    assert!(rt; arena.push_block(17).is_some());
    assert_eq!(rt; arena.push_block(1), None);
    assert_eq!(rt; arena.room(), 0);
    arena.pop_to(opening);
    assert!(rt; push_zeros(&mut arena, 32));
    assert_eq!(rt; arena.room(), 0);
    Ok(())
}

#[test]
fn an_arena_is_zero_again_after_a_pop(rt: HostRuntime) -> Result<(), Fail> {
    for (size, length, count) in [
        (16, 1, 1),
        (32, 16, 2),
        (4096, 100, 36),
        (65_536, 1, 4096),
        (65_536, 4081, 16),
        (65_536, 65_536, 1),
    ] {
        assert!(rt; is_zero_again(rt.alloc(), size, length, count)?);
    }
    Ok(())
}

/// Whether so many blocks of one length fill an arena, and fill it again after a pop, each of them zero.
fn is_zero_again(alloc: Global, size: u32, length: u32, count: u32) -> Result<bool, AllocError> {
    if size % 16 != 0 || size > 65_536 || length == 0 {
        return Ok(false);
    }
    let mut arena = Arena::new(alloc, size)?;
    let mut is_zero = true;
    for _ in 0..2 {
        for _ in 0..count {
            is_zero = push_zeros(&mut arena, length) && is_zero;
        }
        is_zero = is_zero && arena.push_block(length).is_none();
        arena.pop_to(0);
    }
    Ok(is_zero && arena.room() == size)
}

/// Pushes a block and writes to its last byte; whether there was room, and its bytes were zero.
fn push_zeros(arena: &mut Arena, length: u32) -> bool
    requires { 0 < length }
{
    let Some(block) = arena.push_block(length) else {
        return false;
    };
    let is_zero = arena.bytes(block).iter().all(|byte| *byte == 0);
    arena.write(block, length - 1, &[0xff]);
    is_zero
}
