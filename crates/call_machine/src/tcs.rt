//! A thread control structure: what a participant has of the enclave, and its part of the host stack.

use crate::crosses_threads;
use bridge_program::CallStack;
use enclave_memory::Arena;
use ocall_frames::HostStack;
use std::alloc::{AllocError, Global};
use std::marker::Model;

/// The call stack, the host stack, an arena for frames and one for blocks, and the waiting looks that are left.
///
/// The arena for frames has 16,384 bytes, and each entry on the call stack takes at most 1024 of them.
#[derive(Drop)]
pub struct Tcs {
    pub(crate) stack: CallStack,
    pub(crate) host_stack: HostStack,
    pub(crate) frames: Arena,
    pub(crate) arena: Arena,
    pub(crate) waits: u32,
}

impl Model for Tcs {
    ghost use Rattle.std.specs.Prelude.{ℕ, ◌≡◌, ◌≤◌, ◌*◌, length};
    ghost use Rattle.enclave_memory.specs.Memory.{taken_by};
    ghost use Rattle.call_machine.specs.Tcs.{TcsState};

    ghost Value = { TcsState };

    ghost view = { λ t. record {
      stack = t.stack;
      base = t.host_stack.base;
      top = t.host_stack.top;
      frames = t.frames;
      arena = t.arena;
      waits = t.waits;
    } };

    ghost invariant = { λ t. (t.frames.size ≡ 16384) × (taken_by t.frames.blocks ≤ 1024 * length t.stack) };
}

impl Tcs {
    ghost use Rattle.std.specs.Prelude.{◌≡◌, ◌≤◌, ◌%◌, [], IfOk};

    /// Both arenas are zero, no call is in progress, and so many waiting looks are left. The arena for blocks has so
    /// many bytes, and the host stack is the addresses from `base` to before `top`.
    pub fn new(
        alloc: Global,
        arena: u32,
        base: u64,
        top: u64,
        waits: u32,
    ) -> Result<Tcs, AllocError>
        requires whole { arena % 16 ≡ 0 }
        requires least { 4096 ≤ arena }
        requires most { arena ≤ 65536 }
        ensures { IfOk result (λ tcs. tcs ≡ record {
          stack = [];
          base = base;
          top = top;
          waits = waits;
          frames = record { size = 16384; blocks = [] };
          arena = record { size = arena; blocks = [] };
        }) }
    {
        let frames = Arena::new(alloc, 16384)?;
        let arena = Arena::new(alloc, arena)?;
        Ok(Tcs {
            stack: CallStack::new(),
            host_stack: HostStack { base, top },
            frames,
            arena,
            waits,
        })
    }
}

/// A thread control structure may be moved to other threads and lent to them.
fn tcs_crosses_threads() {
    crosses_threads::<Tcs>();
}
