//! Bytes in one block of memory, behind a raw pointer.

ghost use Rattle.std.specs.Prelude.{ℕ, ◌≡◌, ◌≤◌, ◌<◌, ◌+◌, ◌^◌, List, length, replicate, IfOk};
ghost use Rattle.std.specs.Borrow.{u8};
ghost use Rattle.sgx_base.specs.Bytes.{with_bytes_at};
ghost use Rattle.enclave_memory.specs.Region.{owned, lent};

use std::alloc::{AllocError, Allocator, Global};
use std::marker::Model;
use std::{fmt, slice};

/// So many bytes in a block of their own. Nothing frees them but `free`.
pub(crate) struct Region {
    at: *mut u8,
    size: usize,
    pub(crate) ghost bytes: { List ℕ },
    ghost counted: { size ≡ length bytes },
    ghost small: { size < 2 ^ 63 },
}

impl Model for Region {
    ghost also_owns = { λ r. owned r.at r.size r.bytes };

    ghost also_shares = { λ r _ κ. lent r.at r.size r.bytes κ };
}

// Nothing of it is tied to a thread.
unsafe impl Send for Region {}

unsafe impl Sync for Region {}

impl Region {
    /// A block of so many zeros.
    pub(crate) fn new(alloc: &Global, size: usize) -> Result<Region, AllocError>
        requires { size < 2 ^ 63 }
        ensures { IfOk result (λ region. region.bytes ≡ replicate size 0) }
    {
        let at = match alloc.allocate(size, 1) {
            Ok(at) => at,
            Err(error) => return Err(error),
        };
        let mut count = 0;
        while count < size {
            unsafe { *at.add(count) = 0 };
            count += 1;
        }
        Ok(Region { at, size })
    }

    /// The bytes.
    pub(crate) fn bytes(&self) -> &[u8]
        ensures { result.now ≡ self.now.bytes }
    {
        unsafe { slice::from_raw_parts(self.at, self.size) }
    }

    /// Writes bytes from a place on.
    pub(crate) fn write(&mut self, from: usize, bytes: &[u8])
        requires { from + length bytes.now ≤ length self.old.bytes }
        ensures { self.new.bytes ≡ with_bytes_at self.old.bytes from bytes.now }
    {
        put(
            unsafe { slice::from_raw_parts_mut(self.at, self.size) },
            from,
            bytes,
        );
    }

    /// Sets so many bytes from a place on to 0.
    pub(crate) fn zero(&mut self, from: usize, count: usize)
        requires { from + count ≤ length self.old.bytes }
        ensures { self.new.bytes ≡ with_bytes_at self.old.bytes from (replicate count 0) }
    {
        clear(
            unsafe { slice::from_raw_parts_mut(self.at, self.size) },
            from,
            count,
        );
    }

    /// Gives the block back.
    pub(crate) fn free(self, alloc: &Global) {
        let Region { at, size } = self;
        unsafe { alloc.deallocate(at, size, 1) }
    }
}

impl fmt::Debug for Region {
    fn fmt<W: fmt::Write>(&self, f: &mut fmt::Formatter<W>) -> fmt::Result {
        self.bytes().fmt(f)
    }
}

/// Writes bytes from a place on.
fn put(memory: &mut [u8], from: usize, bytes: &[u8])
    requires { from + length bytes.now ≤ length memory.old }
    ensures { memory.new ≡ with_bytes_at memory.old from bytes.now }
{
    memory[from..from + bytes.len()].copy_from_slice(bytes);
}

/// Sets so many bytes from a place on to 0.
fn clear(memory: &mut [u8], from: usize, count: usize)
    requires { from + count ≤ length memory.old }
    ensures { memory.new ≡ with_bytes_at memory.old from (replicate count 0) }
{
    memory[from..from + count].fill(0);
}
