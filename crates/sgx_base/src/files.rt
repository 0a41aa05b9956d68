//! Files by their names, and what may go wrong with them.

use std::alloc::Global;
use thiserror::Error;

/// The most bytes of a file that is read: 128 MiB.
pub(crate) const MAX_FILE_SIZE: usize = 134_217_728;

/// Why a file was not read or written.
#[derive(Clone, Copy, Debug, PartialEq, Eq, Error)]
pub enum FileFault {
    #[error("a file could not be read or written")]
    Failed,
    #[error("out of memory")]
    Memory,
}

/// Files that are read and written whole.
///
/// Their state tells the bytes of each file, or nothing, and counts what went wrong. The counts never fall.
pub trait Files {
    ghost use Rattle.std.specs.Prelude.{◌≡◌, OnOk};
    ghost use Rattle.sgx_base.specs.Stores.{FilesState, AreOnlyRead, IsReadOf, IsOnlyWritten, IsWriteOf};

    ghost state: { Self → FilesState };

    /// The bytes of a file, or None where there is no file of that name.
    fn read(&mut self, alloc: Global, name: &str) -> Result<Option<Vec<u8>>, FileFault>
        ensures kept { AreOnlyRead (state self.old) (state self.new) }
        ensures told { IsReadOf name.now result (state self.old) (state self.new) };

    /// Writes a file whole. After an Err nothing is told of this file; all others stay. A write that is done counts as no
    /// failed one.
    fn write(&mut self, alloc: Global, name: &str, bytes: &[u8]) -> Result<(), FileFault>
        ensures kept { IsOnlyWritten name.now (state self.old) (state self.new) }
        ensures told { IsWriteOf name.now bytes.now result (state self.old) (state self.new) }
        ensures counted { OnOk result ((state self.new).write_faults ≡ (state self.old).write_faults) };
}
