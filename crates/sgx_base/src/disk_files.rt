//! Files on disk.
ghost use Rattle.std.specs.Prelude.{◌≡◌, ◌≤◌};
ghost use Rattle.sgx_base.specs.Counts.{raised};

use crate::files::{FileFault, Files, MAX_FILE_SIZE};
use std::alloc::Global;
use std::io::{ErrorKind, Read};
use std::{fs, io, rt};

/// Real files. The counts tell what failed; of the files themselves nothing is told.
#[derive(Drop)]
pub struct DiskFiles<R> {
    rt: R,
    read_faults: u64,
    write_faults: u64,
    misses: u64,
}

impl<R: rt::Files> DiskFiles<R> {
    /// The files that the runtime reaches, with no failure so far.
    pub fn new(rt: R) -> DiskFiles<R>
        ensures read_faults { result.read_faults ≡ 0 }
        ensures write_faults { result.write_faults ≡ 0 }
        ensures misses { result.misses ≡ 0 }
    {
        DiskFiles {
            rt,
            read_faults: 0,
            write_faults: 0,
            misses: 0,
        }
    }
}

/// Counts a failure of this kind, unless memory ran out.
fn fault_of(count: &mut u64, kind: ErrorKind) -> FileFault
    ensures failed { result ≡ FileFault.Failed → count.new ≡ raised count.old }
    ensures memory { result ≡ FileFault.Memory → count.new ≡ count.old }
    ensures kind { result ≡ FileFault.Memory → kind ≡ ErrorKind.OutOfMemory }
    ensures grows { count.old ≤ count.new }
{
    match kind {
        ErrorKind::OutOfMemory => FileFault::Memory,
        _ => {
            *count = count.saturating_add(1);
            FileFault::Failed
        }
    }
}

/// The file's bytes; of a longer file one byte more than may be read.
fn read_bytes<F: Read + Drop>(alloc: Global, file: F) -> io::Result<Vec<u8>> {
    let mut bytes = Vec::new(alloc);
    file.take(MAX_FILE_SIZE as u64 + 1).read_to_end(&mut bytes)?;
    Ok(bytes)
}

impl<R: rt::Files> Files for DiskFiles<R> {
    ghost use Rattle.sgx_base.specs.Stores.{untold};

    ghost state = { λ files. untold files.read_faults files.write_faults files.misses };

    fn read(&mut self, alloc: Global, name: &str) -> Result<Option<Vec<u8>>, FileFault> {
        let file = match fs::open(&self.rt, name) {
            Ok(file) => file,
            // a path through a plain file leads to no file
            Err(e) if matches!(e.kind(), ErrorKind::NotFound | ErrorKind::NotADirectory) => {
                self.misses = self.misses.saturating_add(1);
                return Ok(None);
            }
            Err(e) => return Err(fault_of(&mut self.read_faults, e.kind())),
        };
        match read_bytes(alloc, file) {
            Ok(bytes) if bytes.len() <= MAX_FILE_SIZE => Ok(Some(bytes)),
            Ok(_) => Err(fault_of(&mut self.read_faults, ErrorKind::FileTooLarge)),
            Err(e) => Err(fault_of(&mut self.read_faults, e.kind())),
        }
    }

    fn write(&mut self, _alloc: Global, name: &str, bytes: &[u8]) -> Result<(), FileFault> {
        match fs::write(&self.rt, name, bytes) {
            Ok(()) => Ok(()),
            Err(e) => Err(fault_of(&mut self.write_faults, e.kind())),
        }
    }
}
