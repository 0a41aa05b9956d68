//! Files in memory, for tests and for runs that must not touch the disk.
ghost use Rattle.std.specs.Prelude.{◌≡◌, ◌≤◌, ◌↔◌, IsTrue, Ok, Err, OnOk, IfOk, OnErr, Some, List, [], ◌++◌, ◌∷◌, option_map, position, find};
ghost use Rattle.std.specs.Option.{option_copied};
ghost use Rattle.std.specs.Str.{bytes_eq};
ghost use Rattle.sgx_base.specs.Counts.{raised};
ghost use Rattle.sgx_base.specs.Stores.{AreOnlyRead, IsOnlyWritten, IsWriteOf};
ghost use Rattle.sgx_base.specs.MemStores.{stored, with_file, empty_store, with_bytes, called, after_failed_write, state_of, is_failing, read_answer, after_answer};

use crate::files::{FileFault, Files, MAX_FILE_SIZE};
use sqlite_items::Items;
use std::alloc::{AllocError, Global};
use std::marker::Model;

/// A file of the store.
#[derive(Debug, Drop)]
struct StoredFile {
    name: Items<u8>,
    bytes: Items<u8>,
}

impl StoredFile {
    fn new(alloc: Global, name: &str, bytes: &[u8]) -> Result<StoredFile, AllocError>
        ensures { IfOk result (λ file. file ≡ record { name = name.now; bytes = bytes.now }) }
    {
        let name = Items::from_slice(alloc, name.as_bytes())?;
        let bytes = Items::from_slice(alloc, bytes)?;
        Ok(StoredFile { name, bytes })
    }
}

/// Files in memory, of which chosen calls fail.
#[derive(Debug, Drop)]
pub struct MemFiles {
    alloc: Global,
    files: Vec<StoredFile>,
    failing: Vec<u32>,
    calls: u64,
    read_faults: u64,
    write_faults: u64,
    misses: u64,
}

impl Model for MemFiles {
    ghost use Rattle.sgx_base.specs.MemStores.{MemStore};

    ghost Value = { MemStore };

    ghost view = { λ s. record {
      files = s.files.items;
      failing = s.failing.items;
      calls = s.calls;
      read_faults = s.read_faults;
      write_faults = s.write_faults;
      misses = s.misses;
    } };
}

/// Where the file of this name stands.
fn position_of(files: &[StoredFile], name: &[u8]) -> Option<usize>
    ensures { result ≡ position (λ file. bytes_eq file.name name.now) files.now }
{
    files.iter().position(|file| file.name.as_slice() == name)
}

/// Writes a file over the one of its name, or at the end.
#[tactic(auto, using(crate::proofs::StoredFiles::with_file_at))]
fn write_file(files: &mut Vec<StoredFile>, file: StoredFile) -> Result<(), AllocError>
    ensures ok { OnOk result (files.new.items ≡ with_file file files.old.items) }
    ensures err { OnErr result (files.new.items ≡ files.old.items) }
{
    match position_of(files, file.name.as_slice()) {
        Some(at) => {
            files[at] = file;
        }
        None => files.push(file)?,
    }
    Ok(())
}

/// The file of this name.
fn find_file<'a>(files: &'a [StoredFile], name: &[u8]) -> Option<&'a StoredFile>
    ensures { option_copied result ≡ find (λ file. bytes_eq file.name name.now) files.now }
{
    files.iter().find(|file| file.name.as_slice() == name)
}

impl MemFiles {
    /// An empty store. The calls with these numbers fail; reads and writes are counted together, from 1.
    pub fn new(alloc: Global, failing: &[u32]) -> Result<MemFiles, AllocError>
        ensures { IfOk result (λ store. store ≡ empty_store failing.now) }
    {
        Ok(MemFiles {
            alloc,
            files: Vec::new(alloc),
            failing: Vec::from_slice(alloc, failing)?,
            calls: 0,
            read_faults: 0,
            write_faults: 0,
            misses: 0,
        })
    }

    /// Sets a file's bytes. This is no counted call, and never one that fails by its number.
    pub fn put(&mut self, name: &str, bytes: &[u8]) -> Result<(), AllocError>
        ensures ok { OnOk result (self.new ≡ with_bytes name.now bytes.now self.old) }
        ensures err { OnErr result (self.new ≡ self.old) }
    {
        let file = StoredFile::new(self.alloc, name, bytes)?;
        write_file(&mut self.files, file)
    }

    /// The bytes of a file, where there is one of this name. This is no counted call.
    pub fn get(&self, name: &str) -> Option<&[u8]>
        ensures { option_map (λ bytes. bytes.now) result ≡ stored self.now.files name.now }
    {
        let file = find_file(&self.files, name.as_bytes())?;
        Some(file.bytes.as_slice())
    }

    /// Counts a call, and says whether it is one of those that fail.
    fn count_call(&mut self) -> bool
        ensures fails { result ≡ is_failing self.old.failing self.old.calls }
        ensures counted { self.new ≡ called self.old }
    {
        let number = self.calls.saturating_add(1);
        self.calls = number;
        self.failing
            .iter()
            .any(|failing| u64::from(*failing) == number)
    }
}

impl Files for MemFiles {
    ghost state = { state_of };

    fn read(&mut self, alloc: Global, name: &str) -> Result<Option<Vec<u8>>, FileFault>
        ensures ok { IfOk result (λ file. read_answer name.now self.old ≡ Ok (option_map (λ v. v.items) file)) }
        ensures failed { (result ≡ Err FileFault.Failed) ↔ (read_answer name.now self.old ≡ Err FileFault.Failed) }
        ensures counted { self.new ≡ after_answer (read_answer name.now self.old) self.old }
        ensures kept { AreOnlyRead (state_of self.old) (state_of self.new) }
    {
        if self.count_call() {
            self.read_faults = self.read_faults.saturating_add(1);
            return Err(FileFault::Failed);
        }
        let Some(bytes) = self.get(name) else {
            self.misses = self.misses.saturating_add(1);
            return Ok(None);
        };
        if bytes.len() > MAX_FILE_SIZE {
            self.read_faults = self.read_faults.saturating_add(1);
            return Err(FileFault::Failed);
        }
        match Vec::from_slice(alloc, bytes) {
            Ok(copy) => Ok(Some(copy)),
            Err(_) => Err(FileFault::Memory),
        }
    }

    #[tactic(auto, using(crate::proofs::StoredFiles::writes, crate::proofs::StoredFiles::stored_others))]
    fn write(&mut self, _alloc: Global, name: &str, bytes: &[u8]) -> Result<(), FileFault>
        ensures fails { (result ≡ Err FileFault.Failed) ↔ IsTrue (is_failing self.old.failing self.old.calls) }
        ensures ok { OnOk result (self.new ≡ called (with_bytes name.now bytes.now self.old)) }
        ensures failed { result ≡ Err FileFault.Failed → self.new ≡ after_failed_write self.old }
        ensures memory { result ≡ Err FileFault.Memory → self.new ≡ called self.old }
        ensures kept { IsOnlyWritten name.now (state_of self.old) (state_of self.new) }
        ensures told { IsWriteOf name.now bytes.now result (state_of self.old) (state_of self.new) }
    {
        if self.count_call() {
            self.write_faults = self.write_faults.saturating_add(1);
            return Err(FileFault::Failed);
        }
        match self.put(name, bytes) {
            Ok(()) => Ok(()),
            Err(_) => Err(FileFault::Memory),
        }
    }
}
