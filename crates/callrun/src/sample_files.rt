//! The texts of a sample, which are no files.

ghost use Rattle.std.specs.Prelude.{◌≤◌, length};
ghost use Rattle.sgx_base.specs.Stores.{max_file_size};

use sample_script::sample;
use sgx_base::{FileFault, Files};
use std::alloc::{AllocError, Global};

/// The name of the EDL text.
pub(crate) const EDL_NAME: &str = "a.edl";

/// The name of the script.
pub(crate) const SCRIPT_NAME: &str = "s.txt";

/// A function with a buffer and its length.
const EDL_TEXT: &[u8] =
    b"enclave { trusted { public uint64_t f([in, size=len] const uint8_t* buf, size_t len); }; };";

/// The EDL text and the script of a sample, under their names. No read of them fails.
#[derive(Debug, Drop)]
pub(crate) struct SampleFiles {
    script: Vec<u8>,
    write_faults: u64,
    misses: u64,
    ghost short: { length script.items ≤ max_file_size },
}

impl SampleFiles {
    ghost use Rattle.std.specs.Prelude.{◌≡◌, IfOk, option_map};
    ghost use Rattle.callrun.specs.Samples.{texts, texts_state, sample_files};

    /// The texts of a sample of so many calls.
    pub(crate) fn new(alloc: Global, calls: u32) -> Result<SampleFiles, AllocError>
        requires { calls ≤ 8000 }
        ensures { IfOk result (λ files. texts_state files.script.items files.write_faults files.misses ≡ sample_files calls) }
    {
        let script = sample(alloc, calls)?;
        Ok(SampleFiles {
            script,
            write_faults: 0,
            misses: 0,
        })
    }

    /// The text of this name.
    fn text(&self, name: &str) -> Option<&[u8]>
        ensures { option_map (λ bytes. bytes.now) result ≡ texts self.now.script.items name.now }
    {
        if name == EDL_NAME {
            Some(EDL_TEXT)
        } else if name == SCRIPT_NAME {
            Some(self.script.as_slice())
        } else {
            None
        }
    }
}

impl Files for SampleFiles {
    ghost use Rattle.callrun.specs.Samples.{texts_state};

    ghost state = { λ s. texts_state s.script.items s.write_faults s.misses };

    fn read(&mut self, alloc: Global, name: &str) -> Result<Option<Vec<u8>>, FileFault> {
        let Some(text) = self.text(name) else {
            self.misses = self.misses.saturating_add(1);
            return Ok(None);
        };
        match Vec::from_slice(alloc, text) {
            Ok(copy) => Ok(Some(copy)),
            Err(_) => Err(FileFault::Memory),
        }
    }

    /// The texts are not written.
    fn write(&mut self, _alloc: Global, _name: &str, _bytes: &[u8]) -> Result<(), FileFault> {
        self.write_faults = self.write_faults.saturating_add(1);
        Err(FileFault::Failed)
    }
}
