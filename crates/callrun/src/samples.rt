//! How a sample ends.

ghost use Rattle.std.specs.Prelude.{◌≤◌, IfOk};
ghost use Rattle.callrun.specs.Endings.{HasCause, HasSampleCause, sample_names};
ghost use Rattle.callrun.specs.Told.{summary};

use crate::sample_files::{EDL_NAME, SCRIPT_NAME, SampleFiles};
use crate::{Ending, ending_of};
use call_engine::{RunFault, prepare};
use run_summary::summarize;
use sgx_base::Files;
use sqlite_items::Items;
use std::alloc::{AllocError, Global};

/// How a run of a sample's texts ends.
#[tactic(auto, using(crate::proofs::ToldLaws::summary_told))]
fn run_texts<F: Files>(alloc: Global, files: &mut F) -> Result<Ending, AllocError>
    ensures { IfOk result (HasCause summary sample_names (F.state files.old) (F.state files.new)) }
{
    let machine = match prepare(alloc, files, &[], EDL_NAME, SCRIPT_NAME, false) {
        Ok(machine) => machine,
        Err(fault) => return ending_of(alloc, SCRIPT_NAME, fault),
    };
    match summarize(alloc, &machine) {
        Ok(text) => Ok(Ending::Done(Items::from_slice(alloc, text.as_bytes())?)),
        Err(RunFault::Full(full)) => Ok(Ending::Cut(full)),
        Err(RunFault::Memory) => Err(AllocError),
    }
}

/// How a sample of so many calls ends.
pub(crate) fn run_sample(alloc: Global, calls: u32) -> Result<Ending, AllocError>
    requires { calls ≤ 8000 }
    ensures { IfOk result (HasSampleCause calls) }
{
    let mut files = SampleFiles::new(alloc, calls)?;
    run_texts(alloc, &mut files)
}
