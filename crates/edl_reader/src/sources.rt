//! From the name of an EDL file to all files that it stands on.

ghost use Rattle.std.specs.Prelude.{◌<◌, ◌^◌, length, IfOk, IfErr};
ghost use Rattle.sgx_base.specs.Outcome.{OrMemory};
ghost use Rattle.sgx_base.specs.Stores.{AreOnlyRead};
ghost use Rattle.edl_reader.specs.Sources.{GivesRoot, IsUngathered, AreParsed};

use crate::faults::{SourceFault, of_gathering};
use edl_grammar::Gathered;
use edl_imports::gather;
use sgx_base::{Files, Word};
use std::alloc::Global;

/// The EDL file of this name, and all that it imports by this search path. Each file is read once, and whole.
pub fn read_edl<F: Files>(
    alloc: Global,
    files: &mut F,
    paths: &[Word],
    edl: &str,
) -> Result<Gathered, SourceFault>
    ensures ok { IfOk result (GivesRoot (F.state files.old) paths.now edl.now) }
    ensures few { IfOk result (λ g. length g.files < 2 ^ 32) }
    ensures parsed { IfOk result AreParsed }
    ensures err { IfErr result (OrMemory SourceFault.Memory
        (IsUngathered paths.now edl.now (F.state files.old) (F.state files.new))) }
    ensures kept { AreOnlyRead (F.state files.old) (F.state files.new) }
{
    match gather(alloc, files, edl, paths) {
        Ok(gathered) => Ok(gathered),
        Err(fault) => Err(of_gathering(alloc, fault)),
    }
}
