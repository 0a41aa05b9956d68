//! Reads an interface file and all that it imports, each file once, and puts the declarations together.
#![tactic(auto)]

ghost use Rattle.std.specs.Prelude.{◌≡◌, ◌≤◌, [], All, length, IfOk, IfErr, IfSome, Ok};
ghost use Rattle.sgx_base.specs.Stores.{AreOnlyRead};
ghost use Rattle.edl_imports.specs.Apart.{TypesAreApart};
ghost use Rattle.edl_imports.specs.Causes.{IsFault};
ghost use Rattle.edl_imports.specs.ComeTo.{IsNameOf, IsReached};
ghost use Rattle.edl_imports.specs.Examples.{Examples};
ghost use Rattle.edl_imports.specs.Gathering.{gathering};
ghost use Rattle.edl_imports.specs.Laws.{IsAlone, OwnImportIsCycle, CycleIsRefused, EachIsReached};
ghost use Rattle.edl_imports.specs.Laws.{EachImportIsGathered, NoneLeadsToItself};
ghost use Rattle.edl_imports.specs.Laws.{EachIsTakenOnce, FirstPlaceStays, TypesStandApart};

mod by_name;
mod conflicts;
mod faults;
mod gathering;
mod offers;
mod search;

use edl_grammar::Gathered;
use faults::Stop;
pub use faults::{ImportCause, ImportFault};
use gathering::gather_root;
use sgx_base::{Files, Word};
use sqlite_items::Items;
use std::alloc::Global;

fn memory(alloc: Global) -> ImportFault
    ensures { result ≡ record { name = []; cause = ImportCause.Memory } }
{
    ImportFault {
        name: Items::new(alloc),
        cause: ImportCause::Memory,
    }
}

/// The root file and all that it imports, or the first fault. Each file is read once.
pub fn gather<F: Files>(
    alloc: Global,
    files: &mut F,
    root: &str,
    paths: &[Word],
) -> Result<Gathered, ImportFault>
    ensures ok { IfOk result
        (λ g. IfSome (F.state files.old).contents (λ store. gathering store paths.now root.now ≡ Ok g)) }
    ensures err { IfErr result
        (IsFault paths.now (F.state files.old) (F.state files.new) (λ store. gathering store paths.now root.now)) }
    ensures few { IfOk result (λ g. length g.files ≤ 64) }
    ensures read { IfOk result
        (λ g. All (IsReached (F.state files.old).contents paths.now root.now) g.files) }
    ensures named { IfErr result
        (λ e. IsNameOf (F.state files.old).contents paths.now root.now e.cause e.name) }
    ensures apart { IfOk result TypesAreApart }
    ensures kept { AreOnlyRead (F.state files.old) (F.state files.new) }
{
    match gather_root(alloc, files, root, paths) {
        Ok(gathered) => Ok(gathered),
        Err(Stop::Fault(fault)) => Err(fault),
        Err(Stop::Memory) => Err(memory(alloc)),
    }
}

/// Short files that import one another, and what is gathered of them.
pub fn examples()
    ensures { Examples }
{}

/// Without imports it is the root alone, with all its functions.
pub fn alone_law()
    ensures { IsAlone }
{}

/// A root that imports itself first closes a cycle, whatever other files there are.
pub fn own_import_law()
    ensures { OwnImportIsCycle }
{}

/// Every file that is gathered is reached from the root by imports.
pub fn reached_law()
    ensures { EachIsReached }
{}

/// A cycle of imports is refused at the import that closes it, whatever its length.
pub fn cycle_law()
    ensures { CycleIsRefused }
{}

/// Each import of a gathered file finds a gathered file, and none of these lies on a cycle of imports.
pub fn finish_law()
    ensures gathered { EachImportIsGathered }
    ensures apart { NoneLeadsToItself }
{}

/// Each function is taken once, and keeps its first place.
pub fn taken_law()
    ensures once { EachIsTakenOnce }
    ensures place { FirstPlaceStays }
{}

/// Types of one name stand in one file.
pub fn apart_law()
    ensures { TypesStandApart }
{}
