//! The directories in which imported files are looked for.

ghost use Rattle.std.specs.Prelude.{◌≡◌, IfOk};
ghost use Rattle.command_line.specs.SearchPath.{directories};

use sgx_base::Word;
use sqlite_items::Items;
use std::alloc::{AllocError, Global};

/// The directories of a search path, which colons part.
pub fn directories_of(alloc: Global, path: &str) -> Result<Items<Word>, AllocError>
    ensures { IfOk result (λ paths. paths ≡ directories path.now) }
{
    let mut directories = Items::new(alloc);
    for directory in path.split(':') {
        directories.push(Word::new(alloc, directory)?)?;
    }
    Ok(directories)
}
