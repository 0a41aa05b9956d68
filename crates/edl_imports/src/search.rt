//! Which file an import's text stands for.

ghost use Rattle.std.specs.Prelude.{◌≡◌, ◌≤◌, ◌⊎◌, ◌++◌, ◌∷◌, [], List, ℕ, Some, None, length, codes, position};
ghost use Rattle.std.specs.Prelude.{IfOk, IfErr, IfSome, string_bytes};
ghost use Rattle.std.specs.Str.{bytes_eq};
ghost use Rattle.sgx_base.specs.Stores.{AreOnlyRead, Holds, Missed, max_file_size};
ghost use Rattle.edl_imports.specs.Causes.{IsReadStop, IsNamed};
ghost use Rattle.edl_imports.specs.ComeTo.{Asks};
ghost use Rattle.edl_imports.specs.Search as spec;
ghost use Rattle.edl_imports.specs.Search.{IsSmall};

use crate::faults::{ImportCause, Stop, fault_of};
use edl_grammar::SourceFile;
use sgx_base::{FileFault, Files, Name, Word};
use sqlite_items::Items;
use std::alloc::{AllocError, Global};

/// A file that was not read before.
#[derive(Debug, Drop)]
pub(crate) struct NewFile {
    pub name: Name,
    pub bytes: Items<u8>,
}

/// A file that was found: one that was read before, by its number, or a new one.
#[derive(Debug, Drop)]
pub(crate) enum Found {
    Known(usize),
    New(NewFile),
}

/// The number of the file of this name, where it was read before.
fn number_of(read: &[SourceFile], name: &[u8]) -> Option<usize>
    ensures { result ≡ spec.number_of read.now name.now }
{
    read.iter().position(|file| file.name.bytes() == name)
}

fn new_file(alloc: Global, name: &str, bytes: Vec<u8>) -> Result<NewFile, AllocError>
    ensures { IfOk result (λ f. f ≡ record { name = name.now; bytes = bytes.items }) }
{
    let name = Name::new(alloc, name.as_bytes())?;
    let bytes = Items::from_vec(bytes);
    Ok(NewFile { name, bytes })
}

/// The file of this name, where there is one, by a read.
pub(crate) fn read_new<F: Files>(
    alloc: Global,
    files: &mut F,
    name: &str,
) -> Result<Option<NewFile>, Stop>
    ensures some { IfOk result (λ found. IfSome found (λ f.
        Holds (F.state files.old) name.now (Some f.bytes) × (f.name ≡ name.now))) }
    ensures small { IfOk result (λ found. IfSome found (λ f. length f.bytes ≤ max_file_size)) }
    ensures none { IfOk result (λ found. found ≡ None
        → Holds (F.state files.old) name.now None × Missed (F.state files.old) (F.state files.new)) }
    ensures err { IfErr result (IsReadStop (F.state files.old) (F.state files.new)) }
    ensures named { IfErr result (IsNamed name.now) }
    ensures kept { AreOnlyRead (F.state files.old) (F.state files.new) }
{
    match files.read(alloc, name) {
        Ok(Some(bytes)) => {
            let found = new_file(alloc, name, bytes)?;
            Ok(Some(found))
        }
        Ok(None) => Ok(None),
        Err(FileFault::Failed) => Err(fault_of(alloc, name.as_bytes(), ImportCause::ReadFault)),
        Err(FileFault::Memory) => Err(Stop::Memory),
    }
}

/// The file of this name: one that was read before, with no read, or a new one.
fn file_of<F: Files>(
    alloc: Global,
    files: &mut F,
    read: &[SourceFile],
    name: &str,
) -> Result<Option<Found>, Stop>
    ensures ok { IfOk result
        (λ found. IfSome (F.state files.old).contents (λ store. spec.file_of store read.now name.now ≡ found)) }
    ensures small { IfOk result IsSmall }
    ensures none { IfOk result (λ found. found ≡ None → Missed (F.state files.old) (F.state files.new)) }
    ensures err { IfErr result (IsReadStop (F.state files.old) (F.state files.new)) }
    ensures asked { Asks (F.state files.old).contents (name.now ∷ []) result }
    ensures kept { AreOnlyRead (F.state files.old) (F.state files.new) }
{
    if let Some(number) = number_of(read, name.as_bytes()) {
        return Ok(Some(Found::Known(number)));
    }
    match read_new(alloc, files, name)? {
        Some(found) => Ok(Some(Found::New(found))),
        None => Ok(None),
    }
}

/// A text in a directory.
fn in_directory(alloc: Global, directory: &str, text: &str) -> Result<String, AllocError>
    ensures { IfOk result (λ name. string_bytes name ≡ directory.now ++ codes "/" ++ text.now) }
{
    let mut name = String::from_str(alloc, directory)?;
    name.push_str("/")?;
    name.push_str(text)?;
    Ok(name)
}

/// The file of this text in a directory, unless that is empty.
fn file_under<F: Files>(
    alloc: Global,
    files: &mut F,
    directory: &str,
    read: &[SourceFile],
    text: &str,
) -> Result<Option<Found>, Stop>
    ensures ok { IfOk result (λ found. IfSome (F.state files.old).contents
        (λ store. spec.first_file store read.now (spec.in_directories (directory.now ∷ []) text.now) ≡ found)) }
    ensures small { IfOk result IsSmall }
    ensures err { IfErr result (IsReadStop (F.state files.old) (F.state files.new)) }
    ensures asked { Asks (F.state files.old).contents (spec.in_directories (directory.now ∷ []) text.now) result }
    ensures kept { AreOnlyRead (F.state files.old) (F.state files.new) }
{
    if directory.is_empty() {
        return Ok(None);
    }
    let name = in_directory(alloc, directory, text)?;
    file_of(alloc, files, read, name.as_str())
}

/// The file of this text in the first of these directories that has it. An empty one is passed over.
fn file_in<F: Files>(
    alloc: Global,
    files: &mut F,
    paths: &[Word],
    read: &[SourceFile],
    text: &str,
) -> Result<Option<Found>, Stop>
    ensures ok { IfOk result (λ found. IfSome (F.state files.old).contents
        (λ store. spec.first_file store read.now (spec.in_directories paths.now text.now) ≡ found)) }
    ensures small { IfOk result IsSmall }
    ensures err { IfErr result (IsReadStop (F.state files.old) (F.state files.new)) }
    ensures asked { Asks (F.state files.old).contents (spec.in_directories paths.now text.now) result }
    ensures kept { AreOnlyRead (F.state files.old) (F.state files.new) }
{
    for path in paths {
        let found = file_under(alloc, files, path.text(), read, text)?;
        if found.is_some() {
            return Ok(found);
        }
    }
    Ok(None)
}

/// The file of an import's text: the first of its candidates that has one.
pub(crate) fn found_file<F: Files>(
    alloc: Global,
    files: &mut F,
    paths: &[Word],
    read: &[SourceFile],
    text: &[u8],
) -> Result<Option<Found>, Stop>
    ensures ok { IfOk result (λ found. IfSome (F.state files.old).contents
        (λ store. spec.first_file store read.now (spec.candidates paths.now text.now) ≡ found)) }
    ensures small { IfOk result IsSmall }
    ensures none { IfOk result (λ found. found ≡ None
        → Missed (F.state files.old) (F.state files.new) ⊎ (spec.candidates paths.now text.now ≡ [])) }
    ensures err { IfErr result (IsReadStop (F.state files.old) (F.state files.new)) }
    ensures asked { Asks (F.state files.old).contents (spec.candidates paths.now text.now) result }
    ensures kept { AreOnlyRead (F.state files.old) (F.state files.new) }
{
    let Ok(text) = str::from_utf8(text) else {
        return Ok(None);
    };
    let found = file_of(alloc, files, read, text)?;
    if found.is_some() {
        return Ok(found);
    }
    file_in(alloc, files, paths, read, text)
}
