//! Names that two files declare.

ghost use Rattle.std.specs.Prelude.{◌≡◌, ◌≤◌, ◌<◌, ◌^◌, ◌++◌, OnOk, IfOk, List, length, filter_map, option_to_list, None};
ghost use Rattle.edl_grammar.specs.Files as grammar;
ghost use Rattle.edl_imports.specs.Conflicts as spec;
ghost use Rattle.edl_imports.specs.Tables as tables;
ghost use Rattle.edl_imports.specs.Tables.{TellsFiles};
ghost use Rattle.edl_imports.specs.declared.conflicts.Known.{Known as AKnown};

use crate::offers::picked;
use edl_grammar::{Gathered, Pick, SourceFile, TypeDecl};
use indexmap::IndexMap;
use sgx_base::Name;
use sqlite_items::Items;
use std::alloc::{AllocError, Global};

/// A token of a file.
#[derive(Clone, Copy, Debug)]
pub(crate) struct Place {
    pub file: u32,
    pub token: u32,
}

/// A declared name, and where it stands.
#[derive(Debug, Drop)]
pub(crate) struct Known {
    pub at: Place,
    pub name: Name,
}

impl Known {
    fn new(alloc: Global, file: u32, token: u32, name: &[u8]) -> Result<Known, AllocError>
        ensures { IfOk result (λ k. k ≡ record { at = record { file = file; token = token }; name = name.now }) }
    {
        let name = Name::new(alloc, name)?;
        let at = Place { file, token };
        Ok(Known { at, name })
    }
}

fn type_known(alloc: Global, file: u32, decl: &TypeDecl) -> Result<Option<Known>, AllocError>
    ensures { IfOk result (λ known. known ≡ spec.type_known file decl.now) }
{
    let (token, name) = match decl {
        TypeDecl::Enumeration { name: None, .. } => return Ok(None),
        TypeDecl::Enumeration {
            token,
            name: Some(name),
            ..
        } => (*token, name),
        TypeDecl::Structure { token, name, .. } => (*token, name),
        TypeDecl::Union { token, name, .. } => (*token, name),
    };
    let known = Known::new(alloc, file, token, name.bytes())?;
    Ok(Some(known))
}

/// Puts what is declared, if it has a name, to the end.
fn put(known: &mut Items<Known>, more: Option<Known>) -> Result<(), AllocError>
    ensures { OnOk result (known.new ≡ known.old ++ option_to_list more) }
{
    if let Some(more) = more {
        known.push(more)?;
    }
    Ok(())
}

/// Puts the names of a file's types to the end.
fn put_types(
    alloc: Global,
    known: &mut Items<Known>,
    file: u32,
    types: &[TypeDecl],
) -> Result<(), AllocError>
    ensures { OnOk result (known.new ≡ known.old ++ filter_map (spec.type_known file) types.now) }
{
    for decl in types {
        let more = type_known(alloc, file, decl)?;
        put(known, more)?;
    }
    Ok(())
}

fn types_known(alloc: Global, files: &[SourceFile]) -> Result<Items<Known>, AllocError>
    requires { length files.now ≤ 64 }
    ensures { IfOk result (λ known. known ≡ spec.types_from 0 files.now) }
{
    let mut known = Items::new(alloc);
    for (number, file) in files.iter().enumerate() {
        put_types(alloc, &mut known, number as u32, file.tree.types.as_slice())?;
    }
    Ok(known)
}

fn function_known(
    alloc: Global,
    files: &[SourceFile],
    is_trusted: bool,
    pick: Pick,
) -> Result<Option<Known>, AllocError>
    ensures { IfOk result (λ known. known ≡ spec.function_known files.now is_trusted pick) }
{
    let Some(function) = picked(files, is_trusted, pick) else {
        return Ok(None);
    };
    let known = Known::new(alloc, pick.file, function.token, function.name.bytes())?;
    Ok(Some(known))
}

/// Puts the names of the taken functions of a side to the end.
fn put_functions(
    alloc: Global,
    known: &mut Items<Known>,
    files: &[SourceFile],
    is_trusted: bool,
    picks: &[Pick],
) -> Result<(), AllocError>
    ensures { OnOk result (known.new ≡ known.old ++ spec.functions_of files.now is_trusted picks.now) }
{
    for pick in picks {
        let more = function_known(alloc, files, is_trusted, *pick)?;
        put(known, more)?;
    }
    Ok(())
}

fn functions_known(alloc: Global, gathered: &Gathered) -> Result<Items<Known>, AllocError>
    ensures { IfOk result (λ known. known ≡ spec.functions_known gathered.now) }
{
    let files = gathered.files.as_slice();
    let mut known = Items::new(alloc);
    put_functions(alloc, &mut known, files, true, gathered.trusted.as_slice())?;
    put_functions(
        alloc,
        &mut known,
        files,
        false,
        gathered.untrusted.as_slice(),
    )?;
    Ok(known)
}

/// The earlier of two files, where there are two.
fn earlier_file(first: Option<u32>, file: u32) -> u32
    ensures { result ≡ tables.earlier_file first file }
{
    match first {
        Some(first) => first.min(file),
        None => file,
    }
}

/// The first file of each name, by table.
fn first_files<'a>(alloc: Global, all: &'a [Known]) -> Result<IndexMap<&'a [u8], u32>, AllocError>
    ensures { IfOk result (λ table. TellsFiles table all.now) }
{
    let mut table = IndexMap::new(alloc);
    for known in all {
        let name = known.name.bytes();
        let first = table.get(name).copied();
        table.insert(name, earlier_file(first, known.at.file))?;
    }
    Ok(table)
}

fn is_before_file(first: Option<u32>, file: u32) -> bool
    ensures { result ≡ tables.is_before_file first file }
{
    match first {
        Some(first) => first < file,
        None => false,
    }
}

/// Whether one of the same name stands in a file that was read before.
fn is_second(table: &IndexMap<&[u8], u32>, known: &Known) -> bool
    ensures { (all : List AKnown) → TellsFiles table.now all → result ≡ spec.is_second all known.now }
{
    is_before_file(table.get(known.name.bytes()).copied(), known.at.file)
}

fn is_before(one: Place, other: Place) -> bool
    ensures { result ≡ spec.is_before one other }
{
    one.file < other.file || (one.file == other.file && one.token < other.token)
}

fn earlier(best: Option<Place>, place: Place) -> Place
    ensures { result ≡ spec.earlier best place }
{
    match best {
        Some(best) => { if is_before(place, best) { place } else { best } }
        None => place,
    }
}

/// The first place among those that name a second time, and this one.
fn first_second(
    alloc: Global,
    best: Option<Place>,
    all: &[Known],
) -> Result<Option<Place>, AllocError>
    ensures { IfOk result (λ first. first ≡ spec.first_second all.now best all.now) }
{
    let table = first_files(alloc, all)?;
    let mut first = best;
    for known in all {
        if is_second(&table, known) {
            first = Some(earlier(first, known.at));
        }
    }
    Ok(first)
}

/// The first declaration whose name one of its kind has in a file before.
pub(crate) fn first_conflict(
    alloc: Global,
    gathered: &Gathered,
) -> Result<Option<Place>, AllocError>
    requires { length gathered.now.files ≤ 64 }
    ensures { IfOk result (λ place. place ≡ spec.first_conflict gathered.now) }
{
    let types = types_known(alloc, gathered.files.as_slice())?;
    let functions = functions_known(alloc, gathered)?;
    let first = first_second(alloc, None, types.as_slice())?;
    first_second(alloc, first, functions.as_slice())
}
