//! The functions that an interface takes, in ordinal order.

ghost use Rattle.std.specs.Prelude.{◌≡◌, ℕ, List, IfOk, OnOk, ◌++◌, option_to_list, if◌then◌else◌, map, filter_map, option_map, position};
ghost use Rattle.std.specs.Str.{bytes_eq};
ghost use Rattle.edl_grammar.specs.Files.{trusted_of, untrusted_of};
ghost use Rattle.attr_terms.specs.Kinds.{told};
ghost use Rattle.attr_terms.specs.Places.{place_in, TellsPlaces};
ghost use Rattle.attr_terms.specs.Taken.{function_in, picked};

use crate::meanings::Meanings;
use crate::places::Places;
use edl_grammar::{EdlFile, FuncDecl, Gathered, Pick};
use std::alloc::{AllocError, Global};

/// A function, the number of its file, and whether it is trusted.
#[derive(Clone, Copy)]
pub struct Taken<'a> {
    pub file: u32,
    pub is_trusted: bool,
    pub decl: &'a FuncDecl,
}

/// The functions of a file's side.
fn side(tree: &EdlFile, is_trusted: bool) -> &[FuncDecl]
    ensures { result.now ≡ (if is_trusted then tree.now.trusted else tree.now.untrusted) }
{
    if is_trusted {
        tree.trusted.as_slice()
    } else {
        tree.untrusted.as_slice()
    }
}

/// The function of a pick, where there is one.
fn function_of<'a>(gathered: &'a Gathered, pick: Pick, is_trusted: bool) -> Option<Taken<'a>>
    ensures { option_map function_in result ≡ picked is_trusted gathered.now pick }
{
    let file = gathered.files.get(pick.file as usize)?;
    let decl = side(&file.tree, is_trusted).get(pick.index as usize)?;
    Some(Taken {
        file: pick.file,
        is_trusted,
        decl,
    })
}

/// Puts the function, where there is one, to the end.
fn put<'a>(functions: &mut Vec<Taken<'a>>, function: Option<Taken<'a>>) -> Result<(), AllocError>
    ensures { OnOk result (map function_in functions.new.items ≡ map function_in functions.old.items ++ option_to_list
        (option_map function_in function.entry)) }
{
    if let Some(function) = function {
        functions.push(function)?;
    }
    Ok(())
}

/// The functions of a side.
fn functions_of<'a>(
    alloc: Global,
    gathered: &'a Gathered,
    picks: &[Pick],
    is_trusted: bool,
) -> Result<Vec<Taken<'a>>, AllocError>
    ensures { IfOk result (λ v. map function_in v.items ≡ filter_map (picked is_trusted gathered.now) picks.now) }
{
    let mut functions = Vec::new(alloc);
    for pick in picks {
        put(&mut functions, function_of(gathered, *pick, is_trusted))?;
    }
    Ok(functions)
}

/// The places of the names of functions.
fn function_places<'a>(alloc: Global, functions: &[Taken<'a>]) -> Result<Places<'a>, AllocError>
    ensures { IfOk result (λ places. TellsPlaces places (map (λ f. f.decl.now.name) functions.now)) }
{
    let mut places = Places::new(alloc);
    for (place, f) in functions.iter().enumerate() {
        places.add(place, f.decl.name.bytes())?;
    }
    Ok(places)
}

/// The functions of both sides, the ordinals of the trusted ones by name, and what types mean.
#[derive(Drop)]
pub struct Functions<'a> {
    pub meanings: Meanings<'a>,
    pub trusted: Vec<Taken<'a>>,
    pub untrusted: Vec<Taken<'a>>,
    ordinals: Places<'a>,
    ghost trusted_side: { map function_in trusted.items ≡ trusted_of meanings.gathered.now },
    ghost untrusted_side: { map function_in untrusted.items ≡ untrusted_of meanings.gathered.now },
    ghost by_name: { (q : List ℕ)
        → told ordinals.first q ≡ place_in q (map (λ f. f.decl.name) (trusted_of meanings.gathered.now)) },
}

impl<'a> Functions<'a> {
    /// The functions that an interface takes from these files.
    pub fn new(alloc: Global, gathered: &'a Gathered) -> Result<Functions<'a>, AllocError>
        ensures { IfOk result (λ f. f.meanings.gathered.now ≡ gathered.now) }
    {
        let trusted = functions_of(alloc, gathered, gathered.trusted.as_slice(), true)?;
        let untrusted = functions_of(alloc, gathered, gathered.untrusted.as_slice(), false)?;
        let ordinals = function_places(alloc, &trusted)?;
        let meanings = Meanings::new(alloc, gathered)?;
        Ok(Functions {
            meanings,
            trusted,
            untrusted,
            ordinals,
        })
    }

    /// The ordinal of the first trusted function of this name.
    pub fn ordinal(&self, name: &[u8]) -> Option<usize>
        ensures { result ≡ position (λ h. bytes_eq h.decl.name name.now) (trusted_of self.now.meanings.gathered.now) }
    {
        self.ordinals.place(name)
    }
}
