//! The first broken rule of an interface.

ghost use Rattle.std.specs.Prelude.{◌≡◌, ◌<◌, ◌^◌, ◌++◌, IfOk, length, map, slice_get};
ghost use Rattle.std.specs.List.{flat_map, list_any};
ghost use Rattle.edl_grammar.specs.declared.Gathered.{Gathered};
ghost use Rattle.edl_grammar.specs.Files.{types_of, trusted_of, untrusted_of};
ghost use Rattle.attr_terms.specs.Accepted.{size_of};
ghost use Rattle.attr_terms.specs.Rules as rules;
ghost use Rattle.attr_terms.specs.Taken.{function_in};

use crate::function_rules::broken_functions;
use crate::type_rules::broken_type;
use attr_terms::Broken;
use attr_terms::functions::{Functions, Taken};
use edl_grammar::{Gathered, SourceFile};
use edl_layout::Layouts;
use sqlite_items::at;
use std::alloc::{AllocError, Global};

/// The most functions of a side.
const MAX_FUNCTIONS: usize = 1024;

/// The first broken rule of the types of all files.
fn broken_types(alloc: Global, files: &[SourceFile]) -> Result<Option<Broken>, AllocError>
    requires few { length files.now < 2 ^ 32 }
    ensures { IfOk result (λ b. (g : Gathered) → g.files ≡ files.now
        → b ≡ slice_get (flat_map (λ t. rules.broken_in t.file (rules.type_rows g t)) (types_of g)) 0) }
{
    for (number, file) in files.iter().enumerate() {
        let broken = broken_type(alloc, number as u32, &file.tree)?;
        if broken.is_some() {
            return Ok(broken);
        }
    }
    Ok(None)
}

/// The rule of this code, broken at a function's name.
fn at_function(code: u8, f: &Taken<'_>) -> Broken
    ensures { result ≡ record { file = f.now.file; token = f.now.decl.now.token; code = code } }
{
    Broken {
        file: f.file,
        token: f.decl.token,
        code,
    }
}

fn has_public(trusted: &[Taken<'_>]) -> bool
    ensures { result ≡ list_any (λ f. f.decl.now.is_public) trusted.now }
{
    trusted.iter().any(|f| f.decl.is_public)
}

/// The first trusted function, where there is one and none is public.
fn without_public(trusted: &[Taken<'_>]) -> Option<Broken>
    ensures { result ≡ slice_get (rules.without_public (map function_in trusted.now)) 0 }
{
    if has_public(trusted) {
        return None;
    }
    match at(trusted, 0) {
        Some(f) => Some(at_function(33, f)),
        None => None,
    }
}

/// The function behind the most that a side may have.
fn beyond(functions: &[Taken<'_>]) -> Option<Broken>
    ensures { result ≡ slice_get (rules.beyond (map function_in functions.now)) 0 }
{
    match at(functions, MAX_FUNCTIONS) {
        Some(f) => Some(at_function(40, f)),
        None => None,
    }
}

/// The first broken rule of a whole side.
fn broken_side(functions: &Functions<'_>) -> Option<Broken>
    ensures { result
        ≡ slice_get (rules.without_public (trusted_of functions.now.meanings.gathered.now) ++ rules.beyond
        (trusted_of functions.now.meanings.gathered.now) ++ rules.beyond
        (untrusted_of functions.now.meanings.gathered.now)) 0 }
{
    without_public(&functions.trusted)
        .or(beyond(&functions.trusted))
        .or(beyond(&functions.untrusted))
}

/// The first broken rule, where one is broken. What the runner does not take is looked at where `runner` holds.
pub fn first_broken(
    alloc: Global,
    gathered: &Gathered,
    layouts: &Layouts,
    runner: bool,
) -> Result<Option<Broken>, AllocError>
    requires few { length gathered.now.files < 2 ^ 32 }
    ensures { IfOk result (λ b. b ≡ slice_get (rules.broken gathered.now runner (size_of gathered.now layouts.now)) 0) }
{
    let in_types = broken_types(alloc, gathered.files.as_slice())?;
    if in_types.is_some() {
        return Ok(in_types);
    }
    let functions = Functions::new(alloc, gathered)?;
    let in_functions = broken_functions(alloc, &functions, layouts, runner)?;
    Ok(in_functions.or(broken_side(&functions)))
}
