//! The rules of functions.

ghost use Rattle.std.specs.Prelude.{◌≡◌, ℕ, List, ◌++◌, IfOk, not, ◌&&◌, is_some, map, find, option_map, slice_get, nat_lt, length};
ghost use Rattle.std.specs.List.{flat_map, list_any};
ghost use Rattle.std.specs.Str.{bytes_eq};
ghost use Rattle.edl_grammar.specs.declared.Gathered.{Gathered};
ghost use Rattle.edl_grammar.specs.Files.{trusted_of, untrusted_of};
ghost use Rattle.attr_terms.specs.Accepted.{size_of as size_in};
ghost use Rattle.broken_rules.specs.Breaches.{first_breach};
ghost use Rattle.attr_terms.specs.Rules as rules;
ghost use Rattle.attr_terms.specs.Taken.{function_in};
ghost use Rattle.broken_rules.specs.Names.{TellEach};

use crate::names::{Names, function_names};
use crate::param_rules::params_breach;
use crate::rows::{Breach, broken_at, row, row_at};
use attr_terms::Broken;
use attr_terms::functions::{Functions, Taken};
use attr_terms::meanings::Meanings;
use attr_terms::sizes::size_of;
use edl_grammar::{FuncDecl, NameAt, SourceFile, Written};
use edl_layout::Layouts;
use sqlite_items::at;
use std::alloc::{AllocError, Global};

/// The most parameters of a function.
const MAX_PARAMS: usize = 64;

/// The names of the functions of each file.
fn names_by_file<'a>(alloc: Global, files: &'a [SourceFile]) -> Result<Vec<Names<'a>>, AllocError>
    ensures { IfOk result (λ v. TellEach v.items files.now) }
{
    let mut names = Vec::new(alloc);
    for file in files {
        let table = function_names(alloc, &file.tree)?;
        names.push(table)?;
    }
    Ok(names)
}

/// Whether the function's name stands at an earlier token of its file too.
fn is_second_function(names: &[Names<'_>], f: &Taken<'_>) -> bool
    ensures { (g : Gathered) → TellEach names.now g.files
        → result ≡ rules.is_second (rules.tree_names rules.function_names g f.now.file)
        (rules.function_name f.now.decl.now) }
{
    match at(names, f.file as usize) {
        Some(names) => names.is_second(f.decl.token, f.decl.name.bytes()),
        None => false,
    }
}

/// Whether no trusted function has the name.
fn is_untrusted(functions: &Functions<'_>, name: &NameAt) -> bool
    ensures { result
        ≡ not (list_any (λ h. bytes_eq h.decl.name name.now.name) (trusted_of functions.now.meanings.gathered.now)) }
{
    functions.ordinal(name.name.bytes()).is_none()
}

/// The first name among these that no trusted function has.
fn unknown_among(functions: &Functions<'_>, names: &[NameAt]) -> Option<u32>
    ensures { result
        ≡ option_map (λ x. x.token)
        (find (λ x. not (list_any (λ h. bytes_eq h.decl.name x.name)
        (trusted_of functions.now.meanings.gathered.now))) names.now) }
{
    names
        .iter()
        .find(|x| is_untrusted(functions, x))
        .map(|x| x.token)
}

fn unknown_allowed(functions: &Functions<'_>, f: &FuncDecl) -> Option<u32>
    ensures { result ≡ slice_get (rules.unknown_allowed (trusted_of functions.now.meanings.gathered.now) f.now) 0 }
{
    match &f.allow {
        Some(names) => unknown_among(functions, names.as_slice()),
        None => None,
    }
}

fn is_private_switchless(f: &Taken<'_>) -> bool
    ensures { result ≡ (f.now.is_trusted && f.now.decl.now.switchless && not f.now.decl.now.is_public) }
{
    f.is_trusted && f.decl.switchless && !f.decl.is_public
}

fn is_allowing_switchless(f: &Taken<'_>) -> bool
    ensures { result ≡ (not f.now.is_trusted && f.now.decl.now.switchless && is_some f.now.decl.now.allow) }
{
    !f.is_trusted && f.decl.switchless && f.decl.allow.is_some()
}

/// Whether it is a structure, a union or above 8 bytes.
fn is_large_result(meanings: &Meanings<'_>, layouts: &Layouts, w: &Written) -> bool
    ensures { result ≡ rules.is_large_result meanings.now.gathered.now (size_in meanings.now.gathered.now layouts.now)
        w.now }
{
    w.stars == 0 && (meanings.is_aggregate(&w.base) || size_of(meanings, layouts, w) > 8)
}

/// Whether the runner takes no such result.
fn is_refused_result(
    functions: &Functions<'_>,
    layouts: &Layouts,
    runner: bool,
    f: &FuncDecl,
) -> bool
    ensures { result
        ≡ (runner && rules.is_large_result functions.now.meanings.gathered.now
        (size_in functions.now.meanings.gathered.now layouts.now) f.now.result) }
{
    runner && is_large_result(&functions.meanings, layouts, &f.result)
}

/// Whether it has more parameters than a function may have.
fn has_many_params(f: &FuncDecl) -> bool
    ensures { result ≡ nat_lt rules.max_params (length f.now.params) }
{
    f.params.len() > MAX_PARAMS
}

/// The first broken rule of the function itself, whose name stands before it or not.
fn own_breach(
    functions: &Functions<'_>,
    layouts: &Layouts,
    runner: bool,
    is_second: bool,
    f: &Taken<'_>,
) -> Option<Breach>
    ensures { is_second
        ≡ rules.is_second (rules.tree_names rules.function_names functions.now.meanings.gathered.now f.now.file)
        (rules.function_name f.now.decl.now)
        → result ≡ first_breach (rules.own_rows functions.now.meanings.gathered.now runner
        (size_in functions.now.meanings.gathered.now layouts.now) (function_in f.now)) }
{
    let token = f.decl.token;
    row(31, is_second, token)
        .or(row_at(32, unknown_allowed(functions, f.decl)))
        .or(row(34, is_private_switchless(f), token))
        .or(row(35, is_allowing_switchless(f), token))
        .or(row(
            38,
            is_refused_result(functions, layouts, runner, f.decl),
            token,
        ))
        .or(row(39, has_many_params(f.decl), token))
}

/// The first broken rule of a function, and of its parameters behind it.
fn function_breach(
    alloc: Global,
    functions: &Functions<'_>,
    layouts: &Layouts,
    runner: bool,
    names: &[Names<'_>],
    f: &Taken<'_>,
) -> Result<Option<Breach>, AllocError>
    ensures { IfOk result (λ b. TellEach names.now functions.now.meanings.gathered.now.files
        → b ≡ first_breach (rules.function_rows functions.now.meanings.gathered.now runner
        (size_in functions.now.meanings.gathered.now layouts.now) (function_in f.now))) }
{
    let own = own_breach(functions, layouts, runner, is_second_function(names, f), f);
    if own.is_some() {
        return Ok(own);
    }
    let of_params = params_breach(alloc, &functions.meanings, runner, f.decl.params.as_slice())?;
    Ok(of_params)
}

fn broken_function(
    alloc: Global,
    functions: &Functions<'_>,
    layouts: &Layouts,
    runner: bool,
    names: &[Names<'_>],
    f: &Taken<'_>,
) -> Result<Option<Broken>, AllocError>
    ensures { IfOk result (λ b. TellEach names.now functions.now.meanings.gathered.now.files
        → b ≡ slice_get (rules.broken_in f.now.file (rules.function_rows functions.now.meanings.gathered.now runner
        (size_in functions.now.meanings.gathered.now layouts.now) (function_in f.now))) 0) }
{
    let breach = function_breach(alloc, functions, layouts, runner, names, f)?;
    Ok(broken_at(f.file, breach))
}

/// The first broken rule among functions.
fn broken_among(
    alloc: Global,
    functions: &Functions<'_>,
    layouts: &Layouts,
    runner: bool,
    names: &[Names<'_>],
    list: &[Taken<'_>],
) -> Result<Option<Broken>, AllocError>
    ensures { IfOk result (λ b. TellEach names.now functions.now.meanings.gathered.now.files
        → b ≡ slice_get (flat_map (λ f. rules.broken_in f.file
        (rules.function_rows functions.now.meanings.gathered.now runner
        (size_in functions.now.meanings.gathered.now layouts.now) f)) (map function_in list.now)) 0) }
{
    for f in list {
        let broken = broken_function(alloc, functions, layouts, runner, names, f)?;
        if broken.is_some() {
            return Ok(broken);
        }
    }
    Ok(None)
}

/// The first broken rule of the functions of an interface.
pub fn broken_functions(
    alloc: Global,
    functions: &Functions<'_>,
    layouts: &Layouts,
    runner: bool,
) -> Result<Option<Broken>, AllocError>
    ensures { IfOk result (λ b. b
        ≡ slice_get (flat_map (λ f. rules.broken_in f.file (rules.function_rows functions.now.meanings.gathered.now
        runner (size_in functions.now.meanings.gathered.now layouts.now) f))
        (trusted_of functions.now.meanings.gathered.now ++ untrusted_of functions.now.meanings.gathered.now)) 0) }
{
    let names = names_by_file(alloc, functions.meanings.gathered.files.as_slice())?;
    let trusted = broken_among(
        alloc,
        functions,
        layouts,
        runner,
        &names,
        &functions.trusted,
    )?;
    if trusted.is_some() {
        return Ok(trusted);
    }
    let untrusted = broken_among(
        alloc,
        functions,
        layouts,
        runner,
        &names,
        &functions.untrusted,
    )?;
    Ok(untrusted)
}
