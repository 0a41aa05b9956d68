//! The functions of both sides, in ordinal order.

ghost use Rattle.std.specs.Prelude.{◌≡◌, IfOk, map};
ghost use Rattle.attr_terms.specs.Taken.{function_in};
ghost use Rattle.stub_printer.specs.Stubs.{ecalls_of, ocalls_of};

use attr_terms::functions::{Functions, Taken};
use edl_grammar::{FuncDecl, Gathered};
use std::alloc::{AllocError, Global};

/// The functions as they are declared.
fn declared_of<'a>(alloc: Global, taken: &[Taken<'a>]) -> Result<Vec<&'a FuncDecl>, AllocError>
    ensures { IfOk result (λ v. map (λ f. f.now) v.items ≡ map (λ f. f.decl) (map function_in taken.now)) }
{
    let mut functions = Vec::new(alloc);
    for function in taken {
        functions.push(function.decl)?;
    }
    Ok(functions)
}

/// The ECALLs of an interface.
pub(crate) fn ecalls_in<'a>(
    alloc: Global,
    gathered: &'a Gathered,
) -> Result<Vec<&'a FuncDecl>, AllocError>
    ensures { IfOk result (λ v. map (λ f. f.now) v.items ≡ ecalls_of gathered.now) }
{
    let functions = Functions::new(alloc, gathered)?;
    declared_of(alloc, &functions.trusted)
}

/// The OCALLs of an interface.
pub(crate) fn ocalls_in<'a>(
    alloc: Global,
    gathered: &'a Gathered,
) -> Result<Vec<&'a FuncDecl>, AllocError>
    ensures { IfOk result (λ v. map (λ f. f.now) v.items ≡ ocalls_of gathered.now) }
{
    let functions = Functions::new(alloc, gathered)?;
    declared_of(alloc, &functions.untrusted)
}

/// The functions of both sides, in ordinal order.
#[derive(Clone, Copy)]
pub(crate) struct Sides<'a> {
    pub ecalls: &'a [&'a FuncDecl],
    pub ocalls: &'a [&'a FuncDecl],
}
