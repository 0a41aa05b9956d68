//! Declarations with too many stars or dimensions.

ghost use Rattle.std.specs.Prelude.{◌≡◌, [], ◌∷◌};
ghost use Rattle.std.specs.List.{flat_map};
ghost use Rattle.edl_parser.specs.Depth.{earlier, deep_result};
ghost use Rattle.edl_grammar.specs.Sentence as sentence;

use edl_grammar::{Declared, EdlFile, FuncDecl, TypeDecl};

/// The most stars, or dimensions, that a declaration may have.
const MAX_DEPTH: usize = 8;

/// The lesser of two tokens, where there are two.
fn earlier_of(first: Option<u32>, second: Option<u32>) -> Option<u32>
    ensures { result ≡ earlier first second }
{
    match first {
        Some(token) => match second {
            Some(other) => Some(token.min(other)),
            None => Some(token),
        },
        None => second,
    }
}

fn is_deep(declared: &Declared) -> bool
    ensures { result ≡ sentence.is_deep declared.now }
{
    declared.written.stars as usize > MAX_DEPTH || declared.dims.len() > MAX_DEPTH
}

fn deep_in_declared(declared: &Declared) -> Option<u32>
    ensures { result ≡ sentence.least (sentence.deep_among (declared.now ∷ [])) }
{
    if is_deep(declared) {
        Some(declared.token)
    } else {
        None
    }
}

fn deep_among(declared: &[Declared]) -> Option<u32>
    ensures { result ≡ sentence.least (sentence.deep_among declared.now) }
{
    let mut first = None;
    for d in declared {
        first = earlier_of(first, deep_in_declared(d));
    }
    first
}

fn deep_in_type(decl: &TypeDecl) -> Option<u32>
    ensures { result ≡ sentence.least (sentence.deep_in_type decl.now) }
{
    match decl {
        TypeDecl::Enumeration { .. } => None,
        TypeDecl::Structure { members, .. } => deep_among(members.as_slice()),
        TypeDecl::Union { members, .. } => deep_among(members.as_slice()),
    }
}

fn deep_in_types(decls: &[TypeDecl]) -> Option<u32>
    ensures { result ≡ sentence.least (flat_map sentence.deep_in_type decls.now) }
{
    let mut first = None;
    for d in decls {
        first = earlier_of(first, deep_in_type(d));
    }
    first
}

/// The function's name, where its result has too many stars.
fn deep_result(function: &FuncDecl) -> Option<u32>
    ensures { result ≡ deep_result function.now }
{
    if function.result.stars as usize > MAX_DEPTH {
        Some(function.token)
    } else {
        None
    }
}

fn deep_in_function(function: &FuncDecl) -> Option<u32>
    ensures { result ≡ sentence.least (sentence.deep_in_function function.now) }
{
    earlier_of(
        deep_result(function),
        deep_among(function.params.as_slice()),
    )
}

fn deep_in_functions(functions: &[FuncDecl]) -> Option<u32>
    ensures { result ≡ sentence.least (flat_map sentence.deep_in_function functions.now) }
{
    let mut first = None;
    for f in functions {
        first = earlier_of(first, deep_in_function(f));
    }
    first
}

/// The token of the first declaration that is too deep.
pub fn first_deep(tree: &EdlFile) -> Option<u32>
    ensures { result ≡ sentence.least (sentence.deep_in tree.now) }
{
    let in_functions = earlier_of(
        deep_in_functions(tree.trusted.as_slice()),
        deep_in_functions(tree.untrusted.as_slice()),
    );
    earlier_of(deep_in_types(tree.types.as_slice()), in_functions)
}
