//! Types and declarations, as they are written.

ghost use Rattle.std.specs.Prelude.{◌≡◌, ◌++◌, IfOk, OnOk, map, flat_map, codes};
ghost use Rattle.bridge_text.specs.Template.{joined_by};
ghost use Rattle.bridge_text.specs.Declarations as declarations;

use attr_terms::attributes::is;
use edl_grammar::{Declared, Written};
use sgx_base::Name;
use std::alloc::{AllocError, Global};

/// The words of a type.
fn words_of<'a>(alloc: Global, words: &'a [Name]) -> Result<Vec<&'a [u8]>, AllocError>
    ensures { IfOk result (λ v. map (λ word. word.now) v.items ≡ words.now) }
{
    let mut kept = Vec::new(alloc);
    for word in words {
        kept.push(word.bytes())?;
    }
    Ok(kept)
}

/// The words of a type but `const`.
fn bare_words_of<'a>(alloc: Global, words: &'a [Name]) -> Result<Vec<&'a [u8]>, AllocError>
    ensures { IfOk result (λ v. map (λ word. word.now) v.items ≡ declarations.bare_words words.now) }
{
    let mut kept = Vec::new(alloc);
    for word in words {
        if !is(word.bytes(), b"const") {
            kept.push(word.bytes())?;
        }
    }
    Ok(kept)
}

/// Appends words with one space between.
fn put_words(out: &mut Vec<u8>, words: &[&[u8]]) -> Result<(), AllocError>
    ensures { OnOk result (out.new.items
        ≡ out.old.items ++ joined_by (codes " ") (map (λ word. word.now) words.now)) }
{
    match words {
        [] => Ok(()),
        [word] => out.extend_from_slice(word),
        [word, rest @ ..] => {
            out.extend_from_slice(word)?;
            out.push(b' ')?;
            put_words(out, rest)
        }
    }
}

/// Appends words with one space between, and then stars.
fn put_spelled(out: &mut Vec<u8>, words: &[&[u8]], stars: u32) -> Result<(), AllocError>
    ensures { OnOk result (out.new.items
        ≡ out.old.items ++ declarations.spelled (map (λ word. word.now) words.now) stars) }
{
    put_words(out, words)?;
    for star in 0..stars {
        out.push(b'*')?;
    }
    Ok(())
}

/// Appends the words of a type, and then so many stars.
pub(crate) fn put_type_with(
    alloc: Global,
    out: &mut Vec<u8>,
    written: &Written,
    stars: u32,
) -> Result<(), AllocError>
    ensures { OnOk result (out.new.items ≡ out.old.items ++ declarations.spelled written.now.words stars) }
{
    let words = words_of(alloc, written.words.as_slice())?;
    put_spelled(out, &words, stars)
}

/// Appends a type as it is written.
pub fn put_type(alloc: Global, out: &mut Vec<u8>, written: &Written) -> Result<(), AllocError>
    ensures { OnOk result (out.new.items ≡ out.old.items ++ declarations.type_text written.now) }
{
    put_type_with(alloc, out, written, written.stars)
}

/// Appends a type without `const`, and with so many stars.
pub(crate) fn put_bare_type(
    alloc: Global,
    out: &mut Vec<u8>,
    written: &Written,
    stars: u32,
) -> Result<(), AllocError>
    ensures { OnOk result (out.new.items ≡ out.old.items ++ declarations.bare_text written.now stars) }
{
    let words = bare_words_of(alloc, written.words.as_slice())?;
    put_spelled(out, &words, stars)
}

/// Appends a dimension.
fn put_dim(alloc: Global, out: &mut Vec<u8>, dim: Option<u64>) -> Result<(), AllocError>
    ensures { OnOk result (out.new.items ≡ out.old.items ++ declarations.dim_text dim) }
{
    match dim {
        None => out.extend_from_slice(b"[]"),
        Some(number) => {
            let text = number.to_string(alloc)?;
            out.extend_from_slice(b"[")?;
            out.extend_from_slice(text.as_bytes())?;
            out.extend_from_slice(b"]")
        }
    }
}

/// Appends dimensions.
fn put_dims(alloc: Global, out: &mut Vec<u8>, dims: &[Option<u64>]) -> Result<(), AllocError>
    ensures { OnOk result (out.new.items ≡ out.old.items ++ flat_map declarations.dim_text dims.now) }
{
    for dim in dims {
        put_dim(alloc, out, *dim)?;
    }
    Ok(())
}

/// Appends a member or a parameter as it is declared, without attributes.
pub(crate) fn put_declaration(
    alloc: Global,
    out: &mut Vec<u8>,
    declared: &Declared,
) -> Result<(), AllocError>
    ensures { OnOk result (out.new.items ≡ out.old.items ++ declarations.declaration declared.now) }
{
    put_type(alloc, out, &declared.written)?;
    out.extend_from_slice(b" ")?;
    out.extend_from_slice(declared.name.bytes())?;
    put_dims(alloc, out, declared.dims.as_slice())
}

/// Appends parameters, with a comma between.
pub fn put_declarations(
    alloc: Global,
    out: &mut Vec<u8>,
    params: &[Declared],
) -> Result<(), AllocError>
    ensures { OnOk result (out.new.items ≡ out.old.items ++ declarations.declarations params.now) }
{
    match params {
        [] => Ok(()),
        [param] => put_declaration(alloc, out, param),
        [param, rest @ ..] => {
            put_declaration(alloc, out, param)?;
            out.extend_from_slice(b", ")?;
            put_declarations(alloc, out, rest)
        }
    }
}
