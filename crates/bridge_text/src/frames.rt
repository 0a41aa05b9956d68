//! The marshalling structures, as they are printed.

ghost use Rattle.std.specs.Prelude.{◌≡◌, ◌++◌, OnOk, flat_map};
ghost use Rattle.bridge_text.specs.Bridges as bridges;

use crate::declarations::{put_bare_type, put_type};
use crate::lengths::{has_frame, is_returning};
use crate::named::{put_of_function, put_of_param};
use crate::templates::{at, put_lines};
use attr_terms::attributes::{has, is_array, is_pointer, is_string};
use edl_grammar::{Declared, FuncDecl};
use std::alloc::{AllocError, Global};

/// Appends the type of a foreign array's field.
fn put_foreign_array_type(alloc: Global, out: &mut Vec<u8>, p: &Declared) -> Result<(), AllocError>
    ensures { OnOk result (out.new.items ≡ out.old.items ++ bridges.foreign_array_type p.now) }
{
    put_type(alloc, out, &p.written)?;
    out.extend_from_slice(b"*")
}

/// Appends the type of an array's field.
fn put_array_type(alloc: Global, out: &mut Vec<u8>, p: &Declared) -> Result<(), AllocError>
    ensures { OnOk result (out.new.items ≡ out.old.items ++ bridges.array_type p.now) }
{
    put_bare_type(alloc, out, &p.written, p.written.stars)?;
    out.extend_from_slice(b"*")
}

/// Appends the type of a parameter's field.
fn put_field_type(alloc: Global, out: &mut Vec<u8>, p: &Declared) -> Result<(), AllocError>
    ensures { OnOk result (out.new.items ≡ out.old.items ++ bridges.field_type p.now) }
{
    if has(p, b"isary") {
        put_foreign_array_type(alloc, out, p)
    } else if is_array(p) {
        put_array_type(alloc, out, p)
    } else if is_pointer(p) {
        put_bare_type(alloc, out, &p.written, p.written.stars)
    } else {
        put_type(alloc, out, &p.written)
    }
}

/// Appends the length of a string of an ECALL, behind its field.
fn put_text_field(out: &mut Vec<u8>, is_trusted: bool, p: &Declared) -> Result<(), AllocError>
    ensures { OnOk result (out.new.items ≡ out.old.items ++ bridges.text_field_lines is_trusted p.now) }
{
    if is_trusted && is_string(p) {
        put_of_param(out, p, &["size_t ms_$P_len;"])
    } else {
        Ok(())
    }
}

/// Appends the field of a parameter.
fn put_param_field(
    alloc: Global,
    out: &mut Vec<u8>,
    is_trusted: bool,
    p: &Declared,
) -> Result<(), AllocError>
    ensures { OnOk result (out.new.items ≡ out.old.items ++ bridges.field_text is_trusted p.now) }
{
    let mut text = Vec::new(alloc);
    put_field_type(alloc, &mut text, p)?;
    put_lines(
        out,
        &[at(b'T', &text), at(b'P', p.name.bytes())],
        &["$T ms_$P;"],
    )?;
    put_text_field(out, is_trusted, p)
}

/// Appends the fields of a function's parameters.
fn put_param_fields(
    alloc: Global,
    out: &mut Vec<u8>,
    is_trusted: bool,
    f: &FuncDecl,
) -> Result<(), AllocError>
    ensures { OnOk result (out.new.items ≡ out.old.items ++ flat_map (bridges.field_text is_trusted) f.now.params) }
{
    for p in f.params.as_slice() {
        put_param_field(alloc, out, is_trusted, p)?;
    }
    Ok(())
}

/// Appends the field of the return.
fn put_return_field(alloc: Global, out: &mut Vec<u8>, f: &FuncDecl) -> Result<(), AllocError>
    ensures { OnOk result (out.new.items ≡ out.old.items ++ bridges.return_field f.now) }
{
    if !is_returning(&f.result) {
        return Ok(());
    }
    let mut text = Vec::new(alloc);
    put_type(alloc, &mut text, &f.result)?;
    put_lines(out, &[at(b'R', &text)], &["$R ms_retval;"])
}

/// Appends the first line of a marshalling structure.
#[tactic(auto, unfolding(crate::specs::Bridges::frame_head))]
fn put_head(out: &mut Vec<u8>, f: &FuncDecl) -> Result<(), AllocError>
    ensures { OnOk result (out.new.items ≡ out.old.items ++ bridges.frame_head f.now) }
{
    put_of_function(out, f, &["typedef struct ms_$F_t {"])
}

/// Appends the last line of a marshalling structure.
#[tactic(auto, unfolding(crate::specs::Bridges::frame_foot))]
fn put_foot(out: &mut Vec<u8>, f: &FuncDecl) -> Result<(), AllocError>
    ensures { OnOk result (out.new.items ≡ out.old.items ++ bridges.frame_foot f.now) }
{
    put_of_function(out, f, &["} ms_$F_t;"])
}

/// Appends the marshalling structure of a function with a frame.
fn put_frame(
    alloc: Global,
    out: &mut Vec<u8>,
    is_trusted: bool,
    f: &FuncDecl,
) -> Result<(), AllocError>
    ensures { OnOk result (out.new.items ≡ out.old.items ++ bridges.frame_text is_trusted f.now) }
{
    put_head(out, f)?;
    put_return_field(alloc, out, f)?;
    put_param_fields(alloc, out, is_trusted, f)?;
    put_foot(out, f)
}

/// Appends the marshalling structure of a function, where it has a frame.
pub fn put_frame_if_any(
    alloc: Global,
    out: &mut Vec<u8>,
    is_trusted: bool,
    f: &FuncDecl,
) -> Result<(), AllocError>
    ensures { OnOk result (out.new.items ≡ out.old.items ++ bridges.frame_if_any is_trusted f.now) }
{
    if has_frame(f) {
        put_frame(alloc, out, is_trusted, f)
    } else {
        Ok(())
    }
}
