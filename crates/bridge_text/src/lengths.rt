//! Sizes and counts of what parameters point to, as they are printed.

ghost use Rattle.std.specs.Prelude.{◌≡◌, ◌++◌, OnOk, codes, find};
ghost use Rattle.std.specs.Str.{bytes_eq};
ghost use Rattle.std.specs.Option.{option_copied};
ghost use Rattle.edl_layout.specs.Frame as frame;
ghost use Rattle.bridge_text.specs.Declarations.{spelled};
ghost use Rattle.bridge_text.specs.Bridges as bridges;

use crate::declarations::put_type_with;
use crate::products::put_product;
use crate::templates::{at, put};
use attr_terms::attributes::{
    has, has_direction, is_array, is_by_address, is_called, is_foreign_passed, is_string, is_void,
};
use edl_grammar::{AttrValue, Attribute, Declared, FuncDecl, Written};
use std::alloc::{AllocError, Global};

/// Whether a parameter is copied between host and enclave.
pub(crate) fn is_marshalled(p: &Declared) -> bool
    ensures { result ≡ bridges.is_marshalled p.now }
{
    has_direction(p) && (is_by_address(p) || is_foreign_passed(p))
}

/// Whether there is something to return.
pub fn is_returning(written: &Written) -> bool
    ensures { result ≡ frame.is_returning written.now }
{
    !is_void(&written.base) || written.stars > 0
}

/// Whether a function has a frame: a parameter or a return.
pub fn has_frame(f: &FuncDecl) -> bool
    ensures { result ≡ bridges.has_frame f.now }
{
    is_returning(&f.result) || f.params.len() > 0
}

/// Whether it is a wide string.
pub(crate) fn is_wide(p: &Declared) -> bool
    ensures { result ≡ frame.has "wstring" p.now }
{
    has(p, b"wstring")
}

/// The first attribute of this name.
fn attribute<'a>(p: &'a Declared, name: &[u8]) -> Option<&'a Attribute>
    ensures { option_copied result ≡ find (λ a. bytes_eq a.name name.now) p.now.attrs }
{
    p.attrs.as_slice().iter().find(|a| is_called(a, name))
}

/// What is written behind the attribute of this name.
fn written_amount<'a>(p: &'a Declared, name: &[u8]) -> Option<&'a AttrValue>
    ensures { option_copied result ≡ bridges.written_amount name.now p.now }
{
    match attribute(p, name) {
        Some(attribute) => attribute.value.as_ref(),
        None => None,
    }
}

/// Appends where a parameter's value is found: in the copy of the frame, or as it was passed.
fn put_value(out: &mut Vec<u8>, is_ecall: bool, name: &[u8]) -> Result<(), AllocError>
    ensures { OnOk result (out.new.items ≡ out.old.items ++ bridges.value_text is_ecall name.now) }
{
    if is_ecall {
        out.extend_from_slice(b"ms.ms_")?;
    }
    out.extend_from_slice(name)
}

/// Appends a size or a count that is written.
fn put_amount(
    alloc: Global,
    out: &mut Vec<u8>,
    is_ecall: bool,
    amount: &AttrValue,
) -> Result<(), AllocError>
    ensures { OnOk result (out.new.items ≡ out.old.items ++ bridges.amount_text is_ecall amount.now) }
{
    match amount {
        AttrValue::Number(number) => {
            let text = number.to_string(alloc)?;
            out.extend_from_slice(text.as_bytes())
        }
        AttrValue::Named(named) => {
            out.extend_from_slice(b"(size_t)")?;
            put_value(out, is_ecall, named.name.bytes())
        }
    }
}

/// Appends the size of a type as it is written, with so many stars.
fn put_size_of(
    alloc: Global,
    out: &mut Vec<u8>,
    written: &Written,
    stars: u32,
) -> Result<(), AllocError>
    ensures { OnOk result (out.new.items ≡ out.old.items ++ bridges.size_of (spelled written.now.words stars)) }
{
    out.extend_from_slice(b"sizeof(")?;
    put_type_with(alloc, out, written, stars)?;
    out.extend_from_slice(b")")
}

/// Appends the size of what a value points to.
fn put_size_behind(out: &mut Vec<u8>, is_ecall: bool, name: &[u8]) -> Result<(), AllocError>
    ensures { OnOk result (out.new.items
        ≡ out.old.items ++ bridges.size_of (codes "*" ++ bridges.value_text is_ecall name.now)) }
{
    out.extend_from_slice(b"sizeof(*")?;
    put_value(out, is_ecall, name)?;
    out.extend_from_slice(b")")
}

/// Appends the size of the element: of an array, of what a pointer points to, of a foreign value.
pub(crate) fn put_element(
    alloc: Global,
    out: &mut Vec<u8>,
    is_ecall: bool,
    p: &Declared,
) -> Result<(), AllocError>
    ensures { OnOk result (out.new.items ≡ out.old.items ++ bridges.element_text is_ecall p.now) }
{
    let written = &p.written;
    if has(p, b"isptr") {
        put_size_behind(out, is_ecall, p.name.bytes())
    } else if has(p, b"isary") || is_array(p) {
        put_size_of(alloc, out, written, written.stars)
    } else if is_void(&written.base) && written.stars == 1 {
        out.extend_from_slice(b"1")
    } else {
        put_size_of(alloc, out, written, written.stars.saturating_sub(1))
    }
}

/// Appends the bytes of a string that is passed to a proxy.
pub fn put_string_size(out: &mut Vec<u8>, p: &Declared) -> Result<(), AllocError>
    ensures { OnOk result (out.new.items ≡ out.old.items ++ bridges.string_size p.now) }
{
    let places = [at(b'P', p.name.bytes())];
    if is_wide(p) {
        put(
            out,
            &places,
            b"$P != NULL ? (wcslen($P) + 1) * sizeof(wchar_t) : 0",
        )
    } else {
        put(out, &places, b"$P != NULL ? strlen($P) + 1 : 0")
    }
}

/// Appends the bytes of a string: from the copy of the frame, or as it was passed.
fn put_text_size(out: &mut Vec<u8>, is_ecall: bool, p: &Declared) -> Result<(), AllocError>
    ensures { OnOk result (out.new.items ≡ out.old.items ++ bridges.text_size is_ecall p.now) }
{
    if is_ecall {
        put(out, &[at(b'P', p.name.bytes())], b"ms.ms_$P_len")
    } else {
        put_string_size(out, p)
    }
}

/// Appends the size of what a parameter points to.
pub(crate) fn put_size(
    alloc: Global,
    out: &mut Vec<u8>,
    is_ecall: bool,
    p: &Declared,
) -> Result<(), AllocError>
    ensures { OnOk result (out.new.items ≡ out.old.items ++ bridges.size_text is_ecall p.now) }
{
    if is_string(p) {
        return put_text_size(out, is_ecall, p);
    }
    match written_amount(p, b"size") {
        Some(amount) => put_amount(alloc, out, is_ecall, amount),
        None => put_element(alloc, out, is_ecall, p),
    }
}

/// Appends the count that is written, or else 1.
fn put_written_count(
    alloc: Global,
    out: &mut Vec<u8>,
    is_ecall: bool,
    p: &Declared,
) -> Result<(), AllocError>
    ensures { OnOk result (out.new.items ≡ out.old.items
        ++ bridges.written_or is_ecall (bridges.written_amount (codes "count") p.now) (codes "1")) }
{
    match written_amount(p, b"count") {
        Some(amount) => put_amount(alloc, out, is_ecall, amount),
        None => out.extend_from_slice(b"1"),
    }
}

/// Appends the count of what a parameter points to.
pub(crate) fn put_count(
    alloc: Global,
    out: &mut Vec<u8>,
    is_ecall: bool,
    p: &Declared,
) -> Result<(), AllocError>
    ensures { OnOk result (out.new.items ≡ out.old.items ++ bridges.count_text is_ecall p.now) }
{
    if is_string(p) {
        out.extend_from_slice(b"1")
    } else if is_array(p) {
        put_product(alloc, out, p.dims.as_slice())
    } else {
        put_written_count(alloc, out, is_ecall, p)
    }
}
