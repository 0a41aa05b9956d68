//! What a parameter's attributes and type say of it, with no look at other declarations.

ghost use Rattle.std.specs.Prelude.{◌≡◌, List, Bool, not, ◌||◌, ◌&&◌, is_some, length, nat_lt, map, filter, slice_get, option_copied};
ghost use Rattle.std.specs.List.{list_any};
ghost use Rattle.std.specs.Str.{bytes_eq};
ghost use Rattle.edl_grammar.specs.declared.Attribute.{Attribute};
ghost use Rattle.edl_layout.specs.Frame as frame;
ghost use Rattle.attr_terms.specs.Attributes as attributes;

use edl_grammar::{AttrValue, Attribute, Base, Declared, NameAt};

/// Whether the bytes are the same.
pub fn is(name: &[u8], spelling: &[u8]) -> bool
    ensures { result ≡ bytes_eq name.now spelling.now }
{
    name == spelling
}

/// Whether the parameter has the attribute of this name.
pub fn has(p: &Declared, name: &[u8]) -> bool
    ensures { result ≡ list_any (λ a. bytes_eq a.name name.now) p.now.attrs }
{
    p.attrs.as_slice().iter().any(|a| is(a.name.bytes(), name))
}

/// Whether it is an array.
pub fn is_array(p: &Declared) -> bool
    ensures { result ≡ frame.is_array p.now }
{
    p.dims.len() > 0
}

/// Whether it has a star.
pub fn is_pointer(p: &Declared) -> bool
    ensures { result ≡ frame.is_pointer p.now }
{
    p.written.stars > 0
}

/// Whether its field is an address.
pub fn is_by_address(p: &Declared) -> bool
    ensures { result ≡ frame.is_by_address p.now }
{
    is_pointer(p) || is_array(p)
}

/// Whether it has `in` or `out`.
pub fn has_direction(p: &Declared) -> bool
    ensures { result ≡ attributes.has_direction p.now }
{
    has(p, b"in") || has(p, b"out")
}

/// Whether it has `size` or `count`.
pub fn has_amount(p: &Declared) -> bool
    ensures { result ≡ attributes.has_amount p.now }
{
    has(p, b"size") || has(p, b"count")
}

/// Whether it has `string` or `wstring`.
pub fn is_string(p: &Declared) -> bool
    ensures { result ≡ attributes.is_string p.now }
{
    has(p, b"string") || has(p, b"wstring")
}

/// Whether it is passed as a foreign pointer or array type.
pub fn is_foreign_passed(p: &Declared) -> bool
    ensures { result ≡ attributes.is_foreign_passed p.now }
{
    has(p, b"isptr") || has(p, b"isary")
}

/// Whether an attribute of this name wants a value.
fn wants_value(name: &[u8]) -> bool
    ensures { result ≡ attributes.is_among attributes.with_value name.now }
{
    is(name, b"size") || is(name, b"count")
}

/// Whether an attribute of this name stands without a value.
fn wants_no_value(name: &[u8]) -> bool
    ensures { result ≡ attributes.is_among attributes.without_value name.now }
{
    is(name, b"in")
        || is(name, b"out")
        || is(name, b"string")
        || is(name, b"wstring")
        || is(name, b"user_check")
        || is(name, b"isptr")
        || is(name, b"isary")
        || is(name, b"readonly")
}

/// Whether the attribute is known, with a value exactly where it wants one. `sizefunc` has a rule of its own.
pub fn is_well_formed(a: &Attribute) -> bool
    ensures { result ≡ attributes.is_well_formed a.now }
{
    let name = a.name.bytes();
    if a.value.is_some() {
        is(name, b"sizefunc") || wants_value(name)
    } else {
        is(name, b"sizefunc") || wants_no_value(name)
    }
}

/// Whether the attribute has this name.
pub fn is_called(a: &Attribute, name: &[u8]) -> bool
    ensures { result ≡ bytes_eq a.now.name name.now }
{
    is(a.name.bytes(), name)
}

/// The name behind `size` or `count`.
pub fn amount_name(a: &Attribute) -> Option<&NameAt>
    ensures { option_copied result ≡ attributes.amount_name a.now }
{
    if !wants_value(a.name.bytes()) {
        return None;
    }
    match &a.value {
        Some(AttrValue::Named(name)) => Some(name),
        Some(AttrValue::Number(_)) | None => None,
    }
}

/// Whether the base is `char`, which is signed.
pub fn is_char(base: &Base) -> bool
    ensures { result ≡ attributes.is_char base.now }
{
    matches!(
        base,
        Base::Integer {
            size: 1,
            signed: true
        }
    )
}

/// Whether the base is `void`.
pub fn is_void(base: &Base) -> bool
    ensures { result ≡ frame.is_void base.now }
{
    matches!(base, Base::Void)
}

/// Whether it is a pointer with one star.
pub fn is_single_pointer(p: &Declared) -> bool
    ensures { result ≡ attributes.is_single_pointer p.now }
{
    !is_array(p) && p.written.stars == 1
}
