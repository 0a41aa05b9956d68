//! How a parameter is passed.

ghost use Rattle.std.specs.Prelude.{◌≡◌, ◌≤◌, ◌<◌, ◌*◌, ◌^◌, true, length, find, option_map};
ghost use Rattle.std.specs.Option.{option_copied};
ghost use Rattle.std.specs.Str.{bytes_eq};
ghost use Rattle.edl_layout.specs.Frame.{is_array as is_array_of};
ghost use Rattle.edl_layout.specs.Shape as shape;
ghost use Rattle.attr_terms.specs.Accepted as accepted;
ghost use Rattle.accepted_interface.specs.Fitting.{LengthFits};
ghost use Rattle.attr_terms.specs.Rules.{max_params};
ghost use Rattle.attr_terms.specs.Sizing.{files_of, table_of};

use attr_terms::attributes::{
    has, has_direction, is_array, is_called, is_foreign_passed, is_pointer, is_string,
};
use attr_terms::places::Params;
use attr_terms::sizes::Sizes;
use edl_grammar::{AttrValue, Attribute, Declared};
use edl_interface::{Amount, Class};
use edl_layout::array_size;
use sgx_base::Passing;

/// The direction of a copy.
fn direction(p: &Declared) -> Passing
    ensures { result ≡ accepted.direction_of p.now }
{
    match (has(p, b"in"), has(p, b"out")) {
        (true, true) => Passing::Both,
        (true, false) => Passing::Inward,
        (false, _) => Passing::Outward,
    }
}

/// The first attribute of this name.
fn attribute<'a>(p: &'a Declared, name: &[u8]) -> Option<&'a Attribute>
    ensures { option_copied result ≡ find (λ a. bytes_eq a.name name.now) p.now.attrs }
{
    p.attrs.as_slice().iter().find(|a| is_called(a, name))
}

/// The number of the parameter of this name, 0 where there is none.
fn place(params: &Params, name: &[u8]) -> u32
    requires { length params.now.list.now ≤ max_params }
    ensures { result ≡ accepted.place_of name.now params.now.list.now }
{
    match params.place(name) {
        Some(place) => place as u32,
        None => 0,
    }
}

/// What `size` or `count` says, or else this number.
fn amount(params: &Params, default: u32, attribute: Option<&Attribute>) -> Amount
    requires { length params.now.list.now ≤ max_params }
    ensures { result ≡ accepted.amount_by params.now.list.now default
        (option_map (λ a. a.value) (option_copied attribute.entry)) }
{
    let Some(attribute) = attribute else {
        return Amount::Number(u64::from(default));
    };
    match &attribute.value {
        Some(AttrValue::Number(n)) => Amount::Number(*n),
        Some(AttrValue::Named(x)) => Amount::Param(place(params, x.name.bytes())),
        None => Amount::Number(u64::from(default)),
    }
}

/// A block whose length its attributes tell.
fn buffer(sizes: &Sizes, params: &Params, p: &Declared) -> Class
    requires { length params.now.list.now ≤ max_params }
    ensures { result ≡ accepted.buffer_of (files_of sizes.now) (table_of sizes.now) params.now.list.now p.now }
{
    let unit = sizes.pointee_size(&p.written);
    Class::Buffer {
        way: direction(p),
        size: amount(params, unit, attribute(p, b"size")),
        count: amount(params, 1, attribute(p, b"count")),
        unit,
    }
}

fn pointer(sizes: &Sizes, params: &Params, p: &Declared) -> Class
    requires { length params.now.list.now ≤ max_params }
    ensures { result ≡ accepted.pointer_class (files_of sizes.now) (table_of sizes.now) params.now.list.now p.now }
{
    if is_string(p) {
        Class::Text {
            way: direction(p),
            unit: sizes.pointee_size(&p.written),
        }
    } else {
        buffer(sizes, params, p)
    }
}

/// An array, whose length its type tells.
fn fixed(sizes: &Sizes, p: &Declared) -> Class
    requires { accepted.size_of (files_of sizes.now) (table_of sizes.now) p.now.written * shape.elements p.now.dims
        < 2 ^ 32 }
    ensures { result ≡ accepted.fixed_class (files_of sizes.now) (table_of sizes.now) p.now }
{
    let unit = sizes.size(&p.written);
    Class::Fixed {
        way: direction(p),
        length: array_size(unit, p.dims.as_slice()) as u32,
        unit,
    }
}

/// A value of a foreign pointer or array type.
fn foreign(p: &Declared) -> Class
    ensures { result ≡ accepted.foreign_class p.now }
{
    if has_direction(p) {
        Class::Foreign {
            way: Some(direction(p)),
        }
    } else {
        Class::Foreign { way: None }
    }
}

/// How a parameter is passed.
pub fn class(sizes: &Sizes, params: &Params, p: &Declared) -> Class
    requires few { length params.now.list.now ≤ max_params }
    requires fits { LengthFits (files_of sizes.now) (table_of sizes.now) p.now }
    ensures { result ≡ accepted.class_of (files_of sizes.now) (table_of sizes.now) params.now.list.now p.now }
{
    if is_foreign_passed(p) {
        foreign(p)
    } else if has(p, b"user_check") {
        Class::UserCheck
    } else if is_array(p) {
        fixed(sizes, p)
    } else if is_pointer(p) {
        pointer(sizes, params, p)
    } else {
        Class::Plain(sizes.plain(&p.written))
    }
}
