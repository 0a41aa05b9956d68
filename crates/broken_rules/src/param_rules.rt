//! The rules of parameters.

ghost use Rattle.std.specs.Prelude.{◌≡◌, ℕ, List, Bool, not, ◌&&◌, ◌||◌, ◌==◌, map, find, option_map, IfOk, option_copied};
ghost use Rattle.std.specs.List.{list_any, flat_map};
ghost use Rattle.edl_layout.specs.Frame as frame;
ghost use Rattle.attr_terms.specs.Attributes as attributes;
ghost use Rattle.broken_rules.specs.Breaches as breaches;
ghost use Rattle.broken_rules.specs.Breaches.{first_breach};
ghost use Rattle.attr_terms.specs.Rules as rules;
ghost use Rattle.broken_rules.specs.Names.{TellsNames};

use crate::names::{Names, declared_names};
use crate::rows::{Breach, row, row_at};
use crate::type_rules::has_no_length;
use attr_terms::attributes::{
    amount_name, has, has_amount, has_direction, is, is_array, is_by_address, is_called, is_char,
    is_foreign_passed, is_pointer, is_single_pointer, is_string, is_void, is_well_formed,
};
use attr_terms::meanings::Meanings;
use attr_terms::places::Params;
use edl_grammar::{Attribute, Base, Declared};
use std::alloc::{AllocError, Global};

// ---- directions

fn lacks_direction(p: &Declared) -> bool
    ensures { result
        ≡ (frame.is_by_address p.now && not (attributes.has_direction p.now || frame.has "user_check" p.now)) }
{
    is_by_address(p) && !has_direction(p) && !has(p, b"user_check")
}

fn is_unchecked_copy(p: &Declared) -> bool
    ensures { result ≡ (attributes.has_direction p.now && frame.has "user_check" p.now) }
{
    has_direction(p) && has(p, b"user_check")
}

fn is_measured_string(p: &Declared) -> bool
    ensures { result ≡ (attributes.has_amount p.now && attributes.is_string p.now) }
{
    has_amount(p) && is_string(p)
}

fn is_two_strings(p: &Declared) -> bool
    ensures { result ≡ (frame.has "string" p.now && frame.has "wstring" p.now) }
{
    has(p, b"string") && has(p, b"wstring")
}

fn is_string_without_in(p: &Declared) -> bool
    ensures { result ≡ (attributes.is_string p.now && not (frame.has "in" p.now)) }
{
    is_string(p) && !has(p, b"in")
}

/// Whether the attribute is for pointers alone.
fn is_pointer_attribute(a: &Attribute) -> bool
    ensures { result ≡ rules.is_pointer_attribute a.now }
{
    let name = a.name.bytes();
    !(is(name, b"isptr") || is(name, b"isary") || is(name, b"readonly"))
}

fn has_pointer_attribute(p: &Declared) -> bool
    ensures { result ≡ list_any rules.is_pointer_attribute p.now.attrs }
{
    p.attrs.as_slice().iter().any(|a| is_pointer_attribute(a))
}

fn is_value_with_pointer_attribute(p: &Declared) -> bool
    ensures { result
        ≡ (not (frame.is_by_address p.now) && not (attributes.is_foreign_passed p.now) && list_any
        rules.is_pointer_attribute p.now.attrs) }
{
    !is_by_address(p) && !is_foreign_passed(p) && has_pointer_attribute(p)
}

fn direction_breach(p: &Declared) -> Option<Breach>
    ensures { result ≡ first_breach (rules.direction_rows p.now) }
{
    row(15, lacks_direction(p), p.token)
        .or(row(16, is_unchecked_copy(p), p.token))
        .or(row(17, is_measured_string(p), p.token))
        .or(row(18, is_two_strings(p), p.token))
        .or(row(19, is_string_without_in(p), p.token))
        .or(row(20, is_value_with_pointer_attribute(p), p.token))
}

// ---- attributes

/// The first attribute that is unknown, or has or lacks a value wrongly.
fn malformed(p: &Declared) -> Option<u32>
    ensures { result ≡ breaches.first_where (λ a. not (attributes.is_well_formed a)) p.now }
{
    p.attrs
        .as_slice()
        .iter()
        .find(|a| !is_well_formed(a))
        .map(|a| a.token)
}

/// Whether the attribute's name stands at an earlier token too.
fn is_repeated(attrs: &[Attribute], a: &Attribute) -> bool
    ensures { result ≡ breaches.is_repeated attrs.now a.now }
{
    attrs.iter().any(|b| is(b.name.bytes(), a.name.bytes()) && b.token < a.token)
}

/// The first attribute whose name stands before it. Where all are known, it is soon found.
fn repeated(p: &Declared) -> Option<u32>
    ensures { result ≡ breaches.first_where (breaches.is_repeated p.now.attrs) p.now }
{
    let attrs = p.attrs.as_slice();
    attrs
        .iter()
        .find(|a| is_repeated(attrs, a))
        .map(|a| a.token)
}

fn size_function(p: &Declared) -> Option<u32>
    ensures { result ≡ breaches.first_where rules.is_size_function p.now }
{
    p.attrs
        .as_slice()
        .iter()
        .find(|a| is_called(a, b"sizefunc"))
        .map(|a| a.token)
}

fn attribute_breach(p: &Declared) -> Option<Breach>
    ensures { result ≡ first_breach (rules.attribute_rows p.now) }
{
    let unknown = row_at(21, malformed(p));
    if unknown.is_some() {
        return unknown;
    }
    row_at(22, repeated(p)).or(row_at(23, size_function(p)))
}

// ---- sizes and counts

fn is_counted_array(p: &Declared) -> bool
    ensures { result ≡ (frame.is_array p.now && attributes.has_amount p.now) }
{
    is_array(p) && has_amount(p)
}

/// Whether it names no parameter in `size` or `count`.
fn names_none(params: &Params<'_>, a: &Attribute) -> bool
    ensures { result ≡ breaches.names_none params.now.list.now a.now }
{
    match amount_name(a) {
        Some(name) => params.place(name.name.bytes()).is_none(),
        None => false,
    }
}

/// The token of the name in `size` or `count`.
fn amount_token(a: &Attribute) -> u32
    ensures { result ≡ breaches.amount_token a.now }
{
    match amount_name(a) {
        Some(name) => name.token,
        None => 0,
    }
}

fn unknown_amount(params: &Params<'_>, p: &Declared) -> Option<u32>
    ensures { result ≡ option_map breaches.amount_token (find (breaches.names_none params.now.list.now) p.now.attrs) }
{
    p.attrs
        .as_slice()
        .iter()
        .find(|a| names_none(params, a))
        .map(|a| amount_token(a))
}

/// Whether it is a parameter that is no integer.
fn is_no_integer(meanings: &Meanings<'_>, named: Option<&Declared>) -> bool
    ensures { result ≡ rules.not_integer meanings.now.gathered.now (option_copied named.entry) }
{
    match named {
        Some(named) => !is_integer(meanings, named),
        None => false,
    }
}

/// Whether the first parameter that it names in `size` or `count` is no integer.
fn names_other(meanings: &Meanings<'_>, params: &Params<'_>, a: &Attribute) -> bool
    ensures { result ≡ breaches.names_other meanings.now.gathered.now params.now.list.now a.now }
{
    match amount_name(a) {
        Some(name) => is_no_integer(meanings, params.named(name.name.bytes())),
        None => false,
    }
}

fn other_amount(meanings: &Meanings<'_>, params: &Params<'_>, p: &Declared) -> Option<u32>
    ensures { result
        ≡ option_map breaches.amount_token (find (breaches.names_other meanings.now.gathered.now params.now.list.now)
        p.now.attrs) }
{
    p.attrs
        .as_slice()
        .iter()
        .find(|a| names_other(meanings, params, a))
        .map(|a| amount_token(a))
}

fn amount_breach(meanings: &Meanings<'_>, params: &Params<'_>, p: &Declared) -> Option<Breach>
    ensures { result ≡ first_breach (rules.amount_rows meanings.now.gathered.now params.now.list.now p.now) }
{
    row(24, is_counted_array(p), p.token)
        .or(row_at(25, unknown_amount(params, p)))
        .or(row_at(26, other_amount(meanings, params, p)))
}

// ---- what it points to

/// Whether it is an integer by value.
fn is_integer(meanings: &Meanings<'_>, p: &Declared) -> bool
    ensures { result ≡ attributes.is_integer meanings.now.gathered.now p.now }
{
    !is_by_address(p) && meanings.is_integer(&p.written.base)
}

/// Whether the base is `wchar_t`, and this is the standard type.
fn is_wide(meanings: &Meanings<'_>, base: &Base) -> bool
    ensures { result ≡ attributes.is_wide meanings.now.gathered.now base.now }
{
    match base {
        Base::Bare(name) => is(name.bytes(), b"wchar_t") && meanings.is_integer(base),
        _ => false,
    }
}

fn is_unsized_void(p: &Declared) -> bool
    ensures { result
        ≡ (attributes.is_single_pointer p.now && frame.is_void p.now.written.base &&
        (attributes.has_direction p.now && not (frame.has "size" p.now))) }
{
    is_single_pointer(p) && is_void(&p.written.base) && has_direction(p) && !has(p, b"size")
}

fn is_char_pointer(p: &Declared) -> bool
    ensures { result ≡ (attributes.is_single_pointer p.now && attributes.is_char p.now.written.base) }
{
    is_single_pointer(p) && is_char(&p.written.base)
}

fn is_wide_pointer(meanings: &Meanings<'_>, p: &Declared) -> bool
    ensures { result
        ≡ (attributes.is_single_pointer p.now && attributes.is_wide meanings.now.gathered.now p.now.written.base) }
{
    is_single_pointer(p) && is_wide(meanings, &p.written.base)
}

fn is_other_string(p: &Declared) -> bool
    ensures { result
        ≡ (frame.has "string" p.now && not (attributes.is_single_pointer p.now && attributes.is_char
        p.now.written.base)) }
{
    has(p, b"string") && !is_char_pointer(p)
}

fn is_other_wide_string(meanings: &Meanings<'_>, p: &Declared) -> bool
    ensures { result
        ≡ (frame.has "wstring" p.now && not (attributes.is_single_pointer p.now && attributes.is_wide
        meanings.now.gathered.now p.now.written.base)) }
{
    has(p, b"wstring") && !is_wide_pointer(meanings, p)
}

fn is_string_on_other(meanings: &Meanings<'_>, p: &Declared) -> bool
    ensures { result
        ≡ ((frame.has "string" p.now && not (attributes.is_single_pointer p.now && attributes.is_char
        p.now.written.base)) ||
        (frame.has "wstring" p.now && not (attributes.is_single_pointer p.now && attributes.is_wide
        meanings.now.gathered.now p.now.written.base))) }
{
    is_other_string(p) || is_other_wide_string(meanings, p)
}

fn is_pointer_array(p: &Declared) -> bool
    ensures { result ≡ (frame.is_array p.now && frame.is_pointer p.now) }
{
    is_array(p) && is_pointer(p)
}

fn pointee_breach(meanings: &Meanings<'_>, p: &Declared) -> Option<Breach>
    ensures { result ≡ first_breach (rules.pointee_rows meanings.now.gathered.now p.now) }
{
    row(27, is_unsized_void(p), p.token)
        .or(row(28, is_string_on_other(meanings, p), p.token))
        .or(row(29, has_no_length(p), p.token))
        .or(row(30, is_pointer_array(p), p.token))
}

// ---- foreign types

fn is_readonly_alone(p: &Declared) -> bool
    ensures { result ≡ (frame.has "readonly" p.now && not (frame.has "isptr" p.now)) }
{
    has(p, b"readonly") && !has(p, b"isptr")
}

/// Whether it is a foreign type by value.
fn is_foreign_type(meanings: &Meanings<'_>, p: &Declared) -> bool
    ensures { result ≡ attributes.is_foreign_type meanings.now.gathered.now p.now }
{
    !is_by_address(p) && meanings.is_foreign(&p.written.base)
}

fn is_both_foreign(p: &Declared) -> bool
    ensures { result ≡ (frame.has "isptr" p.now && frame.has "isary" p.now) }
{
    has(p, b"isptr") && has(p, b"isary")
}

fn is_ill_foreign(meanings: &Meanings<'_>, p: &Declared) -> bool
    ensures { result
        ≡ (attributes.is_foreign_passed p.now && (not (attributes.is_foreign_type meanings.now.gathered.now p.now) ||
        (frame.has "isptr" p.now && frame.has "isary" p.now))) }
{
    is_foreign_passed(p) && (!is_foreign_type(meanings, p) || is_both_foreign(p))
}

fn foreign_breach(meanings: &Meanings<'_>, runner: bool, p: &Declared) -> Option<Breach>
    ensures { result ≡ first_breach (rules.foreign_rows meanings.now.gathered.now runner p.now) }
{
    row(36, is_readonly_alone(p), p.token)
        .or(row(37, is_ill_foreign(meanings, p), p.token))
        .or(row(38, runner && is_foreign_passed(p), p.token))
}

/// The first broken rule of a parameter, whose name stands before it or not.
fn param_breach(
    meanings: &Meanings<'_>,
    runner: bool,
    params: &Params<'_>,
    is_second: bool,
    p: &Declared,
) -> Option<Breach>
    ensures { is_second ≡ rules.is_second (map rules.declared_name params.now.list.now) (rules.declared_name p.now)
        → result ≡ first_breach (rules.param_rows meanings.now.gathered.now runner params.now.list.now p.now) }
{
    direction_breach(p)
        .or(attribute_breach(p))
        .or(amount_breach(meanings, params, p))
        .or(pointee_breach(meanings, p))
        .or(row(31, is_second, p.token))
        .or(foreign_breach(meanings, runner, p))
}

/// The first broken rule among these parameters, by the table of their names.
fn breach_among(
    meanings: &Meanings<'_>,
    runner: bool,
    params: &Params<'_>,
    names: &Names<'_>,
) -> Option<Breach>
    requires { TellsNames names.now (map rules.declared_name params.now.list.now) }
    ensures { result
        ≡ first_breach (flat_map (rules.param_rows meanings.now.gathered.now runner params.now.list.now)
        params.now.list.now) }
{
    let list = params.list;
    for p in list {
        let is_second = names.is_second(p.token, p.name.bytes());
        let breach = param_breach(meanings, runner, params, is_second, p);
        if breach.is_some() {
            return breach;
        }
    }
    None
}

/// The first broken rule among the parameters of a function.
pub fn params_breach(
    alloc: Global,
    meanings: &Meanings<'_>,
    runner: bool,
    list: &[Declared],
) -> Result<Option<Breach>, AllocError>
    ensures { IfOk result (λ b. b
        ≡ first_breach (flat_map (rules.param_rows meanings.now.gathered.now runner list.now) list.now)) }
{
    let params = Params::new(alloc, list)?;
    let names = declared_names(alloc, list)?;
    Ok(breach_among(meanings, runner, &params, &names))
}
