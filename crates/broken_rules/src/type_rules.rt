//! The rules of types, members and enumerators.

ghost use Rattle.std.specs.Prelude.{◌≡◌, ℕ, List, IfOk, map, slice_get};
ghost use Rattle.std.specs.List.{flat_map};
ghost use Rattle.edl_grammar.specs.declared.NameAt.{NameAt};
ghost use Rattle.edl_layout.specs.Meaning.{members_of as members_in};
ghost use Rattle.broken_rules.specs.Breaches.{first_breach};
ghost use Rattle.broken_rules.specs.Names.{TellsNames};
ghost use Rattle.attr_terms.specs.Rules as rules;

use crate::names::{Names, declared_names, enumerator_names, token_of, type_names};
use crate::rows::{Breach, broken_at, row};
use attr_terms::Broken;
use attr_terms::meanings::name_of;
use edl_grammar::{Declared, EdlFile, EnumValue, TypeDecl};
use std::alloc::{AllocError, Global};

/// Whether a dimension is empty or 0.
pub fn has_no_length(d: &Declared) -> bool
    ensures { result ≡ rules.has_no_length d.now }
{
    d.dims.as_slice().iter().any(|n| n.unwrap_or(0) == 0)
}

/// The members of a declared type: none of an enumeration.
fn members_of(decl: &TypeDecl) -> &[Declared]
    ensures { result.now ≡ members_in decl.now }
{
    match decl {
        TypeDecl::Enumeration { .. } => &[],
        TypeDecl::Structure { members, .. } => members.as_slice(),
        TypeDecl::Union { members, .. } => members.as_slice(),
    }
}

/// The enumerators of a declared type.
fn values_of(decl: &TypeDecl) -> &[EnumValue]
    ensures { result.now ≡ rules.values_of decl.now }
{
    match decl {
        TypeDecl::Enumeration { values, .. } => values.as_slice(),
        TypeDecl::Structure { .. } => &[],
        TypeDecl::Union { .. } => &[],
    }
}

/// The first broken rule of a member, whose name stands before or not.
fn member_breach(m: &Declared, is_second: bool) -> Option<Breach>
    ensures { (members : List Declared)
        → is_second ≡ rules.is_second (map rules.declared_name members) (rules.declared_name m.now)
        → result ≡ first_breach (rules.member_rows members m.now) }
{
    row(29, has_no_length(m), m.token).or(row(31, is_second, m.token))
}

/// The first broken rule among the members of a type.
fn members_breach(alloc: Global, members: &[Declared]) -> Result<Option<Breach>, AllocError>
    ensures { IfOk result (λ b. b ≡ first_breach (flat_map (rules.member_rows members.now) members.now)) }
{
    let names = declared_names(alloc, members)?;
    for m in members {
        let breach = member_breach(m, names.is_second(m.token, m.name.bytes()));
        if breach.is_some() {
            return Ok(breach);
        }
    }
    Ok(None)
}

fn value_breach(v: &EnumValue, names: &Names<'_>) -> Option<Breach>
    ensures { (list : List NameAt) → TellsNames names.now list → result ≡ first_breach (rules.value_rows list v.now) }
{
    row(31, names.is_second(v.token, v.name.bytes()), v.token)
}

/// The first broken rule among enumerators, by the names of all of their file.
fn values_breach(values: &[EnumValue], names: &Names<'_>) -> Option<Breach>
    ensures { (list : List NameAt) → TellsNames names.now list
        → result ≡ first_breach (flat_map (rules.value_rows list) values.now) }
{
    for v in values {
        let breach = value_breach(v, names);
        if breach.is_some() {
            return breach;
        }
    }
    None
}

/// Whether the type's name stands at an earlier token too.
fn is_second_type(decl: &TypeDecl, names: &Names<'_>) -> bool
    ensures { (list : List NameAt) → TellsNames names.now list
        → result ≡ rules.is_second_name list (rules.type_name decl.now) }
{
    match name_of(decl) {
        Some(name) => names.is_second(token_of(decl), name.bytes()),
        None => false,
    }
}

/// The first broken rule of a type, by the names of its file's types and enumerators.
fn type_breach(
    alloc: Global,
    decl: &TypeDecl,
    types: &Names<'_>,
    values: &Names<'_>,
) -> Result<Option<Breach>, AllocError>
    ensures { IfOk result (λ b. (ts vs : List NameAt) → TellsNames types.now ts → TellsNames values.now vs
        → b ≡ first_breach (rules.type_rows_in ts vs decl.now)) }
{
    let own = row(31, is_second_type(decl, types), token_of(decl));
    if own.is_some() {
        return Ok(own);
    }
    let of_member = members_breach(alloc, members_of(decl))?;
    Ok(of_member.or(values_breach(values_of(decl), values)))
}

/// The first broken rule among these types of a file, by the names of all its types and enumerators.
fn broken_among(
    alloc: Global,
    file: u32,
    decls: &[TypeDecl],
    types: &Names<'_>,
    values: &Names<'_>,
) -> Result<Option<Broken>, AllocError>
    ensures { IfOk result (λ b. (ts vs : List NameAt) → TellsNames types.now ts → TellsNames values.now vs
        → b ≡ slice_get (flat_map (λ t. rules.broken_in file (rules.type_rows_in ts vs t)) decls.now) 0) }
{
    for decl in decls {
        let broken = broken_at(file, type_breach(alloc, decl, types, values)?);
        if broken.is_some() {
            return Ok(broken);
        }
    }
    Ok(None)
}

/// The first broken rule of a file's types.
pub fn broken_type(alloc: Global, file: u32, tree: &EdlFile) -> Result<Option<Broken>, AllocError>
    ensures { IfOk result (λ b. b
        ≡ slice_get (flat_map (λ t. rules.broken_in file (rules.type_rows_in (rules.type_names tree.now)
        (rules.enumerator_names tree.now) t)) tree.now.types) 0) }
{
    let types = type_names(alloc, tree)?;
    let values = enumerator_names(alloc, tree)?;
    let broken = broken_among(alloc, file, tree.types.as_slice(), &types, &values)?;
    Ok(broken)
}
