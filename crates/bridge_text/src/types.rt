//! The types of an interface, as they are printed.

ghost use Rattle.std.specs.Prelude.{◌≡◌, ℕ, ◌++◌, ◌+◌, ◌^◌, negsuc, pos, int_lt, true, OnOk, flat_map};
ghost use Rattle.edl_layout.specs.Faults.{literal_of, value_after as value_after_of};
ghost use Rattle.bridge_text.specs.Types as types;

use crate::declarations::put_declaration;
use crate::templates::{at, put_line};
use edl_grammar::{Declared, EnumValue, Gathered, TypeDecl};
use sgx_base::Name;
use std::alloc::{AllocError, Global};

/// Appends a member of a structure or a union.
fn put_member(alloc: Global, out: &mut Vec<u8>, member: &Declared) -> Result<(), AllocError>
    ensures { OnOk result (out.new.items ≡ out.old.items ++ types.member_line member.now) }
{
    let mut text = Vec::new(alloc);
    put_declaration(alloc, &mut text, member)?;
    put_line(out, &[at(b'D', &text)], "    $D;")
}

/// Appends the members of a structure or a union.
fn put_members(alloc: Global, out: &mut Vec<u8>, members: &[Declared]) -> Result<(), AllocError>
    ensures { OnOk result (out.new.items ≡ out.old.items ++ flat_map types.member_line members.now) }
{
    for member in members {
        put_member(alloc, out, member)?;
    }
    Ok(())
}

/// Appends a structure.
fn put_structure(
    alloc: Global,
    out: &mut Vec<u8>,
    name: &[u8],
    members: &[Declared],
) -> Result<(), AllocError>
    ensures { OnOk result (out.new.items ≡ out.old.items ++ types.compound "struct" name.now members.now) }
{
    put_line(
        out,
        &[at(b'K', b"struct"), at(b'X', name)],
        "typedef $K $X {",
    )?;
    put_members(alloc, out, members)?;
    put_line(out, &[at(b'X', name)], "} $X;")
}

/// Appends a union.
fn put_union(
    alloc: Global,
    out: &mut Vec<u8>,
    name: &[u8],
    members: &[Declared],
) -> Result<(), AllocError>
    ensures { OnOk result (out.new.items ≡ out.old.items ++ types.compound "union" name.now members.now) }
{
    put_line(
        out,
        &[at(b'K', b"union"), at(b'X', name)],
        "typedef $K $X {",
    )?;
    put_members(alloc, out, members)?;
    put_line(out, &[at(b'X', name)], "} $X;")
}

/// The number with its sign.
fn literal(negative: bool, number: u64) -> i128
    ensures { result ≡ literal_of negative number }
{
    let number = i128::from(number);
    if negative { -number } else { number }
}

/// The value that is written, or one more than the one before.
fn value_after(before: i128, value: &EnumValue) -> i128
    requires { int_lt before (pos (2 ^ 66)) ≡ true }
    ensures value { result ≡ value_after_of before value.now }
    ensures below { (k : ℕ) → int_lt before (pos (2 ^ 64 + k)) ≡ true →
        int_lt result (pos (2 ^ 64 + (k + 1))) ≡ true }
{
    match value.number {
        Some(number) => literal(value.negative, number),
        None => before + 1,
    }
}

/// Appends an enumerator of this value.
fn put_enumerator(
    alloc: Global,
    out: &mut Vec<u8>,
    enumerator: &EnumValue,
    value: i128,
) -> Result<(), AllocError>
    ensures { OnOk result (out.new.items ≡ out.old.items ++ types.enum_line enumerator.now value) }
{
    let number = value.to_string(alloc)?;
    put_line(
        out,
        &[
            at(b'M', enumerator.name.bytes()),
            at(b'V', number.as_bytes()),
        ],
        "    $M = $V,",
    )
}

/// Appends the enumerators of a type.
fn put_enumerators(alloc: Global, out: &mut Vec<u8>, values: &[EnumValue]) -> Result<(), AllocError>
    ensures { OnOk result (out.new.items ≡ out.old.items ++ types.enum_lines (negsuc 0) values.now) }
{
    let mut before = -1;
    for value in values {
        before = value_after(before, value);
        put_enumerator(alloc, out, value, before)?;
    }
    Ok(())
}

/// Appends the first line of an enumeration with a name.
#[tactic(auto, unfolding(crate::specs::Types::enum_head))]
fn put_enum_head(out: &mut Vec<u8>, name: &[u8]) -> Result<(), AllocError>
    ensures { OnOk result (out.new.items ≡ out.old.items ++ types.enum_head name.now) }
{
    put_line(out, &[at(b'X', name)], "typedef enum $X {")
}

/// Appends the last line of an enumeration with a name.
#[tactic(auto, unfolding(crate::specs::Types::enum_foot))]
fn put_enum_foot(out: &mut Vec<u8>, name: &[u8]) -> Result<(), AllocError>
    ensures { OnOk result (out.new.items ≡ out.old.items ++ types.enum_foot name.now) }
{
    put_line(out, &[at(b'X', name)], "} $X;")
}

/// Appends an enumeration with a name.
fn put_named_enumeration(
    alloc: Global,
    out: &mut Vec<u8>,
    name: &[u8],
    values: &[EnumValue],
) -> Result<(), AllocError>
    ensures { OnOk result (out.new.items ≡ out.old.items ++ types.named_enumeration name.now values.now) }
{
    put_enum_head(out, name)?;
    put_enumerators(alloc, out, values)?;
    put_enum_foot(out, name)
}

/// Appends an enumeration without a name.
fn put_bare_enumeration(
    alloc: Global,
    out: &mut Vec<u8>,
    values: &[EnumValue],
) -> Result<(), AllocError>
    ensures { OnOk result (out.new.items ≡ out.old.items ++ types.bare_enumeration values.now) }
{
    put_line(out, &[], "enum {")?;
    put_enumerators(alloc, out, values)?;
    put_line(out, &[], "};")
}

/// Appends an enumeration.
fn put_enumeration(
    alloc: Global,
    out: &mut Vec<u8>,
    name: &Option<Name>,
    values: &[EnumValue],
) -> Result<(), AllocError>
    ensures { OnOk result (out.new.items ≡ out.old.items ++ types.enumeration name.now values.now) }
{
    match name {
        Some(name) => put_named_enumeration(alloc, out, name.bytes(), values),
        None => put_bare_enumeration(alloc, out, values),
    }
}

/// Appends a type.
fn put_type_decl(alloc: Global, out: &mut Vec<u8>, decl: &TypeDecl) -> Result<(), AllocError>
    ensures { OnOk result (out.new.items ≡ out.old.items ++ types.type_lines decl.now) }
{
    match decl {
        TypeDecl::Enumeration { name, values, .. } => put_enumeration(
            alloc,
            out,
            name,
            values.as_slice(),
        ),
        TypeDecl::Structure { name, members, .. } => put_structure(
            alloc,
            out,
            name.bytes(),
            members.as_slice(),
        ),
        TypeDecl::Union { name, members, .. } => put_union(
            alloc,
            out,
            name.bytes(),
            members.as_slice(),
        ),
    }
}

/// Appends the types of a file.
fn put_file_types(alloc: Global, out: &mut Vec<u8>, decls: &[TypeDecl]) -> Result<(), AllocError>
    ensures { OnOk result (out.new.items ≡ out.old.items ++ flat_map types.type_lines decls.now) }
{
    for decl in decls {
        put_type_decl(alloc, out, decl)?;
    }
    Ok(())
}

/// Appends every type, in order of reading.
pub fn put_types(alloc: Global, out: &mut Vec<u8>, gathered: &Gathered) -> Result<(), AllocError>
    ensures { OnOk result (out.new.items ≡ out.old.items ++ types.all_types gathered.now) }
{
    for file in gathered.files.as_slice() {
        put_file_types(alloc, out, file.tree.types.as_slice())?;
    }
    Ok(())
}
