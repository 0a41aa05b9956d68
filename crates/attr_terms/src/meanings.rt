//! What types mean at the rules: each bare name that is neither declared nor standard is foreign.

ghost use Rattle.std.specs.Prelude.{◌≡◌, ℕ, List, OnOk, IfOk, Some, if◌then◌else◌, option_copied, fold};
ghost use Rattle.std.specs.Str.{bytes_eq};
ghost use Rattle.edl_grammar.specs.declared.Base.TheVariants as base;
ghost use Rattle.edl_grammar.specs.Files.{types_of, name_of as name_in};
ghost use Rattle.attr_terms.specs.Attributes as attributes;
ghost use Rattle.attr_terms.specs.Kinds as kinds;

use crate::attributes::is;
use edl_grammar::{Base, Gathered, Tag, TypeDecl};
use indexmap::IndexMap;
use sgx_base::Name;
use std::alloc::{AllocError, Global};

/// What a type means without its stars.
#[derive(Clone, Copy, Debug, PartialEq, Eq)]
pub enum Meant {
    Void,
    /// `float` or `double`, by size in bytes.
    Real(u32),
    /// An integer, by size in bytes.
    Integer { size: u32, signed: bool },
    /// A declared type, by its word.
    Declared(Tag),
    /// A name that is neither declared nor standard.
    Foreign,
    /// A word and a name that no declared type has.
    Undeclared,
}

/// The declared types of one name: the word of the first, and whether one of them has each word.
#[derive(Clone, Copy, Debug, PartialEq, Eq)]
struct Kinds {
    first: Tag,
    has_enum: bool,
    has_struct: bool,
    has_union: bool,
}

/// The kinds of one name, with one type more.
fn with_tag(known: Option<Kinds>, tag: Tag) -> Kinds
    ensures { result ≡ kinds.with_tag known tag }
{
    let is_enum = matches!(tag, Tag::Enum);
    let is_struct = matches!(tag, Tag::Struct);
    let is_union = matches!(tag, Tag::Union);
    match known {
        Some(known) => Kinds {
            first: known.first,
            has_enum: known.has_enum || is_enum,
            has_struct: known.has_struct || is_struct,
            has_union: known.has_union || is_union,
        },
        None => Kinds {
            first: tag,
            has_enum: is_enum,
            has_struct: is_struct,
            has_union: is_union,
        },
    }
}

/// Whether one of the types has this word.
fn has_kind(tag: Tag, known: Option<Kinds>) -> bool
    ensures { result ≡ kinds.has_kind tag known }
{
    match known {
        Some(known) => match tag {
            Tag::Enum => known.has_enum,
            Tag::Struct => known.has_struct,
            Tag::Union => known.has_union,
        },
        None => false,
    }
}

/// The word of a declared type.
fn tag_of(decl: &TypeDecl) -> Tag
    ensures { result ≡ kinds.tag_of decl.now }
{
    match decl {
        TypeDecl::Enumeration { .. } => Tag::Enum,
        TypeDecl::Structure { .. } => Tag::Struct,
        TypeDecl::Union { .. } => Tag::Union,
    }
}

/// The name of a declared type, where it has one.
pub fn name_of(decl: &TypeDecl) -> Option<&Name>
    ensures { option_copied result ≡ name_in decl.now }
{
    match decl {
        TypeDecl::Enumeration { name, .. } => name.as_ref(),
        TypeDecl::Structure { name, .. } | TypeDecl::Union { name, .. } => Some(name),
    }
}

/// Puts a type of this name into the table.
fn mark<'a>(
    table: &mut IndexMap<&'a [u8], Kinds>,
    name: &'a [u8],
    tag: Tag,
) -> Result<(), AllocError>
    ensures { OnOk result ((q : List ℕ) → kinds.told table.new q
        ≡ (if bytes_eq name.now q then Some (kinds.with_tag (kinds.told table.old q) tag) else kinds.told table.old
        q)) }
{
    let known = table.get(name).copied();
    table.insert(name, with_tag(known, tag))?;
    Ok(())
}

/// Puts a declared type into the table.
fn mark_type<'a>(
    table: &mut IndexMap<&'a [u8], Kinds>,
    decl: &'a TypeDecl,
) -> Result<(), AllocError>
    ensures { OnOk result ((q : List ℕ) → kinds.told table.new q
        ≡ kinds.with_decl q (kinds.told table.old q) decl.now) }
{
    match name_of(decl) {
        Some(name) => mark(table, name.bytes(), tag_of(decl)),
        None => Ok(()),
    }
}

/// Puts the types of a file into the table.
fn mark_types<'a>(
    table: &mut IndexMap<&'a [u8], Kinds>,
    decls: &'a [TypeDecl],
) -> Result<(), AllocError>
    ensures { OnOk result ((q : List ℕ) → kinds.told table.new q
        ≡ fold (kinds.with_decl q) (kinds.told table.old q) decls.now) }
{
    for decl in decls {
        mark_type(table, decl)?;
    }
    Ok(())
}

/// The kinds of the declared types, by name.
fn kinds_by_name<'a>(
    alloc: Global,
    gathered: &'a Gathered,
) -> Result<IndexMap<&'a [u8], Kinds>, AllocError>
    ensures { IfOk result (λ table. (q : List ℕ) → kinds.told table q ≡ kinds.kinds_of q (types_of gathered.now)) }
{
    let mut table = IndexMap::new(alloc);
    for file in gathered.files.as_slice() {
        mark_types(&mut table, file.tree.types.as_slice())?;
    }
    Ok(table)
}

/// The standard type of this name.
fn standard(name: &[u8]) -> Option<Meant>
    ensures { result ≡ kinds.standard_kind name.now }
{
    let (size, signed) = if is(b"int8_t", name) {
        (1, true)
    } else if is(b"uint8_t", name) {
        (1, false)
    } else if is(b"int16_t", name) {
        (2, true)
    } else if is(b"uint16_t", name) {
        (2, false)
    } else if is(b"int32_t", name) {
        (4, true)
    } else if is(b"uint32_t", name) {
        (4, false)
    } else if is(b"int64_t", name) {
        (8, true)
    } else if is(b"uint64_t", name) {
        (8, false)
    } else if is(b"wchar_t", name) {
        (4, true)
    } else if is(b"size_t", name) {
        (8, false)
    } else {
        return None;
    };
    Some(Meant::Integer { size, signed })
}

/// What the types of gathered files mean.
#[derive(Drop)]
pub struct Meanings<'a> {
    pub gathered: &'a Gathered,
    table: IndexMap<&'a [u8], Kinds>,
    ghost by_name: { (q : List ℕ) → kinds.told table q ≡ kinds.kinds_of q (types_of gathered.now) },
}

impl<'a> Meanings<'a> {
    /// What the types of these files mean.
    pub fn new(alloc: Global, gathered: &'a Gathered) -> Result<Meanings<'a>, AllocError>
        ensures { IfOk result (λ m. m.gathered.now ≡ gathered.now) }
    {
        let table = kinds_by_name(alloc, gathered)?;
        Ok(Meanings { gathered, table })
    }

    fn bare(&self, name: &[u8]) -> Meant
        ensures { result ≡ kinds.bare_kind (kinds.told self.now.table name.now) (kinds.standard_kind name.now) }
    {
        match self.table.get(name) {
            Some(kinds) => Meant::Declared(kinds.first),
            None => standard(name).unwrap_or(Meant::Foreign),
        }
    }

    fn tagged(&self, tag: Tag, name: &[u8]) -> Meant
        ensures { result ≡ kinds.tagged_kind tag (kinds.told self.now.table name.now) }
    {
        if has_kind(tag, self.table.get(name).copied()) {
            Meant::Declared(tag)
        } else {
            Meant::Undeclared
        }
    }

    /// What a bare name means.
    pub fn named(&self, name: &[u8]) -> Meant
        ensures { result ≡ kinds.kind_of (attributes.meant self.now.gathered.now (base.Bare name.now)) }
    {
        self.bare(name)
    }

    /// What the base of a type means.
    pub fn meant(&self, base: &Base) -> Meant
        ensures { result ≡ kinds.kind_of (attributes.meant self.now.gathered.now base.now) }
    {
        match base {
            Base::Void => Meant::Void,
            Base::Float => Meant::Real(4),
            Base::Double => Meant::Real(8),
            Base::Integer { size, signed } => Meant::Integer {
                size: *size,
                signed: *signed,
            },
            Base::Bare(name) => self.bare(name.bytes()),
            Base::Tagged { tag, name } => self.tagged(*tag, name.bytes()),
        }
    }

    /// Whether the base is an integer.
    pub fn is_integer(&self, base: &Base) -> bool
        ensures { result ≡ attributes.is_integer_meaning (attributes.meant self.now.gathered.now base.now) }
    {
        matches!(self.meant(base), Meant::Integer { size, .. } if size <= 8)
    }

    /// Whether the base is a foreign type.
    pub fn is_foreign(&self, base: &Base) -> bool
        ensures { result ≡ attributes.is_foreign_meaning (attributes.meant self.now.gathered.now base.now) }
    {
        matches!(self.meant(base), Meant::Foreign)
    }

    /// Whether the base is a structure or a union.
    pub fn is_aggregate(&self, base: &Base) -> bool
        ensures { result ≡ attributes.is_aggregate (attributes.meant self.now.gathered.now base.now) }
    {
        matches!(self.meant(base), Meant::Declared(Tag::Struct | Tag::Union))
    }
}
