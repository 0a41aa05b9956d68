//! Tables of the declared and the foreign types by name, and what a written type is.

ghost use Rattle.std.specs.Prelude.{◌≡◌, ◌||◌, ◌<◌, ℕ, List, [], ◌++◌, map, find, length, slice_get, Some, None, option_map, IfOk, OnOk};
ghost use Rattle.std.specs.Option.{option_copied};
ghost use Rattle.std.specs.Str.{bytes_eq};
ghost use Rattle.edl_grammar.specs.declared.Tag.TheVariants as tag;
ghost use Rattle.edl_grammar.specs.Files.{TypeIn, types_of};
ghost use Rattle.edl_layout.specs.Meaning as spec;
ghost use Rattle.edl_layout.specs.Named.{seen, is_under, is_name, first_from, Finds, IsDeclarations, IsEmpty};
ghost use Rattle.edl_layout.specs.Targets.{IsTarget, IsHeld, standard_size};

use crate::extents::Extent;
use crate::{ForeignType, ForeignTypes};
use edl_grammar::{Base, Declared, Gathered, Tag, TypeDecl, Written};
use indexmap::IndexMap;
use std::alloc::{AllocError, Global};

/// A declared type, and the number of the file that declares it.
#[derive(Clone, Copy)]
pub(crate) struct TypeAt<'a> {
    pub(crate) file: u32,
    pub(crate) decl: &'a TypeDecl,
}

/// The declared types in order, and the numbers of the first ones by name.
#[derive(Drop)]
pub(crate) struct Declarations<'a> {
    pub(crate) gathered: &'a Gathered,
    pub(crate) foreign: &'a ForeignTypes,
    pub(crate) types: Vec<TypeAt<'a>>,
    pub(crate) bare: IndexMap<&'a [u8], usize>,
    pub(crate) enumerations: IndexMap<&'a [u8], usize>,
    pub(crate) structures: IndexMap<&'a [u8], usize>,
    pub(crate) unions: IndexMap<&'a [u8], usize>,
    pub(crate) foreign_names: IndexMap<&'a [u8], usize>,
}

/// What a written type is without its stars. A declared type is its number.
#[derive(Clone, Copy)]
pub(crate) enum Target {
    Void,
    Fixed(Extent),
    Unsized,
    Undeclared,
    Declared(usize),
}

/// The members of a type.
pub(crate) fn members_of(decl: &TypeDecl) -> &[Declared]
    ensures { result.now ≡ spec.members_of decl.now }
{
    match decl {
        TypeDecl::Enumeration { .. } => &[],
        TypeDecl::Structure { members, .. } => members.as_slice(),
        TypeDecl::Union { members, .. } => members.as_slice(),
    }
}

/// Puts the types of one file behind the others.
fn push_types<'a>(
    types: &mut Vec<TypeAt<'a>>,
    file: u32,
    decls: &'a [TypeDecl],
) -> Result<(), AllocError>
    ensures { IfOk result (λ _. map seen types.new.items
        ≡ map seen types.old.items ++ map (λ d. record { file = file; decl = d }) decls.now) }
{
    for decl in decls {
        types.push(TypeAt { file, decl })?;
    }
    Ok(())
}

/// Puts the declared types in order of reading into an empty list. There may be 2^32 files at most.
fn push_all<'a>(types: &mut Vec<TypeAt<'a>>, gathered: &'a Gathered) -> Result<(), AllocError>
    requires { types.old.items ≡ [] }
    ensures { OnOk result (map seen types.new.items ≡ types_of gathered.now) }
{
    for (i, file) in gathered.files.as_slice().iter().enumerate() {
        let Ok(number) = u32::try_from(i) else {
            return Err(AllocError);
        };
        push_types(types, number, file.tree.types.as_slice())?;
    }
    Ok(())
}

/// The name of a declared type where it has this tag, or with any tag.
fn name_under<'a>(decl: &'a TypeDecl, tag: Option<Tag>) -> Option<&'a [u8]>
    ensures { (file : ℕ) (name : List ℕ) → is_under tag name (record { file = file; decl = decl.now })
        ≡ is_name result name }
{
    match decl {
        TypeDecl::Enumeration { name, .. } => match tag {
            None | Some(Tag::Enum) => name.as_ref().map(|name| name.bytes()),
            Some(_) => None,
        },
        TypeDecl::Structure { name, .. } => match tag {
            None | Some(Tag::Struct) => Some(name.bytes()),
            Some(_) => None,
        },
        TypeDecl::Union { name, .. } => match tag {
            None | Some(Tag::Union) => Some(name.bytes()),
            Some(_) => None,
        },
    }
}

/// Puts the numbers of the first types by name, among those with this tag or among all, into an empty table.
fn put_types<'a>(
    table: &mut IndexMap<&'a [u8], usize>,
    types: &[TypeAt<'a>],
    tag: Option<Tag>,
) -> Result<(), AllocError>
    requires { table.old.entries ≡ [] }
    ensures { OnOk result (Finds (is_under tag) (map seen types.now) table.new.entries) }
{
    for i in (0..types.len()).rev() {
        if let Some(name) = name_under(types[i].decl, tag) {
            table.insert(name, i)?;
        }
    }
    Ok(())
}

/// Puts the numbers of the first foreign types by name into an empty table.
fn put_foreign<'a>(
    table: &mut IndexMap<&'a [u8], usize>,
    types: &'a [ForeignType],
) -> Result<(), AllocError>
    requires { table.old.entries ≡ [] }
    ensures { OnOk result (Finds (λ name t. bytes_eq t.name name) types.now table.new.entries) }
{
    for i in (0..types.len()).rev() {
        table.insert(types[i].name.bytes(), i)?;
    }
    Ok(())
}

/// Whether the name is this word.
fn is_word(name: &[u8], word: &[u8]) -> bool
    ensures { result ≡ bytes_eq word.now name.now }
{
    word == name
}

/// Whether the name is one of two.
fn is_either(name: &[u8], first: &[u8], second: &[u8]) -> bool
    ensures { result ≡ (bytes_eq first.now name.now || bytes_eq second.now name.now) }
{
    is_word(name, first) || is_word(name, second)
}

/// The size in bytes of a standard type that has no word of its own.
fn standard_size_of(name: &[u8]) -> Option<u32>
    ensures { result ≡ standard_size name.now }
{
    if is_either(name, b"int8_t", b"uint8_t") {
        Some(1)
    } else if is_either(name, b"int16_t", b"uint16_t") {
        Some(2)
    } else if is_either(name, b"int32_t", b"uint32_t") {
        Some(4)
    } else if is_either(name, b"int64_t", b"uint64_t") {
        Some(8)
    } else if is_word(name, b"wchar_t") {
        Some(4)
    } else if is_word(name, b"size_t") {
        Some(8)
    } else {
        None
    }
}

impl<'a> Declarations<'a> {
    /// Tables of these files and foreign types that have no names yet.
    pub(crate) fn empty(
        alloc: Global,
        gathered: &'a Gathered,
        foreign: &'a ForeignTypes,
    ) -> Declarations<'a>
        ensures empty { IsEmpty result }
        ensures files { result.gathered.now ≡ gathered.now }
        ensures foreign { result.foreign.now ≡ foreign.now }
    {
        Declarations {
            gathered,
            foreign,
            types: Vec::new(alloc),
            bare: IndexMap::new(alloc),
            enumerations: IndexMap::new(alloc),
            structures: IndexMap::new(alloc),
            unions: IndexMap::new(alloc),
            foreign_names: IndexMap::new(alloc),
        }
    }

    /// Puts all names into empty tables.
    pub(crate) fn fill(&mut self) -> Result<(), AllocError>
        requires { IsEmpty self.old }
        ensures tables { OnOk result (IsDeclarations self.new) }
        ensures files { self.new.gathered.now ≡ self.old.gathered.now }
        ensures foreign { self.new.foreign.now ≡ self.old.foreign.now }
    {
        push_all(&mut self.types, self.gathered)?;
        put_types(&mut self.bare, self.types.as_slice(), None)?;
        put_types(
            &mut self.enumerations,
            self.types.as_slice(),
            Some(Tag::Enum),
        )?;
        put_types(
            &mut self.structures,
            self.types.as_slice(),
            Some(Tag::Struct),
        )?;
        put_types(&mut self.unions, self.types.as_slice(), Some(Tag::Union))?;
        put_foreign(&mut self.foreign_names, self.foreign.types.as_slice())?;
        Ok(())
    }

    /// The declaration of the type of this number.
    pub(crate) fn decl_at(&self, number: usize) -> &TypeDecl
        requires tables { IsDeclarations self.now }
        requires within { number < length (types_of self.now.gathered.now) }
        ensures { (t : TypeIn) → slice_get (types_of self.now.gathered.now) number ≡ Some t → t.decl ≡ result.now }
    {
        self.types[number].decl
    }

    /// The number of the file that declares the type of this number.
    pub(crate) fn file_at(&self, number: usize) -> u32
        requires tables { IsDeclarations self.now }
        requires within { number < length (types_of self.now.gathered.now) }
        ensures { (t : TypeIn) → slice_get (types_of self.now.gathered.now) number ≡ Some t → t.file ≡ result }
    {
        self.types[number].file
    }

    /// How many types there are.
    pub(crate) fn count(&self) -> usize
        requires { IsDeclarations self.now }
        ensures { result ≡ length (types_of self.now.gathered.now) }
    {
        self.types.len()
    }

    /// The number of the first type that a name finds, bare or behind a tag.
    fn first_under(&self, tag: Option<Tag>, name: &[u8]) -> Option<usize>
        requires { IsDeclarations self.now }
        ensures { result ≡ first_from (is_under tag name.now) 0 (types_of self.now.gathered.now) }
    {
        match tag {
            None => self.bare.get(name).copied(),
            Some(Tag::Enum) => self.enumerations.get(name).copied(),
            Some(Tag::Struct) => self.structures.get(name).copied(),
            Some(Tag::Union) => self.unions.get(name).copied(),
        }
    }

    /// The declaration of the first type of this name.
    pub(crate) fn declared(&self, name: &[u8]) -> Option<&TypeDecl>
        requires { IsDeclarations self.now }
        ensures { option_copied result
            ≡ option_map (λ t. t.decl) (find (spec.is_named name.now) (types_of self.now.gathered.now)) }
    {
        match self.first_under(None, name) {
            Some(number) => Some(self.decl_at(number)),
            None => None,
        }
    }

    /// The name of the type of this number, where it has one.
    pub(crate) fn name_at(&self, number: usize) -> Option<&[u8]>
        requires tables { IsDeclarations self.now }
        requires within { number < length (types_of self.now.gathered.now) }
        ensures { (t : TypeIn) (name : List ℕ) → slice_get (types_of self.now.gathered.now) number ≡ Some t
            → spec.is_named name t ≡ is_name result name }
    {
        name_under(self.decl_at(number), None)
    }

    /// The number of the first foreign type of this name.
    fn foreign_number(&self, name: &[u8]) -> Option<usize>
        requires { IsDeclarations self.now }
        ensures { result ≡ first_from (λ t. bytes_eq t.name name.now) 0 self.now.foreign.now.types }
    {
        self.foreign_names.get(name).copied()
    }

    /// What a name is that is neither declared nor standard.
    fn foreign_target(&self, name: &[u8]) -> Target
        requires { IsDeclarations self.now }
        ensures { IsTarget (types_of self.now.gathered.now)
            (spec.foreign_meaning self.now.gathered.now self.now.foreign.now name.now) result }
    {
        match self.foreign_number(name) {
            Some(number) => match self.foreign.types.get(number) {
                Some(t) => Target::Fixed(Extent {
                    size: t.size,
                    align: t.align,
                }),
                None => Target::Undeclared,
            },
            None if self.foreign.lenient => Target::Unsized,
            None => Target::Undeclared,
        }
    }

    /// What a bare name is: the declared type of that name, else the standard one, else the foreign one.
    pub(crate) fn bare_target(&self, name: &[u8]) -> Target
        requires { IsDeclarations self.now }
        ensures { IsTarget (types_of self.now.gathered.now)
            (spec.bare_meaning self.now.gathered.now self.now.foreign.now name.now) result }
    {
        if let Some(number) = self.first_under(None, name) {
            return Target::Declared(number);
        }
        match standard_size_of(name) {
            Some(size) => Target::Fixed(Extent::square(size)),
            None => self.foreign_target(name),
        }
    }

    /// What a type is without its stars.
    pub(crate) fn target(&self, base: &Base) -> Target
        requires { IsDeclarations self.now }
        ensures { IsTarget (types_of self.now.gathered.now) (spec.meaning self.now.gathered.now self.now.foreign.now
            base.now) result }
    {
        match base {
            Base::Void => Target::Void,
            Base::Float => Target::Fixed(Extent::square(4)),
            Base::Double => Target::Fixed(Extent::square(8)),
            Base::Integer { size, .. } => Target::Fixed(Extent::square(*size)),
            Base::Bare(name) => self.bare_target(name.bytes()),
            Base::Tagged { tag, name } => match self.first_under(Some(*tag), name.bytes()) {
                Some(number) => Target::Declared(number),
                None => Target::Undeclared,
            },
        }
    }

    /// The number of the type that something of this type holds by value.
    pub(crate) fn held(&self, written: &Written) -> Option<usize>
        requires { IsDeclarations self.now }
        ensures { IsHeld (types_of self.now.gathered.now)
            (spec.held_by (spec.meaning self.now.gathered.now self.now.foreign.now written.now.base)
            written.now.stars) result }
    {
        if written.stars > 0 {
            return None;
        }
        match self.target(&written.base) {
            Target::Declared(number) => Some(number),
            _ => None,
        }
    }
}
