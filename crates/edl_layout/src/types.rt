//! The types of gathered files and foreign types, once each declared one is clean.

ghost use Rattle.std.specs.Prelude.{◌≡◌, ◌<◌, ℕ, List, All, find, length, slice_get, Some, option_map, IfOk, IfErr};
ghost use Rattle.std.specs.Option.{option_copied};
ghost use Rattle.edl_grammar.specs.Files.{TypeIn, types_of};
ghost use Rattle.edl_layout.specs.Faults.{FaultAmong, IsCleanType, TypeFault};
ghost use Rattle.edl_layout.specs.Filled.{IsExtent};
ghost use Rattle.edl_layout.specs.Judged.{AreTypes, meant_by as meant_by_size};
ghost use Rattle.edl_layout.specs.Meaning.{bare_meaning, is_named};
ghost use Rattle.edl_layout.specs.Meant.{IsMeant};
ghost use Rattle.edl_layout.specs.Named.{is_name, IsDeclarations};
ghost use Rattle.edl_layout.specs.Pushed.{known_of};

use crate::extents::Extent;
use crate::faults::check_types;
use crate::sizes::{TypeSize, size_at, sizes_of};
use crate::tables::{Declarations, Target};
use crate::{ForeignType, LayoutFault};
use edl_grammar::{Base, Gathered, TypeDecl};
use sqlite_items::Items;
use std::alloc::Global;
use std::marker::Model;

/// What is known of a type without its stars.
#[derive(Clone, Copy)]
pub(crate) enum Meant {
    Void,
    Known(Extent),
    Unsized,
    Undeclared,
}

/// The types of gathered files and foreign types, each declared one without a fault.
#[derive(Drop)]
pub(crate) struct Types<'a> {
    tables: &'a Declarations<'a>,
    sizes: &'a [TypeSize],
}

impl<'a> Model for Types<'a> {
    ghost use Rattle.edl_layout.specs.Typed.{Typed};
    ghost use Rattle.edl_layout.specs.Judged.{AreTypes};

    ghost Value = { Typed };

    ghost view = { λ t. record { gathered = t.tables.now.gathered.now; foreign = t.tables.now.foreign.now } };

    ghost invariant = { λ t. AreTypes t.tables.now t.sizes.now };
}

/// The sizes of the declared types, or the fault of the first one that has one.
pub(crate) fn clean_sizes(
    alloc: Global,
    tables: &Declarations,
) -> Result<Items<TypeSize>, LayoutFault>
    requires { IsDeclarations tables.now }
    ensures types { IfOk result (AreTypes tables.now) }
    ensures fault { IfErr result (λ e. (e ≡ LayoutFault.Memory → ⊥)
        → FaultAmong (IsCleanType tables.now.gathered.now tables.now.foreign.now)
        (TypeFault tables.now.gathered.now tables.now.foreign.now) (types_of tables.now.gathered.now) e) }
{
    let sizes = sizes_of(alloc, tables)?;
    check_types(alloc, tables, sizes.as_slice())?;
    Ok(sizes)
}

impl<'a> Types<'a> {
    /// The types in these tables, of these sizes.
    pub(crate) fn new(tables: &'a Declarations<'a>, sizes: &'a [TypeSize]) -> Types<'a>
        requires { AreTypes tables.now sizes.now }
        ensures { result ≡ record { gathered = tables.now.gathered.now; foreign = tables.now.foreign.now } }
    {
        Types { tables, sizes }
    }

    /// The gathered files.
    pub(crate) fn gathered(&self) -> &Gathered
        ensures { result.now ≡ self.now.gathered }
    {
        self.tables.gathered
    }

    /// What this type means.
    pub(crate) fn meant(&self, base: &Base) -> Meant
        ensures { IsMeant self.now.gathered self.now.foreign base.now result }
    {
        meant_in(self.tables, self.sizes, base)
    }

    /// The size and the alignment of the type of this bare name, where they are known.
    pub(crate) fn extent_named(&self, name: &[u8]) -> Option<Extent>
        ensures { IsExtent self.now.gathered self.now.foreign
            (bare_meaning self.now.gathered self.now.foreign name.now) result }
    {
        extent_in(self.tables, self.sizes, name)
    }

    /// The declaration of the first type of this name.
    pub(crate) fn declared(&self, name: &[u8]) -> Option<&TypeDecl>
        ensures { option_copied result
            ≡ option_map (λ t. t.decl) (find (is_named name.now) (types_of self.now.gathered)) }
    {
        self.tables.declared(name)
    }

    /// How many types are declared.
    pub(crate) fn count(&self) -> usize
        ensures { result ≡ length (types_of self.now.gathered) }
    {
        self.tables.count()
    }

    /// The name of the declared type of this number, where it has one.
    pub(crate) fn name_at(&self, number: usize) -> Option<&[u8]>
        requires { number < length (types_of self.now.gathered) }
        ensures { (t : TypeIn) (name : List ℕ) → slice_get (types_of self.now.gathered) number ≡ Some t
            → is_named name t ≡ is_name result name }
    {
        self.tables.name_at(number)
    }

    /// The foreign types.
    pub(crate) fn foreign_types(&self) -> &[ForeignType]
        ensures { result.now ≡ self.now.foreign.types }
    {
        self.tables.foreign.types.as_slice()
    }
}

/// The size and the alignment, where they are known.
fn known(size: TypeSize) -> Option<Extent>
    ensures { result ≡ known_of (meant_by_size size) }
{
    match size {
        TypeSize::Known(extent) => Some(extent),
        TypeSize::Waiting | TypeSize::Unsized => None,
    }
}

/// The size and the alignment of the type of a bare name, by the tables and the sizes of clean types.
fn extent_in(tables: &Declarations, sizes: &[TypeSize], name: &[u8]) -> Option<Extent>
    requires { AreTypes tables.now sizes.now }
    ensures { IsExtent tables.now.gathered.now tables.now.foreign.now
        (bare_meaning tables.now.gathered.now tables.now.foreign.now name.now) result }
{
    match tables.bare_target(name) {
        Target::Fixed(extent) => Some(extent),
        Target::Declared(number) => known(size_at(sizes, number)),
        Target::Void | Target::Unsized | Target::Undeclared => None,
    }
}

/// What a declared type of this size means.
fn meant_by(size: TypeSize) -> Meant
    ensures { result ≡ meant_by_size size }
{
    match size {
        TypeSize::Known(extent) => Meant::Known(extent),
        TypeSize::Waiting | TypeSize::Unsized => Meant::Unsized,
    }
}

/// What a type means, by the tables and the sizes of clean types.
fn meant_in(tables: &Declarations, sizes: &[TypeSize], base: &Base) -> Meant
    requires { AreTypes tables.now sizes.now }
    ensures { IsMeant tables.now.gathered.now tables.now.foreign.now base.now result }
{
    match tables.target(base) {
        Target::Void => Meant::Void,
        Target::Fixed(extent) => Meant::Known(extent),
        Target::Unsized => Meant::Unsized,
        Target::Undeclared => Meant::Undeclared,
        Target::Declared(number) => meant_by(size_at(sizes, number)),
    }
}
