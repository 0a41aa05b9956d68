//! The sizes of the declared types.
//!
//! A size is exact up to 2^31 - 1, and 2^31 where it is above. That keeps every sum and product small, and a size
//! that is above stays above in all that holds it.

ghost use Rattle.std.specs.Prelude.{◌≡◌, ◌<◌, ℕ, min, length, slice_get, true, false, IfOk, Some};
ghost use Rattle.edl_layout.specs.Ends.{shape_at};
ghost use Rattle.edl_layout.specs.Named.{IsDeclarations};
ghost use Rattle.edl_layout.specs.Sizes as spec;

use crate::extents::{Extent, FieldEnds, array_size, round_up};
use crate::orders::order_of;
use crate::tables::{Declarations, Target};
use edl_grammar::{Declared, TypeDecl};
use sqlite_items::Items;
use std::alloc::{AllocError, Global};

/// The least size that is too large.
pub(crate) const CAP: u32 = 1 << 31;

/// The size of a type: not found yet, unknown, or known.
#[derive(Clone, Copy)]
pub(crate) enum TypeSize {
    Waiting,
    Unsized,
    Known(Extent),
}

/// Members put together, one behind the other and one over the other.
#[derive(Clone, Copy)]
pub(crate) struct Fields {
    ends: FieldEnds,
    largest: u32,
}

/// The members of a type together, by their sizes.
#[derive(Clone, Copy)]
pub(crate) enum Members {
    Waiting,
    Unsized,
    Known(Fields),
}

/// The size, or the least one that is too large.
fn capped(size: u64) -> u32
    ensures { result ≡ min size spec.cap }
{
    size.min(u64::from(CAP)) as u32
}

/// The extent with its size capped.
fn capped_extent(extent: Extent) -> Extent
    ensures { shape_at result ≡ spec.capped (shape_at extent) }
{
    Extent {
        size: extent.size.min(CAP),
        align: extent.align,
    }
}

impl Fields {
    /// No members.
    fn new() -> Fields
        ensures { result ≡ spec.no_fields }
    {
        Fields {
            ends: FieldEnds::new(),
            largest: 0,
        }
    }

    /// These members and one more.
    fn with(self, member: Extent) -> Fields
        ensures { result ≡ spec.with_field self member }
    {
        let mut ends = self.ends;
        ends.push(member);
        Fields {
            ends,
            largest: self.largest.max(member.size),
        }
    }

    /// The structure with these members.
    fn structure(self) -> Extent
        ensures { result ≡ spec.structure_of self }
    {
        Extent {
            size: capped(self.ends.size()),
            align: self.ends.align,
        }
    }

    /// The union with these members.
    fn overlaid(self) -> Extent
        ensures { result ≡ spec.union_of self }
    {
        Extent {
            size: capped(round_up(u64::from(self.largest), self.ends.align)),
            align: self.ends.align,
        }
    }
}

/// An array of so many elements.
fn array_of(element: Extent, dims: &[Option<u64>]) -> Extent
    ensures { result ≡ spec.array_of element dims.now }
{
    Extent {
        size: capped(array_size(element.size, dims)),
        align: element.align,
    }
}

/// The members with one more.
fn with_member(members: Members, size: TypeSize) -> Members
    ensures { result ≡ spec.with_member members size }
{
    match (members, size) {
        (Members::Waiting, _) | (_, TypeSize::Waiting) => Members::Waiting,
        (Members::Known(fields), TypeSize::Known(extent)) => Members::Known(fields.with(extent)),
        _ => Members::Unsized,
    }
}

/// The size of a structure with these members.
fn structure_size(members: Members) -> TypeSize
    ensures { result ≡ spec.structure_size members }
{
    match members {
        Members::Waiting => TypeSize::Waiting,
        Members::Unsized => TypeSize::Unsized,
        Members::Known(fields) => TypeSize::Known(fields.structure()),
    }
}

/// The size of a union with these members.
fn union_size(members: Members) -> TypeSize
    ensures { result ≡ spec.union_size members }
{
    match members {
        Members::Waiting => TypeSize::Waiting,
        Members::Unsized => TypeSize::Unsized,
        Members::Known(fields) => TypeSize::Known(fields.overlaid()),
    }
}

/// The size of an array of what has this size.
fn with_dims(element: TypeSize, dims: &[Option<u64>]) -> TypeSize
    ensures { result ≡ spec.with_dims element dims.now }
{
    match element {
        TypeSize::Known(extent) => TypeSize::Known(array_of(extent, dims)),
        other => other,
    }
}

/// The size of the type of this number.
pub(crate) fn size_at(sizes: &[TypeSize], number: usize) -> TypeSize
    requires { number < length sizes.now }
    ensures { slice_get sizes.now number ≡ Some result }
{
    sizes[number]
}

/// The size of what a member holds, without its dimensions.
fn element_size(tables: &Declarations, sizes: &[TypeSize], member: &Declared) -> TypeSize
    requires tables { IsDeclarations tables.now }
    requires sizes { spec.AreSizes tables.now.gathered.now tables.now.foreign.now sizes.now }
    ensures { spec.IsElementSize tables.now.gathered.now tables.now.foreign.now sizes.now member.now.written result }
{
    if member.written.stars > 0 {
        return TypeSize::Known(Extent::ADDRESS);
    }
    match tables.target(&member.written.base) {
        Target::Fixed(extent) => TypeSize::Known(capped_extent(extent)),
        Target::Declared(number) => size_at(sizes, number),
        Target::Void | Target::Unsized | Target::Undeclared => TypeSize::Unsized,
    }
}

/// The size of a member.
fn member_size(tables: &Declarations, sizes: &[TypeSize], member: &Declared) -> TypeSize
    requires tables { IsDeclarations tables.now }
    requires sizes { spec.AreSizes tables.now.gathered.now tables.now.foreign.now sizes.now }
    ensures { spec.IsMemberSize tables.now.gathered.now tables.now.foreign.now sizes.now member.now result }
{
    with_dims(element_size(tables, sizes, member), member.dims.as_slice())
}

/// The members of a type together.
fn members_size(tables: &Declarations, sizes: &[TypeSize], members: &[Declared]) -> Members
    requires tables { IsDeclarations tables.now }
    requires sizes { spec.AreSizes tables.now.gathered.now tables.now.foreign.now sizes.now }
    ensures { spec.AreMembers tables.now.gathered.now tables.now.foreign.now sizes.now members.now result }
{
    let mut together = Members::Known(Fields::new());
    for member in members {
        together = with_member(together, member_size(tables, sizes, member));
    }
    together
}

/// The size of a type, by the sizes of the types that it holds.
fn decl_size(tables: &Declarations, sizes: &[TypeSize], decl: &TypeDecl) -> TypeSize
    requires tables { IsDeclarations tables.now }
    requires sizes { spec.AreSizes tables.now.gathered.now tables.now.foreign.now sizes.now }
    ensures { (file : ℕ) → spec.IsNextSize tables.now.gathered.now tables.now.foreign.now sizes.now
        (record { file = file; decl = decl.now }) result }
{
    match decl {
        TypeDecl::Enumeration { .. } => TypeSize::Known(Extent::square(4)),
        TypeDecl::Structure { members, .. } => {
            structure_size(members_size(tables, sizes, members.as_slice()))
        }
        TypeDecl::Union { members, .. } => {
            union_size(members_size(tables, sizes, members.as_slice()))
        }
    }
}

/// The size, unless it waits.
fn unless_waiting(size: TypeSize) -> Option<TypeSize>
    ensures { result ≡ spec.unless_waiting size }
{
    match size {
        TypeSize::Waiting => None,
        found => Some(found),
    }
}

/// The size of a type that has none yet, where it waits for no other.
fn found_size(tables: &Declarations, sizes: &[TypeSize], number: usize) -> Option<TypeSize>
    requires tables { IsDeclarations tables.now }
    requires sizes { spec.AreSizes tables.now.gathered.now tables.now.foreign.now sizes.now }
    requires within { number < length sizes.now }
    ensures { spec.IsFound tables.now.gathered.now tables.now.foreign.now sizes.now number result }
{
    match size_at(sizes, number) {
        TypeSize::Waiting => unless_waiting(decl_size(tables, sizes, tables.decl_at(number))),
        _ => None,
    }
}

/// Finds the size of a type, where it waits for no other, and tells whether it was found now.
fn size_one(tables: &Declarations, sizes: &mut Items<TypeSize>, number: usize) -> bool
    requires tables { IsDeclarations tables.now }
    requires sizes { spec.AreSizes tables.now.gathered.now tables.now.foreign.now sizes.old }
    requires within { number < length sizes.old }
    ensures sizes { spec.AreSizes tables.now.gathered.now tables.now.foreign.now sizes.new }
    ensures fewer { result ≡ true → spec.waiting sizes.new < spec.waiting sizes.old }
    ensures same { result ≡ false → sizes.new ≡ sizes.old }
    ensures waits { result ≡ false → spec.WaitsFor tables.now.gathered.now tables.now.foreign.now sizes.old number }
{
    match found_size(tables, sizes.as_slice(), number) {
        Some(size) => {
            sizes.set(number, size);
            true
        }
        None => false,
    }
}

/// Finds sizes in this order, which is a good one where each type comes behind those that it holds.
fn size_in_order(tables: &Declarations, sizes: &mut Items<TypeSize>, order: &[usize])
    requires tables { IsDeclarations tables.now }
    requires sizes { spec.AreSizes tables.now.gathered.now tables.now.foreign.now sizes.old }
    ensures { spec.AreSizes tables.now.gathered.now tables.now.foreign.now sizes.new }
{
    for number in order {
        if *number < sizes.len() {
            size_one(tables, sizes, *number);
        }
    }
}

/// Finds one size more, and tells whether there was one: a type that waits for no other.
fn size_another(tables: &Declarations, sizes: &mut Items<TypeSize>) -> bool
    requires tables { IsDeclarations tables.now }
    requires sizes { spec.AreSizes tables.now.gathered.now tables.now.foreign.now sizes.old }
    ensures sizes { spec.AreSizes tables.now.gathered.now tables.now.foreign.now sizes.new }
    ensures fewer { result ≡ true → spec.waiting sizes.new < spec.waiting sizes.old }
    ensures settled { result ≡ false → spec.AreSettled tables.now.gathered.now tables.now.foreign.now sizes.new }
{
    for number in 0..sizes.len() {
        if size_one(tables, sizes, number) {
            return true;
        }
    }
    false
}

/// Finds sizes in this order, and then until none is found any more.
fn settle(tables: &Declarations, sizes: &mut Items<TypeSize>, order: &[usize])
    requires tables { IsDeclarations tables.now }
    requires sizes { spec.AreSizes tables.now.gathered.now tables.now.foreign.now sizes.old }
    ensures sizes { spec.AreSizes tables.now.gathered.now tables.now.foreign.now sizes.new }
    ensures settled { spec.AreSettled tables.now.gathered.now tables.now.foreign.now sizes.new }
{
    size_in_order(tables, sizes, order);
    while size_another(tables, sizes) {}
}

/// The sizes of all types. Those that still wait hold themselves, or hold one that does.
pub(crate) fn sizes_of(alloc: Global, tables: &Declarations) -> Result<Items<TypeSize>, AllocError>
    requires { IsDeclarations tables.now }
    ensures sizes { IfOk result (spec.AreSizes tables.now.gathered.now tables.now.foreign.now) }
    ensures settled { IfOk result (spec.AreSettled tables.now.gathered.now tables.now.foreign.now) }
{
    let order = order_of(alloc, tables)?;
    let mut sizes = Items::from_vec(vec![in alloc; TypeSize::Waiting; tables.count()]?);
    settle(tables, &mut sizes, order.as_slice());
    Ok(sizes)
}
