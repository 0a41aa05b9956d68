//! The table of the layouts of all names that have one.

ghost use Rattle.std.specs.Prelude.{◌≡◌, ◌<◌, [], map, length, IfOk, OnOk, None};
ghost use Rattle.std.specs.Str.{bytes_eq};
ghost use Rattle.edl_grammar.specs.Files.{types_of};
ghost use Rattle.edl_layout.specs.Ends.{shape_at};
ghost use Rattle.edl_layout.specs.Filled.{HasOffsets, Covers, CoversAt, CoversFirst, Grows};
ghost use Rattle.edl_layout.specs.Meaning.{bare_meaning, is_named, standard_types, HasShape};
ghost use Rattle.edl_layout.specs.Shape.{Shape};
ghost use Rattle.edl_layout.specs.Table.{entry, IsTable};

use crate::extents::Extent;
use crate::layouts::Layouts;
use crate::offsets::offsets_of;
use crate::types::Types;
use sqlite_items::Items;
use std::alloc::{AllocError, Global};

/// The names of the standard types that have no word of their own.
fn standard_names() -> [&'static [u8]; 10]
    ensures { map (λ n. n.now) result ≡ map (λ s. s.name) standard_types }
{
    [
        b"int8_t",
        b"uint8_t",
        b"int16_t",
        b"uint16_t",
        b"int32_t",
        b"uint32_t",
        b"int64_t",
        b"uint64_t",
        b"wchar_t",
        b"size_t",
    ]
}

/// The offsets of the members of the type of this name, where it has a shape.
fn offsets_named(alloc: Global, types: &Types, name: &[u8]) -> Result<Items<u32>, AllocError>
    ensures { IfOk result (λ o. (s : Shape)
        → HasShape types.now.gathered types.now.foreign (bare_meaning types.now.gathered types.now.foreign name.now) s
        → HasOffsets types.now.gathered types.now.foreign (bare_meaning types.now.gathered types.now.foreign name.now)
        o) }
{
    match types.declared(name) {
        Some(decl) => offsets_of(alloc, types, decl),
        None => Ok(Items::new(alloc)),
    }
}

/// Puts a name of known shape into the table that is not there.
fn put(
    alloc: Global,
    types: &Types,
    table: &mut Layouts,
    name: &[u8],
    extent: Extent,
) -> Result<(), AllocError>
    requires missing { entry table.old name.now ≡ None }
    requires shape { HasShape types.now.gathered types.now.foreign
        (bare_meaning types.now.gathered types.now.foreign name.now) (shape_at extent) }
    ensures grows { IfOk result (λ _. Grows types.now.gathered types.now.foreign table.old table.new) }
    ensures covers { IfOk result (λ _. Covers types.now.gathered types.now.foreign table.new name.now) }
{
    let offsets = offsets_named(alloc, types, name)?;
    table.insert(alloc, name, extent, offsets)
}

/// Sees to it that the name is in the table, where it has a shape.
fn add(alloc: Global, types: &Types, table: &mut Layouts, name: &[u8]) -> Result<(), AllocError>
    ensures grows { IfOk result (λ _. Grows types.now.gathered types.now.foreign table.old table.new) }
    ensures covers { IfOk result (λ _. Covers types.now.gathered types.now.foreign table.new name.now) }
{
    match table.size(name) {
        Some(_) => Ok(()),
        None => match types.extent_named(name) {
            Some(extent) => put(alloc, types, table, name, extent),
            None => Ok(()),
        },
    }
}

/// Sees to it that the declared type of this number is in the table, where it has a name and a shape.
fn add_numbered(
    alloc: Global,
    types: &Types,
    table: &mut Layouts,
    number: usize,
) -> Result<(), AllocError>
    requires { number < length (types_of types.now.gathered) }
    ensures grows { IfOk result (λ _. Grows types.now.gathered types.now.foreign table.old table.new) }
    ensures covers { IfOk result (λ _. CoversAt types.now.gathered types.now.foreign is_named
        (types_of types.now.gathered) number table.new) }
{
    match types.name_at(number) {
        Some(name) => add(alloc, types, table, name),
        None => Ok(()),
    }
}

/// Sees to it that the declared types are in the table, where they have a name and a shape.
fn add_declared(alloc: Global, types: &Types, table: &mut Layouts) -> Result<(), AllocError>
    ensures grows { IfOk result (λ _. Grows types.now.gathered types.now.foreign table.old table.new) }
    ensures covers { IfOk result (λ _. CoversFirst types.now.gathered types.now.foreign is_named
        (types_of types.now.gathered) (length (types_of types.now.gathered)) table.new) }
{
    for number in 0..types.count() {
        add_numbered(alloc, types, table, number)?;
    }
    Ok(())
}

/// Sees to it that these names are in the table, where they have a shape.
fn add_names(
    alloc: Global,
    types: &Types,
    table: &mut Layouts,
    names: &[&[u8]],
) -> Result<(), AllocError>
    ensures grows { IfOk result (λ _. Grows types.now.gathered types.now.foreign table.old table.new) }
    ensures covers { IfOk result (λ _. CoversFirst types.now.gathered types.now.foreign
        (λ name n. bytes_eq n.now name) names.now (length names.now) table.new) }
{
    for i in 0..names.len() {
        add(alloc, types, table, names[i])?;
    }
    Ok(())
}

/// Sees to it that the standard types are in the table.
fn add_standard(alloc: Global, types: &Types, table: &mut Layouts) -> Result<(), AllocError>
    ensures grows { IfOk result (λ _. Grows types.now.gathered types.now.foreign table.old table.new) }
    ensures covers { IfOk result (λ _. CoversFirst types.now.gathered types.now.foreign
        (λ name s. bytes_eq s.name name) standard_types (length standard_types) table.new) }
{
    let names = standard_names();
    add_names(alloc, types, table, names.as_slice())
}

/// Sees to it that the foreign types are in the table.
fn add_foreign(alloc: Global, types: &Types, table: &mut Layouts) -> Result<(), AllocError>
    ensures grows { IfOk result (λ _. Grows types.now.gathered types.now.foreign table.old table.new) }
    ensures covers { IfOk result (λ _. CoversFirst types.now.gathered types.now.foreign
        (λ name t. bytes_eq t.name name) types.now.foreign.types (length types.now.foreign.types) table.new) }
{
    for foreign in types.foreign_types() {
        add(alloc, types, table, foreign.name.bytes())?;
    }
    Ok(())
}

/// Puts all names that have a shape into an empty table.
fn fill(alloc: Global, types: &Types, table: &mut Layouts) -> Result<(), AllocError>
    requires { table.old ≡ [] }
    ensures { OnOk result (IsTable types.now.gathered types.now.foreign table.new) }
{
    add_declared(alloc, types, table)?;
    add_standard(alloc, types, table)?;
    add_foreign(alloc, types, table)?;
    Ok(())
}

/// The table of these types.
pub(crate) fn table_of(alloc: Global, types: &Types) -> Result<Layouts, AllocError>
    ensures { IfOk result (λ l. IsTable types.now.gathered types.now.foreign l) }
{
    let mut table = Layouts::new(alloc);
    fill(alloc, types, &mut table)?;
    Ok(table)
}
