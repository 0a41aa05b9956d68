//! Sizes, alignments and offsets of the types of an interface.
#![tactic(auto)]

ghost use Rattle.std.specs.Prelude.{◌≡◌, All, IfOk, IfErr};
ghost use Rattle.edl_layout.specs.Faults as faults;
ghost use Rattle.edl_layout.specs.Faults.{HasLayouts, HasLayoutFault};
ghost use Rattle.edl_layout.specs.Judged.{HasAnswer};
ghost use Rattle.edl_layout.specs.Named.{IsDeclarations};
ghost use Rattle.edl_layout.specs.Table.{IsTable};

mod cycles;
mod enumerators;
mod extents;
mod faults;
mod filling;
mod frames;
mod functions;
mod layouts;
mod offsets;
mod orders;
mod places;
mod sizes;
mod tables;
mod types;

use crate::filling::table_of;
use crate::functions::check_functions;
use crate::tables::Declarations;
use crate::types::{Types, clean_sizes};
use edl_grammar::Gathered;
pub use extents::{Extent, FieldEnds, array_size, ends_of_fields};
pub use layouts::Layouts;
pub use places::fault_at;
use sgx_base::{Fault, Name};
use sqlite_items::Items;
use std::alloc::Global;
use thiserror::Error;

/// The foreign types. Where `lenient` holds, an undeclared bare name is foreign of unknown size.
#[derive(Debug, Drop)]
pub struct ForeignTypes {
    pub types: Items<ForeignType>,
    pub lenient: bool,
}

/// A foreign type.
#[derive(Debug, Drop)]
pub struct ForeignType {
    pub name: Name,
    pub size: u32,
    pub align: u32,
}

/// The first fault of the layouts, or want of memory.
#[derive(Debug, Drop, Error)]
pub enum LayoutFault {
    #[error("unknown type")]
    Unknown(Fault),
    #[error("type holds itself")]
    SelfHolding(Fault),
    #[error("type or frame too large")]
    TooLarge(Fault),
    #[error("out of memory")]
    Memory,
}

/// The shape of a type that has this name, and the offsets of its members.
#[derive(Debug, Drop)]
pub struct NamedShape {
    pub name: Name,
    pub size: u32,
    pub align: u32,
    pub offsets: Items<u32>,
}

/// The layouts where the types are clean, or the fault of the first function that has one.
fn layout_of_types(alloc: Global, types: &Types) -> Result<Layouts, LayoutFault>
    ensures ok { IfOk result (λ l. All (faults.IsCleanFunction types.now.gathered types.now.foreign)
        (faults.functions types.now.gathered types.now.foreign) × IsTable types.now.gathered types.now.foreign l) }
    ensures fault { IfErr result (λ e. (e ≡ LayoutFault.Memory → ⊥)
        → faults.FaultAmong (faults.IsCleanFunction types.now.gathered types.now.foreign)
        (faults.FunctionFault types.now.gathered types.now.foreign)
        (faults.functions types.now.gathered types.now.foreign) e) }
{
    check_functions(types)?;
    let layouts = table_of(alloc, types)?;
    Ok(layouts)
}

/// The layouts of the types in these tables, or the first fault.
fn layout_of_tables(alloc: Global, tables: &Declarations) -> Result<Layouts, LayoutFault>
    requires { IsDeclarations tables.now }
    ensures { HasAnswer tables.now.gathered.now tables.now.foreign.now result }
{
    let sizes = clean_sizes(alloc, tables)?;
    layout_of_types(alloc, &Types::new(tables, sizes.as_slice()))
}

/// The layouts of all types that have a name and a known size, or the first fault: of the types in order of reading,
/// and then of the trusted and the untrusted functions in order. Faults are `E12` (a type that is not declared),
/// `E13` (a type that holds itself) and `E14` (a size, a length or an enumerator above 2^31 - 1, or a marshalling
/// structure above 1024 bytes). Memory is wanting also where a foreign type has the alignment 0, and an offset of a
/// structure around it needs more than 32 bits.
pub fn layout_of(
    alloc: Global,
    gathered: &Gathered,
    foreign: &ForeignTypes,
) -> Result<Layouts, LayoutFault>
    ensures ok { IfOk result (λ l. HasLayouts gathered.now foreign.now × IsTable gathered.now foreign.now l) }
    ensures fault { IfErr result (λ e. (e ≡ LayoutFault.Memory → ⊥) → HasLayoutFault gathered.now foreign.now e) }
{
    let mut tables = Declarations::empty(alloc, gathered, foreign);
    tables.fill()?;
    layout_of_tables(alloc, &tables)
}
