//! The faults of types.

ghost use Rattle.std.specs.Prelude.{◌≡◌, ◌<◌, All, length, IfOk, OnOk, IfErr};
ghost use Rattle.edl_grammar.specs.Files.{types_of, token_of as token_of_decl};
ghost use Rattle.edl_layout.specs.Faults as spec;
ghost use Rattle.edl_layout.specs.Firsts.{first_of};
ghost use Rattle.edl_layout.specs.Judged.{At, Below, IsApart, IsTypeFault, TellsItself, is_large as is_large_size};
ghost use Rattle.edl_layout.specs.Named.{IsDeclarations};
ghost use Rattle.edl_layout.specs.Sizes.{AreSizes, AreSettled};

use crate::LayoutFault;
use crate::cycles::holds_itself;
use crate::enumerators::first_wide_value;
use crate::places::{self_holding_at, too_large_at, unknown_at};
use crate::sizes::{CAP, TypeSize, size_at};
use crate::tables::{Declarations, Target, members_of};
use edl_grammar::{Declared, TypeDecl, Written};
use std::alloc::{AllocError, Global};

impl From<AllocError> for LayoutFault {
    ghost use Rattle.std.specs.Prelude.{◌≡◌};
    ghost use Rattle.edl_layout.specs.declared.LayoutFault.TheVariants.{Memory};

    ghost from_gives = { λ _ e. e ≡ Memory };

    fn from(_: AllocError) -> LayoutFault {
        LayoutFault::Memory
    }
}

/// The token of a type's name.
fn token_of(decl: &TypeDecl) -> u32
    ensures { result ≡ token_of_decl decl.now }
{
    match decl {
        TypeDecl::Enumeration { token, .. } => *token,
        TypeDecl::Structure { token, .. } => *token,
        TypeDecl::Union { token, .. } => *token,
    }
}

/// Whether the size is known and too large.
fn is_large(size: TypeSize) -> bool
    ensures { result ≡ is_large_size size }
{
    match size {
        TypeSize::Waiting => false,
        TypeSize::Unsized => false,
        TypeSize::Known(extent) => CAP <= extent.size,
    }
}

/// Whether a type is not declared, or is `void` where a value is wanted.
fn is_no_value(tables: &Declarations, written: &Written) -> bool
    requires { IsDeclarations tables.now }
    ensures { result ≡ spec.is_no_value tables.now.gathered.now tables.now.foreign.now written.now }
{
    match tables.target(&written.base) {
        Target::Undeclared => true,
        Target::Void => written.stars == 0,
        Target::Fixed(_) | Target::Unsized | Target::Declared(_) => false,
    }
}

/// The token of the first member of unknown type.
fn first_unknown(tables: &Declarations, members: &[Declared]) -> Option<u32>
    requires { IsDeclarations tables.now }
    ensures { result ≡ first_of (spec.unknown_among tables.now.gathered.now tables.now.foreign.now members.now) }
{
    for member in members {
        if is_no_value(tables, &member.written) {
            return Some(member.written.token);
        }
    }
    None
}

/// Whether the type of this number holds itself, where none before it does.
fn is_itself(
    alloc: Global,
    tables: &Declarations,
    sizes: &[TypeSize],
    number: usize,
) -> Result<bool, AllocError>
    requires tables { IsDeclarations tables.now }
    requires sizes { AreSizes tables.now.gathered.now tables.now.foreign.now sizes.now }
    requires within { number < length (types_of tables.now.gathered.now) }
    requires before { Below tables.now.gathered.now tables.now.foreign.now
        (IsApart tables.now.gathered.now tables.now.foreign.now) number }
    ensures { IfOk result (TellsItself tables.now.gathered.now tables.now.foreign.now number) }
{
    match size_at(sizes, number) {
        TypeSize::Waiting => holds_itself(alloc, tables, number),
        _ => Ok(false),
    }
}

/// The fault of the type of this number, which holds itself or not.
fn type_fault(
    tables: &Declarations,
    sizes: &[TypeSize],
    number: usize,
    itself: bool,
) -> Option<LayoutFault>
    requires tables { IsDeclarations tables.now }
    requires sizes { AreSizes tables.now.gathered.now tables.now.foreign.now sizes.now }
    requires settled { AreSettled tables.now.gathered.now tables.now.foreign.now sizes.now }
    requires within { number < length (types_of tables.now.gathered.now) }
    requires itself { TellsItself tables.now.gathered.now tables.now.foreign.now number itself }
    ensures { IsTypeFault tables.now.gathered.now tables.now.foreign.now number result }
{
    let decl = tables.decl_at(number);
    let file = tables.file_at(number);
    if itself {
        return Some(self_holding_at(tables.gathered, file, token_of(decl)));
    }
    if is_large(size_at(sizes, number)) {
        return Some(too_large_at(tables.gathered, file, token_of(decl)));
    }
    if let Some(token) = first_unknown(tables, members_of(decl)) {
        return Some(unknown_at(tables.gathered, file, token));
    }
    match first_wide_value(decl) {
        Some(token) => Some(too_large_at(tables.gathered, file, token)),
        None => None,
    }
}

/// The fault of the type of this number, where none before it has one.
fn check_type(
    alloc: Global,
    tables: &Declarations,
    sizes: &[TypeSize],
    number: usize,
) -> Result<(), LayoutFault>
    requires tables { IsDeclarations tables.now }
    requires sizes { AreSizes tables.now.gathered.now tables.now.foreign.now sizes.now }
    requires settled { AreSettled tables.now.gathered.now tables.now.foreign.now sizes.now }
    requires within { number < length (types_of tables.now.gathered.now) }
    requires before { Below tables.now.gathered.now tables.now.foreign.now
        (spec.IsCleanType tables.now.gathered.now tables.now.foreign.now) number }
    ensures clean { OnOk result (At tables.now.gathered.now tables.now.foreign.now
        (spec.IsCleanType tables.now.gathered.now tables.now.foreign.now) number) }
    ensures fault { IfErr result (λ e. (e ≡ LayoutFault.Memory → ⊥)
        → At tables.now.gathered.now tables.now.foreign.now
        (λ t. spec.TypeFault tables.now.gathered.now tables.now.foreign.now t e) number) }
{
    let itself = is_itself(alloc, tables, sizes, number)?;
    match type_fault(tables, sizes, number, itself) {
        Some(fault) => Err(fault),
        None => Ok(()),
    }
}

/// The fault of the first type in order that has one.
pub(crate) fn check_types(
    alloc: Global,
    tables: &Declarations,
    sizes: &[TypeSize],
) -> Result<(), LayoutFault>
    requires tables { IsDeclarations tables.now }
    requires sizes { AreSizes tables.now.gathered.now tables.now.foreign.now sizes.now }
    requires settled { AreSettled tables.now.gathered.now tables.now.foreign.now sizes.now }
    ensures clean { OnOk result (All (spec.IsCleanType tables.now.gathered.now tables.now.foreign.now)
        (types_of tables.now.gathered.now)) }
    ensures fault { IfErr result (λ e. (e ≡ LayoutFault.Memory → ⊥)
        → spec.FaultAmong (spec.IsCleanType tables.now.gathered.now tables.now.foreign.now)
        (spec.TypeFault tables.now.gathered.now tables.now.foreign.now) (types_of tables.now.gathered.now) e) }
{
    for number in 0..tables.count() {
        check_type(alloc, tables, sizes, number)?;
    }
    Ok(())
}
