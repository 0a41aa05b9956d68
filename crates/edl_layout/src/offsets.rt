//! The offsets of a type's members.
//!
//! They fit below 2^31 in a type without a fault, unless a foreign type has the alignment 0, behind which a structure
//! begins anew.

ghost use Rattle.std.specs.Prelude.{◌≡◌, List, IfOk, IfSome};
ghost use Rattle.sgx_base.specs.Bytes.{round_up};
ghost use Rattle.edl_layout.specs.Ends.{kept, shape_at, ends_after};
ghost use Rattle.edl_layout.specs.Filled.{IsMemberExtent, IsPut, AreOffsets};
ghost use Rattle.edl_layout.specs.Shape.{Shape, offsets};
ghost use Rattle.edl_layout.specs.Sizes.{HasShapes};

use crate::extents::{Extent, FieldEnds, array_size};
use crate::frames::extent_of;
use crate::types::Types;
use edl_grammar::{Declared, TypeDecl};
use sqlite_items::Items;
use std::alloc::{AllocError, Global};

/// The size and the alignment of a member, where they are known and fit.
fn member_extent(types: &Types, member: &Declared) -> Option<Extent>
    ensures { IsMemberExtent types.now.gathered types.now.foreign member.now result }
{
    let element = extent_of(types, &member.written)?;
    match u32::try_from(array_size(element.size, member.dims.as_slice())) {
        Ok(size) => Some(Extent {
            size,
            align: element.align,
        }),
        Err(_) => None,
    }
}

/// Puts a member behind the others, and gives its offset, where that fits.
fn put(ends: &mut FieldEnds, member: Extent) -> Option<u32>
    ensures offset { IfSome result (λ o. o ≡ kept (round_up ends.old.end member.align)) }
    ensures ends { ends.new ≡ ends_after ends.old (shape_at member) }
{
    u32::try_from(ends.push(member)).ok()
}

/// Puts a member behind the others, and gives its offset, where that is known and fits.
fn put_member(types: &Types, ends: &mut FieldEnds, member: &Declared) -> Option<u32>
    ensures { IfSome result (IsPut types.now.gathered types.now.foreign member.now ends.old ends.new) }
{
    let extent = member_extent(types, member)?;
    put(ends, extent)
}

/// The offsets of the members of a structure.
fn structure_offsets(
    alloc: Global,
    types: &Types,
    members: &[Declared],
) -> Result<Items<u32>, AllocError>
    ensures { IfOk result (λ o. (ss : List Shape) × HasShapes types.now.gathered types.now.foreign members.now ss
        × (o ≡ offsets ss)) }
{
    let mut offsets = Items::new(alloc);
    let mut ends = FieldEnds::new();
    for member in members {
        let Some(offset) = put_member(types, &mut ends, member) else {
            return Err(AllocError);
        };
        offsets.push(offset)?;
    }
    Ok(offsets)
}

/// The offsets of the members of a type that has a shape.
pub(crate) fn offsets_of(
    alloc: Global,
    types: &Types,
    decl: &TypeDecl,
) -> Result<Items<u32>, AllocError>
    ensures { IfOk result (AreOffsets types.now.gathered types.now.foreign decl.now) }
{
    match decl {
        TypeDecl::Enumeration { .. } => Ok(Items::new(alloc)),
        TypeDecl::Structure { members, .. } => {
            structure_offsets(alloc, types, members.as_slice())
        }
        TypeDecl::Union { members, .. } => {
            Ok(Items::from_vec(vec![in alloc; 0u32; members.len()]?))
        }
    }
}
