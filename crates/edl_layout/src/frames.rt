//! The marshalling structure of a function.

ghost use Rattle.std.specs.Prelude.{◌≡◌, ◌||◌, ℕ, [], flat_map, option_map};
ghost use Rattle.std.specs.List.{list_any};
ghost use Rattle.std.specs.Str.{bytes_eq};
ghost use Rattle.edl_layout.specs.Ends.{shape_at, ends_of, ends_after};
ghost use Rattle.edl_layout.specs.Frame as frame;
ghost use Rattle.edl_layout.specs.Settled.{Settles};
ghost use Rattle.edl_layout.specs.Pushed.{Pushes, known_of, IsElement, IsLengthTest, IsFrameTest};

use crate::extents::{Extent, FieldEnds, array_size};
use crate::types::{Meant, Types};
use edl_grammar::{Base, Declared, FuncDecl, Written};

/// The largest size of a type and length of an array, in bytes.
const MAX_SIZE: u64 = (1 << 31) - 1;

/// The largest size of a marshalling structure, in bytes.
const MAX_FRAME: u64 = 1024;

/// Whether a parameter has the attribute of this name.
fn has(declared: &Declared, name: &[u8]) -> bool
    ensures { result ≡ list_any (λ a. bytes_eq a.name name.now) declared.now.attrs }
{
    let attrs = declared.attrs.as_slice();
    attrs.iter().any(|attr| attr.name.bytes() == name)
}

/// Whether it is an array.
pub(crate) fn is_array(declared: &Declared) -> bool
    ensures { result ≡ frame.is_array declared.now }
{
    !declared.dims.is_empty()
}

/// Whether its field is an address.
fn is_by_address(declared: &Declared) -> bool
    ensures { result ≡ frame.is_by_address declared.now }
{
    declared.written.stars > 0 || is_array(declared)
}

/// Whether it is `void`, with stars or without.
pub(crate) fn is_void(base: &Base) -> bool
    ensures { result ≡ frame.is_void base.now }
{
    matches!(base, Base::Void)
}

/// Whether there is something to return.
fn is_returning(written: &Written) -> bool
    ensures { result ≡ frame.is_returning written.now }
{
    !is_void(&written.base) || written.stars > 0
}

/// Whether its length follows its field.
fn is_measured(is_trusted: bool, declared: &Declared) -> bool
    ensures { result ≡ frame.is_measured is_trusted declared.now }
{
    is_trusted && is_by_address(declared) && (has(declared, b"string") || has(declared, b"wstring"))
}

/// Whether its field is an address whatever its type.
fn has_address(declared: &Declared) -> bool
    ensures { result ≡ (frame.is_by_address declared.now || frame.has "isary" declared.now) }
{
    is_by_address(declared) || has(declared, b"isary")
}

fn known(meant: Meant) -> Option<Extent>
    ensures { result ≡ known_of meant }
{
    match meant {
        Meant::Known(extent) => Some(extent),
        Meant::Void | Meant::Unsized | Meant::Undeclared => None,
    }
}

/// The size and the alignment of a type, where they are known.
pub(crate) fn extent_of(types: &Types, written: &Written) -> Option<Extent>
    ensures { Settles (λ n. frame.plain_shape types.now.gathered types.now.foreign n written.now)
        (option_map shape_at result) }
{
    if written.stars > 0 {
        Some(Extent::ADDRESS)
    } else {
        known(types.meant(&written.base))
    }
}

/// The size of an element of an array, which is one byte where it is not known.
fn element_size(types: &Types, declared: &Declared) -> u32
    ensures { IsElement types.now.gathered types.now.foreign declared.now result }
{
    match extent_of(types, &declared.written) {
        Some(extent) => extent.size,
        None => 1,
    }
}

/// Whether an array is longer than the limit.
pub(crate) fn is_too_long(types: &Types, declared: &Declared) -> bool
    ensures { IsLengthTest types.now.gathered types.now.foreign declared.now result }
{
    let size = element_size(types, declared);
    array_size(size, declared.dims.as_slice()) > MAX_SIZE
}

/// The ends with one field more, where its type is known.
fn with_field(mut ends: FieldEnds, field: Option<Extent>) -> Option<FieldEnds>
    ensures { result ≡ option_map (λ e. ends_after ends (shape_at e)) field }
{
    let field = field?;
    ends.push(field);
    Some(ends)
}

fn field_of(types: &Types, declared: &Declared) -> Option<Extent>
    ensures { Settles (λ n. frame.field_shape (frame.plain_shape types.now.gathered types.now.foreign n) declared.now)
        (option_map shape_at result) }
{
    if has_address(declared) {
        Some(Extent::ADDRESS)
    } else {
        extent_of(types, &declared.written)
    }
}

/// The ends with the fields of a parameter.
fn with_param(
    types: &Types,
    is_trusted: bool,
    declared: &Declared,
    ends: FieldEnds,
) -> Option<FieldEnds>
    ensures { Pushes (λ n. frame.param_fields (frame.plain_shape types.now.gathered types.now.foreign n) is_trusted
        declared.now) ends result }
{
    let ends = with_field(ends, field_of(types, declared))?;
    if is_measured(is_trusted, declared) {
        with_field(ends, Some(Extent::ADDRESS))
    } else {
        Some(ends)
    }
}

/// The ends with the fields of all parameters.
fn with_params(
    types: &Types,
    is_trusted: bool,
    params: &[Declared],
    mut ends: FieldEnds,
) -> Option<FieldEnds>
    ensures { Pushes (λ n. flat_map (frame.param_fields (frame.plain_shape types.now.gathered types.now.foreign n)
        is_trusted) params.now) ends result }
{
    for param in params {
        ends = with_param(types, is_trusted, param, ends)?;
    }
    Some(ends)
}

/// The ends of what a function returns.
fn result_ends(types: &Types, written: &Written) -> Option<FieldEnds>
    ensures { Pushes (λ n. frame.result_fields (frame.plain_shape types.now.gathered types.now.foreign n) written.now)
        (ends_of []) result }
{
    let ends = FieldEnds::new();
    if is_returning(written) {
        with_field(ends, extent_of(types, written))
    } else {
        Some(ends)
    }
}

/// The ends of a marshalling structure, where all its types are known.
fn frame_ends(types: &Types, is_trusted: bool, decl: &FuncDecl) -> Option<FieldEnds>
    ensures { Pushes (λ n. frame.frame_fields (frame.plain_shape types.now.gathered types.now.foreign n)
        (record { file = 0; is_trusted = is_trusted; decl = decl.now })) (ends_of []) result }
{
    let ends = result_ends(types, &decl.result)?;
    with_params(types, is_trusted, decl.params.as_slice(), ends)
}

/// Whether a marshalling structure is known and too large.
pub(crate) fn is_frame_too_large(types: &Types, is_trusted: bool, decl: &FuncDecl) -> bool
    ensures { (file : ℕ)
        → IsFrameTest types.now.gathered types.now.foreign
        (record { file = file; is_trusted = is_trusted; decl = decl.now }) result }
{
    match frame_ends(types, is_trusted, decl) {
        Some(ends) => ends.size() > MAX_FRAME,
        None => false,
    }
}
