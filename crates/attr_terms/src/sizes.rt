//! The sizes of types, where what is not known counts as 0.

ghost use Rattle.std.specs.Prelude.{◌≡◌, option_map};
ghost use Rattle.edl_layout.specs.Ends.{shape_at};
ghost use Rattle.attr_terms.specs.Accepted as accepted;
ghost use Rattle.attr_terms.specs.Sizing as sizing;
ghost use Rattle.attr_terms.specs.Sizing.{files_of, table_of};

use crate::meanings::{Meanings, Meant};
use edl_grammar::{Base, Tag, Written};
use edl_interface::Plain;
use edl_layout::{Extent, Layouts};

/// What tells the sizes of types: their meanings, and the layouts by name.
#[derive(Clone, Copy, Drop)]
pub struct Sizes<'a> {
    pub meanings: &'a Meanings<'a>,
    pub layouts: &'a Layouts,
}

/// A size that is its own alignment.
fn square(size: u32) -> Extent
    ensures { result ≡ record { size = size; align = size } }
{
    Extent { size, align: size }
}

fn same_tag(first: Tag, second: Tag) -> bool
    ensures { result ≡ sizing.same_tag first second }
{
    matches!(
        (first, second),
        (Tag::Struct, Tag::Struct) | (Tag::Enum, Tag::Enum) | (Tag::Union, Tag::Union)
    )
}

/// Whether it is a declared type with this word.
fn is_tagged(tag: Tag, meant: Meant) -> bool
    ensures { result ≡ sizing.is_tagged tag meant }
{
    match meant {
        Meant::Declared(first) => same_tag(tag, first),
        _ => false,
    }
}

/// The size of a type that is not told by its name.
fn own_size(meant: Meant) -> Option<u32>
    ensures { result ≡ sizing.own_size meant }
{
    match meant {
        Meant::Real(size) => Some(size),
        Meant::Integer { size, .. } => Some(size),
        _ => None,
    }
}

/// A value without stars of this size.
fn plain_by(meant: Meant, size: u32) -> Plain
    ensures { result ≡ sizing.plain_by meant size }
{
    match meant {
        Meant::Integer {
            size: width,
            signed,
        } if width <= 8 => Plain {
            size,
            integer: true,
            signed,
        },
        _ => opaque(size),
    }
}

/// A value that is no integer.
fn opaque(size: u32) -> Plain
    ensures { result ≡ accepted.opaque size }
{
    Plain {
        size,
        integer: false,
        signed: false,
    }
}

/// The size of what a pointer points to; `void` counts as one byte.
fn pointee_by(meant: Meant, size: u32) -> u32
    ensures { result ≡ sizing.pointee_by meant size }
{
    match meant {
        Meant::Void => 1,
        _ => size,
    }
}

impl<'a> Sizes<'a> {
    /// Whether the first declared type of the name has this word.
    fn is_first(&self, tag: Tag, name: &[u8]) -> bool
        ensures { result ≡ accepted.is_first (files_of self.now) tag name.now }
    {
        is_tagged(tag, self.meanings.named(name))
    }

    fn named_extent(&self, base: &Base) -> Option<Extent>
        ensures { option_map shape_at result ≡ accepted.named_shape (files_of self.now) (table_of self.now) base.now }
    {
        match base {
            Base::Bare(name) => self.layouts.extent(name.bytes()),
            Base::Tagged { tag, name } => {
                if self.is_first(*tag, name.bytes()) {
                    self.layouts.extent(name.bytes())
                } else {
                    None
                }
            }
            Base::Void | Base::Float | Base::Double | Base::Integer { .. } => None,
        }
    }

    fn base_extent(&self, base: &Base) -> Option<Extent>
        ensures { option_map shape_at result ≡ accepted.base_shape (files_of self.now) (table_of self.now) base.now }
    {
        match own_size(self.meanings.meant(base)) {
            Some(size) => Some(square(size)),
            None => self.named_extent(base),
        }
    }

    /// The size and the alignment of a type with its stars.
    pub fn extent(&self, written: &Written) -> Option<Extent>
        ensures { option_map shape_at result ≡ accepted.shape_of (files_of self.now) (table_of self.now) written.now }
    {
        if written.stars > 0 {
            Some(Extent::ADDRESS)
        } else {
            self.base_extent(&written.base)
        }
    }

    /// The size of a type with its stars in bytes.
    pub fn size(&self, written: &Written) -> u32
        ensures { result ≡ accepted.size_of (files_of self.now) (table_of self.now) written.now }
    {
        match self.extent(written) {
            Some(extent) => extent.size,
            None => 0,
        }
    }

    fn base_size(&self, base: &Base) -> u32
        ensures { result ≡ accepted.base_size (files_of self.now) (table_of self.now) base.now }
    {
        match self.base_extent(base) {
            Some(extent) => extent.size,
            None => 0,
        }
    }

    /// The size in bytes of what a pointer of this type points to.
    pub fn pointee_size(&self, written: &Written) -> u32
        ensures { result ≡ accepted.pointee_size (files_of self.now) (table_of self.now) written.now }
    {
        if written.stars == 1 {
            pointee_by(
                self.meanings.meant(&written.base),
                self.base_size(&written.base),
            )
        } else {
            8
        }
    }

    /// A value of this type.
    pub fn plain(&self, written: &Written) -> Plain
        ensures { result ≡ accepted.plain_of (files_of self.now) (table_of self.now) written.now }
    {
        let size = self.size(written);
        if written.stars == 0 {
            plain_by(self.meanings.meant(&written.base), size)
        } else {
            opaque(size)
        }
    }
}

/// The size of a type in bytes, 0 where it is not known.
pub fn size_of(meanings: &Meanings<'_>, layouts: &Layouts, written: &Written) -> u32
    ensures { result ≡ accepted.size_of meanings.now.gathered.now layouts.now written.now }
{
    let sizes = Sizes { meanings, layouts };
    sizes.size(written)
}
