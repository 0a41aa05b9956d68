//! The table of layouts, by name.
ghost use Rattle.std.specs.Prelude.{◌≡◌, ◌++◌, [], ◌∷◌, None, OnOk, OnErr, option_map};
ghost use Rattle.std.specs.Option.{option_copied};
ghost use Rattle.edl_layout.specs.Table.{entry, shape_in, size_in, align_in, offset_in};

use crate::extents::Extent;
use indexmap::IndexMap;
use sqlite_items::Items;
use std::alloc::{AllocError, Global};
use std::marker::Model;

/// The size and the alignment of a type, and the offsets of its members.
#[derive(Debug, Drop)]
struct Layout {
    extent: Extent,
    offsets: Items<u32>,
}

/// The layouts of the types whose sizes are known, which contracts see as a list.
#[derive(Debug, Drop)]
pub struct Layouts {
    layouts: IndexMap<Vec<u8>, Layout>,
}

impl Model for Layouts {
    ghost use Rattle.std.specs.Prelude.{List, map};
    ghost use Rattle.std.specs.Coded.{coded_list};
    ghost use Rattle.edl_layout.specs.declared.NamedShape.{NamedShape};
    ghost use Rattle.edl_layout.specs.Coding.{coded_shape};

    ghost Value = { List NamedShape };

    ghost coded = { coded_list coded_shape };

    ghost view = { λ l. map (λ e. record {
      name = e.0.items;
      size = e.1.extent.size;
      align = e.1.extent.align;
      offsets = e.1.offsets;
    }) l.layouts.entries };
}

impl Layouts {
    /// A table without an entry.
    pub(crate) fn new(alloc: Global) -> Layouts
        ensures { result ≡ [] }
    {
        Layouts {
            layouts: IndexMap::new(alloc),
        }
    }

    /// Puts the layout of a name that has none yet at the end.
    pub(crate) fn insert(
        &mut self,
        alloc: Global,
        name: &[u8],
        extent: Extent,
        offsets: Items<u32>,
    ) -> Result<(), AllocError>
        requires { entry self.old name.now ≡ None }
        ensures ok { OnOk result (self.new
            ≡ self.old ++ record { name = name.now; size = extent.size; align = extent.align; offsets = offsets }
            ∷ []) }
        ensures err { OnErr result (self.new ≡ self.old) }
    {
        let name = Vec::from_slice(alloc, name)?;
        self.layouts.insert(name, Layout { extent, offsets })?;
        Ok(())
    }

    fn find(&self, name: &[u8]) -> Option<&Layout>
        ensures { option_map (λ l. record {
          name = name.now;
          size = l.extent.size;
          align = l.extent.align;
          offsets =
              l.offsets;
        }) (option_copied result) ≡ entry self.now name.now }
    {
        self.layouts.get(name)
    }

    /// The size and the alignment in bytes of the type of this name, or None where it has none or they are unknown.
    pub fn extent(&self, name: &[u8]) -> Option<Extent>
        ensures { option_map (λ e. record { size = e.size; align = e.align }) result ≡ shape_in self.now name.now }
    {
        Some(self.find(name)?.extent)
    }

    /// The size in bytes of the type of this name, or None where it has none or it is unknown.
    pub fn size(&self, name: &[u8]) -> Option<u32>
        ensures { result ≡ size_in self.now name.now }
    {
        Some(self.find(name)?.extent.size)
    }

    /// The alignment in bytes of the type of this name, or None where it has none or it is unknown.
    pub fn align(&self, name: &[u8]) -> Option<u32>
        ensures { result ≡ align_in self.now name.now }
    {
        Some(self.find(name)?.extent.align)
    }

    /// The offset in bytes of a type's member of this number, or None where there is no such member or its type's size
    /// is unknown.
    pub fn offset(&self, name: &[u8], member: u32) -> Option<u32>
        ensures { result ≡ offset_in self.now name.now member }
    {
        let layout = self.find(name)?;
        layout.offsets.get(member as usize).copied()
    }
}
