//! The fields of a marshalling structure, one behind the other.

ghost use Rattle.std.specs.Prelude.{◌≡◌, ◌<◌, ◌^◌, [], ◌∷◌, ◌++◌, List, Option, option_map};
ghost use Rattle.edl_layout.specs.Ends.{shape_at};
ghost use Rattle.edl_layout.specs.Shape.{Shape};
ghost use Rattle.attr_terms.specs.Accepted.{offset_by, offset_behind};
ghost use Rattle.accepted_interface.specs.Fields.{HasFields, ends_with, place_after, size_of_fields};

use edl_layout::{Extent, FieldEnds};

/// The ends of the fields so far, or None once a type of unknown size is among them.
#[derive(Clone, Copy, Drop)]
pub struct Fields {
    ends: Option<FieldEnds>,
}

/// A place, or 0 where it is unknown or 32 bits do not hold it.
fn narrow(place: Option<u64>) -> u32
    ensures { result ≡ offset_by place }
{
    match place {
        Some(place) if place < 1 << 32 => place as u32,
        _ => 0,
    }
}

/// The ends with one field more, and its place, where they are known.
fn put(ends: Option<FieldEnds>, field: Option<Extent>) -> (Option<FieldEnds>, Option<u64>)
    ensures ends { result.0 ≡ ends_with ends (option_map shape_at field) }
    ensures place { result.1 ≡ place_after ends (option_map shape_at field) }
{
    match (ends, field) {
        (Some(mut ends), Some(field)) => {
            let place = ends.push(field);
            (Some(ends), Some(place))
        }
        _ => (None, None),
    }
}

impl Fields {
    pub fn new() -> Fields
        ensures { HasFields result [] }
    {
        Fields {
            ends: Some(FieldEnds::new()),
        }
    }

    /// Puts a field behind the others, and gives its offset in bytes, 0 where it is unknown.
    pub fn push(&mut self, field: Option<Extent>) -> u32
        ensures offset { (fields : List (Option Shape)) → HasFields self.old fields
            → result ≡ offset_behind fields (option_map shape_at field) }
        ensures fields { (fields : List (Option Shape)) → HasFields self.old fields
            → HasFields self.new (fields ++ option_map shape_at field ∷ []) }
    {
        let (ends, place) = put(self.ends, field);
        self.ends = ends;
        narrow(place)
    }

    /// The size of the structure in bytes, 0 where it is unknown.
    pub fn size(&self) -> u32
        ensures { (fields : List (Option Shape)) → HasFields self.now fields → size_of_fields fields < 2 ^ 32
            → result ≡ size_of_fields fields }
    {
        match self.ends {
            Some(ends) => narrow(Some(ends.size())),
            None => 0,
        }
    }
}
