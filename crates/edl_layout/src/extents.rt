//! Sizes and alignments, and the ends of fields that are put one behind the other.
//!
//! A number here that passes 64 bits stays at the largest one of them, so it is never taken for a small one.

ghost use Rattle.std.specs.Prelude.{◌≡◌, ◌+◌, ◌*◌, ◌^◌, ◌<◌, ℕ, List, [], ◌∷◌, ◌++◌, fold, length};
ghost use Rattle.sgx_base.specs.Bytes as bytes;
ghost use Rattle.edl_layout.specs.Shape.{Shape, structure_shape, end_of, offsets};
ghost use Rattle.edl_layout.specs.Shape as shape;
ghost use Rattle.edl_layout.specs.Ends.{kept, shape_at, ends_of, ends_after};

/// A size and an alignment in bytes.
#[derive(Clone, Copy, Debug, PartialEq, Eq)]
pub struct Extent {
    pub size: u32,
    pub align: u32,
}

impl Extent {
    /// That of an address.
    pub const ADDRESS: Extent = Extent { size: 8, align: 8 };

    /// That of a number of so many bytes.
    pub(crate) fn square(size: u32) -> Extent
        ensures { shape_at result ≡ shape.square size }
    {
        Extent { size, align: size }
    }
}

/// The end of the fields so far, and their largest alignment, in bytes.
#[derive(Clone, Copy, Debug, PartialEq, Eq)]
pub struct FieldEnds {
    pub end: u64,
    pub align: u32,
}

/// The least multiple of the alignment at or after a place.
pub(crate) fn round_up(place: u64, align: u32) -> u64
    ensures { result ≡ kept (bytes.round_up place align) }
{
    if align == 0 {
        return 0;
    }
    let align = u64::from(align);
    let over = place % align;
    if over == 0 {
        place
    } else {
        place.saturating_add(align - over)
    }
}

/// The number of elements of an array with these dimensions, where an empty one counts as 0.
fn elements(dims: &[Option<u64>]) -> u64
    ensures { result ≡ kept (shape.elements dims.now) }
{
    let mut count = 1u64;
    for dim in dims {
        count = count.saturating_mul(dim.unwrap_or(0));
    }
    count
}

/// The size of an array, by its element's size and its dimensions.
pub fn array_size(size: u32, dims: &[Option<u64>]) -> u64
    ensures { result ≡ kept (size * shape.elements dims.now) }
{
    u64::from(size).saturating_mul(elements(dims))
}

impl FieldEnds {
    /// Those of no field.
    pub fn new() -> FieldEnds
        ensures { result ≡ ends_of [] }
    {
        FieldEnds { end: 0, align: 1 }
    }

    /// Puts a field behind the others, and gives its offset.
    pub fn push(&mut self, field: Extent) -> u64
        ensures offset { result ≡ kept (bytes.round_up self.old.end field.align) }
        ensures ends { self.new ≡ ends_after self.old (shape_at field) }
    {
        let offset = round_up(self.end, field.align);
        self.end = offset.saturating_add(u64::from(field.size));
        self.align = self.align.max(field.align);
        offset
    }

    /// The size of the structure with these fields.
    pub fn size(&self) -> u64
        ensures { result ≡ kept (bytes.round_up self.now.end self.now.align) }
    {
        round_up(self.end, self.align)
    }

    /// The structure with these fields.
    pub fn extent(&self) -> Extent
        requires { bytes.round_up self.now.end self.now.align < 2 ^ 32 }
        ensures { shape_at result
            ≡ record { size = bytes.round_up self.now.end self.now.align; align = self.now.align } }
    {
        Extent {
            size: self.size() as u32,
            align: self.align,
        }
    }
}

/// One field behind the other: what is pushed in order has the ends of the whole list, the size of its structure, and
/// the offsets that it has there.
pub fn ends_of_fields()
    ensures ends { (ss : List Shape) → fold ends_after (ends_of []) ss ≡ ends_of ss }
    ensures more { (ss : List Shape) (s : Shape) → ends_after (ends_of ss) s ≡ ends_of (ss ++ s ∷ []) }
    ensures offset { (ss : List Shape) (s : Shape) → kept (bytes.round_up (ends_of ss).end s.align)
        ≡ kept (bytes.round_up (end_of 0 ss) s.align) }
    ensures offsets { (ss : List Shape) (s : Shape) → offsets (ss ++ s ∷ [])
        ≡ offsets ss ++ bytes.round_up (end_of 0 ss) s.align ∷ [] }
    ensures size { (ss : List Shape) → kept (bytes.round_up (ends_of ss).end (ends_of ss).align)
        ≡ kept (structure_shape ss).size }
{}
