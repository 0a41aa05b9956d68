//! The body that is open.

ghost use Rattle.std.specs.Prelude.{◌+◌, ◌<◌, ◌^◌, length};

use crate::limit_rules::BodyRoom;
use edl_interface::Param;
use sgx_base::Name;
use sqlite_items::Items;

/// The body that is open, as far as its lines are gone through.
#[derive(Drop)]
pub struct Body<'a> {
    pub params: &'a [Param],
    /// The temporaries of all its lines.
    pub temporaries: Items<Name>,
    /// How many of them stand before.
    pub given: usize,
    pub room: BodyRoom,
    /// How many actions are left.
    pub left: u32,
    ghost few: { length params.now + length temporaries < 2 ^ 32 },
}
