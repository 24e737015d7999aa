// A list of units that is kept.
ghost use Rattle.std.specs.Prelude.{◌≡◌, length};

use crate::table::probing::Seat;

// The units of the longest list that is kept.
pub(crate) const LONGEST: usize = 16;

/// A short list of units, with its interned string and the slot of that; or no list, and then its length is over
/// 16.
#[derive(Clone, Copy)]
pub struct KeptKey {
    pub(crate) units: [u16; 16],
    pub(crate) len: u32,
    pub(crate) seat: Seat,
    ghost room: { length units ≡ 16 },
}
