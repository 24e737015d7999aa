// The short lists of units that were interned or found last, as whoever looks for units keeps them: one that is
// looked for again costs a comparison with what is kept, and one load of its slot.
ghost use Rattle.std.specs.Prelude.{◌≡◌, ◌+◌, ◌<◌, ◌≤◌, length, IfSome};
ghost use Rattle.heap_rule.specs.declared.view.View.{View};
ghost use Rattle.heap_intern.specs.KeptKeys.{AreKeptKeys, HasKept};
ghost use Rattle.heap_intern.specs.Seats.{IsSeatOf};

use crate::table::kept::{KeptKey, LONGEST};
use crate::table::probing::Seat;
use js_units::hash_units;

// By how many units of a list a number goes.
const MOST_MIXED: usize = 32;

// An odd number whose product with another depends on all its bits in the upper ones.
const MIX: u64 = 11400714819323198485;

impl KeptKey {
    /// No list.
    pub fn none() -> KeptKey
        ensures { 16 < result.len }
    {
        KeptKey {
            units: [0; 16],
            len: u32::MAX,
            seat: Seat { id: 0, slot: 0 },
        }
    }

    // A list and its string.
    fn new(units: &[u16], seat: Seat) -> KeptKey
        requires { length units.now ≤ 16 }
        ensures { HasKept result units.now seat }
    {
        let count = units.len();
        let mut room = [0; 16];
        room[..count].copy_from_slice(units);
        KeptKey {
            units: room,
            len: count as u32,
            seat,
        }
    }

    // The string, where the list has these units.
    fn seat_of(&self, units: &[u16]) -> Option<Seat>
        ensures { IfSome result (λ s. HasKept self.now units.now s) }
    {
        let count = units.len();
        if count > LONGEST || self.len as usize != count {
            return None;
        }
        if &self.units[..count] == units {
            return Some(self.seat);
        }
        None
    }
}

/// A number by which a list of units has its place, mostly another one for another short list: it goes by the
/// first 32 units, four at a time, and all their bits have a part in its upper ones.
pub fn mix_units(units: &[u16]) -> u32 {
    let count = units.len().min(MOST_MIXED);
    if count < 4 {
        return mixed(u64::from(hash_units(0, units)));
    }
    let last = count - 4;
    let mut all = four_from(units, last);
    let mut i = 0;
    while i < last {
        all = all.wrapping_mul(MIX).wrapping_add(four_from(units, i));
        i += 4;
    }
    mixed(all)
}

// The upper bits of a product, on which all bits of the number have a part.
fn mixed(all: u64) -> u32 {
    (all.wrapping_mul(MIX) >> 32) as u32
}

// Four units as one number.
fn four_from(units: &[u16], i: usize) -> u64
    requires { i + 4 ≤ length units.now }
{
    let upper = u64::from(units[i + 3]) * 65536 + u64::from(units[i + 2]);
    let lower = u64::from(units[i + 1]) * 65536 + u64::from(units[i]);
    upper.wrapping_mul(4294967296).wrapping_add(lower)
}

// The place of a list, by its number, among so many. Places are a power of two, so its upper bits are taken.
fn place_of(mark: u32, places: usize) -> usize {
    (u64::from(mark).wrapping_mul(places as u64) >> 32) as usize
}

/// The interned string of these units and its slot, where the list at their place has them. The number is
/// the one that [`mix_units`] gives for them.
pub fn find_kept(keys: &[KeptKey], mark: u32, units: &[u16]) -> Option<Seat>
    ensures { IfSome result (λ s. (v : View) → AreKeptKeys v keys.now → IsSeatOf v units.now s) }
{
    let place = place_of(mark, keys.len());
    if place >= keys.len() {
        return None;
    }
    keys[place].seat_of(units)
}

/// Keeps a list of at most 16 units, with its interned string and the slot of that, in place of the list that
/// was kept there. A longer one is not kept.
pub fn keep_key(keys: &mut [KeptKey], mark: u32, units: &[u16], seat: Seat)
    ensures right { (v : View) → AreKeptKeys v keys.old → IsSeatOf v units.now seat → AreKeptKeys v keys.new }
    ensures room { length keys.new ≡ length keys.old }
{
    let place = place_of(mark, keys.len());
    if units.len() > LONGEST || place >= keys.len() {
        return;
    }
    keys[place] = KeptKey::new(units, seat);
}
