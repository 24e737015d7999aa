// What an agent notes of the string table, so that less of it is loaded.
ghost use Rattle.std.specs.Prelude.{◌≡◌, ℕ, [], slice_index, IfSome};
ghost use Rattle.heap_rule.specs.declared.view.View.{View};
ghost use Rattle.heap_intern.specs.KeptKeys.{AreKeptKeys};
ghost use Rattle.heap_intern.specs.Seats.{IsSeatOf};

use heap_intern::{KeptKey, Seat, find_kept, keep_key, mix_units};
use std::alloc::Global;

/// For how many slots hashes are noted at most: 4 MB of them.
const MOST_HASHES: u32 = 1_048_576;

// How many short lists of units are kept: 44 KB of them.
const KEPT_KEYS: usize = 1024;

// The units of the longest list that is kept.
const LONGEST: usize = 16;

// How many lists in a row may be found in the table that weren't kept, before kept ones are passed over.
const MOST_TRUST: u32 = 1024;

/// For each id 0, or one above the slot that has the interned string of that id; for each slot 0, or what its
/// string hashes to, with 1 in place of 0; and the short lists of units that were interned or found last, each
/// with its interned string and the slot of that. Where memory runs out, fewer are noted.
///
/// Most callers look for few short lists again and again, and some for very many in turn, which no place keeps
/// until they come again. So kept lists are trusted by how often they had what was looked for, and where they
/// mostly don't, only each sixteenth call looks there.
#[derive(Drop)]
pub struct Seats {
    pub slots: Vec<u32>,
    pub hashes: Vec<u32>,
    pub keys: Vec<KeptKey>,
    trust: u32,
    sought: u32,
    looked: bool,
}

// The trust in kept lists, once one was looked for there.
fn trust_after(trust: u32, found: bool) -> u32 {
    if found {
        return trust.saturating_add(1).min(MOST_TRUST);
    }
    trust
}

impl Seats {
    /// Nothing is noted.
    pub fn none(alloc: Global) -> Seats
        ensures slots { result.slots.items ≡ [] }
        ensures hashes { result.hashes.items ≡ [] }
        ensures keys { result.keys.items ≡ [] }
    {
        Seats {
            slots: Vec::new(alloc),
            hashes: Vec::new(alloc),
            keys: Vec::new(alloc),
            trust: MOST_TRUST,
            sought: 0,
            looked: false,
        }
    }

    /// Makes room for an id, and for as many more as there were, up to `most`, if there is memory for them.
    pub fn reach(&mut self, id: u32, most: u32)
        ensures slots { (i : ℕ) → slice_index self.new.slots.items i ≡ slice_index self.old.slots.items i }
        ensures hashes { self.new.hashes ≡ self.old.hashes }
        ensures keys { self.new.keys ≡ self.old.keys }
    {
        let len = self.slots.len();
        if (id as usize) < len {
            return;
        }
        let twice = len.saturating_mul(2).min(most as usize);
        let _ = self.slots.resize(twice.max(id as usize + 1), 0);
    }

    /// Makes room for the hashes of so many slots, if there is memory for them.
    pub fn reach_hashes(&mut self, slots: u32)
        ensures slots { self.new.slots ≡ self.old.slots }
        ensures hashes { (i : ℕ) → slice_index self.new.hashes.items i ≡ slice_index self.old.hashes.items i }
        ensures keys { self.new.keys ≡ self.old.keys }
    {
        let most = slots.min(MOST_HASHES) as usize;
        if self.hashes.len() < most {
            let _ = self.hashes.resize(most, 0);
        }
    }

    // Makes room for short lists of units, if there is memory for them.
    fn reach_keys(&mut self)
        ensures slots { self.new.slots ≡ self.old.slots }
        ensures hashes { self.new.hashes ≡ self.old.hashes }
        ensures keys { (v : View) → AreKeptKeys v self.old.keys.items → AreKeptKeys v self.new.keys.items }
    {
        if self.keys.is_empty() {
            let _ = self.keys.resize(KEPT_KEYS, KeptKey::none());
        }
    }

    /// The interned string of a list of units, with its slot, where the list is kept and kept lists are looked
    /// at.
    pub fn find_list(&mut self, units: &[u16]) -> Option<Seat>
        ensures found { IfSome result (λ s. (v : View) → AreKeptKeys v self.old.keys.items
            → IsSeatOf v units.now s) }
        ensures slots { self.new.slots ≡ self.old.slots }
        ensures hashes { self.new.hashes ≡ self.old.hashes }
        ensures keys { (v : View) → AreKeptKeys v self.old.keys.items → AreKeptKeys v self.new.keys.items }
    {
        if units.len() > LONGEST {
            return None;
        }
        self.sought = self.sought.wrapping_add(1);
        self.looked = self.trust > 0 || self.sought % 16 == 0;
        if !self.looked {
            return None;
        }
        self.reach_keys();
        let found = find_kept(self.keys.as_slice(), mix_units(units), units);
        self.trust = trust_after(self.trust, found.is_some());
        found
    }

    /// Keeps a list of units that was looked for and then found in the table, with its interned string and the
    /// slot of that, where it is short and kept lists were looked at.
    pub fn keep_list(&mut self, units: &[u16], seat: Seat)
        ensures right { (v : View) → AreKeptKeys v self.old.keys.items → IsSeatOf v units.now seat
            → AreKeptKeys v self.new.keys.items }
        ensures slots { self.new.slots ≡ self.old.slots }
        ensures hashes { self.new.hashes ≡ self.old.hashes }
    {
        if units.len() > LONGEST || !self.looked {
            return;
        }
        self.trust = self.trust.saturating_sub(1);
        keep_key(self.keys.as_mut_slice(), mix_units(units), units, seat);
    }
}
