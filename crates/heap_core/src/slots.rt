// The two kinds of event on slots of the string table.
ghost use Rattle.std.specs.Prelude.{◌≡◌, ℕ, ◌+◌, ◌==◌, if◌then◌else◌, ◌↔◌, slice_index, IsTrue};
ghost use Rattle.heap_rule.specs.Layout.{slot_at};
ghost use Rattle.heap_core.specs.Core.{core_of};
ghost use Rattle.heap_core.specs.Events.{IsCore, Became, CanLoadSlot, after_load_slot, CanTakeSlot, after_take_slot};

use crate::machine::Machine;
use heap_core_views::slots;
use js_units::{NoMemory, Units};

impl Machine {
    /// Whether the live view may load the slot and learn all that the event learns.
    pub(crate) fn may_load_slot(
        &self,
        view: u32,
        slot: u32,
        entry: &Option<Units>,
        names: &[u32],
    ) -> bool
        requires { IsCore (core_of self.now) }
        ensures { IsTrue result ↔ CanLoadSlot (core_of self.now) view slot entry.now names.now }
    {
        match self.live(view) {
            Some(v) => slots::may_load(v, slot, entry, names),
            None => false,
        }
    }

    /// A load of a slot.
    pub(crate) fn load_slot(
        &mut self,
        view: u32,
        slot: u32,
        entry: &Option<Units>,
        names: &[u32],
    ) -> Result<u64, NoMemory>
        requires core { IsCore (core_of self.old) }
        requires can { CanLoadSlot (core_of self.old) view slot entry.now names.now }
        ensures { Became (core_of self.old) (after_load_slot (core_of self.old) view slot entry.now names.now)
            (slice_index self.old.words.items (slot_at self.old.size slot)) (core_of self.new) result }
    {
        let found = self.word(self.size.slot_place(slot));
        let seen = slots::slot_loaded(self.view(view), self.alloc(), slot, entry, found, names)?;
        self.look(view, seen);
        Ok(found)
    }

    /// Whether the live view may claim the slot and learn all that the event learns.
    pub(crate) fn may_take_slot(&self, view: u32, slot: u32, id: u32, names: &[u32]) -> bool
        requires { IsCore (core_of self.now) }
        ensures { IsTrue result ↔ CanTakeSlot (core_of self.now) view slot id names.now }
    {
        match self.live(view) {
            Some(v) => slots::may_take(v, slot, id, names),
            None => false,
        }
    }

    /// A claim of a slot.
    pub(crate) fn take_slot(
        &mut self,
        view: u32,
        slot: u32,
        id: u32,
        names: &[u32],
    ) -> Result<u64, NoMemory>
        requires core { IsCore (core_of self.old) }
        requires can { CanTakeSlot (core_of self.old) view slot id names.now }
        ensures { Became (core_of self.old) (after_take_slot (core_of self.old) view slot id names.now)
            (slice_index self.old.words.items (slot_at self.old.size slot)) (core_of self.new) result }
    {
        let place = self.size.slot_place(slot);
        let found = self.word(place);
        let seen = slots::slot_taken(self.view(view), self.alloc(), slot, id, found, names)?;
        self.look(view, seen);
        self.store(place, taken_word(found, id));
        Ok(found)
    }
}

/// What a claim leaves in the slot.
fn taken_word(found: u64, id: u32) -> u64
    ensures { result ≡ (if found == 0 then id + 1 else found) }
{
    if found == 0 {
        return u64::from(id) + 1;
    }
    found
}
