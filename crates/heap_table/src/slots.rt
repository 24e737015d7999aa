// The slots of the string table: a load of one, and a claim of one that was found free.
ghost use Rattle.std.specs.Prelude.{◌≡◌, ℕ, ◌<◌};
ghost use Rattle.heap_rule.specs.Slots.{MayTakeSlot, loaded_slot, slot_word, took_slot};
ghost use Rattle.heap_rule.specs.Learning.{learned_all};
ghost use Rattle.heap_table.specs.Agents.{Belongs, size_of, view_of};
ghost use Rattle.heap_table.specs.Known.{KeepsKnown};
ghost use Rattle.heap_table.specs.Plays.{FoundSlot};
ghost use Rattle.heap_table.specs.Slots.{IsTaken, MayEnterIf, entry_if, word_found};

use crate::agent::Agent;
use crate::heap::Heap;
use crate::rule::{EntersSlot, LoadsSlot, TakesSlot};
use crate::stores::Step;

impl Agent {
    // The word of a slot, which is 0 where it is free.
    fn look_at_slot(&mut self, heap: &Heap, slot: u32, enter: bool) -> u64
        requires belongs { Belongs self.old heap.now }
        requires inside { slot < (size_of heap.now).slots }
        requires enter { MayEnterIf enter (view_of self.old) slot }
        ensures belongs { Belongs self.new heap.now }
        ensures known { KeepsKnown (view_of self.old) (view_of self.new) }
        ensures forms { (view_of self.new).forms ≡ (view_of self.old).forms }
        ensures view { view_of self.new
            ≡ learned_all
            (loaded_slot (view_of self.old) slot (entry_if enter (view_of self.old) slot) result) }
        ensures found { FoundSlot (view_of self.old) slot result }
    {
        let place = heap.size.slot_place(slot);
        if enter {
            return heap.table.shared.load::<EntersSlot>(&mut self.seat, place);
        }
        heap.table.shared.load::<LoadsSlot>(&mut self.seat, place)
    }

    /// The string in a slot, which is known from then on; None where the slot is free. With
    /// `enter` the string that this agent saw there, and its units, go to the end of the history.
    pub fn load_slot(&mut self, heap: &Heap, slot: u32, enter: bool) -> Option<u32>
        requires belongs { Belongs self.old heap.now }
        requires inside { slot < (size_of heap.now).slots }
        requires enter { MayEnterIf enter (view_of self.old) slot }
        ensures belongs { Belongs self.new heap.now }
        ensures known { KeepsKnown (view_of self.old) (view_of self.new) }
        ensures forms { (view_of self.new).forms ≡ (view_of self.old).forms }
        ensures view { view_of self.new
            ≡ learned_all
            (loaded_slot (view_of self.old) slot (entry_if enter (view_of self.old) slot)
            (slot_word result)) }
        ensures found { FoundSlot (view_of self.old) slot (slot_word result) }
    {
        let word = self.look_at_slot(heap, slot, enter);
        if word == 0 {
            return None;
        }
        Some((word - 1) as u32)
    }

    // One compare-exchange of a slot from 0. It is won where it answers 0.
    fn try_slot(&mut self, heap: &Heap, slot: u32, id: u32) -> u64
        requires belongs { Belongs self.old heap.now }
        requires may { MayTakeSlot (view_of self.old) slot id }
        ensures belongs { Belongs self.new heap.now }
        ensures known { KeepsKnown (view_of self.old) (view_of self.new) }
        ensures forms { (view_of self.new).forms ≡ (view_of self.old).forms }
        ensures view { view_of self.new ≡ learned_all (took_slot (view_of self.old) slot id result) }
        ensures found { FoundSlot (view_of self.old) slot result }
    {
        let new = u64::from(id) + 1;
        heap.table
            .shared
            .compare_exchange::<TakesSlot>(&mut self.seat, heap.size.slot_place(slot), 0, new)
    }

    /// Puts a fixed Flat into a slot, by a compare-exchange from 0. Where it is won, the string
    /// and its units go to the end of the history; where it is lost, the word found is that of
    /// another agent's string. Each slot before this one on the path of its units has a string
    /// that is known to have others.
    pub fn claim_slot(&mut self, heap: &Heap, slot: u32, id: u32) -> Step
        requires belongs { Belongs self.old heap.now }
        requires may { MayTakeSlot (view_of self.old) slot id }
        ensures belongs { Belongs self.new heap.now }
        ensures known { KeepsKnown (view_of self.old) (view_of self.new) }
        ensures forms { (view_of self.new).forms ≡ (view_of self.old).forms }
        ensures taken { IsTaken result }
        ensures view { view_of self.new
            ≡ learned_all (took_slot (view_of self.old) slot id (word_found result)) }
        ensures found { FoundSlot (view_of self.old) slot (word_found result) }
    {
        let word = self.try_slot(heap, slot, id);
        if word == 0 {
            return Step::Won;
        }
        Step::Lost { word }
    }
}
