// What a session notes of the slots of the string table, and interning and looking for units by that.
ghost use Rattle.std.specs.Prelude.{◌≡◌, ◌≤◌, ℕ, [], List, IfOk, length};
ghost use Rattle.heap_rule.specs.Layout.{MAX};
ghost use Rattle.heap_rule.specs.Maps.{Has, HasKey};
ghost use Rattle.heap_rule.specs.Views.{IsSeenSettled};
ghost use Rattle.heap_read.specs.Readers.{view_in};
ghost use Rattle.heap_intern.specs.Given.{FindsGiven, InternsGiven};
ghost use Rattle.heap_intern.specs.Hashes.{AreHashes, NotesHash};
ghost use Rattle.heap_intern.specs.Interning.{CountsSlots, InternsSettled};
ghost use Rattle.heap_intern.specs.Seats.{IsSeatOf, id_in};
ghost use Rattle.heap_intern.specs.SlotLoads.{answered};
ghost use Rattle.heap_session.specs.Noted.{hashes_in};

use heap_intern::{Key, Seat, TableFull, intern_counted, intern_units, search_key};
use heap_read::{HeapRef, Reader, Steps};
use std::sync::ledger::Ledger;

// For each slot 0, or what its string hashes to, with 1 in place of 0. Without room nothing is noted.
#[derive(Drop)]
pub(crate) struct Noted {
    pub(crate) hashes: Option<Vec<u32>>,
}

impl Noted {
    // No room.
    pub(crate) fn none() -> Noted
        ensures { hashes_in result ≡ [] }
    {
        Noted { hashes: None }
    }

    // The interned string of these units, and its slot.
    pub(crate) fn intern_units<H: HeapRef>(
        &mut self,
        reader: &mut Reader<H>,
        units: &[u16],
    ) -> Result<Seat, TableFull>
        requires short { length units.now ≤ MAX }
        requires hashed { AreHashes (view_in reader.old) (hashes_in self.old) }
        ensures heap { reader.new.heap ≡ reader.old.heap }
        ensures interns { InternsGiven (view_in reader.old) (view_in reader.new) units.now (id_in result) }
        ensures seated { IfOk result (λ s. IsSeatOf (view_in reader.new) units.now s) }
        ensures notes { NotesHash (view_in reader.old) (view_in reader.new) units.now
            (answered (id_in result)) (hashes_in self.old) (hashes_in self.new) }
    {
        match &mut self.hashes {
            Some(hashes) => intern_units(reader, units, hashes.as_mut_slice()),
            None => intern_units(reader, units, &mut []),
        }
    }

    // The interned string of these units, if it is in the table.
    pub(crate) fn find<H: HeapRef>(&mut self, reader: &mut Reader<H>, units: &[u16]) -> Option<u32>
        requires short { length units.now ≤ MAX }
        requires hashed { AreHashes (view_in reader.old) (hashes_in self.old) }
        ensures heap { reader.new.heap ≡ reader.old.heap }
        ensures finds { FindsGiven (view_in reader.old) (view_in reader.new) units.now result }
        ensures notes { NotesHash (view_in reader.old) (view_in reader.new) units.now
            result (hashes_in self.old) (hashes_in self.new) }
    {
        let key = Key::Units(units);
        match &mut self.hashes {
            Some(hashes) => search_key(reader, &key, hashes.as_mut_slice()).found(),
            None => search_key(reader, &key, &mut []).found(),
        }
    }

    // The interned string of the units of a settled one, with a count of the loads of slots.
    pub(crate) fn intern<L: Ledger, H: HeapRef>(
        &mut self,
        reader: &mut Reader<H>,
        id: u32,
        steps: &mut Steps<L>,
    ) -> Result<u32, TableFull>
        requires known { HasKey (view_in reader.old).units id }
        requires settled { IsSeenSettled (view_in reader.old) id }
        requires hashed { AreHashes (view_in reader.old) (hashes_in self.old) }
        ensures heap { reader.new.heap ≡ reader.old.heap }
        ensures interns { InternsSettled (view_in reader.old) (view_in reader.new) id result }
        ensures counts { CountsSlots (view_in reader.old) (view_in reader.new) id result
            steps.old steps.new }
        ensures notes { (us : List ℕ) → Has (view_in reader.old).units id us
            → NotesHash (view_in reader.old) (view_in reader.new) us (answered result)
            (hashes_in self.old) (hashes_in self.new) }
    {
        match &mut self.hashes {
            Some(hashes) => intern_counted(reader, id, hashes.as_mut_slice(), steps),
            None => intern_counted(reader, id, &mut [], steps),
        }
    }
}
