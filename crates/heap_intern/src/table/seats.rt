// Strings of which the slot of the interned one is noted: interning one of them again is one load of that slot,
// which enters the call in the history.
ghost use Rattle.std.specs.Prelude.{◌≡◌, ◌⊎◌, ℕ, List, ◌+◌, ◌≤◌, ◌<◌, ◌^◌, IfOk, Ok, Some, None, length, slice_index};
ghost use Rattle.heap_rule.specs.Maps.{Has};
ghost use Rattle.heap_intern.specs.Adopted.{LoadsHere};
ghost use Rattle.heap_intern.specs.Answers.{UsesNothing};
ghost use Rattle.heap_intern.specs.Given.{InternsGiven};
ghost use Rattle.heap_intern.specs.Hashes.{AreHashes, NotesHash};
ghost use Rattle.heap_intern.specs.Interning.{InternsSettled};
ghost use Rattle.heap_intern.specs.Seats.{IsSeatOf, IsSeated, id_in};
ghost use Rattle.heap_intern.specs.SlotLoads.{answered};
ghost use Rattle.heap_read.specs.Readers.{view_in};
ghost use Rattle.heap_rule.specs.Layout.{MAX};

use crate::table::faults::TableFull;
use crate::table::probing::{Seat, intern_wanted};
use crate::table::wanted::Wanted;
use heap_read::{HeapRef, Reader, Steps};
use js_units::hash_units;
use std::marker::Brand;
use std::sync::ledger::{Blank, Ledger};

/// Units whose interned string and its slot are noted, by one load of that slot, which enters the call in the
/// history. Nothing is used.
pub fn intern_again<H: HeapRef>(reader: &mut Reader<H>, seat: Seat) -> u32
    requires { (us : List ℕ) × IsSeatOf (view_in reader.old) us seat }
    ensures heap { reader.new.heap ≡ reader.old.heap }
    ensures same { result ≡ seat.id }
    ensures interns { (us : List ℕ) → Has (view_in reader.old).units seat.id us
        → InternsGiven (view_in reader.old) (view_in reader.new) us (Ok result) }
    ensures loads { LoadsHere (view_in reader.old) (view_in reader.new) seat.slot 1 }
{
    load_again(reader, seat.id, seat.slot)
}

// The ledger of a caller that counts nothing.
fn intern_units_by<L: Ledger, H: HeapRef>(
    reader: &mut Reader<H>,
    units: &[u16],
    hashes: &mut [u32],
    blank: Blank,
) -> Result<Seat, TableFull>
    requires name { blank.name ≡ L.name }
    requires parts { blank.parts ≡ L.parts }
    requires some { 0 < blank.parts }
    requires short { length units.now ≤ MAX }
    requires hashed { AreHashes (view_in reader.old) hashes.old }
    ensures heap { reader.new.heap ≡ reader.old.heap }
    ensures interns { InternsGiven (view_in reader.old) (view_in reader.new) units.now (id_in result) }
    ensures seated { IfOk result (λ s. IsSeatOf (view_in reader.new) units.now s) }
    ensures notes { NotesHash (view_in reader.old) (view_in reader.new) units.now
        (answered (id_in result)) hashes.old hashes.new }
{
    let mut steps = Steps::<L>::start(blank);
    let hash = hash_units(0, units);
    intern_wanted(
        reader,
        &Wanted::Units(units),
        None,
        hash,
        hashes,
        &mut steps,
    )
}

/// The interned string of these units, and the slot that it is in. Where it is in the table, nothing is used.
/// Else a fixed Flat with the units is put there, which uses one id and the words of a copy, wide exactly
/// where a unit is over 255. No slot is loaded more than twice. A caller that notes the slot interns the same
/// units by one load, with [`intern_again`]. Hashes are noted too, as by [`search_key`](crate::search_key);
/// who notes none gives an empty list.
pub fn intern_units<H: HeapRef>(
    reader: &mut Reader<H>,
    units: &[u16],
    hashes: &mut [u32],
) -> Result<Seat, TableFull>
    requires short { length units.now ≤ MAX }
    requires hashed { AreHashes (view_in reader.old) hashes.old }
    ensures heap { reader.new.heap ≡ reader.old.heap }
    ensures interns { InternsGiven (view_in reader.old) (view_in reader.new) units.now (id_in result) }
    ensures seated { IfOk result (λ s. IsSeatOf (view_in reader.new) units.now s) }
    ensures notes { NotesHash (view_in reader.old) (view_in reader.new) units.now
        (answered (id_in result)) hashes.old hashes.new }
{
    intern_units_by::<Brand, _>(reader, units, hashes, Blank::new(1))
}

// The slot that is noted for a string, if one is.
pub(crate) fn seat_in(seats: &[u32], id: u32) -> Option<u32>
    ensures some { (k : ℕ) → result ≡ Some k → slice_index seats.now id ≡ k + 1 }
    ensures none { result ≡ None → slice_index seats.now id ≡ 0 }
{
    let place = id as usize;
    if place >= seats.len() {
        return None;
    }
    let noted = seats[place];
    if noted == 0 {
        return None;
    }
    Some(noted - 1)
}

// Notes the slot of a string, where there is room for its number.
pub(crate) fn note_seat(seats: &mut [u32], id: u32, slot: u32)
    requires { slot < 2 ^ 29 }
    ensures room { length seats.new ≡ length seats.old }
    ensures only { (i : ℕ) → (slice_index seats.new i ≡ slice_index seats.old i)
        ⊎ ((i ≡ id) × (slice_index seats.new i ≡ slot + 1)) }
    ensures there { id < length seats.old → slice_index seats.new id ≡ slot + 1 }
{
    let place = id as usize;
    if place < seats.len() {
        seats[place] = slot + 1;
    }
}

// A string whose slot is noted, by one load of that slot.
pub(crate) fn load_again<H: HeapRef>(reader: &mut Reader<H>, id: u32, slot: u32) -> u32
    requires { IsSeated (view_in reader.old) id slot }
    ensures heap { reader.new.heap ≡ reader.old.heap }
    ensures given { (us : List ℕ) → Has (view_in reader.old).units id us
        → InternsGiven (view_in reader.old) (view_in reader.new) us (Ok result) }
    ensures there { (t : ℕ) → Has (view_in reader.old).slots slot t → result ≡ t }
    ensures interns { InternsSettled (view_in reader.old) (view_in reader.new) id (Ok result) }
    ensures stands { Has (view_in reader.new).slots slot result }
    ensures nothing { UsesNothing (view_in reader.old) (view_in reader.new) }
    ensures loads { LoadsHere (view_in reader.old) (view_in reader.new) slot 1 }
{
    match reader.agent.load_slot(reader.heap.heap(), slot, true) {
        Some(target) => target,
        None => unreachable!(),
    }
}
