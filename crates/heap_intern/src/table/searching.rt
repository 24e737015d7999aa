// Looking for units before anything is claimed for them, and putting a string with them into the slot that was
// found free.
ghost use Rattle.std.specs.Prelude.{◌≡◌, ◌≢◌, ℕ, ◌+◌, ◌≤◌, ◌<◌, List, IfOk, IfSome, Some, length, max};
ghost use Rattle.heap_rule.specs.Layout.{MAX};
ghost use Rattle.heap_rule.specs.Maps.{Has};
ghost use Rattle.heap_rule.specs.Paths.{rank};
ghost use Rattle.heap_bytes.specs.Spellings.{IsReadable, spelling_units};
ghost use Rattle.heap_read.specs.Readers.{view_in};
ghost use Rattle.heap_read.specs.Reads.{HoldsForms};
ghost use Rattle.heap_intern.specs.Answers.{FindsString, IsInternAnswer, StandsInSlot, copy_plan, words_of_copy};
ghost use Rattle.heap_intern.specs.Given.{FindsGiven};
ghost use Rattle.heap_intern.specs.Hashes.{AreHashes, IsNotedApart, NotesHash};
ghost use Rattle.heap_intern.specs.Keys.{IsKey, units_of_key};
ghost use Rattle.heap_intern.specs.Searching.{IsOpening, LoadsFrom, SearchesKey, found_key, seat_found};
ghost use Rattle.heap_intern.specs.SlotLoads.{answered, loads_at};
ghost use Rattle.heap_intern.specs.Taking.{AnswersAt, HasGiven};
ghost use Rattle.heap_intern.specs.Visits.{PutsOn, StandsAt};
ghost use Rattle.heap_intern.specs.Seats.{IsSeatOf, id_in};
ghost use Rattle.heap_intern.specs.Wanted.{IsWanted, wanted_plan};

use crate::table::faults::TableFull;
use crate::table::finding::{WalkEnd, walk_path};
use crate::table::given::{Given, place, place_given};
use crate::table::hashes::note_hash;
use crate::table::header::make_header;
use crate::table::key::Key;
use crate::table::probing::Seat;
use crate::table::wanted::Wanted;
use heap_bytes::Spelling;
use heap_read::{HeapRef, Reader, Steps};
use std::marker::Brand;
use std::sync::ledger::{Blank, Ledger};

/// A slot that was found free, its rank on the path of the units that were looked for, and what these hash to.
#[derive(Clone, Copy)]
pub struct Opening {
    pub(crate) slot: u32,
    pub(crate) rank: u32,
    pub(crate) hash: u32,
}

/// What looking for units ends with: their string and its slot; a slot that was found free behind slots with
/// strings that differ; or every slot has such a string, and so many slots there are.
#[derive(Clone, Copy)]
pub enum KeySearch {
    Found(Seat),
    Open(Opening),
    Shut { slots: u32 },
}

impl KeySearch {
    /// The string that was found.
    pub fn found(self) -> Option<u32>
        ensures { result ≡ found_key self }
    {
        match self {
            KeySearch::Found(seat) => Some(seat.id),
            KeySearch::Open(_) => None,
            KeySearch::Shut { .. } => None,
        }
    }
}

// The ledger of a caller that counts nothing.
fn search_key_by<L: Ledger, H: HeapRef>(
    reader: &mut Reader<H>,
    key: &Key,
    hashes: &mut [u32],
    blank: Blank,
) -> KeySearch
    requires name { blank.name ≡ L.name }
    requires parts { blank.parts ≡ L.parts }
    requires some { 0 < blank.parts }
    requires key { IsKey key.now }
    requires hashed { AreHashes (view_in reader.old) hashes.old }
    ensures heap { reader.new.heap ≡ reader.old.heap }
    ensures searches { SearchesKey (view_in reader.old) (view_in reader.new) (units_of_key key.now) result }
    ensures forms { HoldsForms (view_in reader.old) (view_in reader.new) }
    ensures seated { IfSome (seat_found result) (IsSeatOf (view_in reader.new) (units_of_key key.now)) }
    ensures notes { NotesHash (view_in reader.old) (view_in reader.new) (units_of_key key.now)
        (found_key result) hashes.old hashes.new }
{
    let mut steps = Steps::<L>::start(blank);
    let hash = key.hash();
    match walk_path(reader, &key.wanted(), hash, 0, hashes, &mut steps) {
        WalkEnd::Found(seat) => {
            note_hash(hashes, seat.slot, hash.max(1));
            KeySearch::Found(seat)
        }
        WalkEnd::Free { slot, rank } => KeySearch::Open(Opening { slot, rank, hash }),
        WalkEnd::Shut => KeySearch::Shut {
            slots: reader.heap.heap().size().slots,
        },
    }
}

/// Looks for units in the table, before anything is claimed for a string of theirs, for a caller that notes
/// hashes: at the place of each slot is 0, or what its string hashes to, with 1 in place of 0. A slot that is
/// noted with another hash than that of the units is not loaded, and the slot of the answer is noted, where
/// there is room for its number. Where their string is not there, interning goes on from the opening, by
/// [`intern_key_at`]; no slot is then loaded more than twice by both.
pub fn search_key<H: HeapRef>(reader: &mut Reader<H>, key: &Key, hashes: &mut [u32]) -> KeySearch
    requires key { IsKey key.now }
    requires hashed { AreHashes (view_in reader.old) hashes.old }
    ensures heap { reader.new.heap ≡ reader.old.heap }
    ensures searches { SearchesKey (view_in reader.old) (view_in reader.new) (units_of_key key.now) result }
    ensures forms { HoldsForms (view_in reader.old) (view_in reader.new) }
    ensures seated { IfSome (seat_found result) (IsSeatOf (view_in reader.new) (units_of_key key.now)) }
    ensures notes { NotesHash (view_in reader.old) (view_in reader.new) (units_of_key key.now)
        (found_key result) hashes.old hashes.new }
{
    search_key_by::<Brand, _>(reader, key, hashes, Blank::new(1))
}

/// The interned string of these units, by its number, if it is in the table: none exactly where
/// a slot was found free behind slots with strings that differ, or every slot has such a string. It
/// uses nothing, also on a full heap. What it found counts as a call of the history, so its number
/// may be compared with those that interning answers. No slot is loaded more than twice.
#[tactic(auto, using(crate::proofs::Hashes::no_hashes))]
pub fn find_units<H: HeapRef>(reader: &mut Reader<H>, units: &[u16]) -> Option<u32>
    requires short { length units.now ≤ MAX }
    ensures heap { reader.new.heap ≡ reader.old.heap }
    ensures finds { FindsString (view_in reader.old) (view_in reader.new) units.now result }
    ensures again { (i : ℕ) → Has (view_in reader.old).units i units.now
        → StandsInSlot (view_in reader.old) units.now i → result ≡ Some i }
    ensures forms { HoldsForms (view_in reader.old) (view_in reader.new) }
    ensures few { (k : ℕ) → loads_at (view_in reader.new) k ≤ loads_at (view_in reader.old) k + 2 }
{
    search_key(reader, &Key::Units(units), &mut []).found()
}

/// The interned string of the units that bytes spell, by its number, if it is in the table, as [`find_units`]
/// answers it. The bytes are read piece by piece.
#[tactic(auto, using(crate::proofs::Hashes::no_hashes))]
pub fn find_from<H: HeapRef>(reader: &mut Reader<H>, source: &Spelling) -> Option<u32>
    requires read { IsReadable source.now }
    requires short { length (spelling_units source.now) ≤ MAX }
    ensures heap { reader.new.heap ≡ reader.old.heap }
    ensures finds { FindsGiven (view_in reader.old) (view_in reader.new) (spelling_units source.now) result }
    ensures forms { HoldsForms (view_in reader.old) (view_in reader.new) }
{
    search_key(reader, &Key::Spelled(*source), &mut []).found()
}

// A fixed Flat is made by claims, and put into the opening.
pub(crate) fn place_new<L: Ledger, H: HeapRef>(
    reader: &mut Reader<H>,
    wanted: &Wanted,
    opening: Opening,
    hashes: &[u32],
    steps: &mut Steps<L>,
) -> Result<Seat, TableFull>
    requires wanted { (us : List ℕ) × IsWanted (view_in reader.old) wanted.now us
        × IsOpening (view_in reader.old) us opening }
    requires hashed { AreHashes (view_in reader.old) hashes.now }
    ensures heap { reader.new.heap ≡ reader.old.heap }
    ensures forms { HoldsForms (view_in reader.old) (view_in reader.new) }
    ensures interns { (us : List ℕ) → IsWanted (view_in reader.old) wanted.now us
        → IsInternAnswer (view_in reader.old) (view_in reader.new) us (wanted_plan wanted.now us)
        (id_in result) }
    ensures stands { IfOk result (λ s. (us : List ℕ) → IsWanted (view_in reader.old) wanted.now us
        → StandsAt (view_in reader.new) us s.slot s.id) }
    ensures loads { (us : List ℕ) → IsWanted (view_in reader.old) wanted.now us
        → PutsOn (view_in reader.old) (view_in reader.new) us (opening.rank + 1) (answered (id_in result))
        steps.old steps.new }
    ensures once { (us : List ℕ) → IsWanted (view_in reader.old) wanted.now us
        → (k : ℕ) → rank us (view_in reader.old).sizes.slots k ≤ opening.rank
        → loads_at (view_in reader.new) k ≤ loads_at (view_in reader.old) k + 1 }
    ensures most { (k : ℕ) → loads_at (view_in reader.new) k ≤ loads_at (view_in reader.old) k + 2 }
    ensures apart { (k : ℕ) → k ≢ opening.slot → IsNotedApart hashes.now k (max opening.hash 1)
        → loads_at (view_in reader.new) k ≡ loads_at (view_in reader.old) k }
{
    let header = match make_header(reader, wanted) {
        Ok(header) => header,
        Err(full) => return Err(full),
    };
    let Opening { slot, rank, hash } = opening;
    place(reader, wanted, header, slot, rank, hash, hashes, steps)
}

// The string is made of what was given, if anything was; else by claims.
fn place_key<L: Ledger, H: HeapRef>(
    reader: &mut Reader<H>,
    key: &Key,
    opening: Opening,
    given: Option<Given>,
    hashes: &[u32],
    steps: &mut Steps<L>,
) -> Result<Seat, TableFull>
    requires key { IsKey key.now }
    requires opening { IsOpening (view_in reader.old) (units_of_key key.now) opening }
    requires given { IfSome given (HasGiven (view_in reader.old) (words_of_copy (units_of_key key.now))) }
    requires hashed { AreHashes (view_in reader.old) hashes.now }
    ensures heap { reader.new.heap ≡ reader.old.heap }
    ensures interns { AnswersAt (view_in reader.old) (view_in reader.new) (units_of_key key.now)
        (copy_plan (units_of_key key.now)) given (id_in result) }
    ensures forms { HoldsForms (view_in reader.old) (view_in reader.new) }
    ensures stands { IfOk result (λ s. StandsAt (view_in reader.new) (units_of_key key.now) s.slot s.id) }
    ensures loads { LoadsFrom (view_in reader.old) (view_in reader.new) (units_of_key key.now) opening }
    ensures apart { (k : ℕ) → k ≢ opening.slot → IsNotedApart hashes.now k (max opening.hash 1)
        → loads_at (view_in reader.new) k ≡ loads_at (view_in reader.old) k }
{
    match given {
        Some(given) => {
            let Opening { slot, rank, hash } = opening;
            place_given(reader, key, given, slot, rank, hash, hashes, steps)
        }
        None => place_new(reader, &key.wanted(), opening, hashes, steps),
    }
}

// The ledger of a caller that counts nothing.
fn intern_key_at_by<L: Ledger, H: HeapRef>(
    reader: &mut Reader<H>,
    key: &Key,
    opening: Opening,
    given: Option<Given>,
    hashes: &mut [u32],
    blank: Blank,
) -> Result<u32, TableFull>
    requires name { blank.name ≡ L.name }
    requires parts { blank.parts ≡ L.parts }
    requires some { 0 < blank.parts }
    requires key { IsKey key.now }
    requires opening { IsOpening (view_in reader.old) (units_of_key key.now) opening }
    requires given { IfSome given (HasGiven (view_in reader.old) (words_of_copy (units_of_key key.now))) }
    requires hashed { AreHashes (view_in reader.old) hashes.old }
    ensures heap { reader.new.heap ≡ reader.old.heap }
    ensures interns { AnswersAt (view_in reader.old) (view_in reader.new) (units_of_key key.now)
        (copy_plan (units_of_key key.now)) given result }
    ensures forms { HoldsForms (view_in reader.old) (view_in reader.new) }
    ensures loads { LoadsFrom (view_in reader.old) (view_in reader.new) (units_of_key key.now) opening }
    ensures notes { NotesHash (view_in reader.old) (view_in reader.new) (units_of_key key.now)
        (answered result) hashes.old hashes.new }
{
    let mut steps = Steps::<L>::start(blank);
    match place_key(reader, key, opening, given, hashes, &mut steps) {
        Ok(seat) => {
            note_hash(hashes, seat.slot, opening.hash.max(1));
            Ok(seat.id)
        }
        Err(full) => Err(full),
    }
}

/// Interns units for which there is an opening, with an id and content words that the agent has claimed before,
/// or, where none is given, by claims. What was given is born as a fixed Flat of the units over the words, and
/// put into the opening; where that is lost, the probe goes on behind it. No counter of the heap is then
/// touched. With nothing given a string is made as [`intern_units`](crate::intern_units) makes it.
pub fn intern_key_at<H: HeapRef>(
    reader: &mut Reader<H>,
    key: &Key,
    opening: Opening,
    given: Option<Given>,
    hashes: &mut [u32],
) -> Result<u32, TableFull>
    requires key { IsKey key.now }
    requires opening { IsOpening (view_in reader.old) (units_of_key key.now) opening }
    requires given { IfSome given (HasGiven (view_in reader.old) (words_of_copy (units_of_key key.now))) }
    requires hashed { AreHashes (view_in reader.old) hashes.old }
    ensures heap { reader.new.heap ≡ reader.old.heap }
    ensures interns { AnswersAt (view_in reader.old) (view_in reader.new) (units_of_key key.now)
        (copy_plan (units_of_key key.now)) given result }
    ensures forms { HoldsForms (view_in reader.old) (view_in reader.new) }
    ensures loads { LoadsFrom (view_in reader.old) (view_in reader.new) (units_of_key key.now) opening }
    ensures notes { NotesHash (view_in reader.old) (view_in reader.new) (units_of_key key.now)
        (answered result) hashes.old hashes.new }
{
    intern_key_at_by::<Brand, _>(reader, key, opening, given, hashes, Blank::new(1))
}
