// Interning with an id and content words that the caller has claimed before.
ghost use Rattle.std.specs.Prelude.{◌≡◌, ◌≢◌, ◌-◌, ℕ, List, ◌+◌, ◌≤◌, ◌<◌, IfOk, [], max};
ghost use Rattle.js_units.specs.Lanes.{hash_of, is_wide, words_over};
ghost use Rattle.heap_rule.specs.declared.view.View.{View};
ghost use Rattle.heap_rule.specs.Maps.{HasKey};
ghost use Rattle.heap_rule.specs.Paths.{rank};
ghost use Rattle.heap_table.specs.Agents.{size_of};
ghost use Rattle.heap_read.specs.Readers.{view_in};
ghost use Rattle.heap_read.specs.Reads.{HoldsForms};
ghost use Rattle.heap_intern.specs.Answers.{IsFixed, UsesNothing, words_of_copy};
ghost use Rattle.heap_intern.specs.Goes.{AddsCalls};
ghost use Rattle.heap_intern.specs.Hashes.{AreHashes, IsNotedApart};
ghost use Rattle.heap_intern.specs.Headers.{IsFlat, MayBeOver};
ghost use Rattle.heap_intern.specs.Keys.{IsKey, units_of_key};
ghost use Rattle.heap_intern.specs.SlotLoads.{answered, loads_at};
ghost use Rattle.heap_intern.specs.Taking.{HasGiven, IsKeyAnswer, without_given};
ghost use Rattle.heap_intern.specs.Seats.{id_in};
ghost use Rattle.heap_intern.specs.Visits.{IsPassed, IsPlace, PutsOn, StandsAt};
ghost use Rattle.heap_intern.specs.Wanted.{IsWanted};

use crate::table::faults::TableFull;
use crate::table::finding::{WalkEnd, walk_path};
use crate::table::key::{Key, write_key};
use crate::table::probing::{Seat, Visit, put};
use crate::table::wanted::Wanted;
use heap_read::{HeapRef, Reader, Steps};
use js_header::Form;
use std::sync::ledger::Ledger;

/// An id of the agent's own, and the first of own content words, 0 where none is needed.
#[derive(Clone, Copy)]
pub struct Given {
    pub id: u32,
    pub start: u32,
}

// An own id is born as a fixed Flat of `len` units over the words from `start` on.
pub(crate) fn bear_given<H: HeapRef>(
    reader: &mut Reader<H>,
    id: u32,
    wide: bool,
    start: u32,
    len: u32,
)
    requires own { HasKey (view_in reader.old).own_ids id }
    requires over { (us : List ℕ) × MayBeOver (view_in reader.old) wide start len us }
    ensures heap { reader.new.heap ≡ reader.old.heap }
    ensures goes { (a : View) → AddsCalls a (view_in reader.old) [] → (HasKey a.own_ids id → ⊥)
        → ((c : ℕ) → start ≤ c → c < start + words_over wide len → HasKey a.own_words c → ⊥)
        → AddsCalls a (view_in reader.new) [] }
    ensures forms { HoldsForms (view_in reader.old) (view_in reader.new) }
    ensures slots { (view_in reader.new).slots ≡ (view_in reader.old).slots }
    ensures loads { (view_in reader.new).slot_loads ≡ (view_in reader.old).slot_loads }
    ensures used { (view_in reader.new).used ≡ (view_in reader.old).used }
    ensures flat { (us : List ℕ) → MayBeOver (view_in reader.old) wide start len us
        → IsFlat (view_in reader.new) wide start us id }
{
    reader.agent.store_length(reader.heap.heap(), id, len);
    let form = Form::Flat {
        wide,
        start,
        fixed: true,
    };
    reader.agent.birth(reader.heap.heap(), id, form);
}

// A fixed Flat of units, of what was given. The words are written before it is born.
fn make_given<H: HeapRef>(reader: &mut Reader<H>, key: &Key, given: Given)
    requires key { IsKey key.now }
    requires given { HasGiven (view_in reader.old) (words_of_copy (units_of_key key.now)) given }
    ensures heap { reader.new.heap ≡ reader.old.heap }
    ensures goes { AddsCalls
        (without_given (view_in reader.old) (words_of_copy (units_of_key key.now)) given)
        (view_in reader.new) [] }
    ensures forms { HoldsForms (view_in reader.old) (view_in reader.new) }
    ensures slots { (view_in reader.new).slots ≡ (view_in reader.old).slots }
    ensures loads { (view_in reader.new).slot_loads ≡ (view_in reader.old).slot_loads }
    ensures used { (view_in reader.new).used ≡ (view_in reader.old).used }
    ensures flat { IsFlat (view_in reader.new) (is_wide (units_of_key key.now)) given.start
        (units_of_key key.now) given.id }
{
    let n = key.len();
    let wide = key.is_wide();
    write_key(reader, key, n, wide, given.start);
    bear_given(reader, given.id, wide, given.start, n);
}

// A fixed Flat that is there is put into the first slot that a walk from rank `from` on finds free. Where that is
// lost, and the winner's string differs, the walk goes on behind it.
pub(crate) fn place_behind<L: Ledger, H: HeapRef>(
    reader: &mut Reader<H>,
    wanted: &Wanted,
    header: u32,
    hash: u32,
    from: u32,
    hashes: &[u32],
    steps: &mut Steps<L>,
) -> Result<Seat, TableFull>
    requires wanted { (us : List ℕ) × IsWanted (view_in reader.old) wanted.now us }
    requires hash { (us : List ℕ) → IsWanted (view_in reader.old) wanted.now us → hash ≡ hash_of us }
    requires from { from ≤ (size_of (H.reached reader.old.heap)).slots }
    requires passed { (us : List ℕ) → IsWanted (view_in reader.old) wanted.now us
        → IsPassed (view_in reader.old) us from }
    requires hashed { AreHashes (view_in reader.old) hashes.now }
    requires fixed { (us : List ℕ) → IsWanted (view_in reader.old) wanted.now us
        → IsFixed (view_in reader.old) us header }
    ensures heap { reader.new.heap ≡ reader.old.heap }
    ensures forms { HoldsForms (view_in reader.old) (view_in reader.new) }
    ensures places { (us : List ℕ) → IsWanted (view_in reader.old) wanted.now us
        → IsKeyAnswer (view_in reader.old) (view_in reader.new) us (id_in result) }
    ensures nothing { UsesNothing (view_in reader.old) (view_in reader.new) }
    ensures stands { IfOk result (λ s. (us : List ℕ) → IsWanted (view_in reader.old) wanted.now us
        → StandsAt (view_in reader.new) us s.slot s.id) }
    ensures loads { (us : List ℕ) → IsWanted (view_in reader.old) wanted.now us
        → PutsOn (view_in reader.old) (view_in reader.new) us from (answered (id_in result))
        steps.old steps.new }
    ensures before { (us : List ℕ) → IsWanted (view_in reader.old) wanted.now us
        → (k : ℕ) → rank us (view_in reader.old).sizes.slots k < from
        → loads_at (view_in reader.new) k ≡ loads_at (view_in reader.old) k }
    ensures apart { (k : ℕ) → IsNotedApart hashes.now k (max hash 1)
        → loads_at (view_in reader.new) k ≡ loads_at (view_in reader.old) k }
{
    let n = reader.heap.heap().size().slots;
    let mut r = from;
    while r < n {
        match walk_path(reader, wanted, hash, r, hashes, steps) {
            WalkEnd::Found(seat) => return Ok(seat),
            WalkEnd::Free { slot, rank } => match put(reader, wanted, slot, header, steps) {
                Visit::Answer { id } => return Ok(Seat { id, slot }),
                Visit::Next => r = rank + 1,
            },
            WalkEnd::Shut => return Err(TableFull::Slots { slots: n }),
        }
    }
    Err(TableFull::Slots { slots: n })
}

// A fixed Flat that is there is put into a slot that was found free; where that is lost, and the winner's
// string differs, into one behind it.
pub(crate) fn place<L: Ledger, H: HeapRef>(
    reader: &mut Reader<H>,
    wanted: &Wanted,
    header: u32,
    slot: u32,
    at: u32,
    hash: u32,
    hashes: &[u32],
    steps: &mut Steps<L>,
) -> Result<Seat, TableFull>
    requires wanted { (us : List ℕ) × IsWanted (view_in reader.old) wanted.now us }
    requires hash { (us : List ℕ) → IsWanted (view_in reader.old) wanted.now us → hash ≡ hash_of us }
    requires hashed { AreHashes (view_in reader.old) hashes.now }
    requires place { (us : List ℕ) → IsWanted (view_in reader.old) wanted.now us
        → IsPlace (view_in reader.old) us slot at }
    requires fixed { (us : List ℕ) → IsWanted (view_in reader.old) wanted.now us
        → IsFixed (view_in reader.old) us header }
    ensures heap { reader.new.heap ≡ reader.old.heap }
    ensures forms { HoldsForms (view_in reader.old) (view_in reader.new) }
    ensures places { (us : List ℕ) → IsWanted (view_in reader.old) wanted.now us
        → IsKeyAnswer (view_in reader.old) (view_in reader.new) us (id_in result) }
    ensures nothing { UsesNothing (view_in reader.old) (view_in reader.new) }
    ensures stands { IfOk result (λ s. (us : List ℕ) → IsWanted (view_in reader.old) wanted.now us
        → StandsAt (view_in reader.new) us s.slot s.id) }
    ensures loads { (us : List ℕ) → IsWanted (view_in reader.old) wanted.now us
        → PutsOn (view_in reader.old) (view_in reader.new) us (at + 1) (answered (id_in result))
        steps.old steps.new }
    ensures once { (us : List ℕ) → IsWanted (view_in reader.old) wanted.now us
        → (k : ℕ) → rank us (view_in reader.old).sizes.slots k ≤ at
        → loads_at (view_in reader.new) k ≤ loads_at (view_in reader.old) k + 1 }
    ensures most { (k : ℕ) → loads_at (view_in reader.new) k ≤ loads_at (view_in reader.old) k + 2 }
    ensures apart { (k : ℕ) → k ≢ slot → IsNotedApart hashes.now k (max hash 1)
        → loads_at (view_in reader.new) k ≡ loads_at (view_in reader.old) k }
{
    match put(reader, wanted, slot, header, steps) {
        Visit::Answer { id } => Ok(Seat { id, slot }),
        Visit::Next => place_behind(reader, wanted, header, hash, at + 1, hashes, steps),
    }
}

// What was given is born, and put into a slot that was found free.
pub(crate) fn place_given<L: Ledger, H: HeapRef>(
    reader: &mut Reader<H>,
    key: &Key,
    given: Given,
    slot: u32,
    at: u32,
    hash: u32,
    hashes: &[u32],
    steps: &mut Steps<L>,
) -> Result<Seat, TableFull>
    requires key { IsKey key.now }
    requires given { HasGiven (view_in reader.old) (words_of_copy (units_of_key key.now)) given }
    requires hash { hash ≡ hash_of (units_of_key key.now) }
    requires hashed { AreHashes (view_in reader.old) hashes.now }
    requires place { IsPlace (view_in reader.old) (units_of_key key.now) slot at }
    ensures heap { reader.new.heap ≡ reader.old.heap }
    ensures forms { HoldsForms (view_in reader.old) (view_in reader.new) }
    ensures places { IsKeyAnswer
        (without_given (view_in reader.old) (words_of_copy (units_of_key key.now)) given) (view_in reader.new)
        (units_of_key key.now) (id_in result) }
    ensures flat { IsFlat (view_in reader.new) (is_wide (units_of_key key.now)) given.start
        (units_of_key key.now) given.id }
    ensures nothing { UsesNothing (view_in reader.old) (view_in reader.new) }
    ensures stands { IfOk result (λ s. StandsAt (view_in reader.new) (units_of_key key.now) s.slot s.id) }
    ensures once { (k : ℕ) → rank (units_of_key key.now) (view_in reader.old).sizes.slots k ≤ at
        → loads_at (view_in reader.new) k ≤ loads_at (view_in reader.old) k + 1 }
    ensures most { (k : ℕ) → loads_at (view_in reader.new) k ≤ loads_at (view_in reader.old) k + 2 }
    ensures apart { (k : ℕ) → k ≢ slot → IsNotedApart hashes.now k (max hash 1)
        → loads_at (view_in reader.new) k ≡ loads_at (view_in reader.old) k }
{
    make_given(reader, key, given);
    place(
        reader,
        &key.wanted(),
        given.id,
        slot,
        at,
        hash,
        hashes,
        steps,
    )
}
