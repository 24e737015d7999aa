// Looking for units in the string table, where nothing is made. Each load of a slot is counted.
ghost use Rattle.std.specs.Prelude.{◌≡◌, ℕ, List, ◌+◌, ◌*◌, ◌%◌, ◌≤◌, ◌<◌, ◌^◌, Option, Some, max};
ghost use Rattle.heap_rule.specs.Paths.{rank};
ghost use Rattle.js_units.specs.Lanes.{hash_of};
ghost use Rattle.heap_table.specs.Agents.{size_of};
ghost use Rattle.heap_intern.specs.Answers.{FindsString};
ghost use Rattle.heap_intern.specs.Hashes.{AreHashes, IsNotedApart};
ghost use Rattle.heap_intern.specs.SlotLoads.{IsInFirstSlot, LoadsSlots, loads_at};
ghost use Rattle.heap_intern.specs.Visits.{Ends, IsBeyond, IsPassed, Looked, LoadsOne, WalksOn, entries_seen, found_id};
ghost use Rattle.heap_intern.specs.Wanted.{IsWanted};
ghost use Rattle.heap_read.specs.Readers.{view_in};
ghost use Rattle.heap_read.specs.Reads.{HoldsForms};

use crate::table::hashes::{next_rank, slot_at};
use crate::table::probing::{Seat, Visit, visit_used};
use crate::table::wanted::Wanted;
use heap_read::{HeapRef, Reader, Steps};
use std::sync::ledger::Ledger;

// What a walk ends with: the string; the first slot that was found free, with its rank on the path; or no
// slot is free.
#[derive(Clone, Copy)]
pub(crate) enum WalkEnd {
    Found(Seat),
    Free { slot: u32, rank: u32 },
    Shut,
}

// A look at one slot: none where it is free.
fn look<L: Ledger, H: HeapRef>(
    reader: &mut Reader<H>,
    wanted: &Wanted,
    k: u32,
    steps: &mut Steps<L>,
) -> Option<Visit>
    requires wanted { (us : List ℕ) × IsWanted (view_in reader.old) wanted.now us }
    requires inside { k < (size_of (H.reached reader.old.heap)).slots }
    ensures heap { reader.new.heap ≡ reader.old.heap }
    ensures looked { (us : List ℕ) → IsWanted (view_in reader.old) wanted.now us
        → Looked (view_in reader.old) (view_in reader.new) us k result }
    ensures loads { LoadsOne (view_in reader.old) (view_in reader.new) k
        (entries_seen result + 1) steps.old steps.new }
    ensures count { steps.new ≡ steps.old + (entries_seen result + 1) }
{
    steps.tick();
    match reader.agent.load_slot(reader.heap.heap(), k, false) {
        Some(t) => Some(visit_used(reader, wanted, k, t, steps)),
        None => None,
    }
}

// The slots of the path from rank `from` on, up to the one with the string or a free one, but for those that
// are noted with another hash.
#[inline(always)]
pub(crate) fn walk_path<L: Ledger, H: HeapRef>(
    reader: &mut Reader<H>,
    wanted: &Wanted,
    hash: u32,
    from: u32,
    hashes: &[u32],
    steps: &mut Steps<L>,
) -> WalkEnd
    requires wanted { (us : List ℕ) × IsWanted (view_in reader.old) wanted.now us }
    requires hash { (us : List ℕ) → IsWanted (view_in reader.old) wanted.now us → hash ≡ hash_of us }
    requires from { from ≤ (size_of (H.reached reader.old.heap)).slots }
    requires passed { (us : List ℕ) → IsWanted (view_in reader.old) wanted.now us
        → IsPassed (view_in reader.old) us from }
    requires hashed { AreHashes (view_in reader.old) hashes.now }
    ensures heap { reader.new.heap ≡ reader.old.heap }
    ensures forms { HoldsForms (view_in reader.old) (view_in reader.new) }
    ensures finds { (us : List ℕ) → IsWanted (view_in reader.old) wanted.now us
        → FindsString (view_in reader.old) (view_in reader.new) us (found_id result) }
    ensures loads { LoadsSlots (view_in reader.old) (view_in reader.new) (found_id result)
        steps.old steps.new }
    ensures walks { (us : List ℕ) → IsWanted (view_in reader.old) wanted.now us
        → WalksOn (view_in reader.old) (view_in reader.new) us from result steps.old steps.new }
    ensures first { from ≡ 0 → (us : List ℕ) → IsWanted (view_in reader.old) wanted.now us
        → IsInFirstSlot (view_in reader.old) us → steps.new ≡ steps.old + 2 }
    ensures before { (us : List ℕ) → IsWanted (view_in reader.old) wanted.now us
        → (k : ℕ) → rank us (view_in reader.old).sizes.slots k < from
        → loads_at (view_in reader.new) k ≡ loads_at (view_in reader.old) k }
    ensures ends { (us : List ℕ) → IsWanted (view_in reader.old) wanted.now us
        → Ends (view_in reader.old) (view_in reader.new) us result }
    ensures beyond { IsBeyond from result }
    ensures apart { (k : ℕ) → IsNotedApart hashes.now k (max hash 1)
        → loads_at (view_in reader.new) k ≡ loads_at (view_in reader.old) k }
{
    let n = reader.heap.heap().size().slots;
    let start = hash % n;
    let mark = hash.max(1);
    let mut r = next_rank(hashes, start, n, mark, from);
    while r < n {
        let slot = slot_at(start, r, n);
        let visit = match look(reader, wanted, slot, steps) {
            Some(visit) => visit,
            None => return WalkEnd::Free { slot, rank: r },
        };
        match visit {
            Visit::Answer { id } => return WalkEnd::Found(Seat { id, slot }),
            Visit::Next => {}
        }
        r = next_rank(hashes, start, n, mark, r + 1);
    }
    WalkEnd::Shut
}
