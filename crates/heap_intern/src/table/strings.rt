// Strings that are interned: their units are looked for before anything is claimed for a header.
ghost use Rattle.std.specs.Prelude.{◌≡◌, ◌+◌, ◌-◌, ◌<◌, ◌≤◌, ◌⊎◌, ℕ, List, Some, None, IfSome, max, length, slice_index};
ghost use Rattle.js_units.specs.Lanes.{hash_of};
ghost use Rattle.heap_rule.specs.Maps.{Has, HasKey};
ghost use Rattle.heap_rule.specs.Views.{IsSeenSettled};
ghost use Rattle.heap_read.specs.Frozen.{AreFrozen};
ghost use Rattle.heap_read.specs.Readers.{MovesView, view_in};
ghost use Rattle.heap_read.specs.Reads.{HoldsForms, KeepsForms, OnlyLoads};
ghost use Rattle.heap_intern.specs.Adopted.{LoadsHere};
ghost use Rattle.heap_intern.specs.Answers.{FindsString, IsFixed};
ghost use Rattle.heap_intern.specs.Hashes.{AreHashes, IsNotedApart, NotesHash};
ghost use Rattle.heap_intern.specs.Headers.{header_plan};
ghost use Rattle.heap_intern.specs.Searching.{SearchesString, found_seat, found_key, key_search};
ghost use Rattle.heap_intern.specs.Seats.{AreSeats};
ghost use Rattle.heap_intern.specs.Seeking.{IsSought};
ghost use Rattle.heap_intern.specs.SlotLoads.{IsInFirstSlot, LoadsSlots, loads_at};
ghost use Rattle.heap_intern.specs.Visits.{Ends, IsFreed, StandsAt, WalksOn, found_id};
ghost use Rattle.heap_intern.specs.Wanted.{IsWanted};

use crate::table::finding::{WalkEnd, walk_path};
use crate::table::forwarding::{forward, forwards_to};
use crate::table::given::place;
use crate::table::hashes::note_hash;
use crate::table::probing::Seat;
use crate::table::searching::Opening;
use crate::table::seats::{load_again, note_seat, seat_in};
use crate::table::sought::{Sought, seek};
use crate::table::wanted::Wanted;
use heap_read::{HeapRef, JsStr, Piece, Reader, Steps, UnitSource};
use js_header::Form;
use js_units::words_for;
use std::marker::Brand;
use std::sync::ledger::{Blank, Ledger};

/// A slot that was found free for the units of a string, and what the header of that string needs.
#[derive(Clone, Copy)]
pub struct StringOpening {
    pub(crate) opening: Opening,
    pub(crate) sought: Sought,
    pub(crate) wide: bool,
    pub(crate) words: u32,
}

impl StringOpening {
    /// How many content words the header uses: those of a copy where the string is a part of another.
    pub fn words(&self) -> u32
        ensures { result ≡ self.now.words }
    {
        self.words
    }
}

/// What looking for the units of a string ends with: their string, and the slot that it is in; a slot that was
/// found free behind slots with strings that differ; or every slot has such a string, and so many slots there
/// are.
#[derive(Clone, Copy)]
pub enum StringSearch {
    Found(Seat),
    Open(StringOpening),
    Shut { slots: u32 },
}

// The walk for a string that forwards to one in the table: where a slot is found free, that is put there.
fn walk_and_put<L: Ledger, H: HeapRef>(
    reader: &mut Reader<H>,
    wanted: &Wanted,
    header: u32,
    hash: u32,
    hashes: &[u32],
    steps: &mut Steps<L>,
) -> WalkEnd
    requires wanted { (us : List ℕ) × IsWanted (view_in reader.old) wanted.now us }
    requires fixed { (us : List ℕ) → IsWanted (view_in reader.old) wanted.now us
        → IsFixed (view_in reader.old) us header }
    requires hash { (us : List ℕ) → IsWanted (view_in reader.old) wanted.now us → hash ≡ hash_of us }
    requires hashed { AreHashes (view_in reader.old) hashes.now }
    ensures heap { reader.new.heap ≡ reader.old.heap }
    ensures forms { HoldsForms (view_in reader.old) (view_in reader.new) }
    ensures finds { (us : List ℕ) → IsWanted (view_in reader.old) wanted.now us
        → FindsString (view_in reader.old) (view_in reader.new) us (found_id result) }
    ensures loads { LoadsSlots (view_in reader.old) (view_in reader.new) (found_id result)
        steps.old steps.new }
    ensures first { (us : List ℕ) → IsWanted (view_in reader.old) wanted.now us
        → IsInFirstSlot (view_in reader.old) us → steps.new ≡ steps.old + 2 }
    ensures ends { (us : List ℕ) → IsWanted (view_in reader.old) wanted.now us
        → Ends (view_in reader.old) (view_in reader.new) us result }
    ensures apart { (k : ℕ) → IsNotedApart hashes.now k (max hash 1)
        → loads_at (view_in reader.new) k ≡ loads_at (view_in reader.old) k }
    ensures never { IsFreed result → ⊥ }
{
    match walk_path(reader, wanted, hash, 0, hashes, steps) {
        WalkEnd::Found(seat) => WalkEnd::Found(seat),
        WalkEnd::Free { slot, rank } => {
            match place(reader, wanted, header, slot, rank, hash, hashes, steps) {
                Ok(seat) => WalkEnd::Found(seat),
                Err(_full) => WalkEnd::Shut,
            }
        }
        WalkEnd::Shut => WalkEnd::Shut,
    }
}

// The walk on the path. A string to which another forwards is in the table; where a slot is found free, it is put
// there.
pub(crate) fn walk_ready<L: Ledger, H: HeapRef>(
    reader: &mut Reader<H>,
    wanted: &Wanted,
    ready: Option<u32>,
    hash: u32,
    hashes: &[u32],
    steps: &mut Steps<L>,
) -> WalkEnd
    requires wanted { (us : List ℕ) × IsWanted (view_in reader.old) wanted.now us }
    requires ready { (us : List ℕ) → IsWanted (view_in reader.old) wanted.now us
        → IfSome ready (IsFixed (view_in reader.old) us) }
    requires hash { (us : List ℕ) → IsWanted (view_in reader.old) wanted.now us → hash ≡ hash_of us }
    requires hashed { AreHashes (view_in reader.old) hashes.now }
    ensures heap { reader.new.heap ≡ reader.old.heap }
    ensures forms { HoldsForms (view_in reader.old) (view_in reader.new) }
    ensures finds { (us : List ℕ) → IsWanted (view_in reader.old) wanted.now us
        → FindsString (view_in reader.old) (view_in reader.new) us (found_id result) }
    ensures loads { LoadsSlots (view_in reader.old) (view_in reader.new) (found_id result)
        steps.old steps.new }
    ensures walks { (us : List ℕ) → IsWanted (view_in reader.old) wanted.now us → IsFreed result
        → WalksOn (view_in reader.old) (view_in reader.new) us 0 result steps.old steps.new }
    ensures first { (us : List ℕ) → IsWanted (view_in reader.old) wanted.now us
        → IsInFirstSlot (view_in reader.old) us → steps.new ≡ steps.old + 2 }
    ensures ends { (us : List ℕ) → IsWanted (view_in reader.old) wanted.now us
        → Ends (view_in reader.old) (view_in reader.new) us result }
    ensures apart { (k : ℕ) → IsNotedApart hashes.now k (max hash 1)
        → loads_at (view_in reader.new) k ≡ loads_at (view_in reader.old) k }
    ensures free { IsFreed result → ready ≡ None }
{
    match ready {
        Some(header) => walk_and_put(reader, wanted, header, hash, hashes, steps),
        None => walk_path(reader, wanted, hash, 0, hashes, steps),
    }
}

// How wide the header of a string is, and how many content words it uses.
fn header_need<H: HeapRef>(reader: &mut Reader<H>, s: Sought) -> (bool, u32)
    requires lies { IsSought (view_in reader.old) s }
    requires known { HasKey (view_in reader.old).units s.id }
    ensures reads { MovesView OnlyLoads reader.old reader.new }
    ensures forms { KeepsForms (view_in reader.old) (view_in reader.new) }
    ensures wide { (us : List ℕ) → Has (view_in reader.old).units s.id us
        → result.0 ≡ (header_plan s us).wide }
    ensures words { (us : List ℕ) → Has (view_in reader.old).units s.id us
        → result.1 ≡ (header_plan s us).words }
{
    if let Form::Sliced { .. } = s.form {
        let source = UnitSource::Piece(Piece {
            of: JsStr { id: s.id },
            from: 0,
            window: s.window,
        });
        let wide = reader.has_wide(&source, s.window.len);
        return (wide, words_for(s.window.len, wide));
    }
    (s.window.wide, 0)
}

// Looks for the units of a string.
fn search_seat<L: Ledger, H: HeapRef>(
    reader: &mut Reader<H>,
    id: u32,
    hashes: &mut [u32],
    steps: &mut Steps<L>,
) -> StringSearch
    requires known { HasKey (view_in reader.old).units id }
    requires settled { IsSeenSettled (view_in reader.old) id }
    requires hashed { AreHashes (view_in reader.old) hashes.old }
    ensures heap { reader.new.heap ≡ reader.old.heap }
    ensures searches { (us : List ℕ) → Has (view_in reader.old).units id us
        → SearchesString (view_in reader.old) (view_in reader.new) id us result }
    ensures stands { (s : Seat) → found_seat result ≡ Some s
        → (us : List ℕ) → Has (view_in reader.old).units id us
        → StandsAt (view_in reader.new) us s.slot s.id }
    ensures notes { (us : List ℕ) → Has (view_in reader.old).units id us
        → NotesHash (view_in reader.old) (view_in reader.new) us (found_key (key_search result))
        hashes.old hashes.new }
{
    let s = seek(reader, id);
    let hash = reader.hash_in(s.window);
    let ready = forwards_to(s.form);
    match walk_ready(reader, &Wanted::Str(s), ready, hash, hashes, steps) {
        WalkEnd::Found(seat) => {
            note_hash(hashes, seat.slot, hash.max(1));
            forward(reader, s, seat.id);
            StringSearch::Found(seat)
        }
        WalkEnd::Free { slot, rank } => {
            let (wide, words) = header_need(reader, s);
            StringSearch::Open(StringOpening {
                opening: Opening { slot, rank, hash },
                sought: s,
                wide,
                words,
            })
        }
        WalkEnd::Shut => StringSearch::Shut {
            slots: reader.heap.heap().size().slots,
        },
    }
}

// The ledger of a caller that counts nothing.
fn search_seat_by<L: Ledger, H: HeapRef>(
    reader: &mut Reader<H>,
    id: u32,
    hashes: &mut [u32],
    blank: Blank,
) -> StringSearch
    requires name { blank.name ≡ L.name }
    requires parts { blank.parts ≡ L.parts }
    requires some { 0 < blank.parts }
    requires known { HasKey (view_in reader.old).units id }
    requires settled { IsSeenSettled (view_in reader.old) id }
    requires hashed { AreHashes (view_in reader.old) hashes.old }
    ensures heap { reader.new.heap ≡ reader.old.heap }
    ensures searches { (us : List ℕ) → Has (view_in reader.old).units id us
        → SearchesString (view_in reader.old) (view_in reader.new) id us result }
    ensures stands { (s : Seat) → found_seat result ≡ Some s
        → (us : List ℕ) → Has (view_in reader.old).units id us
        → StandsAt (view_in reader.new) us s.slot s.id }
    ensures notes { (us : List ℕ) → Has (view_in reader.old).units id us
        → NotesHash (view_in reader.old) (view_in reader.new) us (found_key (key_search result))
        hashes.old hashes.new }
{
    let mut steps = Steps::<L>::start(blank);
    search_seat(reader, id, hashes, &mut steps)
}

/// Looks for the units of a string in the table, before anything is claimed for a header, for a caller that
/// notes slots and hashes: at the place of each number of a string is 0, or one above the slot that the
/// interned string of that number is in; and at the place of each slot 0, or what its string hashes to. Where
/// the slot for `id` is noted, it is loaded once, and nothing else is; else it is noted once it is found, where
/// there is room for it, and the header of `id` then forwards to the string that was found, unless it is a
/// fixed Flat. Where it is not there, interning goes on from the opening, by
/// [`intern_string_at`](crate::intern_string_at); no slot is then loaded more than twice by both. A string that
/// forwards has its string in the table, so there is no opening for it.
pub fn search_string<H: HeapRef>(
    reader: &mut Reader<H>,
    id: u32,
    seats: &mut [u32],
    hashes: &mut [u32],
) -> StringSearch
    requires known { HasKey (view_in reader.old).units id }
    requires settled { IsSeenSettled (view_in reader.old) id }
    requires seated { AreSeats (view_in reader.old) seats.old }
    requires hashed { AreHashes (view_in reader.old) hashes.old }
    ensures heap { reader.new.heap ≡ reader.old.heap }
    ensures searches { (us : List ℕ) → Has (view_in reader.old).units id us
        → SearchesString (view_in reader.old) (view_in reader.new) id us result }
    ensures once { 0 < slice_index seats.old id
        → LoadsHere (view_in reader.old) (view_in reader.new) (slice_index seats.old id - 1) 1 }
    ensures seated { AreSeats (view_in reader.new) seats.new }
    ensures noted { id < length seats.old → (s : Seat) → found_seat result ≡ Some s
        → 0 < slice_index seats.new id }
    ensures room { length seats.new ≡ length seats.old }
    ensures hashed { AreHashes (view_in reader.new) hashes.new }
    ensures hash_room { length hashes.new ≡ length hashes.old }
    ensures notes { slice_index seats.old id ≡ 0 → (us : List ℕ) → Has (view_in reader.old).units id us
        → NotesHash (view_in reader.old) (view_in reader.new) us (found_key (key_search result))
        hashes.old hashes.new }
{
    if let Some(slot) = seat_in(seats, id) {
        let found = load_again(reader, id, slot);
        return StringSearch::Found(Seat { id: found, slot });
    }
    match search_seat_by::<Brand, _>(reader, id, hashes, Blank::new(1)) {
        StringSearch::Found(seat) => {
            note_seat(seats, id, seat.slot);
            StringSearch::Found(seat)
        }
        StringSearch::Open(opening) => StringSearch::Open(opening),
        StringSearch::Shut { slots } => StringSearch::Shut { slots },
    }
}
