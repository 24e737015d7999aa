// A header for a string whose units an opening was found for: made of what the caller has claimed before, or
// by claims, and put into the opening.
ghost use Rattle.std.specs.Prelude.{◌≡◌, ◌≢◌, ◌+◌, ◌<◌, ◌≤◌, ℕ, List, [], Ok, Some, IfOk, IfSome, length, max, slice_index, unwrap_or};
ghost use Rattle.js_units.specs.Lanes.{is_wide};
ghost use Rattle.heap_rule.specs.Maps.{Has, HasKey};
ghost use Rattle.heap_rule.specs.Paths.{rank};
ghost use Rattle.heap_read.specs.Readers.{view_in};
ghost use Rattle.heap_read.specs.Reads.{HoldsForms};
ghost use Rattle.heap_intern.specs.Answers.{IsForwarded, UsesNothing, words_of_copy};
ghost use Rattle.heap_intern.specs.Goes.{AddsCalls};
ghost use Rattle.heap_intern.specs.Hashes.{AreHashes, IsNotedApart, NotesHash};
ghost use Rattle.heap_intern.specs.Headers.{IsFlat};
ghost use Rattle.heap_intern.specs.Searching.{IsStringOpening, LoadsFrom, opening_plan};
ghost use Rattle.heap_intern.specs.Seats.{AreSeats, id_in};
ghost use Rattle.heap_intern.specs.Seeking.{IsSought};
ghost use Rattle.heap_intern.specs.SlotLoads.{answered, loads_at};
ghost use Rattle.heap_intern.specs.Taking.{AnswersAt, HasGiven, IsGivenTaken, without_given};
ghost use Rattle.heap_intern.specs.Visits.{StandsAt};

use crate::table::faults::TableFull;
use crate::table::forwarding::forward;
use crate::table::given::{Given, bear_given, place};
use crate::table::hashes::note_hash;
use crate::table::header::first_word;
use crate::table::probing::Seat;
use crate::table::searching::place_new;
use crate::table::seats::note_seat;
use crate::table::sought::Sought;
use crate::table::strings::StringOpening;
use crate::table::wanted::Wanted;
use heap_read::{HeapRef, JsStr, Piece, Reader, Steps, UnitSource};
use js_header::Form;
use std::marker::Brand;
use std::sync::ledger::{Blank, Ledger};

// A header over a copy of a part of another string, of what was given. The words are written before it is born.
fn copy_part<H: HeapRef>(reader: &mut Reader<H>, s: Sought, wide: bool, given: Given)
    requires lies { IsSought (view_in reader.old) s }
    requires known { HasKey (view_in reader.old).units s.id }
    requires wide { (us : List ℕ) → Has (view_in reader.old).units s.id us → wide ≡ is_wide us }
    requires given { (us : List ℕ) → Has (view_in reader.old).units s.id us
        → HasGiven (view_in reader.old) (words_of_copy us) given }
    ensures heap { reader.new.heap ≡ reader.old.heap }
    ensures goes { (us : List ℕ) → Has (view_in reader.old).units s.id us
        → AddsCalls (without_given (view_in reader.old) (words_of_copy us) given) (view_in reader.new) [] }
    ensures forms { HoldsForms (view_in reader.old) (view_in reader.new) }
    ensures slots { (view_in reader.new).slots ≡ (view_in reader.old).slots }
    ensures loads { (view_in reader.new).slot_loads ≡ (view_in reader.old).slot_loads }
    ensures used { (view_in reader.new).used ≡ (view_in reader.old).used }
    ensures flat { (us : List ℕ) → Has (view_in reader.old).units s.id us
        → IsFlat (view_in reader.new) (is_wide us) given.start us given.id }
{
    let source = UnitSource::Piece(Piece {
        of: JsStr { id: s.id },
        from: 0,
        window: s.window,
    });
    reader.write_at(&source, s.window.len, wide, given.start);
    bear_given(reader, given.id, wide, given.start, s.window.len);
}

// The header that an opening needs, of what was given.
fn make_string<H: HeapRef>(reader: &mut Reader<H>, opening: StringOpening, given: Given)
    requires opening { (us : List ℕ) × IsStringOpening (view_in reader.old) us opening }
    requires given { HasGiven (view_in reader.old) opening.words given }
    ensures heap { reader.new.heap ≡ reader.old.heap }
    ensures goes { AddsCalls (without_given (view_in reader.old) opening.words given)
        (view_in reader.new) [] }
    ensures forms { HoldsForms (view_in reader.old) (view_in reader.new) }
    ensures slots { (view_in reader.new).slots ≡ (view_in reader.old).slots }
    ensures loads { (view_in reader.new).slot_loads ≡ (view_in reader.old).slot_loads }
    ensures used { (view_in reader.new).used ≡ (view_in reader.old).used }
    ensures flat { (us : List ℕ) → IsStringOpening (view_in reader.old) us opening
        → IsFlat (view_in reader.new) (opening_plan opening us).wide
        (unwrap_or (opening_plan opening us).start given.start) us given.id }
{
    let s = opening.sought;
    if let Form::Sliced { .. } = s.form {
        copy_part(reader, s, opening.wide, given);
        return;
    }
    bear_given(reader, given.id, s.window.wide, first_word(s), s.window.len);
}

// The header is made of what was given, and put into the opening.
fn place_string<L: Ledger, H: HeapRef>(
    reader: &mut Reader<H>,
    opening: StringOpening,
    given: Given,
    hashes: &[u32],
    steps: &mut Steps<L>,
) -> Result<Seat, TableFull>
    requires opening { (us : List ℕ) × IsStringOpening (view_in reader.old) us opening }
    requires given { HasGiven (view_in reader.old) opening.words given }
    requires hashed { AreHashes (view_in reader.old) hashes.now }
    ensures heap { reader.new.heap ≡ reader.old.heap }
    ensures forms { HoldsForms (view_in reader.old) (view_in reader.new) }
    ensures interns { (us : List ℕ) → IsStringOpening (view_in reader.old) us opening
        → IsGivenTaken (view_in reader.old) (view_in reader.new) us (opening_plan opening us) given
        (id_in result) }
    ensures nothing { UsesNothing (view_in reader.old) (view_in reader.new) }
    ensures stands { IfOk result (λ s. (us : List ℕ) → IsStringOpening (view_in reader.old) us opening
        → StandsAt (view_in reader.new) us s.slot s.id) }
    ensures once { (us : List ℕ) → IsStringOpening (view_in reader.old) us opening
        → (k : ℕ) → rank us (view_in reader.old).sizes.slots k ≤ opening.opening.rank
        → loads_at (view_in reader.new) k ≤ loads_at (view_in reader.old) k + 1 }
    ensures most { (k : ℕ) → loads_at (view_in reader.new) k ≤ loads_at (view_in reader.old) k + 2 }
    ensures apart { (k : ℕ) → k ≢ opening.opening.slot
        → IsNotedApart hashes.now k (max opening.opening.hash 1)
        → loads_at (view_in reader.new) k ≡ loads_at (view_in reader.old) k }
{
    make_string(reader, opening, given);
    place(
        reader,
        &Wanted::Str(opening.sought),
        given.id,
        opening.opening.slot,
        opening.opening.rank,
        opening.opening.hash,
        hashes,
        steps,
    )
}

// The header is made of what was given, if anything was; else by claims.
fn place_with<L: Ledger, H: HeapRef>(
    reader: &mut Reader<H>,
    opening: StringOpening,
    given: Option<Given>,
    hashes: &[u32],
    steps: &mut Steps<L>,
) -> Result<Seat, TableFull>
    requires opening { (us : List ℕ) × IsStringOpening (view_in reader.old) us opening }
    requires given { IfSome given (HasGiven (view_in reader.old) opening.words) }
    requires hashed { AreHashes (view_in reader.old) hashes.now }
    ensures heap { reader.new.heap ≡ reader.old.heap }
    ensures forms { HoldsForms (view_in reader.old) (view_in reader.new) }
    ensures interns { (us : List ℕ) → IsStringOpening (view_in reader.old) us opening
        → AnswersAt (view_in reader.old) (view_in reader.new) us (opening_plan opening us) given
        (id_in result) }
    ensures stands { IfOk result (λ s. (us : List ℕ) → IsStringOpening (view_in reader.old) us opening
        → StandsAt (view_in reader.new) us s.slot s.id) }
    ensures once { (us : List ℕ) → IsStringOpening (view_in reader.old) us opening
        → (k : ℕ) → rank us (view_in reader.old).sizes.slots k ≤ opening.opening.rank
        → loads_at (view_in reader.new) k ≤ loads_at (view_in reader.old) k + 1 }
    ensures most { (k : ℕ) → loads_at (view_in reader.new) k ≤ loads_at (view_in reader.old) k + 2 }
    ensures apart { (k : ℕ) → k ≢ opening.opening.slot
        → IsNotedApart hashes.now k (max opening.opening.hash 1)
        → loads_at (view_in reader.new) k ≡ loads_at (view_in reader.old) k }
{
    match given {
        Some(given) => place_string(reader, opening, given, hashes, steps),
        None => place_new(
            reader,
            &Wanted::Str(opening.sought),
            opening.opening,
            hashes,
            steps,
        ),
    }
}

// The ledger of a caller that counts nothing.
fn intern_string_at_by<L: Ledger, H: HeapRef>(
    reader: &mut Reader<H>,
    opening: StringOpening,
    given: Option<Given>,
    seats: &mut [u32],
    hashes: &mut [u32],
    blank: Blank,
) -> Result<u32, TableFull>
    requires name { blank.name ≡ L.name }
    requires parts { blank.parts ≡ L.parts }
    requires some { 0 < blank.parts }
    requires opening { (us : List ℕ) × IsStringOpening (view_in reader.old) us opening }
    requires given { IfSome given (HasGiven (view_in reader.old) opening.words) }
    requires seated { AreSeats (view_in reader.old) seats.old }
    requires hashed { AreHashes (view_in reader.old) hashes.old }
    ensures heap { reader.new.heap ≡ reader.old.heap }
    ensures interns { (us : List ℕ) → IsStringOpening (view_in reader.old) us opening
        → AnswersAt (view_in reader.old) (view_in reader.new) us (opening_plan opening us) given result }
    ensures forwards { IfOk result (λ i. IsForwarded (view_in reader.new) opening.sought.id i) }
    ensures loads { (us : List ℕ) → IsStringOpening (view_in reader.old) us opening
        → LoadsFrom (view_in reader.old) (view_in reader.new) us opening.opening }
    ensures seated { AreSeats (view_in reader.new) seats.new }
    ensures noted { opening.sought.id < length seats.old
        → IfOk result (λ i. 0 < slice_index seats.new opening.sought.id) }
    ensures room { length seats.new ≡ length seats.old }
    ensures notes { (us : List ℕ) → IsStringOpening (view_in reader.old) us opening
        → NotesHash (view_in reader.old) (view_in reader.new) us (answered result) hashes.old hashes.new }
{
    let mut steps = Steps::<L>::start(blank);
    let seat = match place_with(reader, opening, given, hashes, &mut steps) {
        Ok(seat) => seat,
        Err(full) => return Err(full),
    };
    note_hash(hashes, seat.slot, opening.opening.hash.max(1));
    note_seat(seats, opening.sought.id, seat.slot);
    forward(reader, opening.sought, seat.id);
    Ok(seat.id)
}

/// Interns the string whose units an opening was found for, with an id and content words that the agent has
/// claimed before, or, where none is given, by claims. A header for them is put into the opening: a fixed Flat
/// over the words of the string, and as wide as these; or, where the string is a part of another one, over a
/// copy of its units, which is wide exactly where one is over 255. Where the opening is lost, the probe goes on
/// behind it. The header of the string then forwards to the answer, unless it is a fixed Flat. Slots and hashes
/// are noted, as by [`search_string`](crate::search_string).
pub fn intern_string_at<H: HeapRef>(
    reader: &mut Reader<H>,
    opening: StringOpening,
    given: Option<Given>,
    seats: &mut [u32],
    hashes: &mut [u32],
) -> Result<u32, TableFull>
    requires opening { (us : List ℕ) × IsStringOpening (view_in reader.old) us opening }
    requires given { IfSome given (HasGiven (view_in reader.old) opening.words) }
    requires seated { AreSeats (view_in reader.old) seats.old }
    requires hashed { AreHashes (view_in reader.old) hashes.old }
    ensures heap { reader.new.heap ≡ reader.old.heap }
    ensures interns { (us : List ℕ) → IsStringOpening (view_in reader.old) us opening
        → AnswersAt (view_in reader.old) (view_in reader.new) us (opening_plan opening us) given result }
    ensures forwards { IfOk result (λ i. IsForwarded (view_in reader.new) opening.sought.id i) }
    ensures loads { (us : List ℕ) → IsStringOpening (view_in reader.old) us opening
        → LoadsFrom (view_in reader.old) (view_in reader.new) us opening.opening }
    ensures seated { AreSeats (view_in reader.new) seats.new }
    ensures noted { opening.sought.id < length seats.old
        → IfOk result (λ i. 0 < slice_index seats.new opening.sought.id) }
    ensures room { length seats.new ≡ length seats.old }
    ensures notes { (us : List ℕ) → IsStringOpening (view_in reader.old) us opening
        → NotesHash (view_in reader.old) (view_in reader.new) us (answered result) hashes.old hashes.new }
{
    intern_string_at_by::<Brand, _>(reader, opening, given, seats, hashes, Blank::new(1))
}
