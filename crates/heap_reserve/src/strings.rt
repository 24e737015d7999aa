// Interning a string for which there is an opening in the string table, with what is kept.
ghost use Rattle.std.specs.Prelude.{◌≡◌, ◌<◌, ℕ, List, IfOk, length, slice_index};
ghost use Rattle.heap_table.specs.Agents.{view_of};
ghost use Rattle.heap_intern.specs.Answers.{IsForwarded};
ghost use Rattle.heap_intern.specs.Hashes.{AreHashes, NotesHash};
ghost use Rattle.heap_intern.specs.Searching.{IsStringOpening, LoadsFrom, opening_plan};
ghost use Rattle.heap_intern.specs.Seats.{AreSeats};
ghost use Rattle.heap_intern.specs.SlotLoads.{answered};
ghost use Rattle.heap_text.specs.Keeping.{KeepsText};
ghost use Rattle.heap_reserve.specs.Interning.{InternsAt, IsKeyTaken};
ghost use Rattle.heap_reserve.specs.Reserves.{HasEnough, IsReserve};

use crate::reserve::Reserve;
use heap_intern::{StringOpening, TableFull, intern_string_at};
use heap_read::HeapRef;
use heap_text::Text;

impl Reserve {
    /// The interned string of a string for whose units there is an opening, by its number. Where the reserve has
    /// an id, and the content words of a copy where the string is a part of another one, the header takes these
    /// and uses nothing; where it has not, they are claimed. A header is a Flat, so any id serves it. Slots and
    /// hashes are noted as by `intern_string_at`.
    pub fn intern_string_at<H: HeapRef>(
        &mut self,
        text: &mut Text<H>,
        opening: StringOpening,
        seats: &mut [u32],
        hashes: &mut [u32],
    ) -> Result<u32, TableFull>
        requires reserve { IsReserve (view_of text.old.reader.agent) self.old }
        requires opening { (us : List ℕ) × IsStringOpening (view_of text.old.reader.agent) us opening }
        requires seated { AreSeats (view_of text.old.reader.agent) seats.old }
        requires hashed { AreHashes (view_of text.old.reader.agent) hashes.old }
        ensures kept { KeepsText text.old text.new }
        ensures reserve { IsReserve (view_of text.new.reader.agent) self.new }
        ensures interns { (us : List ℕ) → IsStringOpening (view_of text.old.reader.agent) us opening
            → InternsAt (view_of text.old.reader.agent) (view_of text.new.reader.agent) self.old self.new us
            (opening_plan opening us) result }
        ensures forwards { IfOk result
            (λ i. IsForwarded (view_of text.new.reader.agent) opening.sought.id i) }
        ensures loads { (us : List ℕ) → IsStringOpening (view_of text.old.reader.agent) us opening
            → LoadsFrom (view_of text.old.reader.agent) (view_of text.new.reader.agent) us opening.opening }
        ensures seated { AreSeats (view_of text.new.reader.agent) seats.new }
        ensures noted { opening.sought.id < length seats.old
            → IfOk result (λ i. 0 < slice_index seats.new opening.sought.id) }
        ensures room { length seats.new ≡ length seats.old }
        ensures notes { (us : List ℕ) → IsStringOpening (view_of text.old.reader.agent) us opening
            → NotesHash (view_of text.old.reader.agent) (view_of text.new.reader.agent) us (answered result)
            hashes.old hashes.new }
    {
        if !self.has(opening.words()) {
            return intern_string_at(&mut text.reader, opening, None, seats, hashes);
        }
        self.intern_string_with(text, opening, seats, hashes)
    }

    // The same, where the reserve has what that needs.
    fn intern_string_with<H: HeapRef>(
        &mut self,
        text: &mut Text<H>,
        opening: StringOpening,
        seats: &mut [u32],
        hashes: &mut [u32],
    ) -> Result<u32, TableFull>
        requires reserve { IsReserve (view_of text.old.reader.agent) self.old }
        requires enough { HasEnough self.old opening.words }
        requires opening { (us : List ℕ) × IsStringOpening (view_of text.old.reader.agent) us opening }
        requires seated { AreSeats (view_of text.old.reader.agent) seats.old }
        requires hashed { AreHashes (view_of text.old.reader.agent) hashes.old }
        ensures kept { KeepsText text.old text.new }
        ensures reserve { IsReserve (view_of text.new.reader.agent) self.new }
        ensures interns { (us : List ℕ) → IsStringOpening (view_of text.old.reader.agent) us opening
            → IsKeyTaken (view_of text.old.reader.agent) (view_of text.new.reader.agent) self.old self.new us
            (opening_plan opening us) result }
        ensures forwards { IfOk result
            (λ i. IsForwarded (view_of text.new.reader.agent) opening.sought.id i) }
        ensures loads { (us : List ℕ) → IsStringOpening (view_of text.old.reader.agent) us opening
            → LoadsFrom (view_of text.old.reader.agent) (view_of text.new.reader.agent) us opening.opening }
        ensures seated { AreSeats (view_of text.new.reader.agent) seats.new }
        ensures noted { opening.sought.id < length seats.old
            → IfOk result (λ i. 0 < slice_index seats.new opening.sought.id) }
        ensures room { length seats.new ≡ length seats.old }
        ensures notes { (us : List ℕ) → IsStringOpening (view_of text.old.reader.agent) us opening
            → NotesHash (view_of text.old.reader.agent) (view_of text.new.reader.agent) us (answered result)
            hashes.old hashes.new }
    {
        let words = opening.words();
        let given = self.offer(words);
        let answer = intern_string_at(&mut text.reader, opening, Some(given), seats, hashes);
        self.take(words);
        answer
    }
}
