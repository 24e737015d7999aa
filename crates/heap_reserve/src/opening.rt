// Interning units for which there is an opening in the string table, with what is kept.
ghost use Rattle.std.specs.Prelude.{◌↔◌, ◌<◌, IsTrue, length};
ghost use Rattle.heap_table.specs.Agents.{view_of};
ghost use Rattle.heap_intern.specs.Answers.{copy_plan};
ghost use Rattle.heap_intern.specs.Hashes.{AreHashes, NotesHash};
ghost use Rattle.heap_intern.specs.Keys.{IsKey, units_of_key};
ghost use Rattle.heap_intern.specs.Searching.{IsOpening, LoadsFrom};
ghost use Rattle.heap_intern.specs.SlotLoads.{answered};
ghost use Rattle.heap_text.specs.Keeping.{KeepsText};
ghost use Rattle.heap_reserve.specs.Interning.{InternsAt, IsKeyTaken, IsOffered};
ghost use Rattle.heap_reserve.specs.Making.{words_holding};
ghost use Rattle.heap_reserve.specs.Reserves.{HasEnough, IsReserve, kept_ids};
ghost use Rattle.heap_read.specs.Reads.{HoldsForms};

use crate::reserve::Reserve;
use heap_intern::{Given, Key, Opening, TableFull, intern_key_at};
use heap_read::HeapRef;
use heap_text::Text;
use js_units::words_for;

impl Reserve {
    /// The interned string of units for which there is an opening, by its number. Where the reserve has an id and
    /// the content words that hold them, the new string takes these and uses nothing; where it has not, they are
    /// claimed. So what is reserved may be renewed in between, once it is known that a string has to be made.
    pub fn intern_at<H: HeapRef>(
        &mut self,
        text: &mut Text<H>,
        key: &Key,
        opening: Opening,
        hashes: &mut [u32],
    ) -> Result<u32, TableFull>
        requires reserve { IsReserve (view_of text.old.reader.agent) self.old }
        requires key { IsKey key.now }
        requires opening { IsOpening (view_of text.old.reader.agent) (units_of_key key.now) opening }
        requires hashed { AreHashes (view_of text.old.reader.agent) hashes.old }
        ensures kept { KeepsText text.old text.new }
        ensures reserve { IsReserve (view_of text.new.reader.agent) self.new }
        ensures interns { InternsAt (view_of text.old.reader.agent) (view_of text.new.reader.agent)
            self.old self.new (units_of_key key.now) (copy_plan (units_of_key key.now)) result }
        ensures forms { HoldsForms (view_of text.old.reader.agent) (view_of text.new.reader.agent) }
        ensures loads { LoadsFrom (view_of text.old.reader.agent) (view_of text.new.reader.agent)
            (units_of_key key.now) opening }
        ensures notes { NotesHash (view_of text.old.reader.agent) (view_of text.new.reader.agent)
            (units_of_key key.now) (answered result) hashes.old hashes.new }
    {
        if !self.covers(key) {
            return intern_key_at(&mut text.reader, key, opening, None, hashes);
        }
        self.intern_at_with(text, key, opening, hashes)
    }

    // The same, where the reserve has what that needs.
    fn intern_at_with<H: HeapRef>(
        &mut self,
        text: &mut Text<H>,
        key: &Key,
        opening: Opening,
        hashes: &mut [u32],
    ) -> Result<u32, TableFull>
        requires reserve { IsReserve (view_of text.old.reader.agent) self.old }
        requires key { IsKey key.now }
        requires enough { HasEnough self.old (words_holding (units_of_key key.now)) }
        requires opening { IsOpening (view_of text.old.reader.agent) (units_of_key key.now) opening }
        requires hashed { AreHashes (view_of text.old.reader.agent) hashes.old }
        ensures kept { KeepsText text.old text.new }
        ensures reserve { IsReserve (view_of text.new.reader.agent) self.new }
        ensures interns { IsKeyTaken (view_of text.old.reader.agent) (view_of text.new.reader.agent)
            self.old self.new (units_of_key key.now) (copy_plan (units_of_key key.now)) result }
        ensures forms { HoldsForms (view_of text.old.reader.agent) (view_of text.new.reader.agent) }
        ensures loads { LoadsFrom (view_of text.old.reader.agent) (view_of text.new.reader.agent)
            (units_of_key key.now) opening }
        ensures notes { NotesHash (view_of text.old.reader.agent) (view_of text.new.reader.agent)
            (units_of_key key.now) (answered result) hashes.old hashes.new }
    {
        let words = words_for(key.len(), key.is_wide());
        let given = self.offer(words);
        let answer = intern_key_at(&mut text.reader, key, opening, Some(given), hashes);
        self.take(words);
        answer
    }

    // Whether it has an id, and the content words that hold the units. The units are read only where it has
    // few words.
    fn covers(&self, key: &Key) -> bool
        requires { IsKey key.now }
        ensures { IsTrue result ↔ HasEnough self.now (words_holding (units_of_key key.now)) }
    {
        let n = key.len();
        if self.has(words_for(n, true)) {
            return true;
        }
        if !self.has(words_for(n, false)) {
            return false;
        }
        self.has(words_for(n, key.is_wide()))
    }

    // Its first id, and the first of so many content words, which stay in it; 0 where these are none.
    pub(crate) fn offer(&self, words: u32) -> Given
        requires { 0 < length (kept_ids self.now) }
        ensures { IsOffered self.now words result }
    {
        let start = if words == 0 { 0 } else { self.start };
        match self.ids.front() {
            Some(id) => Given { id: *id, start },
            None => unreachable!(),
        }
    }
}
