// What a new string needs: what is kept, and claims for the rest.
ghost use Rattle.std.specs.Prelude.{◌≡◌, ◌+◌, ◌<◌, ◌≤◌, IfOk, IfErr, length};
ghost use Rattle.heap_rule.specs.Claims.{loaded_counter};
ghost use Rattle.heap_rule.specs.declared.size.Counter.TheVariants as counter;
ghost use Rattle.heap_table.specs.Agents.{size_of};
ghost use Rattle.heap_table.specs.Full.{IsFull};
ghost use Rattle.heap_read.specs.Readers.{MovesView, view_in};
ghost use Rattle.heap_read.specs.Reads.{Continues, KeepsForms};
ghost use Rattle.heap_reserve.specs.Reserves.{IsReserve, IsTakingRefused, kept_ids, words_kept};
ghost use Rattle.heap_reserve.specs.Trying.{FindsBoth, FindsId, FindsWords};

use crate::reserve::Reserve;
use heap_intern::Given;
use heap_read::{HeapRef, Reader};
use heap_table::CounterFull;
use heap_text::TextFull;

impl Reserve {
    // An id, and the first of so many content words, for a new string. What the reserve has of these leaves it;
    // of which it has too little, that is claimed, the words before the id. Where a claim is refused, the
    // reserve stays.
    pub(crate) fn gather<H: HeapRef>(
        &mut self,
        reader: &mut Reader<H>,
        words: u32,
    ) -> Result<Given, TextFull>
        requires reserve { IsReserve (view_in reader.old) self.old }
        ensures continues { MovesView Continues reader.old reader.new }
        ensures forms { KeepsForms (view_in reader.old) (view_in reader.new) }
        ensures found { IfOk result (λ p. FindsBoth (view_in reader.old) (view_in reader.new) self.old
            self.new words p.id p.start) }
        ensures refused { IfErr result (λ f. IsTakingRefused (view_in reader.old) (view_in reader.new)
            (size_of (H.reached reader.old.heap)) self.old self.new words f) }
    {
        let start = match self.find_words(reader, words) {
            Ok(start) => start,
            Err(full) => return Err(TextFull::Words(full)),
        };
        let id = match self.find_id(reader) {
            Ok(id) => id,
            Err(full) => return Err(TextFull::Ids(full)),
        };
        self.leave_words(words);
        Ok(Given { id, start })
    }

    // The first of so many content words: the run's, if it has so many, which stay there; else claimed ones;
    // 0 where that is no word.
    fn find_words<H: HeapRef>(&self, reader: &mut Reader<H>, words: u32) -> Result<u32, CounterFull>
        requires reserve { IsReserve (view_in reader.old) self.now }
        ensures continues { MovesView Continues reader.old reader.new }
        ensures forms { KeepsForms (view_in reader.old) (view_in reader.new) }
        ensures found { IfOk result
            (λ start. FindsWords (view_in reader.old) (view_in reader.new) self.now words start) }
        ensures refused { IfErr result (λ f. (words_kept self.now < words)
            × IsFull f words (size_of (H.reached reader.old.heap)).words
            × (view_in reader.new ≡ loaded_counter (view_in reader.old) counter.Words f.at)) }
    {
        if words == 0 {
            return Ok(0);
        }
        if words <= self.words_left() {
            return Ok(self.start);
        }
        reader.agent.claim_words(reader.heap.heap(), words)
    }

    // The first id, which leaves the reserve; a claimed one where it has none.
    fn find_id<H: HeapRef>(&mut self, reader: &mut Reader<H>) -> Result<u32, CounterFull>
        requires reserve { IsReserve (view_in reader.old) self.old }
        ensures continues { MovesView Continues reader.old reader.new }
        ensures forms { KeepsForms (view_in reader.old) (view_in reader.new) }
        ensures found { IfOk result
            (λ id. FindsId (view_in reader.old) (view_in reader.new) self.old self.new id) }
        ensures refused { IfErr result (λ f. (length (kept_ids self.old) ≡ 0)
            × IsFull f 1 (size_of (H.reached reader.old.heap)).ids
            × (view_in reader.new ≡ loaded_counter (view_in reader.old) counter.Ids f.at)
            × (self.new ≡ self.old)) }
    {
        if self.ids_left() == 0 {
            return reader.agent.claim_id(reader.heap.heap());
        }
        Ok(self.take_id())
    }

    // So many content words leave the run, if it has so many.
    fn leave_words(&mut self, words: u32)
        ensures ids { kept_ids self.new ≡ kept_ids self.old }
        ensures enough { words ≤ words_kept self.old → (self.new.start ≡ self.old.start + words)
            × (self.new.end ≡ self.old.end) }
        ensures less { words_kept self.old < words → (self.new.start ≡ self.old.start)
            × (self.new.end ≡ self.old.end) }
    {
        if words <= self.words_left() {
            self.start += words;
        }
    }
}
