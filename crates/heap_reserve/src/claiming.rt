// Claiming in advance.
ghost use Rattle.std.specs.Prelude.{◌≡◌, ◌≢◌, ◌+◌, ◌^◌, ◌<◌, ◌≤◌, ◌++◌, IfErr, IfOk, OnOk};
ghost use Rattle.std.specs.VecDeque.{deque_capacity, deque_len};
ghost use Rattle.heap_table.specs.Agents.{size_of, view_of};
ghost use Rattle.heap_table.specs.Full.{IsFull};
ghost use Rattle.heap_read.specs.Readers.{MovesView, view_in};
ghost use Rattle.heap_read.specs.Reads.{Continues, HoldsForms};
ghost use Rattle.heap_text.specs.Keeping.{KeepsText};
ghost use Rattle.heap_text.specs.Texts.{KeepsOwn};
ghost use Rattle.heap_reserve.specs.Reserves.{IsClaimed, IsReserve, kept_ids};
ghost use Rattle.heap_reserve.specs.Claims.{IsClaimAnswer, IsIdRefused};
ghost use Rattle.heap_reserve.specs.Trying.{ids_from};

use crate::faults::ReserveFault;
use crate::reserve::Reserve;
use heap_read::{HeapRef, Reader};
use heap_table::CounterFull;
use heap_text::{Text, TextFull};
use std::alloc::AllocError;

// The most ids that one exchange of the counter claims. Memory for their list is reserved before, so the
// piece bounds what is reserved for ids that the heap does not have.
const PIECE: u32 = 1024;

impl Reserve {
    /// Claims so many content words in one piece, and then so many ids in pieces; 0 claims none.
    /// Where there are not that many words, or no memory for the list of the first piece of ids, nothing is
    /// claimed. Where ids or memory for the list of later ones end, the words and the ids before are kept. If
    /// the new words do not begin where the run ends, the rest of that run is given up: its words stay the
    /// agent's own, in no string.
    pub fn claim<H: HeapRef>(
        &mut self,
        text: &mut Text<H>,
        ids: u32,
        words: u32,
    ) -> Result<(), ReserveFault>
        requires reserve { IsReserve (view_of text.old.reader.agent) self.old }
        ensures kept { KeepsText text.old text.new }
        ensures continues { Continues (view_of text.old.reader.agent) (view_of text.new.reader.agent) }
        ensures own { KeepsOwn (view_of text.old.reader.agent) (view_of text.new.reader.agent) }
        ensures forms { HoldsForms (view_of text.old.reader.agent) (view_of text.new.reader.agent) }
        ensures reserve { IsReserve (view_of text.new.reader.agent) self.new }
        ensures answer { IsClaimAnswer (view_of text.old.reader.agent) (view_of text.new.reader.agent)
            (size_of (H.reached text.old.reader.heap)) self.old self.new ids words result }
    {
        let Ok(piece) = self.make_room(ids) else {
            return Err(ReserveFault::Memory);
        };
        if let Err(full) = self.claim_words(&mut text.reader, words) {
            return Err(ReserveFault::Full(TextFull::Words(full)));
        }
        self.claim_ids(&mut text.reader, ids, piece)
    }

    // Room in the list for the next piece of so many ids; the answer is how many these are.
    fn make_room(&mut self, ids: u32) -> Result<u32, AllocError>
        ensures ids { kept_ids self.new ≡ kept_ids self.old }
        ensures words { (self.new.start ≡ self.old.start) × (self.new.end ≡ self.old.end) }
        ensures piece { IfOk result (λ n. (n ≤ ids) × (0 < ids → 0 < n)
            × (deque_len self.new.ids + n ≤ deque_capacity self.new.ids)) }
    {
        let piece = ids.min(PIECE);
        self.ids.reserve(piece as usize)?;
        Ok(piece)
    }

    // Content words, which become its run or the end of it.
    fn claim_words<H: HeapRef>(
        &mut self,
        reader: &mut Reader<H>,
        words: u32,
    ) -> Result<(), CounterFull>
        requires reserve { IsReserve (view_in reader.old) self.old }
        ensures continues { MovesView Continues reader.old reader.new }
        ensures own { KeepsOwn (view_in reader.old) (view_in reader.new) }
        ensures forms { HoldsForms (view_in reader.old) (view_in reader.new) }
        ensures reserve { IsReserve (view_in reader.new) self.new }
        ensures ids { self.new.ids ≡ self.old.ids }
        ensures ok { OnOk result
            (IsClaimed (view_in reader.old) (view_in reader.new) self.old self.new 0 words) }
        ensures refused { IfErr result
            (λ f. IsFull f words (size_of (H.reached reader.old.heap)).words
            × ((view_in reader.new).low.words ≡ f.at)
            × IsClaimed (view_in reader.old) (view_in reader.new) self.old self.new 0 0) }
    {
        if words == 0 {
            return Ok(());
        }
        let start = reader.agent.claim_words(reader.heap.heap(), words)?;
        self.start = self.run_from(start);
        self.end = start + words;
        Ok(())
    }

    // Where the run begins once it has words from `start` on: as before, where they are behind it.
    fn run_from(&self, start: u32) -> u32
        ensures behind { start ≡ self.now.end → result ≡ self.now.start }
        ensures other { start ≢ self.now.end → result ≡ start }
    {
        if start == self.end { self.start } else { start }
    }

    // Ids, in pieces, of which the first one has room.
    fn claim_ids<H: HeapRef>(
        &mut self,
        reader: &mut Reader<H>,
        ids: u32,
        first: u32,
    ) -> Result<(), ReserveFault>
        requires reserve { IsReserve (view_in reader.old) self.old }
        requires first { (first ≤ ids) × (0 < ids → 0 < first) }
        requires room { deque_len self.old.ids + first ≤ deque_capacity self.old.ids }
        ensures continues { MovesView Continues reader.old reader.new }
        ensures own { KeepsOwn (view_in reader.old) (view_in reader.new) }
        ensures forms { HoldsForms (view_in reader.old) (view_in reader.new) }
        ensures reserve { IsReserve (view_in reader.new) self.new }
        ensures ok { OnOk result
            (IsClaimed (view_in reader.old) (view_in reader.new) self.old self.new ids 0) }
        ensures refused { IfErr result
            (λ f. IsIdRefused (view_in reader.old) (view_in reader.new)
            (size_of (H.reached reader.old.heap)) self.old self.new ids 0 f) }
    {
        if ids == 0 {
            return Ok(());
        }
        let mut done = self.claim_piece(reader, first)?;
        'pieces: while done < ids {
            let Ok(piece) = self.make_room(ids - done) else {
                return Err(ReserveFault::Memory);
            };
            done += self.claim_piece(reader, piece)?;
        }
        Ok(())
    }

    // At least one id and at most `most`, and how many: a piece, which one exchange of the counter claims. The
    // list has room for it.
    fn claim_piece<H: HeapRef>(
        &mut self,
        reader: &mut Reader<H>,
        most: u32,
    ) -> Result<u32, ReserveFault>
        requires reserve { IsReserve (view_in reader.old) self.old }
        requires some { 1 ≤ most }
        requires room { deque_len self.old.ids + most ≤ deque_capacity self.old.ids }
        ensures continues { MovesView Continues reader.old reader.new }
        ensures own { KeepsOwn (view_in reader.old) (view_in reader.new) }
        ensures forms { HoldsForms (view_in reader.old) (view_in reader.new) }
        ensures reserve { IsReserve (view_in reader.new) self.new }
        ensures ok { IfOk result (λ n. (1 ≤ n) × (n ≤ most)
            × IsClaimed (view_in reader.old) (view_in reader.new) self.old self.new n 0) }
        ensures refused { IfErr result
            (λ f. IsIdRefused (view_in reader.old) (view_in reader.new)
            (size_of (H.reached reader.old.heap)) self.old self.new 1 0 f) }
    {
        match reader.agent.claim_ids(reader.heap.heap(), most) {
            Ok((first, count)) => {
                self.keep_all(first, count);
                Ok(count)
            }
            Err(full) => Err(ReserveFault::Full(TextFull::Ids(full))),
        }
    }

    // So many ids more, the last ones, for which there is room.
    fn keep_all(&mut self, first: u32, count: u32)
        requires room { deque_len self.old.ids + count ≤ deque_capacity self.old.ids }
        requires small { first + count < 2 ^ 32 }
        ensures ids { kept_ids self.new ≡ kept_ids self.old ++ ids_from first count }
        ensures words { (self.new.start ≡ self.old.start) × (self.new.end ≡ self.old.end) }
    {
        for done in 0..count {
            self.ids.push_back_reserved(first + done);
        }
    }
}
