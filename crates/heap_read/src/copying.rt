// Making a flat string with the units of a source.
ghost use Rattle.std.specs.Prelude.{◌≡◌, List, ◌+◌, ◌*◌, ◌/◌, ◌%◌, ◌≤◌, ◌<◌, ◌^◌, ℕ, IfOk, IfErr, Some, false, true, slice_index, length};
ghost use Rattle.js_units.specs.Lanes.{IsWordOf, is_wide, lane_base, lane_count, words_over};
ghost use Rattle.js_header.specs.declared.form.Form.TheVariants.{Flat};
ghost use Rattle.heap_rule.specs.Layout.{MAX};
ghost use Rattle.heap_rule.specs.Maps.{Has, HasKey};
ghost use Rattle.heap_table.specs.Agents.{size_of};
ghost use Rattle.heap_table.specs.Full.{IsFull};
ghost use Rattle.heap_read.specs.Readers.{MovesView, view_in};
ghost use Rattle.heap_read.specs.Reads.{Continues, KeepsBeside, KeepsForms, OnlyLoads, WritesOwnWords};
ghost use Rattle.heap_read.specs.Sources.{ShowsSource, listed_in};
ghost use Rattle.heap_read.specs.Windows.{IsWindow};
ghost use Rattle.heap_read.specs.Written.{AreWords, IsWritten};

use crate::heap_ref::HeapRef;
use crate::packing::{has_wide, pack};
use crate::reader::Reader;
use crate::shifting::has_wide_lane;
use crate::source::UnitSource;
use crate::string::Window;
use heap_table::CounterFull;
use js_units::{lanes, words_for};

impl<H: HeapRef> Reader<H> {
    /// Whether a unit is over 255.
    pub fn has_wide(&mut self, source: &UnitSource, n: u32) -> bool
        requires shows { ShowsSource (view_in self.old) source.now }
        requires count { length (listed_in self.old source.now) ≡ n }
        ensures reads { MovesView OnlyLoads self.old self.new }
        ensures shows { ShowsSource (view_in self.new) source.now }
        ensures listed { listed_in self.new source.now ≡ listed_in self.old source.now }
        ensures wide { result ≡ is_wide (listed_in self.old source.now) }
        ensures forms { KeepsForms (view_in self.old) (view_in self.new) }
    {
        match source {
            UnitSource::Units(units) => has_wide(units),
            UnitSource::Piece(piece) => self.is_wide_in(piece.window),
            UnitSource::Pieces(front, back) => self.is_wide_in(front.window)
                || self.is_wide_in(back.window),
        }
    }

    // Whether a unit of a window is over 255. In one-byte lanes none is.
    fn is_wide_in(&mut self, w: Window) -> bool
        requires { (us : List ℕ) × IsWindow (view_in self.old) w us }
        ensures reads { MovesView OnlyLoads self.old self.new }
        ensures forms { KeepsForms (view_in self.old) (view_in self.new) }
        ensures wide { (us : List ℕ) → IsWindow (view_in self.old) w us → result ≡ is_wide us }
    {
        if w.wide { self.has_wide_unit(w) } else { false }
    }

    // The same of a window over two-byte lanes, a word at a time.
    fn has_wide_unit(&mut self, w: Window) -> bool
        requires window { (us : List ℕ) × IsWindow (view_in self.old) w us }
        requires lanes { w.wide ≡ true }
        ensures reads { MovesView OnlyLoads self.old self.new }
        ensures forms { KeepsForms (view_in self.old) (view_in self.new) }
        ensures wide { (us : List ℕ) → IsWindow (view_in self.old) w us → result ≡ is_wide us }
    {
        let mut i = 0;
        while i < w.len {
            let held = self.hold_in(w, i);
            let count = held.count_from(i);
            if has_wide_lane(held.part(i, count, true)) {
                return true;
            }
            i += count;
        }
        false
    }

    // Word number `at` of the units.
    fn pack(&mut self, source: &UnitSource, n: u32, wide: bool, at: u32) -> u64
        requires shows { ShowsSource (view_in self.old) source.now }
        requires count { length (listed_in self.old source.now) ≡ n }
        requires wide { wide ≡ is_wide (listed_in self.old source.now) }
        requires within { (n ≤ MAX) × (at < words_over wide n) }
        ensures reads { MovesView OnlyLoads self.old self.new }
        ensures shows { ShowsSource (view_in self.new) source.now }
        ensures listed { listed_in self.new source.now ≡ listed_in self.old source.now }
        ensures word { IsWordOf wide (listed_in self.old source.now) at result }
        ensures forms { KeepsForms (view_in self.old) (view_in self.new) }
    {
        if let UnitSource::Units(units) = source {
            return pack(units, wide, at);
        }
        let lanes = lanes(wide);
        let first = at * lanes;
        self.word_of(source, wide, first, lanes.min(n - first))
    }

    /// Content words with the units of a source, now the agent's own. The answer is the first.
    pub fn write(&mut self, source: &UnitSource, n: u32, wide: bool) -> Result<u32, CounterFull>
        requires shows { ShowsSource (view_in self.old) source.now }
        requires count { length (listed_in self.old source.now) ≡ n }
        requires wide { wide ≡ is_wide (listed_in self.old source.now) }
        requires short { n ≤ MAX }
        ensures continues { MovesView Continues self.old self.new }
        ensures ids { (view_in self.new).used.ids ≡ (view_in self.old).used.ids }
        ensures own_ids { (view_in self.new).own_ids ≡ (view_in self.old).own_ids }
        ensures own_words { (c : ℕ) → HasKey (view_in self.old).own_words c
            → HasKey (view_in self.new).own_words c }
        ensures ok { IfOk result
            (λ start. IsWritten (view_in self.new) wide start (listed_in self.old source.now)
            × ((view_in self.new).used.words ≡ (view_in self.old).used.words + words_over wide n)) }
        ensures refused { IfErr result
            (λ f. IsFull f (words_over wide n) (size_of (H.reached self.old.heap)).words
            × ((view_in self.new).low.words ≡ f.at)
            × ((view_in self.new).used.words ≡ (view_in self.old).used.words)) }
        ensures forms { KeepsForms (view_in self.old) (view_in self.new) }
        ensures stays { (c x : ℕ) → Has (view_in self.old).own_words c x
            → Has (view_in self.new).own_words c x }
        ensures fresh { IfOk result
            (λ start. (q : ℕ) → q < words_over wide n → HasKey (view_in self.old).own_words (start + q) → ⊥) }
    {
        let want = words_for(n, wide);
        if want == 0 {
            return Ok(0);
        }
        let start = self.agent.claim_words(self.heap.heap(), want)?;
        self.write_at(source, n, wide, start);
        Ok(start)
    }

    /// The units of a source into own content words, from `start` on; the lanes past the last unit are 0.
    pub fn write_at(&mut self, source: &UnitSource, n: u32, wide: bool, start: u32)
        requires shows { ShowsSource (view_in self.old) source.now }
        requires count { length (listed_in self.old source.now) ≡ n }
        requires wide { wide ≡ is_wide (listed_in self.old source.now) }
        requires short { n ≤ MAX }
        requires own { (q : ℕ) → q < words_over wide n → HasKey (view_in self.old).own_words (start + q) }
        ensures writes { MovesView WritesOwnWords self.old self.new }
        ensures forms { KeepsForms (view_in self.old) (view_in self.new) }
        ensures written { AreWords (view_in self.new) wide start (listed_in self.old source.now)
            (words_over wide n) }
        ensures others { KeepsBeside start (words_over wide n) (view_in self.old) (view_in self.new) }
    {
        let want = words_for(n, wide);
        for at in 0..want {
            let word = self.pack(source, n, wide, at);
            self.agent.store_word(self.heap.heap(), start + at, word);
        }
    }
}
