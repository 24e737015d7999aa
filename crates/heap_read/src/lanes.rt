// Units written into a run of own content words, each word stored once.
ghost use Rattle.std.specs.Prelude.{◌≡◌, ℕ, List, ◌+◌, ◌-◌, ◌*◌, ◌/◌, ◌%◌, ◌^◌, ◌<◌, ◌≤◌, false, slice_index, length};
ghost use Rattle.js_units.specs.Lanes.{lane_base, lane_count, lane_of, words_over};
ghost use Rattle.heap_rule.specs.Contents.{lane_in};
ghost use Rattle.heap_rule.specs.Layout.{MAX};
ghost use Rattle.heap_rule.specs.Loads.{MayLoadWord};
ghost use Rattle.heap_rule.specs.Maps.{HasKey};
ghost use Rattle.heap_rule.specs.Views.{shown_word};
ghost use Rattle.heap_read.specs.Filling.{IsFilled, IsPlaced, own_word};
ghost use Rattle.heap_read.specs.Readers.{MovesView, view_in};
ghost use Rattle.heap_read.specs.Reads.{KeepsBelow, KeepsForms, KeepsFrom, OnlyLoads, WritesOwnWords};
ghost use Rattle.heap_read.specs.Shifted.{HasWord, HoldsLanes};
ghost use Rattle.heap_read.specs.Sources.{ShowsSource, listed_in};
ghost use Rattle.heap_read.specs.Windows.{IsWindow};

use crate::heap_ref::HeapRef;
use crate::reader::Reader;
use crate::shifting::{lanes_at, put_above, replaced};
use crate::source::UnitSource;
use crate::string::Window;
use js_units::{lanes, word_and_lane};

/// Where a run of lanes begins, and how wide they are.
#[derive(Clone, Copy)]
pub struct Run {
    pub start: u32,
    pub wide: bool,
}

impl<H: HeapRef> Reader<H> {
    // The `count` lanes of a run from `o` on, which are of one word, as the lowest ones, by one load.
    #[inline(always)]
    fn lanes_here(&mut self, of: Run, o: u32, count: u32) -> u64
        requires may { MayLoadWord (view_in self.old) (of.start + o / lane_count of.wide) }
        requires room { o % lane_count of.wide + count ≤ lane_count of.wide }
        ensures reads { MovesView OnlyLoads self.old self.new }
        ensures forms { KeepsForms (view_in self.old) (view_in self.new) }
        ensures has { HasWord (view_in self.new) (of.start + o / lane_count of.wide) }
        ensures lanes { HoldsLanes of.wide result count
            (λ k. lane_in (shown_word (view_in self.new)) of.wide of.start (o + k)) }
    {
        let (number, low) = word_and_lane(of.wide, o);
        let word = self.agent.load_word(self.heap.heap(), of.start + number);
        lanes_at(word, of.wide, low, count)
    }

    // The `count` lanes of a run from `o` on, as the lowest ones of a word, by a load for each word
    // that they lie in.
    #[inline(always)]
    pub(crate) fn lanes_in(&mut self, of: Run, o: u32, count: u32) -> u64
        requires may { (q : ℕ) → o ≤ q → q < o + count
            → MayLoadWord (view_in self.old) (of.start + q / lane_count of.wide) }
        requires some { 0 < count }
        requires room { count ≤ lane_count of.wide }
        requires short { o + count ≤ 2 ^ 32 }
        ensures reads { MovesView OnlyLoads self.old self.new }
        ensures forms { KeepsForms (view_in self.old) (view_in self.new) }
        ensures has { (q : ℕ) → o ≤ q → q < o + count
            → HasWord (view_in self.new) (of.start + q / lane_count of.wide) }
        ensures lanes { HoldsLanes of.wide result count
            (λ k. lane_in (shown_word (view_in self.new)) of.wide of.start (o + k)) }
    {
        let here = left_in_word(of.wide, o);
        if count <= here {
            return self.lanes_here(of, o, count);
        }
        let first = self.lanes_here(of, o, here);
        let rest = self.lanes_here(of, o + here, count - here);
        put_above(first, rest, of.wide, here)
    }

    // An own word with `count` lanes from `low` on changed to the lowest ones of another. Only one
    // that is not written whole is loaded.
    #[inline(always)]
    fn patched(&mut self, at: u32, wide: bool, low: u32, count: u32, part: u64) -> u64
        requires own { HasKey (view_in self.old).own_words at }
        requires room { low + count ≤ lane_count wide }
        requires small { part < lane_base wide ^ count }
        ensures reads { MovesView OnlyLoads self.old self.new }
        ensures forms { KeepsForms (view_in self.old) (view_in self.new) }
        ensures placed { IsPlaced wide (own_word (view_in self.old).own_words at) result low count
            (lane_of wide part) }
    {
        if count == lanes(wide) {
            return part;
        }
        let word = self.agent.load_word(self.heap.heap(), at);
        replaced(word, part, wide, low, count)
    }

    // The `count` lanes of a run of own words from `at` on, which are of one word, become the lowest
    // ones of another word.
    #[inline(always)]
    fn put_lanes(&mut self, to: Run, at: u32, count: u32, part: u64)
        requires own { HasKey (view_in self.old).own_words (to.start + at / lane_count to.wide) }
        requires some { 0 < count }
        requires room { at % lane_count to.wide + count ≤ lane_count to.wide }
        requires small { part < lane_base to.wide ^ count }
        ensures writes { MovesView WritesOwnWords self.old self.new }
        ensures below { KeepsBelow to.start (view_in self.old) (view_in self.new) }
        ensures above { KeepsFrom (to.start + words_over to.wide (at + count)) (view_in self.old)
            (view_in self.new) }
        ensures forms { KeepsForms (view_in self.old) (view_in self.new) }
        ensures filled { IsFilled to.wide to.start (own_word (view_in self.old).own_words)
            (own_word (view_in self.new).own_words) at count (lane_of to.wide part) }
    {
        let (number, low) = word_and_lane(to.wide, at);
        let place = to.start + number;
        let word = self.patched(place, to.wide, low, count, part);
        self.agent.store_word(self.heap.heap(), place, word);
    }

    // Lanes `at` on of a run of own words become the units of a window of the same width.
    fn copy_window(&mut self, w: Window, to: Run, at: u32)
        requires window { (us : List ℕ) × IsWindow (view_in self.old) w us }
        requires width { w.wide ≡ to.wide }
        requires short { at + w.len ≤ MAX }
        requires own { (o : ℕ) → at ≤ o → o < at + w.len
            → HasKey (view_in self.old).own_words (to.start + o / lane_count to.wide) }
        ensures writes { MovesView WritesOwnWords self.old self.new }
        ensures below { KeepsBelow to.start (view_in self.old) (view_in self.new) }
        ensures above { KeepsFrom (to.start + words_over to.wide (at + w.len)) (view_in self.old)
            (view_in self.new) }
        ensures forms { KeepsForms (view_in self.old) (view_in self.new) }
        ensures filled { (us : List ℕ) → IsWindow (view_in self.old) w us
            → IsFilled to.wide to.start (own_word (view_in self.old).own_words)
            (own_word (view_in self.new).own_words) at w.len (slice_index us) }
    {
        let mut done = 0;
        while done < w.len {
            let count = left_in_word(to.wide, at + done).min(w.len - done);
            let part = self.part_of(w, done, count);
            self.put_lanes(to, at + done, count, part);
            done += count;
        }
    }

    /// Lanes `at` on of a run become the units of a source. The run's words are own there.
    pub fn copy_lanes(&mut self, source: &UnitSource, n: u32, to: Run, at: u32)
        requires shows { ShowsSource (view_in self.old) source.now }
        requires count { length (listed_in self.old source.now) ≡ n }
        requires short { at + n ≤ MAX }
        requires own { (o : ℕ) → at ≤ o → o < at + n
            → HasKey (view_in self.old).own_words (to.start + o / lane_count to.wide) }
        requires fits { to.wide ≡ false → (k : ℕ) → k < n
            → slice_index (listed_in self.old source.now) k < 256 }
        ensures writes { MovesView WritesOwnWords self.old self.new }
        ensures below { KeepsBelow to.start (view_in self.old) (view_in self.new) }
        ensures above { KeepsFrom (to.start + words_over to.wide (at + n)) (view_in self.old)
            (view_in self.new) }
        ensures forms { KeepsForms (view_in self.old) (view_in self.new) }
        ensures filled { IsFilled to.wide to.start (own_word (view_in self.old).own_words)
            (own_word (view_in self.new).own_words) at n (slice_index (listed_in self.old source.now)) }
    {
        if let UnitSource::Piece(piece) = source {
            if piece.window.wide == to.wide {
                return self.copy_window(piece.window, to, at);
            }
        }
        let mut done = 0;
        while done < n {
            let count = left_in_word(to.wide, at + done).min(n - done);
            let part = self.word_of(source, to.wide, done, count);
            self.put_lanes(to, at + done, count, part);
            done += count;
        }
    }

    /// Lanes `at + n` on of a run become what the `n` before them hold. The run's words are own there.
    pub fn repeat_lanes(&mut self, to: Run, at: u32, n: u32)
        requires short { at + n + n ≤ MAX }
        requires own { (o : ℕ) → at ≤ o → o < at + n + n
            → HasKey (view_in self.old).own_words (to.start + o / lane_count to.wide) }
        ensures writes { MovesView WritesOwnWords self.old self.new }
        ensures below { KeepsBelow to.start (view_in self.old) (view_in self.new) }
        ensures above { KeepsFrom (to.start + words_over to.wide (at + n + n)) (view_in self.old)
            (view_in self.new) }
        ensures forms { KeepsForms (view_in self.old) (view_in self.new) }
        ensures filled { IsFilled to.wide to.start (own_word (view_in self.old).own_words)
            (own_word (view_in self.new).own_words) (at + n) n
            (λ k. lane_in (own_word (view_in self.old).own_words) to.wide to.start (at + k)) }
    {
        if to.wide {
            return self.repeat_by(Run { wide: true, ..to }, at, n);
        }
        self.repeat_by(Run { wide: false, ..to }, at, n);
    }

    // The same, inlined for each width of the lanes, so that there is a loop for each of the two.
    #[inline(always)]
    fn repeat_by(&mut self, to: Run, at: u32, n: u32)
        requires short { at + n + n ≤ MAX }
        requires own { (o : ℕ) → at ≤ o → o < at + n + n
            → HasKey (view_in self.old).own_words (to.start + o / lane_count to.wide) }
        ensures writes { MovesView WritesOwnWords self.old self.new }
        ensures below { KeepsBelow to.start (view_in self.old) (view_in self.new) }
        ensures above { KeepsFrom (to.start + words_over to.wide (at + n + n)) (view_in self.old)
            (view_in self.new) }
        ensures forms { KeepsForms (view_in self.old) (view_in self.new) }
        ensures filled { IsFilled to.wide to.start (own_word (view_in self.old).own_words)
            (own_word (view_in self.new).own_words) (at + n) n
            (λ k. lane_in (own_word (view_in self.old).own_words) to.wide to.start (at + k)) }
    {
        let mut done = 0;
        while done < n {
            let next = at + n + done;
            let count = left_in_word(to.wide, next).min(n - done);
            let part = self.lanes_in(to, at + done, count);
            self.put_lanes(to, next, count, part);
            done += count;
        }
    }
}

// How many lanes of a word there are from lane `o` of a run on.
#[inline(always)]
fn left_in_word(wide: bool, o: u32) -> u32
    ensures rest { o % lane_count wide + result ≡ lane_count wide }
    ensures some { 0 < result }
{
    if wide { 4 - o % 4 } else { 8 - o % 8 }
}
