// Searching a window for one unit, a word at a time, and four words a turn where there are as many.
ghost use Rattle.std.specs.Prelude.{◌≡◌, ◌≢◌, ℕ, List, ◌+◌, ◌*◌, ◌≤◌, ◌<◌, IsTrue, false, true, slice_index};
ghost use Rattle.js_units.specs.Lanes.{lane_count};
ghost use Rattle.js_units.specs.Units.{IsFirstUnit};
ghost use Rattle.heap_rule.specs.Layout.{content_at};
ghost use Rattle.heap_table.specs.Agents.{size_of};
ghost use Rattle.heap_read.specs.Readers.{MovesView, view_in};
ghost use Rattle.heap_read.specs.Reads.{KeepsForms, OnlyLoads};
ghost use Rattle.heap_read.specs.Shifted.{BeginsWord};
ghost use Rattle.heap_read.specs.Windows.{IsWindow};

use crate::heap_ref::HeapRef;
use crate::reader::Reader;
use crate::string::Window;
use js_units::{first_from, lanes, word_and_lane};

impl<H: HeapRef> Reader<H> {
    /// The least place from `from` on in a window whose unit is `unit`.
    pub fn find_unit(&mut self, w: Window, unit: u16, from: u32) -> Option<u32>
        requires window { (us : List ℕ) × IsWindow (view_in self.old) w us }
        requires within { from ≤ w.len }
        ensures reads { MovesView OnlyLoads self.old self.new }
        ensures forms { KeepsForms (view_in self.old) (view_in self.new) }
        ensures least { (us : List ℕ) → IsWindow (view_in self.old) w us → IsFirstUnit us unit from result }
    {
        if w.wide {
            return self.find_lane(Window { wide: true, ..w }, unit, from);
        }
        self.find_lane(Window { wide: false, ..w }, unit, from)
    }

    // The same, inlined for each width of the lanes.
    #[inline(always)]
    fn find_lane(&mut self, w: Window, unit: u16, from: u32) -> Option<u32>
        requires window { (us : List ℕ) × IsWindow (view_in self.old) w us }
        requires within { from ≤ w.len }
        ensures reads { MovesView OnlyLoads self.old self.new }
        ensures forms { KeepsForms (view_in self.old) (view_in self.new) }
        ensures least { (us : List ℕ) → IsWindow (view_in self.old) w us → IsFirstUnit us unit from result }
    {
        let first = self.heap.heap().first_content();
        let size = lanes(w.wide);
        let mut i = self.pass_fours(w, unit, from);
        while i < w.len {
            let (number, lane) = word_and_lane(w.wide, w.offset + i);
            let word = self.word_from(first, w.start + number, w, i);
            if lane == 0 && w.len - i >= size {
                let at = first_from(word, w.wide, 0, unit);
                if at < size {
                    return Some(i + at);
                }
                i += size;
                continue;
            }
            let left = (size - lane).min(w.len - i);
            let at = first_from(word, w.wide, lane, unit);
            if at < left {
                return Some(i + at);
            }
            i = self.pass_fours(w, unit, i + left);
        }
        None
    }

    // Passes four words at a time that do not hold the unit, from place `from` on. Where that is not the place
    // of a lowest lane, it passes none.
    #[inline(always)]
    fn pass_fours(&mut self, w: Window, unit: u16, from: u32) -> u32
        requires window { (us : List ℕ) × IsWindow (view_in self.old) w us }
        requires within { from ≤ w.len }
        ensures reads { MovesView OnlyLoads self.old self.new }
        ensures forms { KeepsForms (view_in self.old) (view_in self.new) }
        ensures within { (from ≤ result) × (result ≤ w.len) }
        ensures none { (us : List ℕ) → IsWindow (view_in self.old) w us → (k : ℕ) → from ≤ k → k < result
            → slice_index us k ≢ unit }
    {
        let size = lanes(w.wide);
        if w.len - from < 4 * size {
            return from;
        }
        let (number, lane) = word_and_lane(w.wide, w.offset + from);
        if lane > 0 {
            return from;
        }
        let first = self.heap.heap().first_content();
        let mut at = w.start + number;
        let mut i = from;
        while w.len - i >= 4 * size {
            if !self.lacks_in_four(w, i, first, at, unit) {
                return i;
            }
            i += 4 * size;
            at += 4;
        }
        i
    }

    // Whether four words of a window do not hold the unit. Unit `i` is the first one of content word `at`.
    #[inline(always)]
    fn lacks_in_four(&mut self, w: Window, i: u32, first: usize, at: u32, unit: u16) -> bool
        requires window { (us : List ℕ) × IsWindow (view_in self.old) w us }
        requires within { i + 4 * lane_count w.wide ≤ w.len }
        requires first { first ≡ content_at (size_of (H.reached self.old.heap)) 0 }
        requires at { BeginsWord w i at }
        ensures reads { MovesView OnlyLoads self.old self.new }
        ensures forms { KeepsForms (view_in self.old) (view_in self.new) }
        ensures none { IsTrue result → (us : List ℕ) → IsWindow (view_in self.old) w us → (k : ℕ)
            → k < 4 * lane_count w.wide → slice_index us (i + k) ≢ unit }
    {
        let size = lanes(w.wide);
        if !self.lacks_in_word(w, i, first, at, unit) {
            return false;
        }
        if !self.lacks_in_word(w, i + size, first, at + 1, unit) {
            return false;
        }
        if !self.lacks_in_word(w, i + 2 * size, first, at + 2, unit) {
            return false;
        }
        self.lacks_in_word(w, i + 3 * size, first, at + 3, unit)
    }

    // The same of one word.
    #[inline(always)]
    fn lacks_in_word(&mut self, w: Window, i: u32, first: usize, at: u32, unit: u16) -> bool
        requires window { (us : List ℕ) × IsWindow (view_in self.old) w us }
        requires within { i + lane_count w.wide ≤ w.len }
        requires first { first ≡ content_at (size_of (H.reached self.old.heap)) 0 }
        requires at { BeginsWord w i at }
        ensures reads { MovesView OnlyLoads self.old self.new }
        ensures forms { KeepsForms (view_in self.old) (view_in self.new) }
        ensures none { IsTrue result → (us : List ℕ) → IsWindow (view_in self.old) w us → (k : ℕ)
            → k < lane_count w.wide → slice_index us (i + k) ≢ unit }
    {
        let word = self.word_from(first, at, w, i);
        first_from(word, w.wide, 0, unit) >= lanes(w.wide)
    }
}
