// Comparing the units of two windows, a word at a time.
ghost use Rattle.std.specs.Prelude.{◌≡◌, ◌≢◌, ℕ, List, ◌+◌, ◌*◌, ◌/◌, ◌%◌, ◌<◌, ◌≤◌, ◌^◌, IsTrue, slice_index};
ghost use Rattle.std.specs.Bool.{MatchBool};
ghost use Rattle.js_units.specs.Lanes.{lane_count};
ghost use Rattle.heap_rule.specs.Layout.{content_at};
ghost use Rattle.heap_table.specs.Agents.{size_of};
ghost use Rattle.heap_read.specs.Frozen.{HasOther, HasUnits, IsLearned};
ghost use Rattle.heap_read.specs.Readers.{MovesView, view_in};
ghost use Rattle.heap_read.specs.Reads.{KeepsForms, OnlyLoads};
ghost use Rattle.heap_read.specs.Shifted.{BeginsWord};
ghost use Rattle.heap_read.specs.Windows.{IsFrozenWindow, IsWindow};
ghost use Rattle.heap_read.specs.Written.{HasAt, held_unit};

use crate::heap_ref::HeapRef;
use crate::reader::Reader;
use crate::source::HeldWord;
use crate::string::Window;
use js_units::{lanes, word_and_lane};

impl<H: HeapRef> Reader<H> {
    /// Whether the lanes of the window `b` are the units of the window `a`, which is as long. A word of
    /// each is loaded in turn, and both are compared as words where their lanes lie alike, else lane by
    /// lane. Nothing need be known of the units of `b`.
    pub fn same_units(&mut self, a: Window, b: Window) -> bool
        requires window { (us : List ℕ) × IsWindow (view_in self.old) a us }
        requires frozen { IsFrozenWindow (view_in self.old) b }
        requires long { a.len ≡ b.len }
        requires learned { IsLearned (view_in self.old) }
        ensures reads { MovesView OnlyLoads self.old self.new }
        ensures forms { KeepsForms (view_in self.old) (view_in self.new) }
        ensures learned { IsLearned (view_in self.new) }
        ensures same { (us : List ℕ) → IsWindow (view_in self.old) a us
            → MatchBool result (HasUnits (view_in self.new) b us) (HasOther (view_in self.new) b us) }
    {
        let mut i = 0;
        while i < a.len {
            let left = self.hold_in(a, i);
            let right = self.hold_in(b, i);
            let count = left.count_from(i).min(right.count_from(i));
            if !has_same_units(&left, &right, i, count) {
                return false;
            }
            i += count;
        }
        true
    }

    /// The least place below `most` at which two windows have different units, or `most` where there is
    /// none. Words that are the same are passed by one comparison of both.
    pub fn first_other(&mut self, a: Window, b: Window, most: u32) -> u32
        requires left { (us : List ℕ) × IsWindow (view_in self.old) a us }
        requires right { (vs : List ℕ) × IsWindow (view_in self.old) b vs }
        requires within { (most ≤ a.len) × (most ≤ b.len) }
        ensures reads { MovesView OnlyLoads self.old self.new }
        ensures forms { KeepsForms (view_in self.old) (view_in self.new) }
        ensures most { result ≤ most }
        ensures same { (us vs : List ℕ) → IsWindow (view_in self.old) a us
            → IsWindow (view_in self.old) b vs
            → (k : ℕ) → k < result → slice_index us k ≡ slice_index vs k }
        ensures other { (us vs : List ℕ) → IsWindow (view_in self.old) a us
            → IsWindow (view_in self.old) b vs
            → result < most → slice_index us result ≢ slice_index vs result }
    {
        let mut i = self.same_words(a, b, most);
        while i < most {
            let left = self.unit_in(a, i);
            let right = self.unit_in(b, i);
            if left != right {
                return i;
            }
            i += 1;
        }
        i
    }

    // How many units at the front of two windows are in words that are the same, up to `most`. Where one
    // doesn't begin with a word, or the lanes of the two are not as wide, none is.
    fn same_words(&mut self, a: Window, b: Window, most: u32) -> u32
        requires left { (us : List ℕ) × IsWindow (view_in self.old) a us }
        requires right { (vs : List ℕ) × IsWindow (view_in self.old) b vs }
        requires within { (most ≤ a.len) × (most ≤ b.len) }
        ensures reads { MovesView OnlyLoads self.old self.new }
        ensures forms { KeepsForms (view_in self.old) (view_in self.new) }
        ensures most { result ≤ most }
        ensures same { (us vs : List ℕ) → IsWindow (view_in self.old) a us
            → IsWindow (view_in self.old) b vs
            → (k : ℕ) → k < result → slice_index us k ≡ slice_index vs k }
    {
        let (_, left) = word_and_lane(a.wide, a.offset);
        let (_, right) = word_and_lane(b.wide, b.offset);
        if a.wide != b.wide || left > 0 || right > 0 {
            return 0;
        }
        if a.wide {
            return self.same_lanes(Window { wide: true, ..a }, Window { wide: true, ..b }, most);
        }
        self.same_lanes(
            Window { wide: false, ..a },
            Window { wide: false, ..b },
            most,
        )
    }

    // The same of windows that begin with a word and whose lanes are as wide, inlined for each width.
    #[inline(always)]
    fn same_lanes(&mut self, a: Window, b: Window, most: u32) -> u32
        requires left { (us : List ℕ) × IsWindow (view_in self.old) a us }
        requires right { (vs : List ℕ) × IsWindow (view_in self.old) b vs }
        requires within { (most ≤ a.len) × (most ≤ b.len) }
        requires alike { a.wide ≡ b.wide }
        requires lowest { (a.offset % lane_count a.wide ≡ 0) × (b.offset % lane_count b.wide ≡ 0) }
        ensures reads { MovesView OnlyLoads self.old self.new }
        ensures forms { KeepsForms (view_in self.old) (view_in self.new) }
        ensures most { result ≤ most }
        ensures same { (us vs : List ℕ) → IsWindow (view_in self.old) a us
            → IsWindow (view_in self.old) b vs
            → (k : ℕ) → k < result → slice_index us k ≡ slice_index vs k }
    {
        if most == 0 {
            return 0;
        }
        let first = self.heap.heap().first_content();
        let size = lanes(a.wide);
        let (left_number, _) = word_and_lane(a.wide, a.offset);
        let (right_number, _) = word_and_lane(b.wide, b.offset);
        let mut left_at = a.start + left_number;
        let mut right_at = b.start + right_number;
        let mut i = 0;
        while i < most {
            if self.same_four(a, b, i, most, first, left_at, right_at) {
                i += 4 * size;
                left_at += 4;
                right_at += 4;
                continue;
            }
            if !self.same_word(a, b, i, first, left_at, right_at) {
                return i;
            }
            i += size;
            left_at += 1;
            right_at += 1;
        }
        most
    }

    // Whether there are four more words of units below place `most`, and they are the same in two windows. In
    // both unit `i` is the first one of a content word, `left` and `right`.
    #[inline(always)]
    fn same_four(
        &mut self,
        a: Window,
        b: Window,
        i: u32,
        most: u32,
        first: usize,
        left: u32,
        right: u32,
    ) -> bool
        requires left { (us : List ℕ) × IsWindow (view_in self.old) a us }
        requires right { (vs : List ℕ) × IsWindow (view_in self.old) b vs }
        requires within { (i < most) × (most ≤ a.len) × (most ≤ b.len) }
        requires alike { a.wide ≡ b.wide }
        requires first { first ≡ content_at (size_of (H.reached self.old.heap)) 0 }
        requires places { BeginsWord a i left × BeginsWord b i right }
        ensures reads { MovesView OnlyLoads self.old self.new }
        ensures forms { KeepsForms (view_in self.old) (view_in self.new) }
        ensures within { IsTrue result → i + 4 * lane_count a.wide ≤ most }
        ensures same { IsTrue result → (us vs : List ℕ) → IsWindow (view_in self.old) a us
            → IsWindow (view_in self.old) b vs
            → (k : ℕ) → k < 4 * lane_count a.wide → slice_index us (i + k) ≡ slice_index vs (i + k) }
    {
        let size = lanes(a.wide);
        if most - i < 4 * size {
            return false;
        }
        if !self.same_word(a, b, i, first, left, right) {
            return false;
        }
        if !self.same_word(a, b, i + size, first, left + 1, right + 1) {
            return false;
        }
        if !self.same_word(a, b, i + 2 * size, first, left + 2, right + 2) {
            return false;
        }
        self.same_word(a, b, i + 3 * size, first, left + 3, right + 3)
    }

    // The same of one word, of which the windows may have fewer units than it has lanes.
    #[inline(always)]
    fn same_word(
        &mut self,
        a: Window,
        b: Window,
        i: u32,
        first: usize,
        left: u32,
        right: u32,
    ) -> bool
        requires left { (us : List ℕ) × IsWindow (view_in self.old) a us }
        requires right { (vs : List ℕ) × IsWindow (view_in self.old) b vs }
        requires within { (i < a.len) × (i < b.len) }
        requires alike { a.wide ≡ b.wide }
        requires first { first ≡ content_at (size_of (H.reached self.old.heap)) 0 }
        requires places { BeginsWord a i left × BeginsWord b i right }
        ensures reads { MovesView OnlyLoads self.old self.new }
        ensures forms { KeepsForms (view_in self.old) (view_in self.new) }
        ensures same { IsTrue result → (us vs : List ℕ) → IsWindow (view_in self.old) a us
            → IsWindow (view_in self.old) b vs → (k : ℕ) → k < lane_count a.wide → i + k < a.len
            → i + k < b.len → slice_index us (i + k) ≡ slice_index vs (i + k) }
    {
        let one = self.word_from(first, left, a, i);
        let other = self.word_from(first, right, b, i);
        one == other
    }
}

// Whether two words hold the same `count` units from number `i` on.
fn has_same_units(left: &HeldWord, right: &HeldWord, i: u32, count: u32) -> bool
    requires left { HasAt left.now i count }
    requires right { HasAt right.now i count }
    requires short { i + count < 2 ^ 32 }
    ensures { MatchBool result
        ((k : ℕ) → k < count → held_unit left.now (i + k) ≡ held_unit right.now (i + k))
        ((k : ℕ) × (k < count) × (held_unit left.now (i + k) ≢ held_unit right.now (i + k))) }
{
    if left.is_alike(right, i) {
        return true;
    }
    for k in 0..count {
        if left.unit(i + k) != right.unit(i + k) {
            return false;
        }
    }
    true
}
