// Where the units of a new string come from.
ghost use Rattle.std.specs.Prelude.{◌≡◌, ℕ, List, ◌+◌, ◌-◌, ◌/◌, ◌%◌, ◌≤◌, ◌<◌, ◌↔◌, IsTrue, false, slice_index, length};
ghost use Rattle.js_units.specs.Lanes.{lane_count, lane_of};
ghost use Rattle.heap_rule.specs.Layout.{MAX};
ghost use Rattle.heap_read.specs.Frozen.{HoldsAll, IsWordHeld, IsLearned};
ghost use Rattle.heap_read.specs.Readers.{MovesView, view_in};
ghost use Rattle.heap_read.specs.Reads.{KeepsForms, OnlyLoads};
ghost use Rattle.heap_read.specs.Shifted.{HoldsLanes};
ghost use Rattle.heap_read.specs.Sources.{FitsLanes, ShowsSource, listed_in};
ghost use Rattle.heap_read.specs.Windows.{IsFrozenWindow, IsWindow};
ghost use Rattle.heap_read.specs.Written.{HasAt, HoldsUnits, held_unit};

use crate::heap_ref::HeapRef;
use crate::lanes::Run;
use crate::packing::lanes_of;
use crate::reader::Reader;
use crate::shifting::{lanes_at, narrowed, put_above, widened};
use crate::string::{JsStr, Window};
use js_units::{lane, lanes, word_and_lane};

/// A part of a string, from unit `from` on, with the window that shows it.
#[derive(Clone, Copy)]
pub struct Piece {
    pub of: JsStr,
    pub from: u32,
    pub window: Window,
}

/// The units of a slice, or of one or two parts of strings.
#[derive(Clone, Copy)]
pub enum UnitSource<'u> {
    Units(&'u [u16]),
    Piece(Piece),
    Pieces(Piece, Piece),
}

/// One word that was read of a source, so that its units are found with no further load: the
/// `count` units from number `from` on, the first in lane `lane`.
#[derive(Clone, Copy)]
pub struct HeldWord {
    pub word: u64,
    pub wide: bool,
    pub lane: u32,
    pub from: u32,
    pub count: u32,
}

impl HeldWord {
    /// No word: it shows no unit.
    pub fn none() -> HeldWord
        ensures { (us : List ℕ) → HoldsUnits us result }
    {
        HeldWord {
            word: 0,
            wide: false,
            lane: 0,
            from: 0,
            count: 0,
        }
    }

    /// Whether it has unit `i`.
    pub fn has(&self, i: u32) -> bool
        ensures { IsTrue result ↔ ((self.now.from ≤ i) × (i < self.now.from + self.now.count)) }
    {
        self.from <= i && i - self.from < self.count
    }

    /// Unit `i`, which it has.
    pub fn unit(&self, i: u32) -> u16
        requires has { (self.now.from ≤ i) × (i < self.now.from + self.now.count) }
        requires within { self.now.lane + self.now.count ≤ lane_count self.now.wide }
        ensures { result ≡ lane_of self.now.wide self.now.word (self.now.lane + (i - self.now.from)) }
    {
        lane(self.word, self.wide, self.lane + (i - self.from))
    }

    /// How many units it has from number `i` on, which it has.
    pub fn count_from(&self, i: u32) -> u32
        requires { (self.now.from ≤ i) × (i < self.now.from + self.now.count) }
        ensures { result ≡ self.now.count - (i - self.now.from) }
    {
        self.count - (i - self.from)
    }

    // The `count` units from number `i` on, which it has, as the lowest lanes of a word.
    pub(crate) fn part(&self, i: u32, count: u32, wide: bool) -> u64
        requires has { HasAt self.now i count }
        requires room { count ≤ lane_count wide }
        requires fits { wide ≡ false → (k : ℕ) → k < count → held_unit self.now (i + k) < 256 }
        ensures { HoldsLanes wide result count (λ k. held_unit self.now (i + k)) }
    {
        let lanes = lanes_at(self.word, self.wide, self.lane + (i - self.from), count);
        if self.wide == wide {
            return lanes;
        }
        if wide {
            return widened(lanes);
        }
        narrowed(lanes)
    }

    // Whether another word is the same, with unit `i` in the same lane.
    pub(crate) fn is_alike(&self, other: &HeldWord, i: u32) -> bool
        requires left { HasAt self.now i 0 }
        requires right { HasAt other.now i 0 }
        ensures { IsTrue result → (k : ℕ) → held_unit self.now (i + k) ≡ held_unit other.now (i + k) }
    {
        self.word == other.word
            && self.wide == other.wide
            && self.lane + (i - self.from) == other.lane + (i - other.from)
    }
}

impl<H: HeapRef> Reader<H> {
    /// The word with unit `i` of a window, by one load, and all units of the window that it shows.
    pub fn hold_in(&mut self, w: Window, i: u32) -> HeldWord
        requires frozen { IsFrozenWindow (view_in self.old) w }
        requires within { i < w.len }
        ensures reads { MovesView OnlyLoads self.old self.new }
        ensures forms { KeepsForms (view_in self.old) (view_in self.new) }
        ensures has { (result.from ≤ i) × (i < result.from + result.count) }
        ensures held { IsWordHeld (view_in self.new) w result }
        ensures all { HoldsAll w result }
        ensures holds { (us : List ℕ) → IsWindow (view_in self.old) w us → HoldsUnits us result }
        ensures learned { IsLearned (view_in self.new) }
        ensures wide { result.wide ≡ w.wide }
    {
        let lanes = lanes(w.wide);
        let place = w.offset + i;
        let (at, k) = word_and_lane(w.wide, place);
        let back = k.min(i);
        let word = self.agent.load_word(self.heap.heap(), w.start + at);
        HeldWord {
            word,
            wide: w.wide,
            lane: k - back,
            from: i - back,
            count: (lanes - (k - back)).min(w.len - (i - back)),
        }
    }

    // The word with this unit of a source.
    fn hold(&mut self, source: &UnitSource, i: u32) -> HeldWord
        requires shows { ShowsSource (view_in self.old) source.now }
        requires within { i < length (listed_in self.old source.now) }
        ensures reads { MovesView OnlyLoads self.old self.new }
        ensures forms { KeepsForms (view_in self.old) (view_in self.new) }
        ensures shows { ShowsSource (view_in self.new) source.now }
        ensures listed { listed_in self.new source.now ≡ listed_in self.old source.now }
        ensures has { (result.from ≤ i) × (i < result.from + result.count) }
        ensures holds { HoldsUnits (listed_in self.old source.now) result }
    {
        match source {
            UnitSource::Units(units) => HeldWord {
                word: u64::from(unit_of(units, i as usize)),
                wide: true,
                lane: 0,
                from: i,
                count: 1,
            },
            UnitSource::Piece(piece) => self.hold_in(piece.window, i),
            UnitSource::Pieces(front, back) => {
                let left = front.window.len;
                if i < left {
                    return self.hold_in(front.window, i);
                }
                let held = self.hold_in(back.window, i - left);
                HeldWord {
                    word: held.word,
                    wide: held.wide,
                    lane: held.lane,
                    from: left + held.from,
                    count: held.count,
                }
            }
        }
    }

    // The `count` units from number `i` on of a window, as lanes of one word of its width, by a load
    // for each word that they lie in.
    #[inline(always)]
    pub(crate) fn part_of(&mut self, w: Window, i: u32, count: u32) -> u64
        requires window { (us : List ℕ) × IsWindow (view_in self.old) w us }
        requires within { i + count ≤ w.len }
        requires room { count ≤ lane_count w.wide }
        ensures reads { MovesView OnlyLoads self.old self.new }
        ensures forms { KeepsForms (view_in self.old) (view_in self.new) }
        ensures word { (us : List ℕ) → IsWindow (view_in self.old) w us
            → HoldsLanes w.wide result count (λ k. slice_index us (i + k)) }
    {
        if count == 0 {
            return 0;
        }
        let run = Run {
            start: w.start,
            wide: w.wide,
        };
        self.lanes_in(run, w.offset + i, count)
    }

    // The `count` units from number `first` on, as lanes of one word, by a load for each word
    // that they lie in.
    pub(crate) fn word_of(&mut self, source: &UnitSource, wide: bool, first: u32, count: u32) -> u64
        requires shows { ShowsSource (view_in self.old) source.now }
        requires within { first + count ≤ length (listed_in self.old source.now) }
        requires short { length (listed_in self.old source.now) ≤ MAX }
        requires room { count ≤ lane_count wide }
        requires fits { FitsLanes wide (listed_in self.old source.now) }
        ensures reads { MovesView OnlyLoads self.old self.new }
        ensures forms { KeepsForms (view_in self.old) (view_in self.new) }
        ensures shows { ShowsSource (view_in self.new) source.now }
        ensures listed { listed_in self.new source.now ≡ listed_in self.old source.now }
        ensures word { HoldsLanes wide result count
            (λ k. slice_index (listed_in self.old source.now) (first + k)) }
    {
        if let UnitSource::Units(units) = source {
            return lanes_of(units, wide, first, count);
        }
        if let UnitSource::Piece(piece) = source {
            if piece.window.wide == wide {
                return self.part_of(piece.window, first, count);
            }
        }
        let mut word = 0;
        let mut done = 0;
        while done < count {
            let i = first + done;
            let held = self.hold(source, i);
            let more = held.count_from(i).min(count - done);
            let part = held.part(i, more, wide);
            word = put_above(word, part, wide, done);
            done += more;
        }
        word
    }
}

// The unit with this number.
pub(crate) fn unit_of(units: &[u16], i: usize) -> u16
    requires { i < length units.now }
    ensures fits { result < 65536 }
    ensures unit { result ≡ slice_index units.now i }
{
    units[i]
}
