// Reading a string: its length, its window, its units.
ghost use Rattle.std.specs.Prelude.{◌≡◌, ℕ, List, ◌+◌, ◌%◌, ◌≤◌, ◌<◌, length, slice_index, slice_range};
ghost use Rattle.js_units.specs.Lanes.{lane_count, words_over};
ghost use Rattle.heap_rule.specs.Contents.{lane_in};
ghost use Rattle.heap_rule.specs.Maps.{Has, HasKey};
ghost use Rattle.heap_rule.specs.Views.{IsSeenSettled, shown_word};
ghost use Rattle.heap_table.specs.Agents.{view_of};
ghost use Rattle.heap_read.specs.Reads.{KeepsForms, OnlyLoads};
ghost use Rattle.heap_read.specs.Sides.{LoadsFewForms};
ghost use Rattle.js_units.specs.Units.{IsFirstUnit};
ghost use Rattle.heap_read.specs.Windows.{IsFrozenWindow, IsWindow};
ghost use Rattle.heap_read.specs.Written.{ShowsFrom};
ghost use Rattle.heap_text.specs.Keeping.{KeepsText};

use crate::text::Text;
use heap_read::{HeapRef, JsStr, Window};

impl<H: HeapRef> Text<H> {
    /// The length of a string, in units.
    pub fn len(&mut self, s: JsStr) -> u32
        requires known { HasKey (view_of self.old.reader.agent).units s.id }
        ensures kept { KeepsText self.old self.new }
        ensures reads { OnlyLoads (view_of self.old.reader.agent) (view_of self.new.reader.agent) }
        ensures forms { KeepsForms (view_of self.old.reader.agent) (view_of self.new.reader.agent) }
        ensures length { (us : List ℕ) → Has (view_of self.old.reader.agent).units s.id us
            → result ≡ length us }
    {
        self.reader.len(s)
    }

    /// A window on the units of a settled string, by at most three loads of a form.
    #[inline(always)]
    pub fn window(&mut self, s: JsStr) -> Window
        requires known { HasKey (view_of self.old.reader.agent).units s.id }
        requires settled { IsSeenSettled (view_of self.old.reader.agent) s.id }
        ensures kept { KeepsText self.old self.new }
        ensures reads { OnlyLoads (view_of self.old.reader.agent) (view_of self.new.reader.agent) }
        ensures shows { (us : List ℕ) → Has (view_of self.old.reader.agent).units s.id us
            → IsWindow (view_of self.new.reader.agent) result us × (result.len ≡ length us) }
        ensures frozen { IsFrozenWindow (view_of self.new.reader.agent) result }
        ensures few { LoadsFewForms (view_of self.old.reader.agent) (view_of self.new.reader.agent) 3 }
    {
        self.reader.window(s)
    }

    /// Unit `i` of a window, by one load: lane `i` of the words that the window lies over.
    pub fn unit_in(&mut self, w: Window, i: u32) -> u16
        requires frozen { IsFrozenWindow (view_of self.old.reader.agent) w }
        requires within { i < w.len }
        ensures kept { KeepsText self.old self.new }
        ensures reads { OnlyLoads (view_of self.old.reader.agent) (view_of self.new.reader.agent) }
        ensures forms { KeepsForms (view_of self.old.reader.agent) (view_of self.new.reader.agent) }
        ensures lane { result ≡ lane_in (shown_word (view_of self.new.reader.agent)) w.wide w.start
            (w.offset + i) }
        ensures unit { (us : List ℕ) → IsWindow (view_of self.old.reader.agent) w us
            → result ≡ slice_index us i }
    {
        self.reader.unit_in(w, i)
    }

    /// Unit `i` of a settled string, by at most three loads of a form.
    pub fn unit_at(&mut self, s: JsStr, i: u32) -> u16
        requires settled { IsSeenSettled (view_of self.old.reader.agent) s.id }
        requires within { (us : List ℕ) × Has (view_of self.old.reader.agent).units s.id us
            × (i < length us) }
        ensures kept { KeepsText self.old self.new }
        ensures reads { OnlyLoads (view_of self.old.reader.agent) (view_of self.new.reader.agent) }
        ensures unit { (us : List ℕ) → Has (view_of self.old.reader.agent).units s.id us
            → result ≡ slice_index us i }
        ensures few { LoadsFewForms (view_of self.old.reader.agent) (view_of self.new.reader.agent) 3 }
    {
        self.reader.unit_at(s, i)
    }

    /// Copies the units of a window from place `from` on, as many as there is room for.
    pub fn read_in(&mut self, w: Window, from: u32, into: &mut [u16])
        requires window { (us : List ℕ) × IsWindow (view_of self.old.reader.agent) w us }
        requires within { from + length into.old ≤ w.len }
        ensures kept { KeepsText self.old self.new }
        ensures reads { OnlyLoads (view_of self.old.reader.agent) (view_of self.new.reader.agent) }
        ensures forms { KeepsForms (view_of self.old.reader.agent) (view_of self.new.reader.agent) }
        ensures units { (us : List ℕ) → IsWindow (view_of self.old.reader.agent) w us
            → into.new ≡ slice_range us from (from + length into.old) }
    {
        self.reader.units_into(w, from, into)
    }

    /// Copies `count` content words of a window, from number `at` on, to the front of `into`.
    pub fn words_in(&mut self, w: Window, at: u32, count: u32, into: &mut [u64])
        requires window { (us : List ℕ) × IsWindow (view_of self.old.reader.agent) w us }
        requires within { 0 < count
            → (0 < w.len) × (at + count ≤ words_over w.wide (w.offset % lane_count w.wide + w.len)) }
        requires room { count ≤ length into.old }
        ensures kept { KeepsText self.old self.new }
        ensures reads { OnlyLoads (view_of self.old.reader.agent) (view_of self.new.reader.agent) }
        ensures forms { KeepsForms (view_of self.old.reader.agent) (view_of self.new.reader.agent) }
        ensures rest { (k : ℕ) → count ≤ k → slice_index into.new k ≡ slice_index into.old k }
        ensures words { (us : List ℕ) → IsWindow (view_of self.old.reader.agent) w us
            → ShowsFrom w.wide (w.offset % lane_count w.wide) us at count into.new }
    {
        self.reader.words_into(w, at, count, into)
    }

    /// The least place from `from` on whose unit is `unit`.
    pub fn find_in(&mut self, w: Window, unit: u16, from: u32) -> Option<u32>
        requires window { (us : List ℕ) × IsWindow (view_of self.old.reader.agent) w us }
        requires within { from ≤ w.len }
        ensures kept { KeepsText self.old self.new }
        ensures reads { OnlyLoads (view_of self.old.reader.agent) (view_of self.new.reader.agent) }
        ensures forms { KeepsForms (view_of self.old.reader.agent) (view_of self.new.reader.agent) }
        ensures least { (us : List ℕ) → IsWindow (view_of self.old.reader.agent) w us
            → IsFirstUnit us unit from result }
    {
        self.reader.find_unit(w, unit, from)
    }
}
