// Reading a string: its length, its window, its units.
ghost use Rattle.std.specs.Prelude.{◌≡◌, ℕ, List, ◌+◌, ◌*◌, ◌/◌, ◌%◌, ◌≤◌, ◌<◌, slice_index, length};
ghost use Rattle.js_units.specs.Lanes.{words_over};
ghost use Rattle.heap_rule.specs.Contents.{lane_in};
ghost use Rattle.heap_rule.specs.Maps.{Has, HasKey};
ghost use Rattle.heap_rule.specs.Views.{IsSeenSettled, shown_word};
ghost use Rattle.heap_read.specs.Readers.{MovesView, view_in};
ghost use Rattle.heap_read.specs.Reads.{KeepsForms, OnlyLoads};
ghost use Rattle.heap_read.specs.Sides.{LoadsFewForms};
ghost use Rattle.heap_read.specs.Windows.{IsFrozenWindow, IsWindow, ShowsAll};

use crate::heap_ref::HeapRef;
use crate::reader::Reader;
use crate::string::{JsStr, Window};
use js_units::lane;

impl<H: HeapRef> Reader<H> {
    /// The length of a string, in units.
    pub fn len(&mut self, s: JsStr) -> u32
        requires known { HasKey (view_in self.old).units s.id }
        ensures reads { MovesView OnlyLoads self.old self.new }
        ensures forms { KeepsForms (view_in self.old) (view_in self.new) }
        ensures length { (us : List ℕ) → Has (view_in self.old).units s.id us → result ≡ length us }
    {
        self.agent.load_length(self.heap.heap(), s.id)
    }

    /// A window on the units of a settled string, by at most three loads of a form.
    #[inline(always)]
    pub fn window(&mut self, s: JsStr) -> Window
        requires known { HasKey (view_in self.old).units s.id }
        requires settled { IsSeenSettled (view_in self.old) s.id }
        ensures reads { MovesView OnlyLoads self.old self.new }
        ensures shows { ShowsAll (view_in self.old) (view_in self.new) s.id result }
        ensures frozen { IsFrozenWindow (view_in self.new) result }
        ensures few { LoadsFewForms (view_in self.old) (view_in self.new) 3 }
    {
        self.window_on(s)
    }

    /// Unit `i` of a window, by one load: lane `i` of the words that the window lies over.
    pub fn unit_in(&mut self, w: Window, i: u32) -> u16
        requires frozen { IsFrozenWindow (view_in self.old) w }
        requires within { i < w.len }
        ensures reads { MovesView OnlyLoads self.old self.new }
        ensures forms { KeepsForms (view_in self.old) (view_in self.new) }
        ensures lane { result ≡ lane_in (shown_word (view_in self.new)) w.wide w.start (w.offset + i) }
        ensures unit { (us : List ℕ) → IsWindow (view_in self.old) w us → result ≡ slice_index us i }
    {
        let place = w.offset + i;
        if w.wide {
            let word = self.agent.load_word(self.heap.heap(), w.start + place / 4);
            lane(word, true, place % 4)
        } else {
            let word = self.agent.load_word(self.heap.heap(), w.start + place / 8);
            lane(word, false, place % 8)
        }
    }

    /// Unit `i` of a settled string, by at most three loads of a form.
    pub fn unit_at(&mut self, s: JsStr, i: u32) -> u16
        requires settled { IsSeenSettled (view_in self.old) s.id }
        requires within { (us : List ℕ) × Has (view_in self.old).units s.id us × (i < length us) }
        ensures reads { MovesView OnlyLoads self.old self.new }
        ensures unit { (us : List ℕ) → Has (view_in self.old).units s.id us → result ≡ slice_index us i }
        ensures few { LoadsFewForms (view_in self.old) (view_in self.new) 3 }
    {
        let window = self.window(s);
        self.unit_in(window, i)
    }
}
