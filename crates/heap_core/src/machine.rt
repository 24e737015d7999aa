// The parts of a machine: how a view and a word are read and written.
ghost use Rattle.std.specs.Prelude.{◌≤◌};

use heap_rule::{HeapSize, View};
use std::alloc::Global;

/// The parts of a machine, over which each kind of event is a test and a step.
#[derive(Drop)]
pub(crate) struct Machine {
    pub(crate) size: HeapSize,
    pub(crate) agents: u32,
    pub(crate) words: Vec<u64>,
    pub(crate) views: Vec<View>,
    ghost few: { agents ≤ 64 },
}

impl Machine {
    ghost use Rattle.std.specs.Prelude.{◌≡◌, ◌<◌, length, slice_index, true, IfSome, IsNone};
    ghost use Rattle.heap_rule.specs.Sound.{At};
    ghost use Rattle.heap_core.specs.Core.{core_of};
    ghost use Rattle.heap_core.specs.Events.{HasNoHeap, LiveAt, view_at, looked, stored};

    /// No heap yet. It allocates nothing.
    pub(crate) fn new(alloc: Global) -> Machine
        ensures { HasNoHeap (core_of result) }
    {
        Machine {
            size: HeapSize {
                ids: 0,
                words: 0,
                slots: 0,
            },
            agents: 0,
            words: Vec::new(alloc),
            views: Vec::new(alloc),
        }
    }

    /// The allocator of the words and the views.
    pub(crate) fn alloc(&self) -> Global {
        *self.words.allocator()
    }

    /// The word at a place, 0 past the end.
    pub(crate) fn word(&self, place: usize) -> u64
        ensures { result ≡ slice_index self.now.words.items place }
    {
        match self.words.get(place) {
            Some(word) => *word,
            None => 0,
        }
    }

    /// The view with this number, where it is there and live.
    pub(crate) fn live(&self, view: u32) -> Option<&View>
        ensures some { IfSome result (λ v. At self.now.views.items view v.now × (v.now.live ≡ true)) }
        ensures none { IsNone result → LiveAt (core_of self.now) view (λ _. Unit {0}) → ⊥ }
    {
        match self.views.get(view as usize) {
            Some(v) => {
                if v.live {
                    return Some(v);
                }
                None
            }
            None => None,
        }
    }

    /// The view with this number.
    pub(crate) fn view(&self, view: u32) -> &View
        requires { view < length self.now.views.items }
        ensures { result.now ≡ view_at (core_of self.now) view }
    {
        &self.views[view as usize]
    }

    /// The view with this number becomes another one.
    pub(crate) fn look(&mut self, view: u32, seen: View)
        requires { view < length self.old.views.items }
        ensures { core_of self.new ≡ looked (core_of self.old) view seen }
    {
        self.views[view as usize] = seen;
    }

    /// A store of a word.
    pub(crate) fn store(&mut self, place: usize, word: u64)
        requires { place < length self.old.words.items }
        ensures { core_of self.new ≡ stored (core_of self.old) place word }
    {
        self.words[place] = word;
    }
}
