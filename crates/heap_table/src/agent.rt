// An agent: its share, and how agents are split off.
ghost use Rattle.std.specs.Prelude.{◌≡◌, ℕ, ◌+◌, ◌++◌, ◌≤◌, ◌<◌};
ghost use Rattle.heap_table.specs.Agents.{Belongs, share_of, view_of};
ghost use Rattle.heap_table.specs.Known.{HasAllOf, KeepsKnown};
ghost use Rattle.heap_table.specs.Plays.{FoundCounter};
ghost use Rattle.heap_rule.specs.Claims.{loaded_counter};
ghost use Rattle.heap_rule.specs.Views.{history};
ghost use Rattle.heap_rule.specs.Agents.{MayJoin, joined_view, left_after_split, noted, right_after_split};

use crate::heap::Heap;
use crate::rule::{ByNote, Looks, NotesShare, TakesOver};
use atomic_table::Seat;
use heap_rule::{Counter, View};

/// One user of a heap, which makes its steps from one thread at a time. It has a share of the
/// heap's number of agents, and owns the ids and content words that it claimed.
#[derive(Drop)]
pub struct Agent {
    pub(crate) seat: Seat<(), View>,
    pub(crate) share: u32,
}

impl Agent {
    /// How many agents it can become, itself counted.
    pub fn share(&self) -> u32
        ensures { result ≡ share_of self.now }
    {
        self.share
    }

    /// The ids and the content words that all agents of the heap had claimed, each when its
    /// counter was loaded: the ids first. Any agent may call it, while others claim.
    pub fn counters(&mut self, heap: &Heap) -> (u32, u32)
        requires { Belongs self.old heap.now }
        ensures belongs { Belongs self.new heap.now }
        ensures view { view_of self.new
            ≡ loaded_counter (loaded_counter (view_of self.old) Counter.Ids result.0) Counter.Words result.1 }
        ensures ids { FoundCounter (view_of self.old) Counter.Ids result.0 }
        ensures words { FoundCounter (loaded_counter (view_of self.old) Counter.Ids result.0) Counter.Words
            result.1 }
    {
        let ids = self.load_counter(heap, Counter::Ids);
        let words = self.load_counter(heap, Counter::Words);
        (ids, words)
    }

    /// The ids and the content words that were ever claimed, by loads of both counters. Whoever
    /// holds the whole share claimed them all.
    pub fn totals(&mut self, heap: &Heap) -> (u32, u32)
        requires belongs { Belongs self.old heap.now }
        requires whole { (view_of self.old).share ≡ (view_of self.old).agents }
        ensures belongs { Belongs self.new heap.now }
        ensures view { view_of self.new
            ≡ loaded_counter (loaded_counter (view_of self.old) Counter.Ids result.0) Counter.Words result.1 }
        ensures used { (result.0 ≡ (view_of self.old).used.ids) × (result.1 ≡ (view_of self.old).used.words) }
    {
        self.counters(heap)
    }

    // The share to give goes into the view, by a compare-exchange of a counter from a number to
    // itself.
    fn note(&mut self, heap: &Heap, give: u32)
        requires { Belongs self.old heap.now }
        ensures belongs { Belongs self.new heap.now }
        ensures share { self.new.share ≡ self.old.share }
        ensures view { view_of self.new ≡ noted (view_of self.old) give }
    {
        let same = u64::from(give);
        heap.table
            .shared
            .compare_exchange::<NotesShare>(&mut self.seat, 0, same, same);
    }

    /// A new agent with a part of the share, which knows all that this one knows and has used
    /// nothing.
    pub fn split(&mut self, heap: &Heap, give: u32) -> Agent
        requires belongs { Belongs self.old heap.now }
        requires some { 1 ≤ give }
        requires less { give < share_of self.old }
        ensures left { view_of self.new ≡ left_after_split (view_of self.old) give }
        ensures right { view_of result ≡ right_after_split (view_of self.old) give }
        ensures shares { (share_of self.new + give ≡ share_of self.old) × (share_of result ≡ give) }
        ensures belongs { Belongs self.new heap.now × Belongs result heap.now }
    {
        self.note(heap, give);
        let seat = heap.table.shared.split_seat::<ByNote>(&mut self.seat);
        self.share -= give;
        Agent { seat, share: give }
    }

    /// Takes over what another agent owns, used and knows, with its share and, at the end of the
    /// history, the calls that it made since it was split off. It was split off with calls that
    /// this agent knows by now, among which are those that this agent was split off with.
    /// Afterwards this agent knows and has what both knew and had.
    pub fn join(&mut self, heap: &Heap, other: Agent)
        requires belongs { Belongs self.old heap.now × Belongs other heap.now }
        requires may { MayJoin (view_of self.old) (view_of other) }
        ensures view { view_of self.new ≡ joined_view (view_of self.old) (view_of other) }
        ensures known { KeepsKnown (view_of self.old) (view_of self.new) }
        ensures known_of_other { KeepsKnown (view_of other) (view_of self.new) }
        ensures all { HasAllOf (view_of self.old) (view_of self.new) }
        ensures all_of_other { HasAllOf (view_of other) (view_of self.new) }
        ensures history { history (view_of self.new) ≡ history (view_of self.old) ++ (view_of other).mine }
        ensures share { share_of self.new ≡ share_of self.old + share_of other }
        ensures belongs { Belongs self.new heap.now }
    {
        let Agent { seat, share } = other;
        heap.table
            .shared
            .join_seat::<TakesOver>(&mut self.seat, seat);
        heap.table.shared.load::<Looks>(&mut self.seat, 0);
        self.share += share;
    }
}
