// Claims on the two counters.
ghost use Rattle.std.specs.Prelude.{◌≡◌, ℕ, ◌+◌, ◌≤◌, ◌<◌, IfOk, IfErr};
ghost use Rattle.heap_rule.specs.Layout.{counter_value, end_of};
ghost use Rattle.heap_rule.specs.Maps.{HasKey};
ghost use Rattle.heap_rule.specs.Views.{MayUse};
ghost use Rattle.heap_rule.specs.Claims.{loaded_counter, MayClaimAtOnce, claimed, won_claim};
ghost use Rattle.heap_rule.specs.Kinds.{claims_of_ids, view_in_turn};
ghost use Rattle.heap_table.specs.Agents.{Belongs, view_of, size_of};
ghost use Rattle.heap_table.specs.Plays.{FoundCounter};
ghost use Rattle.heap_table.specs.Full.{IsFull};

use crate::agent::Agent;
use crate::heap::Heap;
use crate::rule::{Claims, LoadsCounter};
use heap_rule::Counter;

/// A counter that has no room: it was `at`, and `want` more pass `end`.
#[derive(Clone, Copy, Debug, PartialEq, Eq)]
pub struct CounterFull {
    pub at: u32,
    pub want: u32,
    pub end: u32,
}

impl Agent {
    // The counter at this moment.
    pub(crate) fn load_counter(&mut self, heap: &Heap, counter: Counter) -> u32
        requires { Belongs self.old heap.now }
        ensures view { view_of self.new ≡ loaded_counter (view_of self.old) counter result }
        ensures belongs { Belongs self.new heap.now }
        ensures found { FoundCounter (view_of self.old) counter result }
    {
        heap.table
            .shared
            .load::<LoadsCounter>(&mut self.seat, counter.place()) as u32
    }

    // One compare-exchange. It is won where it answers `at`. Of ids it is `want` claims of one id each, in
    // turn, with no other step between them (`laws.rt: every_play, claim_ids`).
    fn try_claim(&mut self, heap: &Heap, counter: Counter, at: u32, want: u32) -> u32
        requires belongs { Belongs self.old heap.now }
        requires may { MayClaimAtOnce (view_of self.old) counter at want }
        ensures view { view_of self.new ≡ claimed (view_of self.old) counter at want result }
        ensures belongs { Belongs self.new heap.now }
        ensures found { FoundCounter (view_of self.old) counter result }
    {
        let old = u64::from(at);
        let new = old + u64::from(want);
        heap.table
            .shared
            .compare_exchange::<Claims>(&mut self.seat, counter.place(), old, new) as u32
    }

    // A lost claim found a larger counter, so the room that is left falls.
    fn claim(&mut self, heap: &Heap, counter: Counter, want: u32) -> Result<u32, CounterFull>
        requires belongs { Belongs self.old heap.now }
        requires some { 1 ≤ want }
        ensures belongs { Belongs self.new heap.now }
        ensures ok { IfOk result
            (λ at. (view_of self.new ≡ won_claim (view_of self.old) counter at want)
            × FoundCounter (view_of self.old) counter at) }
        ensures room { IfOk result (λ at. at + want ≤ end_of (size_of heap.now) counter) }
        ensures low { counter_value (view_of self.old).low counter
            ≤ counter_value (view_of self.new).low counter }
        ensures err { IfErr result
            (λ f. (view_of self.new ≡ loaded_counter (view_of self.old) counter f.at)
            × IsFull f want (end_of (size_of heap.now) counter)) }
    {
        let end = heap.size.end(counter);
        let mut at = self.load_counter(heap, counter);
        'tries: loop {
            if u64::from(end) < u64::from(at) + u64::from(want) {
                return Err(CounterFull { at, want, end });
            }
            let found = self.try_claim(heap, counter, at, want);
            if found == at {
                return Ok(at);
            }
            at = found;
        }
    }

    /// The next id, now this agent's own. It is greater than every id that the agent knew
    /// or owned.
    /// Refused where the counter that was read last is at its end.
    pub fn claim_id(&mut self, heap: &Heap) -> Result<u32, CounterFull>
        requires { Belongs self.old heap.now }
        ensures belongs { Belongs self.new heap.now }
        ensures view { IfOk result (λ id. view_of self.new ≡ won_claim (view_of self.old) Counter.Ids id 1) }
        ensures room { IfOk result (λ id. id < (size_of heap.now).ids) }
        ensures low { (view_of self.old).low.ids ≤ (view_of self.new).low.ids }
        ensures above { IfOk result (λ id. (i : ℕ) → MayUse (view_of self.old) i → i < id) }
        ensures above_own { IfOk result (λ id. (i : ℕ) → HasKey (view_of self.old).own_ids i → i < id) }
        ensures refused { IfErr result
            (λ f. (view_of self.new ≡ loaded_counter (view_of self.old) Counter.Ids f.at)
            × IsFull f 1 (size_of heap.now).ids) }
    {
        self.claim(heap, Counter::Ids, 1)
    }

    /// The first of so many ids, at most `most`, and how many these are: all of them, the ones behind it, are now
    /// this agent's own, claimed by one compare-exchange. They are fewer than `most` only where no more
    /// are left, and greater than every id that the agent knew or owned. Refused where the counter that was
    /// read last is at its end.
    pub fn claim_ids(&mut self, heap: &Heap, most: u32) -> Result<(u32, u32), CounterFull>
        requires belongs { Belongs self.old heap.now }
        requires some { 1 ≤ most }
        ensures belongs { Belongs self.new heap.now }
        ensures view { IfOk result
            (λ r. view_of self.new ≡ won_claim (view_of self.old) Counter.Ids r.0 r.1) }
        ensures in_turn { IfOk result (λ r. view_of self.new
            ≡ view_in_turn (loaded_counter (view_of self.old) Counter.Ids r.0) (claims_of_ids r.0 r.1) r.0) }
        ensures count { IfOk result (λ r. (1 ≤ r.1) × (r.1 ≤ most)) }
        ensures rest { IfOk result (λ r. r.1 < most → r.0 + r.1 ≡ (size_of heap.now).ids) }
        ensures room { IfOk result (λ r. r.0 + r.1 ≤ (size_of heap.now).ids) }
        ensures low { (view_of self.old).low.ids ≤ (view_of self.new).low.ids }
        ensures above { IfOk result (λ r. (i : ℕ) → MayUse (view_of self.old) i → i < r.0) }
        ensures above_own { IfOk result (λ r. (i : ℕ) → HasKey (view_of self.old).own_ids i → i < r.0) }
        ensures refused { IfErr result
            (λ f. (view_of self.new ≡ loaded_counter (view_of self.old) Counter.Ids f.at)
            × IsFull f 1 (size_of heap.now).ids) }
    {
        let end = heap.size.end(Counter::Ids);
        let mut at = self.load_counter(heap, Counter::Ids);
        'tries: loop {
            if end <= at {
                return Err(CounterFull { at, want: 1, end });
            }
            let count = most.min(end - at);
            let found = self.try_claim(heap, Counter::Ids, at, count);
            if found == at {
                return Ok((at, count));
            }
            at = found;
        }
    }

    /// The first of `want` content words, which are now this agent's own. Refused where `want`
    /// more than the counter that was read last pass its end.
    pub fn claim_words(&mut self, heap: &Heap, want: u32) -> Result<u32, CounterFull>
        requires belongs { Belongs self.old heap.now }
        requires some { 1 ≤ want }
        ensures belongs { Belongs self.new heap.now }
        ensures view { IfOk result
            (λ at. view_of self.new ≡ won_claim (view_of self.old) Counter.Words at want) }
        ensures room { IfOk result (λ at. at + want ≤ (size_of heap.now).words) }
        ensures above_own { IfOk result (λ at. (c : ℕ) → HasKey (view_of self.old).own_words c → c < at) }
        ensures low { (view_of self.old).low.words ≤ (view_of self.new).low.words }
        ensures refused { IfErr result
            (λ f. (view_of self.new ≡ loaded_counter (view_of self.old) Counter.Words f.at)
            × IsFull f want (size_of heap.now).words) }
    {
        self.claim(heap, Counter::Words, want)
    }
}
