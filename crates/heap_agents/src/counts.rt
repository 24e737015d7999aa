// What was used of a heap, the slots of its string table, and an agent's share of it.
ghost use Rattle.std.specs.Prelude.{◌≡◌, ◌↔◌, IsTrue};
ghost use Rattle.heap_rule.specs.declared.size.Counter.TheVariants as counter;
ghost use Rattle.heap_rule.specs.Claims.{loaded_counter};
ghost use Rattle.heap_rule.specs.Views.{history};
ghost use Rattle.heap_intern.specs.Counting.{different};
ghost use Rattle.heap_intern.specs.Goes.{LoadsAlone};
ghost use Rattle.heap_agents.specs.Held.{IsHeld, IsSame, KeepsMarks, held_size, share_by, view_by};

use crate::held::Held;
use heap_intern::count_interned;

impl Held {
    /// How many agents this one may become, itself counted.
    pub fn share(&self) -> u32
        requires { IsHeld self.now }
        ensures { result ≡ share_by self.now }
    {
        match &self.text {
            Some(text) => text.reader.agent.share(),
            None => unreachable!(),
        }
    }

    /// Whether this agent has the whole share.
    pub fn has_whole(&self) -> bool
        requires { IsHeld self.now }
        ensures { IsTrue result ↔ ((view_by self.now).share ≡ (view_by self.now).agents) }
    {
        self.share() == self.agents
    }

    /// The number of slots of its heap's string table.
    pub fn slots(&self) -> u32
        requires { IsHeld self.now }
        ensures { result ≡ (held_size self.now).slots }
    {
        match &self.text {
            Some(text) => text.reader.heap().size().slots,
            None => unreachable!(),
        }
    }

    /// The ids and the content words that were ever claimed, for an agent that has the whole share.
    pub fn totals(&mut self) -> (u32, u32)
        requires held { IsHeld self.old }
        requires whole { (view_by self.old).share ≡ (view_by self.old).agents }
        ensures held { IsHeld self.new }
        ensures same { IsSame self.old self.new }
        ensures marks { KeepsMarks self.old self.new }
        ensures view { view_by self.new
            ≡ loaded_counter (loaded_counter (view_by self.old) counter.Ids result.0) counter.Words
            result.1 }
        ensures used { (result.0 ≡ (view_by self.old).used.ids)
            × (result.1 ≡ (view_by self.old).used.words) }
    {
        match &mut self.text {
            Some(text) => text.totals(),
            None => unreachable!(),
        }
    }

    /// How many different lists of units were interned, for an agent that has the whole share.
    pub fn count_interned(&mut self) -> u32
        requires held { IsHeld self.old }
        requires whole { (view_by self.old).share ≡ (view_by self.old).agents }
        ensures held { IsHeld self.new }
        ensures same { IsSame self.old self.new }
        ensures marks { KeepsMarks self.old self.new }
        ensures looks { LoadsAlone (view_by self.old) (view_by self.new) }
        ensures count { result ≡ different (history (view_by self.old)) }
    {
        match &mut self.text {
            Some(text) => count_interned(&mut text.reader),
            None => unreachable!(),
        }
    }
}
