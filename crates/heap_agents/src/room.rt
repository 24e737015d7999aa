// What is used of a heap while its agents use it.
ghost use Rattle.std.specs.Prelude.{◌≡◌};
ghost use Rattle.heap_rule.specs.Claims.{loaded_counter};
ghost use Rattle.heap_rule.specs.declared.size.Counter.TheVariants as counter;
ghost use Rattle.heap_rule.specs.Layout.{IsLawfulSize};
ghost use Rattle.heap_table.specs.Agents.{size_of, view_of};
ghost use Rattle.heap_table.specs.Plays.{FoundCounter};
ghost use Rattle.heap_text.specs.Keeping.{KeepsText};
ghost use Rattle.heap_agents.specs.Held.{IsHeld};
ghost use Rattle.heap_agents.specs.Room.{IsGauged};
ghost use Rattle.heap_agents.specs.Shared.{heap_of};

use crate::held::Held;
use heap_read::HeapRef;
use heap_rule::HeapSize;
use heap_table::Heap;
use heap_text::Text;
use std::alloc::Global;
use std::sync::Arc;

/// What is used of a heap, as an agent saw it: the ids and the content words that all agents had
/// claimed when their counters were loaded, the sizes of the heap, and how many strings the agent
/// knows that are interned, each of which has a slot of its own.
#[derive(Clone, Copy)]
pub struct Room {
    pub ids: u32,
    pub words: u32,
    pub size: HeapSize,
    pub seen_slots: u32,
}

// Both counters of a text's heap, by a load of each, and its sizes.
fn look(text: &mut Text<Arc<Heap, Global>>) -> (u32, u32, HeapSize)
    ensures kept { KeepsText text.old text.new }
    ensures view { view_of text.new.reader.agent ≡ loaded_counter
        (loaded_counter (view_of text.old.reader.agent) counter.Ids result.0) counter.Words result.1 }
    ensures ids { FoundCounter (view_of text.old.reader.agent) counter.Ids result.0 }
    ensures words { FoundCounter (loaded_counter (view_of text.old.reader.agent) counter.Ids result.0)
        counter.Words result.1 }
    ensures size { result.2 ≡ size_of (heap_of text.old) }
    ensures lawful { IsLawfulSize result.2 }
{
    let size = text.reader.heap().size();
    let reader = &mut text.reader;
    let (ids, words) = reader.agent.counters(reader.heap.heap());
    (ids, words, size)
}

impl Held {
    /// What is used of the heap at this moment, for any agent, while others use it. It loads both
    /// counters, and goes once over the marks of the agent.
    pub fn room(&mut self) -> Room
        requires { IsHeld self.old }
        ensures { IsGauged self.old self.new result }
    {
        let (ids, words, size) = match &mut self.text {
            Some(text) => look(text),
            None => unreachable!(),
        };
        Room {
            ids,
            words,
            size,
            seen_slots: self.interned.count(size.ids),
        }
    }
}
