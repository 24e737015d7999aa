// The words of a heap in the end.
ghost use Rattle.std.specs.Prelude.{◌≡◌, length};
ghost use Rattle.std.specs.Slots.{slots_items, slots_len, IsFull};
ghost use Rattle.heap_rule.specs.Layout.{word_count};
ghost use Rattle.heap_table.specs.Agents.{Belongs, size_of, view_of};
ghost use Rattle.heap_table.specs.Closing.{IsClosed};

use crate::agent::Agent;
use crate::heap::Heap;
use atomic_table::Closed;
use std::alloc::Global;

impl Heap {
    /// The words, once no thread shares the heap any more, which is taken apart with one of its agents. They
    /// are those of a state that keeps the rule, in which the agent has its view.
    pub fn close(self, agent: Agent, words: &mut [u64])
        requires belongs { Belongs agent self }
        requires room { length words.old ≡ word_count (size_of self) }
        ensures { IsClosed (size_of self) (view_of agent) words.new }
    {
        let Heap { table, .. } = self;
        let Agent { seat, .. } = agent;
        let closed = table.close_with(seat);
        copy_words(&closed, words);
        closed.free();
    }
}

// Copies all words of a table.
fn copy_words(closed: &Closed<(), Global>, words: &mut [u64])
    requires full { IsFull closed.now.words }
    requires room { length words.old ≡ slots_len closed.now.words }
    ensures { words.new ≡ slots_items closed.now.words }
{
    for i in 0..words.len() {
        words[i] = closed.word(i);
    }
}
