// The table of a heap, and its making.
ghost use Rattle.std.specs.Prelude.{◌≡◌, ℕ, ◌+◌, ◌*◌, ◌≤◌, ◌<◌, ◌^◌, ◌↔◌, [], IfOk, IsTrue, IsOk, Err};
ghost use Rattle.heap_rule.specs.Layout.{IsLawfulSize, content_at, word_count};
ghost use Rattle.heap_rule.specs.Agents.{first_view};
ghost use Rattle.heap_table.specs.MayMake.{MayMake};

use crate::agent::Agent;
use crate::rule::{HeapKey, HeapRule};
use atomic_table::Table;
use heap_rule::{HeapSize, View};
use std::alloc::Global;

/// Why no heap was made.
#[derive(Clone, Copy, Debug, PartialEq, Eq)]
pub enum MakeFault {
    /// A size is outside 1 to 2^29 - 1, the sizes add up to more than 2^29, or the number of
    /// agents is outside 1 to 64.
    Size,
    Memory,
}

/// The words of a heap. Threads share it by reference.
#[derive(Drop)]
pub struct Heap {
    pub(crate) table: Table<(), View, HeapKey, HeapRule, Global>,
    pub(crate) size: HeapSize,
    ghost counted: { table.shared.table_id.words ≡ word_count size },
    ghost sized: { table.shared.key.size ≡ size },
    ghost few: { table.shared.key.agents ≤ 64 },
    ghost no_slots: { table.shared.table_id.slots ≡ 0 },
    ghost lawful: { IsLawfulSize size },
}

impl Heap {
    ghost use Rattle.heap_table.specs.Agents.{Belongs, view_of, size_of};

    /// A heap whose words are all 0, and its first agent, which holds the whole share: the
    /// number of agents that the heap may ever have at once.
    pub fn make(alloc: Global, size: HeapSize, agents: u32) -> Result<(Heap, Agent), MakeFault>
        ensures view { IfOk result (λ r. view_of r.1 ≡ first_view size agents) }
        ensures belongs { IfOk result (λ r. Belongs r.1 r.0) }
        ensures size { IfOk result (λ r. size_of r.0 ≡ size) }
        ensures lawful { IsOk result → MayMake size agents }
        ensures refused { result ≡ Err MakeFault.Size → ¬ MayMake size agents }
    {
        if !may_make(size, agents) {
            return Err(MakeFault::Size);
        }
        let Ok(words) = vec![in alloc; 0u64; size.word_count()] else {
            return Err(MakeFault::Memory);
        };
        let key = HeapKey { size, agents };
        match Table::of_words(alloc, words.as_slice(), &key) {
            Ok((table, seat)) => Ok((
                Heap { table, size },
                Agent {
                    seat,
                    share: agents,
                },
            )),
            Err(_) => Err(MakeFault::Memory),
        }
    }

    /// The sizes that it was made with.
    pub fn size(&self) -> HeapSize
        ensures { result ≡ size_of self.now }
    {
        self.size
    }

    /// The place of its first content word, by which a loop loads others.
    pub fn first_content(&self) -> usize
        ensures { result ≡ content_at (size_of self.now) 0 }
    {
        self.size.content_place(0)
    }
}

fn may_make(size: HeapSize, agents: u32) -> bool
    ensures { IsTrue result ↔ MayMake size agents }
{
    size.is_lawful() && 1 <= agents && agents <= 64
}
