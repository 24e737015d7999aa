// A heap with the agent that makes and reads strings there.
ghost use Rattle.std.specs.Prelude.{◌≡◌, ◌≤◌};
ghost use Rattle.heap_rule.specs.Layout.{MAX};
ghost use Rattle.heap_table.specs.Agents.{Belongs};

use heap_read::{HeapRef, Reader};
use heap_table::Agent;

/// A heap with the agent by which one thread makes and reads strings on it, and the limit of length:
/// no two strings are joined to one of more units.
#[derive(Drop)]
pub struct Text<H: HeapRef> {
    pub reader: Reader<H>,
    pub limit: u32,
    pub ghost within: { limit ≤ MAX },
}

impl<H: HeapRef> Text<H> {
    /// The agent is one of this heap. The limit is at most 536,870,888, the greatest length of a
    /// string; no call changes it.
    pub fn new(heap: H, agent: Agent, limit: u32) -> Text<H>
        requires belongs { Belongs agent (H.reached heap) }
        requires most { limit ≤ MAX }
        ensures heap { result.reader.heap ≡ heap }
        ensures agent { result.reader.agent ≡ agent }
        ensures limit { result.limit ≡ limit }
        ensures belongs { Belongs result.reader.agent (H.reached result.reader.heap) }
    {
        let reader = Reader::new(heap, agent);
        Text { reader, limit }
    }
}
