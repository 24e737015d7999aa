// A heap with the agent that reads it.
ghost use Rattle.std.specs.Prelude.{◌≡◌};
ghost use Rattle.heap_table.specs.Agents.{Belongs};

use crate::heap_ref::HeapRef;
use heap_table::{Agent, Heap};

/// A heap, and the agent by which one thread reads strings there. The agent is one of this heap.
#[derive(Drop)]
pub struct Reader<H: HeapRef> {
    pub heap: H,
    pub agent: Agent,
    pub ghost belongs: { Belongs agent (H.reached heap) },
}

impl<H: HeapRef> Reader<H> {
    /// A reader by an agent of this heap.
    pub fn new(heap: H, agent: Agent) -> Reader<H>
        requires { Belongs agent (H.reached heap) }
        ensures heap { result.heap ≡ heap }
        ensures agent { result.agent ≡ agent }
    {
        Reader { heap, agent }
    }

    /// Its heap.
    pub fn heap(&self) -> &Heap
        ensures { result.now ≡ H.reached self.now.heap }
    {
        self.heap.heap()
    }

    /// Its agent, to look at.
    pub fn agent(&self) -> &Agent
        ensures { result.now ≡ self.now.agent }
    {
        &self.agent
    }

    /// Its agent, which is one of its heap.
    pub fn into_agent(self) -> Agent
    where
        H: Drop,
        ensures agent { result ≡ self.agent }
        ensures belongs { Belongs result (H.reached self.heap) }
    {
        let Reader { agent, .. } = self;
        agent
    }
}
