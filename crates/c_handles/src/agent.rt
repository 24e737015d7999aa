// What C holds of an agent.
ghost use Rattle.std.specs.Prelude.{◌≡◌, ◌↔◌, ◌<◌, IsTrue, None, Some};
ghost use Rattle.std.specs.Borrow.{sem};
ghost use Rattle.heap_rule.specs.Maps.{HasKey};
ghost use Rattle.heap_agents.specs.Held.{IsHeld};
ghost use Rattle.heap_agents.specs.Ready.{HasInterned, HasWhole, IsReady, HandleKnows, giver_in, handle_number, handle_view, size_in};
ghost use Rattle.c_handles.specs.Handles.{IsHandle};
ghost use Rattle.c_handles.specs.Lending.{LendsAgent};

use crate::handle::Boxed;
use heap_agents::Held;
use std::alloc::Global;

/// An agent of a heap, as C holds it: a pointer to a box that the handle owns, and whether there is one.
/// Where no agent was made yet, or it was given back, both are zero. C copies it as it moves it, and uses
/// one copy.
#[repr(C)]
#[derive(Drop)]
pub struct JsAgent {
    pub at: Boxed,
    pub live: u32,
}

impl JsAgent {
    /// The box, which leaves nothing here.
    pub fn take(&mut self, alloc: Global) -> Box<Held>
        requires { IsReady self.old.at.value }
        ensures held { IsHeld result.value }
        ensures taken { self.old.at.value ≡ Some result.value }
        ensures empty { self.new.at.value ≡ None }
        ensures live { self.new.live ≡ 0 }
    {
        self.live = 0;
        self.at.take(alloc)
    }

    /// Puts a box here, where nothing is.
    pub fn put(&mut self, b: Box<Held>)
        ensures there { self.new.at.value ≡ Some b.value }
        ensures live { self.new.live ≡ 1 }
    {
        self.at.put(b);
        self.live = 1;
    }

    /// The agent, lent. `live` is 1 from then on, as it is of a handle whose agent was put there; that one
    /// is only read, so threads whose handles share a line of the cache don't wait for each other.
    pub fn held(&mut self) -> &mut Held
        requires { IsReady self.old.at.value }
        ensures* writes_back { sem 𝓛 (LendsAgent self.entry result) }
        ensures value { self.old.at.value ≡ Some result.now }
        ensures held { IsHeld result.now }
    {
        if self.live != 1 {
            self.live = 1;
        }
        self.at.held()
    }

    /// Whether a handle has no agent.
    pub fn is_empty(&self) -> bool
        requires { IsHandle self.now }
        ensures empty { IsTrue result → self.now.at.value ≡ None }
        ensures ready { IsTrue result ↔ ¬ (IsReady self.now.at.value) }
    {
        self.live == 0
    }

    /// Whether a string is an answer of the string table that its agent knows.
    pub fn has_interned(&mut self, id: u32) -> bool
        requires { IsHandle self.old }
        ensures handle { IsHandle self.new }
        ensures same { self.new.at.value ≡ self.old.at.value }
        ensures interned { IsTrue result ↔ HasInterned self.old.at.value id }
    {
        if self.is_empty() {
            return false;
        }
        self.held().has_interned(id)
    }

    /// Whether its agent has the whole share.
    pub fn has_whole(&mut self) -> bool
        requires { IsHandle self.old }
        ensures handle { IsHandle self.new }
        ensures same { self.new.at.value ≡ self.old.at.value }
        ensures whole { IsTrue result ↔ HasWhole self.old.at.value }
        ensures ready { IsTrue result → IsReady self.new.at.value }
    {
        if self.is_empty() {
            return false;
        }
        self.held().has_whole()
    }

    /// Whether its heap has a slot with this number; false where there is no agent.
    pub fn has_slot(&mut self, slot: u32) -> bool
        requires { IsHandle self.old }
        ensures handle { IsHandle self.new }
        ensures same { self.new.at.value ≡ self.old.at.value }
        ensures inside { IsTrue result ↔ (slot < (size_in self.old.at.value).slots) }
        ensures ready { IsTrue result → IsReady self.new.at.value }
    {
        if self.is_empty() {
            return false;
        }
        slot < self.held().slots()
    }

    /// The number of its agent; 0 where there is none.
    pub fn number(&mut self) -> u64
        requires { IsHandle self.old }
        ensures handle { IsHandle self.new }
        ensures same { self.new.at.value ≡ self.old.at.value }
        ensures number { result ≡ handle_number self.old.at.value }
    {
        if self.is_empty() {
            return 0;
        }
        self.held().number()
    }

    /// The number of the agent that its agent was split off from; 0 where there is none.
    pub fn giver(&mut self) -> u64
        requires { IsHandle self.old }
        ensures handle { IsHandle self.new }
        ensures same { self.new.at.value ≡ self.old.at.value }
        ensures giver { result ≡ giver_in self.old.at.value }
    {
        if self.is_empty() {
            return 0;
        }
        self.held().giver()
    }

    /// Whether its agent may use a string.
    pub fn knows(&mut self, id: u32) -> bool
        requires { IsHandle self.old }
        ensures handle { IsHandle self.new }
        ensures same { self.new.at.value ≡ self.old.at.value }
        ensures known { IsTrue result ↔ HandleKnows self.old.at.value id }
        ensures ready { IsTrue result → IsReady self.new.at.value }
        ensures key { IsTrue result → HasKey (handle_view self.new.at.value).units id }
    {
        if self.is_empty() {
            return false;
        }
        self.held().knows(id)
    }
}

// A handle may be handed to another thread.
fn crosses(handle: JsAgent) -> JsAgent {
    sent(handle)
}

fn sent<T: Send>(x: T) -> T {
    x
}
