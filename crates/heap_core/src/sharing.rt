// Making a heap, splitting and joining: the kinds of event by which agents come and go.
ghost use Rattle.heap_core.specs.Core.{core_of};
ghost use Rattle.heap_core.specs.Events.{IsCore, Enabled, Made};
ghost use Rattle.heap_core.specs.declared.event.Event.TheVariants as event;
ghost use Rattle.std.specs.Prelude.{◌↔◌, IsTrue};

use crate::machine::Machine;
use heap_core_views::agents;
use heap_rule::HeapSize;
use js_units::NoMemory;

impl Machine {
    /// Whether a heap may be made.
    pub(crate) fn may_make(&self, size: HeapSize, agents: u32) -> bool
        ensures { IsTrue result ↔ Enabled (core_of self.now) (event.Make size agents) }
    {
        if !self.views.is_empty() {
            return false;
        }
        if !size.is_lawful() {
            return false;
        }
        1 <= agents && agents <= 64
    }

    /// All words 0, and the view of the first agent.
    pub(crate) fn make(&mut self, size: HeapSize, agents: u32) -> Result<u64, NoMemory>
        requires { Enabled (core_of self.old) (event.Make size agents) }
        ensures { Made (core_of self.old) (event.Make size agents) (core_of self.new) result }
    {
        let alloc = self.alloc();
        let zeros = vec![in alloc; 0u64; size.word_count()]?;
        self.views.push(agents::first(alloc, size, agents))?;
        self.size = size;
        self.agents = agents;
        self.words = zeros;
        Ok(0)
    }

    /// Whether the live view may give that much of its share.
    pub(crate) fn may_split(&self, view: u32, give: u32) -> bool
        ensures { IsTrue result ↔ Enabled (core_of self.now) (event.Split view give) }
    {
        match self.live(view) {
            Some(v) => agents::may_split(v, give),
            None => false,
        }
    }

    /// A splitting: the new agent's view goes to the end.
    pub(crate) fn split(&mut self, view: u32, give: u32) -> Result<u64, NoMemory>
        requires core { IsCore (core_of self.old) }
        requires can { Enabled (core_of self.old) (event.Split view give) }
        ensures { Made (core_of self.old) (event.Split view give) (core_of self.new) result }
    {
        let right = agents::split_off(self.view(view), self.alloc(), give)?;
        self.views.push(right)?;
        agents::give(&mut self.views[view as usize], give);
        Ok(self.word(0))
    }

    /// Whether the one live view may take over the other one.
    pub(crate) fn may_join(&self, view: u32, other: u32) -> bool
        ensures { IsTrue result ↔ Enabled (core_of self.now) (event.Join view other) }
    {
        if view == other {
            return false;
        }
        match self.live(view) {
            Some(v) => match self.live(other) {
                Some(b) => agents::may_join(v, b),
                None => false,
            },
            None => false,
        }
    }

    /// A joining: the other agent is spent.
    pub(crate) fn join(&mut self, view: u32, other: u32) -> Result<u64, NoMemory>
        requires core { IsCore (core_of self.old) }
        requires can { Enabled (core_of self.old) (event.Join view other) }
        ensures { Made (core_of self.old) (event.Join view other) (core_of self.new) result }
    {
        let alloc = self.alloc();
        let joined = agents::joined(self.view(view), alloc, self.view(other))?;
        self.look(view, joined);
        self.look(other, agents::spent(alloc));
        Ok(self.word(0))
    }
}
