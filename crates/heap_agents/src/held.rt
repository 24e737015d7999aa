// An agent with what is kept at run time of the ids that it may use.
ghost use Rattle.std.specs.Prelude.{◌≡◌, ◌↔◌, ℕ, List, Contains, IsTrue};
ghost use Rattle.heap_rule.specs.Maps.{HasKey};
ghost use Rattle.heap_rule.specs.Views.{history};
ghost use Rattle.heap_agents.specs.Held.{IsHeld, KeepsMarks, MarksOnly, MarksOnlyKey, view_by};
ghost use Rattle.heap_ids.specs.Sets.{IsIn};

use heap_ids::IdSet;
use heap_notes::Seats;
use heap_reserve::Reserve;
use heap_table::Heap;
use heap_text::Text;
use std::alloc::Global;
use std::sync::Arc;
use std::sync::atomic::AtomicU64;

/// A text of the heap, which it owns together with the other agents of the heap, and beside it how many
/// agents the heap may have, the ids that were answered to it, those of them that the string table
/// answered, the slots of strings that it interned and short lists with theirs, what it claimed in advance,
/// the blocks by which it renews that, its number and that of the agent that it was split off from. Numbers
/// are counted by all agents of a heap together. The text is missing only while a split makes room for a new
/// agent.
#[derive(Drop)]
pub struct Held {
    pub text: Option<Text<Arc<Heap, Global>>>,
    pub(crate) agents: u32,
    pub(crate) known: IdSet,
    pub(crate) interned: IdSet,
    pub seats: Seats,
    pub reserve: Reserve,
    pub blocks: ReserveBlocks,
    pub(crate) numbers: Arc<AtomicU64, Global>,
    pub(crate) number: u64,
    pub(crate) giver: u64,
}

/// How many ids, and how many content words, an agent claims at once where it renews its reserve; 0 and 0:
/// it doesn't.
#[derive(Clone, Copy)]
pub struct ReserveBlocks {
    pub ids: u32,
    pub words: u32,
}

impl Held {
    /// Whether the agent may use a string.
    pub fn knows(&self, id: u32) -> bool
        ensures { IsTrue result ↔ IsIn self.now.known id }
    {
        self.known.has(id)
    }

    /// Whether a string is an answer of the string table that the agent knows.
    pub fn has_interned(&self, id: u32) -> bool
        ensures { IsTrue result ↔ IsIn self.now.interned id }
    {
        self.interned.has(id)
    }

    /// Marks a string that the agent knows.
    pub fn mark(&mut self, id: u32)
        requires held { IsHeld self.old }
        requires known { HasKey (view_by self.old).units id }
        ensures held { IsHeld self.new }
        ensures text { self.new.text ≡ self.old.text }
        ensures marks { KeepsMarks self.old self.new }
        ensures marked { MarksOnly self.old self.new id }
    {
        self.known.add(id);
    }

    /// Marks an answer of the string table.
    pub fn mark_interned(&mut self, id: u32)
        requires held { IsHeld self.old }
        requires known { HasKey (view_by self.old).units id }
        requires call { (u : List ℕ) × Contains (history (view_by self.old)) (u, id) }
        ensures held { IsHeld self.new }
        ensures text { self.new.text ≡ self.old.text }
        ensures marks { KeepsMarks self.old self.new }
        ensures marked { MarksOnlyKey self.old self.new id }
    {
        self.known.add(id);
        self.interned.add(id);
    }
}
