// How heaps and agents are made and given back.
ghost use Rattle.std.specs.Prelude.{◌≡◌, ◌↔◌, ◌⊎◌, ◌++◌, ◌+◌, ◌≤◌, ◌<◌, ℕ, [], IfOk, IfErr, OnOk, Err, None, Some};
ghost use Rattle.heap_rule.specs.Agents.{MayJoin, first_view, joined_view, left_after_split, right_after_split};
ghost use Rattle.heap_rule.specs.Layout.{MAX};
ghost use Rattle.heap_rule.specs.Views.{history};
ghost use Rattle.heap_table.specs.Agents.{share_of, size_of, view_of};
ghost use Rattle.heap_table.specs.Known.{HasAllOf, KeepsKnown};
ghost use Rattle.heap_table.specs.MayMake.{MayMake};
ghost use Rattle.heap_text.specs.Keeping.{KeepsText};
ghost use Rattle.heap_agents.specs.Held.{IsHeld, IsSame, KeepsMarks, StaysMarked, limit_by, share_by, view_by};
ghost use Rattle.heap_agents.specs.Reserved.{ReservesNothing};
ghost use Rattle.heap_reserve.specs.Reserves.{IsReserve, TakesOverReserve};
ghost use Rattle.heap_rule.specs.declared.view.View as view;
ghost use Rattle.heap_agents.specs.Shared.{IsSameText, IsThere, heap_of, share_if, view_if};
ghost use Rattle.heap_ids.specs.Sets.{Covers, IsIn};

use crate::held::{Held, ReserveBlocks};
use heap_ids::IdSet;
use heap_notes::Seats;
use heap_read::{HeapRef, Reader};
use heap_reserve::Reserve;
use heap_rule::{HeapSize, MAX};
use heap_table::{Heap, MakeFault};
use heap_text::Text;
use std::alloc::{AllocError, Global};
use std::sync::Arc;
use std::sync::atomic::{AtomicU64, Ordering};

fn make_text(
    alloc: Global,
    size: HeapSize,
    agents: u32,
    limit: u32,
) -> Result<Text<Arc<Heap, Global>>, MakeFault>
    ensures size { IfOk result (λ t. size_of (heap_of t) ≡ size) }
    ensures view { IfOk result (λ t. view_of t.reader.agent ≡ first_view size agents) }
    ensures limit { IfOk result (λ t. t.limit ≡ limit) }
    ensures lawful { OnOk result (MayMake size agents × (limit ≤ MAX)) }
    ensures refused { result ≡ Err MakeFault.Size → ¬ (MayMake size agents × (limit ≤ MAX)) }
{
    if MAX < limit {
        return Err(MakeFault::Size);
    }
    let (heap, agent) = Heap::make(alloc, size, agents)?;
    let Ok(heap) = Arc::new(alloc, heap) else {
        return Err(MakeFault::Memory);
    };
    Ok(Text::new(heap, agent, limit))
}

// The text of a new agent with a part of the share. A refusal changes nothing.
fn split_text(
    text: &mut Option<Text<Arc<Heap, Global>>>,
    give: u32,
) -> Result<Text<Arc<Heap, Global>>, AllocError>
    requires there { IsThere text.old }
    requires some { 1 ≤ give }
    requires less { give < share_if text.old }
    ensures there { IsThere text.new }
    ensures same { IsSameText text.old text.new }
    ensures other { IfOk result (λ t. IsSameText text.old (Some t)) }
    ensures left { OnOk result (view_if text.new ≡ left_after_split (view_if text.old) give) }
    ensures right { IfOk result (λ t. view_of t.reader.agent ≡ right_after_split (view_if text.old) give) }
    ensures shares { IfOk result (λ t. (share_if text.new + give ≡ share_if text.old)
        × (share_of t.reader.agent ≡ give)) }
    ensures refused { IfErr result (λ e. text.new ≡ text.old) }
{
    match text {
        Some(text) => {
            let heap = Arc::try_clone(&text.reader.heap)?;
            Ok(text.split_to(heap, give))
        }
        None => unreachable!(),
    }
}

// What the other's agent owns and knows goes over.
fn join_agent(text: &mut Text<Arc<Heap, Global>>, other: Text<Arc<Heap, Global>>)
    requires heap { heap_of other ≡ heap_of text.old }
    requires may { MayJoin (view_of text.old.reader.agent) (view_of other.reader.agent) }
    ensures kept { KeepsText text.old text.new }
    ensures view { view_of text.new.reader.agent
        ≡ joined_view (view_of text.old.reader.agent) (view_of other.reader.agent) }
    ensures known { KeepsKnown (view_of text.old.reader.agent) (view_of text.new.reader.agent) }
    ensures known_of_other { KeepsKnown (view_of other.reader.agent) (view_of text.new.reader.agent) }
    ensures all { HasAllOf (view_of text.old.reader.agent) (view_of text.new.reader.agent) }
    ensures all_of_other { HasAllOf (view_of other.reader.agent) (view_of text.new.reader.agent) }
    ensures share { share_of text.new.reader.agent
        ≡ share_of text.old.reader.agent + share_of other.reader.agent }
{
    let Text {
        reader: Reader { agent, .. },
        ..
    } = other;
    let reader = &mut text.reader;
    reader.agent.join(reader.heap.heap(), agent);
}

fn join_text(text: &mut Option<Text<Arc<Heap, Global>>>, other: Option<Text<Arc<Heap, Global>>>)
    requires beside { IsSameText text.old other }
    requires may { MayJoin (view_if text.old) (view_if other) }
    ensures there { IsThere text.new }
    ensures same { IsSameText text.old text.new }
    ensures view { view_if text.new ≡ joined_view (view_if text.old) (view_if other) }
    ensures known { KeepsKnown (view_if text.old) (view_if text.new) }
    ensures known_of_other { KeepsKnown (view_if other) (view_if text.new) }
    ensures all { HasAllOf (view_if text.old) (view_if text.new) }
    ensures all_of_other { HasAllOf (view_if other) (view_if text.new) }
    ensures history { history (view_if text.new)
        ≡ history (view_if text.old) ++ (view_if other).mine }
    ensures share { share_if text.new ≡ share_if text.old + share_if other }
{
    match (text, other) {
        (Some(text), Some(other)) => join_agent(text, other),
        _ => unreachable!(),
    }
}

impl Held {
    /// A heap of this size, and its first agent, which has the whole share.
    pub fn make(
        alloc: Global,
        size: HeapSize,
        agents: u32,
        limit: u32,
    ) -> Result<Box<Held>, MakeFault>
        ensures held { IfOk result (λ b. IsHeld b.value) }
        ensures view { IfOk result (λ b. view_by b.value ≡ first_view size agents) }
        ensures limit { IfOk result (λ b. limit_by b.value ≡ limit) }
        ensures nothing { IfOk result (λ b. ReservesNothing b.value) }
        ensures number { IfOk result (λ b. b.value.number ≡ 1) }
        ensures giver { IfOk result (λ b. b.value.giver ≡ 0) }
        ensures lawful { OnOk result (MayMake size agents × (limit ≤ MAX)) }
        ensures refused { result ≡ Err MakeFault.Size → ¬ (MayMake size agents × (limit ≤ MAX)) }
    {
        let ids = size.ids;
        let text = make_text(alloc, size, agents, limit)?;
        match Held::first(alloc, text, ids, agents) {
            Ok(held) => Ok(held),
            Err(_) => Err(MakeFault::Memory),
        }
    }

    // The first agent of a heap, by itself.
    fn first(
        alloc: Global,
        text: Text<Arc<Heap, Global>>,
        ids: u32,
        agents: u32,
    ) -> Result<Box<Held>, AllocError>
        requires ids { ids ≡ (size_of (heap_of text)).ids }
        requires agents { agents ≡ (view_of text.reader.agent).agents }
        ensures held { IfOk result (λ b. IsHeld b.value) }
        ensures text { IfOk result (λ b. b.value.text ≡ Some text) }
        ensures nothing { IfOk result (λ b. ReservesNothing b.value) }
        ensures number { IfOk result (λ b. b.value.number ≡ 1) }
        ensures giver { IfOk result (λ b. b.value.giver ≡ 0) }
    {
        let known = IdSet::new(alloc, ids)?;
        let interned = IdSet::new(alloc, ids)?;
        let numbers = Arc::new(alloc, AtomicU64::new(2))?;
        let held = Held {
            text: Some(text),
            agents,
            known,
            interned,
            seats: Seats::none(alloc),
            reserve: Reserve::new(alloc),
            blocks: ReserveBlocks { ids: 0, words: 0 },
            numbers,
            number: 1,
            giver: 0,
        };
        let made = Box::new(alloc, held)?;
        Ok(made)
    }

    /// A new agent with a part of the share, which knows all that this one knows, and may use all that this
    /// one may. A refusal changes nothing.
    pub fn split(&mut self, alloc: Global, give: u32) -> Result<Box<Held>, AllocError>
        requires held { IsHeld self.old }
        requires some { 1 ≤ give }
        requires less { give < share_by self.old }
        ensures held { IsHeld self.new }
        ensures same { IsSame self.old self.new }
        ensures other { IfOk result (λ b. IsHeld b.value × IsSame self.old b.value) }
        ensures left { OnOk result (view_by self.new
            ≡ left_after_split (view_by self.old) give) }
        ensures right { IfOk result (λ b. view_by b.value
            ≡ right_after_split (view_by self.old) give) }
        ensures shares { IfOk result (λ b.
            (share_by self.new + give ≡ share_by self.old)
            × (share_by b.value ≡ give)) }
        ensures marks { KeepsMarks self.old self.new }
        ensures known { IfOk result (λ b. (i : ℕ) → IsIn b.value.known i ↔ IsIn self.old.known i) }
        ensures interned { IfOk result (λ b. (i : ℕ) → IsIn b.value.interned i ↔ IsIn self.old.interned i) }
        ensures giver { IfOk result (λ b. b.value.giver ≡ self.old.number) }
        ensures nothing { IfOk result (λ b. ReservesNothing b.value) }
        ensures refused { IfErr result (λ e. self.new ≡ self.old) }
    {
        let mut other = self.beside(alloc)?;
        other.text = Some(split_text(&mut self.text, give)?);
        other.number = self.numbers.fetch_add(1, Ordering::SeqCst);
        Ok(other)
    }

    // The marks once more, with no agent yet.
    fn beside(&self, alloc: Global) -> Result<Box<Held>, AllocError>
        ensures known { IfOk result (λ b. (i : ℕ) → IsIn b.value.known i ↔ IsIn self.now.known i) }
        ensures interned { IfOk result (λ b. (i : ℕ) → IsIn b.value.interned i ↔ IsIn self.now.interned i) }
        ensures room { IfOk result (λ b. (n : ℕ) → Covers self.now.known n → Covers b.value.known n) }
        ensures calls_room { IfOk result
            (λ b. (n : ℕ) → Covers self.now.interned n → Covers b.value.interned n) }
        ensures seats { IfOk result (λ b. b.value.seats.slots.items ≡ []) }
        ensures hashes { IfOk result (λ b. b.value.seats.hashes.items ≡ []) }
        ensures keys { IfOk result (λ b. b.value.seats.keys.items ≡ []) }
        ensures nothing { IfOk result (λ b. ReservesNothing b.value) }
        ensures reserve { IfOk result (λ b. (v : view.View) → IsReserve v b.value.reserve) }
        ensures agents { IfOk result (λ b. b.value.agents ≡ self.now.agents) }
        ensures giver { IfOk result (λ b. b.value.giver ≡ self.now.number) }
    {
        let known = self.known.try_clone()?;
        let interned = self.interned.try_clone()?;
        let numbers = Arc::try_clone(&self.numbers)?;
        let held = Held {
            text: None,
            agents: self.agents,
            known,
            interned,
            seats: Seats::none(alloc),
            reserve: Reserve::new(alloc),
            blocks: ReserveBlocks { ids: 0, words: 0 },
            numbers,
            number: 0,
            giver: self.number,
        };
        let made = Box::new(alloc, held)?;
        Ok(made)
    }

    /// Takes over what another agent of the heap has and knows, and what it may use. It takes over the ids
    /// that the other claimed in advance, and has left, where it has none left itself, and the content words
    /// where it has none left itself; the rest of these is lost. It keeps its own blocks.
    pub fn join(&mut self, other: Held)
        requires held { IsHeld self.old }
        requires other { IsHeld other }
        requires beside { IsSame self.old other }
        requires may { MayJoin (view_by self.old) (view_by other) }
        ensures held { IsHeld self.new }
        ensures same { IsSame self.old self.new }
        ensures view { view_by self.new
            ≡ joined_view (view_by self.old) (view_by other) }
        ensures share { share_by self.new
            ≡ share_by self.old + share_by other }
        ensures marks { StaysMarked self.old self.new }
        ensures reserve { TakesOverReserve self.old.reserve other.reserve self.new.reserve }
        ensures known { (i : ℕ) → IsIn other.known i → IsIn self.new.known i }
        ensures interned { (i : ℕ) → IsIn other.interned i → IsIn self.new.interned i }
        ensures only { (i : ℕ) → IsIn self.new.known i → IsIn self.old.known i ⊎ IsIn other.known i }
        ensures only_interned { (i : ℕ) → IsIn self.new.interned i
            → IsIn self.old.interned i ⊎ IsIn other.interned i }
    {
        join_text(&mut self.text, other.text);
        self.known.add_all(&other.known);
        self.interned.add_all(&other.interned);
        self.reserve.take_over(other.reserve);
    }

    /// Its number, which no other agent of the heap has, nor had.
    pub fn number(&self) -> u64
        ensures { result ≡ self.now.number }
    {
        self.number
    }

    /// The number of the agent that it was split off from; 0 of the first agent of a heap.
    pub fn giver(&self) -> u64
        ensures { result ≡ self.now.giver }
    {
        self.giver
    }

    /// Whether both are agents of one heap, as far as a step can show: the agents of a heap count their
    /// numbers together, so that one of them sees that another one counts. Of one heap it is always true.
    pub fn counts_with(&self, other: &Held) -> bool {
        let before = other.numbers.load(Ordering::SeqCst);
        let _ = self.numbers.fetch_add(1, Ordering::SeqCst);
        other.numbers.load(Ordering::SeqCst) != before
    }
}
