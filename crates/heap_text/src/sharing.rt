// `Text`s for several threads on one heap, and what was used of the heap.
ghost use Rattle.std.specs.Prelude.{◌≡◌, ◌+◌, ◌≤◌, ◌<◌};
ghost use Rattle.heap_rule.specs.Agents.{MayJoin, joined_view, left_after_split, right_after_split};
ghost use Rattle.heap_rule.specs.Claims.{loaded_counter};
ghost use Rattle.heap_table.specs.Agents.{Belongs, share_of, view_of};
ghost use Rattle.heap_table.specs.Known.{KeepsKnown};
ghost use Rattle.heap_text.specs.Keeping.{KeepsText};

use crate::text::Text;
use heap_read::{HeapRef, Reader};
use heap_rule::Counter;
use heap_table::Heap;

impl<'h> Text<&'h Heap> {
    /// A `Text` of a new agent of the same heap, for another thread: it has a part of the share and the
    /// same limit, knows all that this one knows, and has used nothing.
    pub fn split(&mut self, give: u32) -> Text<&'h Heap>
        requires some { 1 ≤ give }
        requires less { give < share_of self.old.reader.agent }
        ensures left { view_of self.new.reader.agent ≡ left_after_split (view_of self.old.reader.agent) give }
        ensures right { view_of result.reader.agent ≡ right_after_split (view_of self.old.reader.agent) give }
        ensures shares { (share_of self.new.reader.agent + give ≡ share_of self.old.reader.agent)
            × (share_of result.reader.agent ≡ give) }
        ensures kept { KeepsText self.old self.new }
        ensures alike { (result.reader.heap.now ≡ self.old.reader.heap.now)
            × (result.limit ≡ self.old.limit) }
    {
        let heap = self.reader.heap;
        self.split_to(heap, give)
    }
}

impl<H: HeapRef> Text<H> {
    /// A text of a new agent of the same heap, for another thread: it has a part of the share and the
    /// same limit, knows all that this one knows, and has used nothing.
    pub fn split_to(&mut self, heap: H, give: u32) -> Text<H>
        requires heap { H.reached heap ≡ H.reached self.old.reader.heap }
        requires some { 1 ≤ give }
        requires less { give < share_of self.old.reader.agent }
        ensures left { view_of self.new.reader.agent ≡ left_after_split (view_of self.old.reader.agent) give }
        ensures right { view_of result.reader.agent ≡ right_after_split (view_of self.old.reader.agent) give }
        ensures shares { (share_of self.new.reader.agent + give ≡ share_of self.old.reader.agent)
            × (share_of result.reader.agent ≡ give) }
        ensures kept { KeepsText self.old self.new }
        ensures alike { ((H.reached result.reader.heap) ≡ (H.reached self.old.reader.heap))
            × (result.limit ≡ self.old.limit) }
    {
        let reader = &mut self.reader;
        let agent = reader.agent.split(reader.heap.heap(), give);
        Text::new(heap, agent, self.limit)
    }

    /// Takes over what another agent of this heap owns, used and knows, with its share. It was split off
    /// with calls of the string table that this one knows by now, among which are those that this one
    /// was split off with.
    pub fn join(&mut self, other: Text<H>)
    where
        H: Drop,
        requires heap { Belongs other.reader.agent (H.reached self.old.reader.heap) }
        requires may { MayJoin (view_of self.old.reader.agent) (view_of other.reader.agent) }
        ensures view { view_of self.new.reader.agent
            ≡ joined_view (view_of self.old.reader.agent) (view_of other.reader.agent) }
        ensures known { KeepsKnown (view_of self.old.reader.agent) (view_of self.new.reader.agent)
            × KeepsKnown (view_of other.reader.agent) (view_of self.new.reader.agent) }
        ensures share { share_of self.new.reader.agent
            ≡ share_of self.old.reader.agent + share_of other.reader.agent }
        ensures kept { KeepsText self.old self.new }
    {
        let Text {
            reader: Reader { agent, .. },
            ..
        } = other;
        let reader = &mut self.reader;
        reader.agent.join(reader.heap.heap(), agent);
    }

    /// The ids and the content words that were ever claimed on the heap. An agent that has the whole
    /// share claimed them all.
    pub fn totals(&mut self) -> (u32, u32)
        requires whole { (view_of self.old.reader.agent).share ≡ (view_of self.old.reader.agent).agents }
        ensures used { (result.0 ≡ (view_of self.old.reader.agent).used.ids)
            × (result.1 ≡ (view_of self.old.reader.agent).used.words) }
        ensures view { view_of self.new.reader.agent ≡ loaded_counter
            (loaded_counter (view_of self.old.reader.agent) Counter.Ids result.0) Counter.Words result.1 }
        ensures kept { KeepsText self.old self.new }
    {
        let reader = &mut self.reader;
        reader.agent.totals(reader.heap.heap())
    }
}
