// How sessions are made, split and joined, and what they count.
ghost use Rattle.std.specs.Prelude.{◌≡◌, ◌≤◌, ◌<◌, [], None};
ghost use Rattle.std.specs.FinMap.{contains_key};
ghost use Rattle.js_store.specs.Faults.{Uses};
ghost use Rattle.js_store.specs.Limits.{limit_units};
ghost use Rattle.heap_rule.specs.Agents.{joined_view, left_after_split, right_after_split};
ghost use Rattle.heap_table.specs.Agents.{Belongs, view_of};
ghost use Rattle.heap_text.specs.Texts.{KeepsOwn};
ghost use Rattle.heap_intern.specs.Counting.{count_below, different};
ghost use Rattle.heap_session.specs.Sessions.{noted_in, session_view, state_by, state_in, table_of};
ghost use Rattle.heap_session.specs.Shares.{BelongsAs, IsSessionJoined, IsWhole, MayJoinSession, giver_after, right_by, total_by};

use crate::kept::KeptWord;
use crate::kept_keys::KeptKeys;
use crate::noted::Noted;
use crate::recent::Recent;
use crate::session::Session;
use crate::singles::Singles;
use heap_intern::count_interned;
use heap_read::{HeapRef, Reader};
use heap_table::{Agent, Heap};
use heap_text::Text;
use js_store::Limit;

impl<'h> Session<&'h Heap> {
    /// A new session with a part of the share, which knows all that this one knows and has used
    /// nothing. Its history is this one's. It notes no slots yet.
    pub fn split(&mut self, give: u32) -> Session<&'h Heap>
        requires some { 1 ≤ give }
        requires less { give < (state_in self.old).frame.share }
        ensures left_view { session_view self.new ≡ left_after_split (session_view self.old) give }
        ensures right_view { session_view result ≡ right_after_split (session_view self.old) give }
        ensures left { state_in self.new ≡ giver_after (state_in self.old) give }
        ensures right { state_in result ≡ right_by (state_in self.old) give }
        ensures notes { noted_in self.new ≡ noted_in self.old }
        ensures none { noted_in result ≡ [] }
    {
        Session {
            text: self.text.split(give),
            limit: self.limit,
            last: KeptWord::none(),
            older: KeptWord::none(),
            singles: Singles::none(),
            recent: Recent::none(),
            keys: KeptKeys::none(),
            noted: Noted::none(),
        }
    }
}

impl<H: HeapRef> Session<H> {
    /// A session of an agent of this heap. The limit is that of the strings that it makes.
    pub fn new(heap: H, agent: Agent, limit: Limit) -> Session<H>
        requires belongs { Belongs agent (H.reached heap) }
        ensures view { session_view result ≡ view_of agent }
        ensures state { state_in result
            ≡ state_by (view_of agent) (limit_units limit) (table_of (H.reached heap)) }
        ensures none { noted_in result ≡ [] }
    {
        Session {
            text: Text::new(heap, agent, limit.units()),
            limit,
            last: KeptWord::none(),
            older: KeptWord::none(),
            singles: Singles::none(),
            recent: Recent::none(),
            keys: KeptKeys::none(),
            noted: Noted::none(),
        }
    }

    /// Takes over all that another session of this heap knows, has and used, and its calls since
    /// its split. That was a split off calls that this session knows by now. It keeps its own notes of slots.
    pub fn join(&mut self, other: Session<H>)
    where
        H: Drop,
        requires may { MayJoinSession (state_in self.old) (state_in other) }
        ensures view { session_view self.new ≡ joined_view (session_view self.old) (session_view other) }
        ensures joined { IsSessionJoined (state_in self.old) (state_in other) (state_in self.new) }
        ensures notes { noted_in self.new ≡ noted_in self.old }
    {
        let Session { text, .. } = other;
        self.text.join(text);
    }

    /// The number of different lists of units in its history, by a session that has the whole
    /// share. That is the number of slots that are used.
    pub fn count_interned(&mut self) -> u32
        requires whole { IsWhole (state_in self.old) }
        ensures count { result ≡ different (state_in self.old).history }
        ensures used { result ≡ count_below (λ k. contains_key (session_view self.new).slots k)
            (session_view self.new).sizes.slots }
        ensures uses { Uses (state_in self.old) (state_in self.new) None 0 0 }
        ensures own { KeepsOwn (session_view self.old) (session_view self.new) }
    {
        let text = &mut self.text;
        count_interned(&mut text.reader)
    }

    /// The ids and the content words that were ever claimed, by a session that has the whole
    /// share, which used all of them.
    pub fn totals(&mut self) -> (u32, u32)
        requires whole { IsWhole (state_in self.old) }
        ensures ids { result.0 ≡ (state_in self.old).used_ids }
        ensures words { result.1 ≡ (state_in self.old).used_words }
        ensures state { state_in self.new ≡ total_by (state_in self.old) }
        ensures own { KeepsOwn (session_view self.old) (session_view self.new) }
    {
        self.text.totals()
    }

    /// Its agent.
    pub fn into_agent(self) -> Agent
    where
        H: Drop,
        ensures view { view_of result ≡ session_view self }
        ensures belongs { BelongsAs (state_in self) result }
    {
        let Session { text, .. } = self;
        let Text { reader, .. } = text;
        let Reader { agent, .. } = reader;
        agent
    }
}
