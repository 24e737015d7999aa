// Reading a word of a string, and the units in it.
ghost use Rattle.std.specs.Prelude.{◌≡◌, ℕ, List, ◌<◌, length, slice_index};
ghost use Rattle.heap_rule.specs.Maps.{Has};
ghost use Rattle.heap_rule.specs.Views.{IsSeenSettled};
ghost use Rattle.heap_table.specs.Agents.{view_of};
ghost use Rattle.heap_read.specs.Reads.{OnlyLoads};
ghost use Rattle.heap_session.specs.Lately.{IsWordKept};
ghost use Rattle.heap_session.specs.Sessions.{session_view};

use crate::kept::KeptWord;
use crate::session::Session;
use heap_read::HeapRef;
use heap_text::{JsStr, Text};

impl<H: HeapRef> Session<H> {
    // Unit `i` of a settled string, by loads. The word that has it is kept in the place of what was
    // kept of this string, else of the older one.
    #[inline(never)]
    pub(crate) fn unit_by_loads(&mut self, s: JsStr, i: u32) -> u16
        requires settled { IsSeenSettled (session_view self.old) s.id }
        requires within { (us : List ℕ) × Has (session_view self.old).units s.id us × (i < length us) }
        ensures limit { self.new.limit ≡ self.old.limit }
        ensures heap { self.new.text.reader.heap ≡ self.old.text.reader.heap }
        ensures reads { OnlyLoads (session_view self.old) (session_view self.new) }
        ensures unit { (us : List ℕ) → Has (session_view self.old).units s.id us → result ≡ slice_index us i }
    {
        let (next, unit) = word_with(&mut self.text, s, i);
        if self.last.id == s.id {
            self.last = next;
            return unit;
        }
        self.older = self.last;
        self.last = next;
        unit
    }
}

// Unit `i` of a settled string, and the word that has it.
fn word_with<H: HeapRef>(text: &mut Text<H>, s: JsStr, i: u32) -> (KeptWord, u16)
    requires settled { IsSeenSettled (view_of text.old.reader.agent) s.id }
    requires within { (us : List ℕ) × Has (view_of text.old.reader.agent).units s.id us × (i < length us) }
    ensures heap { text.new.reader.heap ≡ text.old.reader.heap }
    ensures limit { text.new.limit ≡ text.old.limit }
    ensures reads { OnlyLoads (view_of text.old.reader.agent) (view_of text.new.reader.agent) }
    ensures kept { IsWordKept (view_of text.new.reader.agent) result.0 }
    ensures unit { (us : List ℕ) → Has (view_of text.old.reader.agent).units s.id us
        → result.1 ≡ slice_index us i }
{
    let window = text.window(s);
    let reader = &mut text.reader;
    let held = reader.hold_in(window, i);
    let unit = held.unit(i);
    (KeptWord { id: s.id, held }, unit)
}
