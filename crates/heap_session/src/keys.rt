// Interning units that are in no string, and looking for them.
ghost use Rattle.std.specs.Prelude.{◌≡◌, ℕ, [], ◌∷◌, ◌++◌, ◌+◌, ◌≤◌, Some, None, length, IfSome};
ghost use Rattle.js_store.specs.Faults.{StoreStep};
ghost use Rattle.js_store.specs.State.{NamesUnits, IsSettled};
ghost use Rattle.heap_text.specs.Texts.{KeepsOwn};
ghost use Rattle.heap_intern.specs.Answers.{FindsString, StandsInSlot};
ghost use Rattle.heap_intern.specs.Hashes.{NotesHash};
ghost use Rattle.heap_intern.specs.SlotLoads.{loads_at};
ghost use Rattle.heap_session.specs.Counted.{string_id};
ghost use Rattle.heap_session.specs.Interning.{InternsList};
ghost use Rattle.heap_session.specs.Sessions.{noted_in, session_view, state_in};

use crate::faults::table_fault;
use crate::session::Session;
use heap_read::HeapRef;
use heap_text::JsStr;
use js_store::StoreFault;

impl<H: HeapRef> Session<H> {
    // The interned string of these units, with no string made of them first.
    pub(crate) fn intern_list(&mut self, units: &[u16]) -> Result<JsStr, StoreFault>
        requires { length units.now ≤ (state_in self.old).limit }
        ensures interns { InternsList self.old self.new units.now result }
    {
        let text = &mut self.text;
        match self.keys.intern(&mut text.reader, &mut self.noted, units) {
            Ok(id) => Ok(JsStr { id }),
            Err(full) => Err(table_fault(full)),
        }
    }

    /// The interned string of these units, if it is in the string table: none exactly where a
    /// slot was found free behind slots with strings that differ, or every slot has such a string.
    /// It uses nothing, also on a full heap. What it found counts as a call of the history, so its
    /// number may be compared with those that interning answers. No slot is loaded that is noted with another
    /// hash, and the slot of the answer is noted where there is room.
    pub fn find_units(&mut self, units: &[u16]) -> Option<JsStr>
        requires { length units.now ≤ (state_in self.old).limit }
        ensures ok { IfSome result
            (λ r. NamesUnits (state_in self.new) r.id units.now × IsSettled (state_in self.new) r.id) }
        ensures step { StoreStep (state_in self.old) (state_in self.new) None 0 0 }
        ensures grown { IfSome result
            (λ r. (state_in self.new).history ≡ (state_in self.old).history ++ (units.now, r.id) ∷ []) }
        ensures kept { result ≡ None → (state_in self.new).history ≡ (state_in self.old).history }
        ensures own { KeepsOwn (session_view self.old) (session_view self.new) }
        ensures finds { FindsString (session_view self.old) (session_view self.new) units.now
            (string_id result) }
        ensures again { (i : ℕ) → NamesUnits (state_in self.old) i units.now
            → StandsInSlot (session_view self.old) units.now i → string_id result ≡ Some i }
        ensures few { (k : ℕ) → loads_at (session_view self.new) k ≤ loads_at (session_view self.old) k + 2 }
        ensures notes { NotesHash (session_view self.old) (session_view self.new) units.now
            (string_id result) (noted_in self.old) (noted_in self.new) }
    {
        let text = &mut self.text;
        match self.noted.find(&mut text.reader, units) {
            Some(id) => Some(JsStr { id }),
            None => None,
        }
    }
}
