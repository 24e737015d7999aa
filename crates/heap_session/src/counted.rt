// Interning, with a count of the loads of slots.
ghost use Rattle.std.specs.Prelude.{◌≡◌, ◌+◌, ◌*◌, ◌≤◌, ◌<◌};
ghost use Rattle.js_store.specs.State.{IsKnown};
ghost use Rattle.heap_intern.specs.SlotLoads.{LoadsSlots};
ghost use Rattle.heap_session.specs.Counted.{answered_string};
ghost use Rattle.heap_session.specs.Interning.{SettlesAndInterns};
ghost use Rattle.heap_session.specs.Sessions.{session_view, state_in};

use crate::faults::{table_fault, text_fault};
use crate::session::Session;
use heap_read::{HeapRef, Steps};
use heap_text::JsStr;
use js_store::StoreFault;
use std::sync::ledger::{Blank, Ledger};

impl<H: HeapRef> Session<H> {
    /// As `intern` of a store, and counts each load of a slot of the string table. No slot is
    /// loaded twice but the one that answers: once more after its units were compared, which
    /// enters the call in the history. The header of `s` then forwards to the answer, unless it is
    /// a fixed Flat. The table is reported full exactly where every slot was found used with other
    /// units: where an id or words were requested, a slot was found free, or none was loaded. No slot is
    /// loaded that is noted with another hash, and the slot of the answer is noted where there is room.
    pub fn intern_counted<L: Ledger>(
        &mut self,
        s: JsStr,
        steps: &mut Steps<L>,
    ) -> Result<JsStr, StoreFault>
        requires { IsKnown (state_in self.old) s.id }
        ensures interns { SettlesAndInterns self.old self.new s result }
        ensures loads { LoadsSlots (session_view self.old) (session_view self.new)
            (answered_string result) steps.old steps.new }
        ensures most { steps.new ≤ steps.old + 2 * (state_in self.old).sizes.slots }
    {
        match self.text.settle(s) {
            Ok(()) => {}
            Err(full) => return Err(text_fault(full)),
        }
        let text = &mut self.text;
        match self.noted.intern(&mut text.reader, s.id, steps) {
            Ok(id) => Ok(JsStr { id }),
            Err(full) => Err(table_fault(full)),
        }
    }

    // The ledger of a caller that counts nothing.
    pub(crate) fn intern_by<L: Ledger>(
        &mut self,
        s: JsStr,
        blank: Blank,
    ) -> Result<JsStr, StoreFault>
        requires name { blank.name ≡ L.name }
        requires parts { blank.parts ≡ L.parts }
        requires some { 0 < blank.parts }
        requires known { IsKnown (state_in self.old) s.id }
        ensures interns { SettlesAndInterns self.old self.new s result }
    {
        let mut steps = Steps::<L>::start(blank);
        self.intern_counted(s, &mut steps)
    }
}
