// New strings of units and of parts, and those of one unit.
ghost use Rattle.std.specs.Prelude.{◌≡◌, ◌+◌, ◌≤◌, length, slice_range, IfOk, OnErr, OnOk};
ghost use Rattle.js_store.specs.Faults.{fault_of, Uses};
ghost use Rattle.js_store.specs.Rows.{cut_ids, cut_words, flat_words};
ghost use Rattle.js_store.specs.State.{NamesUnits, IsKnown, IsSettled, text};
ghost use Rattle.heap_text.specs.Texts.{KeepsOwn};
ghost use Rattle.heap_session.specs.Owning.{ClaimsNoId, IsKeptOrMade};
ghost use Rattle.heap_session.specs.Sessions.{state_in, session_view};

use crate::faults::text_fault;
use crate::session::Session;
use heap_read::HeapRef;
use heap_text::JsStr;
use js_store::{StoreFault, Strings};

impl<H: HeapRef> Session<H> {
    // A new string of these units.
    pub(crate) fn flat_of(&mut self, units: &[u16]) -> Result<JsStr, StoreFault>
        requires { length units.now ≤ (state_in self.old).limit }
        ensures ok { IfOk result
            (λ r. NamesUnits (state_in self.new) r.id units.now × IsSettled (state_in self.new) r.id) }
        ensures uses { Uses (state_in self.old) (state_in self.new) (fault_of result)
            1 (flat_words units.now) }
        ensures made { OnOk result (IsKeptOrMade (session_view self.old) (session_view self.new) units.now) }
        ensures own { KeepsOwn (session_view self.old) (session_view self.new) }
        ensures spared { OnErr result (ClaimsNoId (session_view self.old) (session_view self.new)) }
    {
        match self.text.make_flat(units) {
            Ok(s) => Ok(s),
            Err(full) => Err(text_fault(full)),
        }
    }

    // The string of one unit: the one that is kept, or else a new one.
    pub(crate) fn one_of(&mut self, units: &[u16]) -> Result<JsStr, StoreFault>
        requires limit { length units.now ≤ (state_in self.old).limit }
        requires one { length units.now ≡ 1 }
        ensures ok { IfOk result
            (λ r. NamesUnits (state_in self.new) r.id units.now × IsSettled (state_in self.new) r.id) }
        ensures uses { Uses (state_in self.old) (state_in self.new) (fault_of result)
            1 (flat_words units.now) }
        ensures made { OnOk result (IsKeptOrMade (session_view self.old) (session_view self.new) units.now) }
        ensures own { KeepsOwn (session_view self.old) (session_view self.new) }
        ensures spared { OnErr result (ClaimsNoId (session_view self.old) (session_view self.new)) }
    {
        let unit = units[0];
        if let Some(kept) = self.singles.get(unit) {
            return Ok(kept);
        }
        match self.flat_of(units) {
            Ok(s) => {
                self.singles.keep(unit, s);
                Ok(s)
            }
            Err(fault) => Err(fault),
        }
    }

    // A part of a settled string.
    pub(crate) fn part_of(&mut self, s: JsStr, from: u32, to: u32) -> Result<JsStr, StoreFault>
        requires known { IsKnown (state_in self.old) s.id }
        requires settled { IsSettled (state_in self.old) s.id }
        requires order { from ≤ to }
        requires within { to ≤ length (text (state_in self.old) s.id) }
        ensures ok { IfOk result
            (λ r. NamesUnits (state_in self.new) r.id (slice_range (text (state_in self.old) s.id) from to)
            × IsSettled (state_in self.new) r.id) }
        ensures uses { Uses (state_in self.old) (state_in self.new) (fault_of result)
            (cut_ids from to (length (text (state_in self.old) s.id)))
            (cut_words from to (length (text (state_in self.old) s.id))) }
        ensures own { KeepsOwn (session_view self.old) (session_view self.new) }
        ensures spared { OnErr result (ClaimsNoId (session_view self.old) (session_view self.new)) }
    {
        match self.text.slice(s, from, to) {
            Ok(part) => Ok(part),
            Err(full) => Err(text_fault(full)),
        }
    }

    // A part of one unit: the string that is kept of this unit, or else a new one.
    pub(crate) fn one_part(&mut self, s: JsStr, from: u32, to: u32) -> Result<JsStr, StoreFault>
        requires known { IsKnown (state_in self.old) s.id }
        requires settled { IsSettled (state_in self.old) s.id }
        requires one { to ≡ from + 1 }
        requires within { to ≤ length (text (state_in self.old) s.id) }
        ensures ok { IfOk result
            (λ r. NamesUnits (state_in self.new) r.id (slice_range (text (state_in self.old) s.id) from to)
            × IsSettled (state_in self.new) r.id) }
        ensures uses { Uses (state_in self.old) (state_in self.new) (fault_of result)
            (cut_ids from to (length (text (state_in self.old) s.id)))
            (cut_words from to (length (text (state_in self.old) s.id))) }
        ensures own { KeepsOwn (session_view self.old) (session_view self.new) }
        ensures spared { OnErr result (ClaimsNoId (session_view self.old) (session_view self.new)) }
    {
        let unit = self.unit_at(s, from);
        if let Some(kept) = self.singles.get(unit) {
            return Ok(kept);
        }
        match self.part_of(s, from, to) {
            Ok(part) => {
                self.singles.keep(unit, part);
                Ok(part)
            }
            Err(fault) => Err(fault),
        }
    }
}
