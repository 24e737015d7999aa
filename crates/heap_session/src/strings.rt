// A session as a store of strings.
use crate::faults::{join_fault, text_fault};
use crate::session::Session;
use crate::short::SHORT;
use heap_read::HeapRef;
use heap_text::JsStr;
use js_store::{ConcatFault, StoreFault, Strings};
use std::marker::Brand;
use std::sync::ledger::Blank;

impl<H: HeapRef> Strings for Session<H> {
    type Ref = JsStr;

    ghost use Rattle.std.specs.Prelude.{◌≡◌, ℕ, List, ◌++◌, ◌+◌, ◌≤◌, ◌<◌, ◌↔◌, None, Some, length, slice_index, slice_range, IfOk, IsTrue, OnErr, OnOk};
    ghost use Rattle.js_store.specs.Faults.{JoinAnswer, Uses, concat_fault_of, fault_of};
    ghost use Rattle.js_store.specs.Rows.{cut_ids, cut_words, flat_words, join_ids, join_words, settle_words};
    ghost use Rattle.js_store.specs.State.{NamesUnits, Interned, IsKnown, IsSettled, text};
    ghost use Rattle.js_units.specs.Units.{IsFirstUnit};
    ghost use Rattle.heap_read.specs.Reads.{OnlyLoads};
    ghost use Rattle.heap_text.specs.Settling.{IsSettling};
    ghost use Rattle.heap_text.specs.Texts.{KeepsOwn};
    ghost use Rattle.heap_session.specs.Interning.{InternsList, SettlesAndInterns};
    ghost use Rattle.heap_session.specs.Owning.{ClaimsNoId, IsKeptOrMade};
    ghost use Rattle.heap_session.specs.Sessions.{SessionFrame, session_view, state_in};
    ghost use Rattle.heap_table.specs.Agents.{view_of};
    ghost use Rattle.heap_session.specs.Sessions.{table_of};
    ghost use Rattle.heap_session.specs.Sound.{session_sound};

    ghost Frame = { SessionFrame };

    ghost number = { λ r. r.id };

    ghost state = { λ s. state_in s };

    /// As of every store. A string that the session keeps is found by loads alone; else one id and the content
    /// words of the units are used. What the agent owned before it owns still; a refused call claimed no id, and
    /// the words that it claimed are the agent's own.
    fn from_units(&mut self, units: &[u16]) -> Result<JsStr, StoreFault>
        requires { length units.now ≤ (state_in self.old).limit }
        ensures ok { IfOk result
            (λ r. NamesUnits (state_in self.new) r.id units.now × IsSettled (state_in self.new) r.id) }
        ensures uses { Uses (state_in self.old) (state_in self.new) (fault_of result)
            1 (flat_words units.now) }
        ensures made { OnOk result (IsKeptOrMade (session_view self.old) (session_view self.new) units.now) }
        ensures own { KeepsOwn (session_view self.old) (session_view self.new) }
        ensures spared { OnErr result (ClaimsNoId (session_view self.old) (session_view self.new)) }
    {
        if units.len() == 1 {
            return self.one_of(units);
        }
        if units.len() <= SHORT {
            return self.short_of(units);
        }
        self.flat_of(units)
    }

    /// As of every store, by loads alone.
    fn len(&mut self, s: JsStr) -> u32
        requires { IsKnown (state_in self.old) s.id }
        ensures value { result ≡ length (text (state_in self.old) s.id) }
        ensures most { result ≤ 536870888 }
        ensures uses { Uses (state_in self.old) (state_in self.new) None 0 0 }
        ensures reads { OnlyLoads (session_view self.old) (session_view self.new) }
    {
        self.text.len(s)
    }

    /// As of every store. What the agent owned before it owns still. An answered call claimed
    /// nothing, or the words of a Flat for the rope, which are the agent's own where another
    /// thread's Flat is there; the words that a refused one claimed are the agent's own.
    fn settle(&mut self, s: JsStr) -> Result<(), StoreFault>
        requires { IsKnown (state_in self.old) s.id }
        ensures ok { OnOk result (IsSettled (state_in self.new) s.id) }
        ensures uses { Uses (state_in self.old) (state_in self.new) (fault_of result) 0
            (settle_words ((state_in self.old).settled s.id) (length (text (state_in self.old) s.id))) }
        ensures own { KeepsOwn (session_view self.old) (session_view self.new) }
        ensures settling { OnOk result (IsSettling (session_view self.old) (session_view self.new) s.id
            (text (state_in self.old) s.id)) }
        ensures spared { OnErr result (ClaimsNoId (session_view self.old) (session_view self.new)) }
    {
        match self.text.settle(s) {
            Ok(()) => Ok(()),
            Err(full) => Err(text_fault(full)),
        }
    }

    /// As of every store, by loads alone.
    fn unit_at(&mut self, s: JsStr, i: u32) -> u16
        requires known { IsKnown (state_in self.old) s.id }
        requires settled { IsSettled (state_in self.old) s.id }
        requires within { i < length (text (state_in self.old) s.id) }
        ensures value { result ≡ slice_index (text (state_in self.old) s.id) i }
        ensures uses { Uses (state_in self.old) (state_in self.new) None 0 0 }
        ensures reads { OnlyLoads (session_view self.old) (session_view self.new) }
    {
        if let Some(unit) = self.last.get(s, i) {
            return unit;
        }
        if let Some(unit) = self.older.get(s, i) {
            return unit;
        }
        if let Some(unit) = self.singles.unit_of(s) {
            return unit;
        }
        self.unit_by_loads(s, i)
    }

    /// As of every store, by loads alone.
    fn read(&mut self, s: JsStr, from: u32, into: &mut [u16])
        requires known { IsKnown (state_in self.old) s.id }
        requires settled { IsSettled (state_in self.old) s.id }
        requires within { from + length into.old ≤ length (text (state_in self.old) s.id) }
        ensures units { into.new
            ≡ slice_range (text (state_in self.old) s.id) from (from + length into.old) }
        ensures uses { Uses (state_in self.old) (state_in self.new) None 0 0 }
        ensures reads { OnlyLoads (session_view self.old) (session_view self.new) }
    {
        let window = self.text.window(s);
        self.text.read_in(window, from, into);
    }

    /// As of every store, by loads alone.
    fn find_unit(&mut self, s: JsStr, unit: u16, from: u32) -> Option<u32>
        requires known { IsKnown (state_in self.old) s.id }
        requires settled { IsSettled (state_in self.old) s.id }
        requires within { from ≤ length (text (state_in self.old) s.id) }
        ensures least { IsFirstUnit (text (state_in self.old) s.id) unit from result }
        ensures uses { Uses (state_in self.old) (state_in self.new) None 0 0 }
        ensures reads { OnlyLoads (session_view self.old) (session_view self.new) }
    {
        let window = self.text.window(s);
        self.text.find_in(window, unit, from)
    }

    /// As of every store. What the agent owned before it owns still; a refused call claimed no id,
    /// and the words that it claimed are the agent's own.
    fn concat(&mut self, a: JsStr, b: JsStr) -> Result<JsStr, ConcatFault>
        requires left { IsKnown (state_in self.old) a.id }
        requires right { IsKnown (state_in self.old) b.id }
        ensures ok { IfOk result
            (λ r. NamesUnits (state_in self.new) r.id
            (text (state_in self.old) a.id ++ text (state_in self.old) b.id)) }
        ensures answer { JoinAnswer result (state_in self.old).limit
            (length (text (state_in self.old) a.id)) (length (text (state_in self.old) b.id)) }
        ensures uses { Uses (state_in self.old) (state_in self.new) (concat_fault_of result)
            (join_ids (length (text (state_in self.old) a.id)) (length (text (state_in self.old) b.id)))
            (join_words (length (text (state_in self.old) a.id)) (length (text (state_in self.old) b.id))) }
        ensures own { KeepsOwn (session_view self.old) (session_view self.new) }
        ensures spared { OnErr result (ClaimsNoId (session_view self.old) (session_view self.new)) }
    {
        match self.text.concat(a, b) {
            Ok(s) => Ok(s),
            Err(fault) => Err(join_fault(fault)),
        }
    }

    /// As of every store. What the agent owned before it owns still; a refused call claimed no id,
    /// and the words that it claimed are the agent's own.
    fn slice(&mut self, s: JsStr, from: u32, to: u32) -> Result<JsStr, StoreFault>
        requires known { IsKnown (state_in self.old) s.id }
        requires settled { IsSettled (state_in self.old) s.id }
        requires order { from ≤ to }
        requires within { to ≤ length (text (state_in self.old) s.id) }
        ensures ok { IfOk result
            (λ r. NamesUnits (state_in self.new) r.id (slice_range (text (state_in self.old) s.id) from to)
            × IsSettled (state_in self.new) r.id) }
        ensures uses { Uses (state_in self.old) (state_in self.new) (fault_of result)
            (cut_ids from to (length (text (state_in self.old) s.id)))
            (cut_words from to (length (text (state_in self.old) s.id))) }
        ensures own { KeepsOwn (session_view self.old) (session_view self.new) }
        ensures spared { OnErr result (ClaimsNoId (session_view self.old) (session_view self.new)) }
    {
        if to - from == 1 {
            return self.one_part(s, from, to);
        }
        self.part_of(s, from, to)
    }

    /// As of every store. The header of `s` then forwards to the answer, unless it is a fixed Flat,
    /// and no slot of the string table is loaded more than twice. The table is reported full
    /// exactly where every slot was found used with other units. No slot is loaded that is noted with another
    /// hash, and the slot of the answer is noted where there is room.
    fn intern(&mut self, s: JsStr) -> Result<JsStr, StoreFault>
        requires { IsKnown (state_in self.old) s.id }
        ensures interns { SettlesAndInterns self.old self.new s result }
    {
        self.intern_by::<Brand>(s, Blank::new(1))
    }

    /// As of every store, and no string is made first: where the interned one is in the table,
    /// nothing is used, else one id and the words of the units. No slot is loaded that is noted with another
    /// hash.
    fn intern_units(&mut self, units: &[u16]) -> Result<JsStr, StoreFault>
        requires { length units.now ≤ (state_in self.old).limit }
        ensures interns { InternsList self.old self.new units.now result }
    {
        self.intern_list(units)
    }

    /// As of every store, with no load.
    fn same(&mut self, a: JsStr, b: JsStr) -> bool
        requires left { IsKnown (state_in self.old) a.id }
        requires right { IsKnown (state_in self.old) b.id }
        requires left_interned { (u : List ℕ) × Interned (state_in self.old) u a.id }
        requires right_interned { (u : List ℕ) × Interned (state_in self.old) u b.id }
        ensures numbers { IsTrue result ↔ (a.id ≡ b.id) }
        ensures units { IsTrue result ↔ (text (state_in self.old) a.id ≡ text (state_in self.old) b.id) }
        ensures uses { Uses (state_in self.old) (state_in self.new) None 0 0 }
        ensures view { session_view self.new ≡ session_view self.old }
    {
        a.id == b.id
    }

    /// Always the number of the string.
    fn id_of(&self, s: JsStr) -> Option<u32>
        ensures { result ≡ Some s.id }
    {
        Some(s.id)
    }

    fn limit(&self) -> u32 {
        self.limit.units()
    }

    ghost sound = { λ s. session_sound (view_of s.text.reader.agent) s.limit
        (table_of (H.reached s.text.reader.heap)) s.text.reader.belongs.5 };
}
