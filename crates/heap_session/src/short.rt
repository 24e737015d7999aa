// Short strings, which a session keeps for a while after it made them.
ghost use Rattle.std.specs.Prelude.{◌≡◌, ◌≤◌, ◌↔◌, ℕ, List, length, IsTrue, None, IfOk, IfSome, OnErr, OnOk};
ghost use Rattle.js_store.specs.Faults.{fault_of, Uses};
ghost use Rattle.js_store.specs.Rows.{flat_words};
ghost use Rattle.js_store.specs.State.{NamesUnits, IsSettled};
ghost use Rattle.heap_rule.specs.Maps as maps;
ghost use Rattle.heap_rule.specs.Views as views;
ghost use Rattle.heap_table.specs.Agents.{view_of};
ghost use Rattle.heap_read.specs.Reads.{OnlyLoads};
ghost use Rattle.heap_read.specs.Windows.{IsWindow};
ghost use Rattle.heap_text.specs.Texts.{KeepsOwn};
ghost use Rattle.heap_session.specs.Owning.{ClaimsNoId, IsKeptOrMade};
ghost use Rattle.heap_session.specs.Sessions.{state_in, session_view};

use crate::recent::Mark;
use crate::session::Session;
use heap_read::{HeapRef, Window};
use heap_text::{JsStr, Text};
use js_store::StoreFault;

// The units of the longest string that is kept.
pub(crate) const SHORT: usize = 32;

impl<H: HeapRef> Session<H> {
    // A string of few units: the one that was made lately, or else a new one.
    pub(crate) fn short_of(&mut self, units: &[u16]) -> Result<JsStr, StoreFault>
        requires limit { length units.now ≤ (state_in self.old).limit }
        requires few { length units.now ≤ 32 }
        ensures ok { IfOk result
            (λ r. NamesUnits (state_in self.new) r.id units.now × IsSettled (state_in self.new) r.id) }
        ensures uses { Uses (state_in self.old) (state_in self.new) (fault_of result)
            1 (flat_words units.now) }
        ensures made { OnOk result (IsKeptOrMade (session_view self.old) (session_view self.new) units.now) }
        ensures own { KeepsOwn (session_view self.old) (session_view self.new) }
        ensures spared { OnErr result (ClaimsNoId (session_view self.old) (session_view self.new)) }
    {
        let mark = Mark::new(units);
        if let Some(kept) = self.recent_of(mark, units) {
            return Ok(kept);
        }
        match self.flat_of(units) {
            Ok(s) => {
                self.recent.keep(mark, s);
                Ok(s)
            }
            Err(fault) => Err(fault),
        }
    }

    // The string of these units that was made lately, where it is kept.
    fn recent_of(&mut self, mark: Mark, units: &[u16]) -> Option<JsStr>
        requires { length units.now ≤ 32 }
        ensures has { IfSome result
            (λ r. NamesUnits (state_in self.new) r.id units.now × IsSettled (state_in self.new) r.id) }
        ensures uses { Uses (state_in self.old) (state_in self.new) None 0 0 }
        ensures reads { OnlyLoads (session_view self.old) (session_view self.new) }
    {
        let kept = match self.recent.get(mark) {
            Some(kept) => kept,
            None => return None,
        };
        if has_units(&mut self.text, kept, units) {
            return Some(kept);
        }
        None
    }
}

// Whether a settled string has these units, by loads.
#[inline(never)]
fn has_units<H: HeapRef>(text: &mut Text<H>, s: JsStr, units: &[u16]) -> bool
    requires known { maps.HasKey (view_of text.old.reader.agent).units s.id }
    requires settled { views.IsSeenSettled (view_of text.old.reader.agent) s.id }
    requires few { length units.now ≤ 32 }
    ensures heap { text.new.reader.heap ≡ text.old.reader.heap }
    ensures limit { text.new.limit ≡ text.old.limit }
    ensures reads { OnlyLoads (view_of text.old.reader.agent) (view_of text.new.reader.agent) }
    ensures has { (us : List ℕ) → maps.Has (view_of text.old.reader.agent).units s.id us
        → IsTrue result ↔ (us ≡ units.now) }
{
    let window = text.window(s);
    let count = units.len();
    if window.len as usize != count {
        return false;
    }
    let mut read = [0; SHORT];
    shows(text, window, units, &mut read[..count])
}

// Whether a window shows these units, which are as many; there is room to read as many.
fn shows<H: HeapRef>(text: &mut Text<H>, window: Window, units: &[u16], read: &mut [u16]) -> bool
    requires window { (us : List ℕ) × IsWindow (view_of text.old.reader.agent) window us }
    requires long { window.len ≡ length units.now }
    requires room { length read.old ≡ length units.now }
    ensures heap { text.new.reader.heap ≡ text.old.reader.heap }
    ensures limit { text.new.limit ≡ text.old.limit }
    ensures reads { OnlyLoads (view_of text.old.reader.agent) (view_of text.new.reader.agent) }
    ensures shows { (us : List ℕ) → IsWindow (view_of text.old.reader.agent) window us
        → window.len ≡ length us → IsTrue result ↔ (us ≡ units.now) }
{
    text.read_in(window, 0, read);
    is_same(read, units)
}

// Whether both lists have the same units.
fn is_same(left: &[u16], right: &[u16]) -> bool
    ensures { IsTrue result ↔ (left.now ≡ right.now) }
{
    left == right
}
