// The units of a string of a heap, added to a text.
ghost use Rattle.std.specs.Prelude.{◌≡◌, ◌++◌, ℕ, ◌+◌, ◌≤◌, List, length, vec_len, vec_capacity};
ghost use Rattle.heap_rule.specs.Maps.{Has, HasKey};
ghost use Rattle.heap_rule.specs.Views.{IsSeenSettled};
ghost use Rattle.heap_table.specs.Agents.{view_of};
ghost use Rattle.heap_read.specs.Reads.{KeepsForms, OnlyLoads};
ghost use Rattle.heap_read.specs.Sides.{LoadsFewForms};
ghost use Rattle.heap_read.specs.Windows.{IsWindow};
ghost use Rattle.heap_text.specs.Keeping.{KeepsText};
ghost use Rattle.heap_build.specs.Built.{AddsUnits, room_in};

use crate::builder::Builder;
use crate::faults::BuildFault;
use heap_read::HeapRef;
use heap_text::{JsStr, Text, Window};

impl Builder {
    /// Adds the units of a settled string, by loads alone.
    pub fn push_text<H: HeapRef>(&mut self, text: &mut Text<H>, s: JsStr) -> Result<(), BuildFault>
        requires known { HasKey (view_of text.old.reader.agent).units s.id }
        requires settled { IsSeenSettled (view_of text.old.reader.agent) s.id }
        ensures kept { KeepsText text.old text.new }
        ensures reads { OnlyLoads (view_of text.old.reader.agent) (view_of text.new.reader.agent) }
        ensures few { LoadsFewForms (view_of text.old.reader.agent) (view_of text.new.reader.agent) 3 }
        ensures added { (us : List ℕ) → Has (view_of text.old.reader.agent).units s.id us
            → AddsUnits self.old self.new us result }
        ensures room { room_in self.old ≤ room_in self.new }
    {
        let window = text.window(s);
        match self.make_room(window.len as usize) {
            Ok(()) => {
                fill_window(text, window, &mut self.units);
                Ok(())
            }
            Err(fault) => Err(fault),
        }
    }
}

// Adds the units of a window, for which there is room.
fn fill_window<H: HeapRef>(text: &mut Text<H>, w: Window, units: &mut Vec<u16>)
    requires window { (us : List ℕ) × IsWindow (view_of text.old.reader.agent) w us }
    requires room { vec_len units.old + w.len ≤ vec_capacity units.old }
    ensures kept { KeepsText text.old text.new }
    ensures reads { OnlyLoads (view_of text.old.reader.agent) (view_of text.new.reader.agent) }
    ensures forms { KeepsForms (view_of text.old.reader.agent) (view_of text.new.reader.agent) }
    ensures added { (us : List ℕ) → IsWindow (view_of text.old.reader.agent) w us
        → units.new.items ≡ units.old.items ++ us }
    ensures room { vec_capacity units.old ≤ vec_capacity units.new }
{
    let from = units.len();
    match units.resize(from + w.len as usize, 0) {
        Ok(()) => text.read_in(w, 0, &mut units.as_mut_slice()[from..]),
        Err(_) => unreachable!(),
    }
}
