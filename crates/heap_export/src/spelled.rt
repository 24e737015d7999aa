// Strings compared with the units that bytes spell, piece by piece.
ghost use Rattle.std.specs.Prelude.{◌≡◌, ◌↔◌, ℕ, ◌+◌, ◌≤◌, List, length, drop, take, slice_range, IsTrue};
ghost use Rattle.js_search.specs.Order.{units_cmp};
ghost use Rattle.heap_rule.specs.Maps.{Has, HasKey};
ghost use Rattle.heap_rule.specs.Views.{IsSeenSettled};
ghost use Rattle.heap_table.specs.Agents.{view_of};
ghost use Rattle.heap_read.specs.Reads.{OnlyLoads};
ghost use Rattle.heap_read.specs.Sides.{LoadsFewForms};
ghost use Rattle.heap_read.specs.Windows.{IsWindow};
ghost use Rattle.heap_bytes.specs.Spellings.{IsReadable, spelling_units};
ghost use Rattle.heap_text.specs.Keeping.{KeepsText};
ghost use Rattle.heap_export.specs.Points.{LoadsWords};

use heap_bytes::{ROOM, Spelling};
use heap_read::HeapRef;
use heap_text::{JsStr, Text, Window};
use std::cmp::Ordering;

/// The order of a string and the units that bytes spell, where a proper prefix comes first.
pub fn compare_spelled<H: HeapRef>(text: &mut Text<H>, s: JsStr, source: &Spelling) -> Ordering
    requires known { HasKey (view_of text.old.reader.agent).units s.id }
    requires settled { IsSeenSettled (view_of text.old.reader.agent) s.id }
    requires read { IsReadable source.now }
    ensures kept { KeepsText text.old text.new }
    ensures reads { OnlyLoads (view_of text.old.reader.agent) (view_of text.new.reader.agent) }
    ensures few { LoadsFewForms (view_of text.old.reader.agent) (view_of text.new.reader.agent) 3 }
    ensures order { (us : List ℕ) → Has (view_of text.old.reader.agent).units s.id us
        → result ≡ units_cmp us (spelling_units source.now) }
{
    let window = text.window(s);
    compare_window(text, window, source)
}

/// Whether a string has just the units that bytes spell.
pub fn has_spelled<H: HeapRef>(text: &mut Text<H>, s: JsStr, source: &Spelling) -> bool
    requires known { HasKey (view_of text.old.reader.agent).units s.id }
    requires settled { IsSeenSettled (view_of text.old.reader.agent) s.id }
    requires read { IsReadable source.now }
    ensures kept { KeepsText text.old text.new }
    ensures reads { OnlyLoads (view_of text.old.reader.agent) (view_of text.new.reader.agent) }
    ensures few { LoadsFewForms (view_of text.old.reader.agent) (view_of text.new.reader.agent) 3 }
    ensures same { (us : List ℕ) → Has (view_of text.old.reader.agent).units s.id us
        → IsTrue result ↔ (us ≡ spelling_units source.now) }
{
    let window = text.window(s);
    compare_window(text, window, source) == Ordering::Equal
}

// The order of a window's units and those that bytes spell.
fn compare_window<H: HeapRef>(text: &mut Text<H>, w: Window, source: &Spelling) -> Ordering
    requires window { (us : List ℕ) × IsWindow (view_of text.old.reader.agent) w us }
    requires read { IsReadable source.now }
    ensures kept { KeepsText text.old text.new }
    ensures loads { LoadsWords (view_of text.old.reader.agent) (view_of text.new.reader.agent) }
    ensures order { (us : List ℕ) → IsWindow (view_of text.old.reader.agent) w us
        → result ≡ units_cmp us (spelling_units source.now) }
{
    let mut room = [0; ROOM];
    let mut rest = *source;
    let mut done = 0;
    while let Some((count, after)) = rest.split_front(&mut room) {
        let order = compare_piece(text, w, done, &room[..count]);
        if order != Ordering::Equal {
            return order;
        }
        done += count as u32;
        rest = after;
    }
    w.len.cmp(&done)
}

// The order of a window's units from place `from` on, as many as are given or are there, and of those given.
fn compare_piece<H: HeapRef>(text: &mut Text<H>, w: Window, from: u32, units: &[u16]) -> Ordering
    requires window { (us : List ℕ) × IsWindow (view_of text.old.reader.agent) w us }
    requires within { from ≤ w.len }
    requires short { length units.now ≤ 65 }
    ensures kept { KeepsText text.old text.new }
    ensures loads { LoadsWords (view_of text.old.reader.agent) (view_of text.new.reader.agent) }
    ensures order { (us : List ℕ) → IsWindow (view_of text.old.reader.agent) w us
        → result ≡ units_cmp (take (length units.now) (drop from us)) units.now }
{
    let mut room = [0; ROOM];
    let count = units.len().min((w.len - from) as usize);
    compare_shown(text, w, from, units, &mut room[..count])
}

// The order of a window's units from place `from` on, as many as there is room for, and of those given.
fn compare_shown<H: HeapRef>(
    text: &mut Text<H>,
    w: Window,
    from: u32,
    units: &[u16],
    room: &mut [u16],
) -> Ordering
    requires window { (us : List ℕ) × IsWindow (view_of text.old.reader.agent) w us }
    requires within { from + length room.old ≤ w.len }
    ensures kept { KeepsText text.old text.new }
    ensures loads { LoadsWords (view_of text.old.reader.agent) (view_of text.new.reader.agent) }
    ensures order { (us : List ℕ) → IsWindow (view_of text.old.reader.agent) w us
        → result ≡ units_cmp (slice_range us from (from + length room.old)) units.now }
{
    text.read_in(w, from, room);
    let shown: &[u16] = room;
    shown.cmp(units)
}
