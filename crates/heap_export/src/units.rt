// The units of strings, all of them.
ghost use Rattle.std.specs.Prelude.{◌≡◌, ℕ, List, length, None};
ghost use Rattle.heap_rule.specs.Maps.{Has, HasKey};
ghost use Rattle.heap_rule.specs.Views.{IsSeenSettled};
ghost use Rattle.heap_table.specs.Agents.{view_of};
ghost use Rattle.heap_read.specs.Reads.{OnlyLoads};
ghost use Rattle.heap_read.specs.Sides.{LoadsFewForms};
ghost use Rattle.heap_read.specs.Windows.{IsWindow};
ghost use Rattle.heap_text.specs.Keeping.{KeepsText};
ghost use Rattle.heap_export.specs.Encoded.{IsEncodedInto};
ghost use Rattle.heap_export.specs.Points.{LoadsWords};

use crate::faults::WriteFault;
use heap_read::HeapRef;
use heap_text::{JsStr, Text, Window};

/// The units of a string into `out`; how many they are. Nothing is written where there is no room for all.
pub fn write_units<H: HeapRef>(
    text: &mut Text<H>,
    s: JsStr,
    out: &mut [u16],
) -> Result<u32, WriteFault>
    requires known { HasKey (view_of text.old.reader.agent).units s.id }
    requires settled { IsSeenSettled (view_of text.old.reader.agent) s.id }
    ensures kept { KeepsText text.old text.new }
    ensures reads { OnlyLoads (view_of text.old.reader.agent) (view_of text.new.reader.agent) }
    ensures few { LoadsFewForms (view_of text.old.reader.agent) (view_of text.new.reader.agent) 3 }
    ensures written { (us : List ℕ) → Has (view_of text.old.reader.agent).units s.id us
        → IsEncodedInto None us out.old out.new result }
{
    let window = text.window(s);
    write_window(text, window, out)
}

// The units of a window.
fn write_window<H: HeapRef>(
    text: &mut Text<H>,
    w: Window,
    out: &mut [u16],
) -> Result<u32, WriteFault>
    requires window { (us : List ℕ) × IsWindow (view_of text.old.reader.agent) w us }
    ensures kept { KeepsText text.old text.new }
    ensures loads { LoadsWords (view_of text.old.reader.agent) (view_of text.new.reader.agent) }
    ensures written { (us : List ℕ) → IsWindow (view_of text.old.reader.agent) w us
        → IsEncodedInto None us out.old out.new result }
{
    let count = w.len as usize;
    if count > out.len() {
        return Err(WriteFault::NoRoom { size: w.len });
    }
    fill_units(text, w, &mut out[..count]);
    Ok(w.len)
}

// The units of a window, for which there is just the room.
pub(crate) fn fill_units<H: HeapRef>(text: &mut Text<H>, w: Window, out: &mut [u16])
    requires window { (us : List ℕ) × IsWindow (view_of text.old.reader.agent) w us }
    requires room { length out.old ≡ w.len }
    ensures kept { KeepsText text.old text.new }
    ensures loads { LoadsWords (view_of text.old.reader.agent) (view_of text.new.reader.agent) }
    ensures units { (us : List ℕ) → IsWindow (view_of text.old.reader.agent) w us → out.new ≡ us }
{
    text.read_in(w, 0, out);
}
