// Strings as Latin-1.
ghost use Rattle.std.specs.Prelude.{◌≡◌, ℕ, List, length, Some, None};
ghost use Rattle.heap_rule.specs.Maps.{Has, HasKey};
ghost use Rattle.heap_rule.specs.Views.{IsSeenSettled};
ghost use Rattle.heap_table.specs.Agents.{view_of};
ghost use Rattle.heap_read.specs.Reads.{OnlyLoads};
ghost use Rattle.heap_read.specs.Sides.{LoadsFewForms};
ghost use Rattle.heap_read.specs.Windows.{IsWindow};
ghost use Rattle.heap_text.specs.Keeping.{KeepsText};
ghost use Rattle.heap_export.specs.Encoded.{IsEncodedInto, past_latin1};
ghost use Rattle.heap_export.specs.Points.{LoadsWords};

use crate::faults::WriteFault;
use crate::points::unit;
use crate::runs::{Ahead, put_small, read_block, read_run};
use heap_read::HeapRef;
use heap_text::{JsStr, Text, Window};

/// The units of a string into `out`, a byte each; how many they are. Nothing is written where there is no
/// room for all, or where one is over 255.
pub fn write_latin1<H: HeapRef>(
    text: &mut Text<H>,
    s: JsStr,
    out: &mut [u8],
) -> Result<u32, WriteFault>
    requires known { HasKey (view_of text.old.reader.agent).units s.id }
    requires settled { IsSeenSettled (view_of text.old.reader.agent) s.id }
    ensures kept { KeepsText text.old text.new }
    ensures reads { OnlyLoads (view_of text.old.reader.agent) (view_of text.new.reader.agent) }
    ensures few { LoadsFewForms (view_of text.old.reader.agent) (view_of text.new.reader.agent) 3 }
    ensures written { (us : List ℕ) → Has (view_of text.old.reader.agent).units s.id us
        → IsEncodedInto (past_latin1 0 us) us out.old out.new result }
{
    let window = text.window(s);
    write(text, window, out)
}

// The units of a window, a byte each.
fn write<H: HeapRef>(text: &mut Text<H>, w: Window, out: &mut [u8]) -> Result<u32, WriteFault>
    requires window { (us : List ℕ) × IsWindow (view_of text.old.reader.agent) w us }
    ensures kept { KeepsText text.old text.new }
    ensures loads { LoadsWords (view_of text.old.reader.agent) (view_of text.new.reader.agent) }
    ensures written { (us : List ℕ) → IsWindow (view_of text.old.reader.agent) w us
        → IsEncodedInto (past_latin1 0 us) us out.old out.new result }
{
    match first_past(text, w) {
        Some(at) => Err(WriteFault::Unmapped { at }),
        None => write_all(text, w, out),
    }
}

// The units of a window that are all below 256.
fn write_all<H: HeapRef>(text: &mut Text<H>, w: Window, out: &mut [u8]) -> Result<u32, WriteFault>
    requires narrow { (us : List ℕ) × IsWindow (view_of text.old.reader.agent) w us
        × (past_latin1 0 us ≡ None) }
    ensures kept { KeepsText text.old text.new }
    ensures loads { LoadsWords (view_of text.old.reader.agent) (view_of text.new.reader.agent) }
    ensures written { (us : List ℕ) → IsWindow (view_of text.old.reader.agent) w us
        → IsEncodedInto None us out.old out.new result }
{
    let count = w.len as usize;
    if count > out.len() {
        return Err(WriteFault::NoRoom { size: w.len });
    }
    fill(text, w, &mut out[..count]);
    Ok(w.len)
}

// The place of the first unit that is over 255.
fn first_past<H: HeapRef>(text: &mut Text<H>, w: Window) -> Option<u32>
    requires window { (us : List ℕ) × IsWindow (view_of text.old.reader.agent) w us }
    ensures kept { KeepsText text.old text.new }
    ensures loads { LoadsWords (view_of text.old.reader.agent) (view_of text.new.reader.agent) }
    ensures first { (us : List ℕ) → IsWindow (view_of text.old.reader.agent) w us
        → result ≡ past_latin1 0 us }
{
    let mut ahead = Ahead::new();
    let mut i = 0;
    while i < w.len {
        let run = read_run(text, w, i, 255, &mut ahead);
        if run > 0 {
            i += run;
            continue;
        }
        if unit(text, w, i) > 255 {
            return Some(i);
        }
        i += 1;
    }
    None
}

// The units of a window that are all below 256, for which there is just the room.
fn fill<H: HeapRef>(text: &mut Text<H>, w: Window, out: &mut [u8])
    requires narrow { (us : List ℕ) × IsWindow (view_of text.old.reader.agent) w us
        × (past_latin1 0 us ≡ None) }
    requires room { length out.old ≡ w.len }
    ensures kept { KeepsText text.old text.new }
    ensures loads { LoadsWords (view_of text.old.reader.agent) (view_of text.new.reader.agent) }
    ensures bytes { (us : List ℕ) → IsWindow (view_of text.old.reader.agent) w us → out.new ≡ us }
{
    let mut block = [0; 64];
    let mut i = 0;
    while i < w.len {
        let end = i + read_block(text, w, i, &mut block);
        put_small(&block, &mut out[i as usize..end as usize]);
        i = end;
    }
}
