// Strings as UTF-8.
ghost use Rattle.std.specs.Prelude.{◌≡◌, ℕ, List, length, None, Some, IfOk, IfErr};
ghost use Rattle.std.specs.Char.{len_utf8};
ghost use Rattle.heap_rule.specs.Maps.{Has, HasKey};
ghost use Rattle.heap_rule.specs.Views.{IsSeenSettled};
ghost use Rattle.heap_table.specs.Agents.{view_of};
ghost use Rattle.heap_read.specs.Reads.{OnlyLoads};
ghost use Rattle.heap_read.specs.Sides.{LoadsFewForms};
ghost use Rattle.heap_read.specs.Windows.{IsWindow};
ghost use Rattle.heap_text.specs.Keeping.{KeepsText};
ghost use Rattle.heap_export.specs.Encoded.{IsEncodedInto, bytes_of, refused};
ghost use Rattle.heap_export.specs.Encoded;
ghost use Rattle.heap_export.specs.Points.{LoadsWords};
ghost use Rattle.heap_export.specs.Points;

use crate::faults::{Unpaired, WriteFault};
use crate::points::{point_at, put_point};
use crate::runs::{Ahead, put_small, read_run};
use heap_read::HeapRef;
use heap_text::{JsStr, Text, Window};

// The greatest unit of ASCII.
const ASCII: u16 = 0x7F;

/// The UTF-8 of a string into `out`; how many bytes it is. Nothing is written where there is no room for
/// all, or where an unpaired surrogate is refused.
pub fn write_utf8<H: HeapRef>(
    text: &mut Text<H>,
    s: JsStr,
    unpaired: Unpaired,
    out: &mut [u8],
) -> Result<u32, WriteFault>
    requires known { HasKey (view_of text.old.reader.agent).units s.id }
    requires settled { IsSeenSettled (view_of text.old.reader.agent) s.id }
    ensures kept { KeepsText text.old text.new }
    ensures reads { OnlyLoads (view_of text.old.reader.agent) (view_of text.new.reader.agent) }
    ensures few { LoadsFewForms (view_of text.old.reader.agent) (view_of text.new.reader.agent) 3 }
    ensures written { (us : List ℕ) → Has (view_of text.old.reader.agent).units s.id us
        → IsEncodedInto (refused unpaired us) (bytes_of unpaired us) out.old out.new result }
{
    let window = text.window(s);
    write(text, window, unpaired, out)
}

// The UTF-8 of a window.
fn write<H: HeapRef>(
    text: &mut Text<H>,
    w: Window,
    unpaired: Unpaired,
    out: &mut [u8],
) -> Result<u32, WriteFault>
    requires window { (us : List ℕ) × IsWindow (view_of text.old.reader.agent) w us }
    ensures kept { KeepsText text.old text.new }
    ensures loads { LoadsWords (view_of text.old.reader.agent) (view_of text.new.reader.agent) }
    ensures written { (us : List ℕ) → IsWindow (view_of text.old.reader.agent) w us
        → IsEncodedInto (refused unpaired us) (bytes_of unpaired us) out.old out.new result }
{
    match size_of(text, w, unpaired) {
        Err(at) => Err(WriteFault::Unmapped { at }),
        Ok(size) => write_all(text, w, unpaired, size, out),
    }
}

// So many bytes, which are the UTF-8 of a window.
fn write_all<H: HeapRef>(
    text: &mut Text<H>,
    w: Window,
    unpaired: Unpaired,
    size: u32,
    out: &mut [u8],
) -> Result<u32, WriteFault>
    requires size { (us : List ℕ) × IsWindow (view_of text.old.reader.agent) w us
        × (size ≡ length (bytes_of unpaired us)) }
    ensures kept { KeepsText text.old text.new }
    ensures loads { LoadsWords (view_of text.old.reader.agent) (view_of text.new.reader.agent) }
    ensures written { (us : List ℕ) → IsWindow (view_of text.old.reader.agent) w us
        → size ≡ length (bytes_of unpaired us)
        → IsEncodedInto None (bytes_of unpaired us) out.old out.new result }
{
    let count = size as usize;
    if count > out.len() {
        return Err(WriteFault::NoRoom { size });
    }
    fill(text, w, unpaired, &mut out[..count]);
    Ok(size)
}

// How many bytes the UTF-8 of a window has, or the place of an unpaired surrogate that is refused.
fn size_of<H: HeapRef>(text: &mut Text<H>, w: Window, unpaired: Unpaired) -> Result<u32, u32>
    requires window { (us : List ℕ) × IsWindow (view_of text.old.reader.agent) w us }
    ensures kept { KeepsText text.old text.new }
    ensures loads { LoadsWords (view_of text.old.reader.agent) (view_of text.new.reader.agent) }
    ensures size { IfOk result (λ n. (us : List ℕ) → IsWindow (view_of text.old.reader.agent) w us
        → n ≡ length (bytes_of unpaired us)) }
    ensures whole { IfOk result (λ n. (us : List ℕ) → IsWindow (view_of text.old.reader.agent) w us
        → refused unpaired us ≡ None) }
    ensures refused { IfErr result (λ at. (us : List ℕ) → IsWindow (view_of text.old.reader.agent) w us
        → refused unpaired us ≡ Some at) }
{
    let mut ahead = Ahead::new();
    let mut size = 0;
    let mut i = 0;
    while i < w.len {
        let run = read_run(text, w, i, ASCII, &mut ahead);
        if run > 0 {
            size += run;
            i += run;
            continue;
        }
        let point = point_at(text, w, i);
        if is_refused(unpaired, point.value) {
            return Err(i);
        }
        size += width(written(unpaired, point.value));
        i += point.count;
    }
    Ok(size)
}

// The UTF-8 of a window, for which there is just the room.
fn fill<H: HeapRef>(text: &mut Text<H>, w: Window, unpaired: Unpaired, out: &mut [u8])
    requires room { (us : List ℕ) × IsWindow (view_of text.old.reader.agent) w us
        × (length out.old ≡ length (bytes_of unpaired us)) }
    ensures kept { KeepsText text.old text.new }
    ensures loads { LoadsWords (view_of text.old.reader.agent) (view_of text.new.reader.agent) }
    ensures bytes { (us : List ℕ) → IsWindow (view_of text.old.reader.agent) w us
        → length out.old ≡ length (bytes_of unpaired us) → out.new ≡ bytes_of unpaired us }
{
    let mut ahead = Ahead::new();
    let mut at = 0;
    let mut i = 0;
    while i < w.len {
        let run = read_run(text, w, i, ASCII, &mut ahead);
        if run > 0 {
            let end = at + run as usize;
            put_small(&ahead.units, &mut out[at..end]);
            at = end;
            i += run;
            continue;
        }
        let point = point_at(text, w, i);
        at += put_point(written(unpaired, point.value), &mut out[at..]);
        i += point.count;
    }
}

fn is_refused(unpaired: Unpaired, c: u32) -> bool
    ensures { result ≡ Points.is_refused unpaired c }
{
    match unpaired {
        Unpaired::Refuse => is_surrogate(c),
        _ => false,
    }
}

// The code point that is written for one of the string.
fn written(unpaired: Unpaired, c: u32) -> u32
    ensures { result ≡ Points.written unpaired c }
{
    match unpaired {
        Unpaired::Keep => c,
        _ if is_surrogate(c) => 0xFFFD,
        _ => c,
    }
}

fn is_surrogate(c: u32) -> bool
    ensures { result ≡ Encoded.is_unpaired c }
{
    (0xD800..0xE000).contains(&c)
}

// How many bytes the UTF-8 of a code point has.
fn width(c: u32) -> u32
    ensures { result ≡ len_utf8 c }
{
    match c {
        0..0x80 => 1,
        0x80..0x800 => 2,
        0x800..0x10000 => 3,
        _ => 4,
    }
}
