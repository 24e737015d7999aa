// Strings compared with lists of units.
ghost use Rattle.std.specs.Prelude.{◌≡◌, ◌↔◌, ℕ, ◌+◌, ◌≤◌, List, length, drop, slice_range, IsTrue};
ghost use Rattle.std.specs.Ordering.{ordering_then};
ghost use Rattle.js_search.specs.Order.{units_cmp};
ghost use Rattle.heap_rule.specs.Maps.{Has, HasKey};
ghost use Rattle.heap_rule.specs.Views.{IsSeenSettled};
ghost use Rattle.heap_table.specs.Agents.{view_of};
ghost use Rattle.heap_read.specs.Reads.{OnlyLoads};
ghost use Rattle.heap_read.specs.Sides.{LoadsFewForms};
ghost use Rattle.heap_read.specs.Windows.{IsWindow};
ghost use Rattle.heap_text.specs.Keeping.{KeepsText};
ghost use Rattle.heap_export.specs.Points.{LoadsWords};

use crate::points::unit;
use heap_read::HeapRef;
use heap_text::{JsStr, Text, Window};
use std::cmp::Ordering;

/// The order of a string and a list by units, where a proper prefix comes first.
pub fn compare_units<H: HeapRef>(text: &mut Text<H>, s: JsStr, units: &[u16]) -> Ordering
    requires known { HasKey (view_of text.old.reader.agent).units s.id }
    requires settled { IsSeenSettled (view_of text.old.reader.agent) s.id }
    ensures kept { KeepsText text.old text.new }
    ensures reads { OnlyLoads (view_of text.old.reader.agent) (view_of text.new.reader.agent) }
    ensures few { LoadsFewForms (view_of text.old.reader.agent) (view_of text.new.reader.agent) 3 }
    ensures order { (us : List ℕ) → Has (view_of text.old.reader.agent).units s.id us
        → result ≡ units_cmp us units.now }
{
    let window = text.window(s);
    let long = window.len as usize;
    let common = long.min(units.len());
    let front = compare_front(text, window, units, common as u32);
    front.then(long.cmp(&units.len()))
}

// The order of the first `size` units of both.
fn compare_front<H: HeapRef>(text: &mut Text<H>, w: Window, units: &[u16], size: u32) -> Ordering
    requires window { (us : List ℕ) × IsWindow (view_of text.old.reader.agent) w us }
    requires left_long { size ≤ w.len }
    requires right_long { size ≤ length units.now }
    ensures kept { KeepsText text.old text.new }
    ensures loads { LoadsWords (view_of text.old.reader.agent) (view_of text.new.reader.agent) }
    ensures order { (us : List ℕ) → IsWindow (view_of text.old.reader.agent) w us
        → units_cmp us units.now ≡ ordering_then result (units_cmp (drop size us) (drop size units.now)) }
{
    if size > FEW {
        return compare_long_front(text, w, units, size);
    }
    let mut room = [0; 32];
    compare_span(text, w, units, 0, &mut room[..size as usize])
}

// The same by blocks of many units.
fn compare_long_front<H: HeapRef>(
    text: &mut Text<H>,
    w: Window,
    units: &[u16],
    size: u32,
) -> Ordering
    requires window { (us : List ℕ) × IsWindow (view_of text.old.reader.agent) w us }
    requires left_long { size ≤ w.len }
    requires right_long { size ≤ length units.now }
    ensures kept { KeepsText text.old text.new }
    ensures loads { LoadsWords (view_of text.old.reader.agent) (view_of text.new.reader.agent) }
    ensures order { (us : List ℕ) → IsWindow (view_of text.old.reader.agent) w us
        → units_cmp us units.now ≡ ordering_then result (units_cmp (drop size us) (drop size units.now)) }
{
    let mut room = [0; 256];
    let mut at = 0;
    while at < size {
        let count = MANY.min(size - at);
        let order = compare_span(text, w, units, at, &mut room[..count as usize]);
        if order != Ordering::Equal {
            return order;
        }
        at += count;
    }
    Ordering::Equal
}

// The order of the units of both from place `from` on, as many as there is room for.
fn compare_span<H: HeapRef>(
    text: &mut Text<H>,
    w: Window,
    units: &[u16],
    from: u32,
    room: &mut [u16],
) -> Ordering
    requires window { (us : List ℕ) × IsWindow (view_of text.old.reader.agent) w us }
    requires left_long { from + length room.old ≤ w.len }
    requires right_long { from + length room.old ≤ length units.now }
    ensures kept { KeepsText text.old text.new }
    ensures loads { LoadsWords (view_of text.old.reader.agent) (view_of text.new.reader.agent) }
    ensures order { (us : List ℕ) → IsWindow (view_of text.old.reader.agent) w us
        → units_cmp (drop from us) (drop from units.now) ≡ ordering_then result
        (units_cmp (drop (from + length room.old) us) (drop (from + length room.old) units.now)) }
{
    let at = from as usize;
    let given = &units[at..at + room.len()];
    text.read_in(w, from, room);
    let shown: &[u16] = room;
    shown.cmp(given)
}

/// Whether a string has just these units.
pub fn has_units<H: HeapRef>(text: &mut Text<H>, s: JsStr, units: &[u16]) -> bool
    requires known { HasKey (view_of text.old.reader.agent).units s.id }
    requires settled { IsSeenSettled (view_of text.old.reader.agent) s.id }
    ensures kept { KeepsText text.old text.new }
    ensures reads { OnlyLoads (view_of text.old.reader.agent) (view_of text.new.reader.agent) }
    ensures few { LoadsFewForms (view_of text.old.reader.agent) (view_of text.new.reader.agent) 3 }
    ensures same { (us : List ℕ) → Has (view_of text.old.reader.agent).units s.id us
        → IsTrue result ↔ (us ≡ units.now) }
{
    let window = text.window(s);
    if window.len as usize != units.len() {
        return false;
    }
    shows(text, window, units)
}

// Whether a window shows these units, which are as many.
fn shows<H: HeapRef>(text: &mut Text<H>, w: Window, units: &[u16]) -> bool
    requires window { (us : List ℕ) × IsWindow (view_of text.old.reader.agent) w us }
    requires long { w.len ≡ length units.now }
    ensures kept { KeepsText text.old text.new }
    ensures loads { LoadsWords (view_of text.old.reader.agent) (view_of text.new.reader.agent) }
    ensures same { (us : List ℕ) → IsWindow (view_of text.old.reader.agent) w us
        → IsTrue result ↔ (us ≡ units.now) }
{
    compare_front(text, w, units, w.len) == Ordering::Equal
}

/// The order of two settled strings by units, where a proper prefix comes first.
pub fn compare_strings<H: HeapRef>(text: &mut Text<H>, a: JsStr, b: JsStr) -> Ordering
    requires left_known { HasKey (view_of text.old.reader.agent).units a.id }
    requires left_settled { IsSeenSettled (view_of text.old.reader.agent) a.id }
    requires right_known { HasKey (view_of text.old.reader.agent).units b.id }
    requires right_settled { IsSeenSettled (view_of text.old.reader.agent) b.id }
    ensures kept { KeepsText text.old text.new }
    ensures reads { OnlyLoads (view_of text.old.reader.agent) (view_of text.new.reader.agent) }
    ensures order { (us vs : List ℕ) → Has (view_of text.old.reader.agent).units a.id us
        → Has (view_of text.old.reader.agent).units b.id vs → result ≡ units_cmp us vs }
{
    let left = text.len(a);
    let right = text.len(b);
    let front = compare_fronts(text, a, b, left.min(right));
    front.then(left.cmp(&right))
}

/// Whether two settled strings have the same units.
pub fn has_same_units<H: HeapRef>(text: &mut Text<H>, a: JsStr, b: JsStr) -> bool
    requires left_known { HasKey (view_of text.old.reader.agent).units a.id }
    requires left_settled { IsSeenSettled (view_of text.old.reader.agent) a.id }
    requires right_known { HasKey (view_of text.old.reader.agent).units b.id }
    requires right_settled { IsSeenSettled (view_of text.old.reader.agent) b.id }
    ensures kept { KeepsText text.old text.new }
    ensures reads { OnlyLoads (view_of text.old.reader.agent) (view_of text.new.reader.agent) }
    ensures same { (us vs : List ℕ) → Has (view_of text.old.reader.agent).units a.id us
        → Has (view_of text.old.reader.agent).units b.id vs → IsTrue result ↔ (us ≡ vs) }
{
    let size = text.len(a);
    text.len(b) == size && compare_fronts(text, a, b, size) == Ordering::Equal
}

// The order of the first `size` units of both strings.
fn compare_fronts<H: HeapRef>(text: &mut Text<H>, a: JsStr, b: JsStr, size: u32) -> Ordering
    requires left_known { HasKey (view_of text.old.reader.agent).units a.id }
    requires left_settled { IsSeenSettled (view_of text.old.reader.agent) a.id }
    requires left_long { (us : List ℕ) → Has (view_of text.old.reader.agent).units a.id us
        → size ≤ length us }
    requires right_known { HasKey (view_of text.old.reader.agent).units b.id }
    requires right_settled { IsSeenSettled (view_of text.old.reader.agent) b.id }
    requires right_long { (vs : List ℕ) → Has (view_of text.old.reader.agent).units b.id vs
        → size ≤ length vs }
    ensures kept { KeepsText text.old text.new }
    ensures reads { OnlyLoads (view_of text.old.reader.agent) (view_of text.new.reader.agent) }
    ensures order { (us vs : List ℕ) → Has (view_of text.old.reader.agent).units a.id us
        → Has (view_of text.old.reader.agent).units b.id vs
        → units_cmp us vs ≡ ordering_then result (units_cmp (drop size us) (drop size vs)) }
{
    if a.id == b.id {
        return Ordering::Equal;
    }
    let Some(pair) = text.reader.both_windows(a, b) else {
        return compare_read(text, a, b, size);
    };
    if pair.0.wide != pair.1.wide {
        return compare_read(text, a, b, size);
    }
    compare_windows(text, pair.0, pair.1, size)
}

// Units of a block of short strings, and of long ones.
const FEW: u32 = 32;

const MANY: u32 = 256;

// The same by units that are read into blocks.
fn compare_read<H: HeapRef>(text: &mut Text<H>, a: JsStr, b: JsStr, size: u32) -> Ordering
    requires left_known { HasKey (view_of text.old.reader.agent).units a.id }
    requires left_settled { IsSeenSettled (view_of text.old.reader.agent) a.id }
    requires left_long { (us : List ℕ) → Has (view_of text.old.reader.agent).units a.id us
        → size ≤ length us }
    requires right_known { HasKey (view_of text.old.reader.agent).units b.id }
    requires right_settled { IsSeenSettled (view_of text.old.reader.agent) b.id }
    requires right_long { (vs : List ℕ) → Has (view_of text.old.reader.agent).units b.id vs
        → size ≤ length vs }
    ensures kept { KeepsText text.old text.new }
    ensures reads { OnlyLoads (view_of text.old.reader.agent) (view_of text.new.reader.agent) }
    ensures order { (us vs : List ℕ) → Has (view_of text.old.reader.agent).units a.id us
        → Has (view_of text.old.reader.agent).units b.id vs
        → units_cmp us vs ≡ ordering_then result (units_cmp (drop size us) (drop size vs)) }
{
    if size > FEW {
        return compare_blocks(text, a, b, size);
    }
    let (mut left, mut right) = ([0; 32], [0; 32]);
    let (left, right) = (&mut left[..size as usize], &mut right[..size as usize]);
    compare_block(text, a, b, 0, left, right)
}

// The order of the first `size` units of two windows.
fn compare_windows<H: HeapRef>(text: &mut Text<H>, a: Window, b: Window, size: u32) -> Ordering
    requires left { (us : List ℕ) × IsWindow (view_of text.old.reader.agent) a us }
    requires right { (vs : List ℕ) × IsWindow (view_of text.old.reader.agent) b vs }
    requires within { (size ≤ a.len) × (size ≤ b.len) }
    ensures kept { KeepsText text.old text.new }
    ensures loads { LoadsWords (view_of text.old.reader.agent) (view_of text.new.reader.agent) }
    ensures order { (us vs : List ℕ) → IsWindow (view_of text.old.reader.agent) a us
        → IsWindow (view_of text.old.reader.agent) b vs
        → units_cmp us vs ≡ ordering_then result (units_cmp (drop size us) (drop size vs)) }
{
    let at = text.reader.first_other(a, b, size);
    if at == size {
        return Ordering::Equal;
    }
    let left = unit(text, a, at);
    let right = unit(text, b, at);
    left.cmp(&right)
}

// The same by blocks of many units.
fn compare_blocks<H: HeapRef>(text: &mut Text<H>, a: JsStr, b: JsStr, size: u32) -> Ordering
    requires left_known { HasKey (view_of text.old.reader.agent).units a.id }
    requires left_settled { IsSeenSettled (view_of text.old.reader.agent) a.id }
    requires left_long { (us : List ℕ) → Has (view_of text.old.reader.agent).units a.id us
        → size ≤ length us }
    requires right_known { HasKey (view_of text.old.reader.agent).units b.id }
    requires right_settled { IsSeenSettled (view_of text.old.reader.agent) b.id }
    requires right_long { (vs : List ℕ) → Has (view_of text.old.reader.agent).units b.id vs
        → size ≤ length vs }
    ensures kept { KeepsText text.old text.new }
    ensures reads { OnlyLoads (view_of text.old.reader.agent) (view_of text.new.reader.agent) }
    ensures order { (us vs : List ℕ) → Has (view_of text.old.reader.agent).units a.id us
        → Has (view_of text.old.reader.agent).units b.id vs
        → units_cmp us vs ≡ ordering_then result (units_cmp (drop size us) (drop size vs)) }
{
    let (mut left, mut right) = ([0; 256], [0; 256]);
    let mut done = 0;
    while done < size {
        let count = MANY.min(size - done);
        let order = compare_block(
            text,
            a,
            b,
            done,
            &mut left[..count as usize],
            &mut right[..count as usize],
        );
        if order != Ordering::Equal {
            return order;
        }
        done += count;
    }
    Ordering::Equal
}

// The order of the units of both strings from place `from` on, as many as two buffers of the same length
// have room for. The window of the one is read before that of the other is looked for, which may find the
// words of the one elsewhere.
fn compare_block<H: HeapRef>(
    text: &mut Text<H>,
    a: JsStr,
    b: JsStr,
    from: u32,
    left: &mut [u16],
    right: &mut [u16],
) -> Ordering
    requires left_known { HasKey (view_of text.old.reader.agent).units a.id }
    requires left_settled { IsSeenSettled (view_of text.old.reader.agent) a.id }
    requires left_long { (us : List ℕ) → Has (view_of text.old.reader.agent).units a.id us
        → from + length left.old ≤ length us }
    requires right_known { HasKey (view_of text.old.reader.agent).units b.id }
    requires right_settled { IsSeenSettled (view_of text.old.reader.agent) b.id }
    requires right_long { (vs : List ℕ) → Has (view_of text.old.reader.agent).units b.id vs
        → from + length left.old ≤ length vs }
    requires alike { length right.old ≡ length left.old }
    ensures kept { KeepsText text.old text.new }
    ensures reads { OnlyLoads (view_of text.old.reader.agent) (view_of text.new.reader.agent) }
    ensures order { (us vs : List ℕ) → Has (view_of text.old.reader.agent).units a.id us
        → Has (view_of text.old.reader.agent).units b.id vs
        → units_cmp (drop from us) (drop from vs) ≡ ordering_then result
        (units_cmp (drop (from + length left.old) us) (drop (from + length left.old) vs)) }
{
    read_block(text, a, from, left);
    read_block(text, b, from, right);
    let left: &[u16] = left;
    let right: &[u16] = right;
    left.cmp(right)
}

// The units of a settled string from place `from` on, as many as there is room for.
fn read_block<H: HeapRef>(text: &mut Text<H>, s: JsStr, from: u32, into: &mut [u16])
    requires known { HasKey (view_of text.old.reader.agent).units s.id }
    requires settled { IsSeenSettled (view_of text.old.reader.agent) s.id }
    requires long { (us : List ℕ) → Has (view_of text.old.reader.agent).units s.id us
        → from + length into.old ≤ length us }
    ensures kept { KeepsText text.old text.new }
    ensures reads { OnlyLoads (view_of text.old.reader.agent) (view_of text.new.reader.agent) }
    ensures units { (us : List ℕ) → Has (view_of text.old.reader.agent).units s.id us
        → into.new ≡ slice_range us from (from + length into.old) }
{
    let window = text.window(s);
    text.read_in(window, from, into);
}
