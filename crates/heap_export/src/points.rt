// The units and the code points of a window.
ghost use Rattle.std.specs.Prelude.{◌≡◌, ◌++◌, ℕ, ◌<◌, ◌≤◌, List, length, drop, slice_index};
ghost use Rattle.std.specs.Char.{encode_utf8, len_utf8};
ghost use Rattle.heap_table.specs.Agents.{view_of};
ghost use Rattle.heap_read.specs.Windows.{IsWindow};
ghost use Rattle.heap_text.specs.Keeping.{KeepsText};
ghost use Rattle.heap_export.specs.Points.{IsPointAt, LoadsWords};

use heap_read::HeapRef;
use heap_text::{Text, Window};
use js_units::{code_point, is_lead, is_trail};

/// A code point of a string, with the number of units that it takes.
#[derive(Clone, Copy)]
pub(crate) struct Point {
    pub value: u32,
    pub count: u32,
}

// Unit `i` of a window, by one load.
pub(crate) fn unit<H: HeapRef>(text: &mut Text<H>, w: Window, i: u32) -> u16
    requires window { (us : List ℕ) × IsWindow (view_of text.old.reader.agent) w us }
    requires within { i < w.len }
    ensures kept { KeepsText text.old text.new }
    ensures loads { LoadsWords (view_of text.old.reader.agent) (view_of text.new.reader.agent) }
    ensures unit { (us : List ℕ) → IsWindow (view_of text.old.reader.agent) w us → result ≡ slice_index us i }
{
    text.unit_in(w, i)
}

// The code point at place `i` of a window (ECMA-262, "CodePointAt").
pub(crate) fn point_at<H: HeapRef>(text: &mut Text<H>, w: Window, i: u32) -> Point
    requires window { (us : List ℕ) × IsWindow (view_of text.old.reader.agent) w us }
    requires within { i < w.len }
    ensures kept { KeepsText text.old text.new }
    ensures loads { LoadsWords (view_of text.old.reader.agent) (view_of text.new.reader.agent) }
    ensures point { (us : List ℕ) → IsWindow (view_of text.old.reader.agent) w us → IsPointAt us i result }
{
    let first = unit(text, w, i);
    if !is_lead(first) {
        return alone(first);
    }
    if i + 1 >= w.len {
        return alone(first);
    }
    let second = unit(text, w, i + 1);
    if !is_trail(second) {
        return alone(first);
    }
    Point {
        value: code_point(first, second),
        count: 2,
    }
}

// A unit that begins no pair.
fn alone(unit: u16) -> Point
    ensures value { result.value ≡ unit }
    ensures count { result.count ≡ 1 }
{
    Point {
        value: u32::from(unit),
        count: 1,
    }
}

// The bytes of a code point, as UTF-8 has them, to the front of a list; how many they are.
pub(crate) fn put_point(c: u32, out: &mut [u8]) -> usize
    requires range { c < 0x110000 }
    requires room { len_utf8 c ≤ length out.old }
    ensures count { result ≡ len_utf8 c }
    ensures bytes { out.new ≡ encode_utf8 c ++ drop (len_utf8 c) out.old }
{
    if c < 0x80 {
        out[0] = c as u8;
        return 1;
    }
    if c < 0x800 {
        out[0] = (0xC0 + c / 64) as u8;
        out[1] = (0x80 + c % 64) as u8;
        return 2;
    }
    if c < 0x10000 {
        out[0] = (0xE0 + c / 4096) as u8;
        out[1] = (0x80 + c / 64 % 64) as u8;
        out[2] = (0x80 + c % 64) as u8;
        return 3;
    }
    out[0] = (0xF0 + c / 262144) as u8;
    out[1] = (0x80 + c / 4096 % 64) as u8;
    out[2] = (0x80 + c / 64 % 64) as u8;
    out[3] = (0x80 + c % 64) as u8;
    4
}
