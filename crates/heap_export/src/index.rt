// Strings that are array indexes.
ghost use Rattle.std.specs.Prelude.{◌≡◌, ℕ, ◌≤◌, List, length, true};
ghost use Rattle.std.specs.Str.{all_ascii_digits};
ghost use Rattle.heap_rule.specs.Maps.{Has, HasKey};
ghost use Rattle.heap_rule.specs.Views.{IsSeenSettled};
ghost use Rattle.heap_table.specs.Agents.{view_of};
ghost use Rattle.heap_read.specs.Reads.{OnlyLoads};
ghost use Rattle.heap_read.specs.Sides.{LoadsFewForms};
ghost use Rattle.heap_read.specs.Windows.{IsWindow};
ghost use Rattle.heap_text.specs.Keeping.{KeepsText};
ghost use Rattle.heap_export.specs.Digits.{has_form, index_read, read_on};
ghost use Rattle.heap_export.specs.Index.{IsArrayIndex};
ghost use Rattle.heap_export.specs.Points.{LoadsWords};

use crate::units::fill_units;
use heap_read::HeapRef;
use heap_text::{JsStr, Text, Window};

// 4294967294, the greatest array index, has so many digits.
const MOST_DIGITS: usize = 10;

/// The number of a string that is an array index (ECMA-262, "array index").
pub fn array_index<H: HeapRef>(text: &mut Text<H>, s: JsStr) -> Option<u32>
    requires known { HasKey (view_of text.old.reader.agent).units s.id }
    requires settled { IsSeenSettled (view_of text.old.reader.agent) s.id }
    ensures kept { KeepsText text.old text.new }
    ensures reads { OnlyLoads (view_of text.old.reader.agent) (view_of text.new.reader.agent) }
    ensures few { LoadsFewForms (view_of text.old.reader.agent) (view_of text.new.reader.agent) 3 }
    ensures index { (us : List ℕ) → Has (view_of text.old.reader.agent).units s.id us → IsArrayIndex us
        result }
{
    let window = text.window(s);
    index_in(text, window)
}

// The number of a window's units.
fn index_in<H: HeapRef>(text: &mut Text<H>, w: Window) -> Option<u32>
    requires window { (us : List ℕ) × IsWindow (view_of text.old.reader.agent) w us }
    ensures kept { KeepsText text.old text.new }
    ensures loads { LoadsWords (view_of text.old.reader.agent) (view_of text.new.reader.agent) }
    ensures index { (us : List ℕ) → IsWindow (view_of text.old.reader.agent) w us → IsArrayIndex us result }
{
    let count = w.len as usize;
    if count > MOST_DIGITS {
        return None;
    }
    let mut digits = [0; MOST_DIGITS];
    index_by(text, w, &mut digits[..count])
}

// The number of a window's units, for which there is just the room.
fn index_by<H: HeapRef>(text: &mut Text<H>, w: Window, digits: &mut [u16]) -> Option<u32>
    requires window { (us : List ℕ) × IsWindow (view_of text.old.reader.agent) w us }
    requires room { length digits.old ≡ w.len }
    ensures kept { KeepsText text.old text.new }
    ensures loads { LoadsWords (view_of text.old.reader.agent) (view_of text.new.reader.agent) }
    ensures index { (us : List ℕ) → IsWindow (view_of text.old.reader.agent) w us → IsArrayIndex us result }
{
    fill_units(text, w, digits);
    index_of_digits(digits)
}

// The number whose decimal digits the units are, where it is an array index.
fn index_of_digits(units: &[u16]) -> Option<u32>
    ensures { IsArrayIndex units.now result }
{
    parsed(units)
}

fn parsed(units: &[u16]) -> Option<u32>
    ensures { result ≡ index_read units.now }
{
    if !is_numeral(units) {
        return None;
    }
    u32::try_from(read(units)).ok().filter(|n| *n < u32::MAX)
}

// One to ten digits, with no zero in front of others.
fn is_numeral(units: &[u16]) -> bool
    ensures { result ≡ has_form units.now }
{
    match units {
        [] => false,
        [first, rest @ ..] => {
            (*first != 0x30 || rest.is_empty()) && rest.len() <= 9 && are_digits(units)
        }
    }
}

fn are_digits(units: &[u16]) -> bool
    ensures { result ≡ all_ascii_digits units.now }
{
    for unit in units {
        if !(0x30..0x3A).contains(unit) {
            return false;
        }
    }
    true
}

fn read(units: &[u16]) -> u64
    requires few { length units.now ≤ 10 }
    requires digits { all_ascii_digits units.now ≡ true }
    ensures { result ≡ read_on 0 units.now }
{
    let mut value = 0;
    for unit in units {
        value = value * 10 + u64::from(*unit - 0x30);
    }
    value
}
