// The calls that a play makes on a `Text`, on the string table and on an agent, each in one form.
ghost use Rattle.std.specs.Prelude.{◌≡◌, ◌≤◌, ◌<◌, IfOk, IfSome, length};
ghost use Rattle.js_header.specs.Form.{IsInRange};
ghost use Rattle.heap_rule.specs.Maps.{HasKey};
ghost use Rattle.heap_table.specs.Agents.{size_of};
ghost use Rattle.heap_read.specs.Readers.{MovesView, view_in};
ghost use Rattle.test_strings.specs.Turns.{Turns};

use heap_intern::{TableFull, find_units, intern, intern_units};
use heap_read::{Reader, Steps};
use heap_table::Heap;
use heap_text::{JoinFault, JsStr, Text, TextFull};
use js_header::Form;
use std::sync::ledger::{Blank, Ledger};

pub(crate) fn flat(text: &mut Text<&Heap>, units: &[u16]) -> Result<JsStr, TextFull>
    requires short { length units.now ≤ 65536 }
    ensures goes { MovesView Turns text.old.reader text.new.reader }
    ensures known { IfOk result (λ s. HasKey (view_in text.new.reader).units s.id) }
{
    text.make_flat(units)
}

pub(crate) fn joined(text: &mut Text<&Heap>, a: JsStr, b: JsStr) -> Result<JsStr, JoinFault>
    requires left { HasKey (view_in text.old.reader).units a.id }
    requires right { HasKey (view_in text.old.reader).units b.id }
    ensures goes { MovesView Turns text.old.reader text.new.reader }
    ensures known { IfOk result (λ s. HasKey (view_in text.new.reader).units s.id) }
{
    text.concat(a, b)
}

/// A part of a string, once that is settled; None where it has no such part.
pub(crate) fn cut(
    text: &mut Text<&Heap>,
    s: JsStr,
    from: u32,
    to: u32,
) -> Option<Result<JsStr, TextFull>>
    requires known { HasKey (view_in text.old.reader).units s.id }
    ensures goes { MovesView Turns text.old.reader text.new.reader }
    ensures known { IfSome result
        (λ r. IfOk r (λ t. HasKey (view_in text.new.reader).units t.id)) }
{
    let Ok(()) = text.settle(s) else {
        return None;
    };
    let n = text.len(s);
    if from > to || to > n {
        return None;
    }
    Some(text.slice(s, from, to))
}

/// Whether the string has these units, read one by one, by a window and without.
pub(crate) fn reads(text: &mut Text<&Heap>, s: JsStr, want: &[u16]) -> bool
    requires known { HasKey (view_in text.old.reader).units s.id }
    ensures goes { MovesView Turns text.old.reader text.new.reader }
{
    let Ok(()) = text.settle(s) else {
        return false;
    };
    if text.len(s) as usize != want.len() {
        return false;
    }
    let window = text.window(s);
    for i in 0..window.len {
        if text.unit_in(window, i) != want[i as usize] {
            return false;
        }
    }
    for k in 0..window.len {
        if text.unit_at(s, k) != want[k as usize] {
            return false;
        }
    }
    true
}

/// The number that a string is interned as, once it is settled.
pub(crate) fn interned(text: &mut Text<&Heap>, s: JsStr) -> Option<Result<u32, TableFull>>
    requires known { HasKey (view_in text.old.reader).units s.id }
    ensures goes { MovesView Turns text.old.reader text.new.reader }
    ensures known { IfSome result
        (λ r. IfOk r (λ i. HasKey (view_in text.new.reader).units i)) }
{
    let Ok(()) = text.settle(s) else {
        return None;
    };
    Some(intern(&mut text.reader, s.id))
}

/// The number of the interned string with these units. Where there is none, one is made if `make` says so.
pub(crate) fn of_table(
    text: &mut Text<&Heap>,
    units: &[u16],
    make: bool,
) -> Option<Result<u32, TableFull>>
    requires short { length units.now ≤ 65536 }
    ensures goes { MovesView Turns text.old.reader text.new.reader }
    ensures known { IfSome result
        (λ r. IfOk r (λ i. HasKey (view_in text.new.reader).units i)) }
{
    if make {
        return match intern_units(&mut text.reader, units, &mut []) {
            Ok(seat) => Some(Ok(seat.id)),
            Err(full) => Some(Err(full)),
        };
    }
    match find_units(&mut text.reader, units) {
        Some(id) => Some(Ok(id)),
        None => None,
    }
}

/// The first content word of a string that is flat; None where it is empty or has another form.
pub(crate) fn first_word(reader: &mut Reader<&Heap>, s: JsStr) -> Option<u64>
    requires known { HasKey (view_in reader.old).units s.id }
    ensures goes { MovesView Turns reader.old reader.new }
{
    let Form::Flat { start, .. } = reader.form_now(s.id) else {
        return None;
    };
    if reader.agent.load_length(reader.heap, s.id) == 0 {
        return None;
    }
    Some(reader.agent.load_word(reader.heap, start))
}

/// The length of a string, and its first and its last unit, once it is settled with a count of the
/// loads of forms.
pub(crate) fn ends<L: Ledger>(
    text: &mut Text<&Heap>,
    s: JsStr,
    blank: Blank,
) -> Option<(u32, u16, u16)>
    requires name { blank.name ≡ L.name }
    requires parts { blank.parts ≡ L.parts }
    requires some { 0 < blank.parts }
    requires known { HasKey (view_in text.old.reader).units s.id }
    ensures goes { MovesView Turns text.old.reader text.new.reader }
{
    let mut steps = Steps::<L>::start(blank);
    let Ok(()) = text.settle_counted(s, &mut steps) else {
        return None;
    };
    let window = text.window(s);
    if window.len == 0 {
        return None;
    }
    let first = text.unit_in(window, 0);
    Some((window.len, first, text.unit_in(window, window.len - 1)))
}
