// Ropes joined and settled, and slices cut.
ghost use Rattle.std.specs.Prelude.{◌≡◌, ℕ, List, IfOk, length};
ghost use Rattle.heap_rule.specs.Maps.{Has, HasKey};
ghost use Rattle.heap_rule.specs.Views.{IsSeenSettled};
ghost use Rattle.heap_table.specs.Agents.{Belongs, view_of};

use crate::flat::UNITS;
use crate::measures::NoRoom;
use heap_rule::{HeapSize, MAX};
use heap_table::Heap;
use heap_text::{JsStr, Text};
use std::alloc::Global;

// The units of a slice, which are all of its parent's but one.
const PART: u32 = 1_000_000;

/// The size of a heap for so many joins of one unit, and for `copies` of all units.
pub(crate) fn room_for(joins: u32, copies: u32) -> Option<HeapSize> {
    let words = (joins.checked_add(12)? / 8 + 2).checked_mul(copies)?;
    Some(HeapSize {
        ids: joins.checked_add(3)?,
        words: words.checked_add(4)?,
        slots: 1,
    })
}

// A rope of so many joins of a unit, settled or not.
pub(crate) fn grow_rope(
    alloc: Global,
    joins: u32,
    front: bool,
    settling: bool,
) -> Result<u64, NoRoom> {
    let Some(size) = room_for(joins, 8) else {
        return Err(NoRoom);
    };
    let Ok((heap, agent)) = Heap::make(alloc, size, 1) else {
        return Err(NoRoom);
    };
    let mut text = Text::new(&heap, agent, MAX);
    let s = make_rope(&mut text, joins, front)?;
    if !settling {
        return Ok(u64::from(text.len(s)));
    }
    match text.settle(s) {
        Ok(()) => Ok(u64::from(text.len(s))),
        Err(_) => Err(NoRoom),
    }
}

// A rope of 13 units, to which such ropes are joined.
pub(crate) fn join_ropes(alloc: Global, joins: u32, front: bool) -> Result<u64, NoRoom> {
    let Some(size) = room_for(joins, 0) else {
        return Err(NoRoom);
    };
    let Ok((heap, agent)) = Heap::make(alloc, size, 1) else {
        return Err(NoRoom);
    };
    let mut text = Text::new(&heap, agent, MAX);
    let side = make_rope(&mut text, 1, false)?;
    let s = join_often(&mut text, side, side, joins, front)?;
    Ok(u64::from(text.len(s)))
}

// Twelve units, to which so many are joined.
pub(crate) fn make_rope(text: &mut Text<&Heap>, joins: u32, front: bool) -> Result<JsStr, NoRoom>
    requires text { Belongs text.old.reader.agent text.old.reader.heap.now }
    ensures text { Belongs text.new.reader.agent text.new.reader.heap.now }
    ensures heap { text.new.reader.heap ≡ text.old.reader.heap }
    ensures share { (view_of text.new.reader.agent).share ≡ (view_of text.old.reader.agent).share }
    ensures known { IfOk result (λ s. HasKey (view_of text.new.reader.agent).units s.id) }
{
    let units = UNITS;
    let Ok(unit) = text.make_flat(&units[..1]) else {
        return Err(NoRoom);
    };
    let Ok(s) = text.make_flat(&units[..12]) else {
        return Err(NoRoom);
    };
    join_often(text, s, unit, joins, front)
}

fn join_often(
    text: &mut Text<&Heap>,
    mut s: JsStr,
    side: JsStr,
    joins: u32,
    front: bool,
) -> Result<JsStr, NoRoom>
    requires text { Belongs text.old.reader.agent text.old.reader.heap.now }
    requires known { HasKey (view_of text.old.reader.agent).units s.id }
    requires side { HasKey (view_of text.old.reader.agent).units side.id }
    ensures text { Belongs text.new.reader.agent text.new.reader.heap.now }
    ensures heap { text.new.reader.heap ≡ text.old.reader.heap }
    ensures share { (view_of text.new.reader.agent).share ≡ (view_of text.old.reader.agent).share }
    ensures known { IfOk result (λ s. HasKey (view_of text.new.reader.agent).units s.id) }
{
    for _join in 0..joins {
        s = join_side(text, s, side, front)?;
    }
    Ok(s)
}

fn join_side(text: &mut Text<&Heap>, s: JsStr, side: JsStr, front: bool) -> Result<JsStr, NoRoom>
    requires text { Belongs text.old.reader.agent text.old.reader.heap.now }
    requires known { HasKey (view_of text.old.reader.agent).units s.id }
    requires side { HasKey (view_of text.old.reader.agent).units side.id }
    ensures text { Belongs text.new.reader.agent text.new.reader.heap.now }
    ensures heap { text.new.reader.heap ≡ text.old.reader.heap }
    ensures share { (view_of text.new.reader.agent).share ≡ (view_of text.old.reader.agent).share }
    ensures side { HasKey (view_of text.new.reader.agent).units side.id }
    ensures known { IfOk result (λ t. HasKey (view_of text.new.reader.agent).units t.id) }
{
    if front {
        let Ok(t) = text.concat(side, s) else {
            return Err(NoRoom);
        };
        return Ok(t);
    }
    let Ok(t) = text.concat(s, side) else {
        return Err(NoRoom);
    };
    Ok(t)
}

// So many times the same letter.
fn letters(alloc: Global, count: usize) -> Result<Vec<u16>, NoRoom>
    ensures { IfOk result (λ units. length units.items ≡ count) }
{
    let Ok(units) = Vec::from_elem(alloc, 97u16, count) else {
        return Err(NoRoom);
    };
    Ok(units)
}

// So many slices of one string.
pub(crate) fn cut_parts(alloc: Global, count: u32) -> Result<u64, NoRoom> {
    let Some(ids) = count.checked_add(1) else {
        return Err(NoRoom);
    };
    let size = HeapSize {
        ids,
        words: PART / 8 + 1,
        slots: 1,
    };
    let Ok((heap, agent)) = Heap::make(alloc, size, 1) else {
        return Err(NoRoom);
    };
    let units = letters(alloc, PART as usize + 1)?;
    let mut text = Text::new(&heap, agent, MAX);
    let Ok(s) = text.make_flat(units.as_slice()) else {
        return Err(NoRoom);
    };
    let Ok(()) = text.settle(s) else {
        return Err(NoRoom);
    };
    cut_often(&mut text, s, count)
}

fn cut_often(text: &mut Text<&Heap>, s: JsStr, count: u32) -> Result<u64, NoRoom>
    requires text { Belongs text.old.reader.agent text.old.reader.heap.now }
    requires settled { IsSeenSettled (view_of text.old.reader.agent) s.id }
    requires known { (us : List ℕ) × Has (view_of text.old.reader.agent).units s.id us
        × (length us ≡ 1000001) }
{
    let mut sum = 0u64;
    for i in 0..count {
        let from = i % 2;
        let Ok(part) = text.slice(s, from, from + PART) else {
            return Err(NoRoom);
        };
        sum = sum.wrapping_add(u64::from(part.id));
    }
    Ok(sum)
}
