// Flat strings made and read, and plain lists beside them.
ghost use Rattle.std.specs.Prelude.{◌≡◌, ◌<◌, ◌≤◌, ℕ, List, length};
ghost use Rattle.heap_rule.specs.Maps.{Has};
ghost use Rattle.heap_rule.specs.Views.{IsSeenSettled};
ghost use Rattle.heap_table.specs.Agents.{Belongs, view_of};

use crate::measures::NoRoom;
use heap_rule::{HeapSize, MAX};
use heap_table::Heap;
use heap_text::{JsStr, Text};
use std::alloc::Global;

/// The units of short strings and lists.
pub(crate) const UNITS: [u16; 64] = [97; 64];

// The units of a long list.
const LONG: u32 = 1_000_000;

// Strings of so many units made on a heap that has room for them, or the units of one read.
pub(crate) fn on_heap(alloc: Global, units: u32, count: u32, making: bool) -> Result<u64, NoRoom>
    requires { (1 ≤ units) × (units ≤ 64) }
{
    let strings = if making { count.max(1) } else { 1 };
    let Some(words) = strings.checked_mul((units + 7) / 8) else {
        return Err(NoRoom);
    };
    let size = HeapSize {
        ids: strings,
        words,
        slots: 1,
    };
    let Ok((heap, agent)) = Heap::make(alloc, size, 1) else {
        return Err(NoRoom);
    };
    let mut text = Text::new(&heap, agent, MAX);
    if making {
        make_strings(&mut text, units, count)
    } else {
        read_string(&mut text, count)
    }
}

pub(crate) fn copy_lists(alloc: Global, count: u32) -> Result<u64, NoRoom> {
    let mut lists = Vec::new(alloc);
    for _turn in 0..count {
        let Ok(list) = Vec::from_slice(alloc, UNITS.as_slice()) else {
            return Err(NoRoom);
        };
        if lists.push(list).is_err() {
            return Err(NoRoom);
        }
    }
    Ok(lists.len() as u64)
}

pub(crate) fn read_list(alloc: Global, count: u32) -> Result<u64, NoRoom> {
    let Ok(list) = Vec::from_slice(alloc, UNITS.as_slice()) else {
        return Err(NoRoom);
    };
    let mut sum = 0u64;
    for i in 0..count {
        let Some(unit) = list.get((i % 64) as usize) else {
            return Err(NoRoom);
        };
        sum = sum.wrapping_add(u64::from(*unit));
    }
    Ok(sum)
}

// The size of a heap with so many content words.
fn size_of(words: u32) -> HeapSize {
    HeapSize {
        ids: (words / 16).max(1),
        words,
        slots: (words / 64).max(1),
    }
}

// A long list, copied so often; of each copy one unit is read.
pub(crate) fn copy_long(alloc: Global, count: u32) -> Result<u64, NoRoom> {
    let Ok(list) = Vec::from_elem(alloc, 97u16, LONG as usize) else {
        return Err(NoRoom);
    };
    let mut sum = 0u64;
    for i in 0..count {
        let Ok(copy) = Vec::from_slice(alloc, list.as_slice()) else {
            return Err(NoRoom);
        };
        let Some(unit) = copy.get((i % LONG) as usize) else {
            return Err(NoRoom);
        };
        sum = sum.wrapping_add(u64::from(*unit));
    }
    Ok(sum)
}

pub(crate) fn make_heap(alloc: Global, words: u32) -> Result<u64, NoRoom> {
    match Heap::make(alloc, size_of(words), 1) {
        Ok(_) => Ok(1),
        Err(_) => Err(NoRoom),
    }
}

pub(crate) fn make_zeros(alloc: Global, words: u32) -> Result<u64, NoRoom> {
    let HeapSize { ids, words, slots } = size_of(words);
    let all = 2 + u64::from(slots) + 2 * u64::from(ids) + u64::from(words);
    match Vec::from_elem(alloc, 0u64, all as usize) {
        Ok(_) => Ok(1),
        Err(_) => Err(NoRoom),
    }
}

fn make_strings(text: &mut Text<&Heap>, units: u32, count: u32) -> Result<u64, NoRoom>
    requires text { Belongs text.old.reader.agent text.old.reader.heap.now }
    requires units { units ≤ 64 }
{
    let all = UNITS;
    let mut made = 0;
    for i in 0..count {
        let Ok(_) = text.make_flat(&all[..units as usize]) else {
            return Err(NoRoom);
        };
        made = i + 1;
    }
    Ok(u64::from(made))
}

fn read_string(text: &mut Text<&Heap>, count: u32) -> Result<u64, NoRoom>
    requires text { Belongs text.old.reader.agent text.old.reader.heap.now }
{
    let units = UNITS;
    let Ok(s) = text.make_flat(units.as_slice()) else {
        return Err(NoRoom);
    };
    let Ok(()) = text.settle(s) else {
        return Err(NoRoom);
    };
    Ok(read_units(text, s, count))
}

// The sum of so many of the string's units, in turn.
fn read_units(text: &mut Text<&Heap>, s: JsStr, count: u32) -> u64
    requires text { Belongs text.old.reader.agent text.old.reader.heap.now }
    requires settled { IsSeenSettled (view_of text.old.reader.agent) s.id }
    requires known { (us : List ℕ) × Has (view_of text.old.reader.agent).units s.id us × (length us ≡ 64) }
{
    let mut sum = 0u64;
    for i in 0..count {
        let unit = text.unit_at(s, i % 64);
        sum = sum.wrapping_add(u64::from(unit));
    }
    sum
}
