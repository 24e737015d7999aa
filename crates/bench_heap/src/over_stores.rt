// What is timed, over any store.
ghost use Rattle.std.specs.Prelude.{◌≡◌, ◌<◌, ◌≤◌, length, IfOk};
ghost use Rattle.js_store.specs.State.{IsKnown, IsSettled, text};

use crate::measures::NoRoom;
use js_methods::building::repeat;
use js_number::Num;
use js_search::index_of;
use js_store::Strings;
use std::alloc::Global;

/// What is done as often as the count says.
#[derive(Clone, Copy)]
pub enum StoreMeasure {
    /// A unit of a string of 1,000,000 is read.
    Read,
    /// The same by blocks of 250 units.
    Blocks,
    /// A unit that it hasn't is looked for in it.
    Seek,
    /// A string of 20 units is made.
    Make,
    /// The same, and it is interned; its units are in the table.
    Known,
    /// The same with units that aren't there.
    New,
    /// A string of 40 units is made.
    Keys,
    /// The same, and it is interned; its units aren't in the table.
    Forty,
    /// A unit is repeated to the greatest length.
    Repeat,
}

// The lists of a table, and the units of the long string.
const LISTS: u32 = 50_000;

const UNITS: u32 = 1_000_000;

const BLOCK: u32 = 250;

/// Does it, and answers the sum of what was found.
pub fn run_on<S: Strings>(
    alloc: Global,
    store: &mut S,
    what: StoreMeasure,
    count: u32,
) -> Result<u64, NoRoom> {
    match what {
        StoreMeasure::Read => read(alloc, store, count),
        StoreMeasure::Blocks => blocks(alloc, store, count),
        StoreMeasure::Seek => seek(alloc, store, count),
        StoreMeasure::Make => {
            intern_all(store, LISTS, LISTS)?;
            make_all(store, count)
        }
        StoreMeasure::Known => {
            intern_all(store, LISTS, LISTS)?;
            intern_all(store, count, LISTS)
        }
        StoreMeasure::New => intern_all(store, count, u32::MAX),
        StoreMeasure::Keys => keys(store, count, false),
        StoreMeasure::Forty => keys(store, count, true),
        StoreMeasure::Repeat => repeat_unit(store, count),
    }
}

// A digit of a number to the base 16, as a letter.
fn letter(number: u32, shift: u32) -> u16
    requires { shift < 32 }
{
    97 + ((number >> shift) & 15) as u16
}

// A list of 20 units that no other number has.
fn spelled(number: u32) -> [u16; 20] {
    let a = letter(number, 0);
    let b = letter(number, 4);
    let c = letter(number, 8);
    let d = letter(number, 12);
    let e = letter(number, 16);
    let f = letter(number, 20);
    let g = letter(number, 24);
    let h = letter(number, 28);
    [
        a, b, c, d, e, f, g, h, 120, 120, 120, 120, 120, 120, 120, 120, 120, 120, 120, 120,
    ]
}

fn make_all<S: Strings>(store: &mut S, count: u32) -> Result<u64, NoRoom> {
    let mut made = 0u64;
    for number in 0..count {
        let units = spelled(number % LISTS);
        let Ok(_) = store.from_units(units.as_slice()) else {
            return Err(NoRoom);
        };
        made = made.wrapping_add(1);
    }
    Ok(made)
}

// Strings with the numbers from 0 on, of so many lists, made and interned.
fn intern_all<S: Strings>(store: &mut S, count: u32, lists: u32) -> Result<u64, NoRoom>
    requires { 1 ≤ lists }
{
    let mut made = 0u64;
    for number in 0..count {
        let units = spelled(number % lists);
        let Ok(s) = store.from_units(units.as_slice()) else {
            return Err(NoRoom);
        };
        let Ok(_) = store.intern(s) else {
            return Err(NoRoom);
        };
        made = made.wrapping_add(1);
    }
    Ok(made)
}

// A list of 40 units that no other number has.
fn key(number: u32) -> [u16; 40] {
    let mut units = [120; 40];
    for k in 0..8 {
        units[k as usize] = letter(number, 4 * k);
    }
    units
}

// Strings of 40 units with the numbers from 0 on, made, and interned where it is asked.
fn keys<S: Strings>(store: &mut S, count: u32, interned: bool) -> Result<u64, NoRoom> {
    let mut made = 0u64;
    for number in 0..count {
        let units = key(number);
        let Ok(s) = store.from_units(units.as_slice()) else {
            return Err(NoRoom);
        };
        if interned {
            let Ok(_) = store.intern(s) else {
                return Err(NoRoom);
            };
        }
        made = made.wrapping_add(1);
    }
    Ok(made)
}

// The long string.
fn long<S: Strings>(alloc: Global, store: &mut S) -> Result<S::Ref, NoRoom>
    ensures { IfOk result
        (λ s. IsSettled (S.state store.new) (S.number s) × IsKnown (S.state store.new) (S.number s)
        × (length (text (S.state store.new) (S.number s)) ≡ 1000000)) }
{
    let Ok(units) = Vec::from_elem(alloc, 97u16, UNITS as usize) else {
        return Err(NoRoom);
    };
    if units.len() > store.limit() as usize {
        return Err(NoRoom);
    }
    match store.from_units(&units) {
        Ok(s) => Ok(s),
        Err(_) => Err(NoRoom),
    }
}

fn read<S: Strings>(alloc: Global, store: &mut S, count: u32) -> Result<u64, NoRoom> {
    let s = long(alloc, store)?;
    let mut sum = 0u64;
    for i in 0..count {
        let unit = store.unit_at(s, i % UNITS);
        sum = sum.wrapping_add(u64::from(unit));
    }
    Ok(sum)
}

fn blocks<S: Strings>(alloc: Global, store: &mut S, count: u32) -> Result<u64, NoRoom> {
    let s = long(alloc, store)?;
    let mut sum = 0u64;
    for turn in 0..count / BLOCK {
        let mut block = [0; BLOCK as usize];
        store.read(s, turn % (UNITS / BLOCK) * BLOCK, block.as_mut_slice());
        sum = sum.wrapping_add(u64::from(block[0]));
    }
    Ok(sum)
}

fn seek<S: Strings>(alloc: Global, store: &mut S, count: u32) -> Result<u64, NoRoom> {
    let s = long(alloc, store)?;
    let Ok(absent) = store.from_units([98].as_slice()) else {
        return Err(NoRoom);
    };
    let mut found = 0u64;
    for _turn in 0..count {
        if index_of(store, s, absent, 0).is_some() {
            found = found.wrapping_add(1);
        }
    }
    Ok(found)
}

fn repeat_unit<S: Strings>(store: &mut S, count: u32) -> Result<u64, NoRoom> {
    let most = Num::Int(i64::from(store.limit()));
    let Ok(unit) = store.from_units([97].as_slice()) else {
        return Err(NoRoom);
    };
    let mut made = 0u64;
    for _turn in 0..count {
        let Ok(_) = repeat(store, unit, most) else {
            return Err(NoRoom);
        };
        made = made.wrapping_add(1);
    }
    Ok(made)
}
