// Every call on a plain store, with ample memory.
ghost use Rattle.std.specs.Prelude.{◌≤◌, length};

use crate::rows::{Table, check, parted, units_of};
use js_store::{Limit, StoreFault, Strings};
use plain_store::PlainStore;
use std::alloc::Global;
use std::test::Fail;

// Each call but those of interned strings once, through the bound: the limit, and of a string with a
// part of it behind it the length and the last unit.
fn parts_and_wholes<S: Strings>(store: &mut S) -> Result<(u32, u32, u16), Fail> {
    let limit = store.limit();
    let abc = store.from_units(&[97, 98, 99])?;
    let b = store.slice(abc, 1, 2)?;
    let joined = store.concat(abc, b)?;
    store.settle(joined)?;
    Ok((limit, store.len(joined), store.unit_at(joined, 3)))
}

#[test]
fn the_calls_of_a_store(rt: HostRuntime) -> Result<(), Fail> {
    let mut store = PlainStore::new(rt.alloc(), Limit::Bits64);
    assert_eq!(rt; parts_and_wholes(&mut store)?, (536870888, 4, 98));
    Ok(())
}

// What two strings are interned as, of which the later one is interned first, and whether that is
// the same one.
fn interned<S: Strings>(
    store: &mut S,
    early: &[u16],
    late: &[u16],
) -> Result<(S::Ref, S::Ref, bool), StoreFault>
    requires early { length early.now ≤ 100 }
    requires late { length late.now ≤ 100 }
{
    let early = store.from_units(early)?;
    let late = store.from_units(late)?;
    let b = store.intern(late)?;
    let a = store.intern(early)?;
    let same = store.same(a, b);
    Ok((a, b, same))
}

// Two strings of equal units have two numbers, and both are interned as one of them; lists that
// differ in one unit, or of which one begins the other, have numbers of their own.
const INTERNED: &str = "61 62 63 | 61 62 63 -> (1, 1, true)
61 62 63 | 61 62 64 -> (0, 1, false)
d83d | d83d de00 -> (0, 1, false)";

struct Interning;

impl Table for Interning {
    fn told(alloc: Global, given: &str) -> Result<String, Fail> {
        let (early, late) = parted(given, " | ")?;
        let early = units_of(alloc, early)?;
        let late = units_of(alloc, late)?;
        let mut store = PlainStore::new(alloc, Limit::Bits64);
        if early.len() > 100 || late.len() > 100 {
            return Ok(String::from_str(alloc, "too long")?);
        }
        let found = interned(&mut store, early.as_slice(), late.as_slice())?;
        Ok(format!(in alloc; "{found:?}")?)
    }
}

#[test]
fn equal_units_are_interned_once(rt: HostRuntime) -> Result<(), Fail> {
    check::<Interning>(&rt, rt.alloc(), INTERNED)
}
