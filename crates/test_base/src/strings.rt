// The order of strings, and templates at a match, over a plain store.
ghost use Rattle.std.specs.Prelude.{◌≤◌, length};

use crate::rows::{Table, check, parted, units_of};
use js_replace::substitution;
use js_search::{compare, equal, stands_at};
use js_store::{Limit, StoreFault, Strings};
use js_texts::{MethodFault, copied};
use plain_store::PlainStore;
use std::alloc::Global;
use std::cmp::Ordering;
use std::test::Fail;

// The order of two strings, and whether they are equal.
fn ordered<S: Strings>(store: &mut S, a: &[u16], b: &[u16]) -> Result<(Ordering, bool), StoreFault>
    requires first { length a.now ≤ 100 }
    requires second { length b.now ≤ 100 }
{
    let a = store.from_units(a)?;
    let b = store.from_units(b)?;
    Ok((compare(store, a, b), equal(store, a, b)))
}

// Two strings in hexadecimal digits, how the first is ordered to the second, and whether they are equal.
// By units: FF5E is behind the surrogates of a pair.
const ORDERS: &str = "- | - -> Equal true
- | 61 -> Less false
61 | - -> Greater false
61 62 | 61 62 -> Equal true
61 62 | 61 62 61 -> Less false
62 | 61 62 -> Greater false
61 62 | 62 61 -> Less false
ff5e | d83d de00 -> Greater false
d83d | d83d de00 -> Less false
de00 61 d83d | de00 61 de00 -> Less false";

struct Orders;

impl Table for Orders {
    fn told(alloc: Global, given: &str) -> Result<String, Fail> {
        let (a, b) = parted(given, " | ")?;
        let (a, b) = (units_of(alloc, a)?, units_of(alloc, b)?);
        if a.len() > 100 || b.len() > 100 {
            return Ok(String::from_str(alloc, "too long")?);
        }
        let mut store = PlainStore::new(alloc, Limit::Bits64);
        let (order, equal) = ordered(&mut store, a.as_slice(), b.as_slice())?;
        Ok(format!(in alloc; "{order:?} {equal}")?)
    }
}

#[test]
fn strings_are_ordered_by_their_units(rt: HostRuntime) -> Result<(), Fail> {
    check::<Orders>(&rt, rt.alloc(), ORDERS)
}

// Whether `ab` is in `abab` at each place, and what a template denotes at the match.
fn matched<S: Strings>(
    alloc: Global,
    store: &mut S,
    template: &[u16],
    place: u32,
) -> Result<Option<Vec<u16>>, MethodFault>
    requires { length template.now ≤ 100 }
{
    let s = store.from_units(&[97, 98, 97, 98])?;
    let w = store.from_units(&[97, 98])?;
    let template = store.from_units(template)?;
    if !stands_at(store, s, w, place) {
        return Ok(None);
    }
    let found = substitution(alloc, store, template, s, place, w)?;
    let units = copied(alloc, store, found)?;
    match units.as_slice().to_vec(alloc) {
        Ok(units) => Ok(Some(units)),
        Err(_) => Err(MethodFault::Store(StoreFault::Memory)),
    }
}

// The part before the match, $$, the match, and the part behind it.
const TEMPLATE: [u16; 8] = [0x24, 0x60, 0x24, 0x24, 0x24, 0x26, 0x24, 0x27];

// Places, and what the template denotes there.
const PLACES: &str = "0 -> [36, 97, 98, 97, 98]
1 -> none
2 -> [97, 98, 36, 97, 98]
3 -> none
5 -> none";

struct Places;

impl Table for Places {
    fn told(alloc: Global, given: &str) -> Result<String, Fail> {
        let mut store = PlainStore::new(alloc, Limit::Bits64);
        match matched(alloc, &mut store, &TEMPLATE, given.parse::<u32>()?)? {
            Some(units) => Ok(format!(in alloc; "{:?}", units.as_slice())?),
            None => Ok(String::from_str(alloc, "none")?),
        }
    }
}

#[test]
fn a_template_stands_for_a_text_at_a_match(rt: HostRuntime) -> Result<(), Fail> {
    check::<Places>(&rt, rt.alloc(), PLACES)
}
