// The URI functions over a plain store, with values from the standard and from node.
ghost use Rattle.std.specs.Prelude.{◌≤◌, length, IfOk};
ghost use Rattle.js_store.specs.State.{IsKnown};

use crate::rows::{Table, check, parted, text_of, units_of};
use js_store::{Limit, StoreFault, Strings};
use js_texts::read;
use js_uri::{UriFault, decode_uri, decode_uri_component, encode_uri, encode_uri_component};
use plain_store::PlainStore;
use std::alloc::Global;
use std::test::Fail;

// The function, a string or behind `#` its units, and the string that it gives; `same` is the string
// itself, and `at` a place that is malformed.
const ROWS: &str = "encodeURI | AZaz09-_.!~*'();/?:@&=+$,# -> same
encodeURIComponent | AZaz09-_.!~*'() -> same
encodeURIComponent | ;/?:@&=+$,# -> %3B%2F%3F%3A%40%26%3D%2B%24%2C%23
encodeURI | a b/?# -> a%20b/?#
encodeURIComponent | a b/é😀 -> a%20b%2F%C3%A9%F0%9F%98%80
encodeURI | %[]<>^`{}\" -> %25%5B%5D%3C%3E%5E%60%7B%7D%22
encodeURIComponent | #0 7f 80 7ff -> %00%7F%C2%80%DF%BF
encodeURIComponent | #800 ffff -> %E0%A0%80%EF%BF%BF
encodeURIComponent | #d800 dc00 dbff dfff -> %F0%90%80%80%F4%8F%BF%BF
encodeURI | #61 d800 -> at 1
encodeURI | #61 d800 62 -> at 1
encodeURI | #61 62 dc00 -> at 2
encodeURIComponent | #d83d de00 d83d d83d de00 -> at 2
decodeURI | %2f%41 -> %2fA
decodeURI | %3B%2F%3F%3A%40%26%3D%2B%24%2C%23 -> %3B%2F%3F%3A%40%26%3D%2B%24%2C%23
decodeURIComponent | %3B%2F%3F%3A%40%26%3D%2B%24%2C%23 -> ;/?:@&=+$,#
decodeURIComponent | a%20b%2F%C3%a9%f0%9F%98%80 -> a b/é😀
decodeURIComponent | %25%34%31 -> %41
decodeURI | a b;é -> same
decodeURIComponent | #d800 dc00 dfff -> same
decodeURIComponent | %F4%8F%BF%BF%EF%BF%BF%C2%80 -> \u{10FFFF}\u{FFFF}\u{80}
decodeURIComponent | ab% -> at 2
decodeURIComponent | ab%4 -> at 2
decodeURI | a%4g -> at 1
decodeURI | a%g4 -> at 1
decodeURIComponent | %C0%80 -> at 0
decodeURIComponent | %C1%BF -> at 0
decodeURIComponent | a%E0%80%80 -> at 1
decodeURIComponent | %F0%80%80%80 -> at 0
decodeURIComponent | %ED%A0%80 -> at 0
decodeURIComponent | %ED%BF%BF -> at 0
decodeURIComponent | %F4%90%80%80 -> at 0
decodeURIComponent | %F8%88%80%80%80 -> at 0
decodeURI | é%80 -> at 1
decodeURI | %E2%82%AC%E2%82 -> at 9
decodeURI | %E2%82%g4 -> at 0
decodeURI | %C3%28 -> at 0
decodeURI | %C3x%A9 -> at 0";

// The units that a part of a row spells.
fn spelled(alloc: Global, text: &str) -> Result<Vec<u16>, Fail> {
    if let Some(units) = text.strip_prefix('#') {
        return units_of(alloc, units);
    }
    let mut units = Vec::new(alloc);
    for unit in text.encode_utf16() {
        units.push(unit)?;
    }
    Ok(units)
}

// A string of these units.
fn made<S: Strings>(store: &mut S, units: &[u16]) -> Result<S::Ref, StoreFault>
    requires { length units.now ≤ 1000 }
    ensures { IfOk result (λ r. IsKnown (S.state store.new) (S.number r)) }
{
    store.from_units(units)
}

// What the function of this name answers.
fn called<S: Strings>(
    alloc: Global,
    store: &mut S,
    name: &str,
    s: S::Ref,
) -> Result<S::Ref, UriFault>
    requires { IsKnown (S.state store.old) (S.number s) }
    ensures { IfOk result (λ r. IsKnown (S.state store.new) (S.number r)) }
{
    match name {
        "encodeURI" => encode_uri(alloc, store, s),
        "encodeURIComponent" => encode_uri_component(alloc, store, s),
        "decodeURI" => decode_uri(alloc, store, s),
        _ => decode_uri_component(alloc, store, s),
    }
}

// What is reported of the answer for a string of these units.
fn answered(alloc: Global, name: &str, units: &[u16]) -> Result<String, Fail>
    requires { length units.now ≤ 1000 }
{
    let mut store = PlainStore::new(alloc, Limit::Bits64);
    let s = made(&mut store, units)?;
    match called(alloc, &mut store, name, s) {
        Ok(r) if r == s => Ok(String::from_str(alloc, "same")?),
        Ok(r) => text_of(alloc, read(alloc, &mut store, r)?.as_slice()),
        Err(UriFault::Malformed { at }) => Ok(format!(in alloc; "at {at}")?),
        Err(fault) => Ok(format!(in alloc; "{fault:?}")?),
    }
}

struct Uris;

impl Table for Uris {
    fn told(alloc: Global, given: &str) -> Result<String, Fail> {
        let (name, text) = parted(given, " | ")?;
        let units = spelled(alloc, text)?;
        if units.len() > 1000 {
            return Ok(String::from_str(alloc, "too long")?);
        }
        answered(alloc, name, units.as_slice())
    }
}

#[test]
fn uri_functions(rt: HostRuntime) -> Result<(), Fail> {
    check::<Uris>(&rt, rt.alloc(), ROWS)
}
