// Units and words, with values from the standard.
use crate::rows::{Table, check, parted, units_of};
use js_units::{
    NoMemory, Units, append_utf8, code_point, hash_step, is_lead, is_trail, is_trimmed, lane,
    lanes, set_lane, words_for,
};
use std::alloc::Global;
use std::test::Fail;

// Units and their bytes: among them a pair, the last code point, a lead and a trail alone, a trail
// before a lead, and a lead before a pair.
const BYTES: &str = r"61 7f 80 -> > a\x7f\xc2\x80
7ff 800 ffff -> > \xdf\xbf\xe0\xa0\x80\xef\xbf\xbf
d83d de00 -> > \xf0\x9f\x98\x80
dbff dfff -> > \xf4\x8f\xbf\xbf
d800 78 -> > \xef\xbf\xbdx
78 dc00 -> > x\xef\xbf\xbd
dc00 d800 -> > \xef\xbf\xbd\xef\xbf\xbd
d83d d83d de00 -> > \xef\xbf\xbd\xf0\x9f\x98\x80
- -> > ";

struct Bytes;

impl Table for Bytes {
    fn told(alloc: Global, given: &str) -> Result<String, Fail> {
        let mut out = Vec::new(alloc);
        out.extend_from_slice(b"> ")?;
        append_utf8(units_of(alloc, given)?.as_slice(), &mut out)?;
        Ok(format!(in alloc; "{}", out.escape_ascii())?)
    }
}

#[test]
fn units_as_bytes(rt: HostRuntime) -> Result<(), Fail> {
    check::<Bytes>(&rt, rt.alloc(), BYTES)
}

// Code points, a trailing surrogate alone, and two units more.
fn pushed(alloc: Global) -> Result<Units, NoMemory> {
    let mut units = Units::new(alloc);
    for c in [
        'a',
        '\u{E9}',
        '\u{FFFF}',
        '\u{10000}',
        '\u{1F600}',
        '\u{10FFFF}',
    ] {
        units.push_code_point(c)?;
    }
    units.push(0xDC00)?;
    units.extend_from_slice(&[1, 2])?;
    Ok(units)
}

#[test]
fn code_points_as_units(rt: HostRuntime) -> Result<(), Fail> {
    let units = pushed(rt.alloc())?;
    let want = [
        0x61, 0xE9, 0xFFFF, 0xD800, 0xDC00, 0xD83D, 0xDE00, 0xDBFF, 0xDFFF, 0xDC00, 1, 2,
    ];
    assert_eq!(rt; units.as_slice(), want.as_slice());
    Ok(())
}

// Whether a unit is a leading surrogate, a trailing one, and trimmed.
const KINDS: &str = "8 -> false false false
9 -> false false true
d -> false false true
e -> false false false
20 -> false false true
85 -> false false false
a0 -> false false true
1680 -> false false true
180e -> false false false
2000 -> false false true
200a -> false false true
200b -> false false false
2028 -> false false true
2029 -> false false true
202f -> false false true
205f -> false false true
3000 -> false false true
feff -> false false true
d7ff -> false false false
d800 -> true false false
dbff -> true false false
dc00 -> false true false
dfff -> false true false
e000 -> false false false";

struct Kinds;

impl Table for Kinds {
    fn told(alloc: Global, given: &str) -> Result<String, Fail> {
        let unit = u16::from_str_radix(given, 16)?;
        let (lead, trail) = (is_lead(unit), is_trail(unit));
        Ok(format!(in alloc; "{lead} {trail} {}", is_trimmed(unit))?)
    }
}

#[test]
fn kinds_of_units(rt: HostRuntime) -> Result<(), Fail> {
    check::<Kinds>(&rt, rt.alloc(), KINDS)
}

// The code point of a pair; a number as that of its two halves.
fn told_pair(pair: u32) -> Option<u32> {
    let lead = (pair >> 16) as u16;
    let trail = (pair & 0xFFFF) as u16;
    if is_lead(lead) && is_trail(trail) {
        Some(code_point(lead, trail))
    } else {
        None
    }
}

#[test]
fn code_points_of_pairs(rt: HostRuntime) {
    assert_eq!(rt; told_pair(0xD83D_DE00), Some(0x1F600));
    assert_eq!(rt; told_pair(0xDBFF_DFFF), Some(0x10FFFF));
}

// A number of units, and the words that they need, of two bytes each and of one.
const WORDS: &str = "0 -> 0 0
4 -> 1 1
5 -> 2 1
8 -> 2 1
9 -> 3 2";

struct Words;

impl Table for Words {
    fn told(alloc: Global, given: &str) -> Result<String, Fail> {
        let n = given.parse::<u32>()?;
        Ok(format!(in alloc; "{} {}", words_for(n, true), words_for(n, false))?)
    }
}

#[test]
fn words_for_units(rt: HostRuntime) -> Result<(), Fail> {
    check::<Words>(&rt, rt.alloc(), WORDS)
}

#[test]
fn lanes_of_both_widths(rt: HostRuntime) {
    assert_eq!(rt; lanes(true), 4);
    assert_eq!(rt; lanes(false), 8);
}

// abc in one-byte lanes, and with nothing in the second lane.
fn narrow() -> (u64, u64, u16) {
    let ab = set_lane(set_lane(0, false, 0, 97), false, 1, 98);
    let abc = set_lane(ab, false, 2, 99);
    (abc, set_lane(abc, false, 1, 0), lane(abc, false, 2))
}

#[test]
fn lanes_of_words(rt: HostRuntime) {
    assert_eq!(rt; narrow(), (6513249, 6488161, 99));
    let wide = (set_lane(0, true, 2, 0xD83D), lane(u64::MAX, true, 3));
    assert_eq!(rt; wide, (0xD83D_0000_0000, 0xFFFF));
}

// The hash behind two units, among them two strings with one hash.
const HASHES: &str = "0 41 61 -> 2112
0 42 42 -> 2112
4294967295 ffff -> 65504";

struct Hashes;

impl Table for Hashes {
    fn told(alloc: Global, given: &str) -> Result<String, Fail> {
        let (start, units) = parted(given, " ")?;
        let mut hash = start.parse::<u32>()?;
        for unit in units_of(alloc, units)?.iter() {
            hash = hash_step(hash, *unit);
        }
        Ok(format!(in alloc; "{hash}")?)
    }
}

#[test]
fn hashes_of_units(rt: HostRuntime) -> Result<(), Fail> {
    check::<Hashes>(&rt, rt.alloc(), HASHES)
}
