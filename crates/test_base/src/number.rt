// Every call on numbers of each kind, at both ends of the range; the values are the standard's.
ghost use Rattle.std.specs.Prelude.{IfSome};
ghost use Rattle.js_number.specs.Places.{IsLawful};

use crate::rows::{Table, check, parted, text_of};
use js_number::Num;
use js_units::Units;
use std::alloc::Global;
use std::test::Fail;

// A number as a row spells it.
fn spelled(text: &str) -> Option<Num>
    ensures { IfSome result IsLawful }
{
    match text {
        "NaN" => Some(Num::NaN),
        "Infinity" => Some(Num::PosInf),
        "-Infinity" => Some(Num::NegInf),
        _ => whole(text.parse::<i64>().ok()?),
    }
}

fn whole(n: i64) -> Option<Num>
    ensures { IfSome result IsLawful }
{
    if n.unsigned_abs() <= 9_007_199_254_740_991 {
        Some(Num::Int(n))
    } else {
        None
    }
}

// The integer or infinity, the negative, the value as 16 bits, as 32 bits and as a length.
const ALONE: &str = "NaN -> Int(0) NaN 0 0 0
Infinity -> PosInf NegInf 0 0 9007199254740991
-Infinity -> NegInf PosInf 0 0 0
0 -> Int(0) Int(0) 0 0 0
-1 -> Int(-1) Int(1) 65535 4294967295 0
65535 -> Int(65535) Int(-65535) 65535 65535 65535
65536 -> Int(65536) Int(-65536) 0 65536 65536
65601 -> Int(65601) Int(-65601) 65 65601 65601
-65536 -> Int(-65536) Int(65536) 0 4294901760 0
4294967296 -> Int(4294967296) Int(-4294967296) 0 0 4294967296
9007199254740991 -> Int(9007199254740991) Int(-9007199254740991) 65535 4294967295 9007199254740991
-9007199254740991 -> Int(-9007199254740991) Int(9007199254740991) 1 1 0";

struct Alone;

impl Table for Alone {
    fn told(alloc: Global, given: &str) -> Result<String, Fail> {
        let n = spelled(given).ok_or("no number")?;
        let integer = n.to_integer_or_infinity();
        let (uint16, uint32, length) = (n.to_uint16(), n.to_uint32(), n.to_length());
        Ok(format!(in alloc; "{integer:?} {:?} {uint16} {uint32} {length}", n.neg())?)
    }
}

#[test]
fn numbers_alone(rt: HostRuntime) -> Result<(), Fail> {
    check::<Alone>(&rt, rt.alloc(), ALONE)
}

// A number and an end: the place clamped to the end, and the place that counts from the end.
const PLACES: &str = "NaN 5 -> 0 0
Infinity 5 -> 5 5
-Infinity 5 -> 0 0
0 5 -> 0 0
4 5 -> 4 4
5 5 -> 5 5
6 5 -> 5 5
-1 5 -> 0 4
-5 5 -> 0 0
-6 5 -> 0 0
9007199254740991 5 -> 5 5
-9007199254740991 5 -> 0 0
-1 0 -> 0 0
9007199254740991 4294967295 -> 4294967295 4294967295
-1 4294967295 -> 0 4294967294";

struct Places;

impl Table for Places {
    fn told(alloc: Global, given: &str) -> Result<String, Fail> {
        let (n, end) = parted(given, " ")?;
        let n = spelled(n).ok_or("no number")?;
        let end = end.parse::<u32>()?;
        Ok(format!(in alloc; "{} {}", n.clamp_to(end), n.relative_to(end))?)
    }
}

#[test]
fn numbers_as_places(rt: HostRuntime) -> Result<(), Fail> {
    check::<Places>(&rt, rt.alloc(), PLACES)
}

// Two numbers: their sum, their difference, and whether the first is below the second.
const PAIRS: &str = "1 2 -> Some(Int(3)) Some(Int(-1)) Some(true)
2 2 -> Some(Int(4)) Some(Int(0)) Some(false)
-2 -1 -> Some(Int(-3)) Some(Int(-1)) Some(true)
9007199254740991 0 -> Some(Int(9007199254740991)) Some(Int(9007199254740991)) Some(false)
9007199254740991 1 -> None Some(Int(9007199254740990)) Some(false)
9007199254740991 -1 -> Some(Int(9007199254740990)) None Some(false)
-9007199254740991 1 -> Some(Int(-9007199254740990)) None Some(true)
-9007199254740991 9007199254740991 -> Some(Int(0)) None Some(true)
9007199254740991 Infinity -> Some(PosInf) Some(NegInf) Some(true)
Infinity 9007199254740991 -> Some(PosInf) Some(PosInf) Some(false)
-Infinity -9007199254740991 -> Some(NegInf) Some(NegInf) Some(true)
0 -Infinity -> Some(NegInf) Some(PosInf) Some(false)
Infinity 1 -> Some(PosInf) Some(PosInf) Some(false)
-9007199254740991 Infinity -> Some(PosInf) Some(NegInf) Some(true)
Infinity Infinity -> Some(PosInf) Some(NaN) Some(false)
Infinity -Infinity -> Some(NaN) Some(PosInf) Some(false)
-Infinity -Infinity -> Some(NegInf) Some(NaN) Some(false)
-Infinity Infinity -> Some(NaN) Some(NegInf) Some(true)
NaN 1 -> Some(NaN) Some(NaN) None
Infinity NaN -> Some(NaN) Some(NaN) None
NaN NaN -> Some(NaN) Some(NaN) None
NaN 0 -> Some(NaN) Some(NaN) None
-Infinity NaN -> Some(NaN) Some(NaN) None";

struct Pairs;

impl Table for Pairs {
    fn told(alloc: Global, given: &str) -> Result<String, Fail> {
        let (a, b) = parted(given, " ")?;
        let a = spelled(a).ok_or("no number")?;
        let b = spelled(b).ok_or("no number")?;
        Ok(format!(in alloc; "{:?} {:?} {:?}", a.add(b), a.sub(b), a.less(b))?)
    }
}

#[test]
fn pairs_of_numbers(rt: HostRuntime) -> Result<(), Fail> {
    check::<Pairs>(&rt, rt.alloc(), PAIRS)
}

// The strings of numbers, behind `=`.
const TEXTS: &str = "NaN -> =NaN
Infinity -> =Infinity
-Infinity -> =-Infinity
0 -> =0
-1 -> =-1
1234567890 -> =1234567890
9007199254740991 -> =9007199254740991
-9007199254740991 -> =-9007199254740991";

struct Texts;

impl Table for Texts {
    fn told(alloc: Global, given: &str) -> Result<String, Fail> {
        let n = spelled(given).ok_or("no number")?;
        let mut units = Units::new(alloc);
        units.push(61)?;
        n.to_text(&mut units)?;
        text_of(alloc, units.as_slice())
    }
}

#[test]
fn texts_of_numbers(rt: HostRuntime) -> Result<(), Fail> {
    check::<Texts>(&rt, rt.alloc(), TEXTS)
}
