//! The numbers of the profile: whole numbers of magnitude at most 2^53 - 1, NaN and the two
//! infinities, with the conversions, sums and order of ECMA-262 ("Abstract Operations", "Type
//! Conversion"; "Numeric Types", "The Number Type"). -0 is the whole number 0.
//!
//! Each call is given valid numbers and answers valid ones. Only [`Num::to_text`] and
//! [`append_text`] allocate.
#![tactic(auto)]

ghost use Rattle.std.specs.Prelude.{◌≡◌, ◌<ℤ◌, ◌++◌, ◌≤◌, pos, length, take, IfSome, OnOk, OnErr};
ghost use Rattle.js_number.specs.Places.{IsLawful, integer_of, clamped, relative};
ghost use Rattle.js_number.specs.Arith.{modulo, length_of, whole, sum, difference, negative, below, text_of};
ghost use Rattle.js_number.specs.declared.Num.TheVariants.{Int};

mod text;

use itoa::Buffer;
use js_units::{NoMemory, Units};
pub use text::{append_text, write_text};

/// The greatest whole number of the profile, 2^53 - 1 ("Number.MAX_SAFE_INTEGER").
pub const MAX_SAFE: i64 = 9_007_199_254_740_991;

/// A number. An `Int` of a valid one has magnitude at most 2^53 - 1.
#[derive(Clone, Copy, Debug, PartialEq, Eq)]
pub enum Num {
    Int(i64),
    NaN,
    PosInf,
    NegInf,
}

impl Num {
    /// NaN becomes 0, every other number stays ("ToIntegerOrInfinity").
    pub fn to_integer_or_infinity(self) -> Num
        requires { IsLawful self }
        ensures value { result ≡ integer_of self }
        ensures lawful { IsLawful result }
    {
        match self {
            Num::NaN => Num::Int(0),
            other => other,
        }
    }

    /// The integer or infinity of the number, clamped to 0..high.
    pub fn clamp_to(self, high: u32) -> u32
        requires { IsLawful self }
        ensures { result ≡ clamped self high }
    {
        match self {
            Num::NaN | Num::NegInf => 0,
            Num::PosInf => high,
            Num::Int(n) => n.clamp(0, i64::from(high)) as u32,
        }
    }

    /// The integer or infinity of the number, where a negative one counts from the end `len`,
    /// clamped to 0..len.
    pub fn relative_to(self, len: u32) -> u32
        requires { IsLawful self }
        ensures { result ≡ relative self len }
    {
        match self {
            Num::NaN | Num::NegInf => 0,
            Num::PosInf => len,
            Num::Int(n) if n < 0 => (n + i64::from(len)).max(0) as u32,
            Num::Int(n) => n.min(i64::from(len)) as u32,
        }
    }

    /// The value modulo 2^16, and 0 for NaN and the infinities ("ToUint16").
    pub fn to_uint16(self) -> u16
        requires { IsLawful self }
        ensures { result ≡ modulo 65536 self }
    {
        match self {
            Num::NaN | Num::PosInf | Num::NegInf => 0,
            Num::Int(n) => n.rem_euclid(65536) as u16,
        }
    }

    /// The value modulo 2^32, and 0 for NaN and the infinities ("ToUint32").
    pub fn to_uint32(self) -> u32
        requires { IsLawful self }
        ensures { result ≡ modulo 4294967296 self }
    {
        match self {
            Num::NaN | Num::PosInf | Num::NegInf => 0,
            Num::Int(n) => n.rem_euclid(4_294_967_296) as u32,
        }
    }

    /// The value clamped to 0..2^53 - 1, and 0 for NaN ("ToLength").
    pub fn to_length(self) -> u64
        requires { IsLawful self }
        ensures value { result ≡ length_of self }
        ensures most { result ≤ 9007199254740991 }
    {
        match self {
            Num::NaN | Num::NegInf => 0,
            Num::PosInf => MAX_SAFE as u64,
            Num::Int(n) => n.max(0) as u64,
        }
    }

    /// The sum, unless both are whole and it leaves the range of the profile ("Number::add").
    pub fn add(self, other: Num) -> Option<Num>
        requires left { IsLawful self }
        requires right { IsLawful other }
        ensures value { result ≡ sum self other }
        ensures lawful { IfSome result IsLawful }
    {
        match (self, other) {
            (Num::NaN, _) | (_, Num::NaN) => Some(Num::NaN),
            (Num::PosInf, Num::NegInf) | (Num::NegInf, Num::PosInf) => Some(Num::NaN),
            (Num::PosInf, _) | (_, Num::PosInf) => Some(Num::PosInf),
            (Num::NegInf, _) | (_, Num::NegInf) => Some(Num::NegInf),
            (Num::Int(a), Num::Int(b)) => in_range(a + b),
        }
    }

    /// The difference, unless both are whole and it leaves the range of the profile
    /// ("Number::subtract").
    pub fn sub(self, other: Num) -> Option<Num>
        requires left { IsLawful self }
        requires right { IsLawful other }
        ensures value { result ≡ difference self other }
        ensures lawful { IfSome result IsLawful }
    {
        self.add(other.neg())
    }

    /// The negative ("Number::unaryMinus").
    pub fn neg(self) -> Num
        requires { IsLawful self }
        ensures value { result ≡ negative self }
        ensures lawful { IsLawful result }
    {
        match self {
            Num::Int(n) => Num::Int(-n),
            Num::NaN => Num::NaN,
            Num::PosInf => Num::NegInf,
            Num::NegInf => Num::PosInf,
        }
    }

    /// Whether the number is below the other one, unless one is NaN ("Number::lessThan").
    pub fn less(self, other: Num) -> Option<bool>
        requires left { IsLawful self }
        requires right { IsLawful other }
        ensures { result ≡ below self other }
    {
        match (self, other) {
            (Num::NaN, _) | (_, Num::NaN) => None,
            (Num::Int(a), Num::Int(b)) => Some(a < b),
            (Num::NegInf, Num::NegInf) => Some(false),
            (Num::NegInf, _) | (Num::Int(_), Num::PosInf) => Some(true),
            (_, _) => Some(false),
        }
    }

    /// Adds the number in decimal digits, or nothing where memory runs out
    /// ("Number::toString").
    pub fn to_text(self, out: &mut Units) -> Result<(), NoMemory>
        requires { IsLawful self }
        ensures ok { OnOk result (out.new ≡ out.old ++ text_of self) }
        ensures err { OnErr result (out.new ≡ out.old) }
        ensures short { length (text_of self) ≤ 40 }
    {
        let mut room = [0; 40];
        let count = self.write_digits(&mut room);
        out.extend_from_slice(&room[..count])
    }

    /// Writes the number in decimal digits at the front of a list, and answers how many units these
    /// are ("Number::toString"). It allocates nothing.
    pub fn write_digits(self, room: &mut [u16]) -> usize
        requires lawful { IsLawful self }
        requires room { length room.old ≡ 40 }
        ensures count { result ≡ length (text_of self) }
        ensures units { take result room.new ≡ text_of self }
        ensures short { result ≤ 40 }
    {
        match self {
            Num::NaN => write_text(room, "NaN"),
            Num::PosInf => write_text(room, "Infinity"),
            Num::NegInf => write_text(room, "-Infinity"),
            Num::Int(n) => {
                let mut buffer = Buffer::new();
                write_text(room, buffer.format(n))
            }
        }
    }
}

// The whole number, if it is in the range of the profile.
fn in_range(n: i64) -> Option<Num>
    ensures value { result ≡ whole n }
    ensures lawful { IfSome result IsLawful }
{
    if n < -MAX_SAFE || n > MAX_SAFE {
        None
    } else {
        Some(Num::Int(n))
    }
}
