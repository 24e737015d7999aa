// The units that bytes spell, read front to back.
ghost use Rattle.std.specs.Prelude.{◌≡◌, [], ℕ, ◌+◌, ◌-◌, ◌*◌, ◌<◌, ◌≤◌, ◌++◌, length, take, nat_lt, IfOk, MatchOption};
ghost use Rattle.std.specs.List.{list_any};
ghost use Rattle.std.specs.Str.{IsAscii, chars};
ghost use Rattle.js_units.specs.Lanes.{hash_of, is_wide};
ghost use Rattle.js_units.specs.Text.{utf16_of};
ghost use Rattle.heap_rule.specs.Layout.{MAX};
ghost use Rattle.heap_bytes.specs.Points.{IsRead, utf16};
ghost use Rattle.heap_bytes.specs.Spellings.{IsFront, IsReadAs, IsReadable, spelling_units};

use crate::decoding::{measure, split_point};
use crate::encoding::Encoding;
use js_units::hash_units;

/// Room for one piece: 64 units, so that the next piece begins with a word, and one more where the last two
/// are a pair.
pub const ROOM: usize = 65;

/// The units that bytes spell.
#[derive(Clone, Copy)]
pub enum Spelling<'b> {
    /// A unit for each byte, as Latin-1 has it.
    Latin1(&'b [u8]),
    /// The units of code points, which may be surrogates, and how many they are.
    Points { bytes: &'b [u8], len: u32 },
}

impl<'b> Spelling<'b> {
    /// What bytes of UTF-8 or WTF-8 spell; or the length of the longest front that spells some. Bytes of ASCII
    /// are read as Latin-1.
    pub fn read(encoding: Encoding, bytes: &'b [u8]) -> Result<Spelling<'b>, usize>
        requires { length bytes.now ≤ 3 * MAX }
        ensures read { IsReadAs encoding bytes.now result }
        ensures most { IfOk result (λ s. length (spelling_units s) ≤ length bytes.now) }
    {
        match measure(encoding, bytes) {
            Ok(count) => {
                if count == bytes.len() {
                    return Ok(Spelling::Latin1(bytes));
                }
                Ok(Spelling::Points {
                    bytes,
                    len: count as u32,
                })
            }
            Err(at) => Err(at),
        }
    }

    /// How many units there are.
    pub fn len(&self) -> u32
        requires read { IsReadable self.now }
        requires short { length (spelling_units self.now) ≤ MAX }
        ensures { result ≡ length (spelling_units self.now) }
    {
        match self {
            Spelling::Latin1(bytes) => bytes.len() as u32,
            Spelling::Points { len, .. } => *len,
        }
    }

    /// The first units, put into the room, with their count and what spells the others; none at the end.
    pub fn split_front(&self, room: &mut [u16]) -> Option<(usize, Spelling<'b>)>
        requires read { IsReadable self.now }
        requires room { 2 ≤ length room.old }
        ensures { MatchOption result (spelling_units self.now ≡ [])
            (λ p. IsFront self.now room.new p.0 p.1) }
    {
        match self {
            Spelling::Latin1(bytes) => match split_bytes(bytes, room) {
                Some((count, rest)) => Some((count, Spelling::Latin1(rest))),
                None => None,
            },
            Spelling::Points { bytes, len } => match split_points(bytes, room) {
                Some((count, rest)) => Some((
                    count,
                    Spelling::Points {
                        bytes: rest,
                        len: units_behind(*len, count),
                    },
                )),
                None => None,
            },
        }
    }

    /// Whether a unit is over 255.
    pub fn is_wide(&self) -> bool
        requires { IsReadable self.now }
        ensures { result ≡ is_wide (spelling_units self.now) }
    {
        match self {
            Spelling::Latin1(bytes) => is_wide_byte(bytes),
            Spelling::Points { bytes, .. } => has_high(bytes),
        }
    }

    /// The hash of the units.
    pub fn hash(&self) -> u32
        requires { IsReadable self.now }
        ensures { result ≡ hash_of (spelling_units self.now) }
    {
        let mut room = [0; ROOM];
        let mut rest = *self;
        let mut hash = 0;
        while let Some((count, after)) = rest.split_front(&mut room) {
            hash = hash_units(hash, &room[..count]);
            rest = after;
        }
        hash
    }
}

// How many units are left behind the first `count` of them.
fn units_behind(len: u32, count: usize) -> u32
    requires { count ≤ len }
    ensures { result ≡ len - count }
{
    len - count as u32
}

// The first bytes as units, put into the room, with their count and the other bytes; none at the end.
fn split_bytes<'b>(bytes: &'b [u8], room: &mut [u16]) -> Option<(usize, &'b [u8])>
    requires { 2 ≤ length room.old }
    ensures { MatchOption result (bytes.now ≡ [])
        (λ p. (0 < p.0) × (p.0 ≤ length room.new) × (bytes.now ≡ take p.0 room.new ++ p.1.now)) }
{
    if bytes.is_empty() {
        return None;
    }
    let count = bytes.len().min(room.len() - 1);
    for i in 0..count {
        room[i] = u16::from(bytes[i]);
    }
    Some((count, &bytes[count..]))
}

// The units of the first code points, put into the room, with their count and the other bytes; none at
// the end.
fn split_points<'b>(bytes: &'b [u8], room: &mut [u16]) -> Option<(usize, &'b [u8])>
    requires read { IsRead bytes.now }
    requires room { 2 ≤ length room.old }
    ensures { MatchOption result (utf16 (chars bytes.now) ≡ [])
        (λ p. (0 < p.0) × (p.0 ≤ length room.new) × IsRead p.1.now
        × (utf16 (chars bytes.now) ≡ take p.0 room.new ++ utf16 (chars p.1.now))) }
{
    match split_point(bytes) {
        Some((point, after)) => {
            let count = put_point(room, 0, point);
            Some(put_points(room, count, after))
        }
        None => None,
    }
}

// Puts the units of further code points into the room, from place `at` on, while there is room for two
// units; the place behind them, and the other bytes.
fn put_points<'b>(room: &mut [u16], at: usize, bytes: &'b [u8]) -> (usize, &'b [u8])
    requires read { IsRead bytes.now }
    requires within { at ≤ length room.old }
    ensures more { (at ≤ result.0) × (result.0 ≤ length room.new) }
    ensures read { IsRead result.1.now }
    ensures units { take at room.old ++ utf16 (chars bytes.now)
        ≡ take result.0 room.new ++ utf16 (chars result.1.now) }
{
    let mut rest = bytes;
    let mut count = at;
    while room.len() - count >= 2 {
        let run = put_ascii(room, count, rest);
        let behind = &rest[run..];
        count += run;
        if room.len() - count < 2 {
            return (count, behind);
        }
        match split_point(behind) {
            Some((point, after)) => {
                count = put_point(room, count, point);
                rest = after;
            }
            None => return (count, behind),
        }
    }
    (count, rest)
}

// Puts bytes of ASCII off the front into the room, from place `at` on, while there is room for two units; how
// many they are.
fn put_ascii(room: &mut [u16], at: usize, bytes: &[u8]) -> usize
    requires { at ≤ length room.old }
    ensures within { (result ≤ length bytes.now) × (at + result ≤ length room.new) }
    ensures ascii { IsAscii (take result bytes.now) }
    ensures units { take (at + result) room.new ≡ take at room.old ++ take result bytes.now }
{
    let most = bytes.len().min((room.len() - at).saturating_sub(1));
    let mut run = 0;
    while run < most && bytes[run] < 0x80 {
        room[at + run] = u16::from(bytes[run]);
        run += 1;
    }
    run
}

// Puts the units of a code point into the room, from place `at` on; the place behind them.
fn put_point(room: &mut [u16], at: usize, point: u32) -> usize
    requires small { point < 0x110000 }
    requires room { at + 2 ≤ length room.old }
    ensures more { (at < result) × (result ≤ at + 2) }
    ensures units { take result room.new ≡ take at room.old ++ utf16_of point }
{
    if point < 0x10000 {
        room[at] = point as u16;
        return at + 1;
    }
    let bits = point - 0x10000;
    room[at] = (0xD800 + bits / 0x400) as u16;
    room[at + 1] = (0xDC00 + bits % 0x400) as u16;
    at + 2
}

// Whether a unit that is a byte is over 255.
fn is_wide_byte(_bytes: &[u8]) -> bool
    ensures { result ≡ is_wide _bytes.now }
{
    false
}

// Whether a byte is over C3, as the first of a code point over 255 is, and no other.
fn has_high(bytes: &[u8]) -> bool
    ensures { result ≡ list_any (λ b. nat_lt 195 b) bytes.now }
{
    for byte in bytes {
        if *byte > 0xC3 {
            return true;
        }
    }
    false
}
