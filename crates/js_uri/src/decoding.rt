// Units with each escape as what it denotes.
ghost use Rattle.std.specs.Prelude.{◌≡◌, ℕ, Bool, ◌+◌, ◌*◌, ◌%◌, ◌^◌, ◌<◌, ◌≤◌, ◌++◌, ◌∷◌, [], length, drop, OnOk, IsOk, IfSome, Some, None, MatchOption, option_map, IsTrue, Ok};
ghost use Rattle.js_uri.specs.Outcome.{measure, units as units_of};
ghost use Rattle.js_uri.specs.Calls.{hold_of};
ghost use Rattle.js_uri.specs.Decoding.{escaped_byte, escaped_bytes, spelled_by, sequence_len as asked_len, escaped_part, first_part, decoded};
ghost use Rattle.js_uri.specs.Steps.{utf8_point};
ghost use Rattle.js_uri.specs.Decoding;
ghost use Rattle.js_uri.specs.Pieces.{taken_by, length_of, units_given, seen};

use crate::sets::UriPart;
use js_units::{NoMemory, Units};

const PERCENT: u16 = 0x25;

// The value of a hexadecimal digit, of either case.
fn digit(unit: u16) -> Option<u8>
    ensures value { result ≡ Decoding.digit unit }
    ensures most { IfSome result (λ d. d < 16) }
{
    match unit {
        0x30..=0x39 => Some((unit - 0x30) as u8),
        0x41..=0x46 => Some((unit - 0x37) as u8),
        0x61..=0x66 => Some((unit - 0x57) as u8),
        _ => None,
    }
}

// The byte of the escape that the units begin with, and the units behind it.
fn split_escape(units: &[u16]) -> Option<(u8, &[u16])>
    ensures { MatchOption result (escaped_byte units.now ≡ None)
        (λ p. (escaped_byte units.now ≡ Some p.0) × (p.1.now ≡ drop 3 units.now)
        × (length units.now ≡ 3 + length p.1.now)) }
{
    match units {
        [PERCENT, high, low, rest @ ..] => Some((digit(*high)? * 16 + digit(*low)?, rest)),
        _ => None,
    }
}

// How many bytes UTF-8 asks for where the first is this one.
fn sequence_len(first: u8) -> usize
    ensures { result ≡ asked_len first }
{
    match first {
        0..=0xBF => 1,
        0xC0..=0xDF => 2,
        0xE0..=0xEF => 3,
        _ => 4,
    }
}

// The character whose UTF-8 the bytes are, where its bits are this value.
fn spelled_char(bytes: &[u8], value: u32) -> Option<char>
    ensures { result ≡ spelled_by bytes.now value }
{
    let c = char::from_u32(value)?;
    let mut room = [0; 4];
    if c.encode_utf8(&mut room).as_bytes() == bytes {
        Some(c)
    } else {
        None
    }
}

// The bits of a byte behind the first.
fn six_bits(byte: u8) -> u32
    ensures { result ≡ byte % 64 }
{
    u32::from(byte % 64)
}

// The character whose UTF-8 the first escape is.
fn char_of_one(units: &[u16]) -> Option<char>
    ensures value { result ≡ utf8_point (escaped_bytes 1 units.now) }
    ensures within { IfSome result (λ _. 3 ≤ length units.now) }
{
    let (a, _) = split_escape(units)?;
    spelled_char(&[a], u32::from(a % 32))
}

// The same of the first two, three and four escapes.
fn char_of_two(units: &[u16]) -> Option<char>
    ensures value { result ≡ utf8_point (escaped_bytes 2 units.now) }
    ensures within { IfSome result (λ _. 6 ≤ length units.now) }
{
    let (a, rest) = split_escape(units)?;
    let (b, _) = split_escape(rest)?;
    spelled_char(&[a, b], u32::from(a % 32) * 64 + six_bits(b))
}

fn char_of_three(units: &[u16]) -> Option<char>
    ensures value { result ≡ utf8_point (escaped_bytes 3 units.now) }
    ensures within { IfSome result (λ _. 9 ≤ length units.now) }
{
    let (a, rest) = split_escape(units)?;
    let (b, rest) = split_escape(rest)?;
    let (c, _) = split_escape(rest)?;
    let value = (u32::from(a % 16) * 64 + six_bits(b)) * 64 + six_bits(c);
    spelled_char(&[a, b, c], value)
}

fn char_of_four(units: &[u16]) -> Option<char>
    ensures value { result ≡ utf8_point (escaped_bytes 4 units.now) }
    ensures within { IfSome result (λ _. 12 ≤ length units.now) }
{
    let (a, rest) = split_escape(units)?;
    let (b, rest) = split_escape(rest)?;
    let (c, rest) = split_escape(rest)?;
    let (d, _) = split_escape(rest)?;
    let value = ((u32::from(a % 8) * 64 + six_bits(b)) * 64 + six_bits(c)) * 64 + six_bits(d);
    spelled_char(&[a, b, c, d], value)
}

// The character whose UTF-8 the first n escapes are.
fn sequence_char(units: &[u16], n: usize) -> Option<char>
    requires low { 1 ≤ n }
    requires high { n ≤ 4 }
    ensures value { result ≡ utf8_point (escaped_bytes n units.now) }
    ensures within { IfSome result (λ _. 3 * n ≤ length units.now) }
{
    match n {
        1 => char_of_one(units),
        2 => char_of_two(units),
        3 => char_of_three(units),
        _ => char_of_four(units),
    }
}

// The units behind the first n.
fn behind(units: &[u16], n: usize) -> &[u16]
    requires { n ≤ length units.now }
    ensures rest { result.now ≡ drop n units.now }
    ensures shorter { length units.now ≡ n + length result.now }
{
    &units[n..]
}

// What the first units denote: so many of them for themselves, or for a character.
#[derive(Clone, Copy)]
enum Piece {
    Same(usize),
    Char { c: char, taken: usize },
}

impl Piece {
    // How many units it replaces.
    fn taken(self) -> usize
        ensures { result ≡ taken_by self }
    {
        match self {
            Piece::Same(n) => n,
            Piece::Char { c: _, taken } => taken,
        }
    }

    // How many units it gives.
    fn len(self) -> usize
        ensures { result ≡ length_of self }
    {
        match self {
            Piece::Same(n) => n,
            Piece::Char { c, taken: _ } => c.len_utf16(),
        }
    }

    // Adds the units that it gives, where it precedes these.
    fn push_to(self, units: &[u16], text: &mut Units) -> Result<(), NoMemory>
        requires { taken_by self ≤ length units.now }
        ensures added { OnOk result (text.new ≡ text.old ++ units_given self units.now) }
    {
        match self {
            Piece::Same(n) => text.extend_from_slice(&units[..n]),
            Piece::Char { c, taken: _ } => text.push_code_point(c),
        }
    }
}

// The piece of the escapes that the units begin with.
fn escaped_piece(units: &[u16], part: UriPart) -> Option<Piece>
    ensures value { option_map (λ p. seen p units.now) result
        ≡ escaped_part (hold_of part) units.now (escaped_byte units.now) }
    ensures taken { IfSome result (λ p. (1 ≤ taken_by p) × (taken_by p ≤ length units.now)) }
    ensures most { IfSome result (λ p. length_of p ≤ 3) }
{
    let (byte, _) = split_escape(units)?;
    if byte >= 0x80 {
        let n = sequence_len(byte);
        let c = sequence_char(units, n)?;
        return Some(Piece::Char { c, taken: 3 * n });
    }
    if part.holds(u32::from(byte)) {
        return Some(Piece::Same(3));
    }
    Some(Piece::Char {
        c: char::from(byte),
        taken: 3,
    })
}

// The piece that the units begin with.
fn first_piece(units: &[u16], part: UriPart) -> Option<Piece>
    ensures value { option_map (λ p. seen p units.now) result ≡ first_part (hold_of part) units.now }
    ensures taken { IfSome result (λ p. (1 ≤ taken_by p) × (taken_by p ≤ length units.now)) }
    ensures most { IfSome result (λ p. length_of p ≤ 3) }
{
    let first = *units.first()?;
    if first == PERCENT {
        return escaped_piece(units, part);
    }
    Some(Piece::Same(1))
}

// Whether there is nothing to decode.
pub fn has_no_percent(units: &[u16]) -> bool
    ensures { IsTrue result → ((hold : ℕ → Bool) → decoded units.now hold ≡ Ok units.now) }
{
    for unit in units {
        if *unit == PERCENT {
            return false;
        }
    }
    true
}

// How many units the decoded string has, or the place of the first unit that is malformed.
pub fn decoded_len(units: &[u16], part: UriPart) -> Result<u128, u32>
    requires { length units.now < 2 ^ 32 }
    ensures { result ≡ measure (decoded units.now (hold_of part)) }
{
    let mut len = 0;
    let mut rest = units;
    while !rest.is_empty() {
        match first_piece(rest, part) {
            Some(piece) => {
                len += piece.len() as u128;
                rest = behind(rest, piece.taken());
            }
            None => return Err((units.len() - rest.len()) as u32),
        }
    }
    Ok(len)
}

// Adds the decoded string of units of which none is malformed.
pub fn push_decoded(text: &mut Units, units: &[u16], part: UriPart) -> Result<(), NoMemory>
    requires { IsOk (decoded units.now (hold_of part)) }
    ensures added { OnOk result (text.new ≡ text.old ++ units_of (decoded units.now (hold_of part))) }
{
    let mut rest = units;
    while let Some(piece) = first_piece(rest, part) {
        piece.push_to(rest, text)?;
        rest = behind(rest, piece.taken());
    }
    Ok(())
}
