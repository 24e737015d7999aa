// Units with each code point outside a set as escapes.
ghost use Rattle.std.specs.Prelude.{◌≡◌, ◌+◌, ◌*◌, ◌^◌, ◌<◌, ◌≤◌, ◌++◌, ◌∷◌, [], length, OnOk, IsOk, IfSome, IsSome, MatchOption, option_map, unwrap_or, IsTrue, Ok};
ghost use Rattle.js_units.specs.Text.{points, utf16_of};
ghost use Rattle.js_uri.specs.Outcome.{measure, units as units_of};
ghost use Rattle.js_uri.specs.Calls.{keep_of};
ghost use Rattle.js_uri.specs.Encoding.{escape, encoded_point, encoded};
ghost use Rattle.js_uri.specs.Steps.{escapes};
ghost use Rattle.js_uri.specs.Encoding;

use crate::sets::UriPart;
use js_units::{NoMemory, Units, split_point};

// A hexadecimal digit, in upper case.
fn hex(digit: u8) -> u8
    requires { digit < 16 }
    ensures { result ≡ Encoding.upper_hex digit }
{
    if digit < 10 {
        0x30 + digit
    } else {
        0x37 + digit
    }
}

// Adds the escape of a byte.
fn push_escape(text: &mut Units, byte: u8) -> Result<(), NoMemory>
    ensures added { OnOk result (text.new ≡ text.old ++ escape byte) }
{
    text.extend_from_latin1(&[0x25, hex(byte / 16), hex(byte % 16)])
}

// Adds the escapes of the UTF-8 of a character.
fn push_escapes(text: &mut Units, c: char) -> Result<(), NoMemory>
    ensures added { OnOk result (text.new ≡ text.old ++ escapes c) }
{
    let mut room = [0; 4];
    for byte in c.encode_utf8(&mut room).as_bytes() {
        push_escape(text, *byte)?;
    }
    Ok(())
}

// Adds what denotes a code point that is no surrogate.
fn push_point(text: &mut Units, point: u32, part: UriPart) -> Result<(), NoMemory>
    requires range { point < 0x110000 }
    requires some { IsSome (encoded_point (keep_of part) point) }
    ensures added { OnOk result (text.new ≡ text.old ++ unwrap_or (encoded_point (keep_of part) point) []) }
{
    match char::from_u32(point) {
        Some(c) if part.keeps(point) => text.push_code_point(c),
        Some(c) => push_escapes(text, c),
        None => Ok(()),
    }
}

// How many units denote a code point, nothing where it is a surrogate.
fn point_len(point: u32, part: UriPart) -> Option<usize>
    requires { point < 0x110000 }
    ensures value { result ≡ option_map length (encoded_point (keep_of part) point) }
    ensures most { IfSome result (λ n. n ≤ 12) }
{
    let c = char::from_u32(point)?;
    if part.keeps(point) {
        return Some(c.len_utf16());
    }
    Some(3 * c.len_utf8())
}

// Whether encoding leaves all units as they are.
pub fn is_encoded(units: &[u16], part: UriPart) -> bool
    ensures { IsTrue result → encoded units.now (keep_of part) ≡ Ok units.now }
{
    for unit in units {
        if *unit >= 0x80 || !part.keeps(u32::from(*unit)) {
            return false;
        }
    }
    true
}

// How many units the encoded string has, or the place of the first unpaired surrogate.
pub fn encoded_len(units: &[u16], part: UriPart) -> Result<u128, u32>
    requires { length units.now < 2 ^ 32 }
    ensures { result ≡ measure (encoded units.now (keep_of part)) }
{
    let mut len = 0;
    let mut rest = units;
    while let Some((point, behind)) = split_point(rest) {
        match point_len(point, part) {
            Some(n) => len += n as u128,
            None => return Err((units.len() - rest.len()) as u32),
        }
        rest = behind;
    }
    Ok(len)
}

// Adds the encoded string of units without an unpaired surrogate.
pub fn push_encoded(text: &mut Units, units: &[u16], part: UriPart) -> Result<(), NoMemory>
    requires { IsOk (encoded units.now (keep_of part)) }
    ensures added { OnOk result (text.new ≡ text.old ++ units_of (encoded units.now (keep_of part))) }
{
    let mut rest = units;
    while let Some((point, behind)) = split_point(rest) {
        push_point(text, point, part)?;
        rest = behind;
    }
    Ok(())
}
