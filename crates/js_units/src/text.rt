// What a single unit is, and the UTF-8 of a list of units.
ghost use Rattle.std.specs.Prelude.{◌≡◌, ◌++◌, [], ◌∷◌, ◌<◌, ◌≤◌, length, take, All, IsTrue, IfOk, IfSome, OnOk, OnErr, MatchOption, ◌+◌};
ghost use Rattle.js_units.specs.Text.{alone, pair_value, points, utf16_of, utf8, well};
ghost use Rattle.js_units.specs.Text;

use crate::units::NoMemory;

/// Whether the unit is a leading surrogate, D800 to DBFF.
pub fn is_lead(unit: u16) -> bool
    ensures { result ≡ Text.is_lead unit }
{
    (0xD800..0xDC00).contains(&unit)
}

/// Whether the unit is a trailing surrogate, DC00 to DFFF.
pub fn is_trail(unit: u16) -> bool
    ensures { result ≡ Text.is_trail unit }
{
    (0xDC00..0xE000).contains(&unit)
}

/// The code point of a surrogate pair, 10000 to 10FFFF (ECMA-262, "UTF16SurrogatePairToCodePoint").
pub fn code_point(lead: u16, trail: u16) -> u32
    requires lead { IsTrue (Text.is_lead lead) }
    requires trail { IsTrue (Text.is_trail trail) }
    ensures { result ≡ pair_value lead trail }
{
    (u32::from(lead) - 0xD800) * 0x400 + (u32::from(trail) - 0xDC00) + 0x10000
}

/// Whether the unit is WhiteSpace or a LineTerminator, which is what trimming removes
/// (ECMA-262, "TrimString").
pub fn is_trimmed(unit: u16) -> bool
    ensures { result ≡ Text.is_blank unit }
{
    match unit {
        0x0009..=0x000D | 0x0020 | 0x00A0 | 0x1680 => true,
        0x2000..=0x200A | 0x2028 | 0x2029 | 0x202F | 0x205F | 0x3000 | 0xFEFF => true,
        _ => false,
    }
}

/// The first code point, an unpaired surrogate as itself, and the units behind it (ECMA-262,
/// "CodePointAt").
pub fn split_point(units: &[u16]) -> Option<(u32, &[u16])>
    ensures range { IfSome result (λ p. p.0 < 0x110000) }
    ensures parts { MatchOption result (length units.now ≡ 0)
        (λ p. (points units.now ≡ p.0 ∷ points p.1.now)
        × (length units.now ≡ length (utf16_of p.0) + length p.1.now)
        × (length p.1.now < length units.now)) }
    ensures well_formed { IfSome result
        (λ p. points (well units.now) ≡ alone p.0 ∷ points (well p.1.now)) }
{
    let first = *units.first()?;
    let rest = &units[1..];
    match rest.first() {
        Some(second) if is_lead(first) && is_trail(*second) => {
            Some((code_point(first, *second), &rest[1..]))
        }
        _ => Some((u32::from(first), rest)),
    }
}

/// The first character of the well-formed list, and the units behind it.
fn split_well(units: &[u16]) -> Option<(char, &[u16])>
    ensures { MatchOption result (length units.now ≡ 0)
        (λ p. (points (well units.now) ≡ p.0 ∷ points (well p.1.now)) × (length p.1.now < length units.now)) }
{
    let (point, rest) = split_point(units)?;
    Some((char::from_u32(point).unwrap_or('\u{FFFD}'), rest))
}

/// How many units in front are ASCII.
fn ascii_len(units: &[u16]) -> usize
    ensures bound { result ≤ length units.now }
    ensures ascii { All (λ u. u < 0x80) (take result units.now) }
{
    for (i, unit) in units.iter().enumerate() {
        if *unit >= 0x80 {
            return i;
        }
    }
    units.len()
}

/// Adds ASCII units at the end, a byte each.
fn push_ascii(units: &[u16], out: &mut Vec<u8>) -> Result<(), NoMemory>
    requires { All (λ u. u < 0x80) units.now }
    ensures added { OnOk result (out.new.items ≡ out.old.items ++ units.now) }
    ensures unchanged { OnErr result (out.new.items ≡ out.old.items) }
{
    out.reserve(units.len())?;
    for unit in units {
        out.push_reserved(*unit as u8);
    }
    Ok(())
}

/// Adds the UTF-8 of the first units, one at least, and answers those behind them; none at the
/// end.
fn push_front<'a>(units: &'a [u16], out: &mut Vec<u8>) -> Result<Option<&'a [u16]>, NoMemory>
    ensures added { IfOk result
        (λ left. MatchOption left ((units.now ≡ []) × (out.new.items ≡ out.old.items))
        (λ rest. (out.new.items ++ utf8 rest.now ≡ out.old.items ++ utf8 units.now)
        × (length rest.now < length units.now)
        × (take (length out.old.items) out.new.items ≡ out.old.items))) }
    ensures unchanged { OnErr result (out.new.items ≡ out.old.items) }
{
    let ascii = ascii_len(units);
    if ascii > 0 {
        push_ascii(&units[..ascii], out)?;
        return Ok(Some(&units[ascii..]));
    }
    let Some((c, rest)) = split_well(units) else {
        return Ok(None);
    };
    let mut room = [0; 4];
    out.extend_from_slice(c.encode_utf8(&mut room).as_bytes())?;
    Ok(Some(rest))
}

/// Adds the UTF-8 of the units at the end, each unpaired surrogate as U+FFFD. A refusal leaves
/// `out` as it was.
pub fn append_utf8(units: &[u16], out: &mut Vec<u8>) -> Result<(), NoMemory>
    ensures added { OnOk result (out.new.items ≡ out.old.items ++ utf8 units.now) }
    ensures unchanged { OnErr result (out.new.items ≡ out.old.items) }
{
    let before = out.len();
    let mut rest = units;
    'fronts: loop {
        match push_front(rest, out) {
            Ok(Some(after)) => rest = after,
            Ok(None) => return Ok(()),
            Err(_) => {
                out.truncate(before);
                return Err(NoMemory);
            }
        }
    }
}
