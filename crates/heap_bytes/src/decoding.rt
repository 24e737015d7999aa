// The code points that bytes spell.
ghost use Rattle.std.specs.Prelude.{◌≡◌, ◌++◌, ◌-◌, ◌*◌, ◌<◌, ◌≤◌, ◌&&◌, nat_eq, length, slice_index, take, true, false, MatchOption};
ghost use Rattle.std.specs.Char.{encode_utf8};
ghost use Rattle.std.specs.Str.{IsAscii};
ghost use Rattle.js_units.specs.Text as text;
ghost use Rattle.heap_rule.specs.Layout.{MAX};
ghost use Rattle.heap_bytes.specs.Points.{BeginsNone, IsMeasured};
ghost use Rattle.heap_bytes.specs.Points;
ghost use Rattle.heap_bytes.specs.Reading.{FollowsNone};

use crate::encoding::Encoding;

/// A code point off the front of bytes, which may be a surrogate, and the bytes behind it.
pub fn split_point(bytes: &[u8]) -> Option<(u32, &[u8])>
    ensures { MatchOption result (BeginsNone bytes.now)
        (λ p. (p.0 < 0x110000) × (bytes.now ≡ encode_utf8 p.0 ++ p.1.now)) }
{
    if bytes.is_empty() {
        return None;
    }
    let first = bytes[0];
    if first < 0x80 {
        return Some((u32::from(first), &bytes[1..]));
    }
    if first < 0xC2 {
        return None;
    }
    if first < 0xE0 {
        return split_two(bytes);
    }
    if first < 0xF0 {
        return split_three(bytes);
    }
    if first < 0xF5 {
        return split_four(bytes);
    }
    None
}

// A code point of two bytes, the first of which is C2 to DF.
fn split_two(bytes: &[u8]) -> Option<(u32, &[u8])>
    requires some { 0 < length bytes.now }
    requires first { (0xC2 ≤ slice_index bytes.now 0) × (slice_index bytes.now 0 < 0xE0) }
    ensures { MatchOption result (BeginsNone bytes.now)
        (λ p. (p.0 < 0x110000) × (bytes.now ≡ encode_utf8 p.0 ++ p.1.now)) }
{
    if bytes.len() < 2 || !continues(bytes[1]) {
        return None;
    }
    let point = (u32::from(bytes[0]) - 0xC0) * 64 + (u32::from(bytes[1]) - 0x80);
    Some((point, &bytes[2..]))
}

// A code point of three bytes, the first of which is E0 to EF.
fn split_three(bytes: &[u8]) -> Option<(u32, &[u8])>
    requires some { 0 < length bytes.now }
    requires first { (0xE0 ≤ slice_index bytes.now 0) × (slice_index bytes.now 0 < 0xF0) }
    ensures { MatchOption result (BeginsNone bytes.now)
        (λ p. (p.0 < 0x110000) × (bytes.now ≡ encode_utf8 p.0 ++ p.1.now)) }
{
    if bytes.len() < 3 || !continues(bytes[1]) || !continues(bytes[2]) {
        return None;
    }
    let front = (u32::from(bytes[0]) - 0xE0) * 64 + (u32::from(bytes[1]) - 0x80);
    if front < 0x20 {
        return None;
    }
    Some((front * 64 + (u32::from(bytes[2]) - 0x80), &bytes[3..]))
}

// A code point of four bytes, the first of which is F0 to F4.
fn split_four(bytes: &[u8]) -> Option<(u32, &[u8])>
    requires some { 0 < length bytes.now }
    requires first { (0xF0 ≤ slice_index bytes.now 0) × (slice_index bytes.now 0 < 0xF5) }
    ensures { MatchOption result (BeginsNone bytes.now)
        (λ p. (p.0 < 0x110000) × (bytes.now ≡ encode_utf8 p.0 ++ p.1.now)) }
{
    if bytes.len() < 4 || !continues(bytes[1]) || !continues(bytes[2]) || !continues(bytes[3]) {
        return None;
    }
    let front = (u32::from(bytes[0]) - 0xF0) * 64 + (u32::from(bytes[1]) - 0x80);
    if front < 0x10 || front >= 0x110 {
        return None;
    }
    let back = (u32::from(bytes[2]) - 0x80) * 64 + (u32::from(bytes[3]) - 0x80);
    Some((front * 4096 + back, &bytes[4..]))
}

// Whether a byte may follow the first of a code point.
fn continues(byte: u8) -> bool
    ensures within { result ≡ true → (0x80 ≤ byte) × (byte < 0xC0) }
    ensures outside { result ≡ false → ¬ ((0x80 ≤ byte) × (byte < 0xC0)) }
{
    (0x80..0xC0).contains(&byte)
}

/// How many units bytes spell; or the length of the longest front that spells some. Runs of ASCII are counted
/// without being decoded.
pub fn measure(encoding: Encoding, bytes: &[u8]) -> Result<usize, usize>
    requires { length bytes.now ≤ 3 * MAX }
    ensures { IsMeasured encoding bytes.now result }
{
    let mut rest = bytes;
    let mut lead = false;
    let mut count = 0;
    while !rest.is_empty() {
        let run = ascii_run(rest);
        let behind = &rest[run..];
        count += run;
        if behind.is_empty() {
            return Ok(count);
        }
        match next_point(encoding, leads(lead, run), behind) {
            Some((point, after)) => {
                count += units_for(point);
                lead = begins_pair(point);
                rest = after;
            }
            None => return Err(bytes.len() - behind.len()),
        }
    }
    Ok(count)
}

// How many bytes off the front are ASCII.
fn ascii_run(bytes: &[u8]) -> usize
    ensures within { result ≤ length bytes.now }
    ensures ascii { IsAscii (take result bytes.now) }
{
    let mut run = 0;
    while run < bytes.len() && bytes[run] < 0x80 {
        run += 1;
    }
    run
}

// Whether what is behind a run of ASCII follows a leading surrogate, where what is in front of the run is one.
fn leads(lead: bool, run: usize) -> bool
    ensures { result ≡ (lead && nat_eq run 0) }
{
    if run == 0 { lead } else { false }
}

// A code point off the front that may follow one that is a leading surrogate, or isn't.
fn next_point(encoding: Encoding, lead: bool, bytes: &[u8]) -> Option<(u32, &[u8])>
    ensures { MatchOption result (FollowsNone encoding lead bytes.now)
        (λ p. (Points.may_follow encoding lead p.0 ≡ true) × (bytes.now ≡ encode_utf8 p.0 ++ p.1.now)) }
{
    let (point, rest) = split_point(bytes)?;
    if !may_follow(encoding, lead, point) {
        return None;
    }
    Some((point, rest))
}

fn may_follow(encoding: Encoding, lead: bool, point: u32) -> bool
    requires { point < 0x110000 }
    ensures { result ≡ Points.may_follow encoding lead point }
{
    match encoding {
        Encoding::Utf8 => !(0xD800..0xE000).contains(&point),
        Encoding::Wtf8 => !(lead && (0xDC00..0xE000).contains(&point)),
    }
}

// Whether a code point is a leading surrogate.
fn begins_pair(point: u32) -> bool
    ensures { result ≡ text.is_lead point }
{
    (0xD800..0xDC00).contains(&point)
}

// How many units a code point has.
fn units_for(point: u32) -> usize
    ensures { result ≡ length (text.utf16_of point) }
{
    if point < 0x10000 { 1 } else { 2 }
}
