// Units that bytes spell, added to others for which there is room.
ghost use Rattle.std.specs.Prelude.{◌≡◌, ◌++◌, ◌<◌, ◌≤◌, ◌+◌, length, vec_len, vec_capacity};
ghost use Rattle.std.specs.Str.{chars};
ghost use Rattle.js_units.specs.Text as text;
ghost use Rattle.heap_bytes.specs.Points.{IsRead, utf16};

use heap_bytes::split_point;

/// Adds the units that bytes spell, for which there is room.
pub(crate) fn fill_points(units: &mut Vec<u16>, bytes: &[u8])
    requires read { IsRead bytes.now }
    requires room { vec_len units.old + length (utf16 (chars bytes.now)) ≤ vec_capacity units.old }
    ensures added { units.new.items ≡ units.old.items ++ utf16 (chars bytes.now) }
    ensures room { vec_capacity units.new ≡ vec_capacity units.old }
{
    let mut rest = bytes;
    while let Some((point, after)) = split_point(rest) {
        fill_point(units, point);
        rest = after;
    }
}

// Adds the units of a code point, for which there is room.
fn fill_point(units: &mut Vec<u16>, point: u32)
    requires small { point < 0x110000 }
    requires room { vec_len units.old + length (text.utf16_of point) ≤ vec_capacity units.old }
    ensures added { units.new.items ≡ units.old.items ++ text.utf16_of point }
    ensures room { vec_capacity units.new ≡ vec_capacity units.old }
{
    if point < 0x10000 {
        units.push_reserved(point as u16);
    } else {
        let bits = point - 0x10000;
        units.push_reserved((0xD800 + bits / 0x400) as u16);
        units.push_reserved((0xDC00 + bits % 0x400) as u16);
    }
}

/// Adds a unit for each byte, for which there is room.
pub(crate) fn fill_latin1(units: &mut Vec<u16>, bytes: &[u8])
    requires room { vec_len units.old + length bytes.now ≤ vec_capacity units.old }
    ensures added { units.new.items ≡ units.old.items ++ bytes.now }
    ensures room { vec_capacity units.new ≡ vec_capacity units.old }
{
    for byte in bytes {
        units.push_reserved(u16::from(*byte));
    }
}
