// Short lists of units that are kept with their interned strings.

use heap_intern::{KeptKey, Seat, find_kept, keep_key, mix_units};

// Whether a list is kept with this string.
fn has(keys: &[KeptKey], units: &[u16], id: u32) -> bool {
    match find_kept(keys, mix_units(units), units) {
        Some(seat) => seat.id == id && seat.slot == id,
        None => false,
    }
}

fn has_none(keys: &[KeptKey], units: &[u16]) -> bool {
    find_kept(keys, mix_units(units), units).is_none()
}

fn keep(keys: &mut [KeptKey], units: &[u16], id: u32) {
    keep_key(keys, mix_units(units), units, Seat { id, slot: id });
}

// Whether a list is kept, and then another one that begins as it does isn't found.
fn is_kept(units: &[u16], other: &[u16]) -> bool {
    let mut keys = [KeptKey::none(); 64];
    if !has_none(&keys, units) {
        return false;
    }
    keep(&mut keys, units, 5);
    has(&keys, units, 5) && find_kept(&keys, mix_units(units), other).is_none()
}

// Other units whose lists of one unit have the place of that of a unit, among 64.
fn beside(unit: u16) -> Option<u16> {
    let place = mix_units(&[unit]) >> 26;
    for other in 0..u16::MAX {
        if other != unit && mix_units(&[other]) >> 26 == place {
            return Some(other);
        }
    }
    None
}

// Whether of two lists at one place the one that was kept last is found, and no other.
fn last_is_kept(unit: u16) -> bool {
    let other = match beside(unit) {
        Some(other) => other,
        None => return false,
    };
    let mut keys = [KeptKey::none(); 64];
    keep(&mut keys, &[unit], 1);
    if !has(&keys, &[unit], 1) || !has_none(&keys, &[other]) {
        return false;
    }
    keep(&mut keys, &[other], 2);
    has(&keys, &[other], 2) && has_none(&keys, &[unit])
}

const NARROW: [u16; 17] = [
    0x61, 0x62, 0x63, 0x64, 0x65, 0x66, 0x67, 0x68, 0x69, 0x6A, 0x6B, 0x6C, 0x6D, 0x6E, 0x6F, 0x70,
    0xFF,
];

const WIDE: [u16; 17] = [
    0x100, 0x62, 0x4E16, 0xD800, 0x65, 0xDC00, 0xFFFF, 0x68, 0, 0x6A, 0x6B, 0x754C, 0x6D, 0x6E,
    0x6F, 0x100, 0x101,
];

#[test]
fn lists_of_at_most_16_units_are_kept(rt: HostRuntime) {
    assert!(&rt; is_kept(&NARROW[..0], &NARROW[..1]));
    assert!(&rt; is_kept(&NARROW[..1], &NARROW[..2]));
    assert!(&rt; is_kept(&NARROW[..5], &WIDE[..5]));
    assert!(&rt; is_kept(&NARROW[..15], &NARROW[1..16]));
    assert!(&rt; is_kept(&NARROW[..16], &NARROW));
    assert!(&rt; is_kept(&WIDE[..1], &WIDE[16..]));
    assert!(&rt; is_kept(&WIDE[..15], &WIDE[..16]));
    assert!(&rt; is_kept(&WIDE[..16], &WIDE[..15]));
    assert!(&rt; !is_kept(&NARROW, &WIDE) && !is_kept(&WIDE, &NARROW));
}

#[test]
fn a_place_has_the_last_list(rt: HostRuntime) {
    assert!(&rt; last_is_kept(0) && last_is_kept(0x61) && last_is_kept(0x4E16));
}

#[test]
fn nothing_is_kept_without_room(rt: HostRuntime) {
    keep(&mut [], &NARROW[..3], 7);
    assert!(&rt; has_none(&[], &NARROW[..3]) && has_none(&[], &[]));
}
