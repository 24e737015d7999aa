// Lanes of a word compared with units of a list: all lanes of the word at once, else one after the other.
ghost use Rattle.std.specs.Prelude.{◌≡◌, ◌≢◌, ℕ, ◌+◌, ◌<◌, ◌≤◌, ◌^◌, false, true, length, slice_index};
ghost use Rattle.std.specs.Bool.{MatchBool};
ghost use Rattle.heap_read.specs.Written.{HasAt, held_unit};
ghost use Rattle.heap_intern.specs.Packed.{AreLanes, HasOtherLane};

use heap_read::HeldWord;
use js_units::lane_size;
use std::simd::prelude::*;

// Whether a held word has `count` units of a list from number `i` on.
pub(crate) fn has_list_at(held: &HeldWord, units: &[u16], i: u32, count: u32) -> bool
    requires has { HasAt held.now i count }
    requires some { 0 < count }
    requires within { i + count ≤ length units.now }
    requires short { i + count < 2 ^ 32 }
    ensures { MatchBool result
        ((k : ℕ) → k < count → held_unit held.now (i + k) ≡ slice_index units.now (i + k))
        ((k : ℕ) × (k < count) × (held_unit held.now (i + k) ≢ slice_index units.now (i + k))) }
{
    let low = held.lane + (i - held.from);
    if held.wide {
        return has_wide_lanes(held.word >> (16 * low), units, i as usize, count);
    }
    has_narrow_lanes(held.word >> (8 * low), units, i as usize, count)
}

// Whether the lowest `count` two-byte lanes of a word are the units from place `at` on.
#[inline(always)]
fn has_wide_lanes(word: u64, units: &[u16], at: usize, count: u32) -> bool
    requires within { at + count ≤ length units.now }
    ensures { MatchBool result (AreLanes true word units.now at count)
        (HasOtherLane true word units.now at count) }
{
    if count == 4 {
        return is_wide_word(word, units, at);
    }
    has_lanes(word, true, units, at, count)
}

// The same of one-byte lanes.
#[inline(always)]
fn has_narrow_lanes(word: u64, units: &[u16], at: usize, count: u32) -> bool
    requires within { at + count ≤ length units.now }
    ensures { MatchBool result (AreLanes false word units.now at count)
        (HasOtherLane false word units.now at count) }
{
    if count == 8 {
        return is_narrow_word(word, units, at);
    }
    has_lanes(word, false, units, at, count)
}

// Whether the four lanes of a word are the units from place `at` on.
#[inline(always)]
fn is_wide_word(word: u64, units: &[u16], at: usize) -> bool
    requires { at + 4 ≤ length units.now }
    ensures { MatchBool result (AreLanes true word units.now at 4) (HasOtherLane true word units.now at 4) }
{
    let others = u16x4::from_le_bytes(u64x1::splat(word).to_le_bytes())
        .simd_ne(u16x4::from_slice(&units[at..]))
        .to_bitmask();
    others == 0
}

// Whether the eight lanes of a word are the units from place `at` on. A unit over 255 differs from each.
#[inline(always)]
fn is_narrow_word(word: u64, units: &[u16], at: usize) -> bool
    requires { at + 8 ≤ length units.now }
    ensures { MatchBool result (AreLanes false word units.now at 8) (HasOtherLane false word units.now at 8) }
{
    let others = u64x1::splat(word)
        .to_le_bytes()
        .cast::<u16>()
        .simd_ne(u16x8::from_slice(&units[at..]))
        .to_bitmask();
    others == 0
}

// The same of the lowest `count` lanes, for each width of the lanes inlined.
#[inline(always)]
fn has_lanes(word: u64, wide: bool, units: &[u16], at: usize, count: u32) -> bool
    requires { at + count ≤ length units.now }
    ensures { MatchBool result (AreLanes wide word units.now at count)
        (HasOtherLane wide word units.now at count) }
{
    let base = lane_size(wide);
    let mut rest = word;
    for k in 0..count as usize {
        if rest % base != u64::from(units[at + k]) {
            return false;
        }
        rest /= base;
    }
    true
}
