// Units of a list as the lanes of words, four or eight at once.
ghost use Rattle.std.specs.Prelude.{◌≡◌, ℕ, ◌+◌, ◌-◌, ◌<◌, ◌≤◌, ◌^◌, false, true, length, slice_index};
ghost use Rattle.std.specs.Simd.Lanes.{chunk};
ghost use Rattle.js_units.specs.Lanes.{IsWordOf, is_wide, lane_count, lane_of, words_over};
ghost use Rattle.heap_read.specs.Shifted.{HoldsLanes};
ghost use Rattle.heap_read.specs.Sources.{FitsLanes};

use crate::source::unit_of;
use js_units::{lane_size, lanes};
use std::simd::prelude::*;

// Whether a unit is over 255.
pub(crate) fn has_wide(units: &[u16]) -> bool
    ensures { result ≡ is_wide units.now }
{
    let mut done = 0;
    while units.len() - done >= 8 {
        if has_wide_eight(units, done) {
            return true;
        }
        done += 8;
    }
    js_units::has_wide(&units[done..])
}

// Whether one of the eight units from place `at` on is over 255.
#[inline(always)]
fn has_wide_eight(units: &[u16], at: usize) -> bool
    requires { at + 8 ≤ length units.now }
    ensures { result ≡ is_wide (chunk at 8 units.now) }
{
    let marks = u16x8::from_slice(&units[at..])
        .simd_gt(u16x8::splat(255))
        .to_bitmask();
    marks != 0
}

// Word number `at` of the units, whose lanes past the last unit are 0.
pub(crate) fn pack(units: &[u16], wide: bool, at: u32) -> u64
    requires fits { wide ≡ false → (k : ℕ) → k < length units.now → slice_index units.now k < 256 }
    requires short { length units.now < 2 ^ 32 }
    requires within { at < words_over wide (length units.now) }
    ensures { IsWordOf wide units.now at result }
{
    let lanes = lanes(wide);
    let from = (at * lanes) as usize;
    if units.len() - from < lanes as usize {
        return js_units::pack(units, wide, at);
    }
    if wide {
        return wide_word(units, from);
    }
    narrow_word(units, from)
}

// The `count` units from place `first` on, which fit their lanes, as the lowest lanes of a word.
pub(crate) fn lanes_of(units: &[u16], wide: bool, first: u32, count: u32) -> u64
    requires within { first + count ≤ length units.now }
    requires room { count ≤ lane_count wide }
    requires fits { FitsLanes wide units.now }
    ensures { HoldsLanes wide result count (λ k. slice_index units.now (first + k)) }
{
    let at = first as usize;
    if count < lanes(wide) {
        return some_lanes(units, wide, at, at + count as usize);
    }
    if wide {
        return wide_word(units, at);
    }
    narrow_word(units, at)
}

// The units from place `from` up to place `to` as the lowest lanes of a word.
fn some_lanes(units: &[u16], wide: bool, from: usize, to: usize) -> u64
    requires within { (from ≤ to) × (to ≤ length units.now) }
    requires room { to - from ≤ lane_count wide }
    requires fits { FitsLanes wide units.now }
    ensures { HoldsLanes wide result (to - from) (λ k. slice_index units.now (from + k)) }
{
    let base = lane_size(wide);
    let mut word = 0;
    for i in (from..to).rev() {
        word = word * base + u64::from(unit_of(units, i));
    }
    word
}

// The word whose two-byte lanes are the four units from place `at` on.
#[inline(always)]
fn wide_word(units: &[u16], at: usize) -> u64
    requires { at + 4 ≤ length units.now }
    ensures { (k : ℕ) → k < 4 → lane_of true result k ≡ slice_index units.now (at + k) }
{
    let [word] = u64x1::from_le_bytes(u16x4::from_slice(&units[at..]).to_le_bytes()).to_array();
    word
}

// The word whose one-byte lanes are the eight units from place `at` on, which fit them.
#[inline(always)]
fn narrow_word(units: &[u16], at: usize) -> u64
    requires room { at + 8 ≤ length units.now }
    requires fits { (k : ℕ) → k < 8 → slice_index units.now (at + k) < 256 }
    ensures { (k : ℕ) → k < 8 → lane_of false result k ≡ slice_index units.now (at + k) }
{
    let bytes = u16x8::from_slice(&units[at..]).cast::<u8>();
    let [word] = u64x1::from_le_bytes(bytes).to_array();
    word
}
