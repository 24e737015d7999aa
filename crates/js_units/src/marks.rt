// Which lane of a word is the first that holds a unit.
ghost use Rattle.std.specs.Prelude.{◌≡◌, ◌≢◌, ◌↔◌, ℕ, ◌+◌, ◌<◌, ◌≤◌, true, false, slice_index};
ghost use Rattle.std.specs.Int.{bit_at};
ghost use Rattle.js_units.specs.Lanes.{lane_count, lane_of};

use std::simd::prelude::*;

/// The first lane from number `skip` on that holds the unit, counted from there. Where none does,
/// it is past the last lane.
pub fn first_from(word: u64, wide: bool, skip: u32, unit: u16) -> u32
    requires { skip < lane_count wide }
    ensures most { result ≤ 8 }
    ensures none { (k : ℕ) → k < result → skip + k < lane_count wide → lane_of wide word (skip + k) ≢ unit }
    ensures found { skip + result < lane_count wide → lane_of wide word (skip + result) ≡ unit }
{
    if wide {
        return first_wide_from(word, skip, unit);
    }
    if unit > 255 {
        return 8;
    }
    first_narrow_from(word, skip, unit as u8)
}

// The same of one-byte lanes.
fn first_narrow_from(word: u64, skip: u32, unit: u8) -> u32
    requires { skip < 8 }
    ensures most { result ≤ 8 }
    ensures none { (k : ℕ) → k < result → lane_of false word (skip + k) ≢ unit }
    ensures found { skip + result < 8 → lane_of false word (skip + result) ≡ unit }
{
    first_narrow(word >> (8 * skip), unit)
}

// The same of two-byte lanes.
fn first_wide_from(word: u64, skip: u32, unit: u16) -> u32
    requires { skip < 4 }
    ensures most { result ≤ 8 }
    ensures none { (k : ℕ) → k < result → lane_of true word (skip + k) ≢ unit }
    ensures found { skip + result < 4 → lane_of true word (skip + result) ≡ unit }
{
    first_wide(word >> (16 * skip), unit)
}

/// The lanes of a word from number `skip` on, and 0 behind them.
pub fn lanes_from(word: u64, wide: bool, skip: u32) -> [u16; 8]
    requires { skip < lane_count wide }
    ensures { (k : ℕ) → skip + k < lane_count wide → slice_index result k ≡ lane_of wide word (skip + k) }
{
    if wide {
        return wide_units(word >> (16 * skip));
    }
    narrow_units(word >> (8 * skip))
}

fn wide_units(word: u64) -> [u16; 8]
    ensures { (k : ℕ) → k < 4 → slice_index result k ≡ lane_of true word k }
{
    [
        (word % 65536) as u16,
        (word / 65536 % 65536) as u16,
        (word / 4294967296 % 65536) as u16,
        (word / 281474976710656 % 65536) as u16,
        0,
        0,
        0,
        0,
    ]
}

fn narrow_units(word: u64) -> [u16; 8]
    ensures { (k : ℕ) → k < 8 → slice_index result k ≡ lane_of false word k }
{
    [
        (word % 256) as u16,
        (word / 256 % 256) as u16,
        (word / 65536 % 256) as u16,
        (word / 16777216 % 256) as u16,
        (word / 4294967296 % 256) as u16,
        (word / 1099511627776 % 256) as u16,
        (word / 281474976710656 % 256) as u16,
        (word / 72057594037927936 % 256) as u16,
    ]
}

// The first of eight one-byte lanes that holds the unit, or 8 where none does.
fn first_narrow(word: u64, unit: u8) -> u32
    ensures most { result ≤ 8 }
    ensures none { (k : ℕ) → k < result → lane_of false word k ≢ unit }
    ensures found { result < 8 → lane_of false word result ≡ unit }
{
    let marks = narrow_marks(word, unit);
    if marks == 0 {
        return 8;
    }
    lowest(marks)
}

// The first of four two-byte lanes that holds the unit, or 4 where none does.
fn first_wide(word: u64, unit: u16) -> u32
    ensures most { result ≤ 4 }
    ensures none { (k : ℕ) → k < result → lane_of true word k ≢ unit }
    ensures found { result < 4 → lane_of true word result ≡ unit }
{
    let marks = wide_marks(word, unit);
    if marks == 0 {
        return 4;
    }
    lowest(marks)
}

// A bit for each lane, which is set where the lane holds the unit.
#[inline(always)]
fn narrow_marks(word: u64, unit: u8) -> u64
    ensures { (k : ℕ) → (bit_at result k ≡ 1) ↔ ((k < 8) × (lane_of false word k ≡ unit)) }
{
    u64x1::splat(word)
        .to_le_bytes()
        .simd_eq(u8x8::splat(unit))
        .to_bitmask()
}

#[inline(always)]
fn wide_marks(word: u64, unit: u16) -> u64
    ensures { (k : ℕ) → (bit_at result k ≡ 1) ↔ ((k < 4) × (lane_of true word k ≡ unit)) }
{
    u16x4::from_le_bytes(u64x1::splat(word).to_le_bytes())
        .simd_eq(u16x4::splat(unit))
        .to_bitmask()
}

// The number of the lowest bit that is set.
#[inline(always)]
fn lowest(marks: u64) -> u32
    requires { marks ≢ 0 }
    ensures bound { result < 64 }
    ensures set { bit_at marks result ≡ 1 }
    ensures below { (k : ℕ) → k < result → bit_at marks k ≡ 0 }
{
    marks.trailing_zeros()
}
