// Places at which two units of a needle occur where they would, sought by blocks of the haystack.
ghost use Rattle.std.specs.Prelude.{◌≡◌, ◌↔◌, ℕ, ◌+◌, ◌<◌, ◌≤◌, IsTrue, None, length, slice_index};
ghost use Rattle.std.specs.Int.{bit_at};
ghost use Rattle.js_store.specs.State.{IsKnown, IsSettled, text};
ghost use Rattle.js_store.specs.Faults.{Uses};
ghost use Rattle.js_search.specs.Blocks.{IsPart};
ghost use Rattle.js_search.specs.Pairs.{HasPair, IsFirstPair, IsLastPair, IsPairOf};

use crate::blocks::{Block, SIZE};
use js_store::Strings;
use std::simd::prelude::*;

// The first unit of a needle, and the one so many places behind it.
#[derive(Clone, Copy)]
pub(crate) struct Pair {
    pub(crate) first: u16,
    pub(crate) other: u16,
    pub(crate) apart: u32,
}

// The greatest distance of the two units.
const MOST_APART: u32 = 31;

// How many units a block gets: few at first, since a pair is often near.
fn units_for(block: &Block) -> u32
    ensures low { 64 ≤ result }
    ensures high { result ≤ 256 }
{
    if block.count == 0 { 64 } else { SIZE }
}

// Two units of a needle that isn't empty: its first, and its last one or one that is less far.
pub(crate) fn pair_of<S: Strings>(store: &mut S, needle: S::Ref, size: u32) -> Pair
    requires known { IsKnown (S.state store.old) (S.number needle) }
    requires settled { IsSettled (S.state store.old) (S.number needle) }
    requires size { size ≡ length (text (S.state store.old) (S.number needle)) }
    requires some { 0 < size }
    ensures pair { IsPairOf (text (S.state store.old) (S.number needle)) result }
    ensures uses { Uses (S.state store.old) (S.state store.new) None 0 0 }
{
    let apart = MOST_APART.min(size - 1);
    let first = store.unit_at(needle, 0);
    let other = store.unit_at(needle, apart);
    Pair {
        first,
        other,
        apart,
    }
}

// The least place from `from` on at which a pair may occur, where there is one. The block holds
// units of the haystack.
pub(crate) fn next_pair<S: Strings>(
    store: &mut S,
    hay: S::Ref,
    block: &mut Block,
    pair: Pair,
    from: u32,
    len: u32,
) -> Option<u32>
    requires known { IsKnown (S.state store.old) (S.number hay) }
    requires settled { IsSettled (S.state store.old) (S.number hay) }
    requires len { len ≡ length (text (S.state store.old) (S.number hay)) }
    requires short { len ≤ 536870888 }
    requires near { pair.apart ≤ 31 }
    requires within { from ≤ len }
    requires part { IsPart (text (S.state store.old) (S.number hay)) block.old }
    ensures least { IsFirstPair (text (S.state store.old) (S.number hay)) pair from result }
    ensures part { IsPart (text (S.state store.old) (S.number hay)) block.new }
    ensures uses { Uses (S.state store.old) (S.state store.new) None 0 0 }
{
    let mut place = from;
    while place + pair.apart < len {
        let behind = place + pair.apart + 1;
        let count = units_for(block).min(len - place);
        block.cover(store, hay, place, behind, place, count);
        let end = block.count - pair.apart;
        let at = first_in(&block.units, pair, place - block.from, end);
        if at < end {
            return Some(block.from + at);
        }
        place = block.from + end;
    }
    None
}

// The greatest place before `end` at which a pair may occur, where there is one. The block holds
// units of the haystack.
pub(crate) fn previous_pair<S: Strings>(
    store: &mut S,
    hay: S::Ref,
    block: &mut Block,
    pair: Pair,
    end: u32,
) -> Option<u32>
    requires known { IsKnown (S.state store.old) (S.number hay) }
    requires settled { IsSettled (S.state store.old) (S.number hay) }
    requires room { end + pair.apart ≤ length (text (S.state store.old) (S.number hay)) }
    requires short { end + pair.apart ≤ 536870888 }
    requires near { pair.apart ≤ 31 }
    requires part { IsPart (text (S.state store.old) (S.number hay)) block.old }
    ensures greatest { IsLastPair (text (S.state store.old) (S.number hay)) pair end result }
    ensures part { IsPart (text (S.state store.old) (S.number hay)) block.new }
    ensures uses { Uses (S.state store.old) (S.state store.new) None 0 0 }
{
    let mut left = end;
    while 0 < left {
        let behind = left + pair.apart;
        let count = units_for(block).min(behind);
        block.cover(store, hay, left - 1, behind, behind - count, count);
        if let Some(at) = last_in(&block.units, pair, left - block.from) {
            return Some(block.from + at);
        }
        left = block.from;
    }
    None
}

// The least place from `from` on and before `end` at which a pair occurs in a list, or `end`.
fn first_in(units: &[u16], pair: Pair, from: u32, end: u32) -> u32
    requires order { from ≤ end }
    requires room { end + pair.apart ≤ length units.now }
    requires short { length units.now ≤ 256 }
    ensures low { from ≤ result }
    ensures high { result ≤ end }
    ensures none { (k : ℕ) → from ≤ k → k < result → HasPair units.now pair k → ⊥ }
{
    let mut start = from;
    while 8 <= end - start && !has_some(units, pair, start) {
        start += 8;
    }
    for k in start..end {
        if units[k as usize] == pair.first && units[(k + pair.apart) as usize] == pair.other {
            return k;
        }
    }
    end
}

// The greatest place before `end` at which a pair occurs in a list, where there is one.
fn last_in(units: &[u16], pair: Pair, end: u32) -> Option<u32>
    requires room { end + pair.apart ≤ length units.now }
    requires short { length units.now ≤ 256 }
    ensures { IsLastPair units.now pair end result }
{
    let mut left = end;
    while 8 <= left && !has_some(units, pair, left - 8) {
        left -= 8;
    }
    for k in (0..left).rev() {
        if units[k as usize] == pair.first && units[(k + pair.apart) as usize] == pair.other {
            return Some(k);
        }
    }
    None
}

// Whether a pair occurs at one of the eight places from `at` on.
#[inline(always)]
fn has_some(units: &[u16], pair: Pair, at: u32) -> bool
    requires room { at + 8 + pair.apart ≤ length units.now }
    requires short { length units.now ≤ 256 }
    ensures { (k : ℕ) → k < 8 → HasPair units.now pair (at + k) → IsTrue result }
{
    let first = marks(units, pair.first, at as usize);
    let other = marks(units, pair.other, (at + pair.apart) as usize);
    first & other != 0
}

// A bit for each of the eight places from `at` on, which is set where the unit occurs there.
#[inline(always)]
fn marks(units: &[u16], unit: u16, at: usize) -> u64
    requires { at + 8 ≤ length units.now }
    ensures { (k : ℕ) → (bit_at result k ≡ 1) ↔ ((k < 8) × (slice_index units.now (at + k) ≡ unit)) }
{
    u16x8::from_slice(&units[at..at + 8])
        .simd_eq(u16x8::splat(unit))
        .to_bitmask()
}
