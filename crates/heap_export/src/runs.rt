// Small units of a window, many at once.
ghost use Rattle.std.specs.Prelude.{◌≡◌, ℕ, ◌+◌, ◌-◌, ◌<◌, ◌≤◌, List, length, min, take, slice_index};
ghost use Rattle.heap_table.specs.Agents.{view_of};
ghost use Rattle.heap_read.specs.Windows.{IsWindow};
ghost use Rattle.heap_text.specs.Keeping.{KeepsText};
ghost use Rattle.heap_export.specs.Points.{LoadsWords};

use heap_read::HeapRef;
use heap_text::{Text, Window};
use std::simd::prelude::*;

/// Units that were read at once, and the place from which on it is worth reading more.
#[derive(Clone, Copy)]
pub(crate) struct Ahead {
    pub units: [u16; 64],
    pub next: u32,
}

impl Ahead {
    pub(crate) fn new() -> Ahead {
        Ahead {
            units: [0; 64],
            next: 0,
        }
    }
}

// The units of a window from place `i` on, 64 or all that are left, to the front of a block; how many.
pub(crate) fn read_block<H: HeapRef>(
    text: &mut Text<H>,
    w: Window,
    i: u32,
    block: &mut [u16; 64],
) -> u32
    requires window { (us : List ℕ) × IsWindow (view_of text.old.reader.agent) w us }
    requires within { i ≤ w.len }
    ensures kept { KeepsText text.old text.new }
    ensures loads { LoadsWords (view_of text.old.reader.agent) (view_of text.new.reader.agent) }
    ensures count { result ≡ min (w.len - i) 64 }
    ensures units { (us : List ℕ) → IsWindow (view_of text.old.reader.agent) w us
        → (k : ℕ) → k < result → slice_index block.new k ≡ slice_index us (i + k) }
{
    let count = (w.len - i).min(64);
    text.read_in(w, i, &mut block[..count as usize]);
    count
}

// Reads units of a window from place `i` on; how many of them are `most` or less, up to the first that is
// greater. Where these are few, the next units are read one by one.
pub(crate) fn read_run<H: HeapRef>(
    text: &mut Text<H>,
    w: Window,
    i: u32,
    most: u16,
    ahead: &mut Ahead,
) -> u32
    requires window { (us : List ℕ) × IsWindow (view_of text.old.reader.agent) w us }
    requires within { i ≤ w.len }
    ensures kept { KeepsText text.old text.new }
    ensures loads { LoadsWords (view_of text.old.reader.agent) (view_of text.new.reader.agent) }
    ensures most { result ≤ 64 }
    ensures within { i + result ≤ w.len }
    ensures small { (k : ℕ) → k < result → slice_index ahead.new.units k ≤ most }
    ensures units { (us : List ℕ) → IsWindow (view_of text.old.reader.agent) w us
        → (k : ℕ) → k < result → slice_index ahead.new.units k ≡ slice_index us (i + k) }
{
    if i < ahead.next {
        return 0;
    }
    let count = read_block(text, w, i, &mut ahead.units);
    let run = small_front(&ahead.units, most).min(count);
    if run < 8 {
        ahead.next = i.saturating_add(64);
    }
    run
}

// How many units are `most` or less, up to the first that is greater.
#[inline(always)]
fn small_front(units: &[u16; 64], most: u16) -> u32
    ensures most { result ≤ 64 }
    ensures small { (k : ℕ) → k < result → slice_index units.now k ≤ most }
{
    let others = u16x64::from_slice(units)
        .simd_gt(u16x64::splat(most))
        .to_bitmask();
    if others == 0 {
        return 64;
    }
    others.trailing_zeros()
}

// As many units as there is room for, a byte each.
pub(crate) fn put_small(units: &[u16; 64], out: &mut [u8])
    requires most { length out.old ≤ 64 }
    requires small { (k : ℕ) → k < length out.old → slice_index units.now k ≤ 255 }
    ensures { out.new ≡ take (length out.old) units.now }
{
    for k in 0..out.len() {
        out[k] = units[k] as u8;
    }
}
