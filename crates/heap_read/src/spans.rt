// Reading the units of a window, a word at a time.
ghost use Rattle.std.specs.Prelude.{◌≡◌, ℕ, List, ◌+◌, ◌-◌, ◌*◌, ◌/◌, ◌%◌, ◌≤◌, ◌<◌, false, true, length, slice_index, slice_range};
ghost use Rattle.js_units.specs.Lanes.{lane_count, lane_of, words_over};
ghost use Rattle.heap_rule.specs.Layout.{content_at};
ghost use Rattle.heap_table.specs.Agents.{size_of};
ghost use Rattle.heap_read.specs.Readers.{MovesView, view_in};
ghost use Rattle.heap_read.specs.Reads.{KeepsForms, OnlyLoads};
ghost use Rattle.heap_read.specs.Shifted.{BeginsWord};
ghost use Rattle.heap_read.specs.Windows.{IsFrozenWindow, IsWindow};
ghost use Rattle.heap_read.specs.Written.{ShowsFrom, ShowsOn};

use crate::heap_ref::HeapRef;
use crate::reader::Reader;
use crate::string::Window;
use js_units::{lane, lanes, word_and_lane};
use std::simd::prelude::*;

impl<H: HeapRef> Reader<H> {
    /// Copies the units of a window from place `from` on into `into`, as many as it holds.
    pub fn units_into(&mut self, w: Window, from: u32, into: &mut [u16])
        requires window { (us : List ℕ) × IsWindow (view_in self.old) w us }
        requires within { from + length into.old ≤ w.len }
        ensures reads { MovesView OnlyLoads self.old self.new }
        ensures forms { KeepsForms (view_in self.old) (view_in self.new) }
        ensures units { (us : List ℕ) → IsWindow (view_in self.old) w us
            → into.new ≡ slice_range us from (from + length into.old) }
    {
        let size = lanes(w.wide);
        let mut done = 0;
        while done < into.len() {
            let i = from + done as u32;
            let (_, lane) = word_and_lane(w.wide, w.offset + i);
            if lane == 0 && into.len() - done >= size as usize {
                done = self.whole_words_into(w, from, into, done);
                continue;
            }
            let word = self.word_with(w, i);
            let count = ((size - lane) as usize).min(into.len() - done);
            put_lanes(into, done, word, w.wide, lane, count as u32);
            done += count;
        }
    }

    // Copies whole words of a window into `into` from place `done` on, as long as there is room for all
    // lanes of the next one; the answer is the place behind them. The first unit is in a lowest lane.
    fn whole_words_into(&mut self, w: Window, from: u32, into: &mut [u16], done: usize) -> usize
        requires window { (us : List ℕ) × IsWindow (view_in self.old) w us }
        requires within { from + length into.old ≤ w.len }
        requires lowest { (w.offset + (from + done)) % lane_count w.wide ≡ 0 }
        requires room { done + lane_count w.wide ≤ length into.old }
        ensures reads { MovesView OnlyLoads self.old self.new }
        ensures forms { KeepsForms (view_in self.old) (view_in self.new) }
        ensures more { (done < result) × (result ≤ length into.old) }
        ensures before { (k : ℕ) → k < done → slice_index into.new k ≡ slice_index into.old k }
        ensures inside { (us : List ℕ) → IsWindow (view_in self.old) w us → (k : ℕ) → done ≤ k → k < result
            → slice_index into.new k ≡ slice_index us (from + k) }
    {
        if w.wide {
            return self.lanes_into(Window { wide: true, ..w }, from, into, done);
        }
        self.lanes_into(Window { wide: false, ..w }, from, into, done)
    }

    // The same, inlined for each width of the lanes, so that there is a loop for each of the two.
    #[inline(always)]
    fn lanes_into(&mut self, w: Window, from: u32, into: &mut [u16], done: usize) -> usize
        requires window { (us : List ℕ) × IsWindow (view_in self.old) w us }
        requires within { from + length into.old ≤ w.len }
        requires lowest { (w.offset + (from + done)) % lane_count w.wide ≡ 0 }
        requires room { done + lane_count w.wide ≤ length into.old }
        ensures reads { MovesView OnlyLoads self.old self.new }
        ensures forms { KeepsForms (view_in self.old) (view_in self.new) }
        ensures more { (done < result) × (result ≤ length into.old) }
        ensures before { (k : ℕ) → k < done → slice_index into.new k ≡ slice_index into.old k }
        ensures inside { (us : List ℕ) → IsWindow (view_in self.old) w us → (k : ℕ) → done ≤ k → k < result
            → slice_index into.new k ≡ slice_index us (from + k) }
    {
        let first = self.heap.heap().first_content();
        let size = lanes(w.wide) as usize;
        let (number, _) = word_and_lane(w.wide, w.offset + (from + done as u32));
        let mut at = w.start + number;
        let mut next = done;
        while into.len() - next >= size {
            if into.len() - next >= 4 * size {
                self.four_into(w, from + next as u32, first, at, into, next);
                next += 4 * size;
                at += 4;
                continue;
            }
            self.word_into(w, from + next as u32, first, at, into, next);
            next += size;
            at += 1;
        }
        next
    }

    // Copies four words of a window into `into` from place `next` on, each lane straight to its place.
    // Unit `i` is the first one of content word `at`.
    #[inline(always)]
    fn four_into(&mut self, w: Window, i: u32, first: usize, at: u32, into: &mut [u16], next: usize)
        requires window { (us : List ℕ) × IsWindow (view_in self.old) w us }
        requires within { i + 4 * lane_count w.wide ≤ w.len }
        requires room { next + 4 * lane_count w.wide ≤ length into.old }
        requires first { first ≡ content_at (size_of (H.reached self.old.heap)) 0 }
        requires at { BeginsWord w i at }
        ensures reads { MovesView OnlyLoads self.old self.new }
        ensures forms { KeepsForms (view_in self.old) (view_in self.new) }
        ensures before { (k : ℕ) → k < next → slice_index into.new k ≡ slice_index into.old k }
        ensures inside { (us : List ℕ) → IsWindow (view_in self.old) w us → (k : ℕ)
            → k < 4 * lane_count w.wide → slice_index into.new (next + k) ≡ slice_index us (i + k) }
    {
        let size = lanes(w.wide);
        let place = next + size as usize;
        self.word_into(w, i, first, at, into, next);
        self.word_into(w, i + size, first, at + 1, into, place);
        self.word_into(w, i + 2 * size, first, at + 2, into, place + size as usize);
        self.word_into(
            w,
            i + 3 * size,
            first,
            at + 3,
            into,
            place + 2 * size as usize,
        );
    }

    // The same of one word.
    #[inline(always)]
    fn word_into(&mut self, w: Window, i: u32, first: usize, at: u32, into: &mut [u16], next: usize)
        requires window { (us : List ℕ) × IsWindow (view_in self.old) w us }
        requires within { i + lane_count w.wide ≤ w.len }
        requires room { next + lane_count w.wide ≤ length into.old }
        requires first { first ≡ content_at (size_of (H.reached self.old.heap)) 0 }
        requires at { BeginsWord w i at }
        ensures reads { MovesView OnlyLoads self.old self.new }
        ensures forms { KeepsForms (view_in self.old) (view_in self.new) }
        ensures before { (k : ℕ) → k < next → slice_index into.new k ≡ slice_index into.old k }
        ensures inside { (us : List ℕ) → IsWindow (view_in self.old) w us → (k : ℕ) → k < lane_count w.wide
            → slice_index into.new (next + k) ≡ slice_index us (i + k) }
    {
        let word = self.word_from(first, at, w, i);
        put_word(into, next, word, w.wide);
    }

    /// Copies `count` content words of a window, from number `at` on, to the front of `into`, each by
    /// one load.
    pub fn words_into(&mut self, w: Window, at: u32, count: u32, into: &mut [u64])
        requires window { (us : List ℕ) × IsWindow (view_in self.old) w us }
        requires within { 0 < count
            → (0 < w.len) × (at + count ≤ words_over w.wide (w.offset % lane_count w.wide + w.len)) }
        requires room { count ≤ length into.old }
        ensures reads { MovesView OnlyLoads self.old self.new }
        ensures forms { KeepsForms (view_in self.old) (view_in self.new) }
        ensures rest { (k : ℕ) → count ≤ k → slice_index into.new k ≡ slice_index into.old k }
        ensures words { (us : List ℕ) → IsWindow (view_in self.old) w us
            → ShowsFrom w.wide (w.offset % lane_count w.wide) us at count into.new }
    {
        let (first, _) = word_and_lane(w.wide, w.offset);
        for k in 0..count {
            let word = self.word_number(w, first, at + k);
            into[k as usize] = word;
        }
    }

    // Word number `j` of a window, which has a unit, by one load. The window begins in the word `first`
    // behind its start.
    #[inline(always)]
    fn word_number(&mut self, w: Window, first: u32, j: u32) -> u64
        requires frozen { IsFrozenWindow (view_in self.old) w }
        requires some { 0 < w.len }
        requires within { j * lane_count w.wide < w.offset % lane_count w.wide + w.len }
        requires first { first ≡ w.offset / lane_count w.wide }
        ensures reads { MovesView OnlyLoads self.old self.new }
        ensures forms { KeepsForms (view_in self.old) (view_in self.new) }
        ensures word { (us : List ℕ) → IsWindow (view_in self.old) w us
            → ShowsOn w us (j * lane_count w.wide - w.offset % lane_count w.wide) result }
    {
        self.agent.load_word(self.heap.heap(), w.start + first + j)
    }

    // The word with unit `i` of a window, by one load.
    #[inline(always)]
    fn word_with(&mut self, w: Window, i: u32) -> u64
        requires frozen { IsFrozenWindow (view_in self.old) w }
        requires within { i < w.len }
        ensures reads { MovesView OnlyLoads self.old self.new }
        ensures forms { KeepsForms (view_in self.old) (view_in self.new) }
        ensures word { (us : List ℕ) → IsWindow (view_in self.old) w us → ShowsOn w us i result }
    {
        let (at, _) = word_and_lane(w.wide, w.offset + i);
        self.agent.load_word(self.heap.heap(), w.start + at)
    }

    // The word with unit `i` of a window, which is content word `at`, by one load from the place of the
    // heap's first one.
    #[inline(always)]
    pub(crate) fn word_from(&mut self, first: usize, at: u32, w: Window, i: u32) -> u64
        requires frozen { IsFrozenWindow (view_in self.old) w }
        requires within { i < w.len }
        requires first { first ≡ content_at (size_of (H.reached self.old.heap)) 0 }
        requires at { at ≡ w.start + (w.offset + i) / lane_count w.wide }
        ensures reads { MovesView OnlyLoads self.old self.new }
        ensures forms { KeepsForms (view_in self.old) (view_in self.new) }
        ensures word { (us : List ℕ) → IsWindow (view_in self.old) w us → ShowsOn w us i result }
    {
        self.agent.load_word_from(self.heap.heap(), first, at)
    }
}

// Puts `count` lanes of a word, from lane `low` on, into a slice, from place `at` on.
#[inline(always)]
fn put_lanes(into: &mut [u16], at: usize, word: u64, wide: bool, low: u32, count: u32)
    requires room { at + count ≤ length into.old }
    requires lanes { low + count ≤ lane_count wide }
    ensures before { (k : ℕ) → k < at → slice_index into.new k ≡ slice_index into.old k }
    ensures inside { (k : ℕ) → k < count
        → slice_index into.new (at + k) ≡ lane_of wide word (low + k) }
{
    let mut k = 0;
    while k < count {
        into[at + k as usize] = lane(word, wide, low + k);
        k += 1;
    }
}

// Puts all lanes of a word into a slice, from place `at` on.
#[inline(always)]
fn put_word(into: &mut [u16], at: usize, word: u64, wide: bool)
    requires { at + lane_count wide ≤ length into.old }
    ensures before { (k : ℕ) → k < at → slice_index into.new k ≡ slice_index into.old k }
    ensures inside { (k : ℕ) → k < lane_count wide → slice_index into.new (at + k) ≡ lane_of wide word k }
{
    if wide {
        put_wide(into, at, word);
        return;
    }
    put_narrow(into, at, word);
}

// Puts the two-byte lanes of a word into a slice, by one move of them all.
#[inline(always)]
fn put_wide(into: &mut [u16], at: usize, word: u64)
    requires { at + 4 ≤ length into.old }
    ensures before { (k : ℕ) → k < at → slice_index into.new k ≡ slice_index into.old k }
    ensures inside { (k : ℕ) → k < 4 → slice_index into.new (at + k) ≡ lane_of true word k }
{
    let lanes = u16x4::from_le_bytes(u64x1::splat(word).to_le_bytes());
    lanes.copy_to_slice(&mut into[at..]);
}

// The same of the one-byte lanes.
#[inline(always)]
fn put_narrow(into: &mut [u16], at: usize, word: u64)
    requires { at + 8 ≤ length into.old }
    ensures before { (k : ℕ) → k < at → slice_index into.new k ≡ slice_index into.old k }
    ensures inside { (k : ℕ) → k < 8 → slice_index into.new (at + k) ≡ lane_of false word k }
{
    let lanes = u64x1::splat(word).to_le_bytes().cast::<u16>();
    lanes.copy_to_slice(&mut into[at..]);
}
