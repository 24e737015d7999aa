// A player of lines on a `Text`: it knows the strings that it made by their order.
ghost use Rattle.std.specs.Prelude.{◌≡◌, ℕ, ◌⊎◌, ◌≤◌, Contains, IfSome};
ghost use Rattle.heap_rule.specs.Maps.{HasKey};
ghost use Rattle.heap_rule.specs.Agents.{MayJoin, left_after_split, right_after_split};
ghost use Rattle.heap_table.specs.Agents.{Belongs};
ghost use Rattle.heap_read.specs.Readers.{MovesView, view_in};
ghost use Rattle.test_strings.specs.Turns.{HasGoneOn, IsPlayed, Turns};

use crate::by_hand::wide;
use crate::lines::{Told, Words, behind, fault, step_of, units_of, wrong, yes_if};
use crate::text_calls::{cut, ends, first_word, flat, interned, joined, of_table, reads};
use heap_intern::count_interned;
use heap_read::Reader;
use heap_rule::MAX;
use heap_table::Heap;
use heap_text::{JsStr, Text};
use js_header::{Form, encode};
use std::alloc::Global;
use std::marker::Brand;
use std::sync::ledger::Blank;
use std::thread::{Threads, join_mut};

/// A `Text` on a heap of so many agents, and the numbers of the strings that were made there.
#[derive(Drop)]
pub(crate) struct OnText<'h> {
    pub(crate) alloc: Global,
    pub(crate) text: Text<&'h Heap>,
    pub(crate) agents: u32,
    pub(crate) made: Vec<u32>,
    ghost played: { IsPlayed (view_in text.reader) agents made.items },
}

/// One string more.
pub(crate) fn put(made: &mut Vec<u32>, s: JsStr) -> Option<Told>
    ensures some { (i : ℕ) → Contains made.new.items i → Contains made.old.items i ⊎ (i ≡ s.id) }
{
    match made.push(s.id) {
        Ok(()) => Some(Told::Made(s.id)),
        Err(_) => None,
    }
}

impl<'h> OnText<'h> {
    /// Strings of these numbers were made.
    pub(crate) fn of_strings(
        alloc: Global,
        text: Text<&'h Heap>,
        agents: u32,
        made: Vec<u32>,
    ) -> OnText<'h>
        requires { IsPlayed (view_in text.reader) agents made.items }
    {
        OnText {
            alloc,
            text,
            agents,
            made,
        }
    }

    /// No string was made yet.
    pub(crate) fn new(alloc: Global, text: Text<&'h Heap>, agents: u32) -> OnText<'h>
        requires { (view_in text.reader).agents ≡ agents }
        ensures { result.text ≡ text.entry }
    {
        OnText {
            alloc,
            text,
            agents,
            made: Vec::new(alloc),
        }
    }

    // The string with this place in the order.
    fn at(&self, k: usize) -> Option<JsStr>
        ensures { IfSome result (λ s. HasKey (view_in self.now.text.reader).units s.id) }
    {
        if k >= self.made.len() {
            return None;
        }
        Some(JsStr { id: self.made[k] })
    }

    // The place of the last string.
    fn last(&self) -> usize {
        self.made.len().wrapping_sub(1)
    }

    fn units(&mut self, text: &str) -> Option<Told>
        ensures goes { MovesView Turns self.old.text.reader self.new.text.reader }
    {
        let units = units_of(self.alloc, text)?;
        if units.len() > 65536 {
            return None;
        }
        match flat(&mut self.text, units.as_slice()) {
            Ok(s) => put(&mut self.made, s),
            Err(full) => Some(Told::Refused(full)),
        }
    }

    fn concat(&mut self, a: usize, b: usize) -> Option<Told>
        ensures goes { MovesView Turns self.old.text.reader self.new.text.reader }
    {
        let a = self.at(a)?;
        let b = self.at(b)?;
        match joined(&mut self.text, a, b) {
            Ok(s) => put(&mut self.made, s),
            Err(fault) => Some(Told::NotJoined(fault)),
        }
    }

    fn settle(&mut self, k: usize) -> Option<Told>
        ensures goes { MovesView Turns self.old.text.reader self.new.text.reader }
    {
        let s = self.at(k)?;
        match self.text.settle(s) {
            Ok(()) => Some(Told::Done),
            Err(full) => Some(Told::Refused(full)),
        }
    }

    fn slice(&mut self, k: usize, from: u32, to: u32) -> Option<Told>
        ensures goes { MovesView Turns self.old.text.reader self.new.text.reader }
    {
        let s = self.at(k)?;
        match cut(&mut self.text, s, from, to) {
            Some(answer) => match answer {
                Ok(t) => put(&mut self.made, t),
                Err(full) => Some(Told::Refused(full)),
            },
            None => None,
        }
    }

    fn intern(&mut self, k: usize) -> Option<Told>
        ensures goes { MovesView Turns self.old.text.reader self.new.text.reader }
    {
        let s = self.at(k)?;
        match interned(&mut self.text, s) {
            Some(answer) => match answer {
                Ok(id) => put(&mut self.made, JsStr { id }),
                Err(full) => Some(Told::NotInterned(full)),
            },
            None => None,
        }
    }

    fn of_table(&mut self, text: &str, make: bool) -> Option<Told>
        ensures goes { MovesView Turns self.old.text.reader self.new.text.reader }
    {
        let units = units_of(self.alloc, text)?;
        if units.len() > 65536 {
            return None;
        }
        match of_table(&mut self.text, units.as_slice(), make) {
            Some(answer) => match answer {
                Ok(id) => put(&mut self.made, JsStr { id }),
                Err(full) => Some(Told::NotInterned(full)),
            },
            None => Some(Told::Maybe(None)),
        }
    }

    fn reads(&mut self, k: usize, text: &str) -> Option<Told>
        ensures goes { MovesView Turns self.old.text.reader self.new.text.reader }
    {
        let s = self.at(k)?;
        let want = units_of(self.alloc, text)?;
        Some(yes_if(reads(&mut self.text, s, want.as_slice())))
    }

    fn len(&mut self, k: usize) -> Option<Told>
        ensures goes { MovesView Turns self.old.text.reader self.new.text.reader }
    {
        let s = self.at(k)?;
        Some(Told::Number(u64::from(self.text.len(s))))
    }

    fn ends(&mut self, k: usize) -> Option<Told>
        ensures goes { MovesView Turns self.old.text.reader self.new.text.reader }
    {
        let s = self.at(k)?;
        match ends::<Brand>(&mut self.text, s, Blank::new(1)) {
            Some((len, first, last)) => Some(Told::Ends(len, first, last)),
            None => None,
        }
    }

    // The header of a string as it is at this moment, or its form word.
    fn header(&mut self, k: usize, as_word: bool) -> Option<Told>
        ensures goes { MovesView Turns self.old.text.reader self.new.text.reader }
    {
        let s = self.at(k)?;
        let text = &mut self.text;
        let form = text.reader.form_now(s.id);
        if as_word {
            return Some(Told::Number(encode(form)));
        }
        Some(Told::Header(form))
    }

    // Whether a string forwards to another.
    fn forwards(&mut self, k: usize, to: usize) -> Option<Told>
        ensures goes { MovesView Turns self.old.text.reader self.new.text.reader }
    {
        let s = self.at(k)?;
        let target = self.at(to)?.id;
        let text = &mut self.text;
        let is = text.reader.form_now(s.id) == (Form::Thin { target });
        Some(yes_if(is))
    }

    fn word(&mut self, k: usize) -> Option<Told>
        ensures goes { MovesView Turns self.old.text.reader self.new.text.reader }
    {
        let s = self.at(k)?;
        let text = &mut self.text;
        Some(Told::Maybe(first_word(&mut text.reader, s)))
    }

    fn slot(&mut self, k: u32) -> Option<Told>
        ensures goes { MovesView Turns self.old.text.reader self.new.text.reader }
    {
        let text = &mut self.text;
        if k >= text.reader.heap.size().slots {
            return None;
        }
        let reader = &mut text.reader;
        match reader.agent.load_slot(reader.heap, k, false) {
            Some(id) => Some(Told::Maybe(Some(u64::from(id)))),
            None => Some(Told::Maybe(None)),
        }
    }

    // How many strings are interned.
    fn count(&mut self) -> Option<Told>
        ensures goes { MovesView Turns self.old.text.reader self.new.text.reader }
    {
        let text = &mut self.text;
        if text.reader.agent.share() != self.agents {
            return None;
        }
        Some(Told::Number(u64::from(count_interned(&mut text.reader))))
    }

    // Both counters.
    fn totals(&mut self) -> Option<Told>
        ensures goes { MovesView Turns self.old.text.reader self.new.text.reader }
    {
        let text = &mut self.text;
        if text.reader.agent.share() != self.agents {
            return None;
        }
        let reader = &mut text.reader;
        let (ids, words) = reader.agent.totals(reader.heap);
        Some(Told::Both(ids, words))
    }

    // No longer string is made from now on.
    fn limit(&mut self, limit: u32) -> Option<Told>
        ensures goes { MovesView Turns self.old.text.reader self.new.text.reader }
    {
        if limit > MAX {
            return None;
        }
        let text = &mut self.text;
        text.limit = limit;
        Some(Told::Done)
    }

    // The last string joined with itself, so often.
    fn doubled(&mut self, times: u32) -> Option<Told>
        ensures goes { MovesView Turns self.old.text.reader self.new.text.reader }
    {
        for _turn in 0..times {
            let last = self.last();
            self.concat(last, last)?;
        }
        Some(Told::Done)
    }

    // One string in front of the last one or behind it, so often.
    fn grown(&mut self, unit: usize, front: bool, times: u32) -> Option<Told>
        ensures goes { MovesView Turns self.old.text.reader self.new.text.reader }
    {
        for _turn in 0..times {
            let last = self.last();
            let (left, right) = if front { (unit, last) } else { (last, unit) };
            self.concat(left, right)?;
        }
        Some(Told::Done)
    }

    // The place of a string with another behind it where the bit is set.
    fn with_bit(&mut self, all: usize, twice: usize, bit: bool) -> Option<usize>
        ensures goes { MovesView Turns self.old.text.reader self.new.text.reader }
    {
        if !bit {
            return Some(all);
        }
        self.concat(all, twice)?;
        Some(self.last())
    }

    // A rope of so many units, at most 2^28 - 1, of a string of one unit and the empty one: for each bit
    // of their number that is set, as many as it denotes. The last string but one is the rope.
    fn rope(&mut self, unit: usize, empty: usize, n: u32) -> Option<Told>
        ensures goes { MovesView Turns self.old.text.reader self.new.text.reader }
    {
        let mut all = empty;
        let mut twice = unit;
        for k in 0..28u32 {
            if n >> k == 0 {
                return Some(Told::Done);
            }
            all = self.with_bit(all, twice, (n >> k) % 2 == 1)?;
            self.concat(twice, twice)?;
            twice = self.last();
        }
        Some(Told::Done)
    }

    // A string of four units in two-byte lanes, those of a word.
    fn wide(&mut self, word: &str) -> Option<Told>
        ensures goes { MovesView Turns self.old.text.reader self.new.text.reader }
    {
        let word = word.parse::<u64>().ok()?;
        let text = &mut self.text;
        match wide(&mut text.reader, word) {
            Some(id) => put(&mut self.made, JsStr { id }),
            None => None,
        }
    }

    // Whether two places have one string.
    fn same(&self, a: usize, b: usize) -> Option<Told> {
        Some(yes_if(self.at(a)? == self.at(b)?))
    }

    // What a step says that makes strings or settles one; None where it can't be played.
    fn told(&mut self, name: &str, words: Words) -> Option<Told>
        ensures goes { MovesView Turns self.old.text.reader self.new.text.reader }
    {
        let (a, b) = (words.a as usize, words.b as usize);
        match name {
            "units" => self.units(words.text),
            "concat" => self.concat(a, b),
            "settle" => self.settle(a),
            "slice" => self.slice(a, words.b, words.c),
            "intern" => self.intern(a),
            "intern-units" => self.of_table(words.text, true),
            "find-units" => self.of_table(words.text, false),
            "reads" => self.reads(a, behind(words.text)),
            "wide" => self.wide(words.text),
            "doubled" => self.doubled(words.a),
            "before" => self.grown(a, true, words.b),
            "behind" => self.grown(a, false, words.b),
            "rope" => self.rope(a, b, words.c),
            _ => self.found(name, words),
        }
    }

    // The same of a step that loads.
    fn found(&mut self, name: &str, words: Words) -> Option<Told>
        ensures goes { MovesView Turns self.old.text.reader self.new.text.reader }
    {
        let (a, b) = (words.a as usize, words.b as usize);
        match name {
            "len" => self.len(a),
            "ends" => self.ends(a),
            "header" => self.header(a, false),
            "form" => self.header(a, true),
            "forwards" => self.forwards(a, b),
            "same" => self.same(a, b),
            "word" => self.word(a),
            "slot" => self.slot(words.a),
            "count" => self.count(),
            "totals" => self.totals(),
            "limit" => self.limit(words.a),
            _ => None,
        }
    }

    // What a line reports, where that is not what it expects.
    fn wrong_line(&mut self, line: &str) -> Option<String>
        ensures goes { MovesView Turns self.old.text.reader self.new.text.reader }
    {
        let Some((step, want)) = line.split_once(" -> ") else {
            return fault(self.alloc, line);
        };
        let (name, words) = step_of(step);
        match self.told(name, words) {
            Some(told) => wrong(self.alloc, line, want, &told),
            None => fault(self.alloc, line),
        }
    }

    /// The first line that does not report what it expects.
    pub(crate) fn wrong(&mut self, lines: &str) -> Option<String>
        ensures goes { MovesView Turns self.old.text.reader self.new.text.reader }
    {
        for line in lines.lines() {
            if let Some(found) = self.wrong_line(line) {
                return Some(found);
            }
        }
        None
    }

    // The agent of another thread, which knows the same strings.
    fn split(&mut self) -> OnText<'h>
        requires { 2 ≤ (view_in self.old.text.reader).share }
        ensures heap { self.new.text.reader.heap ≡ self.old.text.reader.heap }
        ensures other_heap { result.text.reader.heap.now ≡ self.old.text.reader.heap.now }
        ensures left { view_in self.new.text.reader ≡ left_after_split (view_in self.old.text.reader) 1 }
        ensures right { view_in result.text.reader ≡ right_after_split (view_in self.old.text.reader) 1 }
    {
        let mut made = Vec::new(self.alloc);
        take_over(&mut made, self.made.as_slice(), 0);
        let text = &mut self.text;
        let reader = &mut text.reader;
        let heap = reader.heap;
        let agent = reader.agent.split(heap, 1);
        OnText {
            alloc: self.alloc,
            text: Text::new(heap, agent, text.limit),
            agents: self.agents,
            made,
        }
    }

    // Takes over what another agent of the heap knows, and the strings that it made after so many.
    fn join(&mut self, other: OnText<'h>, count: usize)
        requires belongs { Belongs other.text.reader.agent self.old.text.reader.heap.now }
        requires may { MayJoin (view_in self.old.text.reader) (view_in other.text.reader) }
    {
        let OnText { text, made, .. } = other;
        let Text { reader, .. } = text;
        let Reader { agent, .. } = reader;
        let text = &mut self.text;
        let reader = &mut text.reader;
        reader.agent.join(reader.heap, agent);
        take_over(&mut self.made, made.as_slice(), count);
    }

    /// The same of two agents that play lines at once, each in a thread. Afterwards they are one again,
    /// which knows what both made.
    pub(crate) fn wrong_at_once(
        &mut self,
        rt: &impl Threads,
        first: &str,
        second: &str,
    ) -> Option<String> {
        let text = &mut self.text;
        if text.reader.agent.share() < 2 {
            return fault(self.alloc, first);
        }
        let count = self.made.len();
        let mut other = self.split();
        let (left, right) = both_at_once(rt, self, &mut other, first, second);
        self.join(other, count);
        match left {
            Some(line) => Some(line),
            None => right,
        }
    }
}

/// Some strings more, those of a list behind so many.
pub(crate) fn take_over(made: &mut Vec<u32>, more: &[u32], count: usize)
    ensures { (i : ℕ) → Contains made.new.items i → Contains made.old.items i ⊎ Contains more.now i }
{
    if count > more.len() {
        return;
    }
    let Ok(()) = made.extend_from_slice(&more[count..]) else {
        return;
    };
}

// What a thread does.
fn turn(player: &mut OnText, lines: &str) -> Option<String>
    ensures goes { HasGoneOn player.old.text.reader player.new.text.reader }
{
    player.wrong(lines)
}

fn both_at_once(
    rt: &impl Threads,
    left: &mut OnText,
    right: &mut OnText,
    first: &str,
    second: &str,
) -> (Option<String>, Option<String>)
    ensures left { HasGoneOn left.old.text.reader left.new.text.reader }
    ensures right { HasGoneOn right.old.text.reader right.new.text.reader }
{
    join_mut(
        rt,
        &mut || turn(left, first),
        &mut || { turn(right, second) },
    )
}
