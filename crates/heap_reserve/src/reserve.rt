// What is kept in advance, and taking from it.
ghost use Rattle.std.specs.Prelude.{◌≡◌, ◌↔◌, ◌+◌, ◌<◌, ◌≤◌, [], ◌∷◌, IsTrue, length};
ghost use Rattle.heap_rule.specs.declared.view.View as view;
ghost use Rattle.heap_reserve.specs.Reserves.{HasAbove, HasEnough, HasSome, IsReserve, TakesOverReserve, kept_ids, words_kept};

use std::alloc::Global;
use std::collections::VecDeque;

/// Ids of an agent that are not born, each greater than those before it, and a run of its content
/// words, from `start` up to `end`, that no string has.
#[derive(Drop)]
pub struct Reserve {
    pub(crate) ids: VecDeque<u32>,
    pub(crate) start: u32,
    pub(crate) end: u32,
}

impl Reserve {
    /// One that has nothing.
    pub fn new(alloc: Global) -> Reserve
        ensures ids { kept_ids result ≡ [] }
        ensures words { (result.start ≡ 0) × (result.end ≡ 0) }
        ensures reserve { (v : view.View) → IsReserve v result }
    {
        Reserve {
            ids: VecDeque::new(alloc),
            start: 0,
            end: 0,
        }
    }

    /// How many ids it has.
    pub fn ids_left(&self) -> usize
        ensures { result ≡ length (kept_ids self.now) }
    {
        self.ids.len()
    }

    /// How many content words it has.
    pub fn words_left(&self) -> u32
        ensures { result ≡ words_kept self.now }
    {
        self.end.saturating_sub(self.start)
    }

    /// Takes over the ids of another one where it has none itself, and the content words of the other one
    /// where it has none itself. What it does not take is lost: it stays the agent's own, in no string.
    pub fn take_over(&mut self, other: Reserve)
        ensures takes { TakesOverReserve self.old other self.new }
        ensures reserve { (v : view.View) → IsReserve v self.old → IsReserve v other → IsReserve v self.new }
    {
        let Reserve { ids, start, end } = other;
        self.take_ids(ids);
        self.take_run(start, end);
    }

    // Ids of another one, where it has none itself.
    fn take_ids(&mut self, ids: VecDeque<u32>)
        ensures some { 0 < length (kept_ids self.old) → kept_ids self.new ≡ kept_ids self.old }
        ensures none { length (kept_ids self.old) ≡ 0 → kept_ids self.new ≡ ids.items }
        ensures words { (self.new.start ≡ self.old.start) × (self.new.end ≡ self.old.end) }
    {
        if self.ids.is_empty() {
            self.ids = ids;
        }
    }

    // The content words of another one, where it has none itself.
    fn take_run(&mut self, start: u32, end: u32)
        ensures ids { kept_ids self.new ≡ kept_ids self.old }
        ensures some { 0 < words_kept self.old → (self.new.start ≡ self.old.start)
            × (self.new.end ≡ self.old.end) }
        ensures none { words_kept self.old ≡ 0 → (self.new.start ≡ start) × (self.new.end ≡ end) }
    {
        if self.words_left() == 0 {
            self.start = start;
            self.end = end;
        }
    }

    // Whether it has an id, or a content word.
    pub(crate) fn has_some(&self) -> bool
        ensures { IsTrue result ↔ HasSome self.now }
    {
        !self.ids.is_empty() || self.words_left() > 0
    }

    // Whether it has an id, and so many content words.
    pub(crate) fn has(&self, words: u32) -> bool
        ensures { IsTrue result ↔ HasEnough self.now words }
    {
        !self.ids.is_empty() && words <= self.words_left()
    }

    // Whether it has an id, and the first one is greater than this one.
    pub(crate) fn is_above(&self, id: u32) -> bool
        ensures { IsTrue result ↔ HasAbove self.now id }
    {
        match self.ids.front() {
            Some(first) => id < *first,
            None => false,
        }
    }

    // The first id and the first of so many content words, which leave it; 0 where that is no word.
    pub(crate) fn take(&mut self, words: u32) -> (u32, u32)
        requires { HasEnough self.old words }
        ensures ids { kept_ids self.old ≡ result.0 ∷ kept_ids self.new }
        ensures words { (self.new.start ≡ self.old.start + words) × (self.new.end ≡ self.old.end) }
        ensures ordered { self.old.start ≤ self.old.end → self.new.start ≤ self.new.end }
        ensures first { 0 < words → result.1 ≡ self.old.start }
        ensures none { words ≡ 0 → result.1 ≡ 0 }
    {
        let first = if words == 0 { 0 } else { self.start };
        self.start += words;
        (self.take_id(), first)
    }

    // The first id, which leaves it.
    pub(crate) fn take_id(&mut self) -> u32
        requires { 0 < length (kept_ids self.old) }
        ensures ids { kept_ids self.old ≡ result ∷ kept_ids self.new }
        ensures words { (self.new.start ≡ self.old.start) × (self.new.end ≡ self.old.end) }
    {
        match self.ids.pop_front() {
            Some(id) => id,
            None => unreachable!(),
        }
    }
}
