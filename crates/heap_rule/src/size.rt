// The sizes of a heap, its two counters, and where its words lie.
ghost use Rattle.std.specs.Prelude.{◌≡◌, ◌<◌, ◌↔◌, IsTrue};
ghost use Rattle.heap_rule.specs.Layout.{IsLawfulSize, counter_value, with_count, counter_at, end_of, word_count, form_at, length_at, slot_at, content_at};

use js_header::FIELD_END;

/// The greatest length of a string, 2^29 - 24 (V8's `String::kMaxLength` on 64-bit machines).
pub const MAX: u32 = 536870888;

/// How many ids, content words and slots of the string table a heap has.
#[derive(Clone, Copy, Debug, PartialEq, Eq)]
pub struct HeapSize {
    pub ids: u32,
    pub words: u32,
    pub slots: u32,
}

/// What is claimed one after the other: ids of strings, or content words.
#[derive(Clone, Copy, Debug, PartialEq, Eq)]
pub enum Counter {
    Ids,
    Words,
}

/// One number for each counter.
#[derive(Clone, Copy, Debug, PartialEq, Eq)]
pub struct Counters {
    pub ids: u32,
    pub words: u32,
}

impl HeapSize {
    /// Whether a heap may have these sizes: each in 1 to 2^29 - 1, and together at most 2^29.
    pub fn is_lawful(&self) -> bool
        ensures { IsTrue result ↔ IsLawfulSize self.now }
    {
        let ids = self.ids;
        let words = self.words;
        let slots = self.slots;
        (1 <= ids && ids < FIELD_END)
            && (1 <= words && words < FIELD_END)
            && (1 <= slots && slots < FIELD_END)
            && u64::from(ids) + u64::from(words) + u64::from(slots) <= u64::from(FIELD_END)
    }

    /// Where a counter ends.
    pub fn end(&self, counter: Counter) -> u32
        ensures { result ≡ end_of self.now counter }
    {
        match counter {
            Counter::Ids => self.ids,
            Counter::Words => self.words,
        }
    }

    /// How many words a heap of these sizes has.
    pub fn word_count(&self) -> usize
        requires { IsLawfulSize self.now }
        ensures { result ≡ word_count self.now }
    {
        2 + self.slots as usize + 2 * self.ids as usize + self.words as usize
    }

    /// The place of a slot of the string table.
    pub fn slot_place(&self, slot: u32) -> usize
        requires { IsLawfulSize self.now × (slot < self.now.slots) }
        ensures { result ≡ slot_at self.now slot }
    {
        2 + slot as usize
    }

    /// The place of an id's form word.
    pub fn form_place(&self, id: u32) -> usize
        requires { IsLawfulSize self.now × (id < self.now.ids) }
        ensures { result ≡ form_at self.now id }
    {
        2 + self.slots as usize + 2 * id as usize
    }

    /// The place of an id's length.
    pub fn length_place(&self, id: u32) -> usize
        requires { IsLawfulSize self.now × (id < self.now.ids) }
        ensures { result ≡ length_at self.now id }
    {
        3 + self.slots as usize + 2 * id as usize
    }

    /// The place of a content word.
    pub fn content_place(&self, at: u32) -> usize
        requires { IsLawfulSize self.now × (at < self.now.words) }
        ensures { result ≡ content_at self.now at }
    {
        2 + self.slots as usize + 2 * self.ids as usize + at as usize
    }
}

impl Counter {
    /// The place of its word.
    pub fn place(self) -> usize
        ensures { result ≡ counter_at self }
    {
        match self {
            Counter::Ids => 0,
            Counter::Words => 1,
        }
    }
}

impl Counters {
    /// The number for this counter.
    pub fn get(&self, counter: Counter) -> u32
        ensures { result ≡ counter_value self.now counter }
    {
        match counter {
            Counter::Ids => self.ids,
            Counter::Words => self.words,
        }
    }

    /// Puts the number for this counter.
    pub fn set(&mut self, counter: Counter, value: u32)
        ensures { self.new ≡ with_count self.old counter value }
    {
        match counter {
            Counter::Ids => self.ids = value,
            Counter::Words => self.words = value,
        }
    }
}
