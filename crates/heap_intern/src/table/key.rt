// Units that are in no string.
ghost use Rattle.std.specs.Prelude.{◌≡◌, ℕ, List, ◌+◌, ◌<◌, length};
ghost use Rattle.js_units.specs.Lanes.{hash_of, is_wide, words_over};
ghost use Rattle.heap_rule.specs.declared.view.View.{View};
ghost use Rattle.heap_rule.specs.Maps.{Has};
ghost use Rattle.heap_read.specs.Reads.{KeepsBeside, KeepsForms, WritesOwnWords};
ghost use Rattle.heap_read.specs.Readers.{MovesView, view_in};
ghost use Rattle.heap_read.specs.Written.{AreWords};
ghost use Rattle.heap_intern.specs.Answers.{copy_plan};
ghost use Rattle.heap_intern.specs.Keys.{IsKey, units_of_key};
ghost use Rattle.heap_intern.specs.Wanted.{IsWanted, wanted_plan};

use crate::table::wanted::Wanted;
use heap_bytes::{Spelling, spell_at};
use heap_read::{HeapRef, Reader, UnitSource};
use js_units::{has_wide, hash_units};

/// Units that are in no string: those of a list, or those that bytes spell.
#[derive(Clone, Copy)]
pub enum Key<'u> {
    Units(&'u [u16]),
    Spelled(Spelling<'u>),
}

impl Key<'_> {
    /// How many units it has.
    pub fn len(&self) -> u32
        requires { IsKey self.now }
        ensures { result ≡ length (units_of_key self.now) }
    {
        match self {
            Key::Units(units) => units.len() as u32,
            Key::Spelled(source) => source.len(),
        }
    }

    /// Whether a unit is over 255.
    pub fn is_wide(&self) -> bool
        requires { IsKey self.now }
        ensures { result ≡ is_wide (units_of_key self.now) }
    {
        match self {
            Key::Units(units) => has_wide(units),
            Key::Spelled(source) => source.is_wide(),
        }
    }

    // What the units hash to.
    pub(crate) fn hash(&self) -> u32
        requires { IsKey self.now }
        ensures { result ≡ hash_of (units_of_key self.now) }
    {
        match self {
            Key::Units(units) => hash_units(0, units),
            Key::Spelled(source) => source.hash(),
        }
    }

    // What is looked for.
    pub(crate) fn wanted(&self) -> Wanted<'_>
        requires { IsKey self.now }
        ensures wanted { (v : View) → IsWanted v result (units_of_key self.now) }
        ensures plan { (us : List ℕ) → wanted_plan result us ≡ copy_plan us }
    {
        match self {
            Key::Units(units) => Wanted::Units(units),
            Key::Spelled(source) => Wanted::Spelled(*source),
        }
    }
}

// Writes the `n` units to own content words from `start` on.
pub(crate) fn write_key<H: HeapRef>(
    reader: &mut Reader<H>,
    key: &Key,
    n: u32,
    wide: bool,
    start: u32,
)
    requires key { IsKey key.now }
    requires count { length (units_of_key key.now) ≡ n }
    requires wide { wide ≡ is_wide (units_of_key key.now) }
    requires own { (q : ℕ) → q < words_over wide n → Has (view_in reader.old).own_words (start + q) 0 }
    ensures writes { MovesView WritesOwnWords reader.old reader.new }
    ensures forms { KeepsForms (view_in reader.old) (view_in reader.new) }
    ensures written { AreWords (view_in reader.new) wide start (units_of_key key.now) (words_over wide n) }
    ensures others { KeepsBeside start (words_over wide n) (view_in reader.old) (view_in reader.new) }
{
    match key {
        Key::Units(units) => reader.write_at(&UnitSource::Units(units), n, wide, start),
        Key::Spelled(source) => spell_at(reader, source, n, wide, start),
    }
}
