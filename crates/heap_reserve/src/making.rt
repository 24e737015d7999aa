// Making a flat string with what is kept.
ghost use Rattle.std.specs.Prelude.{◌≡◌, ◌≤◌, ℕ, false, IfOk, length};
ghost use Rattle.js_header.specs.declared.form.Form.TheVariants.{Flat};
ghost use Rattle.js_units.specs.Lanes.{is_wide};
ghost use Rattle.heap_rule.specs.Layout.{MAX};
ghost use Rattle.heap_rule.specs.Maps.{Has};
ghost use Rattle.heap_table.specs.Agents.{size_of, view_of};
ghost use Rattle.heap_read.specs.Readers.{MovesView, view_in};
ghost use Rattle.heap_read.specs.Reads.{Continues};
ghost use Rattle.heap_read.specs.Sources.{ShowsSource, listed_in};
ghost use Rattle.heap_bytes.specs.Spellings.{IsReadable, spelling_units};
ghost use Rattle.heap_text.specs.Keeping.{KeepsText};
ghost use Rattle.heap_reserve.specs.Making.{IsFlatAnswer, IsMade};
ghost use Rattle.heap_reserve.specs.Reserves.{IsReserve};

use crate::reserve::Reserve;
use heap_bytes::{Spelling, spell_at};
use heap_read::{HeapRef, JsStr, Reader, UnitSource};
use heap_text::{Text, TextFull, bear_flat};
use js_units::words_for;

impl Reserve {
    /// A new string with these units, as `Text::make_flat` makes one. It takes an id from the reserve, and the
    /// content words that hold the units, where the reserve has these, and claims what it has not.
    pub fn make_flat<H: HeapRef>(
        &mut self,
        text: &mut Text<H>,
        units: &[u16],
    ) -> Result<JsStr, TextFull>
        requires reserve { IsReserve (view_of text.old.reader.agent) self.old }
        requires short { length units.now ≤ MAX }
        ensures kept { KeepsText text.old text.new }
        ensures continues { Continues (view_of text.old.reader.agent) (view_of text.new.reader.agent) }
        ensures reserve { IsReserve (view_of text.new.reader.agent) self.new }
        ensures units { IfOk result (λ s. Has (view_of text.new.reader.agent).units s.id units.now) }
        ensures form { IfOk result
            (λ s. (start : ℕ)
            × Has (view_of text.new.reader.agent).forms s.id (Flat (is_wide units.now) start false)) }
        ensures made { IsMade (view_of text.old.reader.agent) (view_of text.new.reader.agent) self.old
            self.new (size_of (H.reached text.old.reader.heap)) units.now result }
    {
        if !self.has_some() {
            return text.make_flat(units);
        }
        let source = UnitSource::Units(units);
        self.copy(&mut text.reader, &source, units.len() as u32)
    }

    /// A new string with the units that bytes spell, in the same way; as `Text::make_from` makes one.
    pub fn make_from<H: HeapRef>(
        &mut self,
        text: &mut Text<H>,
        source: &Spelling,
    ) -> Result<JsStr, TextFull>
        requires reserve { IsReserve (view_of text.old.reader.agent) self.old }
        requires read { IsReadable source.now }
        requires short { length (spelling_units source.now) ≤ MAX }
        ensures kept { KeepsText text.old text.new }
        ensures continues { Continues (view_of text.old.reader.agent) (view_of text.new.reader.agent) }
        ensures reserve { IsReserve (view_of text.new.reader.agent) self.new }
        ensures units { IfOk result
            (λ s. Has (view_of text.new.reader.agent).units s.id (spelling_units source.now)) }
        ensures form { IfOk result
            (λ s. (start : ℕ) × Has (view_of text.new.reader.agent).forms s.id
            (Flat (is_wide (spelling_units source.now)) start false)) }
        ensures made { IsMade (view_of text.old.reader.agent) (view_of text.new.reader.agent) self.old
            self.new (size_of (H.reached text.old.reader.heap)) (spelling_units source.now) result }
    {
        if !self.has_some() {
            return text.make_from(source);
        }
        self.spell(&mut text.reader, source)
    }

    // A flat string with the units that bytes spell, of what the reserve has, and claims for the rest.
    fn spell<H: HeapRef>(
        &mut self,
        reader: &mut Reader<H>,
        source: &Spelling,
    ) -> Result<JsStr, TextFull>
        requires reserve { IsReserve (view_in reader.old) self.old }
        requires read { IsReadable source.now }
        requires short { length (spelling_units source.now) ≤ MAX }
        ensures continues { MovesView Continues reader.old reader.new }
        ensures reserve { IsReserve (view_in reader.new) self.new }
        ensures made { IsFlatAnswer (view_in reader.old) (view_in reader.new) self.old self.new
            (size_of (H.reached reader.old.heap)) (spelling_units source.now) result }
    {
        let n = source.len();
        let wide = source.is_wide();
        let given = self.gather(reader, words_for(n, wide))?;
        spell_at(reader, source, n, wide, given.start);
        bear_flat(reader, given.id, n, wide, given.start);
        Ok(JsStr { id: given.id })
    }

    // A flat string with the `n` units of a source, made in the same way.
    pub(crate) fn copy<H: HeapRef>(
        &mut self,
        reader: &mut Reader<H>,
        source: &UnitSource,
        n: u32,
    ) -> Result<JsStr, TextFull>
        requires reserve { IsReserve (view_in reader.old) self.old }
        requires shows { ShowsSource (view_in reader.old) source.now }
        requires count { length (listed_in reader.old source.now) ≡ n }
        requires short { n ≤ MAX }
        ensures continues { MovesView Continues reader.old reader.new }
        ensures reserve { IsReserve (view_in reader.new) self.new }
        ensures made { IsFlatAnswer (view_in reader.old) (view_in reader.new) self.old self.new
            (size_of (H.reached reader.old.heap)) (listed_in reader.old source.now) result }
    {
        let wide = reader.has_wide(source, n);
        let given = self.gather(reader, words_for(n, wide))?;
        reader.write_at(source, n, wide, given.start);
        bear_flat(reader, given.id, n, wide, given.start);
        Ok(JsStr { id: given.id })
    }
}
