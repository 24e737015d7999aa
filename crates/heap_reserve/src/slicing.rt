// Cutting strings with what is kept.
ghost use Rattle.std.specs.Prelude.{◌≡◌, ◌≤◌, ◌<◌, ◌+◌, ◌-◌, ◌↔◌, ℕ, IfOk, IsTrue, List, Result, Some, length};
ghost use Rattle.heap_read.specs.declared.string.JsStr as string;
ghost use Rattle.heap_text.specs.declared.faults.TextFull as full;
ghost use Rattle.heap_rule.specs.Births.{part};
ghost use Rattle.heap_rule.specs.Maps.{Has};
ghost use Rattle.heap_rule.specs.Views.{IsSeenSettled};
ghost use Rattle.heap_table.specs.Agents.{size_of, view_of};
ghost use Rattle.heap_read.specs.Readers.{MovesView, view_in};
ghost use Rattle.heap_read.specs.Reads.{Continues};
ghost use Rattle.heap_text.specs.Joins.{MIN_CONS};
ghost use Rattle.heap_text.specs.Keeping.{KeepsText};
ghost use Rattle.heap_reserve.specs.Making.{IsCutBy, IsFlatAnswer};
ghost use Rattle.heap_reserve.specs.Trying.{MakesPart, TriesCut};
ghost use Rattle.heap_reserve.specs.Reserves.{IsReserve};

use crate::reserve::Reserve;
use heap_read::{HeapRef, JsStr, Reader, UnitSource};
use heap_text::{MIN_CONS, Text, TextFull, link_part_to, part_piece};

impl Reserve {
    /// The part of a settled string from unit `from` up to unit `to`, as `Text::slice` cuts it. A copy takes an
    /// id and content words from the reserve, where it has these, and claims what it has not. A slice takes an
    /// id that is greater than that of the string, if the first one is.
    pub fn slice<H: HeapRef>(
        &mut self,
        text: &mut Text<H>,
        s: JsStr,
        from: u32,
        to: u32,
    ) -> Result<JsStr, TextFull>
        requires reserve { IsReserve (view_of text.old.reader.agent) self.old }
        requires settled { IsSeenSettled (view_of text.old.reader.agent) s.id }
        requires within { (us : List ℕ) × Has (view_of text.old.reader.agent).units s.id us × (from ≤ to)
            × (to ≤ length us) }
        ensures kept { KeepsText text.old text.new }
        ensures continues { Continues (view_of text.old.reader.agent) (view_of text.new.reader.agent) }
        ensures reserve { IsReserve (view_of text.new.reader.agent) self.new }
        ensures units { IfOk result
            (λ t. (us : List ℕ) → Has (view_of text.old.reader.agent).units s.id us
            → Has (view_of text.new.reader.agent).units t.id (part from (to - from) us)) }
        ensures settled { IfOk result (λ t. IsSeenSettled (view_of text.new.reader.agent) t.id) }
        ensures cut { (us : List ℕ) → Has (view_of text.old.reader.agent).units s.id us
            → IsCutBy (view_of text.old.reader.agent) (view_of text.new.reader.agent)
            (size_of (H.reached text.old.reader.heap)) self.old self.new s from to us result }
    {
        match self.try_slice(text, s, from, to) {
            Some(made) => made,
            None => text.slice(s, from, to),
        }
    }

    // A new string of a part, where the reserve has something for it.
    fn try_slice<H: HeapRef>(
        &mut self,
        text: &mut Text<H>,
        s: JsStr,
        from: u32,
        to: u32,
    ) -> Option<Result<JsStr, TextFull>>
        requires reserve { IsReserve (view_of text.old.reader.agent) self.old }
        requires settled { IsSeenSettled (view_of text.old.reader.agent) s.id }
        requires within { (us : List ℕ) × Has (view_of text.old.reader.agent).units s.id us × (from ≤ to)
            × (to ≤ length us) }
        ensures kept { KeepsText text.old text.new }
        ensures continues { Continues (view_of text.old.reader.agent) (view_of text.new.reader.agent) }
        ensures reserve { IsReserve (view_of text.new.reader.agent) self.new }
        ensures tried { (us : List ℕ) → Has (view_of text.old.reader.agent).units s.id us
            → TriesCut (view_of text.old.reader.agent) (view_of text.new.reader.agent) self.old self.new
            (size_of (H.reached text.old.reader.heap)) s from to us result }
    {
        if !self.has_some() {
            return None;
        }
        let n = text.reader.len(s);
        if is_whole(from, to, n) {
            return None;
        }
        self.cut(&mut text.reader, s, from, to - from)
    }

    // A part that is not the whole, where the reserve has something for it.
    fn cut<H: HeapRef>(
        &mut self,
        reader: &mut Reader<H>,
        s: JsStr,
        from: u32,
        n: u32,
    ) -> Option<Result<JsStr, TextFull>>
        requires reserve { IsReserve (view_in reader.old) self.old }
        requires settled { IsSeenSettled (view_in reader.old) s.id }
        requires within { (us : List ℕ) × Has (view_in reader.old).units s.id us
            × (from + n ≤ length us) }
        ensures continues { MovesView Continues reader.old reader.new }
        ensures reserve { IsReserve (view_in reader.new) self.new }
        ensures short { n < MIN_CONS → (us : List ℕ) → Has (view_in reader.old).units s.id us
            → (t : Result string.JsStr full.TextFull) × (result ≡ Some t)
            × IsFlatAnswer (view_in reader.old) (view_in reader.new) self.old self.new
            (size_of (H.reached reader.old.heap)) (part from n us) t }
        ensures long { MIN_CONS ≤ n → (us : List ℕ) → Has (view_in reader.old).units s.id us
            → MakesPart (view_in reader.old) (view_in reader.new) self.old self.new s from (part from n us)
            result }
    {
        if n < MIN_CONS {
            return Some(self.copy_part(reader, s, from, n));
        }
        self.link_part(reader, s, from, n)
    }

    // A flat string with the units of a short part.
    fn copy_part<H: HeapRef>(
        &mut self,
        reader: &mut Reader<H>,
        s: JsStr,
        from: u32,
        n: u32,
    ) -> Result<JsStr, TextFull>
        requires reserve { IsReserve (view_in reader.old) self.old }
        requires settled { IsSeenSettled (view_in reader.old) s.id }
        requires within { (us : List ℕ) × Has (view_in reader.old).units s.id us
            × (from + n ≤ length us) }
        ensures continues { MovesView Continues reader.old reader.new }
        ensures reserve { IsReserve (view_in reader.new) self.new }
        ensures made { (us : List ℕ) → Has (view_in reader.old).units s.id us
            → IsFlatAnswer (view_in reader.old) (view_in reader.new) self.old self.new
            (size_of (H.reached reader.old.heap)) (part from n us) result }
    {
        let piece = part_piece(reader, s, from, n);
        self.copy(reader, &UnitSource::Piece(piece), n)
    }

    // A Sliced of a part, where the first id serves it.
    fn link_part<H: HeapRef>(
        &mut self,
        reader: &mut Reader<H>,
        s: JsStr,
        from: u32,
        n: u32,
    ) -> Option<Result<JsStr, TextFull>>
        requires reserve { IsReserve (view_in reader.old) self.old }
        requires settled { IsSeenSettled (view_in reader.old) s.id }
        requires within { (us : List ℕ) × Has (view_in reader.old).units s.id us
            × (from + n ≤ length us) }
        requires long { MIN_CONS ≤ n }
        ensures continues { MovesView Continues reader.old reader.new }
        ensures reserve { IsReserve (view_in reader.new) self.new }
        ensures made { (us : List ℕ) → Has (view_in reader.old).units s.id us
            → MakesPart (view_in reader.old) (view_in reader.new) self.old self.new s from (part from n us)
            result }
    {
        if !self.is_above(s.id) {
            return None;
        }
        let id = self.take_id();
        link_part_to(reader, s, from, n, id);
        Some(Ok(JsStr { id }))
    }
}

// Whether a part is all of `n` units.
fn is_whole(from: u32, to: u32, n: u32) -> bool
    ensures { IsTrue result ↔ ((from ≡ 0) × (to ≡ n)) }
{
    from == 0 && to == n
}
