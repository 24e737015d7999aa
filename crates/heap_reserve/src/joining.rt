// Joining two strings with what is kept.
ghost use Rattle.std.specs.Prelude.{◌≡◌, ◌≤◌, ◌<◌, ◌+◌, ◌++◌, ◌↔◌, ℕ, IfOk, IsTrue, List, Result, Some};
ghost use Rattle.heap_read.specs.declared.string.JsStr as string;
ghost use Rattle.heap_text.specs.declared.faults.TextFull as full;
ghost use Rattle.heap_rule.specs.Layout.{MAX};
ghost use Rattle.heap_rule.specs.Maps.{Has, HasKey};
ghost use Rattle.heap_table.specs.Agents.{size_of, view_of};
ghost use Rattle.heap_read.specs.Readers.{MovesView, view_in};
ghost use Rattle.heap_read.specs.Reads.{Continues};
ghost use Rattle.heap_text.specs.Joins.{AreJoinable, MIN_CONS};
ghost use Rattle.heap_text.specs.Keeping.{KeepsText};
ghost use Rattle.heap_reserve.specs.Making.{IsFlatAnswer, IsJoinedBy};
ghost use Rattle.heap_reserve.specs.Trying.{MakesRope, TriesJoin, join_answer};
ghost use Rattle.heap_reserve.specs.Reserves.{IsReserve};

use crate::reserve::Reserve;
use heap_read::{HeapRef, JsStr, Reader, UnitSource};
use heap_text::{JoinFault, MIN_CONS, Text, TextFull, both_pieces, link_to};

impl Reserve {
    /// The units of one string followed by those of another, as `Text::concat` joins them. A copy takes an id
    /// and content words from the reserve, where it has these, and claims what it has not. A rope takes an id
    /// that is greater than those of both strings, if the first one is.
    pub fn concat<H: HeapRef>(
        &mut self,
        text: &mut Text<H>,
        a: JsStr,
        b: JsStr,
    ) -> Result<JsStr, JoinFault>
        requires reserve { IsReserve (view_of text.old.reader.agent) self.old }
        requires known { HasKey (view_of text.old.reader.agent).units a.id
            × HasKey (view_of text.old.reader.agent).units b.id }
        ensures kept { KeepsText text.old text.new }
        ensures continues { Continues (view_of text.old.reader.agent) (view_of text.new.reader.agent) }
        ensures reserve { IsReserve (view_of text.new.reader.agent) self.new }
        ensures units { IfOk result
            (λ s. (us vs : List ℕ) → Has (view_of text.old.reader.agent).units a.id us
            → Has (view_of text.old.reader.agent).units b.id vs
            → Has (view_of text.new.reader.agent).units s.id (us ++ vs)) }
        ensures joined { (us vs : List ℕ) → Has (view_of text.old.reader.agent).units a.id us
            → Has (view_of text.old.reader.agent).units b.id vs
            → IsJoinedBy (view_of text.old.reader.agent) (view_of text.new.reader.agent)
            (size_of (H.reached text.old.reader.heap)) self.old self.new text.old.limit a b us vs result }
    {
        match self.try_concat(text, a, b) {
            Some(made) => as_joined(made),
            None => text.concat(a, b),
        }
    }

    // A new string of two, where the reserve has something for it.
    fn try_concat<H: HeapRef>(
        &mut self,
        text: &mut Text<H>,
        a: JsStr,
        b: JsStr,
    ) -> Option<Result<JsStr, TextFull>>
        requires reserve { IsReserve (view_of text.old.reader.agent) self.old }
        requires known { HasKey (view_of text.old.reader.agent).units a.id
            × HasKey (view_of text.old.reader.agent).units b.id }
        ensures kept { KeepsText text.old text.new }
        ensures continues { Continues (view_of text.old.reader.agent) (view_of text.new.reader.agent) }
        ensures reserve { IsReserve (view_of text.new.reader.agent) self.new }
        ensures tried { (us vs : List ℕ) → Has (view_of text.old.reader.agent).units a.id us
            → Has (view_of text.old.reader.agent).units b.id vs
            → TriesJoin (view_of text.old.reader.agent) (view_of text.new.reader.agent) self.old self.new
            (size_of (H.reached text.old.reader.heap)) text.old.limit a b us vs result }
    {
        if !self.has_some() {
            return None;
        }
        let left = text.reader.len(a);
        let right = text.reader.len(b);
        if !is_joinable(left, right, text.limit) {
            return None;
        }
        self.join(&mut text.reader, a, b, left + right)
    }

    // Two strings that are not empty, joined, where the reserve has something for it.
    fn join<H: HeapRef>(
        &mut self,
        reader: &mut Reader<H>,
        a: JsStr,
        b: JsStr,
        n: u32,
    ) -> Option<Result<JsStr, TextFull>>
        requires reserve { IsReserve (view_in reader.old) self.old }
        requires known { AreJoinable (view_in reader.old) a b n }
        requires most { n ≤ MAX }
        ensures continues { MovesView Continues reader.old reader.new }
        ensures reserve { IsReserve (view_in reader.new) self.new }
        ensures short { n < MIN_CONS → (us vs : List ℕ) → Has (view_in reader.old).units a.id us
            → Has (view_in reader.old).units b.id vs
            → (t : Result string.JsStr full.TextFull) × (result ≡ Some t)
            × IsFlatAnswer (view_in reader.old) (view_in reader.new) self.old self.new
            (size_of (H.reached reader.old.heap)) (us ++ vs) t }
        ensures long { MIN_CONS ≤ n → (us vs : List ℕ) → Has (view_in reader.old).units a.id us
            → Has (view_in reader.old).units b.id vs
            → MakesRope (view_in reader.old) (view_in reader.new) self.old self.new a b (us ++ vs) result }
    {
        if n < MIN_CONS {
            return Some(self.copy_both(reader, a, b, n));
        }
        self.link(reader, a, b, n)
    }

    // A flat string with the units of two short ones.
    fn copy_both<H: HeapRef>(
        &mut self,
        reader: &mut Reader<H>,
        a: JsStr,
        b: JsStr,
        n: u32,
    ) -> Result<JsStr, TextFull>
        requires reserve { IsReserve (view_in reader.old) self.old }
        requires known { AreJoinable (view_in reader.old) a b n }
        requires short { n < MIN_CONS }
        ensures continues { MovesView Continues reader.old reader.new }
        ensures reserve { IsReserve (view_in reader.new) self.new }
        ensures made { (us vs : List ℕ) → Has (view_in reader.old).units a.id us
            → Has (view_in reader.old).units b.id vs
            → IsFlatAnswer (view_in reader.old) (view_in reader.new) self.old self.new
            (size_of (H.reached reader.old.heap)) (us ++ vs) result }
    {
        let (front, back) = both_pieces(reader, a, b, n);
        self.copy(reader, &UnitSource::Pieces(front, back), n)
    }

    // A Cons of two strings, where the first id serves it.
    fn link<H: HeapRef>(
        &mut self,
        reader: &mut Reader<H>,
        a: JsStr,
        b: JsStr,
        n: u32,
    ) -> Option<Result<JsStr, TextFull>>
        requires reserve { IsReserve (view_in reader.old) self.old }
        requires known { AreJoinable (view_in reader.old) a b n }
        requires long { (MIN_CONS ≤ n) × (n ≤ MAX) }
        ensures continues { MovesView Continues reader.old reader.new }
        ensures reserve { IsReserve (view_in reader.new) self.new }
        ensures made { (us vs : List ℕ) → Has (view_in reader.old).units a.id us
            → Has (view_in reader.old).units b.id vs
            → MakesRope (view_in reader.old) (view_in reader.new) self.old self.new a b (us ++ vs) result }
    {
        if !(self.is_above(a.id) && self.is_above(b.id)) {
            return None;
        }
        let id = self.take_id();
        link_to(reader, a, b, n, id);
        Some(Ok(JsStr { id }))
    }
}

// Whether strings of these lengths are joined to a new one: neither is empty, and it is not too long.
fn is_joinable(left: u32, right: u32, limit: u32) -> bool
    requires { (left ≤ MAX) × (right ≤ MAX) }
    ensures { IsTrue result ↔ ((0 < left) × (0 < right) × (left + right ≤ limit)) }
{
    0 < left && 0 < right && left + right <= limit
}

// The answer of joining, where the string was made so.
fn as_joined(made: Result<JsStr, TextFull>) -> Result<JsStr, JoinFault>
    ensures { result ≡ join_answer made }
{
    match made {
        Ok(s) => Ok(s),
        Err(full) => Err(JoinFault::Full(full)),
    }
}
