// Making strings: of given units, of two strings, of a part of one.
ghost use Rattle.std.specs.Prelude.{◌≡◌, ℕ, List, ◌+◌, ◌++◌, ◌≤◌, ◌<◌, ◌-◌, ◌||◌, ◌≢◌, IfOk, IfErr, false, length};
ghost use Rattle.js_units.specs.Lanes.{is_wide, words_over};
ghost use Rattle.js_header.specs.declared.form.Form.TheVariants.{Flat, Unborn};
ghost use Rattle.heap_rule.specs.Layout.{MAX};
ghost use Rattle.heap_rule.specs.Births.{part};
ghost use Rattle.heap_rule.specs.Maps.{Has, HasKey};
ghost use Rattle.heap_rule.specs.Views.{IsSeenSettled};
ghost use Rattle.heap_table.specs.Agents.{size_of, view_of};
ghost use Rattle.heap_bytes.specs.Spellings.{IsReadable, spelling_units};
ghost use Rattle.heap_read.specs.Readers.{MovesView, view_in};
ghost use Rattle.heap_read.specs.Reads.{Continues, HoldsForms, OnlyLoads};
ghost use Rattle.heap_read.specs.Sides.{KnowsSide};
ghost use Rattle.heap_read.specs.Sources.{ShowsPiece, piece_units};
ghost use Rattle.heap_text.specs.Texts.{IsSpared, KeepsOwn, KeepsOwnBut, LacksRoom, UsesExactly};
ghost use Rattle.heap_text.specs.Joins.{AreJoinable, HasPart, HasRope, IsCopied, IsCut, IsJoined, IsLinked, IsPartCut, IsWideIn, MIN_CONS, wide_bit};
ghost use Rattle.heap_text.specs.Joins as joins;
ghost use Rattle.heap_text.specs.Keeping.{KeepsText};

use crate::copying::{copy, copy_spelled};
use crate::faults::{JoinFault, TextFull};
use crate::text::Text;
use heap_bytes::Spelling;
use heap_read::{HeapRef, JsStr, Piece, Reader, UnitSource, Window};
use js_header::Form;

/// The fewest units of a Cons, and of a Sliced.
pub const MIN_CONS: u32 = 13;

impl<H: HeapRef> Text<H> {
    /// A new string with these units: flat, and wide exactly where a unit is over 255. It uses
    /// one id, and the content words that hold the units.
    pub fn make_flat(&mut self, units: &[u16]) -> Result<JsStr, TextFull>
        requires short { length units.now ≤ MAX }
        ensures kept { KeepsText self.old self.new }
        ensures continues { Continues (view_of self.old.reader.agent) (view_of self.new.reader.agent) }
        ensures own { KeepsOwn (view_of self.old.reader.agent) (view_of self.new.reader.agent) }
        ensures units { IfOk result (λ s. Has (view_of self.new.reader.agent).units s.id units.now) }
        ensures form { IfOk result
            (λ s. (start : ℕ)
            × Has (view_of self.new.reader.agent).forms s.id (Flat (is_wide units.now) start false)) }
        ensures used { IfOk result
            (λ s. UsesExactly (view_of self.old.reader.agent) (view_of self.new.reader.agent) 1
            (words_over (is_wide units.now) (length units.now))) }
        ensures refused { IfErr result
            (λ f. LacksRoom (view_of self.new.reader.agent) (size_of (H.reached self.old.reader.heap))
            (words_over (is_wide units.now) (length units.now)) f) }
        ensures spared { IfErr result
            (λ f. IsSpared (view_of self.old.reader.agent) (view_of self.new.reader.agent)
            (words_over (is_wide units.now) (length units.now)) f) }
    {
        copy(
            &mut self.reader,
            &UnitSource::Units(units),
            units.len() as u32,
        )
    }

    /// A new string with the units that bytes spell, as [`make_flat`](Text::make_flat) makes one of units. The
    /// bytes are read piece by piece, so no memory is requested but the heap's.
    pub fn make_from(&mut self, source: &Spelling) -> Result<JsStr, TextFull>
        requires read { IsReadable source.now }
        requires short { length (spelling_units source.now) ≤ MAX }
        ensures kept { KeepsText self.old self.new }
        ensures continues { Continues (view_of self.old.reader.agent) (view_of self.new.reader.agent) }
        ensures own { KeepsOwn (view_of self.old.reader.agent) (view_of self.new.reader.agent) }
        ensures units { IfOk result
            (λ s. Has (view_of self.new.reader.agent).units s.id (spelling_units source.now)) }
        ensures form { IfOk result
            (λ s. (start : ℕ) × Has (view_of self.new.reader.agent).forms s.id
            (Flat (is_wide (spelling_units source.now)) start false)) }
        ensures used { IfOk result
            (λ s. UsesExactly (view_of self.old.reader.agent) (view_of self.new.reader.agent) 1
            (words_over (is_wide (spelling_units source.now)) (length (spelling_units source.now)))) }
        ensures refused { IfErr result
            (λ f. LacksRoom (view_of self.new.reader.agent) (size_of (H.reached self.old.reader.heap))
            (words_over (is_wide (spelling_units source.now)) (length (spelling_units source.now))) f) }
        ensures spared { IfErr result
            (λ f. IsSpared (view_of self.old.reader.agent) (view_of self.new.reader.agent)
            (words_over (is_wide (spelling_units source.now)) (length (spelling_units source.now))) f) }
    {
        copy_spelled(&mut self.reader, source)
    }

    /// The units of one string followed by those of another. It is refused as too long exactly
    /// where that is longer than the limit. Where one side is empty, the answer is the other side.
    /// Fewer than 13 units make a new flat string, wide exactly where a unit is over 255; from 13
    /// on the answer is a rope, which uses one id and no content word.
    pub fn concat(&mut self, a: JsStr, b: JsStr) -> Result<JsStr, JoinFault>
        requires known { HasKey (view_of self.old.reader.agent).units a.id
            × HasKey (view_of self.old.reader.agent).units b.id }
        ensures kept { KeepsText self.old self.new }
        ensures continues { Continues (view_of self.old.reader.agent) (view_of self.new.reader.agent) }
        ensures own { KeepsOwn (view_of self.old.reader.agent) (view_of self.new.reader.agent) }
        ensures units { IfOk result
            (λ s. (us vs : List ℕ) → Has (view_of self.old.reader.agent).units a.id us
            → Has (view_of self.old.reader.agent).units b.id vs
            → Has (view_of self.new.reader.agent).units s.id (us ++ vs)) }
        ensures joined { (us vs : List ℕ) → Has (view_of self.old.reader.agent).units a.id us
            → Has (view_of self.old.reader.agent).units b.id vs
            → IsJoined (view_of self.old.reader.agent) (view_of self.new.reader.agent)
            (size_of (H.reached self.old.reader.heap)) self.old.limit a b us vs result }
    {
        let left = self.reader.len(a);
        let right = self.reader.len(b);
        if left + right > self.limit {
            return Err(JoinFault::TooLong { left, right });
        }
        if left == 0 {
            return Ok(b);
        }
        if right == 0 {
            return Ok(a);
        }
        match join(&mut self.reader, a, b, left + right) {
            Ok(s) => Ok(s),
            Err(full) => Err(JoinFault::Full(full)),
        }
    }

    /// The part of a settled string from unit `from` up to unit `to`. The whole part is the
    /// string itself. Fewer than 13 units make a new flat string, wide exactly where a unit is
    /// over 255; from 13 on the answer is a slice, which uses one id and no content word. Its
    /// parent is the string, or, where that is a slice itself, the parent of that one.
    pub fn slice(&mut self, s: JsStr, from: u32, to: u32) -> Result<JsStr, TextFull>
        requires settled { IsSeenSettled (view_of self.old.reader.agent) s.id }
        requires within { (us : List ℕ) × Has (view_of self.old.reader.agent).units s.id us × (from ≤ to)
            × (to ≤ length us) }
        ensures kept { KeepsText self.old self.new }
        ensures continues { Continues (view_of self.old.reader.agent) (view_of self.new.reader.agent) }
        ensures own { KeepsOwn (view_of self.old.reader.agent) (view_of self.new.reader.agent) }
        ensures units { IfOk result
            (λ t. (us : List ℕ) → Has (view_of self.old.reader.agent).units s.id us
            → Has (view_of self.new.reader.agent).units t.id (part from (to - from) us)) }
        ensures settled { IfOk result (λ t. IsSeenSettled (view_of self.new.reader.agent) t.id) }
        ensures cut { (us : List ℕ) → Has (view_of self.old.reader.agent).units s.id us
            → IsCut (view_of self.old.reader.agent) (view_of self.new.reader.agent)
            (size_of (H.reached self.old.reader.heap)) s from to us result }
    {
        let n = self.reader.len(s);
        if from == 0 && to == n {
            return Ok(s);
        }
        cut(&mut self.reader, s, from, to - from)
    }
}

// A flat string with the units of two strings that are too short for a Cons.
fn copy_both<H: HeapRef>(
    reader: &mut Reader<H>,
    a: JsStr,
    b: JsStr,
    n: u32,
) -> Result<JsStr, TextFull>
    requires known { AreJoinable (view_in reader.old) a b n }
    requires short { n < MIN_CONS }
    ensures continues { MovesView Continues reader.old reader.new }
    ensures own { KeepsOwn (view_in reader.old) (view_in reader.new) }
    ensures copied { (us vs : List ℕ) → Has (view_in reader.old).units a.id us
        → Has (view_in reader.old).units b.id vs
        → IsCopied (view_in reader.old) (view_in reader.new) (size_of (H.reached reader.old.heap))
        (us ++ vs) result }
{
    let (front, back) = both_pieces(reader, a, b, n);
    copy(reader, &UnitSource::Pieces(front, back), n)
}

/// All units of two strings that are too short for a Cons, as the source of a new string.
pub fn both_pieces<H: HeapRef>(reader: &mut Reader<H>, a: JsStr, b: JsStr, n: u32) -> (Piece, Piece)
    requires known { AreJoinable (view_in reader.old) a b n }
    requires short { n < MIN_CONS }
    ensures reads { MovesView OnlyLoads reader.old reader.new }
    ensures shows { ShowsPiece (view_in reader.new) result.0 × ShowsPiece (view_in reader.new) result.1 }
    ensures units { (us vs : List ℕ) → Has (view_in reader.old).units a.id us
        → Has (view_in reader.old).units b.id vs
        → piece_units (view_in reader.new) result.0 ++ piece_units (view_in reader.new) result.1 ≡ us ++ vs }
{
    let (left, right) = side_forms(reader, a, b);
    let front = reader.solid_window(a, left);
    let back = reader.solid_window(b, right);
    (
        Piece {
            of: a,
            from: 0,
            window: front,
        },
        Piece {
            of: b,
            from: 0,
            window: back,
        },
    )
}

// The forms of two strings, by one load where they are one string.
fn side_forms<H: HeapRef>(reader: &mut Reader<H>, a: JsStr, b: JsStr) -> (Form, Form)
    requires known { HasKey (view_in reader.old).units a.id
        × HasKey (view_in reader.old).units b.id }
    ensures reads { MovesView OnlyLoads reader.old reader.new }
    ensures seen { Has (view_in reader.new).forms a.id result.0
        × Has (view_in reader.new).forms b.id result.1 }
    ensures born { (result.0 ≢ Unborn) × (result.1 ≢ Unborn) }
    ensures sides { KnowsSide (view_in reader.new) result.0
        × KnowsSide (view_in reader.new) result.1 }
{
    let front = reader.form_now(a.id);
    if a.id == b.id {
        return (front, front);
    }
    (front, reader.form_now(b.id))
}

// Whether a string that was seen with this form is wide; of a Thin its target says so.
fn is_wide_side<H: HeapRef>(reader: &mut Reader<H>, of: u32, form: Form) -> bool
    requires seen { Has (view_in reader.old).forms of form }
    requires side { KnowsSide (view_in reader.old) form }
    ensures reads { MovesView OnlyLoads reader.old reader.new }
    ensures held { HoldsForms (view_in reader.old) (view_in reader.new) }
    ensures wide { IsWideIn (view_in reader.new) form result }
{
    match form {
        Form::Thin { target } => reader.target_run(of, target).wide,
        _ => has_wide_bit(form),
    }
}

// A Cons of two strings.
fn link<H: HeapRef>(reader: &mut Reader<H>, a: JsStr, b: JsStr, n: u32) -> Result<JsStr, TextFull>
    requires known { AreJoinable (view_in reader.old) a b n }
    requires long { (MIN_CONS ≤ n) × (n ≤ MAX) }
    ensures continues { MovesView Continues reader.old reader.new }
    ensures own { KeepsOwn (view_in reader.old) (view_in reader.new) }
    ensures linked { (us vs : List ℕ) → Has (view_in reader.old).units a.id us
        → Has (view_in reader.old).units b.id vs
        → IsLinked (view_in reader.old) (view_in reader.new) (size_of (H.reached reader.old.heap)) a b
        (us ++ vs) result }
{
    let id = match reader.agent.claim_id(reader.heap.heap()) {
        Ok(id) => id,
        Err(full) => return Err(TextFull::Ids(full)),
    };
    link_to(reader, a, b, n, id);
    Ok(JsStr { id })
}

/// An own id, which is greater than those of two strings, is born as a Cons of them, of `n` units.
pub fn link_to<H: HeapRef>(reader: &mut Reader<H>, a: JsStr, b: JsStr, n: u32, id: u32)
    requires own { HasKey (view_in reader.old).own_ids id }
    requires above { (a.id < id) × (b.id < id) }
    requires known { AreJoinable (view_in reader.old) a b n }
    requires long { (MIN_CONS ≤ n) × (n ≤ MAX) }
    ensures continues { MovesView Continues reader.old reader.new }
    ensures used { (view_in reader.new).used ≡ (view_in reader.old).used }
    ensures own { KeepsOwnBut (view_in reader.old) (view_in reader.new) id 0 0 }
    ensures units { (us vs : List ℕ) → Has (view_in reader.old).units a.id us
        → Has (view_in reader.old).units b.id vs → Has (view_in reader.new).units id (us ++ vs) }
    ensures rope { HasRope (view_in reader.new) a b id }
{
    let (front, back) = side_forms(reader, a, b);
    let left = is_wide_side(reader, a.id, front);
    let right = is_wide_side(reader, b.id, back);
    let wide = is_either(left, right);
    reader.agent.store_length(reader.heap.heap(), id, n);
    let form = Form::Cons {
        wide,
        left: a.id,
        right: b.id,
    };
    reader.agent.birth(reader.heap.heap(), id, form);
}

// Two strings that are not empty, joined.
fn join<H: HeapRef>(reader: &mut Reader<H>, a: JsStr, b: JsStr, n: u32) -> Result<JsStr, TextFull>
    requires known { AreJoinable (view_in reader.old) a b n }
    requires most { n ≤ MAX }
    ensures continues { MovesView Continues reader.old reader.new }
    ensures own { KeepsOwn (view_in reader.old) (view_in reader.new) }
    ensures copied { n < MIN_CONS → (us vs : List ℕ) → Has (view_in reader.old).units a.id us
        → Has (view_in reader.old).units b.id vs
        → IsCopied (view_in reader.old) (view_in reader.new) (size_of (H.reached reader.old.heap))
        (us ++ vs) result }
    ensures linked { MIN_CONS ≤ n → (us vs : List ℕ) → Has (view_in reader.old).units a.id us
        → Has (view_in reader.old).units b.id vs
        → IsLinked (view_in reader.old) (view_in reader.new) (size_of (H.reached reader.old.heap)) a b
        (us ++ vs) result }
{
    if n < MIN_CONS {
        return copy_both(reader, a, b, n);
    }
    link(reader, a, b, n)
}

// A flat string with the `n` units of a settled string from `from` on.
fn copy_part<H: HeapRef>(
    reader: &mut Reader<H>,
    s: JsStr,
    from: u32,
    n: u32,
) -> Result<JsStr, TextFull>
    requires settled { IsSeenSettled (view_in reader.old) s.id }
    requires within { (us : List ℕ) × Has (view_in reader.old).units s.id us
        × (from + n ≤ length us) }
    ensures continues { MovesView Continues reader.old reader.new }
    ensures own { KeepsOwn (view_in reader.old) (view_in reader.new) }
    ensures copied { (us : List ℕ) → Has (view_in reader.old).units s.id us
        → IsCopied (view_in reader.old) (view_in reader.new) (size_of (H.reached reader.old.heap))
        (part from n us) result }
{
    let piece = part_piece(reader, s, from, n);
    copy(reader, &UnitSource::Piece(piece), n)
}

/// The `n` units of a settled string from `from` on, as the source of a new string.
pub fn part_piece<H: HeapRef>(reader: &mut Reader<H>, s: JsStr, from: u32, n: u32) -> Piece
    requires settled { IsSeenSettled (view_in reader.old) s.id }
    requires within { (us : List ℕ) × Has (view_in reader.old).units s.id us
        × (from + n ≤ length us) }
    ensures reads { MovesView OnlyLoads reader.old reader.new }
    ensures shows { ShowsPiece (view_in reader.new) result }
    ensures units { (us : List ℕ) → Has (view_in reader.old).units s.id us
        → piece_units (view_in reader.new) result ≡ part from n us }
{
    let window = reader.window_on(s);
    let part = Window {
        wide: window.wide,
        start: window.start,
        offset: window.offset + from,
        len: n,
    };
    Piece {
        of: s,
        from,
        window: part,
    }
}

// A Sliced of the `n` units of a settled string from `from` on.
fn link_part<H: HeapRef>(
    reader: &mut Reader<H>,
    s: JsStr,
    from: u32,
    n: u32,
) -> Result<JsStr, TextFull>
    requires settled { IsSeenSettled (view_in reader.old) s.id }
    requires within { (us : List ℕ) × Has (view_in reader.old).units s.id us
        × (from + n ≤ length us) }
    requires long { MIN_CONS ≤ n }
    ensures continues { MovesView Continues reader.old reader.new }
    ensures own { KeepsOwn (view_in reader.old) (view_in reader.new) }
    ensures linked { (us : List ℕ) → Has (view_in reader.old).units s.id us
        → IsPartCut (view_in reader.old) (view_in reader.new) (size_of (H.reached reader.old.heap)) s from
        (part from n us) result }
{
    let id = match reader.agent.claim_id(reader.heap.heap()) {
        Ok(id) => id,
        Err(full) => return Err(TextFull::Ids(full)),
    };
    link_part_to(reader, s, from, n, id);
    Ok(JsStr { id })
}

/// An own id, which is greater than that of a settled string, is born as a Sliced of the `n` units of
/// that string from `from` on.
pub fn link_part_to<H: HeapRef>(reader: &mut Reader<H>, s: JsStr, from: u32, n: u32, id: u32)
    requires own { HasKey (view_in reader.old).own_ids id }
    requires above { s.id < id }
    requires settled { IsSeenSettled (view_in reader.old) s.id }
    requires within { (us : List ℕ) × Has (view_in reader.old).units s.id us
        × (from + n ≤ length us) }
    requires long { MIN_CONS ≤ n }
    ensures continues { MovesView Continues reader.old reader.new }
    ensures used { (view_in reader.new).used ≡ (view_in reader.old).used }
    ensures own { KeepsOwnBut (view_in reader.old) (view_in reader.new) id 0 0 }
    ensures units { (us : List ℕ) → Has (view_in reader.old).units s.id us
        → Has (view_in reader.new).units id (part from n us) }
    ensures part { HasPart (view_in reader.new) s from id }
{
    let whole = reader.form_now(s.id);
    let wide = is_wide_side(reader, s.id, whole);
    let parent = parent_of(s.id, whole);
    let offset = offset_of(whole) + from;
    reader.agent.store_length(reader.heap.heap(), id, n);
    let form = Form::Sliced {
        wide,
        parent,
        offset,
    };
    reader.agent.birth(reader.heap.heap(), id, form);
}

// A part that is not the whole.
fn cut<H: HeapRef>(reader: &mut Reader<H>, s: JsStr, from: u32, n: u32) -> Result<JsStr, TextFull>
    requires settled { IsSeenSettled (view_in reader.old) s.id }
    requires within { (us : List ℕ) × Has (view_in reader.old).units s.id us
        × (from + n ≤ length us) }
    ensures continues { MovesView Continues reader.old reader.new }
    ensures own { KeepsOwn (view_in reader.old) (view_in reader.new) }
    ensures copied { n < MIN_CONS → (us : List ℕ) → Has (view_in reader.old).units s.id us
        → IsCopied (view_in reader.old) (view_in reader.new) (size_of (H.reached reader.old.heap))
        (part from n us) result }
    ensures linked { MIN_CONS ≤ n → (us : List ℕ) → Has (view_in reader.old).units s.id us
        → IsPartCut (view_in reader.old) (view_in reader.new) (size_of (H.reached reader.old.heap)) s from
        (part from n us) result }
{
    if n < MIN_CONS {
        return copy_part(reader, s, from, n);
    }
    link_part(reader, s, from, n)
}

// Whether a form has the wide bit.
fn has_wide_bit(form: Form) -> bool
    ensures { result ≡ wide_bit form }
{
    match form {
        Form::Flat { wide, .. } | Form::Cons { wide, .. } | Form::Sliced { wide, .. } => wide,
        _ => false,
    }
}

fn is_either(left: bool, right: bool) -> bool
    ensures { result ≡ (left || right) }
{
    left || right
}

// The string that is the parent of a slice of the string `id` with this form.
fn parent_of(id: u32, form: Form) -> u32
    ensures { result ≡ joins.parent_of id form }
{
    match form {
        Form::Sliced { parent, .. } => parent,
        _ => id,
    }
}

// Where the units of a string with this form begin there.
fn offset_of(form: Form) -> u32
    ensures { result ≡ joins.offset_of form }
{
    match form {
        Form::Sliced { offset, .. } => offset,
        _ => 0,
    }
}
