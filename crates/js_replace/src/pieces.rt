// The pieces of a template, and what they expand to at a match.
ghost use Rattle.std.specs.Prelude.{◌≡◌, ◌+◌, ◌*◌, ◌<◌, ◌≤◌, ◌++◌, ℕ, List, [], length, MatchOption, OnOk};
ghost use Rattle.std.specs.Option.{option_map};
ghost use Rattle.js_replace.specs.Substitution.{substituted};
ghost use Rattle.js_replace.specs.Fronts.{front_reference};
ghost use Rattle.js_replace.specs.Pieces.{piece_text, pieces_of, len_of, Measures};

use js_units::{NoMemory, Units};

const DOLLAR: u16 = 0x24;

// A unit that denotes itself, or a reference to the match, to what is before it, or to what is
// after it.
#[derive(Clone, Copy)]
enum Piece {
    Plain(u16),
    Match,
    Before,
    After,
}

// The first piece, and the units behind it.
fn split_piece(template: &[u16]) -> Option<(Piece, &[u16])>
    ensures shorter { MatchOption result (length template.now ≡ 0)
        (λ p. length p.1.now < length template.now) }
    ensures parts { (u : List ℕ) (at : ℕ) (w : List ℕ)
        → MatchOption result (substituted template.now u at w ≡ [])
        (λ p. substituted template.now u at w ≡ piece_text p.0 u at w ++ substituted p.1.now u at w) }
{
    let first = *template.first()?;
    let rest = &template[1..];
    match rest.first() {
        None => Some((Piece::Plain(first), rest)),
        Some(second) => match reference(first, *second) {
            None => Some((Piece::Plain(first), rest)),
            Some(piece) => Some((piece, &rest[1..])),
        },
    }
}

// What the first two units refer to, if they are a reference.
fn reference(first: u16, second: u16) -> Option<Piece>
    ensures { (u : List ℕ) (at : ℕ) (w : List ℕ)
        → option_map (λ p. piece_text p u at w) result ≡ front_reference first second u at w }
{
    if first != DOLLAR {
        return None;
    }
    match second {
        DOLLAR => Some(Piece::Plain(DOLLAR)),
        0x26 => Some(Piece::Match),
        0x60 => Some(Piece::Before),
        0x27 => Some(Piece::After),
        _ => None,
    }
}

// Adds what a piece expands to.
fn push_piece(text: &mut Units, piece: Piece, s: &[u16], at: u32, w: &[u16]) -> Result<(), NoMemory>
    requires { at + length w.now ≤ length s.now }
    ensures added { OnOk result (text.new ≡ text.old ++ piece_text piece s.now at w.now) }
{
    let at = at as usize;
    match piece {
        Piece::Plain(unit) => text.push(unit),
        Piece::Match => text.extend_from_slice(w),
        Piece::Before => text.extend_from_slice(&s[..at]),
        Piece::After => text.extend_from_slice(&s[at + w.len()..]),
    }
}

/// How many pieces of each kind a template has, by which the length of what it expands to at a
/// match is known without another look at it.
#[derive(Clone, Copy)]
pub struct Shape {
    plain: u64,
    matched: u64,
    before: u64,
    after: u64,
}

impl Shape {
    /// The shape of a template.
    #[tactic(auto, using(crate::proofs::Templates::length_turn, crate::proofs::Templates::length_end))]
    pub fn of(template: &[u16]) -> Shape
        ensures lengths { Measures result template.now }
        ensures pieces { pieces_of result ≤ length template.now }
    {
        let mut shape = Shape {
            plain: 0,
            matched: 0,
            before: 0,
            after: 0,
        };
        let mut rest = template;
        while let Some((piece, after)) = split_piece(rest) {
            shape = shape.with(piece);
            rest = after;
        }
        shape
    }

    // One more piece.
    #[tactic(auto, using(crate::proofs::Templates::one_more))]
    fn with(self, piece: Piece) -> Shape
        requires { pieces_of self < 9223372036854775808 }
        ensures pieces { pieces_of result ≡ pieces_of self + 1 }
        ensures lengths { (u : List ℕ) (at : ℕ) (w : List ℕ) → at + length w ≤ length u
            → len_of result (length u) at (length w)
            ≡ len_of self (length u) at (length w) + length (piece_text piece u at w) }
    {
        let mut shape = self;
        match piece {
            Piece::Plain(_) => shape.plain += 1,
            Piece::Match => shape.matched += 1,
            Piece::Before => shape.before += 1,
            Piece::After => shape.after += 1,
        }
        shape
    }

    /// How many units a template of this shape expands to at a match of `size` units, which
    /// is at `at` in a string of `len` units.
    #[tactic(auto, using(crate::proofs::Templates::product))]
    pub fn len_at(self, len: u32, at: u32, size: u32) -> u128
        requires within { at + size ≤ len }
        requires short { pieces_of self ≤ 536870888 }
        ensures value { result ≡ len_of self len at size }
        ensures most { result ≤ 2305843009213693952 }
    {
        u128::from(self.plain)
            + u128::from(self.matched) * u128::from(size)
            + u128::from(self.before) * u128::from(at)
            + u128::from(self.after) * u128::from(len - at - size)
    }
}

/// Adds what the template expands to at the match `w`, which occurs in `s` at `at`.
#[tactic(auto, using(crate::proofs::Templates::push_turn, crate::proofs::Templates::push_end))]
pub fn push_substituted(
    text: &mut Units,
    template: &[u16],
    s: &[u16],
    at: u32,
    w: &[u16],
) -> Result<(), NoMemory>
    requires { at + length w.now ≤ length s.now }
    ensures added { OnOk result (text.new ≡ text.old ++ substituted template.now s.now at w.now) }
{
    let mut rest = template;
    while let Some((piece, after)) = split_piece(rest) {
        push_piece(text, piece, s, at, w)?;
        rest = after;
    }
    Ok(())
}
