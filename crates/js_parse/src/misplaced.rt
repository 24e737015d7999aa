// The fault of a token that isn't allowed at its place.
ghost use Rattle.std.specs.Prelude.{◌≡◌};
ghost use Rattle.parse_syntax.specs.Reader.{Wrong, TooDeep};
ghost use Rattle.js_lex.specs.declared.token.Mark.TheVariants.{OpenParen, Point};
ghost use Rattle.parse_syntax.specs.Terminals as terminals;
ghost use Rattle.js_parse.specs.Spells as definition;
ghost use Rattle.js_parse.specs.Spells.{misplaced};
ghost use Rattle.js_parse.specs.Told.{front_of};
ghost use Rattle.js_parse.specs.Told as told;

use crate::fault::ParseFault;
use js_lex::Mark;
use parse_statements::{Fault, next};
use parse_syntax::{GrammarKind, GrammarToken};

// Whether a token that isn't allowed at its place is an identifier.
fn is_word(token: &GrammarToken) -> bool
    ensures { result ≡ terminals.is_word_token token.now }
{
    match token.kind {
        GrammarKind::Name(..) | GrammarKind::Word(..) => true,
        _ => false,
    }
}

fn is_opening(token: &GrammarToken) -> bool
    ensures { result ≡ terminals.is_mark OpenParen token.now }
{
    matches!(token.kind, GrammarKind::Mark(Mark::OpenParen))
}

fn is_point(token: GrammarToken) -> bool
    ensures { result ≡ terminals.is_mark Point token }
{
    matches!(token.kind, GrammarKind::Mark(Mark::Point))
}

// The tokens before the rest.
fn front<'a>(tokens: &'a [GrammarToken], rest: &[GrammarToken]) -> &'a [GrammarToken]
    ensures { result.now ≡ front_of tokens.now rest.now }
{
    let count = tokens.len().saturating_sub(rest.len());
    &tokens[..count]
}

// Of two tokens that are a point and an identifier the place of the identifier.
fn pointed(two: &[GrammarToken]) -> Option<u32>
    ensures { result ≡ definition.pointed two.now }
{
    let (point, rest) = next(two)?;
    let (word, rest) = next(rest)?;
    if !rest.is_empty() {
        return None;
    }
    if !is_point(point) {
        return None;
    }
    if is_word(&word) { Some(word.at) } else { None }
}

// The identifier behind a point that ends the front, where `(` follows.
fn called(front: &[GrammarToken], token: &GrammarToken) -> Option<u32>
    ensures { result ≡ definition.called_word front.now token.now }
{
    if !is_opening(token) {
        return None;
    }
    let before = front.len().saturating_sub(2);
    pointed(&front[before..])
}

fn misplaced_at(called: Option<u32>, token: &GrammarToken) -> ParseFault
    ensures { result ≡ definition.misplaced_at called token.now }
{
    let at = token.at;
    match called {
        Some(at) => ParseFault::NotInProfile { at },
        None => {
            if is_word(token) {
                ParseFault::NotInProfile { at }
            } else {
                ParseFault::Unexpected { at }
            }
        }
    }
}

// The fault at a token that isn't allowed there, or at the end.
fn wrong(tokens: &[GrammarToken], rest: &[GrammarToken], end: u32) -> ParseFault
    ensures { result ≡ misplaced Wrong (front_of tokens.now rest.now) rest.now end }
{
    match rest {
        [] => ParseFault::Unexpected { at: end },
        [first, ..] => misplaced_at(called(front(tokens, rest), first), first),
    }
}

// The fault at a token that opens one too many.
fn too_deep(tokens: &[GrammarToken], rest: &[GrammarToken], end: u32) -> ParseFault
    ensures { result ≡ misplaced TooDeep (front_of tokens.now rest.now) rest.now end }
{
    match rest {
        [] => ParseFault::TooDeep { at: end },
        [first, ..] => ParseFault::TooDeep { at: first.at },
    }
}

/// The fault of tokens of a text of this length.
pub(crate) fn grammar_fault(fault: Fault<'_>, tokens: &[GrammarToken], end: u32) -> ParseFault
    ensures { result ≡ told.grammar_fault fault.entry tokens.now end }
{
    match fault {
        Fault::Memory => ParseFault::Memory,
        Fault::Wrong { rest } => wrong(tokens, rest, end),
        Fault::TooDeep { rest } => too_deep(tokens, rest, end),
    }
}
