// The longest mark at the front of a text.
ghost use Rattle.std.specs.Prelude.{◌≡◌, option_map};
ghost use Rattle.std.specs.Str.{chars};
ghost use Rattle.js_lex.specs.MarkReader;
ghost use Rattle.js_lex.specs.MarkReader.{taken};

use crate::token::Mark;
use js_units::split_char;

/// The mark of one character.
fn one_mark(a: char) -> Option<Mark>
    ensures { result ≡ MarkReader.one_mark a }
{
    match a {
        '{' => Some(Mark::OpenBrace),
        '}' => Some(Mark::CloseBrace),
        '(' => Some(Mark::OpenParen),
        ')' => Some(Mark::CloseParen),
        '[' => Some(Mark::OpenBracket),
        ']' => Some(Mark::CloseBracket),
        '.' => Some(Mark::Point),
        ';' => Some(Mark::Semicolon),
        ',' => Some(Mark::Comma),
        '<' => Some(Mark::Less),
        '>' => Some(Mark::Greater),
        '+' => Some(Mark::Plus),
        '-' => Some(Mark::Minus),
        '!' => Some(Mark::Not),
        '?' => Some(Mark::Question),
        ':' => Some(Mark::Colon),
        '=' => Some(Mark::Assign),
        _ => None,
    }
}

/// The mark of two characters.
fn two_mark(a: char, b: char) -> Option<Mark>
    ensures { result ≡ MarkReader.two_mark a b }
{
    match (a, b) {
        ('<', '=') => Some(Mark::AtMost),
        ('>', '=') => Some(Mark::AtLeast),
        ('&', '&') => Some(Mark::And),
        ('|', '|') => Some(Mark::Or),
        ('+', '=') => Some(Mark::AddAssign),
        ('+', '+') => Some(Mark::Increment),
        ('-', '-') => Some(Mark::Decrement),
        _ => None,
    }
}

/// The mark of three characters.
fn three_mark(a: char, b: char, c: char) -> Option<Mark>
    ensures { result ≡ MarkReader.three_mark a b c }
{
    match (a, b, c) {
        ('=', '=', '=') => Some(Mark::StrictEqual),
        ('!', '=', '=') => Some(Mark::StrictUnequal),
        _ => None,
    }
}

/// A mark of one character in front, and what follows it.
fn one_front(text: &str) -> Option<(Mark, &str)>
    ensures { option_map (λ p. taken p.0 p.1.now) result ≡ MarkReader.one_front (chars text.now) }
{
    let (a, rest) = split_char(text)?;
    Some((one_mark(a)?, rest))
}

/// A mark of two characters in front, and what follows it.
fn two_front(text: &str) -> Option<(Mark, &str)>
    ensures { option_map (λ p. taken p.0 p.1.now) result ≡ MarkReader.two_front (chars text.now) }
{
    let (a, rest) = split_char(text)?;
    let (b, rest) = split_char(rest)?;
    Some((two_mark(a, b)?, rest))
}

/// A mark of three characters in front, and what follows it.
fn three_front(text: &str) -> Option<(Mark, &str)>
    ensures { option_map (λ p. taken p.0 p.1.now) result ≡ MarkReader.three_front (chars text.now) }
{
    let (a, rest) = split_char(text)?;
    let (b, rest) = split_char(rest)?;
    let (c, rest) = split_char(rest)?;
    Some((three_mark(a, b, c)?, rest))
}

/// Whether the character is a mark that begins no longer one.
fn is_alone(c: char) -> bool
    ensures { result ≡ MarkReader.is_alone c }
{
    matches!(
        c,
        '{' | '}' | '(' | ')' | '[' | ']' | '.' | ';' | ',' | '?' | ':'
    )
}

/// The longest mark in front, and what follows it.
#[tactic(auto, using(crate::proofs::AloneMark::alone_front), unfolding(crate::specs::MarkReader::mark_front))]
pub fn mark_front(text: &str) -> Option<(Mark, &str)>
    ensures { option_map (λ p. taken p.0 p.1.now) result ≡ MarkReader.mark_front (chars text.now) }
{
    let (a, rest) = split_char(text)?;
    if is_alone(a) {
        return Some((one_mark(a)?, rest));
    }
    if let Some(found) = three_front(text) {
        return Some(found);
    }
    if let Some(found) = two_front(text) {
        return Some(found);
    }
    one_front(text)
}
