// What is at the front of a string literal's inside: a character, an escape, the closing quote,
// or what is refused.
ghost use Rattle.std.specs.Prelude.{◌≡◌, ◌<◌, ◌≤◌, ◌+◌, ◌*◌, [], ◌∷◌, min, IfSome, option_map};
ghost use Rattle.std.specs.List.{prefix_len};
ghost use Rattle.std.specs.Str.{chars};
ghost use Rattle.js_units.specs.Text.{utf16_of};
ghost use Rattle.js_literal.specs.Literal.{letter_unit};
ghost use Rattle.js_literal.specs.Reader.{plain_run, after_plain, reading_of, value_units, reading, escape_of, seen, after_return};
ghost use Rattle.js_literal.specs.Reader;

use crate::text::{begins_digit, hex_value};
use js_units::split_char;

/// The units of a piece: none for a line continuation, those of a character, or one of an escape.
#[derive(Clone, Copy)]
pub enum PieceUnits {
    Nothing,
    Char(char),
    Unit(u16),
}

/// The kind of a fault, without its place.
#[derive(Clone, Copy)]
pub enum PieceFault {
    Unclosed,
    RawLineEnd,
    BadEscape,
    CodePointTooLarge,
    LegacyOctal,
}

/// A piece or the closing quote, with the text behind it, or the fault.
#[derive(Clone, Copy)]
pub enum LiteralFront<'a> {
    Piece(PieceUnits, &'a str),
    Close(&'a str),
    Refused(PieceFault),
}

/// The unit of `b`, `t`, `n`, `v`, `f` or `r` behind a backslash.
fn letter(c: char) -> Option<u16>
    ensures { result ≡ letter_unit c }
{
    match c {
        'b' => Some(8),
        't' => Some(9),
        'n' => Some(10),
        'v' => Some(11),
        'f' => Some(12),
        'r' => Some(13),
        _ => None,
    }
}

/// A hexadecimal digit behind a value: the new value, and what follows.
fn hex_front(value: u32, text: &str) -> Option<(u32, &str)>
    requires { value < 65536 }
    ensures value { option_map (λ p. seen p.0 p.1.now) result ≡ Reader.hex_front value (chars text.now) }
    ensures bound { IfSome result (λ p. p.0 < 16 * value + 16) }
{
    let (c, rest) = split_char(text)?;
    let digit = hex_value(c)?;
    Some((16 * value + digit, rest))
}

/// Two hexadecimal digits behind a value.
fn two_front(value: u32, text: &str) -> Option<(u32, &str)>
    requires { value < 256 }
    ensures value { option_map (λ p. seen p.0 p.1.now) result ≡ Reader.two_front value (chars text.now) }
    ensures bound { IfSome result (λ p. p.0 < 256 * value + 256) }
{
    let (first, rest) = hex_front(value, text)?;
    hex_front(first, rest)
}

/// Four hexadecimal digits.
fn four_front(text: &str) -> Option<(u32, &str)>
    ensures value { option_map (λ p. seen p.0 p.1.now) result ≡ Reader.four_front (chars text.now) }
    ensures bound { IfSome result (λ p. p.0 < 65536) }
{
    let (first, rest) = two_front(0, text)?;
    two_front(first, rest)
}

/// All hexadecimal digits behind a value, and what follows. A value over 10FFFF is given as 110000.
#[tactic(auto, using(crate::proofs::Digits::turn))]
fn hex_run(value: u32, text: &str) -> (u32, &str)
    requires { value ≤ 0x110000 }
    ensures value { result.0 ≡ min (Reader.hex_run value (chars text.now)).0 0x110000 }
    ensures rest { chars result.1.now ≡ (Reader.hex_run value (chars text.now)).1 }
{
    let mut value = value;
    let mut text = text;
    while let Some((c, rest)) = split_char(text) {
        let Some(digit) = hex_value(c) else {
            break;
        };
        value = (16 * value + digit).min(0x110000);
        text = rest;
    }
    (value, text)
}

/// The units of a code point, a surrogate's one unit among them.
fn code_point_value(value: u32) -> PieceUnits
    requires { value ≤ 0x10FFFF }
    ensures { value_units result ≡ utf16_of value }
{
    match char::from_u32(value) {
        Some(c) => PieceUnits::Char(c),
        None => PieceUnits::Unit(value as u16),
    }
}

/// The unit that digits spell, or `BadEscape` where they are missing.
fn one_unit(found: Option<(u32, &str)>) -> LiteralFront<'_>
    requires { IfSome found (λ p. p.0 < 65536) }
    ensures { reading_of result ≡ Reader.one_unit (option_map (λ p. seen p.0 p.1.now) found.entry) }
{
    match found {
        Some((value, rest)) => LiteralFront::Piece(PieceUnits::Unit(value as u16), rest),
        None => LiteralFront::Refused(PieceFault::BadEscape),
    }
}

/// The closing brace behind the digits of a value.
fn close_braces(value: u32, text: &str) -> LiteralFront<'_>
    requires { value ≤ 0x110000 }
    ensures { reading_of result ≡ Reader.close_braces value (chars text.now) }
{
    match split_char(text) {
        Some(('}', rest)) => {
            if value <= 0x10FFFF {
                LiteralFront::Piece(code_point_value(value), rest)
            } else {
                LiteralFront::Refused(PieceFault::CodePointTooLarge)
            }
        }
        _ => LiteralFront::Refused(PieceFault::BadEscape),
    }
}

/// Hexadecimal digits and a closing brace.
fn braces(text: &str) -> LiteralFront<'_>
    ensures { reading_of result ≡ Reader.braces_of (chars text.now) }
{
    match hex_front(0, text) {
        Some((first, rest)) => {
            let (value, rest) = hex_run(first, rest);
            close_braces(value, rest)
        }
        None => LiteralFront::Refused(PieceFault::BadEscape),
    }
}

/// What follows `\u`.
fn unicode(text: &str) -> LiteralFront<'_>
    ensures { reading_of result ≡ Reader.unicode_of (chars text.now) }
{
    match split_char(text) {
        Some(('{', rest)) => braces(rest),
        _ => one_unit(four_front(text)),
    }
}

/// The text without a line feed in front.
fn past_line_feed(text: &str) -> &str
    ensures { chars result.now ≡ after_return (chars text.now) }
{
    match split_char(text) {
        Some(('\n', rest)) => rest,
        _ => text,
    }
}

/// What follows a backslash and a character that is none of the six letters.
fn other_escape(c: char, text: &str) -> LiteralFront<'_>
    ensures { reading_of result ≡ Reader.other_escape c (chars text.now) }
{
    match c {
        '0' => {
            if begins_digit(text) {
                LiteralFront::Refused(PieceFault::LegacyOctal)
            } else {
                LiteralFront::Piece(PieceUnits::Unit(0), text)
            }
        }
        '1'..='9' => LiteralFront::Refused(PieceFault::LegacyOctal),
        'x' => one_unit(two_front(0, text)),
        'u' => unicode(text),
        '\r' => LiteralFront::Piece(PieceUnits::Nothing, past_line_feed(text)),
        '\n' | '\u{2028}' | '\u{2029}' => LiteralFront::Piece(PieceUnits::Nothing, text),
        _ => LiteralFront::Piece(PieceUnits::Char(c), text),
    }
}

/// What follows a backslash.
#[tactic(auto, unfolding(crate::specs::Reader::escape_of))]
fn escape(text: &str) -> LiteralFront<'_>
    ensures { reading_of result ≡ escape_of (chars text.now) }
{
    match split_char(text) {
        None => LiteralFront::Refused(PieceFault::Unclosed),
        Some((c, rest)) => match letter(c) {
            Some(unit) => LiteralFront::Piece(PieceUnits::Unit(unit), rest),
            None => other_escape(c, rest),
        },
    }
}

/// Whether the character denotes itself and is its own byte: printable ASCII, neither the quote
/// nor a backslash.
fn is_plain(quote: char, c: char) -> bool
    ensures { result ≡ Reader.is_plain quote c }
{
    matches!(c, ' '..='~') && c != quote && c != '\\'
}

/// How many bytes in front are such characters.
fn plain_len(quote: char, bytes: &[u8]) -> usize
    ensures { result ≡ prefix_len (Reader.is_plain quote) bytes.now }
{
    for (i, byte) in bytes.iter().enumerate() {
        if !is_plain(quote, char::from(*byte)) {
            return i;
        }
    }
    bytes.len()
}

/// The longest run of such characters, and what follows it: most literals are one run.
pub fn split_plain(quote: char, text: &str) -> (&[u8], &str)
    ensures run { result.0.now ≡ plain_run quote (chars text.now) }
    ensures rest { chars result.1.now ≡ after_plain quote (chars text.now) }
{
    let bytes = text.as_bytes();
    let len = plain_len(quote, bytes);
    (&bytes[..len], &text[len..])
}

/// What is at the front of a literal's inside.
#[tactic(auto, unfolding(crate::specs::Reader::reading))]
pub fn read_front(quote: char, text: &str) -> LiteralFront<'_>
    ensures { reading_of result ≡ reading quote (chars text.now) }
{
    match split_char(text) {
        None => LiteralFront::Refused(PieceFault::Unclosed),
        Some((c, rest)) => {
            if c == quote {
                LiteralFront::Close(rest)
            } else if c == '\\' {
                escape(rest)
            } else if c == '\n' || c == '\r' {
                LiteralFront::Refused(PieceFault::RawLineEnd)
            } else {
                LiteralFront::Piece(PieceUnits::Char(c), rest)
            }
        }
    }
}
