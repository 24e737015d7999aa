// What is at the front of a text: a blank, a comment, or what a token begins with.
ghost use Rattle.std.specs.List.{prefix_len};
ghost use Rattle.std.specs.Prelude.{◌≡◌, option_map};
ghost use Rattle.std.specs.Str.{chars};
ghost use Rattle.js_lex.specs.Elements;
ghost use Rattle.js_lex.specs.Reader;
ghost use Rattle.js_lex.specs.Reader.{lookahead_of};
ghost use Rattle.js_units.specs.Text;

use crate::mark::mark_front;
use crate::token::Mark;
use js_literal::{begins_number, is_word_start};
use js_units::{is_trimmed, split_char};

/// The end, what separates tokens, what a token begins with, an open comment or a character that
/// begins nothing. With what follows it, but for literals, which are read by their place.
#[derive(Clone, Copy)]
pub enum Front<'a> {
    End,
    Skip(&'a str),
    Word(&'a str),
    Quote,
    Number,
    Mark(Mark, &'a str),
    Open,
    Bad,
}

/// Whether the character is WhiteSpace or a LineTerminator.
fn is_blank(c: char) -> bool
    ensures { result ≡ Text.is_blank c }
{
    if matches!(c, '!'..='~') {
        return false;
    }
    match u16::try_from(c as u32) {
        Ok(unit) => is_trimmed(unit),
        Err(_) => false,
    }
}

/// Whether the character is a LineTerminator, which ends a comment of one line.
fn is_line_end(c: char) -> bool
    ensures { result ≡ Elements.is_line_end c }
{
    matches!(c, '\n' | '\r' | '\u{2028}' | '\u{2029}')
}

/// Whether the character may be in an identifier behind its first.
fn is_word_part(c: char) -> bool
    ensures { result ≡ Elements.is_word_part c }
{
    is_word_start(c) || c.is_ascii_digit()
}

/// How many bytes in front are identifier parts.
fn word_len(bytes: &[u8]) -> usize
    ensures { result ≡ prefix_len Elements.is_word_part bytes.now }
{
    for (i, byte) in bytes.iter().enumerate() {
        if !is_word_part(char::from(*byte)) {
            return i;
        }
    }
    bytes.len()
}

/// What follows the longest run of identifier parts, which are ASCII.
fn after_word(text: &str) -> &str
    ensures { chars result.now ≡ Reader.after_word (chars text.now) }
{
    &text[word_len(text.as_bytes())..]
}

/// The text from the next line end on.
fn after_line(text: &str) -> &str
    ensures { chars result.now ≡ Reader.after_line (chars text.now) }
{
    let mut text = text;
    while let Some((c, rest)) = split_char(text) {
        if is_line_end(c) {
            break;
        }
        text = rest;
    }
    text
}

/// What follows the next `*/`.
fn after_block(text: &str) -> Option<&str>
    ensures { option_map (λ t. chars t.now) result ≡ Elements.after_block (chars text.now) }
{
    let mut text = text;
    while let Some((c, rest)) = split_char(text) {
        if c == '*' {
            if let Some(('/', after)) = split_char(rest) {
                return Some(after);
            }
        }
        text = rest;
    }
    None
}

/// What follows a slash.
fn comment(text: &str) -> Front<'_>
    ensures { lookahead_of result ≡ Reader.comment (chars text.now) }
{
    match split_char(text) {
        Some(('/', rest)) => Front::Skip(after_line(rest)),
        Some(('*', rest)) => match after_block(rest) {
            Some(after) => Front::Skip(after),
            None => Front::Open,
        },
        _ => Front::Bad,
    }
}

/// What is at the front.
#[tactic(auto, unfolding(crate::specs::Reader::front))]
pub fn look_ahead(text: &str) -> Front<'_>
    ensures { lookahead_of result ≡ Reader.front (chars text.now) }
{
    match split_char(text) {
        None => Front::End,
        Some((c, rest)) => {
            if is_blank(c) {
                Front::Skip(rest)
            } else if is_word_start(c) {
                Front::Word(after_word(rest))
            } else if c == '"' || c == '\'' {
                Front::Quote
            } else if begins_number(c, rest) {
                Front::Number
            } else if c == '/' {
                comment(rest)
            } else {
                match mark_front(text) {
                    Some((mark, after)) => Front::Mark(mark, after),
                    None => Front::Bad,
                }
            }
        }
    }
}
