// Digits at the front of a text, and its length.
ghost use Rattle.std.specs.Prelude.{◌≡◌, length, encode_utf8_all};
ghost use Rattle.std.specs.Str.{chars};
ghost use Rattle.js_literal.specs.Literal;

use js_units::split_char;

/// Whether the first character is a digit `0` to `9`.
pub fn begins_digit(text: &str) -> bool
    ensures { result ≡ Literal.begins_with Literal.is_digit (chars text.now) }
{
    match split_char(text) {
        Some((c, _)) => c.is_ascii_digit(),
        None => false,
    }
}

/// The value of a hexadecimal digit.
pub fn hex_value(c: char) -> Option<u32>
    ensures { result ≡ Literal.hex_value c }
{
    match c {
        '0'..='9' => Some(c as u32 - 48),
        'A'..='F' => Some(c as u32 - 55),
        'a'..='f' => Some(c as u32 - 87),
        _ => None,
    }
}

/// How many bytes the characters of the text have.
pub fn byte_len(text: &str) -> usize
    ensures { result ≡ length (encode_utf8_all (chars text.now)) }
{
    text.len()
}
