// Bytes and characters that a case file spells out.

use crate::case::Fault;
use std::alloc::Global;

/// The bytes of a text in which `%XX` denotes a byte.
pub(crate) fn bytes_of(alloc: Global, text: &str) -> Result<Vec<u8>, Fault> {
    let mut pieces = text.split('%');
    let mut bytes = Vec::new(alloc);
    if let Some(first) = pieces.next() {
        bytes.extend_from_slice(first.as_bytes())?;
    }
    for piece in pieces {
        let Some((digits, rest)) = piece.split_at_checked(2) else {
            return Err(Fault::Form("no two digits behind `%`"));
        };
        bytes.push(byte_of(digits)?)?;
        bytes.extend_from_slice(rest.as_bytes())?;
    }
    Ok(bytes)
}

fn byte_of(digits: &str) -> Result<u8, Fault> {
    match u8::from_str_radix(digits, 16) {
        Ok(byte) if !digits.starts_with('+') => Ok(byte),
        _ => Err(Fault::Form("no two digits behind `%`")),
    }
}

// What was read last.
#[derive(Clone, Copy)]
enum Reading {
    Plain,
    Backslash,
    /// So many digits of a code are still to come.
    Code { value: u32, left: u8 },
}

/// The bytes that an expected `out` spells, with its line feed.
pub(crate) fn text_of(alloc: Global, wish: &str) -> Result<Vec<u8>, Fault> {
    let mut text = String::new(alloc);
    let mut reading = Reading::Plain;
    for letter in wish.chars() {
        reading = match reading {
            Reading::Plain if letter == '\\' => Reading::Backslash,
            Reading::Plain => {
                text.push(letter)?;
                Reading::Plain
            }
            Reading::Backslash => escape(&mut text, letter)?,
            Reading::Code { value, left } => digit(&mut text, letter, value, left)?,
        };
    }
    match reading {
        Reading::Plain => {
            text.push('\n')?;
            Ok(text.into_bytes())
        }
        _ => Err(Fault::Form("an escape without its end")),
    }
}

fn escape(text: &mut String, letter: char) -> Result<Reading, Fault> {
    match letter {
        'n' => text.push('\n')?,
        '\\' => text.push('\\')?,
        'e' => {}
        'x' => return Ok(Reading::Code { value: 0, left: 2 }),
        'u' => return Ok(Reading::Code { value: 0, left: 4 }),
        _ => return Err(Fault::Form("no such escape")),
    }
    Ok(Reading::Plain)
}

fn digit(text: &mut String, letter: char, value: u32, left: u8) -> Result<Reading, Fault> {
    let Some(digit) = letter.to_digit(16) else {
        return Err(Fault::Form("no digit of a code"));
    };
    let value = value.saturating_mul(16).saturating_add(digit);
    if left > 1 {
        return Ok(Reading::Code {
            value,
            left: left - 1,
        });
    }
    match char::from_u32(value) {
        Some(character) => {
            text.push(character)?;
            Ok(Reading::Plain)
        }
        None => Err(Fault::Form("the code of no character")),
    }
}
