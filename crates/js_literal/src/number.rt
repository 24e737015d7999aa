// Number literals (ECMA-262, "Numeric Literals").
ghost use Rattle.std.specs.Prelude.{◌≡◌, ◌<◌, ◌^◌, ◌∷◌, ◌+◌, ◌⊎◌, ℕ, List, min, length, IsUtf8, IfOk, IfErr, MatchResult, Ok, Err};
ghost use Rattle.std.specs.Str.{chars};
ghost use Rattle.js_literal.specs.Place.{StandsAt};
ghost use Rattle.js_literal.specs.Number.{digits_of, spelled_number, number_at, NumberOf, NumberFaultOf, BeginsNumber};
ghost use Rattle.js_literal.specs.Number;
ghost use Rattle.js_literal.specs.NumberReader;
ghost use Rattle.js_literal.specs.NumberReader.{after_digits, number_kind};
ghost use Rattle.js_literal.specs.declared.fault.NumberFault.{NumberFault};

use crate::fault::NumberFault;
use crate::text::{begins_digit, byte_len};
use js_units::split_char;

/// The kind of the rule that refuses a number.
#[derive(Clone, Copy)]
enum DigitsFault {
    Fraction,
    OtherForm,
    TooLarge,
}

/// Whether the first character is a point.
fn begins_point(text: &str) -> bool
    ensures { result ≡ NumberReader.begins_point (chars text.now) }
{
    matches!(split_char(text), Some(('.', _)))
}

/// Whether the first characters are a 0 and a digit.
fn has_leading_zero(text: &str) -> bool
    ensures { result ≡ Number.has_leading_zero (chars text.now) }
{
    match split_char(text) {
        Some(('0', rest)) => begins_digit(rest),
        _ => false,
    }
}

/// Whether the character is a letter `A` to `Z` or `a` to `z`, `_` or `$`.
pub fn is_word_start(c: char) -> bool
    ensures { result ≡ Number.is_word_start c }
{
    matches!(c, 'A'..='Z' | 'a'..='z' | '_' | '$')
}

/// Whether the first character is one that may not follow a number's digits.
fn begins_tail(text: &str) -> bool
    ensures { result ≡ NumberReader.begins_tail (chars text.now) }
{
    match split_char(text) {
        Some((c, _)) => is_word_start(c) || c == '\\',
        None => false,
    }
}

/// The value of the digits in front, 2^53 where it is larger, and what follows them.
#[tactic(auto, using(crate::proofs::Decimals::digit_turn))]
fn digits(text: &str) -> (u64, &str)
    ensures value { result.0 ≡ min (spelled_number 0 (digits_of (chars text.now))) 9007199254740992 }
    ensures rest { chars result.1.now ≡ after_digits (chars text.now) }
{
    let mut value: u64 = 0;
    let mut text = text;
    while let Some((c, rest)) = split_char(text) {
        if !c.is_ascii_digit() {
            break;
        }
        value = (10 * value + (c as u64 - 48)).min(9007199254740992);
        text = rest;
    }
    (value, text)
}

/// The number in front and what follows it, or the rule that refuses it.
fn number(text: &str) -> Result<(u64, &str), DigitsFault>
    ensures { MatchResult result (λ p. number_at (chars text.now) ≡ Ok (p.0, chars p.1.now))
        (λ e. number_at (chars text.now) ≡ Err (number_kind e)) }
{
    if begins_point(text) {
        return Err(DigitsFault::Fraction);
    }
    if has_leading_zero(text) {
        return Err(DigitsFault::OtherForm);
    }
    let (value, rest) = digits(text);
    if begins_point(rest) {
        return Err(DigitsFault::Fraction);
    }
    if begins_tail(rest) {
        return Err(DigitsFault::OtherForm);
    }
    if value > 9007199254740991 {
        return Err(DigitsFault::TooLarge);
    }
    Ok((value, rest))
}

/// Whether a number begins with the character before the rest: a digit, or a point and a digit.
pub fn begins_number(c: char, rest: &str) -> bool
    ensures { result ≡ Number.begins_number (c ∷ chars rest.now) }
{
    c.is_ascii_digit() || (c == '.' && begins_digit(rest))
}

/// The number literal that begins at byte `at`: its value, and the byte behind it. The rules that
/// refuse one come in this order, each at the literal's first byte: a point in front, a 0
/// that a digit follows, a point behind the digits, a letter, `_`, `$` or `\` behind them, and a
/// value over 2^53 - 1. It allocates nothing.
pub fn read_number(text: &str, at: u32) -> Result<(u64, u32), NumberFault>
    requires size { length text.now < 2 ^ 32 }
    requires number { BeginsNumber text.now at }
    ensures ok { IfOk result (λ p. NumberOf text.now at p.0 p.1) }
    ensures err { IfErr result (λ e. NumberFaultOf text.now at e) }
    ensures found { (value end : ℕ) → NumberOf text.now at value end → result ≡ Ok (value, end) }
    ensures faults { (f : NumberFault) → NumberFaultOf text.now at f → result ≡ Err f }
{
    read(text, at)
}

/// A place where a number begins has one number literal or one fault, and not both.
pub fn one_number_answer()
    ensures one_number { (text : List ℕ) (at v w a b : ℕ) → IsUtf8 text → NumberOf text at v a
        → NumberOf text at w b → (v ≡ w) × (a ≡ b) }
    ensures one_fault { (text : List ℕ) (at : ℕ) (f e : NumberFault) → NumberFaultOf text at f
        → NumberFaultOf text at e → f ≡ e }
    ensures never_both { (text : List ℕ) (at v a : ℕ) (f : NumberFault) → NumberOf text at v a
        → NumberFaultOf text at f → ⊥ }
    ensures some_answer { (text : List ℕ) (at : ℕ) → IsUtf8 text → BeginsNumber text at
        → ((v : ℕ) × (end : ℕ) × NumberOf text at v end) ⊎ ((f : NumberFault) × NumberFaultOf text at f) }
{}

/// What `read_number` answers, against the relations alone.
fn read(text: &str, at: u32) -> Result<(u64, u32), NumberFault>
    requires size { length text.now < 2 ^ 32 }
    requires number { BeginsNumber text.now at }
    ensures ok { IfOk result (λ p. NumberOf text.now at p.0 p.1) }
    ensures err { IfErr result (λ e. NumberFaultOf text.now at e) }
{
    match number(from(text, at)) {
        Ok((value, rest)) => Ok((value, (text.len() - byte_len(rest)) as u32)),
        Err(refusal) => Err(placed(refusal, at)),
    }
}

/// The text from the first byte of a number on.
fn from(text: &str, at: u32) -> &str
    requires { BeginsNumber text.now at }
    ensures { StandsAt text.now at (chars result.now) }
{
    &text[at as usize..]
}

/// The fault of a literal that begins at `at`.
fn placed(refusal: DigitsFault, at: u32) -> NumberFault
    ensures { result ≡ number_kind refusal at }
{
    match refusal {
        DigitsFault::Fraction => NumberFault::Fraction { at },
        DigitsFault::OtherForm => NumberFault::OtherForm { at },
        DigitsFault::TooLarge => NumberFault::TooLarge { at },
    }
}
