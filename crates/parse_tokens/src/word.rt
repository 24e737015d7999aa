// What an identifier is.
ghost use Rattle.std.specs.Prelude.{◌≡◌, drop, find};
ghost use Rattle.std.specs.Str.{bytes_eq};
ghost use Rattle.eval_tree.specs.Methods.{named};
ghost use Rattle.parse_syntax.specs.Terminals.{letters_of};
ghost use Rattle.parse_tokens.specs.Words.{meant_words, property_names, word_meant, word_property};

use crate::reserved::is_reserved;
use eval_tree::Method;
use parse_syntax::{Property, Word};

// An identifier by which a statement begins or goes on, or an operand begins.
fn keyword(letters: &[u8]) -> Option<Word>
    ensures { result ≡ find (λ w. bytes_eq letters.now (letters_of w)) meant_words }
{
    if letters == b"let".as_slice() {
        Some(Word::Let)
    } else if letters == b"const".as_slice() {
        Some(Word::Const)
    } else if letters == b"print".as_slice() {
        Some(Word::Print)
    } else if letters == b"if".as_slice() {
        Some(Word::If)
    } else if letters == b"else".as_slice() {
        Some(Word::Else)
    } else if letters == b"for".as_slice() {
        Some(Word::For)
    } else {
        operand_word(letters)
    }
}

// An identifier by which an operand begins.
fn operand_word(letters: &[u8]) -> Option<Word>
    ensures { result ≡ find (λ w. bytes_eq letters.now (letters_of w)) (drop 6 meant_words) }
{
    if letters == b"undefined".as_slice() {
        Some(Word::Undefined)
    } else if letters == b"null".as_slice() {
        Some(Word::Null)
    } else if letters == b"true".as_slice() {
        Some(Word::True)
    } else if letters == b"false".as_slice() {
        Some(Word::False)
    } else if letters == b"NaN".as_slice() {
        Some(Word::NaN)
    } else if letters == b"Infinity".as_slice() {
        Some(Word::Infinity)
    } else if letters == b"String".as_slice() {
        Some(Word::String)
    } else if letters == b"Symbol".as_slice() {
        Some(Word::Symbol)
    } else if letters == b"JSON".as_slice() {
        Some(Word::Json)
    } else if letters == b"Object".as_slice() {
        Some(Word::Object)
    } else if letters == b"encodeURI".as_slice() {
        Some(Word::EncodeUri)
    } else if letters == b"encodeURIComponent".as_slice() {
        Some(Word::EncodeUriComponent)
    } else if letters == b"decodeURI".as_slice() {
        Some(Word::DecodeUri)
    } else if letters == b"decodeURIComponent".as_slice() {
        Some(Word::DecodeUriComponent)
    } else {
        None
    }
}

/// The identifier, where it is no name.
pub(crate) fn word_named(letters: &[u8]) -> Option<Word>
    ensures { result ≡ word_meant letters.now }
{
    match keyword(letters) {
        Some(word) => Some(word),
        None => {
            if is_reserved(letters) {
                Some(Word::Reserved)
            } else {
                None
            }
        }
    }
}

// A name behind a point that is no method.
fn other_property(letters: &[u8]) -> Option<Property>
    ensures { result ≡ named property_names letters.now }
{
    if letters == b"length".as_slice() {
        Some(Property::Length)
    } else if letters == b"description".as_slice() {
        Some(Property::Description)
    } else if letters == b"fromCharCode".as_slice() {
        Some(Property::FromCharCode)
    } else if letters == b"fromCodePoint".as_slice() {
        Some(Property::FromCodePoint)
    } else if letters == b"keyFor".as_slice() {
        Some(Property::KeyFor)
    } else if letters == b"stringify".as_slice() {
        Some(Property::Stringify)
    } else if letters == b"keys".as_slice() {
        Some(Property::Keys)
    } else {
        None
    }
}

/// What a name means behind a point.
pub(crate) fn property_named(letters: &[u8]) -> Property
    ensures { result ≡ word_property letters.now }
{
    if let Some(property) = other_property(letters) {
        return property;
    }
    match Method::of_word(letters) {
        Some(method) => Property::Method(method),
        None => Property::Nothing,
    }
}
