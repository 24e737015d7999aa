// Conversions of values (ECMA-262, "Type Conversion").
ghost use Rattle.std.specs.Prelude.{◌≡◌, ◌+◌, ◌≤◌, [], length, IfOk, OnOk, None};
ghost use Rattle.js_number.specs.Places.{IsLawful};
ghost use Rattle.js_number.specs.Arith.{text_of};
ghost use Rattle.js_store.specs.State.{NamesUnits, Grows, IsKnown, IsSettled, text};
ghost use Rattle.js_store.specs.Faults.{Uses};
ghost use Rattle.js_texts.specs.Answers.{ThrowsLong, full_of};
ghost use Rattle.js_texts.specs.Use.{made_words};
ghost use Rattle.js_store.specs.Rows.{wide_words, settle_words};
ghost use Rattle.js_item.specs.Contents;
ghost use Rattle.eval_values.specs.Outcome.{each, fails};
ghost use Rattle.eval_values.specs.Conversions.{spelled, to_string, is_text, to_number, to_boolean, number_truth, list_string, own_to_string, comma_joined, text_units};
ghost use Rattle.js_texts.specs.Texts.{known_texts as texts_seen, Every, AllKnown, AllSettled, settle_most};
ghost use Rattle.eval_values.specs.Stops.{converted_of, ending_of};
ghost use Rattle.js_item.specs.Seen.{seen, says, fields_mapped};
ghost use Rattle.js_item.specs.Fine.{IsFine, FineFields, strings_of};
ghost use Rattle.eval_values.specs.Seen.{all_seen, AllFine};
ghost use Rattle.eval_values.specs.Does.{GivesText, GivesTexts, string_words};
ghost use Rattle.eval_values.specs.Settled.{IsTextOf, ElementsSettled};

use crate::lists::push;
use crate::value::{Abrupt, Kind, Stop, Value};
use js_item::Object;
use js_number::{Num, write_text};
use js_store::Strings;
use js_texts::MethodFault;
use std::alloc::Global;

/// ToString of a value. A string is its own; the elements of an array are settled, and so is a string
/// that is made here, which is short unless it is an array's.
pub fn to_text<S: Strings>(
    alloc: Global,
    store: &mut S,
    value: &Value<S::Ref>,
) -> Result<S::Ref, Stop>
    requires { IsFine (S.state store.old) S.number value.now }
    ensures grows { Grows (S.state store.old) (S.state store.new) }
    ensures known { IfOk result (λ r. IsKnown (S.state store.new) (S.number r)) }
    ensures short { IfOk result
        (λ r. length (text (S.state store.new) (S.number r))
        ≤ text_units (seen (S.state store.old) S.number value.now) + 40) }
    ensures settles { IfOk result
        (λ r. settle_words ((S.state store.new).settled (S.number r))
        (length (text (S.state store.new) (S.number r)))
        ≤ wide_words (text_units (seen (S.state store.old) S.number value.now))) }
    ensures own { IfOk result (λ r. IsTextOf (S.state store.new) S.number value.now (S.number r)) }
    ensures did { GivesText S.number (S.state store.old) (S.state store.new) result
        (to_string (S.state store.old).limit (seen (S.state store.old) S.number value.now)) }
{
    match value {
        Value::Undefined => word(store, "undefined"),
        Value::Null => word(store, "null"),
        Value::Bool(true) => word(store, "true"),
        Value::Bool(false) => word(store, "false"),
        Value::Number(n) => number_text(store, *n),
        Value::Text(s) => Ok(*s),
        Value::Symbol(_) => Err(Stop::Threw(Kind::TypeError)),
        Value::List(list) => list_text(alloc, store, list),
        Value::Object(object) => object_text(store, object),
    }
}

// ToString of an array of these strings: they are joined by commas.
fn list_text<S: Strings>(alloc: Global, store: &mut S, list: &[S::Ref]) -> Result<S::Ref, Stop>
    requires { AllKnown (S.state store.old) S.number list.now }
    ensures grows { Grows (S.state store.old) (S.state store.new) }
    ensures known { IfOk result (λ r. IsKnown (S.state store.new) (S.number r)) }
    ensures is { IfOk result
        (λ r. text (S.state store.new) (S.number r)
        ≡ comma_joined (texts_seen (S.state store.old) S.number list.now)) }
    ensures settled { IfOk result (λ r. IsSettled (S.state store.new) (S.number r)) }
    ensures read { OnOk result (AllSettled (S.state store.new) S.number list.now) }
    ensures did { GivesText S.number (S.state store.old) (S.state store.new) result
        (list_string (S.state store.old).limit (texts_seen (S.state store.old) S.number list.now)) }
{
    Ok(joined_by_commas(alloc, store, list)?)
}

// ToString of an object, whose own `toString` would be no function.
fn object_text<S: Strings>(store: &mut S, object: &Object<S::Ref>) -> Result<S::Ref, Stop>
    requires { FineFields (strings_of (S.state store.old)) S.number object.now }
    ensures grows { Grows (S.state store.old) (S.state store.new) }
    ensures known { IfOk result (λ r. IsKnown (S.state store.new) (S.number r)) }
    ensures short { IfOk result (λ r. length (text (S.state store.new) (S.number r)) ≤ 40) }
    ensures settled { IfOk result (λ r. IsSettled (S.state store.new) (S.number r)) }
    ensures did { GivesText S.number (S.state store.old) (S.state store.new) result
        (to_string (S.state store.old).limit
        (Contents.object (fields_mapped (says (S.state store.old) S.number) object.now))) }
{
    if has_to_string(store, object) {
        Err(Stop::Threw(Kind::TypeError))
    } else {
        word(store, "[object Object]")
    }
}

// Whether an object has an own property `toString`.
fn has_to_string<S: Strings>(store: &mut S, object: &Object<S::Ref>) -> bool
    requires { FineFields (strings_of (S.state store.old)) S.number object.now }
    ensures value { result ≡ own_to_string
        (fields_mapped (says (S.state store.old) S.number) object.now) }
    ensures uses { Uses (S.state store.old) (S.state store.new) None 0 0 }
{
    object.has(store, &[0x74, 0x6F, 0x53, 0x74, 0x72, 0x69, 0x6E, 0x67])
}

/// The strings joined by commas. Each of them is settled.
#[tactic(auto, using(js_texts::proofs::Lists::texts_still, js_texts::proofs::Lists::settle_still))]
pub fn joined_by_commas<S: Strings>(
    alloc: Global,
    store: &mut S,
    list: &[S::Ref],
) -> Result<S::Ref, MethodFault>
    requires { AllKnown (S.state store.old) S.number list.now }
    ensures value { IfOk result
        (λ r. NamesUnits (S.state store.new) (S.number r)
        (comma_joined (texts_seen (S.state store.old) S.number list.now))) }
    ensures settled { IfOk result (λ r. IsSettled (S.state store.new) (S.number r)) }
    ensures read { OnOk result (AllSettled (S.state store.new) S.number list.now) }
    ensures throws { ThrowsLong result (S.state store.old).limit
        (length (comma_joined (texts_seen (S.state store.old) S.number list.now))) }
    ensures uses { Uses (S.state store.old) (S.state store.new) (full_of result)
        2 (settle_most (S.state store.old) S.number list.now + made_words (S.state store.old).limit
        (comma_joined (texts_seen (S.state store.old) S.number list.now)) + 1) }
{
    let comma = store.from_units(&[0x2C])?;
    js_texts::join(alloc, store, list, comma)
}

fn word<S: Strings>(store: &mut S, word: &str) -> Result<S::Ref, Stop>
    requires { length word.now ≤ 40 }
    ensures grows { Grows (S.state store.old) (S.state store.new) }
    ensures known { IfOk result (λ r. IsKnown (S.state store.new) (S.number r)) }
    ensures short { IfOk result (λ r. length (text (S.state store.new) (S.number r)) ≤ 40) }
    ensures settled { IfOk result (λ r. IsSettled (S.state store.new) (S.number r)) }
    ensures did { GivesText S.number (S.state store.old) (S.state store.new) result (spelled word.now) }
{
    let mut room = [0; 40];
    let count = write_text(&mut room, word);
    spell(store, &room[..count])
}

// The string of a number.
pub(crate) fn number_text<S: Strings>(store: &mut S, n: Num) -> Result<S::Ref, Stop>
    requires { IsLawful n }
    ensures grows { Grows (S.state store.old) (S.state store.new) }
    ensures known { IfOk result (λ r. IsKnown (S.state store.new) (S.number r)) }
    ensures short { IfOk result (λ r. length (text (S.state store.new) (S.number r)) ≤ 40) }
    ensures settled { IfOk result (λ r. IsSettled (S.state store.new) (S.number r)) }
    ensures did { GivesText S.number (S.state store.old) (S.state store.new) result (spelled (text_of n)) }
{
    let mut room = [0; 40];
    let count = n.write_digits(&mut room);
    spell(store, &room[..count])
}

fn spell<S: Strings>(store: &mut S, units: &[u16]) -> Result<S::Ref, Stop>
    requires { length units.now ≤ 40 }
    ensures grows { Grows (S.state store.old) (S.state store.new) }
    ensures known { IfOk result (λ r. IsKnown (S.state store.new) (S.number r)) }
    ensures short { IfOk result (λ r. length (text (S.state store.new) (S.number r)) ≤ 40) }
    ensures settled { IfOk result (λ r. IsSettled (S.state store.new) (S.number r)) }
    ensures did { GivesText S.number (S.state store.old) (S.state store.new) result (spelled units.now) }
{
    Ok(store.from_units(units)?)
}

/// Whether a value is a string, or an array or an object, whose primitive value is one.
pub fn is_string<S: Strings>(_store: &S, value: &Value<S::Ref>) -> bool
    ensures { result ≡ is_text (seen (S.state _store.now) S.number value.now) }
{
    match value {
        Value::Text(_) | Value::List(_) | Value::Object(_) => true,
        Value::Undefined | Value::Null | Value::Bool(_) | Value::Number(_) | Value::Symbol(_) =>
            false,
    }
}

/// ToNumber of a value, in an operation at the byte offset `at`. Of an object it reads the keys.
pub fn number_of<S: Strings>(store: &mut S, at: u32, value: &Value<S::Ref>) -> Result<Num, Abrupt>
    requires { IsFine (S.state store.old) S.number value.now }
    ensures value { converted_of result ≡ to_number at (seen (S.state store.old) S.number value.now) }
    ensures lawful { IfOk result IsLawful }
    ensures same { IfOk result (λ _. S.state store.new ≡ S.state store.old) }
    ensures uses { Uses (S.state store.old) (S.state store.new) None 0 0 }
{
    match value {
        Value::Undefined => Ok(Num::NaN),
        Value::Null => Ok(Num::Int(0)),
        Value::Bool(true) => Ok(Num::Int(1)),
        Value::Bool(false) => Ok(Num::Int(0)),
        Value::Number(n) => Ok(*n),
        Value::Text(_) | Value::List(_) => Err(Abrupt::Unsupported { at }),
        Value::Symbol(_) => Err(Abrupt::Threw(Kind::TypeError)),
        Value::Object(object) => Err(abrupt_of_object(store, at, object)),
    }
}

// Why an object becomes no number.
pub(crate) fn abrupt_of_object<S: Strings>(
    store: &mut S,
    at: u32,
    object: &Object<S::Ref>,
) -> Abrupt
    requires { FineFields (strings_of (S.state store.old)) S.number object.now }
    ensures value { fails (ending_of result) ≡ to_number at
        (Contents.object (fields_mapped (says (S.state store.old) S.number) object.now)) }
    ensures uses { Uses (S.state store.old) (S.state store.new) None 0 0 }
{
    if has_to_string(store, object) {
        Abrupt::Threw(Kind::TypeError)
    } else {
        Abrupt::Unsupported { at }
    }
}

/// ToBoolean of a value.
pub fn truth<S: Strings>(store: &mut S, value: &Value<S::Ref>) -> bool
    requires { IsFine (S.state store.old) S.number value.now }
    ensures value { result ≡ to_boolean (seen (S.state store.old) S.number value.now) }
    ensures uses { Uses (S.state store.old) (S.state store.new) None 0 0 }
{
    match value {
        Value::Undefined | Value::Null => false,
        Value::Bool(b) => *b,
        Value::Number(n) => is_nonzero(*n),
        Value::Text(s) => store.len(*s) != 0,
        Value::Symbol(_) | Value::List(_) | Value::Object(_) => true,
    }
}

fn is_nonzero(n: Num) -> bool
    ensures { result ≡ number_truth n }
{
    match n {
        Num::Int(n) => n != 0,
        Num::NaN => false,
        Num::PosInf | Num::NegInf => true,
    }
}

/// ToString of values, from left to right. The elements of arrays are settled.
pub fn texts<S: Strings>(
    alloc: Global,
    store: &mut S,
    values: &[Value<S::Ref>],
) -> Result<Vec<S::Ref>, Stop>
    requires { AllFine (S.state store.old) S.number values.now }
    ensures grows { Grows (S.state store.old) (S.state store.new) }
    ensures known { IfOk result (λ v. AllKnown (S.state store.new) S.number v.items) }
    ensures settles { IfOk result
        (λ v. settle_most (S.state store.new) S.number v.items
        ≤ string_words (all_seen (S.state store.old) S.number values.now)) }
    ensures read { OnOk result (Every (λ v. ElementsSettled (S.state store.new) S.number v) values.now) }
    ensures did { GivesTexts S.number (S.state store.old) (S.state store.new) result
        (each (to_string (S.state store.old).limit) (all_seen (S.state store.old) S.number values.now)) }
{
    let mut texts = Vec::new(alloc);
    for value in values {
        let text = to_text(alloc, store, value)?;
        push(&mut texts, text)?;
    }
    Ok(texts)
}
