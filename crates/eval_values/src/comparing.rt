// Comparisons of values (ECMA-262, "IsStrictlyEqual", "IsLessThan").
ghost use Rattle.std.specs.Prelude.{◌≡◌, ◌+◌, length, OnOk, bytes_eq, true, Some, not, if◌then◌else◌};
ghost use Rattle.js_number.specs.Places.{IsLawful};
ghost use Rattle.js_search.specs.Order.{units_cmp};
ghost use Rattle.js_store.specs.State.{Grows, IsKnown, IsSettled, text};
ghost use Rattle.js_store.specs.Rows.{wide_words};
ghost use Rattle.js_store.specs.Faults.{fault_of, Uses};
ghost use Rattle.js_item.specs.Contents;
ghost use Rattle.js_texts.specs.Texts.{known_texts as texts_seen};
ghost use Rattle.eval_values.specs.Outcome.{gave, free, converts};
ghost use Rattle.eval_values.specs.Need.{nothing};
ghost use Rattle.eval_values.specs.Conversions.{to_number};
ghost use Rattle.eval_values.specs.Operators.{paired};
ghost use Rattle.eval_values.specs.Comparing;
ghost use Rattle.eval_values.specs.Comparing.{compared, same_out, order_out, order_primitives, number_order};
ghost use Rattle.js_item.specs.Seen.{seen, says, fields_mapped};
ghost use Rattle.js_item.specs.Fine.{IsFine};
ghost use Rattle.eval_values.specs.Seen.{IsKey, TextSettled, OneOrSettled, TextRead, TextsRead};
ghost use Rattle.eval_values.specs.Does.{GivesPlain};
ghost use Rattle.eval_values.specs.Settled.{StringsSettled};

use crate::operators::{to_primitive, two_numbers};
use crate::value::{Stop, Value};
use js_item::Object;
use js_number::Num;
use js_store::{StoreFault, Strings};
use std::alloc::Global;
use std::cmp::Ordering;

/// `===` of two values, at the byte offset `at`. Two strings are settled, unless the store reports one
/// number of both: then nothing is read.
pub fn is_same<S: Strings>(
    store: &mut S,
    at: u32,
    left: &Value<S::Ref>,
    right: &Value<S::Ref>,
) -> Result<bool, Stop>
    requires left { IsFine (S.state store.old) S.number left.now }
    requires right { IsFine (S.state store.old) S.number right.now }
    ensures grows { Grows (S.state store.old) (S.state store.new) }
    ensures read { OnOk result (TextsRead (S.state store.new) S.number left.now right.now) }
    ensures did { GivesPlain (S.state store.old) (S.state store.new) result (same_out at
        (seen (S.state store.old) S.number left.now) (seen (S.state store.old) S.number right.now)) }
{
    match left {
        Value::Undefined => is_undefined_too(store, at, right),
        Value::Null => is_null_too(store, at, right),
        Value::Bool(b) => is_bool_too(store, at, *b, right),
        Value::Number(n) => is_number_too(store, at, *n, right),
        Value::Text(s) => is_text_too(store, at, *s, right),
        Value::Symbol(s) => is_symbol_too(store, at, *s, right),
        Value::List(list) => is_list_too(store, at, list, right),
        Value::Object(object) => is_object_too(store, at, object, right),
    }
}

fn is_undefined_too<S: Strings>(_store: &S, _at: u32, value: &Value<S::Ref>) -> Result<bool, Stop>
    ensures { GivesPlain (S.state _store.now) (S.state _store.now) result
        (same_out _at Contents.undefined (seen (S.state _store.now) S.number value.now)) }
{
    match value {
        Value::Undefined => Ok(true),
        Value::Null
        | Value::Bool(_)
        | Value::Number(_)
        | Value::Text(_)
        | Value::Symbol(_)
        | Value::List(_)
        | Value::Object(_) => Ok(false),
    }
}

fn is_null_too<S: Strings>(_store: &S, _at: u32, value: &Value<S::Ref>) -> Result<bool, Stop>
    ensures { GivesPlain (S.state _store.now) (S.state _store.now) result
        (same_out _at Contents.null (seen (S.state _store.now) S.number value.now)) }
{
    match value {
        Value::Null => Ok(true),
        Value::Undefined
        | Value::Bool(_)
        | Value::Number(_)
        | Value::Text(_)
        | Value::Symbol(_)
        | Value::List(_)
        | Value::Object(_) => Ok(false),
    }
}

fn is_bool_too<S: Strings>(
    _store: &S,
    _at: u32,
    b: bool,
    value: &Value<S::Ref>,
) -> Result<bool, Stop>
    ensures { GivesPlain (S.state _store.now) (S.state _store.now) result
        (same_out _at (Contents.bool b) (seen (S.state _store.now) S.number value.now)) }
{
    match value {
        Value::Bool(other) => Ok(same_bool(b, *other)),
        Value::Undefined
        | Value::Null
        | Value::Number(_)
        | Value::Text(_)
        | Value::Symbol(_)
        | Value::List(_)
        | Value::Object(_) => Ok(false),
    }
}

fn same_bool(b: bool, other: bool) -> bool
    ensures { result ≡ (if b then other else not other) }
{
    if b { other } else { !other }
}

fn is_number_too<S: Strings>(
    _store: &S,
    _at: u32,
    n: Num,
    value: &Value<S::Ref>,
) -> Result<bool, Stop>
    requires number { IsLawful n }
    requires value { IsFine (S.state _store.now) S.number value.now }
    ensures { GivesPlain (S.state _store.now) (S.state _store.now) result
        (same_out _at (Contents.number n) (seen (S.state _store.now) S.number value.now)) }
{
    match value {
        Value::Number(other) => Ok(is_equal(order_of(n, *other))),
        Value::Undefined
        | Value::Null
        | Value::Bool(_)
        | Value::Text(_)
        | Value::Symbol(_)
        | Value::List(_)
        | Value::Object(_) => Ok(false),
    }
}

/// Whether two values of this order are equal.
pub fn is_equal(order: Option<Ordering>) -> bool
    ensures { result ≡ Comparing.is_equal order }
{
    match order {
        Some(Ordering::Equal) => true,
        Some(Ordering::Less) | Some(Ordering::Greater) | None => false,
    }
}

fn is_text_too<S: Strings>(
    store: &mut S,
    _at: u32,
    s: S::Ref,
    value: &Value<S::Ref>,
) -> Result<bool, Stop>
    requires string { IsKnown (S.state store.old) (S.number s) }
    requires value { IsFine (S.state store.old) S.number value.now }
    ensures grows { Grows (S.state store.old) (S.state store.new) }
    ensures read { OnOk result (TextRead (S.state store.new) S.number (S.number s) value.now) }
    ensures did { GivesPlain (S.state store.old) (S.state store.new) result
        (same_out _at (Contents.text (text (S.state store.old) (S.number s)))
        (seen (S.state store.old) S.number value.now)) }
{
    match value {
        Value::Text(other) => same_texts(store, s, *other),
        Value::Undefined
        | Value::Null
        | Value::Bool(_)
        | Value::Number(_)
        | Value::Symbol(_)
        | Value::List(_)
        | Value::Object(_) => Ok(false),
    }
}

// There is one interned string of each key.
fn is_symbol_too<S: Strings>(
    store: &mut S,
    _at: u32,
    key: S::Ref,
    value: &Value<S::Ref>,
) -> Result<bool, Stop>
    requires key { IsKey (S.state store.old) (S.number key) }
    requires value { IsFine (S.state store.old) S.number value.now }
    ensures grows { Grows (S.state store.old) (S.state store.new) }
    ensures did { GivesPlain (S.state store.old) (S.state store.new) result
        (same_out _at (Contents.symbol (text (S.state store.old) (S.number key)))
        (seen (S.state store.old) S.number value.now)) }
{
    match value {
        Value::Symbol(other) => Ok(store.same(key, *other)),
        Value::Undefined
        | Value::Null
        | Value::Bool(_)
        | Value::Number(_)
        | Value::Text(_)
        | Value::List(_)
        | Value::Object(_) => Ok(false),
    }
}

fn is_list_too<S: Strings>(
    _store: &S,
    at: u32,
    _list: &[S::Ref],
    value: &Value<S::Ref>,
) -> Result<bool, Stop>
    ensures { GivesPlain (S.state _store.now) (S.state _store.now) result
        (same_out at (Contents.list (texts_seen (S.state _store.now) S.number _list.now))
        (seen (S.state _store.now) S.number value.now)) }
{
    match value {
        Value::List(_) => Err(Stop::Unsupported { at }),
        Value::Undefined
        | Value::Null
        | Value::Bool(_)
        | Value::Number(_)
        | Value::Text(_)
        | Value::Symbol(_)
        | Value::Object(_) => Ok(false),
    }
}

fn is_object_too<S: Strings>(
    _store: &S,
    at: u32,
    _object: &Object<S::Ref>,
    value: &Value<S::Ref>,
) -> Result<bool, Stop>
    ensures { GivesPlain (S.state _store.now) (S.state _store.now) result
        (same_out at (Contents.object (fields_mapped (says (S.state _store.now) S.number) _object.now))
        (seen (S.state _store.now) S.number value.now)) }
{
    match value {
        Value::Object(_) => Err(Stop::Unsupported { at }),
        Value::Undefined
        | Value::Null
        | Value::Bool(_)
        | Value::Number(_)
        | Value::Text(_)
        | Value::Symbol(_)
        | Value::List(_) => Ok(false),
    }
}

fn same_texts<S: Strings>(store: &mut S, a: S::Ref, b: S::Ref) -> Result<bool, Stop>
    requires left { IsKnown (S.state store.old) (S.number a) }
    requires right { IsKnown (S.state store.old) (S.number b) }
    ensures grows { Grows (S.state store.old) (S.state store.new) }
    ensures read { OnOk result (OneOrSettled (S.state store.new) (S.number a) (S.number b)) }
    ensures did { GivesPlain (S.state store.old) (S.state store.new) result
        (compared (bytes_eq (text (S.state store.old) (S.number a)) (text (S.state store.old) (S.number b)))
        (text (S.state store.old) (S.number a)) (text (S.state store.old) (S.number b))) }
{
    if is_one(store, a, b) {
        return Ok(true);
    }
    settle_both(store, a, b)?;
    Ok(js_search::equal(store, a, b))
}

// Whether the store reports one number for both, so that they name one string.
fn is_one<S: Strings>(store: &S, a: S::Ref, b: S::Ref) -> bool
    ensures { result ≡ true → S.number a ≡ S.number b }
{
    match store.id_of(a) {
        Some(number) => store.id_of(b) == Some(number),
        None => false,
    }
}

// Both strings are settled afterwards.
fn settle_both<S: Strings>(store: &mut S, a: S::Ref, b: S::Ref) -> Result<(), StoreFault>
    requires left { IsKnown (S.state store.old) (S.number a) }
    requires right { IsKnown (S.state store.old) (S.number b) }
    ensures left_settled { OnOk result (IsSettled (S.state store.new) (S.number a)) }
    ensures right_settled { OnOk result (IsSettled (S.state store.new) (S.number b)) }
    ensures uses { Uses (S.state store.old) (S.state store.new) (fault_of result)
        0 (wide_words (length (text (S.state store.old) (S.number a)))
        + wide_words (length (text (S.state store.old) (S.number b)))) }
{
    store.settle(a)?;
    store.settle(b)
}

/// The order of two numbers, none where one is NaN.
pub fn order_of(a: Num, b: Num) -> Option<Ordering>
    requires left { IsLawful a }
    requires right { IsLawful b }
    ensures { result ≡ number_order a b }
{
    match a.less(b) {
        Some(true) => Some(Ordering::Less),
        Some(false) => match b.less(a) {
            Some(true) => Some(Ordering::Greater),
            Some(false) => Some(Ordering::Equal),
            None => None,
        },
        None => None,
    }
}

/// The order of two values, of which arrays and objects become strings first; none where one is NaN.
/// Strings and the elements of arrays are settled.
pub fn compare<S: Strings>(
    alloc: Global,
    store: &mut S,
    at: u32,
    left: &Value<S::Ref>,
    right: &Value<S::Ref>,
) -> Result<Option<Ordering>, Stop>
    requires left { IsFine (S.state store.old) S.number left.now }
    requires right { IsFine (S.state store.old) S.number right.now }
    ensures grows { Grows (S.state store.old) (S.state store.new) }
    ensures left_settled { OnOk result (StringsSettled (S.state store.new) S.number left.now) }
    ensures right_settled { OnOk result (StringsSettled (S.state store.new) S.number right.now) }
    ensures did { GivesPlain (S.state store.old) (S.state store.new) result
        (order_out at (S.state store.old).limit
        (seen (S.state store.old) S.number left.now) (seen (S.state store.old) S.number right.now)) }
{
    let first = to_primitive(alloc, store, left)?;
    let second = to_primitive(alloc, store, right)?;
    compare_primitives(store, at, &first, &second)
}

fn compare_primitives<S: Strings>(
    store: &mut S,
    at: u32,
    left: &Value<S::Ref>,
    right: &Value<S::Ref>,
) -> Result<Option<Ordering>, Stop>
    requires left { IsFine (S.state store.old) S.number left.now }
    requires right { IsFine (S.state store.old) S.number right.now }
    ensures grows { Grows (S.state store.old) (S.state store.new) }
    ensures left_settled { OnOk result (TextSettled (S.state store.new) S.number left.now) }
    ensures right_settled { OnOk result (TextSettled (S.state store.new) S.number right.now) }
    ensures did { GivesPlain (S.state store.old) (S.state store.new) result
        (order_primitives at (seen (S.state store.old) S.number left.now)
        (seen (S.state store.old) S.number right.now)) }
{
    match left {
        Value::Text(s) => compare_text(store, at, *s, right),
        Value::Undefined
        | Value::Null
        | Value::Bool(_)
        | Value::Number(_)
        | Value::Symbol(_)
        | Value::List(_)
        | Value::Object(_) => compare_numbers(store, at, left, right),
    }
}

// The order of a string and a value.
fn compare_text<S: Strings>(
    store: &mut S,
    at: u32,
    s: S::Ref,
    right: &Value<S::Ref>,
) -> Result<Option<Ordering>, Stop>
    requires left { IsKnown (S.state store.old) (S.number s) }
    requires right { IsFine (S.state store.old) S.number right.now }
    ensures grows { Grows (S.state store.old) (S.state store.new) }
    ensures left_settled { OnOk result (IsSettled (S.state store.new) (S.number s)) }
    ensures right_settled { OnOk result (TextSettled (S.state store.new) S.number right.now) }
    ensures did { GivesPlain (S.state store.old) (S.state store.new) result
        (order_primitives at (Contents.text (text (S.state store.old) (S.number s)))
        (seen (S.state store.old) S.number right.now)) }
{
    match right {
        Value::Text(other) => compare_texts(store, s, *other),
        Value::Undefined
        | Value::Null
        | Value::Bool(_)
        | Value::Number(_)
        | Value::Symbol(_)
        | Value::List(_)
        | Value::Object(_) => compare_numbers(store, at, &Value::Text(s), right),
    }
}

fn compare_texts<S: Strings>(store: &mut S, a: S::Ref, b: S::Ref) -> Result<Option<Ordering>, Stop>
    requires left { IsKnown (S.state store.old) (S.number a) }
    requires right { IsKnown (S.state store.old) (S.number b) }
    ensures grows { Grows (S.state store.old) (S.state store.new) }
    ensures left_settled { OnOk result (IsSettled (S.state store.new) (S.number a)) }
    ensures right_settled { OnOk result (IsSettled (S.state store.new) (S.number b)) }
    ensures did { GivesPlain (S.state store.old) (S.state store.new) result
        (compared (Some
        (units_cmp (text (S.state store.old) (S.number a)) (text (S.state store.old) (S.number b))))
        (text (S.state store.old) (S.number a)) (text (S.state store.old) (S.number b))) }
{
    settle_both(store, a, b)?;
    Ok(Some(js_search::compare(store, a, b)))
}

// Both sides as numbers, where a symbol on the right goes before a string on the left.
fn compare_numbers<S: Strings>(
    store: &mut S,
    at: u32,
    left: &Value<S::Ref>,
    right: &Value<S::Ref>,
) -> Result<Option<Ordering>, Stop>
    requires left { IsFine (S.state store.old) S.number left.now }
    requires right { IsFine (S.state store.old) S.number right.now }
    ensures grows { Grows (S.state store.old) (S.state store.new) }
    ensures left_settled { OnOk result (TextSettled (S.state store.new) S.number left.now) }
    ensures right_settled { OnOk result (TextSettled (S.state store.new) S.number right.now) }
    ensures did { GivesPlain (S.state store.old) (S.state store.new) result
        (converts nothing (paired (to_number at (seen (S.state store.old) S.number left.now))
        (to_number at (seen (S.state store.old) S.number right.now)))
        (λ p. gave (number_order p.0 p.1) free)) }
{
    let (m, n) = two_numbers(store, at, left, right)?;
    Ok(order_of(m, n))
}
