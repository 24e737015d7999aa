// Elements of values (ECMA-262, "Property Accessors").
ghost use Rattle.std.specs.Prelude.{◌≡◌, length, slice_get, IfOk, OnOk, Some};
ghost use Rattle.js_number.specs.Places.{IsLawful};
ghost use Rattle.js_store.specs.State.{Grows, IsKnown, text};
ghost use Rattle.js_texts.specs.Texts.{known_texts as texts_seen, AllKnown};
ghost use Rattle.eval_members.specs.Indexing.{unit_at, element_at, indexed};
ghost use Rattle.eval_members.specs.Places.{maybe_text, element as read_element};
ghost use Rattle.eval_members.specs.Settled.{as_number, IndexSettles, KeySettled, UnitSettled};
ghost use Rattle.js_item.specs.Contents;
ghost use Rattle.js_item.specs.Seen.{seen};
ghost use Rattle.js_item.specs.Fine.{IsFine};
ghost use Rattle.eval_values.specs.Does.{GivesValue};

use crate::properties::read_indexed;
use eval_values::{Kind, Stop, Value};
use js_number::Num;
use js_store::Strings;
use std::alloc::Global;

/// The element of a value at an index that was evaluated; `at` is the byte offset of the bracket.
pub fn read_index<S: Strings>(
    alloc: Global,
    store: &mut S,
    at: u32,
    value: &Value<S::Ref>,
    index: &Value<S::Ref>,
) -> Result<Value<S::Ref>, Stop>
    requires value { IsFine (S.state store.old) S.number value.now }
    requires index { IsFine (S.state store.old) S.number index.now }
    ensures grows { Grows (S.state store.old) (S.state store.new) }
    ensures fine { IfOk result (λ v. IsFine (S.state store.new) S.number v) }
    ensures settled { OnOk result (IndexSettles (S.state store.old) (S.state store.new) S.number value.now
        (as_number (seen (S.state store.old) S.number index.now))) }
    ensures key_settled { OnOk result (KeySettled (S.state store.new) S.number value.now index.now) }
    ensures did { GivesValue S.number (S.state store.old) (S.state store.new) result
        (indexed at (S.state store.old).limit (seen (S.state store.old) S.number value.now)
        (seen (S.state store.old) S.number index.now)) }
{
    match value {
        Value::Undefined | Value::Null => Err(Stop::Threw(Kind::TypeError)),
        Value::Bool(_) | Value::Number(_) | Value::Symbol(_) => match index {
            Value::Number(_) => Ok(Value::Undefined),
            Value::Undefined
            | Value::Null
            | Value::Bool(_)
            | Value::Text(_)
            | Value::Symbol(_)
            | Value::List(_)
            | Value::Object(_) => Err(Stop::Unsupported { at }),
        },
        Value::Text(s) => unit_by(store, at, *s, index),
        Value::List(list) => element_by(store, at, list, index),
        Value::Object(object) => read_indexed(alloc, store, at, object, index),
    }
}

// The one unit of a string at an index that was evaluated.
fn unit_by<S: Strings>(
    store: &mut S,
    at: u32,
    s: S::Ref,
    index: &Value<S::Ref>,
) -> Result<Value<S::Ref>, Stop>
    requires known { IsKnown (S.state store.old) (S.number s) }
    requires index { IsFine (S.state store.old) S.number index.now }
    ensures grows { Grows (S.state store.old) (S.state store.new) }
    ensures fine { IfOk result (λ v. IsFine (S.state store.new) S.number v) }
    ensures settled { OnOk result (UnitSettled (S.state store.new) (S.number s)
        (text (S.state store.old) (S.number s)) (as_number (seen (S.state store.old) S.number index.now))) }
    ensures did { GivesValue S.number (S.state store.old) (S.state store.new) result
        (indexed at (S.state store.old).limit (Contents.text (text (S.state store.old) (S.number s)))
        (seen (S.state store.old) S.number index.now)) }
{
    match index {
        Value::Number(n) => unit(store, s, *n),
        Value::Undefined
        | Value::Null
        | Value::Bool(_)
        | Value::Text(_)
        | Value::Symbol(_)
        | Value::List(_)
        | Value::Object(_) => Err(Stop::Unsupported { at }),
    }
}

// The one unit of a string at an index.
fn unit<S: Strings>(store: &mut S, s: S::Ref, index: Num) -> Result<Value<S::Ref>, Stop>
    requires known { IsKnown (S.state store.old) (S.number s) }
    requires lawful { IsLawful index }
    ensures grows { Grows (S.state store.old) (S.state store.new) }
    ensures fine { IfOk result (λ v. IsFine (S.state store.new) S.number v) }
    ensures settled { OnOk result (UnitSettled (S.state store.new) (S.number s)
        (text (S.state store.old) (S.number s)) (Some index)) }
    ensures did { GivesValue S.number (S.state store.old) (S.state store.new) result
        (read_element (length (text (S.state store.old) (S.number s)))
        (maybe_text (unit_at (text (S.state store.old) (S.number s)) index))) }
{
    match index {
        Num::Int(k) if k >= 0 => match js_methods::places::at(store, s, Num::Int(k))? {
            Some(r) => Ok(Value::Text(r)),
            None => Ok(Value::Undefined),
        },
        Num::Int(_) | Num::NaN | Num::PosInf | Num::NegInf => Ok(Value::Undefined),
    }
}

// The element of an array at an index that was evaluated.
fn element_by<S: Strings>(
    store: &S,
    at: u32,
    list: &[S::Ref],
    index: &Value<S::Ref>,
) -> Result<Value<S::Ref>, Stop>
    requires known { AllKnown (S.state store.now) S.number list.now }
    ensures fine { IfOk result (λ v. IsFine (S.state store.now) S.number v) }
    ensures did { GivesValue S.number (S.state store.now) (S.state store.now) result
        (indexed at (S.state store.now).limit
        (Contents.list (texts_seen (S.state store.now) S.number list.now))
        (seen (S.state store.now) S.number index.now)) }
{
    match index {
        Value::Number(n) => element(store, list, *n),
        Value::Undefined
        | Value::Null
        | Value::Bool(_)
        | Value::Text(_)
        | Value::Symbol(_)
        | Value::List(_)
        | Value::Object(_) => Err(Stop::Unsupported { at }),
    }
}

// The element of an array at an index.
fn element<S: Strings>(store: &S, list: &[S::Ref], index: Num) -> Result<Value<S::Ref>, Stop>
    requires known { AllKnown (S.state store.now) S.number list.now }
    ensures fine { IfOk result (λ v. IsFine (S.state store.now) S.number v) }
    ensures did { GivesValue S.number (S.state store.now) (S.state store.now) result
        (read_element 0 (maybe_text (element_at (texts_seen (S.state store.now) S.number list.now) index))) }
{
    match index {
        Num::Int(k) if k >= 0 => Ok(nth(store, list, k as u64)),
        Num::Int(_) | Num::NaN | Num::PosInf | Num::NegInf => Ok(Value::Undefined),
    }
}

// The element at a place, counted from 0.
fn nth<S: Strings>(_store: &S, list: &[S::Ref], place: u64) -> Value<S::Ref>
    requires { AllKnown (S.state _store.now) S.number list.now }
    ensures seen { seen (S.state _store.now) S.number result
        ≡ maybe_text (slice_get (texts_seen (S.state _store.now) S.number list.now) place) }
    ensures fine { IsFine (S.state _store.now) S.number result }
{
    match list.get(place as usize) {
        Some(s) => Value::Text(*s),
        None => Value::Undefined,
    }
}
