// The arguments of a call, and their conversions. A missing argument is undefined, and further
// ones are ignored.
ghost use Rattle.std.specs.Prelude.{◌≡◌, ◌+◌, ◌≤◌, length, IfOk, None};
ghost use Rattle.js_number.specs.Places.{IsLawful};
ghost use Rattle.js_store.specs.State.{Grows, IsKnown, text};
ghost use Rattle.js_store.specs.Faults.{Uses};
ghost use Rattle.eval_values.specs.Conversions.{to_number, to_string, first_text_units};
ghost use Rattle.eval_values.specs.Arguments.{first_of, second_of, is_undefined, end_in, second_units};
ghost use Rattle.eval_values.specs.Stops.{converted_of};
ghost use Rattle.js_item.specs.Seen.{seen};
ghost use Rattle.js_item.specs.Fine.{IsFine};
ghost use Rattle.eval_values.specs.Seen.{all_seen, AllFine, LawfulEnd};
ghost use Rattle.eval_values.specs.Does.{GivesText};
ghost use Rattle.eval_values.specs.Settled.{IsFirstText, IsSecondText};

use crate::conversions::{abrupt_of_object, number_of, to_text};
use crate::value::{Abrupt, Kind, Stop, Value};
use js_number::Num;
use js_store::Strings;
use std::alloc::Global;

/// ToString of the first argument.
pub fn first_text<S: Strings>(
    alloc: Global,
    store: &mut S,
    args: &[Value<S::Ref>],
) -> Result<S::Ref, Stop>
    requires { AllFine (S.state store.old) S.number args.now }
    ensures grows { Grows (S.state store.old) (S.state store.new) }
    ensures known { IfOk result (λ r. IsKnown (S.state store.new) (S.number r)) }
    ensures short { IfOk result
        (λ r. length (text (S.state store.new) (S.number r))
        ≤ first_text_units (all_seen (S.state store.old) S.number args.now) + 40) }
    ensures own { IfOk result (λ r. IsFirstText (S.state store.new) S.number args.now (S.number r)) }
    ensures did { GivesText S.number (S.state store.old) (S.state store.new) result
        (to_string (S.state store.old).limit (first_of (all_seen (S.state store.old) S.number args.now))) }
{
    match args {
        [first, ..] => to_text(alloc, store, first),
        [] => to_text(alloc, store, &Value::Undefined),
    }
}

/// ToString of the second argument.
pub fn second_text<S: Strings>(
    alloc: Global,
    store: &mut S,
    args: &[Value<S::Ref>],
) -> Result<S::Ref, Stop>
    requires { AllFine (S.state store.old) S.number args.now }
    ensures grows { Grows (S.state store.old) (S.state store.new) }
    ensures known { IfOk result (λ r. IsKnown (S.state store.new) (S.number r)) }
    ensures short { IfOk result
        (λ r. length (text (S.state store.new) (S.number r))
        ≤ second_units (all_seen (S.state store.old) S.number args.now) + 40) }
    ensures own { IfOk result (λ r. IsSecondText (S.state store.new) S.number args.now (S.number r)) }
    ensures did { GivesText S.number (S.state store.old) (S.state store.new) result
        (to_string (S.state store.old).limit (second_of (all_seen (S.state store.old) S.number args.now))) }
{
    match args {
        [_, second, ..] => to_text(alloc, store, second),
        _ => to_text(alloc, store, &Value::Undefined),
    }
}

/// Whether the first argument is undefined.
pub fn first_is_missing<S: Strings>(store: &S, args: &[Value<S::Ref>]) -> bool
    ensures { result ≡ is_undefined (first_of (all_seen (S.state store.now) S.number args.now)) }
{
    match args {
        [first, ..] => is_missing(store, first),
        [] => true,
    }
}

/// Whether the second argument is undefined.
pub fn second_is_missing<S: Strings>(store: &S, args: &[Value<S::Ref>]) -> bool
    ensures { result ≡ is_undefined (second_of (all_seen (S.state store.now) S.number args.now)) }
{
    match args {
        [_, second, ..] => is_missing(store, second),
        _ => true,
    }
}

fn is_missing<S: Strings>(_store: &S, value: &Value<S::Ref>) -> bool
    ensures { result ≡ is_undefined (seen (S.state _store.now) S.number value.now) }
{
    match value {
        Value::Undefined => true,
        Value::Null
        | Value::Bool(_)
        | Value::Number(_)
        | Value::Text(_)
        | Value::Symbol(_)
        | Value::List(_)
        | Value::Object(_) => false,
    }
}

/// ToNumber of the first argument, of a call at the byte offset `at`.
pub fn first_number<S: Strings>(
    store: &mut S,
    at: u32,
    args: &[Value<S::Ref>],
) -> Result<Num, Abrupt>
    requires { AllFine (S.state store.old) S.number args.now }
    ensures value { converted_of result ≡ to_number at
        (first_of (all_seen (S.state store.old) S.number args.now)) }
    ensures lawful { IfOk result IsLawful }
    ensures same { IfOk result (λ _. S.state store.new ≡ S.state store.old) }
    ensures uses { Uses (S.state store.old) (S.state store.new) None 0 0 }
{
    match args {
        [first, ..] => number_of(store, at, first),
        [] => Ok(Num::NaN),
    }
}

/// ToNumber of the second argument, of a call at the byte offset `at`.
pub fn second_number<S: Strings>(
    store: &mut S,
    at: u32,
    args: &[Value<S::Ref>],
) -> Result<Num, Abrupt>
    requires { AllFine (S.state store.old) S.number args.now }
    ensures value { converted_of result ≡ to_number at
        (second_of (all_seen (S.state store.old) S.number args.now)) }
    ensures lawful { IfOk result IsLawful }
    ensures same { IfOk result (λ _. S.state store.new ≡ S.state store.old) }
    ensures uses { Uses (S.state store.old) (S.state store.new) None 0 0 }
{
    match args {
        [_, second, ..] => number_of(store, at, second),
        _ => Ok(Num::NaN),
    }
}

/// ToNumber of the second argument, of a call at the byte offset `at`, where undefined is no number.
pub fn second_or_none<S: Strings>(
    store: &mut S,
    at: u32,
    args: &[Value<S::Ref>],
) -> Result<Option<Num>, Abrupt>
    requires { AllFine (S.state store.old) S.number args.now }
    ensures value { converted_of result ≡ end_in at
        (second_of (all_seen (S.state store.old) S.number args.now)) }
    ensures lawful { IfOk result LawfulEnd }
    ensures same { IfOk result (λ _. S.state store.new ≡ S.state store.old) }
    ensures uses { Uses (S.state store.old) (S.state store.new) None 0 0 }
{
    match args {
        [_, second, ..] => number_or_none(store, at, second),
        _ => Ok(None),
    }
}

fn number_or_none<S: Strings>(
    store: &mut S,
    at: u32,
    value: &Value<S::Ref>,
) -> Result<Option<Num>, Abrupt>
    requires { IsFine (S.state store.old) S.number value.now }
    ensures value { converted_of result ≡ end_in at (seen (S.state store.old) S.number value.now) }
    ensures lawful { IfOk result LawfulEnd }
    ensures same { IfOk result (λ _. S.state store.new ≡ S.state store.old) }
    ensures uses { Uses (S.state store.old) (S.state store.new) None 0 0 }
{
    match value {
        Value::Undefined => Ok(None),
        Value::Null => Ok(Some(Num::Int(0))),
        Value::Bool(true) => Ok(Some(Num::Int(1))),
        Value::Bool(false) => Ok(Some(Num::Int(0))),
        Value::Number(n) => Ok(Some(*n)),
        Value::Text(_) | Value::List(_) => Err(Abrupt::Unsupported { at }),
        Value::Symbol(_) => Err(Abrupt::Threw(Kind::TypeError)),
        Value::Object(object) => Err(abrupt_of_object(store, at, object)),
    }
}
