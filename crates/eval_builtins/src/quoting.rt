// Values as JSON text (ECMA-262, "JSON.stringify").
ghost use Rattle.eval_builtins.specs.Parts.{list_json, stringified_object};
ghost use Rattle.std.specs.Prelude.{length, IfOk, OnOk};
ghost use Rattle.js_number.specs.Places.{IsLawful};
ghost use Rattle.js_store.specs.State.{Grows, IsKnown, IsSettled, text};
ghost use Rattle.js_json.specs.Quoting.{quoted};
ghost use Rattle.js_texts.specs.Texts.{known_texts, AllKnown, AllSettled};
ghost use Rattle.eval_values.specs.Arguments.{first_of};
ghost use Rattle.eval_values.specs.Limited.{limited};
ghost use Rattle.eval_builtins.specs.Quoting.{whole_or_null, as_text, stringify_call};
ghost use Rattle.js_item.specs.Seen.{seen, says, fields_mapped};
ghost use Rattle.js_item.specs.Fine.{IsFine, FineFields, Bounded, strings_of};
ghost use Rattle.eval_values.specs.Seen.{all_seen, AllFine};
ghost use Rattle.eval_values.specs.Does.{GivesValue};
ghost use Rattle.eval_values.specs.Settled.{ElementsSettled};
ghost use Rattle.js_item.specs.Views.{content_of};
ghost use Rattle.js_object.specs.Settled.{SettledIn, SettledFields};
ghost use Rattle.eval_builtins.specs.Settled.{FirstSettled};

use eval_values::{Stop, Value, to_text};
use js_item::Object;
use js_number::Num;
use js_store::Strings;
use std::alloc::Global;

/// `JSON.stringify` of the first argument.
pub fn call_stringify<S: Strings>(
    alloc: Global,
    store: &mut S,
    args: &[Value<S::Ref>],
) -> Result<Value<S::Ref>, Stop>
    requires { AllFine (S.state store.old) S.number args.now }
    ensures grows { Grows (S.state store.old) (S.state store.new) }
    ensures fine { IfOk result (λ v. IsFine (S.state store.new) S.number v) }
    ensures settled { OnOk result (FirstSettled (S.state store.new) S.number args.now) }
    ensures did { GivesValue S.number (S.state store.old) (S.state store.new) result
        (stringify_call (S.state store.old).limit
        (first_of (all_seen (S.state store.old) S.number args.now))) }
{
    match args {
        [first, ..] => stringify(alloc, store, first),
        [] => Ok(Value::Undefined),
    }
}

fn stringify<S: Strings>(
    alloc: Global,
    store: &mut S,
    value: &Value<S::Ref>,
) -> Result<Value<S::Ref>, Stop>
    requires { IsFine (S.state store.old) S.number value.now }
    ensures grows { Grows (S.state store.old) (S.state store.new) }
    ensures fine { IfOk result (λ v. IsFine (S.state store.new) S.number v) }
    ensures settled { OnOk result (SettledIn (S.state store.new) S.number (content_of value.now)) }
    ensures did { GivesValue S.number (S.state store.old) (S.state store.new) result
        (stringify_call (S.state store.old).limit (seen (S.state store.old) S.number value.now)) }
{
    match value {
        Value::Undefined | Value::Symbol(_) => Ok(Value::Undefined),
        Value::Null | Value::Bool(_) => give_text(alloc, store, value),
        Value::Number(n) => give_number(alloc, store, *n),
        Value::Text(s) => give_quoted(alloc, store, *s),
        Value::List(list) => give_list(alloc, store, list),
        Value::Object(object) => give_object(alloc, store, object),
    }
}

/// The string of a value, as ToString has it.
pub fn give_text<S: Strings>(
    alloc: Global,
    store: &mut S,
    value: &Value<S::Ref>,
) -> Result<Value<S::Ref>, Stop>
    requires { IsFine (S.state store.old) S.number value.now }
    ensures grows { Grows (S.state store.old) (S.state store.new) }
    ensures fine { IfOk result (λ v. IsFine (S.state store.new) S.number v) }
    ensures read { OnOk result (ElementsSettled (S.state store.new) S.number value.now) }
    ensures did { GivesValue S.number (S.state store.old) (S.state store.new) result
        (as_text (S.state store.old).limit (seen (S.state store.old) S.number value.now)) }
{
    let text = to_text(alloc, store, value)?;
    Ok(Value::Text(text))
}

// The digits of a whole number, and null for each other one.
fn give_number<S: Strings>(alloc: Global, store: &mut S, n: Num) -> Result<Value<S::Ref>, Stop>
    requires { IsLawful n }
    ensures grows { Grows (S.state store.old) (S.state store.new) }
    ensures fine { IfOk result (λ v. IsFine (S.state store.new) S.number v) }
    ensures did { GivesValue S.number (S.state store.old) (S.state store.new) result
        (as_text (S.state store.old).limit (whole_or_null n)) }
{
    match n {
        Num::Int(_) => give_text(alloc, store, &Value::Number(n)),
        Num::NaN | Num::PosInf | Num::NegInf => give_text(alloc, store, &Value::Null),
    }
}

fn give_quoted<S: Strings>(alloc: Global, store: &mut S, s: S::Ref) -> Result<Value<S::Ref>, Stop>
    requires { IsKnown (S.state store.old) (S.number s) }
    ensures grows { Grows (S.state store.old) (S.state store.new) }
    ensures fine { IfOk result (λ v. IsFine (S.state store.new) S.number v) }
    ensures settled { OnOk result (IsSettled (S.state store.new) (S.number s)) }
    ensures did { GivesValue S.number (S.state store.old) (S.state store.new) result
        (limited (S.state store.old).limit (length (text (S.state store.old) (S.number s)))
        (quoted (text (S.state store.old) (S.number s)))) }
{
    let r = js_json::quote(alloc, store, s)?;
    Ok(Value::Text(r))
}

// An array of these strings.
fn give_list<S: Strings>(
    alloc: Global,
    store: &mut S,
    list: &[S::Ref],
) -> Result<Value<S::Ref>, Stop>
    requires { AllKnown (S.state store.old) S.number list.now }
    ensures grows { Grows (S.state store.old) (S.state store.new) }
    ensures fine { IfOk result (λ v. IsFine (S.state store.new) S.number v) }
    ensures settled { OnOk result (AllSettled (S.state store.new) S.number list.now) }
    ensures did { GivesValue S.number (S.state store.old) (S.state store.new) result
        (list_json (S.state store.old).limit (known_texts (S.state store.old) S.number list.now)) }
{
    let r = js_json::stringify_list(alloc, store, list)?;
    Ok(Value::Text(r))
}

// An object, with what is in it.
fn give_object<S: Strings>(
    alloc: Global,
    store: &mut S,
    object: &Object<S::Ref>,
) -> Result<Value<S::Ref>, Stop>
    requires fine { FineFields (strings_of (S.state store.old)) S.number object.now }
    requires bounded { Bounded object.now }
    ensures grows { Grows (S.state store.old) (S.state store.new) }
    ensures fine { IfOk result (λ v. IsFine (S.state store.new) S.number v) }
    ensures settled { OnOk result (SettledFields (S.state store.new) S.number object.now) }
    ensures did { GivesValue S.number (S.state store.old) (S.state store.new) result
        (stringified_object (S.state store.old).limit
        (fields_mapped (says (S.state store.old) S.number) object.now)) }
{
    let r = js_object::stringify(alloc, store, object)?;
    Ok(Value::Text(r))
}
