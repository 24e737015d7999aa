// Symbols and `String` (ECMA-262, "String ( value )", "Symbol.for", "Symbol.keyFor").
ghost use Rattle.eval_builtins.specs.Parts.{shown_out, registered};
ghost use Rattle.std.specs.Prelude.{◌≡◌, ◌+◌, ◌++◌, ◌≤◌, ℕ, [], ◌∷◌, List, length, IfOk, OnOk};
ghost use Rattle.js_store.specs.State.{NamesUnits, Grows, IsKnown, IsSettled, text};
ghost use Rattle.js_store.specs.Rows.{wide_words, flat_words};
ghost use Rattle.js_store.specs.Faults.{Uses};
ghost use Rattle.js_texts.specs.Answers.{NeverThrows, full_of};
ghost use Rattle.eval_values.specs.Arguments.{first_of};
ghost use Rattle.eval_values.specs.Outcome.{needing};
ghost use Rattle.js_item.specs.Contents;
ghost use Rattle.eval_values.specs.Need.{reads};
ghost use Rattle.js_item.specs.Seen.{Val, seen};
ghost use Rattle.js_item.specs.Fine.{IsFine};
ghost use Rattle.eval_values.specs.Seen.{all_seen, AllFine};
ghost use Rattle.eval_values.specs.Does.{GivesValue};
ghost use Rattle.eval_values.specs.Settled.{OfFirst, StringsSettled};
ghost use Rattle.eval_builtins.specs.Settled.{ShownSettled, FirstShownSettled};
ghost use Rattle.eval_builtins.specs.Symbols.{string_conversion, symbol_for as symbol_out, key_for as key_out};
ghost use Rattle.eval_builtins.specs.Parts.{shown_symbol};

use crate::quoting::give_text;
use eval_values::{Kind, Stop, Value, to_text};
use js_number::append_text;
use js_store::Strings;
use js_texts::{MethodFault, read};
use js_units::{NoMemory, Units};
use std::alloc::Global;

/// `String` with all its arguments.
pub(crate) fn call_string_function<S: Strings>(
    alloc: Global,
    store: &mut S,
    args: &[Value<S::Ref>],
) -> Result<Value<S::Ref>, Stop>
    requires { AllFine (S.state store.old) S.number args.now }
    ensures grows { Grows (S.state store.old) (S.state store.new) }
    ensures fine { IfOk result (λ v. IsFine (S.state store.new) S.number v) }
    ensures settled { OnOk result (FirstShownSettled (S.state store.new) S.number args.now) }
    ensures did { GivesValue S.number (S.state store.old) (S.state store.new) result
        (string_conversion (S.state store.old).limit (all_seen (S.state store.old) S.number args.now)) }
{
    match args {
        [first, ..] => string_of(alloc, store, first),
        [] => give_empty(store),
    }
}

fn give_empty<S: Strings>(store: &mut S) -> Result<Value<S::Ref>, Stop>
    ensures grows { Grows (S.state store.old) (S.state store.new) }
    ensures fine { IfOk result (λ v. IsFine (S.state store.new) S.number v) }
    ensures did { GivesValue S.number (S.state store.old) (S.state store.new) result
        (needing (reads 0) (Contents.text [])) }
{
    let r = store.from_units(&[])?;
    Ok(Value::Text(r))
}

fn string_of<S: Strings>(
    alloc: Global,
    store: &mut S,
    value: &Value<S::Ref>,
) -> Result<Value<S::Ref>, Stop>
    requires { IsFine (S.state store.old) S.number value.now }
    ensures grows { Grows (S.state store.old) (S.state store.new) }
    ensures fine { IfOk result (λ v. IsFine (S.state store.new) S.number v) }
    ensures settled { OnOk result (ShownSettled (S.state store.new) S.number value.now) }
    ensures did { (vs : List Val) → GivesValue S.number (S.state store.old) (S.state store.new) result
        (string_conversion (S.state store.old).limit (seen (S.state store.old) S.number value.now ∷ vs)) }
{
    match value {
        Value::Symbol(key) => show_symbol(alloc, store, *key),
        Value::Undefined
        | Value::Null
        | Value::Bool(_)
        | Value::Number(_)
        | Value::Text(_)
        | Value::List(_)
        | Value::Object(_) => give_text(alloc, store, value),
    }
}

// The length is known before anything of that size is read or made.
fn show_symbol<S: Strings>(alloc: Global, store: &mut S, key: S::Ref) -> Result<Value<S::Ref>, Stop>
    requires { IsKnown (S.state store.old) (S.number key) }
    ensures grows { Grows (S.state store.old) (S.state store.new) }
    ensures fine { IfOk result (λ v. IsFine (S.state store.new) S.number v) }
    ensures settled { OnOk result (IsSettled (S.state store.new) (S.number key)) }
    ensures did { GivesValue S.number (S.state store.old) (S.state store.new) result
        (shown_out (S.state store.old).limit (text (S.state store.old) (S.number key))) }
{
    let length = u64::from(store.len(key)) + 8;
    if length > u64::from(store.limit()) {
        return Err(Stop::Threw(Kind::RangeError));
    }
    give_shown(alloc, store, key)
}

fn give_shown<S: Strings>(alloc: Global, store: &mut S, key: S::Ref) -> Result<Value<S::Ref>, Stop>
    requires known { IsKnown (S.state store.old) (S.number key) }
    requires short { length (shown_symbol (text (S.state store.old) (S.number key))) ≤
        (S.state store.old).limit }
    ensures grows { Grows (S.state store.old) (S.state store.new) }
    ensures fine { IfOk result (λ v. IsFine (S.state store.new) S.number v) }
    ensures settled { OnOk result (IsSettled (S.state store.new) (S.number key)) }
    ensures did { GivesValue S.number (S.state store.old) (S.state store.new) result
        (shown_out (S.state store.old).limit (text (S.state store.old) (S.number key))) }
{
    let r = shown(alloc, store, key)?;
    Ok(Value::Text(r))
}

// `Symbol(`, the key, `)`.
fn shown<S: Strings>(alloc: Global, store: &mut S, key: S::Ref) -> Result<S::Ref, MethodFault>
    requires known { IsKnown (S.state store.old) (S.number key) }
    requires short { length (shown_symbol (text (S.state store.old) (S.number key))) ≤
        (S.state store.old).limit }
    ensures value { IfOk result
        (λ r. NamesUnits (S.state store.new) (S.number r)
        (shown_symbol (text (S.state store.old) (S.number key)))) }
    ensures throws { NeverThrows result }
    ensures settled { OnOk result (IsSettled (S.state store.new) (S.number key)) }
    ensures uses { Uses (S.state store.old) (S.state store.new) (full_of result)
        1 (wide_words (length (text (S.state store.old) (S.number key)))
        + flat_words (shown_symbol (text (S.state store.old) (S.number key)))) }
{
    let units = read(alloc, store, key)?;
    let mut text = Units::new(alloc);
    push_shown(&mut text, units.as_slice())?;
    Ok(store.from_units(text.as_slice())?)
}

fn push_shown(text: &mut Units, key: &[u16]) -> Result<(), NoMemory>
    ensures added { OnOk result (text.new ≡ text.old ++ shown_symbol key.now) }
{
    append_text(text, "Symbol(")?;
    text.extend_from_slice(key)?;
    append_text(text, ")")
}

/// `Symbol.for` with all its arguments. It interns the key.
pub(crate) fn call_symbol_for<S: Strings>(
    alloc: Global,
    store: &mut S,
    args: &[Value<S::Ref>],
) -> Result<Value<S::Ref>, Stop>
    requires { AllFine (S.state store.old) S.number args.now }
    ensures grows { Grows (S.state store.old) (S.state store.new) }
    ensures fine { IfOk result (λ v. IsFine (S.state store.new) S.number v) }
    ensures settled { OnOk result (OfFirst (λ v. StringsSettled (S.state store.new) S.number v) args.now) }
    ensures did { GivesValue S.number (S.state store.old) (S.state store.new) result
        (symbol_out (S.state store.old).limit (first_of (all_seen (S.state store.old) S.number args.now))) }
{
    match args {
        [first, ..] => symbol_for(alloc, store, first),
        [] => symbol_for(alloc, store, &Value::Undefined),
    }
}

fn symbol_for<S: Strings>(
    alloc: Global,
    store: &mut S,
    value: &Value<S::Ref>,
) -> Result<Value<S::Ref>, Stop>
    requires { IsFine (S.state store.old) S.number value.now }
    ensures grows { Grows (S.state store.old) (S.state store.new) }
    ensures fine { IfOk result (λ v. IsFine (S.state store.new) S.number v) }
    ensures settled { OnOk result (StringsSettled (S.state store.new) S.number value.now) }
    ensures did { GivesValue S.number (S.state store.old) (S.state store.new) result
        (symbol_out (S.state store.old).limit (seen (S.state store.old) S.number value.now)) }
{
    let key = to_text(alloc, store, value)?;
    register(store, key)
}

// The symbol of a key, which has at most 40 units more than the operand.
fn register<S: Strings>(store: &mut S, key: S::Ref) -> Result<Value<S::Ref>, Stop>
    requires { IsKnown (S.state store.old) (S.number key) }
    ensures grows { Grows (S.state store.old) (S.state store.new) }
    ensures fine { IfOk result (λ v. IsFine (S.state store.new) S.number v) }
    ensures settled { OnOk result (IsSettled (S.state store.new) (S.number key)) }
    ensures did { (t : ℕ) → length (text (S.state store.old) (S.number key)) ≤ t + 40 → GivesValue S.number
        (S.state store.old) (S.state store.new) result
        (registered t (text (S.state store.old) (S.number key))) }
{
    let r = store.intern(key)?;
    Ok(Value::Symbol(r))
}

/// `Symbol.keyFor` with all its arguments.
pub(crate) fn call_key_for<S: Strings>(
    store: &S,
    args: &[Value<S::Ref>],
) -> Result<Value<S::Ref>, Stop>
    requires { AllFine (S.state store.now) S.number args.now }
    ensures fine { IfOk result (λ v. IsFine (S.state store.now) S.number v) }
    ensures did { GivesValue S.number (S.state store.now) (S.state store.now) result
        (key_out (first_of (all_seen (S.state store.now) S.number args.now))) }
{
    match args {
        [first, ..] => key_for(store, first),
        [] => Err(Stop::Threw(Kind::TypeError)),
    }
}

fn key_for<S: Strings>(store: &S, value: &Value<S::Ref>) -> Result<Value<S::Ref>, Stop>
    requires { IsFine (S.state store.now) S.number value.now }
    ensures fine { IfOk result (λ v. IsFine (S.state store.now) S.number v) }
    ensures did { GivesValue S.number (S.state store.now) (S.state store.now) result
        (key_out (seen (S.state store.now) S.number value.now)) }
{
    match value {
        Value::Symbol(key) => Ok(Value::Text(*key)),
        Value::Undefined
        | Value::Null
        | Value::Bool(_)
        | Value::Number(_)
        | Value::Text(_)
        | Value::List(_)
        | Value::Object(_) => Err(Stop::Threw(Kind::TypeError)),
    }
}
