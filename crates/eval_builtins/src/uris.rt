// The URI handling functions (ECMA-262, "URI Handling Functions").
ghost use Rattle.std.specs.Prelude.{◌≡◌, ◌+◌, ◌≤◌, ℕ, IfOk, OnOk};
ghost use Rattle.js_store.specs.State.{Grows, IsKnown, IsSettled, text};
ghost use Rattle.js_store.specs.Rows.{wide_words};
ghost use Rattle.js_store.specs.Faults.{Uses};
ghost use Rattle.js_texts.specs.Use.{settling};
ghost use Rattle.js_uri.specs.Answers.{HasUriOutcome, ThrowsUriError, uri_full_of, outcome_words};
ghost use Rattle.eval_values.specs.Arguments.{first_of};
ghost use Rattle.js_item.specs.Seen.{seen};
ghost use Rattle.js_item.specs.Fine.{IsFine};
ghost use Rattle.eval_values.specs.Seen.{all_seen, AllFine};
ghost use Rattle.eval_values.specs.Does.{GivesValue};
ghost use Rattle.eval_values.specs.Settled.{OfFirst, StringsSettled};
ghost use Rattle.eval_builtins.specs.Uris.{uri_call, uri_value};
ghost use Rattle.eval_builtins.specs.UriFunctions.{outcome_of, uri_stop};

use eval_values::{Kind, Stop, Value, to_text};
use js_store::Strings;
use js_uri::{UriFault, decode_uri, decode_uri_component, encode_uri, encode_uri_component};
use std::alloc::Global;

/// A URI handling function.
#[derive(Clone, Copy, Debug, PartialEq, Eq)]
pub(crate) enum UriFunction {
    Encode,
    EncodeComponent,
    Decode,
    DecodeComponent,
}

/// A URI handling function with all its arguments.
pub(crate) fn call_uri<S: Strings>(
    alloc: Global,
    store: &mut S,
    which: UriFunction,
    args: &[Value<S::Ref>],
) -> Result<Value<S::Ref>, Stop>
    requires { AllFine (S.state store.old) S.number args.now }
    ensures grows { Grows (S.state store.old) (S.state store.new) }
    ensures fine { IfOk result (λ v. IsFine (S.state store.new) S.number v) }
    ensures settled { OnOk result (OfFirst (λ v. StringsSettled (S.state store.new) S.number v) args.now) }
    ensures did { GivesValue S.number (S.state store.old) (S.state store.new) result
        (uri_call (outcome_of which) (S.state store.old).limit
        (first_of (all_seen (S.state store.old) S.number args.now))) }
{
    match args {
        [first, ..] => uri_of(alloc, store, which, first),
        [] => uri_of(alloc, store, which, &Value::Undefined),
    }
}

fn uri_of<S: Strings>(
    alloc: Global,
    store: &mut S,
    which: UriFunction,
    value: &Value<S::Ref>,
) -> Result<Value<S::Ref>, Stop>
    requires { IsFine (S.state store.old) S.number value.now }
    ensures grows { Grows (S.state store.old) (S.state store.new) }
    ensures fine { IfOk result (λ v. IsFine (S.state store.new) S.number v) }
    ensures settled { OnOk result (StringsSettled (S.state store.new) S.number value.now) }
    ensures did { GivesValue S.number (S.state store.old) (S.state store.new) result
        (uri_call (outcome_of which) (S.state store.old).limit
        (seen (S.state store.old) S.number value.now)) }
{
    let text = to_text(alloc, store, value)?;
    give_uri(alloc, store, which, text)
}

// The string, of which settling may use as much as that of t units does.
fn give_uri<S: Strings>(
    alloc: Global,
    store: &mut S,
    which: UriFunction,
    s: S::Ref,
) -> Result<Value<S::Ref>, Stop>
    requires { IsKnown (S.state store.old) (S.number s) }
    ensures grows { Grows (S.state store.old) (S.state store.new) }
    ensures fine { IfOk result (λ v. IsFine (S.state store.new) S.number v) }
    ensures settled { OnOk result (IsSettled (S.state store.new) (S.number s)) }
    ensures did { (t : ℕ) → settling (S.state store.old) (S.number s) ≤ wide_words t
        → GivesValue S.number (S.state store.old) (S.state store.new) result
        (uri_value (S.state store.old).limit t (outcome_of which (text (S.state store.old) (S.number s)))) }
{
    match answer(alloc, store, which, s) {
        Ok(r) => Ok(Value::Text(r)),
        Err(fault) => Err(stop(fault)),
    }
}

// A malformed string is a URIError.
fn stop(fault: UriFault) -> Stop
    ensures { result ≡ uri_stop fault }
{
    match fault {
        UriFault::Malformed { .. } => Stop::Threw(Kind::UriError),
        UriFault::RangeError(_) => Stop::Threw(Kind::RangeError),
        UriFault::Store(fault) => Stop::Store(fault),
    }
}

fn answer<S: Strings>(
    alloc: Global,
    store: &mut S,
    which: UriFunction,
    s: S::Ref,
) -> Result<S::Ref, UriFault>
    requires { IsKnown (S.state store.old) (S.number s) }
    ensures value { IfOk result
        (λ r. HasUriOutcome (S.state store.new) (S.number r)
        (outcome_of which (text (S.state store.old) (S.number s)))) }
    ensures settled { OnOk result (IsSettled (S.state store.new) (S.number s)) }
    ensures throws { ThrowsUriError result (S.state store.old).limit
        (outcome_of which (text (S.state store.old) (S.number s))) }
    ensures uses { Uses (S.state store.old) (S.state store.new) (uri_full_of result) 1
        (settling (S.state store.old) (S.number s) + outcome_words (S.state store.old).limit
        (outcome_of which (text (S.state store.old) (S.number s)))) }
{
    match which {
        UriFunction::Encode => encode_uri(alloc, store, s),
        UriFunction::EncodeComponent => encode_uri_component(alloc, store, s),
        UriFunction::Decode => decode_uri(alloc, store, s),
        UriFunction::DecodeComponent => decode_uri_component(alloc, store, s),
    }
}
