// `Object.keys` (ECMA-262, "Object.keys").
ghost use Rattle.eval_builtins.specs.Parts.{keys_out};
ghost use Rattle.std.specs.Prelude.{IfOk};
ghost use Rattle.js_store.specs.State.{Grows};
ghost use Rattle.js_item.specs.Seen.{seen, says, fields_mapped};
ghost use Rattle.js_item.specs.Fine.{IsFine, FineFields, strings_of};
ghost use Rattle.eval_values.specs.Arguments.{first_of};
ghost use Rattle.eval_values.specs.Seen.{all_seen, AllFine};
ghost use Rattle.eval_values.specs.Does.{GivesValue};
ghost use Rattle.eval_builtins.specs.Keys.{keys_call};

use eval_values::{Kind, Stop, Value};
use js_item::Object;
use js_store::Strings;
use std::alloc::Global;

/// `Object.keys` with all its arguments; `at` is the byte offset of its first identifier.
pub(crate) fn call_keys<S: Strings>(
    alloc: Global,
    store: &mut S,
    at: u32,
    args: &[Value<S::Ref>],
) -> Result<Value<S::Ref>, Stop>
    requires { AllFine (S.state store.old) S.number args.now }
    ensures grows { Grows (S.state store.old) (S.state store.new) }
    ensures fine { IfOk result (λ v. IsFine (S.state store.new) S.number v) }
    ensures did { GivesValue S.number (S.state store.old) (S.state store.new) result
        (keys_call at (first_of (all_seen (S.state store.old) S.number args.now))) }
{
    match args {
        [first, ..] => keys_of(alloc, store, at, first),
        [] => Err(Stop::Threw(Kind::TypeError)),
    }
}

fn keys_of<S: Strings>(
    alloc: Global,
    store: &mut S,
    at: u32,
    value: &Value<S::Ref>,
) -> Result<Value<S::Ref>, Stop>
    requires { IsFine (S.state store.old) S.number value.now }
    ensures grows { Grows (S.state store.old) (S.state store.new) }
    ensures fine { IfOk result (λ v. IsFine (S.state store.new) S.number v) }
    ensures did { GivesValue S.number (S.state store.old) (S.state store.new) result
        (keys_call at (seen (S.state store.old) S.number value.now)) }
{
    match value {
        Value::Undefined | Value::Null => Err(Stop::Threw(Kind::TypeError)),
        Value::Object(object) => give_keys(alloc, store, object),
        Value::Bool(_) | Value::Number(_) | Value::Text(_) | Value::Symbol(_) | Value::List(_) =>
            Err(Stop::Unsupported { at }),
    }
}

// An array of the own keys.
fn give_keys<S: Strings>(
    alloc: Global,
    store: &mut S,
    object: &Object<S::Ref>,
) -> Result<Value<S::Ref>, Stop>
    requires { FineFields (strings_of (S.state store.old)) S.number object.now }
    ensures grows { Grows (S.state store.old) (S.state store.new) }
    ensures fine { IfOk result (λ v. IsFine (S.state store.new) S.number v) }
    ensures did { GivesValue S.number (S.state store.old) (S.state store.new) result
        (keys_out (fields_mapped (says (S.state store.old) S.number) object.now)) }
{
    let keys = js_object::own_keys(alloc, store, object)?;
    Ok(Value::List(keys))
}
