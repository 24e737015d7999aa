// Members of values (ECMA-262, "Property Accessors").
ghost use Rattle.std.specs.Prelude.{IfOk};
ghost use Rattle.js_store.specs.State.{Grows};
ghost use Rattle.eval_members.specs.Members.{length_property, description_of, present as present_out};
ghost use Rattle.js_item.specs.Seen.{seen};
ghost use Rattle.js_item.specs.Fine.{IsFine};
ghost use Rattle.eval_values.specs.Ran.{ComesTo};
ghost use Rattle.eval_values.specs.Does.{GivesValue};

use crate::properties::read_plain;
use eval_values::{Kind, Stop, Value, number_value};
use js_number::Num;
use js_store::Strings;

// `length` and `description`.
const LENGTH: [u16; 6] = [0x6C, 0x65, 0x6E, 0x67, 0x74, 0x68];

const DESCRIPTION: [u16; 11] = [
    0x64, 0x65, 0x73, 0x63, 0x72, 0x69, 0x70, 0x74, 0x69, 0x6F, 0x6E,
];

/// `.length` of a value.
pub fn read_length<S: Strings>(store: &mut S, value: &Value<S::Ref>) -> Result<Value<S::Ref>, Stop>
    requires { IsFine (S.state store.old) S.number value.now }
    ensures grows { Grows (S.state store.old) (S.state store.new) }
    ensures fine { IfOk result (λ v. IsFine (S.state store.new) S.number v) }
    ensures did { GivesValue S.number (S.state store.old) (S.state store.new) result
        (length_property (seen (S.state store.old) S.number value.now)) }
{
    match value {
        Value::Undefined | Value::Null => Err(Stop::Threw(Kind::TypeError)),
        Value::Bool(_) | Value::Number(_) | Value::Symbol(_) => Ok(Value::Undefined),
        Value::List(list) => Ok(number_value(list.len() as u64)),
        Value::Text(s) => {
            let len = store.len(*s);
            Ok(Value::Number(Num::Int(i64::from(len))))
        }
        Value::Object(object) => read_plain(store, object, &LENGTH),
    }
}

/// `.description` of a value.
pub fn read_description<S: Strings>(
    store: &mut S,
    value: &Value<S::Ref>,
) -> Result<Value<S::Ref>, Stop>
    requires { IsFine (S.state store.old) S.number value.now }
    ensures grows { Grows (S.state store.old) (S.state store.new) }
    ensures fine { IfOk result (λ v. IsFine (S.state store.new) S.number v) }
    ensures did { GivesValue S.number (S.state store.old) (S.state store.new) result
        (description_of (seen (S.state store.old) S.number value.now)) }
{
    match value {
        Value::Undefined | Value::Null => Err(Stop::Threw(Kind::TypeError)),
        Value::Symbol(key) => Ok(Value::Text(*key)),
        Value::Object(object) => read_plain(store, object, &DESCRIPTION),
        Value::Bool(_) | Value::Number(_) | Value::Text(_) | Value::List(_) => Ok(Value::Undefined),
    }
}

/// TypeError where a value has no members at all.
pub fn present<S: Strings>(_store: &S, value: &Value<S::Ref>) -> Result<(), Stop>
    ensures { ComesTo (S.state _store.now) (S.state _store.now) (λ _ u. u) (λ _ _. Unit {0}) result
        (present_out (seen (S.state _store.now) S.number value.now)) }
{
    match value {
        Value::Undefined | Value::Null => Err(Stop::Threw(Kind::TypeError)),
        Value::Bool(_)
        | Value::Number(_)
        | Value::Text(_)
        | Value::Symbol(_)
        | Value::List(_)
        | Value::Object(_) => Ok(()),
    }
}
