// The parts of an object literal that evaluate no expression.
ghost use Rattle.std.specs.Prelude.{IfOk};
ghost use Rattle.js_store.specs.State.{Grows, text};
ghost use Rattle.js_item.specs.Fine.{IsFine, KeyFine, FineFields, strings_of};
ghost use Rattle.js_item.specs.Seen.{seen, says, fields_mapped};
ghost use Rattle.eval_values.specs.Outcome.{gave, free};
ghost use Rattle.eval_values.specs.Does.{GivesValue};
ghost use Rattle.js_eval.specs.Initializers.{object_out};
ghost use Rattle.js_eval.specs.Properties.{with_property};
ghost use Rattle.js_eval.specs.Seen.{ContextFine};
ghost use Rattle.js_eval.specs.Paid.{key_paid, GivesKey, Makes};

use crate::context::Context;
use eval_values::{Kind, Stop, Value};
use js_item::{Object, ObjectBuilder};
use js_store::{StoreFault, Strings};

/// The interned string of a key.
#[tactic(auto, using(js_item::proofs::Still::key_made))]
pub fn intern_key<S: Strings>(
    store: &mut S,
    _context: &Context<S::Ref>,
    key: &[u16],
) -> Result<S::Ref, Stop>
    requires { ContextFine (S.state store.old) S.number _context.now }
    ensures grows { Grows (S.state store.old) (S.state store.new) }
    ensures context { ContextFine (S.state store.new) S.number _context.now }
    ensures fine { IfOk result (λ r. KeyFine (strings_of (S.state store.new)) (S.number r)) }
    ensures did { GivesKey S.number (S.state store.old) (S.state store.new) result
        (key_paid (S.state store.old).limit key.now) }
{
    if key.len() > store.limit() as usize {
        return Err(Stop::Threw(Kind::RangeError));
    }
    Ok(store.intern_units(key)?)
}

/// The object with one more member, or with another value of the member that has this key.
pub fn put<S: Strings>(
    store: &mut S,
    object: ObjectBuilder<S::Ref, S>,
    key: S::Ref,
    value: Value<S::Ref>,
) -> Result<ObjectBuilder<S::Ref, S>, Stop>
    requires object { FineFields (strings_of (S.state store.old)) S.number object }
    requires key { KeyFine (strings_of (S.state store.old)) (S.number key) }
    requires value { IsFine (S.state store.old) S.number value }
    ensures grows { Grows (S.state store.old) (S.state store.new) }
    ensures fine { IfOk result (λ o. FineFields (strings_of (S.state store.new)) S.number o) }
    ensures did { Makes S.number (S.state store.old) (S.state store.new) result
        (gave (with_property (text (S.state store.old) (S.number key))
        (seen (S.state store.old) S.number value)
        (fields_mapped (says (S.state store.old) S.number) object)) free) }
{
    let mut object = object;
    if object.len() >= u32::MAX as usize {
        return Err(Stop::Store(StoreFault::Memory));
    }
    object.insert(store, key, value)?;
    Ok(object)
}

/// The object as a value, unless it is nested more than 200 deep or has more than 65,536 members in
/// all its levels.
pub fn bounded<S: Strings>(
    _store: &S,
    at: u32,
    object: Object<S::Ref>,
) -> Result<Value<S::Ref>, Stop>
    requires { FineFields (strings_of (S.state _store.now)) S.number object }
    ensures fine { IfOk result (λ v. IsFine (S.state _store.now) S.number v) }
    ensures did { GivesValue S.number (S.state _store.now) (S.state _store.now) result
        (object_out at (fields_mapped (says (S.state _store.now) S.number) object)) }
{
    if object.is_bounded() {
        Ok(Value::Object(object))
    } else {
        Err(Stop::Unsupported { at })
    }
}
