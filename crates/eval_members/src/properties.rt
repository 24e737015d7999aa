// Properties of objects, by their keys (ECMA-262, "OrdinaryGet").
ghost use Rattle.eval_members.specs.Parts.{lacking, keyed};
ghost use Rattle.std.specs.Prelude.{◌≡◌, ◌≤◌, ◌||◌, IfOk, OnOk, bytes_eq, codes};
ghost use Rattle.js_store.specs.State.{Grows, IsKnown, IsSettled, text};
ghost use Rattle.js_item.specs.Fine.{IsFine, KeyFine, FineFields, Bounded, strings_of};
ghost use Rattle.js_item.specs.Seen.{seen, says, fields_mapped};
ghost use Rattle.std.specs.Prelude.{unwrap_or, length};
ghost use Rattle.js_item.specs.Contents as contents;
ghost use Rattle.js_item.specs.Contents.{undefined};
ghost use Rattle.js_item.specs.declared.item.Item.TheVariants as item;
ghost use Rattle.eval_values.specs.Outcome.{needing};
ghost use Rattle.eval_values.specs.Need.{nothing};
ghost use Rattle.eval_values.specs.Does.{GivesValue, GivesText};
ghost use Rattle.eval_values.specs.Settled.{StringsSettled};
ghost use Rattle.eval_members.specs.Properties.{is_inherited, key_out, own, got, property, plain_property, property_of, indexed_object, given_as};

use eval_values::{Kind, Stop, Value, to_text};
use js_item::Object;
use js_store::Strings;
use js_texts::copied;
use std::alloc::Global;

/// The property of a value by an identifier behind a point, other than `length` and `description`; `at` is
/// the byte offset of the identifier.
pub fn read_property<S: Strings>(
    alloc: Global,
    store: &mut S,
    at: u32,
    value: &Value<S::Ref>,
    key: &[u16],
) -> Result<Value<S::Ref>, Stop>
    requires { IsFine (S.state store.old) S.number value.now }
    ensures grows { Grows (S.state store.old) (S.state store.new) }
    ensures fine { IfOk result (λ v. IsFine (S.state store.new) S.number v) }
    ensures did { GivesValue S.number (S.state store.old) (S.state store.new) result
        (property_of at (S.state store.old).limit key.now
        (seen (S.state store.old) S.number value.now)) }
{
    let absent = Value::Undefined;
    let found = look_up_property(alloc, store, at, value, key, &absent)?;
    Ok(found.copy()?)
}

/// The same property in its place, without a copy; `absent` where an object has none of the key.
pub fn look_up_property<'a, S: Strings>(
    alloc: Global,
    store: &mut S,
    at: u32,
    value: &'a Value<S::Ref>,
    key: &[u16],
    absent: &'a Value<S::Ref>,
) -> Result<&'a Value<S::Ref>, Stop>
    requires fine { IsFine (S.state store.old) S.number value.now }
    requires absent { absent.now ≡ item.Undefined }
    ensures grows { Grows (S.state store.old) (S.state store.new) }
    ensures fine { IfOk result (λ v. IsFine (S.state store.new) S.number v.now) }
    ensures did { GivesValue S.number (S.state store.old) (S.state store.new) (given_as (λ v. v.now) result)
        (property_of at (S.state store.old).limit key.now
        (seen (S.state store.old) S.number value.now)) }
{
    match value {
        Value::Undefined | Value::Null => Err(Stop::Threw(Kind::TypeError)),
        Value::Object(object) => look_up_spelled(alloc, store, at, object, key, absent),
        Value::Bool(_) | Value::Number(_) | Value::Text(_) | Value::Symbol(_) | Value::List(_) =>
            Err(Stop::Unsupported { at }),
    }
}

fn look_up_spelled<'a, S: Strings>(
    alloc: Global,
    store: &mut S,
    at: u32,
    object: &'a Object<S::Ref>,
    key: &[u16],
    absent: &'a Value<S::Ref>,
) -> Result<&'a Value<S::Ref>, Stop>
    requires fine { FineFields (strings_of (S.state store.old)) S.number object.now }
    requires bounded { Bounded object.now }
    requires absent { absent.now ≡ item.Undefined }
    ensures grows { Grows (S.state store.old) (S.state store.new) }
    ensures fine { IfOk result (λ v. IsFine (S.state store.new) S.number v.now) }
    ensures did { GivesValue S.number (S.state store.old) (S.state store.new) (given_as (λ v. v.now) result)
        (property_of at (S.state store.old).limit key.now
        (contents.object (fields_mapped (says (S.state store.old) S.number) object.now))) }
{
    if key.len() > store.limit() as usize {
        return Err(Stop::Threw(Kind::RangeError));
    }
    let key = intern_units(store, key)?;
    look_up_own(alloc, store, at, object, key, absent)
}

/// The property of an object by an index that was evaluated; `at` is the byte offset of the bracket.
pub fn read_indexed<S: Strings>(
    alloc: Global,
    store: &mut S,
    at: u32,
    object: &Object<S::Ref>,
    index: &Value<S::Ref>,
) -> Result<Value<S::Ref>, Stop>
    requires fine { FineFields (strings_of (S.state store.old)) S.number object.now }
    requires bounded { Bounded object.now }
    requires index { IsFine (S.state store.old) S.number index.now }
    ensures grows { Grows (S.state store.old) (S.state store.new) }
    ensures fine { IfOk result (λ v. IsFine (S.state store.new) S.number v) }
    ensures key_settled { OnOk result (StringsSettled (S.state store.new) S.number index.now) }
    ensures did { GivesValue S.number (S.state store.old) (S.state store.new) result
        (indexed_object at (S.state store.old).limit
        (fields_mapped (says (S.state store.old) S.number) object.now)
        (seen (S.state store.old) S.number index.now)) }
{
    match index {
        Value::Symbol(_) => Ok(Value::Undefined),
        Value::Undefined
        | Value::Null
        | Value::Bool(_)
        | Value::Number(_)
        | Value::Text(_)
        | Value::List(_)
        | Value::Object(_) => read_keyed(alloc, store, at, object, index),
    }
}

fn read_keyed<S: Strings>(
    alloc: Global,
    store: &mut S,
    at: u32,
    object: &Object<S::Ref>,
    index: &Value<S::Ref>,
) -> Result<Value<S::Ref>, Stop>
    requires fine { FineFields (strings_of (S.state store.old)) S.number object.now }
    requires bounded { Bounded object.now }
    requires index { IsFine (S.state store.old) S.number index.now }
    ensures grows { Grows (S.state store.old) (S.state store.new) }
    ensures fine { IfOk result (λ v. IsFine (S.state store.new) S.number v) }
    ensures key_settled { OnOk result (StringsSettled (S.state store.new) S.number index.now) }
    ensures did { GivesValue S.number (S.state store.old) (S.state store.new) result
        (keyed at (S.state store.old).limit
        (fields_mapped (says (S.state store.old) S.number) object.now)
        (seen (S.state store.old) S.number index.now)) }
{
    let text = to_text(alloc, store, index)?;
    read_by_text(alloc, store, at, object, text)
}

fn read_by_text<S: Strings>(
    alloc: Global,
    store: &mut S,
    at: u32,
    object: &Object<S::Ref>,
    s: S::Ref,
) -> Result<Value<S::Ref>, Stop>
    requires fine { FineFields (strings_of (S.state store.old)) S.number object.now }
    requires bounded { Bounded object.now }
    requires known { IsKnown (S.state store.old) (S.number s) }
    ensures grows { Grows (S.state store.old) (S.state store.new) }
    ensures fine { IfOk result (λ v. IsFine (S.state store.new) S.number v) }
    ensures settled { OnOk result (IsSettled (S.state store.new) (S.number s)) }
    ensures did { GivesValue S.number (S.state store.old) (S.state store.new) result
        (property at (text (S.state store.old) (S.number s))
        (fields_mapped (says (S.state store.old) S.number) object.now)) }
{
    let key = intern(store, s)?;
    read_own(alloc, store, at, object, key)
}

/// The property of an object whose key has these units, where no object has one from its prototype.
pub fn read_plain<S: Strings>(
    store: &mut S,
    object: &Object<S::Ref>,
    key: &[u16],
) -> Result<Value<S::Ref>, Stop>
    requires fine { FineFields (strings_of (S.state store.old)) S.number object.now }
    requires bounded { Bounded object.now }
    requires short { length key.now ≤ 40 }
    ensures grows { Grows (S.state store.old) (S.state store.new) }
    ensures fine { IfOk result (λ v. IsFine (S.state store.new) S.number v) }
    ensures did { GivesValue S.number (S.state store.old) (S.state store.new) result
        (plain_property key.now (fields_mapped (says (S.state store.old) S.number) object.now)) }
{
    let key = intern_units(store, key)?;
    own_or_undefined(store, object, key)
}

// The key of these units.
fn intern_units<S: Strings>(store: &mut S, units: &[u16]) -> Result<S::Ref, Stop>
    requires { length units.now ≤ (S.state store.old).limit }
    ensures grows { Grows (S.state store.old) (S.state store.new) }
    ensures key { IfOk result (λ r. KeyFine (strings_of (S.state store.new)) (S.number r)) }
    ensures did { GivesText S.number (S.state store.old) (S.state store.new) result (key_out units.now) }
{
    Ok(store.intern_units(units)?)
}

// The key of the units of a string.
fn intern<S: Strings>(store: &mut S, s: S::Ref) -> Result<S::Ref, Stop>
    requires { IsKnown (S.state store.old) (S.number s) }
    ensures grows { Grows (S.state store.old) (S.state store.new) }
    ensures key { IfOk result (λ r. KeyFine (strings_of (S.state store.new)) (S.number r)) }
    ensures settled { OnOk result (IsSettled (S.state store.new) (S.number s)) }
    ensures did { GivesText S.number (S.state store.old) (S.state store.new) result
        (key_out (text (S.state store.old) (S.number s))) }
{
    Ok(store.intern(s)?)
}

// The value of the own property of a key.
fn read_own<S: Strings>(
    alloc: Global,
    store: &mut S,
    at: u32,
    object: &Object<S::Ref>,
    key: S::Ref,
) -> Result<Value<S::Ref>, Stop>
    requires fine { FineFields (strings_of (S.state store.old)) S.number object.now }
    requires bounded { Bounded object.now }
    requires key { KeyFine (strings_of (S.state store.old)) (S.number key) }
    ensures grows { Grows (S.state store.old) (S.state store.new) }
    ensures fine { IfOk result (λ v. IsFine (S.state store.new) S.number v) }
    ensures did { GivesValue S.number (S.state store.old) (S.state store.new) result
        (got at (text (S.state store.old) (S.number key))
        (own (text (S.state store.old) (S.number key))
        (fields_mapped (says (S.state store.old) S.number) object.now))) }
{
    let absent = Value::Undefined;
    let found = look_up_own(alloc, store, at, object, key, &absent)?;
    Ok(found.copy()?)
}

// The same in its place.
fn look_up_own<'a, S: Strings>(
    alloc: Global,
    store: &mut S,
    at: u32,
    object: &'a Object<S::Ref>,
    key: S::Ref,
    absent: &'a Value<S::Ref>,
) -> Result<&'a Value<S::Ref>, Stop>
    requires fine { FineFields (strings_of (S.state store.old)) S.number object.now }
    requires bounded { Bounded object.now }
    requires key { KeyFine (strings_of (S.state store.old)) (S.number key) }
    requires absent { absent.now ≡ item.Undefined }
    ensures grows { Grows (S.state store.old) (S.state store.new) }
    ensures fine { IfOk result (λ v. IsFine (S.state store.new) S.number v.now) }
    ensures did { GivesValue S.number (S.state store.old) (S.state store.new) (given_as (λ v. v.now) result)
        (got at (text (S.state store.old) (S.number key))
        (own (text (S.state store.old) (S.number key))
        (fields_mapped (says (S.state store.old) S.number) object.now))) }
{
    match object.get(store, key) {
        Some(value) => Ok(value),
        None => lack(alloc, store, at, key, absent),
    }
}

fn own_or_undefined<S: Strings>(
    store: &mut S,
    object: &Object<S::Ref>,
    key: S::Ref,
) -> Result<Value<S::Ref>, Stop>
    requires fine { FineFields (strings_of (S.state store.old)) S.number object.now }
    requires bounded { Bounded object.now }
    requires key { KeyFine (strings_of (S.state store.old)) (S.number key) }
    ensures grows { Grows (S.state store.old) (S.state store.new) }
    ensures fine { IfOk result (λ v. IsFine (S.state store.new) S.number v) }
    ensures did { GivesValue S.number (S.state store.old) (S.state store.new) result
        (needing nothing (unwrap_or
        (own (text (S.state store.old) (S.number key))
        (fields_mapped (says (S.state store.old) S.number) object.now)) undefined)) }
{
    match object.get(store, key) {
        Some(value) => Ok(value.copy()?),
        None => Ok(Value::Undefined),
    }
}

// An object that has no own property of the key. Only a short key is read.
fn lack<'a, S: Strings>(
    alloc: Global,
    store: &mut S,
    at: u32,
    key: S::Ref,
    absent: &'a Value<S::Ref>,
) -> Result<&'a Value<S::Ref>, Stop>
    requires key { KeyFine (strings_of (S.state store.old)) (S.number key) }
    requires absent { absent.now ≡ item.Undefined }
    ensures grows { Grows (S.state store.old) (S.state store.new) }
    ensures fine { IfOk result (λ v. IsFine (S.state store.new) S.number v.now) }
    ensures did { GivesValue S.number (S.state store.old) (S.state store.new) (given_as (λ v. v.now) result)
        (lacking at (text (S.state store.old) (S.number key))) }
{
    if store.len(key) > 20 {
        return Ok(absent);
    }
    let units = copied(alloc, store, key)?;
    if is_inherited(units.as_slice()) {
        Err(Stop::Unsupported { at })
    } else {
        Ok(absent)
    }
}

// Whether objects have a property of this key from their prototype (ECMA-262, "Properties of the
// Object Prototype Object").
fn is_inherited(key: &[u16]) -> bool
    ensures { result ≡ is_inherited key.now }
{
    is_word(key, b"constructor")
        || is_word(key, b"hasOwnProperty")
        || is_word(key, b"isPrototypeOf")
        || is_word(key, b"propertyIsEnumerable")
        || is_word(key, b"toLocaleString")
        || is_word(key, b"toString")
        || is_word(key, b"valueOf")
        || is_word(key, b"__proto__")
        || is_word(key, b"__defineGetter__")
        || is_word(key, b"__defineSetter__")
        || is_word(key, b"__lookupGetter__")
        || is_word(key, b"__lookupSetter__")
}

// Whether these are the units of an identifier of ASCII characters.
fn is_word(units: &[u16], word: &[u8]) -> bool
    ensures { result ≡ bytes_eq units.now word.now }
{
    if units.len() != word.len() {
        return false;
    }
    for i in 0..units.len() {
        if units[i] != u16::from(word[i]) {
            return false;
        }
    }
    true
}
