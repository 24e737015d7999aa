// Operators on values (ECMA-262, "Additive Operators" and "Unary Operators").
ghost use Rattle.std.specs.Prelude.{◌≡◌, ◌≤◌, ◌+◌, ◌++◌, ◌||◌, length, IfOk, OnOk, IfSome, None, true};
ghost use Rattle.js_number.specs.Places.{IsLawful};
ghost use Rattle.js_number.specs.Arith.{text_of};
ghost use Rattle.js_store.specs.State.{NamesUnits, Grows, IsKnown, IsSettled, text};
ghost use Rattle.js_store.specs.Faults.{Uses, fault_of};
ghost use Rattle.js_item.specs.Contents;
ghost use Rattle.eval_values.specs.Outcome.{gave, bind, free};
ghost use Rattle.eval_values.specs.Conversions.{is_text, spelled, to_number, to_string};
ghost use Rattle.eval_values.specs.Operators.{in_profile, sum_in, paired, difference_in, concatenated, joined_strings, primitive, plus as sum_out, plus_primitives as primitive_sum, unary_out};
ghost use Rattle.eval_values.specs.Stops.{converted_of};
ghost use Rattle.js_item.specs.Seen.{seen};
ghost use Rattle.js_item.specs.declared.item.Item.TheVariants as item;
ghost use Rattle.js_item.specs.Fine.{IsFine};
ghost use Rattle.eval_values.specs.Seen.{OwnText};
ghost use Rattle.eval_values.specs.Does.{GivesValue};
ghost use Rattle.eval_values.specs.Settled.{ElementsSettled};

use crate::conversions::{is_string, number_of, number_text, to_text, truth};
use crate::value::{Abrupt, Kind, Stop, Value};
use js_number::Num;
use js_store::{ConcatFault, StoreFault, Strings};
use std::alloc::Global;

// A string of at most so many units is no rope (V8's `ConsString::kMinLength`), so settling it uses nothing on
// the heap. It and a number have room in a list of as many as `AT_ONCE`.
const FEW: u32 = 12;

const AT_ONCE: usize = 64;

/// `+` at the byte offset `at`, before which arrays and objects become strings ("Addition Operator").
/// The elements of an array are settled; strings are joined as they are.
pub fn plus<S: Strings>(
    alloc: Global,
    store: &mut S,
    at: u32,
    left: &Value<S::Ref>,
    right: &Value<S::Ref>,
) -> Result<Value<S::Ref>, Stop>
    requires left { IsFine (S.state store.old) S.number left.now }
    requires right { IsFine (S.state store.old) S.number right.now }
    ensures grows { Grows (S.state store.old) (S.state store.new) }
    ensures fine { IfOk result (λ v. IsFine (S.state store.new) S.number v) }
    ensures left_read { OnOk result (ElementsSettled (S.state store.new) S.number left.now) }
    ensures right_read { OnOk result (ElementsSettled (S.state store.new) S.number right.now) }
    ensures did { GivesValue S.number (S.state store.old) (S.state store.new) result
        (sum_out at (S.state store.old).limit (seen (S.state store.old) S.number left.now)
        (seen (S.state store.old) S.number right.now)) }
{
    match left {
        Value::Text(s) => plus_text(alloc, store, at, *s, left, right),
        _ => plus_any(alloc, store, at, left, right),
    }
}

// The same of a string on the left: two strings are joined as they are.
fn plus_text<S: Strings>(
    alloc: Global,
    store: &mut S,
    at: u32,
    s: S::Ref,
    left: &Value<S::Ref>,
    right: &Value<S::Ref>,
) -> Result<Value<S::Ref>, Stop>
    requires is { left.now ≡ item.Text s }
    requires left { IsFine (S.state store.old) S.number left.now }
    requires right { IsFine (S.state store.old) S.number right.now }
    ensures grows { Grows (S.state store.old) (S.state store.new) }
    ensures fine { IfOk result (λ v. IsFine (S.state store.new) S.number v) }
    ensures left_read { OnOk result (ElementsSettled (S.state store.new) S.number left.now) }
    ensures right_read { OnOk result (ElementsSettled (S.state store.new) S.number right.now) }
    ensures did { GivesValue S.number (S.state store.old) (S.state store.new) result
        (sum_out at (S.state store.old).limit (seen (S.state store.old) S.number left.now)
        (seen (S.state store.old) S.number right.now)) }
{
    match right {
        Value::Text(other) => join(store, s, *other),
        Value::Number(n) => plus_number(store, s, *n),
        _ => plus_any(alloc, store, at, left, right),
    }
}

// A string and a number behind it: where both are few units, they are written at once, without a string of
// the number.
fn plus_number<S: Strings>(store: &mut S, s: S::Ref, n: Num) -> Result<Value<S::Ref>, Stop>
    requires known { IsKnown (S.state store.old) (S.number s) }
    requires lawful { IsLawful n }
    ensures grows { Grows (S.state store.old) (S.state store.new) }
    ensures fine { IfOk result (λ v. IsFine (S.state store.new) S.number v) }
    ensures did { GivesValue S.number (S.state store.old) (S.state store.new) result
        (bind (spelled (text_of n)) (concatenated (S.state store.old).limit
        (text (S.state store.old) (S.number s)))) }
{
    if is_few(store, s) {
        write_joined(store, s, n)
    } else {
        join_number(store, s, n)
    }
}

// Whether a string has few units, so that a number may be written behind it at once.
fn is_few<S: Strings>(store: &mut S, s: S::Ref) -> bool
    requires { IsKnown (S.state store.old) (S.number s) }
    ensures few { result ≡ true → length (text (S.state store.new) (S.number s)) ≤ 24 }
    ensures limit { result ≡ true → 64 ≤ (S.state store.new).limit }
    ensures uses { Uses (S.state store.old) (S.state store.new) None 0 0 }
{
    if store.limit() < AT_ONCE as u32 {
        return false;
    }
    store.len(s) <= FEW
}

// The string of the number, and then both joined.
fn join_number<S: Strings>(store: &mut S, s: S::Ref, n: Num) -> Result<Value<S::Ref>, Stop>
    requires known { IsKnown (S.state store.old) (S.number s) }
    requires lawful { IsLawful n }
    ensures grows { Grows (S.state store.old) (S.state store.new) }
    ensures fine { IfOk result (λ v. IsFine (S.state store.new) S.number v) }
    ensures did { GivesValue S.number (S.state store.old) (S.state store.new) result
        (bind (spelled (text_of n)) (concatenated (S.state store.old).limit
        (text (S.state store.old) (S.number s)))) }
{
    let w = number_text(store, n)?;
    join(store, s, w)
}

// Both at once.
fn write_joined<S: Strings>(store: &mut S, s: S::Ref, n: Num) -> Result<Value<S::Ref>, Stop>
    requires known { IsKnown (S.state store.old) (S.number s) }
    requires lawful { IsLawful n }
    requires few { length (text (S.state store.old) (S.number s)) ≤ 24 }
    requires limit { 64 ≤ (S.state store.old).limit }
    ensures grows { Grows (S.state store.old) (S.state store.new) }
    ensures fine { IfOk result (λ v. IsFine (S.state store.new) S.number v) }
    ensures did { GivesValue S.number (S.state store.old) (S.state store.new) result
        (bind (spelled (text_of n)) (concatenated (S.state store.old).limit
        (text (S.state store.old) (S.number s)))) }
{
    let mut room = [0; 40];
    let count = n.write_digits(&mut room);
    join_units(store, s, &room[..count])
}

// A string and units behind it.
fn join_units<S: Strings>(store: &mut S, s: S::Ref, units: &[u16]) -> Result<Value<S::Ref>, Stop>
    requires known { IsKnown (S.state store.old) (S.number s) }
    requires few { length (text (S.state store.old) (S.number s)) ≤ 24 }
    requires short { length units.now ≤ 40 }
    requires limit { 64 ≤ (S.state store.old).limit }
    ensures grows { Grows (S.state store.old) (S.state store.new) }
    ensures fine { IfOk result (λ v. IsFine (S.state store.new) S.number v) }
    ensures did { GivesValue S.number (S.state store.old) (S.state store.new) result
        (concatenated (S.state store.old).limit (text (S.state store.old) (S.number s)) units.now) }
{
    let r = units_joined(store, s, units)?;
    Ok(Value::Text(r))
}

fn units_joined<S: Strings>(store: &mut S, s: S::Ref, units: &[u16]) -> Result<S::Ref, StoreFault>
    requires known { IsKnown (S.state store.old) (S.number s) }
    requires few { length (text (S.state store.old) (S.number s)) ≤ 24 }
    requires short { length units.now ≤ 40 }
    requires limit { 64 ≤ (S.state store.old).limit }
    ensures value { IfOk result (λ r. NamesUnits (S.state store.new) (S.number r)
        (text (S.state store.old) (S.number s) ++ units.now)) }
    ensures uses { Uses (S.state store.old) (S.state store.new) (fault_of result) 1 24 }
{
    store.settle(s)?;
    let count = store.len(s) as usize + units.len();
    let mut room = [0; AT_ONCE];
    let both = &mut room[..count];
    read_and_put(store, s, units, both);
    store.from_units(both)
}

// Puts the units of a settled string and others behind them into a list.
fn read_and_put<S: Strings>(store: &mut S, s: S::Ref, units: &[u16], into: &mut [u16])
    requires known { IsKnown (S.state store.old) (S.number s) }
    requires settled { IsSettled (S.state store.old) (S.number s) }
    requires room { length into.old ≡ length (text (S.state store.old) (S.number s)) + length units.now }
    ensures units { into.new ≡ text (S.state store.old) (S.number s) ++ units.now }
    ensures uses { Uses (S.state store.old) (S.state store.new) None 0 0 }
{
    let len = store.len(s) as usize;
    store.read(s, 0, &mut into[..len]);
    into[len..].copy_from_slice(units);
}

// The same of any two values.
fn plus_any<S: Strings>(
    alloc: Global,
    store: &mut S,
    at: u32,
    left: &Value<S::Ref>,
    right: &Value<S::Ref>,
) -> Result<Value<S::Ref>, Stop>
    requires left { IsFine (S.state store.old) S.number left.now }
    requires right { IsFine (S.state store.old) S.number right.now }
    ensures grows { Grows (S.state store.old) (S.state store.new) }
    ensures fine { IfOk result (λ v. IsFine (S.state store.new) S.number v) }
    ensures left_read { OnOk result (ElementsSettled (S.state store.new) S.number left.now) }
    ensures right_read { OnOk result (ElementsSettled (S.state store.new) S.number right.now) }
    ensures did { GivesValue S.number (S.state store.old) (S.state store.new) result
        (sum_out at (S.state store.old).limit (seen (S.state store.old) S.number left.now)
        (seen (S.state store.old) S.number right.now)) }
{
    let first = to_primitive(alloc, store, left)?;
    let second = to_primitive(alloc, store, right)?;
    plus_primitives(alloc, store, at, &first, &second)
}

/// The primitive value of a value, which is no array and no object. A string is its own; the elements
/// of an array are settled.
pub fn to_primitive<S: Strings>(
    alloc: Global,
    store: &mut S,
    value: &Value<S::Ref>,
) -> Result<Value<S::Ref>, Stop>
    requires { IsFine (S.state store.old) S.number value.now }
    ensures grows { Grows (S.state store.old) (S.state store.new) }
    ensures fine { IfOk result (λ v. IsFine (S.state store.new) S.number v) }
    ensures own { IfOk result (λ v. OwnText value.now v) }
    ensures read { OnOk result (ElementsSettled (S.state store.new) S.number value.now) }
    ensures did { GivesValue S.number (S.state store.old) (S.state store.new) result
        (primitive (S.state store.old).limit (seen (S.state store.old) S.number value.now)) }
{
    match value {
        Value::Undefined => Ok(Value::Undefined),
        Value::Null => Ok(Value::Null),
        Value::Bool(b) => Ok(Value::Bool(*b)),
        Value::Number(n) => Ok(Value::Number(*n)),
        Value::Text(s) => Ok(Value::Text(*s)),
        Value::Symbol(s) => Ok(Value::Symbol(*s)),
        Value::List(_) | Value::Object(_) => text_value(alloc, store, value),
    }
}

// The string of a value as a value.
fn text_value<S: Strings>(
    alloc: Global,
    store: &mut S,
    value: &Value<S::Ref>,
) -> Result<Value<S::Ref>, Stop>
    requires { IsFine (S.state store.old) S.number value.now }
    ensures grows { Grows (S.state store.old) (S.state store.new) }
    ensures fine { IfOk result (λ v. IsFine (S.state store.new) S.number v) }
    ensures read { OnOk result (ElementsSettled (S.state store.new) S.number value.now) }
    ensures did { GivesValue S.number (S.state store.old) (S.state store.new) result
        (bind (to_string (S.state store.old).limit (seen (S.state store.old) S.number value.now))
        (λ u. gave (Contents.text u) free)) }
{
    let text = to_text(alloc, store, value)?;
    Ok(Value::Text(text))
}

fn plus_primitives<S: Strings>(
    alloc: Global,
    store: &mut S,
    at: u32,
    left: &Value<S::Ref>,
    right: &Value<S::Ref>,
) -> Result<Value<S::Ref>, Stop>
    requires left { IsFine (S.state store.old) S.number left.now }
    requires right { IsFine (S.state store.old) S.number right.now }
    ensures grows { Grows (S.state store.old) (S.state store.new) }
    ensures fine { IfOk result (λ v. IsFine (S.state store.new) S.number v) }
    ensures did { GivesValue S.number (S.state store.old) (S.state store.new) result
        (primitive_sum at (S.state store.old).limit (seen (S.state store.old) S.number left.now)
        (seen (S.state store.old) S.number right.now)) }
{
    if one_is_string(store, left, right) {
        join_strings(alloc, store, left, right)
    } else {
        add(store, at, left, right)
    }
}

/// A minus, or else a `!`, at the byte offset `at`.
pub fn apply_unary<S: Strings>(
    store: &mut S,
    at: u32,
    minus: bool,
    value: &Value<S::Ref>,
) -> Result<Value<S::Ref>, Stop>
    requires { IsFine (S.state store.old) S.number value.now }
    ensures grows { Grows (S.state store.old) (S.state store.new) }
    ensures fine { IfOk result (λ v. IsFine (S.state store.new) S.number v) }
    ensures did { GivesValue S.number (S.state store.old) (S.state store.new) result
        (unary_out minus at (seen (S.state store.old) S.number value.now)) }
{
    if minus {
        negate(store, at, value)
    } else {
        let holds = truth(store, value);
        Ok(Value::Bool(!holds))
    }
}

fn negate<S: Strings>(store: &mut S, at: u32, value: &Value<S::Ref>) -> Result<Value<S::Ref>, Stop>
    requires { IsFine (S.state store.old) S.number value.now }
    ensures grows { Grows (S.state store.old) (S.state store.new) }
    ensures fine { IfOk result (λ v. IsFine (S.state store.new) S.number v) }
    ensures did { GivesValue S.number (S.state store.old) (S.state store.new) result
        (unary_out true at (seen (S.state store.old) S.number value.now)) }
{
    let n = number_of(store, at, value)?;
    Ok(Value::Number(n.neg()))
}

fn one_is_string<S: Strings>(store: &S, left: &Value<S::Ref>, right: &Value<S::Ref>) -> bool
    ensures { result ≡ (is_text (seen (S.state store.now) S.number left.now) || is_text
        (seen (S.state store.now) S.number right.now)) }
{
    is_string(store, left) || is_string(store, right)
}

// A number that was found, where it is in the range of the profile.
fn count<S: Strings>(_store: &S, at: u32, n: Option<Num>) -> Result<Value<S::Ref>, Stop>
    requires { IfSome n IsLawful }
    ensures { GivesValue S.number (S.state _store.now) (S.state _store.now) result (in_profile at n) }
{
    match n {
        Some(n) => Ok(Value::Number(n)),
        None => Err(Stop::Unsupported { at }),
    }
}

fn add<S: Strings>(
    store: &mut S,
    at: u32,
    left: &Value<S::Ref>,
    right: &Value<S::Ref>,
) -> Result<Value<S::Ref>, Stop>
    requires left { IsFine (S.state store.old) S.number left.now }
    requires right { IsFine (S.state store.old) S.number right.now }
    ensures grows { Grows (S.state store.old) (S.state store.new) }
    ensures fine { IfOk result (λ v. IsFine (S.state store.new) S.number v) }
    ensures did { GivesValue S.number (S.state store.old) (S.state store.new) result
        (sum_in at (seen (S.state store.old) S.number left.now)
        (seen (S.state store.old) S.number right.now)) }
{
    let m = number_of(store, at, left)?;
    let n = number_of(store, at, right)?;
    count(store, at, m.add(n))
}

/// `-` at the byte offset `at` ("Subtraction Operator").
pub fn subtract<S: Strings>(
    store: &mut S,
    at: u32,
    left: &Value<S::Ref>,
    right: &Value<S::Ref>,
) -> Result<Value<S::Ref>, Stop>
    requires left { IsFine (S.state store.old) S.number left.now }
    requires right { IsFine (S.state store.old) S.number right.now }
    ensures grows { Grows (S.state store.old) (S.state store.new) }
    ensures fine { IfOk result (λ v. IsFine (S.state store.new) S.number v) }
    ensures did { GivesValue S.number (S.state store.old) (S.state store.new) result
        (difference_in at (seen (S.state store.old) S.number left.now)
        (seen (S.state store.old) S.number right.now)) }
{
    let (m, n) = two_numbers(store, at, left, right)?;
    count(store, at, m.sub(n))
}

// ToNumber of both sides. One that throws goes before one that is left out, whatever its side.
pub fn two_numbers<S: Strings>(
    store: &mut S,
    at: u32,
    left: &Value<S::Ref>,
    right: &Value<S::Ref>,
) -> Result<(Num, Num), Abrupt>
    requires left { IsFine (S.state store.old) S.number left.now }
    requires right { IsFine (S.state store.old) S.number right.now }
    ensures value { converted_of result ≡ paired (to_number at (seen (S.state store.old) S.number left.now))
        (to_number at (seen (S.state store.old) S.number right.now)) }
    ensures lawful { IfOk result (λ p. IsLawful p.0 × IsLawful p.1) }
    ensures same { IfOk result (λ _. S.state store.new ≡ S.state store.old) }
    ensures uses { Uses (S.state store.old) (S.state store.new) None 0 0 }
{
    match number_of(store, at, left) {
        Ok(m) => match number_of(store, at, right) {
            Ok(n) => Ok((m, n)),
            Err(abrupt) => Err(abrupt),
        },
        Err(Abrupt::Threw(kind)) => Err(Abrupt::Threw(kind)),
        Err(Abrupt::Unsupported { at: place }) => match number_of(store, at, right) {
            Ok(_) => Err(Abrupt::Unsupported { at: place }),
            Err(abrupt) => Err(abrupt),
        },
    }
}

// Both sides as strings, joined.
fn join_strings<S: Strings>(
    alloc: Global,
    store: &mut S,
    left: &Value<S::Ref>,
    right: &Value<S::Ref>,
) -> Result<Value<S::Ref>, Stop>
    requires left { IsFine (S.state store.old) S.number left.now }
    requires right { IsFine (S.state store.old) S.number right.now }
    ensures grows { Grows (S.state store.old) (S.state store.new) }
    ensures fine { IfOk result (λ v. IsFine (S.state store.new) S.number v) }
    ensures did { GivesValue S.number (S.state store.old) (S.state store.new) result
        (joined_strings (S.state store.old).limit (seen (S.state store.old) S.number left.now)
        (seen (S.state store.old) S.number right.now)) }
{
    let a = to_text(alloc, store, left)?;
    let b = to_text(alloc, store, right)?;
    join(store, a, b)
}

// Two strings joined, unless they are longer together than a string may be. The lengths are added
// first, so what can't be joined uses nothing of the store.
fn join<S: Strings>(store: &mut S, a: S::Ref, b: S::Ref) -> Result<Value<S::Ref>, Stop>
    requires left { IsKnown (S.state store.old) (S.number a) }
    requires right { IsKnown (S.state store.old) (S.number b) }
    ensures grows { Grows (S.state store.old) (S.state store.new) }
    ensures fine { IfOk result (λ v. IsFine (S.state store.new) S.number v) }
    ensures did { GivesValue S.number (S.state store.old) (S.state store.new) result
        (concatenated (S.state store.old).limit (text (S.state store.old) (S.number a))
        (text (S.state store.old) (S.number b))) }
{
    let left = u64::from(store.len(a));
    let right = u64::from(store.len(b));
    if left + right > u64::from(store.limit()) {
        return Err(Stop::Threw(Kind::RangeError));
    }
    concat(store, a, b)
}

// Two strings joined, which aren't longer together than a string may be.
fn concat<S: Strings>(store: &mut S, a: S::Ref, b: S::Ref) -> Result<Value<S::Ref>, Stop>
    requires left { IsKnown (S.state store.old) (S.number a) }
    requires right { IsKnown (S.state store.old) (S.number b) }
    requires short { length (text (S.state store.old) (S.number a)) + length
        (text (S.state store.old) (S.number b)) ≤ (S.state store.old).limit }
    ensures grows { Grows (S.state store.old) (S.state store.new) }
    ensures fine { IfOk result (λ v. IsFine (S.state store.new) S.number v) }
    ensures did { GivesValue S.number (S.state store.old) (S.state store.new) result
        (concatenated (S.state store.old).limit (text (S.state store.old) (S.number a))
        (text (S.state store.old) (S.number b))) }
{
    match store.concat(a, b) {
        Ok(both) => Ok(Value::Text(both)),
        Err(ConcatFault::TooLong { .. }) => unreachable!(),
        Err(ConcatFault::Store(fault)) => Err(Stop::Store(fault)),
    }
}
