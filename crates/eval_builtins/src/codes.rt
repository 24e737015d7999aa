// Strings of numbers (ECMA-262, "String.fromCharCode", "String.fromCodePoint").
ghost use Rattle.eval_builtins.specs.Parts.{number_out, made as made_out};
ghost use Rattle.std.specs.Prelude.{◌≡◌, ◌≤◌, List, [], true, All, map, length, IfOk};
ghost use Rattle.std.specs.List.{list_all};
ghost use Rattle.js_number.specs.Places.{IsLawful};
ghost use Rattle.js_number.specs.Arith.{modulo};
ghost use Rattle.js_store.specs.State.{Grows};
ghost use Rattle.js_methods.specs.Building.{is_code_point, code_units_of};
ghost use Rattle.js_item.specs.Seen.{Val, seen};
ghost use Rattle.eval_values.specs.Outcome.{each};
ghost use Rattle.eval_builtins.specs.Codes.{point_out};
ghost use Rattle.js_texts.specs.Texts.{Every};
ghost use Rattle.js_item.specs.Fine.{IsFine};
ghost use Rattle.eval_values.specs.Seen.{all_seen, AllFine};
ghost use Rattle.eval_builtins.specs.Numbers.{IsFor};
ghost use Rattle.eval_values.specs.Does.{GivesValue};
ghost use Rattle.eval_builtins.specs.Numbers.{taken_of, units_of, codes_call, GivesNumber, GivesNumbers};

use eval_values::{Kind, Stop, Value, number_of, push};
use js_number::Num;
use js_store::Strings;
use std::alloc::Global;

/// A function of the constructor that makes a string of numbers.
#[derive(Clone, Copy, Debug, PartialEq, Eq)]
pub(crate) enum Codes {
    CharCodes,
    CodePoints,
}

/// `String.fromCharCode` or `String.fromCodePoint`, with all its arguments.
pub(crate) fn from_codes<S: Strings>(
    alloc: Global,
    store: &mut S,
    at: u32,
    which: Codes,
    args: &[Value<S::Ref>],
) -> Result<Value<S::Ref>, Stop>
    requires { AllFine (S.state store.old) S.number args.now }
    ensures grows { Grows (S.state store.old) (S.state store.new) }
    ensures fine { IfOk result (λ v. IsFine (S.state store.new) S.number v) }
    ensures did { GivesValue S.number (S.state store.old) (S.state store.new) result
        (codes_call which at (all_seen (S.state store.old) S.number args.now)) }
{
    if args.len() > 1048576 {
        return Err(Stop::Threw(Kind::RangeError));
    }
    let numbers = numbers(alloc, store, at, which, args)?;
    make(alloc, store, which, &numbers)
}

// The arguments as numbers, from left to right.
fn numbers<S: Strings>(
    alloc: Global,
    store: &mut S,
    at: u32,
    which: Codes,
    args: &[Value<S::Ref>],
) -> Result<Vec<Num>, Stop>
    requires { AllFine (S.state store.old) S.number args.now }
    ensures grows { Grows (S.state store.old) (S.state store.new) }
    ensures each { IfOk result (λ v. Every (IsFor which) v.items) }
    ensures count { IfOk result (λ v. length v.items ≡ length args.now) }
    ensures same { IfOk result (λ _. S.state store.new ≡ S.state store.old) }
    ensures did { GivesNumbers (S.state store.old) (S.state store.new) which result
        (each (number_out (taken_of which (all_seen (S.state store.old) S.number args.now)) at
        (all_seen (S.state store.old) S.number args.now)) (all_seen (S.state store.old) S.number args.now)) }
{
    let mut numbers = Vec::new(alloc);
    for value in args {
        let number = number(store, at, which, value)?;
        push(&mut numbers, number)?;
    }
    Ok(numbers)
}

// An argument as a number, where it is one that the function uses.
fn number<S: Strings>(
    store: &mut S,
    at: u32,
    which: Codes,
    value: &Value<S::Ref>,
) -> Result<Num, Stop>
    requires { IsFine (S.state store.old) S.number value.now }
    ensures grows { Grows (S.state store.old) (S.state store.new) }
    ensures is_for { IfOk result (IsFor which) }
    ensures same { IfOk result (λ _. S.state store.new ≡ S.state store.old) }
    ensures did { (vs : List Val) → GivesNumber (S.state store.old) (S.state store.new) which result
        (number_out (taken_of which vs) at vs (seen (S.state store.old) S.number value.now)) }
{
    let n = number_of(store, at, value)?;
    match which {
        Codes::CharCodes => Ok(n),
        Codes::CodePoints => code_point(store, n),
    }
}

fn code_point<S: Strings>(_store: &S, n: Num) -> Result<Num, Stop>
    ensures is_for { IfOk result (IsFor Codes.CodePoints) }
    ensures did { (vs : List Val) → GivesNumber (S.state _store.now) (S.state _store.now) Codes.CodePoints
        result (point_out vs n) }
{
    match n {
        Num::Int(k) if 0 <= k && k <= 0x10FFFF => Ok(n),
        _ => Err(Stop::Threw(Kind::RangeError)),
    }
}

// The string of the numbers of a call with the arguments vs.
fn make<S: Strings>(
    alloc: Global,
    store: &mut S,
    which: Codes,
    numbers: &[Num],
) -> Result<Value<S::Ref>, Stop>
    requires each { Every (IsFor which) numbers.now }
    requires count { length numbers.now ≤ 1048576 }
    ensures grows { Grows (S.state store.old) (S.state store.new) }
    ensures fine { IfOk result (λ v. IsFine (S.state store.new) S.number v) }
    ensures did { (vs : List Val) → GivesValue S.number (S.state store.old) (S.state store.new) result
        (made_out vs (units_of which numbers.now)) }
{
    match which {
        Codes::CharCodes => from_char_codes(alloc, store, numbers),
        Codes::CodePoints => from_code_points(alloc, store, numbers),
    }
}

fn from_char_codes<S: Strings>(
    alloc: Global,
    store: &mut S,
    codes: &[Num],
) -> Result<Value<S::Ref>, Stop>
    requires lawful { All IsLawful codes.now }
    requires count { length codes.now ≤ 1048576 }
    ensures grows { Grows (S.state store.old) (S.state store.new) }
    ensures fine { IfOk result (λ v. IsFine (S.state store.new) S.number v) }
    ensures did { (vs : List Val) → GivesValue S.number (S.state store.old) (S.state store.new) result
        (made_out vs (map (modulo 65536) codes.now)) }
{
    let r = js_methods::building::from_char_code(alloc, store, codes)?;
    Ok(Value::Text(r))
}

fn from_code_points<S: Strings>(
    alloc: Global,
    store: &mut S,
    points: &[Num],
) -> Result<Value<S::Ref>, Stop>
    requires points { list_all is_code_point points.now ≡ true }
    requires count { length points.now ≤ 1048576 }
    ensures grows { Grows (S.state store.old) (S.state store.new) }
    ensures fine { IfOk result (λ v. IsFine (S.state store.new) S.number v) }
    ensures did { (vs : List Val) → GivesValue S.number (S.state store.old) (S.state store.new) result
        (made_out vs (code_units_of points.now)) }
{
    let r = js_methods::building::from_code_point(alloc, store, points)?;
    Ok(Value::Text(r))
}
