// Operators on the values of both sides.
ghost use Rattle.std.specs.Prelude.{◌≡◌, ℕ, Ok, None, IfOk, IfSome};
ghost use Rattle.js_number.specs.Places.{IsLawful};
ghost use Rattle.js_store.specs.State.{Grows};
ghost use Rattle.js_store.specs.Faults.{Uses};
ghost use Rattle.eval_values.specs.Comparing.{is_less as less_in, is_greater as greater_in, is_at_most as at_most_in, is_at_least as at_least_in};
ghost use Rattle.eval_values.specs.Conversions.{to_boolean};
ghost use Rattle.js_item.specs.Contents.{number};
ghost use Rattle.js_item.specs.Seen.{seen};
ghost use Rattle.js_item.specs.Fine.{IsFine};
ghost use Rattle.eval_values.specs.Does.{GivesValue};
ghost use Rattle.js_eval.specs.Expression.{decides, operated};
ghost use Rattle.js_eval.specs.Seen.{ContextFine};

use crate::context::Context;
use eval_tree::Op;
use eval_values::{Stop, Value, compare, is_equal, is_same, order_of, plus, subtract, truth};
use js_number::Num;
use js_store::Strings;
use std::alloc::Global;
use std::cmp::Ordering;

/// ToBoolean of a value.
pub fn is_true<S: Strings>(store: &mut S, _context: &Context<S::Ref>, value: &Value<S::Ref>) -> bool
    requires context { ContextFine (S.state store.old) S.number _context.now }
    requires value { IsFine (S.state store.old) S.number value.now }
    ensures value { result ≡ to_boolean (seen (S.state store.old) S.number value.now) }
    ensures uses { Uses (S.state store.old) (S.state store.new) None 0 0 }
    ensures context { ContextFine (S.state store.new) S.number _context.now }
{
    truth(store, value)
}

/// Whether the left side of an operator is its value, so that the right side isn't evaluated.
pub fn is_decided<S: Strings>(
    store: &mut S,
    context: &Context<S::Ref>,
    op: Op,
    left: &Value<S::Ref>,
) -> bool
    requires context { ContextFine (S.state store.old) S.number context.now }
    requires left { IsFine (S.state store.old) S.number left.now }
    ensures value { result ≡ decides op (seen (S.state store.old) S.number left.now) }
    ensures uses { Uses (S.state store.old) (S.state store.new) None 0 0 }
    ensures context { ContextFine (S.state store.new) S.number context.now }
{
    match op {
        Op::Or => is_true(store, context, left),
        Op::And => {
            let holds = is_true(store, context, left);
            !holds
        }
        Op::Same
        | Op::NotSame
        | Op::Less
        | Op::Greater
        | Op::LessEq
        | Op::GreaterEq
        | Op::Plus
        | Op::Minus => false,
    }
}

/// An operator at the byte offset `at`, on its two sides.
pub fn apply<S: Strings>(
    alloc: Global,
    store: &mut S,
    at: u32,
    op: Op,
    left: &Value<S::Ref>,
    right: Value<S::Ref>,
) -> Result<Value<S::Ref>, Stop>
    requires left { IsFine (S.state store.old) S.number left.now }
    requires right { IsFine (S.state store.old) S.number right }
    ensures grows { Grows (S.state store.old) (S.state store.new) }
    ensures fine { IfOk result (λ v. IsFine (S.state store.new) S.number v) }
    ensures did { GivesValue S.number (S.state store.old) (S.state store.new) result
        (operated op at (S.state store.old).limit
        (seen (S.state store.old) S.number left.now) (seen (S.state store.old) S.number right)) }
{
    match of_numbers(store, op, left, &right) {
        Some(value) => Ok(value),
        None => apply_to_any(alloc, store, at, op, left, right),
    }
}

// The same for any two values.
fn apply_to_any<S: Strings>(
    alloc: Global,
    store: &mut S,
    at: u32,
    op: Op,
    left: &Value<S::Ref>,
    right: Value<S::Ref>,
) -> Result<Value<S::Ref>, Stop>
    requires left { IsFine (S.state store.old) S.number left.now }
    requires right { IsFine (S.state store.old) S.number right }
    ensures grows { Grows (S.state store.old) (S.state store.new) }
    ensures fine { IfOk result (λ v. IsFine (S.state store.new) S.number v) }
    ensures did { GivesValue S.number (S.state store.old) (S.state store.new) result
        (operated op at (S.state store.old).limit
        (seen (S.state store.old) S.number left.now) (seen (S.state store.old) S.number right)) }
{
    match op {
        Op::Or | Op::And => Ok(right),
        Op::Same => {
            let same = is_same(store, at, left, &right)?;
            Ok(Value::Bool(same))
        }
        Op::NotSame => {
            let same = is_same(store, at, left, &right)?;
            Ok(Value::Bool(!same))
        }
        Op::Less => {
            let order = compare(alloc, store, at, left, &right)?;
            Ok(Value::Bool(is_less(order)))
        }
        Op::Greater => {
            let order = compare(alloc, store, at, left, &right)?;
            Ok(Value::Bool(is_greater(order)))
        }
        Op::LessEq => {
            let order = compare(alloc, store, at, left, &right)?;
            Ok(Value::Bool(is_at_most(order)))
        }
        Op::GreaterEq => {
            let order = compare(alloc, store, at, left, &right)?;
            Ok(Value::Bool(is_at_least(order)))
        }
        Op::Plus => plus(alloc, store, at, left, &right),
        Op::Minus => subtract(store, at, left, &right),
    }
}

// The short way of a sum, a difference or a `<` of two numbers, where there is a value.
#[inline(always)]
fn of_numbers<S: Strings>(
    store: &S,
    op: Op,
    left: &Value<S::Ref>,
    right: &Value<S::Ref>,
) -> Option<Value<S::Ref>>
    requires left { IsFine (S.state store.now) S.number left.now }
    requires right { IsFine (S.state store.now) S.number right.now }
    ensures fine { IfSome result (λ v. IsFine (S.state store.now) S.number v) }
    ensures did { (at limit : ℕ) → IfSome result
        (λ v. GivesValue S.number (S.state store.now) (S.state store.now)
        (Ok v) (operated op at limit (seen (S.state store.now) S.number left.now)
        (seen (S.state store.now) S.number right.now))) }
{
    match left {
        Value::Number(m) => match right {
            Value::Number(n) => of_both(store, op, *m, *n),
            Value::Undefined
            | Value::Null
            | Value::Bool(_)
            | Value::Text(_)
            | Value::Symbol(_)
            | Value::List(_)
            | Value::Object(_) => None,
        },
        Value::Undefined
        | Value::Null
        | Value::Bool(_)
        | Value::Text(_)
        | Value::Symbol(_)
        | Value::List(_)
        | Value::Object(_) => None,
    }
}

#[inline(always)]
pub fn of_both<S: Strings>(_store: &S, op: Op, m: Num, n: Num) -> Option<Value<S::Ref>>
    requires left { IsLawful m }
    requires right { IsLawful n }
    ensures fine { IfSome result (λ v. IsFine (S.state _store.now) S.number v) }
    ensures did { (at limit : ℕ) → IfSome result
        (λ v. GivesValue S.number (S.state _store.now) (S.state _store.now)
        (Ok v) (operated op at limit (number m) (number n))) }
{
    match op {
        Op::Plus => match m.add(n) {
            Some(sum) => Some(Value::Number(sum)),
            None => None,
        },
        Op::Minus => match m.sub(n) {
            Some(difference) => Some(Value::Number(difference)),
            None => None,
        },
        Op::Less => match m.less(n) {
            Some(less) => Some(Value::Bool(less)),
            None => None,
        },
        Op::Same => {
            let order = order_of(m, n);
            Some(Value::Bool(is_equal(order)))
        }
        Op::NotSame => {
            let order = order_of(m, n);
            let same = is_equal(order);
            Some(Value::Bool(!same))
        }
        Op::Greater => {
            let order = order_of(m, n);
            Some(Value::Bool(is_greater(order)))
        }
        Op::LessEq => {
            let order = order_of(m, n);
            Some(Value::Bool(is_at_most(order)))
        }
        Op::GreaterEq => {
            let order = order_of(m, n);
            Some(Value::Bool(is_at_least(order)))
        }
        Op::Or | Op::And => None,
    }
}

fn is_less(order: Option<Ordering>) -> bool
    ensures { result ≡ less_in order }
{
    match order {
        Some(Ordering::Less) => true,
        Some(Ordering::Equal) | Some(Ordering::Greater) | None => false,
    }
}

fn is_greater(order: Option<Ordering>) -> bool
    ensures { result ≡ greater_in order }
{
    match order {
        Some(Ordering::Greater) => true,
        Some(Ordering::Less) | Some(Ordering::Equal) | None => false,
    }
}

fn is_at_most(order: Option<Ordering>) -> bool
    ensures { result ≡ at_most_in order }
{
    match order {
        Some(Ordering::Less) | Some(Ordering::Equal) => true,
        Some(Ordering::Greater) | None => false,
    }
}

fn is_at_least(order: Option<Ordering>) -> bool
    ensures { result ≡ at_least_in order }
{
    match order {
        Some(Ordering::Greater) | Some(Ordering::Equal) => true,
        Some(Ordering::Less) | None => false,
    }
}
