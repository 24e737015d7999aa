// Expressions.
ghost use Rattle.std.specs.Prelude.{◌≡◌, [], IfOk, IfSome, None, false, unwrap_or};
ghost use Rattle.eval_scopes.specs.Bindings.{meant};
ghost use Rattle.eval_values.specs.Outcome.{bind};
ghost use Rattle.js_store.specs.State.{Grows};
ghost use Rattle.eval_tree.specs.Tree as tree;
ghost use Rattle.eval_tree.specs.Tree.{variable, of_property, expr_tree, link_tree, links_tree, step_tree, steps_tree, exprs_tree, entries_tree};
ghost use Rattle.js_eval.specs.Paid.{entry_paid, entries_paid, Makes};
ghost use Rattle.js_eval.specs.Expression.{read_out, decides, expr_out, links_out, link_out, steps_out, step_out, exprs_out};
ghost use Rattle.js_item.specs.Contents.{no_fields};
ghost use Rattle.js_item.specs.Seen.{Val, seen, says, fields_mapped};
ghost use Rattle.eval_values.specs.Seen.{all_seen, AllFine};
ghost use Rattle.js_item.specs.Fine.{IsFine, FineFields, strings_of};
ghost use Rattle.js_eval.specs.Seen.{ContextFine, context_bindings, scope_of};
ghost use Rattle.eval_values.specs.Does.{GivesValue, GivesValues};

use crate::context::{Context, empty_list, keep_room, look_up, read};
use crate::literals::read_literal;
use crate::object::{bounded, intern_key, put};
use crate::operators::{apply, is_decided, is_true};
use crate::short::{at_hand, needs_both, of_link, test_at_hand};
use eval_builtins::call_builtin;
use eval_members::{
    call, look_up_property, present, read_description, read_index, read_length, read_property,
};
use eval_tree::{Builtin, Expr, Link, Name, PostStep};
use eval_values::{Kind, Stop, Value, apply_unary, number_value, push};
use js_item::{Object, ObjectBuilder};
use js_number::Num;
use js_store::Strings;
use js_units::Units;
use std::alloc::Global;

/// The value of an expression.
#[cycle(expr)]
pub fn expr<S: Strings>(
    alloc: Global,
    store: &mut S,
    context: &Context<S::Ref>,
    e: &Expr,
) -> Result<Value<S::Ref>, Stop>
    requires { ContextFine (S.state store.old) S.number context.now }
    ensures grows { Grows (S.state store.old) (S.state store.new) }
    ensures context { ContextFine (S.state store.new) S.number context.now }
    ensures fine { IfOk result (λ v. IsFine (S.state store.new) S.number v) }
    ensures did { GivesValue S.number (S.state store.old) (S.state store.new) result
        (expr_out (expr_tree e.now) (scope_of (S.state store.old) S.number context.now)) }
{
    match e {
        Expr::Literal { number } => Ok(read_literal(store, context, *number)),
        Expr::Number { value } => Ok(number_value(*value)),
        Expr::Variable { name } => read(store, context, name),
        Expr::Undefined => Ok(Value::Undefined),
        Expr::Null => Ok(Value::Null),
        Expr::Bool { value } => Ok(Value::Bool(*value)),
        Expr::NaN => Ok(Value::Number(Num::NaN)),
        Expr::Infinity => Ok(Value::Number(Num::PosInf)),
        Expr::Unary { at, minus, of } => unary(alloc, store, context, *at, *minus, of),
        Expr::Chain { first, rest } => chain(alloc, store, context, rest, first),
        Expr::Cond { test, yes, no } => conditional(alloc, store, context, test, yes, no),
        Expr::Post { of, steps: rest } => post(alloc, store, context, rest, of),
        Expr::Builtin { at, which, args } => builtin(alloc, store, context, *at, *which, args),
        Expr::Object { at, members } => object_literal(alloc, store, context, *at, members),
    }
}

// A minus, or a `!`. Each form that holds others has a function of its own, since each call pays for its locals.
#[cycle(expr)]
#[inline(never)]
fn unary<S: Strings>(
    alloc: Global,
    store: &mut S,
    context: &Context<S::Ref>,
    at: u32,
    minus: bool,
    of: &Expr,
) -> Result<Value<S::Ref>, Stop>
    requires { ContextFine (S.state store.old) S.number context.now }
    ensures grows { Grows (S.state store.old) (S.state store.new) }
    ensures context { ContextFine (S.state store.new) S.number context.now }
    ensures fine { IfOk result (λ v. IsFine (S.state store.new) S.number v) }
    ensures did { GivesValue S.number (S.state store.old) (S.state store.new) result
        (expr_out (tree.unary at minus (expr_tree of.now))
        (scope_of (S.state store.old) S.number context.now)) }
{
    let value = expr(alloc, store, context, of)?;
    apply_unary(store, at, minus, &value)
}

/// A first operand and the links behind it.
#[cycle(expr)]
#[inline(never)]
pub fn chain<S: Strings>(
    alloc: Global,
    store: &mut S,
    context: &Context<S::Ref>,
    rest: &[Link],
    first: &Expr,
) -> Result<Value<S::Ref>, Stop>
    requires { ContextFine (S.state store.old) S.number context.now }
    ensures grows { Grows (S.state store.old) (S.state store.new) }
    ensures context { ContextFine (S.state store.new) S.number context.now }
    ensures fine { IfOk result (λ v. IsFine (S.state store.new) S.number v) }
    ensures did { GivesValue S.number (S.state store.old) (S.state store.new) result
        (expr_out (tree.chain (expr_tree first.now) (links_tree rest.now))
        (scope_of (S.state store.old) S.number context.now)) }
{
    if rest.len() == 1 {
        let link = &rest[0];
        if needs_both(link.op) {
            return of_sides(alloc, store, context, link, first);
        }
    }
    let value = expr(alloc, store, context, first)?;
    links(alloc, store, context, rest, value)
}

// One link alone, whose operator needs both sides.
#[cycle(expr)]
#[inline(always)]
fn of_sides<S: Strings>(
    alloc: Global,
    store: &mut S,
    context: &Context<S::Ref>,
    link: &Link,
    first: &Expr,
) -> Result<Value<S::Ref>, Stop>
    requires context { ContextFine (S.state store.old) S.number context.now }
    requires both { (v : Val) → decides link.now.op v ≡ false }
    ensures grows { Grows (S.state store.old) (S.state store.new) }
    ensures context { ContextFine (S.state store.new) S.number context.now }
    ensures fine { IfOk result (λ v. IsFine (S.state store.new) S.number v) }
    ensures did { GivesValue S.number (S.state store.old) (S.state store.new) result
        (expr_out (tree.chain (expr_tree first.now)
        (tree.link link.now.at link.now.op (expr_tree link.now.right) tree.no_links))
        (scope_of (S.state store.old) S.number context.now)) }
{
    match of_link(store, context, link, first) {
        Some(value) => Ok(value),
        None => on_sides(alloc, store, context, link, first),
    }
}

// The same of any two values. A first side that is a name isn't copied.
#[cycle(expr)]
#[inline(always)]
fn on_sides<S: Strings>(
    alloc: Global,
    store: &mut S,
    context: &Context<S::Ref>,
    link: &Link,
    first: &Expr,
) -> Result<Value<S::Ref>, Stop>
    requires context { ContextFine (S.state store.old) S.number context.now }
    requires both { (v : Val) → decides link.now.op v ≡ false }
    ensures grows { Grows (S.state store.old) (S.state store.new) }
    ensures context { ContextFine (S.state store.new) S.number context.now }
    ensures fine { IfOk result (λ v. IsFine (S.state store.new) S.number v) }
    ensures did { GivesValue S.number (S.state store.old) (S.state store.new) result
        (expr_out (tree.chain (expr_tree first.now)
        (tree.link link.now.at link.now.op (expr_tree link.now.right) tree.no_links))
        (scope_of (S.state store.old) S.number context.now)) }
{
    match at_hand(store, context, first) {
        Some(left) => behind(alloc, store, context, link, left),
        None => {
            let left = expr(alloc, store, context, first)?;
            behind(alloc, store, context, link, &left)
        }
    }
}

// An operator that needs both sides, behind its first one.
#[cycle(expr)]
fn behind<S: Strings>(
    alloc: Global,
    store: &mut S,
    context: &Context<S::Ref>,
    link: &Link,
    left: &Value<S::Ref>,
) -> Result<Value<S::Ref>, Stop>
    requires context { ContextFine (S.state store.old) S.number context.now }
    requires left { IsFine (S.state store.old) S.number left.now }
    requires both { (v : Val) → decides link.now.op v ≡ false }
    ensures grows { Grows (S.state store.old) (S.state store.new) }
    ensures context { ContextFine (S.state store.new) S.number context.now }
    ensures fine { IfOk result (λ v. IsFine (S.state store.new) S.number v) }
    ensures did { GivesValue S.number (S.state store.old) (S.state store.new) result
        (link_out (link_tree link.now) (scope_of (S.state store.old) S.number context.now)
        (seen (S.state store.old) S.number left.now)) }
{
    let right = expr(alloc, store, context, &link.right)?;
    apply(alloc, store, link.at, link.op, left, right)
}

// The one of two expressions that a test chooses.
#[cycle(expr)]
#[inline(never)]
fn conditional<S: Strings>(
    alloc: Global,
    store: &mut S,
    context: &Context<S::Ref>,
    test: &Expr,
    yes: &Expr,
    no: &Expr,
) -> Result<Value<S::Ref>, Stop>
    requires { ContextFine (S.state store.old) S.number context.now }
    ensures grows { Grows (S.state store.old) (S.state store.new) }
    ensures context { ContextFine (S.state store.new) S.number context.now }
    ensures fine { IfOk result (λ v. IsFine (S.state store.new) S.number v) }
    ensures did { GivesValue S.number (S.state store.old) (S.state store.new) result
        (expr_out (tree.conditional (expr_tree test.now) (expr_tree yes.now) (expr_tree no.now))
        (scope_of (S.state store.old) S.number context.now)) }
{
    let value = test_value(alloc, store, context, test)?;
    if is_true(store, context, &value) {
        expr(alloc, store, context, yes)
    } else {
        expr(alloc, store, context, no)
    }
}

// The value of a test. Where it is an operator on two numbers at hand, only a boolean is made.
#[cycle(expr)]
#[inline(always)]
fn test_value<S: Strings>(
    alloc: Global,
    store: &mut S,
    context: &Context<S::Ref>,
    test: &Expr,
) -> Result<Value<S::Ref>, Stop>
    requires { ContextFine (S.state store.old) S.number context.now }
    ensures grows { Grows (S.state store.old) (S.state store.new) }
    ensures context { ContextFine (S.state store.new) S.number context.now }
    ensures fine { IfOk result (λ v. IsFine (S.state store.new) S.number v) }
    ensures did { GivesValue S.number (S.state store.old) (S.state store.new) result
        (expr_out (expr_tree test.now) (scope_of (S.state store.old) S.number context.now)) }
{
    match test_at_hand(store, context, test) {
        Some(held) => Ok(Value::Bool(held)),
        None => expr(alloc, store, context, test),
    }
}

/// An expression and the steps behind it.
#[cycle(expr)]
#[inline(never)]
pub fn post<S: Strings>(
    alloc: Global,
    store: &mut S,
    context: &Context<S::Ref>,
    rest: &[PostStep],
    of: &Expr,
) -> Result<Value<S::Ref>, Stop>
    requires { ContextFine (S.state store.old) S.number context.now }
    ensures grows { Grows (S.state store.old) (S.state store.new) }
    ensures context { ContextFine (S.state store.new) S.number context.now }
    ensures fine { IfOk result (λ v. IsFine (S.state store.new) S.number v) }
    ensures did { GivesValue S.number (S.state store.old) (S.state store.new) result
        (expr_out (tree.post (expr_tree of.now) (steps_tree rest.now))
        (scope_of (S.state store.old) S.number context.now)) }
{
    match name_of(of) {
        Some(name) => steps_of_name(alloc, store, context, name, rest),
        None => {
            let value = expr(alloc, store, context, of)?;
            steps(alloc, store, context, rest, &value)
        }
    }
}

// A call of a built-in function.
#[cycle(expr)]
#[inline(never)]
fn builtin<S: Strings>(
    alloc: Global,
    store: &mut S,
    context: &Context<S::Ref>,
    at: u32,
    which: Builtin,
    args: &[Expr],
) -> Result<Value<S::Ref>, Stop>
    requires { ContextFine (S.state store.old) S.number context.now }
    ensures grows { Grows (S.state store.old) (S.state store.new) }
    ensures context { ContextFine (S.state store.new) S.number context.now }
    ensures fine { IfOk result (λ v. IsFine (S.state store.new) S.number v) }
    ensures did { GivesValue S.number (S.state store.old) (S.state store.new) result
        (expr_out (tree.builtin at which (exprs_tree args.now))
        (scope_of (S.state store.old) S.number context.now)) }
{
    let values = exprs(alloc, store, context, args)?;
    let result = call_builtin(alloc, store, at, which, &values);
    keep_room(context, values);
    result
}

// An object literal.
#[cycle(expr)]
#[inline(never)]
fn object_literal<S: Strings>(
    alloc: Global,
    store: &mut S,
    context: &Context<S::Ref>,
    at: u32,
    members: &[(Units, Expr)],
) -> Result<Value<S::Ref>, Stop>
    requires { ContextFine (S.state store.old) S.number context.now }
    ensures grows { Grows (S.state store.old) (S.state store.new) }
    ensures context { ContextFine (S.state store.new) S.number context.now }
    ensures fine { IfOk result (λ v. IsFine (S.state store.new) S.number v) }
    ensures did { GivesValue S.number (S.state store.old) (S.state store.new) result
        (expr_out (tree.object at (entries_tree members.now))
        (scope_of (S.state store.old) S.number context.now)) }
{
    let object = members_of(alloc, store, context, members)?;
    bounded(store, at, object)
}

// The members of an object literal, from left to right.
#[cycle(expr)]
fn members_of<S: Strings>(
    alloc: Global,
    store: &mut S,
    context: &Context<S::Ref>,
    members: &[(Units, Expr)],
) -> Result<Object<S::Ref>, Stop>
    requires { ContextFine (S.state store.old) S.number context.now }
    ensures grows { Grows (S.state store.old) (S.state store.new) }
    ensures context { ContextFine (S.state store.new) S.number context.now }
    ensures fine { IfOk result (λ o. FineFields (strings_of (S.state store.new)) S.number o) }
    ensures did { Makes S.number (S.state store.old) (S.state store.new) result
        (entries_paid (entries_tree members.now)
        (scope_of (S.state store.old) S.number context.now) no_fields) }
{
    let mut object = ObjectBuilder::new(alloc);
    for member in members {
        object = with_member(alloc, store, context, member, object)?;
    }
    Ok(object.finish())
}

#[cycle(expr)]
fn with_member<S: Strings>(
    alloc: Global,
    store: &mut S,
    context: &Context<S::Ref>,
    member: &(Units, Expr),
    object: ObjectBuilder<S::Ref, S>,
) -> Result<ObjectBuilder<S::Ref, S>, Stop>
    requires context { ContextFine (S.state store.old) S.number context.now }
    requires object { FineFields (strings_of (S.state store.old)) S.number object }
    ensures grows { Grows (S.state store.old) (S.state store.new) }
    ensures context { ContextFine (S.state store.new) S.number context.now }
    ensures fine { IfOk result (λ o. FineFields (strings_of (S.state store.new)) S.number o) }
    ensures did { Makes S.number (S.state store.old) (S.state store.new) result
        (entry_paid member.now.0 (expr_tree member.now.1)
        (scope_of (S.state store.old) S.number context.now)
        (fields_mapped (says (S.state store.old) S.number) object)) }
{
    let key = intern_key(store, context, member.0.as_slice())?;
    let value = expr(alloc, store, context, &member.1)?;
    put(store, object, key, value)
}

// The links of a chain, from the value on their left.
#[cycle(expr)]
#[inline(always)]
fn links<S: Strings>(
    alloc: Global,
    store: &mut S,
    context: &Context<S::Ref>,
    rest: &[Link],
    first: Value<S::Ref>,
) -> Result<Value<S::Ref>, Stop>
    requires context { ContextFine (S.state store.old) S.number context.now }
    requires first { IsFine (S.state store.old) S.number first }
    ensures grows { Grows (S.state store.old) (S.state store.new) }
    ensures context { ContextFine (S.state store.new) S.number context.now }
    ensures fine { IfOk result (λ v. IsFine (S.state store.new) S.number v) }
    ensures did { GivesValue S.number (S.state store.old) (S.state store.new) result
        (links_out (links_tree rest.now) (scope_of (S.state store.old) S.number context.now)
        (seen (S.state store.old) S.number first)) }
{
    let mut value = first;
    for link in rest {
        value = one_link(alloc, store, context, link, value)?;
    }
    Ok(value)
}

#[cycle(expr)]
#[inline(always)]
fn one_link<S: Strings>(
    alloc: Global,
    store: &mut S,
    context: &Context<S::Ref>,
    link: &Link,
    left: Value<S::Ref>,
) -> Result<Value<S::Ref>, Stop>
    requires context { ContextFine (S.state store.old) S.number context.now }
    requires left { IsFine (S.state store.old) S.number left }
    ensures grows { Grows (S.state store.old) (S.state store.new) }
    ensures context { ContextFine (S.state store.new) S.number context.now }
    ensures fine { IfOk result (λ v. IsFine (S.state store.new) S.number v) }
    ensures did { GivesValue S.number (S.state store.old) (S.state store.new) result
        (link_out (link_tree link.now) (scope_of (S.state store.old) S.number context.now)
        (seen (S.state store.old) S.number left)) }
{
    if is_decided(store, context, link.op, &left) {
        return Ok(left);
    }
    let right = expr(alloc, store, context, &link.right)?;
    apply(alloc, store, link.at, link.op, &left, right)
}

// The name that an expression is, if it is one.
fn name_of(e: &Expr) -> Option<&Name>
    ensures { IfSome result (λ name. expr_tree e.now ≡ variable name.now) }
{
    match e {
        Expr::Variable { name } => Some(name),
        _ => None,
    }
}

// The steps behind a name, whose value isn't copied for the first one.
#[cycle(expr)]
fn steps_of_name<S: Strings>(
    alloc: Global,
    store: &mut S,
    context: &Context<S::Ref>,
    name: &Name,
    rest: &[PostStep],
) -> Result<Value<S::Ref>, Stop>
    requires { ContextFine (S.state store.old) S.number context.now }
    ensures grows { Grows (S.state store.old) (S.state store.new) }
    ensures context { ContextFine (S.state store.new) S.number context.now }
    ensures fine { IfOk result (λ v. IsFine (S.state store.new) S.number v) }
    ensures did { GivesValue S.number (S.state store.old) (S.state store.new) result
        (bind (read_out (meant (context_bindings (S.state store.old) S.number context.now) name.now))
        (λ v. steps_out (steps_tree rest.now) (scope_of (S.state store.old) S.number context.now) v)) }
{
    match look_up(store, context, name) {
        Some(value) => steps(alloc, store, context, rest, value),
        None => Err(Stop::Threw(Kind::ReferenceError)),
    }
}

// The steps behind a value.
#[cycle(expr)]
#[inline(always)]
fn steps<S: Strings>(
    alloc: Global,
    store: &mut S,
    context: &Context<S::Ref>,
    rest: &[PostStep],
    first: &Value<S::Ref>,
) -> Result<Value<S::Ref>, Stop>
    requires context { ContextFine (S.state store.old) S.number context.now }
    requires first { IsFine (S.state store.old) S.number first.now }
    ensures grows { Grows (S.state store.old) (S.state store.new) }
    ensures context { ContextFine (S.state store.new) S.number context.now }
    ensures fine { IfOk result (λ v. IsFine (S.state store.new) S.number v) }
    ensures did { GivesValue S.number (S.state store.old) (S.state store.new) result
        (steps_out (steps_tree rest.now) (scope_of (S.state store.old) S.number context.now)
        (seen (S.state store.old) S.number first.now)) }
{
    if rest.len() == 1 {
        let step = &rest[0];
        return one_step(alloc, store, context, step, first);
    }
    many_steps(alloc, store, context, rest, first)
}

// The same one after another. It is a function of its own, since each call pays for its locals.
#[cycle(expr)]
#[inline(never)]
fn many_steps<S: Strings>(
    alloc: Global,
    store: &mut S,
    context: &Context<S::Ref>,
    rest: &[PostStep],
    first: &Value<S::Ref>,
) -> Result<Value<S::Ref>, Stop>
    requires context { ContextFine (S.state store.old) S.number context.now }
    requires first { IsFine (S.state store.old) S.number first.now }
    ensures grows { Grows (S.state store.old) (S.state store.new) }
    ensures context { ContextFine (S.state store.new) S.number context.now }
    ensures fine { IfOk result (λ v. IsFine (S.state store.new) S.number v) }
    ensures did { GivesValue S.number (S.state store.old) (S.state store.new) result
        (steps_out (steps_tree rest.now) (scope_of (S.state store.old) S.number context.now)
        (seen (S.state store.old) S.number first.now)) }
{
    let absent = Value::Undefined;
    let mut place = first;
    let mut value: Option<Value<S::Ref>> = None;
    for step in rest {
        match property_in_place(step, &value) {
            Some((at, key)) => {
                let found = look_up_property(alloc, store, at, place, key, &absent)?;
                place = found;
                continue;
            }
            None => {
                let of = latest(store, &value, place);
                let next = one_step(alloc, store, context, step, of)?;
                value = Some(next);
            }
        }
    }
    match value {
        Some(last) => Ok(last),
        None => Ok(place.copy()?),
    }
}

// The place and the key of a property of a value in its place, where the step reads one.
fn property_in_place<'a, R>(
    step: &'a PostStep,
    value: &Option<Value<R>>,
) -> Option<(u32, &'a [u16])>
    ensures step { IfSome result (λ p. step_tree step.now ≡ of_property p.0 p.1.now) }
    ensures value { IfSome result (λ p. value.now ≡ None) }
{
    match value {
        Some(_) => None,
        None => property_of_step(step),
    }
}

fn property_of_step(step: &PostStep) -> Option<(u32, &[u16])>
    ensures { IfSome result (λ p. step_tree step.now ≡ of_property p.0 p.1.now) }
{
    match step {
        PostStep::Property { at, key } => Some((*at, key.as_slice())),
        _ => None,
    }
}

// The value that the steps so far gave, or the one in its place before them.
fn latest<'a, S: Strings>(
    _store: &S,
    value: &'a Option<Value<S::Ref>>,
    place: &'a Value<S::Ref>,
) -> &'a Value<S::Ref>
    requires { IsFine (S.state _store.now) S.number (unwrap_or value.now place.now) }
    ensures fine { IsFine (S.state _store.now) S.number result.now }
    ensures is { result.now ≡ unwrap_or value.now place.now }
{
    match value {
        Some(value) => value,
        None => place,
    }
}

#[cycle(expr)]
fn one_step<S: Strings>(
    alloc: Global,
    store: &mut S,
    context: &Context<S::Ref>,
    step: &PostStep,
    value: &Value<S::Ref>,
) -> Result<Value<S::Ref>, Stop>
    requires context { ContextFine (S.state store.old) S.number context.now }
    requires value { IsFine (S.state store.old) S.number value.now }
    ensures grows { Grows (S.state store.old) (S.state store.new) }
    ensures context { ContextFine (S.state store.new) S.number context.now }
    ensures fine { IfOk result (λ v. IsFine (S.state store.new) S.number v) }
    ensures did { GivesValue S.number (S.state store.old) (S.state store.new) result
        (step_out (step_tree step.now) (scope_of (S.state store.old) S.number context.now)
        (seen (S.state store.old) S.number value.now)) }
{
    match step {
        PostStep::Length => read_length(store, value),
        PostStep::Description => read_description(store, value),
        PostStep::Property { at, key } => {
            read_property(alloc, store, *at, value, key.as_slice())
        }
        PostStep::Call { at, method, args } => {
            present(store, value)?;
            let values = exprs(alloc, store, context, args)?;
            let result = call(alloc, store, *at, *method, value, &values);
            keep_room(context, values);
            result
        }
        PostStep::Index { at, index } => match at_hand(store, context, index) {
            Some(index) => read_index(alloc, store, *at, value, index),
            None => {
                let index = expr(alloc, store, context, index)?;
                read_index(alloc, store, *at, value, &index)
            }
        },
    }
}

/// The values of expressions, from left to right.
#[cycle(expr)]
pub fn exprs<S: Strings>(
    alloc: Global,
    store: &mut S,
    context: &Context<S::Ref>,
    list: &[Expr],
) -> Result<Vec<Value<S::Ref>>, Stop>
    requires { ContextFine (S.state store.old) S.number context.now }
    ensures grows { Grows (S.state store.old) (S.state store.new) }
    ensures context { ContextFine (S.state store.new) S.number context.now }
    ensures fine { IfOk result (λ v. AllFine (S.state store.new) S.number v.items) }
    ensures did { GivesValues S.number (S.state store.old) (S.state store.new) result
        (exprs_out (exprs_tree list.now) (scope_of (S.state store.old) S.number context.now)) }
{
    let mut values = empty_list(alloc, context);
    for e in list {
        let value = expr(alloc, store, context, e)?;
        push(&mut values, value)?;
    }
    Ok(values)
}
