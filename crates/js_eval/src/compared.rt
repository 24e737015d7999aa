// Tests of one operator on two sides: both are evaluated, and no value is made of what they compare to.
ghost use Rattle.std.specs.Prelude.{◌≡◌, Ok, IfOk, IfSome, false};
ghost use Rattle.js_store.specs.State.{Grows};
ghost use Rattle.eval_tree.specs.Tree as tree;
ghost use Rattle.eval_tree.specs.Tree.{expr_tree, link_tree, links_tree, steps_tree};
ghost use Rattle.js_item.specs.Seen.{Val, seen};
ghost use Rattle.js_item.specs.Fine.{IsFine};
ghost use Rattle.eval_values.specs.Conversions.{to_boolean};
ghost use Rattle.eval_values.specs.Does.{GivesValue, GivesPlain};
ghost use Rattle.js_eval.specs.Expression.{expr_out, link_out, decides, operated};
ghost use Rattle.js_eval.specs.Seen.{ContextFine, scope_of};
ghost use Rattle.js_eval.specs.Flows.{told};

use crate::context::{Context, read};
use crate::expr::{chain, expr, post};
use crate::literals::read_literal;
use crate::operators::apply;
use crate::short::{at_hand, needs_both};
use eval_members::read_index;
use eval_tree::{Expr, Link, Op, PostStep};
use eval_values::{Stop, Value, is_same, truth};
use js_store::Strings;
use std::alloc::Global;

/// The two sides of a test, where it is one operator that needs both.
pub fn two_sides(test: &Expr) -> Option<(&Expr, &Link)>
    ensures tree { IfSome result (λ p. expr_tree test.now ≡ tree.chain (expr_tree p.0.now)
        (tree.link p.1.now.at p.1.now.op (expr_tree p.1.now.right) tree.no_links)) }
    ensures both { IfSome result (λ p. (v : Val) → decides p.1.now.op v ≡ false) }
{
    match test {
        Expr::Chain { first, rest } => sides_of(rest, first),
        _ => None,
    }
}

fn sides_of<'a>(rest: &'a [Link], first: &'a Expr) -> Option<(&'a Expr, &'a Link)>
    ensures tree { IfSome result (λ p. tree.chain (expr_tree first.now) (links_tree rest.now)
        ≡ tree.chain (expr_tree p.0.now)
        (tree.link p.1.now.at p.1.now.op (expr_tree p.1.now.right) tree.no_links)) }
    ensures both { IfSome result (λ p. (v : Val) → decides p.1.now.op v ≡ false) }
{
    if rest.len() != 1 {
        return None;
    }
    let link = &rest[0];
    if !needs_both(link.op) {
        return None;
    }
    Some((first, link))
}

/// Whether an operator on a first side and that of its link is true.
pub fn holds_of_two<S: Strings>(
    alloc: Global,
    store: &mut S,
    context: &Context<S::Ref>,
    first: &Expr,
    link: &Link,
) -> Result<bool, Stop>
    requires context { ContextFine (S.state store.old) S.number context.now }
    requires both { (v : Val) → decides link.now.op v ≡ false }
    ensures grows { Grows (S.state store.old) (S.state store.new) }
    ensures context { ContextFine (S.state store.new) S.number context.now }
    ensures did { GivesPlain (S.state store.old) (S.state store.new) result
        (told to_boolean (expr_out (tree.chain (expr_tree first.now)
        (tree.link link.now.at link.now.op (expr_tree link.now.right) tree.no_links))
        (scope_of (S.state store.old) S.number context.now))) }
{
    let left = side(alloc, store, context, first)?;
    holds_behind(alloc, store, context, link, &left)
}

// The same behind a first side that was evaluated.
fn holds_behind<S: Strings>(
    alloc: Global,
    store: &mut S,
    context: &Context<S::Ref>,
    link: &Link,
    left: &Value<S::Ref>,
) -> Result<bool, Stop>
    requires context { ContextFine (S.state store.old) S.number context.now }
    requires left { IsFine (S.state store.old) S.number left.now }
    requires both { (v : Val) → decides link.now.op v ≡ false }
    ensures grows { Grows (S.state store.old) (S.state store.new) }
    ensures context { ContextFine (S.state store.new) S.number context.now }
    ensures did { GivesPlain (S.state store.old) (S.state store.new) result
        (told to_boolean (link_out (link_tree link.now)
        (scope_of (S.state store.old) S.number context.now)
        (seen (S.state store.old) S.number left.now))) }
{
    let right = side(alloc, store, context, &link.right)?;
    holds_on(alloc, store, link.at, link.op, left, right)
}

/// The value of a side of a comparison or an assignment. A literal, a name, and what has steps or operators, is
/// evaluated here; anything else as any expression.
#[inline(always)]
pub fn side<S: Strings>(
    alloc: Global,
    store: &mut S,
    context: &Context<S::Ref>,
    e: &Expr,
) -> Result<Value<S::Ref>, Stop>
    requires { ContextFine (S.state store.old) S.number context.now }
    ensures grows { Grows (S.state store.old) (S.state store.new) }
    ensures context { ContextFine (S.state store.new) S.number context.now }
    ensures fine { IfOk result (λ v. IsFine (S.state store.new) S.number v) }
    ensures did { GivesValue S.number (S.state store.old) (S.state store.new) result
        (expr_out (expr_tree e.now) (scope_of (S.state store.old) S.number context.now)) }
{
    match e {
        Expr::Literal { number } => Ok(read_literal(store, context, *number)),
        Expr::Variable { name } => read(store, context, name),
        Expr::Post { of, steps } => side_with_steps(alloc, store, context, steps, of),
        Expr::Chain { first, rest } => chain(alloc, store, context, rest, first),
        _ => expr(alloc, store, context, e),
    }
}

// The value of a side that has steps. An index alone, where it and what is left of it are names, is read at once.
#[inline(never)]
fn side_with_steps<S: Strings>(
    alloc: Global,
    store: &mut S,
    context: &Context<S::Ref>,
    steps: &[PostStep],
    of: &Expr,
) -> Result<Value<S::Ref>, Stop>
    requires { ContextFine (S.state store.old) S.number context.now }
    ensures grows { Grows (S.state store.old) (S.state store.new) }
    ensures context { ContextFine (S.state store.new) S.number context.now }
    ensures fine { IfOk result (λ v. IsFine (S.state store.new) S.number v) }
    ensures did { GivesValue S.number (S.state store.old) (S.state store.new) result
        (expr_out (tree.post (expr_tree of.now) (steps_tree steps.now))
        (scope_of (S.state store.old) S.number context.now)) }
{
    if steps.len() != 1 {
        return post(alloc, store, context, steps, of);
    }
    let step = &steps[0];
    match step {
        PostStep::Index { at, index } => match two_at_hand(store, context, of, index) {
            Some((value, index)) => read_index(alloc, store, *at, value, index),
            None => post(alloc, store, context, steps, of),
        },
        _ => post(alloc, store, context, steps, of),
    }
}

// The values of two expressions, where both are names.
fn two_at_hand<'a, S: Strings>(
    store: &S,
    context: &'a Context<S::Ref>,
    first: &Expr,
    second: &Expr,
) -> Option<(&'a Value<S::Ref>, &'a Value<S::Ref>)>
    requires { ContextFine (S.state store.now) S.number context.now }
    ensures fine { IfSome result (λ p. IsFine (S.state store.now) S.number p.0.now) }
    ensures second_fine { IfSome result (λ p. IsFine (S.state store.now) S.number p.1.now) }
    ensures did { IfSome result (λ p. GivesValue S.number (S.state store.now) (S.state store.now)
        (Ok p.0.now) (expr_out (expr_tree first.now) (scope_of (S.state store.now) S.number context.now))) }
    ensures second_did { IfSome result (λ p. GivesValue S.number (S.state store.now) (S.state store.now)
        (Ok p.1.now) (expr_out (expr_tree second.now)
        (scope_of (S.state store.now) S.number context.now))) }
{
    let value = at_hand(store, context, first)?;
    let other = at_hand(store, context, second)?;
    Some((value, other))
}

// Whether what an operator gives of two values is true.
fn holds_on<S: Strings>(
    alloc: Global,
    store: &mut S,
    at: u32,
    op: Op,
    left: &Value<S::Ref>,
    right: Value<S::Ref>,
) -> Result<bool, Stop>
    requires left { IsFine (S.state store.old) S.number left.now }
    requires right { IsFine (S.state store.old) S.number right }
    ensures grows { Grows (S.state store.old) (S.state store.new) }
    ensures did { GivesPlain (S.state store.old) (S.state store.new) result
        (told to_boolean (operated op at (S.state store.old).limit
        (seen (S.state store.old) S.number left.now) (seen (S.state store.old) S.number right))) }
{
    match op {
        Op::Same => is_same(store, at, left, &right),
        Op::NotSame => {
            let same = is_same(store, at, left, &right)?;
            Ok(!same)
        }
        Op::Or
        | Op::And
        | Op::Less
        | Op::Greater
        | Op::LessEq
        | Op::GreaterEq
        | Op::Plus
        | Op::Minus => is_true_of(alloc, store, at, op, left, right),
    }
}

// The same of any operator.
fn is_true_of<S: Strings>(
    alloc: Global,
    store: &mut S,
    at: u32,
    op: Op,
    left: &Value<S::Ref>,
    right: Value<S::Ref>,
) -> Result<bool, Stop>
    requires left { IsFine (S.state store.old) S.number left.now }
    requires right { IsFine (S.state store.old) S.number right }
    ensures grows { Grows (S.state store.old) (S.state store.new) }
    ensures did { GivesPlain (S.state store.old) (S.state store.new) result
        (told to_boolean (operated op at (S.state store.old).limit
        (seen (S.state store.old) S.number left.now) (seen (S.state store.old) S.number right))) }
{
    let value = apply(alloc, store, at, op, left, right)?;
    Ok(truth(store, &value))
}
