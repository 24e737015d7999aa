// Short ways: an operator on two numbers that are at hand, as names or as they are written. A value
// behind a name is read in its place.
ghost use Rattle.std.specs.Prelude.{◌≡◌, Ok, IfSome, false, true};
ghost use Rattle.js_number.specs.Places.{IsLawful};
ghost use Rattle.eval_tree.specs.Tree as tree;
ghost use Rattle.eval_tree.specs.Tree.{expr_tree, link_tree, links_tree};
ghost use Rattle.js_item.specs.Contents.{number};
ghost use Rattle.js_item.specs.Seen.{Val, seen};
ghost use Rattle.js_item.specs.Fine.{IsFine};
ghost use Rattle.js_item.specs.declared.item.Item.TheVariants as value;
ghost use Rattle.eval_values.specs.Does.{GivesValue};
ghost use Rattle.js_eval.specs.Expression.{expr_out, decides};
ghost use Rattle.js_eval.specs.Seen.{ContextFine, scope_of};

use crate::context::{Context, look_up};
use crate::operators::of_both;
use eval_tree::{Expr, Link, Op};
use eval_values::{Value, number_value};
use js_number::Num;
use js_store::Strings;

/// Whether a test holds, where it is an operator on two numbers at hand.
pub fn test_at_hand<S: Strings>(store: &S, context: &Context<S::Ref>, e: &Expr) -> Option<bool>
    requires { ContextFine (S.state store.now) S.number context.now }
    ensures { IfSome result (λ b. GivesValue S.number (S.state store.now) (S.state store.now)
        (Ok (value.Bool b))
        (expr_out (expr_tree e.now) (scope_of (S.state store.now) S.number context.now))) }
{
    match e {
        Expr::Chain { first, rest } => truth_of_two(store, context, rest, first),
        _ => None,
    }
}

fn truth_of_two<S: Strings>(
    store: &S,
    context: &Context<S::Ref>,
    rest: &[Link],
    first: &Expr,
) -> Option<bool>
    requires { ContextFine (S.state store.now) S.number context.now }
    ensures { IfSome result (λ b. GivesValue S.number (S.state store.now) (S.state store.now)
        (Ok (value.Bool b))
        (expr_out (tree.chain (expr_tree first.now) (links_tree rest.now))
        (scope_of (S.state store.now) S.number context.now))) }
{
    match of_two(store, context, rest, first) {
        Some(Value::Bool(b)) => Some(b),
        _ => None,
    }
}

/// The value of a chain of one operator on two numbers at hand, where it has one.
#[inline(always)]
pub fn of_two<S: Strings>(
    store: &S,
    context: &Context<S::Ref>,
    rest: &[Link],
    first: &Expr,
) -> Option<Value<S::Ref>>
    requires { ContextFine (S.state store.now) S.number context.now }
    ensures fine { IfSome result (λ v. IsFine (S.state store.now) S.number v) }
    ensures did { IfSome result (λ v. GivesValue S.number (S.state store.now) (S.state store.now) (Ok v)
        (expr_out (tree.chain (expr_tree first.now) (links_tree rest.now))
        (scope_of (S.state store.now) S.number context.now))) }
{
    if rest.len() != 1 {
        return None;
    }
    let link = &rest[0];
    of_link(store, context, link, first)
}

/// The same of one link.
#[inline(always)]
pub fn of_link<S: Strings>(
    store: &S,
    context: &Context<S::Ref>,
    link: &Link,
    first: &Expr,
) -> Option<Value<S::Ref>>
    requires { ContextFine (S.state store.now) S.number context.now }
    ensures fine { IfSome result (λ v. IsFine (S.state store.now) S.number v) }
    ensures did { IfSome result (λ v. GivesValue S.number (S.state store.now) (S.state store.now) (Ok v)
        (expr_out (tree.chain (expr_tree first.now)
        (tree.link link.now.at link.now.op (expr_tree link.now.right) tree.no_links))
        (scope_of (S.state store.now) S.number context.now))) }
{
    if !needs_both(link.op) {
        return None;
    }
    let n = number_at_hand(store, context, &link.right)?;
    let m = number_at_hand(store, context, first)?;
    of_both(store, link.op, m, n)
}

/// Whether an operator's left side alone never decides it.
pub fn needs_both(op: Op) -> bool
    ensures { result ≡ true → (v : Val) → decides op v ≡ false }
{
    match op {
        Op::Or | Op::And => false,
        Op::Same
        | Op::NotSame
        | Op::Less
        | Op::Greater
        | Op::LessEq
        | Op::GreaterEq
        | Op::Plus
        | Op::Minus => true,
    }
}

// The number that an expression has at hand, if it has one.
#[inline(always)]
fn number_at_hand<S: Strings>(store: &S, context: &Context<S::Ref>, e: &Expr) -> Option<Num>
    requires { ContextFine (S.state store.now) S.number context.now }
    ensures lawful { IfSome result IsLawful }
    ensures did { IfSome result (λ n. GivesValue S.number (S.state store.now) (S.state store.now)
        (Ok (value.Number n)) (expr_out (expr_tree e.now)
        (scope_of (S.state store.now) S.number context.now))) }
{
    match e {
        Expr::Variable { .. } => match at_hand(store, context, e)? {
            Value::Number(n) => Some(*n),
            _ => None,
        },
        Expr::Number { value } => match number_value::<S::Ref>(*value) {
            Value::Number(n) => Some(n),
            _ => None,
        },
        _ => None,
    }
}

/// The value of an expression that is a name, in its place.
pub fn at_hand<'a, S: Strings>(
    store: &S,
    context: &'a Context<S::Ref>,
    e: &Expr,
) -> Option<&'a Value<S::Ref>>
    requires { ContextFine (S.state store.now) S.number context.now }
    ensures fine { IfSome result (λ v. IsFine (S.state store.now) S.number v.now) }
    ensures did { IfSome result (λ v. GivesValue S.number (S.state store.now) (S.state store.now) (Ok v.now)
        (expr_out (expr_tree e.now) (scope_of (S.state store.now) S.number context.now))) }
{
    match e {
        Expr::Variable { name } => look_up(store, context, name),
        _ => None,
    }
}
