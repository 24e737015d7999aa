// Statements, and whole scripts.
ghost use Rattle.js_eval.specs.Pieces.{printed, sum_of_both, init_out};
ghost use Rattle.std.specs.Prelude.{◌≡◌, ℕ, List, Option, IfOk, pos};
ghost use Rattle.js_store.specs.State.{Grows};
ghost use Rattle.eval_tree.specs.Tree;
ghost use Rattle.eval_tree.specs.Tree.{expr_tree, exprs_tree, init_tree, stmt_tree, stmts_tree, block_tree, arm_tree, arms as arms_tree, tree_of};
ghost use Rattle.std.specs.Prelude.{map};
ghost use Rattle.eval_scopes.specs.Bindings.{Bindings};
ghost use Rattle.eval_scopes.specs.Seen.{IsPlaceIn, IsPlace, bounds_of};
ghost use Rattle.js_item.specs.Seen.{Val, seen};
ghost use Rattle.js_item.specs.Contents.{number};
ghost use Rattle.eval_values.specs.Seen.{all_seen, AllFine};
ghost use Rattle.js_item.specs.Fine.{IsFine};
ghost use Rattle.eval_values.specs.Does.{GivesValue, GivesPlain};
ghost use Rattle.eval_values.specs.Conversions.{to_boolean};
ghost use Rattle.js_eval.specs.Script.{on_value, line_out, stmt_flow, stmts_flow, block_flow, arms_flow, turn_flow, turns as turns_flow, meaning};
ghost use Rattle.js_eval.specs.Seen.{ContextFine, BoundsFine, bounds_seen, context_bindings, scope_of};
ghost use Rattle.js_eval.specs.Flows.{FollowsFlow, WentTop, told};
ghost use Rattle.js_eval.specs.Expression.{expr_out};
ghost use Rattle.js_number.specs.declared.Num.TheVariants.{Int};
ghost use Rattle.js_eval.specs.Evaluates.{Evaluates};

use crate::compared::{holds_of_two, side, two_sides};
use crate::context::{
    Context, assign, assign_at, declare, enter, enter_turn, keep_room, leave, value_at,
};
use crate::ending::End;
use crate::env::Env;
use crate::expr::{expr, exprs};
use crate::literals::intern_literals;
use crate::operators::apply;
use crate::short::test_at_hand;
use eval_scopes::{BindingList, Blocks, Place, Scope};
use eval_tree::{Arm, Block, Expr, Name, Op, Script, Stmt};
use eval_values::{Kind, Stop, Value, texts, truth};
use js_json::Lines;
use js_number::Num;
use js_store::{StoreFault, Strings};
use std::alloc::Global;
use std::cell::Cell;
use std::mem;

/// Runs a script over a store, from the bindings of `env`: its literals are interned in the order
/// of the source text, and then its statements run. `env` has the bindings that they leave at the top, also
/// where they ended inside a block, and `lines` gains the lines that they print, which are whole
/// after every end.
pub fn eval<S: Strings>(
    alloc: Global,
    script: &Script,
    env: &mut Env<S::Ref>,
    store: &mut S,
    lines: &mut Lines,
) -> End
    requires { BoundsFine (S.state store.old) S.number (bounds_of env.old) }
    ensures grows { Grows (S.state store.old) (S.state store.new) }
    ensures env { BoundsFine (S.state store.new) S.number (bounds_of env.new) }
    ensures meaning { Evaluates (S.state store.old) (S.state store.new) lines.old lines.new
        (bounds_seen (S.state store.new) S.number (bounds_of env.new)) result
        (meaning (tree_of script.now)
        (bounds_seen (S.state store.old) S.number (bounds_of env.old)) (S.state store.old).limit) }
{
    match run(alloc, script, env, store, lines) {
        Ok(()) => End::Done,
        Err(Stop::Threw(kind)) => End::Threw(kind),
        Err(Stop::Unsupported { at }) => End::Unsupported { at },
        Err(Stop::Store(StoreFault::Full(report))) => End::Full(report),
        Err(Stop::Store(StoreFault::Memory)) => End::Memory,
    }
}

fn run<S: Strings>(
    alloc: Global,
    script: &Script,
    env: &mut Env<S::Ref>,
    store: &mut S,
    lines: &mut Lines,
) -> Result<(), Stop>
    requires { BoundsFine (S.state store.old) S.number (bounds_of env.old) }
    ensures grows { Grows (S.state store.old) (S.state store.new) }
    ensures env { BoundsFine (S.state store.new) S.number (bounds_of env.new) }
    ensures went { WentTop (S.state store.old) (S.state store.new) lines.old lines.new result
        (bounds_seen (S.state store.new) S.number (bounds_of env.new))
        (meaning (tree_of script.now) (bounds_seen (S.state store.old) S.number (bounds_of env.old))
        (S.state store.old).limit) }
{
    let literals = intern_literals(alloc, store, &script.literals)?;
    let mut context = Context {
        literals,
        scope: Scope {
            blocks: Blocks::new(alloc),
            top: mem::replace(&mut env.top, BindingList::new(alloc)),
        },
        spare: Cell::new(Vec::new(alloc)),
    };
    let result = statements(alloc, store, &mut context, lines, &script.body);
    let scope = context.scope;
    env.top = scope.top;
    result
}

// A statement.
#[cycle(stmt)]
fn statement<'a, S: Strings>(
    alloc: Global,
    store: &mut S,
    context: &mut Context<'a, S::Ref>,
    lines: &mut Lines,
    s: &'a Stmt,
) -> Result<(), Stop>
    requires { ContextFine (S.state store.old) S.number context.old }
    ensures grows { Grows (S.state store.old) (S.state store.new) }
    ensures context { ContextFine (S.state store.new) S.number context.new }
    ensures literals { context.new.literals ≡ context.old.literals }
    ensures went { FollowsFlow (S.state store.old) (S.state store.new) lines.old lines.new result
        (context_bindings (S.state store.new) S.number context.new)
        (stmt_flow (stmt_tree s.now) (scope_of (S.state store.old) S.number context.old)) }
{
    match s {
        Stmt::Block { inner } => block(alloc, store, context, lines, inner),
        Stmt::Let { name, init, .. } => evaluate_let(alloc, store, context, name, init),
        Stmt::Const { name, init, .. } => evaluate_const(alloc, store, context, name, init),
        Stmt::Assign { name, value, .. } => evaluate_assign(alloc, store, context, name, value),
        Stmt::Append {
            at,
            name,
            value,
            ..
        } => evaluate_append(alloc, store, context, *at, name, value),
        Stmt::Print { args } => print(alloc, store, context, lines, args),
        Stmt::If { arms: list, rest } => arms(alloc, store, context, lines, list, rest),
        Stmt::For { name, bound, body } => {
            turns(alloc, store, context, lines, name, *bound, body)
        }
    }
}

// Statements in order.
#[cycle(stmt)]
fn statements<'a, S: Strings>(
    alloc: Global,
    store: &mut S,
    context: &mut Context<'a, S::Ref>,
    lines: &mut Lines,
    body: &'a [Stmt],
) -> Result<(), Stop>
    requires { ContextFine (S.state store.old) S.number context.old }
    ensures grows { Grows (S.state store.old) (S.state store.new) }
    ensures context { ContextFine (S.state store.new) S.number context.new }
    ensures literals { context.new.literals ≡ context.old.literals }
    ensures went { FollowsFlow (S.state store.old) (S.state store.new) lines.old lines.new result
        (context_bindings (S.state store.new) S.number context.new)
        (stmts_flow (stmts_tree body.now) (scope_of (S.state store.old) S.number context.old)) }
{
    for s in body {
        statement(alloc, store, context, lines, s)?;
    }
    Ok(())
}

// A block is entered, runs, and is left, whatever its end.
#[cycle(stmt)]
fn block<'a, S: Strings>(
    alloc: Global,
    store: &mut S,
    context: &mut Context<'a, S::Ref>,
    lines: &mut Lines,
    b: &'a Block,
) -> Result<(), Stop>
    requires { ContextFine (S.state store.old) S.number context.old }
    ensures grows { Grows (S.state store.old) (S.state store.new) }
    ensures context { ContextFine (S.state store.new) S.number context.new }
    ensures literals { context.new.literals ≡ context.old.literals }
    ensures went { FollowsFlow (S.state store.old) (S.state store.new) lines.old lines.new result
        (context_bindings (S.state store.new) S.number context.new)
        (block_flow (block_tree b.now) (scope_of (S.state store.old) S.number context.old)) }
{
    enter(alloc, store, context, &b.names)?;
    let result = statements(alloc, store, context, lines, &b.body);
    leave(store, context);
    result
}

// The first arm whose test holds, or the rest.
#[cycle(stmt)]
fn arms<'a, S: Strings>(
    alloc: Global,
    store: &mut S,
    context: &mut Context<'a, S::Ref>,
    lines: &mut Lines,
    list: &'a [Arm],
    rest: &'a Block,
) -> Result<(), Stop>
    requires { ContextFine (S.state store.old) S.number context.old }
    ensures grows { Grows (S.state store.old) (S.state store.new) }
    ensures context { ContextFine (S.state store.new) S.number context.new }
    ensures literals { context.new.literals ≡ context.old.literals }
    ensures went { FollowsFlow (S.state store.old) (S.state store.new) lines.old lines.new result
        (context_bindings (S.state store.new) S.number context.new)
        (arms_flow (arms_tree (map arm_tree list.now)) (λ q. block_flow (block_tree rest.now) q)
        (scope_of (S.state store.old) S.number context.old)) }
{
    for arm in list {
        let held = holds(alloc, store, context, &arm.test)?;
        if held {
            return block(alloc, store, context, lines, &arm.body);
        }
    }
    block(alloc, store, context, lines, rest)
}

// The turns of a `for`.
#[cycle(stmt)]
fn turns<'a, S: Strings>(
    alloc: Global,
    store: &mut S,
    context: &mut Context<'a, S::Ref>,
    lines: &mut Lines,
    name: &'a Name,
    bound: u32,
    body: &'a Block,
) -> Result<(), Stop>
    requires { ContextFine (S.state store.old) S.number context.old }
    ensures grows { Grows (S.state store.old) (S.state store.new) }
    ensures context { ContextFine (S.state store.new) S.number context.new }
    ensures literals { context.new.literals ≡ context.old.literals }
    ensures went { FollowsFlow (S.state store.old) (S.state store.new) lines.old lines.new result
        (context_bindings (S.state store.new) S.number context.new)
        (turns_flow (turn_flow name.now (block_tree body.now)
        (scope_of (S.state store.old) S.number context.old)) 0 bound
        (context_bindings (S.state store.old) S.number context.old)) }
{
    for i in 0..bound {
        turn(alloc, store, context, lines, name, i, body)?;
    }
    Ok(())
}

// One turn: a block with the name bound, and then the body.
#[cycle(stmt)]
fn turn<'a, S: Strings>(
    alloc: Global,
    store: &mut S,
    context: &mut Context<'a, S::Ref>,
    lines: &mut Lines,
    name: &'a Name,
    i: u32,
    body: &'a Block,
) -> Result<(), Stop>
    requires { ContextFine (S.state store.old) S.number context.old }
    ensures grows { Grows (S.state store.old) (S.state store.new) }
    ensures context { ContextFine (S.state store.new) S.number context.new }
    ensures literals { context.new.literals ≡ context.old.literals }
    ensures went { FollowsFlow (S.state store.old) (S.state store.new) lines.old lines.new result
        (context_bindings (S.state store.new) S.number context.new)
        (turn_flow name.now (block_tree body.now) (scope_of (S.state store.old) S.number context.old) i
        (context_bindings (S.state store.old) S.number context.old)) }
{
    let count = turn_number(store, i);
    enter_turn(alloc, store, context, name, count)?;
    let result = block(alloc, store, context, lines, body);
    leave(store, context);
    result
}

// The number of a turn.
fn turn_number<S: Strings>(_store: &S, i: u32) -> Value<S::Ref>
    ensures seen { seen (S.state _store.now) S.number result ≡ number (Int (pos i)) }
    ensures fine { IsFine (S.state _store.now) S.number result }
{
    Value::Number(Num::Int(i64::from(i)))
}

// Whether the value of a test is true.
fn holds<S: Strings>(
    alloc: Global,
    store: &mut S,
    context: &Context<S::Ref>,
    test: &Expr,
) -> Result<bool, Stop>
    requires { ContextFine (S.state store.old) S.number context.now }
    ensures grows { Grows (S.state store.old) (S.state store.new) }
    ensures context { ContextFine (S.state store.new) S.number context.now }
    ensures did { GivesPlain (S.state store.old) (S.state store.new) result
        (told to_boolean
        (expr_out (expr_tree test.now) (scope_of (S.state store.old) S.number context.now))) }
{
    match test_at_hand(store, context, test) {
        Some(held) => Ok(held),
        None => holds_by_sides(alloc, store, context, test),
    }
}

// The same by the sides of an operator, where the test is one.
fn holds_by_sides<S: Strings>(
    alloc: Global,
    store: &mut S,
    context: &Context<S::Ref>,
    test: &Expr,
) -> Result<bool, Stop>
    requires { ContextFine (S.state store.old) S.number context.now }
    ensures grows { Grows (S.state store.old) (S.state store.new) }
    ensures context { ContextFine (S.state store.new) S.number context.now }
    ensures did { GivesPlain (S.state store.old) (S.state store.new) result
        (told to_boolean
        (expr_out (expr_tree test.now) (scope_of (S.state store.old) S.number context.now))) }
{
    match two_sides(test) {
        Some((first, link)) => holds_of_two(alloc, store, context, first, link),
        None => is_true_value(alloc, store, context, test),
    }
}

// The same for any test.
fn is_true_value<S: Strings>(
    alloc: Global,
    store: &mut S,
    context: &Context<S::Ref>,
    test: &Expr,
) -> Result<bool, Stop>
    requires { ContextFine (S.state store.old) S.number context.now }
    ensures grows { Grows (S.state store.old) (S.state store.new) }
    ensures context { ContextFine (S.state store.new) S.number context.now }
    ensures did { GivesPlain (S.state store.old) (S.state store.new) result
        (told to_boolean
        (expr_out (expr_tree test.now) (scope_of (S.state store.old) S.number context.now))) }
{
    let value = expr(alloc, store, context, test)?;
    Ok(truth(store, &value))
}

fn evaluate_let<'a, S: Strings>(
    alloc: Global,
    store: &mut S,
    context: &mut Context<'a, S::Ref>,
    name: &Name,
    init: &Option<Expr>,
) -> Result<(), Stop>
    requires { ContextFine (S.state store.old) S.number context.old }
    ensures grows { Grows (S.state store.old) (S.state store.new) }
    ensures context { ContextFine (S.state store.new) S.number context.new }
    ensures literals { context.new.literals ≡ context.old.literals }
    ensures went { (at : ℕ) (x : List ℕ) → FollowsFlow (S.state store.old) (S.state store.new) x x result
        (context_bindings (S.state store.new) S.number context.new)
        (stmt_flow (Tree.let_line at name.now (init_tree init.now))
        (scope_of (S.state store.old) S.number context.old)) }
{
    let value = initial(alloc, store, context, init)?;
    declare(store, context, name, false, value)
}

// The value of a `let`.
fn initial<S: Strings>(
    alloc: Global,
    store: &mut S,
    context: &Context<S::Ref>,
    init: &Option<Expr>,
) -> Result<Value<S::Ref>, Stop>
    requires { ContextFine (S.state store.old) S.number context.now }
    ensures grows { Grows (S.state store.old) (S.state store.new) }
    ensures context { ContextFine (S.state store.new) S.number context.now }
    ensures fine { IfOk result (λ v. IsFine (S.state store.new) S.number v) }
    ensures did { GivesValue S.number (S.state store.old) (S.state store.new) result
        (init_out (init_tree init.now) (scope_of (S.state store.old) S.number context.now)) }
{
    match init {
        Some(e) => side(alloc, store, context, e),
        None => Ok(Value::Undefined),
    }
}

fn evaluate_const<'a, S: Strings>(
    alloc: Global,
    store: &mut S,
    context: &mut Context<'a, S::Ref>,
    name: &Name,
    init: &Expr,
) -> Result<(), Stop>
    requires { ContextFine (S.state store.old) S.number context.old }
    ensures grows { Grows (S.state store.old) (S.state store.new) }
    ensures context { ContextFine (S.state store.new) S.number context.new }
    ensures literals { context.new.literals ≡ context.old.literals }
    ensures went { (at : ℕ) (x : List ℕ) → FollowsFlow (S.state store.old) (S.state store.new) x x result
        (context_bindings (S.state store.new) S.number context.new)
        (stmt_flow (Tree.const_line at name.now (expr_tree init.now))
        (scope_of (S.state store.old) S.number context.old)) }
{
    let value = side(alloc, store, context, init)?;
    declare(store, context, name, true, value)
}

fn evaluate_assign<'a, S: Strings>(
    alloc: Global,
    store: &mut S,
    context: &mut Context<'a, S::Ref>,
    name: &Name,
    value: &Expr,
) -> Result<(), Stop>
    requires { ContextFine (S.state store.old) S.number context.old }
    ensures grows { Grows (S.state store.old) (S.state store.new) }
    ensures context { ContextFine (S.state store.new) S.number context.new }
    ensures literals { context.new.literals ≡ context.old.literals }
    ensures went { (at : ℕ) (x : List ℕ) → FollowsFlow (S.state store.old) (S.state store.new) x x result
        (context_bindings (S.state store.new) S.number context.new)
        (stmt_flow (Tree.assign at name.now (expr_tree value.now))
        (scope_of (S.state store.old) S.number context.old)) }
{
    let value = side(alloc, store, context, value)?;
    assign(store, context, name, value)
}

// `x += e`: the name is sought once, since `e` changes no binding.
fn evaluate_append<'a, S: Strings>(
    alloc: Global,
    store: &mut S,
    context: &mut Context<'a, S::Ref>,
    at: u32,
    name: &Name,
    value: &Expr,
) -> Result<(), Stop>
    requires { ContextFine (S.state store.old) S.number context.old }
    ensures grows { Grows (S.state store.old) (S.state store.new) }
    ensures context { ContextFine (S.state store.new) S.number context.new }
    ensures literals { context.new.literals ≡ context.old.literals }
    ensures went { (name_at : ℕ) (x : List ℕ) → FollowsFlow (S.state store.old) (S.state store.new) x x result
        (context_bindings (S.state store.new) S.number context.new)
        (stmt_flow (Tree.append at name_at name.now (expr_tree value.now))
        (scope_of (S.state store.old) S.number context.old)) }
{
    match context.scope.place_of(name) {
        Some(place) => append_at(alloc, store, context, at, place, value),
        None => Err(Stop::Threw(Kind::ReferenceError)),
    }
}

// The same for a name of which the place is known.
fn append_at<'a, S: Strings>(
    alloc: Global,
    store: &mut S,
    context: &mut Context<'a, S::Ref>,
    at: u32,
    place: Place,
    value: &Expr,
) -> Result<(), Stop>
    requires context { ContextFine (S.state store.old) S.number context.old }
    requires within { IsPlaceIn context.old.scope place }
    ensures grows { Grows (S.state store.old) (S.state store.new) }
    ensures context { ContextFine (S.state store.new) S.number context.new }
    ensures literals { context.new.literals ≡ context.old.literals }
    ensures went { (n : List ℕ) → IsPlace context.old.scope n place → (name_at : ℕ) (x : List ℕ)
        → FollowsFlow (S.state store.old) (S.state store.new) x x result
        (context_bindings (S.state store.new) S.number context.new)
        (stmt_flow (Tree.append at name_at n (expr_tree value.now))
        (scope_of (S.state store.old) S.number context.old)) }
{
    let value = sum_with(alloc, store, context, at, place, value)?;
    assign_at(store, context, place, value)
}

// What a name means, and then the sum of it and an expression.
fn sum_with<S: Strings>(
    alloc: Global,
    store: &mut S,
    context: &Context<S::Ref>,
    at: u32,
    place: Place,
    value: &Expr,
) -> Result<Value<S::Ref>, Stop>
    requires context { ContextFine (S.state store.old) S.number context.now }
    requires within { IsPlaceIn context.now.scope place }
    ensures grows { Grows (S.state store.old) (S.state store.new) }
    ensures context { ContextFine (S.state store.new) S.number context.now }
    ensures fine { IfOk result (λ v. IsFine (S.state store.new) S.number v) }
    ensures did { (n : List ℕ) → IsPlace context.now.scope n place → GivesValue S.number (S.state store.old)
        (S.state store.new) result
        (sum_of_both at n (expr_tree value.now) (scope_of (S.state store.old) S.number context.now)) }
{
    let left = value_at(store, context, place);
    let right = side(alloc, store, context, value)?;
    apply(alloc, store, at, Op::Plus, left, right)
}

fn print<S: Strings>(
    alloc: Global,
    store: &mut S,
    context: &Context<S::Ref>,
    lines: &mut Lines,
    args: &[Expr],
) -> Result<(), Stop>
    requires { ContextFine (S.state store.old) S.number context.now }
    ensures grows { Grows (S.state store.old) (S.state store.new) }
    ensures context { ContextFine (S.state store.new) S.number context.now }
    ensures went { FollowsFlow (S.state store.old) (S.state store.new) lines.old lines.new result
        (context_bindings (S.state store.new) S.number context.now)
        (stmt_flow (Tree.print (exprs_tree args.now)) (scope_of (S.state store.old) S.number context.now)) }
{
    let values = exprs(alloc, store, context, args)?;
    let result = print_values(alloc, store, lines, &values);
    keep_room(context, values);
    result
}

fn print_values<S: Strings>(
    alloc: Global,
    store: &mut S,
    lines: &mut Lines,
    values: &[Value<S::Ref>],
) -> Result<(), Stop>
    requires { AllFine (S.state store.old) S.number values.now }
    ensures grows { Grows (S.state store.old) (S.state store.new) }
    ensures went { (bs : Bindings Val)
        → FollowsFlow (S.state store.old) (S.state store.new) lines.old lines.new
        result bs (on_value
        (line_out (S.state store.old).limit (all_seen (S.state store.old) S.number values.now)) bs
        (λ l. printed l bs)) }
{
    let texts = texts(alloc, store, values)?;
    match lines.print_line(alloc, store, &texts) {
        Ok(()) => Ok(()),
        Err(fault) => Err(Stop::Store(fault)),
    }
}
