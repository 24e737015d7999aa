// What expressions read and statements change.
ghost use Rattle.std.specs.Prelude.{◌≡◌, ◌∷◌, [], Ok, IfOk, IfErr, IfSome, OnOk, MatchOption, Some, None, option_map, List, ℕ};
ghost use Rattle.eval_scopes.specs.Bindings.{meant, declared, entered, turned, outer};
ghost use Rattle.eval_scopes.specs.Seen.{IsPlaceIn, IsPlace};
ghost use Rattle.js_item.specs.Seen.{seen};
ghost use Rattle.js_item.specs.Fine.{IsFine};
ghost use Rattle.eval_values.specs.Does.{GivesValue};
ghost use Rattle.js_eval.specs.Expression.{read_out};
ghost use Rattle.js_eval.specs.Script.{assigned, declares};
ghost use Rattle.js_eval.specs.Seen.{ContextFine, context_bindings, scope_of};
ghost use Rattle.js_eval.specs.Flows.{FollowsFlow};

use eval_scopes::{Place, Scope};
use eval_tree::{Name, Names};
use eval_values::{Kind, Stop, Value};
use js_store::{StoreFault, Strings};
use std::alloc::Global;
use std::cell::Cell;

/// The interned literals of the script, and its scope (ECMA-262, "Execution Contexts").
#[derive(Drop)]
pub struct Context<'a, R> {
    pub literals: Vec<R>,
    pub scope: Scope<'a, Value<R>>,
    // the room of a list of arguments that is done with; contracts don't see what is in it
    pub spare: Cell<Vec<Value<R>>>,
}

/// An empty list, in the room that a call before left.
pub fn empty_list<R: Copy>(alloc: Global, context: &Context<R>) -> Vec<Value<R>>
    ensures { result.items ≡ [] }
{
    let mut room = context.spare.replace(Vec::new(alloc));
    room.clear();
    room
}

/// The values of a list are let go, and its room is kept for the next call.
pub fn keep_room<R: Copy>(context: &Context<R>, mut list: Vec<Value<R>>) {
    list.clear();
    context.spare.set(list);
}

/// The value of a name, where it is in the scope.
#[inline(always)]
pub fn look_up<'a, S: Strings>(
    _store: &S,
    context: &'a Context<S::Ref>,
    name: &Name,
) -> Option<&'a Value<S::Ref>>
    requires { ContextFine (S.state _store.now) S.number context.now }
    ensures fine { IfSome result (λ v. IsFine (S.state _store.now) S.number v.now) }
    ensures meant { MatchOption result
        (meant (context_bindings (S.state _store.now) S.number context.now) name.now ≡ None)
        (λ v. option_map (λ b. b.value)
        (meant (context_bindings (S.state _store.now) S.number context.now) name.now)
        ≡ Some (seen (S.state _store.now) S.number v.now)) }
{
    match context.scope.find(name) {
        Some(binding) => Some(&binding.value),
        None => None,
    }
}

/// The value of a name, as its own. A string or a number allocates nothing.
pub fn read<S: Strings>(
    _store: &S,
    context: &Context<S::Ref>,
    name: &Name,
) -> Result<Value<S::Ref>, Stop>
    requires { ContextFine (S.state _store.now) S.number context.now }
    ensures fine { IfOk result (λ v. IsFine (S.state _store.now) S.number v) }
    ensures did { GivesValue S.number (S.state _store.now) (S.state _store.now) result
        (read_out (meant (context_bindings (S.state _store.now) S.number context.now) name.now)) }
{
    match context.scope.find(name) {
        Some(binding) => Ok(binding.value.copy()?),
        None => Err(Stop::Threw(Kind::ReferenceError)),
    }
}

/// The value at the place of a name, in its place.
pub fn value_at<'a, S: Strings>(
    _store: &S,
    context: &'a Context<S::Ref>,
    place: Place,
) -> &'a Value<S::Ref>
    requires context { ContextFine (S.state _store.now) S.number context.now }
    requires within { IsPlaceIn context.now.scope place }
    ensures fine { IsFine (S.state _store.now) S.number result.now }
    ensures did { (n : List ℕ) → IsPlace context.now.scope n place → GivesValue S.number (S.state _store.now)
        (S.state _store.now) (Ok result.now) (read_out (meant (context_bindings
        (S.state _store.now) S.number context.now) n)) }
{
    &context.scope.at(place).value
}

/// Another value for a name that has one and is no constant.
#[inline(always)]
pub fn assign<S: Strings>(
    store: &S,
    context: &mut Context<S::Ref>,
    name: &Name,
    value: Value<S::Ref>,
) -> Result<(), Stop>
    requires context { ContextFine (S.state store.now) S.number context.old }
    requires value { IsFine (S.state store.now) S.number value }
    ensures context { ContextFine (S.state store.now) S.number context.new }
    ensures literals { context.new.literals ≡ context.old.literals }
    ensures went { (x : List ℕ) → FollowsFlow (S.state store.now) (S.state store.now) x x result
        (context_bindings (S.state store.now) S.number context.new)
        (assigned (meant (context_bindings (S.state store.now) S.number context.old) name.now) name.now
        (seen (S.state store.now) S.number value) (context_bindings
        (S.state store.now) S.number context.old)) }
{
    match context.scope.place_of(name) {
        Some(place) => assign_at(store, context, place, value),
        None => Err(Stop::Threw(Kind::ReferenceError)),
    }
}

/// The same for a name of which the place is known.
#[inline(always)]
pub fn assign_at<S: Strings>(
    _store: &S,
    context: &mut Context<S::Ref>,
    place: Place,
    value: Value<S::Ref>,
) -> Result<(), Stop>
    requires context { ContextFine (S.state _store.now) S.number context.old }
    requires within { IsPlaceIn context.old.scope place }
    requires value { IsFine (S.state _store.now) S.number value }
    ensures context { ContextFine (S.state _store.now) S.number context.new }
    ensures literals { context.new.literals ≡ context.old.literals }
    ensures went { (n : List ℕ) → IsPlace context.old.scope n place → (x : List ℕ) → FollowsFlow
        (S.state _store.now) (S.state _store.now) x x result
        (context_bindings (S.state _store.now) S.number context.new)
        (assigned (meant (context_bindings (S.state _store.now) S.number context.old) n) n
        (seen (S.state _store.now) S.number value) (context_bindings
        (S.state _store.now) S.number context.old)) }
{
    if context.scope.at(place).constant {
        return Err(Stop::Threw(Kind::TypeError));
    }
    context.scope.set(place, value);
    Ok(())
}

/// A declaration of the innermost block, or of the top, is evaluated.
#[inline(always)]
pub fn declare<S: Strings>(
    _store: &S,
    context: &mut Context<S::Ref>,
    name: &Name,
    constant: bool,
    value: Value<S::Ref>,
) -> Result<(), Stop>
    requires context { ContextFine (S.state _store.now) S.number context.old }
    requires value { IsFine (S.state _store.now) S.number value }
    ensures context { ContextFine (S.state _store.now) S.number context.new }
    ensures literals { context.new.literals ≡ context.old.literals }
    ensures went { (x : List ℕ) → FollowsFlow (S.state _store.now) (S.state _store.now) x x result
        (context_bindings (S.state _store.now) S.number context.new)
        (declares name.now constant (scope_of (S.state _store.now) S.number context.old)
        (seen (S.state _store.now) S.number value)) }
{
    Ok(context.scope.declare(name, constant, value)?)
}

/// A block is entered, none of its names evaluated; unchanged on refusal.
#[inline(always)]
pub fn enter<'a, S: Strings>(
    alloc: Global,
    _store: &S,
    context: &mut Context<'a, S::Ref>,
    names: &'a Names,
) -> Result<(), Stop>
    requires { ContextFine (S.state _store.now) S.number context.old }
    ensures context { ContextFine (S.state _store.now) S.number context.new }
    ensures literals { context.new.literals ≡ context.old.literals }
    ensures entered { OnOk result (context_bindings (S.state _store.now) S.number context.new
        ≡ entered names.now (context_bindings (S.state _store.now) S.number context.old)) }
    ensures fault { IfErr result (λ f. f ≡ Stop.Store StoreFault.Memory) }
{
    match context.scope.enter(alloc, names) {
        Ok(()) => Ok(()),
        Err(_) => Err(Stop::Store(StoreFault::Memory)),
    }
}

/// A turn of a `for` is entered, with its name bound; unchanged on refusal.
#[inline(always)]
pub fn enter_turn<S: Strings>(
    alloc: Global,
    _store: &S,
    context: &mut Context<S::Ref>,
    name: &Name,
    value: Value<S::Ref>,
) -> Result<(), Stop>
    requires context { ContextFine (S.state _store.now) S.number context.old }
    requires value { IsFine (S.state _store.now) S.number value }
    ensures context { ContextFine (S.state _store.now) S.number context.new }
    ensures literals { context.new.literals ≡ context.old.literals }
    ensures entered { OnOk result (context_bindings (S.state _store.now) S.number context.new
        ≡ turned name.now (seen (S.state _store.now) S.number value)
        (context_bindings (S.state _store.now) S.number context.old)) }
    ensures fault { IfErr result (λ f. f ≡ Stop.Store StoreFault.Memory) }
{
    match context.scope.enter_turn(alloc, name, value) {
        Ok(()) => Ok(()),
        Err(_) => Err(Stop::Store(StoreFault::Memory)),
    }
}

/// The innermost block is left.
#[inline(always)]
pub fn leave<S: Strings>(_store: &S, context: &mut Context<S::Ref>)
    requires { ContextFine (S.state _store.now) S.number context.old }
    ensures context { ContextFine (S.state _store.now) S.number context.new }
    ensures literals { context.new.literals ≡ context.old.literals }
    ensures left { context_bindings (S.state _store.now) S.number context.new
        ≡ outer (context_bindings (S.state _store.now) S.number context.old) }
{
    context.scope.leave();
}
