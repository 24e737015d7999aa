// The bindings of a script's top, and of a block.
ghost use Rattle.std.specs.Prelude.{◌≡◌, ◌<◌, ◌≤◌, ◌+◌, ◌∷◌, ◌++◌, [], true, None, List, ℕ, length, min, take, MatchOption, IfSome, IfOk, OnOk, OnErr};
ghost use Rattle.eval_scopes.specs.Index.{few, IsIndex, NoneNamed};
ghost use Rattle.eval_scopes.specs.Bindings.{bound_in};
ghost use Rattle.eval_scopes.specs.Seen.{bound_of, bounds_of, put, IsAt, IsOnly, IsLeft};

use crate::firsts::Firsts;
use crate::index::{FEW, Index};
use eval_tree::Name;
use js_units::NoMemory;
use std::alloc::Global;
use std::marker::Model;

/// A name that was declared and evaluated, whether by `const`, and its value.
#[derive(Drop)]
pub struct Binding<T> {
    pub name: Name,
    pub constant: bool,
    pub value: T,
}

/// Bindings in the order of their declarations. Contracts see them as a list. A name is sought at the first
/// place that one with its mark has. Then the first few are looked at one after another; behind them a name
/// is sought from the first one on that has its key, so that thousands of names cost little.
#[derive(Drop)]
pub struct BindingList<T> {
    // those in use, and behind them what was left in place for later ones of the same names
    all: Vec<Binding<T>>,
    used: usize,
    // behind the first few, the place from which the names of a key begin
    first: Index,
    firsts: Firsts,
}

impl<T> Model for BindingList<T> {
    ghost use Rattle.std.specs.Prelude.{List, take};
    ghost use Rattle.eval_scopes.specs.declared.binding_list.Binding.{Binding};
    ghost use Rattle.eval_scopes.specs.BindingList.{IsBindingList};

    ghost Value = { List (Binding T) };

    ghost view = { λ b. take b.used b.all.items };

    ghost invariant = { λ b. IsBindingList b.all.items b.used b.first b.firsts.places };
}

impl<T: Drop> BindingList<T> {
    /// No binding. It allocates nothing.
    pub fn new(alloc: Global) -> BindingList<T>
        ensures { result ≡ [] }
    {
        BindingList {
            all: Vec::new(alloc),
            used: 0,
            first: Index::new(),
            firsts: Firsts::new(),
        }
    }

    /// The bindings.
    #[inline(always)]
    pub fn list(&self) -> &[Binding<T>]
        ensures { result.now ≡ self.now }
    {
        &self.all[..self.used]
    }

    /// The place of the first binding of a name.
    #[inline(always)]
    pub fn position(&self, name: &Name) -> Option<usize>
        ensures { MatchOption result (bound_in (bounds_of self.now) name.now ≡ None)
            (λ i. IsAt (bounds_of self.now) name.now i) }
    {
        match self.at_first(name) {
            Some(index) => Some(index),
            None => self.position_in_list(name),
        }
    }

    // The same, if it is the first place that a name of this mark has.
    #[inline(always)]
    pub(crate) fn at_first(&self, name: &Name) -> Option<usize>
        ensures { IfSome result (λ i. IsAt (bounds_of self.now) name.now i) }
    {
        let list = self.list();
        let place = self.firsts.get(name.key());
        if place >= list.len() {
            return None;
        }
        if list[place].name.is(name) {
            return Some(place);
        }
        None
    }

    // The same at any place.
    #[inline(never)]
    fn position_in_list(&self, name: &Name) -> Option<usize>
        ensures { MatchOption result (bound_in (bounds_of self.now) name.now ≡ None)
            (λ i. IsAt (bounds_of self.now) name.now i) }
    {
        if self.firsts.get(name.key()) >= self.used {
            return None;
        }
        let all = self.used;
        match position_in(self.list(), 0, FEW.min(all), name) {
            Some(index) => Some(index),
            None => {
                if all <= FEW {
                    None
                } else {
                    self.position_by_key(name, all)
                }
            }
        }
    }

    // The same where none of the first few has the name.
    #[inline(never)]
    fn position_by_key(&self, name: &Name, all: usize) -> Option<usize>
        requires all { all ≡ length self.now }
        requires few { NoneNamed self.now name.now (min few all) }
        ensures { MatchOption result (bound_in (bounds_of self.now) name.now ≡ None)
            (λ i. IsAt (bounds_of self.now) name.now i) }
    {
        match self.first.start(name.key()) {
            Some(start) => position_in(self.list(), start, all, name),
            None => None,
        }
    }

    /// One more binding, behind the others; unchanged on refusal.
    pub fn push(&mut self, binding: Binding<T>) -> Result<(), NoMemory>
        ensures added { OnOk result (self.new ≡ self.old ++ binding ∷ []) }
        ensures refused { OnErr result (self.new ≡ self.old) }
    {
        let place = self.used;
        let key = binding.name.key();
        let alloc = *self.all.allocator();
        self.first.note(alloc, key, place)?;
        put_behind(&mut self.all, place, binding)?;
        self.firsts.add(key, place);
        self.used += 1;
        Ok(())
    }

    /// One more binding, behind the others; unchanged on refusal. Where one of this name was left in
    /// place, it allocates nothing.
    pub(crate) fn bind(&mut self, name: &Name, constant: bool, value: T) -> Result<(), NoMemory>
        ensures added { OnOk result (bounds_of self.new ≡ bounds_of self.old
            ++ record { name = name.now; constant = constant; value = value } ∷ []) }
        ensures refused { OnErr result (self.new ≡ self.old) }
    {
        let place = self.used;
        let key = name.key();
        let alloc = *self.all.allocator();
        self.first.note(alloc, key, place)?;
        bind_behind(&mut self.all, place, name, constant, value)?;
        self.firsts.add(key, place);
        self.used += 1;
        Ok(())
    }

    /// Whether it has one binding alone, of this name, which is not constant.
    pub(crate) fn is_only(&self, name: &Name) -> bool
        ensures { result ≡ true → IsOnly (bounds_of self.now) name.now }
    {
        let list = self.list();
        if list.len() != 1 {
            return false;
        }
        let one = &list[0];
        if one.constant {
            return false;
        }
        one.name.is(name)
    }

    /// No binding is in use. They are left in place for others.
    pub(crate) fn clear(&mut self)
        ensures { self.new ≡ [] }
    {
        self.used = 0;
        self.first = Index::new();
        self.firsts = Firsts::new();
    }

    /// Another value for one binding.
    #[inline(always)]
    pub fn set(&mut self, index: usize, value: T)
        requires { index < length self.old }
        ensures { bounds_of self.new ≡ put (bounds_of self.old) index value }
    {
        set_value(&mut self.all, index, value)
    }
}

// The first binding of a name, which no binding before `start` has, among those before `end`.
#[inline(always)]
fn position_in<T>(bound: &[Binding<T>], start: usize, end: usize, name: &Name) -> Option<usize>
    requires within { end ≤ length bound.now }
    requires before { NoneNamed bound.now name.now start }
    ensures { MatchOption result (NoneNamed bound.now name.now end)
        (λ i. IsAt (bounds_of bound.now) name.now i) }
{
    for i in start..end {
        if bound[i].name.is(name) {
            return Some(i);
        }
    }
    None
}

#[inline(always)]
fn set_value<T: Drop>(bound: &mut Vec<Binding<T>>, index: usize, value: T)
    requires { index < length bound.old.items }
    ensures { bounds_of bound.new.items ≡ put (bounds_of bound.old.items) index value }
{
    bound[index].value = value;
}

// A binding behind those in use, in the place of one that was left, if there is one.
fn put_behind<T: Drop>(
    all: &mut Vec<Binding<T>>,
    used: usize,
    binding: Binding<T>,
) -> Result<(), NoMemory>
    requires { used ≤ length all.old.items }
    ensures put { OnOk result (take (used + 1) all.new.items ≡ take used all.old.items ++ binding ∷ []) }
    ensures room { OnOk result (used + 1 ≤ length all.new.items) }
    ensures refused { OnErr result (all.new.items ≡ all.old.items) }
{
    if used < all.len() {
        all[used] = binding;
        return Ok(());
    }
    match all.push(binding) {
        Ok(()) => Ok(()),
        Err(_) => Err(NoMemory),
    }
}

// The same for a name. Where the one that was left has it, the name isn't copied.
fn bind_behind<T: Drop>(
    all: &mut Vec<Binding<T>>,
    used: usize,
    name: &Name,
    constant: bool,
    value: T,
) -> Result<(), NoMemory>
    requires { used ≤ length all.old.items }
    ensures put { OnOk result (bounds_of (take (used + 1) all.new.items)
        ≡ bounds_of (take used all.old.items)
        ++ record { name = name.now; constant = constant; value = value } ∷ []) }
    ensures room { OnOk result (used + 1 ≤ length all.new.items) }
    ensures refused { OnErr result (all.new.items ≡ all.old.items) }
{
    if is_left(all, used, name) {
        bind_again(all, used, constant, value);
        return Ok(());
    }
    let binding = bind_name(name, constant, value)?;
    put_behind(all, used, binding)
}

// Whether a binding of this name was left at a place.
fn is_left<T>(all: &[Binding<T>], place: usize, name: &Name) -> bool
    ensures { result ≡ true → IsLeft all.now place name.now }
{
    if place >= all.len() {
        return false;
    }
    all[place].name.is(name)
}

// The binding that was left at a place is one again.
fn bind_again<T: Drop>(all: &mut Vec<Binding<T>>, place: usize, constant: bool, value: T)
    requires { place < length all.old.items }
    ensures again { (x : List ℕ) → IsLeft all.old.items place x → bounds_of (take (place + 1) all.new.items)
        ≡ bounds_of (take place all.old.items)
        ++ record { name = x; constant = constant; value = value } ∷ [] }
    ensures as_many { length all.new.items ≡ length all.old.items }
{
    let left = &mut all[place];
    left.constant = constant;
    left.value = value;
}

// A binding of a name.
fn bind_name<T: Drop>(name: &Name, constant: bool, value: T) -> Result<Binding<T>, NoMemory>
    ensures { IfOk result (λ b. bound_of b ≡ record { name = name.now; constant = constant; value = value }) }
{
    Ok(Binding {
        name: name.copy()?,
        constant,
        value,
    })
}
