// Finite maps from numbers, and histories, as contracts see them.
ghost use Rattle.std.specs.Prelude.{◌≡◌, ℕ, [], ◌∷◌, ◌++◌, ◌↔◌, Some, IsTrue, IfOk, OnOk, OnErr};
ghost use Rattle.std.specs.List.{All};
ghost use Rattle.std.specs.Ordering.{nat_cmp};
ghost use Rattle.std.specs.FinMap as map;
ghost use Rattle.std.specs.Map.Iter.{ShowsInOrder, deref_pair};
ghost use Rattle.std.specs.Coded.{coded_ℕ};
ghost use Rattle.heap_rule.specs.Paths.{StartsWith};
ghost use Rattle.std.specs.Option.{option_copied};

use crate::overlay::Twin;
use js_units::{NoMemory, Units};
use std::alloc::Global;
use std::collections::BTreeMap;
use std::collections::btree_map::Iter;
use std::marker::Model;

/// A map from ids, content words or slots. Contracts see it as a finite map.
#[derive(Drop)]
pub struct IdMap<X> {
    entries: BTreeMap<u32, X>,
}

impl<X> Model for IdMap<X> {
    ghost Value = { map.FinMap nat_cmp X };

    ghost coded = { map.code coded_ℕ X.code };

    ghost view = { λ a. map.from_entries a.entries.entries };
}

impl<X> IdMap<X> {
    /// The empty map. It allocates nothing.
    pub fn new(alloc: Global) -> Self
        ensures { result ≡ map.empty }
    {
        Self {
            entries: BTreeMap::new(alloc),
        }
    }

    /// What the key has.
    pub fn get(&self, key: u32) -> Option<&X>
        ensures { option_copied result ≡ map.get self.now key }
    {
        self.entries.get(&key)
    }

    /// The entries, in the order of their keys.
    pub fn iter(&self) -> Iter<'_, u32, X>
        ensures rest { result ≡ map.entries self.now }
        ensures runs { ShowsInOrder (deref_pair {K = ℕ} {X = X}) }
        ensures found { All (λ e. map.get self.now e.0 ≡ Some e.1) (map.entries self.now) }
    {
        self.entries.iter()
    }

    /// Whether the key has anything.
    pub fn contains_key(&self, key: u32) -> bool
        ensures { result ≡ map.contains_key self.now key }
    {
        self.get(key).is_some()
    }
}

impl<X: Drop> IdMap<X> {
    /// Puts the value at the key, in place of any that it has.
    pub fn insert(&mut self, key: u32, value: X) -> Result<(), NoMemory>
        ensures ok { OnOk result (self.new ≡ map.insert self.old key value) }
        ensures err { OnErr result (self.new ≡ self.old) }
    {
        match self.entries.insert(key, value) {
            Ok(_) => Ok(()),
            Err(_) => Err(NoMemory),
        }
    }

    /// Removes the key.
    pub fn remove(&mut self, key: u32)
        ensures { self.new ≡ map.remove self.old key }
    {
        let _ = self.entries.remove(&key);
    }
}

impl IdMap<u64> {
    /// The same map again.
    pub fn copied(&self) -> Result<IdMap<u64>, NoMemory>
        ensures { IfOk result (λ m. m ≡ self.now) }
    {
        match self.entries.clone() {
            Ok(entries) => Ok(IdMap { entries }),
            Err(_) => Err(NoMemory),
        }
    }
}

/// The calls of intern, as pairs of units and id, the oldest first.
#[derive(Drop)]
pub struct History {
    calls: Vec<(Units, u32)>,
}

impl Model for History {
    ghost use Rattle.std.specs.Prelude.{List, ℕ};

    ghost Value = { List (List ℕ × ℕ) };

    ghost view = { λ h. h.calls.items };
}

impl History {
    /// No call. It allocates nothing.
    pub fn new(alloc: Global) -> History
        ensures { result ≡ [] }
    {
        History {
            calls: Vec::new(alloc),
        }
    }

    /// Adds the calls of another history behind these.
    fn add(&mut self, alloc: Global, other: &History) -> Result<(), NoMemory>
        ensures { OnOk result (self.new ≡ self.old ++ other.now) }
    {
        for call in other.calls.as_slice() {
            self.calls.push((call.0.twin(alloc)?, call.1))?;
        }
        Ok(())
    }

    /// Adds one call behind these.
    pub fn push(&mut self, units: Units, id: u32) -> Result<(), NoMemory>
        ensures ok { OnOk result (self.new ≡ self.old ++ (units, id) ∷ []) }
        ensures err { OnErr result (self.new ≡ self.old) }
    {
        if self.calls.push((units, id)).is_err() {
            return Err(NoMemory);
        }
        Ok(())
    }

    /// These calls, and then those of the other history.
    pub fn followed_by(&self, alloc: Global, other: &History) -> Result<History, NoMemory>
        ensures { IfOk result (λ h. h ≡ self.now ++ other.now) }
    {
        let mut all = self.twin(alloc)?;
        all.add(alloc, other)?;
        Ok(all)
    }

    /// Whether these calls begin with those of the other history.
    pub fn starts_with(&self, front: &History) -> bool
        ensures { IsTrue result ↔ StartsWith self.now front.now }
    {
        begins_with(self.calls.as_slice(), front.calls.as_slice())
    }

    /// Whether these calls, and then the later ones, begin with those of `front`, which begin
    /// with these.
    pub fn continues(&self, later: &History, front: &History) -> bool
        requires { StartsWith front.now self.now }
        ensures { IsTrue result ↔ StartsWith (self.now ++ later.now) front.now }
    {
        begins_with(
            later.calls.as_slice(),
            &front.calls.as_slice()[self.calls.as_slice().len()..],
        )
    }
}

impl Twin for History {
    fn twin(&self, alloc: Global) -> Result<History, NoMemory> {
        let mut calls = History::new(alloc);
        calls.add(alloc, self)?;
        Ok(calls)
    }
}

// Whether a list of calls begins with another one.
fn begins_with(calls: &[(Units, u32)], front: &[(Units, u32)]) -> bool
    ensures { IsTrue result ↔ StartsWith calls.now front.now }
{
    if calls.len() < front.len() {
        return false;
    }
    let mut i = 0;
    'calls: while i < front.len() {
        if !is_same_call(&calls[i], &front[i]) {
            return false;
        }
        i += 1;
    }
    true
}

fn is_same_call(a: &(Units, u32), b: &(Units, u32)) -> bool
    ensures { IsTrue result ↔ (a.now ≡ b.now) }
{
    if a.1 != b.1 {
        return false;
    }
    a.0.as_slice() == b.0.as_slice()
}
