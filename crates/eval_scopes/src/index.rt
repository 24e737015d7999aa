// The names of a block, and the index by which a name is found among many.
ghost use Rattle.std.specs.Prelude.{◌≡◌, ◌<◌, ◌≤◌, ◌⊎◌, ℕ, List, [], false, true, length, min, IfOk, OnOk, IsSome};
ghost use Rattle.std.specs.Ordering.{nat_cmp};
ghost use Rattle.std.specs.Map.{lookup};
ghost use Rattle.std.specs.BTreeMap.{is_at};
ghost use Rattle.eval_scopes.specs.Index.{few, IsIndexTo, NoneAmong};
ghost use Rattle.eval_scopes.specs.Bindings.{is_among};

use eval_tree::{Name, Names};
use js_units::NoMemory;
use std::alloc::Global;
use std::collections::BTreeMap;
use std::marker::Model;

/// As many names are looked at one after another, before an index is asked for those behind them.
pub(crate) const FEW: usize = 8;

/// For each key the place from which names with this key begin. It is one pointer, and null as long
/// as no key has a place, so that a block of few names costs nothing. Contracts see the entries.
#[derive(Drop)]
pub struct Index {
    map: Option<Box<BTreeMap<u64, usize>>>,
}

impl Model for Index {
    ghost use Rattle.std.specs.Prelude.{List, ℕ, [], option_map, unwrap_or};

    ghost Value = { List (ℕ × ℕ) };

    ghost view = { λ i. unwrap_or (option_map (λ b. b.value.entries) i.map) [] };
}

impl Index {
    /// No key. It allocates nothing.
    pub(crate) fn new() -> Index
        ensures { result ≡ [] }
    {
        Index { map: None }
    }

    /// The place of a key.
    pub(crate) fn start(&self, key: u64) -> Option<usize>
        ensures { result ≡ lookup (is_at (nat_cmp key)) self.now }
    {
        match &self.map {
            Some(map) => map.get(&key).copied(),
            None => None,
        }
    }

    /// A key that is new gets its place. The first few places get none.
    #[inline(always)]
    pub(crate) fn note(&mut self, alloc: Global, key: u64, place: usize) -> Result<(), NoMemory>
        ensures indexed { (ns : List (List ℕ)) → place ≤ length ns → IsIndexTo self.old ns place
            → IsIndexTo self.new ns place }
        ensures found { OnOk result (IsSome (lookup (is_at (nat_cmp key)) self.new) ⊎ (place < few)) }
    {
        if place < FEW {
            return Ok(());
        }
        self.note_behind(alloc, key, place)
    }

    // The same behind the first few.
    #[inline(never)]
    fn note_behind(&mut self, alloc: Global, key: u64, place: usize) -> Result<(), NoMemory>
        ensures indexed { (ns : List (List ℕ)) → place ≤ length ns → IsIndexTo self.old ns place
            → IsIndexTo self.new ns place }
        ensures found { OnOk result (IsSome (lookup (is_at (nat_cmp key)) self.new)) }
    {
        match &mut self.map {
            Some(map) => index_key(map, key, place),
            None => {
                self.map = Some(one_key(alloc, key, place)?);
                Ok(())
            }
        }
    }
}

// A map of one key.
fn one_key(alloc: Global, key: u64, place: usize) -> Result<Box<BTreeMap<u64, usize>>, NoMemory>
    ensures indexed { IfOk result (λ map. (ns : List (List ℕ)) → place ≤ length ns → IsIndexTo [] ns place
        → IsIndexTo map.value.entries ns place) }
    ensures found { IfOk result (λ map. IsSome (lookup (is_at (nat_cmp key)) map.value.entries)) }
{
    let mut map = BTreeMap::new(alloc);
    index_key(&mut map, key, place)?;
    match Box::new(alloc, map) {
        Ok(map) => Ok(map),
        Err(_) => Err(NoMemory),
    }
}

fn index_key(map: &mut BTreeMap<u64, usize>, key: u64, place: usize) -> Result<(), NoMemory>
    ensures indexed { (ns : List (List ℕ)) → place ≤ length ns → IsIndexTo map.old.entries ns place
        → IsIndexTo map.new.entries ns place }
    ensures found { OnOk result (IsSome (lookup (is_at (nat_cmp key)) map.new.entries)) }
{
    if map.contains_key(&key) {
        return Ok(());
    }
    match map.insert(key, place) {
        Ok(_) => Ok(()),
        Err(_) => Err(NoMemory),
    }
}

/// The names that a block declares. Contracts see them as a list. As in `BindingList`, those behind the first
/// few are sought by their keys.
#[derive(Drop)]
pub struct Declared<'a> {
    names: &'a Names,
    first: Index,
}

impl<'a> Model for Declared<'a> {
    ghost use Rattle.std.specs.Prelude.{List, ℕ};
    ghost use Rattle.eval_scopes.specs.Index.{IsIndex};

    ghost Value = { List (List ℕ) };

    ghost view = { λ d. d.names.now };

    ghost invariant = { λ d. IsIndex d.first d.names.now };
}

impl<'a> Declared<'a> {
    /// These names. A few of them allocate nothing.
    pub fn new(alloc: Global, names: &'a Names) -> Result<Declared<'a>, NoMemory>
        ensures { IfOk result (λ d. d ≡ names.now) }
    {
        let first = index_of(alloc, names.as_slice())?;
        Ok(Declared { names, first })
    }

    // The names.
    pub(crate) fn as_slice(&self) -> &[Name]
        ensures { result.now ≡ self.now }
    {
        self.names.as_slice()
    }

    /// Whether a name is one of them.
    pub fn has(&self, name: &Name) -> bool
        ensures { result ≡ is_among self.now name.now }
    {
        let names = self.names.as_slice();
        let all = names.len();
        if is_one_of(names, 0, FEW.min(all), name) {
            return true;
        }
        if all <= FEW {
            return false;
        }
        self.has_by_key(name)
    }

    // The same where none of the first few is the name.
    #[inline(never)]
    fn has_by_key(&self, name: &Name) -> bool
        requires { NoneAmong self.now name.now (min few (length self.now)) }
        ensures { result ≡ is_among self.now name.now }
    {
        match self.first.start(name.key()) {
            Some(start) => {
                let names = self.names.as_slice();
                is_one_of(names, start, names.len(), name)
            }
            None => false,
        }
    }
}

// The index of names.
fn index_of(alloc: Global, names: &[Name]) -> Result<Index, NoMemory>
    ensures { IfOk result (λ first. IsIndexTo first names.now (length names.now)) }
{
    let mut first = Index::new();
    for place in 0..names.len() {
        first.note(alloc, names[place].key(), place)?;
    }
    Ok(first)
}

// Whether a name, which none of those before `start` is, is among those before `end`.
fn is_one_of(names: &[Name], start: usize, end: usize, name: &Name) -> bool
    requires within { end ≤ length names.now }
    requires before { NoneAmong names.now name.now start }
    ensures found { result ≡ true → is_among names.now name.now ≡ true }
    ensures none { result ≡ false → NoneAmong names.now name.now end }
{
    for i in start..end {
        if names[i].is(name) {
            return true;
        }
    }
    false
}
