// The members of objects, by their keys.
ghost use Rattle.std.specs.Prelude.{◌≡◌, ◌+◌, ◌<◌, ◌≤◌, OnOk, OnErr, MatchOption, IfSome, None, Some, is_some, bytes_eq};
ghost use Rattle.js_store.specs.State.{text};
ghost use Rattle.js_store.specs.Faults.{Uses};
ghost use Rattle.js_item.specs.Fine.{strings_of, KeyFine, KeysFine, KeysDiffer};
ghost use Rattle.js_item.specs.Puts.{width, has_units, names_key, place_by, value_by, put_by};
ghost use Rattle.js_item.specs.Views.{content_of, fields_of};

use crate::index::{FEW, Index, index_of};
use crate::item::{Item, Member, Object};
use js_store::Strings;
use js_units::NoMemory;

impl<R: Copy> Object<R> {
    /// The place of the member whose key has the units of `key`, if there is one. No contract says how
    /// long that takes: the code compares numbers alone, by an index where there are many members.
    pub fn find<S: Strings<Ref = R>>(&self, store: &mut S, key: R) -> Option<u32>
        requires few { width self.now < 4294967296 }
        requires keys { KeysFine (strings_of (S.state store.old)) S.number self.now }
        requires apart { KeysDiffer (strings_of (S.state store.old)) S.number self.now }
        requires key { KeyFine (strings_of (S.state store.old)) (S.number key) }
        ensures place { result ≡ place_by (names_key (S.state store.old) S.number key) self.now }
        ensures uses { Uses (S.state store.old) (S.state store.new) None 0 0 }
    {
        self.find_with(self.index(), store, key)
    }

    // The same by another index.
    pub(crate) fn find_with<S: Strings<Ref = R>>(
        &self,
        index: &Index,
        store: &mut S,
        key: R,
    ) -> Option<u32>
        requires few { width self.now < 4294967296 }
        requires keys { KeysFine (strings_of (S.state store.old)) S.number self.now }
        requires apart { KeysDiffer (strings_of (S.state store.old)) S.number self.now }
        requires key { KeyFine (strings_of (S.state store.old)) (S.number key) }
        ensures place { result ≡ place_by (names_key (S.state store.old) S.number key) self.now }
        ensures uses { Uses (S.state store.old) (S.state store.new) None 0 0 }
    {
        match self.find_by_index(index, store, key) {
            Some(place) => Some(place),
            None => self.find_one_by_one(store, key),
        }
    }

    // The place that the index has for the key's number, if the member there has the key.
    fn find_by_index<S: Strings<Ref = R>>(
        &self,
        index: &Index,
        store: &mut S,
        key: R,
    ) -> Option<u32>
        requires keys { KeysFine (strings_of (S.state store.old)) S.number self.now }
        requires apart { KeysDiffer (strings_of (S.state store.old)) S.number self.now }
        requires key { KeyFine (strings_of (S.state store.old)) (S.number key) }
        ensures place { IfSome result
            (λ place. place_by (names_key (S.state store.old) S.number key) self.now ≡ Some place) }
        ensures uses { Uses (S.state store.old) (S.state store.new) None 0 0 }
    {
        let number = store.id_of(key)?;
        let place = index.place(number)?;
        let members = self.members();
        if place as usize >= members.len() {
            return None;
        }
        if store.same(members[place as usize].key, key) {
            return Some(place);
        }
        None
    }

    fn find_one_by_one<S: Strings<Ref = R>>(&self, store: &mut S, key: R) -> Option<u32>
        requires few { width self.now < 4294967296 }
        requires keys { KeysFine (strings_of (S.state store.old)) S.number self.now }
        requires key { KeyFine (strings_of (S.state store.old)) (S.number key) }
        ensures place { result ≡ place_by (names_key (S.state store.old) S.number key) self.now }
        ensures uses { Uses (S.state store.old) (S.state store.new) None 0 0 }
    {
        for (i, member) in self.members().iter().enumerate() {
            if store.same(member.key, key) {
                return Some(i as u32);
            }
        }
        None
    }

    /// The value of the member whose key has the units of `key`, if there is one.
    pub fn get<S: Strings<Ref = R>>(&self, store: &mut S, key: R) -> Option<&Item<R>>
        requires few { width self.now < 4294967296 }
        requires keys { KeysFine (strings_of (S.state store.old)) S.number self.now }
        requires apart { KeysDiffer (strings_of (S.state store.old)) S.number self.now }
        requires key { KeyFine (strings_of (S.state store.old)) (S.number key) }
        ensures value { MatchOption result
            (value_by (names_key (S.state store.old) S.number key) self.now ≡ None)
            (λ item. value_by (names_key (S.state store.old) S.number key) self.now
            ≡ Some (content_of item.now)) }
        ensures uses { Uses (S.state store.old) (S.state store.new) None 0 0 }
    {
        match self.find(store, key) {
            Some(place) => Some(&self.members()[place as usize].value),
            None => None,
        }
    }

    /// Puts the value in the place of the one whose key has the units of `key`, or else a new
    /// member at the end. A refusal leaves the object as it was. Afterwards its keys are fine and
    /// differ, so that a caller may find, get and insert again. An [`ObjectBuilder`](crate::ObjectBuilder)
    /// inserts many faster.
    pub fn insert<S: Strings<Ref = R>>(
        &mut self,
        store: &mut S,
        key: R,
        value: Item<R>,
    ) -> Result<(), NoMemory>
        requires few { width self.old < 4294967295 }
        requires keys { KeysFine (strings_of (S.state store.old)) S.number self.old }
        requires apart { KeysDiffer (strings_of (S.state store.old)) S.number self.old }
        requires key { KeyFine (strings_of (S.state store.old)) (S.number key) }
        ensures added { OnOk result
            (self.new ≡ put_by (names_key (S.state store.old) S.number key) key (content_of value) self.old) }
        ensures unchanged { OnErr result (self.new ≡ self.old) }
        ensures keys { KeysFine (strings_of (S.state store.new)) S.number self.new }
        ensures apart { KeysDiffer (strings_of (S.state store.new)) S.number self.new }
        ensures few { width self.new ≤ width self.old + 1 }
        ensures uses { Uses (S.state store.old) (S.state store.new) None 0 0 }
    {
        match self.find(store, key) {
            Some(place) => {
                self.replace(place, value);
                Ok(())
            }
            None => {
                self.enter(store, key)?;
                self.push(Member { key, value })
            }
        }
    }

    // Enters a key in the index as that of the next member. The index begins with the first member behind the
    // first few.
    fn enter<S: Strings<Ref = R>>(&mut self, store: &S, key: R) -> Result<(), NoMemory>
        requires few { width self.old < 4294967295 }
        requires apart { KeysDiffer (strings_of (S.state store.now)) S.number self.old }
        ensures { self.new ≡ self.old }
    {
        let next = self.members().len() as u32;
        if next == FEW {
            let index = index_of(self.alloc(), store, self.members())?;
            self.set_index(index);
        }
        match store.id_of(key) {
            Some(number) => self.note(number, next),
            None => Ok(()),
        }
    }

    /// Whether there is a member whose key has these units, of which the store needs no string. It
    /// reads the keys.
    pub fn has<S: Strings<Ref = R>>(&self, store: &mut S, units: &[u16]) -> bool
        requires { KeysFine (strings_of (S.state store.old)) S.number self.now }
        ensures value { result ≡ is_some
            (place_by (has_units (S.state store.old) S.number units.now) self.now) }
        ensures uses { Uses (S.state store.old) (S.state store.new) None 0 0 }
    {
        for member in self.members() {
            if is_key(store, member.key, units) {
                return true;
            }
        }
        false
    }
}

// Whether a key has these units.
fn is_key<S: Strings>(store: &mut S, key: S::Ref, units: &[u16]) -> bool
    requires { KeyFine (strings_of (S.state store.old)) (S.number key) }
    ensures value { result ≡ bytes_eq (text (S.state store.old) (S.number key)) units.now }
    ensures uses { Uses (S.state store.old) (S.state store.new) None 0 0 }
{
    let len = store.len(key);
    if len as usize != units.len() {
        return false;
    }
    for i in 0..len {
        if store.unit_at(key, i) != units[i as usize] {
            return false;
        }
    }
    true
}
