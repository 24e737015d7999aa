// Objects that are made member by member.
ghost use Rattle.std.specs.Prelude.{◌≡◌, ◌+◌, ◌<◌, ◌≤◌, OnOk, OnErr, IsTrue, None};
ghost use Rattle.js_store.specs.Faults.{Uses};
ghost use Rattle.js_item.specs.Contents.{no_fields};
ghost use Rattle.js_item.specs.Fine.{strings_of, KeyFine, KeysFine, KeysDiffer};
ghost use Rattle.js_item.specs.Indexed.{IsIndexed};
ghost use Rattle.js_item.specs.Puts.{width, names_key, place_by, put_by};
ghost use Rattle.js_item.specs.Views.{content_of};

use crate::index::Index;
use crate::item::{Item, Member, Object};
use js_store::Strings;
use js_units::NoMemory;
use std::alloc::Global;
use std::marker::{Model, PhantomData};

/// An object that is made member by member, whose keys are strings of stores of one type. Contracts
/// see its members. Its index leads to each of them once there are many, so that a key which no
/// member has is known as new by one look.
#[derive(Drop)]
pub struct ObjectBuilder<R: Copy, S: Strings<Ref = R>> {
    object: Object<R>,
    index: Index,
    store: PhantomData<S>,
}

impl<R: Copy, S: Strings<Ref = R>> Model for ObjectBuilder<R, S> {
    ghost use Rattle.js_item.specs.Contents.{Fields};
    ghost use Rattle.js_item.specs.Codes.{fields_code};

    ghost Value = { Fields R };

    ghost coded = { fields_code R.code };

    ghost use Rattle.js_item.specs.Indexed.{IsIndexed};

    ghost view = { λ b. b.object };

    ghost invariant = { λ b. IsIndexed S.number b.index b.object };
}

impl<R: Copy, S: Strings<Ref = R>> ObjectBuilder<R, S> {
    /// An object with no member. It allocates nothing.
    pub fn new(alloc: Global) -> ObjectBuilder<R, S>
        ensures { result ≡ no_fields }
    {
        ObjectBuilder {
            object: Object::new(alloc),
            index: Index::none(),
            store: PhantomData,
        }
    }

    /// How many members it has.
    pub fn len(&self) -> usize
        ensures { result ≡ width self.now }
    {
        self.object.members().len()
    }

    /// Puts the value in the place of the one whose key has the units of `key`, or else a new
    /// member at the end. A refusal leaves the object as it was. Afterwards its keys are fine and
    /// differ, so that a caller may insert again.
    pub fn insert(&mut self, store: &mut S, key: R, value: Item<R>) -> Result<(), NoMemory>
        requires few { width self.old < 4294967295 }
        requires keys { KeysFine (strings_of (S.state store.old)) S.number self.old }
        requires apart { KeysDiffer (strings_of (S.state store.old)) S.number self.old }
        requires key { KeyFine (strings_of (S.state store.old)) (S.number key) }
        ensures added { OnOk result
            (self.new ≡ put_by (names_key (S.state store.old) S.number key) key (content_of value) self.old) }
        ensures unchanged { OnErr result (self.new ≡ self.old) }
        ensures keys { KeysFine (strings_of (S.state store.new)) S.number self.new }
        ensures apart { KeysDiffer (strings_of (S.state store.new)) S.number self.new }
        ensures few { width self.new ≤ width self.old + 1 }
        ensures uses { Uses (S.state store.old) (S.state store.new) None 0 0 }
    {
        put(store, &mut self.object, &mut self.index, key, value)
    }

    /// The object.
    pub fn finish(self) -> Object<R>
        ensures { result ≡ self }
    {
        self.object.with_index(self.index)
    }
}

// What `insert` does to the parts of a builder.
fn put<S: Strings>(
    store: &mut S,
    object: &mut Object<S::Ref>,
    index: &mut Index,
    key: S::Ref,
    value: Item<S::Ref>,
) -> Result<(), NoMemory>
    requires few { width object.old < 4294967295 }
    requires keys { KeysFine (strings_of (S.state store.old)) S.number object.old }
    requires apart { KeysDiffer (strings_of (S.state store.old)) S.number object.old }
    requires key { KeyFine (strings_of (S.state store.old)) (S.number key) }
    requires indexed { IsIndexed S.number index.old object.old }
    ensures added { OnOk result
        (object.new ≡ put_by (names_key (S.state store.old) S.number key) key (content_of value) object.old) }
    ensures unchanged { OnErr result (object.new ≡ object.old) }
    ensures keys { KeysFine (strings_of (S.state store.new)) S.number object.new }
    ensures apart { KeysDiffer (strings_of (S.state store.new)) S.number object.new }
    ensures few { width object.new ≤ width object.old + 1 }
    ensures indexed { IsIndexed S.number index.new object.new }
    ensures uses { Uses (S.state store.old) (S.state store.new) None 0 0 }
{
    match find(store, object, index, key) {
        Some(place) => {
            object.replace(place, value);
            Ok(())
        }
        None => {
            index.enter(store, object, key)?;
            object.push(Member { key, value })
        }
    }
}

// The place of the member whose key has the units of `key`, by an index that leads to each member.
fn find<S: Strings>(
    store: &mut S,
    object: &Object<S::Ref>,
    index: &Index,
    key: S::Ref,
) -> Option<u32>
    requires few { width object.now < 4294967296 }
    requires keys { KeysFine (strings_of (S.state store.old)) S.number object.now }
    requires apart { KeysDiffer (strings_of (S.state store.old)) S.number object.now }
    requires key { KeyFine (strings_of (S.state store.old)) (S.number key) }
    requires indexed { IsIndexed S.number index.now object.now }
    ensures place { result ≡ place_by (names_key (S.state store.old) S.number key) object.now }
    ensures uses { Uses (S.state store.old) (S.state store.new) None 0 0 }
{
    if is_new(store, object, index, key) {
        return None;
    }
    object.find_with(index, store, key)
}

// Whether the index shows that no member has the key.
fn is_new<S: Strings>(store: &S, object: &Object<S::Ref>, index: &Index, key: S::Ref) -> bool
    requires keys { KeysFine (strings_of (S.state store.now)) S.number object.now }
    requires key { KeyFine (strings_of (S.state store.now)) (S.number key) }
    requires indexed { IsIndexed S.number index.now object.now }
    ensures { IsTrue result
        → place_by (names_key (S.state store.now) S.number key) object.now ≡ None }
{
    match store.id_of(key) {
        Some(number) => index.lacks(number),
        None => false,
    }
}
