// The index by which a member is found among many.
ghost use Rattle.std.specs.Prelude.{◌≡◌, ◌<◌, ℕ, [], length, None, Some, IsTrue, IfOk, OnOk, OnErr};
ghost use Rattle.js_item.specs.Contents.{Content, add};
ghost use Rattle.js_item.specs.Fine.{strings_of, KeysFine, KeysDiffer};
ghost use Rattle.js_item.specs.Indexed.{Lacks, IsNoted, IsIndexed};
ghost use Rattle.js_item.specs.Puts.{width, names_key, place_by};
ghost use Rattle.js_item.specs.Views.{fields_of};

use crate::item::{Member, Object};
use js_store::Strings;
use js_units::NoMemory;
use std::alloc::Global;
use std::collections::HashMap;
use std::marker::Model;

/// As many members are looked at one after another, before there is an index.
pub(crate) const FEW: u32 = 8;

/// For the number of a key the place at which its member may be, which the member's key must
/// confirm. It is one pointer, and none as long as there is no index, so that an object of few
/// members costs nothing. Contracts see the entries.
#[derive(Clone, Debug, Drop)]
pub(crate) struct Index {
    places: Option<Box<HashMap<u32, u32>>>,
}

impl Model for Index {
    ghost use Rattle.std.specs.Prelude.{Option, List, ℕ, option_map};

    ghost Value = { Option (List (ℕ × ℕ)) };

    ghost view = { λ i. option_map (λ b. b.value.entries) i.places };
}

impl Index {
    /// No index. It allocates nothing.
    pub(crate) fn none() -> Index
        ensures { result ≡ None }
    {
        Index { places: None }
    }

    // An index with no entry.
    fn empty(alloc: Global) -> Result<Index, NoMemory>
        ensures { IfOk result (λ i. i ≡ Some []) }
    {
        let places = Box::new(alloc, HashMap::new(alloc))?;
        Ok(Index {
            places: Some(places),
        })
    }

    /// The place of a number.
    pub(crate) fn place(&self, number: u32) -> Option<u32> {
        match &self.places {
            Some(places) => places.get(&number).copied(),
            None => None,
        }
    }

    /// Whether there is an index, which has no place for the number.
    pub(crate) fn lacks(&self, number: u32) -> bool
        ensures { IsTrue result → Lacks self.now number }
    {
        match &self.places {
            Some(places) => places.get(&number).is_none(),
            None => false,
        }
    }

    /// If there is an index, gives a number its place, instead of the one that it had.
    pub(crate) fn note(&mut self, number: u32, place: u32) -> Result<(), NoMemory>
        ensures noted { OnOk result (IsNoted self.old self.new number place) }
        ensures unchanged { OnErr result (self.new ≡ self.old) }
    {
        match &mut self.places {
            Some(places) => {
                places.insert(number, place)?;
                Ok(())
            }
            None => Ok(()),
        }
    }

    /// Enters a key in the index as that of the next member. The index begins with the first member
    /// behind the first few, and there is none where the store doesn't report a number.
    pub(crate) fn enter<S: Strings>(
        &mut self,
        store: &S,
        object: &Object<S::Ref>,
        key: S::Ref,
    ) -> Result<(), NoMemory>
        requires few { width object.now < 4294967295 }
        requires apart { KeysDiffer (strings_of (S.state store.now)) S.number object.now }
        requires absent { place_by (names_key (S.state store.now) S.number key) object.now ≡ None }
        requires indexed { IsIndexed S.number self.old object.now }
        ensures stays { IsIndexed S.number self.new object.now }
        ensures next { OnOk result
            ((value : Content S.Ref) → IsIndexed S.number self.new (add key value object.now)) }
    {
        self.begin(store, object)?;
        match store.id_of(key) {
            Some(number) => self.note(number, object.members().len() as u32),
            None => {
                *self = Index::none();
                Ok(())
            }
        }
    }

    // Enters the first few members as soon as there are so many.
    fn begin<S: Strings>(&mut self, store: &S, object: &Object<S::Ref>) -> Result<(), NoMemory>
        requires apart { KeysDiffer (strings_of (S.state store.now)) S.number object.now }
        requires indexed { IsIndexed S.number self.old object.now }
        ensures { IsIndexed S.number self.new object.now }
    {
        let members = object.members();
        if members.len() == FEW as usize {
            *self = index_of(object.alloc(), store, members)?;
        }
        Ok(())
    }
}

/// The index of these members, or none where the store doesn't report a number.
pub(crate) fn index_of<S: Strings>(
    alloc: Global,
    store: &S,
    members: &[Member<S::Ref>],
) -> Result<Index, NoMemory>
    requires few { length members.now < 4294967296 }
    requires apart { KeysDiffer (strings_of (S.state store.now)) S.number (fields_of members.now) }
    ensures { IfOk result (λ i. IsIndexed S.number i (fields_of members.now)) }
{
    let mut index = Index::empty(alloc)?;
    for (place, member) in members.iter().enumerate() {
        match store.id_of(member.key) {
            Some(number) => index.note(number, place as u32)?,
            None => return Ok(Index::none()),
        }
    }
    Ok(index)
}
