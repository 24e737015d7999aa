// Items, which are the values of the language, and objects, which are lists of members.
ghost use Rattle.std.specs.Prelude.{◌≡◌, ◌<◌, length, OnOk, OnErr};
ghost use Rattle.js_item.specs.Contents.{no_fields, add};
ghost use Rattle.js_item.specs.Puts.{width, with_value};
ghost use Rattle.js_item.specs.Views.{content_of, fields_of};

use crate::index::Index;
use js_number::Num;
use js_units::NoMemory;
use std::alloc::Global;
use std::marker::Model;

/// A value, where strings are references into a store.
#[cycle(item)]
#[derive(Debug, Drop)]
pub enum Item<R> {
    Undefined,
    Null,
    Bool(bool),
    Number(Num),
    Text(R),
    Symbol(R),
    List(Vec<R>),
    Object(Object<R>),
}

/// A key, which is an interned string, and its value.
#[cycle(item)]
#[derive(Debug, Drop)]
pub struct Member<R> {
    pub key: R,
    pub value: Item<R>,
}

/// A list of members, with an index of their places once there are many, which contracts don't see.
#[cycle(item)]
#[derive(Debug, Drop)]
pub struct Object<R> {
    members: Vec<Member<R>>,
    index: Index,
}

impl<R> Model for Object<R> {
    ghost use Rattle.js_item.specs.Contents.{Fields, count};
    ghost use Rattle.js_item.specs.Codes.{fields_code};

    ghost Value = { Fields R };

    ghost coded = { fields_code R.code };

    ghost use Rattle.js_item.specs.Views.{fields_of};

    ghost view = { λ o. fields_of o.members.items };

    ghost size = { count };

    ghost use Rattle.js_item.specs.Falls.{depth_le_size};

    ghost size_decreases = { λ o h. depth_le_size o.members.items };
}

impl<R: Copy> Object<R> {
    /// An object with no member. It allocates nothing.
    pub fn new(alloc: Global) -> Object<R>
        ensures { result ≡ no_fields }
    {
        Object {
            members: Vec::new(alloc),
            index: Index::none(),
        }
    }

    // An object of these members, with an index of them.
    pub(crate) fn of(members: Vec<Member<R>>, index: Index) -> Object<R>
        ensures { result ≡ fields_of members.items }
    {
        Object { members, index }
    }

    // The index of the members.
    pub(crate) fn index(&self) -> &Index {
        &self.index
    }

    // The same object with this index.
    pub(crate) fn with_index(self, index: Index) -> Object<R>
        ensures { result ≡ self }
    {
        Object {
            members: self.members,
            index,
        }
    }

    // Another index.
    pub(crate) fn set_index(&mut self, index: Index)
        ensures { self.new ≡ self.old }
    {
        self.index = index;
    }

    // Gives a number a place, if there is an index.
    pub(crate) fn note(&mut self, number: u32, place: u32) -> Result<(), NoMemory>
        ensures { self.new ≡ self.old }
    {
        self.index.note(number, place)
    }

    // Adds a member at the end.
    pub(crate) fn push(&mut self, member: Member<R>) -> Result<(), NoMemory>
        ensures added { OnOk result (self.new ≡ add member.key (content_of member.value) self.old) }
        ensures unchanged { OnErr result (self.new ≡ self.old) }
    {
        self.members.push(member)?;
        Ok(())
    }

    // Puts the value in the place of that of the member there.
    pub(crate) fn replace(&mut self, place: u32, value: Item<R>)
        requires { place < width self.old }
        ensures { self.new ≡ with_value place (content_of value) self.old }
    {
        let member = &mut self.members[place as usize];
        member.value = value;
    }

    // The allocator of its vector.
    pub(crate) fn alloc(&self) -> Global {
        *self.members.allocator()
    }

    /// The members in order.
    pub fn members(&self) -> &[Member<R>]
        ensures fields { fields_of result.now ≡ self.now }
        ensures len { length result.now ≡ width self.now }
    {
        self.members.as_slice()
    }
}
