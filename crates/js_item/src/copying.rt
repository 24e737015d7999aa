// Copies of items.
ghost use Rattle.std.specs.Prelude.{◌≡◌, IfOk};
ghost use Rattle.js_item.specs.Views.{content_of, fields_of};

use crate::item::{Item, Member, Object};
use js_units::NoMemory;

impl<R: Copy> Item<R> {
    /// The same item once more.
    #[cycle(copy)]
    pub fn copy(&self) -> Result<Item<R>, NoMemory>
        ensures { IfOk result (λ item. content_of item ≡ content_of self.now) }
    {
        Ok(match self {
            Item::Undefined => Item::Undefined,
            Item::Null => Item::Null,
            Item::Bool(b) => Item::Bool(*b),
            Item::Number(n) => Item::Number(*n),
            Item::Text(s) => Item::Text(*s),
            Item::Symbol(s) => Item::Symbol(*s),
            Item::List(list) => Item::List(copied(list)?),
            Item::Object(object) => Item::Object(object.copy()?),
        })
    }
}

impl<R: Copy> Object<R> {
    /// The same object once more.
    #[cycle(copy)]
    pub fn copy(&self) -> Result<Object<R>, NoMemory>
        ensures { IfOk result (λ object. object ≡ self.now) }
    {
        let mut copies = Vec::new(self.alloc());
        for member in self.members() {
            let value = member.value.copy()?;
            copies.push(Member {
                key: member.key,
                value,
            })?;
        }
        Ok(Object::of(copies, self.index().clone()?))
    }
}

fn copied<R: Copy>(list: &Vec<R>) -> Result<Vec<R>, NoMemory>
    ensures { IfOk result (λ copy. copy.items ≡ list.now.items) }
{
    let mut copy = Vec::new(*list.allocator());
    match copy.extend_from_slice(list) {
        Ok(()) => Ok(copy),
        Err(_) => Err(NoMemory),
    }
}
