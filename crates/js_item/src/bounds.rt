// How deep objects nest, and how many members they hold.
ghost use Rattle.std.specs.Prelude.{◌≡◌, ◌+◌, ◌≤◌, ◌↔◌, MatchOption, IsTrue};
ghost use Rattle.js_item.specs.Contents.{count, count_in};
ghost use Rattle.js_item.specs.Fine.{depth, depth_in, Bounded};
ghost use Rattle.js_item.specs.Views.{content_of};

use crate::item::{Item, Object};

impl<R: Copy> Item<R> {
    // What is left of `left` without the members of the item, unless it nests deeper than `deep`
    // or they are more.
    #[cycle(spend)]
    fn spend(&self, deep: u32, left: u32) -> Option<u32>
        ensures { MatchOption result
            (depth_in (content_of self.now) ≤ deep → count_in (content_of self.now) ≤ left → ⊥)
            (λ rest. (depth_in (content_of self.now) ≤ deep)
            × (rest + count_in (content_of self.now) ≡ left)) }
    {
        match self {
            Item::Object(object) => {
                if deep == 0 {
                    return None;
                }
                object.spend(deep - 1, left)
            }
            Item::Undefined
            | Item::Null
            | Item::Bool(_)
            | Item::Number(_)
            | Item::Text(_)
            | Item::Symbol(_)
            | Item::List(_) => Some(left),
        }
    }
}

impl<R: Copy> Object<R> {
    /// Whether the object is nested at most 200 deep, itself counted, and holds at most 65,536
    /// members in all its levels.
    pub fn is_bounded(&self) -> bool
        ensures { IsTrue result ↔ Bounded self.now }
    {
        self.spend(199, 65536).is_some()
    }

    // The same of an object, whose values nest no deeper than `deep`.
    #[cycle(spend)]
    fn spend(&self, deep: u32, left: u32) -> Option<u32>
        ensures { MatchOption result
            (depth self.now ≤ deep → count self.now ≤ left → ⊥)
            (λ rest. (depth self.now ≤ deep) × (rest + count self.now ≡ left)) }
    {
        let mut rest = left;
        for member in self.members() {
            if rest == 0 {
                return None;
            }
            match member.value.spend(deep, rest - 1) {
                Some(after) => rest = after,
                None => return None,
            }
        }
        Some(rest)
    }
}
