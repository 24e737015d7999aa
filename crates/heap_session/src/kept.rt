// A word that a session read of a string, so that its units are read again with no load.
ghost use Rattle.std.specs.Prelude.{◌≡◌, ◌+◌, ◌≤◌, ◌<◌, IfSome};
ghost use Rattle.js_units.specs.Lanes.{lane_count};
ghost use Rattle.heap_read.specs.Written.{held_unit};

use heap_read::{HeldWord, JsStr};

// A word with units of the string with number `id`. They are so for good, since no string changes.
#[derive(Clone, Copy)]
pub(crate) struct KeptWord {
    pub(crate) id: u32,
    pub(crate) held: HeldWord,
    ghost lanes: { held.lane + held.count ≤ lane_count held.wide },
}

impl KeptWord {
    // No unit of any string.
    pub(crate) fn none() -> KeptWord
        ensures { result.held.count ≡ 0 }
    {
        KeptWord {
            id: 0,
            held: HeldWord::none(),
        }
    }

    // Unit `i` of a string, where the word has it.
    pub(crate) fn get(&self, s: JsStr, i: u32) -> Option<u16>
        ensures { IfSome result
            (λ unit. (self.now.id ≡ s.id) × (self.now.held.from ≤ i)
            × (i < self.now.held.from + self.now.held.count) × (unit ≡ held_unit self.now.held i)) }
    {
        if self.id == s.id && self.held.has(i) {
            Some(self.held.unit(i))
        } else {
            None
        }
    }
}
