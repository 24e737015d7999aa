// The short strings that a session made lately, so that a key which is read again needs no new one.
ghost use Rattle.std.specs.Prelude.{◌≡◌, ◌<◌, length, IfSome};
ghost use Rattle.heap_rule.specs.declared.view.View.{View};
ghost use Rattle.heap_session.specs.Recent.{AreRecent, IsRecent};

use heap_intern::mix_units;
use heap_read::JsStr;

// Which of the places a list of units has, and what distinguishes it from most other lists there.
#[derive(Clone, Copy)]
pub(crate) struct Mark {
    pub(crate) hash: u32,
}

// At each place the number of the string that was kept there last, with the mark of its units, or
// 0 where none was. No string has another number for it, so that of number 0 is not kept.
#[derive(Clone, Copy)]
pub(crate) struct Recent {
    pub(crate) ids: [u32; 64],
    pub(crate) marks: [u32; 64],
    ghost long: { length ids ≡ 64 },
    ghost marked: { length marks ≡ 64 },
}

impl Mark {
    // It goes by all the units.
    pub(crate) fn new(units: &[u16]) -> Mark {
        Mark {
            hash: mix_units(units),
        }
    }

    // The place of such units.
    pub(crate) fn place(self) -> usize
        ensures { result < 64 }
    {
        (self.hash >> 26) as usize
    }
}

impl Recent {
    // No string.
    pub(crate) fn none() -> Recent
        ensures { (v : View) → AreRecent v result.ids }
    {
        Recent {
            ids: [0; 64],
            marks: [0; 64],
        }
    }

    // The string at the place of a mark, where it was kept by that mark.
    pub(crate) fn get(&self, mark: Mark) -> Option<JsStr>
        ensures { IfSome result (λ s. (v : View) → AreRecent v self.now.ids → IsRecent v s.id) }
    {
        let place = mark.place();
        let id = self.ids[place];
        if id == 0 || self.marks[place] != mark.hash {
            return None;
        }
        Some(JsStr { id })
    }

    // Keeps a string at the place of a mark.
    pub(crate) fn keep(&mut self, mark: Mark, s: JsStr)
        ensures { (v : View) → AreRecent v self.old.ids → IsRecent v s.id → AreRecent v self.new.ids }
    {
        let place = mark.place();
        self.ids[place] = s.id;
        self.marks[place] = mark.hash;
    }
}
