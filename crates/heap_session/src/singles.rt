// The strings of one unit that a session keeps, as V8 has a table of single characters.
ghost use Rattle.std.specs.Prelude.{◌≡◌, ℕ, ◌<◌, length, slice_index, IfSome};
ghost use Rattle.heap_rule.specs.declared.view.View.{View};
ghost use Rattle.heap_session.specs.Singles.{AreSingles, IsSingle};

use heap_read::JsStr;

// For each unit below 256 the number of a string that has this unit alone, or 0 where none is
// kept. No string has another number for it, so that of number 0 is not kept.
#[derive(Clone, Copy)]
pub(crate) struct Singles {
    pub(crate) ids: [u32; 256],
    // the unit whose string was kept or given last
    pub(crate) latest: u8,
    ghost long: { length ids ≡ 256 },
}

impl Singles {
    // No string.
    pub(crate) fn none() -> Singles
        ensures { (v : View) → AreSingles v result.ids }
    {
        Singles {
            ids: [0; 256],
            latest: 0,
        }
    }

    // The string of a unit, where it is kept.
    pub(crate) fn get(&mut self, unit: u16) -> Option<JsStr>
        ensures one { IfSome result
            (λ s. (v : View) → AreSingles v self.old.ids → IsSingle v unit s.id) }
        ensures ids { self.new.ids ≡ self.old.ids }
    {
        if unit > 255 {
            return None;
        }
        let id = self.ids[unit as usize];
        if id == 0 {
            return None;
        }
        self.latest = unit as u8;
        Some(JsStr { id })
    }

    // Keeps the string of a unit.
    pub(crate) fn keep(&mut self, unit: u16, s: JsStr)
        ensures { (v : View) → AreSingles v self.old.ids → IsSingle v unit s.id
            → AreSingles v self.new.ids }
    {
        if unit < 256 {
            self.ids[unit as usize] = s.id;
            self.latest = unit as u8;
        }
    }

    // The unit of a string, where that is the one that was kept or given last.
    pub(crate) fn unit_of(&self, s: JsStr) -> Option<u16>
        ensures { IfSome result
            (λ unit. (v : View) → AreSingles v self.now.ids → IsSingle v unit s.id) }
    {
        let id = self.ids[self.latest as usize];
        if id == 0 || id != s.id {
            return None;
        }
        Some(u16::from(self.latest))
    }
}
