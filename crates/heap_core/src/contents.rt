// The units of an id, read from the words.
ghost use Rattle.std.specs.Prelude.{◌≡◌, ℕ, List, ◌+◌, ◌<◌, ◌≤◌, ◌^◌, ◌++◌, Some, IfSome, IsSome, OnOk};
ghost use Rattle.js_header.specs.Form.{form_of, IsInRange};
ghost use Rattle.heap_rule.specs.Layout.{content, form, length_word, IsBorn, MAX};
ghost use Rattle.heap_rule.specs.Contents.{span, lane_in, units_of};
ghost use Rattle.heap_rule.specs.Forms.{IsSolidForm};
ghost use Rattle.heap_rule.specs.Sound.{AreStanding};
ghost use Rattle.heap_core.specs.Headers.{IsHeaderLoad};

use crate::machine::Machine;
use heap_core_views::load::Load;
use js_header::{Form, decode};
use js_units::{NoMemory, Units, lane, lanes};

impl Machine {
    /// A content word.
    fn content(&self, at: u32) -> u64
        ensures { result ≡ content self.now.size self.now.words.items at }
    {
        self.word(2 + self.size.slots as usize + 2 * self.size.ids as usize + at as usize)
    }

    /// Lane `o` of a span.
    #[tactic(auto, unfolding(heap_rule::specs::Contents::lane_in))]
    fn lane_at(&self, wide: bool, start: u32, o: u32) -> u16
        requires { start + o < 2 ^ 32 }
        ensures { result ≡ lane_in (content self.now.size self.now.words.items) wide start o }
    {
        let n = lanes(wide);
        lane(self.content(start + o / n), wide, o % n)
    }

    /// Adds the n lanes from `from` on.
    fn add_span(
        &self,
        wide: bool,
        start: u32,
        from: u32,
        n: u32,
        out: &mut Units,
    ) -> Result<(), NoMemory>
        requires { start + (from + n) < 2 ^ 32 }
        ensures { OnOk result (out.new ≡ out.old ++
            span (content self.now.size self.now.words.items) wide start from n) }
    {
        let end = from + n;
        let mut o = from;
        'lanes: while o < end {
            out.push(self.lane_at(wide, start, o))?;
            o += 1;
        }
        Ok(())
    }

    /// What a Flat shows, or the Flat that a Thin names: wide, start, length.
    fn solid(&self, id: u32) -> Option<(bool, u32, u32)>
        requires stand { AreStanding self.now.size self.now.words.items }
        requires born { IsBorn self.now.size self.now.words.items id }
        ensures some { IfSome result (λ r. (units_of self.now.size self.now.words.items id
            ≡ span (content self.now.size self.now.words.items) r.0 r.1 0 r.2) × (r.1 < 2 ^ 29)
            × (r.2 ≤ MAX)) }
        ensures none { IsSolidForm (form_of (form self.now.size self.now.words.items id)) → IsSome result }
    {
        let found = self.header(id);
        match found.0 {
            Form::Flat {
                wide,
                start,
                fixed: _,
            } => Some((wide, start, found.1)),
            Form::Thin { target } => {
                let other = self.header(target);
                match other.0 {
                    Form::Flat {
                        wide,
                        start,
                        fixed: _,
                    } => Some((wide, start, other.1)),
                    _ => None,
                }
            }
            _ => None,
        }
    }

    /// The form and the length of a born id.
    pub(crate) fn header(&self, id: u32) -> (Form, u32)
        requires stand { AreStanding self.now.size self.now.words.items }
        requires born { IsBorn self.now.size self.now.words.items id }
        ensures form { form_of (form self.now.size self.now.words.items id) ≡ Some result.0 }
        ensures range { IsInRange result.0 }
        ensures length { (length_word self.now.size self.now.words.items id ≡ result.1) × (result.1 ≤ MAX) }
    {
        let place = 2 + self.size.slots as usize + 2 * id as usize;
        let length = self.word(place + 1) as u32;
        match decode(self.word(place)) {
            Some(form) => (form, length),
            None => unreachable!(),
        }
    }

    /// What a load of a header word of a born string adds.
    pub(crate) fn header_load(&self, id: u32, length: bool) -> Load
        requires stand { AreStanding self.now.size self.now.words.items }
        requires born { IsBorn self.now.size self.now.words.items id }
        ensures { IsHeaderLoad self.now.size self.now.words.items id length result }
    {
        let found = self.header(id);
        if length {
            return Load::SeenLength {
                id,
                length: found.1,
            };
        }
        Load::SeenForm { id, form: found.0 }
    }

    /// Adds the units of a born id.
    pub(crate) fn add_units(&self, id: u32, out: &mut Units) -> Result<(), NoMemory>
        requires stand { AreStanding self.now.size self.now.words.items }
        requires born { IsBorn self.now.size self.now.words.items id }
        ensures { OnOk result (out.new ≡ out.old ++ units_of self.now.size self.now.words.items id) }
    {
        if let Some((wide, start, n)) = self.solid(id) {
            return self.add_span(wide, start, 0, n, out);
        }
        let found = self.header(id);
        match found.0 {
            Form::Cons {
                wide: _,
                left,
                right,
            } => {
                self.add_units(left, out)?;
                self.add_units(right, out)
            }
            Form::Sliced {
                wide: _,
                parent,
                offset,
            } => match self.solid(parent) {
                Some((wide, start, _)) => self.add_span(wide, start, offset, found.1, out),
                None => unreachable!(),
            },
            _ => unreachable!(),
        }
    }
}
