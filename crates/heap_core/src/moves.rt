// The two kinds of event that move a header.
ghost use Rattle.std.specs.Prelude.{◌≡◌, ◌<◌, ◌==◌, if◌then◌else◌, ◌↔◌, length, slice_index, IsTrue, Some};
ghost use Rattle.js_header.specs.Form.{IsInRange, word_of, form_of};
ghost use Rattle.heap_rule.specs.Layout.{IsLawfulSize, form_at, form};
ghost use Rattle.heap_core_births.specs.Moving.{IsSameOrLater};
ghost use Rattle.heap_core.specs.Core.{core_of};
ghost use Rattle.heap_core.specs.Events.{IsCore, Became, stored, exchanged, CanFlatten, after_flatten, CanThinTo, after_thin};

use crate::machine::Machine;
use heap_core_births::moves;
use js_header::{Form, encode};
use js_units::NoMemory;

impl Machine {
    /// Whether the live view may flatten the string and learn all that the event learns.
    pub(crate) fn may_flatten(
        &self,
        view: u32,
        id: u32,
        old: Form,
        new: Form,
        names: &[u32],
    ) -> bool
        requires { IsCore (core_of self.now) }
        ensures { IsTrue result ↔ CanFlatten (core_of self.now) view id old new names.now }
    {
        let Some(v) = self.live(view) else {
            return false;
        };
        if !moves::may_flatten(v, id, old, new) {
            return false;
        }
        let stands = self.header(id).0;
        moves::flattening(v, id, old, new, stands).justifies_all(v, names)
    }

    /// A flattening.
    pub(crate) fn flatten(
        &mut self,
        view: u32,
        id: u32,
        old: Form,
        new: Form,
        names: &[u32],
    ) -> Result<u64, NoMemory>
        requires core { IsCore (core_of self.old) }
        requires can { CanFlatten (core_of self.old) view id old new names.now }
        ensures { Became (core_of self.old) (after_flatten (core_of self.old) view id old new names.now)
            (slice_index self.old.words.items (form_at self.old.size id)) (core_of self.new) result }
    {
        let stands = self.header(id).0;
        let load = moves::flattening(self.view(view), id, old, new, stands);
        self.learn(view, load, names)?;
        Ok(self.exchange(id, old, new, stands))
    }

    /// Whether the live view may forward the string and learn all that the event learns.
    pub(crate) fn may_thin(&self, view: u32, id: u32, old: Form, target: u32, names: &[u32]) -> bool
        requires { IsCore (core_of self.now) }
        ensures { IsTrue result ↔ CanThinTo (core_of self.now) view id old target names.now }
    {
        let Some(v) = self.live(view) else {
            return false;
        };
        if !moves::may_thin(v, id, old, target) {
            return false;
        }
        let stands = self.header(id).0;
        moves::thinning(v, id, old, target, stands).justifies_all(v, names)
    }

    /// A thinning.
    pub(crate) fn thin(
        &mut self,
        view: u32,
        id: u32,
        old: Form,
        target: u32,
        names: &[u32],
    ) -> Result<u64, NoMemory>
        requires core { IsCore (core_of self.old) }
        requires can { CanThinTo (core_of self.old) view id old target names.now }
        ensures { Became (core_of self.old) (after_thin (core_of self.old) view id old target names.now)
            (slice_index self.old.words.items (form_at self.old.size id)) (core_of self.new) result }
    {
        let stands = self.header(id).0;
        let load = moves::thinning(self.view(view), id, old, target, stands);
        self.learn(view, load, names)?;
        Ok(self.exchange(id, old, Form::Thin { target }, stands))
    }

    /// A compare-exchange of a form word, where the word of `stands` is found. The answer is the
    /// word found.
    fn exchange(&mut self, id: u32, old: Form, new: Form, stands: Form) -> u64
        requires inside { IsLawfulSize self.old.size × (id < self.old.size.ids)
            × (form_at self.old.size id < length self.old.words.items) }
        requires stands { form_of (form self.old.size self.old.words.items id) ≡ Some stands }
        requires range { IsInRange stands }
        requires new { IsInRange new }
        requires stays { IsSameOrLater old stands }
        ensures after { core_of self.new ≡ stored (core_of self.old) (form_at self.old.size id)
            (exchanged (core_of self.old) (form_at self.old.size id) (word_of old) (word_of new)) }
        ensures found { result ≡ slice_index self.old.words.items (form_at self.old.size id) }
    {
        let place = self.size.form_place(id);
        let found = self.word(place);
        self.store(place, moved_word(old, new, stands));
        found
    }
}

/// What a compare-exchange leaves in the form word, where the word of `stands` is found.
fn moved_word(old: Form, new: Form, stands: Form) -> u64
    requires range { IsInRange stands }
    requires new { IsInRange new }
    requires stays { IsSameOrLater old stands }
    ensures { result ≡ (if word_of stands == word_of old then word_of new else word_of stands) }
{
    if stands == old {
        return encode(new);
    }
    encode(stands)
}
