// Loads of headers and of content words, by which a view learns.
ghost use Rattle.std.specs.Prelude.{◌≡◌, ◌<◌, ◌↔◌, length, slice_index, IsTrue, OnOk, OnErr};
ghost use Rattle.heap_rule.specs.Layout.{IsLawfulSize, content_at};
ghost use Rattle.heap_rule.specs.Learning.{learned};
ghost use Rattle.heap_core_views.specs.Loading.{loaded_by, HasRoom, IsRunCounted};
ghost use Rattle.heap_core.specs.Core.{core_of};
ghost use Rattle.heap_core.specs.Events.{IsCore, Became, looked, view_at, header_at, CanLoadHeader, CanLoadWord, after_load_header, after_load_word};

use crate::machine::Machine;
use heap_core_views::learning;
use heap_core_views::load::Load;
use js_units::NoMemory;

impl Machine {
    /// The view adds what it loaded, and learns the units of the named strings.
    pub(crate) fn learn(&mut self, view: u32, load: Load, names: &[u32]) -> Result<(), NoMemory>
        requires inside { view < length self.old.views.items }
        requires room { HasRoom (loaded_by (view_at (core_of self.old) view) load) }
        requires run { IsRunCounted load }
        ensures ok { OnOk result (core_of self.new ≡ looked (core_of self.old) view
            (learned (loaded_by (view_at (core_of self.old) view) load) names.now)) }
        ensures err { OnErr result (core_of self.new ≡ core_of self.old) }
    {
        let seen = learning::loaded(self.view(view), self.alloc(), load, names)?;
        self.look(view, seen);
        Ok(())
    }

    /// Whether the header word may be loaded: the string is known, and the view afterwards
    /// justifies all that the event learns.
    pub(crate) fn may_load_header(&self, view: u32, id: u32, length: bool, names: &[u32]) -> bool
        requires { IsCore (core_of self.now) }
        ensures { IsTrue result ↔ CanLoadHeader (core_of self.now) view id length names.now }
    {
        let Some(v) = self.live(view) else {
            return false;
        };
        if !learning::is_known(v, id) {
            return false;
        }
        self.header_load(id, length).justifies_all(v, names)
    }

    /// A load of a header word.
    pub(crate) fn load_header(
        &mut self,
        view: u32,
        id: u32,
        length: bool,
        names: &[u32],
    ) -> Result<u64, NoMemory>
        requires core { IsCore (core_of self.old) }
        requires can { CanLoadHeader (core_of self.old) view id length names.now }
        ensures { Became (core_of self.old) (after_load_header (core_of self.old) view id length names.now)
            (slice_index self.old.words.items (header_at self.old.size id length)) (core_of self.new) result }
    {
        let found = self.word(self.header_place(id, length));
        self.learn(view, self.header_load(id, length), names)?;
        Ok(found)
    }

    /// The place of a header word.
    fn header_place(&self, id: u32, length: bool) -> usize
        requires { IsLawfulSize self.now.size × (id < self.now.size.ids) }
        ensures { result ≡ header_at self.now.size id length }
    {
        if length {
            return self.size.length_place(id);
        }
        self.size.form_place(id)
    }

    /// Whether the content word may be loaded: it is own or known to be frozen, and the view
    /// afterwards justifies all that the event learns.
    pub(crate) fn may_load_word(&self, view: u32, at: u32, names: &[u32]) -> bool
        requires { IsCore (core_of self.now) }
        ensures { IsTrue result ↔ CanLoadWord (core_of self.now) view at names.now }
    {
        let Some(v) = self.live(view) else {
            return false;
        };
        if !learning::may_load_word(v, at) {
            return false;
        }
        let found = self.word(self.size.content_place(at));
        learning::word_load(v, at, found).justifies_all(v, names)
    }

    /// A load of a content word.
    pub(crate) fn load_word(&mut self, view: u32, at: u32, names: &[u32]) -> Result<u64, NoMemory>
        requires core { IsCore (core_of self.old) }
        requires can { CanLoadWord (core_of self.old) view at names.now }
        ensures { Became (core_of self.old) (after_load_word (core_of self.old) view at names.now)
            (slice_index self.old.words.items (content_at self.old.size at)) (core_of self.new) result }
    {
        let found = self.word(self.size.content_place(at));
        let load = learning::word_load(self.view(view), at, found);
        self.learn(view, load, names)?;
        Ok(found)
    }
}
