// Counters, and what an agent does to what is its own: claims, stores and births.
ghost use Rattle.std.specs.Prelude.{◌≡◌, ◌↔◌, IsTrue};
ghost use Rattle.heap_core.specs.Core.{core_of};
ghost use Rattle.heap_core.specs.Events.{IsCore, Enabled, Made, after, found};
ghost use Rattle.heap_core.specs.declared.event.Event.TheVariants as event;

use crate::machine::Machine;
use heap_core_births::births;
use heap_core_views::claims;
use heap_rule::Counter;
use js_header::{Form, encode};
use js_units::NoMemory;

impl Machine {
    /// Whether the view is there and live.
    pub(crate) fn may_load_counter(&self, view: u32, counter: Counter) -> bool
        ensures { IsTrue result ↔ Enabled (core_of self.now) (event.LoadCounter view counter) }
    {
        self.live(view).is_some()
    }

    /// A load of a counter.
    pub(crate) fn load_counter(&mut self, view: u32, counter: Counter) -> u64
        requires core { IsCore (core_of self.old) }
        requires can { Enabled (core_of self.old) (event.LoadCounter view counter) }
        ensures after { core_of self.new ≡ after (core_of self.old) (event.LoadCounter view counter) }
        ensures found { result ≡ found (core_of self.old) (event.LoadCounter view counter) }
    {
        let found = self.word(counter.place());
        claims::load_counter(&mut self.views[view as usize], counter, found as u32);
        found
    }

    /// Whether the live view may claim on a counter.
    pub(crate) fn may_claim(&self, view: u32, counter: Counter, at: u32, want: u32) -> bool
        ensures { IsTrue result ↔ Enabled (core_of self.now) (event.Claim view counter at want) }
    {
        match self.live(view) {
            Some(v) => claims::may_claim(v, counter, at, want),
            None => false,
        }
    }

    /// A compare-exchange of a counter.
    pub(crate) fn claim(
        &mut self,
        view: u32,
        counter: Counter,
        at: u32,
        want: u32,
    ) -> Result<u64, NoMemory>
        requires core { IsCore (core_of self.old) }
        requires can { Enabled (core_of self.old) (event.Claim view counter at want) }
        ensures { Made (core_of self.old) (event.Claim view counter at want) (core_of self.new) result }
    {
        let found = self.word(counter.place());
        if found != u64::from(at) {
            claims::load_counter(&mut self.views[view as usize], counter, found as u32);
            return Ok(found);
        }
        claims::claim(&mut self.views[view as usize], counter, at, want)?;
        self.store(counter.place(), found + u64::from(want));
        Ok(found)
    }

    /// Whether the content word is the live view's own.
    pub(crate) fn may_store_word(&self, view: u32, at: u32, word: u64) -> bool
        ensures { IsTrue result ↔ Enabled (core_of self.now) (event.StoreWord view at word) }
    {
        match self.live(view) {
            Some(v) => births::may_store_word(v, at),
            None => false,
        }
    }

    /// A store of an own content word.
    pub(crate) fn store_word(&mut self, view: u32, at: u32, word: u64) -> Result<u64, NoMemory>
        requires core { IsCore (core_of self.old) }
        requires can { Enabled (core_of self.old) (event.StoreWord view at word) }
        ensures { Made (core_of self.old) (event.StoreWord view at word) (core_of self.new) result }
    {
        let place = self.size.content_place(at);
        let found = self.word(place);
        births::store_word(&mut self.views[view as usize], at, word)?;
        self.store(place, word);
        Ok(found)
    }

    /// Whether the id is the live view's own and the length is not too great.
    pub(crate) fn may_store_length(&self, view: u32, id: u32, length: u32) -> bool
        ensures { IsTrue result ↔ Enabled (core_of self.now) (event.StoreLength view id length) }
    {
        match self.live(view) {
            Some(v) => births::may_store_length(v, id, length),
            None => false,
        }
    }

    /// A store of an own length.
    pub(crate) fn store_length(&mut self, view: u32, id: u32, length: u32) -> Result<u64, NoMemory>
        requires core { IsCore (core_of self.old) }
        requires can { Enabled (core_of self.old) (event.StoreLength view id length) }
        ensures { Made (core_of self.old) (event.StoreLength view id length) (core_of self.new) result }
    {
        let place = self.size.length_place(id);
        let found = self.word(place);
        births::store_length(&mut self.views[view as usize], id, length)?;
        self.store(place, u64::from(length));
        Ok(found)
    }

    /// Whether the live view's own id may be born in this form.
    pub(crate) fn may_bear(&self, view: u32, id: u32, form: Form) -> bool
        requires { IsCore (core_of self.now) }
        ensures { IsTrue result ↔ Enabled (core_of self.now) (event.Birth view id form) }
    {
        match self.live(view) {
            Some(v) => births::may_bear(v, id, form),
            None => false,
        }
    }

    /// A birth.
    pub(crate) fn birth(&mut self, view: u32, id: u32, form: Form) -> Result<u64, NoMemory>
        requires core { IsCore (core_of self.old) }
        requires can { Enabled (core_of self.old) (event.Birth view id form) }
        ensures { Made (core_of self.old) (event.Birth view id form) (core_of self.new) result }
    {
        let place = self.size.form_place(id);
        let found = self.word(place);
        let n = births::own_length(self.view(view), id);
        let units = births::units_for(self.view(view), self.alloc(), n, form)?;
        births::bear(&mut self.views[view as usize], id, n, form, units)?;
        self.store(place, encode(form));
        Ok(found)
    }
}
