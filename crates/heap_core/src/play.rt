// Which kind of event comes: its test, and its step.
ghost use Rattle.std.specs.Prelude.{◌↔◌, IsTrue};
ghost use Rattle.heap_core.specs.Core.{core_of};
ghost use Rattle.heap_core.specs.Events.{IsCore, Enabled, Made, Applied};

use crate::event::{Event, Refusal};
use crate::machine::Machine;
use js_units::NoMemory;

impl Machine {
    /// Whether the event may come.
    pub(crate) fn enabled(&self, event: &Event) -> bool
        requires { IsCore (core_of self.now) }
        ensures { IsTrue result ↔ Enabled (core_of self.now) event.now }
    {
        let view = event.view();
        let learn = event.learn();
        match event {
            Event::Make { size, agents } => self.may_make(*size, *agents),
            Event::Split { give, .. } => self.may_split(view, *give),
            Event::Join { other, .. } => self.may_join(view, *other),
            Event::LoadCounter { counter, .. } => self.may_load_counter(view, *counter),
            Event::Claim {
                counter,
                at,
                want,
                ..
            } => self.may_claim(view, *counter, *at, *want),
            Event::StoreWord { at, word, .. } => self.may_store_word(view, *at, *word),
            Event::StoreLength { id, length, .. } => self.may_store_length(view, *id, *length),
            Event::Birth { id, form, .. } => self.may_bear(view, *id, *form),
            Event::LoadHeader { id, length, .. } => self.may_load_header(view, *id, *length, learn),
            Event::LoadWord { at, .. } => self.may_load_word(view, *at, learn),
            Event::Flatten { id, old, new, .. } => self.may_flatten(view, *id, *old, *new, learn),
            Event::Thin {
                id,
                old,
                target,
                ..
            } => self.may_thin(view, *id, *old, *target, learn),
            Event::LoadSlot { slot, entry, .. } => self.may_load_slot(view, *slot, entry, learn),
            Event::TakeSlot { slot, id, .. } => self.may_take_slot(view, *slot, *id, learn),
        }
    }

    /// An event that may come.
    fn step(&mut self, event: &Event) -> Result<u64, NoMemory>
        requires core { IsCore (core_of self.old) }
        requires can { Enabled (core_of self.old) event.now }
        ensures { Made (core_of self.old) event.now (core_of self.new) result }
    {
        let view = event.view();
        let learn = event.learn();
        match event {
            Event::Make { size, agents } => self.make(*size, *agents),
            Event::Split { give, .. } => self.split(view, *give),
            Event::Join { other, .. } => self.join(view, *other),
            Event::LoadCounter { counter, .. } => Ok(self.load_counter(view, *counter)),
            Event::Claim {
                counter,
                at,
                want,
                ..
            } => self.claim(view, *counter, *at, *want),
            Event::StoreWord { at, word, .. } => self.store_word(view, *at, *word),
            Event::StoreLength { id, length, .. } => self.store_length(view, *id, *length),
            Event::Birth { id, form, .. } => self.birth(view, *id, *form),
            Event::LoadHeader { id, length, .. } => self.load_header(view, *id, *length, learn),
            Event::LoadWord { at, .. } => self.load_word(view, *at, learn),
            Event::Flatten { id, old, new, .. } => self.flatten(view, *id, *old, *new, learn),
            Event::Thin {
                id,
                old,
                target,
                ..
            } => self.thin(view, *id, *old, *target, learn),
            Event::LoadSlot { slot, entry, .. } => self.load_slot(view, *slot, entry, learn),
            Event::TakeSlot { slot, id, .. } => self.take_slot(view, *slot, *id, learn),
        }
    }

    /// An event, where it may come.
    pub(crate) fn apply(&mut self, event: &Event) -> Result<u64, Refusal>
        requires { IsCore (core_of self.old) }
        ensures { Applied (core_of self.old) event.now (core_of self.new) result }
    {
        if !self.enabled(event) {
            return Err(Refusal::NotEnabled);
        }
        match self.step(event) {
            Ok(found) => Ok(found),
            Err(NoMemory) => Err(Refusal::Memory),
        }
    }
}
