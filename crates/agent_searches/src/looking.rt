// A store over the text of an agent, through which strings are searched: it makes nothing, so that what the agent
// noted of the string table stays right.
ghost use Rattle.heap_table.specs.Agents.{view_of};
ghost use Rattle.heap_notes.specs.Noted.{AreNoted};

use heap_notes::Seats;
use heap_table::Heap;
use heap_text::{JsStr, Text};
use js_store::{ConcatFault, Limit, StoreFault, Strings};
use std::alloc::Global;
use std::sync::Arc;

/// The text of an agent, and what the agent noted.
#[derive(Drop)]
pub(crate) struct Looking<'t, 's> {
    pub(crate) text: &'t mut Text<Arc<Heap, Global>>,
    pub(crate) seats: &'s Seats,
    ghost noted: { AreNoted (view_of text.now.reader.agent) seats.now },
}

impl<'t, 's> Strings for Looking<'t, 's> {
    type Ref = JsStr;

    ghost use Rattle.agent_searches.specs.Looking.{LookFrame, looking_sound, looking_state};

    ghost Frame = { LookFrame };

    ghost number = { λ r. r.id };

    ghost state = { λ s. looking_state s.text s.seats.now };

    fn from_units(&mut self, _units: &[u16]) -> Result<JsStr, StoreFault> {
        Err(StoreFault::Memory)
    }

    fn len(&mut self, s: JsStr) -> u32 {
        self.text.len(s)
    }

    fn settle(&mut self, _s: JsStr) -> Result<(), StoreFault> {
        Err(StoreFault::Memory)
    }

    fn unit_at(&mut self, s: JsStr, i: u32) -> u16 {
        self.text.unit_at(s, i)
    }

    fn read(&mut self, s: JsStr, from: u32, into: &mut [u16]) {
        let window = self.text.window(s);
        self.text.read_in(window, from, into);
    }

    fn find_unit(&mut self, s: JsStr, unit: u16, from: u32) -> Option<u32> {
        let window = self.text.window(s);
        self.text.find_in(window, unit, from)
    }

    fn concat(&mut self, _a: JsStr, _b: JsStr) -> Result<JsStr, ConcatFault> {
        Err(ConcatFault::Store(StoreFault::Memory))
    }

    fn slice(&mut self, _s: JsStr, _from: u32, _to: u32) -> Result<JsStr, StoreFault> {
        Err(StoreFault::Memory)
    }

    fn intern(&mut self, _s: JsStr) -> Result<JsStr, StoreFault> {
        Err(StoreFault::Memory)
    }

    fn same(&mut self, a: JsStr, b: JsStr) -> bool {
        a.id == b.id
    }

    fn limit(&self) -> u32 {
        Limit::Bits64.units()
    }

    ghost sound = { λ s. looking_sound s.text.now s.text.ghost_name s.seats.now };
}
