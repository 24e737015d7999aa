// Room for what a session notes.
ghost use Rattle.std.specs.Prelude.{◌≡◌, min, replicate, OnOk, OnErr};
ghost use Rattle.heap_session.specs.Sessions.{noted_in, session_view, state_in};

use crate::noted::Noted;
use crate::session::Session;
use heap_read::HeapRef;
use js_units::NoMemory;
use std::alloc::Global;

// Of how many slots it notes something at most: 4 MB.
const MOST_NOTED: u32 = 1_048_576;

impl<H: HeapRef> Session<H> {
    /// From now on it notes what the strings of slots hash to, of at most 1,048,576 slots. A slot that is
    /// noted with another hash than that of the units that are looked for is not loaded. What it had noted
    /// before is gone; without memory it stays as it was.
    pub fn note_slots(&mut self, alloc: Global) -> Result<(), NoMemory>
        ensures room { OnOk result
            (noted_in self.new ≡ replicate (min (state_in self.old).sizes.slots 1048576) 0) }
        ensures stays { OnErr result (noted_in self.new ≡ noted_in self.old) }
        ensures view { session_view self.new ≡ session_view self.old }
        ensures state { state_in self.new ≡ state_in self.old }
    {
        let slots = self.text.reader.heap().size().slots;
        let hashes = vec![in alloc; 0u32; slots.min(MOST_NOTED) as usize]?;
        self.noted = Noted {
            hashes: Some(hashes),
        };
        Ok(())
    }
}
