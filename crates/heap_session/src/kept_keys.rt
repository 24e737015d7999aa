// The short lists of units that a session interned last: one that is interned again costs one load.
ghost use Rattle.std.specs.Prelude.{◌≡◌, ◌≤◌, length};
ghost use Rattle.heap_rule.specs.declared.view.View.{View};
ghost use Rattle.heap_rule.specs.Layout.{MAX};
ghost use Rattle.heap_read.specs.Readers.{view_in};
ghost use Rattle.heap_intern.specs.Given.{InternsGiven};
ghost use Rattle.heap_intern.specs.Hashes.{AreHashes};
ghost use Rattle.heap_intern.specs.KeptKeys.{AreKeptKeys};
ghost use Rattle.heap_session.specs.Noted.{PassesNoted, hashes_in};

use crate::noted::Noted;
use heap_intern::{KeptKey, TableFull, find_kept, intern_again, keep_key, mix_units};
use heap_read::{HeapRef, Reader};

// At each place the list that was interned there last.
#[derive(Clone, Copy)]
pub(crate) struct KeptKeys {
    pub(crate) all: [KeptKey; 64],
    ghost long: { length all ≡ 64 },
}

impl KeptKeys {
    // No list at any place.
    pub(crate) fn none() -> KeptKeys
        ensures { (v : View) → AreKeptKeys v result.all }
    {
        KeptKeys {
            all: [KeptKey::none(); 64],
        }
    }

    // The interned string of these units, by one load where the list is kept. A short one is kept then.
    pub(crate) fn intern<H: HeapRef>(
        &mut self,
        reader: &mut Reader<H>,
        noted: &mut Noted,
        units: &[u16],
    ) -> Result<u32, TableFull>
        requires short { length units.now ≤ MAX }
        requires kept { AreKeptKeys (view_in reader.old) self.old.all }
        requires hashed { AreHashes (view_in reader.old) (hashes_in noted.old) }
        ensures heap { reader.new.heap ≡ reader.old.heap }
        ensures interns { InternsGiven (view_in reader.old) (view_in reader.new) units.now result }
        ensures kept { AreKeptKeys (view_in reader.new) self.new.all }
        ensures hashed { AreHashes (view_in reader.new) (hashes_in noted.new) }
        ensures passes { PassesNoted (hashes_in noted.old) (view_in reader.old) (view_in reader.new)
            units.now }
    {
        let mark = mix_units(units);
        if let Some(seat) = find_kept(&self.all, mark, units) {
            return Ok(intern_again(reader, seat));
        }
        match noted.intern_units(reader, units) {
            Ok(seat) => {
                keep_key(&mut self.all, mark, units, seat);
                Ok(seat.id)
            }
            Err(full) => Err(full),
        }
    }
}
