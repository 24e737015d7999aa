// The hash of a window's units, a word at a time.
ghost use Rattle.std.specs.Prelude.{◌≡◌, ℕ, List};
ghost use Rattle.js_units.specs.Lanes.{hash_of};
ghost use Rattle.heap_read.specs.Frozen.{AreFrozen};
ghost use Rattle.heap_read.specs.Readers.{MovesView, view_in};
ghost use Rattle.heap_read.specs.Reads.{KeepsForms, OnlyLoads};
ghost use Rattle.heap_read.specs.Windows.{IsWindow};

use crate::heap_ref::HeapRef;
use crate::reader::Reader;
use crate::string::Window;
use js_units::{hash_units, lanes_from};

impl<H: HeapRef> Reader<H> {
    /// The hash of a window's units, by one load of each of its words, which are known to be frozen
    /// from then on.
    pub fn hash_in(&mut self, w: Window) -> u32
        requires { (us : List ℕ) × IsWindow (view_in self.old) w us }
        ensures reads { MovesView OnlyLoads self.old self.new }
        ensures forms { KeepsForms (view_in self.old) (view_in self.new) }
        ensures hash { (us : List ℕ) → IsWindow (view_in self.old) w us → result ≡ hash_of us }
        ensures frozen { AreFrozen (view_in self.new) w }
    {
        let mut hash = 0;
        let mut i = 0;
        while i < w.len {
            let held = self.hold_in(w, i);
            let skip = i - held.from;
            let lanes = lanes_from(held.word, held.wide, held.lane + skip);
            let count = held.count - skip;
            hash = hash_units(hash, &lanes[..count as usize]);
            i += count;
        }
        hash
    }
}
