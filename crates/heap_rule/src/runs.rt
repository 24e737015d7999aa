// Maps from content words changed over a run of words.
ghost use Rattle.std.specs.Prelude.{◌≡◌, ◌+◌, ◌<◌, ◌^◌, IfOk, OnOk};
ghost use Rattle.heap_rule.specs.Maps.{with_run, without_run, with_run_of};

use crate::maps::IdMap;
use js_units::NoMemory;

impl IdMap<u64> {
    /// Puts the value at each of the n keys from `from` on.
    pub fn insert_run(&mut self, from: u32, n: u32, value: u64) -> Result<(), NoMemory>
        requires { from + n < 2 ^ 32 }
        ensures { OnOk result (self.new ≡ with_run self.old from n value) }
    {
        let mut at = from;
        let mut left = n;
        'keys: while 0 < left {
            self.insert(at, value)?;
            at += 1;
            left -= 1;
        }
        Ok(())
    }

    /// Removes the n keys from `from` on.
    pub fn remove_run(&mut self, from: u32, n: u32)
        requires { from + n < 2 ^ 32 }
        ensures { self.new ≡ without_run self.old from n }
    {
        let mut at = from;
        let mut left = n;
        'keys: while 0 < left {
            self.remove(at);
            at += 1;
            left -= 1;
        }
    }

    /// Takes over what another map has at the n keys from `from` on.
    pub fn take_run(&mut self, other: &IdMap<u64>, from: u32, n: u32) -> Result<(), NoMemory>
        requires { from + n < 2 ^ 32 }
        ensures { OnOk result (self.new ≡ with_run_of other.now self.old from n) }
    {
        let mut at = from;
        let mut left = n;
        'keys: while 0 < left {
            if let Some(word) = other.get(at) {
                self.insert(at, *word)?;
            }
            at += 1;
            left -= 1;
        }
        Ok(())
    }
}
