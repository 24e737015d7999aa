// Where the walk for a name begins, so that the frames further in aren't looked at.
ghost use Rattle.std.specs.Prelude.{◌≡◌, ◌≤◌, ℕ, length, slice_index};
ghost use Rattle.eval_scopes.specs.Marks.{mark_number};
ghost use Rattle.eval_scopes.specs.Starts.{KeepsReach, ReachesTo};

use eval_tree::Name;

// For each of 64 marks, of which a key has one, as many frames as have to be walked for a name. Frames that
// are left change nothing, so that a number may be greater than that of the frames.
#[derive(Drop)]
pub(crate) struct Starts {
    pub(crate) counts: [usize; 64],
    ghost long: { length counts ≡ 64 },
}

impl Starts {
    // No frame has a name.
    pub(crate) fn new() -> Starts {
        Starts { counts: [0; 64] }
    }

    // As many frames are walked for a name of this key.
    #[inline(always)]
    pub(crate) fn get(&self, key: u64) -> usize
        ensures { result ≡ mark_number self.now.counts key }
    {
        self.counts[(key % 64) as usize]
    }

    // The last of so many frames has a name of this key.
    pub(crate) fn mark(&mut self, key: u64, frames: usize)
        ensures marked { frames ≤ mark_number self.new.counts key }
        ensures kept { KeepsReach self.old.counts self.new.counts frames }
    {
        self.counts[(key % 64) as usize] = frames;
    }

    // It has all these names.
    pub(crate) fn mark_all(&mut self, names: &[Name], frames: usize)
        ensures marked { ReachesTo self.new.counts names.now frames (length names.now) }
        ensures kept { KeepsReach self.old.counts self.new.counts frames }
    {
        for name in names {
            self.mark(name.key(), frames);
        }
    }
}
