// Where files are read from.
ghost use Rattle.std.specs.Prelude.{◌≡◌, ◌≤◌, ℕ, List, length, IfOk, IsErrOf};
ghost use Rattle.js_io.specs.Counts.{next_count};
ghost use Rattle.js_io.specs.FilesState.{FilesState, IsToldAs, IsTooLarge};

use std::alloc::Global;

/// The most bytes that a file may have.
pub const FILE_MAX: u32 = 1_048_576;

/// Why a file's bytes aren't given.
#[derive(Clone, Copy, Debug, PartialEq, Eq)]
pub enum ReadFault {
    /// There is no such file, or it can't be read to its end.
    Failed,
    /// It has more than [`FILE_MAX`] bytes.
    TooLarge,
    /// Out of memory.
    Memory,
}

/// A source of files, each read whole.
pub trait Files {
    // All that callers see of a source: the bytes of the file of each name, where they are reported,
    // how many reads failed, how many files of hidden bytes were too large, and the name of the
    // last read that failed or found too large a file, empty at first.
    ghost state: { Self → FilesState };

    /// All bytes of a file. A file of more than [`FILE_MAX`] bytes isn't read to its end.
    fn read(&mut self, alloc: Global, name: &str) -> Result<Vec<u8>, ReadFault>
        ensures held { (other : List ℕ) → (state self.new).held other ≡ (state self.old).held other }

        ensures bytes { IfOk result (λ bytes. IsToldAs ((state self.old).held name.now) bytes.items) }
        ensures small { IfOk result (λ bytes. length bytes.items ≤ FILE_MAX) }

        ensures failed { IsErrOf result ReadFault.Failed
            → (state self.new).faults ≡ next_count (state self.old).faults }
        ensures calm { (IsErrOf result ReadFault.Failed → ⊥)
            → (state self.new).faults ≡ (state self.old).faults }
        ensures counted { (state self.old).faults ≤ (state self.new).faults }

        ensures large { IsErrOf result ReadFault.TooLarge
            → IsTooLarge ((state self.old).held name.now)
            (state self.old).oversize (state self.new).oversize }
        ensures not_large { (IsErrOf result ReadFault.TooLarge → ⊥)
            → (state self.new).oversize ≡ (state self.old).oversize }
        ensures sized { (state self.old).oversize ≤ (state self.new).oversize }

        ensures blamed_failed { IsErrOf result ReadFault.Failed → (state self.new).blamed ≡ name.now }
        ensures blamed_large { IsErrOf result ReadFault.TooLarge → (state self.new).blamed ≡ name.now }
        ensures blamed_memory { IsErrOf result ReadFault.Memory
            → (state self.new).blamed ≡ (state self.old).blamed }
        ensures blamed_ok { IfOk result (λ _. (state self.new).blamed ≡ (state self.old).blamed) };
}
