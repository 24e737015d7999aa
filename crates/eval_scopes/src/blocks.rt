// Blocks: all that were entered. One that declares nothing has no frame and is only counted, so that
// entering and leaving it costs next to nothing, and names are sought past it.
ghost use Rattle.eval_scopes.specs.Changes.{all_but_first};
ghost use Rattle.std.specs.Prelude.{◌≡◌, ◌≤◌, ◌+◌, ◌∷◌, [], false, length, slice_get, ℕ, List, Some, OnOk, OnErr};
ghost use Rattle.eval_scopes.specs.Bindings.{Bound, declare};
ghost use Rattle.eval_scopes.specs.Seen.{blocks_of, put_in_frame, InBlock};
ghost use Rattle.eval_scopes.specs.Starts.{ArePast};
ghost use Rattle.eval_scopes.specs.declared.frames.Frame.{Frame as CodeFrame};
ghost use Rattle.eval_tree.specs.Keys.{key_of};

use crate::frames::{Frame, Frames};
use crate::index::Declared;
use eval_tree::{Name, Names};
use js_units::NoMemory;
use std::alloc::Global;

/// The blocks that were entered. Those that have a frame are in their order, and each frame says how
/// many blocks without one are right outside it.
#[derive(Drop)]
pub struct Blocks<'a, T> {
    frames: Frames<'a, T>,
    // as many without a frame were entered inside the last one that has a frame
    hollow: usize,
}

impl<'a, T: Drop> Blocks<'a, T> {
    /// No block. It allocates nothing.
    pub fn new(alloc: Global) -> Blocks<'a, T>
        ensures { blocks_of result ≡ [] }
    {
        Blocks {
            frames: Frames::new(alloc),
            hollow: 0,
        }
    }

    /// The frames, the innermost at the end.
    pub fn frames(&self) -> &[Frame<'a, T>]
        ensures { result.now ≡ self.now.frames }
    {
        self.frames.as_slice()
    }

    // No frame from this one on says anything of names with this key.
    #[inline(always)]
    pub(crate) fn start(&self, key: u64) -> usize
        ensures within { result ≤ length self.now.frames }
        ensures past { (x : List ℕ) → key_of x ≡ key → ArePast self.now.frames result x }
    {
        self.frames.start(key)
    }

    // Another value for a binding of a frame.
    pub(crate) fn set(&mut self, block: usize, index: usize, value: T)
        requires { InBlock self.old.frames block index }
        ensures { blocks_of self.new ≡ put_in_frame self.old block index value }
    {
        self.frames.set(block, index, value)
    }

    // One more binding of the innermost block, which has the last frame.
    pub(crate) fn declare(
        &mut self,
        last: usize,
        name: &Name,
        constant: bool,
        value: T,
    ) -> Result<(), NoMemory>
        requires last { length self.old.frames ≡ last + 1 }
        requires innermost { self.old.hollow ≡ 0 }
        ensures declared { OnOk result ((top : List (Bound T)) →
            (record { blocks = blocks_of self.new; top = top }) ≡ declare (blocks_of self.old) top
            (record { name = name.now; constant = constant; value = value })) }
        ensures refused { OnErr result (blocks_of self.new ≡ blocks_of self.old) }
    {
        self.frames.declare(last, name, constant, value)
    }

    // The innermost block gets a frame, if it has none.
    pub(crate) fn fill(&mut self) -> Result<(), NoMemory>
        ensures same { blocks_of self.new ≡ blocks_of self.old }
        ensures filled { OnOk result (self.new.hollow ≡ 0) }
    {
        if self.hollow == 0 {
            return Ok(());
        }
        let alloc = self.frames.allocator();
        self.frames.enter(alloc, self.hollow - 1, None)?;
        self.hollow = 0;
        Ok(())
    }

    // One more block, with its names.
    pub(crate) fn enter(&mut self, alloc: Global, names: &'a Names) -> Result<(), NoMemory>
        ensures entered { OnOk result (blocks_of self.new
            ≡ record { names = names.now; bound = [] } ∷ blocks_of self.old) }
        ensures refused { OnErr result (blocks_of self.new ≡ blocks_of self.old) }
    {
        if names.as_slice().is_empty() {
            return self.enter_hollow();
        }
        let declared = Declared::new(alloc, names)?;
        self.frames.enter(alloc, self.hollow, Some(declared))?;
        self.hollow = 0;
        Ok(())
    }

    // One more block, with no names.
    fn enter_hollow(&mut self) -> Result<(), NoMemory>
        ensures entered { OnOk result (blocks_of self.new
            ≡ record { names = []; bound = [] } ∷ blocks_of self.old) }
        ensures refused { OnErr result (blocks_of self.new ≡ blocks_of self.old) }
    {
        match self.hollow.checked_add(1) {
            Some(more) => {
                self.hollow = more;
                Ok(())
            }
            None => Err(NoMemory),
        }
    }

    // One more block, a turn of a `for`.
    pub(crate) fn enter_turn(
        &mut self,
        alloc: Global,
        name: &Name,
        value: T,
    ) -> Result<(), NoMemory>
        ensures entered { OnOk result (blocks_of self.new ≡ record {
          names = [];
          bound = record { name = name.now; constant = false; value = value } ∷ [];
        } ∷ blocks_of self.old) }
        ensures refused { OnErr result (blocks_of self.new ≡ blocks_of self.old) }
    {
        self.frames.enter_turn(alloc, self.hollow, name, value)?;
        self.hollow = 0;
        Ok(())
    }

    // The innermost block is left.
    pub(crate) fn leave(&mut self)
        ensures { blocks_of self.new ≡ all_but_first (blocks_of self.old) }
    {
        if self.hollow > 0 {
            self.hollow -= 1;
        } else {
            self.hollow = self.frames.leave();
        }
    }
}
