// Frames: the blocks that were entered and have one. Those that were left stay in their places, so that
// one that is entered there later reuses their memory.
ghost use Rattle.eval_scopes.specs.Changes.{all_but_first};
ghost use Rattle.std.specs.Prelude.{◌≡◌, ◌<◌, ◌≤◌, ◌+◌, ◌∷◌, [], true, false, length, map, reverse, slice_get, take, unwrap_or, ℕ, List, Some, OnOk, OnErr};
ghost use Rattle.eval_scopes.specs.Bindings.{Bound, declare};
ghost use Rattle.eval_scopes.specs.Seen.{bounds_of, frame_names, frame_of, outsides_of, hollows, with_hollows, stacked, put_in, InBlock, IsOnly};
ghost use Rattle.eval_scopes.specs.declared.frames.Frame.{Frame as CodeFrame};
ghost use Rattle.eval_tree.specs.Keys.{key_of};
ghost use Rattle.eval_scopes.specs.Marks.{mark_number};
ghost use Rattle.eval_scopes.specs.Starts.{AreStarts, KeepsReach, ReachesTo, ArePast};

use crate::binding_list::BindingList;
use crate::index::Declared;
use crate::starts::Starts;
use eval_tree::Name;
use js_units::NoMemory;
use std::alloc::Global;
use std::marker::Model;

/// A block that was entered: the names that it declares, those that were evaluated, and how many blocks
/// without a frame are right outside it. A turn of a `for` has no names beside the one that is bound.
#[derive(Drop)]
pub struct Frame<'a, T> {
    pub names: Option<Declared<'a>>,
    pub bound: BindingList<T>,
    pub outside: usize,
}

impl<'a, T: Drop> Frame<'a, T> {
    // A block is entered in the place of this one.
    fn enter(&mut self, outside: usize, names: Option<Declared<'a>>)
        ensures frame { frame_of self.new ≡ record { names = unwrap_or names.entry []; bound = [] } }
        ensures outside { self.new.outside ≡ outside }
    {
        self.outside = outside;
        self.names = names;
        self.bound.clear();
    }

    // The same with a turn of a `for`. After a turn of the same name, it allocates nothing.
    fn enter_turn(&mut self, outside: usize, name: &Name, value: T) -> Result<(), NoMemory>
        ensures frame { OnOk result (frame_of self.new ≡ record {
          names = [];
          bound = record { name = name.now; constant = false; value = value } ∷ [];
        }) }
        ensures outside { self.new.outside ≡ outside }
    {
        self.outside = outside;
        if self.is_turn_of(name) {
            self.bound.set(0, value);
            return Ok(());
        }
        self.names = None;
        self.bound.clear();
        self.bound.bind(name, false, value)
    }

    // Whether it is a turn of a `for` over this name.
    fn is_turn_of(&self, name: &Name) -> bool
        ensures names { result ≡ true → frame_names self.now ≡ [] }
        ensures bound { result ≡ true → IsOnly (bounds_of self.now.bound) name.now }
    {
        match &self.names {
            Some(_) => false,
            None => self.bound.is_only(name),
        }
    }
}

/// The frames of the blocks that were entered, the innermost at the end. Contracts see them as a list. The
/// walk for a name begins at the innermost frame that may have it.
#[derive(Drop)]
pub struct Frames<'a, T> {
    all: Vec<Frame<'a, T>>,
    // as many were entered and not left
    entered: usize,
    starts: Starts,
}

impl<'a, T> Model for Frames<'a, T> {
    ghost use Rattle.std.specs.Prelude.{List, take};
    ghost use Rattle.eval_scopes.specs.declared.frames.Frame.{Frame as CodeFrame};
    ghost use Rattle.eval_scopes.specs.Starts.{AreFrames};

    ghost Value = { List (CodeFrame T) };

    ghost view = { λ f. take f.entered f.all.items };

    ghost invariant = { λ f. AreFrames f.all.items f.entered f.starts.counts };
}

impl<'a, T: Drop> Frames<'a, T> {
    /// No frame. It allocates nothing.
    pub fn new(alloc: Global) -> Frames<'a, T>
        ensures { result ≡ [] }
    {
        Frames {
            all: Vec::new(alloc),
            entered: 0,
            starts: Starts::new(),
        }
    }

    pub(crate) fn allocator(&self) -> Global {
        *self.all.allocator()
    }

    /// The frames.
    pub fn as_slice(&self) -> &[Frame<'a, T>]
        ensures { result.now ≡ self.now }
    {
        &self.all[..self.entered]
    }

    // No frame from this one on says anything of names with this key.
    #[inline(always)]
    pub(crate) fn start(&self, key: u64) -> usize
        ensures within { result ≤ length self.now }
        ensures past { (x : List ℕ) → key_of x ≡ key → ArePast self.now result x }
    {
        self.entered.min(self.starts.get(key))
    }

    // Another value for a binding of a block.
    pub(crate) fn set(&mut self, block: usize, index: usize, value: T)
        requires { InBlock self.old block index }
        ensures { stacked self.new ≡ with_hollows (outsides_of self.old)
            (reverse (put_in (map frame_of self.old) block index value)) }
    {
        set_in_block(&mut self.all, block, index, value)
    }

    // One more binding of the innermost block.
    pub(crate) fn declare(
        &mut self,
        last: usize,
        name: &Name,
        constant: bool,
        value: T,
    ) -> Result<(), NoMemory>
        requires { length self.old ≡ last + 1 }
        ensures declared { OnOk result ((top : List (Bound T)) →
            (record { blocks = stacked self.new; top = top }) ≡ declare (stacked self.old) top
            (record { name = name.now; constant = constant; value = value })) }
        ensures refused { OnErr result (stacked self.new ≡ stacked self.old) }
    {
        self.starts.mark(name.key(), self.entered);
        declare_in_block(&mut self.all, last, name, constant, value)
    }

    // One more block, with its names, inside so many without a frame.
    pub(crate) fn enter(
        &mut self,
        alloc: Global,
        outside: usize,
        names: Option<Declared<'a>>,
    ) -> Result<(), NoMemory>
        ensures entered { OnOk result (stacked self.new
            ≡ record { names = unwrap_or names.entry []; bound = [] }
            ∷ hollows outside (stacked self.old)) }
        ensures refused { OnErr result (self.new ≡ self.old) }
    {
        make_room(alloc, &mut self.all, self.entered)?;
        mark_declared(&mut self.starts, &names, self.entered + 1);
        enter_at(&mut self.all, self.entered, outside, names);
        self.entered += 1;
        Ok(())
    }

    // One more block, a turn of a `for`.
    pub(crate) fn enter_turn(
        &mut self,
        alloc: Global,
        outside: usize,
        name: &Name,
        value: T,
    ) -> Result<(), NoMemory>
        ensures entered { OnOk result (stacked self.new ≡ record {
          names = [];
          bound = record { name = name.now; constant = false; value = value } ∷ [];
        } ∷ hollows outside (stacked self.old)) }
        ensures refused { OnErr result (self.new ≡ self.old) }
    {
        make_room(alloc, &mut self.all, self.entered)?;
        self.starts.mark(name.key(), self.entered + 1);
        enter_turn_at(&mut self.all, self.entered, outside, name, value)?;
        self.entered += 1;
        Ok(())
    }

    // The innermost block is left: how many without a frame are right outside it.
    pub(crate) fn leave(&mut self) -> usize
        ensures { hollows result (stacked self.new) ≡ all_but_first (stacked self.old) }
    {
        if self.entered == 0 {
            return 0;
        }
        self.entered -= 1;
        self.all[self.entered].outside
    }
}

// Another value for a binding of a block.
fn set_in_block<T: Drop>(blocks: &mut Vec<Frame<T>>, block: usize, index: usize, value: T)
    requires { InBlock blocks.old.items block index }
    ensures put { map frame_of blocks.new.items ≡ put_in (map frame_of blocks.old.items) block index value }
    ensures outsides { map (λ f. f.outside) blocks.new.items ≡ map (λ f. f.outside) blocks.old.items }
    ensures as_many { length blocks.new.items ≡ length blocks.old.items }
    ensures starts { (counts : List ℕ) (n : ℕ) → AreStarts counts (take n blocks.old.items)
        → AreStarts counts (take n blocks.new.items) }
{
    blocks[block].bound.set(index, value)
}

// One more binding of a block, the last one that was entered.
fn declare_in_block<T: Drop>(
    blocks: &mut Vec<Frame<T>>,
    last: usize,
    name: &Name,
    constant: bool,
    value: T,
) -> Result<(), NoMemory>
    requires { last < length blocks.old.items }
    ensures declared { OnOk result ((top : List (Bound T)) →
        (record { blocks = stacked (take (last + 1) blocks.new.items); top = top }) ≡ declare
        (stacked (take (last + 1) blocks.old.items)) top
        (record { name = name.now; constant = constant; value = value })) }
    ensures refused { OnErr result (stacked (take (last + 1) blocks.new.items)
        ≡ stacked (take (last + 1) blocks.old.items)) }
    ensures as_many { length blocks.new.items ≡ length blocks.old.items }
    ensures starts { (before after : List ℕ) → KeepsReach before after (last + 1)
        → last + 1 ≤ mark_number after (key_of name.now) → AreStarts before (take (last + 1) blocks.old.items)
        → AreStarts after (take (last + 1) blocks.new.items) }
{
    blocks[last].bound.bind(name, constant, value)
}

// A frame behind so many, if there is none.
fn make_room<'a, T: Drop>(
    alloc: Global,
    all: &mut Vec<Frame<'a, T>>,
    entered: usize,
) -> Result<(), NoMemory>
    requires { entered ≤ length all.old.items }
    ensures kept { take entered all.new.items ≡ take entered all.old.items }
    ensures within { entered ≤ length all.new.items }
    ensures room { OnOk result (entered < length all.new.items) }
{
    if entered < all.len() {
        return Ok(());
    }
    match all.push(Frame {
        names: None,
        bound: BindingList::new(alloc),
        outside: 0,
    }) {
        Ok(()) => Ok(()),
        Err(_) => Err(NoMemory),
    }
}

// The last of so many frames is to have the names that a block declares.
fn mark_declared(starts: &mut Starts, names: &Option<Declared>, frames: usize)
    ensures marked { ReachesTo starts.new.counts (unwrap_or names.now []) frames
        (length (unwrap_or names.now [])) }
    ensures kept { KeepsReach starts.old.counts starts.new.counts frames }
{
    if let Some(names) = names {
        starts.mark_all(names.as_slice(), frames);
    }
}

// A block is entered in the place of one that was left.
fn enter_at<'a, T: Drop>(
    all: &mut Vec<Frame<'a, T>>,
    place: usize,
    outside: usize,
    names: Option<Declared<'a>>,
)
    requires { place < length all.old.items }
    ensures entered { stacked (take (place + 1) all.new.items)
        ≡ record { names = unwrap_or names.entry []; bound = [] }
        ∷ hollows outside (stacked (take place all.old.items)) }
    ensures as_many { length all.new.items ≡ length all.old.items }
    ensures starts { (before after : List ℕ) → KeepsReach before after (place + 1)
        → ReachesTo after (unwrap_or names.entry []) (place + 1) (length (unwrap_or names.entry []))
        → AreStarts before (take place all.old.items) → AreStarts after (take (place + 1) all.new.items) }
{
    all[place].enter(outside, names)
}

fn enter_turn_at<T: Drop>(
    all: &mut Vec<Frame<T>>,
    place: usize,
    outside: usize,
    name: &Name,
    value: T,
) -> Result<(), NoMemory>
    requires { place < length all.old.items }
    ensures entered { OnOk result (stacked (take (place + 1) all.new.items) ≡ record {
      names = [];
      bound = record { name = name.now; constant = false; value = value } ∷ [];
    } ∷ hollows outside (stacked (take place all.old.items))) }
    ensures kept { take place all.new.items ≡ take place all.old.items }
    ensures as_many { length all.new.items ≡ length all.old.items }
    ensures starts { (before after : List ℕ) → KeepsReach before after (place + 1)
        → place + 1 ≤ mark_number after (key_of name.now) → AreStarts before (take place all.old.items)
        → OnOk result (AreStarts after (take (place + 1) all.new.items)) }
{
    all[place].enter_turn(outside, name, value)
}
