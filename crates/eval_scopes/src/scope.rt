// The blocks that were entered, over the top.
ghost use Rattle.std.specs.Prelude.{◌≡◌, ◌≤◌, length, Some, None, MatchOption, IfSome, OnOk, OnErr};
ghost use Rattle.eval_scopes.specs.Bindings.{is_among, meant, declared, entered, turned, outer};
ghost use Rattle.eval_scopes.specs.Seen.{bound_of, frame_names, bindings_of, bound_at, put_at, IsPlaceIn, IsPlace};
ghost use Rattle.eval_scopes.specs.Starts.{ArePast};

use crate::binding_list::{Binding, BindingList};
use crate::blocks::Blocks;
use crate::frames::Frame;
use eval_tree::{Name, Names};
use js_units::NoMemory;
use std::alloc::Global;

/// The blocks that were entered, the innermost at the end, and the top.
#[derive(Drop)]
pub struct Scope<'a, T> {
    pub blocks: Blocks<'a, T>,
    pub top: BindingList<T>,
}

/// Where a binding is.
#[derive(Clone, Copy)]
pub enum Place {
    Top { index: usize },
    Block { block: usize, index: usize },
}

impl<'a, T: Drop> Scope<'a, T> {
    /// Where the binding of a name is, in the innermost block that declares it. Where there is
    /// none, reading or assigning the name is a ReferenceError.
    #[inline(always)]
    pub fn place_of(&self, name: &Name) -> Option<Place>
        ensures { MatchOption result (meant (bindings_of self.now) name.now ≡ None)
            (λ p. IsPlace self.now name.now p) }
    {
        let start = self.blocks.start(name.key());
        match self.place_before(name, start) {
            Some(place) => Some(place),
            None => self.walk(name, start),
        }
    }

    // The same, if it is at the first place that a name of this mark has, in the last of so many frames or
    // at the top.
    #[inline(always)]
    fn place_before(&self, name: &Name, start: usize) -> Option<Place>
        requires within { start ≤ length self.now.blocks.frames }
        requires past { ArePast self.now.blocks.frames start name.now }
        ensures { IfSome result (λ p. IsPlace self.now name.now p) }
    {
        if start == 0 {
            return match self.top.at_first(name) {
                Some(index) => Some(Place::Top { index }),
                None => None,
            };
        }
        let block = start - 1;
        match self.blocks.frames()[block].bound.at_first(name) {
            Some(index) => Some(Place::Block { block, index }),
            None => None,
        }
    }

    // The same, frame by frame.
    #[inline(never)]
    fn walk(&self, name: &Name, start: usize) -> Option<Place>
        requires within { start ≤ length self.now.blocks.frames }
        requires past { ArePast self.now.blocks.frames start name.now }
        ensures { MatchOption result (meant (bindings_of self.now) name.now ≡ None)
            (λ p. IsPlace self.now name.now p) }
    {
        let frames = self.blocks.frames();
        for block in (0..start).rev() {
            let frame = &frames[block];
            if let Some(index) = frame.bound.position(name) {
                return Some(Place::Block { block, index });
            }
            if declares(frame, name) {
                return None;
            }
        }
        match self.top.position(name) {
            Some(index) => Some(Place::Top { index }),
            None => None,
        }
    }

    /// The binding of a name, in the innermost block that declares it, as at its place.
    #[inline(always)]
    pub fn find(&self, name: &Name) -> Option<&Binding<T>>
        ensures { MatchOption result (meant (bindings_of self.now) name.now ≡ None)
            (λ b. meant (bindings_of self.now) name.now ≡ Some (bound_of b.now)) }
    {
        let start = self.blocks.start(name.key());
        match self.place_before(name, start) {
            Some(place) => Some(self.at(place)),
            None => self.find_by_walk(name, start),
        }
    }

    // The same, frame by frame.
    #[inline(never)]
    fn find_by_walk(&self, name: &Name, start: usize) -> Option<&Binding<T>>
        requires within { start ≤ length self.now.blocks.frames }
        requires past { ArePast self.now.blocks.frames start name.now }
        ensures { MatchOption result (meant (bindings_of self.now) name.now ≡ None)
            (λ b. meant (bindings_of self.now) name.now ≡ Some (bound_of b.now)) }
    {
        match self.walk(name, start) {
            Some(place) => Some(self.at(place)),
            None => None,
        }
    }

    /// The binding at a place.
    #[inline(always)]
    pub fn at(&self, place: Place) -> &Binding<T>
        requires { IsPlaceIn self.now place }
        ensures { Some (bound_of result.now) ≡ bound_at self.now place }
    {
        match place {
            Place::Top { index } => &self.top.list()[index],
            Place::Block { block, index } => &self.blocks.frames()[block].bound.list()[index],
        }
    }

    /// Another value for the binding at a place, whether it is constant or not.
    #[inline(always)]
    pub fn set(&mut self, place: Place, value: T)
        requires { IsPlaceIn self.old place }
        ensures { bindings_of self.new ≡ put_at self.old place value }
    {
        match place {
            Place::Top { index } => self.top.set(index, value),
            Place::Block { block, index } => self.blocks.set(block, index, value),
        }
    }

    /// A declaration of the innermost block, or of the top, is evaluated; unchanged on refusal.
    pub fn declare(&mut self, name: &Name, constant: bool, value: T) -> Result<(), NoMemory>
        ensures declared { OnOk result (bindings_of self.new ≡ declared (bindings_of self.old)
            (record { name = name.now; constant = constant; value = value })) }
        ensures refused { OnErr result (bindings_of self.new ≡ bindings_of self.old) }
    {
        self.blocks.fill()?;
        let frames = self.blocks.frames().len();
        if frames == 0 {
            self.top.bind(name, constant, value)
        } else {
            self.blocks.declare(frames - 1, name, constant, value)
        }
    }

    /// Enters a block with its names, none of them evaluated; unchanged on refusal.
    pub fn enter(&mut self, alloc: Global, names: &'a Names) -> Result<(), NoMemory>
        ensures entered { OnOk result (bindings_of self.new ≡ entered names.now (bindings_of self.old)) }
        ensures refused { OnErr result (bindings_of self.new ≡ bindings_of self.old) }
    {
        self.blocks.enter(alloc, names)
    }

    /// Enters a turn of a `for`, with its name bound; unchanged on refusal.
    pub fn enter_turn(&mut self, alloc: Global, name: &Name, value: T) -> Result<(), NoMemory>
        ensures entered { OnOk result (bindings_of self.new ≡ turned name.now value (bindings_of self.old)) }
        ensures refused { OnErr result (bindings_of self.new ≡ bindings_of self.old) }
    {
        self.blocks.enter_turn(alloc, name, value)
    }

    /// Leaves the innermost block.
    pub fn leave(&mut self)
        ensures { bindings_of self.new ≡ outer (bindings_of self.old) }
    {
        self.blocks.leave();
    }
}

// Whether a block declares a name.
fn declares<T>(frame: &Frame<T>, name: &Name) -> bool
    ensures { result ≡ is_among (frame_names frame.now) name.now }
{
    match &frame.names {
        Some(names) => names.has(name),
        None => false,
    }
}
