// The pointer of a handle. No clause of an export reads it; `value` is what lies there, and None of a
// handle that is not made yet or was freed, whose pointer is never followed.
ghost use Rattle.std.specs.Prelude.{◌≡◌, Option, None, Some};
ghost use Rattle.std.specs.Borrow.{sem};
ghost use Rattle.heap_agents.specs.declared.held.Held.{Held};
ghost use Rattle.c_handles.specs.Owned.{handle_owns, held_coded};
ghost use Rattle.heap_agents.specs.Held.{IsHeld};
ghost use Rattle.heap_agents.specs.Ready.{IsReady};

use crate::parts::Parts;
use heap_agents::Held;
use std::alloc::Global;
use std::marker::Model;
use std::mem::replace;
use std::ptr::null_mut;

/// A pointer to a box that it owns, or to nothing.
#[repr(C)]
#[derive(Drop)]
pub struct Boxed {
    ptr: *mut u8,
    alloc: Global,
    pub ghost value: { Option Held } by { held_coded },
}

impl Model for Boxed {
    ghost also_owns = { λ h. handle_owns h.alloc h.ptr h.value };
}

impl Boxed {
    ghost use Rattle.c_handles.specs.Lending.{LendsHeld};

    // A handle of nothing.
    fn nothing(alloc: Global) -> Boxed
        ensures { result.value ≡ None }
    {
        let ptr = null_mut::<u8>();
        Boxed::of_nothing(ptr, alloc)
    }

    // A handle of nothing, at any pointer.
    fn of_nothing(ptr: *mut u8, alloc: Global) -> Boxed
        ensures { result.value ≡ None }
    {
        Boxed { ptr, alloc }
    }

    // A handle of what the parts own.
    fn of_parts(parts: Parts<Held, Global>) -> Boxed
        ensures { result.value ≡ Some parts.value }
    {
        let Parts { ptr, alloc } = parts;
        Boxed {
            ptr: ptr.cast::<u8>(),
            alloc,
        }
    }

    // The parts of a handle that has something.
    fn into_parts(self) -> Parts<Held, Global>
        requires { (x : Held) × (self.value ≡ Some x) }
        ensures { self.value ≡ Some result.value }
    {
        let Boxed { ptr, alloc } = self;
        Parts {
            ptr: ptr.cast::<Held>(),
            alloc,
        }
    }

    // The box of a handle that has something.
    fn into_box(self) -> Box<Held>
        requires { (x : Held) × (self.value ≡ Some x) }
        ensures { self.value ≡ Some result.value }
    {
        self.into_parts().close()
    }

    /// The box, which leaves nothing here.
    pub fn take(&mut self, alloc: Global) -> Box<Held>
        requires { IsReady self.old.value }
        ensures held { IsHeld result.value }
        ensures taken { self.old.value ≡ Some result.value }
        ensures empty { self.new.value ≡ None }
    {
        let nothing = Boxed::nothing(alloc);
        replace(self, nothing).into_box()
    }

    /// What lies there, lent.
    pub fn held(&mut self) -> &mut Held
        requires { IsReady self.old.value }
        ensures* writes_back { sem 𝓛 (LendsHeld self.entry result) }
        ensures value { self.old.value ≡ Some result.now }
        ensures held { IsHeld result.now }
    {
        unsafe { &mut *self.ptr.cast::<Held>() }
    }

    /// Puts a box here, where nothing is.
    pub fn put(&mut self, b: Box<Held>)
        ensures { self.new.value ≡ Some b.value }
    {
        *self = Boxed::of_parts(Parts::open(b));
    }
}

unsafe impl Send for Boxed {}
