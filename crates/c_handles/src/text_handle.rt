// The pointer of a handle. No clause of an export reads it; `value` is what lies there, and None of a
// handle that is not made yet or was freed, whose pointer is never followed.
ghost use Rattle.std.specs.Prelude.{◌≡◌, Option, None, Some};
ghost use Rattle.heap_build.specs.declared.builder.Builder.{Builder};
ghost use Rattle.c_handles.specs.OwnedText.{text_owns, text_coded};

use crate::parts::Parts;
use heap_build::Builder;
use std::alloc::Global;
use std::marker::Model;
use std::mem::replace;
use std::ptr::null_mut;

/// A pointer to a box that it owns, or to nothing.
#[repr(C)]
#[derive(Drop)]
pub struct BoxedText {
    ptr: *mut u8,
    alloc: Global,
    pub ghost value: { Option Builder } by { text_coded },
}

impl Model for BoxedText {
    ghost also_owns = { λ h. text_owns h.alloc h.ptr h.value };
}

impl BoxedText {
    // A handle of nothing.
    fn nothing(alloc: Global) -> BoxedText
        ensures { result.value ≡ None }
    {
        let ptr = null_mut::<u8>();
        BoxedText::of_nothing(ptr, alloc)
    }

    // A handle of nothing, at any pointer.
    fn of_nothing(ptr: *mut u8, alloc: Global) -> BoxedText
        ensures { result.value ≡ None }
    {
        BoxedText { ptr, alloc }
    }

    // A handle of what the parts own.
    fn of_parts(parts: Parts<Builder, Global>) -> BoxedText
        ensures { result.value ≡ Some parts.value }
    {
        let Parts { ptr, alloc } = parts;
        BoxedText {
            ptr: ptr.cast::<u8>(),
            alloc,
        }
    }

    // The parts of a handle that has something.
    fn into_parts(self) -> Parts<Builder, Global>
        requires { (x : Builder) × (self.value ≡ Some x) }
        ensures { self.value ≡ Some result.value }
    {
        let BoxedText { ptr, alloc } = self;
        Parts {
            ptr: ptr.cast::<Builder>(),
            alloc,
        }
    }

    // The box of a handle that has something.
    fn into_box(self) -> Box<Builder>
        requires { (x : Builder) × (self.value ≡ Some x) }
        ensures { self.value ≡ Some result.value }
    {
        self.into_parts().close()
    }

    /// The box, which leaves nothing here until it is put back.
    pub fn take(&mut self, alloc: Global) -> Box<Builder>
        requires { (b : Builder) × (self.old.value ≡ Some b) }
        ensures taken { self.old.value ≡ Some result.value }
        ensures empty { self.new.value ≡ None }
    {
        let nothing = BoxedText::nothing(alloc);
        replace(self, nothing).into_box()
    }

    /// Puts a box here, where nothing is.
    pub fn put(&mut self, b: Box<Builder>)
        ensures { self.new.value ≡ Some b.value }
    {
        *self = BoxedText::of_parts(Parts::open(b));
    }
}

unsafe impl Send for BoxedText {}
