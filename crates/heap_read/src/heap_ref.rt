// What leads to a heap.
ghost use Rattle.std.specs.Prelude.{◌≡◌};
ghost use Rattle.std.specs.Arc.{arc_value};
ghost use Rattle.heap_table.specs.declared.heap.Heap as heap;

use heap_table::Heap;
use std::alloc::Global;
use std::sync::Arc;

/// What leads to one heap for as long as it lives: a reference, or a counted one.
pub trait HeapRef {
    ghost reached: { Self → heap.Heap };

    /// The heap.
    fn heap(&self) -> &Heap
        ensures { result.now ≡ reached self.now };
}

impl<'h> HeapRef for &'h Heap {
    ghost reached = { λ r. r.now };

    fn heap(&self) -> &Heap {
        *self
    }
}

impl HeapRef for Arc<Heap, Global> {
    ghost reached = { λ r. arc_value r };

    fn heap(&self) -> &Heap {
        &**self
    }
}
