// The two stores, with room for what a measure makes.
use crate::measures::NoRoom;
use crate::over_stores::{StoreMeasure, run_on};
use heap_rule::HeapSize;
use heap_session::Session;
use heap_table::Heap;
use js_store::Limit;
use plain_store::PlainStore;
use std::alloc::Global;

/// Which store is measured.
#[derive(Clone, Copy)]
pub enum StoreKind {
    /// A list of lists of one thread.
    Plain,
    /// A session of the heap that threads share.
    Heap,
}

// A heap for 1,000,000 different strings of 20 units, each of them interned.
const SIZE: HeapSize = HeapSize {
    ids: 2_200_000,
    words: 4_000_000,
    slots: 2_097_152,
};

/// Does what is measured, over that store, so many times.
pub fn run_over(
    alloc: Global,
    kind: StoreKind,
    what: StoreMeasure,
    count: u32,
) -> Result<u64, NoRoom> {
    match kind {
        StoreKind::Plain => {
            let mut store = PlainStore::new(alloc, Limit::Bits64);
            run_on(alloc, &mut store, what, count)
        }
        StoreKind::Heap => {
            let Ok((heap, agent)) = Heap::make(alloc, SIZE, 1) else {
                return Err(NoRoom);
            };
            let mut store = Session::new(&heap, agent, Limit::Bits64);
            run_on(alloc, &mut store, what, count)
        }
    }
}
