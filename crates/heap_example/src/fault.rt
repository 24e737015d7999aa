// Why the program ended early.
use heap_table::MakeFault;
use heap_text::{JoinFault, TextFull};
use std::alloc::AllocError;
use thiserror::Error;

/// A call that was refused, with what it answered.
#[derive(Debug, Drop, Error)]
pub enum ExampleFault {
    #[error("no heap was made: {0:?}")]
    Make(#[from] MakeFault),
    #[error("the heap is full: {0:?}")]
    Full(#[from] TextFull),
    #[error("two strings were not joined: {0:?}")]
    Join(#[from] JoinFault),
    #[error(transparent)]
    Memory(#[from(alloc)] AllocError),
}
