//! A prelude and a script run on a heap of their own without a thread, with what they leave: the heap with its
//! agent, so that it can be closed, and the bindings at the top, whose values name strings of the heap.
//!
//! [`run_here`] makes the same promises as `run_program` of one script. What comes on top is in `specs/`.
#![tactic(auto)]

mod files;
mod here;

pub use here::{Here, run_here};
