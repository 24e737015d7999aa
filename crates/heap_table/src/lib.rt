//! The heap as threads run it: all its words lie in one table of atomic words, and each call of
//! an [`Agent`] is one step of a kind that `heap_rule` describes. A claim is a list of such steps;
//! [`Agent::counters`] loads both counters; [`Agent::split`] and [`Agent::join`] make one step more,
//! which changes no word. [`every_moment`] and [`every_play`] are the laws of these steps.
//!
//! A [`Heap`] is shared by reference among threads; an [`Agent`] belongs to one heap and is moved
//! to the thread that uses it. No call locks or waits, and only [`Heap::make`] allocates.
//! What an agent knows, its view, exists for the proofs alone.
#![tactic(auto)]

mod agent;
mod claims;
mod closing;
mod headers;
mod heap;
mod laws;
mod loads;
mod rule;
mod slots;
mod stores;

pub use agent::Agent;
pub use claims::CounterFull;
pub use heap::{Heap, MakeFault};
pub use laws::{every_moment, every_play};
pub use rule::{HeapKey, HeapRule};
pub use stores::Step;
