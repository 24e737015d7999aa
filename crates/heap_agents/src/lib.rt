//! Agents of the heap as a program in another language holds them: each with a counted reference to its
//! heap, and with a mark for each string that it may use, so that a call can be tested before it is made.
//!
//! A [`Held`] is made by [`Held::make`] and by [`Held::split`], and given back by [`Held::join`]. Here is also
//! what of its heap is used. Its calls on strings are in the crates above, and mark each string that they
//! answer: `agent_reads`, `agent_searches`, `agent_makes`, `agent_keys`.
#![tactic(auto)]

mod counts;
mod held;
mod life;
mod room;

pub use heap_table::MakeFault;
pub use held::{Held, ReserveBlocks};
pub use room::Room;
