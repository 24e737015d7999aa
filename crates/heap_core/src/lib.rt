//! The pure machine of the string heap: one list of 64-bit words, what each agent knows of it
//! (its [`View`]), and the atomic steps ([`Event`]) that agents make, one word at a time.
//!
//! [`CoreState`] is the machine. [`enabled`] says whether an event may come, and [`apply`] makes
//! it. Whatever is applied, the words and views meet one rule, and no string ever changes its
//! code units. `docs/HEAP.md` explains the words, the forms of a string, views and the rule; the
//! definitions are in `specs/`, in reading order. Nothing here runs in threads.
#![tactic(auto)]

mod contents;
mod event;
mod loading;
mod machine;
mod moves;
mod owning;
mod play;
mod sharing;
mod slots;
mod state;

pub use event::{Event, Refusal};
pub use heap_rule::{Counter, Counters, HeapSize, History, IdMap, MAX, View};
pub use state::{CoreState, apply, enabled, every_event, every_run};
