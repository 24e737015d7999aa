//! What holds of the string heap whatever its agents do, as plain data: the sizes of a heap and
//! the places of its words, what an agent knows (its [`View`]), what each kind of atomic step
//! does to both, and the rule that every such step keeps.
//!
//! The definitions are in `specs/`, in reading order, and `docs/HEAP.md` explains them. The pure
//! machine (`heap_core`) and the heap that threads share (`heap_table`) build on this crate.
#![tactic(auto)]

mod maps;
mod overlay;
mod rule;
mod runs;
mod size;
mod view;

pub use maps::{History, IdMap};
pub use overlay::Twin;
pub use rule::{every_path, every_slot, every_step};
pub use size::{Counter, Counters, HeapSize, MAX};
pub use view::View;
