//! The string table as an agent uses it: strings and units interned and looked for, one by one or many in a call,
//! and interned strings by their slots. An answer is marked as one of the table. A short list of units that an
//! agent interned again or found lately is mostly answered by one load.
#![tactic(auto)]

mod batch;
mod board;
mod keys;
mod noting;
mod table;

pub use batch::{Batch, are_ends, intern_many};
pub use board::{adopt, slot_of};
pub use keys::{find_key, find_units, intern_key, intern_units};
pub use table::intern;
