//! Reads tokens into the tree of a script, with the place of every fault.
#![tactic(auto)]

mod expr;
mod fault;
mod look;
mod node;
mod statement;

pub use fault::Fault;
pub use look::next;
pub use node::declared;
pub use statement::statements;
