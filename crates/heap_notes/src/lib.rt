//! What an agent notes of the string table beside its view, so that less of the table is loaded: the slots of
//! strings that it interned, what the strings in slots hash to, and short lists of units with their interned
//! strings.
#![tactic(auto)]

mod seats;

pub use seats::Seats;
