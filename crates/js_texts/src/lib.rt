//! The units of strings of a store: of one string as a list, of several strings joined, and the
//! definitions by which the crates above speak of several strings, one after another; and the faults of
//! methods ([`MethodFault`]).
//!
//! Each call keeps what the store knows and the history of interned strings, and never finds the
//! string table full. [`read`] and [`join`] settle what they read; [`copied`] reads a settled string.
#![tactic(auto)]

mod faults;
mod joining;
mod making;
mod reading;

pub use faults::{Cause, MethodFault};
pub use joining::join;
pub use making::make;
pub use reading::{copied, read};
