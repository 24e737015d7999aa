//! Replacement in strings, and strings split into lists (ECMA-262, "GetSubstitution",
//! "String.prototype.replace", "String.prototype.replaceAll", "String.prototype.split"), over any
//! store of strings.
//!
//! Each call settles what it reads, keeps what the store knows and the history of interned
//! strings, and never finds the string table full. Every fault but a RangeError is one that the
//! store answered, or out of memory for a list of the call's own. The length of a result is
//! found before anything of that size is made.
#![tactic(auto)]

mod matching;
mod pieces;
mod replacing;
mod splitting;
mod substituting;

pub use js_texts::{Cause, MethodFault, join};
pub use replacing::{replace, replace_all};
pub use splitting::split;
pub use substituting::substitution;
