//! Strings, and lists of strings, as JSON text (ECMA-262, "QuoteJSONString",
//! "SerializeJSONArray"), and the lines that scripts print, over any store of strings.
//!
//! [`print_line`] adds a printed line to bytes, and [`Lines`] are the bytes of lines alone.
//!
//! Each call settles what it reads, keeps what the store knows and the history of interned
//! strings, and never finds the string table full. Every fault but a RangeError is one that the
//! store answered, or out of memory for a list of the call's own.
#![tactic(auto)]

mod escapes;
mod lines;
mod lists;
mod printing;
mod quoting;

pub use lines::{Lines, print_line};
pub use lists::{append_elements, append_quoted, element_len, list_len, stringify_list};
pub use quoting::quote;
