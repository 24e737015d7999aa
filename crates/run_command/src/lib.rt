//! The arguments of the command line: which of them are valid, and what they ask for.
//!
//! [`read_words`] answers a [`Plan`]. It opens no file and prints nothing.
#![tactic(auto)]

mod command;
mod options;
mod plan;
mod words;

pub use plan::{Input, Plan, Sizes, WordsFault};
pub use words::read_words;
