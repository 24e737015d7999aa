//! The tokens of the grammar, read from the bytes of a script: [`tokens`] answers them with the units
//! of the script's string literals and the table of its names, or the one lexical fault that comes first.
//!
//! An identifier is a keyword, another that can't be a name, or a name. A name has its place in the table of
//! names as its number; the table has each name once, in source order.
#![tactic(auto)]

mod numbers;
mod read;
mod reserved;
mod word;

pub use read::{ScriptTokens, tokens};
