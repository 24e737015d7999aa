//! The engine of a page: one call reads a script, runs it on a heap of its own, and gives what it printed, how
//! it ended, the names at its top, and the words of its heap in the end.
//!
//! It is a static library for x86-64, so that it is proved as any crate is. `tools/jsstr --page` compiles it
//! once more, for a browser.
#![tactic(auto)]

mod answer;
mod bytes;
mod export;
mod names;
mod page;
mod script;
