//! Texts that are built up outside any heap: units, bytes of Latin-1, UTF-8 and WTF-8, and numbers are added one
//! behind another, and the units then become a string of some heap.
//!
//! A call adds all that it is given or nothing. Memory is kept until a text is dropped, so that one [`Builder`]
//! serves for many texts.
#![tactic(auto)]

mod adding;
mod builder;
mod decoding;
mod faults;
mod text;

pub use builder::Builder;
pub use faults::{BuildFault, DecodeFault};
