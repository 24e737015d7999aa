//! Reading the strings of a heap that threads share.
//!
//! A [`Reader`] is a heap with an agent that belongs to it. A settled string is read by a [`Window`]
//! on the content words of a Flat: the string's own, or those of the one to which it or its parent
//! forwards. Each load of a form, of a length or of a content word is one event; the units of a window
//! are read, compared, hashed, searched and copied a word at a time.
#![tactic(auto)]

mod comparing;
mod copying;
mod finding;
mod forms;
mod hashing;
mod heap_ref;
mod lanes;
mod packing;
mod reader;
mod reading;
mod shifting;
mod source;
mod spans;
mod steps;
mod string;
mod windows;

pub use heap_ref::HeapRef;
pub use lanes::Run;
pub use reader::Reader;
pub use source::{HeldWord, Piece, UnitSource};
pub use steps::Steps;
pub use string::{JsStr, Window};
