//! Sessions: a heap that threads share, as a store of strings. Each thread has a [`Session`] of its own;
//! strings that one has made can be read by each session that is split off it or joined with it, and equal
//! strings that any sessions of one heap intern have one number.
//!
//! A session is bounded, since its heap has so many ids, content words and slots, and never runs out of
//! memory: no call allocates but [`Session::note_slots`]. No call locks or waits.
#![tactic(auto)]

mod counted;
mod cutting;
mod faults;
mod kept;
mod kept_keys;
mod keys;
mod laws;
mod noted;
mod noting;
mod recent;
mod session;
mod sharing;
mod short;
mod singles;
mod strings;
mod words;

pub use laws::whole_has_all;
pub use session::Session;
