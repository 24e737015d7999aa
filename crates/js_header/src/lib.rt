//! The form word of a string header: which of V8's representations a string has, and the one
//! 64-bit word that denotes it in the heap.
//!
//! [`encode`] gives each [`Form`] its word, and [`decode`] gives a word its form back. No two
//! forms have one word and no two words one form; a word that denotes no form is refused.
//! No call allocates.
#![tactic(auto)]

mod form;

pub use form::{FIELD_END, Form, decode, encode};
