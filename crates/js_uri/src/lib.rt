//! The URI functions `encodeURI`, `encodeURIComponent`, `decodeURI` and `decodeURIComponent`
//! (ECMA-262, "URI Handling Functions") over any store of strings.
//!
//! What each makes of a list of units is defined in `specs/`, from the front: `encoded` and `decoded`,
//! with the sets of characters that are kept. Each call reads its string twice, first for the
//! place that is malformed or for the length, so that a list that is too long is never made.
//! For speed alone, a string of which nothing is escaped, or without a `%`, is the answer itself.
//! Each call settles its string, keeps what the store knows and the history of interned strings,
//! and never finds the string table full.
#![tactic(auto)]

mod answering;
mod calls;
mod decoding;
mod encoding;
mod faults;
mod laws;
mod sets;

pub use calls::{decode_uri, decode_uri_component, encode_uri, encode_uri_component};
pub use faults::UriFault;
pub use laws::decoding_undoes_encoding;
