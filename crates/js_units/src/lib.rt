//! Lists of UTF-16 code units, which are ECMAScript's strings (ECMA-262, "The String Type"):
//! the growing list [`Units`], what a single unit is, the UTF-8 that a list is printed as, and
//! how units lie in the 64-bit words of a heap; and characters off the front of a text.
//!
//! [`append_utf8`] and the calls of [`Units`] that add units or make room for them allocate;
//! the others do not.
#![tactic(auto)]

mod chars;
mod marks;
mod packing;
mod text;
mod units;
mod words;

pub use chars::split_char;
pub use marks::{first_from, lanes_from};
pub use packing::{has_wide, hash_units, pack};
pub use text::{append_utf8, code_point, is_lead, is_trail, is_trimmed, split_point};
pub use units::{NoMemory, Units};
pub use words::{hash_step, lane, lane_size, lanes, set_lane, word_and_lane, words_for};
