//! The methods of strings (ECMA-262, "Properties of the String Prototype Object"), over any store
//! of strings.
//!
//! Each method equals its definition over lists of code units, which is defined in `specs/` in the
//! standard's terms. It settles what it reads, keeps what the store knows and the history of
//! interned strings, and never finds the string table full. It throws a RangeError exactly where
//! its contract says so; every other fault is one that the store answered. What it uses of the
//! store is at most its row, on a full store with what was requested besides.
//!
//! A method at a place reads its string where there is such a place. A pad reads its filler where the
//! last copy is cut, and both of its strings where few units are put together at once (`ReadsBoth`).
//! [`concat`] and [`repeat`] read nothing.
#![tactic(auto)]

pub mod building;
pub mod cutting;
pub mod places;
pub mod searching;
pub mod testing;
pub mod trimming;

pub use building::{
    concat, from_char_code, from_code_point, pad_end, pad_start, repeat, to_well_formed,
};
pub use cutting::{slice, substr, substring};
pub use js_texts::{Cause, MethodFault};
pub use places::{at, char_at, char_code_at, code_point_at};
pub use searching::{ends_with, includes, index_of, last_index_of, starts_with};
pub use testing::is_well_formed;
pub use trimming::{trim, trim_end, trim_start};
