//! Strings of a heap that threads share: written as bytes or units, compared with units and with bytes,
//! hashed, and read as array indexes. All calls are loads, and allocate nothing; each but [`is_settled`] requires a
//! settled string.
#![tactic(auto)]

mod comparing;
mod faults;
mod index;
mod latin1;
mod looking;
mod points;
mod runs;
mod spelled;
mod units;
mod utf8;

pub use comparing::{compare_strings, compare_units, has_same_units, has_units};
pub use faults::{Unpaired, WriteFault};
pub use index::array_index;
pub use latin1::write_latin1;
pub use looking::{hash, is_settled};
pub use spelled::{compare_spelled, has_spelled};
pub use units::write_units;
pub use utf8::write_utf8;
