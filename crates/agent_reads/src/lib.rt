//! What an agent reads of strings: their length, their units, their content words, their UTF-8 and Latin-1, their
//! hash, their order beside units and bytes. A string is settled first, by [`settle`], which marks it; all else
//! happens by loads alone, and marks nothing.
#![tactic(auto)]

mod building;
mod out;
mod reading;
mod spelled;
mod words;

pub use building::add_to;
pub use heap_export::{Unpaired, WriteFault};
pub use out::{
    array_index, compare_units, has_units, hash, is_settled, unit_at, write_latin1, write_units,
    write_utf8,
};
pub use reading::{length, read, settle};
pub use spelled::{compare_spelled, has_spelled};
pub use words::{Shown, window};
