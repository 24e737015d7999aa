//! Units that bytes spell, as Latin-1, UTF-8 and WTF-8 have them, and content words that are written straight
//! from them.
//!
//! A [`Spelling`] is read front to back, in pieces of some 64 units, into room that the caller has. So it is
//! hashed, compared and written with no memory but the heap's.
#![tactic(auto)]

mod decoding;
mod encoding;
mod spelling;
mod writing;

pub use decoding::{measure, split_point};
pub use encoding::Encoding;
pub use spelling::{ROOM, Spelling};
pub use writing::{spell_at, write_spelled};
