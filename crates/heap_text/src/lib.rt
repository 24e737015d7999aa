//! Strings on a heap that threads share: made, joined, cut, settled and read.
//!
//! A [`Text`] is a reader of the heap, by which it reads strings, with a limit of length; a [`JsStr`] is
//! the number of a string there. Once made, a string never changes its code units. Joining makes a
//! rope of two strings, and cutting a slice of the string, unless the result is short.
//! Settling a rope copies its units once, for all who use it. A settled string is read by windows on
//! its content words, which are those of a slice's parent, and of the interned string to which one
//! forwards. No call locks, waits or allocates; a call that needs more ids or content words
//! than the heap has left answers a [`TextFull`].
#![tactic(auto)]

mod copying;
mod faults;
mod filling;
mod making;
mod reading;
mod settling;
mod sharing;
mod text;

pub use copying::bear_flat;
pub use faults::{JoinFault, TextFull};
pub use heap_read::{JsStr, Steps, Window};
pub use making::{MIN_CONS, both_pieces, link_part_to, link_to, part_piece};
pub use text::Text;
