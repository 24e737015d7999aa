//! Ids and content words that an agent claims in advance, so that later strings touch no counter.
//!
//! A [`Reserve`] keeps ids that its agent owns, and one run of content words. [`Reserve::claim`] adds to it,
//! and uses of the heap what it adds. [`Reserve::make_flat`], [`Reserve::make_from`], [`Reserve::concat`] and
//! [`Reserve::slice`] are the calls of a `Text` of the same names: a new string takes from the reserve what that
//! has, and claims the rest. An id serves a rope or a slice only where it is greater than the ids of the
//! strings of which that is made, so ids are taken in their order. [`Reserve::intern_at`] interns units, and
//! [`Reserve::intern_string_at`] a string, once a search of the string table has found an opening for them.
//! [`Reserve::take_over`] is for the join of two agents.
#![tactic(auto)]

mod claiming;
mod faults;
mod gathering;
mod joining;
mod making;
mod opening;
mod reserve;
mod slicing;
mod strings;

pub use faults::ReserveFault;
pub use reserve::Reserve;
