//! Sets of ids, a bit for each: what an agent of the heap keeps of the strings that it may use.
//!
//! [`IdSet::new`] and [`IdSet::try_clone`] allocate; the other calls do not.
#![tactic(auto)]

mod ids;

pub use ids::IdSet;
