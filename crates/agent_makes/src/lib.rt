//! The strings that an agent makes, joins and cuts, and marks: with the ids and content words that it claimed in
//! advance by [`reserve`], where these suffice. Where they don't, the reserve is renewed first, by the blocks that
//! [`renew`] sets.
#![tactic(auto)]

mod making;
mod renewing;
mod spending;
mod taking;

pub use heap_reserve::ReserveFault;
pub use making::{concat, from_units, make_from, slice};
pub use renewing::{renew, renew_for, renew_for_key};
pub use spending::{reserve, reserved};
