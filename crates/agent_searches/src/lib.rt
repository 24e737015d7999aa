//! Settled strings of an agent, compared with one another and searched for one another: by the calls of
//! `js_search` on a session that makes nothing, so that an agent keeps what it noted of the string table.
#![tactic(auto)]

mod looking;
mod search;

pub use search::{compare, equal, index_of, last_index_of, starts_with};
