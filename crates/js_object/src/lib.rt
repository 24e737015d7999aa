//! The keys of objects in their order, and objects as JSON text, over any store of strings
//! (ECMA-262, "OrdinaryOwnPropertyKeys", "SerializeJSONObject").
//!
//! The types are those of `js_item`. Each call keeps what the store knows and the history of
//! interned strings, and never finds the string table full.
#![tactic(auto)]

mod json;
mod json_len;
mod keys;
mod order;
mod serialize;

pub use js_item::{Item, Member, Object};
pub use keys::{array_index, in_order, own_keys};
pub use order::keys_have_one_order;
pub use serialize::stringify;
