//! Items, which are the values of the language, and objects whose keys are interned strings, over
//! any store of strings.
//!
//! An object is a list of members with different keys (ECMA-262, "The Object Type"). A member is
//! found by its key's units. The code compares numbers alone, since two interned strings are equal
//! exactly where their numbers are; that it reads no units is in no contract. What an item holds is
//! defined in `specs/Contents.antt`, when it may be used in a store in `specs/Fine.antt`, and what it
//! denotes, with lists of units in the place of references, in `specs/Seen.antt`. No call here uses an id or a content word. The strings that calls
//! read are keys, which are settled before and stay so.
#![tactic(auto)]

mod bounds;
mod builder;
mod copying;
mod index;
mod item;
mod keyed;

pub use builder::ObjectBuilder;
pub use item::{Item, Member, Object};
