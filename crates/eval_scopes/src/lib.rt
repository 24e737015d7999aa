//! Scopes: the blocks that a script has entered, over the names of its top (ECMA-262, "Declarative
//! Environment Records"). Values are of any type, and no store is known here.
//!
//! What names mean is defined in `specs/Bindings.antt`.
#![tactic(auto)]

mod binding_list;
mod blocks;
mod firsts;
mod frames;
mod index;
mod scope;
mod starts;

pub use binding_list::{Binding, BindingList};
pub use blocks::Blocks;
pub use frames::Frame;
pub use index::Declared;
pub use scope::{Place, Scope};
