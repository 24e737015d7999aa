//! Members of values and the methods of strings and of arrays, as a script calls them with values as
//! arguments (ECMA-262, "Properties of the String Prototype Object", "Property Accessors"), over any
//! store of strings. A read of a property of an object interns its key.
//!
//! What each call means is defined in `specs/Methods.antt`, a row for each method, and what it cites.
#![tactic(auto)]

mod building;
mod cutting;
mod indexing;
mod members;
mod methods;
mod operands;
mod places;
mod properties;
mod replacing;
mod searching;
mod splitting;
mod testing;
mod trimming;

pub use indexing::read_index;
pub use members::{present, read_description, read_length};
pub use methods::call;
pub use properties::{look_up_property, read_property};
