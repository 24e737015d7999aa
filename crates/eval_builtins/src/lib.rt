//! The built-in functions, as a script calls them with values as arguments (ECMA-262, "Properties of
//! the String Constructor", "Properties of the Symbol Constructor", "JSON.stringify", "Object.keys",
//! "URI Handling Functions"), over any store of strings.
//!
//! What each call means is defined in `specs/Builtins.antt`, a line for each function, and what it
//! cites.
#![tactic(auto)]

mod builtins;
mod codes;
mod keys;
mod quoting;
mod symbols;
mod uris;

pub use builtins::call_builtin;
