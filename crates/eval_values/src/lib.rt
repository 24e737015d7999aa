//! The values of a script over any store of strings, their conversions (ECMA-262, "Type
//! Conversion") and operators, and the arguments of calls.
//!
//! What a conversion or an operator means is defined in `specs/`, on values with lists of units where
//! the code has references into the store: `specs/Outcome.antt`, with the outcome of an evaluation
//! and its ledger, and what cites it. `specs/Ran.antt` says when a result of the code is the outcome
//! that is meant.
#![tactic(auto)]

mod arguments;
mod comparing;
mod conversions;
mod lists;
mod operators;
mod value;

pub use arguments::{
    first_is_missing, first_number, first_text, second_is_missing, second_number, second_or_none,
    second_text,
};
pub use comparing::{compare, is_equal, is_same, order_of};
pub use conversions::{joined_by_commas, number_of, texts, to_text, truth};
pub use lists::push;
pub use operators::{apply_unary, plus, subtract, to_primitive};
pub use value::{Abrupt, Kind, Stop, Value, number_value};
