//! String literals and number literals of a script in strict code (ECMA-262, "String Literals",
//! "Numeric Literals"): [`read_string`] and [`read_number`] answer what is at a byte of a
//! text, and the byte behind it, or the one fault with its place.
//!
//! What a literal is and where each fault lies are relations between a text and places in it.
//! [`one_string_answer`] and [`one_number_answer`] say that a place at which a literal begins has
//! exactly one answer. The other functions read characters at the front of a text, for the crates
//! that read tokens.
#![tactic(auto)]

mod fault;
mod front;
mod number;
mod string;
mod text;

pub use fault::{LiteralFault, NumberFault};
pub use number::{begins_number, is_word_start, one_number_answer, read_number};
pub use string::{one_string_answer, read_string};
pub use text::{begins_digit, byte_len};
