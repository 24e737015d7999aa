//! The syntax of scripts: the tokens of the grammar, and in `specs` the grammar with its limit on nesting.
//!
//! `specs/Lang.antt`, `Reader.antt` and `Refused.antt` are of any type of tokens: grammars as languages of lists of
//! tokens, readers that go from the front, and what holds of a reader for its language. What it gives is spelled,
//! what is spelled is given, and where it fails, no text that goes on from the same tokens is in the language.
#![tactic(auto)]

mod token;

pub use token::{GrammarKind, GrammarToken, Property, Tables, Word};
