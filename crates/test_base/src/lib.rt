//! Tests by public calls, where no script shows what they show: units and words, forms of strings, files
//! and sinks in memory and of the process, numbers, the plain store, the order of strings and templates at
//! a match over it, the URI functions with the places of their faults; lexical and grammatical tokens with
//! their spans, copies of names, and what a session keeps of strings that it read and of strings of one
//! unit. Which texts are scripts, the kind and place of each fault, what scripts print, and what a few calls
//! below the program come to are cases of `jsstr_cases`. Nothing here reaches the evaluator, the program or
//! the command line, since a crate of tests is checked with all that it reaches.
//!
//! A table is one string, a row a line: what is given, an arrow, and what is expected; one loop goes through
//! all of them. Expected values come from the standard, from node, or from a definition alone.
#![tactic(auto)]

#[cfg(test)]
mod files;
#[cfg(test)]
mod header;
#[cfg(test)]
mod lexing;
#[cfg(test)]
mod names;
#[cfg(test)]
mod number;
#[cfg(test)]
mod reads;
#[cfg(test)]
mod rows;
#[cfg(test)]
mod singles;
#[cfg(test)]
mod store;
#[cfg(test)]
mod strings;
#[cfg(test)]
mod tokens;
#[cfg(test)]
mod units;
#[cfg(test)]
mod uri;
