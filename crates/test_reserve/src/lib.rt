//! Tests of ids and content words that are claimed in advance, by their public calls, on one agent and
//! beside another that finds the rest of the heap. They are apart, since a crate with tests is proved twice.
#![tactic(auto)]

#[cfg(test)]
mod beside;
#[cfg(test)]
mod giving;
#[cfg(test)]
mod interning;
#[cfg(test)]
mod pieces;
#[cfg(test)]
mod strings;
#[cfg(test)]
mod taking;
