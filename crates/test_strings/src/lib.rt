//! Tests of the strings on the running heap, of its string table and of sessions by their public calls,
//! most of them as lines of text that a player plays (`plays`), also by two agents in two threads. They
//! are apart, since a crate with tests is proved twice.
#![tactic(auto)]

#[cfg(test)]
mod by_hand;
#[cfg(test)]
mod lines;
#[cfg(test)]
mod on_session;
#[cfg(test)]
mod on_text;
#[cfg(test)]
mod plays;
#[cfg(test)]
mod sessions;
#[cfg(test)]
mod strings;
#[cfg(test)]
mod table;
#[cfg(test)]
mod text_calls;
#[cfg(test)]
mod units;
