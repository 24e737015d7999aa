//! Tests of the heap's crates by their public calls: the pure machine word by word, the heap that threads
//! share, ropes and the moves of headers on its table, the counted loads of slots, and a session as a
//! store. They are apart, since a crate with tests is proved twice; strings, the string table and
//! sessions are played in `test_strings`.
#![tactic(auto)]

#[cfg(test)]
mod board;
#[cfg(test)]
mod building;
#[cfg(test)]
mod counted;
#[cfg(test)]
mod kept;
#[cfg(test)]
mod machine;
#[cfg(test)]
mod plays;
#[cfg(test)]
mod reading;
#[cfg(test)]
mod ropes;
#[cfg(test)]
mod spelled;
#[cfg(test)]
mod stores;
#[cfg(test)]
mod table;
#[cfg(test)]
mod table_counted;
#[cfg(test)]
mod table_forwards;
#[cfg(test)]
mod table_ropes;
