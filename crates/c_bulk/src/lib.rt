//! The exports for C of strings in bulk, and of the room for them: texts that are built up, behind a handle
//! of their own, [`c_steps::JsBuilder`]; many lists of units interned in one call; strings made again in
//! another heap; what an agent claims in advance; and what is used of a heap. Each call
//! tests its conditions; those on a text alone have none.
#![tactic(auto)]

mod batch;
mod building;
mod copying;
mod counts;
mod reserving;
mod uses;
