//! The kinds of step of the string heap on one agent's [`View`](heap_rule::View): whether a step
//! may come, and what it makes of the view. Births, stores and the moves of headers are in
//! `heap_core_births`. The pure machine (`heap_core`) plays its events by these. When memory runs
//! out, a view stays as it was, or is dropped.
#![tactic(auto)]

pub mod agents;
pub mod claims;
pub mod learning;
pub mod load;
pub mod slots;
