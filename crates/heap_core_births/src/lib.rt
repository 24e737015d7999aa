//! Births of strings and the moves of their headers on one agent's [`View`](heap_rule::View):
//! whether one may come, and what it makes of the view. The stores of own words that a birth requires
//! before it are here too. The pure machine (`heap_core`) plays its events by these. When memory
//! runs out, a view stays as it was.
#![tactic(auto)]

pub mod births;
pub mod moves;
mod parts;
