//! The heap of strings for C: how heaps, agents and strings are made, joined, cut, settled, interned and
//! compared. `c_reads` and `c_bulk` have the other exports, and one archive has all.
//!
//! Each export is a call on an agent, or a step of `c_steps`, and states its clauses again. Each tests
//! its conditions, and answers `JSSTR_BAD_ARGUMENT` where one fails; its caller owes a handle that the library
//! wrote, and nothing else. Where that costs a tenth or more, there is a second form, whose name ends in
//! `_unchecked` and which leaves the conditions to the caller.
//!
//! C holds an agent by a handle, [`c_handles::JsAgent`], with a pointer; behind it are the agent, a counted
//! reference to its heap, so that the heap goes with the last handle, and the marks of the strings that
//! the agent may use. A string is its number. What a call answers is a [`c_steps::JsAnswer`]: a status,
//! with the string or with the report.
#![tactic(auto)]

mod comparing;
mod life;
mod making;
mod table;
mod units;
mod uses;
mod version;
