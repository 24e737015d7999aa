//! A prelude and scripts run on a heap of their own, in threads.
//!
//! [`run_program`] makes a heap, runs the prelude on it, and then, where that ended Done, each of the
//! scripts from the bindings that the prelude left, in groups. Scripts and their outcomes are jobs:
//! [`run_group`] runs jobs in order on one session, and [`run_all`] cuts them into groups, each in a
//! thread with a session of its own, and joins the sessions afterwards. Whatever the cutting and
//! however the threads take turns, each outcome is in its job's place, and its script prints and
//! ends as it is meant, or ends Full or out of memory with the first ones of its lines.
//!
//! When the stated needs of scripts fit into a heap, and what the ends of files that were run on it
//! say, is defined in `specs/`: where a file ended with a full heap it was full, and the needs didn't fit.
//! [`files_are_run`] and [`ends_tell`] do nothing, and state its laws.
#![tactic(auto)]

mod group;
mod halves;
mod job;
mod laws;
mod on_heap;
mod prepare;
mod program;
mod ran;
mod session;
mod shared;
mod stages;

pub use job::{Job, Outcome};
pub use laws::{ends_tell, files_are_run};
pub use on_heap::{run_all, run_group};
pub use program::run_program;
pub use ran::{Kept, Ran, Setup};
