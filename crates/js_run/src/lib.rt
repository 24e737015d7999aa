//! The top call of the program, [`run_words`]: it gets the arguments of the command line, files, two
//! sinks and a gate, and answers the status and the heap that was used.
//!
//! Its contract says when each status comes, what each sink received and what the heap holds, for every
//! list of arguments, all contents of files and every number of jobs. It never aborts, and it prints
//! nothing before all files were read and spell scripts.
//!
//! An engine that has sessions of its own runs scripts by [`run_group`] and [`run_all`].
#![tactic(auto)]

mod run;
mod stages;
mod status;
mod telling;

pub use run::run_words;
pub use run_program::{Job, Kept, Outcome, run_all, run_group};
pub use status::Status;
