//! A player of schedules: a text names events of the pure machine of the string heap, one a line,
//! and [`run_schedule`] plays them, and shows what each found and what all strings hold.
//!
//! `docs/HEAP.md` has the form of such a text. Nothing here runs in threads.
#![tactic(auto)]

mod field;
mod line;
mod play;
mod run;
mod schedule;
mod show;
mod text;

pub use field::{Field, Keyword};
pub use line::{Line, Making};
pub use run::{Status, run_schedule};
pub use schedule::Schedule;
pub use text::{TextStop, read_schedule};
