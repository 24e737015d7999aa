//! The outside of the program: where files are read from ([`Files`]), where bytes are written to
//! ([`Sink`]), and the gate that a worker passes before each script ([`Gate`]).
//!
//! Files and sinks have a written meaning: the bytes of a file and those that a sink received, where
//! they are reported, and counts of faults that never fall. A fault is answered exactly where its
//! count rose by one, so code over the traits can't make one up. There are implementations in
//! memory ([`MemFiles`], [`MemSink`]), which report all, over the runtime ([`HostFiles`],
//! [`HostOut`], [`HostErr`]), which report no content, and a sink that keeps nothing
//! ([`NullSink`]). Beside them are lines in pieces, and the reports where nothing was run.
#![tactic(auto)]

mod files;
mod gate;
mod host;
mod mem_files;
mod mem_sink;
mod null_sink;
mod sink;
mod writing;

pub use files::{FILE_MAX, Files, ReadFault};
pub use gate::{FreeGate, Gate};
pub use host::{HostErr, HostFiles, HostOut};
pub use mem_files::MemFiles;
pub use mem_sink::MemSink;
pub use null_sink::NullSink;
pub use sink::{Failed, Sink, write_all};
pub use writing::{tell_large, tell_refusal, tell_unread, write_both, write_number};
