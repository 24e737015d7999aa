//! The sources of a run: files that are read or scripts that are generated, and the scripts that they spell.
//!
//! [`read_sources`] reads a prelude and scripts. [`texts_from`] makes a large input from a number, a
//! prelude and 32 scripts, the same on every machine, and [`made_sources`] gives them as sources.
//! [`parse_sources`] gives the scripts. Each refusal has its cause in the contract.
#![tactic(auto)]

mod draws;
mod lines;
mod making;
mod parsing;
mod reading;
mod sources;
mod stop;
mod texts;

pub use making::made_sources;
pub use parsing::parse_sources;
pub use reading::read_sources;
pub use sources::{Scripts, SourceText, Sources};
pub use stop::ScriptsFault;
pub use texts::{GeneratedText, texts_from};
