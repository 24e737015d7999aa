//! What C holds of an agent, and of a text that is built up: a `#[repr(C)]` pointer to a box that the handle
//! owns, whose clauses speak of what lies there.
//!
//! A [`JsAgent`] lends its agent for a call. Its box is taken out only where the agent goes to another owner.
//! A [`BoxedText`] has a text of `heap_build`, whose box a call takes out and puts back; while it is out, the
//! handle has nothing.
#![tactic(auto)]

mod agent;
mod handle;
mod parts;
mod text_handle;

pub use agent::JsAgent;
pub use handle::Boxed;
pub use text_handle::BoxedText;
