//! The evaluator of the whole language over blocks (ECMA-262, "ECMAScript Language: Expressions" and
//! "Statements and Declarations").
//!
//! What a script means is defined in `specs/`. `eval` prints whole lines alone, also before a throw.
#![tactic(auto)]

mod compared;
mod context;
mod ending;
mod env;
mod expr;
mod literals;
mod object;
mod operators;
mod script;
mod short;

pub use ending::End;
pub use env::Env;
pub use eval_values::{Kind, Value};
pub use js_json::Lines;
pub use script::eval;
