//! Scripts from bytes: which bytes spell which script, and the one reason for which others are refused.
//!
//! [`parse`] reads them: the tokens, the tree, and then its names, by one walk that looks at no expression.
//! [`one_script`], [`no_refused_script`], [`one_refusal`] and [`some_answer`] are laws of the definitions, which a
//! call of them brings into a proof.
#![tactic(auto)]

mod fault;
mod grammar;
mod laws;
mod misplaced;
mod name_fault;
mod name_set;
mod name_walk;
mod parser;
mod proto_key;

pub use eval_tree::{
    Arm, Block, Builtin, Expr, Link, Method, Name, Names, Op, PostStep, Script, Stmt,
};
pub use fault::{ParseFault, Role};
pub use laws::{no_refused_script, one_refusal, one_script, some_answer};
pub use parser::parse;
