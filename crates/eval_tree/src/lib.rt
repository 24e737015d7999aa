//! The tree of a script: its statements, its expressions and its names, and in `specs` the same tree as the
//! definitions see it. What reads scripts makes it, and what evaluates them walks over it.
#![tactic(auto)]

mod tree;

pub use tree::{Arm, Block, Builtin, Expr, Link, Method, Name, Names, Op, PostStep, Script, Stmt};
