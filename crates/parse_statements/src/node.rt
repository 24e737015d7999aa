// The nodes of the tree.
ghost use Rattle.std.specs.Prelude.{◌≡◌, ◌++◌, ◌∷◌, [], map, IfOk, OnOk, OnErr, MatchOption};
ghost use Rattle.eval_tree.specs.Tree.{expr_tree, exprs_tree, link_tree, step_tree, entry_tree, init_tree, stmt_tree, arm_tree, block_tree, arms as arms_tree};
ghost use Rattle.parse_syntax.specs.Grammar.{builtin_of, post_of, chain_of, own_name, own_names, assign_of};
ghost use Rattle.parse_syntax.specs.Reading.{index_read, object_of, unary_of, no_inside, print_of, link_of, inside_of, arm_of, let_of, const_of, for_of};
ghost use Rattle.parse_statements.specs.Look.{ident};
ghost use Rattle.parse_syntax.specs.Tables.{tables_of};
ghost use Rattle.eval_tree.specs.Tree as tree;

use crate::look::{Ident, letters};
use eval_tree::{Arm, Block, Builtin, Expr, Link, Method, Name, Names, Op, PostStep, Stmt};
use js_units::{NoMemory, Units};
use parse_syntax::Tables;
use std::alloc::{AllocError, Global};

/// Adds an element; unchanged on refusal. Most lists of a tree have one: the first allocates room for itself alone.
pub(crate) fn add<T: Drop>(list: &mut Vec<T>, item: T) -> Result<(), NoMemory>
    ensures items { OnOk result (list.new.items ≡ list.old.items ++ item ∷ []) }
    ensures refused { OnErr result (list.new.items ≡ list.old.items) }
{
    if list.is_empty() {
        list.reserve_exact(1)?;
    }
    list.push(item)?;
    Ok(())
}

pub(crate) fn link(op: (u32, Op), right: Expr) -> Link
    ensures { link_tree result ≡ link_of (op.0, op.1) (expr_tree right) }
{
    Link {
        at: op.0,
        op: op.1,
        right,
    }
}

pub(crate) fn call(method: (u32, Method), args: Vec<Expr>) -> PostStep
    ensures { step_tree result ≡ tree.of_call method.0 method.1 (exprs_tree args.items) }
{
    PostStep::Call {
        at: method.0,
        method: method.1,
        args,
    }
}

pub(crate) fn index(at: u32, index: Expr) -> PostStep
    ensures { step_tree result ≡ index_read at (expr_tree index) }
{
    PostStep::Index { at, index }
}

pub(crate) fn builtin(called: (u32, Builtin), args: Vec<Expr>) -> Expr
    ensures { expr_tree result ≡ builtin_of called.0 (called.1, map expr_tree args.items) }
{
    Expr::Builtin {
        at: called.0,
        which: called.1,
        args,
    }
}

#[tactic(auto, using(eval_tree::proofs::Trees::tree_of_object))]
pub(crate) fn object(at: u32, members: Vec<(Units, Expr)>) -> Expr
    ensures { expr_tree result ≡ object_of at (map entry_tree members.items) }
{
    Expr::Object { at, members }
}

pub(crate) fn signed(alloc: Global, sign: (u32, bool), of: Expr) -> Result<Expr, AllocError>
    ensures { IfOk result (λ e. expr_tree e ≡ unary_of (sign.0, sign.1) (expr_tree of)) }
{
    Ok(Expr::Unary {
        at: sign.0,
        minus: sign.1,
        of: Box::new(alloc, of)?,
    })
}

#[tactic(auto, using(eval_tree::proofs::Trees::tree_of_conditional))]
pub(crate) fn conditional(
    alloc: Global,
    test: Expr,
    yes: Expr,
    no: Expr,
) -> Result<Expr, AllocError>
    ensures { IfOk result (λ e. expr_tree e
        ≡ tree.conditional (expr_tree test) (expr_tree yes) (expr_tree no)) }
{
    Ok(Expr::Cond {
        test: Box::new(alloc, test)?,
        yes: Box::new(alloc, yes)?,
        no: Box::new(alloc, no)?,
    })
}

/// Without a link it is the first operand.
#[tactic(auto, using(eval_tree::proofs::Trees::tree_of_chain))]
pub(crate) fn chain(alloc: Global, first: Expr, rest: Vec<Link>) -> Result<Expr, AllocError>
    ensures { IfOk result (λ e. expr_tree e ≡ chain_of (expr_tree first) (map link_tree rest.items)) }
{
    if rest.is_empty() {
        return Ok(first);
    }
    Ok(Expr::Chain {
        first: Box::new(alloc, first)?,
        rest,
    })
}

/// Without a step it is what precedes.
#[tactic(auto, using(eval_tree::proofs::Trees::tree_of_post))]
pub(crate) fn post(alloc: Global, of: Expr, steps: Vec<PostStep>) -> Result<Expr, AllocError>
    ensures { IfOk result (λ e. expr_tree e ≡ post_of (expr_tree of) (map step_tree steps.items)) }
{
    if steps.is_empty() {
        return Ok(of);
    }
    Ok(Expr::Post {
        of: Box::new(alloc, of)?,
        steps,
    })
}

pub(crate) fn let_line(
    alloc: Global,
    tables: &Tables,
    name: Ident,
    init: Option<Expr>,
) -> Result<Stmt, NoMemory>
    ensures { IfOk result (λ s. stmt_tree s
        ≡ let_of (tables_of tables.now) (ident name.at name.number) (init_tree init)) }
{
    Ok(Stmt::Let {
        at: name.at,
        name: letters(alloc, tables, name.number)?,
        init,
    })
}

pub(crate) fn const_line(
    alloc: Global,
    tables: &Tables,
    name: Ident,
    init: Expr,
) -> Result<Stmt, NoMemory>
    ensures { IfOk result (λ s. stmt_tree s
        ≡ const_of (tables_of tables.now) (ident name.at name.number) (expr_tree init)) }
{
    Ok(Stmt::Const {
        at: name.at,
        name: letters(alloc, tables, name.number)?,
        init,
    })
}

/// An assignment, or with the offset of a `+=` what appends.
pub(crate) fn assignment(
    alloc: Global,
    tables: &Tables,
    name: Ident,
    append: Option<u32>,
    value: Expr,
) -> Result<Stmt, NoMemory>
    ensures { IfOk result (λ s. stmt_tree s
        ≡ assign_of (tables_of tables.now) (ident name.at name.number) (append, expr_tree value)) }
{
    let letters = letters(alloc, tables, name.number)?;
    match append {
        None => Ok(Stmt::Assign {
            at: name.at,
            name: letters,
            value,
        }),
        Some(at) => Ok(Stmt::Append {
            at,
            name_at: name.at,
            name: letters,
            value,
        }),
    }
}

pub(crate) fn print(args: Vec<Expr>) -> Stmt
    ensures { stmt_tree result ≡ print_of (map expr_tree args.items) }
{
    Stmt::Print { args }
}

pub(crate) fn arm(test: Expr, body: Block) -> Arm
    ensures { arm_tree result ≡ arm_of (expr_tree test) (block_tree body) }
{
    Arm { test, body }
}

pub(crate) fn conditions(arms: Vec<Arm>, rest: Block) -> Stmt
    ensures { stmt_tree result ≡ tree.if_line (arms_tree (map arm_tree arms.items)) (block_tree rest) }
{
    Stmt::If { arms, rest }
}

pub(crate) fn for_line(
    alloc: Global,
    tables: &Tables,
    header: (Ident, u32),
    body: Block,
) -> Result<Stmt, NoMemory>
    ensures { IfOk result (λ s. stmt_tree s
        ≡ for_of (tables_of tables.now) (ident header.0.at header.0.number, header.1) (block_tree body)) }
{
    Ok(Stmt::For {
        name: letters(alloc, tables, header.0.number)?,
        bound: header.1,
        body,
    })
}

pub(crate) fn block_line(inner: Block) -> Stmt
    ensures { stmt_tree result ≡ tree.block (block_tree inner) }
{
    Stmt::Block { inner }
}

/// Where there is no `else`.
pub(crate) fn no_block(alloc: Global) -> Block
    ensures { block_tree result ≡ no_inside }
{
    Block {
        names: Names::new(alloc),
        body: Vec::new(alloc),
    }
}

// The name that the statement declares, if it declares one.
fn declares(stmt: &Stmt) -> Option<&Name>
    ensures { MatchOption result (own_name (stmt_tree stmt.now) ≡ [])
        (λ name. own_name (stmt_tree stmt.now) ≡ name.now ∷ []) }
{
    match stmt {
        Stmt::Let { name, .. } | Stmt::Const { name, .. } => Some(name),
        Stmt::Block { .. }
        | Stmt::Assign { .. }
        | Stmt::Append { .. }
        | Stmt::Print { .. }
        | Stmt::If { .. }
        | Stmt::For { .. } => None,
    }
}

fn add_declared(names: &mut Names, stmt: &Stmt) -> Result<(), NoMemory>
    ensures { OnOk result (names.new ≡ names.old ++ own_name (stmt_tree stmt.now)) }
{
    match declares(stmt) {
        Some(name) => names.push(name.copy()?),
        None => Ok(()),
    }
}

/// The names that are declared directly among the statements, in order.
pub fn declared(alloc: Global, body: &[Stmt]) -> Result<Names, NoMemory>
    ensures { IfOk result (λ names. names ≡ own_names (map stmt_tree body.now)) }
{
    let mut names = Names::new(alloc);
    for stmt in body {
        add_declared(&mut names, stmt)?;
    }
    Ok(names)
}

pub(crate) fn block(alloc: Global, body: Vec<Stmt>) -> Result<Block, NoMemory>
    ensures { IfOk result (λ b. block_tree b ≡ inside_of (map stmt_tree body.items)) }
{
    Ok(Block {
        names: declared(alloc, &body)?,
        body,
    })
}
