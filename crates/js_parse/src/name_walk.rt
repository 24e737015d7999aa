// The walk over the statements of a script.
ghost use Rattle.std.specs.Prelude.{◌≡◌, true, IfOk, OnOk, map};
ghost use Rattle.eval_tree.specs.Tree.{tree_of, stmt_tree, stmts_tree, block_tree, arm_tree, arms as arms_tree};
ghost use Rattle.js_parse.specs.NameFaults.{offers, assigned_at, again_at, declared_again, with_own, marked, faults_in, faults_inside, faults_in_arms, faults_among, faults_of};
ghost use Rattle.js_parse.specs.NameWalk.{has, found_of, Walks};

use crate::name_fault::{NameFault, offer};
use crate::name_set::NameSet;
use eval_tree::{Arm, Block, Name, Names, Script, Stmt};
use js_units::NoMemory;
use std::alloc::Global;

// A name that is assigned, where `loops` has those that mean the name of a `for`.
fn assigned(
    loops: &NameSet<'_>,
    name: &Name,
    at: u32,
    first: Option<NameFault>,
) -> Option<NameFault>
    ensures { found_of result ≡ offers (found_of first) (assigned_at (has loops.now name.now) at) }
{
    if loops.has(name.as_bytes()) {
        offer(first, NameFault::LoopName { at })
    } else {
        first
    }
}

// A name that is declared behind others in its block.
fn declared<'a>(
    before: &mut NameSet<'a>,
    name: &'a Name,
    at: u32,
    first: Option<NameFault>,
) -> Result<Option<NameFault>, NoMemory>
    ensures before { OnOk result (has before.new ≡ marked true name.now (has before.old)) }
    ensures found { IfOk result (λ found. found_of found
        ≡ offers (found_of first) (again_at (has before.old name.now) at)) }
{
    if before.insert(name.as_bytes())? {
        Ok(first)
    } else {
        Ok(offer(first, NameFault::Duplicate { at }))
    }
}

// A statement that may declare a name behind others in its block.
fn declaration<'a>(
    before: &mut NameSet<'a>,
    s: &'a Stmt,
    first: Option<NameFault>,
) -> Result<Option<NameFault>, NoMemory>
    ensures before { OnOk result (has before.new ≡ with_own (stmt_tree s.now) (has before.old)) }
    ensures found { IfOk result (λ found. found_of found
        ≡ offers (found_of first) (declared_again (stmt_tree s.now) (has before.old))) }
{
    match s {
        Stmt::Let { at, name, .. } => declared(before, name, *at, first),
        Stmt::Const { at, name, .. } => declared(before, name, *at, first),
        Stmt::Block { .. }
        | Stmt::Assign { .. }
        | Stmt::Append { .. }
        | Stmt::Print { .. }
        | Stmt::If { .. }
        | Stmt::For { .. } => Ok(first),
    }
}

#[cycle(names)]
fn statement<'a>(
    alloc: Global,
    loops: &mut NameSet<'a>,
    s: &'a Stmt,
    first: Option<NameFault>,
) -> Result<Option<NameFault>, NoMemory>
    ensures { IfOk result (Walks (has loops.old) (has loops.new) first
        (faults_in (stmt_tree s.now) (has loops.old))) }
{
    match s {
        Stmt::Block { inner } => block(alloc, loops, inner, first),
        Stmt::Assign { at, name, .. } => Ok(assigned(loops, name, *at, first)),
        Stmt::Append { name_at, name, .. } => Ok(assigned(loops, name, *name_at, first)),
        Stmt::If { arms: list, rest } => {
            let first = arms(alloc, loops, list, first)?;
            block(alloc, loops, rest, first)
        }
        Stmt::For { name, body, .. } => turns(alloc, loops, name, body, first),
        Stmt::Let { .. } | Stmt::Const { .. } | Stmt::Print { .. } => Ok(first),
    }
}

// The body of a `for`, within a scope of its own for its name.
#[cycle(names)]
fn turns<'a>(
    alloc: Global,
    loops: &mut NameSet<'a>,
    name: &'a Name,
    body: &'a Block,
    first: Option<NameFault>,
) -> Result<Option<NameFault>, NoMemory>
    ensures { IfOk result (Walks (has loops.old) (has loops.new) first
        (faults_inside (block_tree body.now) (marked true name.now (has loops.old)))) }
{
    let new = loops.insert(name.as_bytes())?;
    let first = block(alloc, loops, body, first)?;
    loops.leave(name.as_bytes(), new);
    Ok(first)
}

// A block hides the names of loops that it declares.
#[cycle(names)]
fn block<'a>(
    alloc: Global,
    loops: &mut NameSet<'a>,
    b: &'a Block,
    first: Option<NameFault>,
) -> Result<Option<NameFault>, NoMemory>
    ensures { IfOk result (Walks (has loops.old) (has loops.new) first
        (faults_inside (block_tree b.now) (has loops.old))) }
{
    let hidden = loops.hide(alloc, b.names.as_slice())?;
    let first = among(alloc, loops, NameSet::new(alloc), &b.body, first)?;
    loops.show(&hidden)?;
    Ok(first)
}

#[cycle(names)]
fn arms<'a>(
    alloc: Global,
    loops: &mut NameSet<'a>,
    list: &'a [Arm],
    first: Option<NameFault>,
) -> Result<Option<NameFault>, NoMemory>
    ensures { IfOk result (Walks (has loops.old) (has loops.new) first
        (faults_in_arms (arms_tree (map arm_tree list.now)) (has loops.old))) }
{
    let mut first = first;
    for arm in list {
        first = block(alloc, loops, &arm.body, first)?;
    }
    Ok(first)
}

// The statements of a block, behind others that declared the names `before`.
#[cycle(names)]
fn among<'a>(
    alloc: Global,
    loops: &mut NameSet<'a>,
    before: NameSet<'a>,
    body: &'a [Stmt],
    first: Option<NameFault>,
) -> Result<Option<NameFault>, NoMemory>
    ensures { IfOk result (Walks (has loops.old) (has loops.new) first
        (faults_among (stmts_tree body.now) (has loops.old) (has before.entry))) }
{
    let mut before = before;
    let mut first = first;
    for s in body {
        first = declaration(&mut before, s, first)?;
        first = statement(alloc, loops, s, first)?;
    }
    Ok(first)
}

/// The first of a fault and those of the names of a script, after a prelude that declares the `outer` names.
///
/// Its time grows with the number of names times its logarithm, however they are nested.
pub fn first_fault(
    alloc: Global,
    outer: &Names,
    script: &Script,
    first: Option<NameFault>,
) -> Result<Option<NameFault>, NoMemory>
    ensures { IfOk result (λ found. found_of found
        ≡ offers (found_of first) (faults_of outer.now (tree_of script.now))) }
{
    let mut before = NameSet::new(alloc);
    before.insert_all(outer.as_slice())?;
    let mut loops = NameSet::new(alloc);
    among(alloc, &mut loops, before, &script.body, first)
}
