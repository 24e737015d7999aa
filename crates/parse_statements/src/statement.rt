// From tokens to statements.
ghost use Rattle.std.specs.Prelude.{◌≡◌, ◌<◌, [], List, map, IfOk};
ghost use Rattle.parse_syntax.specs.Reader.{read_whole};
ghost use Rattle.parse_syntax.specs.Refused.{IsRefused};
ghost use Rattle.eval_tree.specs.Tree.{StmtTree, init_tree, stmt_tree, arm_tree, block_tree};
ghost use Rattle.parse_syntax.specs.Grammar.{Statements, most};
ghost use Rattle.parse_syntax.specs.Reading.{read_strict, read_statements};
ghost use Rattle.parse_statements.specs.At.{init_at, let_at, const_at, assign_at, print_at, statement_at, statements_at, block_at, arm_at, rest_at, if_at, for_at};
ghost use Rattle.parse_statements.specs.Gives.{GivesAnswer, OnFault, IsFoundOrMemory};
ghost use Rattle.parse_syntax.specs.Tables.{tables_of};

use crate::expr::{args, expression, parens};
use crate::fault::{Fault, refused, too_deep};
use crate::look::{Fixed, assign_op, behind, else_if, goes_on, header, name, next, take};
use crate::node::{
    add, arm, assignment, block, block_line, conditions, const_line, for_line, let_line, no_block,
    print,
};
use eval_tree::{Arm, Block, Expr, Stmt};
use js_lex::Mark;
use parse_syntax::{GrammarKind, GrammarToken, Tables, Word};
use std::alloc::Global;

// [ = Expr ]
#[tactic(auto, using(crate::proofs::Lines::init_none, crate::proofs::Lines::init_some))]
fn init<'a>(
    alloc: Global,
    tables: &Tables,
    tokens: &'a [GrammarToken],
    room: u32,
) -> Result<(Option<Expr>, &'a [GrammarToken]), Fault<'a>>
    ensures { GivesAnswer (λ found. init_tree found.0) (λ found. found.1.now) result
        (init_at (tables_of tables.now) room tokens.now) }
{
    match behind(tokens, Fixed::Assign) {
        None => Ok((None, tokens)),
        Some(rest) => {
            let (value, rest) = expression(alloc, tables, rest, room)?;
            Ok((Some(value), rest))
        }
    }
}

// let Name [ = Expr ] ;
#[tactic(auto, using(crate::proofs::Lines::let_is))]
fn declaration<'a>(
    alloc: Global,
    tables: &Tables,
    tokens: &'a [GrammarToken],
    room: u32,
) -> Result<(Stmt, &'a [GrammarToken]), Fault<'a>>
    ensures { GivesAnswer (λ found. stmt_tree found.0) (λ found. found.1.now) result
        (let_at (tables_of tables.now) room tokens.now) }
{
    let rest = take(tokens, Fixed::Let)?;
    let (name, rest) = name(rest)?;
    let (init, rest) = init(alloc, tables, rest, room)?;
    let rest = take(rest, Fixed::Semicolon)?;
    let line = let_line(alloc, tables, name, init)?;
    Ok((line, rest))
}

// const Name = Expr ;
#[tactic(auto, using(crate::proofs::Lines::const_is))]
fn constant<'a>(
    alloc: Global,
    tables: &Tables,
    tokens: &'a [GrammarToken],
    room: u32,
) -> Result<(Stmt, &'a [GrammarToken]), Fault<'a>>
    ensures { GivesAnswer (λ found. stmt_tree found.0) (λ found. found.1.now) result
        (const_at (tables_of tables.now) room tokens.now) }
{
    let rest = take(tokens, Fixed::Const)?;
    let (name, rest) = name(rest)?;
    let rest = take(rest, Fixed::Assign)?;
    let (init, rest) = expression(alloc, tables, rest, room)?;
    let rest = take(rest, Fixed::Semicolon)?;
    let line = const_line(alloc, tables, name, init)?;
    Ok((line, rest))
}

// Name = Expr ; | Name += Expr ;
#[tactic(auto, using(crate::proofs::Lines::assign_is))]
fn assign<'a>(
    alloc: Global,
    tables: &Tables,
    tokens: &'a [GrammarToken],
    room: u32,
) -> Result<(Stmt, &'a [GrammarToken]), Fault<'a>>
    ensures { GivesAnswer (λ found. stmt_tree found.0) (λ found. found.1.now) result
        (assign_at (tables_of tables.now) room tokens.now) }
{
    let (name, rest) = name(tokens)?;
    let (append, rest) = assign_op(rest)?;
    let (value, rest) = expression(alloc, tables, rest, room)?;
    let rest = take(rest, Fixed::Semicolon)?;
    let line = assignment(alloc, tables, name, append, value)?;
    Ok((line, rest))
}

// print Args ;
#[tactic(auto, using(crate::proofs::Lines::print_is))]
fn print_line<'a>(
    alloc: Global,
    tables: &Tables,
    tokens: &'a [GrammarToken],
    room: u32,
) -> Result<(Stmt, &'a [GrammarToken]), Fault<'a>>
    requires { 0 < room }
    ensures { GivesAnswer (λ found. stmt_tree found.0) (λ found. found.1.now) result
        (print_at (tables_of tables.now) room tokens.now) }
{
    let rest = take(tokens, Fixed::Print)?;
    let (args, rest) = args(alloc, tables, rest, room)?;
    let rest = take(rest, Fixed::Semicolon)?;
    Ok((print(args), rest))
}

// The statements up to the end of a block or of the tokens.
#[cycle(statements)]
fn list<'a>(
    alloc: Global,
    tables: &Tables,
    tokens: &'a [GrammarToken],
    prints: bool,
    room: u32,
) -> Result<(Vec<Stmt>, &'a [GrammarToken]), Fault<'a>>
    ensures { GivesAnswer (λ found. map stmt_tree found.0.items) (λ found. found.1.now) result
        (statements_at (tables_of tables.now) prints room tokens.now) }
{
    let mut items = Vec::new(alloc);
    let mut rest = tokens;
    while goes_on(rest) {
        let (item, after) = statement(alloc, tables, rest, prints, room)?;
        items.push(item)?;
        rest = after;
    }
    Ok((items, rest))
}

// { { Statement } }, where one more may be open
#[cycle(statements)]
#[tactic(auto, using(crate::proofs::Lines::block_is))]
fn inside<'a>(
    alloc: Global,
    tables: &Tables,
    tokens: &'a [GrammarToken],
    prints: bool,
    room: u32,
) -> Result<(Block, &'a [GrammarToken]), Fault<'a>>
    requires { 0 < room }
    ensures { GivesAnswer (λ found. block_tree found.0) (λ found. found.1.now) result
        (block_at (tables_of tables.now) prints room tokens.now) }
{
    let rest = take(tokens, Fixed::OpenBrace)?;
    let (body, rest) = list(alloc, tables, rest, prints, room - 1)?;
    let rest = take(rest, Fixed::CloseBrace)?;
    let block = block(alloc, body)?;
    Ok((block, rest))
}

// if ( Expr ) Block
#[cycle(statements)]
#[tactic(auto, using(crate::proofs::Lines::arm_is))]
fn condition<'a>(
    alloc: Global,
    tables: &Tables,
    tokens: &'a [GrammarToken],
    prints: bool,
    room: u32,
) -> Result<(Arm, &'a [GrammarToken]), Fault<'a>>
    requires { 0 < room }
    ensures { GivesAnswer (λ found. arm_tree found.0) (λ found. found.1.now) result
        (arm_at (tables_of tables.now) prints room tokens.now) }
{
    let rest = take(tokens, Fixed::If)?;
    let (test, rest) = parens(alloc, tables, rest, room)?;
    let (body, rest) = inside(alloc, tables, rest, prints, room)?;
    Ok((arm(test, body), rest))
}

// [ else Block ]
#[cycle(statements)]
#[tactic(auto, using(crate::proofs::Lines::rest_none, crate::proofs::Lines::rest_some))]
fn otherwise<'a>(
    alloc: Global,
    tables: &Tables,
    tokens: &'a [GrammarToken],
    prints: bool,
    room: u32,
) -> Result<(Block, &'a [GrammarToken]), Fault<'a>>
    requires { 0 < room }
    ensures { GivesAnswer (λ found. block_tree found.0) (λ found. found.1.now) result
        (rest_at (tables_of tables.now) prints room tokens.now) }
{
    match behind(tokens, Fixed::Else) {
        Some(rest) => inside(alloc, tables, rest, prints, room),
        None => Ok((no_block(alloc), tokens)),
    }
}

// if ( Expr ) Block { else if ( Expr ) Block } [ else Block ]
#[cycle(statements)]
#[tactic(auto, using(crate::proofs::Lines::if_is))]
fn if_statement<'a>(
    alloc: Global,
    tables: &Tables,
    tokens: &'a [GrammarToken],
    prints: bool,
    room: u32,
) -> Result<(Stmt, &'a [GrammarToken]), Fault<'a>>
    requires { 0 < room }
    ensures { GivesAnswer (λ found. stmt_tree found.0) (λ found. found.1.now) result
        (if_at (tables_of tables.now) prints room tokens.now) }
{
    let (first, mut rest) = condition(alloc, tables, tokens, prints, room)?;
    let mut arms = Vec::new(alloc);
    add(&mut arms, first)?;
    while let Some(after) = else_if(rest) {
        let (arm, after) = condition(alloc, tables, after, prints, room)?;
        add(&mut arms, arm)?;
        rest = after;
    }
    let (last, rest) = otherwise(alloc, tables, rest, prints, room)?;
    Ok((conditions(arms, last), rest))
}

// for ( let Name = 0 ; Name < Bound ; Name ++ ) Block
#[cycle(statements)]
#[tactic(auto, using(crate::proofs::Lines::for_is))]
fn for_statement<'a>(
    alloc: Global,
    tables: &Tables,
    tokens: &'a [GrammarToken],
    prints: bool,
    room: u32,
) -> Result<(Stmt, &'a [GrammarToken]), Fault<'a>>
    requires { 0 < room }
    ensures { GivesAnswer (λ found. stmt_tree found.0) (λ found. found.1.now) result
        (for_at (tables_of tables.now) prints room tokens.now) }
{
    let (header, rest) = header(tokens)?;
    let (body, rest) = inside(alloc, tables, rest, prints, room)?;
    let line = for_line(alloc, tables, header, body)?;
    Ok((line, rest))
}

#[cycle(statements)]
#[tactic(auto, using(crate::proofs::Lines::block_here, crate::proofs::Lines::let_here, crate::proofs::Lines::const_here, crate::proofs::Lines::name_here, crate::proofs::Lines::print_refused, crate::proofs::Lines::print_here, crate::proofs::Lines::if_here, crate::proofs::Lines::for_here, crate::proofs::Lines::block_deep, crate::proofs::Lines::print_deep, crate::proofs::Lines::if_deep, crate::proofs::Lines::for_deep, crate::proofs::Lines::nothing_here, crate::proofs::Lines::other_here))]
fn statement<'a>(
    alloc: Global,
    tables: &Tables,
    tokens: &'a [GrammarToken],
    prints: bool,
    room: u32,
) -> Result<(Stmt, &'a [GrammarToken]), Fault<'a>>
    ensures { GivesAnswer (λ found. stmt_tree found.0) (λ found. found.1.now) result
        (statement_at (tables_of tables.now) prints room tokens.now) }
{
    let Some((token, _)) = next(tokens) else {
        return Err(refused(tokens));
    };
    match token.kind {
        GrammarKind::Word(Word::Let, _) => declaration(alloc, tables, tokens, room),
        GrammarKind::Word(Word::Const, _) => constant(alloc, tables, tokens, room),
        GrammarKind::Name(..) => assign(alloc, tables, tokens, room),
        GrammarKind::Word(Word::Print, _) if !prints => Err(refused(tokens)),
        GrammarKind::Mark(Mark::OpenBrace) if room == 0 => Err(too_deep(tokens)),
        GrammarKind::Word(Word::Print, _) if room == 0 => Err(too_deep(tokens)),
        GrammarKind::Word(Word::If, _) if room == 0 => Err(too_deep(tokens)),
        GrammarKind::Word(Word::For, _) if room == 0 => Err(too_deep(tokens)),
        GrammarKind::Mark(Mark::OpenBrace) => {
            let (inner, rest) = inside(alloc, tables, tokens, prints, room)?;
            Ok((block_line(inner), rest))
        }
        GrammarKind::Word(Word::Print, _) => print_line(alloc, tables, tokens, room),
        GrammarKind::Word(Word::If, _) => if_statement(alloc, tables, tokens, prints, room),
        GrammarKind::Word(Word::For, _) => for_statement(alloc, tables, tokens, prints, room),
        _ => Err(refused(tokens)),
    }
}

// [ Directive ]
#[tactic(auto, using(crate::proofs::Lines::strict_none, crate::proofs::Lines::strict_some))]
fn strict(tokens: &[GrammarToken]) -> Result<&[GrammarToken], Fault<'_>>
    ensures { GivesAnswer (λ _. tt) (λ rest. rest.now) result (read_strict tokens.now) }
{
    match behind(tokens, Fixed::Directive) {
        Some(rest) => take(rest, Fixed::Semicolon),
        None => Ok(tokens),
    }
}

// [ Directive ] { Statement }, and nothing after it
#[tactic(auto, using(crate::proofs::Lines::whole_is))]
fn whole<'a>(
    alloc: Global,
    tables: &Tables,
    tokens: &'a [GrammarToken],
    prints: bool,
    room: u32,
) -> Result<Vec<Stmt>, Fault<'a>>
    ensures { GivesAnswer (λ body. map stmt_tree body.items) (λ _. []) result
        (read_whole (read_statements (tables_of tables.now) prints room) tokens.now) }
{
    let rest = strict(tokens)?;
    let (body, rest) = list(alloc, tables, rest, prints, room)?;
    match next(rest) {
        None => Ok(body),
        Some(_) => Err(refused(rest)),
    }
}

fn limit() -> u32
    ensures { result ≡ most }
{
    200
}

/// The statements that the tokens spell, with or without `print`, where the numbers of tokens are places in the tables.
pub fn statements<'a>(
    alloc: Global,
    tables: &Tables,
    tokens: &'a [GrammarToken],
    prints: bool,
) -> Result<Vec<Stmt>, Fault<'a>>
    ensures spells { IfOk result (λ body. Statements (tables_of tables.now) prints most tokens.now
        (map stmt_tree body.items)) }
    ensures found { (x : List StmtTree) → Statements (tables_of tables.now) prints most tokens.now x
        → IsFoundOrMemory (λ body. map stmt_tree body.items) result x }
    ensures refused { OnFault result (IsRefused (Statements (tables_of tables.now) prints) most tokens.now) }
{
    whole(alloc, tables, tokens, prints, limit())
}
