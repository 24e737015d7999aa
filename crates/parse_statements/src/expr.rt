// From tokens to the tree of an expression.
ghost use Rattle.std.specs.Prelude.{◌≡◌, ◌<◌, map};
ghost use Rattle.eval_tree.specs.Tree.{expr_tree, step_tree, entry_tree};
ghost use Rattle.parse_statements.specs.At.{args_at, parens_at, given_at, builtin_at, entry_at, members_at, literal_at, primary_at, member_at, step_at, post_at, unary_at, operand_at, chain_at, branches_at, expression_at};
ghost use Rattle.parse_statements.specs.Gives.{GivesAnswer};
ghost use Rattle.parse_syntax.specs.Tables.{tables_of};

use crate::fault::{Fault, refused, too_deep};
use crate::look::{
    Fixed, Level, Opener, begins_step, behind, called, key, member, method, next_opener,
    open_bracket, open_literal, operator, property, property_word, sign, simple, take,
};
use crate::node::{add, builtin, call, chain, conditional, index, link, object, post, signed};
use eval_tree::{Builtin, Expr, PostStep};
use js_units::Units;
use parse_syntax::{GrammarToken, Tables};
use std::alloc::Global;

/// `( [ Expr { , Expr } ] )`, where one more may be open.
#[cycle(expr)]
#[tactic(auto, using(crate::proofs::Rooms::inner_whole), unfolding(crate::specs::At::args_at))]
pub(crate) fn args<'a>(
    alloc: Global,
    tables: &Tables,
    tokens: &'a [GrammarToken],
    room: u32,
) -> Result<(Vec<Expr>, &'a [GrammarToken]), Fault<'a>>
    requires { 0 < room }
    ensures { GivesAnswer (λ found. map expr_tree found.0.items) (λ found. found.1.now) result
        (args_at (tables_of tables.now) room tokens.now) }
{
    let rest = take(tokens, Fixed::OpenParen)?;
    if let Some(after) = behind(rest, Fixed::CloseParen) {
        return Ok((Vec::new(alloc), after));
    }
    let (first, mut rest) = expression(alloc, tables, rest, room - 1)?;
    let mut items = Vec::new(alloc);
    add(&mut items, first)?;
    while let Some(after) = behind(rest, Fixed::Comma) {
        let (item, after) = expression(alloc, tables, after, room - 1)?;
        add(&mut items, item)?;
        rest = after;
    }
    let rest = take(rest, Fixed::CloseParen)?;
    Ok((items, rest))
}

/// `( Expr )`, where one more may be open.
#[cycle(expr)]
#[tactic(auto, using(crate::proofs::Rooms::parens_is))]
pub(crate) fn parens<'a>(
    alloc: Global,
    tables: &Tables,
    tokens: &'a [GrammarToken],
    room: u32,
) -> Result<(Expr, &'a [GrammarToken]), Fault<'a>>
    requires { 0 < room }
    ensures { GivesAnswer (λ found. expr_tree found.0) (λ found. found.1.now) result
        (parens_at (tables_of tables.now) room tokens.now) }
{
    let rest = take(tokens, Fixed::OpenParen)?;
    let (inside, rest) = expression(alloc, tables, rest, room - 1)?;
    let rest = take(rest, Fixed::CloseParen)?;
    Ok((inside, rest))
}

// The arguments of a built-in function. JSON.stringify has one.
#[cycle(expr)]
#[tactic(auto, using(crate::proofs::Rooms::given_one, crate::proofs::Rooms::given_args))]
fn given<'a>(
    alloc: Global,
    tables: &Tables,
    tokens: &'a [GrammarToken],
    room: u32,
    which: Builtin,
) -> Result<(Vec<Expr>, &'a [GrammarToken]), Fault<'a>>
    requires { 0 < room }
    ensures { GivesAnswer (λ found. map expr_tree found.0.items) (λ found. found.1.now) result
        (given_at (tables_of tables.now) room which tokens.now) }
{
    if which != Builtin::Stringify {
        return args(alloc, tables, tokens, room);
    }
    let (argument, rest) = parens(alloc, tables, tokens, room)?;
    let mut args = Vec::new(alloc);
    add(&mut args, argument)?;
    Ok((args, rest))
}

// String Args | String . fromCharCode Args | String . fromCodePoint Args
// | Symbol . for Args | Symbol . keyFor Args | JSON . stringify ( Expr )
// | encodeURI Args | encodeURIComponent Args | decodeURI Args | decodeURIComponent Args | Object . keys Args
#[cycle(expr)]
#[tactic(auto, using(crate::proofs::Rooms::builtin_is))]
fn builtin_call<'a>(
    alloc: Global,
    tables: &Tables,
    tokens: &'a [GrammarToken],
    room: u32,
) -> Result<(Expr, &'a [GrammarToken]), Fault<'a>>
    requires { 0 < room }
    ensures { GivesAnswer (λ found. expr_tree found.0) (λ found. found.1.now) result
        (builtin_at (tables_of tables.now) room tokens.now) }
{
    let (called, rest) = called(tokens)?;
    let (args, rest) = given(alloc, tables, rest, room, called.1)?;
    Ok((builtin(called, args), rest))
}

// Key : Expr
#[cycle(expr)]
#[tactic(auto, using(crate::proofs::Rooms::entry_is))]
fn entry<'a>(
    alloc: Global,
    tables: &Tables,
    tokens: &'a [GrammarToken],
    room: u32,
) -> Result<((Units, Expr), &'a [GrammarToken]), Fault<'a>>
    requires { 0 < room }
    ensures { GivesAnswer (λ found. entry_tree found.0) (λ found. found.1.now) result
        (entry_at (tables_of tables.now) room tokens.now) }
{
    let (key, rest) = key(alloc, tables, tokens)?;
    let rest = take(rest, Fixed::Colon)?;
    let (value, rest) = expression(alloc, tables, rest, room - 1)?;
    Ok(((key, value), rest))
}

// [ Key : Expr { , Key : Expr } ] }
#[cycle(expr)]
#[tactic(auto, using(crate::proofs::Members::members_none, crate::proofs::Members::first_fails))]
fn members<'a>(
    alloc: Global,
    tables: &Tables,
    tokens: &'a [GrammarToken],
    room: u32,
) -> Result<(Vec<(Units, Expr)>, &'a [GrammarToken]), Fault<'a>>
    requires { 0 < room }
    ensures { GivesAnswer (λ found. map entry_tree found.0.items) (λ found. found.1.now) result
        (members_at (tables_of tables.now) room tokens.now) }
{
    if let Some(after) = behind(tokens, Fixed::CloseBrace) {
        return Ok((Vec::new(alloc), after));
    }
    let (first, mut rest) = entry(alloc, tables, tokens, room)?;
    let mut items = Vec::new(alloc);
    add(&mut items, first)?;
    while let Some(after) = behind(rest, Fixed::Comma) {
        let (item, after) = entry(alloc, tables, after, room)?;
        add(&mut items, item)?;
        rest = after;
    }
    let rest = take(rest, Fixed::CloseBrace)?;
    Ok((items, rest))
}

// { [ Key : Expr { , Key : Expr } ] }
#[cycle(expr)]
#[tactic(auto, using(crate::proofs::Rooms::literal_is))]
fn object_literal<'a>(
    alloc: Global,
    tables: &Tables,
    tokens: &'a [GrammarToken],
    room: u32,
) -> Result<(Expr, &'a [GrammarToken]), Fault<'a>>
    requires { 0 < room }
    ensures { GivesAnswer (λ found. expr_tree found.0) (λ found. found.1.now) result
        (literal_at (tables_of tables.now) room tokens.now) }
{
    let Some((at, rest)) = open_literal(tokens) else {
        return Err(refused(tokens));
    };
    let (members, rest) = members(alloc, tables, rest, room)?;
    Ok((object(at, members), rest))
}

// Text | Number | Name | a constant | ( Expr ) | a call of a built-in function | an object literal
#[cycle(expr)]
#[tactic(auto, using(crate::proofs::Rooms::primary_simple, crate::proofs::Rooms::primary_none, crate::proofs::Rooms::primary_deep, crate::proofs::Rooms::primary_paren, crate::proofs::Rooms::primary_builtin, crate::proofs::Rooms::primary_literal))]
fn primary<'a>(
    alloc: Global,
    tables: &Tables,
    tokens: &'a [GrammarToken],
    room: u32,
) -> Result<(Expr, &'a [GrammarToken]), Fault<'a>>
    ensures { GivesAnswer (λ found. expr_tree found.0) (λ found. found.1.now) result
        (primary_at (tables_of tables.now) room tokens.now) }
{
    if let Some(found) = simple(alloc, tables, tokens)? {
        return Ok(found);
    }
    let Some(opener) = next_opener(tokens) else {
        return Err(refused(tokens));
    };
    if room == 0 {
        return Err(too_deep(tokens));
    }
    match opener {
        Opener::Paren => parens(alloc, tables, tokens, room),
        Opener::Builtin => builtin_call(alloc, tables, tokens, room),
        Opener::Literal => object_literal(alloc, tables, tokens, room),
    }
}

// length | description | Method Args | Property
#[cycle(expr)]
#[tactic(auto, using(crate::proofs::Rooms::member_plain, crate::proofs::Rooms::member_property, crate::proofs::Rooms::member_none, crate::proofs::Rooms::member_bare, crate::proofs::Rooms::member_deep))]
fn behind_point<'a>(
    alloc: Global,
    tables: &Tables,
    tokens: &'a [GrammarToken],
    room: u32,
) -> Result<(PostStep, &'a [GrammarToken]), Fault<'a>>
    ensures { GivesAnswer (λ found. step_tree found.0) (λ found. found.1.now) result
        (member_at (tables_of tables.now) room tokens.now) }
{
    if let Some(found) = member(tokens) {
        return Ok(found);
    }
    if let Some(found) = property_word(alloc, tables, tokens)? {
        return Ok(found);
    }
    let Some(((at, method, letters), rest)) = method(tables, tokens) else {
        return Err(refused(tokens));
    };
    let Some(_) = behind(rest, Fixed::OpenParen) else {
        let step = property(alloc, at, letters)?;
        return Ok((step, rest));
    };
    if room == 0 {
        return Err(too_deep(rest));
    }
    let (args, rest) = args(alloc, tables, rest, room)?;
    Ok((call((at, method), args), rest))
}

// . Member | . Method Args | . Property | [ Expr ]
#[cycle(expr)]
#[tactic(auto, using(crate::proofs::Rooms::step_member, crate::proofs::Rooms::step_deep, crate::proofs::Rooms::step_index))]
fn step<'a>(
    alloc: Global,
    tables: &Tables,
    tokens: &'a [GrammarToken],
    room: u32,
) -> Result<(PostStep, &'a [GrammarToken]), Fault<'a>>
    ensures { GivesAnswer (λ found. step_tree found.0) (λ found. found.1.now) result
        (step_at (tables_of tables.now) room tokens.now) }
{
    let Some((at, rest)) = open_bracket(tokens) else {
        let rest = take(tokens, Fixed::Point)?;
        return behind_point(alloc, tables, rest, room);
    };
    if room == 0 {
        return Err(too_deep(tokens));
    }
    let (inside, rest) = expression(alloc, tables, rest, room - 1)?;
    let rest = take(rest, Fixed::CloseBracket)?;
    Ok((index(at, inside), rest))
}

// Primary { Step }
#[cycle(expr)]
fn postfix<'a>(
    alloc: Global,
    tables: &Tables,
    tokens: &'a [GrammarToken],
    room: u32,
) -> Result<(Expr, &'a [GrammarToken]), Fault<'a>>
    ensures { GivesAnswer (λ found. expr_tree found.0) (λ found. found.1.now) result
        (post_at (tables_of tables.now) room tokens.now) }
{
    let (of, mut rest) = primary(alloc, tables, tokens, room)?;
    let mut steps = Vec::new(alloc);
    while begins_step(rest) {
        let (step, after) = step(alloc, tables, rest, room)?;
        add(&mut steps, step)?;
        rest = after;
    }
    let tree = post(alloc, of, steps)?;
    Ok((tree, rest))
}

// ( - | ! ) Unary | Post
#[cycle(expr)]
#[tactic(auto, using(crate::proofs::Rooms::unary_plain, crate::proofs::Rooms::unary_deep, crate::proofs::Rooms::unary_signed))]
fn unary<'a>(
    alloc: Global,
    tables: &Tables,
    tokens: &'a [GrammarToken],
    room: u32,
) -> Result<(Expr, &'a [GrammarToken]), Fault<'a>>
    ensures { GivesAnswer (λ found. expr_tree found.0) (λ found. found.1.now) result
        (unary_at (tables_of tables.now) room tokens.now) }
{
    let Some((sign, rest)) = sign(tokens) else {
        return postfix(alloc, tables, tokens, room);
    };
    if room == 0 {
        return Err(too_deep(tokens));
    }
    let (of, rest) = unary(alloc, tables, rest, room - 1)?;
    let tree = signed(alloc, sign, of)?;
    Ok((tree, rest))
}

// What the chain of a level is made of.
#[cycle(expr)]
#[tactic(auto, unfolding(crate::specs::At::operand_at, crate::specs::At::chain_at, crate::specs::At::unary_at))]
fn operand<'a>(
    alloc: Global,
    tables: &Tables,
    tokens: &'a [GrammarToken],
    room: u32,
    level: Level,
) -> Result<(Expr, &'a [GrammarToken]), Fault<'a>>
    ensures { GivesAnswer (λ found. expr_tree found.0) (λ found. found.1.now) result
        (operand_at (tables_of tables.now) room level tokens.now) }
{
    match level {
        Level::Or => chained(alloc, tables, tokens, room, Level::And),
        Level::And => chained(alloc, tables, tokens, room, Level::Equal),
        Level::Equal => chained(alloc, tables, tokens, room, Level::Compare),
        Level::Compare => chained(alloc, tables, tokens, room, Level::Sum),
        Level::Sum => unary(alloc, tables, tokens, room),
    }
}

// Operand { operator Operand }
#[cycle(expr)]
fn chained<'a>(
    alloc: Global,
    tables: &Tables,
    tokens: &'a [GrammarToken],
    room: u32,
    level: Level,
) -> Result<(Expr, &'a [GrammarToken]), Fault<'a>>
    ensures { GivesAnswer (λ found. expr_tree found.0) (λ found. found.1.now) result
        (chain_at (tables_of tables.now) room level tokens.now) }
{
    let (first, mut rest) = operand(alloc, tables, tokens, room, level)?;
    let mut links = Vec::new(alloc);
    while let Some((op, after)) = operator(level, rest) {
        let (right, after) = operand(alloc, tables, after, room, level)?;
        add(&mut links, link(op, right))?;
        rest = after;
    }
    let tree = chain(alloc, first, links)?;
    Ok((tree, rest))
}

// [ ? Expr : Expr ], behind a test
#[cycle(expr)]
#[tactic(auto, using(crate::proofs::Rooms::branches_none, crate::proofs::Rooms::branches_deep, crate::proofs::Rooms::branches_some))]
fn branches<'a>(
    alloc: Global,
    tables: &Tables,
    test: Expr,
    tokens: &'a [GrammarToken],
    room: u32,
) -> Result<(Expr, &'a [GrammarToken]), Fault<'a>>
    ensures { GivesAnswer (λ found. expr_tree found.0) (λ found. found.1.now) result
        (branches_at (tables_of tables.now) room (expr_tree test) tokens.now) }
{
    let Some(rest) = behind(tokens, Fixed::Question) else {
        return Ok((test, tokens));
    };
    if room == 0 {
        return Err(too_deep(tokens));
    }
    let (yes, rest) = expression(alloc, tables, rest, room - 1)?;
    let rest = take(rest, Fixed::Colon)?;
    let (no, rest) = expression(alloc, tables, rest, room - 1)?;
    let tree = conditional(alloc, test, yes, no)?;
    Ok((tree, rest))
}

/// `Or [ ? Expr : Expr ]`
#[cycle(expr)]
#[tactic(auto, using(crate::proofs::Rooms::expression_is))]
pub(crate) fn expression<'a>(
    alloc: Global,
    tables: &Tables,
    tokens: &'a [GrammarToken],
    room: u32,
) -> Result<(Expr, &'a [GrammarToken]), Fault<'a>>
    ensures { GivesAnswer (λ found. expr_tree found.0) (λ found. found.1.now) result
        (expression_at (tables_of tables.now) room tokens.now) }
{
    let (test, rest) = chained(alloc, tables, tokens, room, Level::Or)?;
    branches(alloc, tables, test, rest, room)
}
