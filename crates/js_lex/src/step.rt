// One step of the lexer: what is at a place, and the place behind it.
ghost use Rattle.std.specs.Prelude.{◌≡◌, ◌<◌, ◌≤◌, ◌^◌, ◌⊎◌, ◌∷◌, length, IfOk, IfErr};
ghost use Rattle.std.specs.Str.{chars, IsCharBoundary};
ghost use Rattle.js_literal.specs.Place.{StandsAt};
ghost use Rattle.js_literal.specs.Literal.{BeginsString};
ghost use Rattle.js_lex.specs.Tokens.{ElementAt};
ghost use Rattle.js_lex.specs.Steps;
ghost use Rattle.js_literal.specs.Number.{BeginsNumber};
ghost use Rattle.js_lex.specs.Steps.{IsElement};
ghost use Rattle.js_lex.specs.declared.token.LexFault.TheVariants.{Memory};
ghost use Rattle.js_lex.specs.declared.token.LexFault.{LexFault};

use crate::front::{Front, look_ahead};
use crate::token::{LexFault, TokenKind};
use js_literal::{LiteralFault, byte_len, read_number, read_string};
use std::alloc::Global;

/// The end, what separates tokens, or a token, with the place behind it.
#[derive(Drop)]
pub enum Next {
    End,
    Skip(u32),
    Token(TokenKind, u32),
}

/// The text from a place on.
fn from(text: &str, at: u32) -> &str
    requires { IsCharBoundary text.now at }
    ensures { StandsAt text.now at (chars result.now) }
{
    &text[at as usize..]
}

/// The fault of a literal; out of memory is the lexer's own.
fn lex_fault(fault: LiteralFault) -> LexFault
    ensures { result ≡ Steps.lex_fault fault }
{
    match fault {
        LiteralFault::Memory => LexFault::Memory,
        fault => LexFault::Literal(fault),
    }
}

/// The string literal at a place.
fn string(alloc: Global, text: &str, at: u32) -> Result<Next, LexFault>
    requires size { length text.now < 2 ^ 32 }
    requires quote { BeginsString text.now at }
    ensures { IsElement text.now at result }
{
    match read_string(alloc, text, at) {
        Ok((units, end)) => Ok(Next::Token(TokenKind::Text(units), end)),
        Err(fault) => Err(lex_fault(fault)),
    }
}

/// The number literal at a place.
fn number(text: &str, at: u32) -> Result<Next, LexFault>
    requires size { length text.now < 2 ^ 32 }
    requires number { BeginsNumber text.now at }
    ensures { IsElement text.now at result }
{
    match read_number(text, at) {
        Ok((value, end)) => Ok(Next::Token(TokenKind::Number(value), end)),
        Err(fault) => Err(LexFault::Number(fault)),
    }
}

/// What is at a place.
pub fn step(alloc: Global, text: &str, at: u32) -> Result<Next, LexFault>
    requires size { length text.now < 2 ^ 32 }
    requires cut { IsCharBoundary text.now at }
    ensures { IsElement text.now at result }
{
    let rest = from(text, at);
    match look_ahead(rest) {
        Front::End => Ok(Next::End),
        Front::Skip(after) => Ok(Next::Skip((text.len() - byte_len(after)) as u32)),
        Front::Word(after) => Ok(Next::Token(
            TokenKind::Word,
            (text.len() - byte_len(after)) as u32,
        )),
        Front::Mark(mark, after) => Ok(Next::Token(
            TokenKind::Mark(mark),
            (text.len() - byte_len(after)) as u32,
        )),
        Front::Quote => string(alloc, text, at),
        Front::Number => number(text, at),
        Front::Open => Err(LexFault::OpenComment { at }),
        Front::Bad => Err(LexFault::BadCharacter { at }),
    }
}
