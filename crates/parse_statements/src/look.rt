// Looks at the next token: which identifiers and marks are there, and the tables behind them.
ghost use Rattle.std.specs.Prelude.{◌≡◌, [], ◌∷◌, ℕ, MatchOption, None, Some, IfOk, false, true, decimal, get_or};
ghost use Rattle.parse_syntax.specs.Reader.{Got, one_of, heads, heads_two};
ghost use Rattle.eval_tree.specs.Tree.{expr_tree, step_tree, of_property};
ghost use Rattle.parse_syntax.specs.Tables.{tables_of};
ghost use Rattle.parse_syntax.specs.MarksAndWords as named;
ghost use Rattle.parse_syntax.specs.Terminals as terminals;
ghost use Rattle.parse_syntax.specs.declared.token.GrammarToken.{GrammarToken};
ghost use Rattle.parse_syntax.specs.declared.token.GrammarKind.TheVariants as kind;
ghost use Rattle.parse_syntax.specs.Reading.{step_mark, goes_on, read_header};
ghost use Rattle.parse_statements.specs.Look.{terminal, operators, openers, read_string_called, read_symbol_called, read_json_called, read_object_called, read_called, ident};
ghost use Rattle.parse_statements.specs.Gives.{GivesAnswer};
ghost use Rattle.std.specs.Bool.{then_some};

use crate::fault::{Fault, refused};
use eval_tree::{Builtin, Expr, Method, Name, Op, PostStep};
use itoa::Buffer;
use js_lex::Mark;
use js_units::{NoMemory, Units};
use parse_syntax::{GrammarKind, GrammarToken, Property, Tables, Word};
use std::alloc::Global;

/// An identifier or mark that is nothing but itself.
#[derive(Clone, Copy, Debug, PartialEq, Eq)]
pub enum Fixed {
    OpenParen,
    CloseParen,
    CloseBracket,
    OpenBrace,
    CloseBrace,
    Comma,
    Point,
    Semicolon,
    Question,
    Colon,
    Less,
    Assign,
    /// `++` with no line end before it.
    Increment,
    /// The number 0.
    Nought,
    Directive,
    Let,
    Const,
    Print,
    If,
    Else,
    For,
}

/// A level of chains, the outermost first.
#[derive(Clone, Copy, Debug, PartialEq, Eq)]
pub enum Level {
    Or,
    And,
    Equal,
    Compare,
    Sum,
}

pub fn next(tokens: &[GrammarToken]) -> Option<(GrammarToken, &[GrammarToken])>
    ensures { MatchOption result (tokens.now ≡ []) (λ found. tokens.now ≡ found.0 ∷ found.1.now) }
{
    match tokens {
        [] => None,
        [first, rest @ ..] => Some((*first, rest)),
    }
}

fn is_mark(fixed: Fixed, mark: Mark, after_line: bool) -> bool
    ensures { (t : GrammarToken) → t.kind ≡ kind.Mark mark → t.after_line ≡ after_line
        → terminal fixed t ≡ then_some result tt }
{
    match (fixed, mark) {
        (Fixed::OpenParen, Mark::OpenParen) => true,
        (Fixed::CloseParen, Mark::CloseParen) => true,
        (Fixed::CloseBracket, Mark::CloseBracket) => true,
        (Fixed::OpenBrace, Mark::OpenBrace) => true,
        (Fixed::CloseBrace, Mark::CloseBrace) => true,
        (Fixed::Comma, Mark::Comma) => true,
        (Fixed::Point, Mark::Point) => true,
        (Fixed::Semicolon, Mark::Semicolon) => true,
        (Fixed::Question, Mark::Question) => true,
        (Fixed::Colon, Mark::Colon) => true,
        (Fixed::Less, Mark::Less) => true,
        (Fixed::Assign, Mark::Assign) => true,
        (Fixed::Increment, Mark::Increment) => !after_line,
        _ => false,
    }
}

fn is_word(fixed: Fixed, word: Word) -> bool
    ensures { (t : GrammarToken) (number : ℕ) → t.kind ≡ kind.Word word number
        → terminal fixed t ≡ then_some result tt }
{
    match (fixed, word) {
        (Fixed::Let, Word::Let) => true,
        (Fixed::Const, Word::Const) => true,
        (Fixed::Print, Word::Print) => true,
        (Fixed::If, Word::If) => true,
        (Fixed::Else, Word::Else) => true,
        (Fixed::For, Word::For) => true,
        _ => false,
    }
}

fn is(fixed: Fixed, token: GrammarToken) -> bool
    ensures { terminal fixed token ≡ then_some result tt }
{
    match token.kind {
        GrammarKind::Mark(mark) => is_mark(fixed, mark, token.after_line),
        GrammarKind::Word(word, _) => is_word(fixed, word),
        GrammarKind::Number(value) => matches!(fixed, Fixed::Nought) && value == 0,
        GrammarKind::Directive => matches!(fixed, Fixed::Directive),
        GrammarKind::Text { .. } | GrammarKind::Name(..) => false,
    }
}

/// The rest behind this token, which has to come next.
pub(crate) fn take(tokens: &[GrammarToken], fixed: Fixed) -> Result<&[GrammarToken], Fault<'_>>
    ensures { GivesAnswer (λ _. tt) (λ rest. rest.now) result (one_of (terminal fixed) tokens.now) }
{
    let Some((token, rest)) = next(tokens) else {
        return Err(refused(tokens));
    };
    if is(fixed, token) {
        Ok(rest)
    } else {
        Err(refused(tokens))
    }
}

/// The rest behind this token, where it comes next.
pub(crate) fn behind(tokens: &[GrammarToken], fixed: Fixed) -> Option<&[GrammarToken]>
    ensures { MatchOption result (heads (terminal fixed) tokens.now ≡ false)
        (λ rest. one_of (terminal fixed) tokens.now ≡ Got tt rest.now) }
{
    let (token, rest) = next(tokens)?;
    if is(fixed, token) { Some(rest) } else { None }
}

pub(crate) fn begins_step(tokens: &[GrammarToken]) -> bool
    ensures { result ≡ heads step_mark tokens.now }
{
    match next(tokens) {
        Some((token, _)) => matches!(
            token.kind,
            GrammarKind::Mark(Mark::Point | Mark::OpenBracket)
        ),
        None => false,
    }
}

/// A sign: its offset, and whether it is a minus.
pub(crate) fn sign(tokens: &[GrammarToken]) -> Option<((u32, bool), &[GrammarToken])>
    ensures { MatchOption result (heads named.sign tokens.now ≡ false)
        (λ found. one_of named.sign tokens.now ≡ Got (found.0.0, found.0.1) found.1.now) }
{
    let (token, rest) = next(tokens)?;
    match token.kind {
        GrammarKind::Mark(Mark::Minus) => Some(((token.at, true), rest)),
        GrammarKind::Mark(Mark::Not) => Some(((token.at, false), rest)),
        _ => None,
    }
}

fn op(level: Level, token: GrammarToken) -> Option<(u32, Op)>
    ensures { MatchOption result (operators level token ≡ None)
        (λ found. operators level token ≡ Some (found.0, found.1)) }
{
    let GrammarToken { at, kind, .. } = token;
    let GrammarKind::Mark(mark) = kind else {
        return None;
    };
    match (level, mark) {
        (Level::Or, Mark::Or) => Some((at, Op::Or)),
        (Level::And, Mark::And) => Some((at, Op::And)),
        (Level::Equal, Mark::StrictEqual) => Some((at, Op::Same)),
        (Level::Equal, Mark::StrictUnequal) => Some((at, Op::NotSame)),
        (Level::Compare, Mark::Less) => Some((at, Op::Less)),
        (Level::Compare, Mark::Greater) => Some((at, Op::Greater)),
        (Level::Compare, Mark::AtMost) => Some((at, Op::LessEq)),
        (Level::Compare, Mark::AtLeast) => Some((at, Op::GreaterEq)),
        (Level::Sum, Mark::Plus) => Some((at, Op::Plus)),
        (Level::Sum, Mark::Minus) => Some((at, Op::Minus)),
        _ => None,
    }
}

/// An operator of the level, with its offset.
pub(crate) fn operator(
    level: Level,
    tokens: &[GrammarToken],
) -> Option<((u32, Op), &[GrammarToken])>
    ensures { MatchOption result (heads (operators level) tokens.now ≡ false)
        (λ found. one_of (operators level) tokens.now ≡ Got (found.0.0, found.0.1) found.1.now) }
{
    let (token, rest) = next(tokens)?;
    match op(level, token) {
        Some(op) => Some((op, rest)),
        None => None,
    }
}

fn constant(word: Word) -> Option<Expr>
    ensures { MatchOption result (terminals.constant word ≡ None)
        (λ found. terminals.constant word ≡ Some (expr_tree found)) }
{
    match word {
        Word::Undefined => Some(Expr::Undefined),
        Word::Null => Some(Expr::Null),
        Word::True => Some(Expr::Bool { value: true }),
        Word::False => Some(Expr::Bool { value: false }),
        Word::NaN => Some(Expr::NaN),
        Word::Infinity => Some(Expr::Infinity),
        _ => None,
    }
}

/// A token that is an expression alone.
pub(crate) fn simple<'a>(
    alloc: Global,
    tables: &Tables,
    tokens: &'a [GrammarToken],
) -> Result<Option<(Expr, &'a [GrammarToken])>, NoMemory>
    ensures { IfOk result (λ found.
        MatchOption found (heads (terminals.simple (tables_of tables.now)) tokens.now ≡ false)
        (λ one. one_of (terminals.simple (tables_of tables.now)) tokens.now
        ≡ Got (expr_tree one.0) one.1.now)) }
{
    let Some((token, rest)) = next(tokens) else {
        return Ok(None);
    };
    match token.kind {
        GrammarKind::Text { number, .. } => Ok(Some((Expr::Literal { number }, rest))),
        GrammarKind::Number(value) => Ok(Some((Expr::Number { value }, rest))),
        GrammarKind::Name(number, _) => {
            let name = letters(alloc, tables, number)?;
            Ok(Some((Expr::Variable { name }, rest)))
        }
        GrammarKind::Word(word, _) => match constant(word) {
            Some(value) => Ok(Some((value, rest))),
            None => Ok(None),
        },
        GrammarKind::Directive | GrammarKind::Mark(_) => Ok(None),
    }
}

/// What a primary of several tokens begins with.
#[derive(Clone, Copy, Debug, PartialEq, Eq)]
pub enum Opener {
    Paren,
    Builtin,
    Literal,
}

pub(crate) fn next_opener(tokens: &[GrammarToken]) -> Option<Opener>
    ensures { result ≡ openers tokens.now }
{
    let (token, _) = next(tokens)?;
    match token.kind {
        GrammarKind::Mark(Mark::OpenParen) => Some(Opener::Paren),
        GrammarKind::Mark(Mark::OpenBrace) => Some(Opener::Literal),
        GrammarKind::Word(
            Word::String
            | Word::Symbol
            | Word::Json
            | Word::Object
            | Word::EncodeUri
            | Word::EncodeUriComponent
            | Word::DecodeUri
            | Word::DecodeUriComponent,
            _,
        ) => Some(Opener::Builtin),
        _ => None,
    }
}

/// The mark `[`: its offset.
pub(crate) fn open_bracket(tokens: &[GrammarToken]) -> Option<(u32, &[GrammarToken])>
    ensures { MatchOption result (heads named.open_bracket tokens.now ≡ false)
        (λ found. one_of named.open_bracket tokens.now ≡ Got found.0 found.1.now) }
{
    let (token, rest) = next(tokens)?;
    match token.kind {
        GrammarKind::Mark(Mark::OpenBracket) => Some((token.at, rest)),
        _ => None,
    }
}

/// `length` or `description`.
pub(crate) fn member(tokens: &[GrammarToken]) -> Option<(PostStep, &[GrammarToken])>
    ensures { MatchOption result (heads terminals.member_word tokens.now ≡ false)
        (λ found. one_of terminals.member_word tokens.now ≡ Got (step_tree found.0) found.1.now) }
{
    let (token, rest) = next(tokens)?;
    match token.kind {
        GrammarKind::Name(_, Property::Length) => Some((PostStep::Length, rest)),
        GrammarKind::Name(_, Property::Description) => Some((PostStep::Description, rest)),
        _ => None,
    }
}

fn string_function(tokens: &[GrammarToken]) -> Result<(Builtin, &[GrammarToken]), Fault<'_>>
    ensures { GivesAnswer (λ found. found.0) (λ found. found.1.now) result
        (one_of terminals.from_word tokens.now) }
{
    let Some((token, rest)) = next(tokens) else {
        return Err(refused(tokens));
    };
    match token.kind {
        GrammarKind::Name(_, Property::FromCharCode) => Ok((Builtin::FromCharCode, rest)),
        GrammarKind::Name(_, Property::FromCodePoint) => Ok((Builtin::FromCodePoint, rest)),
        _ => Err(refused(tokens)),
    }
}

fn symbol_function(tokens: &[GrammarToken]) -> Result<(Builtin, &[GrammarToken]), Fault<'_>>
    ensures { GivesAnswer (λ found. found.0) (λ found. found.1.now) result
        (one_of terminals.symbol_function tokens.now) }
{
    let Some((token, rest)) = next(tokens) else {
        return Err(refused(tokens));
    };
    match token.kind {
        GrammarKind::Word(Word::For, _) => Ok((Builtin::SymbolFor, rest)),
        GrammarKind::Name(_, Property::KeyFor) => Ok((Builtin::KeyFor, rest)),
        _ => Err(refused(tokens)),
    }
}

// String, and perhaps a point and a function of it.
fn string_called(tokens: &[GrammarToken]) -> Result<(Builtin, &[GrammarToken]), Fault<'_>>
    ensures { GivesAnswer (λ found. found.0) (λ found. found.1.now) result (read_string_called tokens.now) }
{
    match behind(tokens, Fixed::Point) {
        Some(rest) => string_function(rest),
        None => Ok((Builtin::String, tokens)),
    }
}

fn symbol_called(tokens: &[GrammarToken]) -> Result<(Builtin, &[GrammarToken]), Fault<'_>>
    ensures { GivesAnswer (λ found. found.0) (λ found. found.1.now) result (read_symbol_called tokens.now) }
{
    let rest = take(tokens, Fixed::Point)?;
    symbol_function(rest)
}

fn json_called(tokens: &[GrammarToken]) -> Result<(Builtin, &[GrammarToken]), Fault<'_>>
    ensures { GivesAnswer (λ found. found.0) (λ found. found.1.now) result (read_json_called tokens.now) }
{
    let rest = take(tokens, Fixed::Point)?;
    let Some((token, after)) = next(rest) else {
        return Err(refused(rest));
    };
    match token.kind {
        GrammarKind::Name(_, Property::Stringify) => Ok((Builtin::Stringify, after)),
        _ => Err(refused(rest)),
    }
}

fn object_called(tokens: &[GrammarToken]) -> Result<(Builtin, &[GrammarToken]), Fault<'_>>
    ensures { GivesAnswer (λ found. found.0) (λ found. found.1.now) result (read_object_called tokens.now) }
{
    let rest = take(tokens, Fixed::Point)?;
    let Some((token, after)) = next(rest) else {
        return Err(refused(rest));
    };
    match token.kind {
        GrammarKind::Name(_, Property::Keys) => Ok((Builtin::Keys, after)),
        _ => Err(refused(rest)),
    }
}

// A URI handling function.
fn uri_function(tokens: &[GrammarToken]) -> Result<((u32, Builtin), &[GrammarToken]), Fault<'_>>
    ensures { GivesAnswer (λ found. (found.0.0, found.0.1)) (λ found. found.1.now) result
        (one_of named.uri_function tokens.now) }
{
    let Some((token, rest)) = next(tokens) else {
        return Err(refused(tokens));
    };
    let GrammarToken { at, kind, .. } = token;
    match kind {
        GrammarKind::Word(Word::EncodeUri, _) => Ok(((at, Builtin::EncodeUri), rest)),
        GrammarKind::Word(Word::EncodeUriComponent, _) => {
            Ok(((at, Builtin::EncodeUriComponent), rest))
        }
        GrammarKind::Word(Word::DecodeUri, _) => Ok(((at, Builtin::DecodeUri), rest)),
        GrammarKind::Word(Word::DecodeUriComponent, _) => {
            Ok(((at, Builtin::DecodeUriComponent), rest))
        }
        _ => Err(refused(tokens)),
    }
}

/// The built-in function that is called, with the offset of its first identifier: `String`,
/// `String . fromCharCode`, `String . fromCodePoint`, `Symbol . for`, `Symbol . keyFor`, `JSON . stringify`,
/// `Object . keys`, or a URI handling function.
pub(crate) fn called(
    tokens: &[GrammarToken],
) -> Result<((u32, Builtin), &[GrammarToken]), Fault<'_>>
    ensures { GivesAnswer (λ found. (found.0.0, found.0.1)) (λ found. found.1.now) result
        (read_called tokens.now) }
{
    let Some((token, rest)) = next(tokens) else {
        return Err(refused(tokens));
    };
    match token.kind {
        GrammarKind::Word(Word::String, _) => {
            let (which, rest) = string_called(rest)?;
            Ok(((token.at, which), rest))
        }
        GrammarKind::Word(Word::Symbol, _) => {
            let (which, rest) = symbol_called(rest)?;
            Ok(((token.at, which), rest))
        }
        GrammarKind::Word(Word::Json, _) => {
            let (which, rest) = json_called(rest)?;
            Ok(((token.at, which), rest))
        }
        GrammarKind::Word(Word::Object, _) => {
            let (which, rest) = object_called(rest)?;
            Ok(((token.at, which), rest))
        }
        _ => uri_function(tokens),
    }
}

/// A name where it is: its offset, and the number of its letters.
#[derive(Clone, Copy, Debug, PartialEq, Eq)]
pub struct Ident {
    pub at: u32,
    pub number: u32,
}

/// A name, which has to come next.
pub(crate) fn name(tokens: &[GrammarToken]) -> Result<(Ident, &[GrammarToken]), Fault<'_>>
    ensures { GivesAnswer (λ found. ident found.0.at found.0.number) (λ found. found.1.now) result
        (one_of terminals.name tokens.now) }
{
    let Some((token, rest)) = next(tokens) else {
        return Err(refused(tokens));
    };
    match token.kind {
        GrammarKind::Name(number, _) => Ok((
            Ident {
                at: token.at,
                number,
            },
            rest,
        )),
        _ => Err(refused(tokens)),
    }
}

fn same_name(tokens: &[GrammarToken], name: Ident) -> Result<&[GrammarToken], Fault<'_>>
    ensures { GivesAnswer (λ _. tt) (λ rest. rest.now) result
        (one_of (terminals.the_name name.number) tokens.now) }
{
    let Some((token, rest)) = next(tokens) else {
        return Err(refused(tokens));
    };
    match token.kind {
        GrammarKind::Name(number, _) if number == name.number => Ok(rest),
        _ => Err(refused(tokens)),
    }
}

fn bound(tokens: &[GrammarToken]) -> Result<(u32, &[GrammarToken]), Fault<'_>>
    ensures { GivesAnswer (λ found. found.0) (λ found. found.1.now) result
        (one_of terminals.bound_number tokens.now) }
{
    let Some((token, rest)) = next(tokens) else {
        return Err(refused(tokens));
    };
    match token.kind {
        GrammarKind::Number(value) if value <= 1_000_000 => Ok((value as u32, rest)),
        _ => Err(refused(tokens)),
    }
}

/// `for ( let Name = 0 ; Name < Bound ; Name ++ )`
pub(crate) fn header(tokens: &[GrammarToken]) -> Result<((Ident, u32), &[GrammarToken]), Fault<'_>>
    ensures { GivesAnswer (λ found. (ident found.0.0.at found.0.0.number, found.0.1)) (λ found. found.1.now)
        result
        (read_header tokens.now) }
{
    let rest = take(tokens, Fixed::For)?;
    let rest = take(rest, Fixed::OpenParen)?;
    let rest = take(rest, Fixed::Let)?;
    let (name, rest) = name(rest)?;
    let rest = take(rest, Fixed::Assign)?;
    let rest = take(rest, Fixed::Nought)?;
    let rest = take(rest, Fixed::Semicolon)?;
    let rest = same_name(rest, name)?;
    let rest = take(rest, Fixed::Less)?;
    let (bound, rest) = bound(rest)?;
    let rest = take(rest, Fixed::Semicolon)?;
    let rest = same_name(rest, name)?;
    let rest = take(rest, Fixed::Increment)?;
    let rest = take(rest, Fixed::CloseParen)?;
    Ok(((name, bound), rest))
}

/// `=`, or the offset of a `+=`.
pub(crate) fn assign_op(
    tokens: &[GrammarToken],
) -> Result<(Option<u32>, &[GrammarToken]), Fault<'_>>
    ensures { GivesAnswer (λ found. found.0) (λ found. found.1.now) result
        (one_of terminals.assign_op tokens.now) }
{
    let Some((token, rest)) = next(tokens) else {
        return Err(refused(tokens));
    };
    match token.kind {
        GrammarKind::Mark(Mark::Assign) => Ok((None, rest)),
        GrammarKind::Mark(Mark::AddAssign) => Ok((Some(token.at), rest)),
        _ => Err(refused(tokens)),
    }
}

/// Whether statements go on: up to the end of a block or of the tokens.
pub(crate) fn goes_on(tokens: &[GrammarToken]) -> bool
    ensures { result ≡ goes_on tokens.now }
{
    match next(tokens) {
        Some((token, _)) => !matches!(token.kind, GrammarKind::Mark(Mark::CloseBrace)),
        None => false,
    }
}

/// The rest behind an `else` that an `if` follows.
pub(crate) fn else_if(tokens: &[GrammarToken]) -> Option<&[GrammarToken]>
    ensures { MatchOption result (heads_two named.else_word named.if_word tokens.now ≡ false)
        (λ rest. (one_of named.else_word tokens.now ≡ Got tt rest.now)
        × (heads_two named.else_word named.if_word tokens.now ≡ true)) }
{
    let rest = behind(tokens, Fixed::Else)?;
    let _ = behind(rest, Fixed::If)?;
    Some(rest)
}

/// The letters of a name by its number.
pub(crate) fn letters(alloc: Global, tables: &Tables, number: u32) -> Result<Name, NoMemory>
    ensures { IfOk result (λ name. name ≡ get_or (tables_of tables.now).names number []) }
{
    match tables.names.get(number as usize) {
        Some(name) => name.copy(),
        None => Ok(Name::new(Vec::new(alloc))),
    }
}

// The letters of an identifier by its number.
fn letters_of(tables: &Tables, number: u32) -> &[u8]
    ensures { result.now ≡ get_or (tables_of tables.now).names number [] }
{
    match tables.names.get(number as usize) {
        Some(name) => name.as_bytes(),
        None => &[],
    }
}

fn units_of(alloc: Global, letters: &[u8]) -> Result<Units, NoMemory>
    ensures { IfOk result (λ units. units ≡ letters.now) }
{
    let mut units = Units::new(alloc);
    units.extend_from_latin1(letters)?;
    Ok(units)
}

// The units of a string that is a key, by its number.
fn key_text(alloc: Global, tables: &Tables, number: u32) -> Result<Units, NoMemory>
    ensures { IfOk result (λ units. units ≡ get_or (tables_of tables.now).keys number []) }
{
    let mut units = Units::new(alloc);
    match tables.keys.get(number as usize) {
        Some(key) => {
            units.extend_from_slice(key.as_slice())?;
            Ok(units)
        }
        None => Ok(units),
    }
}

fn decimal_text(alloc: Global, value: u64) -> Result<Units, NoMemory>
    ensures { IfOk result (λ units. units ≡ decimal value) }
{
    let mut buffer = Buffer::new();
    units_of(alloc, buffer.format(value).as_bytes())
}

/// The key of a member of an object literal, which has to come next: an identifier, a string, or a number by its decimal digits.
pub(crate) fn key<'a>(
    alloc: Global,
    tables: &Tables,
    tokens: &'a [GrammarToken],
) -> Result<(Units, &'a [GrammarToken]), Fault<'a>>
    ensures { GivesAnswer (λ found. found.0) (λ found. found.1.now) result
        (one_of (terminals.key (tables_of tables.now)) tokens.now) }
{
    let Some((token, rest)) = next(tokens) else {
        return Err(refused(tokens));
    };
    match token.kind {
        GrammarKind::Text { number, .. } => Ok((key_text(alloc, tables, number)?, rest)),
        GrammarKind::Number(value) => Ok((decimal_text(alloc, value)?, rest)),
        GrammarKind::Name(number, _) => Ok((units_of(alloc, letters_of(tables, number))?, rest)),
        GrammarKind::Word(_, number) => Ok((units_of(alloc, letters_of(tables, number))?, rest)),
        GrammarKind::Directive => Err(refused(tokens)),
        GrammarKind::Mark(_) => Err(refused(tokens)),
    }
}

/// The read of the property of that name.
#[tactic(auto, using(eval_tree::proofs::Trees::tree_of_property))]
pub(crate) fn property(alloc: Global, at: u32, letters: &[u8]) -> Result<PostStep, NoMemory>
    ensures { IfOk result (λ step. step_tree step ≡ of_property at letters.now) }
{
    Ok(PostStep::Property {
        at,
        key: units_of(alloc, letters)?,
    })
}

/// An identifier other than `length`, `description` and the methods: the read of the property of that name.
pub(crate) fn property_word<'a>(
    alloc: Global,
    tables: &Tables,
    tokens: &'a [GrammarToken],
) -> Result<Option<(PostStep, &'a [GrammarToken])>, NoMemory>
    ensures { IfOk result (λ found.
        MatchOption found (heads (terminals.property_word (tables_of tables.now)) tokens.now ≡ false)
        (λ one. one_of (terminals.property_word (tables_of tables.now)) tokens.now
        ≡ Got (step_tree one.0) one.1.now)) }
{
    let Some((token, rest)) = next(tokens) else {
        return Ok(None);
    };
    match token.kind {
        GrammarKind::Name(_, Property::Length | Property::Description | Property::Method(_)) => {
            Ok(None)
        }
        GrammarKind::Name(number, _) => {
            let step = property(alloc, token.at, letters_of(tables, number))?;
            Ok(Some((step, rest)))
        }
        GrammarKind::Word(_, number) => {
            let step = property(alloc, token.at, letters_of(tables, number))?;
            Ok(Some((step, rest)))
        }
        GrammarKind::Directive => Ok(None),
        GrammarKind::Text { .. } => Ok(None),
        GrammarKind::Number(_) => Ok(None),
        GrammarKind::Mark(_) => Ok(None),
    }
}

/// A method with its offset and its letters.
pub(crate) fn method<'t, 'a>(
    tables: &'t Tables,
    tokens: &'a [GrammarToken],
) -> Option<((u32, Method, &'t [u8]), &'a [GrammarToken])>
    ensures { MatchOption result (heads (terminals.method (tables_of tables.now)) tokens.now ≡ false)
        (λ found. one_of (terminals.method (tables_of tables.now)) tokens.now
        ≡ Got ((found.0.0, found.0.1), found.0.2.now) found.1.now) }
{
    let (token, rest) = next(tokens)?;
    match token.kind {
        GrammarKind::Name(number, Property::Method(method)) => {
            let letters = letters_of(tables, number);
            Some(((token.at, method, letters), rest))
        }
        _ => None,
    }
}

/// The `{` of an object literal: its offset.
pub(crate) fn open_literal(tokens: &[GrammarToken]) -> Option<(u32, &[GrammarToken])>
    ensures { MatchOption result (heads named.open_literal tokens.now ≡ false)
        (λ found. one_of named.open_literal tokens.now ≡ Got found.0 found.1.now) }
{
    let (token, rest) = next(tokens)?;
    match token.kind {
        GrammarKind::Mark(Mark::OpenBrace) => Some((token.at, rest)),
        _ => None,
    }
}
