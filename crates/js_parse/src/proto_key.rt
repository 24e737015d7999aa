// Keys of object literals that are `__proto__`.
ghost use Rattle.std.specs.Prelude.{◌≡◌, [], codes, get_or, None, bytes_eq};
ghost use Rattle.parse_syntax.specs.Tables.{tables_of};
ghost use Rattle.js_lex.specs.declared.token.Mark.TheVariants.{Colon};
ghost use Rattle.parse_syntax.specs.Terminals.{is_mark};
ghost use Rattle.js_parse.specs.NameFaults.{offers, opens_entry, proto_behind, proto_faults};
ghost use Rattle.js_parse.specs.NameWalk.{found_of};
ghost use Rattle.js_parse.specs.ProtoKeys as definition;

use crate::name_fault::{NameFault, offer};
use js_lex::Mark;
use parse_statements::next;
use parse_syntax::{GrammarKind, GrammarToken, Tables};

fn opens_entry(token: GrammarToken) -> bool
    ensures { result ≡ opens_entry token }
{
    matches!(token.kind, GrammarKind::Mark(Mark::OpenBrace | Mark::Comma))
}

fn is_colon(token: GrammarToken) -> bool
    ensures { result ≡ is_mark Colon token }
{
    matches!(token.kind, GrammarKind::Mark(Mark::Colon))
}

fn is_proto_word(tables: &Tables, number: u32) -> bool
    ensures { result ≡ bytes_eq (get_or (tables_of tables.now).names number []) (codes "__proto__") }
{
    match tables.names.get(number as usize) {
        Some(name) => name.as_bytes() == b"__proto__".as_slice(),
        None => false,
    }
}

fn is_proto_text(tables: &Tables, number: u32) -> bool
    ensures { result ≡ bytes_eq (get_or (tables_of tables.now).keys number []) (codes "__proto__") }
{
    match tables.keys.get(number as usize) {
        Some(key) => key.as_slice() == [95u16, 95, 112, 114, 111, 116, 111, 95, 95].as_slice(),
        None => false,
    }
}

// Whether the key is `__proto__`.
fn is_proto(tables: &Tables, key: GrammarToken) -> bool
    ensures { result ≡ definition.is_proto (tables_of tables.now) key }
{
    match key.kind {
        GrammarKind::Text { number, .. } => is_proto_text(tables, number),
        GrammarKind::Name(number, _) => is_proto_word(tables, number),
        GrammarKind::Word(_, number) => is_proto_word(tables, number),
        GrammarKind::Number(_) | GrammarKind::Directive | GrammarKind::Mark(_) => false,
    }
}

// The first of a fault and that of the key behind a token, where one is there.
fn behind(
    tables: &Tables,
    token: GrammarToken,
    rest: &[GrammarToken],
    first: Option<NameFault>,
) -> Option<NameFault>
    ensures { found_of result ≡ offers (found_of first) (proto_behind (tables_of tables.now) token rest.now) }
{
    if !opens_entry(token) {
        return first;
    }
    let Some((key, rest)) = next(rest) else {
        return first;
    };
    let Some((colon, _)) = next(rest) else {
        return first;
    };
    if !is_colon(colon) {
        return first;
    }
    if !is_proto(tables, key) {
        return first;
    }
    offer(first, NameFault::ProtoKey { at: key.at })
}

/// The first key of an object literal that is `__proto__`, if there is one.
pub(crate) fn first_proto_key(tables: &Tables, tokens: &[GrammarToken]) -> Option<NameFault>
    ensures { found_of result ≡ offers None (proto_faults (tables_of tables.now) tokens.now) }
{
    let mut first = None;
    let mut rest = tokens;
    while let Some((token, after)) = next(rest) {
        first = behind(tables, token, after, first);
        rest = after;
    }
    first
}
