// Tokens of the grammar, with values from the language's own tables.
use crate::rows::{Table, check};
use js_lex::LexFault;
use parse_tokens::tokens;
use std::alloc::Global;
use std::test::Fail;

// How many identifiers and literals that are no keys a short text has, and its tokens.
fn listed(alloc: Global, text: &str) -> Result<String, LexFault> {
    if text.len() > 200 {
        return Err(LexFault::Memory);
    }
    let source = tokens(alloc, text.as_bytes())?;
    let mut list = String::new(alloc);
    if write!(list, "{} {}", source.names.len(), source.literals.len()).is_err() {
        return Err(LexFault::Memory);
    }
    for token in &source.tokens {
        let kind = &token.kind;
        if write!(list, " {} {} {kind:?}", token.at, token.after_line).is_err() {
            return Err(LexFault::Memory);
        }
    }
    Ok(list)
}

// Identifiers have numbers, a line end is in a comment before the `++`, only the first token is a directive,
// a string between `{` or `,` and `:` is a key, and a lexical fault comes first.
const TOKENS: &str = "i.at(n, i /*\r*/ ++) -> 3 0 0 false Name(0, Nothing) \
1 false Mark(Point) \
2 false Name(1, Method(At)) \
4 false Mark(OpenParen) \
5 false Name(2, Nothing) \
6 false Mark(Comma) \
8 false Name(0, Nothing) \
16 true Mark(Increment) \
18 false Mark(CloseParen)\n\
'use strict'; 'use strict' 'use\\x20strict' -> 0 2 0 false Directive \
12 false Mark(Semicolon) \
14 false Text { number: 0, is_key: false } 27 false Text { number: 1, is_key: false }\n\
'use\\x20strict' -> 0 1 0 false Text { number: 0, is_key: false }\n\
Let of async get breaks -> 5 0 0 false Name(0, Nothing) \
4 false Name(1, Nothing) 7 false Name(2, Nothing) \
13 false Name(3, Nothing) 17 false Name(4, Nothing)\n\
new undefined for new -> 3 0 0 false Word(Reserved, 0) \
4 false Word(Undefined, 1) 14 false Word(For, 2) \
18 false Word(Reserved, 0)\n\
{'a':'b','c' d ? 'e':'f' -> 1 4 0 false Mark(OpenBrace) \
1 false Text { number: 0, is_key: true } 4 false Mark(Colon) \
5 false Text { number: 0, is_key: false } 8 false Mark(Comma) \
9 false Text { number: 1, is_key: false } 13 false Name(0, Nothing) \
15 false Mark(Question) 17 false Text { number: 2, is_key: false } \
20 false Mark(Colon) 21 false Text { number: 3, is_key: false }\n\
var a = 1.5; -> Number(Fraction { at: 8 })";

struct Tokens;

impl Table for Tokens {
    fn told(alloc: Global, given: &str) -> Result<String, Fail> {
        match listed(alloc, given) {
            Ok(list) => Ok(list),
            Err(fault) => Ok(format!(in alloc; "{fault:?}")?),
        }
    }
}

#[test]
fn tokens_of_the_grammar(rt: HostRuntime) -> Result<(), Fail> {
    check::<Tokens>(&rt, rt.alloc(), TOKENS)
}
