// Tokens of short scripts with their spans, by the tables of the lexical grammar.
use crate::rows::{Table, bytes_of, check, parted};
use js_lex::{LexFault, Token, TokenKind, next_token, source_text, tokens};
use std::alloc::Global;
use std::fmt;
use std::test::Fail;

// A token, shown by its kind and span.
#[derive(Clone, Copy)]
struct Shown<'a>(&'a Token);

impl fmt::Display for Shown<'_> {
    fn fmt<W: fmt::Write>(&self, f: &mut fmt::Formatter<W>) -> fmt::Result {
        let token = self.0;
        match &token.kind {
            TokenKind::Word => write!(f, "word"),
            TokenKind::Text(units) => write!(f, "{:?}", units.as_slice()),
            TokenKind::Number(value) => write!(f, "{value}"),
            TokenKind::Mark(mark) => write!(f, "{mark:?}"),
        }?;
        write!(f, " {} {}; ", token.from, token.to)
    }
}

// The tokens of a short text, each with its span.
fn listed(alloc: Global, bytes: &[u8]) -> Result<String, LexFault> {
    if bytes.len() > 200 {
        return Err(LexFault::Memory);
    }
    let mut list = String::new(alloc);
    for token in &tokens(alloc, bytes)? {
        if write!(list, "{}", Shown(token)).is_err() {
            return Err(LexFault::Memory);
        }
    }
    Ok(list)
}

// What is reported of a text, or of its fault.
fn told_of(alloc: Global, found: Result<String, LexFault>) -> Result<String, Fail> {
    match found {
        Ok(told) => Ok(told),
        Err(fault) => Ok(format!(in alloc; "{fault:?}")?),
    }
}

// Texts, or their bytes behind `#`, and their tokens. Identifiers are as long as possible, and of marks the
// longest counts. Each blank is there, of which a byte order mark is one; comments with each line
// end, both forms at the end of the file; 2028 in a string, and the end of a line behind a backslash.
const TOKENS: &str = r#" -> 
print('a'); -> word 0 5; OpenParen 5 6; [97] 6 9; CloseParen 9 10; Semicolon 10 11; 
$_aZ09 _ a-b -> word 0 6; word 7 8; word 9 10; Minus 10 11; word 11 12; 
a'b'c -> word 0 1; [98] 1 4; word 4 5; 
===!== -> StrictEqual 0 3; StrictUnequal 3 6; 
====!= -> StrictEqual 0 3; Assign 3 4; Not 4 5; Assign 5 6; 
<=>=&&|| -> AtMost 0 2; AtLeast 2 4; And 4 6; Or 6 8; 
+=+++-- -> AddAssign 0 2; Increment 2 4; Plus 4 5; Decrement 5 7; 
a --b -> word 0 1; Decrement 2 4; word 4 5; 
- -<<== -> Minus 0 1; Minus 2 3; Less 3 4; AtMost 4 6; Assign 6 7; 
{}()[] -> OpenBrace 0 1; CloseBrace 1 2; OpenParen 2 3; CloseParen 3 4; OpenBracket 4 5; CloseBracket 5 6; 
.;,<>+ -> Point 0 1; Semicolon 1 2; Comma 2 3; Less 3 4; Greater 4 5; Plus 5 6; 
-!?:= -> Minus 0 1; Not 1 2; Question 2 3; Colon 3 4; Assign 4 5; 
0,9007199254740991 -> 0 0 1; Comma 1 2; 9007199254740991 2 18; 
x[1].at -> word 0 1; OpenBracket 1 2; 1 2 3; CloseBracket 3 4; Point 4 5; word 5 7; 
#ef bb bf 61 09 0b 0c 0a 0d 20 c2 a0 62 -> word 3 4; word 12 13; 
#e1 9a 80 e2 80 80 e2 80 81 e2 80 82 e2 80 83 e2 80 84 e2 80 85 61 -> word 21 22; 
#e2 80 86 e2 80 87 e2 80 88 e2 80 89 e2 80 8a e2 80 a8 e2 80 a9 62 -> word 21 22; 
#e2 80 af e2 81 9f e3 80 80 63 -> word 9 10; 
#2f 2f 61 0a 62 2f 2f 61 0d 63 2f 2f 61 e2 80 a8 64 2f 2f 61 e2 80 a9 65 2f 2f 66 -> word 4 5; word 9 10; word 16 17; word 23 24; 
#2f 2a 2a 2f 61 2f 2a 0a 2a 20 2f 20 2f 2f 2a 2f 62 2f 2a 2a 2a 2f -> word 4 5; word 16 17; 
/* ' */'/*'//' -> [47, 42] 7 11; 
#27 e2 80 a8 61 5c 0d 0a 62 27 20 27 63 27 -> [8232, 97, 98] 0 10; [99] 11 14; "#;

struct Tokens;

impl Table for Tokens {
    fn told(alloc: Global, given: &str) -> Result<String, Fail> {
        let bytes = bytes_of(alloc, given)?;
        told_of(alloc, listed(alloc, bytes.as_slice()))
    }
}

#[test]
fn tokens_and_spans(rt: HostRuntime) -> Result<(), Fail> {
    check::<Tokens>(&rt, rt.alloc(), TOKENS)
}

// What comes next from a place on.
fn next(alloc: Global, bytes: &[u8], at: u32) -> Result<String, LexFault> {
    if bytes.len() > 200 {
        return Err(LexFault::Memory);
    }
    let text = source_text(bytes)?;
    let mut told = String::new(alloc);
    if !text.is_char_boundary(at as usize) {
        return Ok(told);
    }
    let written = match next_token(alloc, text, at)? {
        Some(token) => write!(told, "{}", Shown(&token)),
        None => write!(told, "end"),
    };
    match written {
        Ok(()) => Ok(told),
        Err(_) => Err(LexFault::Memory),
    }
}

// A place and a text, and what comes next: from within an identifier; behind blanks and both comments,
// and not behind a token; a fault behind the token is of no matter yet; nothing between two characters.
const NEXT: &str = r#"0  -> end
0 #20 09 2f 2f 20 61 -> end
0 print ( 'a' ) ; -> word 0 5; 
5 print ( 'a' ) ; -> OpenParen 6 7; 
7 print ( 'a' ) ; -> [97] 8 11; 
15 print ( 'a' ) ; -> end
2 print -> word 2 5; 
0 #c2 a0 2f 2a 61 2a 2f 20 2f 2f 62 0a e2 80 a8 63 20 64 -> word 15 16; 
1 a /* b */ c -> word 10 11; 
0 a # -> word 0 1; 
1 #c2 a0 61 -> 
1 a # -> BadCharacter { at: 2 }
1 a/**/ /* -> OpenComment { at: 6 }
0 #61 ff -> NotUtf8 { at: 1 }"#;

struct NextTokens;

impl Table for NextTokens {
    fn told(alloc: Global, given: &str) -> Result<String, Fail> {
        let (at, text) = parted(given, " ")?;
        let bytes = bytes_of(alloc, text)?;
        told_of(alloc, next(alloc, bytes.as_slice(), at.parse::<u32>()?))
    }
}

#[test]
fn token_by_token(rt: HostRuntime) -> Result<(), Fail> {
    check::<NextTokens>(&rt, rt.alloc(), NEXT)
}
