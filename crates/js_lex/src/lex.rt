// The tokens of a script.
ghost use Rattle.std.specs.Prelude.{◌≡◌, ◌≤◌, ◌⊎◌, List, length, IfOk, IfErr, ◌++◌, ℕ, ◌+◌, ◌<◌, ◌^◌, IfSome, slice_index_or, encode_utf8_all, IsUtf8, Result, Err, Option};
ghost use Rattle.std.specs.List.{All};
ghost use Rattle.js_literal.specs.Place.{StandsAt};
ghost use Rattle.js_lex.specs.Spans.{InOrder, HasItsText, IsWithin, slice};
ghost use Rattle.std.specs.Str.{IsCharBoundary};
ghost use Rattle.js_lex.specs.Tokens.{TokensOf, LexFaultOf, Lexes, FailsFrom};
ghost use Rattle.js_lex.specs.Next.{GivesToken, GoesOn};
ghost use Rattle.js_lex.specs.declared.token.LexFault.{LexFault};
ghost use Rattle.js_lex.specs.declared.token.LexFault.TheVariants.{Memory};
ghost use Rattle.js_lex.specs.declared.token.Token.{Token};

use crate::step::{Next, step};
use crate::token::{LexFault, Token};
use std::alloc::Global;

/// The bytes as a text. They are one where they are well-formed UTF-8.
pub fn source_text(bytes: &[u8]) -> Result<&str, LexFault>
    requires size { length bytes.now < 2 ^ 32 }
    ensures text { IfOk result (λ text. (text.now ≡ bytes.now) × IsUtf8 bytes.now) }
    ensures fault { IfErr result (λ e. (IsUtf8 bytes.now → ⊥) × LexFaultOf bytes.now e) }
{
    match std::str::from_utf8(bytes) {
        Ok(text) => Ok(text),
        Err(error) => Err(LexFault::NotUtf8 {
            at: error.valid_up_to() as u32,
        }),
    }
}

/// The first token from a place on; `None` where only blanks and comments are left. The token
/// behind it is the first from its `to` on. A fault is reported only where no token precedes it.
pub fn next_token(alloc: Global, text: &str, at: u32) -> Result<Option<Token>, LexFault>
    requires size { length text.now < 2 ^ 32 }
    requires cut { IsCharBoundary text.now at }
    ensures given { GivesToken text.now at result }
    ensures goes_on { IfOk result (λ found. IfSome found (λ t. GoesOn text.now at t)) }
    ensures fault { IfErr result (λ e. (e ≡ Memory) ⊎ FailsFrom text.now at e) }
{
    let mut from = at;
    'separators: loop {
        match step(alloc, text, from) {
            Ok(Next::End) => return Ok(None),
            Ok(Next::Skip(end)) => from = end,
            Ok(Next::Token(kind, to)) => return Ok(Some(Token { kind, from, to })),
            Err(fault) => return Err(fault),
        }
    }
}

/// The tokens of a text.
fn scan(alloc: Global, text: &str) -> Result<Vec<Token>, LexFault>
    requires { length text.now ≤ 1048576 }
    ensures ok { IfOk result (λ v. Lexes text.now 0 v.items) }
    ensures err { IfErr result (λ e. (e ≡ Memory) ⊎ FailsFrom text.now 0 e) }
{
    let mut tokens = Vec::new(alloc);
    let mut at: u32 = 0;
    'tokens: loop {
        match next_token(alloc, text, at) {
            Ok(Some(token)) => {
                at = token.to;
                if tokens.push(token).is_err() {
                    return Err(LexFault::Memory);
                }
            }
            Ok(None) => return Ok(tokens),
            Err(fault) => return Err(fault),
        }
    }
}

/// What `tokens` answers, against the relations alone.
fn read(alloc: Global, bytes: &[u8]) -> Result<Vec<Token>, LexFault>
    requires { length bytes.now ≤ 1048576 }
    ensures ok { IfOk result (λ v. TokensOf bytes.now v.items) }
    ensures err { IfErr result (λ e. (e ≡ Memory) ⊎ LexFaultOf bytes.now e) }
{
    match source_text(bytes) {
        Ok(text) => scan(alloc, text),
        Err(fault) => Err(fault),
    }
}

/// The tokens of a script's bytes, in order. A fault is the first one: bytes that aren't UTF-8
/// come before all, then the first fault from the left.
pub fn tokens(alloc: Global, bytes: &[u8]) -> Result<Vec<Token>, LexFault>
    requires { length bytes.now ≤ 1048576 }
    ensures ok { IfOk result (λ v. TokensOf bytes.now v.items) }
    ensures err { IfErr result (λ e. (e ≡ Memory) ⊎ LexFaultOf bytes.now e) }
    ensures found { (ts : List Token) → TokensOf bytes.now ts
        → IfOk result (λ v. v.items ≡ ts) × IfErr result (λ e. e ≡ Memory) }
    ensures faults { (f : LexFault) → LexFaultOf bytes.now f
        → IfOk result (λ v. ⊥) × IfErr result (λ e. (e ≡ f) ⊎ (e ≡ Memory)) }
    ensures spans { IfOk result (λ v. InOrder bytes.now 0 v.items) }
    ensures within { IfOk result (λ v. All (IsWithin bytes.now) v.items) }
    ensures texts { IfOk result (λ v. All (HasItsText bytes.now) v.items) }
{
    read(alloc, bytes)
}

/// Bytes have one list of tokens or one fault, and not both.
pub fn one_answer()
    ensures one_list { (bytes : List ℕ) (ts us : List Token) → TokensOf bytes ts → TokensOf bytes us
        → ts ≡ us }
    ensures one_fault { (bytes : List ℕ) (f e : LexFault) → LexFaultOf bytes f → LexFaultOf bytes e → f ≡ e }
    ensures not_both { (bytes : List ℕ) (ts : List Token) (f : LexFault) → TokensOf bytes ts
        → LexFaultOf bytes f → ⊥ }
    ensures some_answer { (bytes : List ℕ) → ((ts : List Token) × TokensOf bytes ts)
        ⊎ ((f : LexFault) × LexFaultOf bytes f) }
{}

/// From a place on, one thing comes next: two answers are the same, unless one is out of memory.
pub fn one_next()
    ensures { (text : List ℕ) (at : ℕ) (r s : Result (Option Token) LexFault) → IsUtf8 text
        → GivesToken text at r → GivesToken text at s → (r ≡ s) ⊎ ((r ≡ Err Memory) ⊎ (s ≡ Err Memory)) }
{}

/// The spans of a text's tokens lie in order, each with a byte at least, within the text.
pub fn spans_in_order()
    ensures order { (bytes : List ℕ) (ts : List Token) → TokensOf bytes ts → InOrder bytes 0 ts }
    ensures within { (bytes : List ℕ) (ts : List Token) → TokensOf bytes ts → All (IsWithin bytes) ts }
    ensures next { (bytes : List ℕ) (ts : List Token) (i : ℕ) (d : Token) → TokensOf bytes ts
        → i + 1 < length ts → (slice_index_or ts i d).to ≤ (slice_index_or ts (i + 1) d).from }
{}

/// Each token's text is its slice of the bytes: an identifier's letters, a mark's spelling where no longer
/// mark is there, and a literal from its first byte up to the byte behind it.
pub fn token_text()
    ensures { (bytes : List ℕ) (ts : List Token) → TokensOf bytes ts → All (HasItsText bytes) ts }
{}

/// The bytes between two places are the UTF-8 of the characters between them.
pub fn span_text()
    ensures { (text : List ℕ) (a b : ℕ) (w rest : List ℕ) → IsUtf8 text → StandsAt text a (w ++ rest)
        → StandsAt text b rest → slice text a b ≡ encode_utf8_all w }
{}
