// From bytes to the tokens of the grammar.
ghost use Rattle.std.specs.Prelude.{◌≡◌, ◌≤◌, ◌<◌, ◌⊎◌, ◌∷◌, ◌++◌, [], List, ℕ, length, IfOk, IfErr, OnOk, false, if◌then◌else◌};
ghost use Rattle.std.specs.Str.{IsCharBoundary};
ghost use Rattle.js_lex.specs.Elements.{is_line_end};
ghost use Rattle.js_lex.specs.Tokens.{LexFaultOf, FailsFrom, Lexes};
ghost use Rattle.js_lex.specs.declared.token.Token.{Token as Lexed};
ghost use Rattle.js_lex.specs.declared.token.LexFault.{LexFault};
ghost use Rattle.js_lex.specs.declared.token.LexFault.TheVariants.{Memory};
ghost use Rattle.parse_tokens.specs.Tokens as definition;
ghost use Rattle.parse_tokens.specs.Tokens.{HasTokens, place_in, with_name, begins_colon, grammar_token, before_next};
ghost use Rattle.parse_tokens.specs.Words as words;
ghost use Rattle.parse_syntax.specs.declared.token.GrammarToken.{GrammarToken};
ghost use Rattle.parse_tokens.specs.Steps.{Agrees, IsScriptTokens, ScannedTo, TellsKey, before_of, has_line_end, is_colon};

use crate::numbers::Numbers;
use crate::word::{property_named, word_named};
use eval_tree::Name;
use js_lex::{LexFault, Mark, TokenKind};
use js_units::{NoMemory, Units, split_char};
use parse_syntax::{GrammarKind, GrammarToken};
use std::alloc::Global;

/// The tokens of a script's bytes; the units of its string literals that are no keys of members, in order,
/// without the directive; its identifiers, each once, and the units of literals that are keys, in order.
#[derive(Drop)]
pub struct ScriptTokens {
    pub tokens: Vec<GrammarToken>,
    pub literals: Vec<Units>,
    pub names: Vec<Name>,
    pub keys: Vec<Units>,
}

// Whether it is LF, CR, U+2028 or U+2029.
fn is_line_end(c: char) -> bool
    ensures { result ≡ is_line_end c }
{
    matches!(c, '\n' | '\r' | '\u{2028}' | '\u{2029}')
}

// Whether a line end is in the text.
fn any_line_end(text: &str) -> bool
    ensures { result ≡ has_line_end text.now }
{
    let mut text = text;
    while let Some((c, rest)) = split_char(text) {
        if is_line_end(c) {
            return true;
        }
        text = rest;
    }
    false
}

// The number of an identifier, which is put into the table where it isn't in it.
fn number_of(
    alloc: Global,
    numbers: &mut Numbers,
    names: &mut Vec<Name>,
    letters: &[u8],
) -> Result<u32, NoMemory>
    requires few { length names.old.items ≤ 1_048_576 }
    requires agrees { Agrees numbers.old names.old.items }
    ensures number { IfOk result (λ number. number ≡ place_in names.old.items letters.now) }
    ensures names { OnOk result (names.new.items ≡ with_name names.old.items letters.now) }
    ensures agrees { OnOk result (Agrees numbers.new names.new.items) }
{
    match numbers.get(letters) {
        Some(number) => Ok(number),
        None => {
            let number = names.len() as u32;
            numbers.insert(alloc, letters, number)?;
            names.push(Name::new(Vec::from_slice(alloc, letters)?))?;
            Ok(number)
        }
    }
}

// What an identifier is.
fn word_kind(
    alloc: Global,
    numbers: &mut Numbers,
    names: &mut Vec<Name>,
    letters: &[u8],
) -> Result<GrammarKind, NoMemory>
    requires few { length names.old.items ≤ 1_048_576 }
    requires agrees { Agrees numbers.old names.old.items }
    ensures kind { IfOk result (λ kind. kind
        ≡ definition.word_kind (words.word_meant letters.now) names.old.items letters.now) }
    ensures names { OnOk result (names.new.items
        ≡ with_name names.old.items letters.now) }
    ensures agrees { OnOk result (Agrees numbers.new names.new.items) }
{
    let number = number_of(alloc, numbers, names, letters)?;
    match word_named(letters) {
        Some(word) => Ok(GrammarKind::Word(word, number)),
        None => Ok(GrammarKind::Name(number, property_named(letters))),
    }
}

// Whether the source is the directive's.
fn is_use_strict(source: &[u8]) -> bool
    ensures { result ≡ definition.is_use_strict source.now }
{
    if source == b"'use strict'".as_slice() {
        true
    } else if source == b"\"use strict\"".as_slice() {
        true
    } else {
        false
    }
}

// What a string is that is no key. Its units are put behind the others where it isn't the directive.
fn text_kind(
    first: bool,
    literals: &mut Vec<Units>,
    source: &[u8],
    units: Units,
) -> Result<GrammarKind, NoMemory>
    requires few { length literals.old.items ≤ 1_048_576 }
    ensures kind { IfOk result (λ kind. kind
        ≡ definition.string_kind false first literals.old.items [] source.now) }
    ensures literals { OnOk result (literals.new.items
        ≡ definition.texts_with false first literals.old.items source.now units) }
{
    if first {
        if is_use_strict(source) {
            return Ok(GrammarKind::Directive);
        }
    }
    let number = literals.len() as u32;
    literals.push(units)?;
    Ok(GrammarKind::Text {
        number,
        is_key: false,
    })
}

// What a string is. Its units are put behind those of the other keys where it is one.
fn string_kind(
    key: bool,
    first: bool,
    literals: &mut Vec<Units>,
    keys: &mut Vec<Units>,
    source: &[u8],
    units: Units,
) -> Result<GrammarKind, NoMemory>
    requires few { length literals.old.items ≤ 1_048_576 }
    requires few_keys { length keys.old.items ≤ 1_048_576 }
    ensures kind { IfOk result (λ kind. kind
        ≡ definition.string_kind key first literals.old.items keys.old.items source.now) }
    ensures literals { OnOk result (literals.new.items
        ≡ definition.texts_with key first literals.old.items source.now units) }
    ensures keys { OnOk result (keys.new.items
        ≡ (if key then keys.old.items ++ units ∷ [] else keys.old.items)) }
{
    if key {
        let number = keys.len() as u32;
        keys.push(units)?;
        return Ok(GrammarKind::Text {
            number,
            is_key: true,
        });
    }
    text_kind(first, literals, source, units)
}

// What the token of this source behind those that were read is.
fn next_kind(
    alloc: Global,
    script: &mut ScriptTokens,
    numbers: &mut Numbers,
    source: &[u8],
    kind: TokenKind,
    key: bool,
) -> Result<GrammarKind, NoMemory>
    requires texts { length script.old.literals.items ≤ 1_048_576 }
    requires names { length script.old.names.items ≤ 1_048_576 }
    requires keys { length script.old.keys.items ≤ 1_048_576 }
    requires agrees { Agrees numbers.old script.old.names.items }
    ensures tokens { OnOk result (script.new.tokens ≡ script.old.tokens) }
    ensures kind { IfOk result (λ found. found
        ≡ definition.grammar_kind_of (before_of script.old 0) source.now key kind) }
    ensures literals { OnOk result (script.new.literals.items
        ≡ definition.literals_after key (before_of script.old 0) source.now kind) }
    ensures keys { OnOk result (script.new.keys.items
        ≡ definition.keys_after key (before_of script.old 0) kind) }
    ensures names { OnOk result (script.new.names.items
        ≡ definition.table_after (before_of script.old 0) source.now kind) }
    ensures agrees { OnOk result (Agrees numbers.new script.new.names.items) }
{
    match kind {
        TokenKind::Word => word_kind(alloc, numbers, &mut script.names, source),
        TokenKind::Text(units) => string_kind(
            key,
            script.tokens.is_empty(),
            &mut script.literals,
            &mut script.keys,
            source,
            units,
        ),
        TokenKind::Number(value) => Ok(GrammarKind::Number(value)),
        TokenKind::Mark(mark) => Ok(GrammarKind::Mark(mark)),
    }
}

// Puts the token of the grammar behind those that were read, the last of which ended at a place.
fn add(
    alloc: Global,
    script: &mut ScriptTokens,
    numbers: &mut Numbers,
    text: &str,
    end: u32,
    token: js_lex::Token,
    key: bool,
) -> Result<(), NoMemory>
    requires literals { length script.old.literals.items ≤ 1_048_576 }
    requires names { length script.old.names.items ≤ 1_048_576 }
    requires keys { length script.old.keys.items ≤ 1_048_576 }
    requires agrees { Agrees numbers.old script.old.names.items }
    requires behind { end ≤ token.from }
    requires forward { token.from < token.to }
    requires within { token.to ≤ length text.now }
    requires last { IsCharBoundary text.now end }
    requires start { IsCharBoundary text.now token.from }
    ensures tokens { OnOk result (script.new.tokens.items
        ≡ script.old.tokens.items ++ grammar_token text.now (before_of script.old end) key token ∷ []) }
    ensures literals { OnOk result (script.new.literals.items
        ≡ (before_next text.now (before_of script.old end) key token).texts) }
    ensures names { OnOk result (script.new.names.items
        ≡ (before_next text.now (before_of script.old end) key token).names) }
    ensures keys { OnOk result (script.new.keys.items
        ≡ (before_next text.now (before_of script.old end) key token).keys) }
    ensures agrees { OnOk result (Agrees numbers.new script.new.names.items) }
{
    let js_lex::Token { kind, from, to } = token;
    let source = &text.as_bytes()[from as usize..to as usize];
    let after_line = any_line_end(&text[end as usize..from as usize]);
    let kind = next_kind(alloc, script, numbers, source, kind, key)?;
    script.tokens.push(GrammarToken {
        at: from,
        after_line,
        kind,
    })?;
    Ok(())
}

// No token, with room for those of an ordinary script of so many bytes.
fn no_tokens(alloc: Global, bytes: usize) -> Result<ScriptTokens, NoMemory>
    requires { bytes ≤ 1_048_576 }
    ensures tokens { IfOk result (λ script. script.tokens.items ≡ []) }
    ensures literals { IfOk result (λ script. script.literals.items ≡ []) }
    ensures names { IfOk result (λ script. script.names.items ≡ []) }
    ensures keys { IfOk result (λ script. script.keys.items ≡ []) }
{
    Ok(ScriptTokens {
        tokens: Vec::with_capacity(alloc, bytes / 8 + 8)?,
        literals: Vec::new(alloc),
        names: Vec::new(alloc),
        keys: Vec::new(alloc),
    })
}

fn opens_member(kind: &TokenKind) -> bool
    ensures { result ≡ definition.opens_member kind.now }
{
    match kind {
        TokenKind::Mark(Mark::OpenBrace | Mark::Comma) => true,
        _ => false,
    }
}

fn is_colon(kind: &TokenKind) -> bool
    ensures { result ≡ is_colon kind.now }
{
    match kind {
        TokenKind::Mark(Mark::Colon) => true,
        _ => false,
    }
}

// Whether the next token from a place on is a colon.
fn colon_follows(alloc: Global, text: &str, at: u32) -> Result<bool, LexFault>
    requires size { length text.now ≤ 1_048_576 }
    requires cut { IsCharBoundary text.now at }
    ensures colon { IfOk result (λ colon. (ts : List Lexed) → Lexes text.now at ts
        → colon ≡ begins_colon ts) }
    ensures fault { IfErr result (λ e. (e ≡ Memory) ⊎ FailsFrom text.now at e) }
{
    match js_lex::next_token(alloc, text, at) {
        Ok(Some(token)) => Ok(is_colon(&token.kind)),
        Ok(None) => Ok(false),
        Err(fault) => Err(fault),
    }
}

// Whether a token is a string that is a key, where `{` or a comma precedes it or not.
fn is_key(alloc: Global, text: &str, opened: bool, token: &js_lex::Token) -> Result<bool, LexFault>
    requires size { length text.now ≤ 1_048_576 }
    requires cut { IsCharBoundary text.now token.now.to }
    ensures key { IfOk result (TellsKey text.now opened token.now) }
    ensures fault { IfErr result (λ e. (e ≡ Memory) ⊎ FailsFrom text.now token.now.to e) }
{
    if !opened {
        return Ok(false);
    }
    match &token.kind {
        TokenKind::Text(_) => colon_follows(alloc, text, token.to),
        TokenKind::Word => Ok(false),
        TokenKind::Number(_) => Ok(false),
        TokenKind::Mark(_) => Ok(false),
    }
}

// The tokens of a text.
fn scan(alloc: Global, text: &str) -> Result<ScriptTokens, LexFault>
    requires { length text.now ≤ 1_048_576 }
    ensures read { IfOk result (ScannedTo text.now) }
    ensures refused { IfErr result (λ fault. (fault ≡ Memory) ⊎ FailsFrom text.now 0 fault) }
{
    let mut script = match no_tokens(alloc, text.len()) {
        Ok(script) => script,
        Err(NoMemory) => return Err(LexFault::Memory),
    };
    let mut numbers = Numbers::new(alloc);
    let mut at: u32 = 0;
    let mut opened = false;
    'tokens: loop {
        match js_lex::next_token(alloc, text, at) {
            Ok(Some(token)) => {
                let end = token.to;
                let opens = opens_member(&token.kind);
                let key = match is_key(alloc, text, opened, &token) {
                    Ok(key) => key,
                    Err(fault) => return Err(fault),
                };
                if add(alloc, &mut script, &mut numbers, text, at, token, key).is_err() {
                    return Err(LexFault::Memory);
                }
                opened = opens;
                at = end;
            }
            Ok(None) => return Ok(script),
            Err(fault) => return Err(fault),
        }
    }
}

/// What `tokens` answers, against the relations alone.
fn read(alloc: Global, bytes: &[u8]) -> Result<ScriptTokens, LexFault>
    requires { length bytes.now ≤ 1_048_576 }
    ensures read { IfOk result
        (λ script. HasTokens bytes.now script.tokens.items script.literals.items script.names.items
        script.keys.items) }
    ensures refused { IfErr result (λ fault. (fault ≡ Memory) ⊎ LexFaultOf bytes.now fault) }
{
    match js_lex::source_text(bytes) {
        Ok(text) => scan(alloc, text),
        Err(fault) => Err(fault),
    }
}

/// The tokens of the grammar of a script's bytes, or the first lexical fault.
pub fn tokens(alloc: Global, bytes: &[u8]) -> Result<ScriptTokens, LexFault>
    requires { length bytes.now ≤ 1_048_576 }
    ensures read { IfOk result
        (λ script. HasTokens bytes.now script.tokens.items script.literals.items script.names.items
        script.keys.items) }
    ensures refused { IfErr result (λ fault. (fault ≡ Memory) ⊎ LexFaultOf bytes.now fault) }
    ensures found { (ts : List GrammarToken) (texts names keys : List (List ℕ))
        → HasTokens bytes.now ts texts names keys
        → IfOk result (λ script. IsScriptTokens script ts texts names keys)
        × IfErr result (λ fault. fault ≡ Memory) }
    ensures faults { (f : LexFault) → LexFaultOf bytes.now f
        → IfOk result (λ script. ⊥) × IfErr result (λ fault. (fault ≡ f) ⊎ (fault ≡ Memory)) }
{
    read(alloc, bytes)
}
