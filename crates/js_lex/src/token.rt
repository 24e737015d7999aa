// Tokens, and the faults of a text that has none.
ghost use Rattle.std.specs.Prelude.{◌≡◌};
ghost use Rattle.js_lex.specs.Faults.{lexical_report};

use js_literal::{LiteralFault, NumberFault};
use js_units::Units;

/// A punctuator of the language.
#[derive(Clone, Copy, Debug, PartialEq, Eq)]
pub enum Mark {
    /// `===`
    StrictEqual,
    /// `!==`
    StrictUnequal,
    /// `<=`
    AtMost,
    /// `>=`
    AtLeast,
    /// `&&`
    And,
    /// `||`
    Or,
    /// `+=`
    AddAssign,
    /// `++`
    Increment,
    /// `--`
    Decrement,
    /// `{`
    OpenBrace,
    /// `}`
    CloseBrace,
    /// `(`
    OpenParen,
    /// `)`
    CloseParen,
    /// `[`
    OpenBracket,
    /// `]`
    CloseBracket,
    /// `.`
    Point,
    /// `;`
    Semicolon,
    /// `,`
    Comma,
    /// `<`
    Less,
    /// `>`
    Greater,
    /// `+`
    Plus,
    /// `-`
    Minus,
    /// `!`
    Not,
    /// `?`
    Question,
    /// `:`
    Colon,
    /// `=`
    Assign,
}

/// What a token is.
#[derive(Drop)]
pub enum TokenKind {
    /// A letter, `_` or `$`, and the letters, digits, `_` and `$` behind it.
    Word,
    /// A string literal, by its units.
    Text(Units),
    /// A number literal, by its value.
    Number(u64),
    Mark(Mark),
}

/// A token, and the bytes of the text that it has: from `from` up to `to`.
#[derive(Drop)]
pub struct Token {
    pub kind: TokenKind,
    pub from: u32,
    pub to: u32,
}

/// Why bytes have no tokens.
#[derive(Clone, Copy, Debug, PartialEq, Eq)]
pub enum LexFault {
    /// At the first byte of the first sequence that isn't well-formed UTF-8.
    NotUtf8 { at: u32 },
    /// A character that begins no token; at its first byte.
    BadCharacter { at: u32 },
    /// A comment `/*` without its end; at the slash.
    OpenComment { at: u32 },
    /// Any fault of a string literal but out of memory.
    Literal(LiteralFault),
    Number(NumberFault),
    /// Out of memory.
    Memory,
}

impl LexFault {
    /// The byte offset at which it is; 0 where memory ran out.
    pub fn offset(self) -> u32
        ensures { result ≡ (lexical_report self).0 }
    {
        match self {
            LexFault::NotUtf8 { at } => at,
            LexFault::BadCharacter { at } => at,
            LexFault::OpenComment { at } => at,
            LexFault::Literal(fault) => fault.offset(),
            LexFault::Number(fault) => fault.offset(),
            LexFault::Memory => 0,
        }
    }

    /// Its message, in ASCII.
    pub fn words(self) -> &'static [u8]
        ensures { result.now ≡ (lexical_report self).1 }
    {
        match self {
            LexFault::NotUtf8 { at: _ } => b"not utf-8",
            LexFault::BadCharacter { at: _ } => b"bad character",
            LexFault::OpenComment { at: _ } => b"open comment",
            LexFault::Literal(fault) => fault.words(),
            LexFault::Number(fault) => fault.words(),
            LexFault::Memory => b"out of memory",
        }
    }
}
