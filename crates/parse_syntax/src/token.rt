// The tokens of the grammar.
use eval_tree::{Method, Name};
use js_lex::Mark;
use js_units::Units;

/// An identifier that is no name.
#[derive(Clone, Copy, Debug, PartialEq, Eq)]
pub enum Word {
    Let,
    Const,
    Print,
    If,
    Else,
    /// It begins a loop, or follows `Symbol` and a point.
    For,
    Undefined,
    Null,
    True,
    False,
    NaN,
    Infinity,
    String,
    Symbol,
    Json,
    Object,
    EncodeUri,
    EncodeUriComponent,
    DecodeUri,
    DecodeUriComponent,
    /// Any other identifier that can't be a name. It follows a point, or is the key of a member.
    Reserved,
}

/// What an identifier that is a name is behind a point. `length`, `description` and a method that is called
/// mean it behind any value, where each other identifier is the name of a property.
#[derive(Clone, Copy, Debug, PartialEq, Eq)]
pub enum Property {
    Length,
    Description,
    Method(Method),
    /// Behind `String` alone.
    FromCharCode,
    /// Behind `String` alone.
    FromCodePoint,
    /// Behind `Symbol` alone.
    KeyFor,
    /// Behind `JSON` alone.
    Stringify,
    /// Behind `Object` alone.
    Keys,
    Nothing,
}

/// A token.
#[derive(Clone, Copy, Debug, PartialEq, Eq)]
pub struct GrammarToken {
    /// The offset of its first byte.
    pub at: u32,
    /// Whether a line end is before it, behind the token before it.
    pub after_line: bool,
    pub kind: GrammarKind,
}

/// What a token is. Two identifiers have the same number exactly if their letters are the same.
#[derive(Clone, Copy, Debug, PartialEq, Eq)]
pub enum GrammarKind {
    /// The first token of the text where it is a string that is spelled as the directive.
    Directive,
    /// A string, by its number among the script's literals, or among those that are keys of members where
    /// it `is_key`: it follows a `{` or `,` and precedes a `:`.
    Text { number: u32, is_key: bool },
    Number(u64),
    /// An identifier that is a name, by its number.
    Name(u32, Property),
    /// An identifier that is no name, with its number.
    Word(Word, u32),
    Mark(Mark),
}

/// What the numbers of a script's tokens denote: the letters of identifiers, and the units of the strings that are
/// keys of members.
#[derive(Drop)]
pub struct Tables {
    pub names: Vec<Name>,
    pub keys: Vec<Units>,
}
