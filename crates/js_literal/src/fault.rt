// Faults of literals, each with the byte of the text at which it is.
ghost use Rattle.std.specs.Prelude.{◌≡◌};
ghost use Rattle.js_literal.specs.Faults.{literal_report, number_report};

/// Why a text has no string literal at a place.
#[derive(Clone, Copy, Debug, PartialEq, Eq)]
pub enum LiteralFault {
    /// The text ends inside the literal or right behind a backslash; at the opening quote.
    Unclosed { at: u32 },
    /// A line feed or carriage return that no backslash precedes; at that character.
    RawLineEnd { at: u32 },
    /// `\x` or `\u` without what has to follow; at the backslash.
    BadEscape { at: u32 },
    /// `\u{..}` with a value over 10FFFF; at the backslash.
    CodePointTooLarge { at: u32 },
    /// `\1` to `\9`, or `\0` before a digit, which strict code doesn't have; at the backslash.
    LegacyOctal { at: u32 },
    /// Out of memory.
    Memory,
}

/// Why a text has no number literal at a place. Each is at the literal's first byte.
#[derive(Clone, Copy, Debug, PartialEq, Eq)]
pub enum NumberFault {
    /// A point at the start, or behind the digits.
    Fraction { at: u32 },
    /// A leading 0, or a letter, `_`, `$` or `\` behind the digits.
    OtherForm { at: u32 },
    /// A value over 2^53 - 1.
    TooLarge { at: u32 },
}

impl LiteralFault {
    /// The byte offset at which it is; 0 where memory ran out.
    pub fn offset(self) -> u32
        ensures { result ≡ (literal_report self).0 }
    {
        match self {
            LiteralFault::Unclosed { at } => at,
            LiteralFault::RawLineEnd { at } => at,
            LiteralFault::BadEscape { at } => at,
            LiteralFault::CodePointTooLarge { at } => at,
            LiteralFault::LegacyOctal { at } => at,
            LiteralFault::Memory => 0,
        }
    }

    /// Its message, in ASCII.
    pub fn words(self) -> &'static [u8]
        ensures { result.now ≡ (literal_report self).1 }
    {
        match self {
            LiteralFault::Unclosed { at: _ } => b"unclosed string",
            LiteralFault::RawLineEnd { at: _ } => b"line end in string",
            LiteralFault::BadEscape { at: _ } => b"bad escape",
            LiteralFault::CodePointTooLarge { at: _ } => b"code point too large",
            LiteralFault::LegacyOctal { at: _ } => b"legacy octal",
            LiteralFault::Memory => b"out of memory",
        }
    }
}

impl NumberFault {
    /// The byte offset at which it is.
    pub fn offset(self) -> u32
        ensures { result ≡ (number_report self).0 }
    {
        match self {
            NumberFault::Fraction { at } => at,
            NumberFault::OtherForm { at } => at,
            NumberFault::TooLarge { at } => at,
        }
    }

    /// Its message, in ASCII.
    pub fn words(self) -> &'static [u8]
        ensures { result.now ≡ (number_report self).1 }
    {
        match self {
            NumberFault::Fraction { at: _ } => b"fraction",
            NumberFault::OtherForm { at: _ } => b"number form",
            NumberFault::TooLarge { at: _ } => b"number too large",
        }
    }
}
