// Why a text is no script.
ghost use Rattle.std.specs.Prelude.{◌≡◌};
ghost use Rattle.js_parse.specs.Faults.{fault_report};
ghost use Rattle.js_parse.specs.declared.fault.ParseFault.TheVariants.{Memory};

use js_lex::LexFault;
use js_units::NoMemory;
use std::alloc::{AllocError, AllocFailed};

/// What a text is read as. A prelude has no `print`.
#[derive(Clone, Copy, Debug, PartialEq, Eq)]
pub enum Role {
    Prelude,
    Main,
}

/// Why a text is no script, with the byte offset of the fault; or out of memory.
#[derive(Clone, Copy, Debug, PartialEq, Eq)]
pub enum ParseFault {
    /// The first lexical fault, which comes before all others. It is never out of memory.
    Lex(LexFault),
    /// The token isn't allowed there; at the end of the text, its length.
    Unexpected { at: u32 },
    /// An identifier that isn't allowed there, or one behind a point that is no method, before a `(`;
    /// or a key of an object literal that is `__proto__`.
    NotInProfile { at: u32 },
    /// The token would be allowed there, but for the limit on nesting.
    TooDeep { at: u32 },
    /// A name that is declared a second time in its block.
    Duplicate { at: u32 },
    /// The name of a `for` that is assigned in its body.
    LoopName { at: u32 },
    Memory,
}

impl ParseFault {
    /// The byte offset at which it is; 0 where memory ran out.
    pub fn offset(self) -> u32
        ensures { result ≡ (fault_report self).0 }
    {
        match self {
            ParseFault::Lex(fault) => fault.offset(),
            ParseFault::Unexpected { at } => at,
            ParseFault::NotInProfile { at } => at,
            ParseFault::TooDeep { at } => at,
            ParseFault::Duplicate { at } => at,
            ParseFault::LoopName { at } => at,
            ParseFault::Memory => 0,
        }
    }

    /// Its message, in ASCII.
    pub fn words(self) -> &'static [u8]
        ensures { result.now ≡ (fault_report self).1 }
    {
        match self {
            ParseFault::Lex(fault) => fault.words(),
            ParseFault::Unexpected { at: _ } => b"unexpected",
            ParseFault::NotInProfile { at: _ } => b"not in profile",
            ParseFault::TooDeep { at: _ } => b"too deep",
            ParseFault::Duplicate { at: _ } => b"duplicate",
            ParseFault::LoopName { at: _ } => b"loop name",
            ParseFault::Memory => b"out of memory",
        }
    }
}

impl From<AllocError> for ParseFault {
    ghost from_gives = { λ _ e. e ≡ Memory };

    fn from(_: AllocError) -> ParseFault {
        ParseFault::Memory
    }
}

impl<T: Drop> From<AllocFailed<T>> for ParseFault {
    ghost from_gives = { λ _ e. e ≡ Memory };

    fn from(_: AllocFailed<T>) -> ParseFault {
        ParseFault::Memory
    }
}

impl From<NoMemory> for ParseFault {
    ghost from_gives = { λ _ e. e ≡ Memory };

    fn from(_: NoMemory) -> ParseFault {
        ParseFault::Memory
    }
}
