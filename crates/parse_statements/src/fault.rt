// Faults of the grammar.
ghost use Rattle.std.specs.Prelude.{◌≡◌, ℕ};
ghost use Rattle.parse_syntax.specs.Reader.{wrong, too_deep};
ghost use Rattle.parse_statements.specs.Gives.{FailsWith};
ghost use Rattle.parse_statements.specs.declared.fault.Fault.TheVariants.{Memory};

use js_units::NoMemory;
use parse_syntax::GrammarToken;
use std::alloc::{AllocError, AllocFailed};

/// Why tokens are no script: at the first token of `rest`, or at the end of the text where there is none; or lack
/// of memory.
#[derive(Clone, Copy)]
pub enum Fault<'a> {
    Memory,
    /// The token isn't allowed there.
    Wrong { rest: &'a [GrammarToken] },
    /// It could, but for the limit on nesting.
    TooDeep { rest: &'a [GrammarToken] },
}

pub(crate) fn refused(tokens: &[GrammarToken]) -> Fault<'_>
    ensures { FailsWith result (wrong {A = ℕ} tokens.now) }
{
    Fault::Wrong { rest: tokens }
}

pub(crate) fn too_deep(tokens: &[GrammarToken]) -> Fault<'_>
    ensures { FailsWith result (too_deep {A = ℕ} tokens.now) }
{
    Fault::TooDeep { rest: tokens }
}

impl From<AllocError> for Fault<'_> {
    ghost from_gives = { λ _ e. e ≡ Memory };

    fn from(_: AllocError) -> Self {
        Fault::Memory
    }
}

impl<T: Drop> From<AllocFailed<T>> for Fault<'_> {
    ghost from_gives = { λ _ e. e ≡ Memory };

    fn from(_: AllocFailed<T>) -> Self {
        Fault::Memory
    }
}

impl From<NoMemory> for Fault<'_> {
    ghost from_gives = { λ _ e. e ≡ Memory };

    fn from(_: NoMemory) -> Self {
        Fault::Memory
    }
}
