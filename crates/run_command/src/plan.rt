// What valid arguments ask for.
ghost use Rattle.std.specs.Prelude.{◌≡◌};
ghost use Rattle.run_command.specs.declared.plan.WordsFault.TheVariants as fault;

use js_store::Limit;
use std::alloc::AllocError;

/// What is run.
#[derive(Debug, Drop)]
pub enum Input<'a> {
    /// The scripts of these files, in this order, each after the prelude where there is one.
    Files {
        prelude: Option<&'a str>,
        scripts: Vec<&'a str>,
    },
    /// The sources that are generated from this number.
    Generated(u32),
}

/// How many ids, content words and slots of the string table the heap has.
#[derive(Clone, Copy, Debug, PartialEq, Eq)]
pub struct Sizes {
    pub ids: u32,
    pub heap_words: u32,
    pub slots: u32,
}

/// What the arguments ask for.
#[derive(Debug, Drop)]
pub struct Plan<'a> {
    pub input: Input<'a>,
    /// How many scripts may run at one time.
    pub jobs: u32,
    pub sizes: Sizes,
    /// Whether `--summary` was given. Sources that are generated from a number count as if it were, but
    /// it is not set for them.
    pub summary: bool,
    pub limit: Limit,
}

/// Why there is no plan.
#[derive(Clone, Copy, Debug, PartialEq, Eq)]
pub enum WordsFault {
    /// The arguments are not valid.
    Refused,
    /// No memory is left.
    Memory,
}

impl From<AllocError> for WordsFault {
    ghost from_gives = { λ _ e. e ≡ fault.Memory };

    fn from(_: AllocError) -> Self {
        WordsFault::Memory
    }
}
