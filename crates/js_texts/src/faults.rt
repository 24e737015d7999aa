// The faults of calls above a store.
use js_store::{ConcatFault, StoreFault};
use js_units::NoMemory;

/// Why a method throws a RangeError: the length of its result, a count below 0 or infinite
/// ("String.prototype.repeat"), or a number that is no code point ("String.fromCodePoint").
#[derive(Clone, Copy, Debug, PartialEq, Eq)]
pub enum Cause {
    TooLong { length: u128 },
    BadCount,
    BadCodePoint,
}

/// Why a method gave no value: it throws a RangeError, or a fault of the store.
#[derive(Clone, Copy, Debug, PartialEq, Eq)]
pub enum MethodFault {
    RangeError(Cause),
    Store(StoreFault),
}

impl From<NoMemory> for MethodFault {
    ghost use Rattle.std.specs.Prelude.{◌≡◌};
    ghost use Rattle.js_store.specs.declared.faults.StoreFault.TheVariants.{Memory};
    ghost use Rattle.js_texts.specs.declared.faults.MethodFault.TheVariants.{Store};

    ghost from_gives = { λ _ e. e ≡ Store Memory };

    fn from(_fault: NoMemory) -> MethodFault {
        MethodFault::Store(StoreFault::Memory)
    }
}

impl From<StoreFault> for MethodFault {
    ghost use Rattle.std.specs.Prelude.{◌≡◌};
    ghost use Rattle.js_texts.specs.declared.faults.MethodFault.TheVariants.{Store};

    ghost from_gives = { λ f e. e ≡ Store f };

    fn from(fault: StoreFault) -> MethodFault {
        MethodFault::Store(fault)
    }
}

impl From<ConcatFault> for MethodFault {
    ghost use Rattle.js_texts.specs.Answers.{FromConcat};

    ghost from_gives = { FromConcat };

    fn from(fault: ConcatFault) -> MethodFault {
        match fault {
            ConcatFault::TooLong { left, right } => MethodFault::RangeError(Cause::TooLong {
                length: u128::from(left) + u128::from(right),
            }),
            ConcatFault::Store(fault) => MethodFault::Store(fault),
        }
    }
}
