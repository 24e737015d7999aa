// Values, and what ends an evaluation.
ghost use Rattle.eval_values.specs.Seen.{IsNumberWritten};

use js_item::Item;
use js_number::Num;
use js_store::StoreFault;
use js_texts::MethodFault;
use js_units::NoMemory;

/// A kind of error that a script throws (ECMA-262, "Native Error Types Used in This Standard").
#[derive(Clone, Copy, Debug, PartialEq, Eq)]
pub enum Kind {
    RangeError,
    TypeError,
    ReferenceError,
    UriError,
}

/// A value (ECMA-262, "ECMAScript Language Types"), where strings are references into a store. A
/// symbol is the interned string of its key. An array is the list of its elements, which are all
/// strings.
pub type Value<R> = Item<R>;

/// The value of a number as a script writes it, or of a count of elements.
pub fn number_value<R>(value: u64) -> Value<R>
    ensures { IsNumberWritten result value }
{
    if value <= 9007199254740991 {
        Value::Number(Num::Int(value as i64))
    } else {
        Value::Undefined
    }
}

/// Why a conversion that makes nothing gives no value.
#[derive(Clone, Copy, Debug)]
pub enum Abrupt {
    Threw(Kind),
    Unsupported { at: u32 },
}

/// What stops an evaluation.
#[derive(Clone, Copy, Debug)]
pub enum Stop {
    Threw(Kind),
    Unsupported { at: u32 },
    Store(StoreFault),
}

impl From<StoreFault> for Stop {
    ghost use Rattle.std.specs.Prelude.{◌≡◌};
    ghost use Rattle.eval_values.specs.declared.value.Stop.TheVariants.{Store};

    ghost from_gives = { λ f e. e ≡ Store f };

    fn from(fault: StoreFault) -> Stop {
        Stop::Store(fault)
    }
}

impl From<NoMemory> for Stop {
    ghost use Rattle.std.specs.Prelude.{◌≡◌};
    ghost use Rattle.js_store.specs.declared.faults.StoreFault.TheVariants.{Memory};
    ghost use Rattle.eval_values.specs.declared.value.Stop.TheVariants.{Store};

    ghost from_gives = { λ _ e. e ≡ Store Memory };

    fn from(_fault: NoMemory) -> Stop {
        Stop::Store(StoreFault::Memory)
    }
}

impl From<Abrupt> for Stop {
    ghost use Rattle.std.specs.Prelude.{◌≡◌};
    ghost use Rattle.eval_values.specs.Stops.{abrupt_stop};

    ghost from_gives = { λ r e. e ≡ abrupt_stop r };

    fn from(abrupt: Abrupt) -> Stop {
        match abrupt {
            Abrupt::Threw(kind) => Stop::Threw(kind),
            Abrupt::Unsupported { at } => Stop::Unsupported { at },
        }
    }
}

impl From<MethodFault> for Stop {
    ghost use Rattle.std.specs.Prelude.{◌≡◌};
    ghost use Rattle.eval_values.specs.Stops.{stop_of};

    ghost from_gives = { λ f e. e ≡ stop_of f };

    fn from(fault: MethodFault) -> Stop {
        match fault {
            MethodFault::Store(fault) => Stop::Store(fault),
            MethodFault::RangeError(_) => Stop::Threw(Kind::RangeError),
        }
    }
}
