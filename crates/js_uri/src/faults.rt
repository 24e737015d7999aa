// The faults of the URI functions.
use js_store::StoreFault;
use js_texts::Cause;
use js_units::NoMemory;

/// Why a URI function gave no string: the unit at place `at`, counted from 0, is malformed, for
/// which the language throws a URIError; it throws a RangeError; or a fault of the store.
#[derive(Clone, Copy, Debug, PartialEq, Eq)]
pub enum UriFault {
    Malformed { at: u32 },
    RangeError(Cause),
    Store(StoreFault),
}

impl From<NoMemory> for UriFault {
    ghost use Rattle.std.specs.Prelude.{◌≡◌};
    ghost use Rattle.js_store.specs.declared.faults.StoreFault.TheVariants.{Memory};
    ghost use Rattle.js_uri.specs.declared.faults.UriFault.TheVariants.{Store};

    ghost from_gives = { λ _ e. e ≡ Store Memory };

    fn from(_fault: NoMemory) -> UriFault {
        UriFault::Store(StoreFault::Memory)
    }
}

impl From<StoreFault> for UriFault {
    ghost use Rattle.std.specs.Prelude.{◌≡◌};
    ghost use Rattle.js_uri.specs.declared.faults.UriFault.TheVariants.{Store};

    ghost from_gives = { λ f e. e ≡ Store f };

    fn from(fault: StoreFault) -> UriFault {
        UriFault::Store(fault)
    }
}
