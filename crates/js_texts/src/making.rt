// New strings of a store.
ghost use Rattle.std.specs.Prelude.{◌≤◌, length, IfOk};
ghost use Rattle.js_store.specs.State.{NamesUnits, IsSettled};
ghost use Rattle.js_store.specs.Faults.{fault_of, Uses};
ghost use Rattle.js_texts.specs.Use.{made_words};

use js_store::{StoreFault, Strings};

/// A string of these units, which are no more than the limit.
#[tactic(auto, using(crate::proofs::Lengths::made_is))]
pub fn make<S: Strings>(store: &mut S, units: &[u16]) -> Result<S::Ref, StoreFault>
    requires { length units.now ≤ (S.state store.old).limit }
    ensures value { IfOk result (λ r. NamesUnits (S.state store.new) (S.number r) units.now) }
    ensures settled { IfOk result (λ r. IsSettled (S.state store.new) (S.number r)) }
    ensures uses { Uses (S.state store.old) (S.state store.new) (fault_of result) 1
        (made_words (S.state store.old).limit units.now) }
{
    store.from_units(units)
}
