// Methods that say whether a string is well formed.
ghost use Rattle.std.specs.Prelude.{ℕ, ◌≤◌, length, IfOk, OnOk};
ghost use Rattle.js_store.specs.State.{Grows, IsKnown, IsSettled, text};
ghost use Rattle.eval_values.specs.Outcome.{needing};
ghost use Rattle.eval_values.specs.Need.{reads};
ghost use Rattle.js_item.specs.Contents;
ghost use Rattle.js_methods.specs.Testing.{all_paired};
ghost use Rattle.js_item.specs.Fine.{IsFine};
ghost use Rattle.eval_values.specs.Does.{GivesValue};

use eval_values::{Stop, Value};
use js_store::Strings;

/// `isWellFormed`, where the operands of the call have t units.
pub fn call_is_well_formed<S: Strings>(store: &mut S, s: S::Ref) -> Result<Value<S::Ref>, Stop>
    requires { IsKnown (S.state store.old) (S.number s) }
    ensures grows { Grows (S.state store.old) (S.state store.new) }
    ensures fine { IfOk result (λ v. IsFine (S.state store.new) S.number v) }
    ensures settled { OnOk result (IsSettled (S.state store.new) (S.number s)) }
    ensures did { (t : ℕ) → length (text (S.state store.old) (S.number s)) ≤ t → GivesValue S.number
        (S.state store.old) (S.state store.new) result
        (needing (reads t) (Contents.bool (all_paired (text (S.state store.old) (S.number s))))) }
{
    let holds = js_methods::testing::is_well_formed(store, s)?;
    Ok(Value::Bool(holds))
}
