// Methods that say whether a string is well formed.
ghost use Rattle.std.specs.Prelude.{◌≡◌, ◌↔◌, IsTrue, length, IfOk, OnOk};
ghost use Rattle.js_units.specs.Text.{well};
ghost use Rattle.js_store.specs.State.{IsKnown, IsSettled, text};
ghost use Rattle.js_store.specs.Rows.{settle_words};
ghost use Rattle.js_store.specs.Faults.{Uses};
ghost use Rattle.js_texts.specs.Answers.{method_fault_of, NeverThrows};
ghost use Rattle.js_methods.specs.Testing.{all_paired};

use js_store::Strings;
use js_texts::MethodFault;
use js_units::{is_lead, is_trail};

/// Whether there is no unpaired surrogate ("String.prototype.isWellFormed"), so that
/// `toWellFormed` would change nothing.
pub fn is_well_formed<S: Strings>(store: &mut S, s: S::Ref) -> Result<bool, MethodFault>
    requires known { IsKnown (S.state store.old) (S.number s) }
    ensures value { IfOk result (λ r. r ≡ all_paired (text (S.state store.old) (S.number s))) }
    ensures unchanged { IfOk result
        (λ r. IsTrue r ↔
        (well (text (S.state store.old) (S.number s)) ≡ text (S.state store.old) (S.number s))) }
    ensures throws { NeverThrows result }
    ensures settled { OnOk result (IsSettled (S.state store.new) (S.number s)) }
    ensures uses { Uses (S.state store.old) (S.state store.new) (method_fault_of result)
        0 (settle_words ((S.state store.old).settled (S.number s))
        (length (text (S.state store.old) (S.number s)))) }
{
    store.settle(s)?;
    Ok(has_pairs_alone(store, s))
}

// Whether a settled string has no unpaired surrogate.
fn has_pairs_alone<S: Strings>(store: &mut S, s: S::Ref) -> bool
    requires known { IsKnown (S.state store.old) (S.number s) }
    requires settled { IsSettled (S.state store.old) (S.number s) }
    ensures value { result ≡ all_paired (text (S.state store.old) (S.number s)) }
    ensures uses { Uses (S.state store.old) (S.state store.new) None 0 0 }
{
    let len = store.len(s);
    // whether a leading surrogate waits for its trailing one
    let mut waits = false;
    for i in 0..len {
        let unit = store.unit_at(s, i);
        if is_trail(unit) != waits {
            return false;
        }
        waits = is_lead(unit);
    }
    !waits
}
