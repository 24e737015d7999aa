// Methods that trim white space.
ghost use Rattle.std.specs.Prelude.{ℕ, ◌+◌, ◌*◌, ◌≤◌, length, IfOk, OnOk};
ghost use Rattle.js_store.specs.State.{NamesUnits, Grows, IsKnown, IsSettled, text};
ghost use Rattle.js_store.specs.Rows.{wide_words};
ghost use Rattle.js_store.specs.Faults.{Uses};
ghost use Rattle.js_texts.specs.Answers.{method_fault_of, ThrowsLong};
ghost use Rattle.eval_values.specs.Limited.{limited};
ghost use Rattle.eval_members.specs.Methods.{trimmed_of};
ghost use Rattle.js_item.specs.Fine.{IsFine};
ghost use Rattle.eval_values.specs.Does.{GivesValue};

use eval_values::{Stop, Value};
use js_store::Strings;
use js_texts::MethodFault;

/// A method that trims white space.
#[derive(Clone, Copy, Debug, PartialEq, Eq)]
pub enum Trim {
    Both,
    Start,
    End,
}

/// `trim`, `trimStart` or `trimEnd`.
pub fn call_trim<S: Strings>(store: &mut S, trim: Trim, s: S::Ref) -> Result<Value<S::Ref>, Stop>
    requires known { IsKnown (S.state store.old) (S.number s) }
    ensures grows { Grows (S.state store.old) (S.state store.new) }
    ensures fine { IfOk result (λ v. IsFine (S.state store.new) S.number v) }
    ensures settled { OnOk result (IsSettled (S.state store.new) (S.number s)) }
    ensures did { (t : ℕ) → length (text (S.state store.old) (S.number s)) ≤ t → GivesValue S.number
        (S.state store.old) (S.state store.new) result
        (limited (S.state store.old).limit t (trimmed_of trim (text (S.state store.old) (S.number s)))) }
{
    let r = trimmed(store, trim, s)?;
    Ok(Value::Text(r))
}

fn trimmed<S: Strings>(store: &mut S, trim: Trim, s: S::Ref) -> Result<S::Ref, MethodFault>
    requires known { IsKnown (S.state store.old) (S.number s) }
    ensures value { IfOk result
        (λ r. NamesUnits (S.state store.new) (S.number r)
        (trimmed_of trim (text (S.state store.old) (S.number s)))) }
    ensures settled { OnOk result (IsSettled (S.state store.new) (S.number s)) }
    ensures throws { ThrowsLong result (S.state store.old).limit
        (length (trimmed_of trim (text (S.state store.old) (S.number s)))) }
    ensures uses { Uses (S.state store.old) (S.state store.new) (method_fault_of result)
        1 (2 * wide_words (length (text (S.state store.old) (S.number s))) + 3) }
{
    match trim {
        Trim::Both => js_methods::trimming::trim(store, s),
        Trim::Start => js_methods::trimming::trim_start(store, s),
        Trim::End => js_methods::trimming::trim_end(store, s),
    }
}
