// Methods that cut a part out of a string.
ghost use Rattle.std.specs.Prelude.{ℕ, ◌+◌, ◌*◌, ◌≤◌, length, IfOk, OnOk, IfSome};
ghost use Rattle.js_number.specs.Places.{IsLawful};
ghost use Rattle.js_store.specs.State.{NamesUnits, Grows, IsKnown, IsSettled, text};
ghost use Rattle.js_store.specs.Rows.{wide_words};
ghost use Rattle.js_store.specs.Faults.{Uses};
ghost use Rattle.js_texts.specs.Answers.{method_fault_of, ThrowsLong};
ghost use Rattle.eval_values.specs.Conversions.{to_number, all_units};
ghost use Rattle.eval_values.specs.Arguments.{first_of, second_of, end_in};
ghost use Rattle.eval_values.specs.Limited.{limited};
ghost use Rattle.eval_members.specs.Cutting.{cut_call};
ghost use Rattle.eval_members.specs.Methods.{part_of};
ghost use Rattle.js_item.specs.Fine.{IsFine};
ghost use Rattle.eval_values.specs.Seen.{all_seen, AllFine};
ghost use Rattle.eval_values.specs.Does.{GivesValue};

use eval_values::{Stop, Value, first_number, second_or_none};
use js_number::Num;
use js_store::Strings;
use js_texts::MethodFault;

/// A method that gives the part between two numbers.
#[derive(Clone, Copy, Debug, PartialEq, Eq)]
pub enum Cut {
    Slice,
    Substring,
    Substr,
}

/// `slice`, `substring` or `substr`.
pub fn call_cut<S: Strings>(
    store: &mut S,
    at: u32,
    cut: Cut,
    s: S::Ref,
    args: &[Value<S::Ref>],
) -> Result<Value<S::Ref>, Stop>
    requires known { IsKnown (S.state store.old) (S.number s) }
    requires args { AllFine (S.state store.old) S.number args.now }
    ensures grows { Grows (S.state store.old) (S.state store.new) }
    ensures fine { IfOk result (λ v. IsFine (S.state store.new) S.number v) }
    ensures settled { OnOk result (IsSettled (S.state store.new) (S.number s)) }
    ensures did { GivesValue S.number (S.state store.old) (S.state store.new) result
        (cut_call (S.state store.old).limit
        (length (text (S.state store.old) (S.number s))
        + all_units (all_seen (S.state store.old) S.number args.now))
        (part_of cut (text (S.state store.old) (S.number s)))
        (to_number at (first_of (all_seen (S.state store.old) S.number args.now)))
        (end_in at (second_of (all_seen (S.state store.old) S.number args.now)))) }
{
    let start = first_number(store, at, args)?;
    let end = second_or_none(store, at, args)?;
    give_part(store, cut, s, start, end)
}

// The part of a string, where the operands of the call have t units.
fn give_part<S: Strings>(
    store: &mut S,
    cut: Cut,
    s: S::Ref,
    start: Num,
    end: Option<Num>,
) -> Result<Value<S::Ref>, Stop>
    requires known { IsKnown (S.state store.old) (S.number s) }
    requires start { IsLawful start }
    requires end { IfSome end IsLawful }
    ensures grows { Grows (S.state store.old) (S.state store.new) }
    ensures fine { IfOk result (λ v. IsFine (S.state store.new) S.number v) }
    ensures settled { OnOk result (IsSettled (S.state store.new) (S.number s)) }
    ensures did { (t : ℕ) → length (text (S.state store.old) (S.number s)) ≤ t → GivesValue S.number
        (S.state store.old) (S.state store.new) result
        (limited (S.state store.old).limit t
        (part_of cut (text (S.state store.old) (S.number s)) start end)) }
{
    let r = part(store, cut, s, start, end)?;
    Ok(Value::Text(r))
}

fn part<S: Strings>(
    store: &mut S,
    cut: Cut,
    s: S::Ref,
    start: Num,
    end: Option<Num>,
) -> Result<S::Ref, MethodFault>
    requires known { IsKnown (S.state store.old) (S.number s) }
    requires start { IsLawful start }
    requires end { IfSome end IsLawful }
    ensures value { IfOk result
        (λ r. NamesUnits (S.state store.new) (S.number r)
        (part_of cut (text (S.state store.old) (S.number s)) start end)) }
    ensures settled { OnOk result (IsSettled (S.state store.new) (S.number s)) }
    ensures throws { ThrowsLong result (S.state store.old).limit
        (length (part_of cut (text (S.state store.old) (S.number s)) start end)) }
    ensures uses { Uses (S.state store.old) (S.state store.new) (method_fault_of result)
        1 (2 * wide_words (length (text (S.state store.old) (S.number s))) + 3) }
{
    match cut {
        Cut::Slice => js_methods::cutting::slice(store, s, start, end),
        Cut::Substring => js_methods::cutting::substring(store, s, start, end),
        Cut::Substr => js_methods::cutting::substr(store, s, start, end),
    }
}
