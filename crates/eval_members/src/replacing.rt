// Methods that put a template in the place of matches.
ghost use Rattle.eval_members.specs.Parts.{replacement};
ghost use Rattle.std.specs.Prelude.{◌≡◌, ℕ, ◌+◌, ◌≤◌, length, IfOk, OnOk};
ghost use Rattle.js_store.specs.State.{NamesUnits, Grows, IsKnown, IsSettled, text};
ghost use Rattle.js_store.specs.Faults.{Uses};
ghost use Rattle.js_texts.specs.Answers.{ThrowsLong, full_of};
ghost use Rattle.js_texts.specs.Use.{settling, made_words};
ghost use Rattle.eval_values.specs.Conversions.{text_units, all_units, first_text_units};
ghost use Rattle.eval_values.specs.Arguments.{first_of, second_of};
ghost use Rattle.eval_members.specs.Replacing.{two_text_units, replace_call};
ghost use Rattle.eval_members.specs.Methods.{replaced_of, match_count};
ghost use Rattle.js_item.specs.Seen.{seen};
ghost use Rattle.js_item.specs.Fine.{IsFine};
ghost use Rattle.eval_values.specs.Seen.{all_seen, AllFine};
ghost use Rattle.eval_values.specs.Does.{GivesValue};
ghost use Rattle.eval_values.specs.Settled.{OfFirst, OfSecond, StringsSettled};

use eval_values::{Stop, Value, to_text};
use js_store::Strings;
use js_texts::MethodFault;
use std::alloc::Global;

/// Which matches a method replaces.
#[derive(Clone, Copy, Debug, PartialEq, Eq)]
pub enum Replace {
    First,
    All,
}

/// `replace` or `replaceAll`.
pub fn call_replace<S: Strings>(
    alloc: Global,
    store: &mut S,
    replace: Replace,
    s: S::Ref,
    args: &[Value<S::Ref>],
) -> Result<Value<S::Ref>, Stop>
    requires known { IsKnown (S.state store.old) (S.number s) }
    requires args { AllFine (S.state store.old) S.number args.now }
    ensures grows { Grows (S.state store.old) (S.state store.new) }
    ensures fine { IfOk result (λ v. IsFine (S.state store.new) S.number v) }
    ensures settled { OnOk result (IsSettled (S.state store.new) (S.number s)) }
    ensures searched_settled { OnOk result
        (OfFirst (λ v. StringsSettled (S.state store.new) S.number v) args.now) }
    ensures template_settled { OnOk result
        (OfSecond (λ v. StringsSettled (S.state store.new) S.number v) args.now) }
    ensures did { GivesValue S.number (S.state store.old) (S.state store.new) result
        (replace_call (S.state store.old).limit
        (length (text (S.state store.old) (S.number s))
        + all_units (all_seen (S.state store.old) S.number args.now))
        (length (text (S.state store.old) (S.number s))
        + first_text_units (all_seen (S.state store.old) S.number args.now))
        (length (text (S.state store.old) (S.number s))
        + two_text_units (all_seen (S.state store.old) S.number args.now))
        (match_count replace (text (S.state store.old) (S.number s)))
        (replaced_of replace (text (S.state store.old) (S.number s)))
        (first_of (all_seen (S.state store.old) S.number args.now))
        (second_of (all_seen (S.state store.old) S.number args.now))) }
{
    match args {
        [w, template, ..] => replace_values(alloc, store, replace, s, w, template),
        [w] => replace_values(alloc, store, replace, s, w, &Value::Undefined),
        [] => replace_values(
            alloc,
            store,
            replace,
            s,
            &Value::Undefined,
            &Value::Undefined,
        ),
    }
}

// The same with both arguments, where the operands of the call have o units as they are, m where the
// first one was converted, and t where both were.
fn replace_values<S: Strings>(
    alloc: Global,
    store: &mut S,
    replace: Replace,
    s: S::Ref,
    searched: &Value<S::Ref>,
    template: &Value<S::Ref>,
) -> Result<Value<S::Ref>, Stop>
    requires known { IsKnown (S.state store.old) (S.number s) }
    requires searched { IsFine (S.state store.old) S.number searched.now }
    requires template { IsFine (S.state store.old) S.number template.now }
    ensures grows { Grows (S.state store.old) (S.state store.new) }
    ensures fine { IfOk result (λ v. IsFine (S.state store.new) S.number v) }
    ensures settled { OnOk result (IsSettled (S.state store.new) (S.number s)) }
    ensures searched_settled { OnOk result (StringsSettled (S.state store.new) S.number searched.now) }
    ensures template_settled { OnOk result (StringsSettled (S.state store.new) S.number template.now) }
    ensures did { (o m t : ℕ) → length (text (S.state store.old) (S.number s))
        + (text_units (seen (S.state store.old) S.number searched.now)
        + text_units (seen (S.state store.old) S.number template.now)) ≤ t → GivesValue S.number
        (S.state store.old) (S.state store.new) result
        (replace_call (S.state store.old).limit o m t
        (match_count replace (text (S.state store.old) (S.number s)))
        (replaced_of replace (text (S.state store.old) (S.number s)))
        (seen (S.state store.old) S.number searched.now)
        (seen (S.state store.old) S.number template.now)) }
{
    let w = to_text(alloc, store, searched)?;
    let by = to_text(alloc, store, template)?;
    give_replaced(alloc, store, replace, s, w, by)
}

// The string with its matches replaced, where the operands of the call have t units and the three
// strings at most 80 more.
fn give_replaced<S: Strings>(
    alloc: Global,
    store: &mut S,
    replace: Replace,
    s: S::Ref,
    w: S::Ref,
    template: S::Ref,
) -> Result<Value<S::Ref>, Stop>
    requires known { IsKnown (S.state store.old) (S.number s) }
    requires needle_known { IsKnown (S.state store.old) (S.number w) }
    requires template_known { IsKnown (S.state store.old) (S.number template) }
    ensures grows { Grows (S.state store.old) (S.state store.new) }
    ensures fine { IfOk result (λ v. IsFine (S.state store.new) S.number v) }
    ensures settled { OnOk result (IsSettled (S.state store.new) (S.number s)) }
    ensures needle_settled { OnOk result (IsSettled (S.state store.new) (S.number w)) }
    ensures template_settled { OnOk result (IsSettled (S.state store.new) (S.number template)) }
    ensures did { (t : ℕ) → length (text (S.state store.old) (S.number s))
        + (length (text (S.state store.old) (S.number w))
        + length (text (S.state store.old) (S.number template))) ≤ t + 80 → GivesValue S.number
        (S.state store.old) (S.state store.new) result
        (replacement (S.state store.old).limit t
        (match_count replace (text (S.state store.old) (S.number s))
        (text (S.state store.old) (S.number w)))
        (replaced_of replace (text (S.state store.old) (S.number s))
        (text (S.state store.old) (S.number w)) (text (S.state store.old) (S.number template)))) }
{
    let r = replaced(alloc, store, replace, s, w, template)?;
    Ok(Value::Text(r))
}

fn replaced<S: Strings>(
    alloc: Global,
    store: &mut S,
    replace: Replace,
    s: S::Ref,
    w: S::Ref,
    template: S::Ref,
) -> Result<S::Ref, MethodFault>
    requires known { IsKnown (S.state store.old) (S.number s) }
    requires needle_known { IsKnown (S.state store.old) (S.number w) }
    requires template_known { IsKnown (S.state store.old) (S.number template) }
    ensures value { IfOk result
        (λ r. NamesUnits (S.state store.new) (S.number r)
        (replaced_of replace (text (S.state store.old) (S.number s))
        (text (S.state store.old) (S.number w)) (text (S.state store.old) (S.number template)))) }
    ensures settled { OnOk result (IsSettled (S.state store.new) (S.number s)) }
    ensures needle_settled { OnOk result (IsSettled (S.state store.new) (S.number w)) }
    ensures template_settled { OnOk result (IsSettled (S.state store.new) (S.number template)) }
    ensures throws { ThrowsLong result (S.state store.old).limit
        (length (replaced_of replace (text (S.state store.old) (S.number s))
        (text (S.state store.old) (S.number w)) (text (S.state store.old) (S.number template)))) }
    ensures uses { Uses (S.state store.old) (S.state store.new) (full_of result)
        1 (settling (S.state store.old) (S.number s) + settling (S.state store.old) (S.number w)
        + settling (S.state store.old) (S.number template) + made_words (S.state store.old).limit
        (replaced_of replace (text (S.state store.old) (S.number s))
        (text (S.state store.old) (S.number w)) (text (S.state store.old) (S.number template)))) }
{
    match replace {
        Replace::First => js_replace::replace(alloc, store, s, w, template),
        Replace::All => js_replace::replace_all(alloc, store, s, w, template),
    }
}
