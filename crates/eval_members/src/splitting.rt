// `split`, and `join` of arrays.
ghost use Rattle.std.specs.Prelude.{◌≡◌, ℕ, ◌+◌, ◌≤◌, length, IfOk, OnOk, IfSome, None, Some, false, ◌∷◌, []};
ghost use Rattle.std.specs.Option.{option_map_or};
ghost use Rattle.js_number.specs.Arith.{modulo};
ghost use Rattle.js_number.specs.Places.{IsLawful};
ghost use Rattle.js_store.specs.State.{Grows, IsKnown, IsSettled, text};
ghost use Rattle.eval_values.specs.Arguments.{first_of, second_of, end_in, is_undefined};
ghost use Rattle.eval_members.specs.Splitting.{split_into, split_most as split_out, split_call, join_call};
ghost use Rattle.js_item.specs.Fine.{IsFine};
ghost use Rattle.eval_values.specs.Seen.{all_seen, AllFine};
ghost use Rattle.eval_values.specs.Does.{GivesValue};
ghost use Rattle.eval_values.specs.Settled.{OfFirst, StringsSettled};
ghost use Rattle.eval_members.specs.Parts.{joined_with};
ghost use Rattle.js_texts.specs.Texts.{known_texts as texts_seen, AllKnown, AllSettled};
ghost use Rattle.eval_values.specs.Conversions.{list_units};

use eval_values::{Stop, Value, first_is_missing, first_text, joined_by_commas, second_or_none};
use js_number::Num;
use js_store::Strings;
use std::alloc::Global;

/// `split`, of which the limit is converted before the separator.
pub fn call_split<S: Strings>(
    alloc: Global,
    store: &mut S,
    at: u32,
    s: S::Ref,
    args: &[Value<S::Ref>],
) -> Result<Value<S::Ref>, Stop>
    requires known { IsKnown (S.state store.old) (S.number s) }
    requires args { AllFine (S.state store.old) S.number args.now }
    ensures grows { Grows (S.state store.old) (S.state store.new) }
    ensures fine { IfOk result (λ v. IsFine (S.state store.new) S.number v) }
    ensures settled { OnOk result (is_undefined (first_of (all_seen (S.state store.old) S.number args.now))
        ≡ false
        → IsSettled (S.state store.new) (S.number s)) }
    ensures separator_settled { OnOk result
        (OfFirst (λ v. StringsSettled (S.state store.new) S.number v) args.now) }
    ensures did { GivesValue S.number (S.state store.old) (S.state store.new) result
        (split_call (S.state store.old).limit (text (S.state store.old) (S.number s))
        (all_seen (S.state store.old) S.number args.now)
        (end_in at (second_of (all_seen (S.state store.old) S.number args.now)))) }
{
    let most = second_or_none(store, at, args)?;
    split_most(alloc, store, s, args, most_parts(most))
}

// How many parts are requested at most.
fn most_parts(most: Option<Num>) -> u32
    requires { IfSome most IsLawful }
    ensures { result ≡ option_map_or (modulo 4294967296) most 4294967295 }
{
    match most {
        None => u32::MAX,
        Some(n) => n.to_uint32(),
    }
}

fn split_most<S: Strings>(
    alloc: Global,
    store: &mut S,
    s: S::Ref,
    args: &[Value<S::Ref>],
    most: u32,
) -> Result<Value<S::Ref>, Stop>
    requires known { IsKnown (S.state store.old) (S.number s) }
    requires args { AllFine (S.state store.old) S.number args.now }
    ensures grows { Grows (S.state store.old) (S.state store.new) }
    ensures fine { IfOk result (λ v. IsFine (S.state store.new) S.number v) }
    ensures settled { OnOk result (is_undefined (first_of (all_seen (S.state store.old) S.number args.now))
        ≡ false
        → IsSettled (S.state store.new) (S.number s)) }
    ensures separator_settled { OnOk result
        (OfFirst (λ v. StringsSettled (S.state store.new) S.number v) args.now) }
    ensures did { GivesValue S.number (S.state store.old) (S.state store.new) result
        (split_out (S.state store.old).limit (text (S.state store.old) (S.number s))
        (all_seen (S.state store.old) S.number args.now) most) }
{
    if first_is_missing(store, args) {
        return keep_whole(alloc, store, s, most);
    }
    let sep = first_text(alloc, store, args)?;
    split_by(alloc, store, s, sep, most)
}

// The string itself as the one part, where the operands of the call have t units.
fn keep_whole<S: Strings>(
    alloc: Global,
    store: &mut S,
    s: S::Ref,
    most: u32,
) -> Result<Value<S::Ref>, Stop>
    requires known { IsKnown (S.state store.old) (S.number s) }
    ensures grows { Grows (S.state store.old) (S.state store.new) }
    ensures fine { IfOk result (λ v. IsFine (S.state store.new) S.number v) }
    ensures did { (t : ℕ) → GivesValue S.number (S.state store.old) (S.state store.new) result
        (split_into t (text (S.state store.old) (S.number s)) most None) }
{
    let parts = js_replace::split(alloc, store, s, None, most)?;
    Ok(Value::List(parts))
}

// The parts between separators, where the operands of the call have t units, and the separator at
// most 40 more.
fn split_by<S: Strings>(
    alloc: Global,
    store: &mut S,
    s: S::Ref,
    sep: S::Ref,
    most: u32,
) -> Result<Value<S::Ref>, Stop>
    requires known { IsKnown (S.state store.old) (S.number s) }
    requires separator_known { IsKnown (S.state store.old) (S.number sep) }
    ensures grows { Grows (S.state store.old) (S.state store.new) }
    ensures fine { IfOk result (λ v. IsFine (S.state store.new) S.number v) }
    ensures settled { OnOk result (IsSettled (S.state store.new) (S.number s)) }
    ensures separator_settled { OnOk result (IsSettled (S.state store.new) (S.number sep)) }
    ensures did { (t : ℕ) → length (text (S.state store.old) (S.number s))
        + length (text (S.state store.old) (S.number sep)) ≤ t + 40 → GivesValue S.number (S.state store.old)
        (S.state store.new) result
        (split_into t (text (S.state store.old) (S.number s)) most
        (Some (text (S.state store.old) (S.number sep)))) }
{
    let parts = js_replace::split(alloc, store, s, Some(sep), most)?;
    Ok(Value::List(parts))
}

/// `join`.
pub fn call_join<S: Strings>(
    alloc: Global,
    store: &mut S,
    list: &[S::Ref],
    args: &[Value<S::Ref>],
) -> Result<Value<S::Ref>, Stop>
    requires known { AllKnown (S.state store.old) S.number list.now }
    requires args { AllFine (S.state store.old) S.number args.now }
    ensures grows { Grows (S.state store.old) (S.state store.new) }
    ensures fine { IfOk result (λ v. IsFine (S.state store.new) S.number v) }
    ensures settled { OnOk result (AllSettled (S.state store.new) S.number list.now) }
    ensures separator_settled { OnOk result
        (OfFirst (λ v. StringsSettled (S.state store.new) S.number v) args.now) }
    ensures did { GivesValue S.number (S.state store.old) (S.state store.new) result
        (join_call (S.state store.old).limit (texts_seen (S.state store.old) S.number list.now)
        (all_seen (S.state store.old) S.number args.now)) }
{
    if first_is_missing(store, args) {
        return join_with_commas(alloc, store, list);
    }
    let sep = first_text(alloc, store, args)?;
    join_with(alloc, store, list, sep)
}

fn join_with_commas<S: Strings>(
    alloc: Global,
    store: &mut S,
    list: &[S::Ref],
) -> Result<Value<S::Ref>, Stop>
    requires known { AllKnown (S.state store.old) S.number list.now }
    ensures grows { Grows (S.state store.old) (S.state store.new) }
    ensures fine { IfOk result (λ v. IsFine (S.state store.new) S.number v) }
    ensures settled { OnOk result (AllSettled (S.state store.new) S.number list.now) }
    ensures did { (t : ℕ) → list_units (texts_seen (S.state store.old) S.number list.now) ≤ t
        → GivesValue S.number
        (S.state store.old) (S.state store.new) result
        (joined_with (S.state store.old).limit t (texts_seen (S.state store.old) S.number list.now)
        (44 ∷ [])) }
{
    let r = joined_by_commas(alloc, store, list)?;
    Ok(Value::Text(r))
}

// The strings with a separator between two, where the operands of the call have t units, and the
// separator at most 40 more.
fn join_with<S: Strings>(
    alloc: Global,
    store: &mut S,
    list: &[S::Ref],
    sep: S::Ref,
) -> Result<Value<S::Ref>, Stop>
    requires known { AllKnown (S.state store.old) S.number list.now }
    requires separator_known { IsKnown (S.state store.old) (S.number sep) }
    ensures grows { Grows (S.state store.old) (S.state store.new) }
    ensures fine { IfOk result (λ v. IsFine (S.state store.new) S.number v) }
    ensures settled { OnOk result (AllSettled (S.state store.new) S.number list.now) }
    ensures separator_settled { OnOk result (IsSettled (S.state store.new) (S.number sep)) }
    ensures did { (t : ℕ) → list_units (texts_seen (S.state store.old) S.number list.now)
        + length (text (S.state store.old) (S.number sep)) ≤ t + 40 → GivesValue S.number (S.state store.old)
        (S.state store.new) result
        (joined_with (S.state store.old).limit t (texts_seen (S.state store.old) S.number list.now)
        (text (S.state store.old) (S.number sep))) }
{
    let r = js_texts::join(alloc, store, list, sep)?;
    Ok(Value::Text(r))
}
