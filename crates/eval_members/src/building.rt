// Methods that build another string.
ghost use Rattle.eval_members.specs.Parts.{one_joined, filled};
ghost use Rattle.eval_values.specs.Within.{within};
ghost use Rattle.std.specs.Prelude.{ℕ, IfOk, OnOk, ◌+◌, ◌-◌, ◌∷◌, [], length, ◌≤◌};
ghost use Rattle.js_store.specs.State.{Grows, IsKnown, text, NamesUnits, IsSettled};
ghost use Rattle.js_texts.specs.Texts.{Every};
ghost use Rattle.eval_members.specs.Building.{joined_text, concat_call, padded, pad_call, repeat_call};
ghost use Rattle.js_item.specs.Seen.{seen};
ghost use Rattle.js_item.specs.Fine.{IsFine};
ghost use Rattle.eval_values.specs.Seen.{all_seen, AllFine};
ghost use Rattle.eval_values.specs.Does.{GivesValue, GivesText};
ghost use Rattle.eval_values.specs.Settled.{ElementsSettled};
ghost use Rattle.eval_values.specs.RowNames.{pad_ids, pad_words};
ghost use Rattle.js_store.specs.Faults.{Uses};
ghost use Rattle.js_texts.specs.Answers.{method_fault_of, ThrowsLong};
ghost use Rattle.js_methods.specs.Building as methods;
ghost use Rattle.eval_values.specs.Conversions.{to_number};
ghost use Rattle.eval_values.specs.Arguments.{first_of, second_of, second_units};
ghost use Rattle.eval_members.specs.Methods.{padded_of, FillerSettled, PadSettled};
ghost use Rattle.js_units.specs.Text.{well};
ghost use Rattle.eval_values.specs.Limited.{limited};

use eval_values::{Kind, Stop, Value, first_number, second_is_missing, second_text, to_text};
use js_store::Strings;
use js_texts::MethodFault;
use std::alloc::Global;

/// `concat`.
pub fn call_concat<S: Strings>(
    alloc: Global,
    store: &mut S,
    s: S::Ref,
    args: &[Value<S::Ref>],
) -> Result<Value<S::Ref>, Stop>
    requires known { IsKnown (S.state store.old) (S.number s) }
    requires args { AllFine (S.state store.old) S.number args.now }
    ensures grows { Grows (S.state store.old) (S.state store.new) }
    ensures fine { IfOk result (λ v. IsFine (S.state store.new) S.number v) }
    ensures read { OnOk result (Every (λ v. ElementsSettled (S.state store.new) S.number v) args.now) }
    ensures did { GivesValue S.number (S.state store.old) (S.state store.new) result
        (concat_call (S.state store.old).limit (text (S.state store.old) (S.number s))
        (all_seen (S.state store.old) S.number args.now)) }
{
    let mut text = s;
    for value in args {
        text = join_one(alloc, store, text, value)?;
    }
    itself(store, text)
}

// One more argument, as a string, behind what was joined so far.
fn join_one<S: Strings>(
    alloc: Global,
    store: &mut S,
    s: S::Ref,
    value: &Value<S::Ref>,
) -> Result<S::Ref, Stop>
    requires known { IsKnown (S.state store.old) (S.number s) }
    requires fine { IsFine (S.state store.old) S.number value.now }
    ensures grows { Grows (S.state store.old) (S.state store.new) }
    ensures known { IfOk result (λ r. IsKnown (S.state store.new) (S.number r)) }
    ensures read { OnOk result (ElementsSettled (S.state store.new) S.number value.now) }
    ensures did { GivesText S.number (S.state store.old) (S.state store.new) result
        (one_joined (S.state store.old).limit (text (S.state store.old) (S.number s))
        (seen (S.state store.old) S.number value.now)) }
{
    let w = to_text(alloc, store, value)?;
    append(store, s, w)
}

// Two strings joined, unless they are longer together than a string may be.
fn append<S: Strings>(store: &mut S, s: S::Ref, w: S::Ref) -> Result<S::Ref, Stop>
    requires left { IsKnown (S.state store.old) (S.number s) }
    requires right { IsKnown (S.state store.old) (S.number w) }
    ensures grows { Grows (S.state store.old) (S.state store.new) }
    ensures known { IfOk result (λ r. IsKnown (S.state store.new) (S.number r)) }
    ensures did { GivesText S.number (S.state store.old) (S.state store.new) result
        (joined_text (S.state store.old).limit (text (S.state store.old) (S.number s))
        (text (S.state store.old) (S.number w))) }
{
    Ok(js_methods::building::concat(store, s, w)?)
}

/// The string itself, unless it is longer than a string may be.
pub fn itself<S: Strings>(store: &mut S, s: S::Ref) -> Result<Value<S::Ref>, Stop>
    requires { IsKnown (S.state store.old) (S.number s) }
    ensures grows { Grows (S.state store.old) (S.state store.new) }
    ensures fine { IfOk result (λ v. IsFine (S.state store.new) S.number v) }
    ensures did { (ids : ℕ) (words : ℕ → ℕ)
        → GivesValue S.number (S.state store.old) (S.state store.new) result
        (within (S.state store.old).limit ids words (text (S.state store.old) (S.number s))) }
{
    if store.len(s) > store.limit() {
        Err(Stop::Threw(Kind::RangeError))
    } else {
        Ok(Value::Text(s))
    }
}

/// A method that adds a filler at one side.
#[derive(Clone, Copy, Debug, PartialEq, Eq)]
pub enum Pad {
    Start,
    End,
}

/// `padStart` or `padEnd`.
pub fn call_pad<S: Strings>(
    alloc: Global,
    store: &mut S,
    at: u32,
    pad: Pad,
    s: S::Ref,
    args: &[Value<S::Ref>],
) -> Result<Value<S::Ref>, Stop>
    requires known { IsKnown (S.state store.old) (S.number s) }
    requires args { AllFine (S.state store.old) S.number args.now }
    ensures grows { Grows (S.state store.old) (S.state store.new) }
    ensures fine { IfOk result (λ v. IsFine (S.state store.new) S.number v) }
    ensures filler_settled { OnOk result (PadSettled (S.state store.new) S.number
        (length (text (S.state store.old) (S.number s)))
        (second_units (all_seen (S.state store.old) S.number args.now))
        (to_number at (first_of (all_seen (S.state store.old) S.number args.now))) args.now) }
    ensures did { GivesValue S.number (S.state store.old) (S.state store.new) result
        (pad_call (S.state store.old).limit (padded_of pad (text (S.state store.old) (S.number s)))
        (text (S.state store.old) (S.number s))
        (to_number at (first_of (all_seen (S.state store.old) S.number args.now)))
        (second_of (all_seen (S.state store.old) S.number args.now))) }
{
    let n = first_number(store, at, args)?;
    pad_to(alloc, store, pad, s, n.to_length(), args)
}

// The string padded to `max` units; the filler is looked at only where units are missing.
fn pad_to<S: Strings>(
    alloc: Global,
    store: &mut S,
    pad: Pad,
    s: S::Ref,
    max: u64,
    args: &[Value<S::Ref>],
) -> Result<Value<S::Ref>, Stop>
    requires known { IsKnown (S.state store.old) (S.number s) }
    requires args { AllFine (S.state store.old) S.number args.now }
    ensures grows { Grows (S.state store.old) (S.state store.new) }
    ensures fine { IfOk result (λ v. IsFine (S.state store.new) S.number v) }
    ensures filler_settled { OnOk result (FillerSettled (S.state store.new) S.number
        (max - length (text (S.state store.old) (S.number s)))
        (second_units (all_seen (S.state store.old) S.number args.now)) args.now) }
    ensures did { GivesValue S.number (S.state store.old) (S.state store.new) result
        (padded (S.state store.old).limit (padded_of pad (text (S.state store.old) (S.number s)))
        (text (S.state store.old) (S.number s)) max
        (second_of (all_seen (S.state store.old) S.number args.now))) }
{
    let len = store.len(s);
    if max <= u64::from(len) {
        itself(store, s)
    } else {
        fill(alloc, store, pad, s, max, args)
    }
}

fn fill<S: Strings>(
    alloc: Global,
    store: &mut S,
    pad: Pad,
    s: S::Ref,
    max: u64,
    args: &[Value<S::Ref>],
) -> Result<Value<S::Ref>, Stop>
    requires known { IsKnown (S.state store.old) (S.number s) }
    requires args { AllFine (S.state store.old) S.number args.now }
    ensures grows { Grows (S.state store.old) (S.state store.new) }
    ensures fine { IfOk result (λ v. IsFine (S.state store.new) S.number v) }
    ensures filler_settled { OnOk result (FillerSettled (S.state store.new) S.number
        (max - length (text (S.state store.old) (S.number s)))
        (second_units (all_seen (S.state store.old) S.number args.now)) args.now) }
    ensures did { GivesValue S.number (S.state store.old) (S.state store.new) result
        (filled (S.state store.old).limit (padded_of pad (text (S.state store.old) (S.number s)))
        (text (S.state store.old) (S.number s)) max
        (second_of (all_seen (S.state store.old) S.number args.now))) }
{
    if second_is_missing(store, args) {
        return pad_with_space(store, pad, s, max);
    }
    let w = second_text(alloc, store, args)?;
    pad_with(store, pad, s, max, w)
}

fn pad_with_space<S: Strings>(
    store: &mut S,
    pad: Pad,
    s: S::Ref,
    max: u64,
) -> Result<Value<S::Ref>, Stop>
    requires { IsKnown (S.state store.old) (S.number s) }
    ensures grows { Grows (S.state store.old) (S.state store.new) }
    ensures fine { IfOk result (λ v. IsFine (S.state store.new) S.number v) }
    ensures did { GivesValue S.number (S.state store.old) (S.state store.new) result
        (within (S.state store.old).limit pad_ids
        (λ _. pad_words (length (text (S.state store.old) (S.number s)) + 1))
        (padded_of pad (text (S.state store.old) (S.number s)) max (32 ∷ []))) }
{
    let r = padded_with_space(store, pad, s, max)?;
    Ok(Value::Text(r))
}

fn padded_with_space<S: Strings>(
    store: &mut S,
    pad: Pad,
    s: S::Ref,
    max: u64,
) -> Result<S::Ref, MethodFault>
    requires { IsKnown (S.state store.old) (S.number s) }
    ensures value { IfOk result
        (λ r. NamesUnits (S.state store.new) (S.number r)
        (padded_of pad (text (S.state store.old) (S.number s)) max (32 ∷ []))) }
    ensures throws { ThrowsLong result (S.state store.old).limit
        (length (padded_of pad (text (S.state store.old) (S.number s)) max (32 ∷ []))) }
    ensures uses { Uses (S.state store.old) (S.state store.new) (method_fault_of result) pad_ids
        (pad_words (length (text (S.state store.old) (S.number s)) + 1)) }
{
    let space = store.from_units(&[32])?;
    padded_with(store, pad, s, max, space)
}

fn pad_with<S: Strings>(
    store: &mut S,
    pad: Pad,
    s: S::Ref,
    max: u64,
    w: S::Ref,
) -> Result<Value<S::Ref>, Stop>
    requires known { IsKnown (S.state store.old) (S.number s) }
    requires filler_known { IsKnown (S.state store.old) (S.number w) }
    ensures grows { Grows (S.state store.old) (S.state store.new) }
    ensures fine { IfOk result (λ v. IsFine (S.state store.new) S.number v) }
    ensures filler_settled { methods.CutsFiller
        (max - length (text (S.state store.old) (S.number s)))
        (length (text (S.state store.old) (S.number w)))
        → OnOk result (IsSettled (S.state store.new) (S.number w)) }
    ensures did { GivesValue S.number (S.state store.old) (S.state store.new) result
        (within (S.state store.old).limit pad_ids
        (λ _. pad_words
        (length (text (S.state store.old) (S.number s))
        + length (text (S.state store.old) (S.number w))))
        (padded_of pad (text (S.state store.old) (S.number s)) max
        (text (S.state store.old) (S.number w)))) }
{
    let r = padded_with(store, pad, s, max, w)?;
    Ok(Value::Text(r))
}

fn padded_with<S: Strings>(
    store: &mut S,
    pad: Pad,
    s: S::Ref,
    max: u64,
    w: S::Ref,
) -> Result<S::Ref, MethodFault>
    requires known { IsKnown (S.state store.old) (S.number s) }
    requires filler_known { IsKnown (S.state store.old) (S.number w) }
    ensures value { IfOk result
        (λ r. NamesUnits (S.state store.new) (S.number r)
        (padded_of pad (text (S.state store.old) (S.number s)) max
        (text (S.state store.old) (S.number w)))) }
    ensures filler_settled { methods.CutsFiller
        (max - length (text (S.state store.old) (S.number s)))
        (length (text (S.state store.old) (S.number w)))
        → OnOk result (IsSettled (S.state store.new) (S.number w)) }
    ensures throws { ThrowsLong result (S.state store.old).limit
        (length (padded_of pad (text (S.state store.old) (S.number s)) max
        (text (S.state store.old) (S.number w)))) }
    ensures uses { Uses (S.state store.old) (S.state store.new) (method_fault_of result) methods.pad_used_ids
        (methods.pad_used_words (length (text (S.state store.old) (S.number w)))) }
{
    match pad {
        Pad::Start => js_methods::building::pad_start(store, s, max, w),
        Pad::End => js_methods::building::pad_end(store, s, max, w),
    }
}

/// `repeat`.
pub fn call_repeat<S: Strings>(
    store: &mut S,
    at: u32,
    s: S::Ref,
    args: &[Value<S::Ref>],
) -> Result<Value<S::Ref>, Stop>
    requires known { IsKnown (S.state store.old) (S.number s) }
    requires args { AllFine (S.state store.old) S.number args.now }
    ensures grows { Grows (S.state store.old) (S.state store.new) }
    ensures fine { IfOk result (λ v. IsFine (S.state store.new) S.number v) }
    ensures did { GivesValue S.number (S.state store.old) (S.state store.new) result
        (repeat_call (S.state store.old).limit (text (S.state store.old) (S.number s))
        (to_number at (first_of (all_seen (S.state store.old) S.number args.now)))) }
{
    let n = first_number(store, at, args)?;
    let r = js_methods::building::repeat(store, s, n)?;
    Ok(Value::Text(r))
}

/// `toWellFormed`.
pub fn call_to_well_formed<S: Strings>(
    alloc: Global,
    store: &mut S,
    s: S::Ref,
) -> Result<Value<S::Ref>, Stop>
    requires known { IsKnown (S.state store.old) (S.number s) }
    ensures grows { Grows (S.state store.old) (S.state store.new) }
    ensures fine { IfOk result (λ v. IsFine (S.state store.new) S.number v) }
    ensures settled { OnOk result (IsSettled (S.state store.new) (S.number s)) }
    ensures did { (t : ℕ) → length (text (S.state store.old) (S.number s)) ≤ t → GivesValue S.number
        (S.state store.old) (S.state store.new) result
        (limited (S.state store.old).limit t (well (text (S.state store.old) (S.number s)))) }
{
    let r = js_methods::building::to_well_formed(alloc, store, s)?;
    Ok(Value::Text(r))
}
