// Lists of strings joined.
ghost use Rattle.std.specs.Prelude.{◌≡◌, ◌+◌, ◌++◌, length, IfOk, IfErr, OnOk};
ghost use Rattle.js_store.specs.State.{NamesUnits, IsKnown, IsSettled, text as text_of};
ghost use Rattle.js_store.specs.Faults.{Uses};
ghost use Rattle.js_texts.specs.Answers.{ThrowsLong, full_of};
ghost use Rattle.js_texts.specs.Texts.{known_texts, AllKnown, AllSettled, settle_most, full_fault_of};
ghost use Rattle.js_texts.specs.Joined.{joined, with_each};
ghost use Rattle.js_texts.specs.Use.{settling, made_words};

use crate::faults::{Cause, MethodFault};
use crate::making::make;
use crate::reading::read;
use js_store::{StoreFault, Strings};
use js_units::Units;
use std::alloc::Global;

/// The strings of the list with the separator between two ("Array.prototype.join").
#[tactic(auto, using(crate::proofs::Lists::texts_still, crate::proofs::Lists::all_known_still, crate::proofs::Lists::settle_still, crate::proofs::Lists::all_settled_still))]
pub fn join<S: Strings>(
    alloc: Global,
    store: &mut S,
    parts: &[S::Ref],
    sep: S::Ref,
) -> Result<S::Ref, MethodFault>
    requires known { AllKnown (S.state store.old) S.number parts.now }
    requires separator_known { IsKnown (S.state store.old) (S.number sep) }
    ensures value { IfOk result
        (λ r. NamesUnits (S.state store.new) (S.number r)
        (joined (text_of (S.state store.old) (S.number sep))
        (known_texts (S.state store.old) S.number parts.now))) }
    ensures parts_settled { OnOk result (AllSettled (S.state store.new) S.number parts.now) }
    ensures separator_settled { OnOk result (IsSettled (S.state store.new) (S.number sep)) }
    ensures result_settled { IfOk result (λ r. IsSettled (S.state store.new) (S.number r)) }
    ensures throws { ThrowsLong result (S.state store.old).limit
        (length (joined (text_of (S.state store.old) (S.number sep))
        (known_texts (S.state store.old) S.number parts.now))) }
    ensures uses { Uses (S.state store.old) (S.state store.new) (full_of result)
        1 (settle_most (S.state store.old) S.number parts.now + settling (S.state store.old) (S.number sep)
        + made_words (S.state store.old).limit
        (joined (text_of (S.state store.old) (S.number sep))
        (known_texts (S.state store.old) S.number parts.now))) }
{
    let length = joined_len(store, parts, sep);
    if length > u128::from(store.limit()) {
        return Err(MethodFault::RangeError(Cause::TooLong { length }));
    }
    let text = joined_units(alloc, store, parts, sep)?;
    Ok(make(store, text.as_slice())?)
}

// How many units the strings have with the separator between two.
#[tactic(auto, using(crate::proofs::Separators::joined_length))]
fn joined_len<S: Strings>(store: &mut S, parts: &[S::Ref], sep: S::Ref) -> u128
    requires known { AllKnown (S.state store.old) S.number parts.now }
    requires separator_known { IsKnown (S.state store.old) (S.number sep) }
    ensures value { result ≡ length
        (joined (text_of (S.state store.old) (S.number sep))
        (known_texts (S.state store.old) S.number parts.now)) }
    ensures uses { Uses (S.state store.old) (S.state store.new) None 0 0 }
{
    let size = u128::from(store.len(sep));
    // the separator is counted before each string, the first among them
    let mut len = 0;
    for s in parts {
        len += size + u128::from(store.len(*s));
    }
    len.saturating_sub(size)
}

#[tactic(auto, using(crate::proofs::Lists::texts_still, crate::proofs::Lists::all_known_still, crate::proofs::Lists::settle_still))]
fn joined_units<S: Strings>(
    alloc: Global,
    store: &mut S,
    parts: &[S::Ref],
    sep: S::Ref,
) -> Result<Units, StoreFault>
    requires known { AllKnown (S.state store.old) S.number parts.now }
    requires separator_known { IsKnown (S.state store.old) (S.number sep) }
    ensures value { IfOk result
        (λ u. u ≡ joined (text_of (S.state store.old) (S.number sep))
        (known_texts (S.state store.old) S.number parts.now)) }
    ensures parts_settled { OnOk result (AllSettled (S.state store.new) S.number parts.now) }
    ensures separator_settled { OnOk result (IsSettled (S.state store.new) (S.number sep)) }
    ensures uses { Uses (S.state store.old) (S.state store.new) (full_fault_of result) 0
        (settle_most (S.state store.old) S.number parts.now + settling (S.state store.old) (S.number sep)) }
{
    let sep = read(alloc, store, sep)?;
    let mut text = Units::new(alloc);
    append_joined(alloc, store, parts, sep.as_slice(), &mut text)?;
    Ok(text)
}

// Adds the strings with the separator between two.
fn append_joined<S: Strings>(
    alloc: Global,
    store: &mut S,
    parts: &[S::Ref],
    sep: &[u16],
    text: &mut Units,
) -> Result<(), StoreFault>
    requires { AllKnown (S.state store.old) S.number parts.now }
    ensures added { OnOk result
        (text.new ≡ text.old ++ joined sep.now (known_texts (S.state store.old) S.number parts.now)) }
    ensures settled { OnOk result (AllSettled (S.state store.new) S.number parts.now) }
    ensures uses { Uses (S.state store.old) (S.state store.new) (full_fault_of result) 0
        (settle_most (S.state store.old) S.number parts.now) }
{
    match parts {
        [] => Ok(()),
        [first, rest @ ..] => {
            append(alloc, store, *first, text)?;
            append_rest(alloc, store, rest, sep, text)
        }
    }
}

// Adds the separator and the string for each of the strings.
fn append_rest<S: Strings>(
    alloc: Global,
    store: &mut S,
    rest: &[S::Ref],
    sep: &[u16],
    text: &mut Units,
) -> Result<(), StoreFault>
    requires { AllKnown (S.state store.old) S.number rest.now }
    ensures added { OnOk result
        (text.new ≡ text.old ++ with_each sep.now (known_texts (S.state store.old) S.number rest.now)) }
    ensures settled { OnOk result (AllSettled (S.state store.new) S.number rest.now) }
    ensures uses { Uses (S.state store.old) (S.state store.new) (full_fault_of result) 0
        (settle_most (S.state store.old) S.number rest.now) }
{
    for s in rest {
        push_units(text, sep)?;
        append(alloc, store, *s, text)?;
    }
    Ok(())
}

// Adds a string.
fn append<S: Strings>(
    alloc: Global,
    store: &mut S,
    s: S::Ref,
    text: &mut Units,
) -> Result<(), StoreFault>
    requires { IsKnown (S.state store.old) (S.number s) }
    ensures added { OnOk result (text.new ≡ text.old ++ text_of (S.state store.old) (S.number s)) }
    ensures settled { OnOk result (IsSettled (S.state store.new) (S.number s)) }
    ensures uses { Uses (S.state store.old) (S.state store.new) (full_fault_of result) 0
        (settling (S.state store.old) (S.number s)) }
{
    let units = read(alloc, store, s)?;
    push_units(text, units.as_slice())
}

fn push_units(text: &mut Units, units: &[u16]) -> Result<(), StoreFault>
    ensures added { OnOk result (text.new ≡ text.old ++ units.now) }
    ensures fault { IfErr result (λ f. f ≡ StoreFault.Memory) }
{
    match text.extend_from_slice(units) {
        Ok(()) => Ok(()),
        Err(_) => Err(StoreFault::Memory),
    }
}
