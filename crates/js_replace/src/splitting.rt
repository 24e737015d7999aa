// A string split into a list.
ghost use Rattle.std.specs.Prelude.{◌≡◌, ◌+◌, ◌-◌, ◌<◌, ◌≤◌, ◌++◌, ◌∷◌, [], length, take, slice_range, IfOk, IfErr, OnOk, IfSome, Some};
ghost use Rattle.std.specs.Option.{option_map};
ghost use Rattle.js_store.specs.State.{IsKnown, IsSettled, text};
ghost use Rattle.js_store.specs.Faults.{Uses};
ghost use Rattle.js_store.specs.Rows.{copy_words};
ghost use Rattle.js_texts.specs.Answers.{NeverThrows, full_of};
ghost use Rattle.js_texts.specs.Texts.{known_texts, AllKnown, full_fault_of};
ghost use Rattle.js_replace.specs.Matches.{InOrder};
ghost use Rattle.js_replace.specs.Fronts;
ghost use Rattle.js_replace.specs.Parts;
ghost use Rattle.js_replace.specs.Parts.{pieces};
ghost use Rattle.js_texts.specs.Use.{settling};
ghost use Rattle.js_replace.specs.Use.{copies_words, split_ids, split_words};

use crate::matching::places;
use js_store::{StoreFault, Strings};
use js_texts::MethodFault;
use std::alloc::Global;

/// The parts of the string between the matches of the separator, at most `limit` of them: the
/// string itself where no separator is given, and its single units where that is empty
/// ("String.prototype.split"). It throws nothing.
pub fn split<S: Strings>(
    alloc: Global,
    store: &mut S,
    s: S::Ref,
    sep: Option<S::Ref>,
    limit: u32,
) -> Result<Vec<S::Ref>, MethodFault>
    requires known { IsKnown (S.state store.old) (S.number s) }
    requires separator_known { IfSome sep (λ r. IsKnown (S.state store.old) (S.number r)) }
    ensures value { IfOk result
        (λ v. known_texts (S.state store.new) S.number v.items
        ≡ Parts.parts (text (S.state store.old) (S.number s))
        (option_map (λ r. text (S.state store.old) (S.number r)) sep) limit) }
    ensures known { IfOk result (λ v. AllKnown (S.state store.new) S.number v.items) }
    ensures settled { IfSome sep
        (λ r. OnOk result
        (IsSettled (S.state store.new) (S.number s) × IsSettled (S.state store.new) (S.number r))) }
    ensures throws { NeverThrows result }
    ensures uses { Uses (S.state store.old) (S.state store.new) (full_of result)
        (split_ids (S.state store.old) S.number s sep limit)
        (split_words (S.state store.old) S.number s sep limit) }
{
    match sep {
        None => Ok(whole(alloc, store, s, limit)?),
        Some(sep) => Ok(split_by(alloc, store, s, sep, limit)?),
    }
}

// The string as the one part, unless none is requested.
fn whole<S: Strings>(
    alloc: Global,
    store: &S,
    s: S::Ref,
    limit: u32,
) -> Result<Vec<S::Ref>, StoreFault>
    requires { IsKnown (S.state store.now) (S.number s) }
    ensures value { IfOk result
        (λ v. known_texts (S.state store.now) S.number v.items
        ≡ take limit (text (S.state store.now) (S.number s) ∷ [])) }
    ensures known { IfOk result (λ v. AllKnown (S.state store.now) S.number v.items) }
    ensures fault { IfErr result (λ f. f ≡ StoreFault.Memory) }
{
    let mut parts = Vec::new(alloc);
    if limit == 0 {
        return Ok(parts);
    }
    keep::<S>(&mut parts, s)?;
    Ok(parts)
}

fn split_by<S: Strings>(
    alloc: Global,
    store: &mut S,
    s: S::Ref,
    sep: S::Ref,
    limit: u32,
) -> Result<Vec<S::Ref>, StoreFault>
    requires known { IsKnown (S.state store.old) (S.number s) }
    requires separator_known { IsKnown (S.state store.old) (S.number sep) }
    ensures value { IfOk result
        (λ v. known_texts (S.state store.new) S.number v.items
        ≡ Parts.parts (text (S.state store.old) (S.number s))
        (Some (text (S.state store.old) (S.number sep))) limit) }
    ensures known { IfOk result (λ v. AllKnown (S.state store.new) S.number v.items) }
    ensures settled { OnOk result (IsSettled (S.state store.new) (S.number s)) }
    ensures separator_settled { OnOk result (IsSettled (S.state store.new) (S.number sep)) }
    ensures uses { Uses (S.state store.old) (S.state store.new) (full_fault_of result)
        (length (Parts.parts (text (S.state store.old) (S.number s))
        (Some (text (S.state store.old) (S.number sep))) limit))
        (settling (S.state store.old) (S.number s) + settling (S.state store.old) (S.number sep)
        + copies_words (Parts.parts (text (S.state store.old) (S.number s))
        (Some (text (S.state store.old) (S.number sep))) limit)) }
{
    store.settle(s)?;
    store.settle(sep)?;
    split_settled(alloc, store, s, sep, limit)
}

#[tactic(auto, using(crate::proofs::Cutting::by_empty, crate::proofs::Cutting::by_places))]
fn split_settled<S: Strings>(
    alloc: Global,
    store: &mut S,
    s: S::Ref,
    sep: S::Ref,
    limit: u32,
) -> Result<Vec<S::Ref>, StoreFault>
    requires known { IsKnown (S.state store.old) (S.number s) }
    requires settled { IsSettled (S.state store.old) (S.number s) }
    requires separator_known { IsKnown (S.state store.old) (S.number sep) }
    requires separator_settled { IsSettled (S.state store.old) (S.number sep) }
    ensures value { IfOk result
        (λ v. known_texts (S.state store.new) S.number v.items
        ≡ Parts.parts (text (S.state store.old) (S.number s))
        (Some (text (S.state store.old) (S.number sep))) limit) }
    ensures known { IfOk result (λ v. AllKnown (S.state store.new) S.number v.items) }
    ensures uses { Uses (S.state store.old) (S.state store.new) (full_fault_of result)
        (length (Parts.parts (text (S.state store.old) (S.number s))
        (Some (text (S.state store.old) (S.number sep))) limit))
        (copies_words (Parts.parts (text (S.state store.old) (S.number s))
        (Some (text (S.state store.old) (S.number sep))) limit)) }
{
    let len = store.len(s);
    let size = store.len(sep);
    if size == 0 {
        return single_units(alloc, store, s, limit);
    }
    let places = places(alloc, store, s, sep, limit.min(len + 1))?;
    cut_at(alloc, store, s, size, &places, limit)
}

// Each unit by itself, at most `limit` of them.
fn single_units<S: Strings>(
    alloc: Global,
    store: &mut S,
    s: S::Ref,
    limit: u32,
) -> Result<Vec<S::Ref>, StoreFault>
    requires known { IsKnown (S.state store.old) (S.number s) }
    requires settled { IsSettled (S.state store.old) (S.number s) }
    ensures value { IfOk result
        (λ v. known_texts (S.state store.new) S.number v.items
        ≡ take limit (Fronts.singles (text (S.state store.old) (S.number s)))) }
    ensures known { IfOk result (λ v. AllKnown (S.state store.new) S.number v.items) }
    ensures uses { Uses (S.state store.old) (S.state store.new) (full_fault_of result)
        (length (take limit (Fronts.singles (text (S.state store.old) (S.number s)))))
        (copies_words (take limit (Fronts.singles (text (S.state store.old) (S.number s))))) }
{
    let most = store.len(s).min(limit);
    let mut parts = Vec::new(alloc);
    for i in 0..most {
        push_part(store, s, i, i + 1, &mut parts)?;
    }
    Ok(parts)
}

// The pieces between separators of `size` units at the places, the rest last, at most `limit` of
// them.
fn cut_at<S: Strings>(
    alloc: Global,
    store: &mut S,
    s: S::Ref,
    size: u32,
    places: &[u32],
    limit: u32,
) -> Result<Vec<S::Ref>, StoreFault>
    requires known { IsKnown (S.state store.old) (S.number s) }
    requires settled { IsSettled (S.state store.old) (S.number s) }
    requires order { InOrder (length (text (S.state store.old) (S.number s))) size 0 places.now }
    requires count { length places.now ≤ limit }
    ensures value { IfOk result
        (λ v. known_texts (S.state store.new) S.number v.items
        ≡ take limit (pieces (text (S.state store.old) (S.number s)) size 0 places.now)) }
    ensures known { IfOk result (λ v. AllKnown (S.state store.new) S.number v.items) }
    ensures uses { Uses (S.state store.old) (S.state store.new) (full_fault_of result)
        (length (take limit (pieces (text (S.state store.old) (S.number s)) size 0 places.now)))
        (copies_words (take limit (pieces (text (S.state store.old) (S.number s)) size 0 places.now))) }
{
    let len = store.len(s);
    let mut parts = Vec::new(alloc);
    let mut from = 0;
    for at in places {
        push_part(store, s, from, *at, &mut parts)?;
        from = *at + size;
    }
    if places.len() == limit as usize {
        return Ok(parts);
    }
    push_part(store, s, from, len, &mut parts)?;
    Ok(parts)
}

// Cuts one more part out of a settled string.
#[tactic(auto, using(crate::proofs::Cutting::texts_push, crate::proofs::Cutting::known_push, crate::proofs::Cutting::cut_copy))]
fn push_part<S: Strings>(
    store: &mut S,
    s: S::Ref,
    from: u32,
    to: u32,
    parts: &mut Vec<S::Ref>,
) -> Result<(), StoreFault>
    requires known { IsKnown (S.state store.old) (S.number s) }
    requires settled { IsSettled (S.state store.old) (S.number s) }
    requires order { from ≤ to }
    requires within { to ≤ length (text (S.state store.old) (S.number s)) }
    requires parts_known { AllKnown (S.state store.old) S.number parts.old.items }
    ensures added { OnOk result
        (known_texts (S.state store.new) S.number parts.new.items
        ≡ known_texts (S.state store.old) S.number parts.old.items ++ slice_range
        (text (S.state store.old) (S.number s)) from to ∷ []) }
    ensures known { OnOk result (AllKnown (S.state store.new) S.number parts.new.items) }
    ensures uses { Uses (S.state store.old) (S.state store.new) (full_fault_of result) 1
        (copy_words (to - from)) }
{
    let part = store.slice(s, from, to)?;
    keep::<S>(parts, part)
}

// Adds a string to a list.
fn keep<S: Strings>(parts: &mut Vec<S::Ref>, part: S::Ref) -> Result<(), StoreFault>
    ensures added { OnOk result (parts.new.items ≡ parts.old.items ++ part ∷ []) }
    ensures fault { IfErr result (λ f. f ≡ StoreFault.Memory) }
{
    match parts.push(part) {
        Ok(()) => Ok(()),
        Err(_) => Err(StoreFault::Memory),
    }
}
