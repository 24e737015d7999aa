// Matches in a string replaced.
ghost use Rattle.std.specs.Prelude.{◌≡◌, ◌+◌, ◌≤◌, ◌++◌, ℕ, List, length, IfOk, OnOk};
ghost use Rattle.js_store.specs.State.{NamesUnits, IsKnown, IsSettled, text};
ghost use Rattle.js_store.specs.Faults.{fault_of, Uses};
ghost use Rattle.js_texts.specs.Answers.{ThrowsLong, full_of};
ghost use Rattle.js_replace.specs.Matches.{AreMatches, first_matches, matches, InOrder};
ghost use Rattle.js_replace.specs.Replaced.{replaced_at, replaced_first, replaced_all};
ghost use Rattle.js_texts.specs.Use.{settling, made_words};

use crate::matching::places;
use crate::pieces::{Shape, push_substituted};
use js_store::{StoreFault, Strings};
use js_texts::{Cause, MethodFault, copied};
use js_units::{NoMemory, Units};
use std::alloc::Global;

/// The string with the first match of `w` replaced by the template, as it expands at that match;
/// the string itself where there is none ("String.prototype.replace").
pub fn replace<S: Strings>(
    alloc: Global,
    store: &mut S,
    s: S::Ref,
    w: S::Ref,
    template: S::Ref,
) -> Result<S::Ref, MethodFault>
    requires known { IsKnown (S.state store.old) (S.number s) }
    requires needle_known { IsKnown (S.state store.old) (S.number w) }
    requires template_known { IsKnown (S.state store.old) (S.number template) }
    ensures value { IfOk result
        (λ r. NamesUnits (S.state store.new) (S.number r)
        (replaced_first (text (S.state store.old) (S.number s)) (text (S.state store.old) (S.number w))
        (text (S.state store.old) (S.number template)))) }
    ensures settled { OnOk result (IsSettled (S.state store.new) (S.number s)) }
    ensures needle_settled { OnOk result (IsSettled (S.state store.new) (S.number w)) }
    ensures template_settled { OnOk result (IsSettled (S.state store.new) (S.number template)) }
    ensures result_settled { IfOk result (λ r. IsSettled (S.state store.new) (S.number r)) }
    ensures throws { ThrowsLong result (S.state store.old).limit
        (length (replaced_first (text (S.state store.old) (S.number s))
        (text (S.state store.old) (S.number w)) (text (S.state store.old) (S.number template)))) }
    ensures uses { Uses (S.state store.old) (S.state store.new) (full_of result)
        1 (settling (S.state store.old) (S.number s) + settling (S.state store.old) (S.number w)
        + settling (S.state store.old) (S.number template)
        + made_words (S.state store.old).limit
        (replaced_first (text (S.state store.old) (S.number s)) (text (S.state store.old) (S.number w))
        (text (S.state store.old) (S.number template)))) }
{
    settle_all(store, s, w, template)?;
    replaced(alloc, store, s, w, template, 1)
}

/// The string with each match of `w` replaced by the template, as it expands at that match
/// ("String.prototype.replaceAll"). A match is searched from the end of the one before it on, or
/// one place further where `w` is empty.
#[tactic(auto, using(crate::proofs::Finding::all_matches, crate::proofs::Replacements::all_is))]
pub fn replace_all<S: Strings>(
    alloc: Global,
    store: &mut S,
    s: S::Ref,
    w: S::Ref,
    template: S::Ref,
) -> Result<S::Ref, MethodFault>
    requires known { IsKnown (S.state store.old) (S.number s) }
    requires needle_known { IsKnown (S.state store.old) (S.number w) }
    requires template_known { IsKnown (S.state store.old) (S.number template) }
    ensures value { IfOk result
        (λ r. NamesUnits (S.state store.new) (S.number r)
        (replaced_all (text (S.state store.old) (S.number s)) (text (S.state store.old) (S.number w))
        (text (S.state store.old) (S.number template)))) }
    ensures settled { OnOk result (IsSettled (S.state store.new) (S.number s)) }
    ensures needle_settled { OnOk result (IsSettled (S.state store.new) (S.number w)) }
    ensures template_settled { OnOk result (IsSettled (S.state store.new) (S.number template)) }
    ensures result_settled { IfOk result (λ r. IsSettled (S.state store.new) (S.number r)) }
    ensures places { AreMatches (text (S.state store.old) (S.number s))
        (text (S.state store.old) (S.number w)) 0
        (matches (text (S.state store.old) (S.number s)) (text (S.state store.old) (S.number w))) }
    ensures throws { ThrowsLong result (S.state store.old).limit
        (length (replaced_all (text (S.state store.old) (S.number s)) (text (S.state store.old) (S.number w))
        (text (S.state store.old) (S.number template)))) }
    ensures uses { Uses (S.state store.old) (S.state store.new) (full_of result)
        1 (settling (S.state store.old) (S.number s) + settling (S.state store.old) (S.number w)
        + settling (S.state store.old) (S.number template)
        + made_words (S.state store.old).limit
        (replaced_all (text (S.state store.old) (S.number s)) (text (S.state store.old) (S.number w))
        (text (S.state store.old) (S.number template)))) }
{
    settle_all(store, s, w, template)?;
    // a match for each place, the end among them
    let most = store.len(s) + 1;
    replaced(alloc, store, s, w, template, most)
}

// All three strings are settled afterwards.
fn settle_all<S: Strings>(
    store: &mut S,
    s: S::Ref,
    w: S::Ref,
    template: S::Ref,
) -> Result<(), StoreFault>
    requires known { IsKnown (S.state store.old) (S.number s) }
    requires needle_known { IsKnown (S.state store.old) (S.number w) }
    requires template_known { IsKnown (S.state store.old) (S.number template) }
    ensures settled { OnOk result (IsSettled (S.state store.new) (S.number s)) }
    ensures needle_settled { OnOk result (IsSettled (S.state store.new) (S.number w)) }
    ensures template_settled { OnOk result (IsSettled (S.state store.new) (S.number template)) }
    ensures uses { Uses (S.state store.old) (S.state store.new) (fault_of result) 0
        (settling (S.state store.old) (S.number s) + settling (S.state store.old) (S.number w) + settling
        (S.state store.old) (S.number template)) }
{
    store.settle(s)?;
    store.settle(w)?;
    store.settle(template)
}

// The settled string with its first `most` matches replaced.
fn replaced<S: Strings>(
    alloc: Global,
    store: &mut S,
    s: S::Ref,
    w: S::Ref,
    template: S::Ref,
    most: u32,
) -> Result<S::Ref, MethodFault>
    requires known { IsKnown (S.state store.old) (S.number s) }
    requires settled { IsSettled (S.state store.old) (S.number s) }
    requires needle_known { IsKnown (S.state store.old) (S.number w) }
    requires needle_settled { IsSettled (S.state store.old) (S.number w) }
    requires template_known { IsKnown (S.state store.old) (S.number template) }
    requires template_settled { IsSettled (S.state store.old) (S.number template) }
    ensures value { IfOk result
        (λ r. NamesUnits (S.state store.new) (S.number r)
        (replaced_at (text (S.state store.old) (S.number s)) (text (S.state store.old) (S.number w))
        (text (S.state store.old) (S.number template)) 0
        (first_matches most (text (S.state store.old) (S.number s))
        (text (S.state store.old) (S.number w)) 0))) }
    ensures result_settled { IfOk result (λ r. IsSettled (S.state store.new) (S.number r)) }
    ensures throws { ThrowsLong result (S.state store.old).limit
        (length (replaced_at (text (S.state store.old) (S.number s)) (text (S.state store.old) (S.number w))
        (text (S.state store.old) (S.number template)) 0
        (first_matches most (text (S.state store.old) (S.number s))
        (text (S.state store.old) (S.number w)) 0))) }
    ensures uses { Uses (S.state store.old) (S.state store.new) (full_of result)
        1 (made_words (S.state store.old).limit
        (replaced_at (text (S.state store.old) (S.number s)) (text (S.state store.old) (S.number w))
        (text (S.state store.old) (S.number template)) 0
        (first_matches most (text (S.state store.old) (S.number s))
        (text (S.state store.old) (S.number w)) 0))) }
{
    let places = places(alloc, store, s, w, most)?;
    let template = copied(alloc, store, template)?;
    with_places(alloc, store, s, w, template.as_slice(), &places)
}

// The settled string with the template in the place of `w` at each of the places.
fn with_places<S: Strings>(
    alloc: Global,
    store: &mut S,
    s: S::Ref,
    w: S::Ref,
    template: &[u16],
    places: &[u32],
) -> Result<S::Ref, MethodFault>
    requires known { IsKnown (S.state store.old) (S.number s) }
    requires settled { IsSettled (S.state store.old) (S.number s) }
    requires needle_known { IsKnown (S.state store.old) (S.number w) }
    requires needle_settled { IsSettled (S.state store.old) (S.number w) }
    requires short { length template.now ≤ 536870888 }
    requires order { InOrder (length (text (S.state store.old) (S.number s)))
        (length (text (S.state store.old) (S.number w))) 0 places.now }
    ensures value { IfOk result
        (λ r. NamesUnits (S.state store.new) (S.number r)
        (replaced_at (text (S.state store.old) (S.number s))
        (text (S.state store.old) (S.number w)) template.now 0 places.now)) }
    ensures result_settled { IfOk result (λ r. IsSettled (S.state store.new) (S.number r)) }
    ensures throws { ThrowsLong result (S.state store.old).limit
        (length (replaced_at (text (S.state store.old) (S.number s))
        (text (S.state store.old) (S.number w)) template.now 0 places.now)) }
    ensures uses { Uses (S.state store.old) (S.state store.new) (full_of result)
        1 (made_words (S.state store.old).limit
        (replaced_at (text (S.state store.old) (S.number s))
        (text (S.state store.old) (S.number w)) template.now 0 places.now)) }
{
    let length = result_len(store, s, w, template, places);
    if length > u128::from(store.limit()) {
        return Err(MethodFault::RangeError(Cause::TooLong { length }));
    }
    if places.is_empty() {
        return Ok(s);
    }
    let text = result_units(alloc, store, s, w, template, places)?;
    Ok(js_texts::make(store, text.as_slice())?)
}

// How many units there are afterwards.
fn result_len<S: Strings>(
    store: &mut S,
    s: S::Ref,
    w: S::Ref,
    template: &[u16],
    places: &[u32],
) -> u128
    requires known { IsKnown (S.state store.old) (S.number s) }
    requires needle_known { IsKnown (S.state store.old) (S.number w) }
    requires short { length template.now ≤ 536870888 }
    requires order { InOrder (length (text (S.state store.old) (S.number s)))
        (length (text (S.state store.old) (S.number w))) 0 places.now }
    ensures value { result ≡ length
        (replaced_at (text (S.state store.old) (S.number s))
        (text (S.state store.old) (S.number w)) template.now 0 places.now) }
    ensures uses { Uses (S.state store.old) (S.state store.new) None 0 0 }
{
    let len = store.len(s);
    let size = store.len(w);
    replaced_len(template, len, size, places)
}

fn result_units<S: Strings>(
    alloc: Global,
    store: &mut S,
    s: S::Ref,
    w: S::Ref,
    template: &[u16],
    places: &[u32],
) -> Result<Units, NoMemory>
    requires known { IsKnown (S.state store.old) (S.number s) }
    requires settled { IsSettled (S.state store.old) (S.number s) }
    requires needle_known { IsKnown (S.state store.old) (S.number w) }
    requires needle_settled { IsSettled (S.state store.old) (S.number w) }
    requires order { InOrder (length (text (S.state store.old) (S.number s)))
        (length (text (S.state store.old) (S.number w))) 0 places.now }
    ensures value { IfOk result
        (λ u. u ≡ replaced_at (text (S.state store.old) (S.number s))
        (text (S.state store.old) (S.number w)) template.now 0 places.now) }
    ensures uses { Uses (S.state store.old) (S.state store.new) None 0 0 }
{
    let s = copied(alloc, store, s)?;
    let w = copied(alloc, store, w)?;
    let mut text = Units::new(alloc);
    push_replaced(&mut text, template, s.as_slice(), w.as_slice(), places)?;
    Ok(text)
}

// How many units a string of `len` units has once the template replaces `size` units
// at each of the places.
fn replaced_len(template: &[u16], len: u32, size: u32, places: &[u32]) -> u128
    requires short { length template.now ≤ 536870888 }
    requires order { InOrder len size 0 places.now }
    ensures { (u w : List ℕ) → length u ≡ len → length w ≡ size
        → result ≡ length (replaced_at u w template.now 0 places.now) }
{
    let shape = Shape::of(template);
    let mut total = 0;
    let mut from = 0;
    for at in places {
        total += u128::from(*at - from) + shape.len_at(len, *at, size);
        from = *at + size;
    }
    total + u128::from(len - from)
}

// Adds the units with the template in the place of `w` at each of the places.
fn push_replaced(
    text: &mut Units,
    template: &[u16],
    s: &[u16],
    w: &[u16],
    places: &[u32],
) -> Result<(), NoMemory>
    requires { InOrder (length s.now) (length w.now) 0 places.now }
    ensures added { OnOk result (text.new ≡ text.old ++ replaced_at s.now w.now template.now 0 places.now) }
{
    let mut from = 0;
    for at in places {
        let place = *at as usize;
        text.extend_from_slice(&s[from..place])?;
        push_substituted(text, template, s, *at, w)?;
        from = place + w.len();
    }
    text.extend_from_slice(&s[from..])
}
