// What a template expands to at a match.
ghost use Rattle.std.specs.Prelude.{◌≡◌, ◌+◌, ◌≤◌, length, IfOk, OnOk};
ghost use Rattle.js_store.specs.State.{NamesUnits, IsKnown, IsSettled, text};
ghost use Rattle.js_store.specs.Faults.{Uses};
ghost use Rattle.js_texts.specs.Answers.{ThrowsLong, full_of};
ghost use Rattle.js_texts.specs.Texts.{full_fault_of};
ghost use Rattle.js_search.specs.Places.{IsPartAt};
ghost use Rattle.js_replace.specs.Substitution.{substituted};
ghost use Rattle.js_texts.specs.Use.{settling, made_words};

use crate::pieces::{Shape, push_substituted};
use js_store::{StoreFault, Strings};
use js_texts::{Cause, MethodFault, read};
use js_units::Units;
use std::alloc::Global;

/// The template as it expands at the match of `w`, which occurs in `s` at `at`: `$$` gives a
/// dollar sign, `$&` the match, `` $` `` the part of `s` before it and `$'` the part after it; all
/// else denotes itself ("GetSubstitution", without captures).
pub fn substitution<S: Strings>(
    alloc: Global,
    store: &mut S,
    template: S::Ref,
    s: S::Ref,
    at: u32,
    w: S::Ref,
) -> Result<S::Ref, MethodFault>
    requires template_known { IsKnown (S.state store.old) (S.number template) }
    requires known { IsKnown (S.state store.old) (S.number s) }
    requires match_known { IsKnown (S.state store.old) (S.number w) }
    requires stands { IsPartAt (text (S.state store.old) (S.number s))
        (text (S.state store.old) (S.number w)) at }
    ensures value { IfOk result
        (λ r. NamesUnits (S.state store.new) (S.number r)
        (substituted (text (S.state store.old) (S.number template)) (text (S.state store.old) (S.number s)) at
        (text (S.state store.old) (S.number w)))) }
    ensures template_settled { OnOk result (IsSettled (S.state store.new) (S.number template)) }
    ensures settled { OnOk result (IsSettled (S.state store.new) (S.number s)) }
    ensures match_settled { OnOk result (IsSettled (S.state store.new) (S.number w)) }
    ensures result_settled { IfOk result (λ r. IsSettled (S.state store.new) (S.number r)) }
    ensures throws { ThrowsLong result (S.state store.old).limit
        (length (substituted (text (S.state store.old) (S.number template))
        (text (S.state store.old) (S.number s)) at (text (S.state store.old) (S.number w)))) }
    ensures uses { Uses (S.state store.old) (S.state store.new) (full_of result)
        1 (settling (S.state store.old) (S.number template) + settling (S.state store.old) (S.number s)
        + settling (S.state store.old) (S.number w)
        + made_words (S.state store.old).limit
        (substituted (text (S.state store.old) (S.number template)) (text (S.state store.old) (S.number s)) at
        (text (S.state store.old) (S.number w)))) }
{
    let template = read(alloc, store, template)?;
    let length = match_len(store, template.as_slice(), s, at, w);
    if length > u128::from(store.limit()) {
        return Err(MethodFault::RangeError(Cause::TooLong { length }));
    }
    let text = match_units(alloc, store, template.as_slice(), s, at, w)?;
    Ok(js_texts::make(store, text.as_slice())?)
}

// How many units the template expands to.
fn match_len<S: Strings>(store: &mut S, template: &[u16], s: S::Ref, at: u32, w: S::Ref) -> u128
    requires short { length template.now ≤ 536870888 }
    requires known { IsKnown (S.state store.old) (S.number s) }
    requires match_known { IsKnown (S.state store.old) (S.number w) }
    requires stands { IsPartAt (text (S.state store.old) (S.number s))
        (text (S.state store.old) (S.number w)) at }
    ensures value { result ≡ length
        (substituted template.now (text (S.state store.old) (S.number s)) at
        (text (S.state store.old) (S.number w))) }
    ensures uses { Uses (S.state store.old) (S.state store.new) None 0 0 }
{
    let len = store.len(s);
    let size = store.len(w);
    Shape::of(template).len_at(len, at, size)
}

fn match_units<S: Strings>(
    alloc: Global,
    store: &mut S,
    template: &[u16],
    s: S::Ref,
    at: u32,
    w: S::Ref,
) -> Result<Units, StoreFault>
    requires known { IsKnown (S.state store.old) (S.number s) }
    requires match_known { IsKnown (S.state store.old) (S.number w) }
    requires stands { IsPartAt (text (S.state store.old) (S.number s))
        (text (S.state store.old) (S.number w)) at }
    ensures value { IfOk result
        (λ u. u ≡ substituted template.now (text (S.state store.old) (S.number s)) at
        (text (S.state store.old) (S.number w))) }
    ensures settled { OnOk result (IsSettled (S.state store.new) (S.number s)) }
    ensures match_settled { OnOk result (IsSettled (S.state store.new) (S.number w)) }
    ensures uses { Uses (S.state store.old) (S.state store.new) (full_fault_of result) 0
        (settling (S.state store.old) (S.number s) + settling (S.state store.old) (S.number w)) }
{
    let s = read(alloc, store, s)?;
    let w = read(alloc, store, w)?;
    let mut text = Units::new(alloc);
    push_substituted(&mut text, template, s.as_slice(), at, w.as_slice())?;
    Ok(text)
}
