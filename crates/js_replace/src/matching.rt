// The places of matches.
ghost use Rattle.std.specs.Prelude.{◌≡◌, ◌≤◌, length, IfOk};
ghost use Rattle.js_store.specs.State.{IsKnown, IsSettled, text};
ghost use Rattle.js_store.specs.Faults.{Uses};
ghost use Rattle.js_search.specs.Places.{first};
ghost use Rattle.js_replace.specs.Matches.{first_matches, InOrder};

use js_store::Strings;
use js_units::NoMemory;
use std::alloc::Global;

/// The places of the first `most` matches of `w` in `s`.
#[tactic(auto, using(crate::proofs::Finding::in_order, crate::proofs::Finding::count))]
pub fn places<S: Strings>(
    alloc: Global,
    store: &mut S,
    s: S::Ref,
    w: S::Ref,
    most: u32,
) -> Result<Vec<u32>, NoMemory>
    requires known { IsKnown (S.state store.old) (S.number s) }
    requires settled { IsSettled (S.state store.old) (S.number s) }
    requires needle_known { IsKnown (S.state store.old) (S.number w) }
    requires needle_settled { IsSettled (S.state store.old) (S.number w) }
    ensures value { IfOk result
        (λ v. v.items
        ≡ first_matches most (text (S.state store.old) (S.number s))
        (text (S.state store.old) (S.number w)) 0) }
    ensures order { IfOk result
        (λ v. InOrder (length (text (S.state store.old) (S.number s)))
        (length (text (S.state store.old) (S.number w))) 0 v.items) }
    ensures count { IfOk result (λ v. length v.items ≤ most) }
    ensures uses { Uses (S.state store.old) (S.state store.new) None 0 0 }
{
    let places = found_places(alloc, store, s, w, most)?;
    Ok(places)
}

fn found_places<S: Strings>(
    alloc: Global,
    store: &mut S,
    s: S::Ref,
    w: S::Ref,
    most: u32,
) -> Result<Vec<u32>, NoMemory>
    requires known { IsKnown (S.state store.old) (S.number s) }
    requires settled { IsSettled (S.state store.old) (S.number s) }
    requires needle_known { IsKnown (S.state store.old) (S.number w) }
    requires needle_settled { IsSettled (S.state store.old) (S.number w) }
    ensures value { IfOk result
        (λ v. v.items
        ≡ first_matches most (text (S.state store.old) (S.number s))
        (text (S.state store.old) (S.number w)) 0) }
    ensures uses { Uses (S.state store.old) (S.state store.new) None 0 0 }
{
    let size = store.len(w).max(1);
    let mut places = Vec::new(alloc);
    let mut from = 0;
    for _turn in 0..most {
        match next_place(store, s, w, from) {
            None => return Ok(places),
            Some(at) => {
                places.push(at)?;
                from = at + size;
            }
        }
    }
    Ok(places)
}

// The least place from `from` on at which `w` occurs; none where that is past the end.
#[tactic(auto, using(crate::proofs::Finding::none_past))]
fn next_place<S: Strings>(store: &mut S, s: S::Ref, w: S::Ref, from: u32) -> Option<u32>
    requires known { IsKnown (S.state store.old) (S.number s) }
    requires settled { IsSettled (S.state store.old) (S.number s) }
    requires needle_known { IsKnown (S.state store.old) (S.number w) }
    requires needle_settled { IsSettled (S.state store.old) (S.number w) }
    ensures value { result ≡ first (text (S.state store.old) (S.number s))
        (text (S.state store.old) (S.number w)) from }
    ensures uses { Uses (S.state store.old) (S.state store.new) None 0 0 }
{
    if from > store.len(s) {
        return None;
    }
    js_search::index_of(store, s, w, from)
}
