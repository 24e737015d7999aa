// Methods that look for one string in another.
ghost use Rattle.eval_members.specs.Parts.{place_number, search_answer};
ghost use Rattle.std.specs.Prelude.{◌≡◌, ℕ, ◌+◌, ◌≤◌, length, IfOk, OnOk};
ghost use Rattle.js_number.specs.Places.{IsLawful};
ghost use Rattle.js_store.specs.State.{Grows, IsKnown, IsSettled, text};
ghost use Rattle.js_store.specs.Rows.{wide_words};
ghost use Rattle.js_store.specs.Faults.{Uses};
ghost use Rattle.js_texts.specs.Answers.{method_fault_of, NeverThrows};
ghost use Rattle.js_methods.specs.Searching.{ends_at};
ghost use Rattle.js_item.specs.Contents;
ghost use Rattle.js_item.specs.Views.{content_of};
ghost use Rattle.eval_values.specs.Conversions.{to_number, all_units, first_text_units};
ghost use Rattle.eval_values.specs.Arguments.{first_of, second_of, end_in};
ghost use Rattle.eval_members.specs.Searching.{search_call};
ghost use Rattle.eval_members.specs.Methods.{search_of};
ghost use Rattle.eval_values.specs.Stops.{converted_of};
ghost use Rattle.js_item.specs.Seen.{seen};
ghost use Rattle.js_item.specs.Fine.{IsFine};
ghost use Rattle.eval_values.specs.Seen.{all_seen, AllFine, LawfulEnd};
ghost use Rattle.eval_values.specs.Does.{GivesValue};
ghost use Rattle.eval_values.specs.Settled.{OfFirst, StringsSettled};

use eval_values::{Abrupt, Stop, Value, first_text, second_number, second_or_none};
use js_number::Num;
use js_store::Strings;
use js_texts::MethodFault;
use std::alloc::Global;

/// A method on a string and a number.
#[derive(Clone, Copy, Debug, PartialEq, Eq)]
pub enum Search {
    Includes,
    IndexOf,
    LastIndexOf,
    StartsWith,
}

/// `includes`, `indexOf`, `lastIndexOf` or `startsWith`.
pub fn call_search<S: Strings>(
    alloc: Global,
    store: &mut S,
    at: u32,
    search: Search,
    s: S::Ref,
    args: &[Value<S::Ref>],
) -> Result<Value<S::Ref>, Stop>
    requires known { IsKnown (S.state store.old) (S.number s) }
    requires args { AllFine (S.state store.old) S.number args.now }
    ensures grows { Grows (S.state store.old) (S.state store.new) }
    ensures fine { IfOk result (λ v. IsFine (S.state store.new) S.number v) }
    ensures settled { OnOk result (IsSettled (S.state store.new) (S.number s)) }
    ensures needle_settled { OnOk result
        (OfFirst (λ v. StringsSettled (S.state store.new) S.number v) args.now) }
    ensures did { GivesValue S.number (S.state store.old) (S.state store.new) result
        (search_call (S.state store.old).limit
        (length (text (S.state store.old) (S.number s))
        + all_units (all_seen (S.state store.old) S.number args.now))
        (length (text (S.state store.old) (S.number s))
        + first_text_units (all_seen (S.state store.old) S.number args.now))
        (search_of search (text (S.state store.old) (S.number s)))
        (first_of (all_seen (S.state store.old) S.number args.now))
        (to_number at (second_of (all_seen (S.state store.old) S.number args.now)))) }
{
    let place = second_number(store, at, args);
    let w = first_text(alloc, store, args)?;
    find(store, search, s, w, place)
}

// What is found, where the operands of the call have t units and the two strings at most 40 more.
fn find<S: Strings>(
    store: &mut S,
    search: Search,
    s: S::Ref,
    w: S::Ref,
    place: Result<Num, Abrupt>,
) -> Result<Value<S::Ref>, Stop>
    requires known { IsKnown (S.state store.old) (S.number s) }
    requires needle_known { IsKnown (S.state store.old) (S.number w) }
    requires lawful { IfOk place IsLawful }
    ensures grows { Grows (S.state store.old) (S.state store.new) }
    ensures fine { IfOk result (λ v. IsFine (S.state store.new) S.number v) }
    ensures settled { OnOk result (IsSettled (S.state store.new) (S.number s)) }
    ensures needle_settled { OnOk result (IsSettled (S.state store.new) (S.number w)) }
    ensures did { (t : ℕ) → length (text (S.state store.old) (S.number s))
        + length (text (S.state store.old) (S.number w)) ≤ t + 40 → GivesValue S.number (S.state store.old)
        (S.state store.new) result
        (search_answer t (search_of search (text (S.state store.old) (S.number s))
        (text (S.state store.old) (S.number w))) (converted_of place)) }
{
    let n = place?;
    Ok(searched(store, search, s, w, n)?)
}

fn searched<S: Strings>(
    store: &mut S,
    search: Search,
    s: S::Ref,
    w: S::Ref,
    n: Num,
) -> Result<Value<S::Ref>, MethodFault>
    requires known { IsKnown (S.state store.old) (S.number s) }
    requires needle_known { IsKnown (S.state store.old) (S.number w) }
    requires lawful { IsLawful n }
    ensures value { IfOk result
        (λ v. seen (S.state store.new) S.number v ≡ search_of search (text (S.state store.old) (S.number s))
        (text (S.state store.old) (S.number w)) n) }
    ensures fine { IfOk result (λ v. IsFine (S.state store.new) S.number v) }
    ensures settled { OnOk result (IsSettled (S.state store.new) (S.number s)) }
    ensures needle_settled { OnOk result (IsSettled (S.state store.new) (S.number w)) }
    ensures throws { NeverThrows result }
    ensures uses { Uses (S.state store.old) (S.state store.new) (method_fault_of result)
        0 (wide_words (length (text (S.state store.old) (S.number s)))
        + wide_words (length (text (S.state store.old) (S.number w)))) }
{
    match search {
        Search::Includes => Ok(Value::Bool(js_methods::searching::includes(store, s, w, n)?)),
        Search::IndexOf => Ok(place_value(js_methods::searching::index_of(store, s, w, n)?)),
        Search::LastIndexOf => Ok(place_value(js_methods::searching::last_index_of(
            store, s, w, n,
        )?)),
        Search::StartsWith => Ok(Value::Bool(js_methods::searching::starts_with(store, s, w, n)?)),
    }
}

// A place as a number, -1 where there is none.
fn place_value<R>(place: Option<u32>) -> Value<R>
    ensures value { content_of result ≡ Contents.number (place_number place) }
    ensures lawful { IsLawful (place_number place) }
{
    match place {
        Some(k) => Value::Number(Num::Int(i64::from(k))),
        None => Value::Number(Num::Int(-1)),
    }
}

/// `endsWith`.
pub fn call_ends_with<S: Strings>(
    alloc: Global,
    store: &mut S,
    at: u32,
    s: S::Ref,
    args: &[Value<S::Ref>],
) -> Result<Value<S::Ref>, Stop>
    requires known { IsKnown (S.state store.old) (S.number s) }
    requires args { AllFine (S.state store.old) S.number args.now }
    ensures grows { Grows (S.state store.old) (S.state store.new) }
    ensures fine { IfOk result (λ v. IsFine (S.state store.new) S.number v) }
    ensures settled { OnOk result (IsSettled (S.state store.new) (S.number s)) }
    ensures needle_settled { OnOk result
        (OfFirst (λ v. StringsSettled (S.state store.new) S.number v) args.now) }
    ensures did { GivesValue S.number (S.state store.old) (S.state store.new) result
        (search_call (S.state store.old).limit
        (length (text (S.state store.old) (S.number s))
        + all_units (all_seen (S.state store.old) S.number args.now))
        (length (text (S.state store.old) (S.number s))
        + first_text_units (all_seen (S.state store.old) S.number args.now))
        (λ x e. Contents.bool (ends_at (text (S.state store.old) (S.number s)) x e))
        (first_of (all_seen (S.state store.old) S.number args.now))
        (end_in at (second_of (all_seen (S.state store.old) S.number args.now)))) }
{
    let end = second_or_none(store, at, args);
    let w = first_text(alloc, store, args)?;
    find_end(store, s, w, end)
}

fn find_end<S: Strings>(
    store: &mut S,
    s: S::Ref,
    w: S::Ref,
    end: Result<Option<Num>, Abrupt>,
) -> Result<Value<S::Ref>, Stop>
    requires known { IsKnown (S.state store.old) (S.number s) }
    requires needle_known { IsKnown (S.state store.old) (S.number w) }
    requires lawful { IfOk end LawfulEnd }
    ensures grows { Grows (S.state store.old) (S.state store.new) }
    ensures fine { IfOk result (λ v. IsFine (S.state store.new) S.number v) }
    ensures settled { OnOk result (IsSettled (S.state store.new) (S.number s)) }
    ensures needle_settled { OnOk result (IsSettled (S.state store.new) (S.number w)) }
    ensures did { (t : ℕ) → length (text (S.state store.old) (S.number s))
        + length (text (S.state store.old) (S.number w)) ≤ t + 40 → GivesValue S.number (S.state store.old)
        (S.state store.new) result
        (search_answer t (λ e. Contents.bool
        (ends_at (text (S.state store.old) (S.number s)) (text (S.state store.old) (S.number w)) e))
        (converted_of end)) }
{
    let end = end?;
    let ends = js_methods::searching::ends_with(store, s, w, end)?;
    Ok(Value::Bool(ends))
}
