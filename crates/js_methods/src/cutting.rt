// Methods that cut a part out of a string.
ghost use Rattle.std.specs.Prelude.{◌+◌, ◌*◌, ◌≤◌, length, slice_range, IfOk, OnOk, IfSome};
ghost use Rattle.js_store.specs.State.{NamesUnits, IsKnown, IsSettled, text};
ghost use Rattle.js_store.specs.Rows.{wide_words};
ghost use Rattle.js_store.specs.Faults.{Uses};
ghost use Rattle.js_texts.specs.Answers.{method_fault_of, ThrowsLong};
ghost use Rattle.js_number.specs.Places.{IsLawful};
ghost use Rattle.js_methods.specs.Cutting.{slice_of, substring_of, substr_of};

use js_number::Num;
use js_store::Strings;
use js_texts::{Cause, MethodFault};

/// The part from `start` to before `end`, which is the string's end where it is none; both count
/// from the end where they are negative, and the part is empty where `start` isn't before `end`
/// ("String.prototype.slice").
pub fn slice<S: Strings>(
    store: &mut S,
    s: S::Ref,
    start: Num,
    end: Option<Num>,
) -> Result<S::Ref, MethodFault>
    requires known { IsKnown (S.state store.old) (S.number s) }
    requires first { IsLawful start }
    requires last { IfSome end IsLawful }
    ensures value { IfOk result
        (λ r. NamesUnits (S.state store.new) (S.number r)
        (slice_of (text (S.state store.old) (S.number s)) start end)) }
    ensures settled { OnOk result (IsSettled (S.state store.new) (S.number s)) }
    ensures throws { ThrowsLong result (S.state store.old).limit
        (length (slice_of (text (S.state store.old) (S.number s)) start end)) }
    ensures uses { Uses (S.state store.old) (S.state store.new) (method_fault_of result)
        1 (2 * wide_words (length (text (S.state store.old) (S.number s))) + 3) }
{
    let len = store.len(s);
    let from = start.relative_to(len);
    let to = end.map_or(len, |end| end.relative_to(len)).max(from);
    cut(store, s, from, to)
}

/// `count` units from `start` on, or as many as there are; `start` counts from the end where it
/// is negative, and no `count` gives all that follow ("String.prototype.substr").
pub fn substr<S: Strings>(
    store: &mut S,
    s: S::Ref,
    start: Num,
    count: Option<Num>,
) -> Result<S::Ref, MethodFault>
    requires known { IsKnown (S.state store.old) (S.number s) }
    requires first { IsLawful start }
    requires units { IfSome count IsLawful }
    ensures value { IfOk result
        (λ r. NamesUnits (S.state store.new) (S.number r)
        (substr_of (text (S.state store.old) (S.number s)) start count)) }
    ensures settled { OnOk result (IsSettled (S.state store.new) (S.number s)) }
    ensures throws { ThrowsLong result (S.state store.old).limit
        (length (substr_of (text (S.state store.old) (S.number s)) start count)) }
    ensures uses { Uses (S.state store.old) (S.state store.new) (method_fault_of result)
        1 (2 * wide_words (length (text (S.state store.old) (S.number s))) + 3) }
{
    let len = store.len(s);
    let first = start.relative_to(len);
    let count = count.map_or(len, |count| count.clamp_to(len));
    cut(store, s, first, first + count.min(len - first))
}

/// The part between `start` and `end`, which is the string's end where it is none; the smaller
/// of the two is the first place, and a negative one is 0 ("String.prototype.substring").
pub fn substring<S: Strings>(
    store: &mut S,
    s: S::Ref,
    start: Num,
    end: Option<Num>,
) -> Result<S::Ref, MethodFault>
    requires known { IsKnown (S.state store.old) (S.number s) }
    requires first { IsLawful start }
    requires last { IfSome end IsLawful }
    ensures value { IfOk result
        (λ r. NamesUnits (S.state store.new) (S.number r)
        (substring_of (text (S.state store.old) (S.number s)) start end)) }
    ensures settled { OnOk result (IsSettled (S.state store.new) (S.number s)) }
    ensures throws { ThrowsLong result (S.state store.old).limit
        (length (substring_of (text (S.state store.old) (S.number s)) start end)) }
    ensures uses { Uses (S.state store.old) (S.state store.new) (method_fault_of result)
        1 (2 * wide_words (length (text (S.state store.old) (S.number s))) + 3) }
{
    let len = store.len(s);
    let first = start.clamp_to(len);
    let last = end.map_or(len, |end| end.clamp_to(len));
    cut(store, s, first.min(last), first.max(last))
}

// The part between two places, which are in order.
fn cut<S: Strings>(store: &mut S, s: S::Ref, from: u32, to: u32) -> Result<S::Ref, MethodFault>
    requires known { IsKnown (S.state store.old) (S.number s) }
    requires order { from ≤ to }
    requires within { to ≤ length (text (S.state store.old) (S.number s)) }
    ensures value { IfOk result
        (λ r. NamesUnits (S.state store.new) (S.number r)
        (slice_range (text (S.state store.old) (S.number s)) from to)) }
    ensures settled { OnOk result (IsSettled (S.state store.new) (S.number s)) }
    ensures throws { ThrowsLong result (S.state store.old).limit
        (length (slice_range (text (S.state store.old) (S.number s)) from to)) }
    ensures uses { Uses (S.state store.old) (S.state store.new) (method_fault_of result)
        1 (2 * wide_words (length (text (S.state store.old) (S.number s))) + 3) }
{
    let length = to - from;
    if length > store.limit() {
        let length = u128::from(length);
        return Err(MethodFault::RangeError(Cause::TooLong { length }));
    }
    store.settle(s)?;
    Ok(store.slice(s, from, to)?)
}
