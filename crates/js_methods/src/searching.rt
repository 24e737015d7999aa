// Methods that look for one string in another.
ghost use Rattle.std.specs.Prelude.{◌≡◌, ◌+◌, ◌≤◌, length, IfOk, IfSome, OnOk};
ghost use Rattle.js_store.specs.State.{IsKnown, IsSettled, text};
ghost use Rattle.js_store.specs.Rows.{wide_words};
ghost use Rattle.js_store.specs.Faults.{fault_of, Uses};
ghost use Rattle.js_texts.specs.Answers.{method_fault_of, NeverThrows};
ghost use Rattle.js_number.specs.Places.{IsLawful};
ghost use Rattle.js_methods.specs.Searching.{index_from, includes_from, last_index_up_to, limit_of, starts_at, ends_at};

use js_number::Num;
use js_store::{StoreFault, Strings};
use js_texts::MethodFault;

/// Whether `w` ends in `s` at `end`, which is the string's end where it is none
/// ("String.prototype.endsWith").
pub fn ends_with<S: Strings>(
    store: &mut S,
    s: S::Ref,
    w: S::Ref,
    end: Option<Num>,
) -> Result<bool, MethodFault>
    requires known { IsKnown (S.state store.old) (S.number s) }
    requires needle_known { IsKnown (S.state store.old) (S.number w) }
    requires lawful { IfSome end IsLawful }
    ensures value { IfOk result
        (λ r. r ≡ ends_at (text (S.state store.old) (S.number s))
        (text (S.state store.old) (S.number w)) end) }
    ensures throws { NeverThrows result }
    ensures settled { OnOk result (IsSettled (S.state store.new) (S.number s)) }
    ensures needle_settled { OnOk result (IsSettled (S.state store.new) (S.number w)) }
    ensures uses { Uses (S.state store.old) (S.state store.new) (method_fault_of result)
        0 (wide_words (length (text (S.state store.old) (S.number s)))
        + wide_words (length (text (S.state store.old) (S.number w)))) }
{
    let len = store.len(s);
    let end = end.map_or(len, |end| end.clamp_to(len));
    settle_both(store, s, w)?;
    let size = store.len(w);
    Ok(size <= end && js_search::stands_at(store, s, w, end - size))
}

/// Whether `w` occurs in `s` at `from` or later ("String.prototype.includes").
pub fn includes<S: Strings>(
    store: &mut S,
    s: S::Ref,
    w: S::Ref,
    from: Num,
) -> Result<bool, MethodFault>
    requires known { IsKnown (S.state store.old) (S.number s) }
    requires needle_known { IsKnown (S.state store.old) (S.number w) }
    requires lawful { IsLawful from }
    ensures value { IfOk result
        (λ r. r ≡ includes_from (text (S.state store.old) (S.number s))
        (text (S.state store.old) (S.number w)) from) }
    ensures throws { NeverThrows result }
    ensures settled { OnOk result (IsSettled (S.state store.new) (S.number s)) }
    ensures needle_settled { OnOk result (IsSettled (S.state store.new) (S.number w)) }
    ensures uses { Uses (S.state store.old) (S.state store.new) (method_fault_of result)
        0 (wide_words (length (text (S.state store.old) (S.number s)))
        + wide_words (length (text (S.state store.old) (S.number w)))) }
{
    Ok(index_of(store, s, w, from)?.is_some())
}

/// The least place at `from` or later at which `w` occurs in `s` ("String.prototype.indexOf").
pub fn index_of<S: Strings>(
    store: &mut S,
    s: S::Ref,
    w: S::Ref,
    from: Num,
) -> Result<Option<u32>, MethodFault>
    requires known { IsKnown (S.state store.old) (S.number s) }
    requires needle_known { IsKnown (S.state store.old) (S.number w) }
    requires lawful { IsLawful from }
    ensures value { IfOk result
        (λ r. r ≡ index_from (text (S.state store.old) (S.number s))
        (text (S.state store.old) (S.number w)) from) }
    ensures throws { NeverThrows result }
    ensures settled { OnOk result (IsSettled (S.state store.new) (S.number s)) }
    ensures needle_settled { OnOk result (IsSettled (S.state store.new) (S.number w)) }
    ensures uses { Uses (S.state store.old) (S.state store.new) (method_fault_of result)
        0 (wide_words (length (text (S.state store.old) (S.number s)))
        + wide_words (length (text (S.state store.old) (S.number w)))) }
{
    let len = store.len(s);
    settle_both(store, s, w)?;
    Ok(js_search::index_of(store, s, w, from.clamp_to(len)))
}

/// The greatest place at most `limit` at which `w` occurs in `s`; NaN is no limit
/// ("String.prototype.lastIndexOf").
pub fn last_index_of<S: Strings>(
    store: &mut S,
    s: S::Ref,
    w: S::Ref,
    limit: Num,
) -> Result<Option<u32>, MethodFault>
    requires known { IsKnown (S.state store.old) (S.number s) }
    requires needle_known { IsKnown (S.state store.old) (S.number w) }
    requires lawful { IsLawful limit }
    ensures value { IfOk result
        (λ r. r ≡ last_index_up_to (text (S.state store.old) (S.number s))
        (text (S.state store.old) (S.number w)) limit) }
    ensures throws { NeverThrows result }
    ensures settled { OnOk result (IsSettled (S.state store.new) (S.number s)) }
    ensures needle_settled { OnOk result (IsSettled (S.state store.new) (S.number w)) }
    ensures uses { Uses (S.state store.old) (S.state store.new) (method_fault_of result)
        0 (wide_words (length (text (S.state store.old) (S.number s)))
        + wide_words (length (text (S.state store.old) (S.number w)))) }
{
    let len = store.len(s);
    let most = match limit {
        Num::NaN => len,
        limit => limit.clamp_to(len),
    };
    settle_both(store, s, w)?;
    Ok(js_search::last_index_of(store, s, w, most))
}

/// Whether `w` occurs in `s` at `from` ("String.prototype.startsWith").
pub fn starts_with<S: Strings>(
    store: &mut S,
    s: S::Ref,
    w: S::Ref,
    from: Num,
) -> Result<bool, MethodFault>
    requires known { IsKnown (S.state store.old) (S.number s) }
    requires needle_known { IsKnown (S.state store.old) (S.number w) }
    requires lawful { IsLawful from }
    ensures value { IfOk result
        (λ r. r ≡ starts_at (text (S.state store.old) (S.number s))
        (text (S.state store.old) (S.number w)) from) }
    ensures throws { NeverThrows result }
    ensures settled { OnOk result (IsSettled (S.state store.new) (S.number s)) }
    ensures needle_settled { OnOk result (IsSettled (S.state store.new) (S.number w)) }
    ensures uses { Uses (S.state store.old) (S.state store.new) (method_fault_of result)
        0 (wide_words (length (text (S.state store.old) (S.number s)))
        + wide_words (length (text (S.state store.old) (S.number w)))) }
{
    let len = store.len(s);
    settle_both(store, s, w)?;
    Ok(js_search::stands_at(store, s, w, from.clamp_to(len)))
}

// Both strings are settled afterwards.
fn settle_both<S: Strings>(store: &mut S, s: S::Ref, w: S::Ref) -> Result<(), StoreFault>
    requires known { IsKnown (S.state store.old) (S.number s) }
    requires needle_known { IsKnown (S.state store.old) (S.number w) }
    ensures settled { OnOk result (IsSettled (S.state store.new) (S.number s)) }
    ensures needle_settled { OnOk result (IsSettled (S.state store.new) (S.number w)) }
    ensures uses { Uses (S.state store.old) (S.state store.new) (fault_of result)
        0 (wide_words (length (text (S.state store.old) (S.number s)))
        + wide_words (length (text (S.state store.old) (S.number w)))) }
{
    store.settle(s)?;
    store.settle(w)
}
