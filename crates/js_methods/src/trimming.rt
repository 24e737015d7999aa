// Methods that trim white space.
ghost use Rattle.std.specs.Prelude.{◌≡◌, ◌+◌, ◌*◌, ◌≤◌, ℕ, ◌-◌, length, drop, reverse, slice_range, IfOk, OnOk};
ghost use Rattle.js_store.specs.State.{NamesUnits, IsKnown, IsSettled, text};
ghost use Rattle.js_store.specs.Rows.{wide_words, cut_ids, cut_words};
ghost use Rattle.js_store.specs.Faults.{Uses};
ghost use Rattle.js_texts.specs.Answers.{method_fault_of, ThrowsLong};
ghost use Rattle.js_methods.specs.Trimming.{trimmed, trimmed_start, trimmed_end};
ghost use Rattle.js_methods.specs.Blanks.{blanks};

use js_store::Strings;
use js_texts::{Cause, MethodFault};
use js_units::is_trimmed;

/// The string without the white space at both ends ("String.prototype.trim").
pub fn trim<S: Strings>(store: &mut S, s: S::Ref) -> Result<S::Ref, MethodFault>
    requires known { IsKnown (S.state store.old) (S.number s) }
    ensures value { IfOk result
        (λ r. NamesUnits (S.state store.new) (S.number r) (trimmed (text (S.state store.old) (S.number s)))) }
    ensures settled { OnOk result (IsSettled (S.state store.new) (S.number s)) }
    ensures result_settled { IfOk result (λ r. IsSettled (S.state store.new) (S.number r)) }
    ensures throws { ThrowsLong result (S.state store.old).limit
        (length (trimmed (text (S.state store.old) (S.number s)))) }
    ensures uses { Uses (S.state store.old) (S.state store.new) (method_fault_of result)
        1 (2 * wide_words (length (text (S.state store.old) (S.number s))) + 3) }
{
    store.settle(s)?;
    let from = start_of_rest(store, s);
    let to = end_of_rest(store, s, from);
    part(store, s, from, to)
}

/// The string without the white space at its end ("String.prototype.trimEnd").
pub fn trim_end<S: Strings>(store: &mut S, s: S::Ref) -> Result<S::Ref, MethodFault>
    requires known { IsKnown (S.state store.old) (S.number s) }
    ensures value { IfOk result
        (λ r. NamesUnits (S.state store.new) (S.number r)
        (trimmed_end (text (S.state store.old) (S.number s)))) }
    ensures settled { OnOk result (IsSettled (S.state store.new) (S.number s)) }
    ensures result_settled { IfOk result (λ r. IsSettled (S.state store.new) (S.number r)) }
    ensures throws { ThrowsLong result (S.state store.old).limit
        (length (trimmed_end (text (S.state store.old) (S.number s)))) }
    ensures uses { Uses (S.state store.old) (S.state store.new) (method_fault_of result)
        1 (2 * wide_words (length (text (S.state store.old) (S.number s))) + 3) }
{
    store.settle(s)?;
    let to = end_of_rest(store, s, 0);
    part(store, s, 0, to)
}

/// The string without the white space at its start ("String.prototype.trimStart").
pub fn trim_start<S: Strings>(store: &mut S, s: S::Ref) -> Result<S::Ref, MethodFault>
    requires known { IsKnown (S.state store.old) (S.number s) }
    ensures value { IfOk result
        (λ r. NamesUnits (S.state store.new) (S.number r)
        (trimmed_start (text (S.state store.old) (S.number s)))) }
    ensures settled { OnOk result (IsSettled (S.state store.new) (S.number s)) }
    ensures result_settled { IfOk result (λ r. IsSettled (S.state store.new) (S.number r)) }
    ensures throws { ThrowsLong result (S.state store.old).limit
        (length (trimmed_start (text (S.state store.old) (S.number s)))) }
    ensures uses { Uses (S.state store.old) (S.state store.new) (method_fault_of result)
        1 (2 * wide_words (length (text (S.state store.old) (S.number s))) + 3) }
{
    store.settle(s)?;
    let from = start_of_rest(store, s);
    let to = store.len(s);
    part(store, s, from, to)
}

// The place of the first unit that isn't white space, or the string's end.
fn start_of_rest<S: Strings>(store: &mut S, s: S::Ref) -> u32
    requires known { IsKnown (S.state store.old) (S.number s) }
    requires settled { IsSettled (S.state store.old) (S.number s) }
    ensures value { result ≡ blanks (text (S.state store.old) (S.number s)) }
    ensures within { result ≤ length (text (S.state store.old) (S.number s)) }
    ensures uses { Uses (S.state store.old) (S.state store.new) None 0 0 }
{
    let len = store.len(s);
    for i in 0..len {
        if !is_trimmed(store.unit_at(s, i)) {
            return i;
        }
    }
    len
}

// The place after the last unit from `from` on that isn't white space, or `from`.
fn end_of_rest<S: Strings>(store: &mut S, s: S::Ref, from: u32) -> u32
    requires known { IsKnown (S.state store.old) (S.number s) }
    requires settled { IsSettled (S.state store.old) (S.number s) }
    requires within { from ≤ length (text (S.state store.old) (S.number s)) }
    ensures value { result + blanks (reverse (drop from (text (S.state store.old) (S.number s))))
        ≡ length (text (S.state store.old) (S.number s)) }
    ensures order { from ≤ result }
    ensures uses { Uses (S.state store.old) (S.state store.new) None 0 0 }
{
    let len = store.len(s);
    for i in (from..len).rev() {
        if !is_trimmed(store.unit_at(s, i)) {
            return i + 1;
        }
    }
    from
}

// The part of a settled string, unless it is longer than a string may be.
fn part<S: Strings>(store: &mut S, s: S::Ref, from: u32, to: u32) -> Result<S::Ref, MethodFault>
    requires known { IsKnown (S.state store.old) (S.number s) }
    requires settled { IsSettled (S.state store.old) (S.number s) }
    requires order { from ≤ to }
    requires within { to ≤ length (text (S.state store.old) (S.number s)) }
    ensures value { IfOk result
        (λ r. NamesUnits (S.state store.new) (S.number r)
        (slice_range (text (S.state store.old) (S.number s)) from to)) }
    ensures settled { IfOk result (λ r. IsSettled (S.state store.new) (S.number r)) }
    ensures throws { ThrowsLong result (S.state store.old).limit (to - from) }
    ensures uses { Uses (S.state store.old) (S.state store.new) (method_fault_of result)
        1 (wide_words (length (text (S.state store.old) (S.number s))) + 3) }
{
    if to - from > store.limit() {
        let length = u128::from(to - from);
        return Err(MethodFault::RangeError(Cause::TooLong { length }));
    }
    Ok(store.slice(s, from, to)?)
}
