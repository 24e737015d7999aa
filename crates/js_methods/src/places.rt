// Methods that read at one place.
ghost use Rattle.std.specs.Prelude.{◌≡◌, ◌+◌, ◌<◌, length, IfOk, OnOk, IsSome};
ghost use Rattle.js_store.specs.State.{NamesUnits, IsKnown, IsSettled, text};
ghost use Rattle.js_store.specs.Rows.{wide_words};
ghost use Rattle.js_store.specs.Faults.{Uses};
ghost use Rattle.js_texts.specs.Answers.{method_fault_of, MaybeHas, NeverThrows};
ghost use Rattle.js_number.specs.Places.{IsLawful};
ghost use Rattle.js_methods.specs.Places.{relative_place, exact_place, at_of, char_at_of, char_code_of, code_point_from, code_point_of};

use js_number::Num;
use js_store::Strings;
use js_texts::MethodFault;
use js_units::{code_point, is_lead, is_trail};

/// The string of the one unit at a place, which counts from the end where it is negative, and
/// none where there is no such place ("String.prototype.at").
pub fn at<S: Strings>(store: &mut S, s: S::Ref, i: Num) -> Result<Option<S::Ref>, MethodFault>
    requires known { IsKnown (S.state store.old) (S.number s) }
    requires lawful { IsLawful i }
    ensures value { IfOk result
        (λ r. MaybeHas (S.state store.new) S.number r (at_of (text (S.state store.old) (S.number s)) i)) }
    ensures settled { IsSome (relative_place i (length (text (S.state store.old) (S.number s))))
        → OnOk result (IsSettled (S.state store.new) (S.number s)) }
    ensures throws { NeverThrows result }
    ensures uses { Uses (S.state store.old) (S.state store.new) (method_fault_of result)
        1 (wide_words (length (text (S.state store.old) (S.number s))) + 3) }
{
    let len = store.len(s);
    match place_from_either_end(i, len) {
        None => Ok(None),
        Some(k) => {
            store.settle(s)?;
            Ok(Some(store.slice(s, k, k + 1)?))
        }
    }
}

/// The string of the one unit at a place, empty where there is no such place
/// ("String.prototype.charAt").
pub fn char_at<S: Strings>(store: &mut S, s: S::Ref, i: Num) -> Result<S::Ref, MethodFault>
    requires known { IsKnown (S.state store.old) (S.number s) }
    requires lawful { IsLawful i }
    ensures value { IfOk result
        (λ r. NamesUnits (S.state store.new) (S.number r)
        (char_at_of (text (S.state store.old) (S.number s)) i)) }
    ensures settled { IsSome (exact_place i (length (text (S.state store.old) (S.number s))))
        → OnOk result (IsSettled (S.state store.new) (S.number s)) }
    ensures throws { NeverThrows result }
    ensures uses { Uses (S.state store.old) (S.state store.new) (method_fault_of result)
        1 (wide_words (length (text (S.state store.old) (S.number s))) + 3) }
{
    let len = store.len(s);
    match place_in(i, len) {
        None => Ok(store.from_units(&[])?),
        Some(k) => {
            store.settle(s)?;
            Ok(store.slice(s, k, k + 1)?)
        }
    }
}

/// The unit at a place as a number, NaN where there is no such place
/// ("String.prototype.charCodeAt").
pub fn char_code_at<S: Strings>(store: &mut S, s: S::Ref, i: Num) -> Result<Num, MethodFault>
    requires known { IsKnown (S.state store.old) (S.number s) }
    requires lawful { IsLawful i }
    ensures value { IfOk result (λ r. r ≡ char_code_of (text (S.state store.old) (S.number s)) i) }
    ensures lawful { IfOk result IsLawful }
    ensures settled { IsSome (exact_place i (length (text (S.state store.old) (S.number s))))
        → OnOk result (IsSettled (S.state store.new) (S.number s)) }
    ensures throws { NeverThrows result }
    ensures uses { Uses (S.state store.old) (S.state store.new) (method_fault_of result)
        0 (wide_words (length (text (S.state store.old) (S.number s)))) }
{
    let len = store.len(s);
    match place_in(i, len) {
        None => Ok(Num::NaN),
        Some(k) => {
            store.settle(s)?;
            Ok(Num::Int(i64::from(store.unit_at(s, k))))
        }
    }
}

/// The code point at a place: that of a lead and the trail after it, and else the unit; none
/// where there is no such place ("String.prototype.codePointAt").
pub fn code_point_at<S: Strings>(
    store: &mut S,
    s: S::Ref,
    i: Num,
) -> Result<Option<u32>, MethodFault>
    requires known { IsKnown (S.state store.old) (S.number s) }
    requires lawful { IsLawful i }
    ensures value { IfOk result (λ r. r ≡ code_point_of (text (S.state store.old) (S.number s)) i) }
    ensures settled { IsSome (exact_place i (length (text (S.state store.old) (S.number s))))
        → OnOk result (IsSettled (S.state store.new) (S.number s)) }
    ensures throws { NeverThrows result }
    ensures uses { Uses (S.state store.old) (S.state store.new) (method_fault_of result)
        0 (wide_words (length (text (S.state store.old) (S.number s)))) }
{
    let len = store.len(s);
    match place_in(i, len) {
        None => Ok(None),
        Some(k) => {
            store.settle(s)?;
            Ok(Some(code_point_in(store, s, k, len)))
        }
    }
}

// The code point at a place of a settled string.
fn code_point_in<S: Strings>(store: &mut S, s: S::Ref, k: u32, len: u32) -> u32
    requires known { IsKnown (S.state store.old) (S.number s) }
    requires settled { IsSettled (S.state store.old) (S.number s) }
    requires len { len ≡ length (text (S.state store.old) (S.number s)) }
    requires within { k < len }
    ensures value { result ≡ code_point_from (text (S.state store.old) (S.number s)) k }
    ensures uses { Uses (S.state store.old) (S.state store.new) None 0 0 }
{
    let first = store.unit_at(s, k);
    if !is_lead(first) || k + 1 == len {
        return u32::from(first);
    }
    let second = store.unit_at(s, k + 1);
    if is_trail(second) {
        code_point(first, second)
    } else {
        u32::from(first)
    }
}

// The place below `len` that the number names.
fn place_in(i: Num, len: u32) -> Option<u32>
    requires { IsLawful i }
    ensures { result ≡ exact_place i len }
{
    let place = match i {
        Num::PosInf | Num::NegInf => return None,
        Num::NaN => 0,
        Num::Int(n) => n,
    };
    if 0 <= place && place < i64::from(len) {
        Some(place as u32)
    } else {
        None
    }
}

// The place below `len` that the number names, counted from the end where it is negative.
fn place_from_either_end(i: Num, len: u32) -> Option<u32>
    requires { IsLawful i }
    ensures { result ≡ relative_place i len }
{
    let place = match i {
        Num::PosInf | Num::NegInf => return None,
        Num::NaN => 0,
        Num::Int(n) if n < 0 => n + i64::from(len),
        Num::Int(n) => n,
    };
    if 0 <= place && place < i64::from(len) {
        Some(place as u32)
    } else {
        None
    }
}
