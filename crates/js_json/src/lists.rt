// Arrays of strings as JSON text.
ghost use Rattle.std.specs.Prelude.{◌≡◌, ◌+◌, ◌*◌, ◌≤◌, ◌++◌, ◌∷◌, [], length, IfOk, OnOk, IfErr};
ghost use Rattle.js_store.specs.State.{NamesUnits, IsKnown, IsSettled, text as text_of};
ghost use Rattle.js_store.specs.Rows.{settle_words};
ghost use Rattle.js_store.specs.Faults.{Uses};
ghost use Rattle.js_texts.specs.Answers.{ThrowsLong, full_of};
ghost use Rattle.js_json.specs.Quoting.{quoted, elements, list_rest, list_text};
ghost use Rattle.js_texts.specs.Texts.{known_texts, AllKnown, AllSettled, settle_most, full_fault_of};
ghost use Rattle.js_texts.specs.Use.{made_ids, made_words};

use crate::escapes::{push_quoted, quoted_len};
use js_store::{StoreFault, Strings};
use js_texts::{Cause, MethodFault, read};
use js_units::Units;
use std::alloc::Global;

/// The array of the strings: a bracket at both ends, each string as `quote` has it, and a comma
/// between two ("SerializeJSONArray"). The length is found before anything of that size is made,
/// so that each string is read twice.
#[tactic(auto, using(js_texts::proofs::Lists::texts_still, js_texts::proofs::Lists::all_known_still, js_texts::proofs::Lists::settle_still, js_texts::proofs::Lists::all_settled_still, js_texts::proofs::Lengths::made_is, js_texts::proofs::Lengths::made_id))]
pub fn stringify_list<S: Strings>(
    alloc: Global,
    store: &mut S,
    parts: &[S::Ref],
) -> Result<S::Ref, MethodFault>
    requires { AllKnown (S.state store.old) S.number parts.now }
    ensures value { IfOk result
        (λ r. NamesUnits (S.state store.new) (S.number r)
        (list_text (known_texts (S.state store.old) S.number parts.now))) }
    ensures settled { OnOk result (AllSettled (S.state store.new) S.number parts.now) }
    ensures throws { ThrowsLong result (S.state store.old).limit
        (length (list_text (known_texts (S.state store.old) S.number parts.now))) }
    ensures uses { Uses (S.state store.old) (S.state store.new) (full_of result)
        (made_ids (S.state store.old).limit (list_text (known_texts (S.state store.old) S.number parts.now)))
        (2 * settle_most (S.state store.old) S.number parts.now
        + made_words (S.state store.old).limit
        (list_text (known_texts (S.state store.old) S.number parts.now))) }
{
    let length = list_len(alloc, store, parts)?;
    if length > u128::from(store.limit()) {
        return Err(MethodFault::RangeError(Cause::TooLong { length }));
    }
    let text = list_units(alloc, store, parts)?;
    Ok(store.from_units(text.as_slice())?)
}

/// How many units the array has that `stringify_list` gives.
#[tactic(auto, using(crate::proofs::Elements::no_elements, crate::proofs::Elements::some_elements))]
pub fn list_len<S: Strings>(
    alloc: Global,
    store: &mut S,
    parts: &[S::Ref],
) -> Result<u128, StoreFault>
    requires { AllKnown (S.state store.old) S.number parts.now }
    ensures value { IfOk result (λ n. n
        ≡ length (list_text (known_texts (S.state store.old) S.number parts.now))) }
    ensures settled { OnOk result (AllSettled (S.state store.new) S.number parts.now) }
    ensures most { IfOk result (λ n. n ≤ 2 + length parts.now * 4294967296) }
    ensures uses { Uses (S.state store.old) (S.state store.new) (full_fault_of result) 0
        (settle_most (S.state store.old) S.number parts.now) }
{
    let len = rest_len(alloc, store, parts)?;
    // the comma that it counts before the first element replaces the first bracket
    Ok(if len < 2 { 2 } else { len })
}

// How many units the elements have with a comma before each, and the last bracket.
fn rest_len<S: Strings>(alloc: Global, store: &mut S, rest: &[S::Ref]) -> Result<u128, StoreFault>
    requires { AllKnown (S.state store.old) S.number rest.now }
    ensures value { IfOk result (λ n. n
        ≡ length (list_rest (known_texts (S.state store.old) S.number rest.now))) }
    ensures settled { OnOk result (AllSettled (S.state store.new) S.number rest.now) }
    ensures most { IfOk result (λ n. n ≤ 1 + length rest.now * 4294967296) }
    ensures uses { Uses (S.state store.old) (S.state store.new) (full_fault_of result) 0
        (settle_most (S.state store.old) S.number rest.now) }
{
    let mut len = 1;
    for s in rest {
        len += 1 + element_len(alloc, store, *s)?;
    }
    Ok(len)
}

/// How many units the string has with its quotes, as `quote` gives it.
pub fn element_len<S: Strings>(alloc: Global, store: &mut S, s: S::Ref) -> Result<u128, StoreFault>
    requires { IsKnown (S.state store.old) (S.number s) }
    ensures value { IfOk result (λ n. n ≡ length (quoted (text_of (S.state store.old) (S.number s)))) }
    ensures settled { OnOk result (IsSettled (S.state store.new) (S.number s)) }
    ensures most { IfOk result (λ n. n ≤ 2 + 6 * length (text_of (S.state store.old) (S.number s))) }
    ensures uses { Uses (S.state store.old) (S.state store.new) (full_fault_of result) 0
        (settle_words ((S.state store.old).settled (S.number s))
        (length (text_of (S.state store.old) (S.number s)))) }
{
    let units = read(alloc, store, s)?;
    Ok(quoted_len(units.as_slice()))
}

fn list_units<S: Strings>(
    alloc: Global,
    store: &mut S,
    parts: &[S::Ref],
) -> Result<Units, StoreFault>
    requires { AllKnown (S.state store.old) S.number parts.now }
    ensures value { IfOk result (λ u. u ≡ list_text (known_texts (S.state store.old) S.number parts.now)) }
    ensures settled { OnOk result (AllSettled (S.state store.new) S.number parts.now) }
    ensures uses { Uses (S.state store.old) (S.state store.new) (full_fault_of result) 0
        (settle_most (S.state store.old) S.number parts.now) }
{
    let mut text = Units::new(alloc);
    push_unit(&mut text, 0x5B)?;
    append_elements(alloc, store, parts, &mut text)?;
    Ok(text)
}

/// Adds the elements with a comma between two, and the last bracket.
pub fn append_elements<S: Strings>(
    alloc: Global,
    store: &mut S,
    parts: &[S::Ref],
    text: &mut Units,
) -> Result<(), StoreFault>
    requires { AllKnown (S.state store.old) S.number parts.now }
    ensures added { OnOk result
        (text.new ≡ text.old ++ elements (known_texts (S.state store.old) S.number parts.now)) }
    ensures settled { OnOk result (AllSettled (S.state store.new) S.number parts.now) }
    ensures uses { Uses (S.state store.old) (S.state store.new) (full_fault_of result) 0
        (settle_most (S.state store.old) S.number parts.now) }
{
    match parts {
        [] => push_unit(text, 0x5D),
        [first, rest @ ..] => {
            append_quoted(alloc, store, *first, text)?;
            append_rest(alloc, store, rest, text)
        }
    }
}

// Adds a comma and the element for each of the strings, and the last bracket.
fn append_rest<S: Strings>(
    alloc: Global,
    store: &mut S,
    rest: &[S::Ref],
    text: &mut Units,
) -> Result<(), StoreFault>
    requires { AllKnown (S.state store.old) S.number rest.now }
    ensures added { OnOk result
        (text.new ≡ text.old ++ list_rest (known_texts (S.state store.old) S.number rest.now)) }
    ensures settled { OnOk result (AllSettled (S.state store.new) S.number rest.now) }
    ensures uses { Uses (S.state store.old) (S.state store.new) (full_fault_of result) 0
        (settle_most (S.state store.old) S.number rest.now) }
{
    for s in rest {
        push_unit(text, 0x2C)?;
        append_quoted(alloc, store, *s, text)?;
    }
    push_unit(text, 0x5D)
}

/// Adds a string between its quotes, as `quote` gives it.
pub fn append_quoted<S: Strings>(
    alloc: Global,
    store: &mut S,
    s: S::Ref,
    text: &mut Units,
) -> Result<(), StoreFault>
    requires { IsKnown (S.state store.old) (S.number s) }
    ensures added { OnOk result (text.new ≡ text.old ++ quoted (text_of (S.state store.old) (S.number s))) }
    ensures settled { OnOk result (IsSettled (S.state store.new) (S.number s)) }
    ensures uses { Uses (S.state store.old) (S.state store.new) (full_fault_of result) 0
        (settle_words ((S.state store.old).settled (S.number s))
        (length (text_of (S.state store.old) (S.number s)))) }
{
    let units = read(alloc, store, s)?;
    push_text(text, units.as_slice())
}

fn push_text(text: &mut Units, units: &[u16]) -> Result<(), StoreFault>
    ensures added { OnOk result (text.new ≡ text.old ++ quoted units.now) }
    ensures fault { IfErr result (λ f. f ≡ StoreFault.Memory) }
{
    match push_quoted(text, units) {
        Ok(()) => Ok(()),
        Err(_) => Err(StoreFault::Memory),
    }
}

fn push_unit(text: &mut Units, unit: u16) -> Result<(), StoreFault>
    ensures added { OnOk result (text.new ≡ text.old ++ unit ∷ []) }
    ensures fault { IfErr result (λ f. f ≡ StoreFault.Memory) }
{
    match text.push(unit) {
        Ok(()) => Ok(()),
        Err(_) => Err(StoreFault::Memory),
    }
}
