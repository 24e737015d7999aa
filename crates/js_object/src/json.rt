// Items and objects as JSON text (ECMA-262, "SerializeJSONProperty", "SerializeJSONObject").
ghost use Rattle.std.specs.Prelude.{◌≡◌, ◌++◌, ◌∷◌, [], ◌≤◌, length, OnOk, IfErr};
ghost use Rattle.js_number.specs.Places.{IsLawful};
ghost use Rattle.js_store.specs.State.{text as text_of};
ghost use Rattle.js_texts.specs.Texts.{AllKnown, AllSettled, known_texts, settle_most, full_fault_of};
ghost use Rattle.js_store.specs.Faults.{Uses};
ghost use Rattle.js_store.specs.declared.faults.StoreFault.TheVariants.{Memory};
ghost use Rattle.js_object.specs.Use.{settle_in, settle_fields};
ghost use Rattle.js_json.specs.Quoting.{quoted, list_text};
ghost use Rattle.js_item.specs.Fine.{strings_of, KeyFine, FineOf, FineFields};
ghost use Rattle.js_object.specs.Settled.{SettledIn, SettledFields};
ghost use Rattle.js_object.specs.Readable.{Readable, ReadableFields};
ghost use Rattle.js_object.specs.Json.{text_json, json_of, number_json, closed};
ghost use Rattle.js_item.specs.Seen.{says};
ghost use Rattle.js_object.specs.Json;
ghost use Rattle.js_item.specs.Views.{content_of};

use crate::keys::in_order;
use js_item::{Item, Object};
use js_json::{append_elements, append_quoted};
use js_number::{Num, append_text};
use js_store::{StoreFault, Strings};
use js_units::Units;
use std::alloc::Global;

/// Adds the JSON text of an item; undefined and symbols add nothing.
#[cycle(json)]
pub(crate) fn append_item<S: Strings>(
    alloc: Global,
    store: &mut S,
    item: &Item<S::Ref>,
    text: &mut Units,
) -> Result<(), StoreFault>
    requires { Readable (strings_of (S.state store.old)) S.number (content_of item.now) }
    ensures added { OnOk result
        (text.new ≡ text.old ++ text_json (says (S.state store.old) S.number) (content_of item.now)) }
    ensures settled { OnOk result (FineOf (strings_of (S.state store.old)) S.number (content_of item.now)
        → SettledIn (S.state store.new) S.number (content_of item.now)) }
    ensures uses { Uses (S.state store.old) (S.state store.new) (full_fault_of result) 0
        (settle_in (S.state store.old) S.number (content_of item.now)) }
{
    match item {
        Item::Undefined | Item::Symbol(_) => Ok(()),
        Item::Null => append_word(text, "null"),
        Item::Bool(true) => append_word(text, "true"),
        Item::Bool(false) => append_word(text, "false"),
        Item::Number(n) => append_number(text, *n),
        Item::Text(s) => append_quoted(alloc, store, *s, text),
        Item::List(list) => append_list(alloc, store, list, text),
        Item::Object(object) => append_object(alloc, store, object, text),
    }
}

/// Adds the JSON text of an object: its members in the order of their keys, of which those whose value
/// is undefined or a symbol are left out.
#[cycle(json)]
pub(crate) fn append_object<S: Strings>(
    alloc: Global,
    store: &mut S,
    of: &Object<S::Ref>,
    text: &mut Units,
) -> Result<(), StoreFault>
    requires { ReadableFields (strings_of (S.state store.old)) S.number of.now }
    ensures added { OnOk result
        (text.new ≡ text.old ++ json_of (says (S.state store.old) S.number) of.now) }
    ensures settled { OnOk result (FineFields (strings_of (S.state store.old)) S.number of.now
        → SettledFields (S.state store.new) S.number of.now) }
    ensures uses { Uses (S.state store.old) (S.state store.new) (full_fault_of result) 0
        (settle_fields (S.state store.old) S.number of.now) }
{
    let members = in_order(alloc, store, of)?;
    let mut sep = 0x7B;
    for member in &members {
        if is_shown(&member.value) {
            append_key(alloc, store, sep, member.key, text)?;
            append_item(alloc, store, &member.value, text)?;
            sep = 0x2C;
        }
    }
    append_end(text, sep)
}

pub(crate) fn is_shown<R>(item: &Item<R>) -> bool
    ensures { result ≡ Json.is_shown (content_of item.now) }
{
    match item {
        Item::Undefined | Item::Symbol(_) => false,
        Item::Null
        | Item::Bool(_)
        | Item::Number(_)
        | Item::Text(_)
        | Item::List(_)
        | Item::Object(_) => true,
    }
}

// Adds the unit before a member, its key and a colon.
#[tactic(auto, using(crate::proofs::Uses::key_step))]
fn append_key<S: Strings>(
    alloc: Global,
    store: &mut S,
    sep: u16,
    key: S::Ref,
    text: &mut Units,
) -> Result<(), StoreFault>
    requires { KeyFine (strings_of (S.state store.old)) (S.number key) }
    ensures added { OnOk result
        (text.new ≡ text.old ++ (sep ∷ quoted (text_of (S.state store.old) (S.number key)) ++ 0x3A ∷ [])) }
    ensures uses { Uses (S.state store.old) (S.state store.new) (full_fault_of result) 0 0 }
{
    text.push(sep)?;
    append_quoted(alloc, store, key, text)?;
    text.push(0x3A)?;
    Ok(())
}

// Adds the last brace, and the first one where no member was added.
fn append_end(text: &mut Units, sep: u16) -> Result<(), StoreFault>
    ensures added { OnOk result
        (text.new ≡ text.old ++ closed sep) }
    ensures fault { IfErr result (λ f. f ≡ Memory) }
{
    if sep == 0x7B {
        text.push(0x7B)?;
    }
    text.push(0x7D)?;
    Ok(())
}

fn append_list<S: Strings>(
    alloc: Global,
    store: &mut S,
    list: &[S::Ref],
    text: &mut Units,
) -> Result<(), StoreFault>
    requires { AllKnown (S.state store.old) S.number list.now }
    ensures added { OnOk result
        (text.new ≡ text.old ++ list_text (known_texts (S.state store.old) S.number list.now)) }
    ensures settled { OnOk result (AllSettled (S.state store.new) S.number list.now) }
    ensures uses { Uses (S.state store.old) (S.state store.new) (full_fault_of result) 0
        (settle_most (S.state store.old) S.number list.now) }
{
    text.push(0x5B)?;
    append_elements(alloc, store, list, text)
}

pub(crate) fn append_number(text: &mut Units, n: Num) -> Result<(), StoreFault>
    requires { IsLawful n }
    ensures added { OnOk result
        (text.new ≡ text.old ++ number_json n) }
    ensures fault { IfErr result (λ f. f ≡ Memory) }
{
    match n {
        Num::Int(_) => Ok(n.to_text(text)?),
        Num::NaN | Num::PosInf | Num::NegInf => append_word(text, "null"),
    }
}

fn append_word(text: &mut Units, word: &str) -> Result<(), StoreFault>
    requires { length word.now ≤ 40 }
    ensures added { OnOk result
        (text.new ≡ text.old ++ word.now) }
    ensures fault { IfErr result (λ f. f ≡ Memory) }
{
    Ok(append_text(text, word)?)
}
