// How long the JSON text of items and objects is.
ghost use Rattle.std.specs.Prelude.{◌≡◌, ◌+◌, ◌*◌, ◌<◌, ◌≤◌, length, IfOk, IfErr};
ghost use Rattle.js_number.specs.Places.{IsLawful};
ghost use Rattle.js_store.specs.State.{IsKnown, text as text_of};
ghost use Rattle.js_store.specs.Rows.{settle_words};
ghost use Rattle.js_store.specs.Faults.{Uses};
ghost use Rattle.js_store.specs.declared.faults.StoreFault.TheVariants.{Memory};
ghost use Rattle.js_texts.specs.Texts.{full_fault_of};
ghost use Rattle.js_object.specs.Use.{settle_in, settle_fields};
ghost use Rattle.js_json.specs.Quoting.{quoted};
ghost use Rattle.js_item.specs.Contents.{count, count_in};
ghost use Rattle.js_item.specs.Fine.{strings_of, KeyFine};
ghost use Rattle.js_object.specs.Readable.{Readable, ReadableFields};
ghost use Rattle.js_object.specs.Json.{text_json, json_of, number_json};
ghost use Rattle.js_item.specs.Seen.{says};
ghost use Rattle.js_item.specs.Views.{content_of};

use crate::json::{append_number, is_shown};
use crate::keys::in_order;
use js_item::{Item, Object};
use js_json::{element_len, list_len};
use js_number::Num;
use js_store::{StoreFault, Strings};
use js_units::Units;
use std::alloc::Global;

/// How many units the JSON text of an item has.
#[cycle(json_len)]
pub(crate) fn item_len<S: Strings>(
    alloc: Global,
    store: &mut S,
    item: &Item<S::Ref>,
) -> Result<u128, StoreFault>
    requires readable { Readable (strings_of (S.state store.old)) S.number (content_of item.now) }
    requires many { count_in (content_of item.now) ≤ 65536 }
    ensures value { IfOk result
        (λ n. n ≡ length (text_json (says (S.state store.old) S.number) (content_of item.now))) }
    ensures most { IfOk result
        (λ n. n + 8589934592 ≤ 158456325028528675187087900672 * (count_in (content_of item.now) + 1)) }
    ensures uses { Uses (S.state store.old) (S.state store.new) (full_fault_of result) 0
        (settle_in (S.state store.old) S.number (content_of item.now)) }
{
    match item {
        Item::Undefined | Item::Symbol(_) => Ok(0),
        Item::Null | Item::Bool(true) => Ok(4),
        Item::Bool(false) => Ok(5),
        Item::Number(n) => number_len(alloc, *n),
        Item::Text(s) => text_len(alloc, store, *s),
        Item::List(list) => list_len(alloc, store, list),
        Item::Object(object) => object_len(alloc, store, object),
    }
}

/// How many units the JSON text of an object has.
#[cycle(json_len)]
pub(crate) fn object_len<S: Strings>(
    alloc: Global,
    store: &mut S,
    of: &Object<S::Ref>,
) -> Result<u128, StoreFault>
    requires readable { ReadableFields (strings_of (S.state store.old)) S.number of.now }
    requires many { count of.now ≤ 65536 }
    ensures value { IfOk result (λ n. n ≡ length (json_of (says (S.state store.old) S.number) of.now)) }
    ensures most { IfOk result (λ n. n ≤ 2 + 158456325028528675187087900672 * count of.now) }
    ensures uses { Uses (S.state store.old) (S.state store.new) (full_fault_of result) 0
        (settle_fields (S.state store.old) S.number of.now) }
{
    let members = in_order(alloc, store, of)?;
    let mut len: u128 = 1;
    for member in &members {
        if is_shown(&member.value) {
            let key = key_len(alloc, store, member.key)?;
            let value = item_len(alloc, store, &member.value)?;
            len += 2 + key + value;
        }
    }
    Ok(if len < 2 { 2 } else { len })
}

// How many units a key has with its quotes.
#[tactic(auto, using(crate::proofs::Uses::key_step))]
fn key_len<S: Strings>(alloc: Global, store: &mut S, key: S::Ref) -> Result<u128, StoreFault>
    requires { KeyFine (strings_of (S.state store.old)) (S.number key) }
    ensures value { IfOk result (λ n. n ≡ length (quoted (text_of (S.state store.old) (S.number key)))) }
    ensures most { IfOk result (λ n. n ≤ 3221225330) }
    ensures uses { Uses (S.state store.old) (S.state store.new) (full_fault_of result) 0 0 }
{
    text_len(alloc, store, key)
}

fn text_len<S: Strings>(alloc: Global, store: &mut S, s: S::Ref) -> Result<u128, StoreFault>
    requires { IsKnown (S.state store.old) (S.number s) }
    ensures value { IfOk result (λ n. n ≡ length (quoted (text_of (S.state store.old) (S.number s)))) }
    ensures most { IfOk result (λ n. n ≤ 3221225330) }
    ensures uses { Uses (S.state store.old) (S.state store.new) (full_fault_of result) 0
        (settle_words ((S.state store.old).settled (S.number s))
        (length (text_of (S.state store.old) (S.number s)))) }
{
    element_len(alloc, store, s)
}

fn number_len(alloc: Global, n: Num) -> Result<u128, StoreFault>
    requires { IsLawful n }
    ensures value { IfOk result (λ len. len ≡ length (number_json n)) }
    ensures most { IfOk result (λ len. len < 18446744073709551616) }
    ensures fault { IfErr result (λ f. f ≡ Memory) }
{
    let mut text = Units::new(alloc);
    append_number(&mut text, n)?;
    Ok(text.as_slice().len() as u128)
}
