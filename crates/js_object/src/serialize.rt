// Objects as strings of JSON text.
ghost use Rattle.std.specs.Prelude.{◌+◌, ◌*◌, length, IfOk, OnOk};
ghost use Rattle.js_store.specs.State.{NamesUnits};
ghost use Rattle.js_store.specs.Faults.{Uses};
ghost use Rattle.js_texts.specs.Answers.{ThrowsLong, full_of};
ghost use Rattle.js_texts.specs.Use.{made_ids, made_words};
ghost use Rattle.js_object.specs.Use.{settle_fields};
ghost use Rattle.js_item.specs.Fine.{strings_of, Bounded, FineFields};
ghost use Rattle.js_object.specs.Settled.{SettledFields};
ghost use Rattle.js_object.specs.Readable.{ReadableFields};
ghost use Rattle.js_object.specs.Json.{json_of};
ghost use Rattle.js_item.specs.Seen.{says};

use crate::json::append_object;
use crate::json_len::object_len;
use js_item::Object;
use js_store::Strings;
use js_texts::{Cause, MethodFault};
use js_units::Units;
use std::alloc::Global;

/// The JSON text of an object. Its length is found before anything of that size is made: of one
/// that is too long nothing is made. Where the keys of each object differ, each string of its values is
/// settled afterwards.
#[tactic(auto, using(crate::proofs::Readable::fields_still, crate::proofs::Texts::object_still, crate::proofs::Uses::settle_fields_still, js_texts::proofs::Lengths::made_is, js_texts::proofs::Lengths::made_id))]
pub fn stringify<S: Strings>(
    alloc: Global,
    store: &mut S,
    of: &Object<S::Ref>,
) -> Result<S::Ref, MethodFault>
    requires readable { ReadableFields (strings_of (S.state store.old)) S.number of.now }
    requires bounded { Bounded of.now }
    ensures value { IfOk result
        (λ r. NamesUnits (S.state store.new) (S.number r)
        (json_of (says (S.state store.old) S.number) of.now)) }
    ensures settled { OnOk result (FineFields (strings_of (S.state store.old)) S.number of.now
        → SettledFields (S.state store.new) S.number of.now) }
    ensures throws { ThrowsLong result (S.state store.old).limit
        (length (json_of (says (S.state store.old) S.number) of.now)) }
    ensures uses { Uses (S.state store.old) (S.state store.new) (full_of result)
        (made_ids (S.state store.old).limit (json_of (says (S.state store.old) S.number) of.now))
        (2 * settle_fields (S.state store.old) S.number of.now
        + made_words (S.state store.old).limit (json_of (says (S.state store.old) S.number) of.now)) }
{
    let length = object_len(alloc, store, of)?;
    if length > u128::from(store.limit()) {
        return Err(MethodFault::RangeError(Cause::TooLong { length }));
    }
    let mut text = Units::new(alloc);
    append_object(alloc, store, of, &mut text)?;
    Ok(store.from_units(text.as_slice())?)
}
