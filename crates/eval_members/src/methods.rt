// The methods of values (ECMA-262, "Properties of the String Prototype Object", "Properties of the
// Array Prototype Object").
ghost use Rattle.std.specs.Prelude.{ℕ, ◌+◌, length, IfOk, OnOk};
ghost use Rattle.js_store.specs.State.{Grows, IsKnown, text};
ghost use Rattle.eval_values.specs.Conversions.{all_units};
ghost use Rattle.eval_members.specs.Members.{called};
ghost use Rattle.eval_members.specs.Methods.{string_call, StringSettled, StringOperandsSettled, list_call, ListSettled, ListOperandsSettled};
ghost use Rattle.eval_members.specs.Settled.{CallSettles, OperandsSettled};
ghost use Rattle.js_item.specs.Seen.{seen};
ghost use Rattle.js_item.specs.Fine.{IsFine};
ghost use Rattle.eval_values.specs.Seen.{all_seen, AllFine};
ghost use Rattle.eval_values.specs.Does.{GivesValue};
ghost use Rattle.js_texts.specs.Texts.{known_texts as texts_seen, AllKnown};

use crate::building::{Pad, call_concat, call_pad, call_repeat, call_to_well_formed};
use crate::cutting::{Cut, call_cut};
use crate::operands::operands;
use crate::places::{Access, call_access};
use crate::replacing::{Replace, call_replace};
use crate::searching::{Search, call_ends_with, call_search};
use crate::splitting::{call_join, call_split};
use crate::testing::call_is_well_formed;
use crate::trimming::{Trim, call_trim};
use eval_tree::Method;
use eval_values::{Kind, Stop, Value};
use js_store::Strings;
use std::alloc::Global;

/// A method of a value, called with all its arguments; `at` is the byte offset of its identifier.
pub fn call<S: Strings>(
    alloc: Global,
    store: &mut S,
    at: u32,
    method: Method,
    value: &Value<S::Ref>,
    args: &[Value<S::Ref>],
) -> Result<Value<S::Ref>, Stop>
    requires fine { IsFine (S.state store.old) S.number value.now }
    requires args { AllFine (S.state store.old) S.number args.now }
    ensures grows { Grows (S.state store.old) (S.state store.new) }
    ensures fine { IfOk result (λ v. IsFine (S.state store.new) S.number v) }
    ensures settled { OnOk result (CallSettles method at (S.state store.old) (S.state store.new) S.number
        value.now (all_seen (S.state store.old) S.number args.now)) }
    ensures operands_settled { OnOk result (OperandsSettled method at (S.state store.old) (S.state store.new)
        S.number value.now args.now) }
    ensures did { GivesValue S.number (S.state store.old) (S.state store.new) result
        (called method at (S.state store.old).limit (seen (S.state store.old) S.number value.now)
        (all_seen (S.state store.old) S.number args.now)) }
{
    let args = operands(store, method, args);
    match value {
        Value::Text(s) => call_string(alloc, store, at, method, *s, args),
        Value::List(list) => call_list(alloc, store, at, method, list, args),
        Value::Undefined
        | Value::Null
        | Value::Bool(_)
        | Value::Number(_)
        | Value::Symbol(_)
        | Value::Object(_) => Err(Stop::Threw(Kind::TypeError)),
    }
}

fn call_string<S: Strings>(
    alloc: Global,
    store: &mut S,
    at: u32,
    method: Method,
    s: S::Ref,
    args: &[Value<S::Ref>],
) -> Result<Value<S::Ref>, Stop>
    requires known { IsKnown (S.state store.old) (S.number s) }
    requires args { AllFine (S.state store.old) S.number args.now }
    ensures grows { Grows (S.state store.old) (S.state store.new) }
    ensures fine { IfOk result (λ v. IsFine (S.state store.new) S.number v) }
    ensures settled { OnOk result (StringSettled method at (S.state store.new) (S.number s)
        (text (S.state store.old) (S.number s)) (all_seen (S.state store.old) S.number args.now)) }
    ensures operands_settled { OnOk result (StringOperandsSettled method at (S.state store.old)
        (S.state store.new) S.number (text (S.state store.old) (S.number s)) args.now) }
    ensures did { GivesValue S.number (S.state store.old) (S.state store.new) result
        (string_call method at (S.state store.old).limit
        (length (text (S.state store.old) (S.number s))
        + all_units (all_seen (S.state store.old) S.number args.now))
        (text (S.state store.old) (S.number s)) (all_seen (S.state store.old) S.number args.now)) }
{
    match method {
        Method::At => call_access(store, at, Access::At, s, args),
        Method::CharAt => call_access(store, at, Access::CharAt, s, args),
        Method::CharCodeAt => call_access(store, at, Access::CharCodeAt, s, args),
        Method::CodePointAt => call_access(store, at, Access::CodePointAt, s, args),
        Method::EndsWith => call_ends_with(alloc, store, at, s, args),
        Method::Includes => call_search(alloc, store, at, Search::Includes, s, args),
        Method::IndexOf => call_search(alloc, store, at, Search::IndexOf, s, args),
        Method::LastIndexOf => call_search(alloc, store, at, Search::LastIndexOf, s, args),
        Method::StartsWith => call_search(alloc, store, at, Search::StartsWith, s, args),
        Method::Slice => call_cut(store, at, Cut::Slice, s, args),
        Method::Substr => call_cut(store, at, Cut::Substr, s, args),
        Method::Substring => call_cut(store, at, Cut::Substring, s, args),
        Method::Trim => call_trim(store, Trim::Both, s),
        Method::TrimEnd => call_trim(store, Trim::End, s),
        Method::TrimStart => call_trim(store, Trim::Start, s),
        Method::Concat => call_concat(alloc, store, s, args),
        Method::PadEnd => call_pad(alloc, store, at, Pad::End, s, args),
        Method::PadStart => call_pad(alloc, store, at, Pad::Start, s, args),
        Method::Repeat => call_repeat(store, at, s, args),
        Method::ToWellFormed => call_to_well_formed(alloc, store, s),
        Method::Replace => call_replace(alloc, store, Replace::First, s, args),
        Method::ReplaceAll => call_replace(alloc, store, Replace::All, s, args),
        Method::Split => call_split(alloc, store, at, s, args),
        Method::Join => Err(Stop::Threw(Kind::TypeError)),
        Method::IsWellFormed => call_is_well_formed(store, s),
    }
}

// A method that was called on an array with all its arguments; `at` is the byte offset of its
// identifier.
fn call_list<S: Strings>(
    alloc: Global,
    store: &mut S,
    at: u32,
    method: Method,
    list: &[S::Ref],
    args: &[Value<S::Ref>],
) -> Result<Value<S::Ref>, Stop>
    requires known { AllKnown (S.state store.old) S.number list.now }
    requires args { AllFine (S.state store.old) S.number args.now }
    ensures grows { Grows (S.state store.old) (S.state store.new) }
    ensures fine { IfOk result (λ v. IsFine (S.state store.new) S.number v) }
    ensures settled { OnOk result (ListSettled method (S.state store.new) S.number list.now) }
    ensures operands_settled { OnOk result
        (ListOperandsSettled method (S.state store.new) S.number args.now) }
    ensures did { (t : ℕ) → GivesValue S.number (S.state store.old) (S.state store.new) result
        (list_call method at (S.state store.old).limit t (texts_seen (S.state store.old) S.number list.now)
        (all_seen (S.state store.old) S.number args.now)) }
{
    match method {
        Method::At
        | Method::Includes
        | Method::IndexOf
        | Method::LastIndexOf
        | Method::Slice
        | Method::Concat => Err(Stop::Unsupported { at }),
        Method::Join => call_join(alloc, store, list, args),
        _ => Err(Stop::Threw(Kind::TypeError)),
    }
}
