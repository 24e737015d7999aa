// Which function a call means.
ghost use Rattle.std.specs.Prelude.{IfOk, OnOk};
ghost use Rattle.js_store.specs.State.{Grows};
ghost use Rattle.js_item.specs.Seen.{seen};
ghost use Rattle.js_item.specs.Fine.{IsFine};
ghost use Rattle.eval_values.specs.Seen.{all_seen, AllFine};
ghost use Rattle.eval_values.specs.Does.{GivesValue};
ghost use Rattle.eval_builtins.specs.Builtins.{built};
ghost use Rattle.eval_builtins.specs.Settled.{ArgumentsSettled};

use crate::codes::{Codes, from_codes};
use crate::keys::call_keys;
use crate::quoting::call_stringify;
use crate::symbols::{call_key_for, call_string_function, call_symbol_for};
use crate::uris::{UriFunction, call_uri};
use eval_tree::Builtin;
use eval_values::{Stop, Value};
use js_store::Strings;
use std::alloc::Global;

/// A call of a built-in function with all its arguments; `at` is the byte offset of its first
/// identifier.
pub fn call_builtin<S: Strings>(
    alloc: Global,
    store: &mut S,
    at: u32,
    which: Builtin,
    args: &[Value<S::Ref>],
) -> Result<Value<S::Ref>, Stop>
    requires { AllFine (S.state store.old) S.number args.now }
    ensures grows { Grows (S.state store.old) (S.state store.new) }
    ensures fine { IfOk result (λ v. IsFine (S.state store.new) S.number v) }
    ensures settled { OnOk result (ArgumentsSettled which (S.state store.new) S.number args.now) }
    ensures did { GivesValue S.number (S.state store.old) (S.state store.new) result
        (built which at (S.state store.old).limit (all_seen (S.state store.old) S.number args.now)) }
{
    match which {
        Builtin::String => call_string_function(alloc, store, args),
        Builtin::FromCharCode => from_codes(alloc, store, at, Codes::CharCodes, args),
        Builtin::FromCodePoint => from_codes(alloc, store, at, Codes::CodePoints, args),
        Builtin::SymbolFor => call_symbol_for(alloc, store, args),
        Builtin::KeyFor => call_key_for(store, args),
        Builtin::Stringify => call_stringify(alloc, store, args),
        Builtin::Keys => call_keys(alloc, store, at, args),
        Builtin::EncodeUri => call_uri(alloc, store, UriFunction::Encode, args),
        Builtin::EncodeUriComponent => call_uri(alloc, store, UriFunction::EncodeComponent, args),
        Builtin::DecodeUri => call_uri(alloc, store, UriFunction::Decode, args),
        Builtin::DecodeUriComponent => call_uri(alloc, store, UriFunction::DecodeComponent, args),
    }
}
