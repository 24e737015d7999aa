// The URI functions.
ghost use Rattle.std.specs.Prelude.{◌+◌, IfOk, OnOk};
ghost use Rattle.js_store.specs.State.{IsKnown, IsSettled, text};
ghost use Rattle.js_store.specs.Faults.{Uses};
ghost use Rattle.js_texts.specs.Use.{settling};
ghost use Rattle.js_uri.specs.Answers.{HasUriOutcome, ThrowsUriError, uri_full_of, outcome_words};
ghost use Rattle.js_uri.specs.Sets.{component_keep, uri_keep, no_hold, is_uri_reserved};
ghost use Rattle.js_uri.specs.Encoding.{encoded};
ghost use Rattle.js_uri.specs.Decoding.{decoded};

use crate::answering::UriCall;
use crate::faults::UriFault;
use crate::sets::UriPart;
use js_store::Strings;
use std::alloc::Global;

/// The string with each code point as the escapes of its UTF-8, but for letters, digits, the marks
/// `- _ . ! ~ * ' ( )` and `; / ? : @ & = + $ , #` ("encodeURI"). An unpaired surrogate is
/// malformed.
pub fn encode_uri<S: Strings>(alloc: Global, store: &mut S, s: S::Ref) -> Result<S::Ref, UriFault>
    requires { IsKnown (S.state store.old) (S.number s) }
    ensures value { IfOk result
        (λ r. HasUriOutcome (S.state store.new) (S.number r)
        (encoded (text (S.state store.old) (S.number s)) uri_keep)) }
    ensures known { IfOk result (λ r. IsKnown (S.state store.new) (S.number r)) }
    ensures settled { OnOk result (IsSettled (S.state store.new) (S.number s)) }
    ensures result_settled { IfOk result (λ r. IsSettled (S.state store.new) (S.number r)) }
    ensures throws { ThrowsUriError result (S.state store.old).limit
        (encoded (text (S.state store.old) (S.number s)) uri_keep) }
    ensures uses { Uses (S.state store.old) (S.state store.new) (uri_full_of result) 1
        (settling (S.state store.old) (S.number s) + outcome_words (S.state store.old).limit
        (encoded (text (S.state store.old) (S.number s)) uri_keep)) }
{
    UriCall::Encode(UriPart::Whole).answer(alloc, store, s)
}

/// The string with each code point as the escapes of its UTF-8, but for letters, digits and the
/// marks `- _ . ! ~ * ' ( )` ("encodeURIComponent"). An unpaired surrogate is malformed.
pub fn encode_uri_component<S: Strings>(
    alloc: Global,
    store: &mut S,
    s: S::Ref,
) -> Result<S::Ref, UriFault>
    requires { IsKnown (S.state store.old) (S.number s) }
    ensures value { IfOk result
        (λ r. HasUriOutcome (S.state store.new) (S.number r)
        (encoded (text (S.state store.old) (S.number s)) component_keep)) }
    ensures known { IfOk result (λ r. IsKnown (S.state store.new) (S.number r)) }
    ensures settled { OnOk result (IsSettled (S.state store.new) (S.number s)) }
    ensures result_settled { IfOk result (λ r. IsSettled (S.state store.new) (S.number r)) }
    ensures throws { ThrowsUriError result (S.state store.old).limit
        (encoded (text (S.state store.old) (S.number s)) component_keep) }
    ensures uses { Uses (S.state store.old) (S.state store.new) (uri_full_of result) 1
        (settling (S.state store.old) (S.number s) + outcome_words (S.state store.old).limit
        (encoded (text (S.state store.old) (S.number s)) component_keep)) }
{
    UriCall::Encode(UriPart::Component).answer(alloc, store, s)
}

/// The string with each escape, and each sequence of escapes that is the UTF-8 of a code point, as
/// what it denotes, but for the escapes of `; / ? : @ & = + $ , #` ("decodeURI"). A `%` without
/// two hexadecimal digits is malformed, and so is the `%` at which escapes begin that are no
/// well-formed UTF-8.
pub fn decode_uri<S: Strings>(alloc: Global, store: &mut S, s: S::Ref) -> Result<S::Ref, UriFault>
    requires { IsKnown (S.state store.old) (S.number s) }
    ensures value { IfOk result
        (λ r. HasUriOutcome (S.state store.new) (S.number r)
        (decoded (text (S.state store.old) (S.number s)) is_uri_reserved)) }
    ensures known { IfOk result (λ r. IsKnown (S.state store.new) (S.number r)) }
    ensures settled { OnOk result (IsSettled (S.state store.new) (S.number s)) }
    ensures result_settled { IfOk result (λ r. IsSettled (S.state store.new) (S.number r)) }
    ensures throws { ThrowsUriError result (S.state store.old).limit
        (decoded (text (S.state store.old) (S.number s)) is_uri_reserved) }
    ensures uses { Uses (S.state store.old) (S.state store.new) (uri_full_of result) 1
        (settling (S.state store.old) (S.number s) + outcome_words (S.state store.old).limit
        (decoded (text (S.state store.old) (S.number s)) is_uri_reserved)) }
{
    UriCall::Decode(UriPart::Whole).answer(alloc, store, s)
}

/// The string with each escape, and each sequence of escapes that is the UTF-8 of a code point, as
/// what it denotes ("decodeURIComponent"). What is malformed is so for [`decode_uri`], too.
pub fn decode_uri_component<S: Strings>(
    alloc: Global,
    store: &mut S,
    s: S::Ref,
) -> Result<S::Ref, UriFault>
    requires { IsKnown (S.state store.old) (S.number s) }
    ensures value { IfOk result
        (λ r. HasUriOutcome (S.state store.new) (S.number r)
        (decoded (text (S.state store.old) (S.number s)) no_hold)) }
    ensures known { IfOk result (λ r. IsKnown (S.state store.new) (S.number r)) }
    ensures settled { OnOk result (IsSettled (S.state store.new) (S.number s)) }
    ensures result_settled { IfOk result (λ r. IsSettled (S.state store.new) (S.number r)) }
    ensures throws { ThrowsUriError result (S.state store.old).limit
        (decoded (text (S.state store.old) (S.number s)) no_hold) }
    ensures uses { Uses (S.state store.old) (S.state store.new) (uri_full_of result) 1
        (settling (S.state store.old) (S.number s) + outcome_words (S.state store.old).limit
        (decoded (text (S.state store.old) (S.number s)) no_hold)) }
{
    UriCall::Decode(UriPart::Component).answer(alloc, store, s)
}
