// How the four URI functions answer.
ghost use Rattle.std.specs.Prelude.{◌≡◌, ◌+◌, ◌++◌, ◌<◌, ◌^◌, IfOk, OnOk, IsOk, IsTrue, Ok, None, length};
ghost use Rattle.js_store.specs.State.{IsKnown, IsSettled, text as text_of};
ghost use Rattle.js_store.specs.Faults.{Uses};
ghost use Rattle.js_texts.specs.Use.{settling};
ghost use Rattle.js_uri.specs.Outcome.{measure, units as units_of};
ghost use Rattle.js_uri.specs.Answers.{HasUriOutcome, ThrowsUriError, uri_full_of, outcome_words};
ghost use Rattle.js_uri.specs.Calls.{outcome};

use crate::decoding::{decoded_len, has_no_percent, push_decoded};
use crate::encoding::{encoded_len, is_encoded, push_encoded};
use crate::faults::UriFault;
use crate::sets::UriPart;
use js_store::Strings;
use js_texts::{Cause, copied, make};
use js_units::{NoMemory, Units};
use std::alloc::Global;

// Which of the four functions it is.
#[derive(Clone, Copy)]
pub enum UriCall {
    Encode(UriPart),
    Decode(UriPart),
}

impl UriCall {
    // Whether the units stay as they are.
    fn leaves(self, units: &[u16]) -> bool
        ensures { IsTrue result → outcome self units.now ≡ Ok units.now }
    {
        match self {
            UriCall::Encode(part) => is_encoded(units, part),
            UriCall::Decode(_) => has_no_percent(units),
        }
    }

    // The place of the unit that is malformed, or how many units the call makes of these.
    fn measure(self, units: &[u16]) -> Result<u128, u32>
        requires { length units.now < 2 ^ 32 }
        ensures { result ≡ measure (outcome self units.now) }
    {
        match self {
            UriCall::Encode(part) => encoded_len(units, part),
            UriCall::Decode(part) => decoded_len(units, part),
        }
    }

    // Adds what the call makes of units of which none is malformed.
    fn write(self, units: &[u16], text: &mut Units) -> Result<(), NoMemory>
        requires { IsOk (outcome self units.now) }
        ensures added { OnOk result (text.new ≡ text.old ++ units_of (outcome self units.now)) }
    {
        match self {
            UriCall::Encode(part) => push_encoded(text, units, part),
            UriCall::Decode(part) => push_decoded(text, units, part),
        }
    }

    // What the call makes of units. The length is found before anything of that size is made.
    fn make_units(self, alloc: Global, units: &[u16], limit: u32) -> Result<Units, UriFault>
        requires { length units.now < 2 ^ 32 }
        ensures value { IfOk result (λ us. outcome self units.now ≡ Ok us) }
        ensures throws { ThrowsUriError result limit (outcome self units.now) }
        ensures silent { uri_full_of result ≡ None }
    {
        let length = match self.measure(units) {
            Ok(length) => length,
            Err(at) => return Err(UriFault::Malformed { at }),
        };
        if length > u128::from(limit) {
            return Err(UriFault::RangeError(Cause::TooLong { length }));
        }
        let mut text = Units::new(alloc);
        self.write(units, &mut text)?;
        Ok(text)
    }

    // The answer of the call.
    #[tactic(auto, using(js_store::proofs::Laws::has_known))]
    pub fn answer<S: Strings>(
        self,
        alloc: Global,
        store: &mut S,
        s: S::Ref,
    ) -> Result<S::Ref, UriFault>
        requires { IsKnown (S.state store.old) (S.number s) }
        ensures value { IfOk result
            (λ r. HasUriOutcome (S.state store.new) (S.number r)
            (outcome self (text_of (S.state store.old) (S.number s)))) }
        ensures known { IfOk result (λ r. IsKnown (S.state store.new) (S.number r)) }
        ensures settled { OnOk result (IsSettled (S.state store.new) (S.number s)) }
        ensures result_settled { IfOk result (λ r. IsSettled (S.state store.new) (S.number r)) }
        ensures throws { ThrowsUriError result (S.state store.old).limit
            (outcome self (text_of (S.state store.old) (S.number s))) }
        ensures uses { Uses (S.state store.old) (S.state store.new) (uri_full_of result) 1
            (settling (S.state store.old) (S.number s) + outcome_words (S.state store.old).limit
            (outcome self (text_of (S.state store.old) (S.number s)))) }
    {
        store.settle(s)?;
        let copy = copied(alloc, store, s)?;
        let units = copy.as_slice();
        let limit = store.limit();
        if units.len() <= limit as usize && self.leaves(units) {
            return Ok(s);
        }
        let text = self.make_units(alloc, units, limit)?;
        Ok(make(store, text.as_slice())?)
    }
}
