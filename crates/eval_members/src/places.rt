// Methods that read at one place.
ghost use Rattle.std.specs.Prelude.{◌≡◌, ◌+◌, length, IfOk, OnOk, IsSome};
ghost use Rattle.js_number.specs.Places.{IsLawful};
ghost use Rattle.js_store.specs.State.{Grows, IsKnown, IsSettled, text};
ghost use Rattle.js_store.specs.Rows.{wide_words};
ghost use Rattle.js_store.specs.Faults.{Uses};
ghost use Rattle.js_texts.specs.Answers.{method_fault_of, NeverThrows};
ghost use Rattle.eval_values.specs.Conversions.{to_number, all_units};
ghost use Rattle.eval_values.specs.Arguments.{first_of};
ghost use Rattle.eval_members.specs.Places.{access_call};
ghost use Rattle.eval_members.specs.Methods.{access_of, named_place, NamesPlace};
ghost use Rattle.js_item.specs.Seen.{seen};
ghost use Rattle.js_item.specs.Fine.{IsFine};
ghost use Rattle.eval_values.specs.Seen.{all_seen, AllFine};
ghost use Rattle.eval_values.specs.Does.{GivesValue};

use eval_values::{Stop, Value, first_number};
use js_number::Num;
use js_store::Strings;
use js_texts::MethodFault;

/// A method that reads at one place.
#[derive(Clone, Copy, Debug, PartialEq, Eq)]
pub enum Access {
    At,
    CharAt,
    CharCodeAt,
    CodePointAt,
}

/// `at`, `charAt`, `charCodeAt` or `codePointAt`; `at` is the byte offset.
pub fn call_access<S: Strings>(
    store: &mut S,
    at: u32,
    access: Access,
    s: S::Ref,
    args: &[Value<S::Ref>],
) -> Result<Value<S::Ref>, Stop>
    requires known { IsKnown (S.state store.old) (S.number s) }
    requires args { AllFine (S.state store.old) S.number args.now }
    ensures grows { Grows (S.state store.old) (S.state store.new) }
    ensures fine { IfOk result (λ v. IsFine (S.state store.new) S.number v) }
    ensures settled { OnOk result (NamesPlace (named_place access) (text (S.state store.old) (S.number s))
        (to_number at (first_of (all_seen (S.state store.old) S.number args.now)))
        → IsSettled (S.state store.new) (S.number s)) }
    ensures did { GivesValue S.number (S.state store.old) (S.state store.new) result
        (access_call
        (length (text (S.state store.old) (S.number s))
        + all_units (all_seen (S.state store.old) S.number args.now))
        (access_of access (text (S.state store.old) (S.number s)))
        (to_number at (first_of (all_seen (S.state store.old) S.number args.now)))) }
{
    let n = first_number(store, at, args)?;
    let value = accessed(store, access, s, n)?;
    Ok(value)
}

// What a number gives of a string.
fn accessed<S: Strings>(
    store: &mut S,
    access: Access,
    s: S::Ref,
    n: Num,
) -> Result<Value<S::Ref>, MethodFault>
    requires known { IsKnown (S.state store.old) (S.number s) }
    requires lawful { IsLawful n }
    ensures value { IfOk result
        (λ v. seen (S.state store.new) S.number v
        ≡ access_of access (text (S.state store.old) (S.number s)) n) }
    ensures fine { IfOk result (λ v. IsFine (S.state store.new) S.number v) }
    ensures settled { IsSome (named_place access n (length (text (S.state store.old) (S.number s))))
        → OnOk result (IsSettled (S.state store.new) (S.number s)) }
    ensures throws { NeverThrows result }
    ensures uses { Uses (S.state store.old) (S.state store.new) (method_fault_of result)
        1 (wide_words (length (text (S.state store.old) (S.number s))) + 3) }
{
    match access {
        Access::At => match js_methods::places::at(store, s, n)? {
            Some(r) => Ok(Value::Text(r)),
            None => Ok(Value::Undefined),
        },
        Access::CharAt => Ok(Value::Text(js_methods::places::char_at(store, s, n)?)),
        Access::CharCodeAt => Ok(Value::Number(js_methods::places::char_code_at(store, s, n)?)),
        Access::CodePointAt => match js_methods::places::code_point_at(store, s, n)? {
            Some(point) => Ok(Value::Number(Num::Int(i64::from(point)))),
            None => Ok(Value::Undefined),
        },
    }
}
