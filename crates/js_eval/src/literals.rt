// Literals: strings, which are interned before a script runs, and numbers.
ghost use Rattle.std.specs.Prelude.{◌≡◌, [], slice_get, IfOk};
ghost use Rattle.js_store.specs.State.{Grows, IsKnown};
ghost use Rattle.eval_values.specs.Outcome.{each};
ghost use Rattle.eval_members.specs.Places.{maybe_text};
ghost use Rattle.js_texts.specs.Texts.{AllKnown};
ghost use Rattle.js_eval.specs.Pieces.{literal_out};
ghost use Rattle.js_item.specs.Seen.{seen};
ghost use Rattle.js_item.specs.Fine.{IsFine};
ghost use Rattle.js_eval.specs.Seen.{ContextFine, scope_of};
ghost use Rattle.eval_values.specs.Does.{GivesText, GivesTexts};

use crate::context::Context;
use eval_values::{Kind, Stop, Value, push};
use js_store::Strings;
use js_units::Units;
use std::alloc::Global;

/// The interned strings of a script's literals, in source order.
pub fn intern_literals<S: Strings>(
    alloc: Global,
    store: &mut S,
    literals: &[Units],
) -> Result<Vec<S::Ref>, Stop>
    ensures grows { Grows (S.state store.old) (S.state store.new) }
    ensures known { IfOk result (λ v. AllKnown (S.state store.new) S.number v.items) }
    ensures did { GivesTexts S.number (S.state store.old) (S.state store.new) result
        (each (literal_out (S.state store.old).limit) literals.now) }
{
    let mut interned = Vec::new(alloc);
    for units in literals {
        let string = intern_literal(store, units.as_slice())?;
        push(&mut interned, string)?;
    }
    Ok(interned)
}

fn intern_literal<S: Strings>(store: &mut S, units: &[u16]) -> Result<S::Ref, Stop>
    ensures grows { Grows (S.state store.old) (S.state store.new) }
    ensures known { IfOk result (λ r. IsKnown (S.state store.new) (S.number r)) }
    ensures did { GivesText S.number (S.state store.old) (S.state store.new) result
        (literal_out (S.state store.old).limit units.now) }
{
    if units.len() > store.limit() as usize {
        return Err(Stop::Threw(Kind::RangeError));
    }
    let made = store.from_units(units)?;
    Ok(store.intern(made)?)
}

/// The value of a string literal.
pub fn read_literal<S: Strings>(store: &S, context: &Context<S::Ref>, number: u32) -> Value<S::Ref>
    requires { ContextFine (S.state store.now) S.number context.now }
    ensures seen { seen (S.state store.now) S.number result ≡ maybe_text
        (slice_get (scope_of (S.state store.now) S.number context.now).literals number) }
    ensures fine { IsFine (S.state store.now) S.number result }
{
    match context.literals.get(number as usize) {
        Some(s) => Value::Text(*s),
        None => Value::Undefined,
    }
}
