// Strings made with what an agent has in reserve, where that suffices, and else from the heap.
ghost use Rattle.std.specs.Prelude.{ℕ, ◌-◌, ◌++◌, ◌≤◌, List, length, IfOk};
ghost use Rattle.heap_bytes.specs.Spellings.{IsReadable, spelling_units};
ghost use Rattle.heap_rule.specs.Births.{part};
ghost use Rattle.heap_rule.specs.Layout.{MAX};
ghost use Rattle.heap_rule.specs.Maps.{Has, HasKey};
ghost use Rattle.heap_rule.specs.Views.{IsSeenSettled};
ghost use Rattle.heap_reserve.specs.Making.{IsCutBy, IsJoinedBy, IsMade};
ghost use Rattle.heap_agents.specs.Held.{IsHeld, MarksMade, SpendsReserve, limit_by, held_size, view_by};

use heap_agents::Held;
use heap_bytes::Spelling;
use heap_text::{JoinFault, JsStr, TextFull};

// A new string with these units, with what is in reserve now.
pub(crate) fn take_flat(agent: &mut Held, units: &[u16]) -> Result<JsStr, TextFull>
    requires held { IsHeld agent.old }
    requires short { length units.now ≤ MAX }
    ensures spends { SpendsReserve agent.old agent.new }
    ensures marked { MarksMade agent.old agent.new result }
    ensures units { IfOk result (λ s. Has (view_by agent.new).units s.id units.now) }
    ensures settled { IfOk result (λ s. IsSeenSettled (view_by agent.new) s.id) }
    ensures made { IsMade (view_by agent.old) (view_by agent.new) agent.old.reserve agent.new.reserve
        (held_size agent.old) units.now result }
{
    let made = match &mut agent.text {
        Some(text) => agent.reserve.make_flat(text, units),
        None => unreachable!(),
    };
    let s = made?;
    agent.mark(s.id);
    Ok(s)
}

// A new string with the units that bytes spell, with what is in reserve now.
pub(crate) fn take_spelled(agent: &mut Held, source: &Spelling) -> Result<JsStr, TextFull>
    requires held { IsHeld agent.old }
    requires read { IsReadable source.now }
    requires short { length (spelling_units source.now) ≤ MAX }
    ensures spends { SpendsReserve agent.old agent.new }
    ensures marked { MarksMade agent.old agent.new result }
    ensures units { IfOk result (λ s. Has (view_by agent.new).units s.id (spelling_units source.now)) }
    ensures settled { IfOk result (λ s. IsSeenSettled (view_by agent.new) s.id) }
    ensures made { IsMade (view_by agent.old) (view_by agent.new) agent.old.reserve agent.new.reserve
        (held_size agent.old) (spelling_units source.now) result }
{
    let made = match &mut agent.text {
        Some(text) => agent.reserve.make_from(text, source),
        None => unreachable!(),
    };
    let s = made?;
    agent.mark(s.id);
    Ok(s)
}

// Two strings joined, with what is in reserve now.
pub(crate) fn take_joined(agent: &mut Held, a: JsStr, b: JsStr) -> Result<JsStr, JoinFault>
    requires held { IsHeld agent.old }
    requires known { HasKey (view_by agent.old).units a.id
        × HasKey (view_by agent.old).units b.id }
    ensures spends { SpendsReserve agent.old agent.new }
    ensures marked { MarksMade agent.old agent.new result }
    ensures units { IfOk result
        (λ s. (us vs : List ℕ) → Has (view_by agent.old).units a.id us
        → Has (view_by agent.old).units b.id vs
        → Has (view_by agent.new).units s.id (us ++ vs)) }
    ensures joined { (us vs : List ℕ) → Has (view_by agent.old).units a.id us
        → Has (view_by agent.old).units b.id vs
        → IsJoinedBy (view_by agent.old) (view_by agent.new) (held_size agent.old) agent.old.reserve
        agent.new.reserve (limit_by agent.old) a b us vs result }
{
    let joined = match &mut agent.text {
        Some(text) => agent.reserve.concat(text, a, b),
        None => unreachable!(),
    };
    let s = joined?;
    agent.mark(s.id);
    Ok(s)
}

// A part of a settled string, with what is in reserve now.
pub(crate) fn take_part(agent: &mut Held, s: JsStr, from: u32, to: u32) -> Result<JsStr, TextFull>
    requires held { IsHeld agent.old }
    requires settled { IsSeenSettled (view_by agent.old) s.id }
    requires within { (us : List ℕ) × Has (view_by agent.old).units s.id us × (from ≤ to)
        × (to ≤ length us) }
    ensures spends { SpendsReserve agent.old agent.new }
    ensures marked { MarksMade agent.old agent.new result }
    ensures units { IfOk result
        (λ t. (us : List ℕ) → Has (view_by agent.old).units s.id us
        → Has (view_by agent.new).units t.id (part from (to - from) us)) }
    ensures settled { IfOk result (λ t. IsSeenSettled (view_by agent.new) t.id) }
    ensures cut { (us : List ℕ) → Has (view_by agent.old).units s.id us
        → IsCutBy (view_by agent.old) (view_by agent.new) (held_size agent.old) agent.old.reserve
        agent.new.reserve s from to us result }
{
    let cut = match &mut agent.text {
        Some(text) => agent.reserve.slice(text, s, from, to),
        None => unreachable!(),
    };
    let t = cut?;
    agent.mark(t.id);
    Ok(t)
}
