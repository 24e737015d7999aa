// Strings of given units, of those that bytes spell, of two strings, and of a part of one.
ghost use Rattle.std.specs.Prelude.{ℕ, ◌-◌, ◌++◌, ◌≤◌, List, length, IfOk};
ghost use Rattle.heap_bytes.specs.Spellings.{IsReadable, spelling_units};
ghost use Rattle.heap_rule.specs.Births.{part};
ghost use Rattle.heap_rule.specs.Layout.{MAX};
ghost use Rattle.heap_rule.specs.Maps.{Has, HasKey};
ghost use Rattle.heap_rule.specs.Views.{IsSeenSettled};
ghost use Rattle.heap_agents.specs.Held.{IsHeld, MarksMade, SpendsReserve, view_by};
ghost use Rattle.agent_makes.specs.Spending.{CutsRenewing, JoinsRenewing, MakesRenewing};

use crate::renewing::{renew_for_both, renew_for_key, renew_for_part};
use crate::taking::{take_flat, take_joined, take_part, take_spelled};
use heap_agents::Held;
use heap_bytes::Spelling;
use heap_intern::Key;
use heap_text::{JoinFault, JsStr, TextFull};

/// A new string with these units, settled. It takes the id and the content words from what was claimed in
/// advance, where that suffices, and then uses nothing. Where it doesn't, it is renewed first.
pub fn from_units(agent: &mut Held, units: &[u16]) -> Result<JsStr, TextFull>
    requires held { IsHeld agent.old }
    requires short { length units.now ≤ MAX }
    ensures spends { SpendsReserve agent.old agent.new }
    ensures marked { MarksMade agent.old agent.new result }
    ensures units { IfOk result (λ s. Has (view_by agent.new).units s.id units.now) }
    ensures settled { IfOk result (λ s. IsSeenSettled (view_by agent.new) s.id) }
    ensures made { MakesRenewing agent.old agent.new units.now result }
{
    renew_for_key(agent, &Key::Units(units));
    take_flat(agent, units)
}

/// A new string with the units that bytes spell, settled. It takes the id and the content words from what
/// was claimed in advance, where that suffices, and then uses nothing. Where it doesn't, it is renewed
/// first.
pub fn make_from(agent: &mut Held, source: &Spelling) -> Result<JsStr, TextFull>
    requires held { IsHeld agent.old }
    requires read { IsReadable source.now }
    requires short { length (spelling_units source.now) ≤ MAX }
    ensures spends { SpendsReserve agent.old agent.new }
    ensures marked { MarksMade agent.old agent.new result }
    ensures units { IfOk result (λ s. Has (view_by agent.new).units s.id (spelling_units source.now)) }
    ensures settled { IfOk result (λ s. IsSeenSettled (view_by agent.new) s.id) }
    ensures made { MakesRenewing agent.old agent.new (spelling_units source.now) result }
{
    renew_for_key(agent, &Key::Spelled(*source));
    take_spelled(agent, source)
}

/// The units of one string, and then those of another. A new string takes what it needs from what was
/// claimed in advance, where that suffices, and then uses nothing. Where it doesn't, it is renewed first.
pub fn concat(agent: &mut Held, a: JsStr, b: JsStr) -> Result<JsStr, JoinFault>
    requires held { IsHeld agent.old }
    requires known { HasKey (view_by agent.old).units a.id
        × HasKey (view_by agent.old).units b.id }
    ensures spends { SpendsReserve agent.old agent.new }
    ensures marked { MarksMade agent.old agent.new result }
    ensures units { IfOk result
        (λ s. (us vs : List ℕ) → Has (view_by agent.old).units a.id us
        → Has (view_by agent.old).units b.id vs
        → Has (view_by agent.new).units s.id (us ++ vs)) }
    ensures joined { (us vs : List ℕ) → Has (view_by agent.old).units a.id us
        → Has (view_by agent.old).units b.id vs
        → JoinsRenewing agent.old agent.new a b us vs result }
{
    renew_for_both(agent, a, b);
    take_joined(agent, a, b)
}

/// The part of a settled string from unit `from` up to unit `to`, settled. A new string takes what it
/// needs from what was claimed in advance, where that suffices, and then uses nothing. Where it doesn't,
/// it is renewed first.
pub fn slice(agent: &mut Held, s: JsStr, from: u32, to: u32) -> Result<JsStr, TextFull>
    requires held { IsHeld agent.old }
    requires settled { IsSeenSettled (view_by agent.old) s.id }
    requires within { (us : List ℕ) × Has (view_by agent.old).units s.id us × (from ≤ to)
        × (to ≤ length us) }
    ensures spends { SpendsReserve agent.old agent.new }
    ensures marked { MarksMade agent.old agent.new result }
    ensures units { IfOk result
        (λ t. (us : List ℕ) → Has (view_by agent.old).units s.id us
        → Has (view_by agent.new).units t.id (part from (to - from) us)) }
    ensures settled { IfOk result (λ t. IsSeenSettled (view_by agent.new) t.id) }
    ensures cut { (us : List ℕ) → Has (view_by agent.old).units s.id us
        → CutsRenewing agent.old agent.new s from to us result }
{
    renew_for_part(agent, s, from, to);
    take_part(agent, s, from, to)
}
