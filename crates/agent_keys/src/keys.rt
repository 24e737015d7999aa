// Units that are in no string: interning them, and looking for them in the string table.
ghost use Rattle.std.specs.Prelude.{◌≤◌, length};
ghost use Rattle.heap_rule.specs.Layout.{MAX};
ghost use Rattle.heap_read.specs.Reads.{HoldsForms};
ghost use Rattle.heap_intern.specs.Answers.{copy_plan};
ghost use Rattle.heap_intern.specs.Keys.{IsKey, units_of_key};
ghost use Rattle.heap_intern.specs.Searching.{IsOpening};
ghost use Rattle.heap_agents.specs.Held.{IsHeld, view_by};
ghost use Rattle.agent_keys.specs.Keys.{FoundUnits, InternedUnits};
ghost use Rattle.agent_keys.specs.Openings.{TakesKey};

use crate::noting::{intern_at, search_key};
use agent_makes::renew_for_key;
use heap_agents::Held;
use heap_intern::{Key, KeySearch, Opening, TableFull};

/// The one string of the table with these units. No string is made first: where it is there, nothing is
/// used. Else it takes the id and the content words from what was claimed in advance, where that
/// suffices. Where it doesn't, it is renewed first.
pub fn intern_units(agent: &mut Held, units: &[u16]) -> Result<u32, TableFull>
    requires held { IsHeld agent.old }
    requires short { length units.now ≤ MAX }
    ensures { InternedUnits agent.old agent.new units.now result }
{
    intern_key(agent, &Key::Units(units))
}

/// The one string of the table with these units, if it is there. It uses nothing, also on a
/// full heap.
pub fn find_units(agent: &mut Held, units: &[u16]) -> Option<u32>
    requires held { IsHeld agent.old }
    requires short { length units.now ≤ MAX }
    ensures { FoundUnits agent.old agent.new units.now result }
{
    find_key(agent, &Key::Units(units))
}

/// The one string of the table with the units of a list, or with those that bytes spell, as
/// [`intern_units`] answers it. They are looked for first, so that the reserve is renewed
/// only where a string has to be made.
pub fn intern_key(agent: &mut Held, key: &Key) -> Result<u32, TableFull>
    requires held { IsHeld agent.old }
    requires key { IsKey key.now }
    ensures { InternedUnits agent.old agent.new (units_of_key key.now) result }
{
    match search_key(&mut agent.text, &mut agent.seats, key) {
        KeySearch::Found(seat) => {
            agent.mark_interned(seat.id);
            Ok(seat.id)
        }
        KeySearch::Open(opening) => {
            renew_for_key(agent, key);
            take_key(agent, key, opening)
        }
        KeySearch::Shut { slots } => Err(TableFull::Slots { slots }),
    }
}

// Interns units for which there is an opening, with what is in reserve now.
fn take_key(agent: &mut Held, key: &Key, opening: Opening) -> Result<u32, TableFull>
    requires held { IsHeld agent.old }
    requires key { IsKey key.now }
    requires opening { IsOpening (view_by agent.old) (units_of_key key.now) opening }
    ensures takes { TakesKey agent.old agent.new (units_of_key key.now)
        (copy_plan (units_of_key key.now)) opening result }
    ensures forms { HoldsForms (view_by agent.old) (view_by agent.new) }
{
    let answer = intern_at(
        &mut agent.text,
        &mut agent.seats,
        &mut agent.reserve,
        key,
        opening,
    );
    let id = answer?;
    agent.mark_interned(id);
    Ok(id)
}

/// The same string, if it is there. It uses nothing, also on a full heap.
pub fn find_key(agent: &mut Held, key: &Key) -> Option<u32>
    requires held { IsHeld agent.old }
    requires key { IsKey key.now }
    ensures { FoundUnits agent.old agent.new (units_of_key key.now) result }
{
    match search_key(&mut agent.text, &mut agent.seats, key) {
        KeySearch::Found(seat) => {
            agent.mark_interned(seat.id);
            Some(seat.id)
        }
        KeySearch::Open(_) => None,
        KeySearch::Shut { .. } => None,
    }
}
