// Interning the units of many lists in one call.
ghost use Rattle.std.specs.Prelude.{◌↔◌, ◌<◌, ◌≤◌, ◌^◌, length, IsTrue};
ghost use Rattle.agent_keys.specs.Batch.{AreEnds, InternedInTurn, lists_from};
ghost use Rattle.heap_agents.specs.Held.{IsHeld};

use crate::keys::intern_units;
use heap_agents::Held;
use heap_intern::TableFull;
use heap_rule::MAX;

/// How many lists were interned, and why the one behind them was not, if there is one.
#[derive(Clone, Copy)]
pub struct Batch {
    pub done: u32,
    pub full: Option<TableFull>,
}

/// Whether these are the ends of lists that lie one behind another within so many units, none of them longer
/// than a string may be.
pub fn are_ends(units: usize, ends: &[u32]) -> bool
    ensures { IsTrue result ↔ AreEnds 0 units ends.now }
{
    let mut from = 0;
    for k in 0..ends.len() {
        let to = ends[k] as usize;
        if to < from || to > units || to - from > MAX as usize {
            return false;
        }
        from = to;
    }
    true
}

/// The one string of the table for each of many lists of units, in turn, as `intern_units` answers it.
/// All units are given one behind another, with the end of each list. At the first refusal it stops: what
/// was interned before stays, with its ids.
pub fn intern_many(agent: &mut Held, units: &[u16], ends: &[u32], ids: &mut [u32]) -> Batch
    requires held { IsHeld agent.old }
    requires ends { AreEnds 0 (length units.now) ends.now }
    requires room { length ends.now ≤ length ids.old }
    requires few { length ends.now < 2 ^ 32 }
    ensures held { IsHeld agent.new }
    ensures interns { InternedInTurn agent.old agent.new (lists_from 0 units.now ends.now) ids.old ids.new
        result.done result.full }
{
    let mut from = 0;
    for k in 0..ends.len() {
        let to = ends[k] as usize;
        let answer = intern_units(agent, &units[from..to]);
        let id = match answer {
            Ok(id) => id,
            Err(full) => {
                return Batch {
                    done: k as u32,
                    full: Some(full),
                };
            }
        };
        ids[k] = id;
        from = to;
    }
    Batch {
        done: ends.len() as u32,
        full: None,
    }
}
