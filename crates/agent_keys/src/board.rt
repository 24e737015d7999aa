// Strings of the table by their slots: what one agent interned, another adopts from its slot.
ghost use Rattle.std.specs.Prelude.{ℕ, ◌<◌, List, Contains};
ghost use Rattle.heap_rule.specs.Maps.{HasKey};
ghost use Rattle.heap_rule.specs.Views.{history};
ghost use Rattle.agent_keys.specs.Board.{AdoptedFrom, ToldSlot};
ghost use Rattle.heap_agents.specs.Held.{IsHeld, held_size, view_by};

use heap_agents::Held;

/// The interned string in a slot, marked as one that the agent may use; none where the slot is
/// free. It uses nothing, also on a full heap.
pub fn adopt(agent: &mut Held, slot: u32) -> Option<u32>
    requires held { IsHeld agent.old }
    requires inside { slot < (held_size agent.old).slots }
    ensures { AdoptedFrom agent.old agent.new slot result }
{
    let found = match &mut agent.text {
        Some(text) => heap_intern::adopt(&mut text.reader, slot),
        None => unreachable!(),
    };
    match found {
        Some(id) => {
            agent.mark_interned(id);
            Some(id)
        }
        None => None,
    }
}

/// The slot that an interned string is in, for good. It uses nothing, also on a full heap.
pub fn slot_of(agent: &mut Held, id: u32) -> u32
    requires held { IsHeld agent.old }
    requires known { HasKey (view_by agent.old).units id }
    requires call { (u : List ℕ) × Contains (history (view_by agent.old)) (u, id) }
    ensures { ToldSlot agent.old agent.new id result }
{
    match &mut agent.text {
        Some(text) => heap_intern::slot_of(&mut text.reader, id),
        None => unreachable!(),
    }
}
