// Many lists of units that C gives, interned in one call.
ghost use Rattle.std.specs.Prelude.{◌≢◌, length, ◌≡◌, ◌↔◌};
ghost use Rattle.heap_agents.specs.Ready.{IsReady};
ghost use Rattle.c_handles.specs.Handles.{IsHandle};
ghost use Rattle.c_steps.specs.Batches.{AreLists, InternsMany, no_batch};
ghost use Rattle.c_steps.specs.Reports as reports;

use c_handles::JsAgent;
use c_steps::{BAD_ARGUMENT, JsBatch, are_lists, of_batch, without_batch};

/// The one string of the table for each of many lists of units, in turn, up to the first one that is refused.
/// The lists lie one behind another; `ends` has where each ends.
#[unsafe(no_mangle)]
pub extern "C" fn jsstr_intern_many(
    agent: &mut JsAgent,
    units: &[u16],
    ends: &[u32],
    ids: &mut [u32],
) -> JsBatch
    requires { IsHandle agent.old }
    ensures handle { IsHandle agent.new }
    ensures bad { result.status ≡ reports.BAD_ARGUMENT
        ↔ ¬ (IsReady agent.old.at.value × AreLists (length units.now) ends.now (length ids.old)) }
    ensures unchanged { result.status ≡ reports.BAD_ARGUMENT → (result ≡ no_batch reports.BAD_ARGUMENT)
        × (agent.new.at.value ≡ agent.old.at.value) × (ids.new ≡ ids.old) }
    ensures interns { result.status ≢ reports.BAD_ARGUMENT
        → InternsMany agent.old.at.value agent.new.at.value units.now ends.now ids.old ids.new result }
{
    if agent.is_empty() || !are_lists(units.len(), ends, ids.len()) {
        return without_batch(BAD_ARGUMENT);
    }
    let batch = agent_keys::intern_many(agent.held(), units, ends, ids);
    of_batch(batch)
}
