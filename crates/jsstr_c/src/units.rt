// Units that C gives: made into strings, interned, and looked for in the string table.
ghost use Rattle.std.specs.Prelude.{◌≡◌, ◌≢◌, ◌≤◌, length, ◌↔◌};
ghost use Rattle.heap_rule.specs.Layout.{MAX};
ghost use Rattle.heap_agents.specs.Ready.{HandleSpends, IsReady};
ghost use Rattle.c_handles.specs.Handles.{IsHandle};
ghost use Rattle.c_steps.specs.Encodings.{encoding_by, spells_in};
ghost use Rattle.c_steps.specs.Given.{IsFinding, IsInterning, MakesString, OnSpelled, TestsGiven};
ghost use Rattle.c_steps.specs.Reports as reports;

use c_handles::JsAgent;
use c_steps::{JsAnswer, Task, tested_bytes, tested_units};

/// A new string with these units, settled.
#[unsafe(no_mangle)]
pub extern "C" fn jsstr_from_units(agent: &mut JsAgent, units: &[u16]) -> JsAnswer
    requires { IsHandle agent.old }
    ensures handle { IsHandle agent.new }
    ensures bad { result.status ≡ reports.BAD_ARGUMENT
        ↔ ¬ (IsReady agent.old.at.value × (length units.now ≤ MAX)) }
    ensures makes { TestsGiven MakesString agent.old.at.value agent.new.at.value units.now result }
{
    tested_units(agent, Task::Make, units)
}

/// A new string with the units that these bytes spell, settled. Bytes that spell none are refused before
/// anything is done.
#[unsafe(no_mangle)]
pub extern "C" fn jsstr_from_bytes(agent: &mut JsAgent, encoding: u32, bytes: &[u8]) -> JsAnswer
    requires { IsHandle agent.old }
    ensures handle { IsHandle agent.new }
    ensures bad { result.status ≡ reports.BAD_ARGUMENT
        ↔ ¬ (IsReady agent.old.at.value × (encoding ≤ 2) × (length bytes.now ≤ MAX)) }
    ensures goes { result.status ≢ reports.BAD_ARGUMENT → HandleSpends agent.old.at.value agent.new.at.value }
    ensures makes { TestsGiven (OnSpelled (spells_in (encoding_by encoding)) MakesString) agent.old.at.value
        agent.new.at.value bytes.now result }
{
    tested_bytes(agent, Task::Make, encoding, bytes)
}

/// The one string of the table with these units. No string is made first: where it is in the table,
/// nothing is used.
#[unsafe(no_mangle)]
pub extern "C" fn jsstr_intern_units(agent: &mut JsAgent, units: &[u16]) -> JsAnswer
    requires { IsHandle agent.old }
    ensures handle { IsHandle agent.new }
    ensures bad { result.status ≡ reports.BAD_ARGUMENT
        ↔ ¬ (IsReady agent.old.at.value × (length units.now ≤ MAX)) }
    ensures interns { TestsGiven IsInterning agent.old.at.value agent.new.at.value units.now result }
{
    tested_units(agent, Task::Intern, units)
}

/// The one string of the table with the units that these bytes spell. Bytes that spell none are refused
/// before anything is done.
#[unsafe(no_mangle)]
pub extern "C" fn jsstr_intern_bytes(agent: &mut JsAgent, encoding: u32, bytes: &[u8]) -> JsAnswer
    requires { IsHandle agent.old }
    ensures handle { IsHandle agent.new }
    ensures bad { result.status ≡ reports.BAD_ARGUMENT
        ↔ ¬ (IsReady agent.old.at.value × (encoding ≤ 2) × (length bytes.now ≤ MAX)) }
    ensures interns { TestsGiven (OnSpelled (spells_in (encoding_by encoding)) IsInterning) agent.old.at.value
        agent.new.at.value bytes.now result }
{
    tested_bytes(agent, Task::Intern, encoding, bytes)
}

/// The one string of the table with these units, if it is there. Nothing is used, ever.
#[unsafe(no_mangle)]
pub extern "C" fn jsstr_find_units(agent: &mut JsAgent, units: &[u16]) -> JsAnswer
    requires { IsHandle agent.old }
    ensures handle { IsHandle agent.new }
    ensures bad { result.status ≡ reports.BAD_ARGUMENT
        ↔ ¬ (IsReady agent.old.at.value × (length units.now ≤ MAX)) }
    ensures finds { TestsGiven IsFinding agent.old.at.value agent.new.at.value units.now result }
{
    tested_units(agent, Task::Find, units)
}

/// The one string of the table with the units that these bytes spell, if it is there.
#[unsafe(no_mangle)]
pub extern "C" fn jsstr_find_bytes(agent: &mut JsAgent, encoding: u32, bytes: &[u8]) -> JsAnswer
    requires { IsHandle agent.old }
    ensures handle { IsHandle agent.new }
    ensures bad { result.status ≡ reports.BAD_ARGUMENT
        ↔ ¬ (IsReady agent.old.at.value × (encoding ≤ 2) × (length bytes.now ≤ MAX)) }
    ensures finds { TestsGiven (OnSpelled (spells_in (encoding_by encoding)) IsFinding) agent.old.at.value
        agent.new.at.value bytes.now result }
{
    tested_bytes(agent, Task::Find, encoding, bytes)
}
