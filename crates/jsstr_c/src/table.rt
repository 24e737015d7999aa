// The string table, and its strings by their slots.
ghost use Rattle.std.specs.Prelude.{◌≡◌, ◌≢◌, ◌↔◌, IsTrue, ◌<◌};
ghost use Rattle.heap_rule.specs.Maps.{HasKey};
ghost use Rattle.heap_rule.specs.Views.{IsSeenSettled};
ghost use Rattle.heap_table.specs.Known.{KeepsKnown};
ghost use Rattle.heap_agents.specs.Interned.{IsEntered, KeepsCalls};
ghost use Rattle.heap_agents.specs.Ready.{HasInterned, IsReady, handle_view, HandleKnows, size_in};
ghost use Rattle.agent_keys.specs.Board.{TellsSlot};
ghost use Rattle.c_handles.specs.Handles.{IsHandle};
ghost use Rattle.c_steps.specs.Board.{IsAdopting};
ghost use Rattle.c_steps.specs.Reports as reports;
ghost use Rattle.jsstr_c.specs.Made.{InternsString, EntersSettled};

use c_handles::JsAgent;
use c_steps::{
    BAD_ARGUMENT, DONE, JsAnswer, JsNumber, JsTruth, bad_argument, of_found, of_table,
    settle_known, without_number, without_truth,
};

/// The one string of the table with the units of a settled string.
#[unsafe(no_mangle)]
pub extern "C" fn jsstr_intern_unchecked(agent: &mut JsAgent, s: u32) -> JsAnswer
    requires ready { IsReady agent.old.at.value }
    requires known { HasKey (handle_view agent.old.at.value).units s }
    requires settled { IsSeenSettled (handle_view agent.old.at.value) s }
    ensures handle { IsHandle agent.new }
    ensures ready { IsReady agent.new.at.value }
    ensures told { result.status ≢ reports.BAD_ARGUMENT }
    ensures enters { InternsString agent.old.at.value agent.new.at.value s result }
    ensures entered { result.status ≡ reports.DONE
        → IsEntered (handle_view agent.old.at.value) (handle_view agent.new.at.value) s result.id }
{
    let answer = agent_keys::intern(agent.held(), s);
    of_table(answer)
}

/// The same, with its conditions tested and the string settled first.
#[unsafe(no_mangle)]
pub extern "C" fn jsstr_intern(agent: &mut JsAgent, s: u32) -> JsAnswer
    requires { IsHandle agent.old }
    ensures handle { IsHandle agent.new }
    ensures bad { result.status ≡ reports.BAD_ARGUMENT ↔ ¬ (HandleKnows agent.old.at.value s) }
    ensures unchanged { result.status ≡ reports.BAD_ARGUMENT
        → (result ≡ reports.bad_argument) × (agent.new.at.value ≡ agent.old.at.value) }
    ensures known { result.status ≢ reports.BAD_ARGUMENT
        → KeepsKnown (handle_view agent.old.at.value) (handle_view agent.new.at.value) }
    ensures calls { result.status ≢ reports.BAD_ARGUMENT
        → KeepsCalls (handle_view agent.old.at.value) (handle_view agent.new.at.value) }
    ensures marked { result.status ≡ reports.DONE
        → HandleKnows agent.new.at.value result.id × HasInterned agent.new.at.value result.id }
    ensures entered { result.status ≡ reports.DONE
        → IsEntered (handle_view agent.old.at.value) (handle_view agent.new.at.value) s result.id }
    ensures enters { result.status ≢ reports.BAD_ARGUMENT
        → EntersSettled agent.old.at.value agent.new.at.value s result }
{
    let settled = settle_known(agent, s);
    if settled.status != DONE {
        return settled;
    }
    jsstr_intern_unchecked(agent, s)
}

/// Whether a string is an answer of the string table that the agent knows. Any number may be asked for.
#[unsafe(no_mangle)]
pub extern "C" fn jsstr_is_interned(agent: &mut JsAgent, s: u32) -> JsTruth
    requires { IsHandle agent.old }
    ensures handle { IsHandle agent.new }
    ensures unchanged { agent.new.at.value ≡ agent.old.at.value }
    ensures bad { result.status ≡ reports.BAD_ARGUMENT ↔ ¬ (IsReady agent.old.at.value) }
    ensures status { result.status ≢ reports.BAD_ARGUMENT → result.status ≡ reports.DONE }
    ensures interned { IsTrue result.holds ↔ HasInterned agent.old.at.value s }
{
    if agent.is_empty() {
        return without_truth(BAD_ARGUMENT);
    }
    let holds = agent.held().has_interned(s);
    JsTruth {
        status: DONE,
        holds,
    }
}

/// The slot of an interned string, for good. Nothing is used, ever.
#[unsafe(no_mangle)]
pub extern "C" fn jsstr_slot_of(agent: &mut JsAgent, s: u32) -> JsNumber
    requires { IsHandle agent.old }
    ensures handle { IsHandle agent.new }
    ensures bad { result.status ≡ reports.BAD_ARGUMENT ↔ ¬ (HasInterned agent.old.at.value s) }
    ensures status { result.status ≢ reports.BAD_ARGUMENT → result.status ≡ reports.DONE }
    ensures unchanged { result.status ≡ reports.BAD_ARGUMENT
        → (result ≡ reports.no_number reports.BAD_ARGUMENT) × (agent.new.at.value ≡ agent.old.at.value) }
    ensures tells { result.status ≡ reports.DONE
        → TellsSlot agent.old.at.value agent.new.at.value s result.value }
{
    if !agent.has_interned(s) {
        return without_number(BAD_ARGUMENT);
    }
    let value = agent_keys::slot_of(agent.held(), s);
    JsNumber {
        status: DONE,
        value,
    }
}

/// The interned string in a slot, known, settled and interned from then on, if there is one. Nothing
/// is used, ever.
#[unsafe(no_mangle)]
pub extern "C" fn jsstr_adopt(agent: &mut JsAgent, slot: u32) -> JsAnswer
    requires { IsHandle agent.old }
    ensures handle { IsHandle agent.new }
    ensures bad { result.status ≡ reports.BAD_ARGUMENT ↔ ¬ (slot < (size_in agent.old.at.value).slots) }
    ensures unchanged { result.status ≡ reports.BAD_ARGUMENT
        → (result ≡ reports.bad_argument) × (agent.new.at.value ≡ agent.old.at.value) }
    ensures adopts { result.status ≢ reports.BAD_ARGUMENT
        → IsAdopting agent.old.at.value agent.new.at.value slot result }
{
    if !agent.has_slot(slot) {
        return bad_argument();
    }
    let answer = agent_keys::adopt(agent.held(), slot);
    of_found(answer)
}
