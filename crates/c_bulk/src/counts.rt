// What is used of a heap at a moment, and how many keys it has.
ghost use Rattle.std.specs.Prelude.{◌≡◌, ◌≢◌, ◌↔◌};
ghost use Rattle.heap_rule.specs.Views.{history};
ghost use Rattle.heap_intern.specs.Counting.{different};
ghost use Rattle.heap_intern.specs.Goes.{LoadsAlone};
ghost use Rattle.heap_agents.specs.Ready.{IsReady, handle_view, IsBeside, MarksStay, HasWhole};
ghost use Rattle.c_handles.specs.Handles.{IsHandle};
ghost use Rattle.c_steps.specs.Board.{IsGauging, no_room};
ghost use Rattle.c_steps.specs.Reports.{no_number};
ghost use Rattle.c_steps.specs.Reports as reports;

use c_handles::JsAgent;
use c_steps::{BAD_ARGUMENT, DONE, JsNumber, JsRoom, of_room, without_number, without_room};

/// What is used of the heap at this moment, while other agents use it.
#[unsafe(no_mangle)]
pub extern "C" fn jsstr_room_of(agent: &mut JsAgent) -> JsRoom
    requires { IsHandle agent.old }
    ensures handle { IsHandle agent.new }
    ensures bad { result.status ≡ reports.BAD_ARGUMENT ↔ ¬ (IsReady agent.old.at.value) }
    ensures status { result.status ≢ reports.BAD_ARGUMENT → result.status ≡ reports.DONE }
    ensures unchanged { result.status ≡ reports.BAD_ARGUMENT
        → (result ≡ no_room reports.BAD_ARGUMENT) × (agent.new.at.value ≡ agent.old.at.value) }
    ensures gauges { result.status ≡ reports.DONE → IsGauging agent.old.at.value agent.new.at.value result }
{
    if agent.is_empty() {
        return without_room(BAD_ARGUMENT);
    }
    let room = agent.held().room();
    of_room(room)
}

/// How many different lists of units were interned, for an agent that has the whole share.
#[unsafe(no_mangle)]
pub extern "C" fn jsstr_count_interned(agent: &mut JsAgent) -> JsNumber
    requires { IsHandle agent.old }
    ensures handle { IsHandle agent.new }
    ensures bad { result.status ≡ reports.BAD_ARGUMENT ↔ ¬ (HasWhole agent.old.at.value) }
    ensures status { result.status ≢ reports.BAD_ARGUMENT → result.status ≡ reports.DONE }
    ensures unchanged { result.status ≡ reports.BAD_ARGUMENT
        → (result ≡ no_number reports.BAD_ARGUMENT) × (agent.new.at.value ≡ agent.old.at.value) }
    ensures same { result.status ≡ reports.DONE → IsBeside agent.old.at.value agent.new.at.value }
    ensures marks { result.status ≡ reports.DONE → MarksStay agent.old.at.value agent.new.at.value }
    ensures looks { result.status ≡ reports.DONE
        → LoadsAlone (handle_view agent.old.at.value) (handle_view agent.new.at.value) }
    ensures count { result.status ≡ reports.DONE
        → result.value ≡ different (history (handle_view agent.old.at.value)) }
{
    if !agent.has_whole() {
        return without_number(BAD_ARGUMENT);
    }
    let value = agent.held().count_interned();
    JsNumber {
        status: DONE,
        value,
    }
}
