// Ids and content words that an agent claims in advance.
ghost use Rattle.std.specs.Prelude.{◌≡◌, ◌≢◌, ◌↔◌};
ghost use Rattle.heap_agents.specs.Ready.{IsReady};
ghost use Rattle.agent_makes.specs.Spending.{HandleSetsBlocks, handle_reserved_ids, handle_reserved_words};
ghost use Rattle.c_handles.specs.Handles.{IsHandle};
ghost use Rattle.c_steps.specs.Reports as reports;
ghost use Rattle.c_bulk.specs.Reserving.{IsReserving};

use c_handles::JsAgent;
use c_steps::{BAD_ARGUMENT, DONE, JsAnswer, JsTotals, bad_argument, of_reserve, without_totals};

/// Claims so many content words in one piece, and then so many ids, from which later strings are taken.
#[unsafe(no_mangle)]
pub extern "C" fn jsstr_reserve(agent: &mut JsAgent, ids: u32, words: u32) -> JsAnswer
    requires { IsHandle agent.old }
    ensures handle { IsHandle agent.new }
    ensures bad { result.status ≡ reports.BAD_ARGUMENT ↔ ¬ (IsReady agent.old.at.value) }
    ensures unchanged { result.status ≡ reports.BAD_ARGUMENT
        → (result ≡ reports.bad_argument) × (agent.new.at.value ≡ agent.old.at.value) }
    ensures claims { result.status ≢ reports.BAD_ARGUMENT
        → IsReserving agent.old.at.value agent.new.at.value ids words result }
{
    if agent.is_empty() {
        return bad_argument();
    }
    let answer = agent_makes::reserve(agent.held(), ids, words);
    of_reserve(answer)
}

/// How many ids and content words of an agent were claimed in advance, and are left.
#[unsafe(no_mangle)]
pub extern "C" fn jsstr_reserved(agent: &mut JsAgent) -> JsTotals
    requires { IsHandle agent.old }
    ensures handle { IsHandle agent.new }
    ensures unchanged { agent.new.at.value ≡ agent.old.at.value }
    ensures bad { result.status ≡ reports.BAD_ARGUMENT ↔ ¬ (IsReady agent.old.at.value) }
    ensures status { result.status ≢ reports.BAD_ARGUMENT → result.status ≡ reports.DONE }
    ensures ids { result.ids ≡ handle_reserved_ids agent.old.at.value }
    ensures words { result.words ≡ handle_reserved_words agent.old.at.value }
{
    if agent.is_empty() {
        return without_totals(BAD_ARGUMENT);
    }
    let (ids, words) = agent_makes::reserved(agent.held());
    JsTotals {
        status: DONE,
        ids,
        words,
    }
}

/// Sets how many ids and content words the agent claims at once from now on, where a new string finds too few
/// in reserve; 0 and 0 to stop that.
#[unsafe(no_mangle)]
pub extern "C" fn jsstr_renew(agent: &mut JsAgent, ids: u32, words: u32) -> u32
    requires { IsHandle agent.old }
    ensures handle { IsHandle agent.new }
    ensures bad { result ≡ reports.BAD_ARGUMENT ↔ ¬ (IsReady agent.old.at.value) }
    ensures unchanged { result ≡ reports.BAD_ARGUMENT → agent.new.at.value ≡ agent.old.at.value }
    ensures status { result ≢ reports.BAD_ARGUMENT → result ≡ reports.DONE }
    ensures sets { result ≢ reports.BAD_ARGUMENT
        → HandleSetsBlocks agent.old.at.value agent.new.at.value ids words }
{
    if agent.is_empty() {
        return BAD_ARGUMENT;
    }
    agent_makes::renew(agent.held(), ids, words);
    DONE
}
