// Two strings compared, by the calls of `js_search` on a session.
ghost use Rattle.std.specs.Prelude.{◌≡◌, ◌↔◌, ℕ, List, IsTrue};
ghost use Rattle.std.specs.declared.cmp.Ordering as ordering;
ghost use Rattle.js_search.specs.Order.{units_cmp};
ghost use Rattle.heap_rule.specs.Maps.{Has};
ghost use Rattle.heap_agents.specs.Ready.{IsReady, HandleSearches, handle_view, HandleKnows};
ghost use Rattle.agent_searches.specs.Order.{IsOrder};
ghost use Rattle.heap_agents.specs.Searched.{IsSearchable};
ghost use Rattle.c_handles.specs.Handles.{IsHandle};
ghost use Rattle.c_steps.specs.Reports.{order_number, no_order, no_truth, order_answer};
ghost use Rattle.c_steps.specs.Checked.{SeeksSettled};
ghost use Rattle.c_steps.specs.Reports as reports;

use c_handles::JsAgent;
use c_steps::{DONE, JsOrder, JsTruth, of_order, settle_both, without_order, without_truth};
use heap_text::JsStr;

// The order of two settled strings.
fn order_of(agent: &mut JsAgent, a: u32, b: u32) -> i32
    requires ready { IsReady agent.old.at.value }
    requires left { IsSearchable (handle_view agent.old.at.value) a }
    requires right { IsSearchable (handle_view agent.old.at.value) b }
    ensures handle { IsHandle agent.new }
    ensures searches { HandleSearches agent.old.at.value agent.new.at.value }
    ensures order { (us vs : List ℕ) → Has (handle_view agent.old.at.value).units a us
        → Has (handle_view agent.old.at.value).units b vs
        → result ≡ order_number (units_cmp us vs) }
    ensures means { (us vs : List ℕ) → Has (handle_view agent.old.at.value).units a us
        → Has (handle_view agent.old.at.value).units b vs
        → (o : ordering.Ordering) × (result ≡ order_number o) × IsOrder us vs o }
{
    let answer = agent_searches::compare(agent.held(), JsStr { id: a }, JsStr { id: b });
    of_order(answer)
}

/// The order of two strings by their units, where a proper prefix comes first: -1 where `a` comes before `b`,
/// 0 where both have the same units, else 1. Both are settled first.
#[unsafe(no_mangle)]
pub extern "C" fn jsstr_compare(agent: &mut JsAgent, a: u32, b: u32) -> JsOrder
    requires { IsHandle agent.old }
    ensures handle { IsHandle agent.new }
    ensures bad { result.status ≡ reports.BAD_ARGUMENT
        ↔ ¬ (HandleKnows agent.old.at.value a × HandleKnows agent.old.at.value b) }
    ensures seeks { SeeksSettled agent.old.at.value agent.new.at.value a b result.status
        (result ≡ no_order result.status)
        (λ us vs. (result ≡ order_answer (units_cmp us vs))
        × ((o : ordering.Ordering) × (result.order ≡ order_number o) × IsOrder us vs o)) }
{
    let status = settle_both(agent, a, b);
    if status != DONE {
        return without_order(status);
    }
    let order = order_of(agent, a, b);
    JsOrder {
        status: DONE,
        order,
    }
}

/// Whether two settled strings have the same units.
#[unsafe(no_mangle)]
pub extern "C" fn jsstr_equal_unchecked(agent: &mut JsAgent, a: u32, b: u32) -> bool
    requires ready { IsReady agent.old.at.value }
    requires left { IsSearchable (handle_view agent.old.at.value) a }
    requires right { IsSearchable (handle_view agent.old.at.value) b }
    ensures handle { IsHandle agent.new }
    ensures searches { HandleSearches agent.old.at.value agent.new.at.value }
    ensures value { (us vs : List ℕ) → Has (handle_view agent.old.at.value).units a us
        → Has (handle_view agent.old.at.value).units b vs
        → IsTrue result ↔ (us ≡ vs) }
{
    agent_searches::equal(agent.held(), JsStr { id: a }, JsStr { id: b })
}

/// The same, with its conditions tested and both strings settled first.
#[unsafe(no_mangle)]
pub extern "C" fn jsstr_equal(agent: &mut JsAgent, a: u32, b: u32) -> JsTruth
    requires { IsHandle agent.old }
    ensures handle { IsHandle agent.new }
    ensures bad { result.status ≡ reports.BAD_ARGUMENT
        ↔ ¬ (HandleKnows agent.old.at.value a × HandleKnows agent.old.at.value b) }
    ensures seeks { SeeksSettled agent.old.at.value agent.new.at.value a b result.status
        (result ≡ no_truth result.status)
        (λ us vs. (result.status ≡ reports.DONE) × (IsTrue result.holds ↔ (us ≡ vs))) }
{
    let status = settle_both(agent, a, b);
    if status != DONE {
        return without_truth(status);
    }
    let holds = jsstr_equal_unchecked(agent, a, b);
    JsTruth {
        status: DONE,
        holds,
    }
}
