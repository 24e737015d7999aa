// Strings compared with the units that bytes spell.
ghost use Rattle.std.specs.Prelude.{◌≡◌, ◌≢◌, ◌↔◌, ℕ, List, IsTrue};
ghost use Rattle.js_search.specs.Order.{units_cmp};
ghost use Rattle.heap_rule.specs.Maps.{Has, HasKey};
ghost use Rattle.heap_rule.specs.Views.{IsSeenSettled};
ghost use Rattle.heap_bytes.specs.Spellings.{IsReadable, spelling_units};
ghost use Rattle.heap_agents.specs.Ready.{HandleKnows, IsReady, handle_view};
ghost use Rattle.c_handles.specs.Handles.{IsHandle};
ghost use Rattle.c_steps.specs.Checked.{OnlyLooks};
ghost use Rattle.c_steps.specs.Lists.{ComparesUnits, OrdersUnits};
ghost use Rattle.c_steps.specs.Reports.{order_number};
ghost use Rattle.c_steps.specs.Reports as reports;

use crate::answer::{DONE, JsOrder, JsTruth, of_order, without_order, without_truth};
use crate::settling::settle_known;
use c_handles::JsAgent;
use heap_bytes::Spelling;
use heap_text::JsStr;

/// Whether a settled string has just the units that bytes spell.
pub fn has_spelled(agent: &mut JsAgent, s: u32, source: &Spelling) -> bool
    requires ready { IsReady agent.old.at.value }
    requires known { HasKey (handle_view agent.old.at.value).units s }
    requires settled { IsSeenSettled (handle_view agent.old.at.value) s }
    requires read { IsReadable source.now }
    ensures handle { IsHandle agent.new }
    ensures looks { OnlyLooks agent.old.at.value agent.new.at.value }
    ensures same { (us : List ℕ) → Has (handle_view agent.old.at.value).units s us
        → IsTrue result ↔ (us ≡ spelling_units source.now) }
{
    agent_reads::has_spelled(agent.held(), JsStr { id: s }, source)
}

/// The order of a settled string and the units that bytes spell.
pub fn compare_spelled(agent: &mut JsAgent, s: u32, source: &Spelling) -> i32
    requires ready { IsReady agent.old.at.value }
    requires known { HasKey (handle_view agent.old.at.value).units s }
    requires settled { IsSeenSettled (handle_view agent.old.at.value) s }
    requires read { IsReadable source.now }
    ensures handle { IsHandle agent.new }
    ensures looks { OnlyLooks agent.old.at.value agent.new.at.value }
    ensures order { (us : List ℕ) → Has (handle_view agent.old.at.value).units s us
        → result ≡ order_number (units_cmp us (spelling_units source.now)) }
{
    let answer = agent_reads::compare_spelled(agent.held(), JsStr { id: s }, source);
    of_order(answer)
}

/// Whether a string has just the units that bytes spell.
pub fn equals_spelled(agent: &mut JsAgent, s: u32, source: &Spelling) -> JsTruth
    requires handle { IsHandle agent.old }
    requires read { IsReadable source.now }
    ensures handle { IsHandle agent.new }
    ensures bad { result.status ≡ reports.BAD_ARGUMENT ↔ ¬ (HandleKnows agent.old.at.value s) }
    ensures memory { result.status ≢ reports.NO_MEMORY }
    ensures compares { ComparesUnits agent.old.at.value agent.new.at.value s (spelling_units source.now)
        result }
{
    let settled = settle_known(agent, s);
    if settled.status != DONE {
        return without_truth(settled.status);
    }
    let holds = has_spelled(agent, s, source);
    JsTruth {
        status: DONE,
        holds,
    }
}

/// The order of a string and the units that bytes spell.
pub fn order_spelled(agent: &mut JsAgent, s: u32, source: &Spelling) -> JsOrder
    requires handle { IsHandle agent.old }
    requires read { IsReadable source.now }
    ensures handle { IsHandle agent.new }
    ensures bad { result.status ≡ reports.BAD_ARGUMENT ↔ ¬ (HandleKnows agent.old.at.value s) }
    ensures memory { result.status ≢ reports.NO_MEMORY }
    ensures compares { OrdersUnits agent.old.at.value agent.new.at.value s (spelling_units source.now)
        result }
{
    let settled = settle_known(agent, s);
    if settled.status != DONE {
        return without_order(settled.status);
    }
    let order = compare_spelled(agent, s, source);
    JsOrder {
        status: DONE,
        order,
    }
}
