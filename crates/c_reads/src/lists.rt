// Strings compared with units, and with bytes.
ghost use Rattle.std.specs.Prelude.{◌≡◌, ◌≢◌, ◌↔◌, ℕ, List, length, IsTrue};
ghost use Rattle.js_search.specs.Order.{units_cmp};
ghost use Rattle.heap_rule.specs.Maps.{Has, HasKey};
ghost use Rattle.heap_rule.specs.Views.{IsSeenSettled};
ghost use Rattle.heap_agents.specs.Ready.{IsReady, handle_view, HandleKnows};
ghost use Rattle.c_handles.specs.Handles.{IsHandle};
ghost use Rattle.c_steps.specs.Checked.{OnlyLooks};
ghost use Rattle.c_steps.specs.Encodings as encodings;
ghost use Rattle.c_steps.specs.Encodings.{IsDecodable, spells_in};
ghost use Rattle.c_steps.specs.Lists.{ComparesSpelled, ComparesUnits, OrdersUnits};
ghost use Rattle.c_steps.specs.Reports.{no_order, no_truth, order_number};
ghost use Rattle.c_steps.specs.Reports as reports;

use c_handles::JsAgent;
use c_steps::{
    BAD_ARGUMENT, DONE, JsOrder, JsTruth, NOT_UTF8, decode, encoding_by, equals_spelled,
    is_decodable, of_order, order_spelled, settle_known, without_order, without_truth,
};
use heap_text::JsStr;

// Whether a settled string has just these units.
fn has_units(agent: &mut JsAgent, s: u32, units: &[u16]) -> bool
    requires ready { IsReady agent.old.at.value }
    requires known { HasKey (handle_view agent.old.at.value).units s }
    requires settled { IsSeenSettled (handle_view agent.old.at.value) s }
    ensures handle { IsHandle agent.new }
    ensures looks { OnlyLooks agent.old.at.value agent.new.at.value }
    ensures same { (us : List ℕ) → Has (handle_view agent.old.at.value).units s us
        → IsTrue result ↔ (us ≡ units.now) }
{
    agent_reads::has_units(agent.held(), JsStr { id: s }, units)
}

/// Whether a string has just these units. It is settled first.
#[unsafe(no_mangle)]
pub extern "C" fn jsstr_equals_units(agent: &mut JsAgent, s: u32, units: &[u16]) -> JsTruth
    requires { IsHandle agent.old }
    ensures handle { IsHandle agent.new }
    ensures bad { result.status ≡ reports.BAD_ARGUMENT ↔ ¬ (HandleKnows agent.old.at.value s) }
    ensures compares { ComparesUnits agent.old.at.value agent.new.at.value s units.now result }
{
    let settled = settle_known(agent, s);
    if settled.status != DONE {
        return without_truth(settled.status);
    }
    let holds = has_units(agent, s, units);
    JsTruth {
        status: DONE,
        holds,
    }
}

/// Whether a string has just the units that these bytes spell. Bytes that spell none are refused before
/// anything is done; else the string is settled first.
#[unsafe(no_mangle)]
pub extern "C" fn jsstr_equals_bytes(
    agent: &mut JsAgent,
    s: u32,
    encoding: u32,
    bytes: &[u8],
) -> JsTruth
    requires { IsHandle agent.old }
    ensures handle { IsHandle agent.new }
    ensures bad { result.status ≡ reports.BAD_ARGUMENT
        ↔ ¬ (HandleKnows agent.old.at.value s × IsDecodable encoding (length bytes.now)) }
    ensures unchanged { result.status ≡ reports.BAD_ARGUMENT
        → (result ≡ no_truth result.status) × (agent.new.at.value ≡ agent.old.at.value) }
    ensures memory { result.status ≢ reports.NO_MEMORY }
    ensures compares { result.status ≢ reports.BAD_ARGUMENT
        → ComparesSpelled (spells_in (encodings.encoding_by encoding)) agent.old.at.value
        agent.new.at.value bytes.now result.status (result ≡ no_truth result.status)
        (λ vs. ComparesUnits agent.old.at.value agent.new.at.value s vs result) }
{
    if !is_decodable(encoding, bytes.len()) || !agent.knows(s) {
        return without_truth(BAD_ARGUMENT);
    }
    match decode(encoding_by(encoding), bytes) {
        Ok(spelled) => equals_spelled(agent, s, &spelled),
        Err(_) => without_truth(NOT_UTF8),
    }
}

// The order of a settled string and a list by units.
fn order_with(agent: &mut JsAgent, s: u32, units: &[u16]) -> i32
    requires ready { IsReady agent.old.at.value }
    requires known { HasKey (handle_view agent.old.at.value).units s }
    requires settled { IsSeenSettled (handle_view agent.old.at.value) s }
    ensures handle { IsHandle agent.new }
    ensures looks { OnlyLooks agent.old.at.value agent.new.at.value }
    ensures order { (us : List ℕ) → Has (handle_view agent.old.at.value).units s us
        → result ≡ order_number (units_cmp us units.now) }
{
    let answer = agent_reads::compare_units(agent.held(), JsStr { id: s }, units);
    of_order(answer)
}

/// The order of a string and a list by units, where a proper prefix comes first: -1 where the string comes
/// first, 0 where both have the same units, else 1. The string is settled first.
#[unsafe(no_mangle)]
pub extern "C" fn jsstr_compare_units(agent: &mut JsAgent, s: u32, units: &[u16]) -> JsOrder
    requires { IsHandle agent.old }
    ensures handle { IsHandle agent.new }
    ensures bad { result.status ≡ reports.BAD_ARGUMENT ↔ ¬ (HandleKnows agent.old.at.value s) }
    ensures compares { OrdersUnits agent.old.at.value agent.new.at.value s units.now result }
{
    let settled = settle_known(agent, s);
    if settled.status != DONE {
        return without_order(settled.status);
    }
    let order = order_with(agent, s, units);
    JsOrder {
        status: DONE,
        order,
    }
}

/// The order of a string and the units that these bytes spell. Bytes that spell none are refused before
/// anything is done; else the string is settled first.
#[unsafe(no_mangle)]
pub extern "C" fn jsstr_compare_bytes(
    agent: &mut JsAgent,
    s: u32,
    encoding: u32,
    bytes: &[u8],
) -> JsOrder
    requires { IsHandle agent.old }
    ensures handle { IsHandle agent.new }
    ensures bad { result.status ≡ reports.BAD_ARGUMENT
        ↔ ¬ (HandleKnows agent.old.at.value s × IsDecodable encoding (length bytes.now)) }
    ensures unchanged { result.status ≡ reports.BAD_ARGUMENT
        → (result ≡ no_order result.status) × (agent.new.at.value ≡ agent.old.at.value) }
    ensures memory { result.status ≢ reports.NO_MEMORY }
    ensures compares { result.status ≢ reports.BAD_ARGUMENT
        → ComparesSpelled (spells_in (encodings.encoding_by encoding)) agent.old.at.value
        agent.new.at.value bytes.now result.status (result ≡ no_order result.status)
        (λ vs. OrdersUnits agent.old.at.value agent.new.at.value s vs result) }
{
    if !is_decodable(encoding, bytes.len()) || !agent.knows(s) {
        return without_order(BAD_ARGUMENT);
    }
    match decode(encoding_by(encoding), bytes) {
        Ok(spelled) => order_spelled(agent, s, &spelled),
        Err(_) => without_order(NOT_UTF8),
    }
}
