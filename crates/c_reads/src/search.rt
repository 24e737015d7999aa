// Finding one string in another, by the calls of `js_search` on a session.
ghost use Rattle.std.specs.Prelude.{◌≡◌, ◌≢◌, ◌↔◌, ℕ, ◌≤◌, List, length, Option, IsTrue};
ghost use Rattle.js_search.specs.Places.{IsFirst, IsLast, IsPartAt, first, last, stands};
ghost use Rattle.heap_rule.specs.Maps.{Has};
ghost use Rattle.heap_agents.specs.Ready.{IsReady, HandleSearches, handle_view, HandleKnows};
ghost use Rattle.heap_agents.specs.Searched.{IsSearchable};
ghost use Rattle.c_handles.specs.Handles.{IsHandle};
ghost use Rattle.c_steps.specs.Reports.{place_answer, no_place, no_truth};
ghost use Rattle.c_steps.specs.Checked.{ReachesLength, SeeksSettled};
ghost use Rattle.c_steps.specs.Reports as reports;

use c_handles::JsAgent;
use c_steps::{
    DONE, JsPlace, JsTruth, of_place, settle_both, settle_both_reaching, without_place,
    without_truth,
};
use heap_text::JsStr;

// Whether the units of `needle` occur in `hay` at place `at`, both settled. At a place where they have no
// room they don't.
fn begins_at(agent: &mut JsAgent, hay: u32, needle: u32, at: u32) -> bool
    requires ready { IsReady agent.old.at.value }
    requires left { IsSearchable (handle_view agent.old.at.value) hay }
    requires right { IsSearchable (handle_view agent.old.at.value) needle }
    ensures handle { IsHandle agent.new }
    ensures searches { HandleSearches agent.old.at.value agent.new.at.value }
    ensures stands { (us vs : List ℕ) → Has (handle_view agent.old.at.value).units hay us
        → Has (handle_view agent.old.at.value).units needle vs
        → IsTrue result ↔ IsPartAt us vs at }
    ensures test { (us vs : List ℕ) → Has (handle_view agent.old.at.value).units hay us
        → Has (handle_view agent.old.at.value).units needle vs
        → result ≡ stands us vs at }
{
    agent_searches::starts_with(agent.held(), JsStr { id: hay }, JsStr { id: needle }, at)
}

/// Whether the units of `needle` occur in `hay` at place `at`. At a place where they have no
/// room they don't.
/// Both are settled first.
#[unsafe(no_mangle)]
pub extern "C" fn jsstr_starts_with(agent: &mut JsAgent, hay: u32, needle: u32, at: u32) -> JsTruth
    requires { IsHandle agent.old }
    ensures handle { IsHandle agent.new }
    ensures bad { result.status ≡ reports.BAD_ARGUMENT
        ↔ ¬ (HandleKnows agent.old.at.value hay × HandleKnows agent.old.at.value needle) }
    ensures seeks { SeeksSettled agent.old.at.value agent.new.at.value hay needle result.status
        (result ≡ no_truth result.status)
        (λ us vs. (result.status ≡ reports.DONE) × (result.holds ≡ stands us vs at)
        × (IsTrue result.holds ↔ IsPartAt us vs at)) }
{
    let status = settle_both(agent, hay, needle);
    if status != DONE {
        return without_truth(status);
    }
    let holds = begins_at(agent, hay, needle, at);
    JsTruth {
        status: DONE,
        holds,
    }
}

// The least place at or after `from` at which `needle` occurs in `hay`, both settled. An empty one occurs
// at every place.
fn first_in(agent: &mut JsAgent, hay: u32, needle: u32, from: u32) -> JsPlace
    requires ready { IsReady agent.old.at.value }
    requires left { IsSearchable (handle_view agent.old.at.value) hay }
    requires right { IsSearchable (handle_view agent.old.at.value) needle }
    requires within { (us : List ℕ) × Has (handle_view agent.old.at.value).units hay us × (from ≤ length us) }
    ensures handle { IsHandle agent.new }
    ensures searches { HandleSearches agent.old.at.value agent.new.at.value }
    ensures told { result.status ≢ reports.BAD_ARGUMENT }
    ensures words { result.status ≢ reports.NO_WORDS }
    ensures least { (us vs : List ℕ) → Has (handle_view agent.old.at.value).units hay us
        → Has (handle_view agent.old.at.value).units needle vs
        → (r : Option ℕ) × (result ≡ place_answer r) × IsFirst us vs from r }
    ensures place { (us vs : List ℕ) → Has (handle_view agent.old.at.value).units hay us
        → Has (handle_view agent.old.at.value).units needle vs
        → result ≡ place_answer (first us vs from) }
{
    let answer = agent_searches::index_of(
        agent.held(),
        JsStr { id: hay },
        JsStr { id: needle },
        from,
    );
    of_place(answer)
}

/// The least place at or after `from` at which `needle` occurs in `hay`. An empty one occurs
/// at every place.
/// Both are settled first.
#[unsafe(no_mangle)]
pub extern "C" fn jsstr_index_of(agent: &mut JsAgent, hay: u32, needle: u32, from: u32) -> JsPlace
    requires { IsHandle agent.old }
    ensures handle { IsHandle agent.new }
    ensures bad { result.status ≡ reports.BAD_ARGUMENT
        ↔ ¬ (ReachesLength agent.old.at.value hay from × HandleKnows agent.old.at.value needle) }
    ensures seeks { SeeksSettled agent.old.at.value agent.new.at.value hay needle result.status
        (result ≡ no_place result.status)
        (λ us vs. (result ≡ place_answer (first us vs from))
        × ((r : Option ℕ) × (result ≡ place_answer r) × IsFirst us vs from r)) }
{
    let status = settle_both_reaching(agent, hay, needle, from);
    if status != DONE {
        return without_place(status);
    }
    first_in(agent, hay, needle, from)
}

// The greatest place at most `limit` at which `needle` occurs in `hay`, both settled. An empty one occurs
// at every place.
fn last_in(agent: &mut JsAgent, hay: u32, needle: u32, limit: u32) -> JsPlace
    requires ready { IsReady agent.old.at.value }
    requires left { IsSearchable (handle_view agent.old.at.value) hay }
    requires right { IsSearchable (handle_view agent.old.at.value) needle }
    ensures handle { IsHandle agent.new }
    ensures searches { HandleSearches agent.old.at.value agent.new.at.value }
    ensures told { result.status ≢ reports.BAD_ARGUMENT }
    ensures words { result.status ≢ reports.NO_WORDS }
    ensures greatest { (us vs : List ℕ) → Has (handle_view agent.old.at.value).units hay us
        → Has (handle_view agent.old.at.value).units needle vs
        → (r : Option ℕ) × (result ≡ place_answer r) × IsLast us vs limit r }
    ensures place { (us vs : List ℕ) → Has (handle_view agent.old.at.value).units hay us
        → Has (handle_view agent.old.at.value).units needle vs
        → result ≡ place_answer (last us vs limit) }
{
    let answer = agent_searches::last_index_of(
        agent.held(),
        JsStr { id: hay },
        JsStr { id: needle },
        limit,
    );
    of_place(answer)
}

/// The greatest place at most `limit` at which `needle` occurs in `hay`. An empty one occurs
/// at every place.
/// Both are settled first.
#[unsafe(no_mangle)]
pub extern "C" fn jsstr_last_index_of(
    agent: &mut JsAgent,
    hay: u32,
    needle: u32,
    limit: u32,
) -> JsPlace
    requires { IsHandle agent.old }
    ensures handle { IsHandle agent.new }
    ensures bad { result.status ≡ reports.BAD_ARGUMENT
        ↔ ¬ (HandleKnows agent.old.at.value hay × HandleKnows agent.old.at.value needle) }
    ensures seeks { SeeksSettled agent.old.at.value agent.new.at.value hay needle result.status
        (result ≡ no_place result.status)
        (λ us vs. (result ≡ place_answer (last us vs limit))
        × ((r : Option ℕ) × (result ≡ place_answer r) × IsLast us vs limit r)) }
{
    let status = settle_both(agent, hay, needle);
    if status != DONE {
        return without_place(status);
    }
    last_in(agent, hay, needle, limit)
}
