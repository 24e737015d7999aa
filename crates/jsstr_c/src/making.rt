// Strings made of two strings, and of a part of one; and settled, so that they may be cut.
ghost use Rattle.std.specs.Prelude.{◌≡◌, ◌≢◌, ℕ, ◌-◌, ◌++◌, ◌≤◌, List, length, ◌↔◌};
ghost use Rattle.heap_rule.specs.Births.{part};
ghost use Rattle.heap_rule.specs.Maps.{Has, HasKey};
ghost use Rattle.heap_rule.specs.Views.{IsSeenSettled};
ghost use Rattle.heap_agents.specs.Ready.{IsReady, handle_view, HandleKnows};
ghost use Rattle.c_handles.specs.Handles.{IsHandle};
ghost use Rattle.c_steps.specs.Checked.{IsSameOrMeasured, ReachesLength, SettlesFirst};
ghost use Rattle.c_steps.specs.Reports as reports;
ghost use Rattle.jsstr_c.specs.Made.{CutsString, JoinsStrings, CutsSettled};

use c_handles::JsAgent;
use c_steps::{DONE, JsAnswer, bad_argument, of_join, of_text, settle_known, settle_reaching};
use heap_text::JsStr;

/// The units of one string, and then those of another.
#[unsafe(no_mangle)]
pub extern "C" fn jsstr_concat_unchecked(agent: &mut JsAgent, a: u32, b: u32) -> JsAnswer
    requires ready { IsReady agent.old.at.value }
    requires known { HasKey (handle_view agent.old.at.value).units a
        × HasKey (handle_view agent.old.at.value).units b }
    ensures handle { IsHandle agent.new }
    ensures told { result.status ≢ reports.BAD_ARGUMENT }
    ensures joins { JoinsStrings agent.old.at.value agent.new.at.value a b result }
    ensures units { result.status ≡ reports.DONE
        → (us vs : List ℕ) → Has (handle_view agent.old.at.value).units a us
        → Has (handle_view agent.old.at.value).units b vs
        → Has (handle_view agent.new.at.value).units result.id (us ++ vs) }
{
    let answer = agent_makes::concat(agent.held(), JsStr { id: a }, JsStr { id: b });
    of_join(answer)
}

/// The same, with its conditions tested.
#[unsafe(no_mangle)]
pub extern "C" fn jsstr_concat(agent: &mut JsAgent, a: u32, b: u32) -> JsAnswer
    requires { IsHandle agent.old }
    ensures handle { IsHandle agent.new }
    ensures bad { result.status ≡ reports.BAD_ARGUMENT
        ↔ ¬ (HandleKnows agent.old.at.value a × HandleKnows agent.old.at.value b) }
    ensures unchanged { result.status ≡ reports.BAD_ARGUMENT
        → (result ≡ reports.bad_argument) × (agent.new.at.value ≡ agent.old.at.value) }
    ensures joins { result.status ≢ reports.BAD_ARGUMENT
        → JoinsStrings agent.old.at.value agent.new.at.value a b result }
    ensures units { result.status ≡ reports.DONE
        → (us vs : List ℕ) → Has (handle_view agent.old.at.value).units a us
        → Has (handle_view agent.old.at.value).units b vs
        → Has (handle_view agent.new.at.value).units result.id (us ++ vs) }
{
    if !agent.knows(a) || !agent.knows(b) {
        return bad_argument();
    }
    jsstr_concat_unchecked(agent, a, b)
}

/// Sees to it that a string is settled, so that it may be cut, read and interned. The answer is the
/// string.
/// The calls that settle first then have no units to copy.
#[unsafe(no_mangle)]
pub extern "C" fn jsstr_settle(agent: &mut JsAgent, s: u32) -> JsAnswer
    requires { IsHandle agent.old }
    ensures handle { IsHandle agent.new }
    ensures bad { result.status ≡ reports.BAD_ARGUMENT ↔ ¬ (HandleKnows agent.old.at.value s) }
    ensures settles { SettlesFirst agent.old.at.value agent.new.at.value s result }
{
    settle_known(agent, s)
}

/// The part of a settled string from unit `from` up to unit `to`, settled.
#[unsafe(no_mangle)]
pub extern "C" fn jsstr_slice_unchecked(agent: &mut JsAgent, s: u32, from: u32, to: u32) -> JsAnswer
    requires ready { IsReady agent.old.at.value }
    requires settled { IsSeenSettled (handle_view agent.old.at.value) s }
    requires within { (us : List ℕ) × Has (handle_view agent.old.at.value).units s us × (from ≤ to)
        × (to ≤ length us) }
    ensures handle { IsHandle agent.new }
    ensures told { result.status ≢ reports.BAD_ARGUMENT }
    ensures cuts { CutsString agent.old.at.value agent.new.at.value s from to result }
    ensures units { result.status ≡ reports.DONE
        → (us : List ℕ) → Has (handle_view agent.old.at.value).units s us
        → Has (handle_view agent.new.at.value).units result.id (part from (to - from) us) }
    ensures settled { result.status ≡ reports.DONE
        → IsSeenSettled (handle_view agent.new.at.value) result.id }
{
    let answer = agent_makes::slice(agent.held(), JsStr { id: s }, from, to);
    of_text(answer)
}

/// The same, with its conditions tested and the string settled first.
#[unsafe(no_mangle)]
pub extern "C" fn jsstr_slice(agent: &mut JsAgent, s: u32, from: u32, to: u32) -> JsAnswer
    requires { IsHandle agent.old }
    ensures handle { IsHandle agent.new }
    ensures bad { result.status ≡ reports.BAD_ARGUMENT
        ↔ ¬ ((from ≤ to) × ReachesLength agent.old.at.value s to) }
    ensures unknown { ¬ (HandleKnows agent.old.at.value s) → agent.new.at.value ≡ agent.old.at.value }
    ensures looked { result.status ≡ reports.BAD_ARGUMENT
        → (result ≡ reports.bad_argument) × IsSameOrMeasured agent.old.at.value agent.new.at.value }
    ensures cuts { result.status ≢ reports.BAD_ARGUMENT
        → CutsSettled agent.old.at.value agent.new.at.value s from to result }
    ensures units { result.status ≡ reports.DONE
        → (us : List ℕ) → Has (handle_view agent.old.at.value).units s us
        → Has (handle_view agent.new.at.value).units result.id (part from (to - from) us) }
    ensures settled { result.status ≡ reports.DONE
        → IsSeenSettled (handle_view agent.new.at.value) result.id }
{
    if to < from {
        return bad_argument();
    }
    let settled = settle_reaching(agent, s, from, (to - from) as usize);
    if settled.status != DONE {
        return settled;
    }
    jsstr_slice_unchecked(agent, s, from, to)
}
