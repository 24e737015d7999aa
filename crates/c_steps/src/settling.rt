// Strings made ready for a call that reads them.
ghost use Rattle.std.specs.Prelude.{◌≡◌, ◌↔◌, ℕ, ◌+◌, ◌≤◌, List, IsTrue, length};
ghost use Rattle.heap_rule.specs.Maps.{Has, HasKey};
ghost use Rattle.heap_agents.specs.Ready.{IsReady, HandleKnows, handle_view};
ghost use Rattle.heap_agents.specs.Searched.{IsSearchable};
ghost use Rattle.c_handles.specs.Handles.{IsHandle};
ghost use Rattle.c_steps.specs.Checked.{IsSameOrMeasured, ReadsLength, ReachesLength, SettlesFirst};
ghost use Rattle.c_steps.specs.Pairs.{SettlesPair};
ghost use Rattle.c_steps.specs.Reports as reports;

use crate::answer::{BAD_ARGUMENT, DONE, JsAnswer, bad_argument};
use crate::reading::{length_of, settle};
use c_handles::JsAgent;

// Whether a string is known, and has `room` units or more from unit `from` on.
fn reaches(agent: &mut JsAgent, s: u32, from: u32, room: usize) -> bool
    requires { IsHandle agent.old }
    ensures handle { IsHandle agent.new }
    ensures reaches { IsTrue result ↔ ReachesLength agent.old.at.value s (from + room) }
    ensures unknown { ¬ (HandleKnows agent.old.at.value s) → agent.new.at.value ≡ agent.old.at.value }
    ensures left { IsSameOrMeasured agent.old.at.value agent.new.at.value }
    ensures measures { IsTrue result → ReadsLength agent.old.at.value agent.new.at.value }
    ensures ready { IsTrue result → IsReady agent.new.at.value }
    ensures key { IsTrue result → HasKey (handle_view agent.new.at.value).units s }
    ensures long { IsTrue result → (us : List ℕ) → Has (handle_view agent.new.at.value).units s us
        → from + room ≤ length us }
{
    if !agent.knows(s) {
        return false;
    }
    let all = length_of(agent, s);
    if all < from {
        return false;
    }
    room <= (all - from) as usize
}

/// Sees to it that a string is settled, where it is known.
pub fn settle_known(agent: &mut JsAgent, s: u32) -> JsAnswer
    requires { IsHandle agent.old }
    ensures handle { IsHandle agent.new }
    ensures bad { result.status ≡ reports.BAD_ARGUMENT ↔ ¬ (HandleKnows agent.old.at.value s) }
    ensures settles { SettlesFirst agent.old.at.value agent.new.at.value s result }
    ensures ready { result.status ≡ reports.DONE → IsReady agent.new.at.value }
    ensures readable { result.status ≡ reports.DONE → IsSearchable (handle_view agent.new.at.value) s }
{
    if !agent.knows(s) {
        return bad_argument();
    }
    settle(agent, s)
}

/// The same, where it has `room` units or more from unit `from` on.
pub fn settle_reaching(agent: &mut JsAgent, s: u32, from: u32, room: usize) -> JsAnswer
    requires { IsHandle agent.old }
    ensures handle { IsHandle agent.new }
    ensures bad { result.status ≡ reports.BAD_ARGUMENT
        ↔ ¬ (ReachesLength agent.old.at.value s (from + room)) }
    ensures settles { SettlesFirst agent.old.at.value agent.new.at.value s result }
    ensures ready { result.status ≡ reports.DONE → IsReady agent.new.at.value }
    ensures readable { result.status ≡ reports.DONE → IsSearchable (handle_view agent.new.at.value) s }
    ensures long { result.status ≡ reports.DONE → (us : List ℕ)
        → Has (handle_view agent.new.at.value).units s us → from + room ≤ length us }
{
    if !reaches(agent, s, from, room) {
        return bad_argument();
    }
    settle(agent, s)
}

/// Sees to it that both are settled, where both are known.
pub fn settle_both(agent: &mut JsAgent, a: u32, b: u32) -> u32
    requires { IsHandle agent.old }
    ensures handle { IsHandle agent.new }
    ensures bad { result ≡ reports.BAD_ARGUMENT
        ↔ ¬ (HandleKnows agent.old.at.value a × HandleKnows agent.old.at.value b) }
    ensures settles { SettlesPair agent.old.at.value agent.new.at.value a b result }
    ensures ready { result ≡ reports.DONE → IsReady agent.new.at.value }
    ensures left { result ≡ reports.DONE → IsSearchable (handle_view agent.new.at.value) a }
    ensures right { result ≡ reports.DONE → IsSearchable (handle_view agent.new.at.value) b }
{
    if !agent.knows(a) || !agent.knows(b) {
        return BAD_ARGUMENT;
    }
    let left = settle(agent, a);
    if left.status != DONE {
        return left.status;
    }
    settle(agent, b).status
}

/// The same, where the first has `from` units or more.
pub fn settle_both_reaching(agent: &mut JsAgent, a: u32, b: u32, from: u32) -> u32
    requires { IsHandle agent.old }
    ensures handle { IsHandle agent.new }
    ensures bad { result ≡ reports.BAD_ARGUMENT
        ↔ ¬ (ReachesLength agent.old.at.value a from × HandleKnows agent.old.at.value b) }
    ensures settles { SettlesPair agent.old.at.value agent.new.at.value a b result }
    ensures ready { result ≡ reports.DONE → IsReady agent.new.at.value }
    ensures left { result ≡ reports.DONE → IsSearchable (handle_view agent.new.at.value) a }
    ensures right { result ≡ reports.DONE → IsSearchable (handle_view agent.new.at.value) b }
    ensures long { result ≡ reports.DONE → (us : List ℕ) → Has (handle_view agent.new.at.value).units a us
        → from ≤ length us }
{
    if !agent.knows(b) {
        return BAD_ARGUMENT;
    }
    if !reaches(agent, a, from, 0) {
        return BAD_ARGUMENT;
    }
    settle_both(agent, a, b)
}
