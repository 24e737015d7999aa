// Strings measured, settled and read.
ghost use Rattle.std.specs.Prelude.{◌≡◌, ℕ, ◌+◌, ◌≤◌, List, length, slice_range};
ghost use Rattle.heap_rule.specs.Maps.{Has, HasKey};
ghost use Rattle.heap_rule.specs.Views.{IsSeenSettled};
ghost use Rattle.heap_agents.specs.Ready.{IsReady, handle_view};
ghost use Rattle.c_handles.specs.Handles.{IsHandle};
ghost use Rattle.c_steps.specs.Checked.{OnlyLooks, ReadsLength, SettlesKnown};

use crate::answer::{JsAnswer, of_text};
use c_handles::JsAgent;
use heap_text::JsStr;

/// The length of a string, in units.
pub fn length_of(agent: &mut JsAgent, s: u32) -> u32
    requires ready { IsReady agent.old.at.value }
    requires known { HasKey (handle_view agent.old.at.value).units s }
    ensures handle { IsHandle agent.new }
    ensures measures { ReadsLength agent.old.at.value agent.new.at.value }
    ensures length { (us : List ℕ) → Has (handle_view agent.old.at.value).units s us → result ≡ length us }
{
    agent_reads::length(agent.held(), JsStr { id: s })
}

/// Sees to it that a string is settled, so that it may be cut, read and interned. The answer is the
/// string.
pub fn settle(agent: &mut JsAgent, s: u32) -> JsAnswer
    requires ready { IsReady agent.old.at.value }
    requires known { HasKey (handle_view agent.old.at.value).units s }
    ensures handle { IsHandle agent.new }
    ensures settles { SettlesKnown agent.old.at.value agent.new.at.value s result }
{
    let answer = agent_reads::settle(agent.held(), JsStr { id: s });
    match answer {
        Ok(()) => of_text(Ok(JsStr { id: s })),
        Err(full) => of_text(Err(full)),
    }
}

/// The units of a settled string from unit `from` on, as many as there is room for.
pub fn read_into(agent: &mut JsAgent, s: u32, from: u32, out: &mut [u16])
    requires ready { IsReady agent.old.at.value }
    requires settled { IsSeenSettled (handle_view agent.old.at.value) s }
    requires within { (us : List ℕ) × Has (handle_view agent.old.at.value).units s us
        × (from + length out.old ≤ length us) }
    ensures handle { IsHandle agent.new }
    ensures looks { OnlyLooks agent.old.at.value agent.new.at.value }
    ensures units { (us : List ℕ) → Has (handle_view agent.old.at.value).units s us
        → out.new ≡ slice_range us from (from + length out.old) }
{
    agent_reads::read(agent.held(), JsStr { id: s }, from, out);
}
