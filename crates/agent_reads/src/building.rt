// The units of strings, added to texts that are built up.
ghost use Rattle.std.specs.Prelude.{◌≡◌, ◌≤◌, ℕ, List};
ghost use Rattle.heap_rule.specs.Maps.{Has, HasKey};
ghost use Rattle.heap_rule.specs.Views.{IsSeenSettled};
ghost use Rattle.heap_read.specs.Reads.{OnlyLoads};
ghost use Rattle.heap_build.specs.Built.{AddsUnits, room_in};
ghost use Rattle.heap_agents.specs.Held.{IsHeld, LeavesStrings, MarksNothing, view_by};

use heap_agents::Held;
use heap_build::{BuildFault, Builder};
use heap_text::JsStr;

/// Adds the units of a settled string to a text, by loads alone.
pub fn add_to(agent: &mut Held, s: JsStr, out: &mut Builder) -> Result<(), BuildFault>
    requires held { IsHeld agent.old }
    requires known { HasKey (view_by agent.old).units s.id }
    requires settled { IsSeenSettled (view_by agent.old) s.id }
    ensures leaves { LeavesStrings agent.old agent.new }
    ensures reads { OnlyLoads (view_by agent.old) (view_by agent.new) }
    ensures marked { MarksNothing agent.old agent.new }
    ensures added { (us : List ℕ) → Has (view_by agent.old).units s.id us
        → AddsUnits out.old out.new us result }
    ensures room { room_in out.old ≤ room_in out.new }
{
    match &mut agent.text {
        Some(text) => out.push_text(text, s),
        None => unreachable!(),
    }
}
