// Settled strings compared with the units that bytes spell. No call requests memory.
ghost use Rattle.std.specs.Prelude.{◌≡◌, ◌↔◌, ℕ, List, IsTrue};
ghost use Rattle.js_search.specs.Order.{units_cmp};
ghost use Rattle.heap_rule.specs.Maps.{Has, HasKey};
ghost use Rattle.heap_rule.specs.Views.{IsSeenSettled};
ghost use Rattle.heap_read.specs.Reads.{OnlyLoads};
ghost use Rattle.heap_bytes.specs.Spellings.{IsReadable, spelling_units};
ghost use Rattle.heap_agents.specs.Held.{IsHeld, LeavesStrings, MarksNothing, view_by};

use heap_agents::Held;
use heap_bytes::Spelling;
use heap_text::JsStr;
use std::cmp::Ordering;

/// The order of a settled string and the units that bytes spell, where a proper prefix comes first, by
/// loads alone.
pub fn compare_spelled(agent: &mut Held, s: JsStr, source: &Spelling) -> Ordering
    requires held { IsHeld agent.old }
    requires known { HasKey (view_by agent.old).units s.id }
    requires settled { IsSeenSettled (view_by agent.old) s.id }
    requires read { IsReadable source.now }
    ensures leaves { LeavesStrings agent.old agent.new }
    ensures reads { OnlyLoads (view_by agent.old) (view_by agent.new) }
    ensures marked { MarksNothing agent.old agent.new }
    ensures order { (us : List ℕ) → Has (view_by agent.old).units s.id us
        → result ≡ units_cmp us (spelling_units source.now) }
{
    match &mut agent.text {
        Some(text) => heap_export::compare_spelled(text, s, source),
        None => unreachable!(),
    }
}

/// Whether a settled string has just the units that bytes spell, by loads alone.
pub fn has_spelled(agent: &mut Held, s: JsStr, source: &Spelling) -> bool
    requires held { IsHeld agent.old }
    requires known { HasKey (view_by agent.old).units s.id }
    requires settled { IsSeenSettled (view_by agent.old) s.id }
    requires read { IsReadable source.now }
    ensures leaves { LeavesStrings agent.old agent.new }
    ensures reads { OnlyLoads (view_by agent.old) (view_by agent.new) }
    ensures marked { MarksNothing agent.old agent.new }
    ensures same { (us : List ℕ) → Has (view_by agent.old).units s.id us
        → IsTrue result ↔ (us ≡ spelling_units source.now) }
{
    match &mut agent.text {
        Some(text) => heap_export::has_spelled(text, s, source),
        None => unreachable!(),
    }
}
