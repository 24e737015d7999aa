// Reading strings: their lengths and units.
ghost use Rattle.std.specs.Prelude.{◌≡◌, ℕ, ◌+◌, ◌≤◌, List, length, slice_range};
ghost use Rattle.heap_read.specs.Reads.{KeepsForms, OnlyLoads};
ghost use Rattle.heap_rule.specs.Maps.{Has, HasKey};
ghost use Rattle.heap_rule.specs.Views.{IsSeenSettled};
ghost use Rattle.heap_table.specs.Agents.{view_of};
ghost use Rattle.heap_text.specs.Keeping.{KeepsText};
ghost use Rattle.heap_text.specs.Settling.{LoadsFewFor, Settles};
ghost use Rattle.heap_agents.specs.Held.{IsHeld, LeavesStrings, MarksNothing, MarksSettled, held_size, view_by};

use heap_agents::Held;
use heap_read::HeapRef;
use heap_text::{JsStr, Text, TextFull};

// The units of a settled string from unit `from` on, as many as there is room for.
fn read_units<H: HeapRef>(text: &mut Text<H>, s: JsStr, from: u32, out: &mut [u16])
    requires settled { IsSeenSettled (view_of text.old.reader.agent) s.id }
    requires within { (us : List ℕ) × Has (view_of text.old.reader.agent).units s.id us
        × (from + length out.old ≤ length us) }
    ensures kept { KeepsText text.old text.new }
    ensures reads { OnlyLoads (view_of text.old.reader.agent) (view_of text.new.reader.agent) }
    ensures units { (us : List ℕ) → Has (view_of text.old.reader.agent).units s.id us
        → out.new ≡ slice_range us from (from + length out.old) }
{
    let window = text.window(s);
    text.read_in(window, from, out);
}

/// The length of a string, in units, by loads alone, and none of a form.
pub fn length(agent: &mut Held, s: JsStr) -> u32
    requires held { IsHeld agent.old }
    requires known { HasKey (view_by agent.old).units s.id }
    ensures leaves { LeavesStrings agent.old agent.new }
    ensures reads { OnlyLoads (view_by agent.old) (view_by agent.new) }
    ensures marked { MarksNothing agent.old agent.new }
    ensures forms { KeepsForms (view_by agent.old) (view_by agent.new) }
    ensures length { (us : List ℕ) → Has (view_by agent.old).units s.id us → result ≡ length us }
{
    match &mut agent.text {
        Some(text) => text.len(s),
        None => unreachable!(),
    }
}

/// Sees to it that a string is settled, so that it may be cut, read and interned. Only a rope uses
/// content words.
pub fn settle(agent: &mut Held, s: JsStr) -> Result<(), TextFull>
    requires held { IsHeld agent.old }
    requires known { HasKey (view_by agent.old).units s.id }
    ensures leaves { LeavesStrings agent.old agent.new }
    ensures marked { MarksSettled agent.old agent.new s.id result }
    ensures settles { Settles (view_by agent.old) (view_by agent.new) (held_size agent.old) s.id result }
    ensures loads { LoadsFewFor (view_by agent.old) (view_by agent.new) s.id }
{
    let answer = match &mut agent.text {
        Some(text) => text.settle(s),
        None => unreachable!(),
    };
    answer?;
    agent.mark(s.id);
    Ok(())
}

/// The units of a settled string from unit `from` on, as many as there is room for, by loads alone.
pub fn read(agent: &mut Held, s: JsStr, from: u32, out: &mut [u16])
    requires held { IsHeld agent.old }
    requires settled { IsSeenSettled (view_by agent.old) s.id }
    requires within { (us : List ℕ) × Has (view_by agent.old).units s.id us
        × (from + length out.old ≤ length us) }
    ensures leaves { LeavesStrings agent.old agent.new }
    ensures reads { OnlyLoads (view_by agent.old) (view_by agent.new) }
    ensures marked { MarksNothing agent.old agent.new }
    ensures units { (us : List ℕ) → Has (view_by agent.old).units s.id us
        → out.new ≡ slice_range us from (from + length out.old) }
{
    match &mut agent.text {
        Some(text) => read_units(text, s, from, out),
        None => unreachable!(),
    }
}
