// The content words of a settled string.
ghost use Rattle.std.specs.Prelude.{◌≡◌, ℕ, ◌+◌, ◌-◌, ◌%◌, ◌≤◌, ◌<◌, List, false, min};
ghost use Rattle.js_units.specs.Lanes.{lane_count, words_over};
ghost use Rattle.heap_read.specs.Reads.{OnlyLoads};
ghost use Rattle.heap_rule.specs.Layout.{MAX};
ghost use Rattle.heap_rule.specs.Maps.{Has, HasKey};
ghost use Rattle.heap_rule.specs.Views.{IsSeenSettled};
ghost use Rattle.heap_table.specs.Agents.{view_of};
ghost use Rattle.heap_text.specs.Keeping.{KeepsText};
ghost use Rattle.heap_agents.specs.Held.{IsHeld, LeavesStrings, MarksNothing, view_by};
ghost use Rattle.agent_reads.specs.Words.{AreShown, AreThere};

use heap_agents::Held;
use heap_read::{HeapRef, Window};
use heap_text::{JsStr, Text};
use js_units::{word_and_lane, words_for};

/// How the words of a string show its units: unit i is `lane + i` lanes behind the lowest lane of
/// word number 0, a word has 4 lanes where it is wide and else 8, and the string has `len` units. `count`
/// words were given.
#[derive(Clone, Copy)]
pub struct Shown {
    pub wide: bool,
    pub lane: u32,
    pub len: u32,
    pub count: u32,
}

// What is shown where there is room for so many words of a window, from number `at` on.
fn shown_in(w: Window, at: u32, room: usize) -> Shown
    requires { w.len ≤ MAX }
    ensures len { result.len ≡ w.len }
    ensures lane { result.lane < lane_count result.wide }
    ensures count { result.count ≡ min room (words_over result.wide (result.lane + w.len) - at) }
    ensures empty { w.len ≡ 0 → (result.wide ≡ false) × (result.lane ≡ 0) }
    ensures there { 0 < w.len → (result.wide ≡ w.wide) × (result.lane ≡ w.offset % lane_count w.wide) }
{
    if w.len == 0 {
        return Shown {
            wide: false,
            lane: 0,
            len: 0,
            count: 0,
        };
    }
    let (_, lane) = word_and_lane(w.wide, w.offset);
    let left = words_for(lane + w.len, w.wide).saturating_sub(at);
    Shown {
        wide: w.wide,
        lane,
        len: w.len,
        count: room.min(left as usize) as u32,
    }
}

fn show_words<H: HeapRef>(text: &mut Text<H>, s: JsStr, at: u32, into: &mut [u64]) -> Shown
    requires known { HasKey (view_of text.old.reader.agent).units s.id }
    requires settled { IsSeenSettled (view_of text.old.reader.agent) s.id }
    ensures kept { KeepsText text.old text.new }
    ensures reads { OnlyLoads (view_of text.old.reader.agent) (view_of text.new.reader.agent) }
    ensures shown { (us : List ℕ) → Has (view_of text.old.reader.agent).units s.id us
        → AreShown us at into.old into.new result }
    ensures there { (us : List ℕ) → Has (view_of text.old.reader.agent).units s.id us
        → AreThere (view_of text.new.reader.agent) us result }
{
    let window = text.window(s);
    let shown = shown_in(window, at, into.len());
    text.words_in(window, at, shown.count, into);
    shown
}

/// The content words of a settled string from word number `at` on, as many as there are and as there
/// is room for, and where its units are in them, by loads alone.
pub fn window(agent: &mut Held, s: JsStr, at: u32, into: &mut [u64]) -> Shown
    requires held { IsHeld agent.old }
    requires known { HasKey (view_by agent.old).units s.id }
    requires settled { IsSeenSettled (view_by agent.old) s.id }
    ensures leaves { LeavesStrings agent.old agent.new }
    ensures reads { OnlyLoads (view_by agent.old) (view_by agent.new) }
    ensures marked { MarksNothing agent.old agent.new }
    ensures shown { (us : List ℕ) → Has (view_by agent.old).units s.id us
        → AreShown us at into.old into.new result }
    ensures there { (us : List ℕ) → Has (view_by agent.old).units s.id us
        → AreThere (view_by agent.new) us result }
{
    match &mut agent.text {
        Some(text) => show_words(text, s, at, into),
        None => unreachable!(),
    }
}
