// Playing the lines.
ghost use Rattle.std.specs.Prelude.{◌≡◌, length, map, take, IfOk};
ghost use Rattle.heap_core.specs.Events.{IsSoundCore};
ghost use Rattle.heap_schedule.specs.Lines.{turn_named};
ghost use Rattle.heap_schedule.specs.Play.{EndsAfter, IsEntering, IsPlayed, all_played, words_for};

use crate::line::Line;
use heap_core::{CoreState, Event, Refusal, apply};
use js_units::{NoMemory, Units};
use std::alloc::Global;

fn copy(alloc: Global, units: &Units) -> Result<Units, NoMemory>
    ensures { IfOk result (λ us. us ≡ units.now) }
{
    let mut copy = Units::new(alloc);
    copy.extend_from_slice(units.as_slice())?;
    Ok(copy)
}

// The load of a slot with what the view knows of the string that it saw there.
fn entering(
    alloc: Global,
    state: &CoreState,
    view: u32,
    slot: u32,
    learn: &Vec<u32>,
) -> Result<Event, Refusal>
    ensures { IsEntering state.now view slot learn.now.items result }
{
    let Some(units) = state.entry_for(view, slot) else {
        return Err(Refusal::NotEnabled);
    };
    let Ok(entry) = copy(alloc, units) else {
        return Err(Refusal::Memory);
    };
    let Ok(learn) = learn.to_vec(alloc) else {
        return Err(Refusal::Memory);
    };
    Ok(Event::LoadSlot {
        view,
        slot,
        entry: Some(entry),
        learn,
    })
}

// Plays a line, and answers the word that its event found.
fn play_line(alloc: Global, state: &mut CoreState, line: &Line) -> Result<u64, Refusal>
    ensures { IsPlayed state.old (turn_named line.now) state.new result }
{
    match line {
        Line::Event(event) => apply(state, event),
        Line::Enter { view, slot, learn } => {
            match entering(alloc, state, *view, *slot, learn) {
                Ok(event) => apply(state, &event),
                Err(refusal) => Err(refusal),
            }
        }
    }
}

/// Plays the lines in order, up to the first that may not be played, and answers the words found.
pub(crate) fn play_lines(
    alloc: Global,
    state: &mut CoreState,
    lines: &[Line],
) -> Result<Vec<u64>, NoMemory>
    requires { IsSoundCore state.old }
    ensures ends { IfOk result (λ found. EndsAfter (map turn_named lines.now) state.old
        (length found.items)) }
    ensures after { IfOk result (λ found.
        state.new ≡ all_played (take (length found.items) (map turn_named lines.now)) state.old) }
    ensures found { IfOk result (λ found.
        found.items ≡ words_for (take (length found.items) (map turn_named lines.now)) state.old) }
    ensures sound { IfOk result (λ _. IsSoundCore state.new) }
{
    let mut found = Vec::new(alloc);
    for line in lines {
        match play_line(alloc, state, line) {
            Ok(word) => {
                if found.push(word).is_err() {
                    return Err(NoMemory);
                }
            }
            Err(refusal) => match refusal {
                Refusal::NotEnabled => return Ok(found),
                Refusal::Memory => return Err(NoMemory),
            },
        }
    }
    Ok(found)
}
