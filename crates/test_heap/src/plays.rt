// Plays of the machine, as texts: one step a line, read by one loop. The lines are:
//
//     EVENT -> FOUND                   the event is enabled, comes, and finds this word
//     EVENT -> refused                 it is not enabled, does not come, and no word changes
//     words -> WORDS                   all words of the heap
//     entry VIEW -> ENTRY              what the view has of the string in the first slot
//     == ..                            the end of the play before: a new machine, with no heap
//     # ..                             a comment
//
// A list is written [1, 2, 3], and an entry is `None` or a list of units; numbers are decimal. Each
// event is written as in a schedule (`docs/HEAP.md`), and the making of a heap as `make` with its ids,
// content words, slots and agents. A line that can't be read fails the test. What units a born string
// has is shown by the schedules in `jsstr_cases`.
use crate::reading::event_of;
use heap_core::{CoreState, Event, Refusal, apply, enabled};
use std::alloc::Global;
use std::process::Abort;

/// Plays the lines, each play of them on a machine of its own.
pub(crate) fn plays(rt: &impl Abort, alloc: Global, text: &str) {
    let mut state = CoreState::new(alloc);
    for line in text.lines() {
        if line.starts_with("==") {
            state = CoreState::new(alloc);
        } else if !line.starts_with('#') {
            assert!(rt; is_played(alloc, &mut state, line), "{line}");
        }
    }
}

/// Whether the line's step comes to what the line expects.
pub(crate) fn is_played(alloc: Global, state: &mut CoreState, line: &str) -> bool {
    let Some((step, want)) = line.split_once(" -> ") else {
        return false;
    };
    match told(alloc, state, step) {
        Some(found) => found.as_str() == want,
        None => false,
    }
}

// What the step comes to.
fn told(alloc: Global, state: &mut CoreState, step: &str) -> Option<String> {
    if step == "words" {
        return format!(in alloc; "{:?}", state.words()).ok();
    }
    if let Some(view) = step.strip_prefix("entry ") {
        return entry(alloc, state, view.parse::<u32>().ok()?);
    }
    let event = event_of(alloc, step)?;
    outcome(alloc, state, &event)
}

// What the view has of the string in the first slot.
fn entry(alloc: Global, state: &CoreState, view: u32) -> Option<String> {
    match state.entry_for(view, 0) {
        Some(units) => format!(in alloc; "{:?}", units.as_slice()).ok(),
        None => String::from_str(alloc, "None").ok(),
    }
}

/// The word that the event finds; `refused` where it is not enabled, does not come, and changes no word.
pub(crate) fn outcome(alloc: Global, state: &mut CoreState, event: &Event) -> Option<String> {
    let before = state.words().to_vec(alloc).ok()?;
    let is_enabled = enabled(state, event);
    match apply(state, event) {
        Ok(found) if is_enabled => format!(in alloc; "{found}").ok(),
        Err(Refusal::NotEnabled) if !is_enabled && state.words() == before.as_slice() => {
            String::from_str(alloc, "refused").ok()
        }
        _ => None,
    }
}
