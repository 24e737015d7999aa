// The event that a step names, or None where it names none.
use heap_core::{Event, HeapSize};
use heap_schedule::{Line, read_schedule};
use std::alloc::Global;

pub(crate) fn event_of(alloc: Global, step: &str) -> Option<Event> {
    if let Some(numbers) = step.strip_prefix("make ") {
        let (size, agents) = making_of(numbers)?;
        return Some(Event::Make { size, agents });
    }
    let text = format!(in alloc; "heap 1 1 1 1\n{step}\n").ok()?;
    let mut schedule = read_schedule(alloc, text.as_bytes()).ok()?;
    match schedule.lines.pop()? {
        Line::Event(event) => Some(event),
        Line::Enter { .. } => None,
    }
}

/// Ids, content words, slots and agents, one blank apart.
pub(crate) fn making_of(numbers: &str) -> Option<(HeapSize, u32)> {
    let (ids, rest) = numbers.split_once(' ')?;
    let (words, rest) = rest.split_once(' ')?;
    let (slots, agents) = rest.split_once(' ')?;
    let size = HeapSize {
        ids: ids.parse::<u32>().ok()?,
        words: words.parse::<u32>().ok()?,
        slots: slots.parse::<u32>().ok()?,
    };
    Some((size, agents.parse::<u32>().ok()?))
}
