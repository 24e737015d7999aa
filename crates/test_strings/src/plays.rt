// Plays of a heap, as texts: one step a line. A play begins with `==` and what it shows; its second line is
// the heap, by its ids, content words, slots and agents, behind `session` where it plays on a session.
// Behind `both` and `and` are the steps of two agents in two threads, up to `end`; afterwards they are one
// agent again, for which those of the first come first. Of sessions those behind `split` are of two in turn, of
// which that split off has `other` before them, up to `join`; behind `text` are those of a `Text` by the agent
// of the session. A line is a step, an arrow, and its report (`fits` of `lines`). A string is named by its
// place among those that were made, and what is reported is its number on the heap. The steps are:
//
//     units TEXT · concat A B · slice A FROM TO · intern A      make a string
//     intern-units TEXT · find-units TEXT                       the string of the table with these units
//     settle A · reads A TEXT · same A B · count · totals       of `Text`s and of sessions, but `settle`
//     note                                                      of a session: it notes slots from then on
//     wide WORD                                                 makes four units by the steps of an agent
//     doubled N · before A N · behind A N · rope UNIT EMPTY N   make ropes by many joins
//     len A · ends A · header A · form A · forwards A B · word A · slot K · limit N      load, or set the limit
use crate::lines::fault;
use crate::on_session::OnSession;
use crate::on_text::OnText;
use heap_rule::{HeapSize, MAX};
use heap_session::Session;
use heap_table::Heap;
use heap_text::Text;
use js_store::Limit;
use std::alloc::Global;
use std::process::Abort;
use std::thread::Threads;

/// Plays each play of the text on a heap of its own.
pub(crate) fn plays<R: Abort + Threads>(rt: &R, alloc: Global, text: &str) {
    for play in text.split("== ") {
        if let Some(line) = wrong_in(rt, alloc, play) {
            panic!(rt; "{line}");
        }
    }
}

// The first line that does not report what it expects. Nothing precedes the first play.
fn wrong_in(rt: &impl Threads, alloc: Global, play: &str) -> Option<String> {
    let (title, rest) = play.split_once('\n')?;
    let Some((sizes, lines)) = rest.split_once('\n') else {
        return fault(alloc, title);
    };
    if let Some(sizes) = sizes.strip_prefix("session ") {
        return wrong_on_session(rt, alloc, sizes, lines);
    }
    wrong_on_text(rt, alloc, sizes, lines)
}

// The lines before those of two agents, these, and the lines behind them.
fn wrong_on_text(rt: &impl Threads, alloc: Global, sizes: &str, lines: &str) -> Option<String> {
    let Some((size, agents)) = making_of(sizes) else {
        return fault(alloc, sizes);
    };
    let Ok((heap, agent)) = Heap::make(alloc, size, agents) else {
        return fault(alloc, sizes);
    };
    let mut player = OnText::new(alloc, Text::new(&heap, agent, MAX), agents);
    let Some((before, rest)) = lines.split_once("both\n") else {
        return player.wrong(lines);
    };
    let Some((first, rest)) = rest.split_once("and\n") else {
        return fault(alloc, lines);
    };
    let Some((second, after)) = rest.split_once("end\n") else {
        return fault(alloc, lines);
    };
    if let Some(line) = player.wrong(before) {
        return Some(line);
    }
    if let Some(line) = player.wrong_at_once(rt, first, second) {
        return Some(line);
    }
    player.wrong(after)
}

fn wrong_on_session(rt: &impl Threads, alloc: Global, sizes: &str, lines: &str) -> Option<String> {
    let Some((size, agents)) = making_of(sizes) else {
        return fault(alloc, sizes);
    };
    let Ok((heap, agent)) = Heap::make(alloc, size, agents) else {
        return fault(alloc, sizes);
    };
    let session = Session::new(&heap, agent, Limit::Bits64);
    let mut player = OnSession::new(alloc, &heap, session, agents);
    let Some((lines, loads)) = lines.split_once("text\n") else {
        return wrong_of_two(rt, &mut player, lines);
    };
    if let Some(line) = player.wrong(lines) {
        return Some(line);
    }
    let mut player = player.into_text();
    player.wrong(loads)
}

// The lines before those of two sessions, these, at once or in turn, and the lines behind them.
fn wrong_of_two(rt: &impl Threads, player: &mut OnSession, lines: &str) -> Option<String> {
    if let Some((before, rest)) = lines.split_once("both\n") {
        return wrong_of_threads(rt, player, before, rest);
    }
    let Some((before, rest)) = lines.split_once("split\n") else {
        return player.wrong(lines);
    };
    let Some((turns, after)) = rest.split_once("join\n") else {
        return fault(player.alloc, lines);
    };
    if let Some(line) = player.wrong(before) {
        return Some(line);
    }
    if let Some(line) = player.wrong_in_turn(turns) {
        return Some(line);
    }
    player.wrong(after)
}

fn wrong_of_threads(
    rt: &impl Threads,
    player: &mut OnSession,
    before: &str,
    rest: &str,
) -> Option<String> {
    let Some((first, rest)) = rest.split_once("and\n") else {
        return fault(player.alloc, before);
    };
    let Some((second, after)) = rest.split_once("end\n") else {
        return fault(player.alloc, before);
    };
    if let Some(line) = player.wrong(before) {
        return Some(line);
    }
    if let Some(line) = player.wrong_at_once(rt, first, second) {
        return Some(line);
    }
    player.wrong(after)
}

// Ids, content words, slots and agents, one blank apart.
fn making_of(numbers: &str) -> Option<(HeapSize, u32)> {
    let (ids, rest) = numbers.split_once(' ')?;
    let (words, rest) = rest.split_once(' ')?;
    let (slots, agents) = rest.split_once(' ')?;
    let size = HeapSize {
        ids: ids.parse::<u32>().ok()?,
        words: words.parse::<u32>().ok()?,
        slots: slots.parse::<u32>().ok()?,
    };
    Some((size, agents.parse::<u32>().ok()?))
}
