// The lines of a play: what a step is made of, and what it comes to.
use heap_intern::TableFull;
use heap_text::{JoinFault, TextFull};
use js_header::Form;
use js_store::{ConcatFault, StoreFault};
use std::alloc::Global;

/// What follows the name of a step: up to three numbers, 0 where there is none, and the text
/// behind the first blank.
#[derive(Clone, Copy)]
pub(crate) struct Words<'t> {
    pub(crate) a: u32,
    pub(crate) b: u32,
    pub(crate) c: u32,
    pub(crate) text: &'t str,
}

/// What a step comes to.
#[derive(Clone, Copy, Debug)]
pub(crate) enum Told {
    Done,
    Yes,
    No,
    Made(u32),
    Refused(TextFull),
    NotJoined(JoinFault),
    NotInterned(TableFull),
    NotStored(StoreFault),
    NotConcat(ConcatFault),
    Header(Form),
    Number(u64),
    Maybe(Option<u64>),
    Both(u32, u32),
    Ends(u32, u16, u16),
}

/// Yes or No.
pub(crate) fn yes_if(is: bool) -> Told {
    if is { Told::Yes } else { Told::No }
}

/// The name of a step, and the words behind it.
pub(crate) fn step_of(step: &str) -> (&str, Words<'_>) {
    let (name, rest) = step.split_once(' ').unwrap_or((step, ""));
    let (first, text) = rest.split_once(' ').unwrap_or((rest, ""));
    let (second, third) = text.split_once(' ').unwrap_or((text, ""));
    let words = Words {
        a: number(first),
        b: number(second),
        c: number(third),
        text: rest,
    };
    (name, words)
}

// A decimal number; 0 where it is none.
fn number(digits: &str) -> u32 {
    digits.parse::<u32>().unwrap_or(0)
}

/// The text behind the first blank.
pub(crate) fn behind(text: &str) -> &str {
    match text.split_once(' ') {
        Some((_, rest)) => rest,
        None => "",
    }
}

/// The units of TEXT: its first one so many times where that number and `*` precede it, and no more
/// than a number with `^` before it says.
pub(crate) fn units_of(alloc: Global, text: &str) -> Option<Vec<u16>> {
    let (most, text) = counted(text, "^", 65536);
    let (mut times, text) = counted(text, "*", 1);
    let mut units = Vec::new(alloc);
    for unit in text.encode_utf16() {
        for _turn in 0..times {
            if units.len() < most as usize {
                units.push(unit).ok()?;
            }
        }
        times = 1;
    }
    Some(units)
}

// The number before a mark, and the text behind it.
fn counted<'t>(text: &'t str, mark: &str, usual: u32) -> (u32, &'t str) {
    match text.split_once(mark) {
        Some((digits, rest)) => (number(digits), rest),
        None => (usual, text),
    }
}

/// What a line with this step reports, where it does not report what it is to: that, one of two with `or`
/// between them, or one that begins with what precedes `..`.
pub(crate) fn wrong(alloc: Global, line: &str, want: &str, told: &Told) -> Option<String> {
    let Ok(found) = format!(in alloc; "{told:?}") else {
        return fault(alloc, line);
    };
    if fits(found.as_str(), want) {
        return None;
    }
    format!(in alloc; "{line}, and not {found}").ok()
}

fn fits(found: &str, want: &str) -> bool {
    if let Some((one, other)) = want.split_once(" or ") {
        return found == one || found == other;
    }
    match want.strip_suffix("..") {
        Some(front) => found.starts_with(front),
        None => found == want,
    }
}

/// A line that can't be played.
pub(crate) fn fault(alloc: Global, line: &str) -> Option<String> {
    String::from_str(alloc, line).ok()
}
