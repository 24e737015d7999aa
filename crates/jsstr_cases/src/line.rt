// The case of one line.

use crate::case::{Case, Ending, FILE, Fault, RUNNER, Way};
use crate::spelling::{bytes_of, text_of};
use js_io::MemFiles;
use std::alloc::Global;

/// The case of this line, which has this number.
pub(crate) fn case_of(alloc: Global, line: usize, text: &str) -> Result<Case, Fault> {
    let Some(wish) = split_wish(text) else {
        return Err(Fault::Form("neither `->` nor `!` behind two blanks"));
    };
    let mut wanted = Vec::new(alloc);
    wanted.push(wanted_of(alloc, wish)?)?;
    let mut files = MemFiles::new(alloc);
    let script = without_blanks(wish.script);
    match script.strip_prefix('@') {
        Some(spelled) => files.put(FILE, &bytes_of(alloc, spelled)?)?,
        None => files.put(FILE, script.as_bytes())?,
    }
    Ok(Case {
        line,
        files,
        words: words(alloc, RUNNER, FILE)?,
        way: Way::Once,
        wanted,
    })
}

/// The arguments by which the program runs the one file.
pub(crate) fn words(alloc: Global, program: &str, file: &str) -> Result<Vec<String>, Fault> {
    let mut words = Vec::new(alloc);
    words.push(String::from_str(alloc, program)?)?;
    words.push(String::from_str(alloc, file)?)?;
    Ok(words)
}

// The parts of a line: the script, and what follows `->` and behind `!`, each with the blanks round it.
#[derive(Clone, Copy)]
struct Wish<'a> {
    script: &'a str,
    out: Option<&'a str>,
    err: Option<&'a str>,
}

fn split_wish(text: &str) -> Option<Wish<'_>> {
    match (text.split_once("  ->"), text.split_once("  !")) {
        (Some((script, rest)), Some((other, _))) if script.len() < other.len() => {
            Some(with_out(script, rest))
        }
        (_, Some((script, err))) => Some(Wish {
            script,
            out: None,
            err: Some(err),
        }),
        (Some((script, rest)), None) => Some(with_out(script, rest)),
        (None, None) => None,
    }
}

// The parts where `->` comes first, with this behind it.
fn with_out<'a>(script: &'a str, rest: &'a str) -> Wish<'a> {
    let (out, err) = match rest.split_once("  !") {
        Some((out, err)) => (without_blanks(out), Some(err)),
        None => (rest, None),
    };
    Wish {
        script,
        out: Some(out),
        err,
    }
}

// The text without the blanks at its end.
fn without_blanks(text: &str) -> &str {
    let mut kept = text;
    for _ in 0..text.len() {
        match kept.strip_suffix(' ') {
            Some(rest) => kept = rest,
            None => return kept,
        }
    }
    kept
}

fn wanted_of(alloc: Global, wish: Wish<'_>) -> Result<Ending, Fault> {
    let out = match wish.out {
        None | Some("") => Vec::new(alloc),
        Some(out) => text_of(alloc, behind_blank(out)?)?,
    };
    let (status, err) = match wish.err {
        None => (0, Vec::new(alloc)),
        Some(err) => told(alloc, behind_blank(err)?)?,
    };
    Ok(Ending { status, out, err })
}

// What follows the one blank: it neither begins nor ends with another.
fn behind_blank(text: &str) -> Result<&str, Fault> {
    match text.strip_prefix(' ') {
        Some(text) if !text.is_empty() && !text.starts_with(' ') && !text.ends_with(' ') => Ok(
            text,
        ),
        _ => Err(Fault::Form("not one blank and a text behind `->` or `!`")),
    }
}

// The status that this line of `err` comes with, and the whole line.
fn told(alloc: Global, text: &str) -> Result<(u8, Vec<u8>), Fault> {
    let (status, line) = if matches!(text.as_bytes().first(), Some(b'0'..=b'9')) {
        (4, format!(in alloc; "{FILE}:{text}\n")?)
    } else if text.starts_with("uncaught ") || text.starts_with("unsupported ") {
        (1, format!(in alloc; "{FILE}: {text}\n")?)
    } else {
        return Err(Fault::Form("no script ends so"));
    };
    Ok((status, line.into_bytes()))
}
