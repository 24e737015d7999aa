// Calls below the program, by their results: the plan of a command line, the sources generated from
// a number, what these print over the plain store, and the laws of a heap on which nothing was run.

use crate::case::Fault;
use eval_tree::{Names, Script};
use heap_rule::HeapSize;
use heap_session::Session;
use heap_table::Heap;
use js_eval::{End, Env, Lines, eval};
use js_parse::{Role, parse};
use js_store::Limit;
use plain_store::PlainStore;
use run_command::{Plan, Sizes, read_words};
use run_program::{ends_tell, files_are_run};
use run_sources::{GeneratedText, texts_from};
use std::alloc::{AllocError, Global};

/// The result of the call that the second argument names, with the arguments behind it.
pub(crate) fn told(alloc: Global, words: &[String]) -> Result<Vec<u8>, Fault> {
    let Some(call) = words.get(1) else {
        return Err(Fault::Form("no name of a call"));
    };
    match call.as_str() {
        "plan" => plan(alloc, words.get(1..).unwrap_or(words)),
        "texts" => texts(alloc, number_in(words)?),
        "prints" => prints(alloc, number_in(words)?),
        "laws" => laws(alloc),
        _ => Err(Fault::Form("no such call")),
    }
}

// The number behind the call's name.
fn number_in(words: &[String]) -> Result<u32, Fault> {
    let Some(word) = words.get(2) else {
        return Err(Fault::Form("no number behind the call"));
    };
    match word.parse::<u32>() {
        Ok(number) => Ok(number),
        Err(_) => Err(Fault::Form("no number behind the call")),
    }
}

// What the arguments behind the first ask for, or why they ask for nothing.
fn plan(alloc: Global, words: &[String]) -> Result<Vec<u8>, Fault> {
    let told = match read_words(alloc, words) {
        Ok(plan) => asked(alloc, &plan)?,
        Err(fault) => format!(in alloc; "{fault:?}\n")?,
    };
    Ok(told.into_bytes())
}

// The input, the jobs, the sizes of the heap, whether a summary is asked for, and the limit.
fn asked(alloc: Global, plan: &Plan) -> Result<String, AllocError> {
    let input = &plan.input;
    let Sizes {
        ids,
        heap_words,
        slots,
    } = plan.sizes;
    let (jobs, summary, limit) = (plan.jobs, plan.summary, plan.limit);
    format!(in alloc; "{input:?}, {jobs}, {ids} {heap_words} {slots}, {summary}, {limit:?}\n")
}

// The FNV-1a hash of bytes behind others.
const START: u64 = 14_695_981_039_346_656_037;

fn hashed(before: u64, bytes: &[u8]) -> u64 {
    let mut hash = before;
    for byte in bytes {
        hash = (hash ^ u64::from(*byte)).wrapping_mul(1_099_511_628_211);
    }
    hash
}

// That of the sources in order, each behind its name and a line end.
fn hash(texts: &[GeneratedText]) -> u64 {
    let mut hash = START;
    for text in texts {
        hash = hashed(hash, text.name.as_bytes());
        hash = hashed(hash, b"\n");
        hash = hashed(hash, text.text.as_bytes());
    }
    hash
}

// The first line of the sources from a number, and the hash of all of them.
fn texts(alloc: Global, number: u32) -> Result<Vec<u8>, Fault> {
    let texts = texts_from(alloc, number)?;
    let hash = hash(texts.as_slice());
    let Some(prelude) = texts.first() else {
        return Err(Fault::Form("no text"));
    };
    let first = match prelude.text.split_once('\n') {
        Some((first, _)) => first,
        None => prelude.text.as_str(),
    };
    Ok(format!(in alloc; "{first}\n{hash}\n")?.into_bytes())
}

// The script of a source, where it is one.
fn script(alloc: Global, text: &str, role: Role, outer: &Names) -> Option<Script> {
    if text.len() > 10_000 {
        return None;
    }
    parse(alloc, text.as_bytes(), role, outer).ok()
}

// What a script prints behind a prelude, by itself on a plain store.
fn lines_alone(alloc: Global, prelude: &Script, text: &str) -> Option<Lines> {
    let script = script(alloc, text, Role::Main, prelude.names())?;
    let mut store = PlainStore::new(alloc, Limit::Bits64);
    let mut env = Env::new(alloc);
    let mut lines = Lines::new(alloc);
    let before = eval(alloc, prelude, &mut env, &mut store, &mut lines);
    let end = eval(alloc, &script, &mut env, &mut store, &mut lines);
    if before != End::Done || end != End::Done {
        return None;
    }
    Some(lines)
}

// What the sources from a number print, each behind the first of them.
fn lines_made(alloc: Global, number: u32) -> Option<Vec<u8>> {
    let texts = texts_from(alloc, number).ok()?;
    let first = texts.first()?;
    let prelude = script(
        alloc,
        first.text.as_str(),
        Role::Prelude,
        &Names::new(alloc),
    )?;
    let mut all = Vec::new(alloc);
    for text in texts.iter().skip(1) {
        let lines = lines_alone(alloc, &prelude, text.text.as_str())?;
        all.extend_from_slice(lines.bytes()).ok()?;
    }
    Some(all)
}

// The same, where each script ends well.
fn prints(alloc: Global, number: u32) -> Result<Vec<u8>, Fault> {
    match lines_made(alloc, number) {
        Some(lines) => Ok(lines),
        None => Err(Fault::Form("a text ends early")),
    }
}

// On a new heap nothing was run, and nothing is used.
fn laws(alloc: Global) -> Result<Vec<u8>, Fault> {
    let size = HeapSize {
        ids: 4,
        words: 4,
        slots: 2,
    };
    let Ok((heap, agent)) = Heap::make(alloc, size, 1) else {
        return Err(Fault::Memory);
    };
    let mut session = Session::new(&heap, agent, Limit::Bits64);
    files_are_run();
    ends_tell(&session);
    let (ids, words) = session.totals();
    Ok(format!(in alloc; "{ids} {words}\n")?.into_bytes())
}
