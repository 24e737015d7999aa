// A run of the program, on a heap and with sinks that suit a case.

use crate::calls::told;
use crate::case::{CALLS, Ending, Fault, PLAYER};
use heap_schedule::run_schedule;
use js_io::{FreeGate, Gate, MemFiles, MemSink};
use js_run::run_words;
use std::alloc::Global;
use std::thread::Threads;

/// So many bytes a sink accepts where it is to accept all.
pub(crate) const ROOM: u32 = 65_536;

// The status of a full heap.
const FULL: u8 = 5;

// The options that set the sizes of a heap, each with its value.
type Sizes = [(&'static str, &'static str); 3];

// The sizes of heaps that are made at once, and in a moment.
const SMALL: Sizes = [
    ("--ids", "256"),
    ("--heap-words", "1024"),
    ("--slots", "64"),
];

const LARGER: Sizes = [
    ("--ids", "32768"),
    ("--heap-words", "131072"),
    ("--slots", "2048"),
];

/// How many bytes the sinks accept: of a write, and of all writes to each.
#[derive(Clone, Copy)]
pub(crate) struct Room {
    pub most: u32,
    pub out: u32,
    pub err: u32,
}

/// Room for all.
pub(crate) const AMPLE: Room = Room {
    most: ROOM,
    out: ROOM,
    err: ROOM,
};

/// What becomes of the arguments.
pub(crate) fn run<R, G>(
    rt: &R,
    words: &[String],
    files: &mut MemFiles,
    room: Room,
    gate: &G,
) -> Result<Ending, Fault>
where
    R: AllocGlobal + Sync + Threads,
    G: Gate + Sync,
{
    let alloc = rt.alloc();
    if are_of(words, CALLS) {
        return called(alloc, words);
    }
    let most = room.most.max(1);
    let mut out = MemSink::new(alloc, most, room.out)?;
    let mut err = MemSink::new(alloc, most, room.err)?;
    let status = if are_of(words, PLAYER) {
        played(alloc, words, files, &mut out, &mut err)
    } else {
        ran(rt, words, files, &mut out, &mut err, gate)
    };
    Ok(Ending {
        status,
        out: out.taken().to_vec(alloc)?,
        err: err.taken().to_vec(alloc)?,
    })
}

// What a call below the programs comes to.
fn called(alloc: Global, words: &[String]) -> Result<Ending, Fault> {
    Ok(Ending {
        status: 0,
        out: told(alloc, words)?,
        err: Vec::new(alloc),
    })
}

// The status with which the player of schedules ends.
fn played(
    alloc: Global,
    words: &[String],
    files: &mut MemFiles,
    out: &mut MemSink,
    err: &mut MemSink,
) -> u8 {
    run_schedule(alloc, words, files, out, err).code
}

// The status with which the program of scripts ends.
fn ran<R, G>(
    rt: &R,
    words: &[String],
    files: &mut MemFiles,
    out: &mut MemSink,
    err: &mut MemSink,
    gate: &G,
) -> u8
where
    R: AllocGlobal + Sync + Threads,
    G: Gate + Sync,
{
    let status = run_words(rt, rt.alloc(), words, files, out, err, gate);
    status.code
}

// Whether the arguments are those of this program.
fn are_of(words: &[String], program: &str) -> bool {
    match words.first() {
        Some(name) => name.as_str() == program,
        None => false,
    }
}

// Whether some argument is this option, with its value or before it.
fn names(words: &[String], option: &str) -> bool {
    for word in words {
        if word.starts_with(option) {
            return true;
        }
    }
    false
}

// The arguments, with those of these sizes of a heap that they don't name behind the first.
fn sized(alloc: Global, sizes: &Sizes, words: &[String]) -> Result<Vec<String>, Fault> {
    let mut all = Vec::new(alloc);
    if let Some((first, rest)) = words.split_first() {
        all.push(first.clone()?)?;
        for (option, size) in sizes {
            if !names(words, option) {
                all.push(String::from_str(alloc, option)?)?;
                all.push(String::from_str(alloc, size)?)?;
            }
        }
        for word in rest {
            all.push(word.clone()?)?;
        }
    }
    Ok(all)
}

/// The same with room for all. What the arguments don't name of the heap's sizes is small, and where such a
/// heap is full larger, before it is the program's default.
pub(crate) fn run_on_a_heap<R>(
    rt: &R,
    words: &[String],
    files: &mut MemFiles,
) -> Result<Ending, Fault>
where
    R: AllocGlobal + Sync + Threads,
{
    if !are_of(words, PLAYER) && !are_of(words, CALLS) {
        for sizes in [SMALL, LARGER] {
            let filled = sized(rt.alloc(), &sizes, words)?;
            if filled.len() == words.len() {
                break;
            }
            let got = run(rt, &filled, files, AMPLE, &FreeGate)?;
            if got.status != FULL {
                return Ok(got);
            }
        }
    }
    run(rt, words, files, AMPLE, &FreeGate)
}
