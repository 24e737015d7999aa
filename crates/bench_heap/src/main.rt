//! The program `bench_heap [STORE WORD COUNT]..`: does what each three of its words name as often as they
//! say, so that it can be timed from outside, and writes for each how many were made, a length, or the
//! sum of what was read or found.
//!
//! STORE is `text`: the strings of the heap, and plain lists beside them. Flat strings: `make` makes such
//! of 64 units on a heap, `short` such of 13, `copy` lists of 64; `read` reads the units of one in turn,
//! `index` those of a list; `lists` copies a list of 1,000,000 units; `heap` makes one heap of COUNT
//! content words, `zeros` a list of as many zeros as it has words. Ropes and slices: `right` joins a rope
//! of 13 units COUNT times behind a rope, `left` in front of it; `grow` joins a unit COUNT times behind a
//! string of 12, and `behind` and `front` settle what was joined so; `slice` cuts 1,000,000 units out of
//! one more; `reader` reads a rope that `grow` makes, `readers` does so by eight agents in eight threads
//! at once, each of which settles it.
//!
//! Or STORE is `plain` or `heap`, one of the two stores. `read` reads the units of a string of 1,000,000
//! in turn, `blocks` by 250 at once, and `seek` looks in it for a unit that it hasn't. On a table of
//! 50,000 lists of 20 units `make` makes strings of such units and `known` makes and interns them. On an
//! empty table `new` makes and interns COUNT different ones; `keys` makes as many of 40 units, and `forty`
//! makes and interns these. `repeat` repeats a unit to the greatest length, which a session does by ropes
//! alone, and settles nothing.
//!
//! Anything else ends with 3, and lack of room or memory with 6.
#![tactic(auto)]

mod flat;
mod measures;
mod over_stores;
mod readers;
mod ropes;
mod stores;

use measures::{Measure, NoRoom, run};
use over_stores::StoreMeasure;
use std::alloc::Global;
use std::process::ExitCode;
use std::thread::Threads;
use std::{env, io};
use stores::{StoreKind, run_over};

// What a word names.
fn measure_of(word: &str) -> Option<Measure> {
    match word {
        "make" => Some(Measure::Make),
        "short" => Some(Measure::Short),
        "read" => Some(Measure::Read),
        "copy" => Some(Measure::Copy),
        "index" => Some(Measure::Index),
        "lists" => Some(Measure::Lists),
        "heap" => Some(Measure::Heap),
        "zeros" => Some(Measure::Zeros),
        "right" => Some(Measure::Right),
        "left" => Some(Measure::Left),
        "grow" => Some(Measure::Grow),
        "behind" => Some(Measure::Behind),
        "front" => Some(Measure::Front),
        "slice" => Some(Measure::Slice),
        "reader" => Some(Measure::Reader),
        "readers" => Some(Measure::Readers),
        _ => None,
    }
}

// The same over a store.
fn store_measure_of(word: &str) -> Option<StoreMeasure> {
    match word {
        "read" => Some(StoreMeasure::Read),
        "blocks" => Some(StoreMeasure::Blocks),
        "seek" => Some(StoreMeasure::Seek),
        "make" => Some(StoreMeasure::Make),
        "known" => Some(StoreMeasure::Known),
        "new" => Some(StoreMeasure::New),
        "keys" => Some(StoreMeasure::Keys),
        "forty" => Some(StoreMeasure::Forty),
        "repeat" => Some(StoreMeasure::Repeat),
        _ => None,
    }
}

// Does what is named, where something is.
fn run_named<R: Threads + Sync>(
    rt: &R,
    alloc: Global,
    store: &str,
    word: &str,
    count: u32,
) -> Option<Result<u64, NoRoom>> {
    match store {
        "text" => Some(run(rt, alloc, measure_of(word)?, count)),
        "plain" => Some(run_over(alloc, StoreKind::Plain, store_measure_of(word)?, count)),
        "heap" => Some(run_over(alloc, StoreKind::Heap, store_measure_of(word)?, count)),
        _ => None,
    }
}

// The same for three words.
fn run_asked<R: Threads + Sync>(
    rt: &R,
    alloc: Global,
    asked: &[String],
) -> Option<Result<u64, NoRoom>> {
    let [store, word, count] = asked else {
        return None;
    };
    let count = count.as_str().parse::<u32>().ok()?;
    run_named(rt, alloc, store.as_str(), word.as_str(), count)
}

fn main(rt: HostRuntime) -> io::Result<ExitCode> {
    let mut words = Vec::new(rt.alloc());
    for word in env::args(&rt)?.skip(1) {
        words.push(word)?;
    }
    if words.is_empty() {
        return Ok(ExitCode::from(3));
    }
    for asked in words.chunks(3) {
        match run_asked(&rt, rt.alloc(), asked) {
            Some(Ok(number)) => println!(rt; "{number}")?,
            Some(Err(NoRoom)) => return Ok(ExitCode::from(6)),
            None => return Ok(ExitCode::from(3)),
        }
    }
    Ok(ExitCode::SUCCESS)
}
