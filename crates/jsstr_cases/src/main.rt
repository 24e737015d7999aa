//! The program `jsstr_cases [--once] FILE..`: runs each case of the case files that its arguments name, over
//! files and sinks in memory, and compares the status and what both sinks received with what the case
//! expects. It prints one line a file (`slice.cases 41`), one for each difference, and at last
//! `N cases, M differ`; it ends with 0 where none differs, and else with 1. A file that can't be
//! read or isn't of the form is reported on standard error with its line, and ends the program with 1.
//! Four threads run the files, each the next that is left; a difference is reported once it is found, and
//! the lines of the files come last, in their order. With `--once` no case is run again: neither with other
//! sinks, nor with other numbers than the last one of an argument `FIRST..LAST`.
//!
//! A case file is UTF-8, and its lines end in a line feed. Between cases are empty lines, and
//! comments, which begin with `#`.
//!
//! # A case of one line
//!
//! A script, two blanks or more, and what is requested, which begins at the first two blanks that
//! precede `->` or `!`. The file is `a.js`, and the one argument names it.
//!
//! ```text
//! print('abcdef'.slice(-3, -1));                       -> de
//! print('x'); print(undefined.length);                 -> x  ! uncaught TypeError
//! print('abc'.slice('1'));                             ! unsupported at 12
//! @print(%C0%80);                                      ! 6: refused: not utf-8
//! print();                                             -> \e
//! ;                                                    ->
//! ```
//!
//! - `-> TEXT`: `out` is TEXT and a line feed. TEXT begins behind one blank and goes to the line's
//!   end, or to two blanks or more and `!`. In it `\n` is a line feed, `\\` a backslash, `\xXX`
//!   and `\uXXXX` the character of this code, and `\e` nothing (`-> \e` is an empty line). TEXT
//!   neither begins nor ends with a blank: there it is written `\x20`.
//! - `->` with nothing behind it: `out` receives nothing, as in a line that has no `->`. A line with
//!   neither `->` nor `!` isn't of the form.
//! - `! TEXT`: what `err` has behind the file's name and before its line feed. TEXT that begins
//!   with a digit follows `a.js:`, and the status is 4; `uncaught ..` and `unsupported ..`
//!   follow `a.js: `, and the status is 1; no other TEXT is of the form. With no `!`, `err`
//!   receives nothing, and the status is 0.
//! - `@` as the first character: in the script behind it `%XX` is the byte XX.
//!
//! # A block
//!
//! It carries several lines, several files, other arguments, and every byte, and goes from `== NAME`
//! to `-- status N`.
//!
//! ```text
//! == lines that were printed before a throw
//! -- file a.js
//! print('x');
//! print(undefined.length);
//! -- words a.js
//! -- out
//! x
//! -- err
//! a.js: uncaught TypeError
//! -- status 1
//! ```
//!
//! Its sections come in this order: `-- file NAME`, none or more; `-- fail N`, where the read of this
//! number is to fail, counted from 0; `-- words WORD ..`, the arguments behind the program's name, with one
//! blank between two (`-- words` alone: none; `-- no words`: not even that name); `-- cut`, `-- ends` or `-- held`,
//! where the case is run so; `-- out` and `-- err` (left out: nothing); and the status. The lines below
//! `file`, `out` and `err` are their bytes, each with its line feed; `-- fill SIZE` behind those of a file
//! adds line feeds until it has so many bytes. With `@` before the section's name (`-- @file a.js`,
//! `-- @words ..`, `-- @out`, `-- @err`), `%XX` is the byte XX in its lines or arguments, and a `%` at
//! the end of a line removes its line feed, at the end of an argument nothing (so `%` is the empty
//! argument). A line that begins with `-- ` or `== ` is written `%2D- ` or `%3D= `.
//!
//! With `-- cut` the case is run again with sinks that accept 1, 2, 3 or 7 bytes a write, and so many in
//! all: none, one, up to all of these, those of `out` before those of `err`. Each run counts. What is
//! expected then follows: the first bytes, and the status 7 where files were run.
//! With `-- held` a gate holds the first script until the second has entered, and the case differs where
//! its turns run out.
//!
//! With `-- ends` the case is run again with sinks that accept so many bytes alone, in one write.
//!
//! A block whose head is `== play: NAME` plays a schedule: its arguments are those of `jssched` and not of
//! `jsstr`, and where it has none, `a.sched`.
//!
//! A block whose head is `== call: NAME` gives a call's result that no script shows. Its arguments are the
//! call's name and what it is given: `plan WORD ..`, what these arguments request; `texts N`,
//! the first line of the sources generated from a number, and a hash of all; `prints N`, what these scripts
//! print over the plain store; `laws`, the ids and words that are used of a heap on which nothing was run.
//!
//! An argument `FIRST..LAST` spells each number from FIRST to LAST: the case is run once with each,
//! and counts as so many. Where one of several endings may come, all but the last one end with
//! `-- status N or`, and `out` and `err` of the next one follow.
//!
//! ```text
//! == room for half of what the script may need
//! -- file a.js
//! print('ab' + 'cd');
//! -- words --ids 2..31 a.js
//! -- out
//! abcd
//! -- status 0 or
//! -- err
//! a.js: heap full: ids
//! -- status 5
//! ```
//!
//! # The heap of a case
//!
//! The sizes of the heap that a case's arguments don't name are small, so that the heap is made quickly; if
//! it is full they are larger, and at last those that the program has by default. The run that doesn't
//! find its heap full counts, or the last one. Arguments that name all three get the heap that they request.
#![tactic(auto)]

mod block;
mod calls;
mod case;
mod check;
mod cut;
mod files;
mod gate;
mod line;
mod reading;
mod run;
mod spelling;
mod tally;
mod telling;

use anyhow::{Result, bail};
use case::Repeats;
use files::{CaseFile, check_those_left, count};
use std::env;
use std::process::ExitCode;
use std::sync::atomic::AtomicU64;
use std::thread::map_indices;

// In so many threads.
const THREADS: usize = 4;

// The argument that requests one run of each case.
const ONCE: &str = "--once";

fn main(rt: HostRuntime) -> Result<ExitCode> {
    let mut files = Vec::new(rt.alloc());
    let mut repeats = Repeats::All;
    for word in env::args(&rt)?.skip(1) {
        if word.as_str() == ONCE {
            repeats = Repeats::None;
        } else {
            files.push(CaseFile::new(word))?;
        }
    }
    let taken = AtomicU64::new(0);
    for end in map_indices(
        &rt,
        rt.alloc(),
        THREADS,
        &|_| { check_those_left(&rt, files.as_slice(), &taken, repeats) },
    )? {
        end?;
    }
    let total = count(&rt, files.as_slice())?;
    if total.cases == 0 {
        bail!("no case was run");
    }
    println!(rt; "{} cases, {} differ", total.cases, total.differ)?;
    Ok(ExitCode::from(total.code()))
}
