//! The program `jssched`: plays a schedule of events on the pure machine of the string heap.
//!
//! All that it does is done by [`heap_schedule::run_schedule`] over the files and the streams of
//! the process, and it ends with the status of that call. Where the runtime refuses it the arguments of
//! the command line, it ends with 6 when out of memory, and with 8 for any other cause, such as an
//! argument that isn't UTF-8; then it writes nothing.
#![tactic(auto)]

use heap_schedule::run_schedule;
use js_io::{HostErr, HostFiles, HostOut};
use std::process::ExitCode;
use std::{env, io};

const NO_MEMORY: u8 = 6;

const NO_WORDS: u8 = 8;

// The arguments of the command line, the program's name first.
fn words(rt: &HostRuntime) -> io::Result<Vec<String>> {
    let mut words = Vec::new(rt.alloc());
    for word in env::args(rt)? {
        words.push(word)?;
    }
    Ok(words)
}

fn main(rt: HostRuntime) -> ExitCode {
    let words = match words(&rt) {
        Ok(words) => words,
        Err(error) => {
            let code = if error.kind() == io::ErrorKind::OutOfMemory {
                NO_MEMORY
            } else {
                NO_WORDS
            };
            return ExitCode::from(code);
        }
    };
    let mut files = HostFiles::new(&rt, rt.alloc());
    let mut out = HostOut::new(&rt);
    let mut err = HostErr::new(&rt);
    let status = run_schedule(rt.alloc(), &words, &mut files, &mut out, &mut err);
    ExitCode::from(status.code)
}
