// The top call.
ghost use Rattle.std.specs.Prelude.{map};
ghost use Rattle.std.specs.String.{string_bytes};
ghost use Rattle.js_run.specs.Moment.{call, moment};
ghost use Rattle.js_run.specs.Outcome.{CallOutcome};
ghost use Rattle.js_run.specs.Rows.{EachStatus};

use crate::stages::{run_plan, stopped};
use crate::status::Status;
use crate::telling::tell_words;
use js_io::{Files, Gate, Sink};
use js_parse::{no_refused_script, one_script};
use run_command::{WordsFault, read_words};
use run_sources::ScriptsFault;
use std::alloc::Global;
use std::thread::Threads;

fn run<R: Threads + Sync, F: Files, O: Sink, E: Sink, G: Gate + Sync>(
    rt: &R,
    alloc: Global,
    words: &[String],
    files: &mut F,
    out: &mut O,
    err: &mut E,
    gate: &G,
) -> Status
    ensures { CallOutcome (call (map string_bytes words.now) result
        (moment (F.state files.old) (O.state out.old) (E.state err.old))
        (moment (F.state files.new) (O.state out.new) (E.state err.new))) }
{
    match read_words(alloc, words) {
        Ok(plan) => run_plan(rt, alloc, &plan, files, out, err, gate),
        Err(fault) => match fault {
            WordsFault::Refused => Status {
                code: tell_words(err),
                kept: None,
            },
            WordsFault::Memory => stopped(ScriptsFault::NoMemory, err),
        },
    }
}

/// Does all that the program does. `words` begins with the program's name.
///
/// | Status | Comes |
/// |---|---|
/// | 0 | all files were read and all ended Done, and everything was written |
/// | 1 | the first file that didn't end Done threw, or used an unsupported feature |
/// | 2 | the arguments aren't valid |
/// | 3 | a file can't be read, or has more than [`js_io::FILE_MAX`] bytes |
/// | 4 | all files were read, and one spells no script |
/// | 5 | the first file that didn't end Done found the heap full |
/// | 6 | out of memory: before anything ran, or of the first file that didn't end Done |
/// | 7 | a write of what the scripts print failed |
///
/// With 0, 1, 5 and the second 6 what the scripts printed was written in the order of the arguments,
/// also the lines before a script's end; then, where it is asked for, how many different strings
/// were interned; and then a line for each file that didn't end Done, the prelude first. With these
/// and 7 the heap is kept, with an agent that has the whole share. The gate is entered before each
/// script and left afterwards.
pub fn run_words<R: Threads + Sync, F: Files, O: Sink, E: Sink, G: Gate + Sync>(
    rt: &R,
    alloc: Global,
    words: &[String],
    files: &mut F,
    out: &mut O,
    err: &mut E,
    gate: &G,
) -> Status
    ensures outcome { CallOutcome (call (map string_bytes words.now) result
        (moment (F.state files.old) (O.state out.old) (E.state err.old))
        (moment (F.state files.new) (O.state out.new) (E.state err.new))) }
    ensures rows { EachStatus (call (map string_bytes words.now) result
        (moment (F.state files.old) (O.state out.old) (E.state err.old))
        (moment (F.state files.new) (O.state out.new) (E.state err.new))) }
{
    // laws of what is spelled
    one_script();
    no_refused_script();
    run(rt, alloc, words, files, out, err, gate)
}
