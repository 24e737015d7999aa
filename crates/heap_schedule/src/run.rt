// The top call.
ghost use Rattle.std.specs.Prelude.{◌≡◌, ◌+◌, ◌==◌, ◌++◌, IfOk, decimal, map, slice_index, true};
ghost use Rattle.std.specs.Option.{option_copied};
ghost use Rattle.std.specs.String.{string_bytes};
ghost use Rattle.js_io.specs.SinkState.{SinkState, WritesAll};
ghost use Rattle.heap_schedule.specs.Lines.{is_small};
ghost use Rattle.heap_schedule.specs.Text.{turns_of};
ghost use Rattle.heap_schedule.specs.Outcome.{FileOutcome, IsShown, PlayOutcome, TextOutcome, file_in, no_memory, not_of_form, not_read, play_status, play_report, stop_line, too_large};
ghost use Rattle.js_io.specs.Report.{IsEnd, Printed, sinks};

use crate::play::play_lines;
use crate::schedule::Schedule;
use crate::show::show;
use crate::text::{TextStop, read_schedule};
use heap_core::{CoreState, Event, Refusal, apply};
use js_io::{
    Failed, Files, ReadFault, Sink, tell_large, tell_refusal, tell_unread, write_all, write_number,
};
use js_units::NoMemory;
use std::alloc::Global;

/// How a call ended.
#[derive(Clone, Copy, Debug, PartialEq, Eq)]
pub struct Status {
    /// The exit status of the program.
    pub code: u8,
}

// What a play came to.
#[derive(Drop)]
struct Shown {
    bytes: Vec<u8>,
    // how many lines were played behind the first
    played: usize,
    // the number of the line behind them
    next: usize,
    ghost next_is: { next ≡ played + 2 },
}

fn begins_with_dash(name: &str) -> bool
    ensures { result ≡ (slice_index name.now 0 == 45) }
{
    let bytes = name.as_bytes();
    if bytes.is_empty() {
        return false;
    }
    bytes[0] == b'-'
}

// The name of the file, where the arguments are valid.
fn file_name(words: &[String]) -> Option<&str>
    ensures { option_copied result ≡ file_in (map string_bytes words.now) }
{
    if words.len() != 2 {
        return None;
    }
    let name = words[1].as_str();
    if begins_with_dash(name) {
        return None;
    }
    Some(name)
}

// Plays a schedule, and gives all that is shown of it.
#[tactic(auto, using(crate::proofs::Told::lawful_size, crate::proofs::Told::lawful_agents))]
fn play(alloc: Global, schedule: &Schedule) -> Result<Shown, NoMemory>
    ensures { IfOk result (λ shown. IsShown schedule.now.making (turns_of schedule.now)
        shown.bytes.items shown.played) }
{
    let mut state = CoreState::new(alloc);
    let making = Event::Make {
        size: schedule.making.size,
        agents: schedule.making.agents,
    };
    match apply(&mut state, &making) {
        Ok(_) => {
            let found = play_lines(alloc, &mut state, &schedule.lines)?;
            let bytes = show(alloc, &state, &found)?;
            Ok(Shown {
                bytes,
                played: found.len(),
                next: found.len() + 2,
            })
        }
        Err(refusal) => match refusal {
            Refusal::NotEnabled => unreachable!(),
            Refusal::Memory => Err(NoMemory),
        },
    }
}

// Writes what is shown, and where a line isn't enabled its number.
fn tell_play<O: Sink, E: Sink>(shown: &Shown, lines: usize, out: &mut O, err: &mut E) -> u8
    ensures { IsEnd (Printed (play_status lines shown.now.played) shown.now.bytes.items
        (stop_line lines shown.now.played)) result
        (sinks (O.state out.old) (E.state err.old)) (sinks (O.state out.new) (E.state err.new)) }
{
    match write_all(out, &shown.bytes) {
        Ok(()) => {
            if shown.played == lines {
                return 0;
            }
            match write_number(err, shown.next, b": not enabled\n") {
                Ok(()) => 1,
                Err(Failed) => 7,
            }
        }
        Err(Failed) => 7,
    }
}

// What is reported in place of a play, whatever the other sink received. A fault of err changes no status.

fn tell_memory<E: Sink>(err: &mut E) -> u8
    ensures { (out : SinkState) → IsEnd (play_report no_memory) result
        (sinks out (E.state err.old)) (sinks out (E.state err.new)) }
{
    tell_refusal(err, b"jssched: out of memory\n", 6)
}

#[tactic(auto, using(js_io::proofs::Told::told))]
fn tell_refused<E: Sink>(err: &mut E, line: usize) -> u8
    ensures { (out : SinkState) → IsEnd (play_report (not_of_form line)) result
        (sinks out (E.state err.old)) (sinks out (E.state err.new)) }
{
    let _ = write_number(err, line, b": refused\n");
    4
}

fn run_text<O: Sink, E: Sink>(alloc: Global, text: &[u8], out: &mut O, err: &mut E) -> u8
    ensures { TextOutcome text.now result
        (sinks (O.state out.old) (E.state err.old)) (sinks (O.state out.new) (E.state err.new)) }
{
    match read_schedule(alloc, text) {
        Ok(schedule) => match play(alloc, &schedule) {
            Ok(shown) => tell_play(&shown, schedule.lines.len(), out, err),
            Err(NoMemory) => tell_memory(err),
        },
        Err(stop) => match stop {
            TextStop::Refused(line) => tell_refused(err, line),
            TextStop::Memory => tell_memory(err),
        },
    }
}

#[tactic(auto, using(crate::proofs::Told::file_large, crate::proofs::Told::file_memory, crate::proofs::Told::file_text, crate::proofs::Told::file_unread))]
fn run_file<F: Files, O: Sink, E: Sink>(
    alloc: Global,
    name: &str,
    files: &mut F,
    out: &mut O,
    err: &mut E,
) -> u8
    ensures { FileOutcome name.now (F.state files.old) (F.state files.new) result
        (sinks (O.state out.old) (E.state err.old)) (sinks (O.state out.new) (E.state err.new)) }
{
    match files.read(alloc, name) {
        Ok(text) => run_text(alloc, &text, out, err),
        Err(fault) => match fault {
            ReadFault::Failed => tell_unread(err, name),
            ReadFault::TooLarge => tell_large(err, name),
            ReadFault::Memory => tell_memory(err),
        },
    }
}

/// Reads a schedule from a file, plays it, and writes what each event found and what all strings
/// hold. `words` begins with the program's name; the other word names the file.
///
/// | Status | Comes |
/// |---|---|
/// | 0 | all events were played |
/// | 1 | an event isn't enabled; those before it were played, and are shown |
/// | 2 | the words aren't the program's name and one word that doesn't begin with `-` |
/// | 3 | the file can't be read, or has more than [`js_io::FILE_MAX`] bytes |
/// | 4 | a line isn't of the form |
/// | 6 | out of memory |
/// | 7 | a write of what is shown failed |
pub fn run_schedule<F: Files, O: Sink, E: Sink>(
    alloc: Global,
    words: &[String],
    files: &mut F,
    out: &mut O,
    err: &mut E,
) -> Status
    ensures outcome { PlayOutcome (map string_bytes words.now) (F.state files.old) (F.state files.new)
        result.code
        (sinks (O.state out.old) (E.state err.old)) (sinks (O.state out.new) (E.state err.new)) }
{
    match file_name(words) {
        Some(name) => Status {
            code: run_file(alloc, name, files, out, err),
        },
        None => Status {
            code: tell_refusal(err, b"jssched: the words are refused\n", 2),
        },
    }
}
