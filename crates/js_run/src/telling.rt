// Writes what becomes of a call.
ghost use Rattle.std.specs.Prelude.{◌≡◌, ◌≤◌, ◌++◌, length, decimal, flat_map};
ghost use Rattle.js_io.specs.SinkState.{SinkState, WritesAll};
ghost use Rattle.run_sources.specs.Answers.{sources_for};
ghost use Rattle.js_run.specs.Answer.{HasNames, outcome_ends, source_names, stop_report};
ghost use Rattle.js_run.specs.Cause.{names_in};
ghost use Rattle.js_run.specs.Verdict.{BadWords, WasRun, count_line, end_line, end_lines, ends_of, err_of, full_text, kind_text, refused_line, out_of, report_of, status_of, status_or};
ghost use Rattle.js_io.specs.Report.{IsEnd, sinks};

use js_eval::{End, Kind};
use js_io::{
    Failed, Sink, tell_large, tell_refusal, tell_unread, write_all, write_both, write_number,
};
use js_parse::ParseFault;
use js_store::FullReport;
use run_program::{Outcome, Ran};
use run_sources::{ScriptsFault, SourceText, Sources};

// A name, and then what precedes a place, the place and what follows it.
fn write_place<O: Sink>(
    sink: &mut O,
    name: &str,
    before: &[u8],
    at: u32,
    behind: &[u8],
) -> Result<(), Failed>
    ensures { WritesAll result (O.state sink.old) (O.state sink.new)
        (name.now ++ (before.now ++ (decimal at ++ behind.now))) }
{
    match write_both(sink, name.as_bytes(), before) {
        Ok(()) => write_number(sink, at as usize, behind),
        Err(Failed) => Err(Failed),
    }
}

// The message of an uncaught error, with the end of the line.
fn kind_words(kind: Kind) -> &'static [u8]
    ensures { result.now ≡ kind_text kind }
{
    match kind {
        Kind::RangeError => b": uncaught RangeError\n",
        Kind::TypeError => b": uncaught TypeError\n",
        Kind::ReferenceError => b": uncaught ReferenceError\n",
        Kind::UriError => b": uncaught URIError\n",
    }
}

// Which part of a heap was full, with the end of the line.
fn full_words(report: FullReport) -> &'static [u8]
    ensures { result.now ≡ full_text report }
{
    match report {
        FullReport::Ids {
            at: _,
            want: _,
            end: _,
        } => b": heap full: ids\n",
        FullReport::Words {
            at: _,
            want: _,
            end: _,
        } => b": heap full: words\n",
        FullReport::Slots { slots: _ } => b": heap full: slots\n",
    }
}

// Writes the line of a file that didn't end Done.
fn write_end<E: Sink>(err: &mut E, name: &str, end: End) -> Result<(), Failed>
    ensures { WritesAll result (E.state err.old) (E.state err.new) (end_line name.now end) }
{
    match end {
        End::Done => Ok(()),
        End::Threw(kind) => write_both(err, name.as_bytes(), kind_words(kind)),
        End::Unsupported { at } => write_place(err, name, b": unsupported at ", at, b"\n"),
        End::Full(report) => write_both(err, name.as_bytes(), full_words(report)),
        End::Memory => write_both(err, name.as_bytes(), b": out of memory\n"),
    }
}

fn end_status(end: End) -> u8
    ensures { result ≡ status_or end 0 }
{
    match end {
        End::Done => 0,
        End::Threw(_) | End::Unsupported { at: _ } => 1,
        End::Full(_) => 5,
        End::Memory => 6,
    }
}

// Writes what the scripts printed, in order.
fn write_lines<O: Sink>(out: &mut O, scripts: &[Outcome]) -> Result<(), Failed>
    ensures { WritesAll result (O.state out.old) (O.state out.new) (flat_map (λ o. o.lines) scripts.now) }
{
    for script in scripts {
        write_all(out, script.lines.bytes())?;
    }
    Ok(())
}

// Writes the line of the number of different strings, where they were counted.
fn write_count<O: Sink>(out: &mut O, interned: Option<u32>) -> Result<(), Failed>
    ensures { WritesAll result (O.state out.old) (O.state out.new) (count_line interned) }
{
    match interned {
        None => Ok(()),
        Some(count) => match write_all(out, b"interned ") {
            Ok(()) => write_number(out, count as usize, b"\n"),
            Err(Failed) => Err(Failed),
        },
    }
}

// Writes all that goes to `out`.
fn write_out<O: Sink>(out: &mut O, ran: &Ran) -> Result<(), Failed>
    ensures { WritesAll result (O.state out.old) (O.state out.new) (out_of ran.now) }
{
    match write_lines(out, &ran.scripts) {
        Ok(()) => write_count(out, ran.interned),
        Err(Failed) => Err(Failed),
    }
}

// Writes the lines of the scripts that didn't end Done, in order.
fn write_ends<E: Sink>(
    err: &mut E,
    sources: &[SourceText<'_>],
    scripts: &[Outcome],
) -> Result<(), Failed>
    requires { length scripts.now ≤ length sources.now }
    ensures { WritesAll result (E.state err.old) (E.state err.new)
        (end_lines (source_names sources.now) (outcome_ends scripts.now)) }
{
    for k in 0..scripts.len() {
        write_end(err, sources[k].name, scripts[k].end)?;
    }
    Ok(())
}

// Writes the lines of all files that didn't end Done.
fn write_err<E: Sink>(err: &mut E, sources: &Sources<'_>, ran: &Ran) -> Result<(), Failed>
    requires { HasNames sources.now ran.now }
    ensures { WritesAll result (E.state err.old) (E.state err.new)
        (err_of (names_in (sources_for sources.now)) ran.now) }
{
    match &sources.prelude {
        None => write_ends(err, &sources.scripts, &ran.scripts),
        Some(source) => match &ran.prelude {
            None => unreachable!(),
            Some(prelude) => match write_end(err, source.name, prelude.end) {
                Ok(()) => write_ends(err, &sources.scripts, &ran.scripts),
                Err(Failed) => Err(Failed),
            },
        },
    }
}

// The status of the first script that didn't end Done.
fn first_status(scripts: &[Outcome]) -> u8
    ensures { result ≡ status_of (outcome_ends scripts.now) }
{
    for script in scripts {
        let status = end_status(script.end);
        if status != 0 {
            return status;
        }
    }
    0
}

// The status of the first file that didn't end Done.
fn status(ran: &Ran) -> u8
    ensures { result ≡ status_of (ends_of ran.now) }
{
    match &ran.prelude {
        None => first_status(&ran.scripts),
        Some(prelude) => {
            let status = end_status(prelude.end);
            if status != 0 {
                return status;
            }
            first_status(&ran.scripts)
        }
    }
}

/// Writes what files printed and how they ended, and gives the status.
pub(crate) fn tell_ran<O: Sink, E: Sink>(
    sources: &Sources<'_>,
    ran: &Ran,
    out: &mut O,
    err: &mut E,
) -> u8
    requires { HasNames sources.now ran.now }
    ensures { IsEnd (report_of (WasRun (names_in (sources_for sources.now)) ran.now)) result
        (sinks (O.state out.old) (E.state err.old)) (sinks (O.state out.new) (E.state err.new)) }
{
    match write_out(out, ran) {
        Ok(()) => match write_err(err, sources, ran) {
            Ok(()) => status(ran),
            Err(Failed) => 7,
        },
        Err(Failed) => 7,
    }
}

/// Reports that the arguments are refused, whatever the other sink received, and gives the status.
pub(crate) fn tell_words<E: Sink>(err: &mut E) -> u8
    ensures { (out : SinkState) → IsEnd (report_of BadWords) result
        (sinks out (E.state err.old)) (sinks out (E.state err.new)) }
{
    tell_refusal(err, b"jsstr: the words are refused\n", 2)
}

// Writes the line of a file that is no script.
fn write_refusal<E: Sink>(err: &mut E, name: &str, fault: ParseFault) -> Result<(), Failed>
    ensures { WritesAll result (E.state err.old) (E.state err.new) (refused_line name.now fault) }
{
    match write_place(err, name, b":", fault.offset(), b": refused: ") {
        Ok(()) => write_both(err, fault.words(), b"\n"),
        Err(Failed) => Err(Failed),
    }
}

/// Reports why nothing was run, whatever the other sink received, and gives the status.
pub(crate) fn tell_stop<E: Sink>(stop: ScriptsFault<'_>, err: &mut E) -> u8
    ensures { (out : SinkState) → IsEnd (stop_report stop.entry) result
        (sinks out (E.state err.old)) (sinks out (E.state err.new)) }
{
    match stop {
        ScriptsFault::NotRead(name) => tell_unread(err, name),
        ScriptsFault::TooLarge(name) => tell_large(err, name),
        ScriptsFault::Refused(name, fault) => {
            // a fault of err changes no status
            let _ = write_refusal(err, name, fault);
            4
        }
        ScriptsFault::NoMemory => tell_refusal(err, b"jsstr: out of memory\n", 6),
    }
}
