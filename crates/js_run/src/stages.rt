// What becomes of valid arguments, one stage after the other.
ghost use Rattle.std.specs.Prelude.{◌≡◌, ◌≤◌, ℕ, List, None, length, map, Some};
ghost use Rattle.heap_table.specs.MayMake.{MayMake};
ghost use Rattle.run_sources.specs.Texts.{generated};
ghost use Rattle.js_io.specs.SinkState.{SinkState};
ghost use Rattle.run_command.specs.Words.{IsRequestInRange, Request, made_from, request_for, request_of, files as named_files};
ghost use Rattle.run_sources.specs.Answers.{AreShort, names_for, sources_for, trees_for};
ghost use Rattle.run_sources.specs.Program.{program_from};
ghost use Rattle.run_sources.specs.Reading.{KeepsFiles};
ghost use Rattle.run_sources.specs.Spelling.{Spell};
ghost use Rattle.js_run.specs.Answer.{Becomes, HasCauseOf, stop_report};
ghost use Rattle.js_run.specs.Asked.{names_of, setup_of};
ghost use Rattle.js_run.specs.Cause.{HasCause};
ghost use Rattle.js_io.specs.Report.{IsEnd, sinks};
ghost use Rattle.js_run.specs.Moment.{call, moment};

use crate::status::Status;
use crate::telling::{tell_ran, tell_stop};
use heap_rule::HeapSize;
use js_io::{Files, Gate, Sink};
use run_command::{Input, Plan};
use run_program::{Ran, Setup, run_program};
use run_sources::{
    Scripts, ScriptsFault, Sources, made_sources, parse_sources, read_sources, texts_from,
};
use std::alloc::Global;
use std::thread::Threads;

// Whether different strings are counted.
fn counts(plan: &Plan<'_>) -> bool
    ensures { result ≡ (setup_of (request_for plan.now)).count }
{
    match &plan.input {
        Input::Files {
            prelude: _,
            scripts: _,
        } => plan.summary,
        Input::Generated(_) => true,
    }
}

// How the program is run.
fn setup(plan: &Plan<'_>) -> Setup
    ensures { result ≡ setup_of (request_for plan.now) }
{
    let sizes = plan.sizes;
    Setup {
        jobs: plan.jobs,
        size: HeapSize {
            ids: sizes.ids,
            words: sizes.heap_words,
            slots: sizes.slots,
        },
        limit: plan.limit,
        count: counts(plan),
    }
}

/// Reports why nothing was run.
pub(crate) fn stopped<E: Sink>(stop: ScriptsFault<'_>, err: &mut E) -> Status
    ensures told { (out : SinkState) → IsEnd (stop_report stop.entry) result.code
        (sinks out (E.state err.old)) (sinks out (E.state err.new)) }
    ensures kept { result.kept ≡ None }
{
    Status {
        code: tell_stop(stop, err),
        kept: None,
    }
}

// Parses the sources, runs the program that they spell, and writes what came of it.
fn run_scripts<R: Threads + Sync, O: Sink, E: Sink, G: Gate + Sync>(
    rt: &R,
    alloc: Global,
    setup: Setup,
    sources: &Sources<'_>,
    out: &mut O,
    err: &mut E,
    gate: &G,
) -> Status
    requires may { MayMake setup.size setup.jobs }
    requires few { length sources.now.scripts.items ≤ 4294967295 }
    requires short { AreShort (sources_for sources.now) }
    ensures { Becomes (HasCauseOf setup (sources_for sources.now)) result.code result.kept
        (sinks (O.state out.old) (E.state err.old)) (sinks (O.state out.new) (E.state err.new)) }
{
    let parsed = match parse_sources(alloc, sources) {
        Ok(parsed) => parsed,
        Err(stop) => return stopped(stop, err),
    };
    let Scripts { prelude, scripts } = parsed;
    let Ok(ran) = run_program(rt, alloc, prelude.as_ref(), scripts, setup, gate) else {
        return stopped(ScriptsFault::NoMemory, err);
    };
    let code = tell_ran(sources, &ran, out, err);
    let Ran { kept, .. } = ran;
    Status {
        code,
        kept: Some(kept),
    }
}

/// What becomes of valid arguments: files are read, or scripts generated, and then they are run.
pub(crate) fn run_plan<R: Threads + Sync, F: Files, O: Sink, E: Sink, G: Gate + Sync>(
    rt: &R,
    alloc: Global,
    plan: &Plan<'_>,
    files: &mut F,
    out: &mut O,
    err: &mut E,
    gate: &G,
) -> Status
    requires { IsRequestInRange (request_for plan.now) }
    ensures keeps { KeepsFiles (F.state files.old) (F.state files.new) }
    ensures becomes { (words : List (List ℕ)) → request_of words ≡ Some (request_for plan.now)
        → Becomes (HasCause (call words result
        (moment (F.state files.old) (O.state out.old) (E.state err.old))
        (moment (F.state files.new) (O.state out.new) (E.state err.new)))) result.code result.kept
        (sinks (O.state out.old) (E.state err.old)) (sinks (O.state out.new) (E.state err.new)) }
{
    let setup = setup(plan);
    match &plan.input {
        Input::Files { prelude, scripts } => match read_sources(alloc, *prelude, scripts, files) {
            Ok(sources) => run_scripts(rt, alloc, setup, &sources, out, err, gate),
            Err(stop) => stopped(stop, err),
        },
        Input::Generated(number) => {
            let Ok(texts) = texts_from(alloc, *number) else {
                return stopped(ScriptsFault::NoMemory, err);
            };
            let Ok(sources) = made_sources(alloc, &texts) else {
                return stopped(ScriptsFault::NoMemory, err);
            };
            run_scripts(rt, alloc, setup, &sources, out, err, gate)
        }
    }
}
