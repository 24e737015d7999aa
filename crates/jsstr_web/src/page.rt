// A script is run for a page.
ghost use Rattle.std.specs.Prelude.{◌≡◌, None, length};
ghost use Rattle.eval_tree.specs.Tree.{tree_of};
ghost use Rattle.heap_rule.specs.Layout.{IsLawfulSize, word_count};
ghost use Rattle.heap_table.specs.Agents.{size_of as heap_size, view_of};
ghost use Rattle.heap_table.specs.Closing.{IsClosed};
ghost use Rattle.js_parse.specs.declared.fault.Role.TheVariants.{Main};
ghost use Rattle.js_parse.specs.Spells.{Spells};
ghost use Rattle.jsstr_web.specs.Statements.{count_of};
ghost use Rattle.jsstr_web.specs.Told.{BeginsWith, size_given};
ghost use Rattle.jsstr_web.specs.Answers.{Answers, IsWebRun, lines_in, first_end};

use crate::answer::{
    BAD_SIZE, NO_MEMORY, TOO_LONG, WebEnd, WebOptions, limit_of, of_end, of_fault, only, size_of,
};
use crate::bytes::copy_into;
use crate::names::write_names;
use crate::script::{first_statements, statement_count};
use eval_tree::Script;
use js_eval::End;
use js_parse::{Names, Role, parse};
use run_here::{Here, run_here};
use run_program::{Kept, Outcome, Ran};
use std::alloc::Global;

// The lines and the end of the one script that was run.
fn tell_outcome(outcomes: &[Outcome], statements: u64, out: &mut [u8]) -> WebEnd
    ensures lines { BeginsWith (lines_in outcomes.now) out.old out.new }
    ensures end { result ≡ first_end outcomes.now statements }
{
    match outcomes.first() {
        Some(outcome) => {
            let bytes = outcome.lines.bytes();
            copy_into(bytes, out);
            of_end(outcome.end, statements, bytes.len() as u64)
        }
        None => {
            copy_into(b"", out);
            of_end(End::Memory, statements, 0)
        }
    }
}

// What came of a run, and the words of its heap.
fn tell(here: Here, statements: u64, out: &mut [u8], names: &mut [u8], words: &mut [u64]) -> WebEnd
    requires room { length words.old ≡ word_count (heap_size here.ran.kept.heap) }
    ensures lines { BeginsWith (lines_in here.ran.scripts.items) out.old out.new }
    ensures end { result ≡ first_end here.ran.scripts.items statements }
    ensures words { IsClosed (heap_size here.ran.kept.heap) (view_of here.ran.kept.agent) words.new }
{
    write_names(here.env.list(), names);
    let Here { ran, .. } = here;
    let Ran { scripts, kept, .. } = ran;
    let Kept { heap, agent } = kept;
    heap.close(agent, words);
    tell_outcome(&scripts, statements, out)
}

// Runs the first statements of a script on a heap of its own.
fn run(
    alloc: Global,
    options: &WebOptions,
    script: Script,
    out: &mut [u8],
    names: &mut [u8],
    words: &mut [u64],
) -> WebEnd
    requires room { IsLawfulSize (size_given options.now)
        → length words.old ≡ word_count (size_given options.now) }
    ensures { IsWebRun options.now (tree_of script) out.old out.new words.old words.new result }
{
    let size = size_of(options);
    if !size.is_lawful() {
        return only(BAD_SIZE);
    }
    let statements = statement_count(&script);
    let script = first_statements(script, options.statements);
    match run_here(alloc, None, &script, size, limit_of(options)) {
        Ok(here) => tell(here, statements, out, names, words),
        Err(_) => only(NO_MEMORY),
    }
}

/// Reads a script and runs it.
pub(crate) fn read_and_run(
    alloc: Global,
    options: &WebOptions,
    text: &[u8],
    out: &mut [u8],
    names: &mut [u8],
    words: &mut [u64],
) -> WebEnd
    requires room { IsLawfulSize (size_given options.now)
        → length words.old ≡ word_count (size_given options.now) }
    ensures { Answers options.now text.now out.old out.new words.old words.new result }
{
    if text.len() > 1_048_576 {
        return only(TOO_LONG);
    }
    match parse(alloc, text, Role::Main, &Names::new(alloc)) {
        Ok(script) => run(alloc, options, script, out, names, words),
        Err(fault) => {
            copy_into(fault.words(), out);
            of_fault(fault)
        }
    }
}
