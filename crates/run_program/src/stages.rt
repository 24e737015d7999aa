// The prelude, and behind it the scripts, on a session of the heap.
ghost use Rattle.std.specs.Prelude.{◌≡◌, ◌≤◌, ◌↔◌, length, All, IsTrue, None, Some};
ghost use Rattle.js_store.specs.State.{Grows};
ghost use Rattle.eval_tree.specs.Tree.{tree_of};
ghost use Rattle.js_eval.specs.declared.ending.End.TheVariants.{Done};
ghost use Rattle.heap_session.specs.Sessions.{state_in};
ghost use Rattle.run_program.specs.Jobs.{HasNoLines};
ghost use Rattle.run_program.specs.Ran.{tree_if};
ghost use Rattle.run_program.specs.Stages.{AreNumbered, HaveRunFrom, IsUnused, job_trees};

use crate::job::{Job, Outcome};
use crate::on_heap::run_all;
use eval_tree::Script;
use heap_session::Session;
use heap_table::Heap;
use js_eval::{End, Env, Lines, eval};
use js_io::Gate;
use std::alloc::Global;
use std::marker::Sync;
use std::thread::Threads;

fn is_done(end: End) -> bool
    ensures { IsTrue result ↔ (end ≡ Done) }
{
    match end {
        End::Done => true,
        End::Threw(_) => false,
        End::Unsupported { .. } => false,
        End::Full(_) => false,
        End::Memory => false,
    }
}

// Runs the prelude, if there is one, and the scripts. Where it ended Done they begin with the bindings that it
// left, and else none of them runs, and their places are removed.
pub(crate) fn run_files<R: Threads + Sync, G: Gate + Sync>(
    rt: &R,
    alloc: Global,
    session: &mut Session<&Heap>,
    prelude: Option<&Script>,
    jobs: &[Job],
    outcomes: &mut Vec<Outcome>,
    groups: u32,
    gate: &G,
) -> Option<Outcome>
    requires some { 1 ≤ groups }
    requires share { groups ≤ (state_in session.old).frame.share }
    requires lengths { length outcomes.old.items ≡ length jobs.now }
    requires empty { All HasNoLines outcomes.old.items }
    requires numbered { AreNumbered 0 jobs.now }
    requires unused { IsUnused (state_in session.old) }
    ensures grows { Grows (state_in session.old) (state_in session.new) }
    ensures ran { HaveRunFrom (state_in session.old) (state_in session.new) (tree_if prelude.entry)
        (job_trees jobs.now) result outcomes.new.items }
{
    let mut env = Env::new(alloc);
    let script = match prelude {
        Some(script) => script,
        None => {
            let places = outcomes.as_mut_slice();
            run_all(rt, alloc, session, jobs, places, groups, &env, gate);
            return None;
        }
    };
    let mut lines = Lines::new(alloc);
    let end = eval(alloc, script, &mut env, session, &mut lines);
    let first = Outcome {
        index: 0,
        lines,
        end,
    };
    if !is_done(end) {
        outcomes.clear();
        return Some(first);
    }
    let places = outcomes.as_mut_slice();
    run_all(rt, alloc, session, jobs, places, groups, &env, gate);
    Some(first)
}
