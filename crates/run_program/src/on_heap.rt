// Jobs on a session of the heap.
ghost use Rattle.std.specs.Prelude.{◌≡◌, ◌≤◌, ◌<◌, ◌+◌, ℕ, List, length, All};
ghost use Rattle.eval_scopes.specs.Seen.{bounds_of};
ghost use Rattle.js_eval.specs.Seen.{BoundsFine};
ghost use Rattle.heap_session.specs.Sessions.{state_in};
ghost use Rattle.run_program.specs.Jobs.{number, HasNoLines, RunsEachJob, means, job_ids_needed, job_words_needed, most_ids_wanted, most_words_wanted};

use crate::group::run_in_order;
use crate::halves::run_groups;
use crate::job::{Job, Outcome};
use heap_read::JsStr;
use heap_session::Session;
use heap_table::Heap;
use js_eval::Env;
use js_io::Gate;
use std::alloc::Global;
use std::marker::Sync;
use std::thread::Threads;

/// Runs the jobs in order on one session, each on a copy of `env`, and puts each outcome in its
/// job's place. A worker enters the gate before each script and leaves it afterwards. A job whose
/// copy finds no memory ends so, without lines.
pub fn run_group<G: Gate + Sync>(
    alloc: Global,
    session: &mut Session<&Heap>,
    jobs: &[Job],
    outcomes: &mut [Outcome],
    env: &Env<JsStr>,
    gate: &G,
)
    requires lengths { length outcomes.old ≡ length jobs.now }
    requires empty { All HasNoLines outcomes.old }
    requires env { BoundsFine (state_in session.old) number (bounds_of env.now) }
    ensures ran { RunsEachJob (state_in session.old) (state_in session.new) env.now jobs.now outcomes.new }
    ensures frame { (state_in session.new).frame ≡ (state_in session.old).frame }
    ensures ids { (state_in session.new).used_ids + most_ids_wanted outcomes.new
        ≤ (state_in session.old).used_ids + job_ids_needed (means (state_in session.old) env.now) jobs.now }
    ensures words { (state_in session.new).used_words + most_words_wanted outcomes.new
        ≤ (state_in session.old).used_words + job_words_needed (means (state_in session.old) env.now)
        jobs.now }
{
    run_in_order(alloc, session, jobs, outcomes, env, gate);
}

/// Runs the jobs in so many groups, each in a thread with a session of its own, and joins the
/// sessions afterwards. With g groups and n jobs the left half of them is the first ⌊g / 2⌋ groups
/// and gets the first ⌊n * ⌊g / 2⌋ / g⌋ jobs. One group is run as [`run_group`] runs it.
pub fn run_all<R: Threads + Sync, G: Gate + Sync>(
    rt: &R,
    alloc: Global,
    session: &mut Session<&Heap>,
    jobs: &[Job],
    outcomes: &mut [Outcome],
    groups: u32,
    env: &Env<JsStr>,
    gate: &G,
)
    requires some { 1 ≤ groups }
    requires share { groups ≤ (state_in session.old).frame.share }
    requires lengths { length outcomes.old ≡ length jobs.now }
    requires empty { All HasNoLines outcomes.old }
    requires env { BoundsFine (state_in session.old) number (bounds_of env.now) }
    ensures ran { RunsEachJob (state_in session.old) (state_in session.new) env.now jobs.now outcomes.new }
    ensures frame { (state_in session.new).frame ≡ (state_in session.old).frame }
    ensures ids { (state_in session.new).used_ids + most_ids_wanted outcomes.new
        ≤ (state_in session.old).used_ids + job_ids_needed (means (state_in session.old) env.now) jobs.now }
    ensures words { (state_in session.new).used_words + most_words_wanted outcomes.new
        ≤ (state_in session.old).used_words + job_words_needed (means (state_in session.old) env.now)
        jobs.now }
{
    run_groups(rt, alloc, session, jobs, outcomes, groups, env, gate);
}
