// Jobs in groups that threads share.
ghost use Rattle.std.specs.Prelude.{◌≡◌, ◌≤◌, ◌<◌, ◌+◌, ◌*◌, ◌/◌, ◌^◌, ℕ, List, length, All, []};
ghost use Rattle.std.specs.Thread.{IsSend, IsSync};
ghost use Rattle.run_program.specs.Jobs.{HasNoLines, MayRun, RunsEachJob};

use crate::group::run_in_order;
use crate::job::{Job, Outcome};
use crate::shared::Shared;
use heap_read::JsStr;
use js_eval::Env;
use js_io::Gate;
use std::alloc::Global;
use std::marker::{Send, Sync};
use std::thread::{Threads, join_mut};

// How many of the jobs the left groups get.
fn cut(jobs: usize, left: u32, groups: u32) -> usize
    requires some { 0 < groups }
    requires less { left ≤ groups }
    ensures within { result ≤ jobs }
    ensures is { result ≡ jobs * left / groups }
{
    (jobs as u128 * u128::from(left) / u128::from(groups)) as usize
}

// Runs the jobs in so many groups, each in a thread: the left half of the groups here, and the
// right half on a session that is split off with a share for each of its groups.
#[cycle(halves)]
pub(crate) fn run_groups<R: Threads + Sync, S: Shared + Send, G: Gate + Sync>(
    rt: &R,
    alloc: Global,
    session: &mut S,
    jobs: &[Job],
    outcomes: &mut [Outcome],
    groups: u32,
    env: &Env<JsStr>,
    gate: &G,
)
    requires { MayRun (S.state session.old) groups env.now jobs.now outcomes.old }
    ensures { RunsEachJob (S.state session.old) (S.state session.new) env.now jobs.now outcomes.new }
{
    if groups == 1 {
        run_in_order(alloc, session, jobs, outcomes, env, gate);
        return;
    }
    let left = groups / 2;
    let count = cut(jobs.len(), left, groups);
    let (front, back) = jobs.split_at(count);
    let (low, high) = outcomes.split_at_mut(count);
    let mut other = session.lend(alloc, groups - left);
    both_halves(
        rt,
        alloc,
        env,
        gate,
        left,
        front,
        session,
        low,
        groups - left,
        back,
        &mut other,
        high,
    );
    session.take_back(other);
}

// Two halves of the groups at once.
#[cycle(halves)]
fn both_halves<R: Threads + Sync, S: Shared + Send, G: Gate + Sync>(
    rt: &R,
    alloc: Global,
    env: &Env<JsStr>,
    gate: &G,
    left: u32,
    front: &[Job],
    session: &mut S,
    low: &mut [Outcome],
    right: u32,
    back: &[Job],
    other: &mut S,
    high: &mut [Outcome],
)
    requires left { MayRun (S.state session.old) left env.now front.now low.old }
    requires right { MayRun (S.state other.old) right env.now back.now high.old }
    ensures left { RunsEachJob (S.state session.old) (S.state session.new) env.now front.now low.new }
    ensures right { RunsEachJob (S.state other.old) (S.state other.new) env.now back.now high.new }
{
    let mut first = ||
        requires { IsSync R.row × IsSend S.row × IsSync G.row × MayRun (S.state session.now) left env.now
            front.now low.now }
        ensures { RunsEachJob (S.state session.entry.now) (S.state session.exit.now) env.entry.now
            front.entry.now
            low.exit.now }
    { run_groups(rt, alloc, session, front, low, left, env, gate) };
    let mut second = ||
        requires { IsSync R.row × IsSend S.row × IsSync G.row × MayRun (S.state other.now) right env.now
            back.now high.now }
        ensures { RunsEachJob (S.state other.entry.now) (S.state other.exit.now) env.entry.now back.entry.now
            high.exit.now }
    { run_groups(rt, alloc, other, back, high, right, env, gate) };
    join_mut(rt, &mut first, &mut second);
}
