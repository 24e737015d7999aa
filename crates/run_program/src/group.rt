// Jobs in a row.
ghost use Rattle.std.specs.Prelude.{◌≡◌, ◌≤◌, length, All};
ghost use Rattle.eval_scopes.specs.Seen.{bounds_of};
ghost use Rattle.js_eval.specs.Seen.{BoundsFine};
ghost use Rattle.run_program.specs.Jobs.{number, HasNoLines, RunsEachJob};

use crate::job::{Job, Outcome};
use crate::shared::Shared;
use heap_read::JsStr;
use js_eval::Env;
use js_io::Gate;
use std::alloc::Global;

// Runs the jobs in order, each on a copy of the bindings.
pub(crate) fn run_in_order<S: Shared, G: Gate>(
    alloc: Global,
    session: &mut S,
    jobs: &[Job],
    outcomes: &mut [Outcome],
    env: &Env<JsStr>,
    gate: &G,
)
    requires lengths { length outcomes.old ≡ length jobs.now }
    requires empty { All HasNoLines outcomes.old }
    requires env { BoundsFine (S.state session.old) number (bounds_of env.now) }
    ensures { RunsEachJob (S.state session.old) (S.state session.new) env.now jobs.now outcomes.new }
{
    for k in 0..jobs.len() {
        gate.enter(jobs[k].index);
        session.run_job(alloc, &jobs[k], env, &mut outcomes[k]);
        gate.leave(jobs[k].index);
    }
}
