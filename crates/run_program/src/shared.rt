// A store that is split among threads, and joined again.
ghost use Rattle.std.specs.Prelude.{◌≡◌, ◌≤◌, ◌<◌, [], ◌∷◌};
ghost use Rattle.js_store.specs.State.{State};
ghost use Rattle.eval_scopes.specs.Seen.{bounds_of};
ghost use Rattle.js_eval.specs.Seen.{BoundsFine};
ghost use Rattle.heap_session.specs.Sessions.{SessionFrame};
ghost use Rattle.heap_session.specs.Shares.{IsSessionJoined, MayJoinSession, giver_after, right_by};
ghost use Rattle.run_program.specs.Jobs.{HasNoLines, RunsEachJob, number};

use crate::job::{Job, Outcome};
use heap_read::JsStr;
use js_eval::Env;
use std::alloc::Global;

// What running jobs asks of a session. The calls are generic in it, since proofs about threads are
// short where the session is any one.
pub trait Shared {
    ghost state: { Self → State SessionFrame };

    // A new session with a part of the share. It notes slots, if there is memory for that.
    fn lend(&mut self, alloc: Global, give: u32) -> Self
        requires some { 1 ≤ give }
        requires less { give < (state self.old).frame.share }
        ensures left { state self.new ≡ giver_after (state self.old) give }
        ensures right { state result ≡ right_by (state self.old) give };

    // Takes over all that another session knows, has and used.
    fn take_back(&mut self, other: Self)
        requires { MayJoinSession (state self.old) (state other) }
        ensures joined { IsSessionJoined (state self.old) (state other) (state self.new) }
        ensures bounded { (state self.new).bounded ≡ (state self.old).bounded }
        ensures sure { (state self.new).sure ≡ (state self.old).sure };

    // Runs one job on a copy of the bindings, and puts its outcome in its place. Where no memory is found for
    // the copy it ends so, without lines.
    fn run_job(&mut self, alloc: Global, job: &Job, env: &Env<JsStr>, outcome: &mut Outcome)
        requires empty { HasNoLines outcome.old }
        requires env { BoundsFine (state self.old) number (bounds_of env.now) }
        ensures { RunsEachJob (state self.old) (state self.new) env.now (job.now ∷ []) (outcome.new ∷ []) };
}
