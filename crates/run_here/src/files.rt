// The prelude, and behind it the script, on a session of the heap.
ghost use Rattle.std.specs.Prelude.{◌≡◌, ◌↔◌, ◌∷◌, [], length, IsTrue, None, Some};
ghost use Rattle.js_store.specs.State.{Grows};
ghost use Rattle.eval_tree.specs.Tree.{tree_of};
ghost use Rattle.eval_scopes.specs.Seen.{bounds_of};
ghost use Rattle.js_eval.specs.declared.ending.End.TheVariants.{Done};
ghost use Rattle.js_eval.specs.Evaluates.{Evaluates};
ghost use Rattle.js_eval.specs.Script.{meaning};
ghost use Rattle.js_eval.specs.Seen.{BoundsFine, bounds_seen};
ghost use Rattle.heap_session.specs.Sessions.{state_in};
ghost use Rattle.run_program.specs.Jobs.{number};
ghost use Rattle.run_program.specs.Ran.{tree_if};
ghost use Rattle.run_program.specs.Stages.{HaveRunFrom, IsUnused};
ghost use Rattle.run_here.specs.Left.{HasLeftFrom};

use eval_tree::Script;
use heap_read::JsStr;
use heap_session::Session;
use heap_table::Heap;
use js_eval::{End, Env, Lines, eval};
use run_program::Outcome;
use std::alloc::Global;

fn is_done(end: End) -> bool
    ensures { IsTrue result ↔ (end ≡ Done) }
{
    match end {
        End::Done => true,
        End::Threw(_) => false,
        End::Unsupported { .. } => false,
        End::Full(_) => false,
        End::Memory => false,
    }
}

// Runs a script from the bindings of `env`.
fn run_one(
    alloc: Global,
    session: &mut Session<&Heap>,
    script: &Script,
    env: &mut Env<JsStr>,
) -> Outcome
    requires env { BoundsFine (state_in session.old) number (bounds_of env.old) }
    ensures index { result.index ≡ 0 }
    ensures grows { Grows (state_in session.old) (state_in session.new) }
    ensures env { BoundsFine (state_in session.new) number (bounds_of env.new) }
    ensures meaning { Evaluates (state_in session.old) (state_in session.new) [] result.lines
        (bounds_seen (state_in session.new) number (bounds_of env.new)) result.end
        (meaning (tree_of script.now) (bounds_seen (state_in session.old) number (bounds_of env.old))
        (state_in session.old).limit) }
{
    let mut lines = Lines::new(alloc);
    let end = eval(alloc, script, env, session, &mut lines);
    Outcome {
        index: 0,
        lines,
        end,
    }
}

// Runs the script alone, which has its outcome in the one place.
fn run_alone(
    alloc: Global,
    session: &mut Session<&Heap>,
    script: &Script,
    places: &mut Vec<Outcome>,
    env: &mut Env<JsStr>,
)
    requires one { length places.old.items ≡ 1 }
    requires none { env.old ≡ [] }
    requires unused { IsUnused (state_in session.old) }
    ensures grows { Grows (state_in session.old) (state_in session.new) }
    ensures env { BoundsFine (state_in session.new) number (bounds_of env.new) }
    ensures ran { HaveRunFrom (state_in session.old) (state_in session.new) None (tree_of script.now ∷ [])
        None places.new.items }
    ensures left { HasLeftFrom (state_in session.old) (state_in session.new) None (tree_of script.now)
        (bounds_of env.new) places.new.items }
{
    places[0] = run_one(alloc, session, script, env);
}

// Runs the prelude, and where it ended Done the script from the bindings that it left. Else the place is removed.
fn run_behind(
    alloc: Global,
    session: &mut Session<&Heap>,
    prelude: &Script,
    script: &Script,
    places: &mut Vec<Outcome>,
    env: &mut Env<JsStr>,
) -> Outcome
    requires one { length places.old.items ≡ 1 }
    requires none { env.old ≡ [] }
    requires unused { IsUnused (state_in session.old) }
    ensures grows { Grows (state_in session.old) (state_in session.new) }
    ensures env { BoundsFine (state_in session.new) number (bounds_of env.new) }
    ensures ran { HaveRunFrom (state_in session.old) (state_in session.new) (Some (tree_of prelude.now))
        (tree_of script.now ∷ []) (Some result) places.new.items }
    ensures left { HasLeftFrom (state_in session.old) (state_in session.new) (Some (tree_of prelude.now))
        (tree_of script.now) (bounds_of env.new) places.new.items }
{
    let first = run_one(alloc, session, prelude, env);
    if !is_done(first.end) {
        places.clear();
        return first;
    }
    places[0] = run_one(alloc, session, script, env);
    first
}

// Runs the prelude, if there is one, and the script.
pub(crate) fn run_files(
    alloc: Global,
    session: &mut Session<&Heap>,
    prelude: Option<&Script>,
    script: &Script,
    places: &mut Vec<Outcome>,
    env: &mut Env<JsStr>,
) -> Option<Outcome>
    requires one { length places.old.items ≡ 1 }
    requires none { env.old ≡ [] }
    requires unused { IsUnused (state_in session.old) }
    ensures grows { Grows (state_in session.old) (state_in session.new) }
    ensures env { BoundsFine (state_in session.new) number (bounds_of env.new) }
    ensures ran { HaveRunFrom (state_in session.old) (state_in session.new) (tree_if prelude.entry)
        (tree_of script.now ∷ []) result places.new.items }
    ensures left { HasLeftFrom (state_in session.old) (state_in session.new) (tree_if prelude.entry)
        (tree_of script.now) (bounds_of env.new) places.new.items }
{
    match prelude {
        None => {
            run_alone(alloc, session, script, places, env);
            None
        }
        Some(first) => {
            let outcome = run_behind(alloc, session, first, script, places, env);
            Some(outcome)
        }
    }
}
