// A heap, the files on it, and what they leave.
ghost use Rattle.std.specs.Prelude.{◌≡◌, ◌∷◌, [], length, IfOk};
ghost use Rattle.js_store.specs.Limits.{limit_units};
ghost use Rattle.eval_tree.specs.Tree.{tree_of};
ghost use Rattle.eval_scopes.specs.Seen.{bounds_of};
ghost use Rattle.heap_rule.specs.Agents.{first_view};
ghost use Rattle.heap_table.specs.Agents.{Belongs, size_of, view_of};
ghost use Rattle.heap_table.specs.MayMake.{MayMake};
ghost use Rattle.heap_session.specs.Sessions.{state_by, table_of};
ghost use Rattle.run_program.specs.Ran.{tree_if};
ghost use Rattle.run_program.specs.Stages.{IsRunOver};
ghost use Rattle.run_here.specs.Here.{IsHere, one_agent};
ghost use Rattle.run_here.specs.Left.{LeavesMeant, script_by};

use crate::files::run_files;
use eval_tree::Script;
use heap_read::JsStr;
use heap_rule::HeapSize;
use heap_session::{Session, whole_has_all};
use heap_table::{Agent, Heap};
use js_eval::{End, Env, Lines};
use js_store::Limit;
use js_units::NoMemory;
use run_program::{Kept, Outcome, Ran};
use std::alloc::Global;

/// What came of a prelude and a script, and the bindings at the top that the last of them left.
#[derive(Drop)]
pub struct Here {
    pub ran: Ran,
    pub env: Env<JsStr>,
}

// A place for one outcome.
fn place(alloc: Global) -> Result<Vec<Outcome>, NoMemory>
    ensures { IfOk result (λ places. length places.items ≡ 1) }
{
    let mut places = Vec::new(alloc);
    places.push(Outcome {
        index: 0,
        lines: Lines::new(alloc),
        end: End::Memory,
    })?;
    Ok(places)
}

// Runs the files on a heap that was just made, whose agent is given back.
fn run_on(
    alloc: Global,
    heap: &Heap,
    agent: Agent,
    limit: Limit,
    prelude: Option<&Script>,
    script: &Script,
    places: &mut Vec<Outcome>,
    env: &mut Env<JsStr>,
) -> (Option<Outcome>, Agent)
    requires belongs { Belongs agent heap.now }
    requires view { view_of agent ≡ first_view (size_of heap.now) 1 }
    requires one { length places.old.items ≡ 1 }
    requires none { env.old ≡ [] }
    ensures belongs { Belongs result.1 heap.now }
    ensures told { IsRunOver (one_agent (size_of heap.now) limit)
        (state_by (view_of result.1) (limit_units limit) (table_of heap.now))
        (tree_if prelude.entry) (tree_of script.now ∷ []) result.0 places.new.items None }
    ensures left { LeavesMeant (state_by (view_of result.1) (limit_units limit) (table_of heap.now))
        (script_by (limit_units limit) (tree_if prelude.entry) (tree_of script.now)) (bounds_of env.new)
        places.new.items }
{
    let mut session = Session::new(heap, agent, limit);
    let _ = session.note_slots(alloc);
    let first = run_files(alloc, &mut session, prelude, script, places, env);
    whole_has_all(&session);
    session.totals();
    (first, session.into_agent())
}

/// Runs a prelude, if there is one, from no bindings, and where it ended Done the script from the bindings
/// that it left, on a heap of their own. Memory runs out only before anything runs; what finds none later ends
/// so itself.
pub fn run_here(
    alloc: Global,
    prelude: Option<&Script>,
    script: &Script,
    size: HeapSize,
    limit: Limit,
) -> Result<Here, NoMemory>
    requires { MayMake size 1 }
    ensures { IfOk result (λ here. IsHere size limit (tree_if prelude.entry) (tree_of script.now) here) }
{
    let mut places = place(alloc)?;
    let mut env = Env::new(alloc);
    let Ok((heap, agent)) = Heap::make(alloc, size, 1) else {
        return Err(NoMemory);
    };
    let (first, agent) = run_on(
        alloc,
        &heap,
        agent,
        limit,
        prelude,
        script,
        &mut places,
        &mut env,
    );
    let ran = Ran {
        prelude: first,
        scripts: places,
        interned: None,
        kept: Kept { heap, agent },
    };
    Ok(Here { ran, env })
}
