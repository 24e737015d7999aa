// A heap, the files on it, and what is reported of it.
ghost use Rattle.std.specs.Prelude.{◌≡◌, ◌≤◌, length, All, IfOk, None, if◌then◌else◌, Some};
ghost use Rattle.js_store.specs.Faults.{Uses};
ghost use Rattle.js_store.specs.Limits.{limit_units};
ghost use Rattle.heap_rule.specs.Agents.{first_view};
ghost use Rattle.heap_table.specs.Agents.{Belongs, size_of, view_of};
ghost use Rattle.heap_table.specs.MayMake.{MayMake};
ghost use Rattle.heap_intern.specs.Counting.{different};
ghost use Rattle.heap_session.specs.Sessions.{state_by, state_in, table_of};
ghost use Rattle.heap_session.specs.Shares.{IsWhole};
ghost use Rattle.run_program.specs.Jobs.{HasNoLines};
ghost use Rattle.run_program.specs.Ran.{IsRan, state_kept, tree_if, trees_of};
ghost use Rattle.run_program.specs.Stages.{AreNumbered, IsRunOver, job_trees};

use crate::prepare::{jobs_of, places};
use crate::ran::{Kept, Ran, Setup};
use crate::stages::run_files;
use eval_tree::Script;
use heap_session::{Session, whole_has_all};
use heap_table::Heap;
use js_io::Gate;
use js_units::NoMemory;
use std::alloc::Global;
use std::marker::Sync;
use std::thread::Threads;

// The number of different lists that were interned, where it is asked for.
fn count_if(session: &mut Session<&Heap>, count: bool) -> Option<u32>
    requires { IsWhole (state_in session.old) }
    ensures count { result ≡ (if count then Some (different (state_in session.old).history) else None) }
    ensures uses { Uses (state_in session.old) (state_in session.new) None 0 0 }
{
    if !count {
        return None;
    }
    Some(session.count_interned())
}

/// Runs a prelude, if there is one, from no bindings, and where it ended Done the scripts, each from
/// the bindings that it left, on a heap of their own in `setup.jobs` groups. A script's number at
/// the gate and in its outcome is its place. Memory runs out only before anything runs; what finds
/// none later ends so itself. Each report of a full heap is true of the heap that is kept.
pub fn run_program<R: Threads + Sync, G: Gate + Sync>(
    rt: &R,
    alloc: Global,
    prelude: Option<&Script>,
    scripts: Vec<Script>,
    setup: Setup,
    gate: &G,
) -> Result<Ran, NoMemory>
    requires may { MayMake setup.size setup.jobs }
    requires few { length scripts.items ≤ 4294967295 }
    ensures ran { IfOk result (λ ran. IsRan setup (tree_if prelude.entry) (trees_of scripts.items) ran) }
    ensures told { IfOk result (λ ran. IsRunOver setup (state_kept setup ran.kept) (tree_if prelude.entry)
        (trees_of scripts.items) ran.prelude ran.scripts.items ran.interned) }
{
    let jobs = jobs_of(alloc, scripts)?;
    let mut outcomes = places(alloc, jobs.len())?;
    let Ok((heap, agent)) = Heap::make(alloc, setup.size, setup.jobs) else {
        return Err(NoMemory);
    };
    let mut session = Session::new(&heap, agent, setup.limit);
    let _ = session.note_slots(alloc);
    let first = run_files(
        rt,
        alloc,
        &mut session,
        prelude,
        &jobs,
        &mut outcomes,
        setup.jobs,
        gate,
    );
    whole_has_all(&session);
    session.totals();
    let interned = count_if(&mut session, setup.count);
    let agent = session.into_agent();
    Ok(Ran {
        prelude: first,
        scripts: outcomes,
        interned,
        kept: Kept { heap, agent },
    })
}
