// Jobs of scripts, and places for their outcomes.
ghost use Rattle.std.specs.Prelude.{◌≡◌, ◌≤◌, length, map, All, IfOk};
ghost use Rattle.eval_tree.specs.Tree.{tree_of};
ghost use Rattle.run_program.specs.Jobs.{HasNoLines};
ghost use Rattle.run_program.specs.Stages.{AreNumbered, job_trees};

use crate::job::{Job, Outcome};
use eval_tree::Script;
use js_eval::{End, Lines};
use js_units::NoMemory;
use std::alloc::Global;

// A job for each script, with the number of its place.
pub(crate) fn jobs_of(alloc: Global, scripts: Vec<Script>) -> Result<Vec<Job>, NoMemory>
    requires { length scripts.items ≤ 4294967295 }
    ensures trees { IfOk result (λ jobs. job_trees jobs.items ≡ map tree_of scripts.items) }
    ensures numbered { IfOk result (λ jobs. AreNumbered 0 jobs.items) }
{
    let mut jobs = Vec::new(alloc);
    let mut index = 0;
    for script in scripts {
        jobs.push(Job { index, script })?;
        index += 1;
    }
    Ok(jobs)
}

// A place for the outcome of each job.
pub(crate) fn places(alloc: Global, count: usize) -> Result<Vec<Outcome>, NoMemory>
    ensures length { IfOk result (λ places. length places.items ≡ count) }
    ensures empty { IfOk result (λ places. All HasNoLines places.items) }
{
    let mut places = Vec::new(alloc);
    for _turn in 0..count {
        let place = Outcome {
            index: 0,
            lines: Lines::new(alloc),
            end: End::Memory,
        };
        places.push(place)?;
    }
    Ok(places)
}
