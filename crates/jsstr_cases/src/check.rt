// Runs the cases of a file, and reports which differ.

use crate::case::{Case, Repeats, Way};
use crate::cut::check_cut;
use crate::gate::HoldsFirst;
use crate::reading::{BadLine, cases_of};
use crate::run::{AMPLE, ROOM, run, run_on_a_heap};
use crate::tally::Tally;
use crate::telling::tell;
use anyhow::{Context, Error, Result, anyhow};
use std::fs;
use std::rt::Files;
use std::thread::Threads;

fn read_cases<R>(rt: &R, name: &str) -> Result<Vec<Case>>
where
    R: AllocGlobal + Files,
{
    let text = fs::read_to_string(rt, name).context(format_args!("{name}"))?;
    match cases_of(rt.alloc(), text.as_str()) {
        Ok(cases) => Ok(cases),
        Err(bad) => Err(refusal(name, bad)),
    }
}

// Why the file of this name holds no cases.
fn refusal(name: &str, bad: BadLine) -> Error {
    let line = bad.line;
    let fault = bad.fault;
    anyhow!("{name}:{line}: {fault}")
}

fn check_once<R>(rt: &R, name: &str, case: &mut Case) -> Result<Tally>
where
    R: AllocGlobal + Print + Sync + Threads,
{
    let got = run_on_a_heap(rt, &case.words, &mut case.files)?;
    Ok(Tally::new().with(tell(rt, name, case.line, &case.wanted, &got)?))
}

// Runs the case with each number from the first to the last as the argument at this place.
fn check_each<R>(
    rt: &R,
    name: &str,
    case: &mut Case,
    place: usize,
    first: u32,
    last: u32,
) -> Result<Tally>
where
    R: AllocGlobal + Print + Sync + Threads,
{
    let mut tally = Tally::new();
    for number in u64::from(first)..u64::from(last).saturating_add(1) {
        if let Some(word) = case.words.get_mut(place) {
            *word = format!(in rt.alloc(); "{number}")?;
        }
        tally = tally.and(check_once(rt, name, case)?);
    }
    Ok(tally)
}

fn check_held<R>(rt: &R, name: &str, case: &mut Case) -> Result<Tally>
where
    R: AllocGlobal + Print + Sync + Threads,
{
    let gate = HoldsFirst::new();
    let got = run(rt, &case.words, &mut case.files, AMPLE, &gate)?;
    let as_wanted = tell(rt, name, case.line, &case.wanted, &got)?;
    let was_met = gate.was_met();
    if !was_met {
        let line = case.line;
        println!(rt; "{name}:{line}: the second script did not enter while the first was held")?;
    }
    Ok(Tally::new().with(as_wanted && was_met))
}

// Runs the case as its way says, and prints how it differs.
fn check_case<R>(rt: &R, name: &str, case: &mut Case) -> Result<Tally>
where
    R: AllocGlobal + Print + Sync + Threads,
{
    match case.way {
        Way::Once => check_once(rt, name, case),
        Way::Each { place, first, last } => check_each(rt, name, case, place, first, last),
        Way::Held => check_held(rt, name, case),
        Way::Ends => Ok(check_once(rt, name, case)?.and(check_cut(rt, name, case, ROOM)?)),
        Way::Cut => {
            let mut tally = check_once(rt, name, case)?;
            for most in [1, 2, 3, 7] {
                tally = tally.and(check_cut(rt, name, case, most)?);
            }
            Ok(tally)
        }
    }
}

/// Runs the cases of this file, prints each difference, and counts the runs.
pub(crate) fn check_file<R>(rt: &R, name: &str, repeats: Repeats) -> Result<Tally>
where
    R: AllocGlobal + Files + Print + Sync + Threads,
{
    let mut cases = read_cases(rt, name)?;
    let mut tally = Tally::new();
    for case in cases.iter_mut() {
        case.way = case.way.with(repeats);
        tally = tally.and(check_case(rt, name, case)?);
    }
    Ok(tally)
}
