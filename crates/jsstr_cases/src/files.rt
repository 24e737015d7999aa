// The files that several threads check.

use crate::case::Repeats;
use crate::check::check_file;
use crate::tally::Tally;
use anyhow::Result;
use std::rt::Files;
use std::sync::atomic::{AtomicU64, Ordering};
use std::thread::Threads;

/// A file of cases, with its tally once it is checked.
#[derive(Drop)]
pub(crate) struct CaseFile {
    name: String,
    cases: AtomicU64,
    differ: AtomicU64,
}

impl CaseFile {
    pub(crate) fn new(name: String) -> Self {
        CaseFile {
            name,
            cases: AtomicU64::new(0),
            differ: AtomicU64::new(0),
        }
    }

    fn put(&self, tally: Tally) {
        self.cases.store(tally.cases, Ordering::SeqCst);
        self.differ.store(tally.differ, Ordering::SeqCst);
    }

    fn tally(&self) -> Tally {
        Tally {
            cases: self.cases.load(Ordering::SeqCst),
            differ: self.differ.load(Ordering::SeqCst),
        }
    }
}

/// Checks one file after another, each time the first that no thread has begun.
pub(crate) fn check_those_left<R>(
    rt: &R,
    files: &[CaseFile],
    taken: &AtomicU64,
    repeats: Repeats,
) -> Result<()>
where
    R: AllocGlobal + Files + Print + Sync + Threads,
{
    for _ in 0..files.len() {
        let place = taken.fetch_add(1, Ordering::SeqCst) as usize;
        let Some(file) = files.get(place) else {
            return Ok(());
        };
        file.put(check_file(rt, file.name.as_str(), repeats)?);
    }
    Ok(())
}

/// Prints how many cases each file has, and counts them.
pub(crate) fn count<R>(rt: &R, files: &[CaseFile]) -> Result<Tally>
where
    R: Print,
{
    let mut total = Tally::new();
    for file in files {
        let tally = file.tally();
        println!(rt; "{} {}", file.name, tally.cases)?;
        total = total.and(tally);
    }
    Ok(total)
}
