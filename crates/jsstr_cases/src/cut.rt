// Cases that are run again with sinks that fail.

use crate::case::{Case, Ending, Fault};
use crate::run::{Room, run};
use crate::tally::Tally;
use crate::telling::tell;
use anyhow::Result;
use js_io::FreeGate;
use std::alloc::Global;
use std::thread::Threads;

// The status of a write that failed, where files were run.
const CUT: u8 = 7;

// The first bytes, so many as there is room for.
fn first(bytes: &[u8], room: u32) -> &[u8] {
    bytes.get(..room as usize).unwrap_or(bytes)
}

// What is expected where the sinks have room for so many bytes. Where arguments or files are refused, a
// line that isn't received to its end changes no status.
fn cut(alloc: Global, wanted: &Ending, room: Room) -> Result<Ending, Fault> {
    let out = first(&wanted.out, room.out);
    let err = first(&wanted.err, room.err);
    let is_whole = out.len() == wanted.out.len() && err.len() == wanted.err.len();
    let was_run = !matches!(wanted.status, 2 | 3 | 4);
    Ok(Ending {
        status: if was_run && !is_whole {
            CUT
        } else {
            wanted.status
        },
        out: out.to_vec(alloc)?,
        err: err.to_vec(alloc)?,
    })
}

// The numbers of bytes that are expected of `out` and of `err`.
fn lengths(wanted: &Ending) -> Result<(u32, u32), Fault> {
    let (out, err) = (wanted.out.len(), wanted.err.len());
    if out > 1000 || err > 1000 {
        return Err(Fault::Form("more bytes than are cut"));
    }
    Ok((out as u32, err as u32))
}

/// Runs the case with sinks that accept a few bytes a write, and so many in all: none, one, up to all that
/// are expected, those of `out` before those of `err`.
pub(crate) fn check_cut<R>(rt: &R, name: &str, case: &mut Case, most: u32) -> Result<Tally>
where
    R: AllocGlobal + Print + Sync + Threads,
{
    let mut tally = Tally::new();
    let Some(wanted) = case.wanted.first() else {
        return Ok(tally);
    };
    let (out, err) = lengths(wanted)?;
    for taken in 0..out.saturating_add(err).saturating_add(1) {
        let room = Room {
            most,
            out: taken.min(out),
            err: taken.saturating_sub(out),
        };
        let got = run(rt, &case.words, &mut case.files, room, &FreeGate)?;
        let wanted = [cut(rt.alloc(), wanted, room)?];
        tally = tally.with(tell(rt, name, case.line, wanted.as_slice(), &got)?);
    }
    Ok(tally)
}
