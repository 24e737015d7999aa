// Reports how a run differs from what is expected.

use crate::case::Ending;
use anyhow::Result;

// Whether it is one of those that are expected.
fn is_wanted(got: &Ending, wanted: &[Ending]) -> bool {
    for wanted in wanted {
        if got.is(wanted) {
            return true;
        }
    }
    false
}

/// Prints how a run of the case that begins on this line differs, and says whether it doesn't.
pub(crate) fn tell<R>(
    rt: &R,
    name: &str,
    line: usize,
    wanted: &[Ending],
    got: &Ending,
) -> Result<bool>
where
    R: AllocGlobal + Print,
{
    let as_wanted = is_wanted(got, wanted);
    if !as_wanted {
        for wanted in wanted {
            println!(rt; "{name}:{line}: wanted {wanted}")?;
        }
        println!(rt; "{name}:{line}: got {got}")?;
    }
    Ok(as_wanted)
}
