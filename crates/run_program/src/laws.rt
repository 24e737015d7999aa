// Laws of files that were run on one heap, which a call brings into a proof.
ghost use Rattle.heap_session.specs.Sessions.{state_in};
ghost use Rattle.run_program.specs.Laws.{JobsRun, NoneRun, ScriptRun, StaysRun, TotalsRun};
ghost use Rattle.run_program.specs.Tells.{TellingFollows, WholeTells};

use heap_session::Session;
use heap_table::Heap;

/// No file was run on a heap that was just made. After others a script is evaluated, or jobs are
/// run. A call that uses nothing and interns nothing leaves what was run, and so does the reading
/// of both counters. What follows of files that were run: with sizes that are enough each comes to
/// the end that is meant, unless memory runs out.
pub fn files_are_run()
    ensures none { NoneRun }
    ensures script { ScriptRun }
    ensures jobs { JobsRun }
    ensures stays { StaysRun }
    ensures totals { TotalsRun }
    ensures follows { TellingFollows }
{}

/// What the ends of all files that were run say, by the last session, which has the whole share:
/// where a file ended with a full heap it was full, and the needs of the prelude and the scripts didn't fit.
pub fn ends_tell(_session: &Session<&Heap>)
    ensures { WholeTells (state_in _session.now) }
{}
