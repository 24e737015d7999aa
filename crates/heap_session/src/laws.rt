// Laws of sessions, which a call brings into a proof.
ghost use Rattle.heap_session.specs.Sessions.{state_in};
ghost use Rattle.heap_session.specs.Whole.{WholeHasAll};

use crate::session::Session;
use heap_read::HeapRef;

/// A session that has the whole share used all that was ever claimed, and every interned string
/// is in its history.
pub fn whole_has_all<H: HeapRef>(_session: &Session<H>)
    ensures { WholeHasAll (state_in _session.now) }
{}
