// A heap with the agent by which one thread uses it as a store.
ghost use Rattle.std.specs.Prelude.{◌≡◌};
ghost use Rattle.js_store.specs.Limits.{limit_units};
ghost use Rattle.heap_table.specs.Agents.{view_of};
ghost use Rattle.heap_intern.specs.Hashes.{AreHashes};
ghost use Rattle.heap_intern.specs.KeptKeys.{AreKeptKeys};
ghost use Rattle.heap_session.specs.Lately.{IsWordKept};
ghost use Rattle.heap_session.specs.Noted.{hashes_in};
ghost use Rattle.heap_session.specs.Recent.{AreRecent};
ghost use Rattle.heap_session.specs.Singles.{AreSingles};

use crate::kept::KeptWord;
use crate::kept_keys::KeptKeys;
use crate::noted::Noted;
use crate::recent::Recent;
use crate::singles::Singles;
use heap_read::HeapRef;
use heap_text::Text;
use js_store::Limit;

/// A heap, and an agent by which one thread makes, reads and interns strings there. It belongs to
/// one thread at a time and can be moved to another.
///
/// It keeps a word of each of the two strings that it read last, so that a run of reads
/// costs few loads, the strings of single units below 256 that it made, so that such a string
/// uses an id and a content word once, 64 of the short strings that it made last, so that
/// these use nothing when they are made again, and 64 of the short lists of units that it interned last, so
/// that one that is interned again costs one load. Once it is given memory for that (`note_slots`), it
/// notes what the string of each slot hashes to.
#[derive(Drop)]
pub struct Session<H: HeapRef> {
    pub text: Text<H>,
    pub(crate) limit: Limit,
    pub(crate) last: KeptWord,
    pub(crate) older: KeptWord,
    pub(crate) singles: Singles,
    pub(crate) recent: Recent,
    pub(crate) keys: KeptKeys,
    pub(crate) noted: Noted,
    ghost one_limit: { text.limit ≡ limit_units limit },
    ghost last_kept: { IsWordKept (view_of text.reader.agent) last },
    ghost older_kept: { IsWordKept (view_of text.reader.agent) older },
    ghost singles_kept: { AreSingles (view_of text.reader.agent) singles.ids },
    ghost recent_kept: { AreRecent (view_of text.reader.agent) recent.ids },
    ghost keys_kept: { AreKeptKeys (view_of text.reader.agent) keys.all },
    ghost hashes_noted: { AreHashes (view_of text.reader.agent) (hashes_in noted) },
}
