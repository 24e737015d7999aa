// Content words that hold the units that bytes spell.
ghost use Rattle.std.specs.Prelude.{◌≡◌, ◌+◌, ◌/◌, ◌≤◌, ◌<◌, ℕ, IfOk, IfErr, length, slice_index};
ghost use Rattle.js_units.specs.Lanes.{is_wide, lane_count, words_over};
ghost use Rattle.heap_rule.specs.Layout.{MAX};
ghost use Rattle.heap_rule.specs.Maps.{Has, HasKey};
ghost use Rattle.heap_table.specs.Agents.{size_of};
ghost use Rattle.heap_table.specs.Full.{IsFull};
ghost use Rattle.heap_read.specs.Filling.{IsFilled, own_word};
ghost use Rattle.heap_read.specs.Readers.{MovesView, view_in};
ghost use Rattle.heap_read.specs.Reads.{Continues, KeepsBelow, KeepsBeside, KeepsForms, KeepsFrom, WritesOwnWords};
ghost use Rattle.heap_read.specs.Sources.{FitsLanes};
ghost use Rattle.heap_read.specs.Written.{AreWords, IsWritten};
ghost use Rattle.heap_bytes.specs.Spellings.{IsReadable, spelling_units};

use crate::spelling::{ROOM, Spelling};
use heap_read::{HeapRef, Reader, Run, UnitSource};
use heap_table::CounterFull;
use js_units::words_for;

// The lanes of a run of own words become the units that bytes spell.
fn fill_spelled<H: HeapRef>(reader: &mut Reader<H>, source: &Spelling, to: Run)
    requires read { IsReadable source.now }
    requires short { length (spelling_units source.now) ≤ MAX }
    requires own { (o : ℕ) → o < length (spelling_units source.now)
        → HasKey (view_in reader.old).own_words (to.start + o / lane_count to.wide) }
    requires fits { FitsLanes to.wide (spelling_units source.now) }
    ensures writes { MovesView WritesOwnWords reader.old reader.new }
    ensures below { KeepsBelow to.start (view_in reader.old) (view_in reader.new) }
    ensures above { KeepsFrom (to.start + words_over to.wide (length (spelling_units source.now)))
        (view_in reader.old) (view_in reader.new) }
    ensures forms { KeepsForms (view_in reader.old) (view_in reader.new) }
    ensures filled { IsFilled to.wide to.start (own_word (view_in reader.old).own_words)
        (own_word (view_in reader.new).own_words) 0 (length (spelling_units source.now))
        (slice_index (spelling_units source.now)) }
{
    let mut room = [0; ROOM];
    let mut rest = *source;
    let mut done = 0;
    while let Some((count, after)) = rest.split_front(&mut room) {
        let piece = UnitSource::Units(&room[..count]);
        reader.copy_lanes(&piece, count as u32, to, done);
        done += count as u32;
        rest = after;
    }
}

/// Content words with the units that bytes spell, now the agent's own. The answer is the first.
pub fn write_spelled<H: HeapRef>(
    reader: &mut Reader<H>,
    source: &Spelling,
    n: u32,
    wide: bool,
) -> Result<u32, CounterFull>
    requires read { IsReadable source.now }
    requires count { length (spelling_units source.now) ≡ n }
    requires wide { wide ≡ is_wide (spelling_units source.now) }
    requires short { n ≤ MAX }
    ensures continues { MovesView Continues reader.old reader.new }
    ensures ids { (view_in reader.new).used.ids ≡ (view_in reader.old).used.ids }
    ensures own_ids { (view_in reader.new).own_ids ≡ (view_in reader.old).own_ids }
    ensures own_words { (c : ℕ) → HasKey (view_in reader.old).own_words c
        → HasKey (view_in reader.new).own_words c }
    ensures ok { IfOk result
        (λ start. IsWritten (view_in reader.new) wide start (spelling_units source.now)
        × ((view_in reader.new).used.words ≡ (view_in reader.old).used.words + words_over wide n)) }
    ensures refused { IfErr result
        (λ f. IsFull f (words_over wide n) (size_of (H.reached reader.old.heap)).words
        × ((view_in reader.new).low.words ≡ f.at)
        × ((view_in reader.new).used.words ≡ (view_in reader.old).used.words)) }
    ensures forms { KeepsForms (view_in reader.old) (view_in reader.new) }
    ensures stays { (c x : ℕ) → Has (view_in reader.old).own_words c x
        → Has (view_in reader.new).own_words c x }
    ensures fresh { IfOk result
        (λ start. (q : ℕ) → q < words_over wide n → HasKey (view_in reader.old).own_words (start + q) → ⊥) }
{
    let want = words_for(n, wide);
    if want == 0 {
        return Ok(0);
    }
    let start = reader.agent.claim_words(reader.heap.heap(), want)?;
    spell_at(reader, source, n, wide, start);
    Ok(start)
}

/// The units that bytes spell into own content words that are 0, from `start` on.
pub fn spell_at<H: HeapRef>(
    reader: &mut Reader<H>,
    source: &Spelling,
    n: u32,
    wide: bool,
    start: u32,
)
    requires read { IsReadable source.now }
    requires count { length (spelling_units source.now) ≡ n }
    requires wide { wide ≡ is_wide (spelling_units source.now) }
    requires short { n ≤ MAX }
    requires own { (q : ℕ) → q < words_over wide n → Has (view_in reader.old).own_words (start + q) 0 }
    ensures writes { MovesView WritesOwnWords reader.old reader.new }
    ensures forms { KeepsForms (view_in reader.old) (view_in reader.new) }
    ensures written { AreWords (view_in reader.new) wide start (spelling_units source.now)
        (words_over wide n) }
    ensures others { KeepsBeside start (words_over wide n) (view_in reader.old) (view_in reader.new) }
{
    fill_spelled(reader, source, Run { start, wide });
}
