// Making a flat string with the units of a source.
ghost use Rattle.std.specs.Prelude.{◌≡◌, ◌≤◌, ℕ, List, IfOk, IfErr, false, length};
ghost use Rattle.js_units.specs.Lanes.{is_wide, words_over};
ghost use Rattle.js_header.specs.declared.form.Form.TheVariants.{Flat};
ghost use Rattle.heap_rule.specs.Layout.{MAX};
ghost use Rattle.heap_rule.specs.Maps.{Has, HasKey};
ghost use Rattle.heap_table.specs.Agents.{size_of};
ghost use Rattle.heap_read.specs.Readers.{MovesView, view_in};
ghost use Rattle.heap_read.specs.Reads.{Continues};
ghost use Rattle.heap_read.specs.Sources.{ShowsSource, listed_in};
ghost use Rattle.heap_read.specs.Written.{IsWritten};
ghost use Rattle.heap_bytes.specs.Spellings.{IsReadable, spelling_units};
ghost use Rattle.heap_text.specs.Texts.{IsSpared, KeepsOwn, KeepsOwnBut, LacksRoom, UsesExactly};

use crate::faults::TextFull;
use heap_bytes::{Spelling, write_spelled};
use heap_read::{HeapRef, JsStr, Reader, UnitSource};
use js_header::Form;

// A new flat string with the `n` units of a source. The content words come first, then the
// id.
pub(crate) fn copy<H: HeapRef>(
    reader: &mut Reader<H>,
    source: &UnitSource,
    n: u32,
) -> Result<JsStr, TextFull>
    requires shows { ShowsSource (view_in reader.old) source.now }
    requires count { length (listed_in reader.old source.now) ≡ n }
    requires short { n ≤ MAX }
    ensures continues { MovesView Continues reader.old reader.new }
    ensures own { KeepsOwn (view_in reader.old) (view_in reader.new) }
    ensures units { IfOk result
        (λ s. Has (view_in reader.new).units s.id (listed_in reader.old source.now)) }
    ensures form { IfOk result
        (λ s. (start : ℕ)
        × Has (view_in reader.new).forms s.id
        (Flat (is_wide (listed_in reader.old source.now)) start false)) }
    ensures used { IfOk result
        (λ s. UsesExactly (view_in reader.old) (view_in reader.new) 1
        (words_over (is_wide (listed_in reader.old source.now)) n)) }
    ensures refused { IfErr result
        (λ f. LacksRoom (view_in reader.new) (size_of (H.reached reader.old.heap))
        (words_over (is_wide (listed_in reader.old source.now)) n) f) }
    ensures spared { IfErr result
        (λ f. IsSpared (view_in reader.old) (view_in reader.new)
        (words_over (is_wide (listed_in reader.old source.now)) n) f) }
{
    let wide = reader.has_wide(source, n);
    let start = match reader.write(source, n, wide) {
        Ok(start) => start,
        Err(full) => return Err(TextFull::Words(full)),
    };
    let id = match reader.agent.claim_id(reader.heap.heap()) {
        Ok(id) => id,
        Err(full) => return Err(TextFull::Ids(full)),
    };
    bear_flat(reader, id, n, wide, start);
    Ok(JsStr { id })
}

/// An own id is born as a Flat over own content words that hold its `n` units.
pub fn bear_flat<H: HeapRef>(reader: &mut Reader<H>, id: u32, n: u32, wide: bool, start: u32)
    requires own { HasKey (view_in reader.old).own_ids id }
    requires written { (us : List ℕ) × IsWritten (view_in reader.old) wide start us × (length us ≡ n) }
    requires short { n ≤ MAX }
    ensures continues { MovesView Continues reader.old reader.new }
    ensures used { (view_in reader.new).used ≡ (view_in reader.old).used }
    ensures own { KeepsOwnBut (view_in reader.old) (view_in reader.new) id start (words_over wide n) }
    ensures units { (us : List ℕ) → IsWritten (view_in reader.old) wide start us → length us ≡ n
        → Has (view_in reader.new).units id us }
    ensures form { Has (view_in reader.new).forms id (Flat wide start false) }
{
    reader.agent.store_length(reader.heap.heap(), id, n);
    let form = Form::Flat {
        wide,
        start,
        fixed: false,
    };
    reader.agent.birth(reader.heap.heap(), id, form);
}

// A new flat string with the units that bytes spell, made in the same order.
pub(crate) fn copy_spelled<H: HeapRef>(
    reader: &mut Reader<H>,
    source: &Spelling,
) -> Result<JsStr, TextFull>
    requires read { IsReadable source.now }
    requires short { length (spelling_units source.now) ≤ MAX }
    ensures continues { MovesView Continues reader.old reader.new }
    ensures own { KeepsOwn (view_in reader.old) (view_in reader.new) }
    ensures units { IfOk result (λ s. Has (view_in reader.new).units s.id (spelling_units source.now)) }
    ensures form { IfOk result
        (λ s. (start : ℕ)
        × Has (view_in reader.new).forms s.id (Flat (is_wide (spelling_units source.now)) start false)) }
    ensures used { IfOk result
        (λ s. UsesExactly (view_in reader.old) (view_in reader.new) 1
        (words_over (is_wide (spelling_units source.now)) (length (spelling_units source.now)))) }
    ensures refused { IfErr result
        (λ f. LacksRoom (view_in reader.new) (size_of (H.reached reader.old.heap))
        (words_over (is_wide (spelling_units source.now)) (length (spelling_units source.now))) f) }
    ensures spared { IfErr result
        (λ f. IsSpared (view_in reader.old) (view_in reader.new)
        (words_over (is_wide (spelling_units source.now)) (length (spelling_units source.now))) f) }
{
    let n = source.len();
    let wide = source.is_wide();
    let start = match write_spelled(reader, source, n, wide) {
        Ok(start) => start,
        Err(full) => return Err(TextFull::Words(full)),
    };
    let id = match reader.agent.claim_id(reader.heap.heap()) {
        Ok(id) => id,
        Err(full) => return Err(TextFull::Ids(full)),
    };
    bear_flat(reader, id, n, wide, start);
    Ok(JsStr { id })
}
