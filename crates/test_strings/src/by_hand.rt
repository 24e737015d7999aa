// A string that is made by the steps of an agent, in two-byte lanes whatever its units are.
ghost use Rattle.std.specs.Prelude.{IfSome};
ghost use Rattle.heap_rule.specs.Maps.{HasKey};
ghost use Rattle.heap_read.specs.Readers.{MovesView, view_in};
ghost use Rattle.test_strings.specs.Turns.{Turns};

use heap_read::Reader;
use heap_table::Heap;
use js_header::Form;

/// A string of four units in two-byte lanes, whatever its units are: they fill one word.
pub(crate) fn wide(reader: &mut Reader<&Heap>, word: u64) -> Option<u32>
    ensures goes { MovesView Turns reader.old reader.new }
    ensures known { IfSome result (λ i. HasKey (view_in reader.new).units i) }
{
    let Ok(start) = reader.agent.claim_words(reader.heap, 1) else {
        return None;
    };
    reader.agent.store_word(reader.heap, start, word);
    let Ok(id) = reader.agent.claim_id(reader.heap) else {
        return None;
    };
    reader.agent.store_length(reader.heap, id, 4);
    let form = Form::Flat {
        wide: true,
        start,
        fixed: false,
    };
    reader.agent.birth(reader.heap, id, form);
    Some(id)
}
