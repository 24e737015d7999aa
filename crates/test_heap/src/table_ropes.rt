// Ropes that are born and flattened, won and lost.
ghost use Rattle.std.specs.Prelude.{◌≡◌, ℕ, List, ◌++◌, IfSome};
ghost use Rattle.heap_rule.specs.Forms.{IsCons};
ghost use Rattle.heap_rule.specs.Maps.{Has, HasKey};
ghost use Rattle.heap_rule.specs.Views.{MayUse};
ghost use Rattle.heap_table.specs.Agents.{Belongs, view_of};
ghost use Rattle.test_heap.specs.Ropes.{IsLost, KeepsUnits, bytes_of};

use heap_rule::HeapSize;
use heap_table::{Agent, Heap, Step};
use js_header::{Form, encode};

// A string of eight units, those of the bytes of a word.
fn eight(agent: &mut Agent, heap: &Heap, word: u64) -> Option<u32>
    requires belongs { Belongs agent.old heap.now }
    ensures belongs { Belongs agent.new heap.now }
    ensures kept { KeepsUnits (view_of agent.old) (view_of agent.new) }
    ensures units { IfSome result (λ i. Has (view_of agent.new).units i (bytes_of word)) }
{
    let Ok(start) = agent.claim_words(heap, 1) else {
        return None;
    };
    agent.store_word(heap, start, word);
    let Ok(id) = agent.claim_id(heap) else {
        return None;
    };
    agent.store_length(heap, id, 8);
    let form = Form::Flat {
        wide: false,
        start,
        fixed: false,
    };
    agent.birth(heap, id, form);
    Some(id)
}

// A rope of two strings of eight units, with its form.
fn rope(agent: &mut Agent, heap: &Heap, first: u64, second: u64) -> Option<(u32, Form)>
    requires belongs { Belongs agent.old heap.now }
    ensures belongs { Belongs agent.new heap.now }
    ensures form { IfSome result (λ r. IsCons r.1 × Has (view_of agent.new).forms r.0 r.1) }
    ensures units { IfSome result
        (λ r. Has (view_of agent.new).units r.0 (bytes_of first ++ bytes_of second)) }
{
    let Some(left) = eight(agent, heap, first) else {
        return None;
    };
    let Some(right) = eight(agent, heap, second) else {
        return None;
    };
    let Ok(id) = agent.claim_id(heap) else {
        return None;
    };
    agent.store_length(heap, id, 16);
    let form = Form::Cons {
        wide: false,
        left,
        right,
    };
    agent.birth(heap, id, form);
    Some((id, form))
}

// Two own words with the units of a rope are to replace it: the first of them, and how it
// ended.
fn flatten(
    agent: &mut Agent,
    heap: &Heap,
    id: u32,
    old: Form,
    first: u64,
    second: u64,
) -> Option<(u32, Step)>
    requires belongs { Belongs agent.old heap.now }
    requires form { IsCons old × Has (view_of agent.old).forms id old }
    requires units { Has (view_of agent.old).units id (bytes_of first ++ bytes_of second) }
    ensures belongs { Belongs agent.new heap.now }
    ensures kept { KeepsUnits (view_of agent.old) (view_of agent.new) }
    ensures own { IfSome result (λ r. IsLost r.1 → HasKey (view_of agent.new).own_words r.0) }
{
    let Ok(start) = agent.claim_words(heap, 2) else {
        return None;
    };
    agent.store_word(heap, start, first);
    agent.store_word(heap, start + 1, second);
    let new = Form::Flat {
        wide: false,
        start,
        fixed: false,
    };
    let step = agent.flatten_step(heap, id, old, new);
    Some((start, step))
}

// The words of `abcdefgh` and `ijklmnop`.
const FIRST: u64 = 0x6867_6665_6463_6261;

const SECOND: u64 = 0x706f_6e6d_6c6b_6a69;

fn size() -> HeapSize {
    HeapSize {
        ids: 8,
        words: 8,
        slots: 1,
    }
}

#[test]
fn the_word_of_a_rope(rt: HostRuntime) {
    let Ok((heap, mut agent)) = Heap::make(rt.alloc(), size(), 1) else {
        panic!(rt; "no heap");
    };
    let Some((id, form)) = rope(&mut agent, &heap, FIRST, SECOND) else {
        panic!(rt; "no room");
    };
    let cons = Form::Cons {
        wide: false,
        left: 0,
        right: 1,
    };
    assert_eq!(rt; encode(cons), 17179869186);
    assert!(rt; form == cons);
    assert!(rt; agent.load_form(&heap, id) == cons);
    assert_eq!(rt; agent.load_length(&heap, id), 16);
}

// Two agents have seen the rope. The second to flatten it finds the word of the Flat that the
// first put in its place, and keeps its words.
#[test]
fn one_of_two_flattens(rt: HostRuntime) {
    let Ok((heap, mut left)) = Heap::make(rt.alloc(), size(), 2) else {
        panic!(rt; "no heap");
    };
    let Some((id, old)) = rope(&mut left, &heap, FIRST, SECOND) else {
        panic!(rt; "no room");
    };
    assert_eq!(rt; left.share(), 2);
    let mut right = left.split(&heap, 1);
    let won = flatten(&mut left, &heap, id, old, FIRST, SECOND);
    assert!(rt; won == Some((2, Step::Won)));
    let lost = flatten(&mut right, &heap, id, old, FIRST, SECOND);
    assert!(rt; lost == Some((4, Step::Lost { word: 65 })));
    let flat = Form::Flat {
        wide: false,
        start: 2,
        fixed: false,
    };
    assert!(rt; left.load_form(&heap, id) == flat);
    assert!(rt; right.load_form(&heap, id) == flat);
}

// The words of a lost flattening can be stored to again.
#[test]
fn words_of_a_lost_one_stay_own(rt: HostRuntime) {
    let Ok((heap, mut left)) = Heap::make(rt.alloc(), size(), 2) else {
        panic!(rt; "no heap");
    };
    let Some((id, old)) = rope(&mut left, &heap, FIRST, SECOND) else {
        panic!(rt; "no room");
    };
    assert_eq!(rt; left.share(), 2);
    let mut right = left.split(&heap, 1);
    flatten(&mut left, &heap, id, old, FIRST, SECOND);
    match flatten(&mut right, &heap, id, old, FIRST, SECOND) {
        Some((start, Step::Lost { .. })) => {
            right.store_word(&heap, start, 7);
            assert_eq!(rt; right.load_word(&heap, start), 7);
        }
        _ => panic!(rt; "it was not lost"),
    }
}
