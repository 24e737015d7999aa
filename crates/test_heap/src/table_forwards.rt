// Strings that are forwarded to interned ones, won and lost.
ghost use Rattle.std.specs.Prelude.{◌≡◌, ◌<◌, ◌^◌, ℕ, false, IfSome};
ghost use Rattle.js_header.specs.declared.form.Form.TheVariants.{Flat};
ghost use Rattle.heap_rule.specs.HeaderMoves.{MayThin};
ghost use Rattle.heap_rule.specs.Maps.{Has, HasKey};
ghost use Rattle.heap_rule.specs.Views.{MayUse};
ghost use Rattle.heap_table.specs.Agents.{Belongs, size_of, view_of};
ghost use Rattle.test_heap.specs.Ropes.{KeepsUnits, bytes_of};

use heap_rule::HeapSize;
use heap_table::{Agent, Heap, Step};
use js_header::Form;

// A string of eight units, those of the bytes of a word, with the content word that it lies in.
fn eight(agent: &mut Agent, heap: &Heap, word: u64, fixed: bool) -> Option<(u32, u32)>
    requires belongs { Belongs agent.old heap.now }
    ensures belongs { Belongs agent.new heap.now }
    ensures kept { KeepsUnits (view_of agent.old) (view_of agent.new) }
    ensures slots { (k : ℕ) (i : ℕ) → Has (view_of agent.old).slots k i → Has (view_of agent.new).slots k i }
    ensures units { IfSome result (λ r. Has (view_of agent.new).units r.0 (bytes_of word)) }
    ensures form { IfSome result (λ r. Has (view_of agent.new).forms r.0 (Flat false r.1 fixed)) }
    ensures small { IfSome result (λ r. r.1 < 2 ^ 29) }
{
    let Ok(start) = agent.claim_words(heap, 1) else {
        return None;
    };
    agent.store_word(heap, start, word);
    let Ok(id) = agent.claim_id(heap) else {
        return None;
    };
    agent.store_length(heap, id, 8);
    let form = Form::Flat {
        wide: false,
        start,
        fixed,
    };
    agent.birth(heap, id, form);
    Some((id, start))
}

// A fixed string in the one slot of a heap.
fn interned(agent: &mut Agent, heap: &Heap, word: u64) -> Option<u32>
    requires belongs { Belongs agent.old heap.now }
    requires one { (size_of heap.now).slots ≡ 1 }
    ensures belongs { Belongs agent.new heap.now }
    ensures units { IfSome result (λ t. Has (view_of agent.new).units t (bytes_of word)) }
    ensures slot { IfSome result (λ t. (k : ℕ) × Has (view_of agent.new).slots k t) }
{
    let Some((id, _start)) = eight(agent, heap, word, true) else {
        return None;
    };
    match agent.claim_slot(heap, 0, id) {
        Step::Won => Some(id),
        Step::Lost { .. } => None,
    }
}

// A string, and the interned one with its units, on a heap with one slot.
fn pair(agent: &mut Agent, heap: &Heap, word: u64) -> Option<(u32, Form, u32)>
    requires belongs { Belongs agent.old heap.now }
    requires one { (size_of heap.now).slots ≡ 1 }
    ensures belongs { Belongs agent.new heap.now }
    ensures may { IfSome result (λ r. MayThin (view_of agent.new) r.0 r.1 r.2) }
{
    let Some(target) = interned(agent, heap, word) else {
        return None;
    };
    let Some((id, start)) = eight(agent, heap, word, false) else {
        return None;
    };
    let form = Form::Flat {
        wide: false,
        start,
        fixed: false,
    };
    Some((id, form, target))
}

// How forwarding the string ends, and its form afterwards.
fn forward(agent: &mut Agent, heap: &Heap, id: u32, old: Form, target: u32) -> (Step, Form)
    requires belongs { Belongs agent.old heap.now }
    requires may { MayThin (view_of agent.old) id old target }
    ensures belongs { Belongs agent.new heap.now }
{
    let step = agent.thin_step(heap, id, old, target);
    (step, agent.load_form(heap, id))
}

fn size() -> HeapSize
    ensures { result.slots ≡ 1 }
{
    HeapSize {
        ids: 8,
        words: 8,
        slots: 1,
    }
}

// Two agents have seen the string before it was forwarded. The second finds that it was, and to
// the same string.
#[test]
fn one_of_two_forwards(rt: HostRuntime) {
    let Ok((heap, mut left)) = Heap::make(rt.alloc(), size(), 2) else {
        panic!(rt; "no heap");
    };
    let Some((id, old, target)) = pair(&mut left, &heap, 0x6867_6665_6463_6261) else {
        panic!(rt; "no room");
    };
    assert!(rt; (id, target) == (1, 0));
    assert_eq!(rt; left.share(), 2);
    let mut right = left.split(&heap, 1);
    let thin = Form::Thin { target: 0 };
    assert!(rt; forward(&mut left, &heap, id, old, target) == (Step::Won, thin));
    assert!(rt; forward(&mut right, &heap, id, old, target) == (Step::Lost { word: 4 }, thin));
}
