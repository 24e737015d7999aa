// The loads of slots that interning makes, counted on heaps with few slots.
ghost use Rattle.std.specs.Prelude.{◌≡◌, ℕ, ◌+◌, ◌*◌, ◌≤◌, ◌<◌, IfSome, length};
ghost use Rattle.heap_table.specs.Agents.{Belongs, size_of, view_of};

use heap_intern::{TableFull, intern, intern_counted};
use heap_read::Steps;
use heap_rule::{HeapSize, MAX};
use heap_table::Heap;
use heap_text::Text;
use std::alloc::Global;
use std::marker::Brand;
use std::sync::ledger::{Blank, Ledger};

// The answer for a new string of these units; None where there is no room for the string. No more
// loads are counted than twice the number of slots.
fn counted<L: Ledger>(
    text: &mut Text<&Heap>,
    units: &[u16],
    steps: &mut Steps<L>,
) -> Option<Result<u32, TableFull>>
    requires short { length units.now ≤ 65536 }
    ensures text { Belongs text.new.reader.agent text.new.reader.heap.now }
    ensures heap { text.new.reader.heap ≡ text.old.reader.heap }
    ensures most { steps.new ≤ steps.old + 2 * (size_of text.old.reader.heap.now).slots }
{
    let Ok(s) = text.make_flat(units) else {
        return None;
    };
    Some(intern_counted(&mut text.reader, s.id, &mut [], steps))
}

// The answers for two strings in turn, each made and interned twice.
fn answers<L: Ledger>(
    text: &mut Text<&Heap>,
    first: &[u16],
    second: &[u16],
    steps: &mut Steps<L>,
) -> [Option<Result<u32, TableFull>>; 4]
    requires short { (length first.now ≤ 65536) × (length second.now ≤ 65536) }
    ensures most { steps.new ≤ steps.old + 8 * (size_of text.old.reader.heap.now).slots }
{
    let a = counted(text, first, steps);
    let b = counted(text, second, steps);
    let c = counted(text, first, steps);
    let d = counted(text, second, steps);
    [a, b, c, d]
}

// The same on a new heap with so many slots; None where there is no memory for it.
fn on_slots<L: Ledger>(
    alloc: Global,
    slots: u32,
    first: &[u16],
    second: &[u16],
    blank: Blank,
) -> Option<[Option<Result<u32, TableFull>>; 4]>
    requires name { blank.name ≡ L.name }
    requires parts { blank.parts ≡ L.parts }
    requires some { 0 < blank.parts }
    requires short { (length first.now ≤ 65536) × (length second.now ≤ 65536) }
{
    let size = HeapSize {
        ids: 6,
        words: 4,
        slots,
    };
    let Ok((heap, agent)) = Heap::make(alloc, size, 1) else {
        return None;
    };
    let mut text = Text::new(&heap, agent, MAX);
    let mut steps = Steps::<L>::start(blank);
    Some(answers(&mut text, first, second, &mut steps))
}

fn row(
    alloc: Global,
    slots: u32,
    first: &[u16],
    second: &[u16],
) -> Option<[Option<Result<u32, TableFull>>; 4]>
    requires short { (length first.now ≤ 65536) × (length second.now ≤ 65536) }
{
    on_slots::<Brand>(alloc, slots, first, second, Blank::new(1))
}

// Both lists have the hash 2112. Where there is one slot, the second list finds it used.
#[test]
fn two_lists_of_one_hash(rt: HostRuntime) {
    let full = Some(Err(TableFull::Slots { slots: 1 }));
    let one = [Some(Ok(1)), full, Some(Ok(1)), full];
    assert!(rt; row(rt.alloc(), 1, &[65, 97], &[66, 66]) == Some(one));
    let both = [Some(Ok(1)), Some(Ok(3)), Some(Ok(1)), Some(Ok(3))];
    for slots in [2, 7] {
        assert!(rt;
            row(rt.alloc(), slots, &[65, 97], &[66, 66]) == Some(both),
            "{slots} slots"
        );
    }
}

// What a string is interned as, and then another one with its units. The second finds the first
// one in the only slot that there is, by two loads: one to compare it, and one that enters the
// call.
fn found_again<L: Ledger>(
    text: &mut Text<&Heap>,
    units: &[u16],
    steps: &mut Steps<L>,
) -> Option<(u32, u32)>
    requires one { (size_of text.old.reader.heap.now).slots ≡ 1 }
    requires short { length units.now ≤ 65536 }
    ensures two { IfSome result (λ r. steps.new ≡ steps.old + 2) }
{
    let Ok(s) = text.make_flat(units) else {
        return None;
    };
    let Ok(a) = intern(&mut text.reader, s.id) else {
        return None;
    };
    let Ok(t) = text.make_flat(units) else {
        return None;
    };
    let Ok(b) = intern_counted(&mut text.reader, t.id, &mut [], steps) else {
        return None;
    };
    Some((a, b))
}

// The same on a new heap.
fn found_on<L: Ledger>(alloc: Global, units: &[u16], blank: Blank) -> Option<(u32, u32)>
    requires name { blank.name ≡ L.name }
    requires parts { blank.parts ≡ L.parts }
    requires some { 0 < blank.parts }
    requires short { length units.now ≤ 65536 }
{
    let size = HeapSize {
        ids: 4,
        words: 4,
        slots: 1,
    };
    let Ok((heap, agent)) = Heap::make(alloc, size, 1) else {
        return None;
    };
    let mut text = Text::new(&heap, agent, MAX);
    let mut steps = Steps::<L>::start(blank);
    found_again(&mut text, units, &mut steps)
}

fn found(alloc: Global, units: &[u16]) -> Option<(u32, u32)>
    requires short { length units.now ≤ 65536 }
{
    found_on::<Brand>(alloc, units, Blank::new(1))
}

#[test]
fn two_loads_where_the_first_slot_answers(rt: HostRuntime) {
    assert!(rt; found(rt.alloc(), &[97, 98, 99]) == Some((1, 1)));
    assert!(rt; found(rt.alloc(), &[]) == Some((1, 1)));
}
