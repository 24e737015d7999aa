// The loads of slots that a session makes when it interns, counted on heaps with few slots.
ghost use Rattle.std.specs.Prelude.{◌≡◌, ℕ, ◌+◌, ◌*◌, ◌≤◌, ◌<◌, length};
ghost use Rattle.heap_session.specs.Sessions.{state_in};

use heap_read::Steps;
use heap_rule::HeapSize;
use heap_session::Session;
use heap_table::Heap;
use js_store::{FullReport, Limit, StoreFault, Strings};
use std::alloc::Global;
use std::marker::Brand;
use std::sync::ledger::{Blank, Ledger};

// The number that a new string of these units is interned as. No more loads are counted than
// twice the number of slots.
fn counted<L: Ledger>(
    session: &mut Session<&Heap>,
    units: &[u16],
    steps: &mut Steps<L>,
) -> Result<u32, StoreFault>
    requires short { length units.now ≤ 100 }
    ensures sizes { (state_in session.new).sizes ≡ (state_in session.old).sizes }
    ensures most { steps.new ≤ steps.old + 2 * (state_in session.old).sizes.slots }
{
    let s = match session.from_units(units) {
        Ok(s) => s,
        Err(fault) => return Err(fault),
    };
    match session.intern_counted(s, steps) {
        Ok(t) => Ok(t.id),
        Err(fault) => Err(fault),
    }
}

// The answers for two strings in turn, each made and interned twice.
fn answers<L: Ledger>(
    session: &mut Session<&Heap>,
    first: &[u16],
    second: &[u16],
    steps: &mut Steps<L>,
) -> [Result<u32, StoreFault>; 4]
    requires short { (length first.now ≤ 100) × (length second.now ≤ 100) }
    ensures most { steps.new ≤ steps.old + 8 * (state_in session.old).sizes.slots }
{
    let a = counted(session, first, steps);
    let b = counted(session, second, steps);
    let c = counted(session, first, steps);
    let d = counted(session, second, steps);
    [a, b, c, d]
}

// The same on a new heap with so many slots; None where there is no memory for it.
fn on_slots<L: Ledger>(
    alloc: Global,
    slots: u32,
    first: &[u16],
    second: &[u16],
    blank: Blank,
) -> Option<[Result<u32, StoreFault>; 4]>
    requires name { blank.name ≡ L.name }
    requires parts { blank.parts ≡ L.parts }
    requires some { 0 < blank.parts }
    requires short { (length first.now ≤ 100) × (length second.now ≤ 100) }
{
    let size = HeapSize {
        ids: 6,
        words: 4,
        slots,
    };
    let Ok((heap, agent)) = Heap::make(alloc, size, 1) else {
        return None;
    };
    let mut session = Session::new(&heap, agent, Limit::Bits64);
    let mut steps = Steps::<L>::start(blank);
    Some(answers(&mut session, first, second, &mut steps))
}

fn row(
    alloc: Global,
    slots: u32,
    first: &[u16],
    second: &[u16],
) -> Option<[Result<u32, StoreFault>; 4]>
    requires short { (length first.now ≤ 100) × (length second.now ≤ 100) }
{
    on_slots::<Brand>(alloc, slots, first, second, Blank::new(1))
}

// Both lists have the hash 2112. Where there is one slot, the second list finds it used.
#[test]
fn counted_lists_of_one_hash(rt: HostRuntime) {
    let full = Err(StoreFault::Full(FullReport::Slots { slots: 1 }));
    let one = [Ok(1), full, Ok(1), full];
    assert!(rt; row(rt.alloc(), 1, &[65, 97], &[66, 66]) == Some(one));
    for slots in [2, 7] {
        let both = [Ok(1), Ok(3), Ok(1), Ok(3)];
        assert!(rt;
            row(rt.alloc(), slots, &[65, 97], &[66, 66]) == Some(both),
            "{slots} slots"
        );
    }
}
