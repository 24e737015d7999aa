// An interned string goes from one agent to another by its slot, and any agent reads the counters.
ghost use Rattle.std.specs.Prelude.{◌≤◌, length};

use heap_intern::{adopt, find_units, intern_units, slot_of};
use heap_rule::{HeapSize, MAX};
use heap_table::Heap;
use heap_text::{JsStr, Text};
use std::alloc::Global;

/// The number and the slot of a string that one agent interned, and what another agent found, which
/// had nothing but the slot: the string there, its length, its number by a search for the units, the
/// string in slot 0, and both counters.
#[derive(Clone, Copy, Debug, PartialEq, Eq)]
struct Handed {
    id: u32,
    slot: u32,
    adopted: u32,
    len: u32,
    found: Option<u32>,
    first: Option<u32>,
    counters: (u32, u32),
}

#[tactic(auto, using(heap_intern::proofs::Hashes::no_hashes))]
fn handed_over(alloc: Global, size: HeapSize, units: &[u16]) -> Option<Handed>
    requires { length units.now ≤ 100 }
{
    if size.slots == 0 {
        return None;
    }
    let Ok((heap, agent)) = Heap::make(alloc, size, 2) else {
        return None;
    };
    let mut giver = Text::new(&heap, agent, MAX);
    let mut taker = giver.split_to(&heap, 1);
    let Ok(seat) = intern_units(&mut giver.reader, units, &mut []) else {
        return None;
    };
    let id = seat.id;
    let slot = slot_of(&mut giver.reader, id);
    let adopted = adopt(&mut taker.reader, slot)?;
    let len = taker.len(JsStr { id: adopted });
    let found = find_units(&mut taker.reader, units);
    let first = adopt(&mut taker.reader, 0);
    let reader = &mut taker.reader;
    let counters = reader.agent.counters(reader.heap);
    Some(Handed {
        id,
        slot,
        adopted,
        len,
        found,
        first,
        counters,
    })
}

// The sizes of a heap.
fn sized(ids: u32, words: u32, slots: u32) -> HeapSize {
    HeapSize { ids, words, slots }
}

// The hash of `key` is 106079, which is 1 modulo 7; that of no units is 0.
#[test]
fn a_string_goes_by_its_slot(rt: HostRuntime) {
    let key = Handed {
        id: 0,
        slot: 1,
        adopted: 0,
        len: 3,
        found: Some(0),
        first: None,
        counters: (1, 1),
    };
    let key_units = [107, 101, 121];
    assert!(&rt; handed_over(rt.alloc(), sized(4, 8, 7), &key_units) == Some(key));
    let full = Handed {
        slot: 0,
        first: Some(0),
        ..key
    };
    assert!(&rt; handed_over(rt.alloc(), sized(1, 1, 1), &key_units) == Some(full));
    let empty = Handed {
        len: 0,
        counters: (1, 0),
        ..full
    };
    assert!(&rt; handed_over(rt.alloc(), sized(1, 1, 7), &[]) == Some(empty));
    assert!(&rt; handed_over(rt.alloc(), sized(1, 1, 0), &[]) == None);
}
