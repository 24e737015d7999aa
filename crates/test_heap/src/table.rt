ghost use Rattle.std.specs.Prelude.{◌≡◌};

use crate::reading::making_of;
use heap_rule::HeapSize;
use heap_table::{Agent, CounterFull, Heap, MakeFault};
use std::alloc::Global;
use std::mem::size_of;
use std::thread::join_mut;

fn size(ids: u32, words: u32, slots: u32) -> HeapSize
    ensures { (result.ids ≡ ids) × (result.words ≡ words) × (result.slots ≡ slots) }
{
    HeapSize { ids, words, slots }
}

// What comes of the making of a heap: its share, where it is made of the sizes that it was given.
fn made(alloc: Global, given: HeapSize, agents: u32) -> Option<u32> {
    match Heap::make(alloc, given, agents) {
        Ok((heap, agent)) if heap.size() == given => Some(agent.share()),
        Ok(_) | Err(MakeFault::Memory) => None,
        Err(MakeFault::Size) => Some(0),
    }
}

// Ids, words, slots and agents, and the share; 0 where the sizes are refused.
const SIZES: &str = "0 1 1 1 -> 0
1 0 1 1 -> 0
1 1 0 1 -> 0
536870912 1 1 1 -> 0
1 536870912 1 1 -> 0
1 1 536870912 1 -> 0
536870910 2 1 1 -> 0
1 536870911 1 1 -> 0
1 1 1 0 -> 0
1 1 1 65 -> 0
8 8 1 65 -> 0
1 1 1 1 -> 1
1 1 1 64 -> 64";

// The share that a row expects, and the one that is found.
fn shares(alloc: Global, row: &str) -> Option<(u32, u32)> {
    let (given, want) = row.split_once(" -> ")?;
    let (size, agents) = making_of(given)?;
    Some((want.parse::<u32>().ok()?, made(alloc, size, agents)?))
}

#[test]
fn refuses_sizes(rt: HostRuntime) {
    for row in SIZES.lines() {
        let shares = shares(rt.alloc(), row);
        assert!(rt;
            matches!(shares, Some((want, found)) if want == found),
            "{row}"
        );
    }
}

// A word that was claimed and stored, both counters, and a claim of eight words more.
fn claimed(alloc: Global) -> Option<(u64, (u32, u32), Result<u32, CounterFull>)> {
    let Ok((heap, mut agent)) = Heap::make(alloc, size(8, 8, 1), 2) else {
        return None;
    };
    let Ok(at) = agent.claim_words(&heap, 1) else {
        return None;
    };
    agent.store_word(&heap, at, 6513249);
    let word = agent.load_word(&heap, at);
    let Ok(id) = agent.claim_id(&heap) else {
        return None;
    };
    agent.store_length(&heap, id, 3);
    Some((word, agent.totals(&heap), agent.claim_words(&heap, 8)))
}

#[test]
fn claims_and_stores(rt: HostRuntime) {
    let full = CounterFull {
        at: 1,
        want: 8,
        end: 8,
    };
    assert!(rt; claimed(rt.alloc()) == Some((6513249, (1, 1), Err(full))));
}

#[test]
fn claims_in_two_threads(rt: HostRuntime) {
    let Ok((heap, mut left)) = Heap::make(rt.alloc(), size(8, 8, 1), 2) else {
        panic!(rt; "no heap");
    };
    let mut right = left.split(&heap, 1);
    assert!(rt; (left.share(), right.share()) == (1, 1));
    assert!(rt; size_of::<Agent>() <= 16, "an agent is a few words");
    let (a, b) = join_mut(
        &rt,
        &mut || left.claim_id(&heap),
        &mut || { right.claim_id(&heap) },
    );
    assert!(rt; matches!((a, b), (Ok(0), Ok(1)) | (Ok(1), Ok(0))));
}
