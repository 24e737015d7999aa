// A reserve that has some of what a string needs, and heaps that lack ids, words or both.
use heap_reserve::{Reserve, ReserveFault};
use heap_rule::{HeapSize, MAX};
use heap_table::{CounterFull, Heap};
use heap_text::{JsStr, Text, TextFull};
use std::alloc::Global;

// How large the heap is, and what is claimed in advance.
#[derive(Clone, Copy)]
struct Start {
    ids: u32,
    words: u32,
    kept: (u32, u32),
}

// What the claim is answered, and then two strings of three units; what is left after each, and what was ever
// claimed.
#[derive(Clone, Copy, PartialEq, Eq)]
struct Given {
    claim: Result<(), ReserveFault>,
    first: Result<JsStr, TextFull>,
    then: (usize, u32),
    second: Result<JsStr, TextFull>,
    left: (usize, u32),
    totals: (u32, u32),
}

fn make_two(alloc: Global, start: Start) -> Option<Given> {
    let size = HeapSize {
        ids: start.ids,
        words: start.words,
        slots: 1,
    };
    let Ok((heap, agent)) = Heap::make(alloc, size, 1) else {
        return None;
    };
    let mut text = Text::new(&heap, agent, MAX);
    let mut reserve = Reserve::new(alloc);
    let claim = reserve.claim(&mut text, start.kept.0, start.kept.1);
    let first = reserve.make_flat(&mut text, &[0x61, 0x62, 0x63]);
    let then = (reserve.ids_left(), reserve.words_left());
    let second = reserve.make_flat(&mut text, &[0x64, 0x65, 0x66]);
    let left = (reserve.ids_left(), reserve.words_left());
    let totals = text.totals();
    Some(Given {
        claim,
        first,
        then,
        second,
        left,
        totals,
    })
}

fn no_id(end: u32) -> TextFull {
    TextFull::Ids(CounterFull {
        at: end,
        want: 1,
        end,
    })
}

fn no_word(end: u32) -> TextFull {
    TextFull::Words(CounterFull {
        at: end,
        want: 1,
        end,
    })
}

// All ids are kept, and no word.
#[test]
fn words_are_claimed_beside_kept_ids(rt: HostRuntime) {
    let start = Start {
        ids: 4,
        words: 1,
        kept: (4, 0),
    };
    let want = Given {
        claim: Ok(()),
        first: Ok(JsStr { id: 0 }),
        then: (3, 0),
        second: Err(no_word(1)),
        left: (3, 0),
        totals: (4, 1),
    };
    assert!(&rt; make_two(rt.alloc(), start) == Some(want));
}

// All words are kept, and no id.
#[test]
fn an_id_is_claimed_beside_kept_words(rt: HostRuntime) {
    let start = Start {
        ids: 1,
        words: 4,
        kept: (0, 4),
    };
    let want = Given {
        claim: Ok(()),
        first: Ok(JsStr { id: 0 }),
        then: (0, 3),
        second: Err(no_id(1)),
        left: (0, 3),
        totals: (1, 4),
    };
    assert!(&rt; make_two(rt.alloc(), start) == Some(want));
}

// Blocks of 1, of 1,024 and of 2^29 ids on a heap of two: what there is serves, and then the heap lacks ids.
#[test]
fn a_block_is_what_the_heap_has(rt: HostRuntime) {
    let one = Given {
        claim: Ok(()),
        first: Ok(JsStr { id: 0 }),
        then: (0, 1),
        second: Ok(JsStr { id: 1 }),
        left: (0, 0),
        totals: (2, 2),
    };
    let all = Given {
        claim: Err(ReserveFault::Full(no_id(2))),
        then: (1, 1),
        ..one
    };
    let blocks = [(1, one), (1024, all), (1 << 29, all)];
    for (ids, want) in blocks {
        let start = Start {
            ids: 2,
            words: 2,
            kept: (ids, 2),
        };
        assert!(&rt; make_two(rt.alloc(), start) == Some(want));
    }
}

// Two agents claim the last ids: the first one gets what there is, and the other none. What the first one has
// serves it yet.
fn claim_both(alloc: Global) -> Option<[Result<JsStr, TextFull>; 3]> {
    let size = HeapSize {
        ids: 2,
        words: 4,
        slots: 1,
    };
    let Ok((heap, agent)) = Heap::make(alloc, size, 2) else {
        return None;
    };
    let mut text = Text::new(&heap, agent, MAX);
    let mut other = text.split(1);
    let mut reserve = Reserve::new(alloc);
    let mut second = Reserve::new(alloc);
    let _ = reserve.claim(&mut text, 4, 2);
    let _ = second.claim(&mut other, 4, 2);
    Some([
        second.make_flat(&mut other, &[0x61]),
        reserve.make_flat(&mut text, &[0x61]),
        reserve.make_flat(&mut text, &[0x62]),
    ])
}

#[test]
fn the_last_ids_are_of_the_first_to_claim(rt: HostRuntime) {
    let want = [Err(no_id(2)), Ok(JsStr { id: 0 }), Ok(JsStr { id: 1 })];
    assert!(&rt; claim_both(rt.alloc()) == Some(want));
}
