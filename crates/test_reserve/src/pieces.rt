// More ids in advance than one exchange of the counter claims, and more than the heap has.
use heap_reserve::{Reserve, ReserveFault};
use heap_rule::{HeapSize, MAX};
use heap_table::{CounterFull, Heap};
use heap_text::{JsStr, Text, TextFull};
use std::alloc::Global;

// What two claims of 2,000 ids each are answered, how many are kept after each, and the string that takes
// the first one.
#[derive(Clone, Copy, PartialEq, Eq)]
struct Answers {
    first: Result<(), ReserveFault>,
    then: usize,
    second: Result<(), ReserveFault>,
    left: usize,
    empty: Result<JsStr, TextFull>,
}

fn claim_twice(alloc: Global) -> Option<Answers> {
    let size = HeapSize {
        ids: 3000,
        words: 1,
        slots: 1,
    };
    let Ok((heap, agent)) = Heap::make(alloc, size, 1) else {
        return None;
    };
    let mut text = Text::new(&heap, agent, MAX);
    let mut reserve = Reserve::new(alloc);
    let first = reserve.claim(&mut text, 2000, 0);
    let then = reserve.ids_left();
    let second = reserve.claim(&mut text, 2000, 0);
    let left = reserve.ids_left();
    let empty = reserve.make_flat(&mut text, &[]);
    Some(Answers {
        first,
        then,
        second,
        left,
        empty,
    })
}

#[test]
fn pieces_are_claimed_up_to_the_end(rt: HostRuntime) {
    let no_id = TextFull::Ids(CounterFull {
        at: 3000,
        want: 1,
        end: 3000,
    });
    let want = Answers {
        first: Ok(()),
        then: 2000,
        second: Err(ReserveFault::Full(no_id)),
        left: 3000,
        empty: Ok(JsStr { id: 0 }),
    };
    assert!(&rt; claim_twice(rt.alloc()) == Some(want));
}
