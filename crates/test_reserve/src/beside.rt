// A heap of which one agent keeps all that another one requests.
use heap_reserve::{Reserve, ReserveFault};
use heap_rule::{HeapSize, MAX};
use heap_table::{CounterFull, Heap};
use heap_text::{JsStr, Text, TextFull};
use std::alloc::Global;

// What the other agent is answered for a unit and for none, twice, and then what the first one is: for
// a unit, for more ids and for more words.
#[derive(Clone, Copy, PartialEq, Eq)]
struct Answers {
    unit: Result<JsStr, TextFull>,
    empty: Result<JsStr, TextFull>,
    again: Result<JsStr, TextFull>,
    kept: Result<JsStr, TextFull>,
    ids: Result<(), ReserveFault>,
    words: Result<(), ReserveFault>,
    none: Result<(), ReserveFault>,
    left: (usize, u32),
}

fn ask_both(alloc: Global) -> Option<Answers> {
    let size = HeapSize {
        ids: 4,
        words: 4,
        slots: 1,
    };
    let Ok((heap, agent)) = Heap::make(alloc, size, 2) else {
        return None;
    };
    let mut text = Text::new(&heap, agent, MAX);
    let mut other = text.split(1);
    let mut reserve = Reserve::new(alloc);
    let Ok(()) = reserve.claim(&mut text, 3, 4) else {
        return None;
    };
    let unit = other.make_flat(&[0x61]);
    let empty = other.make_flat(&[]);
    let again = other.make_flat(&[]);
    let kept = reserve.make_flat(&mut text, &[0x61]);
    let ids = reserve.claim(&mut text, 2, 0);
    let words = reserve.claim(&mut text, 2, 1);
    let none = reserve.claim(&mut text, 0, 0);
    let left = (reserve.ids_left(), reserve.words_left());
    Some(Answers {
        unit,
        empty,
        again,
        kept,
        ids,
        words,
        none,
        left,
    })
}

#[test]
fn what_is_kept_serves_a_full_heap(rt: HostRuntime) {
    let no_id = TextFull::Ids(CounterFull {
        at: 4,
        want: 1,
        end: 4,
    });
    let no_word = TextFull::Words(CounterFull {
        at: 4,
        want: 1,
        end: 4,
    });
    let want = Answers {
        unit: Err(no_word),
        empty: Ok(JsStr { id: 3 }),
        again: Err(no_id),
        kept: Ok(JsStr { id: 0 }),
        ids: Err(ReserveFault::Full(no_id)),
        words: Err(ReserveFault::Full(no_word)),
        none: Ok(()),
        left: (2, 3),
    };
    assert!(&rt; ask_both(rt.alloc()) == Some(want));
}
