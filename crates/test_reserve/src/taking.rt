// Strings that take what their agent claimed in advance.
ghost use Rattle.std.specs.Prelude.{◌≡◌, length};

use heap_bytes::Spelling;
use heap_reserve::Reserve;
use heap_rule::{HeapSize, MAX};
use heap_table::Heap;
use heap_text::Text;
use std::alloc::Global;

// The ids that were answered, what is left of the reserve, and what was ever claimed.
#[derive(Clone, Copy, PartialEq, Eq)]
struct Taken {
    ids: [u32; 5],
    left: (usize, u32),
    totals: (u32, u32),
}

// A copy, a rope over it, a slice of it, an empty string and one of bytes take the ids in their order.
#[tactic(auto, using(heap_reserve::proofs::Kept::reserve_kept))]
fn take_five(alloc: Global, units: &[u16]) -> Option<Taken>
    requires { length units.now ≡ 14 }
{
    let size = HeapSize {
        ids: 16,
        words: 16,
        slots: 1,
    };
    let Ok((heap, agent)) = Heap::make(alloc, size, 1) else {
        return None;
    };
    let mut text = Text::new(&heap, agent, MAX);
    let mut reserve = Reserve::new(alloc);
    let Ok(()) = reserve.claim(&mut text, 5, 4) else {
        return None;
    };
    let Ok(flat) = reserve.make_flat(&mut text, units) else {
        return None;
    };
    let Ok(rope) = reserve.concat(&mut text, flat, flat) else {
        return None;
    };
    let Ok(()) = text.settle(flat) else {
        return None;
    };
    let Ok(part) = reserve.slice(&mut text, flat, 1, 14) else {
        return None;
    };
    let Ok(none) = reserve.make_flat(&mut text, &[]) else {
        return None;
    };
    let Ok(()) = reserve.claim(&mut text, 0, 3) else {
        return None;
    };
    let Ok(last) = reserve.make_from(&mut text, &Spelling::Latin1(b"in bytes")) else {
        return None;
    };
    let left = (reserve.ids_left(), reserve.words_left());
    let totals = text.totals();
    let ids = [flat.id, rope.id, part.id, none.id, last.id];
    Some(Taken { ids, left, totals })
}

#[test]
fn a_reserve_is_taken_in_order(rt: HostRuntime) {
    let units = [0x61u16; 14];
    let want = Taken {
        ids: [0, 1, 2, 3, 4],
        left: (0, 4),
        totals: (5, 7),
    };
    assert!(&rt; take_five(rt.alloc(), &units) == Some(want));
}

// The ids of a rope and of a slice of a string whose id is greater than the one that is kept, and then that
// of an empty string.
#[tactic(auto, using(heap_reserve::proofs::Kept::reserve_kept))]
fn over_a_younger(alloc: Global, units: &[u16]) -> Option<[u32; 4]>
    requires { length units.now ≡ 14 }
{
    let size = HeapSize {
        ids: 8,
        words: 8,
        slots: 1,
    };
    let Ok((heap, agent)) = Heap::make(alloc, size, 1) else {
        return None;
    };
    let mut text = Text::new(&heap, agent, MAX);
    let mut reserve = Reserve::new(alloc);
    let Ok(()) = reserve.claim(&mut text, 1, 0) else {
        return None;
    };
    let Ok(flat) = text.make_flat(units) else {
        return None;
    };
    let Ok(rope) = reserve.concat(&mut text, flat, flat) else {
        return None;
    };
    let Ok(()) = text.settle(flat) else {
        return None;
    };
    let Ok(part) = reserve.slice(&mut text, flat, 1, 14) else {
        return None;
    };
    let Ok(none) = reserve.make_flat(&mut text, &[]) else {
        return None;
    };
    Some([flat.id, rope.id, part.id, none.id])
}

#[test]
fn a_kept_id_waits_for_older_sides(rt: HostRuntime) {
    let units = [0x61u16; 14];
    assert!(&rt; over_a_younger(rt.alloc(), &units) == Some([1, 2, 3, 0]));
}
