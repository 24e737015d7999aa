// Strings that are interned in turn with what their agent keeps: new ones, others with the same units, and with
// no slot left for them.
ghost use Rattle.std.specs.Prelude.{◌≤◌, length};
ghost use Rattle.heap_reserve.specs.Reserves.{IsReserve};
ghost use Rattle.heap_table.specs.Agents.{view_of};

use heap_intern::{StringSearch, TableFull, search_string};
use heap_reserve::Reserve;
use heap_rule::{HeapSize, MAX};
use heap_table::Heap;
use heap_text::{JsStr, Text, TextFull};
use std::alloc::Global;

// What was answered, what is left of the reserve, and a string that is made without it.
#[derive(Clone, Copy, PartialEq, Eq)]
struct InTurn {
    answers: [Result<u32, TableFull>; 5],
    left: (usize, u32),
    next: Result<JsStr, TextFull>,
}

// A string with these units is made beside the reserve, and interned with what is kept.
#[tactic(auto, using(heap_intern::proofs::Hashes::no_hashes))]
fn intern_made(
    text: &mut Text<&Heap>,
    reserve: &mut Reserve,
    units: &[u16],
) -> Option<Result<u32, TableFull>>
    requires reserve { IsReserve (view_of text.old.reader.agent) reserve.old }
    requires short { length units.now ≤ 8 }
    ensures { IsReserve (view_of text.new.reader.agent) reserve.new }
{
    let Ok(s) = text.make_flat(units) else {
        return None;
    };
    match search_string(&mut text.reader, s.id, &mut [], &mut []) {
        StringSearch::Found(seat) => Some(Ok(seat.id)),
        StringSearch::Open(opening) => {
            Some(reserve.intern_string_at(text, opening, &mut [], &mut []))
        }
        StringSearch::Shut { slots } => Some(Err(TableFull::Slots { slots })),
    }
}

// Two strings with the same unit and three with others, of which the last comes once more ids are kept.
fn intern_five(alloc: Global, slots: u32) -> Option<InTurn> {
    let size = HeapSize {
        ids: 16,
        words: 16,
        slots,
    };
    let Ok((heap, agent)) = Heap::make(alloc, size, 1) else {
        return None;
    };
    let mut text = Text::new(&heap, agent, MAX);
    let mut reserve = Reserve::new(alloc);
    let Ok(()) = reserve.claim(&mut text, 2, 0) else {
        return None;
    };
    let first = intern_made(&mut text, &mut reserve, &[0x61])?;
    let again = intern_made(&mut text, &mut reserve, &[0x61])?;
    let second = intern_made(&mut text, &mut reserve, &[0x62])?;
    let third = intern_made(&mut text, &mut reserve, &[0x63])?;
    let Ok(()) = reserve.claim(&mut text, 2, 0) else {
        return None;
    };
    let last = intern_made(&mut text, &mut reserve, &[0x64])?;
    let left = (reserve.ids_left(), reserve.words_left());
    let next = text.make_flat(&[]);
    Some(InTurn {
        answers: [first, again, second, third, last],
        left,
        next,
    })
}

// Ids 0 and 1 are kept, and 7 and 8 once both were taken; the third string claims id 6.
#[test]
fn a_hit_takes_nothing_and_a_reserve_renews(rt: HostRuntime) {
    let want = InTurn {
        answers: [Ok(0), Ok(0), Ok(1), Ok(6), Ok(7)],
        left: (1, 0),
        next: Ok(JsStr { id: 10 }),
    };
    assert!(&rt; intern_five(rt.alloc(), 8) == Some(want));
}

// Ids 1, 6 and 7 stay.
#[test]
fn a_full_table_takes_nothing(rt: HostRuntime) {
    let full = Err(TableFull::Slots { slots: 1 });
    let want = InTurn {
        answers: [Ok(0), Ok(0), full, full, full],
        left: (3, 0),
        next: Ok(JsStr { id: 9 }),
    };
    assert!(&rt; intern_five(rt.alloc(), 1) == Some(want));
}
