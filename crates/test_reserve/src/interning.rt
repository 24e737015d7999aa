// Units that are interned with what their agent claimed in advance.
ghost use Rattle.std.specs.Prelude.{◌≡◌, ◌≤◌, length};
ghost use Rattle.heap_intern.specs.Keys.{IsKey};
ghost use Rattle.heap_reserve.specs.Reserves.{IsReserve};
ghost use Rattle.heap_table.specs.Agents.{view_of};

use heap_bytes::Spelling;
use heap_intern::{Key, KeySearch, StringSearch, TableFull, search_key, search_string};
use heap_reserve::Reserve;
use heap_rule::{HeapSize, MAX};
use heap_table::Heap;
use heap_text::{JsStr, Text, TextFull};
use std::alloc::Global;

// What was answered, what is left of the reserve, and a string that is made without it.
#[derive(Clone, Copy, PartialEq, Eq)]
struct Interned {
    answers: [Result<u32, TableFull>; 4],
    left: (usize, u32),
    next: Result<JsStr, TextFull>,
}

// The interned string of a key, which takes what is kept.
#[tactic(auto, using(heap_intern::proofs::Hashes::no_hashes))]
fn intern_one(text: &mut Text<&Heap>, reserve: &mut Reserve, key: &Key) -> Result<u32, TableFull>
    requires reserve { IsReserve (view_of text.old.reader.agent) reserve.old }
    requires key { IsKey key.now }
    ensures { IsReserve (view_of text.new.reader.agent) reserve.new }
{
    match search_key(&mut text.reader, key, &mut []) {
        KeySearch::Found(seat) => Ok(seat.id),
        KeySearch::Open(opening) => reserve.intern_at(text, key, opening, &mut []),
        KeySearch::Shut { slots } => Err(TableFull::Slots { slots }),
    }
}

// Two keys that take what is kept, one that is there by then, and one behind them.
fn intern_four(alloc: Global, slots: u32, last: &[u16]) -> Option<Interned>
    requires { length last.now ≤ 1 }
{
    let size = HeapSize {
        ids: 8,
        words: 8,
        slots,
    };
    let Ok((heap, agent)) = Heap::make(alloc, size, 1) else {
        return None;
    };
    let mut text = Text::new(&heap, agent, MAX);
    let mut reserve = Reserve::new(alloc);
    let Ok(()) = reserve.claim(&mut text, 3, 2) else {
        return None;
    };
    let narrow = intern_one(&mut text, &mut reserve, &Key::Units(&[0x61, 0x62]));
    let again = intern_one(
        &mut text,
        &mut reserve,
        &Key::Spelled(Spelling::Latin1(b"ab")),
    );
    let wide = intern_one(&mut text, &mut reserve, &Key::Units(&[0x100]));
    let end = intern_one(&mut text, &mut reserve, &Key::Units(last));
    let left = (reserve.ids_left(), reserve.words_left());
    let next = text.make_flat(&[]);
    Some(Interned {
        answers: [narrow, again, wide, end],
        left,
        next,
    })
}

#[test]
fn keys_take_what_is_kept(rt: HostRuntime) {
    let claimed = Interned {
        answers: [Ok(0), Ok(0), Ok(1), Ok(3)],
        left: (1, 0),
        next: Ok(JsStr { id: 4 }),
    };
    assert!(&rt; intern_four(rt.alloc(), 4, &[0x63]) == Some(claimed));
    let empty = Interned {
        answers: [Ok(0), Ok(0), Ok(1), Ok(2)],
        left: (0, 0),
        next: Ok(JsStr { id: 3 }),
    };
    assert!(&rt; intern_four(rt.alloc(), 4, &[]) == Some(empty));
    let full = TableFull::Slots { slots: 1 };
    let kept = Interned {
        answers: [Ok(0), Ok(0), Err(full), Err(full)],
        left: (2, 1),
        next: Ok(JsStr { id: 3 }),
    };
    assert!(&rt; intern_four(rt.alloc(), 1, &[0x63]) == Some(kept));
}

// A key that is looked for before anything is claimed, and then takes what was: its string, what is left, and
// whether it is found afterwards.
#[tactic(auto, using(heap_intern::proofs::Hashes::no_hashes))]
fn intern_opened(
    alloc: Global,
    ids: u32,
    words: u32,
) -> Option<(Result<u32, TableFull>, (usize, u32), bool)> {
    let size = HeapSize {
        ids: 8,
        words: 8,
        slots: 4,
    };
    let Ok((heap, agent)) = Heap::make(alloc, size, 1) else {
        return None;
    };
    let mut text = Text::new(&heap, agent, MAX);
    let mut reserve = Reserve::new(alloc);
    let key = Key::Units(&[0x61, 0x62]);
    let KeySearch::Open(opening) = search_key(&mut text.reader, &key, &mut []) else {
        return None;
    };
    let Ok(()) = reserve.claim(&mut text, ids, words) else {
        return None;
    };
    let answer = reserve.intern_at(&mut text, &key, opening, &mut []);
    let left = (reserve.ids_left(), reserve.words_left());
    let found = match search_key(&mut text.reader, &key, &mut []) {
        KeySearch::Found(seat) => answer == Ok(seat.id),
        KeySearch::Open(_) => false,
        KeySearch::Shut { .. } => false,
    };
    Some((answer, left, found))
}

#[test]
fn an_opening_takes_what_is_kept(rt: HostRuntime) {
    assert!(&rt; intern_opened(rt.alloc(), 3, 2) == Some((Ok(0), (2, 1), true)));
    assert!(&rt; intern_opened(rt.alloc(), 3, 0) == Some((Ok(3), (3, 0), true)));
}

// What was answered, what is left of the reserve, and whether the string is found.
#[derive(Clone, Copy, PartialEq, Eq)]
struct StringAnswer {
    answer: Result<u32, TableFull>,
    left: (usize, u32),
    found: bool,
}

// A string of 14 units, or a part of it, that is looked for before anything is claimed, and then takes what was.
#[tactic(auto, using(heap_intern::proofs::Hashes::no_hashes))]
fn intern_string(alloc: Global, from: u32, kept: (u32, u32), units: &[u16]) -> Option<StringAnswer>
    requires long { length units.now ≡ 14 }
    requires part { from ≤ 1 }
{
    let size = HeapSize {
        ids: 8,
        words: 8,
        slots: 4,
    };
    let Ok((heap, agent)) = Heap::make(alloc, size, 1) else {
        return None;
    };
    let mut text = Text::new(&heap, agent, MAX);
    let Ok(flat) = text.make_flat(units) else {
        return None;
    };
    let Ok(part) = text.slice(flat, from, 14) else {
        return None;
    };
    let mut reserve = Reserve::new(alloc);
    let StringSearch::Open(opening) = search_string(&mut text.reader, part.id, &mut [], &mut [])
    else {
        return None;
    };
    let Ok(()) = reserve.claim(&mut text, kept.0, kept.1) else {
        return None;
    };
    let answer = reserve.intern_string_at(&mut text, opening, &mut [], &mut []);
    let left = (reserve.ids_left(), reserve.words_left());
    let key = Key::Units(&units[from as usize..]);
    let found = match search_key(&mut text.reader, &key, &mut []) {
        KeySearch::Found(seat) => answer == Ok(seat.id),
        KeySearch::Open(_) => false,
        KeySearch::Shut { .. } => false,
    };
    Some(StringAnswer {
        answer,
        left,
        found,
    })
}

fn answered_by(answer: Result<u32, TableFull>, left: (usize, u32)) -> StringAnswer {
    StringAnswer {
        answer,
        left,
        found: true,
    }
}

#[test]
fn a_string_takes_what_is_kept(rt: HostRuntime) {
    let units = [0x61u16; 14];
    let whole = intern_string(rt.alloc(), 0, (3, 2), &units);
    assert!(&rt; whole == Some(answered_by(Ok(1), (2, 2))));
    let part = intern_string(rt.alloc(), 1, (3, 2), &units);
    assert!(&rt; part == Some(answered_by(Ok(2), (2, 0))));
    let few_words = intern_string(rt.alloc(), 1, (3, 1), &units);
    assert!(&rt; few_words == Some(answered_by(Ok(5), (3, 1))));
    let none = intern_string(rt.alloc(), 0, (0, 0), &units);
    assert!(&rt; none == Some(answered_by(Ok(1), (0, 0))));
}
