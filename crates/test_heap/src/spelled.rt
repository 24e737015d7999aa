// Strings made, interned and found straight from bytes, with ample memory.
ghost use Rattle.std.specs.Prelude.{◌≤◌, length};
ghost use Rattle.heap_rule.specs.Layout.{MAX};
ghost use Rattle.heap_bytes.specs.Spellings.{IsReadable, spelling_units};

use heap_build::Builder;
use heap_bytes::{Encoding, Spelling};
use heap_intern::{Key, KeySearch, find_from, intern_key_at, intern_units, search_key};
use heap_rule::{HeapSize, MAX};
use heap_table::Heap;
use heap_text::Text;
use std::alloc::{AllocError, Global};

// The units of a string that is made from bytes, read from the heap; none where anything was refused.
fn made(alloc: Global, text: &mut Text<&Heap>, source: &Spelling) -> Option<Builder>
    requires read { IsReadable source.now }
    requires short { length (spelling_units source.now) ≤ MAX }
{
    let s = text.make_from(source).ok()?;
    text.settle(s).ok()?;
    let mut copy = Builder::new(alloc);
    copy.push_text(text, s).ok()?;
    Some(copy)
}

// The interned string of the units that bytes spell; none where it was refused.
#[tactic(auto, using(heap_intern::proofs::Hashes::no_hashes))]
fn intern_from(text: &mut Text<&Heap>, source: &Spelling) -> Option<u32>
    requires read { IsReadable source.now }
    requires short { length (spelling_units source.now) ≤ MAX }
{
    let key = Key::Spelled(*source);
    match search_key(&mut text.reader, &key, &mut []) {
        KeySearch::Found(seat) => Some(seat.id),
        KeySearch::Open(opening) => {
            intern_key_at(&mut text.reader, &key, opening, None, &mut []).ok()
        }
        KeySearch::Shut { .. } => None,
    }
}

// Whether bytes are made, interned and found as these units are.
#[tactic(auto, using(heap_intern::proofs::Hashes::no_hashes))]
fn is_like(alloc: Global, units: &Builder, source: &Spelling) -> bool
    requires read { IsReadable source.now }
    requires short { length (spelling_units source.now) ≤ MAX }
{
    let size = HeapSize {
        ids: 3,
        words: 200,
        slots: 2,
    };
    let Ok((heap, agent)) = Heap::make(alloc, size, 1) else {
        return false;
    };
    let mut text = Text::new(&heap, agent, MAX);
    let Some(copy) = made(alloc, &mut text, source) else {
        return false;
    };
    if copy.as_slice() != units.as_slice() || find_from(&mut text.reader, source).is_some() {
        return false;
    }
    let Some(first) = intern_from(&mut text, source) else {
        return false;
    };
    let Ok(second) = intern_units(&mut text.reader, units.as_slice(), &mut []) else {
        return false;
    };
    first == second.id && find_from(&mut text.reader, source) == Some(first)
}

// So many letters, and then other bytes.
fn letters(alloc: Global, count: u32, last: &[u8]) -> Result<Vec<u8>, AllocError> {
    let mut bytes = Vec::new(alloc);
    for i in 0..count {
        bytes.push(0x61 + (i % 26) as u8)?;
    }
    bytes.extend_from_slice(last)?;
    Ok(bytes)
}

// Whether so many letters and the bytes behind them are made, interned and found as a text with the units that
// they spell is.
fn is_like_wtf8(alloc: Global, count: u32, last: &[u8]) -> bool {
    let Ok(bytes) = letters(alloc, count, last) else {
        return false;
    };
    if bytes.len() > MAX as usize {
        return false;
    }
    let mut units = Builder::new(alloc);
    if units.push_wtf8(bytes.as_slice()).is_err() {
        return false;
    }
    match Spelling::read(Encoding::Wtf8, bytes.as_slice()) {
        Ok(source) => is_like(alloc, &units, &source),
        Err(_) => false,
    }
}

// The same of Latin-1.
fn is_like_latin1(alloc: Global, count: u32, last: &[u8]) -> bool {
    let Ok(bytes) = letters(alloc, count, last) else {
        return false;
    };
    if bytes.len() > MAX as usize {
        return false;
    }
    let mut units = Builder::new(alloc);
    if units.push_latin1(bytes.as_slice()).is_err() {
        return false;
    }
    let source = Spelling::Latin1(bytes.as_slice());
    is_like(alloc, &units, &source)
}

// The longest has four pieces.
#[test]
fn lengths_about_a_word_and_a_piece(rt: HostRuntime) {
    for count in [0u32, 1, 8, 9, 63, 64, 65, 200] {
        assert!(&rt; is_like_latin1(rt.alloc(), count, &[]));
        assert!(&rt; is_like_latin1(rt.alloc(), count, &[0xFF]));
        assert!(&rt; is_like_wtf8(rt.alloc(), count, &[]));
    }
}

// A euro sign, U+1D11E as a pair, and each half of the pair, before and behind the end of a piece.
#[test]
fn wide_units_about_the_end_of_a_piece(rt: HostRuntime) {
    for count in [0u32, 61, 62, 63, 64, 65, 127, 128, 200] {
        assert!(&rt; is_like_wtf8(rt.alloc(), count, &[0xE2, 0x82, 0xAC]));
        assert!(&rt;
            is_like_wtf8(
                rt.alloc(),
                count,
                &[0xC3, 0xBF, 0xF0, 0x9D, 0x84, 0x9E, 0x7A]
            )
        );
        assert!(&rt;
            is_like_wtf8(
                rt.alloc(),
                count,
                &[0xED, 0xA0, 0xB4, 0x7A, 0xED, 0xB4, 0x9E]
            )
        );
    }
}

// The place of a fault is shown with no heap there. A pair in three bytes each is no WTF-8.
#[test]
fn bytes_that_spell_nothing(rt: HostRuntime) {
    let pair = [0x61, 0xED, 0xA0, 0xB4, 0xED, 0xB4, 0x9E];
    assert!(&rt; Spelling::read(Encoding::Wtf8, &pair).err() == Some(4));
    assert!(&rt; Spelling::read(Encoding::Utf8, &pair).err() == Some(1));
    assert!(&rt; Spelling::read(Encoding::Utf8, &[0x61, 0xC3]).err() == Some(1));
}

// Whether a heap with room for one word refuses nine bytes as it does nine units.
fn refuses_alike(alloc: Global) -> bool {
    let size = HeapSize {
        ids: 1,
        words: 1,
        slots: 1,
    };
    let Ok((heap, agent)) = Heap::make(alloc, size, 1) else {
        return false;
    };
    let mut text = Text::new(&heap, agent, MAX);
    let by_bytes = text.make_from(&Spelling::Latin1(b"abcdefghi")).err();
    let by_units = text
        .make_flat(&[97, 98, 99, 100, 101, 102, 103, 104, 105])
        .err();
    by_bytes.is_some() && by_bytes == by_units
}

#[test]
fn full_heap(rt: HostRuntime) {
    assert!(&rt; refuses_alike(rt.alloc()));
}
