// Texts that are built up outside any heap, with ample memory.
use heap_build::{Builder, DecodeFault};
use heap_rule::{HeapSize, MAX};
use heap_table::Heap;
use heap_text::Text;
use std::alloc::Global;

// A text to which each kind of units was added; None where anything was refused.
fn added(alloc: Global) -> Option<Builder> {
    let mut text = Builder::new(alloc);
    text.push_units(&[0x61, 0xD800]).ok()?;
    text.push_latin1(&[0x62, 0xFF]).ok()?;
    text.push_utf8(&[0xC3, 0xA9, 0xE2, 0x82, 0xAC, 0xF0, 0x9D, 0x84, 0x9E])
        .ok()?;
    text.push_wtf8(&[0xED, 0xB4, 0x9E, 0xED, 0xA0, 0x80]).ok()?;
    text.push_number(-2147483648).ok()?;
    text.push_number(0).ok()?;
    Some(text)
}

// The same with the units of a string of a heap added twice.
fn with_string(alloc: Global) -> Option<Builder> {
    let size = HeapSize {
        ids: 1,
        words: 1,
        slots: 1,
    };
    let Ok((heap, agent)) = Heap::make(alloc, size, 1) else {
        return None;
    };
    let mut strings = Text::new(&heap, agent, MAX);
    let s = strings.make_flat(&[0x100, 0x78]).ok()?;
    strings.settle(s).ok()?;
    let mut text = Builder::new(alloc);
    text.push_text(&mut strings, s).ok()?;
    text.push_text(&mut strings, s).ok()?;
    Some(text)
}

// The number -2147483648 is 11 units long. A lead and a trail in three bytes each are no WTF-8, and bytes that
// end within a character are no UTF-8.
#[test]
fn texts_of_each_kind(rt: HostRuntime) {
    let Some(mut text) = added(rt.alloc()) else {
        panic!(&rt; "no memory");
    };
    let front = [
        0x61u16, 0xD800, 0x62, 0xFF, 0xE9, 0x20AC, 0xD834, 0xDD1E, 0xDD1E, 0xD800, 0x2D, 0x32,
        0x31, 0x34, 0x37, 0x34, 0x38, 0x33, 0x36, 0x34, 0x38, 0x30,
    ];
    assert!(&rt; text.as_slice() == &front[..]);
    text.clear();
    assert!(&rt; text.as_slice().is_empty());
    let pair = [0x61, 0xED, 0xA0, 0xB4, 0xED, 0xB4, 0x9E];
    assert!(&rt; text.push_wtf8(&pair) == Err(DecodeFault::Malformed { at: 4 }));
    assert!(&rt; text.push_utf8(&pair) == Err(DecodeFault::Malformed { at: 1 }));
    assert!(&rt; text.push_utf8(&[0x61, 0xC3]) == Err(DecodeFault::Malformed { at: 1 }));
    assert!(&rt; text.as_slice().is_empty());
    let Some(text) = with_string(rt.alloc()) else {
        panic!(&rt; "no memory");
    };
    assert!(&rt; text.as_slice() == &[0x100, 0x78, 0x100, 0x78][..]);
}
