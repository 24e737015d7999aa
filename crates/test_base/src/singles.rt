// Strings of one unit, of which a session makes that of each unit below 256 once.
use heap_rule::HeapSize;
use heap_session::Session;
use heap_table::Heap;
use heap_text::JsStr;
use js_store::{Limit, Strings};
use std::test::Fail;

// The second one is 256 more than the first.
const UNITS: [u16; 4] = [97, 353, 97, 98];

// There is room for four strings of a content word each: the first unit uses an id once, and no
// other unit has its string.
#[test]
fn one_unit_cut_again(rt: HostRuntime) -> Result<(), Fail> {
    let size = HeapSize {
        ids: 4,
        words: 4,
        slots: 1,
    };
    let (heap, agent) = Heap::make(rt.alloc(), size, 1)?;
    let mut session = Session::new(&heap, agent, Limit::Bits64);
    let whole = session.from_units(&UNITS)?;
    let first = session.slice(whole, 0, 1)?;
    let second = session.slice(whole, 1, 2)?;
    let third = session.slice(whole, 2, 3)?;
    let fourth = session.slice(whole, 3, 4)?;
    let made = session.from_units(&[97])?;
    let at = |id| JsStr { id };
    let want = [at(1), at(2), at(1), at(3), at(1)];
    assert!(rt; [first, second, third, fourth, made] == want);
    Ok(())
}
