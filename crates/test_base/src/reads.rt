// Units of two strings that are read in turn, since a session keeps some of each.
ghost use Rattle.std.specs.Prelude.{◌≡◌, ◌<◌, length};
ghost use Rattle.js_store.specs.State.{IsKnown, IsSettled, text};

use heap_rule::HeapSize;
use heap_session::Session;
use heap_table::Heap;
use js_store::{Limit, StoreFault, Strings};
use plain_store::PlainStore;
use std::alloc::Global;
use std::test::Fail;

const SIZE: HeapSize = HeapSize {
    ids: 2,
    words: 10,
    slots: 1,
};

const LETTERS: [u16; 20] = [
    97, 98, 99, 100, 101, 102, 103, 104, 105, 106, 107, 108, 109, 110, 111, 112, 113, 114, 115, 255,
];

const CAPITALS: [u16; 20] = [
    65, 66, 67, 68, 69, 70, 71, 72, 73, 74, 75, 76, 77, 78, 79, 80, 81, 82, 83, 0,
];

const WIDE: [u16; 20] = [
    256, 1, 65535, 3, 4, 5, 6, 55296, 8, 9, 56320, 11, 12, 13, 14, 15, 16, 17, 18, 65534,
];

// From 0 to 19, and then from there to 0.
fn there_and_back(turn: u32) -> u32
    requires { turn < 40 }
    ensures { result < 20 }
{
    if turn < 20 { turn } else { 39 - turn }
}

// Whether the strings have these units, where one of each is read in turn, forwards and backwards.
fn read_in_turn<S: Strings>(
    store: &mut S,
    a: S::Ref,
    b: S::Ref,
    left: &[u16],
    right: &[u16],
) -> bool
    requires left_known { IsKnown (S.state store.old) (S.number a) }
    requires left_settled { IsSettled (S.state store.old) (S.number a) }
    requires left_long { length (text (S.state store.old) (S.number a)) ≡ 20 }
    requires right_known { IsKnown (S.state store.old) (S.number b) }
    requires right_settled { IsSettled (S.state store.old) (S.number b) }
    requires right_long { length (text (S.state store.old) (S.number b)) ≡ 20 }
    requires lists { (length left.now ≡ 20) × (length right.now ≡ 20) }
{
    for turn in 0u32..40 {
        let i = there_and_back(turn);
        if store.unit_at(a, i) != left[i as usize] {
            return false;
        }
        if store.unit_at(b, i) != right[i as usize] {
            return false;
        }
    }
    true
}

// Whether two strings of these units have them when they are read.
fn made_and_read<S: Strings>(store: &mut S, left: &[u16], right: &[u16]) -> Result<bool, StoreFault>
    requires lists { (length left.now ≡ 20) × (length right.now ≡ 20) }
{
    let a = store.from_units(left)?;
    let b = store.from_units(right)?;
    Ok(read_in_turn(store, a, b, left, right))
}

// The same of a session.
fn read_by_a_session(alloc: Global, left: &[u16], right: &[u16]) -> Result<bool, StoreFault>
    requires lists { (length left.now ≡ 20) × (length right.now ≡ 20) }
{
    let Ok((heap, agent)) = Heap::make(alloc, SIZE, 1) else {
        return Ok(false);
    };
    let mut session = Session::new(&heap, agent, Limit::Bits64);
    made_and_read(&mut session, left, right)
}

#[test]
fn units_read_in_turn(rt: HostRuntime) -> Result<(), Fail> {
    let alloc = rt.alloc();
    let mut plain = PlainStore::new(alloc, Limit::Bits64);
    assert!(rt; made_and_read(&mut plain, LETTERS.as_slice(), WIDE.as_slice())?);
    assert!(rt; read_by_a_session(alloc, LETTERS.as_slice(), CAPITALS.as_slice())?);
    assert!(rt; read_by_a_session(alloc, LETTERS.as_slice(), WIDE.as_slice())?);
    assert!(rt; read_by_a_session(alloc, WIDE.as_slice(), WIDE.as_slice())?);
    Ok(())
}
