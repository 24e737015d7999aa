// A session by the calls of a store, through the bound, and the limits of length that it is given.
ghost use Rattle.std.specs.Prelude.{◌≤◌, length};

use heap_rule::HeapSize;
use heap_session::Session;
use heap_table::Heap;
use js_store::{Limit, StoreFault, Strings};
use plain_store::PlainStore;
use std::alloc::Global;
use std::process::Abort;
use std::test::Fail;

// Each call of a store but those of interned strings once, through the bound.
fn parts_and_wholes<S: Strings>(rt: &impl Abort, store: &mut S) -> Result<(), Fail> {
    let abc = store.from_units(&[97, 98, 99])?;
    let b = store.slice(abc, 1, 2)?;
    let joined = store.concat(abc, b)?;
    store.settle(joined)?;
    assert_eq!(rt; store.len(joined), 4);
    assert_eq!(rt; store.unit_at(joined, 3), 98);
    Ok(())
}

// Whether two strings of these units are interned as one.
fn are_same<S: Strings>(store: &mut S, left: &[u16], right: &[u16]) -> Result<bool, StoreFault>
    requires short { (length left.now ≤ 100) × (length right.now ≤ 100) }
{
    let left = store.from_units(left)?;
    let right = store.from_units(right)?;
    let a = store.intern(left)?;
    let b = store.intern(right)?;
    Ok(store.same(a, b))
}

#[test]
fn a_session_as_a_store(rt: HostRuntime) -> Result<(), Fail> {
    let size = HeapSize {
        ids: 16,
        words: 16,
        slots: 2,
    };
    let Ok((heap, agent)) = Heap::make(rt.alloc(), size, 1) else {
        panic!(rt; "no heap");
    };
    let mut session = Session::new(&heap, agent, Limit::Bits64);
    parts_and_wholes(&rt, &mut session)?;
    assert!(rt; are_same(&mut session, &[97], &[97])?);
    assert!(rt; !are_same(&mut session, &[97], &[98])?);
    Ok(())
}

// The limit of a session, and of another one by the agent that it had.
fn limits(alloc: Global, limit: Limit) -> Option<(u32, u32)> {
    let size = HeapSize {
        ids: 1,
        words: 1,
        slots: 1,
    };
    let Ok((heap, agent)) = Heap::make(alloc, size, 1) else {
        return None;
    };
    let session = Session::new(&heap, agent, limit);
    let first = session.limit();
    let agent = session.into_agent();
    let again = Session::new(&heap, agent, Limit::Bits64);
    Some((first, again.limit()))
}

#[test]
fn limits_of_length(rt: HostRuntime) {
    for (limit, want) in [(Limit::Bits32, 268435440), (Limit::Bits64, 536870888)] {
        assert_eq!(rt; PlainStore::new(rt.alloc(), limit).limit(), want);
        assert_eq!(rt; limits(rt.alloc(), limit), Some((want, 536870888)));
    }
}
