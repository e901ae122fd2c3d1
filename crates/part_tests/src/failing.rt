// A store that fails once, at each call in turn. The same calls once more read what is there.
use crate::places::are_read;
use crate::segment::{BYTES, store_of};
use std::alloc::Global;
use store_ends::{Left, StoreFail};

/// The calls of a store: the opening asks for the length, and then for header, documents and dictionary. Each of the two blocks is one.
const CALLS: u64 = 6;

fn failing_at(alloc: Global, call: u64) -> Option<Vec<StoreFail>> {
    let left = Left::Old;
    let mut fails = Vec::new(alloc);
    fails.push(StoreFail { call, left }).ok()?;
    Some(fails)
}

/// What is read where this call fails, with room for so many blocks.
fn reading(alloc: Global, call: u64, slots: usize) -> Option<bool> {
    let fails = failing_at(alloc, call)?;
    let mut store = store_of(alloc, &BYTES, fails).ok()?;
    are_read(alloc, &mut store, slots)
}

// With room for one block the first one is read once more, with room for both none is.
#[test]
fn kept_blocks_are_not_read(rt: HostRuntime) {
    assert!(rt; reading(rt.alloc(), CALLS + 1, 1).is_none());
    assert!(rt; reading(rt.alloc(), CALLS + 2, 1) == Some(true));
    assert!(rt; reading(rt.alloc(), CALLS + 1, 2) == Some(true));
}

/// What is read where this call fails, and what is read then.
fn readings(alloc: Global, call: u64) -> Option<(Option<bool>, Option<bool>)> {
    let fails = failing_at(alloc, call)?;
    let mut store = store_of(alloc, &BYTES, fails).ok()?;
    let first = are_read(alloc, &mut store, 2);
    Some((first, are_read(alloc, &mut store, 2)))
}

#[test]
fn at_each_call(rt: HostRuntime) {
    for call in 1..=CALLS {
        assert!(rt;
            readings(rt.alloc(), call) == Some((None, Some(true))),
            "{call}"
        );
    }
    // the next call is the first one of the second reading
    assert!(rt; readings(rt.alloc(), CALLS + 1) == Some((Some(true), None)));
}
