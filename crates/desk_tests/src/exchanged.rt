// A segment's file that is exchanged while a desk stands over it.
use crate::files::{EMPTY, store_of};
use crate::session::{limits_of, session};
use crate::stops::{Way, fail_of};
use std::alloc::Global;

/// Blocks are read by their first use. The results are shown without a call of the store.
static SESSION: &str = "> add d1 a b
added d1 2
> add d2 a
added d2 1
> flush
flushed 2
> exchange
> scan #1(b a)
d1 0 2
scanned 1
> open q 5 #1(b a)
opened q 2
> step q 2
stepped q 2 of 2
> show q
results q 1
1 - -1.169925 d1 0 2
> flush
fault
";

/// The calls before the last one, which is to fail.
const BEFORE: u64 = 8;

/// Whether the session goes so.
fn is_right(alloc: Global) -> Option<bool> {
    let fails = fail_of(alloc, BEFORE + 1, Way::Old)?;
    let mut store = store_of(alloc, EMPTY, fails)?;
    let found = session(alloc, &mut store, limits_of(100, 100, 100), SESSION)?;
    Some(found.as_slice() == SESSION.as_bytes())
}

#[test]
fn a_segment_is_exchanged(rt: HostRuntime) {
    assert_eq!(rt; is_right(rt.alloc()), Some(true));
}
