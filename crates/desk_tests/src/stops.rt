// Each call of the store fails in each way.
use crate::files::{EMPTY, store_of};
use crate::session::{limits_of, session};
use std::alloc::Global;
use store_ends::{Left, MemStore, StoreFail};

/// A session in which each event is done. The first segment holds `d1` and `d2` at first.
static SESSION: &str = "> add d1 x a
added d1 2
> add d2 x b
added d2 2
> add d3 x a b
added d3 3
> open p 5 b
opened p 3
> flush
flushed 3
> open q 5 a
opened q 3
> open r 5 b
opened r 3
> step r 3
stepped r 3 of 3
> delete d1
deleted d1
> add d4 x
added d4 1
> merge
merging 3
> turn 1
turned 1 of 3
> step q 2
stepped q 2 of 3
> step q 1
stepped q 3 of 3
> show q
results q 2
1 - -1.222392 d1 0 2
2 > -1.637429 d3 0 3
> explain q 2
result 2 d3 0 3
scale 1
leaf 1 \"a\" tf 1 len 3 cf 2 total 7 belief 18/56
at 1 2
score -1.637429
> scan x
d2 0 1
d3 0 1
d4 0 1
scanned 3
> flush
flushed 3
> delete d2
deleted d2
> turn 9
merged 2
> close q
closed q
> add d1 x
added d1 1
> end
ended 3
";

/// What a scan for the word that each document has replies where the files are opened again: at first, and behind each event that writes.
static KEPT: [&str; 5] = [
    "> scan x
scanned 0
",
    "> scan x
d1 0 1
d2 0 1
d3 0 1
scanned 3
",
    "> scan x
d2 0 1
d3 0 1
d4 0 1
scanned 3
",
    "> scan x
d3 0 1
d4 0 1
scanned 2
",
    "> scan x
d3 0 1
d4 0 1
d1 0 1
scanned 3
",
];

/// What a call that fails leaves: the file as it was, as it is to be, without bytes, or with the first ones of a segment.
#[derive(Clone, Copy)]
pub enum Way {
    Old,
    New,
    Empty,
    Front,
}

static WAYS: [Way; 4] = [Way::Old, Way::New, Way::Empty, Way::Front];

pub fn fail_of(alloc: Global, call: u64, way: Way) -> Option<Vec<StoreFail>> {
    let left = match way {
        Way::Old => Left::Old,
        Way::New => Left::New,
        Way::Empty => Left::Torn(Vec::new(alloc)),
        Way::Front => Left::Torn(b"indriseg".to_vec(alloc).ok()?),
    };
    let mut fails = Vec::new(alloc);
    fails.push(StoreFail { call, left }).ok()?;
    Some(fails)
}

/// How many of the events that write were done before the one that failed, and whether that one writes; nothing where no event failed,
/// where an earlier reply is another one, or where the desk may be used behind that.
fn written_before(found: &str) -> Option<(usize, bool)> {
    let (done, rest) = found.split_once("fault\n")?;
    for line in rest.lines() {
        if line != "unusable" && !line.starts_with("> ") {
            return None;
        }
    }
    if !SESSION.starts_with(done) {
        return None;
    }
    let count = done
        .lines()
        .filter(|line| line.starts_with("flushed") || line.starts_with("merged"))
        .count();
    let writes = done.ends_with("> flush\n")
        || done.ends_with("> turn 9\n")
        || done.ends_with("> end\n");
    Some((count, writes))
}

/// Whether what is kept behind so many events that write is found so where the files are opened again.
fn is_kept(found: &[u8], count: usize) -> bool {
    match KEPT.get(count) {
        Some(kept) => found == kept.as_bytes(),
        None => false,
    }
}

/// Whether this call, where it fails in this way, breaks the session off and leaves the old collection or the new one.
fn leaves_either(alloc: Global, call: u64, way: Way) -> Option<bool> {
    let limits = limits_of(2, 100, 100);
    let mut store = store_of(alloc, EMPTY, fail_of(alloc, call, way)?)?;
    let found = session(alloc, &mut store, limits, SESSION)?;
    let (count, writes) = written_before(std::str::from_utf8(&found).ok()?)?;
    let again = session(alloc, &mut store, limits, "> scan x\n")?;
    Some(is_kept(&again, count) || (writes && is_kept(&again, count.saturating_add(1))))
}

/// The same in whichever way it fails.
fn leaves_either_way(alloc: Global, call: u64) -> bool {
    WAYS.iter()
        .all(|way| leaves_either(alloc, call, *way) == Some(true))
}

/// Whether the session goes to its end where this call is to fail.
fn is_whole(alloc: Global, call: u64) -> Option<bool> {
    let mut store = store_of(alloc, EMPTY, fail_of(alloc, call, Way::Old)?)?;
    let found = session(alloc, &mut store, limits_of(2, 100, 100), SESSION)?;
    Some(found.as_slice() == SESSION.as_bytes())
}

/// The calls before the first event: they put the manifest and open the repository.
const BEFORE: u64 = 3;

/// The calls of the session.
const CALLS: u64 = 24;

#[test]
fn each_call_fails_in_each_way(rt: HostRuntime) {
    for call in BEFORE + 1..=BEFORE + CALLS {
        assert!(rt; leaves_either_way(rt.alloc(), call), "{call}");
    }
    assert_eq!(rt; is_whole(rt.alloc(), BEFORE + CALLS + 1), Some(true));
}
