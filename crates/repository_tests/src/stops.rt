// Each call of the store fails in each way where files are written.
use crate::deeds::{Deed, Row, Seen, Told, seen_behind};
use crate::files::{
    FIRST, File, HALF, HOME, MANIFEST, MARKED, ONE, PRIOR_THREE, PRIOR_TWO, SEGMENT, STALE, THIRD,
    files_of,
};
use repository::create;
use std::alloc::{AllocError, Global};
use store_ends::{Left, MemStore, StoreFail};

/// Files, what is done with their repository, how many calls of the store that makes, and what is seen of the old and the new
/// collection.
struct Case {
    files: &'static [File],
    rows: &'static [Row],
    calls: u64,
    old: Seen,
    new: Seen,
}

/// A flush of two parts, one of a mark alone, a prior that is set, one that is replaced, a sweep, without and with a document to be
/// saved, a merge that leaves a dead document out, and one in turns that makes two segments. The first six calls open the repository,
/// and the last ones read the prior, where there is one.
static CASES: [Case; 8] = [
    Case {
        files: &[(MANIFEST, ONE), (FIRST, SEGMENT)],
        rows: &[
            (Deed::Add("d3", 1), Told::Done),
            (Deed::Add("d4", 1), Told::Done),
            (Deed::Add("d5", 1), Told::Done),
            (Deed::Delete("d1"), Told::Done),
            (Deed::Flush, Told::Done),
        ],
        calls: 9,
        old: (2, None),
        new: (4, None),
    },
    Case {
        files: &[(MANIFEST, ONE), (FIRST, SEGMENT)],
        rows: &[(Deed::Delete("d1"), Told::Done), (Deed::Flush, Told::Done)],
        calls: 7,
        old: (2, None),
        new: (1, None),
    },
    Case {
        files: &[(MANIFEST, ONE), (FIRST, SEGMENT)],
        rows: &[(Deed::Prior(HALF), Told::Done)],
        calls: 10,
        old: (2, None),
        new: (2, Some((1, 2))),
    },
    Case {
        files: &[(MANIFEST, HOME), (FIRST, SEGMENT), (PRIOR_TWO, HALF)],
        rows: &[(Deed::Prior(THIRD), Told::Done)],
        calls: 10,
        old: (1, Some((1, 2))),
        new: (1, Some((1, 3))),
    },
    Case {
        files: &[
            (MANIFEST, STALE),
            (FIRST, SEGMENT),
            (PRIOR_TWO, HALF),
            (PRIOR_THREE, THIRD),
        ],
        rows: &[(Deed::Sweep, Told::Done)],
        calls: 11,
        old: (1, Some((1, 3))),
        new: (1, Some((1, 3))),
    },
    Case {
        files: &[
            (MANIFEST, STALE),
            (FIRST, SEGMENT),
            (PRIOR_TWO, HALF),
            (PRIOR_THREE, THIRD),
        ],
        rows: &[(Deed::Add("d3", 1), Told::Done), (Deed::Sweep, Told::Done)],
        calls: 12,
        old: (1, Some((1, 3))),
        new: (2, Some((1, 3))),
    },
    Case {
        files: &[(MANIFEST, MARKED), (FIRST, SEGMENT)],
        rows: &[(Deed::Merge, Told::Done)],
        calls: 10,
        old: (1, None),
        new: (1, None),
    },
    Case {
        files: &[(MANIFEST, ONE), (FIRST, SEGMENT)],
        rows: &[
            (Deed::Delete("d1"), Told::Done),
            (Deed::Add("d3", 1), Told::Done),
            (Deed::Add("d4", 1), Told::Done),
            (Deed::Begin, Told::Count(3)),
            (Deed::Turn(9), Told::Done),
        ],
        calls: 11,
        old: (2, None),
        new: (3, None),
    },
];

/// A store with these files, in which this call fails and leaves its file so.
fn failing(alloc: Global, files: &[File], call: u64, left: Left) -> Result<MemStore, AllocError> {
    let mut fails = Vec::new(alloc);
    fails.push(StoreFail { call, left })?;
    Ok(MemStore::new(alloc, files_of(alloc, files)?, fails))
}

/// What is seen behind the rows of the case, and what where its files are opened again then.
fn seen_twice(alloc: Global, case: &Case, call: u64, left: Left) -> (Option<Seen>, Option<Seen>) {
    match failing(alloc, case.files, call, left) {
        Ok(mut store) => (
            seen_behind(alloc, &mut store, case.rows),
            seen_behind(alloc, &mut store, &[]),
        ),
        Err(_) => (None, None),
    }
}

/// Whether the call fails, and leaves the old collection or the new one.
fn leaves_either(alloc: Global, case: &Case, call: u64, left: Left) -> bool {
    match seen_twice(alloc, case, call, left) {
        (None, Some(seen)) => seen == case.old || seen == case.new,
        _ => false,
    }
}

/// The first half of a segment is left.
fn half(alloc: Global) -> Left {
    match SEGMENT[..77].to_vec(alloc) {
        Ok(bytes) => Left::Torn(bytes),
        Err(_) => Left::Old,
    }
}

/// The same in whichever way it fails.
fn leaves_either_way(alloc: Global, case: &Case, call: u64) -> bool {
    leaves_either(alloc, case, call, Left::Old)
        && leaves_either(alloc, case, call, Left::New)
        && leaves_either(alloc, case, call, Left::Torn(Vec::new(alloc)))
        && leaves_either(alloc, case, call, half(alloc))
}

/// Whether the new collection is left where no call fails: none has the number 0, and the one behind all of them opens the files again.
fn leaves_new(alloc: Global, case: &Case) -> bool {
    let (first, again) = seen_twice(alloc, case, case.calls.saturating_add(1), Left::Old);
    seen_twice(alloc, case, 0, Left::Old) == (Some(case.new), Some(case.new))
        && first == Some(case.new)
        && again.is_none()
}

#[test]
fn each_call_fails_in_each_way(rt: HostRuntime) {
    for case in &CASES {
        for call in 1..=case.calls {
            assert!(rt; leaves_either_way(rt.alloc(), case, call), "{call}");
        }
        assert!(rt; leaves_new(rt.alloc(), case));
    }
}

/// Whether a repository is made where this call fails, and what is seen of it then.
fn made(alloc: Global, call: u64, left: Left) -> (Option<bool>, Option<Seen>) {
    match failing(alloc, &[], call, left) {
        Ok(mut store) => (
            create(alloc, &mut store).ok(),
            seen_behind(alloc, &mut store, &[]),
        ),
        Err(_) => (None, None),
    }
}

// The two calls are the length of the manifest and its replacement.
#[test]
fn each_call_of_create_fails_in_each_way(rt: HostRuntime) {
    assert!(rt; made(rt.alloc(), 1, Left::New) == (None, None));
    assert!(rt; made(rt.alloc(), 2, Left::Old) == (None, None));
    assert!(rt; made(rt.alloc(), 2, Left::New) == (None, Some((0, None))));
    assert!(rt; made(rt.alloc(), 2, half(rt.alloc())) == (None, None));
    assert!(rt; made(rt.alloc(), 0, Left::Old) == (Some(true), Some((0, None))));
}
