// Documents and priors that stay, in memory and in a folder.
use crate::deeds::{Deed, Row, Seen, Told, seen_behind};
use crate::files::{
    AT_END, ENDED, FIFTH, FIRST, FOURTH, File, HALF, HOME, MANIFEST, MARKED, MERGED, MERGED_ALONE,
    ONE, PRIOR_THREE, PRIOR_TWO, SECOND, SEGMENT, STALE, SWEPT, THIRD, TURNED, are_left, files_of,
    put_all,
};
use repository::create;
use std::alloc::Global;
use std::fs;
use store_ends::{FolderStore, MemStore, Store};

/// What is done with a repository that is opened, what is seen of it then, and files behind it.
type Step = (&'static [Row], Seen, &'static [File]);

/// Each step begins with what the one before left.
static STEPS: [Step; 8] = [
    (
        &[
            (Deed::Add("d1", 2), Told::Done),
            (Deed::Add("d2", 1), Told::Done),
            (Deed::Add("d1", 1), Told::Repeated),
            (Deed::Flush, Told::Done),
        ],
        (2, None),
        &[(MANIFEST, ONE), (FIRST, SEGMENT), (SECOND, b"")],
    ),
    (
        &[
            (Deed::Delete("d1"), Told::Done),
            (Deed::Delete("d1"), Told::Absent),
            (Deed::Flush, Told::Done),
        ],
        (1, None),
        &[(MANIFEST, MARKED), (FIRST, SEGMENT)],
    ),
    (
        &[(Deed::Prior(HALF), Told::Done)],
        (1, Some((1, 2))),
        &[(MANIFEST, HOME), (FIRST, SEGMENT), (PRIOR_TWO, HALF)],
    ),
    (
        &[(Deed::Prior(THIRD), Told::Done)],
        (1, Some((1, 3))),
        &[(MANIFEST, STALE), (PRIOR_TWO, HALF), (PRIOR_THREE, THIRD)],
    ),
    (
        &[(Deed::Sweep, Told::Done)],
        (1, Some((1, 3))),
        &[
            (MANIFEST, SWEPT),
            (FIRST, SEGMENT),
            (PRIOR_TWO, b""),
            (PRIOR_THREE, THIRD),
        ],
    ),
    (
        &[(Deed::Add("d1", 1), Told::Done), (Deed::Flush, Told::Done)],
        (2, Some((1, 3))),
        &[(FIRST, SEGMENT), (PRIOR_THREE, THIRD)],
    ),
    (
        &[(Deed::Merge, Told::Done)],
        (2, Some((1, 3))),
        &[
            (MANIFEST, MERGED),
            (FIRST, SEGMENT),
            (FIFTH, TURNED),
            (PRIOR_THREE, THIRD),
        ],
    ),
    (
        &[
            (Deed::Sweep, Told::Done),
            (Deed::Add("d1", 1), Told::Repeated),
        ],
        (2, Some((1, 3))),
        &[
            (MANIFEST, MERGED_ALONE),
            (FIRST, b""),
            (FOURTH, b""),
            (FIFTH, TURNED),
            (PRIOR_THREE, THIRD),
        ],
    ),
];

/// Whether each step goes so.
fn are_right<S: Store>(alloc: Global, store: &mut S, steps: &[Step]) -> bool {
    for (rows, seen, files) in steps {
        if seen_behind(alloc, store, rows) != Some(*seen) || !are_left(store, files) {
            return false;
        }
    }
    true
}

/// Whether they go so once a repository is made.
fn are_right_once_made<S: Store>(alloc: Global, store: &mut S) -> bool {
    create(alloc, store).ok() == Some(true) && are_right(alloc, store, &STEPS)
}

fn are_right_in_memory(alloc: Global) -> bool {
    let mut store = MemStore::new(alloc, Vec::new(alloc), Vec::new(alloc));
    are_right_once_made(alloc, &mut store)
}

/// Files that no manifest lists.
static OTHERS: [File; 3] = [
    ("note", b"x"),
    ("seg-00000000000000ff", SEGMENT),
    ("pri-00000000000000ff", b""),
];

/// Whether the steps go so where other files are there, one of them with the name of the first segment, and leave these.
fn are_right_beside_others<S: Store>(alloc: Global, store: &mut S) -> bool {
    put_all(store, &OTHERS)
        && put_all(store, &[(FIRST, b"x")])
        && are_right_once_made(alloc, store)
        && are_left(store, &OTHERS)
}

fn are_right_beside_others_in_memory(alloc: Global) -> bool {
    let mut store = MemStore::new(alloc, Vec::new(alloc), Vec::new(alloc));
    are_right_beside_others(alloc, &mut store)
}

#[test]
fn in_memory(rt: HostRuntime) {
    assert!(rt; are_right_in_memory(rt.alloc()));
    assert!(rt; are_right_beside_others_in_memory(rt.alloc()));
}

fn are_right_in(rt: &HostRuntime, path: &str) -> bool {
    match FolderStore::new(rt, path) {
        Ok(mut store) => are_right_beside_others(rt.alloc(), &mut store),
        Err(_) => false,
    }
}

#[test]
fn in_a_folder(rt: HostRuntime) {
    assert!(rt; fs::create_dir(&rt, "steps").is_ok());
    assert!(rt; are_right_in(&rt, "steps"));
}

/// Files get the least numbers that are free.
static LAST: [Step; 1] = [(
    &[
        (Deed::Add("d1", 2), Told::Done),
        (Deed::Add("d2", 1), Told::Done),
        (Deed::Flush, Told::Done),
        (Deed::Prior(HALF), Told::Done),
    ],
    (2, Some((1, 2))),
    &[(MANIFEST, ENDED), (FIRST, SEGMENT), (PRIOR_TWO, HALF)],
)];

fn are_right_at_the_end(alloc: Global) -> Option<bool> {
    let files = files_of(alloc, &[(MANIFEST, AT_END)]).ok()?;
    let mut store = MemStore::new(alloc, files, Vec::new(alloc));
    Some(are_right(alloc, &mut store, &LAST))
}

#[test]
fn numbers_at_their_end(rt: HostRuntime) {
    assert!(rt; are_right_at_the_end(rt.alloc()) == Some(true));
}
