// Repositories in which documents are added and deleted while a merge is open.
use crate::deeds::{Deed, Row, Told, are_answered};
use holdings::Limits;
use repository::create;
use std::alloc::Global;
use store_ends::MemStore;

/// At most how many documents a part has, and how many are held; what is done with a repository in which nothing is; and what is
/// answered where its files are opened again.
struct Session {
    part_docs: u32,
    held_docs: u64,
    rows: &'static [Row],
    again: &'static [Row],
}

static SESSIONS: [Session; 7] = [
    // The dead of the start are no longer held.
    Session {
        part_docs: 2,
        held_docs: 3,
        rows: &[
            (Deed::Add("d1", 1), Told::Done),
            (Deed::Add("d2", 1), Told::Done),
            (Deed::Add("d3", 1), Told::Done),
            (Deed::Add("d4", 1), Told::Full),
            (Deed::Delete("d1"), Told::Done),
            (Deed::Add("d4", 1), Told::Full),
            (Deed::Begin, Told::Count(2)),
            (Deed::Turn(2), Told::Done),
            (Deed::Add("d4", 1), Told::Done),
            (Deed::Flush, Told::Done),
        ],
        again: &[
            (Deed::Live, Told::Count(3)),
            (Deed::Add("d5", 1), Told::Full),
            (Deed::Add("d2", 1), Told::Repeated),
            (Deed::Delete("d1"), Told::Absent),
            (Deed::Delete("d4"), Told::Done),
        ],
    },
    // A document is deleted once it is copied, and added again.
    Session {
        part_docs: 100,
        held_docs: 100,
        rows: &[
            (Deed::Add("d1", 1), Told::Done),
            (Deed::Add("d2", 1), Told::Done),
            (Deed::Begin, Told::Count(2)),
            (Deed::Turn(1), Told::Open(1, 2)),
            (Deed::Delete("d1"), Told::Done),
            (Deed::Add("d1", 1), Told::Done),
            (Deed::Turn(1), Told::Done),
            (Deed::Live, Told::Count(2)),
        ],
        again: &[
            (Deed::Live, Told::Count(2)),
            (Deed::Delete("d1"), Told::Done),
            (Deed::Delete("d1"), Told::Absent),
            (Deed::Delete("d2"), Told::Done),
        ],
    },
    // A document is deleted and added again before it is copied, behind that, and before the last turn.
    Session {
        part_docs: 2,
        held_docs: 6,
        rows: &[
            (Deed::Add("d1", 1), Told::Done),
            (Deed::Add("d2", 1), Told::Done),
            (Deed::Add("d3", 1), Told::Done),
            (Deed::Begin, Told::Count(3)),
            (Deed::Delete("d2"), Told::Done),
            (Deed::Add("d2", 1), Told::Done),
            (Deed::Add("d2", 1), Told::Repeated),
            (Deed::Turn(2), Told::Open(2, 3)),
            (Deed::Delete("d1"), Told::Done),
            (Deed::Add("d1", 1), Told::Done),
            (Deed::Delete("d3"), Told::Done),
            (Deed::Add("d3", 1), Told::Done),
            (Deed::Add("d4", 1), Told::Full),
            (Deed::Turn(1), Told::Done),
            (Deed::Live, Told::Count(3)),
            (Deed::Add("d4", 1), Told::Full),
            (Deed::Begin, Told::Count(3)),
            (Deed::Turn(3), Told::Done),
            (Deed::Add("d4", 1), Told::Done),
            (Deed::Flush, Told::Done),
        ],
        again: &[
            (Deed::Live, Told::Count(4)),
            (Deed::Delete("d1"), Told::Done),
            (Deed::Delete("d2"), Told::Done),
            (Deed::Delete("d3"), Told::Done),
            (Deed::Delete("d4"), Told::Done),
            (Deed::Delete("d1"), Told::Absent),
        ],
    },
    // There is nothing to copy, or all that was added is dead.
    Session {
        part_docs: 100,
        held_docs: 2,
        rows: &[
            (Deed::Begin, Told::Count(0)),
            (Deed::Turn(1), Told::Done),
            (Deed::Add("d1", 1), Told::Done),
            (Deed::Flush, Told::Done),
            (Deed::Add("d2", 1), Told::Done),
            (Deed::Delete("d1"), Told::Done),
            (Deed::Delete("d2"), Told::Done),
            (Deed::Begin, Told::Count(0)),
            (Deed::Turn(7), Told::Done),
            (Deed::Add("d1", 1), Told::Done),
            (Deed::Add("d2", 1), Told::Done),
            (Deed::Flush, Told::Done),
        ],
        again: &[(Deed::Live, Told::Count(2))],
    },
    // A merge is given up, and another one is opened.
    Session {
        part_docs: 100,
        held_docs: 100,
        rows: &[
            (Deed::Turn(1), Told::Refused),
            (Deed::Add("d1", 1), Told::Done),
            (Deed::Add("d2", 1), Told::Done),
            (Deed::Begin, Told::Count(2)),
            (Deed::Begin, Told::Refused),
            (Deed::Turn(1), Told::Open(1, 2)),
            (Deed::GiveUp, Told::Done),
            (Deed::Turn(1), Told::Refused),
            (Deed::Add("d3", 1), Told::Done),
            (Deed::Begin, Told::Count(3)),
            (Deed::Turn(5), Told::Done),
        ],
        again: &[
            (Deed::Live, Told::Count(3)),
            (Deed::Delete("d3"), Told::Done),
        ],
    },
    // Parts in memory are written between two turns, and stale files removed; documents are deleted before they are copied, behind
    // that, and at the last turn.
    Session {
        part_docs: 2,
        held_docs: 100,
        rows: &[
            (Deed::Add("d1", 1), Told::Done),
            (Deed::Add("d2", 1), Told::Done),
            (Deed::Add("d3", 1), Told::Done),
            (Deed::Flush, Told::Done),
            (Deed::Add("d4", 1), Told::Done),
            (Deed::Add("d5", 1), Told::Done),
            (Deed::Delete("d2"), Told::Done),
            (Deed::Begin, Told::Count(4)),
            (Deed::Turn(1), Told::Open(1, 4)),
            (Deed::Flush, Told::Done),
            (Deed::Delete("d1"), Told::Done),
            (Deed::Add("d2", 1), Told::Done),
            (Deed::Delete("d4"), Told::Done),
            (Deed::Turn(2), Told::Open(3, 4)),
            (Deed::Sweep, Told::Done),
            (Deed::Delete("d5"), Told::Done),
            (Deed::Add("d5", 1), Told::Done),
            (Deed::Turn(1), Told::Done),
            (Deed::Live, Told::Count(3)),
            (Deed::Sweep, Told::Done),
        ],
        again: &[
            (Deed::Live, Told::Count(3)),
            (Deed::Delete("d1"), Told::Absent),
            (Deed::Delete("d4"), Told::Absent),
            (Deed::Delete("d2"), Told::Done),
            (Deed::Delete("d3"), Told::Done),
            (Deed::Delete("d5"), Told::Done),
        ],
    },
    // What was deleted before it was copied stays deleted in the new parts, where nothing is added behind them.
    Session {
        part_docs: 2,
        held_docs: 3,
        rows: &[
            (Deed::Add("d1", 1), Told::Done),
            (Deed::Add("d2", 1), Told::Done),
            (Deed::Add("d3", 1), Told::Done),
            (Deed::Begin, Told::Count(3)),
            (Deed::Delete("d3"), Told::Done),
            (Deed::Turn(3), Told::Done),
            (Deed::Add("d4", 1), Told::Full),
            (Deed::Begin, Told::Count(2)),
            (Deed::Turn(3), Told::Done),
            (Deed::Add("d4", 1), Told::Done),
        ],
        again: &[
            (Deed::Live, Told::Count(2)),
            (Deed::Delete("d3"), Told::Absent),
        ],
    },
];

/// At most so many documents a part and so many in all, a hundred each at most, and eight words.
fn limits_of(session: &Session) -> Limits {
    Limits {
        part_docs: session.part_docs.clamp(1, 100),
        held_docs: session.held_docs.min(100),
        held_tokens: 8,
    }
}

/// Whether the rows of a session are answered so over these files, and those behind it.
fn is_right_over(alloc: Global, store: &mut MemStore, session: &Session) -> bool {
    let limits = limits_of(session);
    are_answered(alloc, store, limits, session.rows)
        && are_answered(alloc, store, limits, session.again)
}

/// The same over a repository in which nothing is.
fn is_right(alloc: Global, session: &Session) -> bool {
    let mut store = MemStore::new(alloc, Vec::new(alloc), Vec::new(alloc));
    create(alloc, &mut store).ok() == Some(true) && is_right_over(alloc, &mut store, session)
}

/// The first session in which something else is answered, if there is one.
fn first_wrong(alloc: Global) -> Option<usize> {
    for (i, session) in SESSIONS.iter().enumerate() {
        if !is_right(alloc, session) {
            return Some(i);
        }
    }
    None
}

#[test]
fn documents_change_while_a_merge_is_open(rt: HostRuntime) {
    assert_eq!(rt; first_wrong(rt.alloc()), None);
}
