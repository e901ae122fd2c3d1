// Sessions: lines that are done, which begin with `> `, and the replies to them.
use crate::files::{EMPTY, File, WITH_HOME, store_of};
use crate::session::{limits_of, session};
use std::alloc::Global;

/// The files of a collection, how many documents a part has at most, how many documents and tokens are held at most, and a session.
type Row = (&'static [File], (u32, u64, u64), &'static str);

const LARGE: (u32, u64, u64) = (100, 100, 100);

const SMALL: (u32, u64, u64) = (2, 3, 8);

/// Documents come and go, within small limits and while a query goes on.
static DOCUMENTS: [Row; 2] = [
    (
        EMPTY,
        SMALL,
        "> add d1 a
added d1 1
> add d2 a
added d2 1
> add d3 a
added d3 1
> add d4 a
refused CollectionFull d4
> delete d1
deleted d1
> add d4 a
refused CollectionFull d4
> merge
merging 2
> turn 2
merged 2
> add d4 a
added d4 1
> scan a
d2 0 1
d3 0 1
d4 0 1
scanned 3
> end
ended 3
> flush
unusable
",
    ),
    (
        WITH_HOME,
        LARGE,
        "> add d1 a b
added d1 2
> add d2 a
added d2 1
> open q 5 a #prior(home)
opened q 2
> delete d1
deleted d1
> add d3 a
added d3 1
> flush
flushed 2
> step q 2
stepped q 2 of 2
> show q
results q 2
1 - -0.923998 d1 0 2
2 > -1.131517 d2 0 1
> explain q 2
result 2 d2 0 1
scale 2
leaf 1 \"a\" tf 1 len 1 cf 2 total 3 belief 10/12
at 0 1
prior 2 home belief 1/4
score -1.131517
",
    ),
];

/// Each refusal, with what is just not refused.
static REFUSALS: [Row; 6] = [
    // names
    (
        EMPTY,
        LARGE,
        "> step q 1
refused NoSuchName q
> show q
refused NoSuchName q
> explain q 1
refused NoSuchName q
> close q
refused NoSuchName q
> open q 1 a
opened q 0
> open q 1 a
refused NameTaken q
> open p 1 a
opened p 0
> close q
closed q
> step q 1
refused NoSuchName q
> show p
results p 0
> open q 1 a
opened q 0
> end
ended 0
",
    ),
    // work that is left, and ranks
    (
        EMPTY,
        LARGE,
        "> add d1 a
added d1 1
> add d2 a
added d2 1
> add d3 b
added d3 1
> open q 5 a
opened q 3
> open p 1 a
opened p 3
> show q
refused NotYet q
> explain q 1
refused NotYet q
> step q 2
stepped q 2 of 3
> show q
refused NotYet q
> explain q 9
refused NotYet q
> step q 1
stepped q 3 of 3
> show q
results q 2
1 - -0.263034 d1 0 1
2 = -0.263034 d2 0 1
> explain q 2
result 2 d2 0 1
scale 1
leaf 1 \"a\" tf 1 len 1 cf 2 total 3 belief 10/12
at 0 1
score -0.263034
> explain q 3
refused NoSuchRank q
> step p 4294967295
stepped p 3 of 3
> explain p 1
result 1 d1 0 1
scale 1
leaf 1 \"a\" tf 1 len 1 cf 2 total 3 belief 10/12
at 0 1
score -0.263034
> explain p 2
refused NoSuchRank p
",
    ),
    // sixteen queries
    (
        EMPTY,
        LARGE,
        "> open q1 1 a
opened q1 0
> open q2 1 a
opened q2 0
> open q3 1 a
opened q3 0
> open q4 1 a
opened q4 0
> open q5 1 a
opened q5 0
> open q6 1 a
opened q6 0
> open q7 1 a
opened q7 0
> open q8 1 a
opened q8 0
> open q9 1 a
opened q9 0
> open q10 1 a
opened q10 0
> open q11 1 a
opened q11 0
> open q12 1 a
opened q12 0
> open q13 1 a
opened q13 0
> open q14 1 a
opened q14 0
> open q15 1 a
opened q15 0
> open q16 1 a
opened q16 0
> open q17 1 a
refused DeskFull q17
> open q16 1 a
refused NameTaken q16
> open q17 1 #0()
refused Query BadNumber 1
> open q17 1 #prior(length)
refused Check NoLeaf
> close q8
closed q8
> show q7
results q7 0
> show q9
results q9 0
> open q17 1 a
opened q17 0
> open q8 1 a
refused DeskFull q8
",
    ),
    // merges
    (
        EMPTY,
        LARGE,
        "> turn 1
refused NoMerge
> add d1 a
added d1 1
> add d2 a
added d2 1
> merge
merging 2
> merge
refused MergeOpen
> turn 1
turned 1 of 2
> merge
refused MergeOpen
> turn 1
merged 2
> turn 1
refused NoMerge
> merge
merging 2
> end
ended 2
",
    ),
    // documents
    (
        EMPTY,
        SMALL,
        "> delete d1
refused NoSuchDoc d1
> add d1 a b
added d1 2
> add d1 a
refused Repeated d1
> delete d2
refused NoSuchDoc d2
> delete d1
deleted d1
> delete d1
refused NoSuchDoc d1
> add d1 a a a a a a a
refused CollectionFull d1
> add d1 a a a a a
added d1 5
> add d2 a b
refused CollectionFull d2
> add d2 a
added d2 1
> add d2 a a a
refused Repeated d2
> add d3 a
refused CollectionFull d3
",
    ),
    // texts
    (
        WITH_HOME,
        LARGE,
        "> open q 1 #weight(0 a 0 b)
refused Check NoWeight
> open q 1 #weight(1 a 0 b)
opened q 0
> open q 1 #prior(home)
refused Check NoLeaf
> open p 1 a #prior(work)
refused Check UnknownPrior work
> open p 1 a #prior(home)
opened p 0
> open r 1 #weight(1.073741823 #weight(1.073741823 a 0.000000001 b) 0.000000001 c)
refused Check ScaleTooLarge
> open r 1 #weight(1.073741824 #weight(1.073741822 a 0.000000001 b) 0.000000001 c)
opened r 0
> open s 1 #1(a
refused Query Expected 4
> open s 1 #1(a)
opened s 0
> scan #1(a
refused Query Expected 4
> scan #prior(home)
refused Query Expected 0
> scan #1(a)
scanned 0
",
    ),
];

/// Whether the session of a row goes so.
fn is_right(alloc: Global, row: &Row) -> Option<bool> {
    let (files, (part_docs, held_docs, held_tokens), wanted) = row;
    let mut store = store_of(alloc, files, Vec::new(alloc))?;
    let limits = limits_of(*part_docs, *held_docs, *held_tokens);
    let found = session(alloc, &mut store, limits, wanted)?;
    Some(found.as_slice() == wanted.as_bytes())
}

/// The first of these rows that goes otherwise, if there is one.
fn first_wrong(alloc: Global, rows: &[Row]) -> Option<usize> {
    for (i, row) in rows.iter().enumerate() {
        if is_right(alloc, row) != Some(true) {
            return Some(i);
        }
    }
    None
}

#[test]
fn documents_come_and_go(rt: HostRuntime) {
    assert_eq!(rt; first_wrong(rt.alloc(), &DOCUMENTS), None);
}

#[test]
fn refusals(rt: HostRuntime) {
    assert_eq!(rt; first_wrong(rt.alloc(), &REFUSALS), None);
}
