// Orders of results that were worked out by hand.
use crate::opened::{Documents, Opened, open};
use crate::searches::{Row, Wanted, is_order};
use std::alloc::Global;

/// The documents 0, 2, 3, 5, 6 and 8 are live. They have the words `a b c`, `c a a b`, `b c`, `c c a`, `c` and `a`, 14 together, and
/// the docnos `d1000`, `d998`, `d997`, `d995`, `d994` and `d992`. The first word of each is a field `t`. Of `a`, with 5 of the 14
/// words, the beliefs are 19/28, 33/70, twice 19/56, and 5/42 and 5/28 without it. Of `b` they are 17/42, 17/56, 17/70, and 3/56 and
/// 3/28; of `c` 5/7, 17/28, 10/21, 5/14 and 2/7. In the last row each passage has one or two words: `a b` twice, `b`, `a` twice, `a a`,
/// `b c` twice and `c a` twice, with the products of their beliefs 323, 191.25, 128.25, 99, 85 and 57 over 1764.
static ORDERS: [Row; 11] = [
    ("a", "d992 d998 d1000 d995"),
    ("b", "d997 d1000 d998"),
    ("c", "d994 d995 d997 d1000 d998"),
    ("e", ""),
    ("a b", "d998 d1000 d992 d997 d995"),
    ("#weight(1 a 2 a)", "d992 d998 d1000 d995"),
    ("#1(a b)", "d1000 d998"),
    ("#filreq(a #combine(b c))", "d1000 d998 d995"),
    ("#filrej(a c)", "d994 d997"),
    ("#combine[t](a b)", "d997 d1000 d992"),
    (
        "#combine[passage2:1](a b)",
        "d1000 d998 d998 d992 d995 d998 d1000 d997 d995 d998",
    ),
];

/// In memory, in files, and in both.
static NINE: [Documents; 3] = [
    Documents {
        part: 9,
        first: 0,
        in_files: 0,
        all: 9,
    },
    Documents {
        part: 9,
        first: 0,
        in_files: 9,
        all: 9,
    },
    Documents {
        part: 3,
        first: 0,
        in_files: 6,
        all: 9,
    },
];

/// Of more documents, which have the same words again and again, two have `e`.
static MANY: Documents = Documents {
    part: 130,
    first: 0,
    in_files: 130,
    all: 130,
};

static RARE: [Row; 2] = [("e", "d871 d931"), ("x", "")];

/// 130 documents with the same words, of which 87 are live.
static EQUAL: Documents = Documents {
    part: 65,
    first: 200,
    in_files: 265,
    all: 330,
};

/// The first of these by their docnos.
static TIES: [Row; 2] = [
    (
        "a",
        "d671 d673 d674 d676 d677 d679 d680 d682 d683 d685 d686",
    ),
    (
        "#1(a b)",
        "d671 d673 d674 d676 d677 d679 d680 d682 d683 d685 d686",
    ),
];

/// Whether a query has these results where one is asked for, where as many as the row has, and where one more; eleven at most.
fn is_right(alloc: Global, opened: &mut Opened, row: &Row, docs: u64, skips: bool) -> bool {
    let (_, docnos) = row;
    let count = docnos.split_whitespace().count().min(11) as u32;
    for most in [1, count, (count + 1).min(11)] {
        let wanted = Wanted { most, docs, skips };
        if is_order(alloc, opened, row, wanted) != Some(true) {
            return false;
        }
    }
    true
}

/// Whether these rows have their results, by steps of so many documents.
fn rows_are_right(alloc: Global, opened: &mut Opened, rows: &[Row], docs: u64) -> bool {
    for row in rows {
        if !is_right(alloc, opened, row, docs, false) || !is_right(alloc, opened, row, docs, true) {
            return false;
        }
    }
    true
}

/// Whether these rows have their results, by whatever steps, whether ranges are skipped or not.
fn are_right(alloc: Global, documents: Documents, rows: &[Row]) -> bool {
    let Some(mut opened) = open(alloc, documents, Vec::new(alloc)) else {
        return false;
    };
    for docs in [1, 2, 3, 7, 1000] {
        if !rows_are_right(alloc, &mut opened, rows, docs) {
            return false;
        }
    }
    true
}

#[test]
fn by_hand(rt: HostRuntime) {
    for documents in &NINE {
        assert!(rt; are_right(rt.alloc(), *documents, &ORDERS));
    }
    assert!(rt; are_right(rt.alloc(), MANY, &RARE));
    assert!(rt; are_right(rt.alloc(), EQUAL, &TIES));
}
