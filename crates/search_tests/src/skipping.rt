// Results are the same whether ranges are skipped or not.
use crate::made::SIZE;
use crate::opened::{Documents, Opened, cache_of, open};
use crate::searches::{Wanted, found};
use ri_base::Hit;
use std::alloc::Global;

/// More documents than any of these collections has.
const ALL: u64 = 10_000;

pub static QUERIES: [&str; 11] = [
    "a",
    "e",
    "a b c",
    "#1(a b)",
    "#uw8(a c)",
    "#max(b #combine(a c))",
    "#weight(3 a 1 #1(b c) 2 e)",
    "#filreq(b #combine(a c))",
    "#filrej(e #combine(a b))",
    "#combine[t](a b)",
    "#combine[passage8:6](a c)",
];

/// A collection of two thousand documents, by its number: two parts in files and one in memory, all with deleted documents. Numbers that
/// differ by five have the same shape.
pub fn collection(number: u8) -> Documents {
    let first = SIZE * u32::from(number);
    Documents {
        part: 800,
        first,
        in_files: first + 1600,
        all: first + SIZE,
    }
}

/// 130 documents with the same words, in one part. The bounds of its ranges are equal.
static EQUAL: Documents = Documents {
    part: 130,
    first: 200,
    in_files: 330,
    all: 330,
};

fn is_same_hit(one: &Hit, other: &Hit) -> bool {
    one.docno == other.docno
        && one.begin == other.begin
        && one.end == other.end
        && one.key == other.key
}

fn are_same(these: &[Hit], others: &[Hit]) -> bool {
    if these.len() != others.len() {
        return false;
    }
    for (one, other) in these.iter().zip(others) {
        if !is_same_hit(one, other) {
            return false;
        }
    }
    true
}

/// Whether a query has these results where ranges are skipped, for at most so many and by steps of so many documents.
fn finds(
    alloc: Global,
    opened: &mut Opened,
    text: &str,
    most: u32,
    docs: u64,
    hits: &[Hit],
) -> bool {
    let wanted = Wanted {
        most,
        docs,
        skips: true,
    };
    match found(alloc, opened, text, wanted) {
        Some(found) => are_same(hits, found.as_slice()),
        None => false,
    }
}

/// Whether a query has the same results where ranges are skipped, in one step and in steps of seven.
fn is_same(alloc: Global, opened: &mut Opened, text: &str, most: u32) -> bool {
    let wanted = Wanted {
        most,
        docs: ALL,
        skips: false,
    };
    match found(alloc, opened, text, wanted) {
        Some(whole) => {
            finds(alloc, opened, text, most, ALL, whole.as_slice())
                && finds(alloc, opened, text, most, 7, whole.as_slice())
        }
        None => false,
    }
}

/// What is opened of these documents, with room for all its blocks.
pub fn opened_of(alloc: Global, documents: Documents) -> Option<Opened> {
    let mut opened = open(alloc, documents, Vec::new(alloc))?;
    opened.cache = cache_of(alloc, 1000)?;
    Some(opened)
}

/// Whether each query has the same results, for at most so many.
fn are_all_same(alloc: Global, opened: &mut Opened, counts: &[u32]) -> bool {
    for text in &QUERIES {
        for most in counts {
            if !is_same(alloc, opened, text, *most) {
                return false;
            }
        }
    }
    true
}

/// The same over these documents.
fn are_same_over(alloc: Global, documents: Documents, counts: &[u32]) -> bool {
    match opened_of(alloc, documents) {
        Some(mut opened) => are_all_same(alloc, &mut opened, counts),
        None => false,
    }
}

/// The first of these collections in which a query has other results, if there is one.
fn first_other(alloc: Global, first: u8, last: u8, counts: &[u32]) -> Option<u8> {
    for number in first..=last {
        if !are_same_over(alloc, collection(number), counts) {
            return Some(number);
        }
    }
    None
}

#[test]
fn in_each_shape(rt: HostRuntime) {
    assert_eq!(rt; first_other(rt.alloc(), 1, 5, &[1, 10, 4000]), None);
}

#[test]
fn in_more_collections(rt: HostRuntime) {
    assert_eq!(rt; first_other(rt.alloc(), 6, 20, &[10]), None);
}

#[test]
fn where_bounds_are_equal(rt: HostRuntime) {
    assert!(rt; are_same_over(rt.alloc(), EQUAL, &[1, 40, 86, 100]));
}
