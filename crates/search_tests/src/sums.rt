// Sums over a snapshot, which are kept.
use crate::opened::{Documents, Opened, cache_of, open};
use crate::stats::{counts_of, sums_of};
use counts::Counts;
use ri_base::{ExtentExpr, Name, Term};
use std::alloc::Global;
use store_ends::MemStore;

fn word(alloc: Global, text: &str) -> Option<ExtentExpr> {
    let term = Term::new(alloc, text.as_bytes()).ok()??;
    Some(ExtentExpr::Word(term))
}

fn numbers_of(
    alloc: Global,
    expr: &ExtentExpr,
    context: Option<&Name>,
    generation: u64,
    opened: &mut Opened,
    counts: &mut Counts,
) -> Option<(u64, u64)> {
    let stats = sums_of(alloc, expr, context, generation, opened, counts)?;
    Some((stats.cf, stats.total))
}

/// How often a word occurs, in fields of this name alone where there is one, and in how many words; nothing where that can't be read.
fn told(
    alloc: Global,
    text: &str,
    field: &str,
    generation: u64,
    opened: &mut Opened,
    counts: &mut Counts,
) -> Option<(u64, u64)> {
    let expr = word(alloc, text)?;
    let name = Name::new(alloc, field.as_bytes()).ok()?;
    numbers_of(alloc, &expr, name.as_ref(), generation, opened, counts)
}

/// A word, the name of a field or nothing, a generation, and the sums.
type Row = (&'static str, &'static str, u64, Option<(u64, u64)>);

/// Whether all rows are told so.
fn are_told(alloc: Global, opened: &mut Opened, counts: &mut Counts, rows: &[Row]) -> bool {
    for (text, field, generation, wanted) in rows {
        if told(alloc, text, field, *generation, opened, counts) != *wanted {
            return false;
        }
    }
    true
}

/// Six live documents with the words `a b c`, `c a a b`, `b c`, `c c a`, `c` and `a`, the first one of each in a field `t`.
static DOCUMENTS: Documents = Documents {
    part: 3,
    first: 0,
    in_files: 6,
    all: 9,
};

static SUMS: [Row; 8] = [
    ("b", "", 7, Some((3, 14))),
    ("c", "", 7, Some((6, 14))),
    ("e", "", 7, Some((0, 14))),
    ("a", "t", 7, Some((2, 6))),
    ("b", "t", 7, Some((1, 6))),
    ("c", "t", 7, Some((3, 6))),
    ("a", "h", 7, Some((0, 0))),
    ("a", "", 7, Some((5, 14))),
];

/// The sums where there is no file any more and no block is kept. One that is kept needs no file. For another generation and another
/// word they are wanted, but not for a word that no part has.
static LATER: [Row; 4] = [
    ("a", "", 7, Some((5, 14))),
    ("a", "", 8, None),
    ("b", "", 7, None),
    ("e", "", 7, Some((0, 14))),
];

/// Whether all these rows are told so.
fn are_kept(alloc: Global, opened: &mut Opened, counts: &mut Counts) -> Option<bool> {
    if !are_told(alloc, opened, counts, &SUMS) {
        return Some(false);
    }
    opened.store = MemStore::new(alloc, Vec::new(alloc), Vec::new(alloc));
    opened.cache = cache_of(alloc, 1)?;
    Some(are_told(alloc, opened, counts, &LATER))
}

fn are_right(alloc: Global) -> Option<bool> {
    let mut opened = open(alloc, DOCUMENTS, Vec::new(alloc))?;
    let mut counts = counts_of(alloc)?;
    are_kept(alloc, &mut opened, &mut counts)
}

#[test]
fn live_documents_alone(rt: HostRuntime) {
    assert!(rt; are_right(rt.alloc()) == Some(true));
}
