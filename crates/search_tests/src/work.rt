// What searches spend, with tables of the ranges and without, against what they may spend at most.
ghost use Rattle.std.specs.Prelude.{◌<◌};

use crate::opened::Opened;
use crate::searches::{Spending, Wanted, found, spending_of};
use crate::skipping::{QUERIES, collection, opened_of};
use std::alloc::Global;

/// More candidates than any of these collections has.
const ALL: u32 = 100_000;

/// Ranges, and those that are passed over; blocks that are opened, and at most; squarings that are done, and at most.
type Counts = [u64; 6];

/// The shapes of the collections, and what queries spend together over four of each, for ten results and in steps of seven, where their
/// searches have tables of the ranges.
static ROWS: [(&str, Counts); 5] = [
    (
        "lengths and words in no order",
        [1452, 0, 2704, 3432, 921_516, 921_672],
    ),
    (
        "documents that grow",
        [1452, 343, 2310, 2811, 1_247_916, 1_474_152],
    ),
    (
        "stretches with most of the words",
        [1452, 782, 1280, 1525, 297_080, 534_776],
    ),
    (
        "one document in fifty",
        [1452, 109, 2338, 3154, 70_796, 88_940],
    ),
    (
        "documents alike",
        [1452, 0, 2704, 3432, 1_189_604, 1_190_060],
    ),
];

/// Adds the counts of others.
fn add(counts: &mut Counts, others: Counts) {
    for place in 0..6 {
        counts[place] = counts[place].saturating_add(others[place]);
    }
}

/// Whether no more is spent than may be.
fn is_within(counts: Counts) -> bool {
    let [ranges, passed, opened, most_opened, squared, most_squared] = counts;
    passed <= ranges && opened <= most_opened && squared <= most_squared
}

/// How many ranges of 64 ids the parts of a snapshot have. Each has a live document.
fn ranges_of(opened: &Opened) -> u64 {
    let parts = opened.snapshot.parts();
    parts
        .iter()
        .map(|part| u64::from(part.part().docs().div_ceil(64)))
        .fold(0, |sum: u64, count| sum.saturating_add(count))
}

fn spending(alloc: Global, opened: &mut Opened, text: &str, skips: bool) -> Option<Spending> {
    let wanted = Wanted {
        most: 10,
        docs: 7,
        skips,
    };
    spending_of(alloc, opened, text, wanted)
}

/// How many candidates a query has.
fn candidates(alloc: Global, opened: &mut Opened, text: &str) -> Option<u64> {
    let wanted = Wanted {
        most: ALL,
        docs: 10_000,
        skips: false,
    };
    Some(found(alloc, opened, text, wanted)?.len() as u64)
}

/// Twelve squarings a leaf of so many candidates and ranges.
fn early(leaves: usize, count: u64) -> Option<u64> {
    count.checked_mul(leaves as u64)?.checked_mul(12)
}

/// What a query spends; nothing where a call fails, or where the numbers aren't those of what is seen from outside: the blocks that are
/// held at the end, and, without tables, twelve squarings a leaf of each candidate.
fn counts_of(alloc: Global, opened: &mut Opened, text: &str) -> Option<Counts> {
    let ranges = ranges_of(opened);
    let count = candidates(alloc, opened, text)?;
    let passing = spending(alloc, opened, text, false)?;
    let skipping = spending(alloc, opened, text, true)?;
    let leaves = skipping.leaves;
    let late = passing.squared.checked_sub(early(leaves, count)?)?;
    let is_told = passing.passed == 0
        && passing.opened == passing.held as u64
        && skipping.opened == skipping.held as u64
        && skipping.opened <= passing.opened;
    if !is_told {
        return None;
    }
    let left = ranges.checked_sub(skipping.passed)?;
    Some([
        ranges,
        skipping.passed,
        skipping.opened,
        left.checked_mul(skipping.terms as u64)?,
        skipping.squared,
        early(leaves, ranges.checked_add(count)?)?.checked_add(late)?,
    ])
}

/// Adds what all queries spend over the collection of a number.
fn add_collection(alloc: Global, counts: &mut Counts, number: u8) -> Option<()> {
    let mut opened = opened_of(alloc, collection(number))?;
    for text in &QUERIES {
        add(counts, counts_of(alloc, &mut opened, text)?);
    }
    Some(())
}

/// What all queries spend over the four collections of the shape in a row.
fn counts_of_row(alloc: Global, row: u8) -> Option<Counts>
    requires { row < 5 }
{
    let mut counts = [0; 6];
    for round in 0..4u8 {
        add_collection(alloc, &mut counts, 1 + row + 5 * round)?;
    }
    Some(counts)
}

#[test]
fn no_more_than_may_be(rt: HostRuntime) {
    for row in 0..5u8 {
        let (shape, wanted) = ROWS[row as usize];
        let counts = counts_of_row(rt.alloc(), row);
        assert!(rt; is_within(wanted));
        assert!(rt; counts == Some(wanted), "{shape}: {counts:?}");
    }
}
