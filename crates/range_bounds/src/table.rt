// The table of the ranges of a part.
ghost use Rattle.std.specs.Prelude.{◌≡◌, is_some};
ghost use Rattle.std.specs.Option.{option_copied};
ghost use Rattle.range_bounds.specs.Tables.{counts_at, has_counts};

use crate::range_counts::RangeCounts;
use indexmap::IndexSet;
use ri_base::{Name, Term};

/// For each range of 64 ids of a part what is counted of its documents, marked ones included, or nothing where no leaf of the query can occur.
pub struct RangeTable {
    pub(crate) terms: IndexSet<Term>,
    pub(crate) names: IndexSet<Name>,
    pub(crate) ranges: Vec<Option<RangeCounts>>,
}

impl Drop for RangeTable {
    fn drop(self) {
        let RangeTable {
            terms,
            names,
            ranges,
        } = self;
        drop(terms);
        drop(names);
        drop(ranges);
    }
}

impl RangeTable {
    /// The table of ranges with these counts, of these terms and of the fields of these names.
    pub fn new(
        terms: IndexSet<Term>,
        names: IndexSet<Name>,
        ranges: Vec<Option<RangeCounts>>,
    ) -> RangeTable
        ensures { result ≡ record { terms = terms; names = names; ranges = ranges } }
    {
        RangeTable {
            terms,
            names,
            ranges,
        }
    }

    /// The counts of a range, where it has them.
    pub(crate) fn counts(&self, range: u32) -> Option<&RangeCounts>
        ensures value { option_copied result ≡ counts_at self.now range }
        ensures variant { is_some result ≡ has_counts self.now range }
    {
        match self.ranges.get(range as usize) {
            Some(counts) => counts.as_ref(),
            None => None,
        }
    }

    /// Whether it has the counts of a range.
    pub fn has(&self, range: u32) -> bool
        ensures { result ≡ has_counts self.now range }
    {
        self.counts(range).is_some()
    }
}
