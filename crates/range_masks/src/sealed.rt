// A term among the postings of an index in memory.
ghost use Rattle.std.specs.Prelude.{◌≡◌, ◌<◌, ℕ, cond, ◌%◌, ◌==◌};
ghost use Rattle.std.specs.Int.{bit_at};
ghost use Rattle.std.specs.List.{list_any};
ghost use Rattle.std.specs.List.Sorted.{IsNonDecreasingBy};
ghost use Rattle.range_masks.specs.Masks.{IsBlock, IsMask};
ghost use Rattle.range_masks.specs.May.{has_term};
ghost use Rattle.range_masks.specs.Most.{most_places};

use crate::TermMasks;
use crate::bits::with_id;
use crate::runs::longest_run;
use disk_index::{next_in_memory, term_postings};
use ri_base::{Place, Sealed, SegFault, Term};
use std::alloc::Global;

impl TermMasks for Sealed {
    fn term_mask(&mut self, _alloc: Global, term: &Term, range: u32) -> Result<u64, SegFault> {
        Ok(mask_in(self, term, range))
    }

    fn most_places(&mut self, _alloc: Global, term: &Term, range: u32) -> Result<usize, SegFault> {
        Ok(most_in(self, term, range))
    }

    fn next_term_range(&self, term: &Term, from: u32) -> Option<u32> {
        next_in_memory(self, term, from)
    }
}

/// Which documents of the range have the term.
pub(crate) fn mask_in(index: &Sealed, term: &Term, range: u32) -> u64
    ensures { IsMask (has_term term.now) range index.now result }
{
    mask_of_ids(block_of(term_postings(index, term), range))
}

/// How many places the term has at most in one document of the range.
pub(crate) fn most_in(index: &Sealed, term: &Term, range: u32) -> usize
    ensures { result ≡ most_places term.now range index.now }
{
    longest_run(block_of(term_postings(index, term), range))
}

/// Of postings by rising id those of the range.
fn block_of(postings: &[Place], range: u32) -> &[Place]
    requires { IsNonDecreasingBy (λ p. p.id) postings.now }
    ensures { IsBlock range postings.now result.now }
{
    let first = postings.partition_point(|p| p.id / 64 < range);
    let rest = &postings[first..];
    let count = rest.partition_point(|p| p.id / 64 <= range);
    &rest[..count]
}

/// Which ids, counted within their range, the postings have.
fn mask_of_ids(block: &[Place]) -> u64
    ensures { (i : ℕ) → i < 64 → bit_at result i ≡ cond (list_any (λ p. p.id % 64 == i) block.now) 1 0 }
{
    let mut mask = 0;
    for place in block {
        mask = with_id(mask, place.id);
    }
    mask
}
