// The terms that have a block for a range, by range.
ghost use Rattle.std.specs.Prelude.{◌≡◌, ◌<◌, ◌^◌, [], ◌∷◌, ◌++◌, replicate, set, slice_index_or, length, IfOk, OnOk};
ghost use Rattle.std.specs.List.{All, AllPairs};
ghost use Rattle.disk_index.specs.Kept.{ArePlaces};
ghost use Rattle.disk_index.specs.Ranks.{AreRanks, IsRanked};

use ri_base::{List, NoMemory};
use seg_codec::{BlockPlace, TermBlocks};
use std::alloc::Global;

/// The ranks of terms, in order.
pub(crate) type Ranks = List<u32>;

/// The ranks of the terms that have a block for a range, for each range that has one of so many documents. The dictionary is gone
/// over once.
pub(crate) fn ranks_by_range(
    alloc: Global,
    dictionary: &[TermBlocks],
    docs: u32,
) -> Result<Vec<Ranks>, NoMemory>
    requires few { length dictionary.now < 2 ^ 32 }
    requires places { All ArePlaces dictionary.now }
    ensures { IfOk result (λ rows. AreRanks docs dictionary.now rows.items) }
{
    let mut rows = empty_rows(alloc, docs.div_ceil(64))?;
    let mut rank = 0u32;
    for term in dictionary {
        add_rank(&mut rows, term.blocks.as_slice(), rank)?;
        rank += 1;
    }
    Ok(rows)
}

/// So many ranges without a rank.
fn empty_rows(alloc: Global, count: u32) -> Result<Vec<Ranks>, NoMemory>
    ensures { IfOk result (λ rows. rows.items ≡ replicate count []) }
{
    let mut rows = Vec::with_capacity(alloc, count as usize)?;
    for _range in 0..count {
        rows.push(Ranks::new(alloc))?;
    }
    Ok(rows)
}

/// Puts the rank of a term with these blocks behind each of their ranges.
fn add_rank(rows: &mut Vec<Ranks>, blocks: &[BlockPlace], rank: u32) -> Result<(), NoMemory>
    requires { AllPairs (λ a b. a.range < b.range) blocks.now }
    ensures { OnOk result (IsRanked blocks.now rank rows.old.items rows.new.items) }
{
    for block in blocks {
        put_rank(rows, block.range as usize, rank)?;
    }
    Ok(())
}

/// Puts a rank behind those of a range, if there is such a range.
fn put_rank(rows: &mut Vec<Ranks>, range: usize, rank: u32) -> Result<(), NoMemory>
    ensures { OnOk result (rows.new.items ≡ set rows.old.items range (slice_index_or rows.old.items range [] ++ rank ∷ [])) }
{
    if range >= rows.len() {
        return Ok(());
    }
    rows[range].push(rank)?;
    Ok(())
}
