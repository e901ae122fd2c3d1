// How many places a term has at most in one document of a range.
ghost use Rattle.std.specs.Prelude.{◌≡◌, ◌≤◌, List, Err, IfErr, IfOk, OnOk};
ghost use Rattle.ri_base.specs.Documents.{Document};
ghost use Rattle.ri_base.specs.Faults.{IsOutside, TellsDamage};
ghost use Rattle.ri_base.specs.Keeps.{Rose};
ghost use Rattle.store_ends.specs.Files.{IsQuiet};
ghost use Rattle.disk_index.specs.Cache.{CacheKeeps, IsCacheBacked, IsBlockOf};
ghost use Rattle.disk_index.specs.Faults.{IsTermReadable};
ghost use Rattle.disk_index.specs.Parts.{IsFileOf, IsPartBacked, IsReadableIn, reads, source_of, IsPartIntact};
ghost use Rattle.disk_index.specs.Reads.{IsBacked, IsIntact};
ghost use Rattle.range_masks.specs.Most.{most_of_entries, most_places};

use crate::part::range_block;
use crate::sealed::most_in;
use disk_index::{BlockCache, DiskIndex, Part};
use ri_base::{SegFault, Term};
use seg_codec::BlockEntry;
use std::alloc::Global;
use std::marker::Brand;
use std::sync::ledger::Blank;
use store_ends::Store;

/// How many places the term has at most in one document of the range, in a part of either kind.
pub(crate) fn most_in_part<T: Store>(
    alloc: Global,
    part: &Part,
    store: &mut T,
    cache: &mut BlockCache,
    term: &Term,
    range: u32,
) -> Result<usize, SegFault>
    ensures exact { IsPartBacked (T.files store.old) (source_of part.now) → IsCacheBacked (T.files store.old) cache.old
        → IfOk result (λ most. most ≡ most_places term.now range (reads (T.files store.old) (source_of part.now))) }
    ensures told { IfOk result (λ _. IsReadableIn (T.files store.old) cache.old (source_of part.now) term.now range) }
    ensures honest { IsPartIntact (T.files store.old) (source_of part.now) → IfErr result IsOutside }
    ensures cache { CacheKeeps (T.files store.old) (IsFileOf (source_of part.now)) cache.old cache.new }
    ensures undamaged { OnOk result (cache.new.damage ≡ cache.old.damage) }
    ensures damaged { IfErr result (TellsDamage cache.old.damage cache.new.damage) }
    ensures quiet { IsQuiet T.files T.layers T.clock T.since T.longest T.held store.old store.new }
    ensures later { T.faults store.old ≤ T.faults store.new }
    ensures store { result ≡ Err SegFault.Store → Rose (T.faults store.old) (T.faults store.new) }
{
    match part {
        Part::Memory(sealed) => Ok(most_in(sealed, term, range)),
        Part::Disk(index) => most_on_disk(alloc, index, store, cache, term, range),
    }
}

/// The same by the term's block. Where the dictionary has no such block nothing is read.
fn most_on_disk<T: Store>(
    alloc: Global,
    index: &DiskIndex,
    store: &mut T,
    cache: &mut BlockCache,
    term: &Term,
    range: u32,
) -> Result<usize, SegFault>
    ensures exact { (docs : List Document) → IsBacked (T.files store.old) index.now docs → IsCacheBacked (T.files store.old) cache.old
        → IfOk result (λ most. most ≡ most_places term.now range docs) }
    ensures told { IfOk result (λ _. IsTermReadable (T.files store.old) cache.old index.now term.now range) }
    ensures honest { (docs : List Document) → IsBacked (T.files store.old) index.now docs → IsIntact (T.files store.old) index.now.number → IfErr result IsOutside }
    ensures cache { CacheKeeps (T.files store.old) (IsBlockOf index.now) cache.old cache.new }
    ensures undamaged { OnOk result (cache.new.damage ≡ cache.old.damage) }
    ensures damaged { IfErr result (TellsDamage cache.old.damage cache.new.damage) }
    ensures quiet { IsQuiet T.files T.layers T.clock T.since T.longest T.held store.old store.new }
    ensures later { T.faults store.old ≤ T.faults store.new }
    ensures store { result ≡ Err SegFault.Store → Rose (T.faults store.old) (T.faults store.new) }
{
    let block = range_block::<T, Brand>(alloc, index, store, cache, term, range, Blank::new(1))?;
    Ok(most_of_entries(block.entries()))
}

/// How many places at most one of the entries has.
pub(crate) fn most_of_entries(entries: &[BlockEntry]) -> usize
    ensures { result ≡ most_of_entries entries.now }
{
    let mut most = 0usize;
    for entry in entries {
        most = most.max(entry.positions.len());
    }
    most
}
