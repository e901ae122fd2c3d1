// A term among the blocks of a part.
ghost use Rattle.std.specs.Prelude.{◌≡◌, ◌<◌, ◌≤◌, ◌%◌, ◌==◌, ℕ, List, cond, Err, IfErr, IfOk, OnOk};
ghost use Rattle.std.specs.Int.{bit_at};
ghost use Rattle.std.specs.List.{list_any};
ghost use Rattle.ri_base.specs.Documents.{Document};
ghost use Rattle.ri_base.specs.Faults.{IsOutside, TellsDamage};
ghost use Rattle.ri_base.specs.Keeps.{Rose};
ghost use Rattle.store_ends.specs.Files.{IsQuiet};
ghost use Rattle.disk_index.specs.Blocks.{block_of};
ghost use Rattle.disk_index.specs.Cache.{CacheKeeps, IsCacheBacked, IsBlockOf};
ghost use Rattle.disk_index.specs.Faults.{IsTermReadable};
ghost use Rattle.disk_index.specs.Parts.{IsFileOf, IsPartBacked, IsReadableIn, reads, source_of, IsPartIntact};
ghost use Rattle.disk_index.specs.Reads.{IsBacked, IsIntact};
ghost use Rattle.range_masks.specs.Masks.{IsMask};
ghost use Rattle.range_masks.specs.May.{has_term};

use crate::TermMasks;
use crate::bits::with_id;
use crate::most::most_in_part;
use crate::sealed::mask_in;
use disk_index::{Block, BlockCache, DiskIndex, Part, PartReader};
use ri_base::{SegFault, Steps, Term};
use seg_codec::BlockEntry;
use std::alloc::Global;
use std::marker::Brand;
use std::sync::ledger::{Blank, Ledger};
use store_ends::Store;

impl<'a, T: Store> TermMasks for PartReader<'a, T> {
    fn term_mask(&mut self, alloc: Global, term: &Term, range: u32) -> Result<u64, SegFault> {
        mask_in_part(alloc, self.part, self.store, self.cache, term, range)
    }

    fn most_places(&mut self, alloc: Global, term: &Term, range: u32) -> Result<usize, SegFault> {
        most_in_part(alloc, self.part, self.store, self.cache, term, range)
    }

    fn next_term_range(&self, term: &Term, from: u32) -> Option<u32> {
        self.part.next_with(term, from)
    }
}

/// Which documents of the range have the term, in a part of either kind.
pub(crate) fn mask_in_part<T: Store>(
    alloc: Global,
    part: &Part,
    store: &mut T,
    cache: &mut BlockCache,
    term: &Term,
    range: u32,
) -> Result<u64, SegFault>
    ensures exact { IsPartBacked (T.files store.old) (source_of part.now) → IsCacheBacked (T.files store.old) cache.old
        → IfOk result (IsMask (has_term term.now) range (reads (T.files store.old) (source_of part.now))) }
    ensures told { IfOk result (λ _. IsReadableIn (T.files store.old) cache.old (source_of part.now) term.now range) }
    ensures honest { IsPartIntact (T.files store.old) (source_of part.now) → IfErr result IsOutside }
    ensures cache { CacheKeeps (T.files store.old) (IsFileOf (source_of part.now)) cache.old cache.new }
    ensures undamaged { OnOk result (cache.new.damage ≡ cache.old.damage) }
    ensures damaged { IfErr result (TellsDamage cache.old.damage cache.new.damage) }
    ensures quiet { IsQuiet T.files T.layers T.clock T.since T.longest T.held store.old store.new }
    ensures later { T.faults store.old ≤ T.faults store.new }
    ensures store { result ≡ Err SegFault.Store → Rose (T.faults store.old) (T.faults store.new) }
{
    match part {
        Part::Memory(sealed) => Ok(mask_in(sealed, term, range)),
        Part::Disk(index) => mask_on_disk(alloc, index, store, cache, term, range),
    }
}

/// Which documents of the range have the term, by its block. Where the dictionary has no such block nothing is read.
fn mask_on_disk<T: Store>(
    alloc: Global,
    index: &DiskIndex,
    store: &mut T,
    cache: &mut BlockCache,
    term: &Term,
    range: u32,
) -> Result<u64, SegFault>
    ensures exact { (docs : List Document) → IsBacked (T.files store.old) index.now docs → IsCacheBacked (T.files store.old) cache.old
        → IfOk result (IsMask (has_term term.now) range docs) }
    ensures told { IfOk result (λ _. IsTermReadable (T.files store.old) cache.old index.now term.now range) }
    ensures honest { (docs : List Document) → IsBacked (T.files store.old) index.now docs → IsIntact (T.files store.old) index.now.number → IfErr result IsOutside }
    ensures cache { CacheKeeps (T.files store.old) (IsBlockOf index.now) cache.old cache.new }
    ensures undamaged { OnOk result (cache.new.damage ≡ cache.old.damage) }
    ensures damaged { IfErr result (TellsDamage cache.old.damage cache.new.damage) }
    ensures quiet { IsQuiet T.files T.layers T.clock T.since T.longest T.held store.old store.new }
    ensures later { T.faults store.old ≤ T.faults store.new }
    ensures store { result ≡ Err SegFault.Store → Rose (T.faults store.old) (T.faults store.new) }
{
    if !index.has_block(term, range) {
        return Ok(0);
    }
    let block = range_block::<T, Brand>(alloc, index, store, cache, term, range, Blank::new(1))?;
    Ok(mask_of_entries(block.entries()))
}

/// The block of the term for the range, read with a counter of its own.
pub(crate) fn range_block<T: Store, L: Ledger>(
    alloc: Global,
    index: &DiskIndex,
    store: &mut T,
    cache: &mut BlockCache,
    term: &Term,
    range: u32,
    blank: Blank,
) -> Result<Block, SegFault>
    requires name { blank.name ≡ L.name }
    requires parts { blank.parts ≡ L.parts }
    requires some { 0 < blank.parts }
    ensures exact { (docs : List Document) → IsBacked (T.files store.old) index.now docs → IsCacheBacked (T.files store.old) cache.old
        → IfOk result (λ block. block ≡ block_of term.now range docs) }
    ensures told { IfOk result (λ _. IsTermReadable (T.files store.old) cache.old index.now term.now range) }
    ensures honest { (docs : List Document) → IsBacked (T.files store.old) index.now docs → IsIntact (T.files store.old) index.now.number → IfErr result IsOutside }
    ensures cache { CacheKeeps (T.files store.old) (IsBlockOf index.now) cache.old cache.new }
    ensures undamaged { OnOk result (cache.new.damage ≡ cache.old.damage) }
    ensures damaged { IfErr result (TellsDamage cache.old.damage cache.new.damage) }
    ensures quiet { IsQuiet T.files T.layers T.clock T.since T.longest T.held store.old store.new }
    ensures later { T.faults store.old ≤ T.faults store.new }
    ensures store { result ≡ Err SegFault.Store → Rose (T.faults store.old) (T.faults store.new) }
{
    let mut blocks = Steps::<L>::new(blank);
    index.block(alloc, store, cache, term, range, &mut blocks)
}

/// Which ids, counted within their range, the entries of a block have.
pub(crate) fn mask_of_entries(entries: &[BlockEntry]) -> u64
    ensures { (i : ℕ) → i < 64 → bit_at result i ≡ cond (list_any (λ e. e.id % 64 == i) entries.now) 1 0 }
{
    let mut mask = 0;
    for entry in entries {
        mask = with_id(mask, entry.id);
    }
    mask
}
