// The documents of a range of a part on disk, put together from its blocks.
ghost use Rattle.std.specs.Prelude.{◌≡◌, ◌≢◌, ◌≤◌, ◌<◌, ◌*◌, List, Some, Ok, Err, IfOk, IfErr, OnOk, length, map};
ghost use Rattle.ri_base.specs.Documents.{Document};
ghost use Rattle.ri_base.specs.Faults.{IsOutside, TellsDamage};
ghost use Rattle.ri_base.specs.Keeps.{Rose};
ghost use Rattle.store_ends.specs.Files.{Files, IsQuiet};
ghost use Rattle.seg_codec.specs.Held.{lengths_of};
ghost use Rattle.seg_codec.specs.Segment.{entry_of};
ghost use Rattle.disk_index.specs.Blocks.{of_range};
ghost use Rattle.disk_index.specs.Cache.{AllKept, IsCacheBacked};
ghost use Rattle.disk_index.specs.Faults.{IsUnput, block_fault};
ghost use Rattle.disk_index.specs.Ranks.{ranks_of};
ghost use Rattle.disk_index.specs.Reads.{IsBacked, IsIntact};
ghost use Rattle.disk_index.specs.Rebuild.{lengths, put_block, rows_of};
ghost use Rattle.disk_index.specs.Together.{AreAllRows, AreTogether, IsDocumentsFault, range_end};

use crate::rebuild::{Slots, documents_of, put_block, untold_rows};
use crate::{Block, BlockCache, DiskIndex};
use ri_base::{Doc, FileName, List, PartName, SegFault};
use std::alloc::Global;
use store_ends::Store;

/// What the blocks of a range tell of its documents, a row for each of these; and where the last block stands.
#[derive(Drop)]
struct Told {
    rows: Vec<Slots>,
    last: u64,
}

impl DiskIndex {
    /// The documents with the ids from `64 * range` on, 64 at most, each whole. Each block of the range is read once, and tells of
    /// each place the term.
    pub fn documents<T: Store>(
        &self,
        alloc: Global,
        store: &mut T,
        cache: &mut BlockCache,
        range: u32,
    ) -> Result<List<Doc>, SegFault>
        requires { 64 * range < length self.now.outlines }
        ensures exact { (docs : List Document) → IsBacked (T.files store.old) self.now docs → IsCacheBacked (T.files store.old) cache.old
            → IfOk result (λ ds. ds ≡ of_range range docs) }
        ensures honest { (docs : List Document) → IsBacked (T.files store.old) self.now docs → IsIntact (T.files store.old) self.now.number → IsCacheBacked (T.files store.old) cache.old
            → IfErr result IsOutside }

        // Without their tokens they are what is kept, whatever the file has.
        ensures kept { IfOk result (λ ds. map entry_of ds ≡ of_range range self.now.outlines) }

        // They are what the blocks of the range tell, so no malformed one is passed by.
        ensures told { IfOk result (AreTogether (T.files store.old) cache.old self.now range) }

        ensures fault { (f : Files) → T.files store.old ≡ Some f → IfErr result (IsDocumentsFault f cache.old self.now range) }
        ensures cache { AllKept cache.old cache.new }
        ensures undamaged { OnOk result (cache.new.damage ≡ cache.old.damage) }
        ensures damaged { IfErr result (TellsDamage cache.old.damage cache.new.damage) }
        ensures quiet { IsQuiet T.files T.layers T.clock T.since T.longest T.held store.old store.new }
        ensures later { T.faults store.old ≤ T.faults store.new }
        ensures store { result ≡ Err SegFault.Store → Rose (T.faults store.old) (T.faults store.new) }
        ensures none { result ≢ Err SegFault.Store → T.faults store.new ≡ T.faults store.old }
    {
        let told = self.told(alloc, store, cache, range)?;
        match documents_of(alloc, self.dictionary(), self.outlines(range), &told.rows)? {
            Some(docs) => Ok(docs),
            None => Err(cache.noted(self.malformed(told.last))),
        }
    }

    /// What the blocks of the range tell.
    fn told<T: Store>(
        &self,
        alloc: Global,
        store: &mut T,
        cache: &mut BlockCache,
        range: u32,
    ) -> Result<Told, SegFault>
        requires { 64 * range < length self.now.outlines }
        ensures exact { (docs : List Document) → IsBacked (T.files store.old) self.now docs → IsCacheBacked (T.files store.old) cache.old
            → IfOk result (λ t. t.rows.items ≡ rows_of self.now.dictionary (ranks_of range self.now.dictionary) (of_range range docs)) }
        ensures honest { (docs : List Document) → IsBacked (T.files store.old) self.now docs → IsIntact (T.files store.old) self.now.number → IsCacheBacked (T.files store.old) cache.old
            → IfErr result IsOutside }
        ensures shape { IfOk result (λ t. lengths t.rows.items ≡ lengths_of (of_range range self.now.outlines)) }
        ensures told { IfOk result (λ t. AreAllRows (T.files store.old) cache.old self.now range t.rows.items) }
        ensures last { IfOk result (λ t. t.last ≡ range_end self.now range) }
        ensures fault { (f : Files) → T.files store.old ≡ Some f → IfErr result (IsDocumentsFault f cache.old self.now range) }
        ensures cache { AllKept cache.old cache.new }
        ensures undamaged { OnOk result (cache.new.damage ≡ cache.old.damage) }
        ensures damaged { IfErr result (TellsDamage cache.old.damage cache.new.damage) }
        ensures quiet { IsQuiet T.files T.layers T.clock T.since T.longest T.held store.old store.new }
        ensures later { T.faults store.old ≤ T.faults store.new }
        ensures store { result ≡ Err SegFault.Store → Rose (T.faults store.old) (T.faults store.new) }
        ensures none { result ≢ Err SegFault.Store → T.faults store.new ≡ T.faults store.old }
    {
        let mut rows = untold_rows(alloc, self.outlines(range))?;
        let mut last = self.blocks_at();
        let ranks = self.ranks(range);
        for rank in ranks {
            let block = self.ranked_block(alloc, store, cache, *rank, range)?;
            last = self.ranked_begin(*rank, range);
            self.put(cache, &mut rows, &block, *rank, last)?;
        }
        Ok(Told { rows, last })
    }

    /// Tells the rank at the places of a block that begins there in the file.
    fn put(
        &self,
        cache: &mut BlockCache,
        rows: &mut Vec<Slots>,
        block: &Block,
        rank: u32,
        begin: u64,
    ) -> Result<(), SegFault>
        ensures ok { OnOk result (put_block begin rank block.now rows.old.items ≡ Ok rows.new.items) }
        ensures err { IfErr result (IsUnput self.now.number (put_block begin rank block.now rows.old.items)) }
        ensures kept { cache.new.kept ≡ cache.old.kept }
        ensures undamaged { OnOk result (cache.new.damage ≡ cache.old.damage) }
        ensures damaged { IfErr result (TellsDamage cache.old.damage cache.new.damage) }
    {
        match put_block(rows, block.entries(), rank, begin) {
            Ok(()) => Ok(()),
            Err(taken) => Err(cache.noted(self.malformed(taken.place))),
        }
    }

    /// The fault of a block of its file at this place.
    fn malformed(&self, place: u64) -> SegFault
        ensures { result ≡ block_fault self.now.number place }
    {
        SegFault::Malformed {
            file: FileName::Segment(self.number()),
            part: PartName::Block,
            place,
        }
    }
}
