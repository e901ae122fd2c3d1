// Opening the blocks of a range of a part on disk.
ghost use Rattle.std.specs.Prelude.{◌≡◌, ◌<◌, ◌≤◌, ◌+◌, ◌^◌, ◌⊎◌, ℕ, List, Some, true, is_some, length, Err, IfErr, IfOk, IsTrue, OnOk};
ghost use Rattle.std.specs.List.{All};
ghost use Rattle.ri_base.specs.Documents.{Document};
ghost use Rattle.ri_base.specs.Faults.{IsOutside, TellsDamage};
ghost use Rattle.ri_base.specs.Keeps.{Rose};
ghost use Rattle.store_ends.specs.Files.{Files, IsQuiet};
ghost use Rattle.disk_index.specs.Cache.{CacheKeeps, IsCacheBacked, IsBlockOf};
ghost use Rattle.disk_index.specs.Faults.{ArePlacesIn, IsRangeFault, IsTermReadable};
ghost use Rattle.disk_index.specs.Reads.{IsBacked, IsIntact};
ghost use Rattle.range_masks.specs.Held.{AreBlocksOf, FitDocuments, HasAll, IsEntryOf, block_in};

use crate::RangeBlocks;
use disk_index::{BlockCache, DiskIndex};
use ri_base::{SegFault, Steps, Term};
use seg_codec::BlockEntry;
use std::alloc::Global;
use std::sync::ledger::Ledger;
use store_ends::Store;

/// The blocks of these terms for the range. A block with an entry that is of none of the part's documents, which only a wrong cache
/// hands out, isn't held.
pub(crate) fn open_on_disk<T: Store, L: Ledger>(
    alloc: Global,
    index: &DiskIndex,
    store: &mut T,
    cache: &mut BlockCache,
    terms: &[Term],
    range: u32,
    blocks: &mut Steps<L>,
) -> Result<RangeBlocks, SegFault>
    ensures range { IfOk result (λ held. held.range ≡ range) }
    ensures exact { (docs : List Document) → IsBacked (T.files store.old) index.now docs → IsCacheBacked (T.files store.old) cache.old
        → IfOk result (AreBlocksOf docs) }
    ensures each { (docs : List Document) → IsBacked (T.files store.old) index.now docs → IsCacheBacked (T.files store.old) cache.old
        → IfOk result (HasAll terms.now) }
    ensures told { IfOk result (λ _. All (λ t. IsTermReadable (T.files store.old) cache.old index.now t range) terms.now) }
    ensures fits { IfOk result (FitDocuments index.now.outlines) }
    ensures opened { IfOk result (λ held. blocks.new ≡ blocks.old + held.opened) }
    ensures cost { blocks.new ≤ blocks.old + length terms.now }
    ensures honest { (docs : List Document) → IsBacked (T.files store.old) index.now docs → IsIntact (T.files store.old) index.now.number → IfErr result IsOutside }
    ensures fault { (f : Files) → T.files store.old ≡ Some f → IfErr result (IsRangeFault f index.now.number) }
    ensures cache { CacheKeeps (T.files store.old) (IsBlockOf index.now) cache.old cache.new }
    ensures undamaged { OnOk result (cache.new.damage ≡ cache.old.damage) }
    ensures damaged { IfErr result (TellsDamage cache.old.damage cache.new.damage) }
    ensures quiet { IsQuiet T.files T.layers T.clock T.since T.longest T.held store.old store.new }
    ensures later { T.faults store.old ≤ T.faults store.new }
    ensures store { result ≡ Err SegFault.Store → Rose (T.faults store.old) (T.faults store.new) }
{
    let mut held = RangeBlocks::none(alloc, range);
    for term in terms {
        open_block(&mut held, alloc, index, store, cache, term, blocks)?;
    }
    Ok(held)
}

/// The block of the term too, where it isn't held.
fn open_block<T: Store, L: Ledger>(
    held: &mut RangeBlocks,
    alloc: Global,
    index: &DiskIndex,
    store: &mut T,
    cache: &mut BlockCache,
    term: &Term,
    blocks: &mut Steps<L>,
) -> Result<(), SegFault>
    requires { held.old.opened + 1 < 2 ^ 64 }
    ensures range { held.new.range ≡ held.old.range }
    ensures exact { (docs : List Document) → IsBacked (T.files store.old) index.now docs → IsCacheBacked (T.files store.old) cache.old
        → AreBlocksOf docs held.old → OnOk result (AreBlocksOf docs held.new) }
    ensures has { (docs : List Document) → IsBacked (T.files store.old) index.now docs → IsCacheBacked (T.files store.old) cache.old
        → OnOk result (is_some (block_in held.new term.now) ≡ true) }
    ensures told { OnOk result (is_some (block_in held.old term.now) ≡ true ⊎ IsTermReadable (T.files store.old) cache.old index.now term.now held.old.range) }
    ensures only { OnOk result ((t : List ℕ) → is_some (block_in held.new t) ≡ true → is_some (block_in held.old t) ≡ true ⊎ (t ≡ term.now)) }
    ensures still { OnOk result ((t : List ℕ) → is_some (block_in held.old t) ≡ true → is_some (block_in held.new t) ≡ true) }
    ensures fits { FitDocuments index.now.outlines held.old → OnOk result (FitDocuments index.now.outlines held.new) }
    ensures opened { OnOk result (blocks.new + held.old.opened ≡ blocks.old + held.new.opened) }
    ensures cost { blocks.new ≤ blocks.old + 1 }
    ensures honest { (docs : List Document) → IsBacked (T.files store.old) index.now docs → IsIntact (T.files store.old) index.now.number → IfErr result IsOutside }
    ensures fault { (f : Files) → T.files store.old ≡ Some f → IfErr result (IsRangeFault f index.now.number) }
    ensures cache { CacheKeeps (T.files store.old) (IsBlockOf index.now) cache.old cache.new }
    ensures undamaged { OnOk result (cache.new.damage ≡ cache.old.damage) }
    ensures damaged { IfErr result (TellsDamage cache.old.damage cache.new.damage) }
    ensures quiet { IsQuiet T.files T.layers T.clock T.since T.longest T.held store.old store.new }
    ensures later { T.faults store.old ≤ T.faults store.new }
    ensures store { result ≡ Err SegFault.Store → Rose (T.faults store.old) (T.faults store.new) }
{
    if held.has(term) {
        return Ok(());
    }
    let range = held.range();
    if index.has_block(term, range) {
        held.count();
    }
    let block = index.block(alloc, store, cache, term, range, blocks)?;
    if are_entries_of(index, block.entries()) {
        held.hold(alloc, term, block)?;
    }
    Ok(())
}

/// Whether each is an entry of one of the part's documents.
fn are_entries_of(index: &DiskIndex, entries: &[BlockEntry]) -> bool
    ensures yes { IsTrue result → All (IsEntryOf index.now.outlines) entries.now }
    ensures no { All (IsEntryOf index.now.outlines) entries.now → IsTrue result }
{
    for entry in entries {
        if !is_entry_of(index, entry) {
            return false;
        }
    }
    true
}

/// Whether it is the entry of a document of the part, with places that rise and lie in it.
fn is_entry_of(index: &DiskIndex, entry: &BlockEntry) -> bool
    ensures yes { IsTrue result → IsEntryOf index.now.outlines entry.now }
    ensures no { IsEntryOf index.now.outlines entry.now → IsTrue result }
{
    entry.id < index.docs() && rise_below(entry.positions.as_slice(), index.length(entry.id))
}

/// Whether places rise, each below this one.
fn rise_below(places: &[u32], end: u32) -> bool
    ensures yes { IsTrue result → ArePlacesIn end places.now }
    ensures no { ArePlacesIn end places.now → IsTrue result }
{
    match places.last() {
        Some(last) => *last < end && places.is_sorted_by(|a, b| *a < *b),
        None => true,
    }
}
