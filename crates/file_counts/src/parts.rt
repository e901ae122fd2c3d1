// A segment that is opened, and what is counted over its documents.
use counts::Counts;
use deletion_list::DelList;
use disk_index::{BlockCache, DiskIndex, MarkedPart, Part, Snapshot, fits_snapshot};
use query_check::LeafKind;
use range_bounds::RangeTable;
use range_tables::tables;
use ri_base::{ExtentExpr, LeafStats, Name};
use std::alloc::Global;
use std::num::NonZeroUsize;
use std::rc::Rc;
use store_ends::Store;

/// How many sums and how many blocks are kept.
const SLOTS: usize = 4096;

/// The segment 1 of so many documents.
fn open<T: Store>(alloc: Global, store: &mut T, docs: u32) -> Option<DiskIndex> {
    DiskIndex::open(alloc, store, 1, docs).ok()
}

/// How many documents it has once it is opened.
pub fn docs_once_open<T: Store>(alloc: Global, store: &mut T, docs: u32) -> Option<u32> {
    let index = open(alloc, store, docs)?;
    Some(index.docs())
}

/// The part without marks.
fn unmarked(alloc: Global, part: Part) -> Option<MarkedPart> {
    let marks = DelList::new(alloc, part.docs()).ok()?;
    Some(MarkedPart::new(part, marks))
}

fn part_of(alloc: Global, index: DiskIndex) -> Option<MarkedPart> {
    let index = Rc::new(alloc, index).ok()?;
    unmarked(alloc, Part::Disk(index))
}

fn snapshot_of(alloc: Global, parts: &[MarkedPart]) -> Option<Snapshot> {
    if !fits_snapshot(parts) {
        return None;
    }
    Snapshot::of(alloc, parts).ok()
}

fn snapshot<T: Store>(alloc: Global, store: &mut T, docs: u32) -> Option<Snapshot> {
    let index = open(alloc, store, docs)?;
    let parts = [part_of(alloc, index)?];
    snapshot_of(alloc, &parts)
}

/// A snapshot with what is kept of its sums and of its blocks.
#[derive(Drop)]
pub struct Counted {
    snapshot: Snapshot,
    sums: Counts,
    blocks: BlockCache,
}

impl Counted {
    /// Of the segment 1 of so many documents. Nothing is kept yet.
    pub fn new<T: Store>(alloc: Global, store: &mut T, docs: u32) -> Option<Counted> {
        let slots = NonZeroUsize::new(SLOTS).unwrap_or(NonZeroUsize::MIN);
        let snapshot = snapshot(alloc, store, docs)?;
        let sums = Counts::new(alloc, slots).ok()?;
        let blocks = BlockCache::new(alloc, slots).ok()?;
        Some(Counted {
            snapshot,
            sums,
            blocks,
        })
    }

    /// How often an expression occurs, and in how many words, or in how many that stand in fields of a name.
    pub fn leaf<T: Store>(
        &mut self,
        alloc: Global,
        store: &mut T,
        expr: &ExtentExpr,
        context: Option<&Name>,
    ) -> Option<LeafStats> {
        let snapshot = &self.snapshot;
        let blocks = &mut self.blocks;
        self.sums
            .leaf(alloc, expr, context, snapshot, 0, store, blocks)
            .ok()
    }

    /// The tables of the ranges of its parts for these leaves.
    pub fn tables<T: Store>(
        &mut self,
        alloc: Global,
        store: &mut T,
        leaves: &[LeafKind],
    ) -> Option<Vec<RangeTable>> {
        let parts = self.snapshot.parts();
        tables(alloc, leaves, parts, store, &mut self.blocks).ok()
    }

    /// The same snapshot once more.
    pub fn shared(&self, alloc: Global) -> Option<Snapshot> {
        Snapshot::of(alloc, self.snapshot.parts()).ok()
    }

    /// The blocks that are kept.
    pub fn blocks(&mut self) -> &mut BlockCache {
        &mut self.blocks
    }
}
