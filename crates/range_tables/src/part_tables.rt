// The tables of the parts of a snapshot.
ghost use Rattle.std.specs.Prelude.{◌≡◌, ◌≤◌, length, map, Err, IfErr, IfOk, OnOk};
ghost use Rattle.ri_base.specs.Faults.{IsOutside, TellsDamage};
ghost use Rattle.ri_base.specs.Keeps.{Rose};
ghost use Rattle.store_ends.specs.Files.{IsQuiet};
ghost use Rattle.query_check.specs.Leaves.{leaf_tree};
ghost use Rattle.disk_index.specs.Cache.{CacheKeeps, IsCacheBacked};
ghost use Rattle.disk_index.specs.Parts.{IsFileOf, IsPartBacked, reads, source_of, IsPartIntact};
ghost use Rattle.disk_index.specs.Snapshots.{AreBacked, IsFileAmong, AreIntact};
ghost use Rattle.range_bounds.specs.Tables.{AreTablesOf, IsTableOf};

use crate::table_of;
use disk_index::{BlockCache, MarkedPart, Part, PartReader};
use query_check::LeafKind;
use range_bounds::RangeTable;
use ri_base::SegFault;
use std::alloc::{AllocError, Global};
use store_ends::Store;

/// The table of a part for these leaves.
fn part_table<T: Store>(
    alloc: Global,
    leaves: &[LeafKind],
    part: &Part,
    store: &mut T,
    cache: &mut BlockCache,
) -> Result<RangeTable, SegFault>
    ensures exact { IsPartBacked (T.files store.old) (source_of part.now) → IsCacheBacked (T.files store.old) cache.old
        → IfOk result (IsTableOf (map leaf_tree leaves.now) (reads (T.files store.old) (source_of part.now))) }
    ensures honest { IsPartIntact (T.files store.old) (source_of part.now) → IsCacheBacked (T.files store.old) cache.old → IfErr result IsOutside }
    ensures cache { CacheKeeps (T.files store.old) (IsFileOf (source_of part.now)) cache.old cache.new }
    ensures undamaged { OnOk result (cache.new.damage ≡ cache.old.damage) }
    ensures damaged { IfErr result (TellsDamage cache.old.damage cache.new.damage) }
    ensures quiet { IsQuiet T.files T.layers T.clock T.since T.longest T.held store.old store.new }
    ensures later { T.faults store.old ≤ T.faults store.new }
    ensures store { result ≡ Err SegFault.Store → Rose (T.faults store.old) (T.faults store.new) }
{
    let mut reader = PartReader::new(part, store, cache);
    table_of(alloc, &mut reader, leaves)
}

/// The tables of the parts for these leaves, one for each.
pub fn tables<T: Store>(
    alloc: Global,
    leaves: &[LeafKind],
    parts: &[MarkedPart],
    store: &mut T,
    cache: &mut BlockCache,
) -> Result<Vec<RangeTable>, SegFault>
    ensures exact { AreBacked (T.files store.old) parts.now → IsCacheBacked (T.files store.old) cache.old
        → IfOk result (λ tables. AreTablesOf (map leaf_tree leaves.now) (map (λ m. reads (T.files store.old) m.source) parts.now) tables.items) }
    ensures each { IfOk result (λ tables. length tables.items ≡ length parts.now) }
    ensures honest { AreIntact (T.files store.old) parts.now → IsCacheBacked (T.files store.old) cache.old → IfErr result IsOutside }
    ensures cache { CacheKeeps (T.files store.old) (IsFileAmong parts.now) cache.old cache.new }
    ensures undamaged { OnOk result (cache.new.damage ≡ cache.old.damage) }
    ensures damaged { IfErr result (TellsDamage cache.old.damage cache.new.damage) }
    ensures quiet { IsQuiet T.files T.layers T.clock T.since T.longest T.held store.old store.new }
    ensures later { T.faults store.old ≤ T.faults store.new }
    ensures store { result ≡ Err SegFault.Store → Rose (T.faults store.old) (T.faults store.new) }
{
    let mut tables = Vec::with_capacity(alloc, parts.len())?;
    for marked in parts {
        let table = part_table(alloc, leaves, marked.part(), store, cache)?;
        tables.push(table).map_err(AllocError::from)?;
    }
    Ok(tables)
}
