// What a collection has of the leaves of a query.
ghost use Rattle.std.specs.Prelude.{◌≡◌, ◌⊎◌, ◌<◌, ◌-◌, ◌^◌, length, map, All, Contains, Err, IfErr, IfOk, OnOk};
ghost use Rattle.ri_base.specs.Faults.{IsOutside, TellsDamage};
ghost use Rattle.ri_base.specs.Keeps.{Rose};
ghost use Rattle.query_check.specs.Leaves.{leaf_tree};
ghost use Rattle.belief_nodes.specs.Leaves.{AreLeafStats};
ghost use Rattle.disk_index.specs.Cache.{IsCacheBacked};
ghost use Rattle.disk_index.specs.Snapshots.{AreBacked, AreIntact, IsFileAmong, live};
ghost use Rattle.document_scoring.specs.Counts.{stats_of};
ghost use Rattle.counts.specs.Kept.{AreSums, Kept};
ghost use Rattle.counts.specs.Reading.{OnlyReads};

use counts::Counts;
use disk_index::{BlockCache, Snapshot};
use query_check::LeafKind;
use ri_base::{LeafStats, SegFault};
use std::alloc::{AllocError, Global};
use store_ends::Store;

/// How often a leaf occurs in the documents of a snapshot, and in how many tokens; of a prior nothing is counted.
fn leaf_stats<T: Store>(
    alloc: Global,
    leaf: &LeafKind,
    snapshot: &Snapshot,
    generation: u64,
    counts: &mut Counts,
    store: &mut T,
    cache: &mut BlockCache,
) -> Result<LeafStats, SegFault>
    ensures exact { AreBacked (T.files store.old) snapshot.now → IsCacheBacked (T.files store.old) cache.old → AreSums (live (T.files store.old) snapshot.now) generation counts.old
        → IfOk result (λ s. s ≡ stats_of (live (T.files store.old) snapshot.now) (leaf_tree leaf.now)) }
    ensures kept { AreBacked (T.files store.old) snapshot.now → IsCacheBacked (T.files store.old) cache.old → AreSums (live (T.files store.old) snapshot.now) generation counts.old
        → AreSums (live (T.files store.old) snapshot.now) generation counts.new }
    ensures adds { (e : Kept) → Contains counts.new e → Contains counts.old e ⊎ (e.generation < 2 ^ 64 - 1) }
    ensures range { IfOk result (λ s. AreLeafStats s) }
    ensures honest { AreIntact (T.files store.old) snapshot.now → IsCacheBacked (T.files store.old) cache.old → IfErr result IsOutside }
    ensures undamaged { OnOk result (cache.new.damage ≡ cache.old.damage) }
    ensures damaged { IfErr result (TellsDamage cache.old.damage cache.new.damage) }
    ensures reads { OnlyReads T.files T.layers T.clock T.since T.longest T.held T.faults (IsFileAmong snapshot.now) store.old store.new cache.old cache.new }
    ensures store { result ≡ Err SegFault.Store → Rose (T.faults store.old) (T.faults store.new) }
{
    match leaf {
        LeafKind::Extents(expr, context) => {
            let context = context.as_ref();
            counts.leaf(alloc, expr, context, snapshot, generation, store, cache)
        }
        LeafKind::Prior(_) => Ok(LeafStats { cf: 0, total: 0 }),
    }
}

/// How often each leaf occurs in the documents of a snapshot, and in how many tokens, in order of leaf numbers.
pub fn all_stats<T: Store>(
    alloc: Global,
    leaves: &[LeafKind],
    snapshot: &Snapshot,
    generation: u64,
    counts: &mut Counts,
    store: &mut T,
    cache: &mut BlockCache,
) -> Result<Vec<LeafStats>, SegFault>
    ensures exact { AreBacked (T.files store.old) snapshot.now → IsCacheBacked (T.files store.old) cache.old → AreSums (live (T.files store.old) snapshot.now) generation counts.old
        → IfOk result (λ stats. stats.items ≡ map (stats_of (live (T.files store.old) snapshot.now)) (map leaf_tree leaves.now)) }

    // The sums that are kept are right then too, and none of them is kept for the greatest generation that wasn't before.
    ensures kept { AreBacked (T.files store.old) snapshot.now → IsCacheBacked (T.files store.old) cache.old → AreSums (live (T.files store.old) snapshot.now) generation counts.old
        → OnOk result (AreSums (live (T.files store.old) snapshot.now) generation counts.new) }
    ensures adds { (e : Kept) → Contains counts.new e → Contains counts.old e ⊎ (e.generation < 2 ^ 64 - 1) }
    ensures each { IfOk result (λ stats. length stats.items ≡ length leaves.now) }
    ensures range { IfOk result (λ stats. All (λ s. AreLeafStats s) stats.items) }
    ensures honest { AreIntact (T.files store.old) snapshot.now → IsCacheBacked (T.files store.old) cache.old → IfErr result IsOutside }
    ensures undamaged { OnOk result (cache.new.damage ≡ cache.old.damage) }
    ensures damaged { IfErr result (TellsDamage cache.old.damage cache.new.damage) }
    ensures reads { OnlyReads T.files T.layers T.clock T.since T.longest T.held T.faults (IsFileAmong snapshot.now) store.old store.new cache.old cache.new }
    ensures store { result ≡ Err SegFault.Store → Rose (T.faults store.old) (T.faults store.new) }
{
    let mut stats = Vec::with_capacity(alloc, leaves.len())?;
    for leaf in leaves {
        let found = leaf_stats(alloc, leaf, snapshot, generation, counts, store, cache)?;
        stats.push(found).map_err(AllocError::from)?;
    }
    Ok(stats)
}
