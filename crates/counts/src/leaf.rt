// Sums that are kept for a while.
ghost use Rattle.std.specs.Prelude.{◌≡◌, ◌<◌, ◌≤◌, ◌-◌, ◌^◌, ◌⊎◌, [], Err, IfErr, IfOk, IfSome, IsOkAnd, Contains, option_copied, OnOk};
ghost use Rattle.ri_base.specs.Expression.{expr_tree};
ghost use Rattle.ri_base.specs.Faults.{IsOutside, TellsDamage};
ghost use Rattle.ri_base.specs.Keeps.{Rose};
ghost use Rattle.store_ends.specs.Files.{IsQuiet};
ghost use Rattle.disk_index.specs.Cache.{CacheKeeps, IsCacheBacked};
ghost use Rattle.disk_index.specs.Snapshots.{AreBacked, IsFileAmong, live, AreIntact};
ghost use Rattle.counts.specs.Kept.{AreSums, IsKept, IsNew, Kept, all_kept};
ghost use Rattle.counts.specs.Reading.{IsFaultOf};
ghost use Rattle.counts.specs.Sums.{AreBounded, sums};
ghost use Rattle.counts.specs.Told.{ArePartsTold};

use crate::kept_sum::{KeptSum, SumKey};
use crate::sums::sums_of;
use disk_index::{BlockCache, Snapshot};
use lru::LruCache;
use ri_base::{ExtentExpr, LeafStats, Name, NoMemory, SegFault};
use same_expressions::fingerprint;
use std::alloc::Global;
use std::marker::Model;
use std::num::NonZeroUsize;
use store_ends::Store;

/// Sums of expressions over the documents of snapshots, as many as it has slots, seen as the list of them. Of full slots the sums
/// that weren't asked for for the longest time make room.
pub struct Counts {
    sums: LruCache<SumKey, KeptSum>,
}

impl Drop for Counts {
    fn drop(self) {
        let Counts { sums } = self;
        drop(sums);
    }
}

impl Model for Counts {
    ghost use Rattle.std.specs.Prelude.{List, Contains};
    ghost use Rattle.std.specs.Coded.{codes};
    ghost use Rattle.ri_base.specs.contracts.expression.ExtentExpr as e;
    ghost use Rattle.counts.specs.Kept.{Kept, all_kept};
    ghost use Rattle.counts.specs.Sums.{AreBounded};

    ghost Value = { List Kept };

    ghost coded = { Prim.hlevel (codes, e.the_row.coded) };

    ghost view = { λ c. all_kept c.sums.entries };

    ghost invariant = { λ c. (k : Kept) → Contains (all_kept c.sums.entries) k → AreBounded k.stats };
}

impl Counts {
    /// No sums, with room for so many.
    pub fn new(alloc: Global, slots: NonZeroUsize) -> Result<Counts, NoMemory>
        ensures { IfOk result (λ c. c ≡ []) }
    {
        Ok(Counts {
            sums: LruCache::sparse(alloc, slots)?,
        })
    }

    /// How often the expression occurs in the documents of the snapshot, and how many of their tokens count: all, or with a
    /// context those in fields of that name. Where the sums are kept for this generation no file is read; else they are kept
    /// from now on, where there is memory for that. For the greatest generation nothing is kept.
    pub fn leaf<T: Store>(
        &mut self,
        alloc: Global,
        expr: &ExtentExpr,
        context: Option<&Name>,
        snapshot: &Snapshot,
        generation: u64,
        store: &mut T,
        cache: &mut BlockCache,
    ) -> Result<LeafStats, SegFault>
        ensures exact { AreBacked (T.files store.old) snapshot.now → IsCacheBacked (T.files store.old) cache.old
            → AreSums (live (T.files store.old) snapshot.now) generation self.old
            → IfOk result (λ s. s ≡ sums (live (T.files store.old) snapshot.now) (expr_tree expr.now) (option_copied context.entry)) }
        ensures kept { AreBacked (T.files store.old) snapshot.now → IsCacheBacked (T.files store.old) cache.old
            → AreSums (live (T.files store.old) snapshot.now) generation self.old
            → AreSums (live (T.files store.old) snapshot.now) generation self.new }

        // What is kept now was kept before, or is the answer.
        ensures adds { (e : Kept) → Contains self.new e → Contains self.old e
            ⊎ IsOkAnd result (IsNew generation (expr_tree expr.now) (option_copied context.entry) e) }

        ensures range { IfOk result (λ s. AreBounded s) }

        // Whatever the files have, sums that weren't kept are made of blocks that were told, so no malformed one is passed by.
        ensures told { IfOk result (λ s. IsKept self.old generation (expr_tree expr.now) (option_copied context.entry) s
            ⊎ ArePartsTold (T.files store.old) cache.old (expr_tree expr.now) snapshot.now) }

        ensures fault { IfErr result (IsFaultOf (T.files store.old) snapshot.now cache.old) }
        ensures honest { AreIntact (T.files store.old) snapshot.now → IsCacheBacked (T.files store.old) cache.old → IfErr result IsOutside }
        ensures cache { CacheKeeps (T.files store.old) (IsFileAmong snapshot.now) cache.old cache.new }
        ensures undamaged { OnOk result (cache.new.damage ≡ cache.old.damage) }
        ensures damaged { IfErr result (TellsDamage cache.old.damage cache.new.damage) }
        ensures quiet { IsQuiet T.files T.layers T.clock T.since T.longest T.held store.old store.new }
        ensures later { T.faults store.old ≤ T.faults store.new }
        ensures store { result ≡ Err SegFault.Store → Rose (T.faults store.old) (T.faults store.new) }
    {
        let key = SumKey {
            generation,
            fingerprint: fingerprint(expr, context),
        };
        if let Some(stats) = kept_at(&mut self.sums, key, expr, context) {
            return Ok(stats);
        }
        let stats = sums_of(alloc, expr, context, snapshot, store, cache)?;
        keep(alloc, &mut self.sums, key, expr, context, stats);
        Ok(stats)
    }
}

/// The sums of the expression with its context that are kept under this key.
fn kept_at(
    sums: &mut LruCache<SumKey, KeptSum>,
    key: SumKey,
    expr: &ExtentExpr,
    context: Option<&Name>,
) -> Option<LeafStats>
    ensures stay { (e : Kept) → Contains (all_kept sums.new.entries) e → Contains (all_kept sums.old.entries) e }
    ensures found { IfSome result
        (IsKept (all_kept sums.old.entries) key.generation (expr_tree expr.now) (option_copied context.entry)) }
{
    match sums.get(&key) {
        Some(sum) => sum.stats_of(expr, context),
        None => None,
    }
}

/// Keeps the sums, where memory allows it. The greatest generation may stand for several, so nothing is kept for it.
fn keep(
    alloc: Global,
    sums: &mut LruCache<SumKey, KeptSum>,
    key: SumKey,
    expr: &ExtentExpr,
    context: Option<&Name>,
    stats: LeafStats,
)
    ensures { (e : Kept) → Contains (all_kept sums.new.entries) e → Contains (all_kept sums.old.entries) e
        ⊎ IsNew key.generation (expr_tree expr.now) (option_copied context.entry) e stats }
{
    if key.generation == u64::MAX {
        return;
    }
    match KeptSum::of(alloc, expr, context, stats) {
        Ok(sum) => put(sums, key, sum),
        Err(_) => {}
    }
}

fn put(sums: &mut LruCache<SumKey, KeptSum>, key: SumKey, sum: KeptSum)
    ensures { (e : SumKey × KeptSum) → Contains sums.new.entries e → Contains sums.old.entries e ⊎ (e ≡ (key, sum)) }
{
    let _ = sums.put(key, sum);
}
